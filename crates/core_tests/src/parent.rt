use core_msgs::{Core, Done, Frame, Line};
use kroute::{Coupling, Kernel, TableMemory};
use net_base::{Addr, ConfFault, ConfKind, Family, Items, NoMemory, Prefix};
use parent_core::{Parent, ReloadRefusal};
use std::alloc::Global;
use std::test::Fail;

/// A configuration text.
#[derive(Clone, Copy, Debug, PartialEq, Eq)]
enum Text {
    /// Its canonical text has 112 bytes.
    Ordinary,
    /// 140 bytes.
    Qualifying,
    /// 136 bytes.
    Mirrored,
    /// The kernel tables are decoupled.
    Silent,
    Faulty,
}

impl Text {
    fn bytes(self) -> &'static [u8] {
        match self {
            Text::Ordinary => b"AS 65001\nrouter-id 10.0.0.1\n",
            Text::Qualifying => b"AS 65001\nrouter-id 10.0.0.1\nnexthop qualify via default\n",
            Text::Mirrored => b"AS 65001\nrouter-id 10.0.0.1\nrde rib mirror rtable 2\n",
            Text::Silent => b"AS 65001\nrouter-id 10.0.0.1\nfib-update no\n",
            Text::Faulty => b"AS 65001\nrouter-id 10.0.0.1\nfrobnicate\n",
        }
    }
}

/// A next hop.
#[derive(Clone, Copy, Debug, PartialEq, Eq)]
enum Hop {
    /// 10.0.0.2, of `Net::Near`.
    Near,
    /// 192.0.2.1.
    Far,
}

impl Hop {
    fn addr(self) -> Addr {
        let bits = match self {
            Hop::Near => 0x0a00_0002,
            Hop::Far => 0xc000_0201,
        };
        Addr {
            family: Family::V4,
            bits,
        }
    }
}

/// A prefix.
#[derive(Clone, Copy, Debug, PartialEq, Eq)]
enum Net {
    Near,
    All,
    One,
}

impl Net {
    fn prefix(self) -> Result<Prefix, Fail> {
        let text = match self {
            Net::Near => "10.0.0.0/24",
            Net::All => "0.0.0.0/0",
            Net::One => "192.0.2.0/24",
        };
        Ok(Prefix::read(text)?)
    }
}

/// A line or frame of a call.
#[derive(Clone, Copy, Debug, PartialEq, Eq)]
enum Out {
    Reloaded(u32),
    Lost(u32),
    Begin(Core, u32, u32),
    Piece(Core, usize),
    Commit(Core, u32),
    Answer(Hop, bool),
    Other,
}

/// A call, or what is asked of the parent and of the last call.
#[derive(Clone, Copy)]
enum Step {
    Reload(Text),
    /// A reload that both cores take up; what it gives is passed over.
    Configure(Text),
    Ack(u32),
    Track(Hop),
    Untrack(Hop),
    Route(Net, bool),
    Want(u32, Net),
    WantNone(u32, Net),
    Couple(u32, bool),
    Fail(u32, u32),
    Unit,
    /// The last reload was answered so.
    Answers(Result<u32, ReloadRefusal>),
    /// What the last call gave next.
    Gives(Out),
    /// What is under way, and the lowest table with a job.
    Has(Option<u32>, Option<u32>),
    /// How a table stands, how many rows of it are wanted, and how many the kernel has.
    Stands(u32, Option<Coupling>, usize, usize),
}

/// A parent with its kernel, and what it answered last.
#[derive(Drop)]
struct Bench {
    parent: Parent,
    kernel: TableMemory,
    answer: Result<u32, ReloadRefusal>,
    given: Items<Out>,
    at: usize,
}

fn line_out(line: &Line) -> Out {
    match line {
        Line::Reloaded(generation) => Out::Reloaded(*generation),
        Line::KernelLost(table) => Out::Lost(*table),
        _ => Out::Other,
    }
}

fn frame_out(core: Core, frame: &Frame) -> Out {
    match frame {
        Frame::Begin { generation, length } => Out::Begin(core, *generation, *length),
        Frame::Piece(piece) => Out::Piece(core, piece.len()),
        Frame::Commit(generation) => Out::Commit(core, *generation),
        Frame::Nexthop { hop, valid } if *hop == Hop::Near.addr() => Out::Answer(Hop::Near, *valid),
        Frame::Nexthop { hop, valid } if *hop == Hop::Far.addr() => Out::Answer(Hop::Far, *valid),
        _ => Out::Other,
    }
}

fn push_lines(outs: &mut Items<Out>, done: &Done) -> Result<(), NoMemory> {
    for line in done.lines.iter() {
        outs.push(line_out(line))?;
    }
    Ok(())
}

fn push_frames(outs: &mut Items<Out>, done: &Done) -> Result<(), NoMemory> {
    for (core, frame) in done.frames.iter() {
        outs.push(frame_out(*core, frame))?;
    }
    Ok(())
}

/// The frame of a step that is one. Each wanted row goes by the near next hop.
fn frame_of(step: Step) -> Result<Option<Frame>, Fail> {
    Ok(match step {
        Step::Ack(generation) => Some(Frame::Ack(generation)),
        Step::Track(hop) => Some(Frame::Track(hop.addr())),
        Step::Untrack(hop) => Some(Frame::Untrack(hop.addr())),
        Step::Want(table, net) => Some(Frame::FibSet {
            table,
            prefix: net.prefix()?,
            hop: Hop::Near.addr(),
        }),
        Step::WantNone(table, net) => Some(Frame::FibDel {
            table,
            prefix: net.prefix()?,
        }),
        Step::Couple(table, on) => Some(Frame::Couple { table, on }),
        _ => None,
    })
}

impl Bench {
    fn new(alloc: Global, kernel: TableMemory) -> Bench {
        Bench {
            parent: Parent::new(alloc),
            kernel,
            answer: Ok(0),
            given: Items::new(alloc),
            at: 0,
        }
    }

    /// A call gives what stands behind it and no more; lines stand before frames.
    fn gives(&mut self, alloc: Global, done: &Done) -> Result<(), Fail> {
        if self.given.len() != self.at {
            return Err("more was given".into());
        }
        self.at = 0;
        self.given = Items::new(alloc);
        push_lines(&mut self.given, done)?;
        push_frames(&mut self.given, done)?;
        Ok(())
    }

    fn reload(&mut self, alloc: Global, text: Text) -> Result<(), Fail> {
        if self.parent.accepted() > 9 {
            return Err("too many reloads".into());
        }
        match self.parent.reload(text.bytes()) {
            Ok((generation, done)) => {
                self.answer = Ok(generation);
                self.gives(alloc, &done)
            }
            Err(refusal) => {
                self.answer = Err(refusal);
                Ok(())
            }
        }
    }

    fn configure(&mut self, text: Text) -> Result<(), Fail> {
        if self.parent.accepted() > 9 {
            return Err("too many reloads".into());
        }
        let Ok((generation, _)) = self.parent.reload(text.bytes()) else {
            return Err("the reload is refused".into());
        };
        self.parent.frame(Frame::Ack(generation))?;
        self.parent.frame(Frame::Ack(generation))?;
        Ok(())
    }

    fn call(&mut self, alloc: Global, step: Step) -> Result<(), Fail> {
        if let Some(frame) = frame_of(step)? {
            let done = self.parent.frame(frame)?;
            return self.gives(alloc, &done);
        }
        match step {
            Step::Reload(text) => self.reload(alloc, text),
            Step::Configure(text) => self.configure(text),
            Step::Route(net, up) => {
                let done = self.parent.kernel_route(net.prefix()?, up)?;
                self.gives(alloc, &done)
            }
            Step::Unit => {
                let done = self.parent.unit(&mut self.kernel)?;
                self.gives(alloc, &done)
            }
            Step::Fail(table, n) => Ok(self.parent.arrange(table, n)?),
            _ => Ok(()),
        }
    }

    /// Whether a question has the answer of the step.
    fn holds(&mut self, alloc: Global, step: Step) -> Result<bool, Fail> {
        match step {
            Step::Answers(answer) => Ok(self.answer == answer),
            Step::Gives(out) => {
                let is = self.given.get(self.at) == Some(&out);
                self.at = self.at.saturating_add(1);
                Ok(is)
            }
            Step::Has(under_way, job) => {
                Ok(self.parent.under_way() == under_way && self.parent.job() == job)
            }
            Step::Stands(table, coupling, wanted, held) => {
                let tables = self.parent.tables();
                let kept = tables.coupling(table) == coupling && tables.len(table) == wanted;
                Ok(kept && self.kernel.list(alloc, table)?.len() == held)
            }
            _ => Ok(true),
        }
    }

    /// Takes steps one by one. It fails at the first that isn't as it says.
    fn go(&mut self, alloc: Global, steps: &[Step]) -> Result<(), Fail> {
        for step in steps {
            self.call(alloc, *step)?;
            if !self.holds(alloc, *step)? {
                return Err("a step isn't as it says".into());
            }
        }
        Ok(())
    }
}

const FAULT: Result<u32, ReloadRefusal> = Err(ReloadRefusal::Refused(ConfFault {
    line: 3,
    kind: ConfKind::UnexpectedWord,
}));

const UNDER_WAY: Result<u32, ReloadRefusal> = Err(ReloadRefusal::UnderWay(1));

const RELOADS: &[Step] = &[
    Step::Reload(Text::Faulty),
    Step::Answers(FAULT),
    Step::Has(None, None),
    Step::Reload(Text::Ordinary),
    Step::Answers(Ok(1)),
    Step::Gives(Out::Begin(Core::Session, 1, 112)),
    Step::Gives(Out::Piece(Core::Session, 112)),
    Step::Gives(Out::Commit(Core::Session, 1)),
    Step::Has(Some(1), None),
    Step::Reload(Text::Faulty),
    Step::Answers(UNDER_WAY),
    Step::Ack(2),
    Step::Stands(0, None, 0, 0),
    Step::Ack(1),
    Step::Gives(Out::Begin(Core::Decision, 1, 112)),
    Step::Gives(Out::Piece(Core::Decision, 112)),
    Step::Gives(Out::Commit(Core::Decision, 1)),
    Step::Has(Some(1), Some(0)),
    Step::Reload(Text::Ordinary),
    Step::Answers(UNDER_WAY),
    Step::Ack(1),
    Step::Gives(Out::Reloaded(1)),
    Step::Has(None, Some(0)),
    Step::Ack(1),
    Step::Reload(Text::Faulty),
    Step::Answers(FAULT),
    Step::Reload(Text::Mirrored),
    Step::Answers(Ok(2)),
    Step::Gives(Out::Begin(Core::Session, 2, 136)),
    Step::Gives(Out::Piece(Core::Session, 136)),
    Step::Gives(Out::Commit(Core::Session, 2)),
];

#[test]
fn reloads_go_one_after_another(rt: HostRuntime) -> Result<(), Fail> {
    Bench::new(rt.alloc(), TableMemory::new(rt.alloc())).go(rt.alloc(), RELOADS)
}

const NEXT_HOPS: &[Step] = &[
    Step::Track(Hop::Near),
    Step::Gives(Out::Answer(Hop::Near, false)),
    Step::Route(Net::Near, true),
    Step::Gives(Out::Answer(Hop::Near, true)),
    Step::Track(Hop::Near),
    Step::Gives(Out::Answer(Hop::Near, true)),
    Step::Route(Net::All, true),
    Step::Track(Hop::Far),
    Step::Gives(Out::Answer(Hop::Far, false)),
    Step::Reload(Text::Qualifying),
    Step::Answers(Ok(1)),
    Step::Gives(Out::Begin(Core::Session, 1, 140)),
    Step::Gives(Out::Piece(Core::Session, 140)),
    Step::Gives(Out::Commit(Core::Session, 1)),
    Step::Ack(1),
    Step::Gives(Out::Answer(Hop::Far, true)),
    Step::Gives(Out::Begin(Core::Decision, 1, 140)),
    Step::Gives(Out::Piece(Core::Decision, 140)),
    Step::Gives(Out::Commit(Core::Decision, 1)),
    Step::Ack(1),
    Step::Gives(Out::Reloaded(1)),
    Step::Untrack(Hop::Near),
    Step::Route(Net::Near, false),
    Step::Route(Net::All, false),
    Step::Gives(Out::Answer(Hop::Far, false)),
];

#[test]
fn next_hops_are_answered(rt: HostRuntime) -> Result<(), Fail> {
    Bench::new(rt.alloc(), TableMemory::new(rt.alloc())).go(rt.alloc(), NEXT_HOPS)
}

/// A kernel table takes a row, and is lost by a failed call.
const KERNEL_TABLE: &[Step] = &[
    Step::Reload(Text::Ordinary),
    Step::Answers(Ok(1)),
    Step::Gives(Out::Begin(Core::Session, 1, 112)),
    Step::Gives(Out::Piece(Core::Session, 112)),
    Step::Gives(Out::Commit(Core::Session, 1)),
    Step::Ack(1),
    Step::Gives(Out::Begin(Core::Decision, 1, 112)),
    Step::Gives(Out::Piece(Core::Decision, 112)),
    Step::Gives(Out::Commit(Core::Decision, 1)),
    Step::Want(0, Net::One),
    Step::Unit,
    Step::Unit,
    Step::Stands(0, Some(Coupling::Coupled), 1, 1),
    Step::Fail(0, 1),
    Step::WantNone(0, Net::One),
    Step::Unit,
    Step::Gives(Out::Lost(0)),
    Step::Couple(0, false),
    Step::Stands(0, Some(Coupling::Lost), 0, 1),
    Step::Has(Some(1), None),
];

#[test]
fn a_kernel_table_follows(rt: HostRuntime) -> Result<(), Fail> {
    Bench::new(rt.alloc(), TableMemory::new(rt.alloc())).go(rt.alloc(), KERNEL_TABLE)
}

/// A kernel table that the configuration lacks is forgotten, and its rows stay in the kernel. Where it comes again, they are
/// listed, and deleted as they aren't wanted.
const COMES_AGAIN: &[Step] = &[
    Step::Configure(Text::Mirrored),
    Step::Want(2, Net::One),
    Step::Unit,
    Step::Unit,
    Step::Unit,
    Step::Stands(2, Some(Coupling::Coupled), 1, 1),
    Step::Configure(Text::Ordinary),
    Step::Stands(2, None, 0, 1),
    Step::Configure(Text::Mirrored),
    Step::Has(None, Some(2)),
    Step::Unit,
    Step::Stands(2, Some(Coupling::Coupled), 0, 1),
    Step::Unit,
    Step::Stands(2, Some(Coupling::Coupled), 0, 0),
    Step::Has(None, None),
];

#[test]
fn a_table_comes_again(rt: HostRuntime) -> Result<(), Fail> {
    Bench::new(rt.alloc(), TableMemory::new(rt.alloc())).go(rt.alloc(), COMES_AGAIN)
}

/// The switch couples and decouples the kernel tables. What is wanted of a decoupled one is kept.
const SWITCH: &[Step] = &[
    Step::Configure(Text::Silent),
    Step::Want(0, Net::One),
    Step::Has(None, None),
    Step::Stands(0, Some(Coupling::Decoupled), 1, 0),
    Step::Configure(Text::Ordinary),
    Step::Has(None, Some(0)),
    Step::Unit,
    Step::Unit,
    Step::Stands(0, Some(Coupling::Coupled), 1, 1),
    Step::Configure(Text::Silent),
    Step::Unit,
    Step::Stands(0, Some(Coupling::Decoupled), 1, 0),
    Step::Has(None, None),
];

#[test]
fn the_switch_changes(rt: HostRuntime) -> Result<(), Fail> {
    Bench::new(rt.alloc(), TableMemory::new(rt.alloc())).go(rt.alloc(), SWITCH)
}
