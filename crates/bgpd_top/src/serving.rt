ghost use Rattle.std.specs.Prelude.{◌≡◌, ◌≢◌, ◌⊎◌, ◌+◌, ◌<◌, ◌^◌, List, [], fold, false, IfOk, IfErr, IfSome, OnOk, OnErr, IsOk, flat_map};
ghost use Rattle.std.specs.Io.KnownBytes.{append_known};
ghost use Rattle.event_text.specs.Lines.{ended_line, answer_text};
ghost use Rattle.run_record.specs.Run.{History};
ghost use Rattle.cores_link.specs.Routers.{Stands, is_spent, events_taken};
ghost use Rattle.bgpd_top.specs.World.{Talk, Heard, Passed};
ghost use Rattle.bgpd_top.specs.Serving.{ServedAll, CountsFaults, with_line, with_answer, end_told};
ghost use Rattle.bgpd_top.specs.ServeCauses.{EventServed, AnswersNext, end_next, Notes, IsStepFault, CountsStep, Closes};

use crate::world::{World, WorldEnd, WorldFault};
use core_msgs::{Answer, Event, Line};
use cores_link::Router;
use event_text::print_line;
use io_edge::Sink;
use net_base::{Bytes, Items, NoMemory};
use std::alloc::Global;
use thiserror::Error;

/// How many bytes of a transcript are held at most before they are written, the last line apart.
const MOST_HELD: usize = 65536;

/// Why serving ended before the world did.
#[derive(Clone, Copy, Debug, PartialEq, Eq, Error)]
pub enum ServeFault {
    /// The line of this number, counted from 1, isn't of the grammar of events.
    #[error("line {0}: bad event")]
    BadEvent(u32),
    /// The outside of the world failed.
    #[error("read fault")]
    ReadFault,
    /// The sink failed.
    #[error("write fault")]
    WriteFault,
    /// A line or the file is past its limit.
    #[error("too long")]
    TooLong,
    /// Memory was refused.
    #[error("no memory")]
    NoMemory,
}

impl From<WorldFault> for ServeFault {
    ghost use Rattle.std.specs.Prelude.{◌≡◌};
    ghost use Rattle.bgpd_top.specs.ServeCauses.{of_world};

    ghost from_gives = { λ cause fault. fault ≡ of_world cause };

    fn from(cause: WorldFault) -> Self {
        match cause {
            WorldFault::BadEvent(line) => ServeFault::BadEvent(line),
            WorldFault::ReadFault => ServeFault::ReadFault,
            WorldFault::TooLong => ServeFault::TooLong,
            WorldFault::NoMemory => ServeFault::NoMemory,
        }
    }
}

impl From<NoMemory> for ServeFault {
    ghost use Rattle.std.specs.Prelude.{◌≡◌};
    ghost use Rattle.bgpd_top.specs.declared.serving.ServeFault.TheVariants.{NoMemory};

    ghost from_gives = { λ _ fault. fault ≡ NoMemory };

    fn from(_: NoMemory) -> Self {
        ServeFault::NoMemory
    }
}

/// Serves the events of a world until it gives no more: each is stepped, and its answer handed to the world and written.
///
/// `Ok` comes exactly where the world ended, `BadEvent` and `TooLong` exactly where it failed so; what was written is
/// then the transcript of all events that it gave, and behind `ReadFault`, which comes only where the world's count of
/// faults rose, of all those before. `WriteFault` comes only where the sink's count rose, and wherever it did. What is
/// written goes out before the world asks its outside again.
pub fn serve<O: Sink, W: World>(
    alloc: Global,
    router: &mut Router,
    world: &mut W,
    out: &mut O,
) -> Result<(), ServeFault>
    requires live { is_spent router.old ≡ false }
    requires open { W.end world.old ≡ WorldEnd.Open }
    requires agrees { W.events world.old ≡ events_taken router.old }
    ensures served { (before : History) → Stands router.old before → IfSome (end_told result) (λ end.
        ServedAll W.passes end before router.new world.old world.new (O.written out.old) (O.written out.new)) }
    ensures end { IfSome (end_told result) (λ end. W.end world.new ≡ end) }
    ensures agrees { OnOk result (W.events world.new ≡ events_taken router.new) }
    ensures borrows { W.borrows world.new ≡ W.borrows world.old }
    ensures counts { CountsFaults W.notes (W.faults world.old) (W.faults world.new) (O.faults out.old) (O.faults out.new) result }
{
    let mut held = Items::new(alloc);
    let served = serve_held(alloc, router, world, &mut held, out);
    close(served, &mut held, out)
}

/// Serves the events of a world; of the transcript, what is held isn't written yet.
fn serve_held<O: Sink, W: World>(
    alloc: Global,
    router: &mut Router,
    world: &mut W,
    held: &mut Bytes,
    out: &mut O,
) -> Result<(), ServeFault>
    requires live { is_spent router.old ≡ false }
    requires open { W.end world.old ≡ WorldEnd.Open }
    requires agrees { W.events world.old ≡ events_taken router.old }
    ensures served { (before : History) → Stands router.old before → IfSome (end_told result) (λ end.
        ServedAll W.passes end before router.new world.old world.new
        (append_known (O.written out.old) held.old) (append_known (O.written out.new) held.new)) }
    ensures end { IfSome (end_told result) (λ end. W.end world.new ≡ end) }
    ensures agrees { OnOk result (W.events world.new ≡ events_taken router.new) }
    ensures noted { result ≡ Err ServeFault.ReadFault → W.notes ≡ false → held.new ≡ [] }
    ensures borrows { W.borrows world.new ≡ W.borrows world.old }
    ensures counts { CountsFaults W.notes (W.faults world.old) (W.faults world.new) (O.faults out.old) (O.faults out.new) result }
{
    while let Some(event) = next_event(alloc, router, world, held, out)? {
        serve_event(alloc, router, &event, world, held, out)?;
    }
    Ok(())
}

/// The next event of the world, with what it notes behind it. What is held goes out before the world may ask its outside.
fn next_event<O: Sink, W: World>(
    alloc: Global,
    router: &Router,
    world: &mut W,
    held: &mut Bytes,
    out: &mut O,
) -> Result<Option<Event>, ServeFault>
    requires open { W.end world.old ≡ WorldEnd.Open }
    requires agrees { W.events world.old ≡ events_taken router.now }
    ensures answer { AnswersNext W.passes world.old world.new
        (append_known (O.written out.old) held.old) (append_known (O.written out.new) held.new) result }
    ensures end { IfSome (end_next result) (λ end. W.end world.new ≡ end) }
    ensures events { IfOk result (λ answer. IfSome answer (λ _. W.events world.new ≡ W.events world.old + 1)) }
    ensures same { result ≡ Ok None → W.events world.new ≡ W.events world.old }
    ensures few { IfOk result (λ answer. IfSome answer (λ _. W.events world.new < 2 ^ 31)) }
    ensures noted { result ≡ Err ServeFault.ReadFault → W.notes ≡ false → held.new ≡ [] }
    ensures borrows { W.borrows world.new ≡ W.borrows world.old }
    ensures counts { CountsFaults W.notes (W.faults world.old) (W.faults world.new) (O.faults out.old) (O.faults out.new) result }
{
    flush_if(world.asks(), held, out)?;
    let answer = world.next(alloc, router);
    note(world, held)?;
    Ok(answer?)
}

/// Holds what the world notes.
fn note<W: World>(world: &mut W, held: &mut Bytes) -> Result<(), NoMemory>
    ensures noted { OnOk result (Notes W.passes W.notes world.old world.new held.old held.new) }
    ensures mute { W.notes ≡ false → IsOk result }
    ensures same { (W.events world.new ≡ W.events world.old) × (W.end world.new ≡ W.end world.old) × (W.faults world.new ≡ W.faults world.old) }
    ensures borrows { W.borrows world.new ≡ W.borrows world.old }
{
    let ahead = world.ahead()?;
    if ahead.is_empty() {
        return Ok(());
    }
    held.extend_from_slice(ahead.as_slice())
}

/// Steps an event, and hands and writes its answer line by line.
fn serve_event<O: Sink, W: World>(
    alloc: Global,
    router: &mut Router,
    event: &Event,
    world: &mut W,
    held: &mut Bytes,
    out: &mut O,
) -> Result<(), ServeFault>
    requires live { is_spent router.old ≡ false }
    requires few { events_taken router.old < 2 ^ 31 }
    ensures served { OnOk result ((before : History) → Stands router.old before → EventServed W.passes before event.now router.new world.old world.new
        (append_known (O.written out.old) held.old) (append_known (O.written out.new) held.new)) }
    ensures live { OnOk result (is_spent router.new ≡ false) }
    ensures events { OnOk result (events_taken router.new ≡ events_taken router.old + 1) }
    ensures same { (W.events world.new ≡ W.events world.old) × (W.end world.new ≡ W.end world.old) × (W.faults world.new ≡ W.faults world.old) }
    ensures borrows { W.borrows world.new ≡ W.borrows world.old }
    ensures cause { IfErr result IsStepFault }
    ensures counts { CountsStep (O.faults out.old) (O.faults out.new) result }
{
    let Ok(answer) = router.step(event) else {
        return Err(ServeFault::NoMemory);
    };
    tell(alloc, &answer, world, held, out)
}

/// Hands and writes an answer line by line.
fn tell<O: Sink, W: World>(
    alloc: Global,
    answer: &Answer,
    world: &mut W,
    held: &mut Bytes,
    out: &mut O,
) -> Result<(), ServeFault>
    ensures heard { OnOk result ((first : W) (talk : List Talk) → Passed W.passes first talk world.old →
        Passed W.passes first (with_answer talk answer.now) world.new) }
    ensures text { OnOk result (append_known (O.written out.new) held.new ≡ append_known (append_known (O.written out.old) held.old) (answer_text answer.now)) }
    ensures same { (W.events world.new ≡ W.events world.old) × (W.end world.new ≡ W.end world.old) × (W.faults world.new ≡ W.faults world.old) }
    ensures borrows { W.borrows world.new ≡ W.borrows world.old }
    ensures cause { IfErr result IsStepFault }
    ensures counts { CountsStep (O.faults out.old) (O.faults out.new) result }
{
    tell_lines(alloc, answer.lines.as_slice(), world, held, out)?;
    tell_line(alloc, &answer.last, world, held, out)
}

/// Hands and writes lines.
fn tell_lines<O: Sink, W: World>(
    alloc: Global,
    lines: &[Line],
    world: &mut W,
    held: &mut Bytes,
    out: &mut O,
) -> Result<(), ServeFault>
    ensures heard { OnOk result ((first : W) (talk : List Talk) → Passed W.passes first talk world.old →
        Passed W.passes first (fold with_line talk lines.now) world.new) }
    ensures text { OnOk result (append_known (O.written out.new) held.new ≡ append_known (append_known (O.written out.old) held.old) (flat_map ended_line lines.now)) }
    ensures same { (W.events world.new ≡ W.events world.old) × (W.end world.new ≡ W.end world.old) × (W.faults world.new ≡ W.faults world.old) }
    ensures borrows { W.borrows world.new ≡ W.borrows world.old }
    ensures cause { IfErr result IsStepFault }
    ensures counts { CountsStep (O.faults out.old) (O.faults out.new) result }
{
    for line in lines {
        tell_line(alloc, line, world, held, out)?;
    }
    Ok(())
}

/// Hands and writes a line.
fn tell_line<O: Sink, W: World>(
    alloc: Global,
    line: &Line,
    world: &mut W,
    held: &mut Bytes,
    out: &mut O,
) -> Result<(), ServeFault>
    ensures heard { OnOk result (W.passes world.old (Heard line.now) world.new) }
    ensures text { OnOk result (append_known (O.written out.new) held.new ≡ append_known (append_known (O.written out.old) held.old) (ended_line line.now)) }
    ensures same { (W.events world.new ≡ W.events world.old) × (W.end world.new ≡ W.end world.old) × (W.faults world.new ≡ W.faults world.old) }
    ensures borrows { W.borrows world.new ≡ W.borrows world.old }
    ensures cause { IfErr result IsStepFault }
    ensures counts { CountsStep (O.faults out.old) (O.faults out.new) result }
{
    print_line(alloc, line, held)?;
    world.carry(line)?;
    flush_if(held.len() > MOST_HELD, held, out)
}

/// Writes what is held where that is asked for.
fn flush_if<O: Sink>(asked: bool, held: &mut Bytes, out: &mut O) -> Result<(), ServeFault>
    ensures text { OnOk result (append_known (O.written out.new) held.new ≡ append_known (O.written out.old) held.old) }
    ensures empty { OnOk result (asked ≡ false ⊎ (held.new ≡ [])) }
    ensures cause { IfErr result (λ fault. fault ≡ ServeFault.WriteFault) }
    ensures counts { CountsStep (O.faults out.old) (O.faults out.new) result }
{
    if !asked {
        return Ok(());
    }
    flush(held, out)
}

/// Writes what is held.
fn flush<O: Sink>(held: &mut Bytes, out: &mut O) -> Result<(), ServeFault>
    ensures text { OnOk result (O.written out.new ≡ append_known (O.written out.old) held.old) }
    ensures empty { OnOk result (held.new ≡ []) }
    ensures some { OnErr result (held.old ≢ []) }
    ensures cause { IfErr result (λ fault. fault ≡ ServeFault.WriteFault) }
    ensures counts { CountsStep (O.faults out.old) (O.faults out.new) result }
{
    if held.is_empty() {
        return Ok(());
    }
    match out.write(held.as_slice()) {
        Ok(()) => {
            held.clear();
            Ok(())
        }
        Err(_) => Err(ServeFault::WriteFault),
    }
}

/// Writes what is held behind the last event, and answers how the serving ended.
fn close<O: Sink>(
    served: Result<(), ServeFault>,
    held: &mut Bytes,
    out: &mut O,
) -> Result<(), ServeFault>
    ensures { Closes served held.old (O.written out.old) (O.written out.new) (O.faults out.old) (O.faults out.new) result }
{
    if let Err(ServeFault::WriteFault) = served {
        return served;
    }
    flush(held, out)?;
    served
}
