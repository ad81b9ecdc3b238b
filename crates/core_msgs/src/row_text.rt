ghost use Rattle.std.specs.Prelude.{◌≡◌, ◌++◌, OnOk, codes, decimal, flat_map};
ghost use Rattle.core_msgs.specs.RowText.{who_text, origin_text, set_text, segment_text, path_text, attrs_text, route_text, flag_text, summary_text, neighbour_text, state_word, set_word, coupling_word, valid_word};

use crate::{Coupling, Row, State};
use attr_model::{Attrs, Flag, Path, RouteRow, Segment};
use conf_tree::SetKind;
use net_base::{Addr, Bytes, NoMemory};

impl Row {
    ghost use Rattle.core_msgs.specs.RowText.{row_text};

    /// Puts the text of this row behind some bytes, without an LF.
    pub fn print(&self, out: &mut Bytes) -> Result<(), NoMemory>
        ensures { OnOk result (out.new ≡ out.old ++ row_text self.now) }
    {
        match self {
            Row::Route(route) => print_route(out, "from", route),
            Row::Told(route) => print_route(out, "to", route),
            Row::Summary { peer, asn, state } => print_summary(out, *peer, *asn, *state),
            Row::Neighbour {
                peer,
                asn,
                state,
                hold,
                outbox,
            } => {
                print_summary(out, *peer, *asn, *state)?;
                write!(out, " hold {hold} outbox {outbox}")
            }
            Row::Set { kind, name, count } => {
                write!(out, "{} ", set_word(*kind))?;
                out.extend_from_slice(name.as_slice())?;
                write!(out, " {count}")
            }
            Row::RoaSet(count) => write!(out, "roa-set - {count}"),
            Row::KernelTable { number, rib, state } => {
                write!(out, "{number} ")?;
                out.extend_from_slice(rib.as_slice())?;
                write!(out, " {}", coupling_word(*state))
            }
            Row::FibTable(number) => write!(out, "table {number}"),
            Row::FibRow(prefix, hop) => write!(out, "{prefix} via {hop}"),
            Row::Nexthop(hop, valid) => write!(out, "{hop} {}", valid_word(*valid)),
            Row::Distinct(count) => write!(out, "distinct {count}"),
        }
    }
}

/// Puts a neighbour in one line behind some bytes: its address, its AS number and its state.
pub fn print_summary(out: &mut Bytes, peer: Addr, asn: u32, state: State) -> Result<(), NoMemory>
    ensures { OnOk result (out.new ≡ out.old ++ summary_text peer asn state) }
{
    write!(out, "{peer} AS {asn} {}", state_word(state))
}

/// Puts a route behind some bytes, with this word before its neighbour: `from`, or `to` where it was told.
pub fn print_route(out: &mut Bytes, word: &str, route: &RouteRow) -> Result<(), NoMemory>
    ensures { OnOk result (out.new ≡ out.old ++ route_text word.now route.now) }
{
    write!(out, "{} {} {word} ", flag_text(route.flag), route.prefix)?;
    print_who(out, route.who)?;
    print_attrs(out, &route.attrs)?;
    print_path(out, &route.attrs.path)
}

fn flag_text(flag: Flag) -> &'static str
    ensures { result.now ≡ flag_text flag }
{
    match flag {
        Flag::Best => ">",
        Flag::Eligible => "*",
        Flag::Not => "-",
        Flag::Held => "=",
    }
}

fn state_word(state: State) -> &'static str
    ensures { result.now ≡ state_word state }
{
    match state {
        State::Down => "Down",
        State::Idle => "Idle",
        State::Connect => "Connect",
        State::Active => "Active",
        State::OpenSent => "OpenSent",
        State::OpenConfirm => "OpenConfirm",
        State::Established => "Established",
    }
}

fn set_word(kind: SetKind) -> &'static str
    ensures { result.now ≡ set_word kind }
{
    match kind {
        SetKind::Prefix => "prefix-set",
        SetKind::As => "as-set",
        SetKind::Origin => "origin-set",
    }
}

fn coupling_word(state: Coupling) -> &'static str
    ensures { result.now ≡ coupling_word state }
{
    match state {
        Coupling::Coupled => "coupled",
        Coupling::Decoupled => "decoupled",
        Coupling::Lost => "lost",
    }
}

fn valid_word(valid: bool) -> &'static str
    ensures { result.now ≡ valid_word valid }
{
    if valid { "valid" } else { "invalid" }
}

/// Puts the neighbour of a route behind some bytes, or `local` for a network of this speaker.
fn print_who(out: &mut Bytes, who: Option<Addr>) -> Result<(), NoMemory>
    ensures { OnOk result (out.new ≡ out.old ++ who_text who) }
{
    match who {
        None => out.extend_from_slice(b"local"),
        Some(address) => write!(out, "{address}"),
    }
}

fn origin_text(origin: u8) -> &'static str
    ensures { result.now ≡ origin_text origin }
{
    if origin == 0 {
        "igp"
    } else if origin == 1 {
        "egp"
    } else {
        "incomplete"
    }
}

/// Puts the attributes that a row shows behind some bytes, up to the word `path`.
fn print_attrs(out: &mut Bytes, attrs: &Attrs) -> Result<(), NoMemory>
    ensures { OnOk result (out.new ≡ out.old ++ attrs_text attrs.now) }
{
    write!(
        out,
        " nexthop {} lp {} med {} weight {} origin {} path",
        attrs.hop,
        attrs.local_pref.unwrap_or(100),
        attrs.med.unwrap_or(0),
        attrs.weight,
        origin_text(attrs.origin),
    )
}

/// Puts a path behind some bytes, with a blank before it.
fn print_path(out: &mut Bytes, path: &Path) -> Result<(), NoMemory>
    ensures { OnOk result (out.new ≡ out.old ++ path_text path.now) }
{
    let segments = path.as_slice();
    if segments.is_empty() {
        return out.extend_from_slice(b" -");
    }
    print_segments(out, segments)
}

fn print_segments(out: &mut Bytes, segments: &[Segment]) -> Result<(), NoMemory>
    ensures { OnOk result (out.new ≡ out.old ++ flat_map segment_text segments.now) }
{
    for segment in segments {
        print_segment(out, segment)?;
    }
    Ok(())
}

/// Puts a segment behind some bytes, with a blank before each number and before a set.
fn print_segment(out: &mut Bytes, segment: &Segment) -> Result<(), NoMemory>
    ensures { OnOk result (out.new ≡ out.old ++ segment_text segment.now) }
{
    match segment {
        Segment::Sequence(numbers) => print_sequence(out, numbers.as_slice()),
        Segment::Set(numbers) => print_set(out, numbers.as_slice()),
    }
}

fn print_sequence(out: &mut Bytes, numbers: &[u32]) -> Result<(), NoMemory>
    ensures { OnOk result (out.new ≡ out.old ++ flat_map (λ n. codes " " ++ decimal n) numbers.now) }
{
    for number in numbers {
        write!(out, " {number}")?;
    }
    Ok(())
}

fn print_set(out: &mut Bytes, numbers: &[u32]) -> Result<(), NoMemory>
    ensures { OnOk result (out.new ≡ out.old ++ (codes " {" ++ (set_text numbers.now ++ codes "}"))) }
{
    out.extend_from_slice(b" {")?;
    if let Some((first, others)) = numbers.split_first() {
        write!(out, "{first}")?;
        print_others(out, others)?;
    }
    out.extend_from_slice(b"}")
}

fn print_others(out: &mut Bytes, numbers: &[u32]) -> Result<(), NoMemory>
    ensures { OnOk result (out.new ≡ out.old ++ flat_map (λ m. codes "," ++ decimal m) numbers.now) }
{
    for number in numbers {
        write!(out, ",{number}")?;
    }
    Ok(())
}
