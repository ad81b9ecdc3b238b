ghost use Rattle.std.specs.Prelude.{◌≡◌, ◌++◌, IfOk, OnOk, codes, decimal, flat_map};
ghost use Rattle.hex.specs.Hex.{encode_lower};
ghost use Rattle.net_base.specs.Addr.{addr_text};
ghost use Rattle.core_msgs.specs.EventText.{link_word};
ghost use Rattle.event_text.specs.Lines.{refusal_text, part_text, peers_text, line_text, ended_line, answer_text};

use core_msgs::{Answer, Line, LinkName, PartName, Refusal};
use net_base::{Addr, Bytes, Items, NoMemory};
use std::alloc::Global;

/// The text of an answer: each of its lines with an LF, the one that ends it last.
pub fn print_answer(alloc: Global, answer: &Answer) -> Result<Bytes, NoMemory>
    ensures { IfOk result (λ text. text ≡ answer_text answer.now) }
{
    let mut text = Items::new(alloc);
    print_lines(alloc, answer.lines.as_slice(), &mut text)?;
    print_line(alloc, &answer.last, &mut text)?;
    Ok(text)
}

fn print_lines(alloc: Global, lines: &[Line], out: &mut Bytes) -> Result<(), NoMemory>
    ensures { OnOk result (out.new ≡ out.old ++ flat_map ended_line lines.now) }
{
    for line in lines {
        print_line(alloc, line, out)?;
    }
    Ok(())
}

/// Puts a line of an answer and its LF behind some bytes. Where memory is refused, a part of the line may stand there.
pub fn print_line(alloc: Global, line: &Line, out: &mut Bytes) -> Result<(), NoMemory>
    ensures { OnOk result (out.new ≡ out.old ++ ended_line line.now) }
{
    print_words(alloc, line, out)?;
    out.push(b'\n')
}

/// Puts a line behind some bytes, without its LF.
fn print_words(alloc: Global, line: &Line, out: &mut Bytes) -> Result<(), NoMemory>
    ensures { OnOk result (out.new ≡ out.old ++ line_text line.now) }
{
    match line {
        Line::Up(peer) => write!(out, "up {peer}"),
        Line::Down(peer, code, sub) => write!(out, "down {peer} {code} {sub}"),
        Line::DownMaxPrefix { peer, held, most } => {
            write!(out, "down {peer} 6 1 held {held} max {most}")
        }
        Line::DownLost(peer) => write!(out, "down {peer} lost"),
        Line::DownReceived(peer, code, sub) => write!(out, "down {peer} received {code} {sub}"),
        Line::Sent(peer, bytes) => print_bytes(alloc, "sent ", *peer, bytes, out),
        Line::Last(peer, bytes) => print_bytes(alloc, "last ", *peer, bytes, out),
        Line::Connect(peer) => write!(out, "connect {peer}"),
        Line::AppliedSession(generation) => print_numbered("applied s ", *generation, out),
        Line::AppliedDecision(generation) => print_numbered("applied r ", *generation, out),
        Line::Reloaded(generation) => print_numbered("reloaded ", *generation, out),
        Line::KernelLost(table) => print_numbered("kernel lost ", *table, out),
        Line::Row(row) => row.print(out),
        Line::Ok => out.extend_from_slice(b"ok"),
        Line::OkGeneration(generation) => print_numbered("ok ", *generation, out),
        Line::RefusedText(fault) => write!(out, "refused {fault}"),
        Line::Refused(why) => print_refused(*why, out),
        Line::Quiet => out.extend_from_slice(b"quiet"),
        Line::QuietExcept(peers) => print_quiet_except(peers.as_slice(), out),
        Line::Pending(part) => print_pending(part, out),
    }
}

/// Puts a word and a number behind some bytes.
fn print_numbered(word: &str, number: u32, out: &mut Bytes) -> Result<(), NoMemory>
    ensures { OnOk result (out.new ≡ out.old ++ (word.now ++ decimal number)) }
{
    write!(out, "{word}{number}")
}

/// Puts a word, the address of a neighbour and bytes behind some bytes.
fn print_bytes(
    alloc: Global,
    word: &str,
    peer: Addr,
    bytes: &Bytes,
    out: &mut Bytes,
) -> Result<(), NoMemory>
    ensures { OnOk result (out.new ≡ out.old ++ (word.now ++ (addr_text peer ++ (codes " " ++ encode_lower bytes.now)))) }
{
    write!(out, "{word}{peer} ")?;
    print_hex(alloc, bytes, out)
}

/// Puts bytes in hexadecimal digits of lower case behind some bytes.
pub(crate) fn print_hex(alloc: Global, bytes: &Bytes, out: &mut Bytes) -> Result<(), NoMemory>
    ensures { OnOk result (out.new ≡ out.old ++ encode_lower bytes.now) }
{
    let digits = hex::encode(alloc, bytes.as_slice())?;
    out.extend_from_slice(digits.as_str().as_bytes())
}

/// Puts `quiet except` and the stalled neighbours behind some bytes.
fn print_quiet_except(peers: &[Addr], out: &mut Bytes) -> Result<(), NoMemory>
    ensures { OnOk result (out.new ≡ out.old ++ (codes "quiet except" ++ peers_text peers.now)) }
{
    out.extend_from_slice(b"quiet except")?;
    print_peers(peers, out)
}

/// Puts addresses behind some bytes, with a blank before each.
fn print_peers(peers: &[Addr], out: &mut Bytes) -> Result<(), NoMemory>
    ensures { OnOk result (out.new ≡ out.old ++ peers_text peers.now) }
{
    for peer in peers {
        write!(out, " {peer}")?;
    }
    Ok(())
}

/// Puts `refused` and why behind some bytes.
fn print_refused(why: Refusal, out: &mut Bytes) -> Result<(), NoMemory>
    ensures { OnOk result (out.new ≡ out.old ++ (codes "refused " ++ refusal_text why)) }
{
    out.extend_from_slice(b"refused ")?;
    print_refusal(why, out)
}

/// Puts the reason of a refusal behind some bytes.
fn print_refusal(why: Refusal, out: &mut Bytes) -> Result<(), NoMemory>
    ensures { OnOk result (out.new ≡ out.old ++ refusal_text why) }
{
    match why {
        Refusal::UnknownNeighbour => out.extend_from_slice(b"UnknownNeighbour"),
        Refusal::UnknownTable => out.extend_from_slice(b"UnknownTable"),
        Refusal::UnknownRib => out.extend_from_slice(b"UnknownRib"),
        Refusal::AdminDown => out.extend_from_slice(b"AdminDown"),
        Refusal::AlreadyOpen => out.extend_from_slice(b"AlreadyOpen"),
        Refusal::NoConnection => out.extend_from_slice(b"NoConnection"),
        Refusal::NoRefresh => out.extend_from_slice(b"NoRefresh"),
        Refusal::BadWord(position) => write!(out, "BadWord {position}"),
        Refusal::UnderWay(generation) => write!(out, "UnderWay {generation}"),
        Refusal::TimeBack(moment) => write!(out, "TimeBack {moment}"),
        Refusal::NotBuilt => out.extend_from_slice(b"NotBuilt"),
        Refusal::NoMemory => out.extend_from_slice(b"NoMemory"),
    }
}

/// Puts `pending` and the part that has something to do behind some bytes.
fn print_pending(part: &PartName, out: &mut Bytes) -> Result<(), NoMemory>
    ensures { OnOk result (out.new ≡ out.old ++ (codes "pending " ++ part_text part.now)) }
{
    out.extend_from_slice(b"pending ")?;
    print_part(part, out)
}

/// Puts a part of the speaker behind some bytes.
fn print_part(part: &PartName, out: &mut Bytes) -> Result<(), NoMemory>
    ensures { OnOk result (out.new ≡ out.old ++ part_text part.now) }
{
    match part {
        PartName::Link(link) => write!(out, "link {}", link_word(*link)),
        PartName::Reload => out.extend_from_slice(b"reload"),
        PartName::Rib(name) => {
            out.extend_from_slice(b"rib ")?;
            out.extend_from_slice(name.as_slice())
        }
        PartName::Kernel(table) => write!(out, "kernel {table}"),
        PartName::Queue(peer) => write!(out, "queue {peer}"),
        PartName::Outbox(peer) => write!(out, "outbox {peer}"),
    }
}

/// A link by its two ends.
pub(crate) fn link_word(link: LinkName) -> &'static str
    ensures { result.now ≡ link_word link }
{
    match link {
        LinkName::Ps => "ps",
        LinkName::Sp => "sp",
        LinkName::Pr => "pr",
        LinkName::Rp => "rp",
        LinkName::Sr => "sr",
        LinkName::Rs => "rs",
    }
}
