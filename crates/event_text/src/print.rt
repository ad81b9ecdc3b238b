ghost use Rattle.std.specs.Prelude.{◌≡◌, ◌++◌, IfOk, OnOk, length};
ghost use Rattle.core_msgs.specs.EventText.{event_text, event_line, lines_behind, words_text, missing_end, way_word, kernel_word};

use crate::line::{link_word, print_hex};
use core_msgs::Event;
use net_base::{Bytes, Items, NoMemory, Way};
use std::alloc::Global;

/// The text of an event as it stands in an event file, with its line ends. Where the text of a `reload` isn't empty and
/// its last line lacks its LF, one is put there.
#[tactic(auto, unfolding(core_msgs::specs::EventText::event_text))]
pub fn print_event(alloc: Global, event: &Event) -> Result<Bytes, NoMemory>
    ensures { IfOk result (λ text. text ≡ event_text event.now) }
{
    let mut out = Items::new(alloc);
    print_event_line(alloc, event, &mut out)?;
    out.push(b'\n')?;
    print_behind(event, &mut out)?;
    Ok(out)
}

/// Puts the line of an event, and of a `reload` the first one, behind some bytes, without its LF.
fn print_event_line(alloc: Global, event: &Event, out: &mut Bytes) -> Result<(), NoMemory>
    ensures { OnOk result (out.new ≡ out.old ++ event_line event.now) }
{
    match event {
        Event::Time(moment) => write!(out, "time {moment}"),
        Event::Open(peer, way) => write!(out, "open {peer} {}", way_word(*way)),
        Event::Bytes(peer, bytes) => {
            write!(out, "bytes {peer} ")?;
            print_hex(alloc, bytes, out)
        }
        Event::Close(peer) => write!(out, "close {peer}"),
        Event::KernelRoute(prefix, up) => write!(out, "kroute {prefix} {}", kernel_word(*up)),
        Event::Reload(_) => out.extend_from_slice(b"reload"),
        Event::Deliver(link, count) => write!(out, "deliver {} {count}", link_word(*link)),
        Event::Work(count) => write!(out, "work {count}"),
        Event::Write(peer, count) => write!(out, "write {peer} {count}"),
        Event::Stall(peer) => write!(out, "stall {peer}"),
        Event::Flow(peer) => write!(out, "flow {peer}"),
        Event::Turn(count) => write!(out, "turn {count}"),
        Event::Settle => out.extend_from_slice(b"settle"),
        Event::Ctl(words) => {
            out.extend_from_slice(b"ctl")?;
            print_control_words(words.as_slice(), out)
        }
        Event::Cut(link) => write!(out, "cut {}", link_word(*link)),
        Event::KernelFail(table, call) => write!(out, "kfail {table} {call}"),
        Event::Stop => out.extend_from_slice(b"stop"),
    }
}

/// Puts the lines of an event behind its first one behind some bytes.
fn print_behind(event: &Event, out: &mut Bytes) -> Result<(), NoMemory>
    ensures { OnOk result (out.new ≡ out.old ++ lines_behind event.now) }
{
    match event {
        Event::Reload(text) => {
            let text = text.as_slice();
            out.extend_from_slice(text)?;
            print_missing_end(text.last().copied(), out)?;
            out.extend_from_slice(b".\n")
        }
        _ => Ok(()),
    }
}

/// Puts the LF that a text lacks behind some bytes, by the last byte of the text.
fn print_missing_end(last: Option<u8>, out: &mut Bytes) -> Result<(), NoMemory>
    ensures { OnOk result (out.new ≡ out.old ++ missing_end last) }
{
    match last {
        None => Ok(()),
        Some(last) if last == b'\n' => Ok(()),
        Some(_) => out.push(b'\n'),
    }
}

/// Puts the words of a control command behind some bytes, with a blank before each.
fn print_control_words(words: &[Bytes], out: &mut Bytes) -> Result<(), NoMemory>
    ensures { OnOk result (out.new ≡ out.old ++ words_text words.now) }
{
    for word in words {
        out.push(b' ')?;
        out.extend_from_slice(word.as_slice())?;
    }
    Ok(())
}

fn way_word(way: Way) -> &'static str
    ensures { result.now ≡ way_word way }
{
    match way {
        Way::In => "in",
        Way::Out => "out",
    }
}

fn kernel_word(up: bool) -> &'static str
    ensures { result.now ≡ kernel_word up }
{
    if up { "up" } else { "down" }
}
