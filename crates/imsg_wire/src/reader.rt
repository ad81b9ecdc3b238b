ghost use Rattle.std.specs.Prelude.{◌≡◌, ◌≤◌, ℕ, [], ◌++◌, ◌↔◌, IfOk, OnOk, OnErr, drop, length};
ghost use Rattle.imsg_wire.specs.Frame.{Bad, Judges, More, Takes, behind, frame_behind, frames, front_of, given, header_at};

use crate::header::{HEADER_LENGTH, Header, LONGEST, read_header};
use crate::{ImsgFault, Raw};
use net_base::{Bytes, NoMemory};
use std::alloc::Global;
use std::marker::Model;
use wire_buf::Pipe;

/// Reads frames from bytes that come in pieces. Contracts see the bytes that were fed and not taken.
///
/// It keeps its place: each byte is copied in once and out once, a header is decoded once, and of a frame that
/// isn't whole only the length is compared. So a frame costs as much as its bytes, whatever the pieces in
/// which they come.
#[derive(Drop)]
pub struct Reader {
    alloc: Global,
    held: Pipe,
    header: Option<Header>,
}

impl Model for Reader {
    ghost use Rattle.std.specs.Prelude.{◌≡◌, ℕ, List, Some};
    ghost use Rattle.std.specs.Option.{ForSome};
    ghost use Rattle.imsg_wire.specs.Frame.{header_at};

    ghost Value = { List ℕ };

    ghost view = { λ r. r.held };

    ghost invariant = { λ r. ForSome r.header (λ h. header_at r.held ≡ Some h) };
}

impl Reader {
    /// A reader without bytes, which takes no memory.
    pub fn new(alloc: Global) -> Reader
        ensures { result ≡ [] }
    {
        Reader {
            alloc,
            held: Pipe::new(alloc),
            header: None,
        }
    }

    /// Puts bytes behind those that it holds. Where memory is refused, it holds what it held.
    pub fn feed(&mut self, bytes: &[u8]) -> Result<(), NoMemory>
        ensures ok { OnOk result (self.new ≡ self.old ++ bytes.now) }
        ensures err { OnErr result (self.new ≡ self.old) }
    {
        self.held.push(bytes)
    }

    /// The bytes that were fed and not taken.
    pub fn held(&self) -> &[u8]
        ensures { result.now ≡ self.now }
    {
        self.held.peek()
    }

    /// The next whole frame, whose bytes it takes. Where it answers no frame, it holds what it held.
    ///
    /// `BadLength` comes exactly where the 16 bytes of the next header are there with a length below 16 or above
    /// 16384, and then for ever. None comes exactly where that isn't so and the frame isn't whole.
    pub fn next(&mut self) -> Result<Option<Raw>, ImsgFault>
        ensures takes { Takes self.old self.new result }
        ensures none { (result ≡ Ok None) ↔ (front_of self.old ≡ More) }
        ensures bad { (size : ℕ) → (result ≡ Err (ImsgFault.BadLength size)) ↔ (front_of self.old ≡ Bad size) }
        // What is left to be read is what was there without what is given.
        ensures frames { frames self.old ≡ behind (given result) (frames self.new) }
    {
        self.take_first()
    }

    // The next whole frame.
    fn take_first(&mut self) -> Result<Option<Raw>, ImsgFault>
        ensures { Takes self.old self.new result }
    {
        let known = read_header(self.header, self.held.peek());
        self.header = known;
        let Some(header) = whole_header(known, self.held.peek())? else {
            return Ok(None);
        };
        let raw = take_frame(self.alloc, header, &mut self.held)?;
        self.header = None;
        Ok(Some(raw))
    }
}

// The header of the frame at the front of these bytes, where it is whole.
fn whole_header(known: Option<Header>, bytes: &[u8]) -> Result<Option<Header>, ImsgFault>
    requires { header_at bytes.now ≡ known }
    ensures { Judges bytes.now result }
{
    match known {
        None => Ok(None),
        Some(header) => judged(header, bytes),
    }
}

// The same, of a header that is there.
fn judged(header: Header, bytes: &[u8]) -> Result<Option<Header>, ImsgFault>
    requires { header_at bytes.now ≡ Some header }
    ensures { Judges bytes.now result }
{
    let size = usize::from(header.size);
    if size < HEADER_LENGTH || size > LONGEST {
        return Err(ImsgFault::BadLength(header.size));
    }
    if bytes.len() < size {
        return Ok(None);
    }
    Ok(Some(header))
}

// Takes the frame with this header. Where memory is refused, the bytes are as they were.
fn take_frame(alloc: Global, header: Header, held: &mut Pipe) -> Result<Raw, NoMemory>
    requires low { 16 ≤ header.size }
    requires whole { header.size ≤ length held.old }
    ensures frame { IfOk result (λ raw. raw ≡ frame_behind header held.old) }
    ensures ok { OnOk result (held.new ≡ drop header.size held.old) }
    ensures err { OnErr result (held.new ≡ held.old) }
{
    let size = usize::from(header.size);
    let payload = Bytes::from_slice(alloc, &held.peek()[HEADER_LENGTH..size])?;
    held.take(size);
    Ok(Raw {
        kind: header.kind,
        peer: header.peer,
        pid: header.pid,
        payload,
    })
}
