ghost use Rattle.std.specs.Prelude.{◌≡◌, ℕ, List, [], ◌∷◌, ◌++◌, ◌<◌, ◌≤◌, ◌↔◌, ◌==◌, ◌&&◌, length, take, drop, get_or, IfOk, IfSome, OnOk, OnErr};
ghost use Rattle.imsg_wire.specs.Holding.{size_in};

use crate::{ImsgFault, Raw, Reader, frame};
use net_base::NoMemory;
use std::alloc::Global;
use wire_buf::Pipe;

/// A link from one core to another: the bytes that were written and not yet moved, and the reader to which
/// they move. Contracts see the bytes of both, and of these the frames that it holds.
#[derive(Drop)]
pub struct Link {
    /// The bytes that came out of the link, up to the end of the last frame that was taken.
    pub reader: Reader,
    /// The bytes that are still to come out. What writes frames may append them here.
    pub coming: Pipe,
}

impl Link {
    ghost use Rattle.imsg_wire.specs.declared.raw.Raw.{Raw};
    ghost use Rattle.imsg_wire.specs.Frame.{More, Takes, frame_bytes, front_of};
    ghost use Rattle.imsg_wire.specs.Holding.{GivesFirst, Holds, missing_of, with_frame};

    /// A link without bytes, which takes no memory.
    pub fn new(alloc: Global) -> Link
        ensures reader { result.reader ≡ [] }
        ensures coming { result.coming ≡ [] }
        ensures holds { Holds result [] }
    {
        Link {
            reader: Reader::new(alloc),
            coming: Pipe::new(alloc),
        }
    }

    /// Writes a frame at the end of the link. Where memory is refused, the link is as it was.
    pub fn push(&mut self, kind: u32, peer: u32, pid: u32, payload: &[u8]) -> Result<(), NoMemory>
        requires { length payload.now ≤ 16368 }
        ensures ok { OnOk result (self.new ≡
            with_frame self.old (record { kind = kind; peer = peer; pid = pid; payload = payload.now })) }
        ensures err { OnErr result (self.new ≡ self.old) }
        ensures holds { OnOk result ((raws : List Raw) → Holds self.old raws →
            Holds self.new (raws ++ record { kind = kind; peer = peer; pid = pid; payload = payload.now } ∷ [])) }
    {
        frame(kind, peer, pid, payload, &mut self.coming)
    }

    /// Moves the first `n` bytes that are still to come to the reader, or all where they are fewer. Where memory
    /// is refused, the link is as it was.
    pub fn deliver(&mut self, n: usize) -> Result<(), NoMemory>
        ensures ok { OnOk result (self.new ≡
            record { reader = self.old.reader ++ take n self.old.coming; coming = drop n self.old.coming }) }
        ensures err { OnErr result (self.new ≡ self.old) }
        ensures holds { (raws : List Raw) → Holds self.old raws → Holds self.new raws }
    {
        let n = std::cmp::min(n, self.coming.len());
        self.reader.feed(&self.coming.peek()[..n])?;
        self.coming.take(n);
        Ok(())
    }

    /// Whether it holds no byte, in its reader neither.
    pub fn is_empty(&self) -> bool
        ensures { result ≡ (length self.now.reader == 0 && length self.now.coming == 0) }
    {
        self.reader.held().len() == 0 && self.coming.len() == 0
    }

    /// How many of the bytes that are still to come complete the frame that comes next, where the reader has a part of
    /// it or nothing.
    pub fn missing(&self) -> usize
        ensures value { result ≡ missing_of self.now }
        ensures completes { (raw : Raw) (raws : List Raw) → Holds self.now (raw ∷ raws) → front_of self.now.reader ≡ More →
            self.now.reader ++ take result self.now.coming ≡ frame_bytes raw }
    {
        let held = self.reader.held();
        size_of(held, self.coming.peek()).saturating_sub(held.len())
    }

    /// The next frame whose last byte the reader has. It moves no byte from those that are still to come.
    pub fn next(&mut self) -> Result<Option<Raw>, ImsgFault>
        ensures takes { Takes self.old.reader self.new.reader result }
        ensures coming { self.new.coming ≡ self.old.coming }
        ensures none { (result ≡ Ok None) ↔ (front_of self.old.reader ≡ More) }
        ensures shorter { IfOk result (λ given. IfSome given (λ _. length self.new.reader < length self.old.reader)) }
        // Of a link to which frames alone were written, the first is given, and no length is bad.
        ensures holds { (raws : List Raw) → Holds self.old raws → GivesFirst self.old self.new raws result }
    {
        self.reader.next()
    }
}

/// The length that the header at the front of these bytes says.
fn size_of(held: &[u8], coming: &[u8]) -> usize
    ensures { result ≡ size_in (held.now ++ coming.now) }
{
    let low = byte_at(4, held, coming);
    let high = byte_at(5, held, coming);
    usize::from(low) + 256 * usize::from(high)
}

/// The byte at a place of these bytes, or 0 past their end.
fn byte_at(place: usize, held: &[u8], coming: &[u8]) -> u8
    ensures { result ≡ get_or (held.now ++ coming.now) place 0 }
{
    if place < held.len() {
        return held[place];
    }
    let place = place - held.len();
    if place < coming.len() {
        coming[place]
    } else {
        0
    }
}
