ghost use Rattle.std.specs.Prelude.{◌≡◌, ℕ, List, [], ◌∷◌, ◌++◌, ◌↔◌, ◌<◌, length, Some, IsTrue, IfOk, IfSome, OnOk, OnErr};
ghost use Rattle.core_msgs.specs.declared.frame.Frame.{Frame};
ghost use Rattle.frame_codec.specs.Grammar.{Fits, raw_of};
ghost use Rattle.frame_link.specs.Carrying.{Carries, CompletesFirst, GivesFirst, IsPartial, ReadsGiven, TakesFront, moved};

use core_msgs::Frame;
use frame_codec::{FrameFault, frames_read_back, read, write};
use imsg_wire::{ImsgFault, Link, Raw, frames_split, links_append};
use net_base::NoMemory;
use std::alloc::{AllocError, Global};
use std::marker::Model;

/// A link from one core to another one, with the reader at its end.
#[derive(Drop)]
pub struct FrameLink {
    alloc: Global,
    /// The number of the core that writes here, which its frames bear.
    writer: u32,
    link: Link,
}

impl Model for FrameLink {
    ghost use Rattle.frame_link.specs.Carrying.{LinkState};

    ghost Value = { LinkState };

    ghost view = { λ l. record { writer = l.writer; reader = l.link.reader; coming = l.link.coming } };
}

impl FrameLink {
    /// A link without bytes, which takes no memory. The core that writes here has this number.
    pub fn new(alloc: Global, writer: u32) -> FrameLink
        ensures empty { result ≡ record { writer = writer; reader = []; coming = [] } }
        ensures carries { Carries result [] }
    {
        FrameLink {
            alloc,
            writer,
            link: Link::new(alloc),
        }
    }

    /// The bytes that were written and not yet moved.
    pub fn coming(&self) -> &[u8]
        ensures { result.now ≡ self.now.coming }
    {
        self.link.coming.peek()
    }

    /// Whether it holds no byte, in its reader neither.
    pub fn is_empty(&self) -> bool
        ensures { (fs : List Frame) → Carries self.now fs → (IsTrue result ↔ (fs ≡ [])) }
    {
        frames_split();
        self.link.is_empty()
    }

    /// Writes a frame at the end. `BadFrame` comes exactly where it doesn't fit, unless memory is refused first. Where it fails, the link is as it was.
    pub fn push(&mut self, frame: &Frame) -> Result<(), FrameFault>
        ensures carries { OnOk result ((fs : List Frame) → Carries self.old fs → Carries self.new (fs ++ frame.now ∷ [])) }
        ensures bad { result ≡ Err FrameFault.BadFrame → Fits frame.now → ⊥ }
        ensures reader { self.new.reader ≡ self.old.reader }
        ensures err { OnErr result (self.new ≡ self.old) }
    {
        links_append();
        write(self.alloc, frame, self.writer, &mut self.link.coming)
    }

    /// Moves the first `n` bytes that are still to come to the reader, or all where they are fewer. Where memory is
    /// refused, the link is as it was.
    pub fn deliver(&mut self, n: usize) -> Result<(), NoMemory>
        ensures ok { OnOk result (self.new ≡ moved n self.old) }
        ensures err { OnErr result (self.new ≡ self.old) }
        ensures carries { (fs : List Frame) → Carries self.old fs → Carries self.new fs }
    {
        self.link.deliver(n)
    }

    /// The next frame whose last byte the reader has. It moves no byte from those that are still to come.
    pub fn next(&mut self) -> Result<Option<Frame>, NoMemory>
        ensures gives { (fs : List Frame) → Carries self.old fs → GivesFirst self.old self.new fs result }
        ensures front { TakesFront self.old.reader self.new.reader result }
        ensures shorter { IfOk result (λ given. IfSome given (λ _. length self.new.reader < length self.old.reader)) }
        ensures fits { IfOk result (λ given. IfSome given Fits) }
    {
        let given = self.link.next();
        frame_given(self.alloc, given)
    }

    /// Moves the bytes that complete the next frame, and gives it. None comes exactly where the link carries no frame.
    pub fn take(&mut self) -> Result<Option<Frame>, NoMemory>
        ensures completes { (fs : List Frame) → Carries self.old fs → IsPartial self.old → CompletesFirst self.old self.new fs result }
        ensures fits { IfOk result (λ given. IfSome given Fits) }
    {
        frames_split();
        let missing = self.link.missing();
        self.link.deliver(missing)?;
        self.next()
    }
}

/// The frame that a link of frames gives, where it gives one. Frames alone are written, so that no length is bad.
fn frame_given(
    alloc: Global,
    given: Result<Option<Raw>, ImsgFault>,
) -> Result<Option<Frame>, NoMemory>
    ensures reads { ReadsGiven given result }
    ensures fits { IfOk result (λ given. IfSome given Fits) }
{
    match given {
        Ok(Some(raw)) => frame_of(alloc, &raw),
        Ok(None) => Ok(None),
        Err(ImsgFault::NoMemory) => Err(AllocError),
        Err(ImsgFault::BadLength(_)) => Ok(None),
    }
}

/// The frame of these bytes. Frames alone are written, so that each reads as one.
fn frame_of(alloc: Global, raw: &Raw) -> Result<Option<Frame>, NoMemory>
    ensures reads { (frame : Frame) (writer : ℕ) → Fits frame → raw_of frame writer ≡ raw.now → IfOk result (λ given. given ≡ Some frame) }
    ensures fits { IfOk result (λ given. IfSome given Fits) }
{
    frames_read_back();
    match read(alloc, raw) {
        Ok(frame) => Ok(Some(frame)),
        Err(FrameFault::NoMemory) => Err(AllocError),
        Err(FrameFault::BadFrame) => Ok(None),
    }
}
