ghost use Rattle.std.specs.Prelude.{◌≡◌};
ghost use Rattle.frame_codec.specs.declared.fault.FrameFault.TheVariants.{BadFrame as Bad, NoMemory as Memory};

use std::alloc::AllocError;
use thiserror::Error;
use wire_buf::Short;

/// Why no frame was read or written.
#[derive(Clone, Copy, Debug, PartialEq, Eq, Error)]
pub enum FrameFault {
    /// Of what is read, the payload isn't what is written for some frame of its kind, or there is no such kind. Of what is
    /// written, a part of the frame isn't what a payload can hold, or the payload has more bytes than one can.
    #[error("a bad frame")]
    BadFrame,
    /// An allocation was refused.
    #[error("no memory")]
    NoMemory,
}

impl From<Short> for FrameFault {
    ghost from_gives = { λ _ fault. fault ≡ Bad };

    fn from(_short: Short) -> FrameFault {
        FrameFault::BadFrame
    }
}

impl From<AllocError> for FrameFault {
    ghost from_gives = { λ _ fault. fault ≡ Memory };

    fn from(_refused: AllocError) -> FrameFault {
        FrameFault::NoMemory
    }
}
