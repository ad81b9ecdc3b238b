ghost use Rattle.std.specs.Prelude.{◌≡◌};
ghost use Rattle.imsg_wire.specs.declared.raw.ImsgFault.TheVariants.{NoMemory as Memory};

use net_base::Bytes;
use std::alloc::AllocError;
use thiserror::Error;

/// A frame whose payload isn't read yet: its kind, the session that it speaks of (0 for none), who wrote it,
/// and its payload of at most 16368 bytes.
#[derive(Debug, Drop, PartialEq, Eq)]
pub struct Raw {
    pub kind: u32,
    pub peer: u32,
    pub pid: u32,
    pub payload: Bytes,
}

/// Why no frame was read.
#[derive(Clone, Copy, Debug, PartialEq, Eq, Error)]
pub enum ImsgFault {
    /// The next header has this length, which no frame has: it is below 16 or above 16384.
    #[error("a frame has the length {0}")]
    BadLength(u16),
    /// An allocation was refused.
    #[error("no memory")]
    NoMemory,
}

impl From<AllocError> for ImsgFault {
    ghost from_gives = { λ _ fault. fault ≡ Memory };

    fn from(_refused: AllocError) -> ImsgFault {
        ImsgFault::NoMemory
    }
}
