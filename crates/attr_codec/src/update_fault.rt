ghost use Rattle.std.specs.Prelude.{◌≡◌};
ghost use Rattle.attr_codec.specs.declared.update_fault.UpdateFault.TheVariants.{NoMemory as Memory};

use std::alloc::AllocError;
use thiserror::Error;

/// Why an UPDATE, or its attribute field, was not read.
#[derive(Clone, Copy, Debug, PartialEq, Eq, Error)]
pub enum UpdateFault {
    /// It is to be answered by a NOTIFICATION of code 3 with this sub code (RFC 4271 section 6.3), which closes the
    /// connection.
    #[error("it is to be answered by NOTIFICATION 3/{0}")]
    Notify(u8),
    /// An allocation was refused.
    #[error("no memory")]
    NoMemory,
}

impl From<AllocError> for UpdateFault {
    ghost from_gives = { λ _ fault. fault ≡ Memory };

    fn from(_refused: AllocError) -> UpdateFault {
        UpdateFault::NoMemory
    }
}
