ghost use Rattle.std.specs.Prelude.{◌≡◌};
ghost use Rattle.reload_stage.specs.declared.fault.StageFault.TheVariants.{NoMemory as Memory};
ghost use Rattle.reload_stage.specs.Faults.{fault_of};

use net_base::{ConfError, ConfFault};
use std::alloc::AllocError;
use thiserror::Error;

/// Why an item of a stage wasn't taken, or no configuration came of a stage.
#[derive(Clone, Copy, Debug, PartialEq, Eq, Error)]
pub enum StageFault {
    /// The item can't follow those that were taken.
    #[error("a stage is out of order")]
    OutOfOrder,

    /// The text of the stage is no good configuration.
    #[error("line {0}")]
    BadText(ConfFault),

    /// An allocation was refused. Nothing is said about the stage.
    #[error("no memory")]
    NoMemory,
}

impl From<AllocError> for StageFault {
    ghost from_gives = { λ _ fault. fault ≡ Memory };

    fn from(_refused: AllocError) -> StageFault {
        StageFault::NoMemory
    }
}

impl From<ConfError> for StageFault {
    ghost from_gives = { λ error fault. fault ≡ fault_of error };

    fn from(error: ConfError) -> StageFault {
        match error {
            ConfError::Fault(fault) => StageFault::BadText(fault),
            ConfError::NoMemory => StageFault::NoMemory,
        }
    }
}
