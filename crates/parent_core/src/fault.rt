ghost use Rattle.std.specs.Prelude.{◌≡◌};
ghost use Rattle.parent_core.specs.Refusals.{refusal_of};
ghost use Rattle.parent_core.specs.declared.fault.ReloadRefusal.TheVariants.{NoMemory as Memory};

use net_base::{ConfError, ConfFault};
use std::alloc::AllocError;
use thiserror::Error;

/// Why a reload isn't accepted. Nothing has changed.
#[derive(Clone, Copy, Debug, PartialEq, Eq, Error)]
pub enum ReloadRefusal {
    /// Memory ran out in an earlier call.
    #[error("the core is spent")]
    Spent,
    /// The reload of this generation was accepted, and isn't done yet.
    #[error("generation {0} is under way")]
    UnderWay(u32),
    /// The text has this fault.
    #[error("line {0}")]
    Refused(ConfFault),
    /// Memory ran out in this call.
    #[error("out of memory")]
    NoMemory,
}

impl From<AllocError> for ReloadRefusal {
    ghost from_gives = { λ _ refusal. refusal ≡ Memory };

    fn from(_refused: AllocError) -> ReloadRefusal {
        ReloadRefusal::NoMemory
    }
}

impl From<ConfError> for ReloadRefusal {
    ghost from_gives = { λ error refusal. refusal ≡ refusal_of error };

    fn from(error: ConfError) -> ReloadRefusal {
        match error {
            ConfError::Fault(fault) => ReloadRefusal::Refused(fault),
            ConfError::NoMemory => ReloadRefusal::NoMemory,
        }
    }
}
