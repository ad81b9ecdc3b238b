ghost use Rattle.std.specs.Prelude.{◌≡◌};
ghost use Rattle.peer_session.specs.declared.refusal.SessionRefusal.TheVariants.{NoMemory as Memory};

use std::alloc::AllocError;
use thiserror::Error;

/// Why a call of the session core was refused. Where several hold, the first counts.
#[derive(Clone, Copy, Debug, PartialEq, Eq, Error)]
pub enum SessionRefusal {
    /// An earlier call ran out of memory.
    #[error("the session core is spent")]
    Spent,
    /// The address is that of no neighbour.
    #[error("unknown neighbour")]
    UnknownNeighbour,
    /// No RIB has a kernel table of this number.
    #[error("unknown table")]
    UnknownTable,
    /// No RIB has this name.
    #[error("unknown RIB")]
    UnknownRib,
    /// The neighbour is administratively down.
    #[error("administratively down")]
    AdminDown,
    /// The neighbour has a connection already.
    #[error("already open")]
    AlreadyOpen,
    /// The neighbour has no connection.
    #[error("no connection")]
    NoConnection,
    /// The session isn't established, or route refresh wasn't agreed.
    #[error("no route refresh")]
    NoRefresh,
    /// The moment lies before this one, which was told already.
    #[error("the time went back behind {0}")]
    TimeBack(u64),
    /// Memory was refused.
    #[error("no memory")]
    NoMemory,
}

impl From<AllocError> for SessionRefusal {
    ghost from_gives = { λ _ refusal. refusal ≡ Memory };

    fn from(_refused: AllocError) -> SessionRefusal {
        SessionRefusal::NoMemory
    }
}
