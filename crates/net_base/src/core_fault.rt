use thiserror::Error;

/// Why a call of one of the three cores, or of a table that it drives, gives nothing.
#[derive(Clone, Copy, Debug, PartialEq, Eq, Error)]
pub enum CoreFault {
    /// Memory ran out in this call. The core is spent from now on.
    #[error("out of memory")]
    NoMemory,
    /// Memory ran out in an earlier call.
    #[error("the core is spent")]
    Spent,
}
