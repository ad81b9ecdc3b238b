use crate::Notify;

/// What stands at the front of a peer's bytes.
#[derive(Clone, Copy, Debug, PartialEq, Eq)]
pub enum Cut {
    /// No whole message yet, and no fault so far.
    More,
    /// A whole message of this type, with so many bytes, its header of 19 bytes included.
    Message { kind: u8, length: usize },
    /// A header that is to be answered by this NOTIFICATION, of code 1.
    Notify(Notify),
}
