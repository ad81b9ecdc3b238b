use net_base::{Bytes, Items};

/// The most bytes of a piece of a text.
pub(crate) const LONGEST_PIECE: usize = 16000;

/// An item of a stage: the way of a configuration from one core to another.
#[derive(Debug, Drop, PartialEq, Eq)]
pub enum StageItem {
    /// A stage begins: the generation of its configuration, and the length in bytes of its text.
    Begin { generation: u32, length: u32 },
    /// The next bytes of the text.
    Piece(Bytes),
    /// The text of this generation is whole.
    Commit(u32),
}

/// Items of stages in the order in which they go.
pub type StageList = Items<StageItem>;
