ghost use Rattle.std.specs.Prelude.{◌≡◌, true};
ghost use Rattle.reload_stage.specs.declared.item.StageItem.TheVariants.{Begin, Piece, Commit};

use crate::{STAGE_LIMIT, StageFault, StageItem, read_conf};
use conf_tree::Conf;
use net_base::{Bytes, Items};
use std::alloc::Global;
use std::marker::Model;

/// How far the taking of a stage is.
#[derive(Clone, Copy, Debug, PartialEq, Eq)]
pub enum Progress {
    /// Nothing was taken.
    Nothing,
    /// A Begin was taken: the generation, and the length in bytes that the text is to have.
    Begun { generation: u32, length: u32 },
    /// The Commit of this generation was taken.
    Whole(u32),
}

/// Takes the items of a stage one by one. Contracts see how far the stage is, and its text so far.
///
/// The text is one buffer, to which each byte is copied once.
#[derive(Drop)]
pub struct Assembly {
    alloc: Global,
    progress: Progress,
    text: Bytes,
}

impl Model for Assembly {
    ghost use Rattle.reload_stage.specs.Stages.{Taken};

    ghost Value = { Taken };

    ghost view = { λ a. record { progress = a.progress; text = a.text } };
}

impl Assembly {
    ghost use Rattle.reload_stage.specs.Stages.{GivesConf, Takes, is_whole, nothing_taken};

    /// An assembly that has taken nothing, which takes no memory.
    pub fn new(alloc: Global) -> Assembly
        ensures { result ≡ nothing_taken }
    {
        Assembly {
            alloc,
            progress: Progress::Nothing,
            text: Items::new(alloc),
        }
    }

    /// Takes the next item of the stage.
    ///
    /// The error is `OutOfOrder` where the item can't follow those that were taken: a Begin comes first and only then,
    /// a Piece up to the length that the Begin gave, a Commit of the same generation at that length, and nothing behind
    /// it. It is `NoMemory` where memory for an item that can follow was refused. On either, nothing changes.
    #[tactic(auto, unfolding(crate::specs::Stages::can_follow))]
    pub fn take(&mut self, item: StageItem) -> Result<(), StageFault>
        ensures { Takes self.old self.new item result }
    {
        match item {
            StageItem::Begin { generation, length } => self.begin(generation, length),
            StageItem::Piece(piece) => self.take_piece(piece.as_slice()),
            StageItem::Commit(generation) => self.commit(generation),
        }
    }

    /// The generation of the stage and the configuration of its text, whose Commit was taken.
    ///
    /// The error is `BadText` with the first fault of the text, read with the limit of a stage, where it has one, or
    /// `NoMemory`.
    pub fn done(self) -> Result<(u32, Conf), StageFault>
        requires { is_whole self.progress ≡ true }
        ensures { GivesConf self result }
    {
        let Progress::Whole(generation) = self.progress else {
            return Err(StageFault::OutOfOrder);
        };
        let conf = read_conf(self.alloc, self.text.as_slice(), STAGE_LIMIT)?;
        Ok((generation, conf))
    }

    /// Takes a Begin.
    #[tactic(auto, unfolding(crate::specs::Stages::can_follow))]
    fn begin(&mut self, generation: u32, length: u32) -> Result<(), StageFault>
        ensures { Takes self.old self.new (Begin generation length) result }
    {
        if self.progress != Progress::Nothing {
            return Err(StageFault::OutOfOrder);
        }
        self.progress = Progress::Begun { generation, length };
        Ok(())
    }

    /// Takes the next bytes of the text.
    #[tactic(auto, unfolding(crate::specs::Stages::can_follow))]
    fn take_piece(&mut self, piece: &[u8]) -> Result<(), StageFault>
        ensures { Takes self.old self.new (Piece piece.now) result }
    {
        let Progress::Begun {
            generation: _,
            length,
        } = self.progress
        else {
            return Err(StageFault::OutOfOrder);
        };
        let (taken, most) = (self.text.len(), length as usize);
        if taken > most || piece.len() > most - taken {
            return Err(StageFault::OutOfOrder);
        }
        self.text.extend_from_slice(piece)?;
        Ok(())
    }

    /// Takes a Commit.
    #[tactic(auto, unfolding(crate::specs::Stages::can_follow))]
    fn commit(&mut self, committed: u32) -> Result<(), StageFault>
        ensures { Takes self.old self.new (Commit committed) result }
    {
        let Progress::Begun { generation, length } = self.progress else {
            return Err(StageFault::OutOfOrder);
        };
        if committed != generation || self.text.len() != length as usize {
            return Err(StageFault::OutOfOrder);
        }
        self.progress = Progress::Whole(generation);
        Ok(())
    }
}
