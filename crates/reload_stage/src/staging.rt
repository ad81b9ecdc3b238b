ghost use Rattle.std.specs.Prelude.{◌≡◌, ◌++◌, ◌≤◌, ◌^◌, ◌<◌, length, IfOk, OnOk};
ghost use Rattle.conf_tree.specs.Canonical.{canonical};
ghost use Rattle.reload_stage.specs.Stages.{CanBeStaged, pieces, stage_items};

use crate::item::LONGEST_PIECE;
use crate::{StageItem, StageList};
use conf_print::print;
use conf_tree::Conf;
use net_base::{Items, NoMemory};
use std::alloc::Global;

/// The stage of a configuration under a generation: its Begin, its canonical text in pieces of 16000 bytes, of which
/// the last may have fewer, and its Commit. The configuration is one that a text says.
///
/// The only error is refused memory.
pub fn frames(alloc: Global, conf: &Conf, generation: u32) -> Result<StageList, NoMemory>
    requires { CanBeStaged conf.now }
    ensures { IfOk result (λ items. items ≡ stage_items generation (canonical conf.now)) }
{
    let text = print(alloc, conf)?;
    let mut items = Items::new(alloc);
    items.push(StageItem::Begin {
        generation,
        length: text.len() as u32,
    })?;
    push_pieces(alloc, &mut items, text.as_slice())?;
    items.push(StageItem::Commit(generation))?;
    Ok(items)
}

/// Puts the pieces of a text behind the items.
fn push_pieces(alloc: Global, items: &mut StageList, text: &[u8]) -> Result<(), NoMemory>
    ensures { OnOk result (items.new ≡ items.old ++ pieces text.now) }
{
    for piece in text.chunks(LONGEST_PIECE) {
        items.push(StageItem::Piece(Items::from_slice(alloc, piece)?))?;
    }
    Ok(())
}
