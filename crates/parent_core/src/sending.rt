//! What a call of the parent gives.

ghost use Rattle.std.specs.Prelude.{◌≡◌, ◌++◌, ◌∷◌, [], map, IfOk, OnOk};
ghost use Rattle.parent_core.specs.Calls.{loss};
ghost use Rattle.parent_core.specs.Frames.{frame_of, staged, answered, nothing, only_line, only_frames};

use core_msgs::{Core, Done, Frame, Line, SendList};
use net_base::{Items, NoMemory};
use nexthop_track::{ChangeList, HopChange};
use reload_stage::{StageItem, StageList};
use std::alloc::Global;

/// Nothing is reported or written.
pub(crate) fn nothing(alloc: Global) -> Done
    ensures { result ≡ nothing }
{
    Done {
        lines: Items::new(alloc),
        frames: Items::new(alloc),
    }
}

/// These frames are written.
pub(crate) fn only_frames(alloc: Global, frames: SendList) -> Done
    ensures { result ≡ only_frames frames }
{
    Done {
        lines: Items::new(alloc),
        frames,
    }
}

/// This line is reported.
pub(crate) fn only_line(alloc: Global, line: Line) -> Result<Done, NoMemory>
    ensures { IfOk result (λ done. done ≡ only_line line) }
{
    let mut lines = Items::new(alloc);
    lines.push(line)?;
    Ok(Done {
        lines,
        frames: Items::new(alloc),
    })
}

/// A table that is lost is reported.
pub(crate) fn loss(alloc: Global, lost: Option<u32>) -> Result<Done, NoMemory>
    ensures { IfOk result (λ done. done ≡ loss lost) }
{
    match lost {
        Some(table) => only_line(alloc, Line::KernelLost(table)),
        None => Ok(nothing(alloc)),
    }
}

/// A stage as frames to a core. The stage stays.
pub(crate) fn copied(alloc: Global, core: Core, items: &StageList) -> Result<SendList, NoMemory>
    ensures { IfOk result (λ frames. frames ≡ staged core items.now) }
{
    let mut frames = Items::new(alloc);
    for item in items.as_slice() {
        frames.push((core, copied_item(alloc, item)?))?;
    }
    Ok(frames)
}

fn copied_item(alloc: Global, item: &StageItem) -> Result<Frame, NoMemory>
    ensures { IfOk result (λ frame. frame ≡ frame_of item.now) }
{
    match item {
        StageItem::Begin { generation, length } => Ok(Frame::Begin {
            generation: *generation,
            length: *length,
        }),
        StageItem::Piece(piece) => {
            let piece = Items::from_slice(alloc, piece.as_slice())?;
            Ok(Frame::Piece(piece))
        }
        StageItem::Commit(generation) => Ok(Frame::Commit(*generation)),
    }
}

/// Puts a stage behind the frames, to a core. Its text is moved, not copied.
pub(crate) fn push_stage(
    frames: &mut SendList,
    core: Core,
    items: StageList,
) -> Result<(), NoMemory>
    ensures { OnOk result (frames.new ≡ frames.old ++ staged core items) }
{
    for item in items.into_vec() {
        frames.push((core, moved_item(item)))?;
    }
    Ok(())
}

fn moved_item(item: StageItem) -> Frame
    ensures { result ≡ frame_of item }
{
    match item {
        StageItem::Begin { generation, length } => Frame::Begin { generation, length },
        StageItem::Piece(piece) => Frame::Piece(piece),
        StageItem::Commit(generation) => Frame::Commit(generation),
    }
}

/// Answers on next hops as frames to the decision core.
pub(crate) fn answers(alloc: Global, changes: &ChangeList) -> Result<SendList, NoMemory>
    ensures { IfOk result (λ frames. frames ≡ map answered changes.now) }
{
    let mut frames = Items::new(alloc);
    for change in changes.as_slice() {
        frames.push(answer(*change))?;
    }
    Ok(frames)
}

/// An answer on a next hop as a frame to the decision core.
pub(crate) fn answer(change: HopChange) -> (Core, Frame)
    ensures { result ≡ answered change }
{
    (
        Core::Decision,
        Frame::Nexthop {
            hop: change.addr,
            valid: change.valid,
        },
    )
}
