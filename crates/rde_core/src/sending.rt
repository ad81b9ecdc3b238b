//! What a call of the decision core gives.

ghost use Rattle.std.specs.Prelude.{◌≡◌, OnOk, IfOk};
ghost use Rattle.rde_core.specs.Given.{applied};

use core_msgs::{Core, Done, Frame, Line, LineList, SendList};
use net_base::{Items, NoMemory};
use std::alloc::Global;

/// These frames are written, and that a configuration of this generation holds is reported.
pub(crate) fn given(
    alloc: Global,
    generation: Option<u32>,
    frames: SendList,
) -> Result<Done, NoMemory>
    ensures { IfOk result (λ done. done.lines ≡ applied generation) }
{
    Ok(Done {
        lines: lines(alloc, generation)?,
        frames,
    })
}

/// The report that a configuration holds, where one was taken up.
fn lines(alloc: Global, generation: Option<u32>) -> Result<LineList, NoMemory>
    ensures { IfOk result (λ lines. lines ≡ applied generation) }
{
    let mut lines = Items::new(alloc);
    if let Some(generation) = generation {
        lines.push(Line::AppliedDecision(generation))?;
    }
    Ok(lines)
}

/// A frame goes to the parent, behind the others.
pub(crate) fn to_parent(frames: &mut SendList, frame: Frame) -> Result<(), NoMemory> {
    frames.push((Core::Parent, frame))
}

/// A frame goes to the session core, behind the others.
pub(crate) fn to_session(frames: &mut SendList, frame: Frame) -> Result<(), NoMemory> {
    frames.push((Core::Session, frame))
}
