//! The frames of an UPDATE.

ghost use Rattle.std.specs.Prelude.{◌≡◌, ◌++◌, [], IfOk, OnOk, None, Some, filter};
ghost use Rattle.net_base.specs.declared.addr.Family.TheVariants.{V4, V6};
ghost use Rattle.peer_session.specs.Frames.{family_frames, group_frames, groups_in, prefixes_in, routes_frame, update_frames, withdrawn_frames};

use attr_model::Attrs;
use core_msgs::{Core, Frame, SendList};
use net_base::{Family, Items, NoMemory, Prefix, PrefixList};
use std::alloc::Global;
use update_codec::{GroupList, Update};

/// Writes a frame of routes for each family and group of attributes, IPv4 first. The withdrawn prefixes of a family stand in the
/// frame of its first group, or in one of their own where it has no group. A family without prefixes has no frame.
#[tactic(auto, unfolding(crate::specs::Frames::update_frames))]
pub(crate) fn push_routes(
    alloc: Global,
    session: u32,
    update: Update,
    frames: &mut SendList,
) -> Result<(), NoMemory>
    ensures { OnOk result (frames.new ≡ frames.old ++ update_frames session update) }
{
    let Update {
        withdrawn,
        announced,
    } = update;
    let v4 = prefixes_of(alloc, Family::V4, withdrawn.as_slice())?;
    let v6 = prefixes_of(alloc, Family::V6, withdrawn.as_slice())?;
    let mut groups_v4 = Items::new(alloc);
    let mut groups_v6 = Items::new(alloc);
    split(announced, &mut groups_v4, &mut groups_v6)?;
    push_family(alloc, session, Family::V4, v4, groups_v4, frames)?;
    push_family(alloc, session, Family::V6, v6, groups_v6, frames)
}

/// The prefixes of a family.
fn prefixes_of(alloc: Global, family: Family, prefixes: &[Prefix]) -> Result<PrefixList, NoMemory>
    ensures { IfOk result (λ found. found ≡ prefixes_in family prefixes.now) }
{
    let found = prefixes
        .iter()
        .copied()
        .filter(|prefix| prefix.family == family)
        .collect(alloc)?;
    Ok(Items::from_vec(found))
}

/// Puts each group behind those of its family, which is that of its next hop.
fn split(groups: GroupList, v4: &mut GroupList, v6: &mut GroupList) -> Result<(), NoMemory>
    ensures v4 { OnOk result (v4.new ≡ v4.old ++ groups_in V4 groups) }
    ensures v6 { OnOk result (v6.new ≡ v6.old ++ groups_in V6 groups) }
{
    for group in groups.into_vec() {
        match group.0.hop.family {
            Family::V4 => v4.push(group)?,
            Family::V6 => v6.push(group)?,
        }
    }
    Ok(())
}

/// Writes the frames of one family.
fn push_family(
    alloc: Global,
    session: u32,
    family: Family,
    withdrawn: PrefixList,
    groups: GroupList,
    frames: &mut SendList,
) -> Result<(), NoMemory>
    ensures { OnOk result (frames.new ≡ frames.old ++ family_frames session family withdrawn groups) }
{
    if groups.is_empty() {
        return push_withdrawn(session, family, withdrawn, frames);
    }
    push_groups(alloc, session, family, withdrawn, groups, frames)
}

fn push_withdrawn(
    session: u32,
    family: Family,
    withdrawn: PrefixList,
    frames: &mut SendList,
) -> Result<(), NoMemory>
    ensures { OnOk result (frames.new ≡ frames.old ++ withdrawn_frames session family withdrawn) }
{
    if withdrawn.is_empty() {
        return Ok(());
    }
    frames.push(routes(session, family, withdrawn, None))
}

/// Writes a frame for each group, the withdrawn prefixes in the first.
fn push_groups(
    alloc: Global,
    session: u32,
    family: Family,
    withdrawn: PrefixList,
    groups: GroupList,
    frames: &mut SendList,
) -> Result<(), NoMemory>
    ensures { OnOk result (frames.new ≡ frames.old ++ group_frames session family withdrawn groups) }
{
    let mut left = withdrawn;
    for group in groups.into_vec() {
        frames.push(routes(session, family, left, Some(group)))?;
        left = Items::new(alloc);
    }
    Ok(())
}

fn routes(
    session: u32,
    family: Family,
    withdrawn: PrefixList,
    announced: Option<(Attrs, PrefixList)>,
) -> (Core, Frame)
    ensures { result ≡ routes_frame session family withdrawn announced }
{
    let frame = Frame::Routes {
        session,
        family,
        withdrawn,
        announced,
    };
    (Core::Decision, frame)
}
