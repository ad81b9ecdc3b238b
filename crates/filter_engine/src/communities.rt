//! Lists of communities, ascending and without repeats.

ghost use Rattle.std.specs.Prelude.{◌≡◌, IfOk, filter, not, nat_lt};
ghost use Rattle.filter_engine.specs.Conditions.{community_agrees, large_agrees};
ghost use Rattle.filter_engine.specs.Items.{large_below, large_placed, placed};

use crate::conditions::{community_agrees, large_agrees};
use attr_model::{CommunityList, LargeList};
use conf_tree::{CommunityPattern, LargePattern};
use net_base::{Items, NoMemory};
use std::alloc::Global;

/// The list with a community in its place.
pub(crate) fn placed(alloc: Global, community: u32, list: &[u32]) -> Result<CommunityList, NoMemory>
    ensures { IfOk result (λ now. now ≡ placed community list.now) }
{
    let mut now = below(alloc, community, list)?;
    now.push(community)?;
    let behind = above(alloc, community, list)?;
    now.extend_from_slice(behind.as_slice())?;
    Ok(Items::from_vec(now))
}

fn below(alloc: Global, community: u32, list: &[u32]) -> Result<Vec<u32>, NoMemory>
    ensures { IfOk result (λ now. now.items ≡ filter (λ other. nat_lt other community) list.now) }
{
    list.iter()
        .copied()
        .filter(|other| *other < community)
        .collect(alloc)
}

fn above(alloc: Global, community: u32, list: &[u32]) -> Result<Vec<u32>, NoMemory>
    ensures { IfOk result (λ now. now.items ≡ filter (λ other. nat_lt community other) list.now) }
{
    list.iter()
        .copied()
        .filter(|other| community < *other)
        .collect(alloc)
}

/// The list without the communities that agree.
pub(crate) fn without(
    alloc: Global,
    pattern: CommunityPattern,
    list: &[u32],
) -> Result<CommunityList, NoMemory>
    ensures { IfOk result (λ now. now ≡ filter (λ community. not (community_agrees pattern community)) list.now) }
{
    let left = unlike(alloc, pattern, list)?;
    Ok(Items::from_vec(left))
}

fn unlike(alloc: Global, pattern: CommunityPattern, list: &[u32]) -> Result<Vec<u32>, NoMemory>
    ensures { IfOk result (λ now. now.items ≡ filter (λ community. not (community_agrees pattern community)) list.now) }
{
    list.iter()
        .copied()
        .filter(|community| !community_agrees(pattern, *community))
        .collect(alloc)
}

/// The list with a large community in its place.
pub(crate) fn large_placed(
    alloc: Global,
    community: (u32, u32, u32),
    list: &[(u32, u32, u32)],
) -> Result<LargeList, NoMemory>
    ensures { IfOk result (λ now. now ≡ large_placed community list.now) }
{
    let mut now = large_front(alloc, community, list)?;
    now.push(community)?;
    let behind = large_back(alloc, community, list)?;
    now.extend_from_slice(behind.as_slice())?;
    Ok(Items::from_vec(now))
}

fn large_front(
    alloc: Global,
    community: (u32, u32, u32),
    list: &[(u32, u32, u32)],
) -> Result<Vec<(u32, u32, u32)>, NoMemory>
    ensures { IfOk result (λ now. now.items ≡ filter (λ other. large_below other community) list.now) }
{
    list.iter()
        .copied()
        .filter(|other| large_below(*other, community))
        .collect(alloc)
}

fn large_back(
    alloc: Global,
    community: (u32, u32, u32),
    list: &[(u32, u32, u32)],
) -> Result<Vec<(u32, u32, u32)>, NoMemory>
    ensures { IfOk result (λ now. now.items ≡ filter (λ other. large_below community other) list.now) }
{
    list.iter()
        .copied()
        .filter(|other| large_below(community, *other))
        .collect(alloc)
}

/// The order of large communities by their three numbers.
fn large_below(one: (u32, u32, u32), other: (u32, u32, u32)) -> bool
    ensures { result ≡ large_below one other }
{
    if one.0 != other.0 {
        one.0 < other.0
    } else if one.1 != other.1 {
        one.1 < other.1
    } else {
        one.2 < other.2
    }
}

/// The list without the large communities that agree.
pub(crate) fn large_without(
    alloc: Global,
    pattern: LargePattern,
    list: &[(u32, u32, u32)],
) -> Result<LargeList, NoMemory>
    ensures { IfOk result (λ now. now ≡ filter (λ community. not (large_agrees pattern community)) list.now) }
{
    let left = large_unlike(alloc, pattern, list)?;
    Ok(Items::from_vec(left))
}

fn large_unlike(
    alloc: Global,
    pattern: LargePattern,
    list: &[(u32, u32, u32)],
) -> Result<Vec<(u32, u32, u32)>, NoMemory>
    ensures { IfOk result (λ now. now.items ≡ filter (λ community. not (large_agrees pattern community)) list.now) }
{
    list.iter()
        .copied()
        .filter(|community| !large_agrees(pattern, *community))
        .collect(alloc)
}
