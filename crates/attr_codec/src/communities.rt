//! COMMUNITIES and LARGE_COMMUNITY.

ghost use Rattle.std.specs.Prelude.{◌≡◌, Some, None, IfOk, MatchResult};
ghost use Rattle.std.specs.Ordering.{nat_cmp};
ghost use Rattle.attr_model.specs.Valid.{large_cmp};
ghost use Rattle.attr_codec.specs.Ascending.{ascending};
ghost use Rattle.attr_codec.specs.Path.{numbers_in};
ghost use Rattle.attr_codec.specs.Communities.{communities_said, large_said};
ghost use Rattle.attr_codec.specs.Large.{large_at, larges_of};

use crate::ascending::{order_communities, order_larges};
use crate::cut_field::CutField;
use crate::kind;
use crate::said::{Flags, Said, bytes_said};
use attr_model::{CommunityList, LargeList};
use net_base::{Items, NoMemory};
use std::alloc::Global;
use wire_buf::{Cursor, Short};

// The communities that stand in a value.
fn read_numbers(alloc: Global, value: &[u8]) -> Result<Vec<u32>, NoMemory>
    ensures { IfOk result (λ list. list.items ≡ numbers_in 4 value.now) }
{
    let mut list = Vec::with_capacity(alloc, value.len() / 4)?;
    let mut left = Cursor::new(value);
    while let Ok(community) = left.u32() {
        list.push(community)?;
    }
    Ok(list)
}

// The communities that stand in a value, in order.
fn read_communities(alloc: Global, value: &[u8]) -> Result<CommunityList, NoMemory>
    ensures { IfOk result (λ list. list ≡ ascending nat_cmp (numbers_in 4 value.now)) }
{
    let mut list = read_numbers(alloc, value)?;
    order_communities(&mut list);
    Ok(Items::from_vec(list))
}

/// COMMUNITIES: numbers of four bytes each, at least one (RFC 1997, RFC 7606 section 7.8).
#[tactic(auto, unfolding(crate::specs::Communities::communities_said))]
pub(crate) fn communities(
    alloc: Global,
    field: &CutField<'_>,
) -> Result<Said<CommunityList>, NoMemory>
    ensures { IfOk result (λ said. said ≡ communities_said field.now) }
{
    match bytes_said(field, kind::COMMUNITIES, Flags::OptionalTransitive) {
        Said::Nothing => Ok(Said::Nothing),
        Said::Malformed => Ok(Said::Malformed),
        Said::Value(value) if value.is_empty() || value.len() % 4 != 0 => Ok(Said::Malformed),
        Said::Value(value) => Ok(Said::Value(read_communities(alloc, value)?)),
    }
}

// The next large community.
#[tactic(auto, unfolding(crate::specs::Large::large_at))]
fn next_large(left: &mut Cursor<'_>) -> Result<(u32, u32, u32), Short>
    ensures { MatchResult result (λ large. large_at left.old ≡ Some (large, left.new)) (λ _. large_at left.old ≡ None) }
{
    let administrator = left.u32()?;
    let first = left.u32()?;
    let second = left.u32()?;
    Ok((administrator, first, second))
}

// The large communities that stand in a value.
fn read_triples(alloc: Global, value: &[u8]) -> Result<Vec<(u32, u32, u32)>, NoMemory>
    ensures { IfOk result (λ list. list.items ≡ larges_of value.now) }
{
    let mut list = Vec::with_capacity(alloc, value.len() / 12)?;
    let mut left = Cursor::new(value);
    while let Ok(large) = next_large(&mut left) {
        list.push(large)?;
    }
    Ok(list)
}

// The large communities that stand in a value, in order.
fn read_larges(alloc: Global, value: &[u8]) -> Result<LargeList, NoMemory>
    ensures { IfOk result (λ list. list ≡ ascending large_cmp (larges_of value.now)) }
{
    let mut list = read_triples(alloc, value)?;
    order_larges(&mut list);
    Ok(Items::from_vec(list))
}

/// LARGE_COMMUNITY: three numbers of four bytes each, at least once (RFC 8092 sections 3 and 6).
#[tactic(auto, unfolding(crate::specs::Communities::large_said))]
pub(crate) fn large(alloc: Global, field: &CutField<'_>) -> Result<Said<LargeList>, NoMemory>
    ensures { IfOk result (λ said. said ≡ large_said field.now) }
{
    match bytes_said(field, kind::LARGE_COMMUNITY, Flags::OptionalTransitive) {
        Said::Nothing => Ok(Said::Nothing),
        Said::Malformed => Ok(Said::Malformed),
        Said::Value(value) if value.is_empty() || value.len() % 12 != 0 => Ok(Said::Malformed),
        Said::Value(value) => Ok(Said::Value(read_larges(alloc, value)?)),
    }
}
