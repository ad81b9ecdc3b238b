//! The conditions of a rule, one function for each word of the language.

ghost use Rattle.std.specs.Prelude.{◌≡◌, Option, nat_lt, bytes_eq, option_copied};
ghost use Rattle.std.specs.List.{list_any};
ghost use Rattle.net_base.specs.Order.{same_family};
ghost use Rattle.attr_model.specs.Path.{path_length};
ghost use Rattle.conf_tree.specs.Membership.{holds};
ghost use Rattle.filter_engine.specs.Asked.{AreRight};
ghost use Rattle.filter_engine.specs.Conditions.{agrees, community_agrees, condition_holds, hop_seen, large_agrees, same_address, same_ovs};
ghost use Rattle.filter_engine.specs.Named.{IsNamed};

use crate::asked::Asked;
use crate::path_test::{Wanted, part_has_wanted};
use crate::{Context, Hop, asked};
use attr_model::{Attrs, Path};
use conf_tree::{CommunityPattern, Condition, LargePattern, Members, PrefixRange};
use net_base::{Addr, Family, Ovs, Prefix};

/// Whether a condition holds for a route as it stands.
pub(crate) fn condition_holds<M: Members>(
    sets: &M,
    context: &Context,
    origin: Option<u32>,
    attrs: &Attrs,
    hop: Hop,
    condition: Condition,
    asked: &mut Asked,
) -> bool
    requires named { IsNamed (M.conf_of sets.now) condition }
    requires right { AreRight (M.conf_of sets.now) context.now origin asked.old }
    ensures value { result ≡ condition_holds (M.conf_of sets.now) context.now origin attrs.now hop condition }
    ensures kept { AreRight (M.conf_of sets.now) context.now origin asked.new }
{
    match condition {
        Condition::Prefix(range) => prefix(context.prefix, range),
        Condition::PrefixSet(set) => sets.in_prefix_set(set, context.prefix),
        Condition::PrefixSetOrLonger(set) => sets.in_prefix_set_or_longer(set, context.prefix),
        Condition::PathNumber(part, asn) => {
            part_has_wanted(sets, Wanted::Number(asn), part, attrs.path.as_slice())
        }
        Condition::PathSet(part, set) => {
            part_has_wanted(sets, Wanted::Of(set), part, attrs.path.as_slice())
        }
        Condition::OriginSet(set) => asked::in_origin_set(sets, context, origin, set, asked),
        Condition::Ovs(wanted) => ovs(asked::ovs(sets, context, origin, asked), wanted),
        Condition::Community(pattern) => community(pattern, attrs.communities.as_slice()),
        Condition::LargeCommunity(pattern) => large_community(pattern, attrs.large.as_slice()),
        Condition::MaxAsLen(most) => max_as_len(&attrs.path, most),
        Condition::NextHop(address) => nexthop(hop, attrs.hop, address),
        Condition::Family(family) => inet(context.prefix.family, family),
    }
}

/// `prefix`: the range's prefix covers the route's, whose length is in the range.
fn prefix(prefix: Prefix, range: PrefixRange) -> bool
    ensures { result ≡ holds prefix range }
{
    range.prefix.covers(prefix) && range.low <= prefix.len && prefix.len <= range.high
}

/// `ovs`: origin validation said so.
fn ovs(said: Ovs, wanted: Ovs) -> bool
    ensures { result ≡ same_ovs said wanted }
{
    match (said, wanted) {
        (Ovs::Valid, Ovs::Valid) => true,
        (Ovs::Invalid, Ovs::Invalid) => true,
        (Ovs::NotFound, Ovs::NotFound) => true,
        _ => false,
    }
}

/// `community`: some community agrees.
fn community(pattern: CommunityPattern, communities: &[u32]) -> bool
    ensures { result ≡ list_any (community_agrees pattern) communities.now }
{
    communities
        .iter()
        .any(|community| community_agrees(pattern, *community))
}

/// `large-community`: some large community agrees.
fn large_community(pattern: LargePattern, communities: &[(u32, u32, u32)]) -> bool
    ensures { result ≡ list_any (large_agrees pattern) communities.now }
{
    communities
        .iter()
        .any(|community| large_agrees(pattern, *community))
}

/// `max-as-len`: the path is longer.
fn max_as_len(path: &Path, most: u16) -> bool
    ensures { result ≡ nat_lt most (path_length path.now) }
{
    u128::from(most) < path.length()
}

/// `nexthop`: the next hop is this address.
fn nexthop(chosen: Hop, hop: Addr, address: Addr) -> bool
    ensures { result ≡ same_address (hop_seen chosen hop) address }
{
    match chosen {
        Hop::Given(given) => same_address(given, address),
        _ => same_address(hop, address),
    }
}

/// `inet` and `inet6`: the prefix is of that family.
pub(crate) fn inet(family: Family, wanted: Family) -> bool
    ensures { result ≡ same_family family wanted }
{
    match (family, wanted) {
        (Family::V4, Family::V4) => true,
        (Family::V6, Family::V6) => true,
        _ => false,
    }
}

/// Whether two addresses are one.
pub(crate) fn same_address(one: Addr, other: Addr) -> bool
    ensures { result ≡ same_address one other }
{
    inet(one.family, other.family) && one.bits == other.bits
}

/// Whether both halves of a community agree.
pub(crate) fn community_agrees(pattern: CommunityPattern, community: u32) -> bool
    ensures { result ≡ community_agrees pattern community }
{
    half_agrees(pattern.high, community / 0x1_0000)
        && half_agrees(pattern.low, community % 0x1_0000)
}

fn half_agrees(wanted: Option<u16>, half: u32) -> bool
    ensures { result ≡ agrees wanted half }
{
    match wanted {
        None => true,
        Some(wanted) => half == u32::from(wanted),
    }
}

/// Whether all parts of a large community agree.
pub(crate) fn large_agrees(pattern: LargePattern, community: (u32, u32, u32)) -> bool
    ensures { result ≡ large_agrees pattern community }
{
    part_agrees(pattern.global, community.0)
        && part_agrees(pattern.first, community.1)
        && part_agrees(pattern.second, community.2)
}

fn part_agrees(wanted: Option<u32>, part: u32) -> bool
    ensures { result ≡ agrees wanted part }
{
    match wanted {
        None => true,
        Some(wanted) => part == wanted,
    }
}
