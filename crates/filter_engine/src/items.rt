//! The items of a set, one function for each word of the language.

ghost use Rattle.std.specs.Prelude.{◌≡◌, ◌==◌, OnErr, OnOk, bit_and, if◌then◌else◌};
ghost use Rattle.attr_model.specs.Valid.{IsValid};
ghost use Rattle.filter_engine.specs.Items.{changed_number, chosen_hop, hop_with_item, hop_with_items, origin_code, partial_without, with_community, with_item, with_items, with_large, with_localpref, with_med, with_origin, with_prepends, with_weight, without_communities, without_large};

use crate::communities::{large_placed, large_without, placed, without};
use crate::conditions::inet;
use crate::{Context, Hop};
use attr_model::Attrs;
use conf_tree::{Change, CommunityPattern, Item, ItemList, LargePattern, NextHop, RouteOrigin};
use net_base::NoMemory;
use std::alloc::Global;

/// The partial bits of all attributes but COMMUNITIES.
const ALL_BUT_COMMUNITIES: u8 = 5;

/// The partial bits of all attributes but LARGE_COMMUNITY.
const ALL_BUT_LARGE: u8 = 3;

/// Changes the attributes by the items of a set, one after the other. The next hop that they choose is `choose_hop`'s
/// answer. Where memory is refused, the changes of some items may be made already. Valid attributes stay valid in
/// each case.
pub fn apply_set(
    alloc: Global,
    set: &ItemList,
    context: &Context,
    attrs: &mut Attrs,
) -> Result<(), NoMemory>
    ensures ok { OnOk result (attrs.new ≡ with_items context.now attrs.old set.now) }
    ensures valid { IsValid attrs.old → IsValid attrs.new }
{
    for item in set.as_slice() {
        apply_item(alloc, *item, context, attrs)?;
    }
    Ok(())
}

/// The next hop that the items of a set choose, or the one that was chosen before.
pub fn choose_hop(set: &ItemList, context: &Context, hop: Hop) -> Hop
    ensures { result ≡ hop_with_items context.now hop set.now }
{
    let mut chosen = hop;
    for item in set.as_slice() {
        chosen = choose_by_item(context, chosen, *item);
    }
    chosen
}

fn choose_by_item(context: &Context, hop: Hop, item: Item) -> Hop
    ensures { result ≡ hop_with_item context.now hop item }
{
    match item {
        Item::NextHop(choice) => nexthop(context, hop, choice),
        _ => hop,
    }
}

fn apply_item(
    alloc: Global,
    item: Item,
    context: &Context,
    attrs: &mut Attrs,
) -> Result<(), NoMemory>
    ensures ok { OnOk result (attrs.new ≡ with_item context.now attrs.old item) }
    ensures err { OnErr result (attrs.new ≡ attrs.old) }
{
    match item {
        Item::LocalPref(by) => localpref(attrs, by),
        Item::Med(by) => med(attrs, by),
        Item::Weight(by) => weight(attrs, by),
        Item::PrependSelf(times) => prepend(alloc, attrs, context.own_as, times)?,
        Item::PrependNeighbor(times) => prepend(alloc, attrs, context.peer_as, times)?,
        Item::Origin(code) => origin(attrs, code),
        Item::Community(added) => community(alloc, attrs, added)?,
        Item::DeleteCommunity(pattern) => delete_community(alloc, attrs, pattern)?,
        Item::LargeCommunity(global, first, second) => {
            large_community(alloc, attrs, (global, first, second))?
        }
        Item::DeleteLargeCommunity(pattern) => delete_large_community(alloc, attrs, pattern)?,
        Item::NextHop(_) => {}
    }
    Ok(())
}

/// A number behind a change. Sums stop at 4294967295, and differences at 0.
fn changed(by: Change, current: u32) -> u32
    ensures { result ≡ changed_number by current }
{
    match by {
        Change::Set(number) => number,
        Change::Add(number) => current.saturating_add(number),
        Change::Subtract(number) => current.saturating_sub(number),
    }
}

/// `localpref`: an absent one counts 100.
fn localpref(attrs: &mut Attrs, by: Change)
    ensures { attrs.new ≡ with_localpref by attrs.old }
{
    attrs.local_pref = Some(changed(by, attrs.local_pref.unwrap_or(100)));
}

/// `med` and `metric`: an absent one counts 0.
fn med(attrs: &mut Attrs, by: Change)
    ensures { attrs.new ≡ with_med by attrs.old }
{
    attrs.med = Some(changed(by, attrs.med.unwrap_or(0)));
}

/// `weight`.
fn weight(attrs: &mut Attrs, by: Change)
    ensures { attrs.new ≡ with_weight by attrs.old }
{
    attrs.weight = changed(by, attrs.weight);
}

/// `prepend-self` and `prepend-neighbor`.
fn prepend(alloc: Global, attrs: &mut Attrs, asn: u32, times: u8) -> Result<(), NoMemory>
    ensures ok { OnOk result (attrs.new ≡ with_prepends asn times attrs.old) }
    ensures err { OnErr result (attrs.new ≡ attrs.old) }
{
    attrs.path.prepend(alloc, asn, times)
}

/// `origin`.
fn origin(attrs: &mut Attrs, code: RouteOrigin)
    ensures { attrs.new ≡ with_origin code attrs.old }
{
    attrs.origin = match code {
        RouteOrigin::Igp => 0,
        RouteOrigin::Egp => 1,
        RouteOrigin::Incomplete => 2,
    };
}

/// `community`.
fn community(alloc: Global, attrs: &mut Attrs, added: u32) -> Result<(), NoMemory>
    ensures ok { OnOk result (attrs.new ≡ with_community added attrs.old) }
    ensures err { OnErr result (attrs.new ≡ attrs.old) }
{
    attrs.communities = placed(alloc, added, attrs.communities.as_slice())?;
    Ok(())
}

/// `community delete`.
fn delete_community(
    alloc: Global,
    attrs: &mut Attrs,
    pattern: CommunityPattern,
) -> Result<(), NoMemory>
    ensures ok { OnOk result (attrs.new ≡ without_communities pattern attrs.old) }
    ensures err { OnErr result (attrs.new ≡ attrs.old) }
{
    let left = without(alloc, pattern, attrs.communities.as_slice())?;
    attrs.partial = partial_without(ALL_BUT_COMMUNITIES, left.len(), attrs.partial);
    attrs.communities = left;
    Ok(())
}

/// `large-community`.
fn large_community(alloc: Global, attrs: &mut Attrs, added: (u32, u32, u32)) -> Result<(), NoMemory>
    ensures ok { OnOk result (attrs.new ≡ with_large added attrs.old) }
    ensures err { OnErr result (attrs.new ≡ attrs.old) }
{
    attrs.large = large_placed(alloc, added, attrs.large.as_slice())?;
    Ok(())
}

/// `large-community delete`.
fn delete_large_community(
    alloc: Global,
    attrs: &mut Attrs,
    pattern: LargePattern,
) -> Result<(), NoMemory>
    ensures ok { OnOk result (attrs.new ≡ without_large pattern attrs.old) }
    ensures err { OnErr result (attrs.new ≡ attrs.old) }
{
    let left = large_without(alloc, pattern, attrs.large.as_slice())?;
    attrs.partial = partial_without(ALL_BUT_LARGE, left.len(), attrs.partial);
    attrs.large = left;
    Ok(())
}

/// The partial bits, of which one goes where no community of its kind is left.
fn partial_without(others: u8, count: usize, bits: u8) -> u8
    ensures { result ≡ partial_without others count bits }
{
    if count == 0 { bits & others } else { bits }
}

/// `nexthop`: an address of another family than the prefix changes nothing.
fn nexthop(context: &Context, hop: Hop, choice: NextHop) -> Hop
    ensures { result ≡ chosen_hop context.now hop choice }
{
    match choice {
        NextHop::Address(address) if inet(address.family, context.prefix.family) => {
            Hop::Given(address)
        }
        NextHop::Address(_) => hop,
        NextHop::Own => Hop::SelfHop,
        NextHop::NoModify => Hop::NoModify,
    }
}
