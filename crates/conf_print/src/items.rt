ghost use Rattle.std.specs.Prelude.{◌≡◌, ◌++◌, OnOk, codes, flat_map};
ghost use Rattle.conf_tree.specs.Canonical.{change_text, part_text, pattern_text, large_pattern_text, community_text, large_text, origin_word, hop_text, item_text, set_text, set_behind};

use crate::printed::Printed;
use conf_tree::{Change, CommunityPattern, Item, LargePattern, NextHop, RouteOrigin};
use net_base::NoMemory;

/// A number, behind `+` or `-` where it is added or taken away.
fn print_change(text: &mut Printed, change: Change) -> Result<(), NoMemory>
    ensures { OnOk result (text.new ≡ text.old ++ change_text change) }
{
    match change {
        Change::Set(number) => write!(text, "{number}"),
        Change::Add(number) => write!(text, "+{number}"),
        Change::Subtract(number) => write!(text, "-{number}"),
    }
}

fn print_half(text: &mut Printed, half: Option<u16>) -> Result<(), NoMemory>
    ensures { OnOk result (text.new ≡ text.old ++ part_text half) }
{
    match half {
        None => text.push(b"*"),
        Some(number) => write!(text, "{number}"),
    }
}

fn print_part(text: &mut Printed, part: Option<u32>) -> Result<(), NoMemory>
    ensures { OnOk result (text.new ≡ text.old ++ part_text part) }
{
    match part {
        None => text.push(b"*"),
        Some(number) => write!(text, "{number}"),
    }
}

#[tactic(auto, unfolding(conf_tree::specs::Canonical::pattern_text))]
pub fn print_pattern(text: &mut Printed, pattern: CommunityPattern) -> Result<(), NoMemory>
    ensures { OnOk result (text.new ≡ text.old ++ pattern_text pattern) }
{
    print_half(text, pattern.high)?;
    text.push(b":")?;
    print_half(text, pattern.low)
}

#[tactic(auto, unfolding(conf_tree::specs::Canonical::large_pattern_text))]
pub fn print_large_pattern(text: &mut Printed, pattern: LargePattern) -> Result<(), NoMemory>
    ensures { OnOk result (text.new ≡ text.old ++ large_pattern_text pattern) }
{
    print_part(text, pattern.global)?;
    text.push(b":")?;
    print_part(text, pattern.first)?;
    text.push(b":")?;
    print_part(text, pattern.second)
}

#[tactic(auto, unfolding(conf_tree::specs::Canonical::community_text))]
fn print_community(text: &mut Printed, community: u32) -> Result<(), NoMemory>
    ensures { OnOk result (text.new ≡ text.old ++ (codes "community " ++ community_text community)) }
{
    write!(
        text,
        "community {}:{}",
        community / 65536,
        community % 65536
    )
}

fn print_delete(text: &mut Printed, pattern: CommunityPattern) -> Result<(), NoMemory>
    ensures { OnOk result (text.new ≡ text.old ++ (codes "community delete " ++ pattern_text pattern)) }
{
    text.push(b"community delete ")?;
    print_pattern(text, pattern)
}

fn print_large(text: &mut Printed, global: u32, first: u32, second: u32) -> Result<(), NoMemory>
    ensures { OnOk result (text.new ≡ text.old ++ (codes "large-community " ++ large_text global first second)) }
{
    write!(text, "large-community {global}:{first}:{second}")
}

fn print_delete_large(text: &mut Printed, pattern: LargePattern) -> Result<(), NoMemory>
    ensures { OnOk result (text.new ≡ text.old ++ (codes "large-community delete " ++ large_pattern_text pattern)) }
{
    text.push(b"large-community delete ")?;
    print_large_pattern(text, pattern)
}

fn origin_word(origin: RouteOrigin) -> &'static str
    ensures { result.now ≡ origin_word origin }
{
    match origin {
        RouteOrigin::Igp => "igp",
        RouteOrigin::Egp => "egp",
        RouteOrigin::Incomplete => "incomplete",
    }
}

fn print_hop(text: &mut Printed, hop: NextHop) -> Result<(), NoMemory>
    ensures { OnOk result (text.new ≡ text.old ++ hop_text hop) }
{
    match hop {
        NextHop::Address(address) => write!(text, "{address}"),
        NextHop::Own => text.push(b"self"),
        NextHop::NoModify => text.push(b"no-modify"),
    }
}

#[tactic(auto, unfolding(conf_tree::specs::Canonical::item_text))]
fn print_item(text: &mut Printed, item: Item) -> Result<(), NoMemory>
    ensures { OnOk result (text.new ≡ text.old ++ item_text item) }
{
    match item {
        Item::LocalPref(change) => {
            text.push(b"localpref ")?;
            print_change(text, change)
        }
        Item::Med(change) => {
            text.push(b"med ")?;
            print_change(text, change)
        }
        Item::Weight(change) => {
            text.push(b"weight ")?;
            print_change(text, change)
        }
        Item::PrependSelf(times) => write!(text, "prepend-self {times}"),
        Item::PrependNeighbor(times) => write!(text, "prepend-neighbor {times}"),
        Item::Origin(origin) => write!(text, "origin {}", origin_word(origin)),
        Item::Community(community) => print_community(text, community),
        Item::DeleteCommunity(pattern) => print_delete(text, pattern),
        Item::LargeCommunity(global, first, second) => print_large(text, global, first, second),
        Item::DeleteLargeCommunity(pattern) => print_delete_large(text, pattern),
        Item::NextHop(hop) => {
            text.push(b"nexthop ")?;
            print_hop(text, hop)
        }
    }
}

fn print_more_items(text: &mut Printed, items: &[Item]) -> Result<(), NoMemory>
    ensures { OnOk result (text.new ≡ text.old ++ flat_map (λ item. codes ", " ++ item_text item) items.now) }
{
    for item in items {
        text.push(b", ")?;
        print_item(text, *item)?;
    }
    Ok(())
}

/// Items with commas between them, in braces also where there is one.
#[tactic(auto, unfolding(conf_tree::specs::Canonical::set_text))]
pub fn print_set(text: &mut Printed, items: &[Item]) -> Result<(), NoMemory>
    ensures { OnOk result (text.new ≡ text.old ++ set_text items.now) }
{
    text.push(b"set { ")?;
    if let Some((first, others)) = items.split_first() {
        print_item(text, *first)?;
        print_more_items(text, others)?;
    }
    text.push(b" }")
}

/// The set at the end of a statement, and nothing where there are no items.
pub fn print_set_behind(text: &mut Printed, items: &[Item]) -> Result<(), NoMemory>
    ensures { OnOk result (text.new ≡ text.old ++ set_behind items.now) }
{
    if items.is_empty() {
        return Ok(());
    }
    text.push(b" ")?;
    print_set(text, items)
}
