ghost use Rattle.std.specs.Prelude.{◌≡◌, ◌<◌, IsTrue};
ghost use Rattle.std.specs.List.{All};
ghost use Rattle.policy_tests.specs.EmptySets.{empty_sets};
ghost use Rattle.filter_engine.specs.Named.{AreNamed, IsNamed};

use attr_model::{Attrs, Path, Segment};
use conf_tree::{
    Action, Change, CommunityPattern, Condition, Direction, Item, LargePattern, Members, NextHop,
    PathPart, Peer, PrefixRange, RouteOrigin, Rule, RuleList, SetId,
};
use filter_engine::*;
use net_base::{Addr, Family, Items, Ovs, Prefix};
use std::alloc::Global;
use std::marker::Brand;
use std::sync::ledger::{Blank, Ledger};
use std::test::*;

/// One set of each kind, without entries.
struct NoSets;

impl Members for NoSets {
    ghost use Rattle.policy_tests.specs.EmptySets.{empty_sets};

    ghost conf_of = { λ _. empty_sets };

    #[tactic(auto, using(crate::proofs::EmptySet::no_entries), unfolding(conf_tree::specs::Membership::in_prefix_set))]
    fn in_prefix_set(&self, _set: SetId, _prefix: Prefix) -> bool {
        false
    }

    #[tactic(auto, using(crate::proofs::EmptySet::no_entries), unfolding(conf_tree::specs::Membership::in_prefix_set_or_longer))]
    fn in_prefix_set_or_longer(&self, _set: SetId, _prefix: Prefix) -> bool {
        false
    }

    #[tactic(auto, using(crate::proofs::EmptySet::no_entries), unfolding(conf_tree::specs::Membership::in_as_set))]
    fn in_as_set(&self, _set: SetId, _asn: u32) -> bool {
        false
    }

    #[tactic(auto, using(crate::proofs::EmptySet::no_entries), unfolding(conf_tree::specs::Membership::in_origin_set))]
    fn in_origin_set(&self, _set: SetId, _prefix: Prefix, _origin: Option<u32>) -> bool {
        false
    }

    #[tactic(auto, unfolding(net_base::specs::Roa::origin_validation))]
    fn ovs(&self, _prefix: Prefix, _origin: Option<u32>) -> Ovs {
        Ovs::NotFound
    }
}

fn names_no_set(condition: Condition) -> bool
    ensures { IsTrue result → IsNamed empty_sets condition }
{
    match condition {
        Condition::PrefixSet(_) | Condition::PrefixSetOrLonger(_) => false,
        Condition::PathSet(_, _) | Condition::OriginSet(_) => false,
        _ => true,
    }
}

fn name_no_sets(conditions: &[Condition]) -> bool
    ensures { IsTrue result → All (IsNamed empty_sets) conditions.now }
{
    for condition in conditions {
        if !names_no_set(*condition) {
            return false;
        }
    }
    true
}

fn rules_name_no_sets(rules: &[Rule]) -> bool
    ensures { IsTrue result → AreNamed empty_sets rules.now }
{
    for rule in rules {
        if !name_no_sets(rule.conditions.as_slice()) {
            return false;
        }
    }
    true
}

fn v4(last: u8) -> Addr {
    Addr {
        family: Family::V4,
        bits: 0x0a00_0000 + u128::from(last),
    }
}

fn v6() -> Addr {
    Addr {
        family: Family::V6,
        bits: 1,
    }
}

/// 10.0.0.0 with this length.
fn prefix(len: u8) -> Prefix {
    Prefix::new(v4(0), len.min(32))
}

/// A route with the path 65002 65003 { 65004 } 65002, from 10.0.0.2, with two communities of each kind.
fn route(alloc: Global) -> Result<Attrs, Fail> {
    let mut path = Path::new(alloc);
    path.push(Segment::Sequence(Items::from_slice(alloc, &[65002, 65003])?))?;
    path.push(Segment::Set(Items::from_slice(alloc, &[65004])?))?;
    path.push(Segment::Sequence(Items::from_slice(alloc, &[65002])?))?;
    Ok(Attrs {
        origin: 0,
        path,
        hop: v4(2),
        med: None,
        local_pref: None,
        atomic: false,
        aggregator: None,
        communities: Items::from_slice(alloc, &[0x0001_0005, 0x0001_0007])?,
        large: Items::from_slice(alloc, &[(1, 2, 3), (1, 2, 5)])?,
        unknown: Items::new(alloc),
        partial: 6,
        weight: 0,
    })
}

/// A route to 10.0.0.0/24 from 10.0.0.2 of AS 65002.
fn context() -> Context {
    Context {
        to: false,
        rib: 0,
        peer: v4(2),
        peer_as: 65002,
        group: None,
        external: true,
        own_as: 65001,
        prefix: prefix(24),
    }
}

fn range(len: u8, low: u8, high: u8) -> Condition {
    Condition::Prefix(PrefixRange {
        prefix: prefix(len),
        low,
        high,
    })
}

fn community(high: Option<u16>, low: Option<u16>) -> Condition {
    Condition::Community(CommunityPattern { high, low })
}

fn large(global: Option<u32>, first: Option<u32>, second: Option<u32>) -> Condition {
    Condition::LargeCommunity(LargePattern {
        global,
        first,
        second,
    })
}

#[test]
fn conditions(rt: HostRuntime) -> Result<(), Fail> {
    let rows = [
        (range(24, 24, 24), true),
        (range(24, 25, 32), false),
        (range(16, 16, 23), false),
        (range(16, 16, 24), true),
        (range(25, 25, 32), false),
        (Condition::Family(Family::V4), true),
        (Condition::Family(Family::V6), false),
        (Condition::PathNumber(PathPart::Any, 65004), true),
        (Condition::PathNumber(PathPart::Any, 65001), false),
        (Condition::PathNumber(PathPart::Peer, 65002), true),
        (Condition::PathNumber(PathPart::Peer, 65003), false),
        (Condition::PathNumber(PathPart::Source, 65002), true),
        (Condition::PathNumber(PathPart::Source, 65004), false),
        (Condition::PathNumber(PathPart::Transit, 65004), true),
        (Condition::PathNumber(PathPart::Transit, 65002), true),
        (Condition::MaxAsLen(3), true),
        (Condition::MaxAsLen(4), false),
        (community(Some(1), Some(7)), true),
        (community(Some(1), None), true),
        (community(None, Some(6)), false),
        (large(Some(1), None, Some(5)), true),
        (large(Some(1), Some(3), None), false),
        (Condition::NextHop(v4(2)), true),
        (Condition::NextHop(v4(3)), false),
        (Condition::Ovs(Ovs::NotFound), true),
        (Condition::Ovs(Ovs::Valid), false),
    ];
    for (condition, said) in rows {
        assert_eq!(rt; passes(rt.alloc(), condition)?, said, "{condition:?}");
    }
    Ok(())
}

/// What an item may change.
#[derive(Clone, Copy, Debug, PartialEq, Eq)]
struct Look {
    local_pref: Option<u32>,
    med: Option<u32>,
    weight: u32,
    origin: u8,
    length: u128,
    communities: (Option<u32>, Option<u32>, Option<u32>),
    large: usize,
    partial: u8,
}

const BEFORE: Look = Look {
    local_pref: None,
    med: None,
    weight: 0,
    origin: 0,
    length: 4,
    communities: (Some(0x0001_0005), Some(0x0001_0007), None),
    large: 2,
    partial: 6,
};

impl Look {
    fn local_pref(self, local_pref: u32) -> Look {
        Look {
            local_pref: Some(local_pref),
            ..self
        }
    }

    fn med(self, med: u32) -> Look {
        Look {
            med: Some(med),
            ..self
        }
    }

    fn weight(self, weight: u32) -> Look {
        Look { weight, ..self }
    }

    fn length(self, length: u128) -> Look {
        Look { length, ..self }
    }

    fn origin(self, origin: u8) -> Look {
        Look { origin, ..self }
    }

    fn communities(self, first: u32, second: Option<u32>, third: Option<u32>) -> Look {
        Look {
            communities: (Some(first), second, third),
            ..self
        }
    }

    fn large(self, large: usize) -> Look {
        Look { large, ..self }
    }
}

fn seen_of(attrs: &Attrs) -> Look {
    let at = |index: usize| attrs.communities.get(index).copied();
    Look {
        local_pref: attrs.local_pref,
        med: attrs.med,
        weight: attrs.weight,
        origin: attrs.origin,
        length: attrs.path.length(),
        communities: (at(0), at(1), at(2)),
        large: attrs.large.len(),
        partial: attrs.partial,
    }
}

fn changed_by(alloc: Global, items: &[Item]) -> Result<Look, Fail> {
    let mut attrs = route(alloc)?;
    let set = Items::from_slice(alloc, items)?;
    apply_set(alloc, &set, &context(), &mut attrs)?;
    Ok(seen_of(&attrs))
}

#[test]
fn items(rt: HostRuntime) -> Result<(), Fail> {
    let first = CommunityPattern {
        high: Some(1),
        low: Some(5),
    };
    for (item, after) in [
        (Item::LocalPref(Change::Set(50)), BEFORE.local_pref(50)),
        (Item::LocalPref(Change::Add(5)), BEFORE.local_pref(105)),
        (Item::LocalPref(Change::Subtract(101)), BEFORE.local_pref(0)),
        (Item::Med(Change::Add(u32::MAX)), BEFORE.med(u32::MAX)),
        (Item::Med(Change::Subtract(5)), BEFORE.med(0)),
        (Item::Weight(Change::Add(3)), BEFORE.weight(3)),
        (Item::PrependSelf(3), BEFORE.length(7)),
        (Item::PrependNeighbor(1), BEFORE.length(5)),
        (Item::Origin(RouteOrigin::Incomplete), BEFORE.origin(2)),
        (
            Item::Community(0x0001_0006),
            BEFORE.communities(0x0001_0005, Some(0x0001_0006), Some(0x0001_0007)),
        ),
        (Item::Community(0x0001_0007), BEFORE),
        (
            Item::DeleteCommunity(first),
            BEFORE.communities(0x0001_0007, None, None),
        ),
        (Item::LargeCommunity(1, 2, 4), BEFORE.large(3)),
        (Item::NextHop(NextHop::Own), BEFORE),
    ] {
        assert_eq!(rt; changed_by(rt.alloc(), &[item])?, after);
    }
    Ok(())
}

// A partial bit goes with the last community, and doesn't come back.
#[test]
fn partial_bits(rt: HostRuntime) -> Result<(), Fail> {
    let all = CommunityPattern {
        high: None,
        low: None,
    };
    let emptied = changed_by(
        rt.alloc(),
        &[Item::DeleteCommunity(all), Item::Community(9)],
    )?;
    assert_eq!(rt; emptied.partial, 4);
    let all = LargePattern {
        global: None,
        first: None,
        second: None,
    };
    let emptied = changed_by(rt.alloc(), &[Item::DeleteLargeCommunity(all)])?;
    assert_eq!(rt; emptied.partial, 2);
    Ok(())
}

#[test]
fn next_hops(rt: HostRuntime) -> Result<(), Fail> {
    let rows = [
        (NextHop::Address(v4(9)), Hop::Given(v4(9))),
        (NextHop::Address(v6()), Hop::NoModify),
        (NextHop::Own, Hop::SelfHop),
    ];
    for (choice, hop) in rows {
        let set = Items::from_slice(rt.alloc(), &[Item::NextHop(choice)])?;
        assert_eq!(rt; choose_hop(&set, &context(), Hop::NoModify), hop);
    }
    Ok(())
}

/// An action, whether it is quick, and the change of LOCAL_PREF in its set.
type Line = (Action, bool, Option<Change>);

fn rule(alloc: Global, line: Line) -> Result<Rule, Fail> {
    let mut set = Items::new(alloc);
    if let Some(change) = line.2 {
        set.push(Item::LocalPref(change))?;
    }
    Ok(Rule {
        action: line.0,
        quick: line.1,
        rib: None,
        direction: Direction::From,
        peer: Peer::Any,
        conditions: Items::from_slice(alloc, &[range(24, 24, 24)])?,
        set,
    })
}

fn list(alloc: Global, lines: &[Line]) -> Result<RuleList, Fail> {
    let mut rules = RuleList::new(alloc);
    for line in lines {
        rules.push(rule(alloc, *line)?)?;
    }
    Ok(rules)
}

/// The verdict, counted in a ledger of its own.
fn decide_counted<L: Ledger>(
    alloc: Global,
    rules: &RuleList,
    route: &Attrs,
    blank: Blank,
) -> Result<Verdict, Fail>
    requires named { AreNamed empty_sets rules.now }
    requires name { blank.name ≡ L.name }
    requires parts { blank.parts ≡ L.parts }
    requires some { 0 < blank.parts }
{
    let mut steps = Steps::<L>::new(blank);
    Ok(evaluate(alloc, rules, &NoSets, &context(), route, &mut steps)?)
}

/// The verdict on the route, where no rule names a set.
fn verdict_of(alloc: Global, rules: &RuleList) -> Result<Option<Verdict>, Fail> {
    if !rules_name_no_sets(rules.as_slice()) {
        return Ok(None);
    }
    let route = route(alloc)?;
    Ok(Some(decide_counted::<Brand>(alloc, rules, &route, Blank::new(1))?))
}

/// Nothing where the route doesn't pass, otherwise its LOCAL_PREF where something changed.
fn decide(alloc: Global, lines: &[Line]) -> Result<Option<Option<u32>>, Fail> {
    match verdict_of(alloc, &list(alloc, lines)?)? {
        None | Some(Verdict::Deny) => Ok(None),
        Some(Verdict::Same(_)) => Ok(Some(None)),
        Some(Verdict::Changed(attrs, _)) => Ok(Some(attrs.local_pref)),
    }
}

/// Whether the route passes where one rule allows what this condition holds of.
fn passes(alloc: Global, condition: Condition) -> Result<bool, Fail> {
    let mut only = rule(alloc, (Action::Allow, false, None))?;
    only.conditions = Items::from_slice(alloc, &[condition])?;
    let mut rules = RuleList::new(alloc);
    rules.push(only)?;
    Ok(matches!(verdict_of(alloc, &rules)?, Some(Verdict::Same(_))))
}

// `match` sets and decides nothing; the last rule that matches decides; a quick one is the last; changes that undo one
// another are none.
#[test]
fn the_last_rule_decides(rt: HostRuntime) -> Result<(), Fail> {
    let alloc = rt.alloc();
    let preferred: Line = (Action::Match, false, Some(Change::Set(50)));
    let allow: Line = (Action::Allow, false, None);
    let quick: Line = (Action::Allow, true, None);
    let deny: Line = (Action::Deny, false, None);
    let raise: Line = (Action::Deny, false, Some(Change::Add(1)));
    assert_eq!(rt; decide(alloc, &[])?, None);
    assert_eq!(rt; decide(alloc, &[preferred])?, None);
    assert_eq!(rt; decide(alloc, &[preferred, allow])?, Some(Some(50)));
    assert_eq!(rt; decide(alloc, &[preferred, allow, deny])?, None);
    assert_eq!(rt; decide(alloc, &[preferred, quick, deny])?, Some(Some(50)));
    assert_eq!(rt; decide(alloc, &[raise, raise, allow])?, Some(Some(102)));
    assert_eq!(rt; decide(alloc, &[allow])?, Some(None));
    Ok(())
}

/// Whom a rule is for.
type Audience = (Direction, Option<u8>, Peer);

/// A `match` for each of these that raises LOCAL_PREF by 1, and then an `allow` for all.
fn raises(alloc: Global, audiences: &[Audience]) -> Result<RuleList, Fail> {
    let mut rules = RuleList::new(alloc);
    for audience in audiences {
        let raise = rule(alloc, (Action::Match, false, Some(Change::Add(1))))?;
        rules.push(Rule {
            direction: audience.0,
            rib: audience.1,
            peer: audience.2.clone()?,
            ..raise
        })?;
    }
    rules.push(rule(alloc, (Action::Allow, false, None))?)?;
    Ok(rules)
}

/// The verdicts of both evaluations.
fn decide_both<L: Ledger>(
    alloc: Global,
    rules: &RuleList,
    context: &Context,
    route: &Attrs,
    blank: Blank,
) -> Result<(Verdict, Verdict), Fail>
    requires named { AreNamed empty_sets rules.now }
    requires name { blank.name ≡ L.name }
    requires parts { blank.parts ≡ L.parts }
    requires some { 0 < blank.parts }
{
    let mut steps = Steps::<L>::new(blank);
    let table = SkipTable::build(alloc, rules)?;
    let one = evaluate(alloc, rules, &NoSets, context, route, &mut steps)?;
    let other = evaluate_skipping(alloc, &table, rules, &NoSets, context, route, &mut steps)?;
    Ok((one, other))
}

/// The LOCAL_PREF that both evaluations agree on.
fn raised(alloc: Global, rules: &RuleList, context: &Context) -> Result<Option<u32>, Fail> {
    if !rules_name_no_sets(rules.as_slice()) {
        return Ok(None);
    }
    let route = route(alloc)?;
    let (one, other) = decide_both::<Brand>(alloc, rules, context, &route, Blank::new(1))?;
    let raised = local_pref_of(one);
    if local_pref_of(other) != raised {
        return Ok(None);
    }
    Ok(raised)
}

/// The LOCAL_PREF of a changed route.
fn local_pref_of(verdict: Verdict) -> Option<u32> {
    match verdict {
        Verdict::Changed(attrs, _) => attrs.local_pref,
        _ => None,
    }
}

// Five of these thirteen are for a route into RIB 0 from 10.0.0.2 of AS 65002 in the group transit.
#[test]
fn rules_for_others_are_passed_over(rt: HostRuntime) -> Result<(), Fail> {
    let alloc = rt.alloc();
    let name = Items::from_slice(alloc, b"transit")?;
    let context = Context {
        group: Some(name.clone()?),
        ..context()
    };
    let other = Items::from_slice(alloc, b"customers")?;
    let audiences = [
        (Direction::From, None, Peer::Any),
        (Direction::From, Some(0), Peer::Ebgp),
        (Direction::From, Some(1), Peer::Any),
        (Direction::To, None, Peer::Any),
        (Direction::To, None, Peer::Address(v4(2))),
        (Direction::From, None, Peer::Ibgp),
        (Direction::From, None, Peer::Address(v4(2))),
        (Direction::From, None, Peer::Address(v4(3))),
        (Direction::From, None, Peer::Address(v6())),
        (Direction::From, Some(0), Peer::Group(name)),
        (Direction::From, None, Peer::Group(other)),
        (Direction::From, None, Peer::As(65002)),
        (Direction::From, None, Peer::As(65003)),
    ];
    let rules = raises(alloc, &audiences)?;
    assert_eq!(rt; raised(alloc, &rules, &context)?, Some(105));
    let all = audiences.as_slice();
    let none = raises(alloc, &all[2..6])?;
    assert_eq!(rt; raised(alloc, &none, &context)?, None);
    Ok(())
}
