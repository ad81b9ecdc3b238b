//! Whether a rule matches a route.

ghost use Rattle.std.specs.Prelude.{◌≡◌, false, bytes_eq};
ghost use Rattle.std.specs.List.{All, list_all};
ghost use Rattle.std.specs.Option.{option_map_or};
ghost use Rattle.filter_engine.specs.Asked.{AreRight};
ghost use Rattle.filter_engine.specs.Conditions.{condition_holds, direction_fits, peer_fits, rib_fits};
ghost use Rattle.filter_engine.specs.IsFor.{is_for};
ghost use Rattle.filter_engine.specs.Named.{IsNamed};

use crate::asked::Asked;
use crate::conditions::{condition_holds, same_address};
use crate::{Context, Hop};
use attr_model::Attrs;
use conf_tree::{Condition, Direction, Members, Peer, Rule, Text};

/// Whether the rule is for routes of this direction, RIB and neighbour.
pub(crate) fn is_for(context: &Context, rule: &Rule) -> bool
    ensures { result ≡ is_for context.now rule.now }
{
    direction_fits(rule.direction, context)
        && rib_fits(rule.rib, context)
        && peer_fits(&rule.peer, context)
}

/// Whether all conditions hold for a route as it stands.
pub(crate) fn all_hold<M: Members>(
    sets: &M,
    context: &Context,
    origin: Option<u32>,
    attrs: &Attrs,
    hop: Hop,
    conditions: &[Condition],
    asked: &mut Asked,
) -> bool
    requires named { All (IsNamed (M.conf_of sets.now)) conditions.now }
    requires right { AreRight (M.conf_of sets.now) context.now origin asked.old }
    ensures value { result ≡ list_all (condition_holds (M.conf_of sets.now) context.now origin attrs.now hop) conditions.now }
    ensures kept { AreRight (M.conf_of sets.now) context.now origin asked.new }
{
    for condition in conditions {
        if !condition_holds(sets, context, origin, attrs, hop, *condition, asked) {
            return false;
        }
    }
    true
}

fn direction_fits(direction: Direction, context: &Context) -> bool
    ensures { result ≡ direction_fits direction context.now }
{
    match direction {
        Direction::From => !context.to,
        Direction::To => context.to,
    }
}

fn rib_fits(rib: Option<u8>, context: &Context) -> bool
    ensures { result ≡ rib_fits rib context.now }
{
    match rib {
        None => true,
        Some(rib) => !context.to && context.rib == rib,
    }
}

pub(crate) fn peer_fits(peer: &Peer, context: &Context) -> bool
    ensures { result ≡ peer_fits peer.now context.now }
{
    match peer {
        Peer::Any => true,
        Peer::Ebgp => context.external,
        Peer::Ibgp => !context.external,
        Peer::Address(address) => same_address(context.peer, *address),
        Peer::Group(name) => is_in_group(&context.group, name),
        Peer::As(asn) => context.peer_as == *asn,
    }
}

fn is_in_group(group: &Option<Text>, name: &Text) -> bool
    ensures { result ≡ option_map_or (λ group. bytes_eq group name.now) group.now false }
{
    match group {
        None => false,
        Some(group) => group.as_slice() == name.as_slice(),
    }
}
