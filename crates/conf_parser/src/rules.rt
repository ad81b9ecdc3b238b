//! Filter rules.

ghost use Rattle.std.specs.Prelude.{◌≡◌, min};
ghost use Rattle.conf_tree.specs.RuleReading.{begins_peer, directed_rule_at, factor, factors, flat_rules_of, known_peer_at, peer_at, place_of, rule_at, rule_body_at};
ghost use Rattle.conf_parser.specs.Reads.{Reads};

use crate::cursor::{Cursor, too_many};
use crate::lists::ReadMember;
use conf_tree::{Action, ConditionBlock, Direction, Lists, Peer, RuleBlock, SetPlace, Text};
use net_base::{ConfError, Counted};
use std::alloc::Global;

/// Reads the peers of a rule.
#[derive(Drop)]
struct Peers;

impl ReadMember for Peers {
    type Value = Peer;

    ghost member = { λ reader. peer_at };

    #[tactic(auto, unfolding(conf_tree::specs::RuleReading::peer_at, conf_tree::specs::Reading::unless_full))]
    fn read<'a>(
        &self,
        alloc: Global,
        full: bool,
        tokens: &mut Cursor<'a>,
    ) -> Result<Peer, ConfError> {
        if !tokens.begins_peer() {
            return Err(tokens.unexpected());
        }
        if full {
            return Err(too_many(Counted::Rules, tokens.line()));
        }
        tokens.peer(alloc)
    }
}

impl<'a> Cursor<'a> {
    /// A rule, behind its action, which may stand for so many flat ones.
    #[tactic(auto, unfolding(conf_tree::specs::RuleReading::rule_at))]
    pub(crate) fn rule(
        &mut self,
        alloc: Global,
        room: usize,
        action: Action,
    ) -> Result<RuleBlock, ConfError>
        ensures { Reads (rule_at room action) self.old self.new result }
    {
        if self.takes(b"quick") {
            return self.directed_rule(alloc, room, action, true);
        }
        self.directed_rule(alloc, room, action, false)
    }

    /// What stands behind `quick`, or behind the action where that is missing.
    #[tactic(auto, unfolding(conf_tree::specs::RuleReading::directed_rule_at, conf_tree::specs::RuleReading::rib_rule_at))]
    fn directed_rule(
        &mut self,
        alloc: Global,
        room: usize,
        action: Action,
        quick: bool,
    ) -> Result<RuleBlock, ConfError>
        ensures { Reads (directed_rule_at room action quick) self.old self.new result }
    {
        if self.takes(b"rib") {
            let name = self.name(alloc)?;
            self.keyword(b"from")?;
            self.rule_body(alloc, room, action, quick, Some(name), Direction::From)
        } else if self.takes(b"from") {
            self.rule_body(alloc, room, action, quick, None, Direction::From)
        } else if self.takes(b"to") {
            self.rule_body(alloc, room, action, quick, None, Direction::To)
        } else {
            Err(self.unexpected())
        }
    }

    /// What stands behind `from` or `to`, where the rule may stand for so many flat ones.
    #[tactic(auto, unfolding(conf_tree::specs::RuleReading::rule_body_at))]
    fn rule_body(
        &mut self,
        alloc: Global,
        room: usize,
        action: Action,
        quick: bool,
        rib: Option<Text>,
        direction: Direction,
    ) -> Result<RuleBlock, ConfError>
        ensures { Reads (rule_body_at room action quick rib direction) self.old self.new result }
    {
        let peers = self.one_or_list(alloc, &Peers, room)?;
        let lists = Lists {
            room: room / peers.len(),
            prefixes: false,
            numbers: false,
        };
        let conditions = self.conditions(alloc, lists)?;
        let set = self.optional_set(alloc, place_of(direction))?;
        Ok(RuleBlock {
            action,
            quick,
            rib,
            direction,
            peers,
            conditions,
            set,
        })
    }

    /// Whether the next token can begin a peer.
    #[tactic(auto, unfolding(conf_tree::specs::RuleReading::begins_peer, conf_tree::specs::Reading::word_in))]
    fn begins_peer(&self) -> bool
        ensures { result ≡ begins_peer self.now }
    {
        if self.word_in(&[b"any", b"ebgp", b"ibgp", b"group", b"AS"]) {
            return true;
        }
        self.address_of().is_some()
    }

    /// A peer.
    #[tactic(auto, unfolding(conf_tree::specs::RuleReading::known_peer_at, conf_tree::specs::RuleReading::one_peer_at, conf_tree::specs::RuleReading::group_peer_at, conf_tree::specs::RuleReading::as_peer_at, conf_tree::specs::RuleReading::address_peer_at))]
    fn peer(&mut self, alloc: Global) -> Result<Peer, ConfError>
        ensures { Reads known_peer_at self.old self.new result }
    {
        if self.takes(b"any") {
            Ok(Peer::Any)
        } else if self.takes(b"ebgp") {
            Ok(Peer::Ebgp)
        } else if self.takes(b"ibgp") {
            Ok(Peer::Ibgp)
        } else if self.takes(b"group") {
            Ok(Peer::Group(self.group_name(alloc)?))
        } else if self.takes(b"AS") {
            Ok(Peer::As(self.as_number(1)?))
        } else {
            Ok(Peer::Address(self.address()?))
        }
    }
}

/// Where the set of a rule stands.
fn place_of(direction: Direction) -> SetPlace
    ensures { result ≡ place_of direction }
{
    match direction {
        Direction::From => SetPlace::FromRule,
        Direction::To => SetPlace::ToRule,
    }
}

/// How many flat rules a rule stands for, or the greatest usize where it is more.
#[tactic(auto, using(crate::proofs::Products::stops))]
pub(crate) fn flat_rules_of(rule: &RuleBlock) -> usize
    ensures { result ≡ min (flat_rules_of rule.now) 18446744073709551615 }
{
    rule.peers
        .len()
        .saturating_mul(factors(rule.conditions.as_slice()))
}

/// The product of the members of some conditions, or the greatest usize where it is more.
#[tactic(auto, using(crate::proofs::Products::stops), unfolding(conf_tree::specs::RuleReading::factors))]
fn factors(conditions: &[ConditionBlock]) -> usize
    ensures { result ≡ min (factors conditions.now) 18446744073709551615 }
{
    match conditions {
        [] => 1,
        [first, rest @ ..] => factor(first).saturating_mul(factors(rest)),
    }
}

/// How many members a condition has.
fn factor(condition: &ConditionBlock) -> usize
    ensures { result ≡ factor condition.now }
{
    match condition {
        ConditionBlock::Prefixes(entries) => entries.len(),
        ConditionBlock::PathNumbers(_, numbers) => numbers.len(),
        _ => 1,
    }
}
