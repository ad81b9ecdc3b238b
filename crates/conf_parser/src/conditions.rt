//! The conditions of a rule.

ghost use Rattle.std.specs.Prelude.{◌≡◌, IfSome, is_some, length};
ghost use Rattle.conf_tree.specs.Reading.{behind, word_in};
ghost use Rattle.conf_tree.specs.RuleReading.{Lists, condition_at, condition_words, conditions_at, ends_conditions, known_condition_at, next_hop_condition_at, number_list_at, ovs_condition_at, path_condition_at, prefix_condition_at, prefix_set_condition_at};
ghost use Rattle.conf_parser.specs.Reads.{Reads};
ghost use Rattle.conf_parser.specs.Words.{condition_behind};

use crate::cursor::{Cursor, too_many};
use crate::entries::{RuleNumbers, RulePrefixes};
use crate::lists::ReadMember;
use conf_tree::{ConditionBlock, ConditionBlockList, Lists, PathPart};
use net_base::{ConfError, ConfKind, Counted, Family, Items, Ovs};
use std::alloc::Global;

/// The most conditions of a rule.
const MOST_CONDITIONS: usize = 16;

/// The greatest length of an AS path that a condition can name.
const MOST_AS_LEN: u16 = 1023;

/// The words that begin a condition.
#[derive(Clone, Copy)]
pub(crate) enum ConditionWord {
    Prefix,
    PrefixSet,
    As,
    SourceAs,
    TransitAs,
    PeerAs,
    OriginSet,
    Ovs,
    Community,
    LargeCommunity,
    MaxAsLen,
    NextHop,
    Inet,
    Inet6,
}

/// A condition, and what it leaves to the lists behind it.
type Condition = (ConditionBlock, Lists);

impl<'a> Cursor<'a> {
    /// The conditions of a rule, up to `set` or the end of the line.
    #[tactic(auto, using(crate::proofs::ConditionLoop::closes, crate::proofs::ConditionLoop::goes_on, crate::proofs::ConditionLoop::ends, crate::proofs::ConditionLoop::is_done, crate::proofs::ConditionLoop::is_over))]
    pub(crate) fn conditions(
        &mut self,
        alloc: Global,
        lists: Lists,
    ) -> Result<ConditionBlockList, ConfError>
        ensures { Reads (λ tokens. conditions_at lists 16 (length tokens) tokens) self.old self.new result }
    {
        let mut conditions = Items::new(alloc);
        let mut lists = lists;
        let mut room = MOST_CONDITIONS;
        for _ in 0..self.len() {
            if self.ends_conditions() {
                return Ok(conditions);
            }
            let (condition, left) = self.condition(alloc, lists, room == 0)?;
            conditions.push(condition)?;
            lists = left;
            room = room.saturating_sub(1);
        }
        if self.ends_conditions() {
            return Ok(conditions);
        }
        Err(self.unexpected())
    }

    /// Whether the conditions of a rule end here.
    #[tactic(auto, unfolding(conf_tree::specs::RuleReading::ends_conditions))]
    fn ends_conditions(&self) -> bool
        ensures { result ≡ ends_conditions self.now }
    {
        self.word_is(b"set") || self.ends_line()
    }

    /// One condition. The error at its word is `TooMany conditions` where there is no room for it.
    #[tactic(auto, unfolding(conf_tree::specs::RuleReading::condition_at, conf_tree::specs::Reading::unless_full))]
    fn condition(&mut self, alloc: Global, lists: Lists, full: bool) -> Result<Condition, ConfError>
        ensures { Reads (condition_at lists full) self.old self.new result }
    {
        if self.is_left_out_of_rules() {
            return Err(self.fault(ConfKind::NotInProfile));
        }
        let Some(word) = self.condition_word() else {
            return Err(self.unexpected());
        };
        if full {
            return Err(too_many(Counted::Conditions, self.line()));
        }
        self.advance();
        self.condition_behind(alloc, lists, word)
    }

    /// The word of a condition that stands here.
    #[tactic(auto, unfolding(conf_tree::specs::Reading::word_in, conf_tree::specs::RuleReading::known_condition_at, conf_tree::specs::RuleReading::path_word_at, conf_tree::specs::RuleReading::other_condition_at, conf_tree::specs::RuleReading::plain_condition_at, conf_tree::specs::RuleReading::route_condition_at))]
    fn condition_word(&self) -> Option<ConditionWord>
        ensures begins { is_some result ≡ word_in condition_words self.now }
        ensures goes_on { IfSome result (λ w. (lists : Lists) → known_condition_at lists self.now ≡ condition_behind lists w (behind self.now)) }
    {
        if self.word_is(b"prefix") {
            Some(ConditionWord::Prefix)
        } else if self.word_is(b"prefix-set") {
            Some(ConditionWord::PrefixSet)
        } else if self.word_is(b"AS") {
            Some(ConditionWord::As)
        } else if self.word_is(b"source-as") {
            Some(ConditionWord::SourceAs)
        } else if self.word_is(b"transit-as") {
            Some(ConditionWord::TransitAs)
        } else if self.word_is(b"peer-as") {
            Some(ConditionWord::PeerAs)
        } else if self.word_is(b"origin-set") {
            Some(ConditionWord::OriginSet)
        } else if self.word_is(b"ovs") {
            Some(ConditionWord::Ovs)
        } else if self.word_is(b"community") {
            Some(ConditionWord::Community)
        } else if self.word_is(b"large-community") {
            Some(ConditionWord::LargeCommunity)
        } else if self.word_is(b"max-as-len") {
            Some(ConditionWord::MaxAsLen)
        } else if self.word_is(b"nexthop") {
            Some(ConditionWord::NextHop)
        } else if self.word_is(b"inet") {
            Some(ConditionWord::Inet)
        } else if self.word_is(b"inet6") {
            Some(ConditionWord::Inet6)
        } else {
            None
        }
    }

    /// What stands behind the word of a condition.
    #[tactic(auto, unfolding(conf_tree::specs::RuleReading::origin_set_condition_at, conf_tree::specs::RuleReading::community_condition_at, conf_tree::specs::RuleReading::large_condition_at, conf_tree::specs::RuleReading::max_as_len_condition_at))]
    fn condition_behind(
        &mut self,
        alloc: Global,
        lists: Lists,
        word: ConditionWord,
    ) -> Result<Condition, ConfError>
        ensures { Reads (condition_behind lists word) self.old self.new result }
    {
        match word {
            ConditionWord::Prefix => self.prefix_condition(alloc, lists),
            ConditionWord::PrefixSet => self.prefix_set_condition(alloc, lists),
            ConditionWord::As => self.path_condition(alloc, lists, PathPart::Any, 1),
            ConditionWord::SourceAs => self.path_condition(alloc, lists, PathPart::Source, 0),
            ConditionWord::TransitAs => self.path_condition(alloc, lists, PathPart::Transit, 1),
            ConditionWord::PeerAs => self.path_condition(alloc, lists, PathPart::Peer, 1),
            ConditionWord::OriginSet => Ok((ConditionBlock::OriginSet(self.name(alloc)?), lists)),
            ConditionWord::Ovs => Ok((self.ovs_condition()?, lists)),
            ConditionWord::Community => {
                Ok((ConditionBlock::Community(self.community(true)?), lists))
            }
            ConditionWord::LargeCommunity => {
                Ok((
                    ConditionBlock::LargeCommunity(self.large_community(true)?),
                    lists,
                ))
            }
            ConditionWord::MaxAsLen => {
                Ok((
                    ConditionBlock::MaxAsLen(self.number16(0, MOST_AS_LEN)?),
                    lists,
                ))
            }
            ConditionWord::NextHop => Ok((self.next_hop_condition()?, lists)),
            ConditionWord::Inet => Ok((ConditionBlock::Family(Family::V4), lists)),
            ConditionWord::Inet6 => Ok((ConditionBlock::Family(Family::V6), lists)),
        }
    }

    /// What stands behind `prefix`: one with its lengths, or a list of them in braces. The error at the `{` of a
    /// second list is `UnexpectedWord`.
    #[tactic(auto, unfolding(conf_tree::specs::RuleReading::prefix_condition_at, conf_tree::specs::RuleReading::prefix_list_at, conf_tree::specs::RuleReading::one_prefix_at))]
    fn prefix_condition(&mut self, alloc: Global, lists: Lists) -> Result<Condition, ConfError>
        ensures { Reads (prefix_condition_at lists) self.old self.new result }
    {
        if !self.mark_is(b"{") {
            let mut members = Items::new(alloc);
            members.push(RulePrefixes.read(alloc, false, self)?)?;
            return Ok((ConditionBlock::Prefixes(members), lists));
        }
        if lists.prefixes {
            return Err(self.unexpected());
        }
        self.advance();
        let members = self.full_list(alloc, &RulePrefixes, lists.room)?;
        let left = Lists {
            room: lists.room / members.len(),
            prefixes: true,
            numbers: lists.numbers,
        };
        Ok((ConditionBlock::Prefixes(members), left))
    }

    /// What stands behind `prefix-set`.
    #[tactic(auto, unfolding(conf_tree::specs::RuleReading::prefix_set_condition_at))]
    fn prefix_set_condition(&mut self, alloc: Global, lists: Lists) -> Result<Condition, ConfError>
        ensures { Reads (prefix_set_condition_at lists) self.old self.new result }
    {
        let name = self.name(alloc)?;
        if self.takes(b"or-longer") {
            return Ok((ConditionBlock::PrefixSetOrLonger(name), lists));
        }
        Ok((ConditionBlock::PrefixSet(name), lists))
    }

    /// What stands behind `AS` and its like: a number from low on, a list of them in braces, or an as-set. The
    /// error at the `{` of a second list is `UnexpectedWord`.
    #[tactic(auto, unfolding(conf_tree::specs::RuleReading::path_condition_at, conf_tree::specs::RuleReading::as_set_condition_at, conf_tree::specs::RuleReading::one_number_at))]
    fn path_condition(
        &mut self,
        alloc: Global,
        lists: Lists,
        part: PathPart,
        low: u32,
    ) -> Result<Condition, ConfError>
        ensures { Reads (path_condition_at lists part low) self.old self.new result }
    {
        if self.mark_is(b"{") {
            return self.number_list(alloc, lists, part, low);
        }
        if self.takes(b"as-set") {
            return Ok((ConditionBlock::PathSet(part, self.name(alloc)?), lists));
        }
        let mut members = Items::new(alloc);
        members.push(self.as_number(low)?)?;
        Ok((ConditionBlock::PathNumbers(part, members), lists))
    }

    /// A list of AS numbers, from its `{` on.
    #[tactic(auto, unfolding(conf_tree::specs::RuleReading::number_list_at))]
    fn number_list(
        &mut self,
        alloc: Global,
        lists: Lists,
        part: PathPart,
        low: u32,
    ) -> Result<Condition, ConfError>
        ensures { Reads (number_list_at lists part low) self.old self.new result }
    {
        if lists.numbers {
            return Err(self.unexpected());
        }
        self.advance();
        let members = self.full_list(alloc, &RuleNumbers { low }, lists.room)?;
        let left = Lists {
            room: lists.room / members.len(),
            prefixes: lists.prefixes,
            numbers: true,
        };
        Ok((ConditionBlock::PathNumbers(part, members), left))
    }

    /// What stands behind `ovs`.
    #[tactic(auto, unfolding(conf_tree::specs::RuleReading::ovs_condition_at))]
    fn ovs_condition(&mut self) -> Result<ConditionBlock, ConfError>
        ensures { Reads ovs_condition_at self.old self.new result }
    {
        if self.takes(b"valid") {
            Ok(ConditionBlock::Ovs(Ovs::Valid))
        } else if self.takes(b"invalid") {
            Ok(ConditionBlock::Ovs(Ovs::Invalid))
        } else if self.takes(b"not-found") {
            Ok(ConditionBlock::Ovs(Ovs::NotFound))
        } else {
            Err(self.unexpected())
        }
    }

    /// What stands behind `nexthop`.
    #[tactic(auto, unfolding(conf_tree::specs::RuleReading::next_hop_condition_at, conf_tree::specs::Reading::word_in))]
    fn next_hop_condition(&mut self) -> Result<ConditionBlock, ConfError>
        ensures { Reads next_hop_condition_at self.old self.new result }
    {
        if self.word_in(&[b"blackhole", b"reject"]) {
            return Err(self.fault(ConfKind::NotInProfile));
        }
        Ok(ConditionBlock::NextHop(self.address()?))
    }
}
