//! Neighbours and groups.

ghost use Rattle.std.specs.Prelude.{◌≡◌, MatchOption, length};
ghost use Rattle.conf_tree.specs.Reading.{behind, word_in};
ghost use Rattle.conf_tree.specs.NeighbourReading.{announce_at, any_hold_option_at, family_at, group_at, group_members_at, left_out_of_neighbours, max_prefix_at, neighbour_line_at, no_option_at, option_at, option_line_at, options_at, separated_at};
ghost use Rattle.conf_parser.specs.Reads.{Passes, Reads};
ghost use Rattle.conf_parser.specs.Words.{neighbour_behind, option_behind};

use crate::cursor::{Cursor, too_many};
use conf_tree::{
    GroupBlock, NeighbourBlock, NeighbourBlockList, NeighbourOption, OptionLine, OptionList,
    SetPlace,
};
use net_base::{ConfError, ConfKind, Counted, Family, Items};
use std::alloc::Global;

/// The words that begin an option of a neighbour or a group.
#[derive(Clone, Copy)]
pub(crate) enum OptionWord {
    RemoteAs,
    LocalAddress,
    Descr,
    Port,
    Passive,
    Down,
    Multihop,
    Holdtime,
    Announce,
    MaxPrefix,
    Rib,
    Set,
}

/// The options and the neighbours of a group.
type Members = (OptionList, NeighbourBlockList);

impl<'a> Cursor<'a> {
    /// A group, behind the word `group`, with room for so many neighbours.
    #[tactic(auto, unfolding(conf_tree::specs::NeighbourReading::group_at))]
    pub(crate) fn group(&mut self, alloc: Global, room: usize) -> Result<GroupBlock, ConfError>
        ensures { Reads (group_at room) self.old self.new result }
    {
        let name = self.group_name(alloc)?;
        self.open_brace()?;
        let (options, neighbours) = self.group_members(alloc, room)?;
        Ok(GroupBlock {
            name,
            options,
            neighbours,
        })
    }

    /// What stands in a group up to `}`, with room for so many neighbours.
    #[tactic(auto, using(crate::proofs::GroupLoop::closes, crate::proofs::GroupLoop::goes_on_neighbour, crate::proofs::GroupLoop::goes_on_option, crate::proofs::GroupLoop::ends_neighbour, crate::proofs::GroupLoop::ends_option, crate::proofs::GroupLoop::is_done))]
    fn group_members(&mut self, alloc: Global, room: usize) -> Result<Members, ConfError>
        ensures { Reads (λ tokens. group_members_at room (length tokens) tokens) self.old self.new result }
    {
        let mut options = Items::new(alloc);
        let mut neighbours = Items::new(alloc);
        let mut room = room;
        for _ in 0..self.len() {
            self.skip_line_ends();
            if self.takes_mark(b"}") {
                return Ok((options, neighbours));
            }
            if self.word_is(b"neighbor") {
                neighbours.push(self.neighbour_line(alloc, room == 0)?)?;
                room = room.saturating_sub(1);
            } else {
                options.push(self.option_line(alloc)?)?;
            }
        }
        self.skip_line_ends();
        Err(self.unexpected())
    }

    /// A neighbour of a group from its first word on, and what separates it from what follows. The error at its
    /// first word is `TooMany neighbours` where there is no room for it.
    #[tactic(auto, unfolding(conf_tree::specs::NeighbourReading::neighbour_line_at, conf_tree::specs::NeighbourReading::neighbour_at, conf_tree::specs::Reading::unless_full))]
    fn neighbour_line(&mut self, alloc: Global, full: bool) -> Result<NeighbourBlock, ConfError>
        ensures { Reads (neighbour_line_at full) self.old self.new result }
    {
        let line = self.line();
        if full {
            return Err(too_many(Counted::Neighbours, line));
        }
        self.advance();
        let neighbour = self.neighbour(alloc, line)?;
        self.separated()?;
        Ok(neighbour)
    }

    /// What stands behind the word `neighbor`, which stands on this line. A prefix in the place of the address is
    /// left out of the language.
    #[tactic(auto, unfolding(conf_tree::specs::NeighbourReading::neighbour_body_at))]
    pub(crate) fn neighbour(
        &mut self,
        alloc: Global,
        line: u32,
    ) -> Result<NeighbourBlock, ConfError>
        ensures { Reads (neighbour_behind line) self.old self.new result }
    {
        if self.prefix_of().is_some() {
            return Err(self.fault(ConfKind::NotInProfile));
        }
        let address = self.address()?;
        self.open_brace()?;
        let options = self.options(alloc)?;
        Ok(NeighbourBlock {
            line,
            address,
            options,
        })
    }

    /// The options of a neighbour up to `}`.
    #[tactic(auto, using(crate::proofs::OptionLoop::closes, crate::proofs::OptionLoop::goes_on, crate::proofs::OptionLoop::ends, crate::proofs::OptionLoop::is_done))]
    fn options(&mut self, alloc: Global) -> Result<OptionList, ConfError>
        ensures { Reads (λ tokens. options_at (length tokens) tokens) self.old self.new result }
    {
        let mut options = Items::new(alloc);
        for _ in 0..self.len() {
            self.skip_line_ends();
            if self.takes_mark(b"}") {
                return Ok(options);
            }
            options.push(self.option_line(alloc)?)?;
        }
        self.skip_line_ends();
        Err(self.unexpected())
    }

    /// An option with its line, and what separates it from what follows.
    #[tactic(auto, unfolding(conf_tree::specs::NeighbourReading::option_line_at))]
    fn option_line(&mut self, alloc: Global) -> Result<OptionLine, ConfError>
        ensures { Reads option_line_at self.old self.new result }
    {
        let line = self.line();
        let option = self.option(alloc)?;
        self.separated()?;
        Ok(OptionLine { line, option })
    }

    /// What separates an option from what follows: a line end or `}`, which is left.
    #[tactic(auto, unfolding(conf_tree::specs::NeighbourReading::separated_at))]
    fn separated(&mut self) -> Result<(), ConfError>
        ensures { Passes separated_at self.old self.new result }
    {
        if self.ends_line() || self.mark_is(b"}") {
            return Ok(());
        }
        Err(self.unexpected())
    }

    /// One option of a neighbour or a group.
    #[tactic(auto, unfolding(conf_tree::specs::NeighbourReading::no_option_at))]
    fn option(&mut self, alloc: Global) -> Result<NeighbourOption, ConfError>
        ensures { Reads option_at self.old self.new result }
    {
        let Some(word) = self.option_word() else {
            if self.is_left_out_of_neighbours() {
                return Err(self.fault(ConfKind::NotInProfile));
            }
            return Err(self.unexpected());
        };
        self.advance();
        self.option_behind(alloc, word)
    }

    /// Whether the next token is an option of bgpd.conf(5) that the language leaves out.
    #[tactic(auto, unfolding(conf_tree::specs::Reading::word_in))]
    fn is_left_out_of_neighbours(&self) -> bool
        ensures { result ≡ word_in left_out_of_neighbours self.now }
    {
        self.word_in(&[
            b"ipsec",
            b"tcp",
            b"ttl-security",
            b"depend",
            b"demote",
            b"enforce",
            b"local-as",
            b"role",
            b"export",
            b"route-reflector",
        ])
    }

    /// The word of an option that stands here.
    #[tactic(auto, unfolding(conf_tree::specs::NeighbourReading::option_at, conf_tree::specs::NeighbourReading::connection_option_at, conf_tree::specs::NeighbourReading::session_option_at, conf_tree::specs::NeighbourReading::routing_option_at))]
    fn option_word(&self) -> Option<OptionWord>
        ensures { MatchOption result (option_at self.now ≡ no_option_at self.now) (λ w. option_at self.now ≡ option_behind w (behind self.now)) }
    {
        if self.word_is(b"remote-as") {
            Some(OptionWord::RemoteAs)
        } else if self.word_is(b"local-address") {
            Some(OptionWord::LocalAddress)
        } else if self.word_is(b"descr") {
            Some(OptionWord::Descr)
        } else if self.word_is(b"port") {
            Some(OptionWord::Port)
        } else if self.word_is(b"passive") {
            Some(OptionWord::Passive)
        } else if self.word_is(b"down") {
            Some(OptionWord::Down)
        } else if self.word_is(b"multihop") {
            Some(OptionWord::Multihop)
        } else if self.word_is(b"holdtime") {
            Some(OptionWord::Holdtime)
        } else if self.word_is(b"announce") {
            Some(OptionWord::Announce)
        } else if self.word_is(b"max-prefix") {
            Some(OptionWord::MaxPrefix)
        } else if self.word_is(b"rib") {
            Some(OptionWord::Rib)
        } else if self.word_is(b"set") {
            Some(OptionWord::Set)
        } else {
            None
        }
    }

    /// What stands behind the word of an option.
    #[tactic(auto, unfolding(conf_tree::specs::NeighbourReading::remote_as_at, conf_tree::specs::NeighbourReading::local_address_at, conf_tree::specs::NeighbourReading::description_at, conf_tree::specs::NeighbourReading::port_at, conf_tree::specs::NeighbourReading::multihop_at, conf_tree::specs::NeighbourReading::rib_option_at, conf_tree::specs::NeighbourReading::set_option_at))]
    fn option_behind(
        &mut self,
        alloc: Global,
        word: OptionWord,
    ) -> Result<NeighbourOption, ConfError>
        ensures { Reads (option_behind word) self.old self.new result }
    {
        match word {
            OptionWord::RemoteAs => Ok(NeighbourOption::RemoteAs(self.as_number(1)?)),
            OptionWord::LocalAddress => Ok(NeighbourOption::LocalAddress(self.address()?)),
            OptionWord::Descr => Ok(NeighbourOption::Description(self.quoted_text(alloc)?)),
            OptionWord::Port => Ok(NeighbourOption::Port(self.number16(1, 65535)?)),
            OptionWord::Passive => Ok(NeighbourOption::Passive),
            OptionWord::Down => Ok(NeighbourOption::Down),
            OptionWord::Multihop => Ok(NeighbourOption::Multihop(self.number8(1, 255)?)),
            OptionWord::Holdtime => self.hold_option(),
            OptionWord::Announce => self.announce(),
            OptionWord::MaxPrefix => self.max_prefix(),
            OptionWord::Rib => Ok(NeighbourOption::Rib(self.name(alloc)?)),
            OptionWord::Set => Ok(NeighbourOption::Set(self.set(alloc, SetPlace::Neighbour)?)),
        }
    }

    /// What stands behind `holdtime`.
    #[tactic(auto, unfolding(conf_tree::specs::NeighbourReading::any_hold_option_at, conf_tree::specs::NeighbourReading::hold_min_option_at, conf_tree::specs::NeighbourReading::hold_option_at))]
    fn hold_option(&mut self) -> Result<NeighbourOption, ConfError>
        ensures { Reads any_hold_option_at self.old self.new result }
    {
        if self.takes(b"min") {
            return Ok(NeighbourOption::HoldMin(self.hold_min()?));
        }
        Ok(NeighbourOption::Hold(self.hold()?))
    }

    /// What stands behind `announce`. A capability of another name is left out of the language.
    #[tactic(auto, unfolding(conf_tree::specs::NeighbourReading::announce_at, conf_tree::specs::NeighbourReading::capability_at, conf_tree::specs::NeighbourReading::announce_refresh_at, conf_tree::specs::NeighbourReading::announce_as_4byte_at))]
    fn announce(&mut self) -> Result<NeighbourOption, ConfError>
        ensures { Reads announce_at self.old self.new result }
    {
        if self.takes(b"IPv4") {
            self.family(Family::V4)
        } else if self.takes(b"IPv6") {
            self.family(Family::V6)
        } else if self.takes(b"refresh") {
            Ok(NeighbourOption::AnnounceRefresh(self.yes_no()?))
        } else if self.takes(b"as-4byte") {
            Ok(NeighbourOption::AnnounceAs4Byte(self.yes_no()?))
        } else if self.word().is_some() {
            Err(self.fault(ConfKind::NotInProfile))
        } else {
            Err(self.unexpected())
        }
    }

    /// What stands behind `announce IPv4` and `announce IPv6`.
    #[tactic(auto, unfolding(conf_tree::specs::NeighbourReading::family_at))]
    fn family(&mut self, family: Family) -> Result<NeighbourOption, ConfError>
        ensures { Reads (family_at family) self.old self.new result }
    {
        if self.takes(b"none") {
            Ok(NeighbourOption::Announce(family, false))
        } else if self.takes(b"unicast") {
            Ok(NeighbourOption::Announce(family, true))
        } else {
            Err(self.unexpected())
        }
    }

    /// What stands behind `max-prefix`. The word `restart` behind the number is left out of the language.
    #[tactic(auto, unfolding(conf_tree::specs::NeighbourReading::max_prefix_at))]
    fn max_prefix(&mut self) -> Result<NeighbourOption, ConfError>
        ensures { Reads max_prefix_at self.old self.new result }
    {
        let most = self.number32(1, 4_294_967_295)?;
        if self.word_is(b"restart") {
            return Err(self.fault(ConfKind::NotInProfile));
        }
        Ok(NeighbourOption::MaxPrefix(most))
    }
}
