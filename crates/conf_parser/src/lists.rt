//! Lists in braces.

ghost use Rattle.std.specs.Prelude.{◌≡◌, ◌<◌, IfOk, length};
ghost use Rattle.conf_tree.specs.Reading.{Member, full_list_at, list_at, members_at, one_or_list_at};
ghost use Rattle.conf_parser.specs.Fronts.{behind_front};
ghost use Rattle.conf_parser.specs.Reads.{Reads};

use crate::cursor::Cursor;
use net_base::{ConfError, Items};
use std::alloc::Global;

/// Reads one member of a list.
pub(crate) trait ReadMember {
    type Value: Drop;

    /// What a member is. It is told whether the list has no room for it.
    ghost member: { Self → Member Self.Value };

    /// The member in front.
    fn read<'a>(
        &self,
        alloc: Global,
        full: bool,
        tokens: &mut Cursor<'a>,
    ) -> Result<Self::Value, ConfError>
        ensures { Reads (member self.now full) tokens.old tokens.new result };
}

impl<'a> Cursor<'a> {
    /// The members of a list that may be empty, behind its `{`.
    #[tactic(auto, unfolding(conf_tree::specs::Reading::list_at))]
    pub(crate) fn list<M: ReadMember>(
        &mut self,
        alloc: Global,
        reader: &M,
        room: usize,
    ) -> Result<Items<M::Value>, ConfError>
        ensures { Reads (list_at (M.member reader.now) room) self.old self.new result }
    {
        self.members(alloc, reader, Items::new(alloc), room)
    }

    /// The members of a list that has one at least, behind its `{`.
    #[tactic(auto, unfolding(conf_tree::specs::Reading::full_list_at, conf_tree::specs::Reading::list_at))]
    pub(crate) fn full_list<M: ReadMember>(
        &mut self,
        alloc: Global,
        reader: &M,
        room: usize,
    ) -> Result<Items<M::Value>, ConfError>
        ensures value { Reads (full_list_at (M.member reader.now) room) self.old self.new result }
        ensures some { IfOk result (λ members. 0 < length members) }
    {
        self.skip_separators();
        let mut front = Items::new(alloc);
        front.push(reader.read(alloc, room == 0, self)?)?;
        self.members(alloc, reader, front, room.saturating_sub(1))
    }

    /// One member, or a list of them in braces.
    #[tactic(auto, unfolding(conf_tree::specs::Reading::one_or_list_at))]
    pub(crate) fn one_or_list<M: ReadMember>(
        &mut self,
        alloc: Global,
        reader: &M,
        room: usize,
    ) -> Result<Items<M::Value>, ConfError>
        ensures value { Reads (one_or_list_at (M.member reader.now) room) self.old self.new result }
        ensures some { IfOk result (λ members. 0 < length members) }
    {
        if self.takes_mark(b"{") {
            return self.full_list(alloc, reader, room);
        }
        let mut members = Items::new(alloc);
        members.push(reader.read(alloc, false, self)?)?;
        Ok(members)
    }

    /// The members up to `}`, behind those that were read before, with room for so many.
    #[tactic(auto, using(crate::proofs::Members::closes, crate::proofs::Members::goes_on, crate::proofs::Members::ends, crate::proofs::Members::is_done))]
    fn members<M: ReadMember>(
        &mut self,
        alloc: Global,
        reader: &M,
        front: Items<M::Value>,
        room: usize,
    ) -> Result<Items<M::Value>, ConfError>
        ensures { Reads (λ tokens. behind_front front (members_at (M.member reader.now) room (length tokens) tokens)) self.old self.new result }
    {
        let mut members = front;
        let mut room = room;
        for _ in 0..self.len() {
            self.skip_separators();
            if self.takes_mark(b"}") {
                return Ok(members);
            }
            members.push(reader.read(alloc, room == 0, self)?)?;
            room = room.saturating_sub(1);
        }
        self.skip_separators();
        Err(self.unexpected())
    }
}
