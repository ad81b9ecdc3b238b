//! Prefix-sets, as-sets, origin-sets and the roa-set.

ghost use Rattle.std.specs.Prelude.{◌≡◌};
ghost use Rattle.conf_tree.specs.StatementReading.{as_set_at, authorization_at, named_brace_at, number_entry_at, optional_maxlen_at, origin_set_at, prefix_entry_at, prefix_set_at, roa_entry_at, roa_set_at};
ghost use Rattle.conf_parser.specs.Reads.{Reads};

use crate::cursor::{Cursor, too_many};
use crate::lists::ReadMember;
use conf_tree::{PrefixRange, Room, Statement, Text};
use net_base::{ConfError, ConfKind, Counted, Prefix, Roa};
use std::alloc::Global;

/// Reads the entries of prefix-sets.
#[derive(Drop)]
struct PrefixEntries;

impl ReadMember for PrefixEntries {
    type Value = PrefixRange;

    ghost member = { λ reader. prefix_entry_at };

    #[tactic(auto, unfolding(conf_tree::specs::StatementReading::prefix_entry_at, conf_tree::specs::StatementReading::entry_at))]
    fn read<'a>(
        &self,
        _alloc: Global,
        full: bool,
        tokens: &mut Cursor<'a>,
    ) -> Result<PrefixRange, ConfError> {
        if tokens.word_is(b"expires") {
            return Err(tokens.fault(ConfKind::NotInProfile));
        }
        tokens.ranged(full, Counted::Entries)
    }
}

/// Reads the entries of as-sets.
#[derive(Drop)]
struct NumberEntries;

impl ReadMember for NumberEntries {
    type Value = u32;

    ghost member = { λ reader. number_entry_at };

    #[tactic(auto, unfolding(conf_tree::specs::StatementReading::number_entry_at, conf_tree::specs::StatementReading::entry_at))]
    fn read<'a>(
        &self,
        _alloc: Global,
        full: bool,
        tokens: &mut Cursor<'a>,
    ) -> Result<u32, ConfError> {
        if tokens.word_is(b"expires") {
            return Err(tokens.fault(ConfKind::NotInProfile));
        }
        tokens.counted_number(1, full, Counted::Entries)
    }
}

/// Reads the entries of origin-sets and of the roa-set.
#[derive(Drop)]
struct Authorizations;

impl ReadMember for Authorizations {
    type Value = Roa;

    ghost member = { λ reader. roa_entry_at };

    #[tactic(auto, unfolding(conf_tree::specs::StatementReading::roa_entry_at, conf_tree::specs::StatementReading::entry_at, conf_tree::specs::StatementReading::counted_authorization_at, conf_tree::specs::Reading::unless_full))]
    fn read<'a>(
        &self,
        _alloc: Global,
        full: bool,
        tokens: &mut Cursor<'a>,
    ) -> Result<Roa, ConfError> {
        if tokens.word_is(b"expires") {
            return Err(tokens.fault(ConfKind::NotInProfile));
        }
        let line = tokens.line();
        let prefix = tokens.prefix()?;
        if full {
            return Err(too_many(Counted::Entries, line));
        }
        tokens.authorization(prefix)
    }
}

impl<'a> Cursor<'a> {
    /// What stands behind `prefix-set`.
    #[tactic(auto, unfolding(conf_tree::specs::StatementReading::prefix_set_at))]
    pub(crate) fn prefix_set(&mut self, alloc: Global, room: Room) -> Result<Statement, ConfError>
        ensures { Reads (prefix_set_at room) self.old self.new result }
    {
        let name = self.named_brace(alloc)?;
        let entries = self.list(alloc, &PrefixEntries, room.entries)?;
        Ok(Statement::PrefixSet(name, entries))
    }

    /// What stands behind `as-set`.
    #[tactic(auto, unfolding(conf_tree::specs::StatementReading::as_set_at))]
    pub(crate) fn as_set(&mut self, alloc: Global, room: Room) -> Result<Statement, ConfError>
        ensures { Reads (as_set_at room) self.old self.new result }
    {
        let name = self.named_brace(alloc)?;
        let numbers = self.list(alloc, &NumberEntries, room.entries)?;
        Ok(Statement::AsSet(name, numbers))
    }

    /// What stands behind `origin-set`.
    #[tactic(auto, unfolding(conf_tree::specs::StatementReading::origin_set_at))]
    pub(crate) fn origin_set(&mut self, alloc: Global, room: Room) -> Result<Statement, ConfError>
        ensures { Reads (origin_set_at room) self.old self.new result }
    {
        let name = self.named_brace(alloc)?;
        let entries = self.list(alloc, &Authorizations, room.entries)?;
        Ok(Statement::OriginSet(name, entries))
    }

    /// What stands behind `roa-set`.
    #[tactic(auto, unfolding(conf_tree::specs::StatementReading::roa_set_at))]
    pub(crate) fn roa_set(&mut self, alloc: Global, room: Room) -> Result<Statement, ConfError>
        ensures { Reads (roa_set_at room) self.old self.new result }
    {
        self.open_brace()?;
        let entries = self.list(alloc, &Authorizations, room.entries)?;
        Ok(Statement::RoaSet(entries))
    }

    /// A name and `{`.
    #[tactic(auto, unfolding(conf_tree::specs::StatementReading::named_brace_at))]
    fn named_brace(&mut self, alloc: Global) -> Result<Text, ConfError>
        ensures { Reads named_brace_at self.old self.new result }
    {
        let name = self.name(alloc)?;
        self.open_brace()?;
        Ok(name)
    }

    /// What stands behind the prefix of an authorization: its greatest length and its AS, which may be 0.
    #[tactic(auto, unfolding(conf_tree::specs::StatementReading::authorization_at, conf_tree::specs::StatementReading::source_at, conf_tree::specs::StatementReading::entry_at))]
    fn authorization(&mut self, prefix: Prefix) -> Result<Roa, ConfError>
        ensures { Reads (authorization_at prefix) self.old self.new result }
    {
        let maxlen = self.optional_maxlen(prefix)?;
        if self.word_is(b"expires") {
            return Err(self.fault(ConfKind::NotInProfile));
        }
        self.keyword(b"source-as")?;
        let source = self.as_number(0)?;
        Ok(Roa {
            prefix,
            maxlen,
            source,
        })
    }

    /// The greatest length of an authorization, which is the prefix's own where none is said.
    #[tactic(auto, unfolding(conf_tree::specs::StatementReading::optional_maxlen_at))]
    fn optional_maxlen(&mut self, prefix: Prefix) -> Result<u8, ConfError>
        ensures { Reads (optional_maxlen_at prefix) self.old self.new result }
    {
        if !self.takes(b"maxlen") {
            return Ok(prefix.len);
        }
        self.number8(prefix.len, prefix.family.width())
    }
}
