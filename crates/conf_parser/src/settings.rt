//! What stands behind the words of the settings that have more than one value.

ghost use Rattle.std.specs.Prelude.{◌≡◌};
ghost use Rattle.conf_tree.specs.StatementReading.{any_hold_statement_at, listen_at, med_compare_at, qualify_at, rde_at, rib_at};
ghost use Rattle.conf_parser.specs.Reads.{Reads};

use crate::cursor::{Cursor, too_many};
use conf_tree::{Listen, Room, Statement};
use net_base::{ConfError, ConfKind, Counted};
use std::alloc::Global;

/// The port where none is said (RFC 4271 section 8.1).
const BGP_PORT: u16 = 179;

impl<'a> Cursor<'a> {
    /// What stands behind `holdtime`.
    #[tactic(auto, unfolding(conf_tree::specs::StatementReading::any_hold_statement_at, conf_tree::specs::StatementReading::hold_min_statement_at, conf_tree::specs::StatementReading::hold_statement_at))]
    pub(crate) fn hold_statement(&mut self) -> Result<Statement, ConfError>
        ensures { Reads any_hold_statement_at self.old self.new result }
    {
        if self.takes(b"min") {
            return Ok(Statement::HoldMin(self.hold_min()?));
        }
        Ok(Statement::Hold(self.hold()?))
    }

    /// What stands behind `nexthop`. The word `bgp` in the place of `default` is left out of the language.
    #[tactic(auto, unfolding(conf_tree::specs::StatementReading::qualify_at, conf_tree::specs::StatementReading::qualify_word_at))]
    pub(crate) fn qualify(&mut self) -> Result<Statement, ConfError>
        ensures { Reads qualify_at self.old self.new result }
    {
        self.keyword(b"qualify")?;
        self.keyword(b"via")?;
        if self.word_is(b"bgp") {
            return Err(self.fault(ConfKind::NotInProfile));
        }
        if !self.takes(b"default") {
            return Err(self.unexpected());
        }
        Ok(Statement::QualifyDefault)
    }

    /// What stands behind `rde`. The error at `rib` is `TooMany ribs` where there is no room for one.
    #[tactic(auto, unfolding(conf_tree::specs::StatementReading::rde_at, conf_tree::specs::Reading::unless_full))]
    pub(crate) fn rde(&mut self, alloc: Global, room: Room) -> Result<Statement, ConfError>
        ensures { Reads (rde_at room) self.old self.new result }
    {
        if self.word_is(b"route-age") {
            return Err(self.fault(ConfKind::NotInProfile));
        }
        if self.takes(b"med") {
            return self.med_compare();
        }
        if !self.word_is(b"rib") {
            return Err(self.unexpected());
        }
        if room.ribs == 0 {
            return Err(too_many(Counted::Ribs, self.line()));
        }
        self.advance();
        self.rib(alloc)
    }

    /// What stands behind `rde med`.
    #[tactic(auto, unfolding(conf_tree::specs::StatementReading::med_compare_at, conf_tree::specs::StatementReading::compare_word_at))]
    fn med_compare(&mut self) -> Result<Statement, ConfError>
        ensures { Reads med_compare_at self.old self.new result }
    {
        self.keyword(b"compare")?;
        if self.takes(b"always") {
            Ok(Statement::MedCompare(true))
        } else if self.takes(b"strict") {
            Ok(Statement::MedCompare(false))
        } else {
            Err(self.unexpected())
        }
    }

    /// What stands behind `rde rib`: a name, and a kernel table where there may be one.
    #[tactic(auto, unfolding(conf_tree::specs::StatementReading::rib_at, conf_tree::specs::StatementReading::optional_table_at))]
    fn rib(&mut self, alloc: Global) -> Result<Statement, ConfError>
        ensures { Reads rib_at self.old self.new result }
    {
        let name = self.name(alloc)?;
        if !self.takes(b"rtable") {
            return Ok(Statement::Rib(name, None));
        }
        Ok(Statement::Rib(name, Some(self.number8(1, 255)?)))
    }

    /// What stands behind `listen`: an address, and a port where there may be one.
    #[tactic(auto, unfolding(conf_tree::specs::StatementReading::listen_at, conf_tree::specs::StatementReading::optional_port_at))]
    pub(crate) fn listen(&mut self) -> Result<Statement, ConfError>
        ensures { Reads listen_at self.old self.new result }
    {
        self.keyword(b"on")?;
        let address = self.address()?;
        if !self.takes(b"port") {
            let port = BGP_PORT;
            return Ok(Statement::Listen(Listen { address, port }));
        }
        let port = self.number16(1, 65535)?;
        Ok(Statement::Listen(Listen { address, port }))
    }
}
