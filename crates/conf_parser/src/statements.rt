//! Statements by their first word, and the whole text of them.

ghost use Rattle.std.specs.Prelude.{◌≡◌, MatchOption, length};
ghost use Rattle.conf_tree.specs.Reading.{behind, fails, line_of, word_in};
ghost use Rattle.conf_tree.specs.Gives.{Gives};
ghost use Rattle.conf_tree.specs.StatementReading.{Room, all_room, left_out_statements, network_at, statement_at, statement_line_at, statements_at};
ghost use Rattle.conf_parser.specs.Reads.{Reads};
ghost use Rattle.conf_parser.specs.Words.{no_statement_at, statement_behind, statement_by};

use crate::cursor::Cursor;
use crate::room::{all_room, room_behind};
use conf_tree::{Action, Room, SetPlace, Statement, StatementLine, StatementList, Token};
use net_base::{ConfError, ConfKind, Counted, Items};
use std::alloc::Global;

/// The words that begin a statement.
#[derive(Clone, Copy)]
pub(crate) enum StatementWord {
    As,
    RouterId,
    Holdtime,
    FibUpdate,
    Nexthop,
    Rde,
    Socket,
    Listen,
    PrefixSet,
    AsSet,
    OriginSet,
    RoaSet,
    Network,
    Neighbor,
    Group,
    Allow,
    Deny,
    Match,
}

/// The statements of a whole text.
#[tactic(auto, using(crate::proofs::StatementLoop::closes, crate::proofs::StatementLoop::goes_on, crate::proofs::StatementLoop::ends, crate::proofs::StatementLoop::is_done))]
pub(crate) fn statements_of(alloc: Global, tokens: &[Token]) -> Result<StatementList, ConfError>
    ensures { Gives (λ statements. statements) result (statements_at all_room (length tokens.now) tokens.now) }
{
    let mut statements = Items::new(alloc);
    let mut room = all_room();
    let mut rest = Cursor::new(tokens);
    for _ in 0..tokens.len() {
        rest.skip_empty_lines();
        if rest.is_empty() {
            return Ok(statements);
        }
        let line = rest.statement_line(alloc, room)?;
        room = room_behind(room, &line.statement);
        statements.push(line)?;
    }
    Ok(statements)
}

impl<'a> Cursor<'a> {
    /// A statement with its line, up to the end of its line.
    #[tactic(auto, unfolding(conf_tree::specs::StatementReading::statement_line_at))]
    fn statement_line(&mut self, alloc: Global, room: Room) -> Result<StatementLine, ConfError>
        ensures { Reads (statement_line_at room) self.old self.new result }
    {
        let line = self.line();
        let statement = self.statement(alloc, room)?;
        self.line_end()?;
        Ok(StatementLine { line, statement })
    }

    /// One statement. The error at its word is `TooMany` where there is no room for it.
    fn statement(&mut self, alloc: Global, room: Room) -> Result<Statement, ConfError>
        ensures { Reads (statement_at room) self.old self.new result }
    {
        let Some(word) = self.statement_word() else {
            if self.is_left_out_statement() {
                return Err(self.fault(ConfKind::NotInProfile));
            }
            return Err(self.unexpected());
        };
        if let Some(counted) = self.lacking(room, word) {
            return Err(self.fault(ConfKind::TooMany(counted)));
        }
        let line = self.line();
        self.advance();
        self.statement_behind(alloc, room, line, word)
    }

    /// Whether the next token is a word of bgpd.conf(5) that begins no statement here.
    #[tactic(auto, unfolding(conf_tree::specs::Reading::word_in))]
    fn is_left_out_statement(&self) -> bool
        ensures { result ≡ word_in left_out_statements self.now }
    {
        self.word_in(&[
            b"include",
            b"dump",
            b"log",
            b"transparent-as",
            b"vpn",
            b"flowspec",
            b"rtr",
            b"aspa-set",
        ])
    }

    /// The word of a statement that stands here.
    #[tactic(auto, unfolding(conf_tree::specs::StatementReading::statement_at, conf_tree::specs::StatementReading::engine_word_at, conf_tree::specs::StatementReading::set_word_at, conf_tree::specs::StatementReading::peer_word_at, conf_tree::specs::StatementReading::rule_word_at))]
    fn statement_word(&self) -> Option<StatementWord>
        ensures { (room : Room) → MatchOption result (statement_at room self.now ≡ no_statement_at self.now) (λ w. statement_at room self.now ≡ statement_by room w self.now) }
    {
        if self.word_is(b"AS") {
            Some(StatementWord::As)
        } else if self.word_is(b"router-id") {
            Some(StatementWord::RouterId)
        } else if self.word_is(b"holdtime") {
            Some(StatementWord::Holdtime)
        } else if self.word_is(b"fib-update") {
            Some(StatementWord::FibUpdate)
        } else if self.word_is(b"nexthop") {
            Some(StatementWord::Nexthop)
        } else if self.word_is(b"rde") {
            Some(StatementWord::Rde)
        } else if self.word_is(b"socket") {
            Some(StatementWord::Socket)
        } else if self.word_is(b"listen") {
            Some(StatementWord::Listen)
        } else if self.word_is(b"prefix-set") {
            Some(StatementWord::PrefixSet)
        } else if self.word_is(b"as-set") {
            Some(StatementWord::AsSet)
        } else if self.word_is(b"origin-set") {
            Some(StatementWord::OriginSet)
        } else if self.word_is(b"roa-set") {
            Some(StatementWord::RoaSet)
        } else if self.word_is(b"network") {
            Some(StatementWord::Network)
        } else if self.word_is(b"neighbor") {
            Some(StatementWord::Neighbor)
        } else if self.word_is(b"group") {
            Some(StatementWord::Group)
        } else if self.word_is(b"allow") {
            Some(StatementWord::Allow)
        } else if self.word_is(b"deny") {
            Some(StatementWord::Deny)
        } else if self.word_is(b"match") {
            Some(StatementWord::Match)
        } else {
            None
        }
    }

    /// What there is no room for, if the statement of this word, which stands here, counts as one more of it.
    #[tactic(auto, unfolding(conf_tree::specs::StatementReading::neighbour_statement_at, conf_tree::specs::NeighbourReading::neighbour_at, conf_tree::specs::StatementReading::rule_statement_at, conf_tree::specs::Reading::unless_full))]
    fn lacking(&self, room: Room, word: StatementWord) -> Option<Counted>
        ensures { MatchOption result (statement_by room word self.now ≡ statement_behind room (line_of self.now) word (behind self.now)) (λ counted. statement_by room word self.now ≡ fails (ConfKind.TooMany counted) self.now) }
    {
        match word {
            StatementWord::Listen if room.listens == 0 => Some(Counted::Listens),
            StatementWord::Network if room.networks == 0 => Some(Counted::Networks),
            StatementWord::Neighbor if room.neighbours == 0 => Some(Counted::Neighbours),
            StatementWord::Group if room.groups == 0 => Some(Counted::Groups),
            StatementWord::Allow if room.rules == 0 => Some(Counted::Rules),
            StatementWord::Deny if room.rules == 0 => Some(Counted::Rules),
            StatementWord::Match if room.rules == 0 => Some(Counted::Rules),
            _ => None,
        }
    }

    /// What stands behind the word of a statement, which stands on this line.
    #[tactic(auto, unfolding(conf_tree::specs::StatementReading::as_statement_at, conf_tree::specs::StatementReading::router_id_at, conf_tree::specs::StatementReading::fib_update_at, conf_tree::specs::StatementReading::socket_at, conf_tree::specs::StatementReading::group_statement_at))]
    fn statement_behind(
        &mut self,
        alloc: Global,
        room: Room,
        line: u32,
        word: StatementWord,
    ) -> Result<Statement, ConfError>
        ensures { Reads (statement_behind room line word) self.old self.new result }
    {
        match word {
            StatementWord::As => Ok(Statement::As(self.as_number(1)?)),
            StatementWord::RouterId => Ok(Statement::RouterId(self.v4()?)),
            StatementWord::Holdtime => self.hold_statement(),
            StatementWord::FibUpdate => Ok(Statement::FibUpdate(self.yes_no()?)),
            StatementWord::Nexthop => self.qualify(),
            StatementWord::Rde => self.rde(alloc, room),
            StatementWord::Socket => Ok(Statement::Socket(self.quoted_text(alloc)?)),
            StatementWord::Listen => self.listen(),
            StatementWord::PrefixSet => self.prefix_set(alloc, room),
            StatementWord::AsSet => self.as_set(alloc, room),
            StatementWord::OriginSet => self.origin_set(alloc, room),
            StatementWord::RoaSet => self.roa_set(alloc, room),
            StatementWord::Network => self.network(alloc),
            StatementWord::Neighbor => Ok(Statement::Neighbour(self.neighbour(alloc, line)?)),
            StatementWord::Group => Ok(Statement::Group(self.group(alloc, room.neighbours)?)),
            StatementWord::Allow => {
                Ok(Statement::Rule(self.rule(alloc, room.rules, Action::Allow)?))
            }
            StatementWord::Deny => {
                Ok(Statement::Rule(self.rule(alloc, room.rules, Action::Deny)?))
            }
            StatementWord::Match => {
                Ok(Statement::Rule(self.rule(alloc, room.rules, Action::Match)?))
            }
        }
    }

    /// What stands behind `network`: a prefix, and a set where there may be one.
    #[tactic(auto, unfolding(conf_tree::specs::StatementReading::network_at, conf_tree::specs::StatementReading::network_body_at, conf_tree::specs::Reading::word_in))]
    fn network(&mut self, alloc: Global) -> Result<Statement, ConfError>
        ensures { Reads network_at self.old self.new result }
    {
        if self.word_in(&[b"inet", b"inet6", b"prefix-set"]) {
            return Err(self.fault(ConfKind::NotInProfile));
        }
        let prefix = self.prefix()?;
        let set = self.optional_set(alloc, SetPlace::Network)?;
        Ok(Statement::Network(prefix, set))
    }
}
