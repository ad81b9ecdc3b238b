ghost use Rattle.std.specs.Prelude.{◌≡◌, ◌==◌, ◌≤◌, ◌<◌, ℕ, Bool, true, false, length, find, Option, None, option_copied, IfOk, IfErr, OnOk, OnErr, IfNone, IfSome, IsTrue, []};
ghost use Rattle.std.specs.BTreeMap.{insert_entry, is_at};
ghost use Rattle.std.specs.Map.{remove_entry};
ghost use Rattle.net_base.specs.Order.{addr_cmp};
ghost use Rattle.conf_tree.specs.Empty.{empty_conf};
ghost use Rattle.conf_tree.specs.Readable.{IsReadable, IsWithinLimits};
ghost use Rattle.conf_tree.specs.Settled.{IsSettled};
ghost use Rattle.route_world.specs.World.{neighbour_at, is_valid, is_yes};
ghost use Rattle.route_world.specs.Import.{network_at};
ghost use Rattle.rde_view.specs.View.{live_at, rib_at, world_of};

use crate::Live;
use conf_sets::Sets;
use conf_tree::{Conf, Neighbour, Network};
use filter_engine::{SkipTable, settled_rules_name_sets};
use net_base::{Addr, NoMemory, Prefix};
use std::alloc::{AllocError, Global};
use std::collections::BTreeMap;
use std::marker::Model;

/// The most sessions that are up at once.
const MOST_SESSIONS: usize = 256;

/// What the decision core was told: its configuration with its generation, the sessions that are up, and the next hops that it asked
/// for with their answers. Beside the configuration stands what is built of it, so that its rules are asked quickly, and beside the
/// sessions where each number is.
#[derive(Drop)]
pub struct View {
    alloc: Global,
    pub(crate) conf: Conf,
    generation: u32,
    pub(crate) sets: Sets,
    pub(crate) skips: SkipTable,
    pub(crate) sessions: BTreeMap<Addr, Live>,
    peers: BTreeMap<u32, Addr>,
    answers: BTreeMap<Addr, Option<bool>>,
}

impl Model for View {
    ghost use Rattle.rde_view.specs.View.{ViewState};
    ghost use Rattle.std.specs.Prelude.{◌≤◌, length};
    ghost use Rattle.conf_sets.specs.SameSets.{SameSets};
    ghost use Rattle.filter_engine.specs.Named.{AreNamed};
    ghost use Rattle.filter_engine.specs.Skips.{IsBuilt};

    ghost Value = { ViewState };

    ghost view = { λ v. record {
      conf = v.conf;
      generation = v.generation;
      sessions = v.sessions.entries;
      answers = v.answers.entries;
    } };

    ghost invariant = { λ v. SameSets v.sets v.conf × AreNamed v.conf v.conf.rules × IsBuilt v.skips v.conf.rules × (length v.sessions.entries ≤ 256) };
}

impl View {
    /// The empty configuration of generation 0, without sessions and next hops.
    pub fn new(alloc: Global) -> Result<View, NoMemory>
        ensures { IfOk result (λ view. view ≡ record { conf = empty_conf; generation = 0; sessions = []; answers = [] }) }
    {
        let conf = Conf::empty(alloc);
        let sets = Sets::build(alloc, &conf)?;
        let skips = SkipTable::build(alloc, &conf.rules)?;
        Ok(View {
            alloc,
            conf,
            generation: 0,
            sets,
            skips,
            sessions: BTreeMap::new(alloc),
            peers: BTreeMap::new(alloc),
            answers: BTreeMap::new(alloc),
        })
    }

    /// The configuration.
    pub fn conf(&self) -> &Conf
        ensures { result.now ≡ self.now.conf }
    {
        &self.conf
    }

    /// The generation of the configuration, 0 before the first.
    pub fn generation(&self) -> u32
        ensures { result ≡ self.now.generation }
    {
        self.generation
    }

    /// The sessions that are up, by address, at most 256.
    pub fn sessions(&self) -> &BTreeMap<Addr, Live>
        ensures sessions { result.now.entries ≡ self.now.sessions }
        ensures few { length self.now.sessions ≤ 256 }
    {
        &self.sessions
    }

    /// The session that is up with a neighbour.
    pub fn session(&self, peer: Addr) -> Option<Live>
        ensures { result ≡ live_at self.now peer }
    {
        self.sessions.get(&peer).copied()
    }

    /// The session of a number.
    pub fn numbered(&self, number: u32) -> Option<Live>
        ensures { IfSome result (λ live. live.number ≡ number) }
    {
        let peer = self.peers.get(&number)?;
        let live = self.session(*peer)?;
        if live.number == number {
            Some(live)
        } else {
            None
        }
    }

    /// The neighbour of an address, by the configuration.
    pub fn neighbour(&self, peer: Addr) -> Option<&Neighbour>
        ensures { option_copied result ≡ neighbour_at self.now.conf peer }
    {
        self.conf
            .neighbours
            .iter()
            .find(|neighbour| neighbour.address == peer)
    }

    /// The network of a prefix, by the configuration.
    pub fn network(&self, prefix: Prefix) -> Option<&Network>
        ensures { option_copied result ≡ network_at self.now.conf prefix }
    {
        self.conf
            .networks
            .iter()
            .find(|network| network.prefix == prefix)
    }

    /// How many RIBs there are, Loc-RIB among them, at most 16.
    pub fn ribs(&self) -> u8
        ensures { result ≤ 16 }
    {
        self.conf.ribs.len().min(15) as u8 + 1
    }

    /// The RIB of a neighbour: 0, which is Loc-RIB, where the configuration lacks it.
    pub fn rib_of(&self, peer: Addr) -> u8
        ensures { result ≡ rib_at self.now.conf peer }
    {
        match self.neighbour(peer) {
            Some(neighbour) => neighbour.rib,
            None => 0,
        }
    }

    /// The kernel table of a RIB, if it has one.
    pub fn table_of(&self, rib: u8) -> Option<u32> {
        if rib == 0 {
            return Some(0);
        }
        let rib = self.conf.ribs.get(usize::from(rib) - 1)?;
        Some(u32::from(rib.table?))
    }

    /// Whether an address is valid as a next hop, by the answers so far.
    pub fn is_valid(&self, addr: Addr) -> bool
        ensures { result ≡ is_valid (world_of self.now []) addr }
    {
        let _ascending = self.answers.len();
        match self.answers.get(&addr) {
            Some(answer) => is_yes(*answer),
            None => false,
        }
    }

    /// The next hops that were asked for, by address, each with its answer.
    pub fn answers(&self) -> &BTreeMap<Addr, Option<bool>>
        ensures { result.now.entries ≡ self.now.answers }
    {
        &self.answers
    }
}

impl View {
    /// A configuration holds from now on. Where memory is refused, nothing changes.
    pub fn set_conf(&mut self, generation: u32, conf: Conf) -> Result<(), NoMemory>
        requires settled { IsSettled conf }
        requires readable { IsReadable conf }
        requires within { IsWithinLimits conf }
        ensures ok { OnOk result (self.new ≡ record self.old { conf = conf; generation = generation }) }
        ensures err { OnErr result (self.new ≡ self.old) }
    {
        settled_rules_name_sets();
        let sets = Sets::build(self.alloc, &conf)?;
        let skips = SkipTable::build(self.alloc, &conf.rules)?;
        self.conf = conf;
        self.generation = generation;
        self.sets = sets;
        self.skips = skips;
        Ok(())
    }

    /// A session comes up. The answer is whether it did: it doesn't where its number or its neighbour has a session, or 256 are up.
    /// Where memory is refused, the view is as it was.
    #[tactic(auto, using(net_base::proofs::Order::derived_addr_cmp))]
    pub fn up(&mut self, live: Live) -> Result<bool, NoMemory>
        ensures up { IfOk result (λ up. up ≡ true → self.new.sessions ≡ insert_entry addr_cmp self.old.sessions live.peer live) }
        ensures refused { IfOk result (λ up. up ≡ false → self.new ≡ self.old) }
        ensures full { IfOk result (λ up. up ≡ true → length self.old.sessions < 256) }
        ensures others { self.new ≡ record self.old { sessions = self.new.sessions } }
        ensures err { OnErr result (self.new ≡ self.old) }
    {
        if !self.has_room(live) {
            return Ok(false);
        }
        self.peers.insert(live.number, live.peer)?;
        match self.sessions.insert(live.peer, live) {
            Ok(_) => Ok(true),
            Err(_) => {
                self.peers.remove(&live.number);
                Err(AllocError)
            }
        }
    }

    /// Whether a session can come up.
    fn has_room(&self, live: Live) -> bool
        ensures { IsTrue result → length self.now.sessions < 256 }
    {
        self.sessions.len() < MOST_SESSIONS
            && !self.sessions.contains_key(&live.peer)
            && !self.peers.contains_key(&live.number)
    }

    /// The session of a number goes, and is the answer where it was up.
    pub fn down(&mut self, number: u32) -> Option<Live>
        ensures others { self.new ≡ record self.old { sessions = self.new.sessions } }
    {
        let live = self.numbered(number)?;
        self.peers.remove(&number);
        self.sessions.remove(&live.peer)
    }

    /// A next hop is asked for, and has no answer yet. Where memory is refused, nothing changes.
    #[tactic(auto, using(net_base::proofs::Order::derived_addr_cmp))]
    pub fn track(&mut self, hop: Addr) -> Result<(), NoMemory>
        ensures ok { OnOk result (self.new.answers ≡ insert_entry addr_cmp self.old.answers hop None) }
        ensures others { self.new ≡ record self.old { answers = self.new.answers } }
        ensures err { OnErr result (self.new ≡ self.old) }
    {
        self.answers.insert(hop, None)?;
        Ok(())
    }

    /// A next hop is asked for no longer.
    pub fn untrack(&mut self, hop: Addr)
        ensures gone { self.new.answers ≡ remove_entry (is_at (addr_cmp hop)) self.old.answers }
        ensures others { self.new ≡ record self.old { answers = self.new.answers } }
    {
        self.answers.remove(&hop);
    }

    /// An answer for a next hop, which is passed over where that isn't asked for.
    pub fn answer(&mut self, hop: Addr, valid: bool)
        ensures others { self.new ≡ record self.old { answers = self.new.answers } }
    {
        if let Some(answer) = self.answers.get_mut(&hop) {
            *answer = Some(valid);
        }
    }
}

/// Whether an answer came, and is yes.
fn is_yes(answer: Option<bool>) -> bool
    ensures { result ≡ is_yes answer }
{
    match answer {
        Some(valid) => valid,
        None => false,
    }
}
