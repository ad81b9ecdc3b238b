ghost use Rattle.std.specs.Prelude.{◌≡◌, ◌&&◌, ◌||◌, [], List, Bool, true, false, not, map, filter, filter_map, IfOk, OnOk, OnErr, nat_lt, if◌then◌else◌};
ghost use Rattle.std.specs.BTreeSet.{insert_key};
ghost use Rattle.std.specs.BTreeMap.{is_at};
ghost use Rattle.std.specs.Set.{remove_key};
ghost use Rattle.std.specs.Ordering.{eq_by_cmp};
ghost use Rattle.net_base.specs.declared.prefix.Prefix.{Prefix};
ghost use Rattle.net_base.specs.declared.addr.Addr.{Addr};
ghost use Rattle.net_base.specs.Order.{addr_cmp, prefix_cmp};
ghost use Rattle.net_base.specs.Prefix.{covers};
ghost use Rattle.net_base.specs.PrefixSet.{is_in};
ghost use Rattle.nexthop_track.specs.Answers.{differ};
ghost use Rattle.nexthop_track.specs.Hops.{host_of, is_valid_by, is_tracked_in, with_route};

use crate::below::{is_reached, last_addr};
use net_base::{Addr, Items, NoMemory, Prefix, PrefixSet};
use std::alloc::Global;
use std::collections::BTreeSet;
use std::marker::Model;
use std::ops::Bound;

/// The new answer for an address.
#[derive(Clone, Copy, Debug, PartialEq, Eq)]
pub struct HopChange {
    pub addr: Addr,
    /// Whether the address is valid as a next hop.
    pub valid: bool,
}

/// Answers that changed, by address.
pub type ChangeList = Items<HopChange>;

/// The kernel routes that are up, and the addresses that are asked for.
///
/// An address is valid as a next hop where a kernel route covers it that is longer than /0, or any, where default
/// routes qualify.
#[derive(Drop)]
pub struct NextHops {
    routes: PrefixSet,
    qualify_default: bool,
    tracked: BTreeSet<Addr>,
}

impl Model for NextHops {
    ghost use Rattle.nexthop_track.specs.Hops.{Hops};

    ghost Value = { Hops };

    ghost view = { λ s. record { routes = s.routes; qualify_default = s.qualify_default; tracked = s.tracked.keys } };
}

impl NextHops {
    ghost use Rattle.nexthop_track.specs.Hops.{is_valid};
    ghost use Rattle.nexthop_track.specs.Changes.{answer_of, answers_below, answers_changed};

    /// No route is up, no address is tracked, and default routes don't qualify. It takes no memory.
    pub fn new(alloc: Global) -> Self
        ensures { result ≡ record { routes = []; qualify_default = false; tracked = [] } }
    {
        NextHops {
            routes: PrefixSet::new(alloc),
            qualify_default: false,
            tracked: BTreeSet::new(alloc),
        }
    }

    /// Tracks an address, and answers whether it is valid. One that is tracked already stays so, once. Where memory is
    /// refused, nothing changes.
    #[tactic(auto, unfolding(crate::specs::Hops::is_valid))]
    pub fn track(&mut self, addr: Addr) -> Result<bool, NoMemory>
        ensures ok { OnOk result (self.new ≡ record self.old { tracked = insert_key addr_cmp self.old.tracked addr }) }
        ensures answer { IfOk result (λ valid. valid ≡ is_valid self.old addr) }
        ensures err { OnErr result (self.new ≡ self.old) }
    {
        self.tracked.insert(addr)?;
        Ok(self.is_valid(addr))
    }

    /// Tracks an address no longer, however often it was tracked.
    pub fn untrack(&mut self, addr: Addr)
        ensures state { self.new ≡ record self.old { tracked = remove_key (is_at (addr_cmp addr)) self.old.tracked } }
        ensures tracked { (a : Addr) → is_tracked_in self.new.tracked a
            ≡ (not (eq_by_cmp addr_cmp a addr) && is_tracked_in self.old.tracked a) }
    {
        self.tracked.remove(&addr);
    }

    /// Whether the address is valid, tracked or not.
    #[tactic(auto, unfolding(crate::specs::Hops::is_valid))]
    pub fn is_valid(&self, addr: Addr) -> bool
        ensures { result ≡ is_valid self.now addr }
    {
        is_reached(&self.routes, self.qualify_default, addr, None)
    }

    /// The tracked addresses with their answers, by address.
    pub fn answers(&self, alloc: Global) -> Result<ChangeList, NoMemory>
        ensures { IfOk result (λ answers. answers ≡ map (answer_of self.now) self.now.tracked) }
    {
        let mut answers = Items::new(alloc);
        for addr in self.tracked.iter() {
            answers.push(HopChange {
                addr: *addr,
                valid: self.is_valid(*addr),
            })?;
        }
        Ok(answers)
    }

    /// A kernel route comes up or goes down; the answers are those that changed by it. Only addresses that the route covers
    /// are looked at. Where memory is refused, nothing changes.
    pub fn kernel_route(
        &mut self,
        alloc: Global,
        prefix: Prefix,
        up: bool,
    ) -> Result<ChangeList, NoMemory>
        ensures ok { OnOk result (self.new ≡ record self.old { routes = with_route up self.old.routes prefix }) }
        ensures routes { OnOk result ((q : Prefix) → is_in self.new.routes q
            ≡ (if eq_by_cmp prefix_cmp q prefix then up else is_in self.old.routes q)) }
        ensures changes { IfOk result (λ changes. changes ≡ answers_changed self.old self.new) }
        ensures err { OnErr result (self.new ≡ self.old) }
    {
        let changes = self.changes_by(alloc, prefix, up)?;
        self.set_route(prefix, up)?;
        Ok(changes)
    }

    /// Puts the route among those that are up, or takes it away.
    fn set_route(&mut self, prefix: Prefix, up: bool) -> Result<(), NoMemory>
        ensures ok { OnOk result (self.new ≡ record self.old { routes = with_route up self.old.routes prefix }) }
        ensures routes { OnOk result ((q : Prefix) → is_in self.new.routes q
            ≡ (if eq_by_cmp prefix_cmp q prefix then up else is_in self.old.routes q)) }
        ensures err { OnErr result (self.new ≡ self.old) }
    {
        if up {
            return self.routes.add(prefix);
        }
        self.routes.remove(prefix);
        Ok(())
    }

    /// The answers that change where the route comes up or goes down.
    fn changes_by(&self, alloc: Global, prefix: Prefix, up: bool) -> Result<ChangeList, NoMemory>
        ensures { IfOk result (λ changes. (routes : List Prefix) → ((q : Prefix) → is_in routes q
            ≡ (if eq_by_cmp prefix_cmp q prefix then up else is_in self.now.routes q))
            → changes ≡ answers_changed self.now (record self.now { routes = routes })) }
    {
        if self.qualifies(prefix) {
            if differ(self.routes.has(prefix), up) {
                self.changes_below(alloc, prefix, up)
            } else {
                Ok(Items::new(alloc))
            }
        } else {
            Ok(Items::new(alloc))
        }
    }

    /// Whether a route for the prefix makes the addresses valid that it covers.
    fn qualifies(&self, prefix: Prefix) -> bool
        ensures { result ≡ (self.now.qualify_default || nat_lt 0 prefix.len) }
    {
        self.qualify_default || prefix.len > 0
    }

    /// This answer for each tracked address that the route covers and no other route makes valid.
    fn changes_below(
        &self,
        alloc: Global,
        prefix: Prefix,
        valid: bool,
    ) -> Result<ChangeList, NoMemory>
        ensures { IfOk result (λ changes. changes ≡ answers_below self.now prefix valid) }
    {
        let below = (
            Bound::Included(prefix.addr()),
            Bound::Included(last_addr(prefix)),
        );
        let mut changes = Items::new(alloc);
        for addr in self.tracked.range(below) {
            if !is_reached(&self.routes, self.qualify_default, *addr, Some(prefix)) {
                changes.push(HopChange { addr: *addr, valid })?;
            }
        }
        Ok(changes)
    }

    /// Lets default routes qualify, or no longer; the answers are those that changed by it. Where memory is refused, nothing
    /// changes.
    pub fn qualify_default(&mut self, alloc: Global, on: bool) -> Result<ChangeList, NoMemory>
        ensures ok { OnOk result (self.new ≡ record self.old { qualify_default = on }) }
        ensures changes { IfOk result (λ changes. changes ≡ answers_changed self.old self.new) }
        ensures err { OnErr result (self.new ≡ self.old) }
    {
        let changes = self.changes_to(alloc, on)?;
        self.qualify_default = on;
        Ok(changes)
    }

    /// The answers that change where default routes qualify, or no longer.
    #[tactic(auto, unfolding(crate::specs::Changes::answers_changed))]
    fn changes_to(&self, alloc: Global, on: bool) -> Result<ChangeList, NoMemory>
        ensures { IfOk result (λ changes. changes ≡ answers_changed self.now (record self.now { qualify_default = on })) }
    {
        let mut changes = Items::new(alloc);
        for addr in self.tracked.iter() {
            let valid = is_reached(&self.routes, on, *addr, None);
            if differ(self.is_valid(*addr), valid) {
                changes.push(HopChange { addr: *addr, valid })?;
            }
        }
        Ok(changes)
    }
}

/// Whether two answers differ.
fn differ(one: bool, other: bool) -> bool
    ensures { result ≡ differ one other }
{
    if one { !other } else { other }
}
