ghost use Rattle.std.specs.Prelude.{◌≡◌, [], ◌∷◌, map, IfOk, IfErr, OnOk, OnErr};
ghost use Rattle.std.specs.List.Sorted.{IsStrictlySortedBy};
ghost use Rattle.std.specs.Map.{keys_of, lookup};
ghost use Rattle.net_base.specs.declared.prefix.Prefix.{Prefix};
ghost use Rattle.net_base.specs.Order.{prefix_cmp};
ghost use Rattle.adj_rib_in.specs.Row.{put, without, IsInOrder};
ghost use Rattle.adj_rib_in.specs.Held.{held_at, is_same, route_at, IsSame, SetsRow};
ghost use Rattle.adj_rib_in.specs.Uses.{kept, refs_of_route, refs_of_routes, Swaps};

use crate::by_prefix::RowsByPrefix;
use crate::by_session::PrefixesBySession;
use crate::row::Entry;
use attr_model::AttrRef;
use net_base::{Items, NoMemory, Prefix};
use std::alloc::Global;
use std::marker::Model;

/// The routes that a session held, by prefix.
pub type DroppedList = Items<(Prefix, AttrRef)>;

/// The routes that sessions hold, which contracts see as the list of the rows by prefix.
#[derive(Drop)]
pub struct AdjRibIn {
    alloc: Global,
    rows: RowsByPrefix,
    prefixes: PrefixesBySession,
}

impl Model for AdjRibIn {
    ghost use Rattle.adj_rib_in.specs.Held.{Held};
    ghost use Rattle.adj_rib_in.specs.Listed.{ListsAll};

    ghost Value = { Held };

    ghost view = { λ table. table.rows };

    ghost invariant = { λ table. ListsAll table.prefixes table.rows };
}

impl AdjRibIn {
    /// A table without routes.
    pub fn new(alloc: Global) -> Result<Self, NoMemory>
        ensures { IfOk result (λ table. table ≡ []) }
    {
        Ok(AdjRibIn {
            alloc,
            rows: RowsByPrefix::new(alloc),
            prefixes: PrefixesBySession::new(alloc),
        })
    }

    /// The routes to a prefix, in order of session.
    pub fn of(&self, prefix: Prefix) -> &[Entry]
        ensures row { result.now ≡ held_at self.now prefix }
        ensures in_order { IsInOrder result.now }
        ensures by_prefix { IsStrictlySortedBy prefix_cmp (keys_of self.now) }
    {
        self.rows.of(prefix)
    }

    /// Holds a route in the place of the one that the session had for the prefix, whose reference comes back. Where
    /// memory is refused, the table is as it was and `attrs` comes back.
    pub fn set(
        &mut self,
        prefix: Prefix,
        session: u32,
        attrs: AttrRef,
    ) -> Result<Option<AttrRef>, AttrRef>
        ensures row { OnOk result (SetsRow self.old self.new prefix (put (record { session = session; attrs = attrs }) (held_at self.old prefix))) }
        ensures old { IfOk result (λ old. old ≡ route_at self.old prefix session) }
        ensures same { OnErr result (IsSame self.old self.new) }
        ensures swaps { IfOk result (λ old. Swaps (kept self.old) (kept self.new) (attrs ∷ []) (refs_of_route old)) }
        ensures stay { OnErr result (Swaps (kept self.old) (kept self.new) [] []) }
        ensures back { IfErr result (λ one. one ≡ attrs) }
    {
        let Ok(()) = self.prefixes.add(session, prefix) else {
            return Err(attrs);
        };
        self.rows.set(prefix, session, attrs)
    }

    /// Takes the route of a session to a prefix away, and hands its reference out.
    pub fn unset(&mut self, prefix: Prefix, session: u32) -> Option<AttrRef>
        ensures row { SetsRow self.old self.new prefix (without session (held_at self.old prefix)) }
        ensures value { result ≡ route_at self.old prefix session }
        ensures swaps { Swaps (kept self.old) (kept self.new) [] (refs_of_route result) }
    {
        let old = self.rows.unset(prefix, session);
        self.prefixes.remove(session, prefix);
        old
    }

    /// Takes all routes of a session away, and hands out each prefix with the reference, by prefix. It costs as much as
    /// the routes of that session. All memory is taken first; where it is refused, the table is as it was.
    pub fn drop_session(&mut self, session: u32) -> Result<DroppedList, NoMemory>
        ensures rows { OnOk result ((prefix : Prefix) → held_at self.new prefix ≡ without session (held_at self.old prefix)) }
        ensures dropped { IfOk result (λ dropped. (prefix : Prefix) → lookup (is_same prefix) dropped ≡ route_at self.old prefix session) }
        ensures by_prefix { IfOk result (λ dropped. IsStrictlySortedBy prefix_cmp (keys_of dropped)) }
        ensures swaps { IfOk result (λ dropped. Swaps (kept self.old) (kept self.new) [] (refs_of_routes dropped)) }
        ensures same { OnErr result (self.new ≡ self.old) }
    {
        let dropped = Vec::with_capacity(self.alloc, self.prefixes.count(session))?;
        let prefixes = self.prefixes.take(session);
        let dropped = self.rows.drop_all(session, prefixes, dropped);
        Ok(Items::from_vec(dropped))
    }
}
