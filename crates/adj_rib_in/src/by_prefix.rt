ghost use Rattle.std.specs.Prelude.{◌≡◌, ◌<◌, ◌≤◌, true, [], ◌∷◌, ◌++◌, length, is_some, is_err, vec_len, vec_capacity, Some, None, IfOk, IfErr, OnOk, OnErr};
ghost use Rattle.net_base.specs.declared.prefix.Prefix.{Prefix};
ghost use Rattle.std.specs.List.Sorted.{IsStrictlySortedBy};
ghost use Rattle.std.specs.Map.{keys_of, lookup};
ghost use Rattle.net_base.specs.Order.{prefix_cmp};
ghost use Rattle.adj_rib_in.specs.Row.{attrs_of, put, without, IsInOrder};
ghost use Rattle.adj_rib_in.specs.Held.{held_at, is_same, route_at, held_but, routes_of, IsSame, SetsRow};
ghost use Rattle.adj_rib_in.specs.Uses.{kept, refs_of_route, refs_of_routes, Swaps};

use crate::row::{Entry, Row};
use attr_model::AttrRef;
use net_base::Prefix;
use std::alloc::Global;
use std::collections::{BTreeMap, BTreeSet};
use std::marker::Model;

/// The routes to each prefix, which contracts see as the list of the rows by prefix.
#[derive(Drop)]
pub(crate) struct RowsByPrefix {
    alloc: Global,
    rows: BTreeMap<Prefix, Row>,
}

impl Model for RowsByPrefix {
    ghost use Rattle.adj_rib_in.specs.Held.{Held};

    ghost Value = { Held };

    ghost view = { λ table. table.rows.entries };
}

impl RowsByPrefix {
    /// No rows, which takes no memory.
    pub(crate) fn new(alloc: Global) -> Self
        ensures { result ≡ [] }
    {
        RowsByPrefix {
            alloc,
            rows: BTreeMap::new(alloc),
        }
    }

    /// The routes to a prefix, in order of session.
    pub(crate) fn of(&self, prefix: Prefix) -> &[Entry]
        ensures row { result.now ≡ held_at self.now prefix }
        ensures in_order { IsInOrder result.now }
        ensures by_prefix { IsStrictlySortedBy prefix_cmp (keys_of self.now) }
    {
        let _ascending = self.rows.len();
        match self.rows.get(&prefix) {
            Some(row) => row.as_slice(),
            None => &[],
        }
    }

    /// Puts a route in the place of the one that the session had for the prefix, whose reference comes back. Where
    /// memory is refused, the rows are as they were and `attrs` comes back.
    pub(crate) fn set(
        &mut self,
        prefix: Prefix,
        session: u32,
        attrs: AttrRef,
    ) -> Result<Option<AttrRef>, AttrRef>
        ensures row { OnOk result (SetsRow self.old self.new prefix (put (record { session = session; attrs = attrs }) (held_at self.old prefix))) }
        ensures old { IfOk result (λ old. old ≡ route_at self.old prefix session) }
        ensures same { OnErr result (IsSame self.old self.new) }
        ensures swaps { IfOk result (λ old. Swaps (kept self.old) (kept self.new) (attrs ∷ []) (refs_of_route old)) }
        ensures stay { OnErr result (Swaps (kept self.old) (kept self.new) [] []) }
        ensures back { IfErr result (λ one. one ≡ attrs) }
    {
        let entry = Entry { session, attrs };
        match self.rows.get_mut(&prefix) {
            Some(row) => row.put(entry),
            None => self.begin(prefix, entry),
        }
    }

    /// Takes the route of a session to a prefix away, and hands its reference out.
    pub(crate) fn unset(&mut self, prefix: Prefix, session: u32) -> Option<AttrRef>
        ensures row { SetsRow self.old self.new prefix (without session (held_at self.old prefix)) }
        ensures value { result ≡ route_at self.old prefix session }
        ensures swaps { Swaps (kept self.old) (kept self.new) [] (refs_of_route result) }
    {
        let row = self.rows.get_mut(&prefix)?;
        let old = row.take(session);
        if row.is_empty() {
            self.rows.remove(&prefix);
        }
        old
    }

    /// Takes the routes of a session to these prefixes out, and puts each behind those that are dropped already.
    pub(crate) fn drop_all(
        &mut self,
        session: u32,
        mut prefixes: BTreeSet<Prefix>,
        mut dropped: Vec<(Prefix, AttrRef)>,
    ) -> Vec<(Prefix, AttrRef)>
        requires none { dropped.items ≡ [] }
        requires room { length prefixes.keys ≤ vec_capacity dropped }
        ensures rows { (prefix : Prefix) → held_at self.new prefix ≡ held_but session prefixes.keys (held_at self.old) prefix }
        ensures dropped { result.items ≡ routes_of session prefixes.keys self.old }
        ensures swaps { Swaps (kept self.old) (kept self.new) [] (refs_of_routes result.items) }
    {
        while let Some(prefix) = prefixes.pop_first() {
            self.drop_one(session, prefix, &mut dropped);
        }
        dropped
    }

    /// Takes the route of a session to one prefix out, if there is one, and puts it behind those that are dropped already.
    fn drop_one(&mut self, session: u32, prefix: Prefix, dropped: &mut Vec<(Prefix, AttrRef)>)
        requires { vec_len dropped.old < vec_capacity dropped.old }
        ensures row { SetsRow self.old self.new prefix (without session (held_at self.old prefix)) }
        ensures dropped { dropped.new.items ≡ dropped.old.items ++ routes_of session (prefix ∷ []) self.old }
        ensures room { vec_capacity dropped.new ≡ vec_capacity dropped.old }
        ensures swaps { Swaps (kept self.old) (kept self.new) [] (refs_of_routes (routes_of session (prefix ∷ []) self.old)) }
    {
        if let Some(attrs) = self.unset(prefix, session) {
            dropped.push_reserved((prefix, attrs));
        }
    }

    /// Puts the first route to a prefix.
    fn begin(&mut self, prefix: Prefix, entry: Entry) -> Result<Option<AttrRef>, AttrRef>
        requires { lookup (is_same prefix) self.old ≡ None }
        ensures row { OnOk result (SetsRow self.old self.new prefix (put entry [])) }
        ensures old { IfOk result (λ old. old ≡ None) }
        ensures same { OnErr result (IsSame self.old self.new) }
        ensures swaps { IfOk result (λ old. Swaps (kept self.old) (kept self.new) (entry.attrs ∷ []) (refs_of_route old)) }
        ensures stay { OnErr result (Swaps (kept self.old) (kept self.new) [] []) }
        ensures back { IfErr result (λ one. one ≡ entry.attrs) }
    {
        let session = entry.session;
        let mut row = Row::new(self.alloc);
        row.put(entry)?;
        match self.rows.insert(prefix, row) {
            Ok(_) => Ok(None),
            Err(failed) => back(failed.value.1, session),
        }
    }
}

/// The route of a row that found no place comes back.
fn back(mut row: Row, session: u32) -> Result<Option<AttrRef>, AttrRef>
    requires { is_some (attrs_of session row) ≡ true }
    ensures err { is_err result ≡ true }
    ensures back { IfErr result (λ one. Some one ≡ attrs_of session row) }
{
    match row.take(session) {
        Some(attrs) => Err(attrs),
        None => Ok(None),
    }
}
