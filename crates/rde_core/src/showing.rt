//! Rows of the tables that the decision core has.

ghost use Rattle.std.specs.Prelude.{◌≡◌, true, IfOk};
ghost use Rattle.std.specs.List.{list_all};
ghost use Rattle.core_msgs.specs.declared.row.Table.TheVariants as Table;
ghost use Rattle.rde_core.specs.Rows.{is_row_of, KeepsKind};

use crate::tables::Tables;
use adj_rib_in::Entry;
use attr_model::{AttrRef, Attrs, Flag, RouteRow};
use core_msgs::{Row, RowList, Table};
use net_base::{Addr, Items, NoMemory, Prefix};
use rde_view::View;
use std::alloc::Global;

/// The rows of a table, in their order.
pub(crate) fn rows(
    alloc: Global,
    view: &View,
    tables: &Tables,
    what: Table,
) -> Result<RowList, NoMemory>
    ensures kind { IfOk result (λ rows. list_all (is_row_of what) rows ≡ true) }
{
    match what {
        Table::Rib(rib) => rib_rows(alloc, tables, rib),
        Table::Held => held_rows(alloc, view, tables),
        Table::Told => told_rows(alloc, view, tables),
        Table::Nexthops => hop_rows(alloc, view),
        Table::Distinct => distinct_row(alloc, tables),
    }
}

/// The candidates of a RIB, by prefix, the network first and then by address.
#[tactic(auto, using(crate::proofs::Rows::row_behind))]
fn rib_rows(alloc: Global, tables: &Tables, rib: u8) -> Result<RowList, NoMemory>
    ensures { IfOk result (λ rows. list_all (is_row_of (Table.Rib rib)) rows ≡ true) }
{
    let mut rows = Items::new(alloc);
    for route in tables.routes.ribs().rows(rib)?.into_vec() {
        rows.push(Row::Route(route))?;
    }
    Ok(rows)
}

/// What sessions hold, by prefix and then by address.
fn held_rows(alloc: Global, view: &View, tables: &Tables) -> Result<RowList, NoMemory>
    ensures { IfOk result (λ rows. list_all (is_row_of Table.Held) rows ≡ true) }
{
    let mut rows = Items::new(alloc);
    for prefix in tables.known.in_order().iter() {
        push_held(view, tables.routes.held().of(*prefix), *prefix, &mut rows)?;
    }
    Ok(rows)
}

/// The routes to a prefix that sessions hold.
#[tactic(auto, using(crate::proofs::Rows::row_behind))]
fn push_held(
    view: &View,
    entries: &[Entry],
    prefix: Prefix,
    rows: &mut RowList,
) -> Result<(), NoMemory>
    ensures { KeepsKind Table.Held rows.old rows.new }
{
    if entries.is_empty() {
        return Ok(());
    }
    for (peer, live) in view.sessions().iter() {
        if let Some(one) = held_by(entries, live.number) {
            rows.push(Row::Route(route_of(prefix, *peer, one)?))?;
        }
    }
    Ok(())
}

/// The route of a session among those to one prefix.
fn held_by(entries: &[Entry], number: u32) -> Option<&AttrRef> {
    for entry in entries {
        if entry.session == number {
            return Some(&entry.attrs);
        }
    }
    None
}

/// What sessions were told, by prefix and then by address.
fn told_rows(alloc: Global, view: &View, tables: &Tables) -> Result<RowList, NoMemory>
    ensures { IfOk result (λ rows. list_all (is_row_of Table.Told) rows ≡ true) }
{
    let mut rows = Items::new(alloc);
    for prefix in tables.known.in_order().iter() {
        push_told(view, tables, *prefix, &mut rows)?;
    }
    Ok(rows)
}

/// What sessions were told of a prefix.
#[tactic(auto, using(crate::proofs::Rows::row_behind))]
fn push_told(
    view: &View,
    tables: &Tables,
    prefix: Prefix,
    rows: &mut RowList,
) -> Result<(), NoMemory>
    ensures { KeepsKind Table.Told rows.old rows.new }
{
    for (peer, live) in view.sessions().iter() {
        if let Some(one) = tables.routes.outs().told(live.number, prefix) {
            rows.push(Row::Told(route_of(prefix, *peer, one)?))?;
        }
    }
    Ok(())
}

/// A route as it is held or told, with the neighbour.
fn route_of(prefix: Prefix, peer: Addr, one: &AttrRef) -> Result<RouteRow, NoMemory> {
    let attrs: &Attrs = one;
    Ok(RouteRow {
        flag: Flag::Held,
        prefix,
        who: Some(peer),
        attrs: attrs.clone()?,
    })
}

/// The next hops that are tracked, by address. One without an answer isn't valid.
#[tactic(auto, using(crate::proofs::Rows::row_behind))]
fn hop_rows(alloc: Global, view: &View) -> Result<RowList, NoMemory>
    ensures { IfOk result (λ rows. list_all (is_row_of Table.Nexthops) rows ≡ true) }
{
    let mut rows = Items::new(alloc);
    for (hop, answer) in view.answers().iter() {
        rows.push(Row::Nexthop(*hop, *answer == Some(true)))?;
    }
    Ok(rows)
}

/// How many different attributes are held, kept and told.
fn distinct_row(alloc: Global, tables: &Tables) -> Result<RowList, NoMemory>
    ensures { IfOk result (λ rows. list_all (is_row_of Table.Distinct) rows ≡ true) }
{
    let mut rows = Items::new(alloc);
    rows.push(Row::Distinct(tables.routes.table().distinct() as u64))?;
    Ok(rows)
}
