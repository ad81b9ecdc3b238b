//! The frames that the decision core takes, but for stages.

use crate::sending::to_session;
use crate::tables::Tables;
use attr_model::Attrs;
use core_msgs::{Frame, SendList};
use net_base::{Addr, Family, NoMemory, Prefix, PrefixList};
use rde_view::{Live, View};
use rib_multi::MOST_RIBS;

/// A session comes up: every known prefix is queued for it. One that can't come up is passed over.
pub(crate) fn up(view: &mut View, tables: &mut Tables, live: Live) -> Result<(), NoMemory> {
    if !view.up(live)? {
        return Ok(());
    }
    tables.routes.begin(live.number)?;
    tables.queue_known(live.number)
}

/// A session goes: the prefixes that it held are marked, and what it held and was told is dropped. One that isn't up is passed over.
pub(crate) fn down(view: &mut View, tables: &mut Tables, session: u32) -> Result<(), NoMemory> {
    if view.down(session).is_none() {
        return Ok(());
    }
    let told = tables.routes.outs().told_to(session)?;
    let held = tables.routes.end(session)?;
    tables.counts.end(session);
    tables.touch_all(view, held.as_slice())?;
    tables.note_all(view, told.as_slice())
}

/// The neighbour of a session asks for the routes of a family again: what it was told of them is queued to be told again.
pub(crate) fn ask_again(
    view: &View,
    tables: &mut Tables,
    session: u32,
    family: Family,
) -> Result<(), NoMemory> {
    if view.numbered(session).is_none() {
        return Ok(());
    }
    let told = tables.routes.outs().told_to(session)?;
    for prefix in told.iter() {
        if prefix.family == family {
            tables.routes.queue(session, *prefix, true)?;
        }
    }
    Ok(())
}

/// Messages of a session are in flight no longer, the oldest first.
pub(crate) fn credit(tables: &mut Tables, session: u32, messages: u32) {
    let most = tables.routes.outs().in_flight(session) as u32;
    tables.routes.credit(session, messages.min(most));
}

/// Routes of a session are withdrawn, and then others announced. Each prefix is marked in every RIB. Close is written where the
/// session then holds more than it may. A session that isn't up is passed over.
pub(crate) fn routes(
    view: &View,
    tables: &mut Tables,
    session: u32,
    withdrawn: &PrefixList,
    announced: Option<(Attrs, PrefixList)>,
    frames: &mut SendList,
) -> Result<(), NoMemory> {
    let Some(live) = view.numbered(session) else {
        return Ok(());
    };
    for prefix in withdrawn.iter() {
        withdraw(view, tables, session, *prefix)?;
    }
    if let Some((attrs, prefixes)) = announced {
        announce(view, tables, session, attrs, &prefixes)?;
    }
    check_limit(view, tables, live, frames)
}

/// Routes of a session are announced with these attributes.
fn announce(
    view: &View,
    tables: &mut Tables,
    session: u32,
    attrs: Attrs,
    prefixes: &PrefixList,
) -> Result<(), NoMemory> {
    let more = tables.routes.announce(session, attrs, prefixes.as_slice())?;
    tables.counts.count_more(session, more)?;
    tables.touch_all(view, prefixes.as_slice())
}

/// A route of a session is withdrawn.
fn withdraw(
    view: &View,
    tables: &mut Tables,
    session: u32,
    prefix: Prefix,
) -> Result<(), NoMemory> {
    if tables.routes.withdraw(session, prefix) {
        tables.counts.count_less(session);
    }
    tables.mark(view, prefix)?;
    tables.note(view, prefix)
}

/// An answer for a next hop: each place where a candidate has it is marked. One that isn't tracked is passed over.
pub(crate) fn next_hop(
    view: &mut View,
    tables: &mut Tables,
    hop: Addr,
    valid: bool,
) -> Result<(), NoMemory> {
    view.answer(hop, valid);
    let Some(places) = tables.hops.of(hop) else {
        return Ok(());
    };
    for place in places.iter() {
        if place.rib < MOST_RIBS {
            tables.routes.mark(place.rib, place.prefix)?;
        }
    }
    Ok(())
}

/// Writes Close for a session that holds more routes than its neighbour may announce, once (RFC 4486 section 3).
pub(crate) fn check_limit(
    view: &View,
    tables: &mut Tables,
    live: Live,
    frames: &mut SendList,
) -> Result<(), NoMemory> {
    let Some(most) = most_of(view, live.peer) else {
        return Ok(());
    };
    let held = tables.counts.of(live.number);
    if held <= most as usize || !tables.counts.close(live.number)? {
        return Ok(());
    }
    to_session(
        frames,
        Frame::Close {
            session: live.number,
            code: 6,
            sub: 1,
            held: held as u64,
            most,
        },
    )
}

/// How many routes a neighbour may announce, where that is limited.
fn most_of(view: &View, peer: Addr) -> Option<u32> {
    view.neighbour(peer)?.max_prefix
}
