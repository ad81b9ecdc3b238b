//! A build: the next message of a session.

ghost use Rattle.std.specs.Prelude.{◌≡◌, map, IfOk};
ghost use Rattle.std.specs.List.{AllByRecursion};
ghost use Rattle.adj_rib_out.specs.Message.{FitsAlone};
ghost use Rattle.rde_tables.specs.Wants.{look_of};
ghost use Rattle.rde_view.specs.View.{facts_of};
ghost use Rattle.rde_core.specs.Units.{HasRoom};

use crate::sending::to_session;
use crate::tables::Tables;
use attr_model::Attrs;
use core_msgs::{Frame, SendList};
use filter_engine::Steps;
use net_base::{Family, Items, NoMemory, PrefixList};
use rde_tables::{Told, WantList};
use rde_view::{Live, View, want};
use std::alloc::Global;
use std::sync::ledger::Ledger;

/// The most queued prefixes that a build looks at.
const LOOKS: usize = 64;

/// Builds the next message of a session, which may be none.
pub(crate) fn build<L: Ledger>(
    alloc: Global,
    view: &View,
    tables: &mut Tables,
    live: Live,
    steps: &mut Steps<L>,
    frames: &mut SendList,
) -> Result<(), NoMemory>
    requires { HasRoom tables.old.routes live }
{
    let rib = view.rib_of(live.peer);
    let ready = tables.ready(alloc, live.number, rib, LOOKS)?;
    let wants = wants(alloc, view, tables, &live, &ready, steps)?;
    let encoding = live.facts(view.conf().asn).encoding;
    let told = tables.routes.build(live.number, encoding, wants)?;
    tell(alloc, view, tables, live.number, told, frames)
}

/// A message that was built goes to the session core. What a withdrawal takes away may be known no longer.
fn tell(
    alloc: Global,
    view: &View,
    tables: &mut Tables,
    session: u32,
    told: Option<Told>,
    frames: &mut SendList,
) -> Result<(), NoMemory> {
    match told {
        None => Ok(()),
        Some(Told::Withdraw(prefixes)) => {
            tables.note_all(view, prefixes.as_slice())?;
            to_session(frames, withdrawal(session, prefixes))
        }
        Some(Told::Announce(attrs, prefixes)) => {
            to_session(frames, announcement(alloc, session, attrs, prefixes))
        }
    }
}

/// The family of prefixes of one family.
fn family_of(prefixes: &PrefixList) -> Family {
    match prefixes.get(0) {
        Some(prefix) => prefix.family,
        None => Family::V4,
    }
}

/// Prefixes are withdrawn from a session.
fn withdrawal(session: u32, prefixes: PrefixList) -> Frame {
    Frame::Routes {
        session,
        family: family_of(&prefixes),
        withdrawn: prefixes,
        announced: None,
    }
}

/// Prefixes are announced to a session with these attributes.
fn announcement(alloc: Global, session: u32, attrs: Attrs, prefixes: PrefixList) -> Frame {
    Frame::Routes {
        session,
        family: family_of(&prefixes),
        withdrawn: Items::new(alloc),
        announced: Some((attrs, prefixes)),
    }
}

/// What a session is to be told of each of these prefixes.
fn wants<L: Ledger>(
    alloc: Global,
    view: &View,
    tables: &Tables,
    live: &Live,
    ready: &PrefixList,
    steps: &mut Steps<L>,
) -> Result<WantList, NoMemory>
    ensures prefixes { IfOk result (λ wants. map (λ want. want.prefix) wants ≡ ready.now) }
    ensures alone { IfOk result (λ wants. AllByRecursion (FitsAlone (facts_of view.now.conf.asn live.now).encoding) (map look_of wants)) }
{
    let rib = view.rib_of(live.peer);
    let mut wants = Items::new(alloc);
    for prefix in ready.iter() {
        let best = tables.routes.ribs().best_of(rib, *prefix);
        let want = want(alloc, view, live, *prefix, best, steps)?;
        wants.push(want)?;
    }
    Ok(wants)
}
