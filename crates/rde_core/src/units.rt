//! Which unit of work comes next.

ghost use Rattle.std.specs.Prelude.{◌<◌, IfSome, IsTrue};
ghost use Rattle.rde_tables.specs.Routes.{AllRoutes};
ghost use Rattle.rde_core.specs.Units.{CanBeDone, HasRoom};

use crate::tables::Tables;
use net_base::Addr;
use rde_view::{Live, View};
use std::ops::Bound;

/// The most messages of a session that are built and not credited.
const WINDOW: usize = 16;

/// A unit of work.
#[derive(Clone, Copy, Debug, PartialEq, Eq)]
pub(crate) enum Unit {
    /// The least marked prefix of this RIB, the lowest with a mark, is gone over again.
    Refresh(u8),
    /// A message is built for this session.
    Build(Live),
}

/// What the last units were.
#[derive(Clone, Copy, Debug, PartialEq, Eq)]
pub(crate) struct LastUnits {
    /// Whether the last unit was a build.
    pub(crate) was_build: bool,
    /// The neighbour of the last build.
    pub(crate) build: Option<Addr>,
}

/// The next unit: a refresh where a prefix is marked and the last unit was a build, or no build is possible; otherwise a build.
pub(crate) fn next_unit(view: &View, tables: &Tables, last: LastUnits) -> Option<Unit>
    ensures { IfSome result (CanBeDone tables.now.routes) }
{
    let build = next_build(view, tables, last.build);
    match tables.marked() {
        Some(rib) => Some(refresh_or(rib, build, last.was_build)),
        None => build_of(build),
    }
}

/// A refresh of a RIB, or a build where one is possible and the last unit was none.
fn refresh_or(rib: u8, build: Option<Live>, was_build: bool) -> Unit
    ensures { (routes : AllRoutes) → rib < 16 →
        IfSome build (HasRoom routes) → CanBeDone routes result }
{
    match build {
        Some(live) if !was_build => Unit::Build(live),
        _ => Unit::Refresh(rib),
    }
}

/// A build as a unit.
fn build_of(build: Option<Live>) -> Option<Unit>
    ensures { (routes : AllRoutes) →
        IfSome build (HasRoom routes) → IfSome result (CanBeDone routes) }
{
    match build {
        Some(live) => Some(Unit::Build(live)),
        None => None,
    }
}

/// The session with the next neighbour behind the last build for which a build is possible, round the list.
fn next_build(view: &View, tables: &Tables, last: Option<Addr>) -> Option<Live>
    ensures { IfSome result (HasRoom tables.now.routes) }
{
    let above = match last {
        Some(last) => first_above(view, tables, last),
        None => None,
    };
    match above {
        Some(live) => Some(live),
        None => first_of_all(view, tables),
    }
}

/// The session with the first neighbour above an address for which a build is possible.
fn first_above(view: &View, tables: &Tables, last: Addr) -> Option<Live>
    ensures { IfSome result (HasRoom tables.now.routes) }
{
    let above = (Bound::Excluded(last), Bound::Unbounded);
    for (_, live) in view.sessions().range(above) {
        if can_build(view, tables, live) {
            return Some(*live);
        }
    }
    None
}

/// The session with the first neighbour for which a build is possible.
fn first_of_all(view: &View, tables: &Tables) -> Option<Live>
    ensures { IfSome result (HasRoom tables.now.routes) }
{
    for (_, live) in view.sessions().iter() {
        if can_build(view, tables, live) {
            return Some(*live);
        }
    }
    None
}

/// Whether fewer than 16 messages of a session are in flight, and a prefix is queued for it that isn't marked in its RIB.
fn can_build(view: &View, tables: &Tables, live: &Live) -> bool
    ensures { IsTrue result → HasRoom tables.now.routes live.now }
{
    tables.routes.outs().in_flight(live.number) < WINDOW
        && tables.has_ready(live.number, view.rib_of(live.peer))
}
