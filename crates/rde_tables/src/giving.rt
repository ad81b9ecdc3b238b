//! References that go back to the table of attributes.

ghost use Rattle.std.specs.Prelude.{◌≡◌, [], ◌∷◌};
ghost use Rattle.attr_intern.specs.Table.{CameFrom};
ghost use Rattle.adj_rib_in.specs.Uses.{refs_of_route, refs_of_routes};
ghost use Rattle.rib_multi.specs.Uses.{refs_of_one, refs_of_change};
ghost use Rattle.rde_tables.specs.Uses.{Keeps};

use adj_rib_in::DroppedList;
use attr_intern::AttrTable;
use attr_model::AttrRef;
use decision::Candidate;
use rib_multi::Change;

/// Gives a use back, where there is one.
pub(crate) fn give(table: &mut AttrTable, one: Option<AttrRef>)
    requires { CameFrom table.old (refs_of_route one) }
    ensures { Keeps table.old table.new (refs_of_route one) [] }
{
    if let Some(one) = one {
        table.give_back(one);
    }
}

/// Gives the uses of routes back.
pub(crate) fn give_routes(table: &mut AttrTable, routes: DroppedList)
    requires { CameFrom table.old (refs_of_routes routes) }
    ensures { Keeps table.old table.new (refs_of_routes routes) [] }
{
    for route in routes.into_vec() {
        let (_, one) = route;
        table.give_back(one);
    }
}

/// Gives the uses of a change back.
pub(crate) fn give_change(table: &mut AttrTable, change: Change)
    requires { CameFrom table.old (refs_of_change change) }
    ensures { Keeps table.old table.new (refs_of_change change) [] }
{
    let Change { old, new } = change;
    give_best(table, old);
    give_best(table, new);
}

/// Gives the use of a best route back, where there is one.
fn give_best(table: &mut AttrTable, best: Option<Candidate>)
    requires { CameFrom table.old (refs_of_one best) }
    ensures { Keeps table.old table.new (refs_of_one best) [] }
{
    if let Some(best) = best {
        table.give_back(best.attrs);
    }
}
