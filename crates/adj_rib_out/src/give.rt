//! References that go back to their table.

ghost use Rattle.std.specs.Prelude.{[]};
ghost use Rattle.std.specs.List.{AllByRecursion};
ghost use Rattle.attr_intern.specs.Table.{IsOf};
ghost use Rattle.adj_rib_out.specs.Rows.{one_or_none};
ghost use Rattle.adj_rib_out.specs.Uses.{Moves};

use attr_intern::AttrTable;
use attr_model::AttrRef;

/// Gives the reference back that there is.
pub(crate) fn give_back(table: &mut AttrTable, one: Option<AttrRef>)
    requires { AllByRecursion (IsOf table.old) (one_or_none one) }
    ensures { Moves table.old table.new (one_or_none one) [] }
{
    if let Some(one) = one {
        table.give_back(one);
    }
}
