//! What sessions hold changes.

ghost use Rattle.std.specs.Prelude.{◌≡◌, [], ◌∷◌};
ghost use Rattle.attr_intern.specs.Table.{CameFrom};
ghost use Rattle.adj_rib_in.specs.Uses.{kept};
ghost use Rattle.rde_tables.specs.Uses.{Keeps};

use crate::giving::give;
use adj_rib_in::AdjRibIn;
use attr_intern::AttrTable;
use attr_model::AttrRef;
use net_base::{NoMemory, Prefix};
use std::alloc::AllocError;

/// A session holds a route to each of these prefixes from now on, with the attributes that the reference has. The answer is to how
/// many of them it held none.
pub(crate) fn hold_all(
    table: &mut AttrTable,
    held: &mut AdjRibIn,
    session: u32,
    one: &AttrRef,
    prefixes: &[Prefix],
) -> Result<usize, NoMemory>
    requires { CameFrom table.old (one.now ∷ kept held.old) }
    ensures { Keeps table.old table.new (one.now ∷ kept held.old) (one.now ∷ kept held.new) }
{
    let mut more = 0usize;
    for prefix in prefixes {
        let is_new = hold(table, held, session, one, *prefix)?;
        more = more.saturating_add(usize::from(is_new));
    }
    Ok(more)
}

/// A session holds a route to a prefix from now on, with the attributes that the reference has. The answer is whether it held none.
fn hold(
    table: &mut AttrTable,
    held: &mut AdjRibIn,
    session: u32,
    one: &AttrRef,
    prefix: Prefix,
) -> Result<bool, NoMemory>
    requires { CameFrom table.old (one.now ∷ kept held.old) }
    ensures { Keeps table.old table.new (one.now ∷ kept held.old) (one.now ∷ kept held.new) }
{
    let attrs = table.again(one)?;
    match held.set(prefix, session, attrs) {
        Ok(old) => {
            let is_new = old.is_none();
            give(table, old);
            Ok(is_new)
        }
        Err(attrs) => {
            table.give_back(attrs);
            Err(AllocError)
        }
    }
}
