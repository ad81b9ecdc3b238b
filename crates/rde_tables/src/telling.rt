//! What sessions are told.

ghost use Rattle.std.specs.Prelude.{◌≡◌, [], map, IfOk};
ghost use Rattle.attr_intern.specs.Table.{CameFrom};
ghost use Rattle.adj_rib_out.specs.Rows.{one_or_none};
ghost use Rattle.adj_rib_out.specs.Looks.{wanted_in, used_by};
ghost use Rattle.rde_tables.specs.Uses.{Keeps, Stays};
ghost use Rattle.rde_tables.specs.Wants.{bare, bare_of, look_of, unnumbered};

use crate::{Told, Want, WantList};
use adj_rib_out::{Built, Look, LookList};
use attr_intern::AttrTable;
use attr_model::{AttrRef, Attrs};
use net_base::{Items, NoMemory};
use std::alloc::Global;

/// What a session is to be told, with a number and a use for each. Where memory is refused, uses may be lost.
pub(crate) fn looks_of(
    alloc: Global,
    table: &mut AttrTable,
    wants: WantList,
) -> Result<LookList, NoMemory>
    ensures like { IfOk result (λ looks. map bare looks ≡ map look_of wants) }
    ensures keeps { IfOk result (λ looks. Keeps table.old table.new [] (wanted_in looks)) }
    ensures stays { Stays table.old table.new [] [] }
{
    let mut looks = Items::new(alloc);
    for want in wants.into_vec() {
        let look = look_of(table, want)?;
        looks.push(look)?;
    }
    Ok(looks)
}

/// The same of one prefix.
fn look_of(table: &mut AttrTable, want: Want) -> Result<Look, NoMemory>
    ensures like { IfOk result (λ look. bare look ≡ look_of want) }
    ensures keeps { IfOk result (λ look. Keeps table.old table.new [] (one_or_none look.wanted)) }
    ensures stays { Stays table.old table.new [] [] }
{
    let Want { prefix, attrs } = want;
    let wanted = numbered_if(table, attrs)?;
    Ok(Look { prefix, wanted })
}

/// A use of these attributes, where there are some.
fn numbered_if(table: &mut AttrTable, attrs: Option<Attrs>) -> Result<Option<AttrRef>, NoMemory>
    ensures like { IfOk result (λ one. bare_of one ≡ unnumbered attrs) }
    ensures keeps { IfOk result (λ one. Keeps table.old table.new [] (one_or_none one)) }
    ensures stays { Stays table.old table.new [] [] }
{
    match attrs {
        None => Ok(None),
        Some(attrs) => Ok(Some(table.intern(attrs)?)),
    }
}

/// The message that was built, whose use goes back.
pub(crate) fn told_of(table: &mut AttrTable, built: Option<Built>) -> Result<Option<Told>, NoMemory>
    requires { CameFrom table.old (used_by built) }
    ensures { Keeps table.old table.new (used_by built) [] }
{
    match built {
        None => Ok(None),
        Some(Built::Withdraw(prefixes)) => Ok(Some(Told::Withdraw(prefixes))),
        Some(Built::Announce(one, prefixes)) => {
            let copy = copy_of(&one);
            table.give_back(one);
            Ok(Some(Told::Announce(copy?, prefixes)))
        }
    }
}

fn copy_of(one: &AttrRef) -> Result<Attrs, NoMemory>
    ensures { IfOk result (λ attrs. attrs ≡ one.now.attrs) }
{
    let attrs: &Attrs = one;
    attrs.clone()
}
