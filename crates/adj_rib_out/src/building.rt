//! The next message of a session, made from looks at its queue.

ghost use Rattle.std.specs.Prelude.{◌≡◌, ℕ, ◌+◌, ◌<◌, ◌≤◌, true, false, [], ◌++◌, if◌then◌else◌, length, fold, find, option_copied, option_map, OnOk, OnErr, IfOk, IfSome};
ghost use Rattle.std.specs.List.{AllByRecursion};
ghost use Rattle.attr_intern.specs.Table.{Table, times, IsOf, CameFrom, Hands};
ghost use Rattle.adj_rib_out.specs.Rows.{one_or_none};
ghost use Rattle.adj_rib_out.specs.Out.{is_queued, kept_of};
ghost use Rattle.adj_rib_out.specs.Uses.{Moves};
ghost use Rattle.adj_rib_out.specs.Message.{has_news, begun, with_prefix, with_look, joined, message_of, built_of, prefixes_of, wanted_of, IsInOrder, FitsAlone};
ghost use Rattle.adj_rib_out.specs.Packed.{message_in};
ghost use Rattle.adj_rib_out.specs.Looks.{wanted_in, used_by};
ghost use Rattle.adj_rib_out.specs.Tells.{Tells, Passes, Takes, Settled, FitsIn};

use crate::give::give_back;
use crate::look::{Built, Look, LookList};
use crate::packing::Packing;
use crate::session::SessionOut;
use attr_intern::AttrTable;
use attr_model::AttrRef;
use bgp_wire::Encoding;
use net_base::NoMemory;
use std::alloc::Global;

/// Builds the next message of a session from looks at queued prefixes, tells it, and puts its length in flight. Where memory is
/// refused, what the session has is as it was. References that aren't kept go back to the table.
pub(crate) fn build(
    out: &mut SessionOut,
    alloc: Global,
    table: &mut AttrTable,
    enc: Encoding,
    looks: LookList,
) -> Result<Option<Built>, NoMemory>
    requires window { length out.old.flight < 16 }
    requires queued { AllByRecursion (λ look. is_queued out.old look.prefix ≡ true) looks }
    requires order { IsInOrder looks }
    requires alone { AllByRecursion (FitsAlone enc) looks }
    requires came { CameFrom table.old (kept_of out.old ++ wanted_in looks) }
    ensures tells { OnOk result (Tells (message_of enc out.old looks) looks out.old out.new) }
    ensures built { IfOk result (λ built. built ≡ option_map built_of (message_of enc out.old looks)) }
    ensures moves { IfOk result (λ built. Moves table.old table.new (kept_of out.old ++ wanted_in looks) (kept_of out.new ++ used_by built)) }
    ensures each { IfOk result (λ built. AllByRecursion (IsOf table.old) (kept_of out.new ++ used_by built)) }
    ensures err { OnErr result (out.new ≡ out.old) }
    ensures back { OnErr result (Moves table.old table.new (kept_of out.old ++ wanted_in looks) (kept_of out.old)) }
{
    match begin(out, alloc, table, enc, looks.as_slice()) {
        Ok(packing) => Ok(finish(out, table, packing, looks)),
        Err(refused) => {
            give_back_all(table, looks);
            Err(refused)
        }
    }
}

/// Whether a look has news.
fn has_news(out: &SessionOut, look: &Look) -> bool
    ensures { result ≡ has_news out.now look.now }
{
    out.has_news(look.prefix, &look.wanted)
}

/// The first look with news.
fn first_news<'a>(out: &SessionOut, looks: &'a [Look]) -> Option<&'a Look>
    ensures { option_copied result ≡ find (has_news out.now) looks.now }
{
    looks.iter().find(|look| has_news(out, look))
}

/// The message that the first look with news fixes, still without prefixes, with a use of its own and room for all looks. None
/// where no look has news. Where memory is refused, the table is as it was.
fn begin(
    out: &SessionOut,
    alloc: Global,
    table: &mut AttrTable,
    enc: Encoding,
    looks: &[Look],
) -> Result<Option<Packing>, NoMemory>
    requires { AllByRecursion (IsOf table.old) (wanted_in looks.now) }
    ensures message { IfOk result (λ packing. message_in packing ≡ option_map (begun enc) (find (has_news out.now) looks.now)) }
    ensures room { IfOk result (λ packing. IfSome packing (λ packed. length looks.now ≤ packed.room)) }
    ensures hands { IfOk result (λ packing. Hands table.old table.new (one_or_none (wanted_of (message_in packing)))) }
    ensures err { OnErr result (table.new ≡ table.old) }
{
    let Some(first) = first_news(out, looks) else {
        return Ok(None);
    };
    let prefixes = Vec::with_capacity(alloc, looks.len())?;
    let wanted = again(table, &first.wanted)?;
    let family = first.prefix.family;
    Ok(Some(Packing::begin(enc, family, wanted, prefixes)))
}

/// One reference more like the one that there is.
fn again(table: &mut AttrTable, one: &Option<AttrRef>) -> Result<Option<AttrRef>, NoMemory>
    requires { AllByRecursion (IsOf table.old) (one_or_none one.now) }
    ensures same { IfOk result (λ other. other ≡ one.now) }
    ensures hands { IfOk result (λ other. Hands table.old table.new (one_or_none other)) }
    ensures err { OnErr result (table.new ≡ table.old) }
{
    match one {
        Some(one) => Ok(Some(table.again(one)?)),
        None => Ok(None),
    }
}

/// Handles the looks, and puts the message that they made in flight.
fn finish(
    out: &mut SessionOut,
    table: &mut AttrTable,
    packing: Option<Packing>,
    looks: LookList,
) -> Option<Built>
    requires window { length out.old.flight < 16 }
    requires queued { AllByRecursion (λ look. is_queued out.old look.prefix ≡ true) looks }
    requires order { IsInOrder looks }
    requires fits { FitsIn (message_in packing) }
    requires none { prefixes_of (message_in packing) ≡ [] }
    requires room { IfSome packing (λ packed. length looks ≤ packed.room) }
    requires came { CameFrom table.old (kept_of out.old ++ wanted_in looks) }
    requires wanted { AllByRecursion (IsOf table.old) (one_or_none (wanted_of (message_in packing))) }
    ensures tells { Tells (fold (with_look out.old) (message_in packing) looks) looks out.old out.new }
    ensures built { result ≡ option_map built_of (fold (with_look out.old) (message_in packing) looks) }
    ensures moves { Moves table.old table.new (kept_of out.old ++ wanted_in looks) (kept_of out.new) }
    ensures less { (number : ℕ) → times number (kept_of out.new) ≤ times number (kept_of out.old ++ wanted_in looks) }
    ensures each { (other : Table) → AllByRecursion (IsOf other) (kept_of out.old ++ wanted_in looks) → AllByRecursion (IsOf other) (kept_of out.new) }
{
    match settle(out, table, packing, looks) {
        Some(packing) => {
            out.send(packing.size());
            Some(packing.into_built())
        }
        None => None,
    }
}

/// Handles the looks one after the other, gives back the references that aren't kept, and answers the message with the prefixes
/// that joined.
fn settle(
    out: &mut SessionOut,
    table: &mut AttrTable,
    packing: Option<Packing>,
    looks: LookList,
) -> Option<Packing>
    requires queued { AllByRecursion (λ look. is_queued out.old look.prefix ≡ true) looks }
    requires order { IsInOrder looks }
    requires fits { FitsIn (message_in packing) }
    requires none { prefixes_of (message_in packing) ≡ [] }
    requires room { IfSome packing (λ packed. length looks ≤ packed.room) }
    requires came { CameFrom table.old (kept_of out.old ++ wanted_in looks) }
    requires wanted { AllByRecursion (IsOf table.old) (one_or_none (wanted_of (message_in packing))) }
    ensures settles { Settled looks out.old out.new (message_in packing) (message_in result) }
    ensures moves { Moves table.old table.new (kept_of out.old ++ wanted_in looks) (kept_of out.new) }
    ensures less { (number : ℕ) → times number (kept_of out.new) ≤ times number (kept_of out.old ++ wanted_in looks) }
    ensures each { (other : Table) → AllByRecursion (IsOf other) (kept_of out.old ++ wanted_in looks) → AllByRecursion (IsOf other) (kept_of out.new) }
{
    let mut packing = packing;
    for look in looks.into_vec() {
        let back = settle_look(out, &mut packing, look);
        give_back(table, back);
    }
    packing
}

/// Handles one look: it joins the message and is told, or it is as told and leaves the queue, or it stays. The reference that isn't
/// kept comes back.
fn settle_look(out: &mut SessionOut, packing: &mut Option<Packing>, look: Look) -> Option<AttrRef>
    requires queued { is_queued out.old look.prefix ≡ true }
    requires room { IfSome packing.old (λ packed. 0 < packed.room) }
    ensures message { message_in packing.new ≡ with_look out.old (message_in packing.old) look }
    ensures room { (left : ℕ) → IfSome packing.old (λ packed. left + 1 ≤ packed.room) → IfSome packing.new (λ packed. left ≤ packed.room) }
    ensures as_told { has_news out.old look ≡ false → Passes look.prefix out.old out.new }
    ensures stays { has_news out.old look ≡ true → joined (message_in packing.old) look ≡ false → out.new ≡ out.old }
    ensures told { has_news out.old look ≡ true → joined (message_in packing.old) look ≡ true → Takes look.prefix look.wanted out.old out.new }
    ensures uses { (number : ℕ) → times number (kept_of out.new) + times number (one_or_none result)
        ≡ times number (kept_of out.old) + times number (one_or_none look.wanted) }
    ensures each { (table : Table) → AllByRecursion (IsOf table) (kept_of out.old) → AllByRecursion (IsOf table) (one_or_none look.wanted)
        → AllByRecursion (IsOf table) (kept_of out.new) }
    ensures gone { (table : Table) → AllByRecursion (IsOf table) (kept_of out.old) → AllByRecursion (IsOf table) (one_or_none look.wanted)
        → AllByRecursion (IsOf table) (one_or_none result) }
{
    if has_news(out, &look) {
        if takes(packing, &look) {
            out.tell(look.prefix, look.wanted)
        } else {
            look.wanted
        }
    } else {
        out.pass(look.prefix);
        look.wanted
    }
}

/// Adds the prefix of a look to the message that there is, where it joins. The answer is whether it does.
fn takes(packing: &mut Option<Packing>, look: &Look) -> bool
    requires { IfSome packing.old (λ packed. 0 < packed.room) }
    ensures value { result ≡ joined (message_in packing.old) look.now }
    ensures message { message_in packing.new ≡ (if result then option_map (with_prefix look.now.prefix) (message_in packing.old) else message_in packing.old) }
    ensures room { (left : ℕ) → IfSome packing.old (λ packed. left + 1 ≤ packed.room) → IfSome packing.new (λ packed. left ≤ packed.room) }
{
    match packing {
        Some(packing) => packing.take(look),
        None => false,
    }
}

/// Gives back the references of all looks.
pub(crate) fn give_back_all(table: &mut AttrTable, looks: LookList)
    requires { CameFrom table.old (wanted_in looks) }
    ensures { Moves table.old table.new (wanted_in looks) [] }
{
    for look in looks.into_vec() {
        give_back(table, look.wanted);
    }
}
