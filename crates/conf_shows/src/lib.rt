//! What a configuration shows: rows of its sets, its kernel tables, and the names of its RIBs.
#![tactic(auto)]

ghost use Rattle.std.specs.Prelude.{◌≡◌, ◌++◌, ◌∷◌, [], cond, OnOk};
ghost use Rattle.core_msgs.specs.declared.answer.Line.TheVariants as reported;
ghost use Rattle.core_msgs.specs.declared.row.Row.TheVariants as rows;
ghost use Rattle.conf_shows.specs.Shown.{all_couple_frames, as_set_rows, couple_frame, has_rib, has_table, is_among_names, is_among_tables, is_number, origin_set_rows, prefix_set_rows, roa_rows, set_rows, shown_count};

use conf_tree::{AsSetConfList, Conf, OriginSetConfList, PrefixSetConfList, Rib, SetKind, Text};
use core_msgs::{Core, Frame, Line, LineList, Row, SendList};
use net_base::{NoMemory, RoaList};

/// Whether a configuration has a kernel table of this number. The empty configuration has none.
pub fn has_table(conf: &Conf, number: u32) -> bool
    ensures { result ≡ has_table conf.now number }
{
    if conf.asn == 0 {
        return false;
    }
    number == 0 || is_among_tables(conf.ribs.as_slice(), number)
}

fn is_among_tables(ribs: &[Rib], number: u32) -> bool
    ensures { result ≡ is_among_tables ribs.now number }
{
    ribs.iter().any(|rib| is_table(rib.table, number))
}

fn is_table(table: Option<u8>, number: u32) -> bool
    ensures { result ≡ is_number number table }
{
    match table {
        Some(table) => u32::from(table) == number,
        None => false,
    }
}

/// Whether a configuration has a RIB of this name.
pub fn has_rib(conf: &Conf, name: &Text) -> bool
    ensures { result ≡ has_rib conf.now name.now }
{
    let name = name.as_slice();
    name == b"Loc-RIB".as_slice() || is_among_names(conf.ribs.as_slice(), name)
}

fn is_among_names(ribs: &[Rib], name: &[u8]) -> bool
    ensures { result ≡ is_among_names ribs.now name.now }
{
    ribs.iter().any(|rib| rib.name.as_slice() == name)
}

/// Writes a frame for each kernel table of the configuration, by number.
#[tactic(auto, unfolding(crate::specs::Shown::all_couple_frames))]
pub fn couple_all(conf: &Conf, on: bool, frames: &mut SendList) -> Result<(), NoMemory>
    ensures { OnOk result (frames.new ≡ frames.old ++ all_couple_frames conf.now on) }
{
    for table in 0..256 {
        couple_where(has_table(conf, table), table, on, frames)?;
    }
    Ok(())
}

fn couple_where(wanted: bool, table: u32, on: bool, frames: &mut SendList) -> Result<(), NoMemory>
    ensures { OnOk result (frames.new ≡ frames.old ++ cond wanted (couple_frame on table ∷ []) []) }
{
    if !wanted {
        return Ok(());
    }
    push_couple(table, on, frames)
}

/// Writes the frame that couples a kernel table, or decouples it.
pub fn push_couple(table: u32, on: bool, frames: &mut SendList) -> Result<(), NoMemory>
    ensures { OnOk result (frames.new ≡ frames.old ++ couple_frame on table ∷ []) }
{
    frames.push((Core::Parent, Frame::Couple { table, on }))
}

/// A row for each set of the configuration, and one for its ROAs if there are some.
pub fn show_sets(conf: &Conf, lines: &mut LineList) -> Result<(), NoMemory>
    ensures { OnOk result (lines.new ≡ lines.old ++ set_rows conf.now) }
{
    show_prefix_sets(&conf.prefix_sets, lines)?;
    show_as_sets(&conf.as_sets, lines)?;
    show_origin_sets(&conf.origin_sets, lines)?;
    show_roas(&conf.roas, lines)
}

fn show_prefix_sets(sets: &PrefixSetConfList, lines: &mut LineList) -> Result<(), NoMemory>
    ensures { OnOk result (lines.new ≡ lines.old ++ prefix_set_rows sets.now) }
{
    for set in sets {
        push_set(SetKind::Prefix, &set.name, set.entries.len(), lines)?;
    }
    Ok(())
}

fn show_as_sets(sets: &AsSetConfList, lines: &mut LineList) -> Result<(), NoMemory>
    ensures { OnOk result (lines.new ≡ lines.old ++ as_set_rows sets.now) }
{
    for set in sets {
        push_set(SetKind::As, &set.name, set.numbers.len(), lines)?;
    }
    Ok(())
}

fn show_origin_sets(sets: &OriginSetConfList, lines: &mut LineList) -> Result<(), NoMemory>
    ensures { OnOk result (lines.new ≡ lines.old ++ origin_set_rows sets.now) }
{
    for set in sets {
        push_set(SetKind::Origin, &set.name, set.entries.len(), lines)?;
    }
    Ok(())
}

fn show_roas(roas: &RoaList, lines: &mut LineList) -> Result<(), NoMemory>
    ensures { OnOk result (lines.new ≡ lines.old ++ roa_rows roas.now) }
{
    if roas.is_empty() {
        return Ok(());
    }
    lines.push(Line::Row(Row::RoaSet(shown_count(roas.len()))))
}

fn push_set(kind: SetKind, name: &Text, count: usize, lines: &mut LineList) -> Result<(), NoMemory>
    ensures { OnOk result (lines.new ≡ lines.old ++ reported.Row (rows.Set kind name.now (shown_count count)) ∷ []) }
{
    let row = Row::Set {
        kind,
        name: name.clone()?,
        count: shown_count(count),
    };
    lines.push(Line::Row(row))
}

/// A count as a number of a row, which stays at its last value.
fn shown_count(count: usize) -> u32
    ensures { result ≡ shown_count count }
{
    count.min(u32::MAX as usize) as u32
}
