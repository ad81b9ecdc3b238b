ghost use Rattle.std.specs.Prelude.{◌≡◌, ◌++◌, OnOk};
ghost use Rattle.conf_tree.specs.Canonical.{yes_no, quoted, prefix_set_name, as_set_name, origin_set_name, rib_name};

use crate::printed::Printed;
use conf_tree::Conf;
use net_base::NoMemory;

pub fn yes_no(flag: bool) -> &'static str
    ensures { result.now ≡ yes_no flag }
{
    if flag { "yes" } else { "no" }
}

/// A text between quotes.
pub fn print_quoted(text: &mut Printed, inner: &[u8]) -> Result<(), NoMemory>
    ensures { OnOk result (text.new ≡ text.old ++ quoted inner.now) }
{
    text.push(b"\"")?;
    text.push(inner)?;
    text.push(b"\"")
}

/// The name of the prefix-set at a place of the list.
#[tactic(auto, unfolding(conf_tree::specs::Canonical::prefix_set_name))]
pub fn print_prefix_set_name(text: &mut Printed, conf: &Conf, at: u32) -> Result<(), NoMemory>
    ensures { OnOk result (text.new ≡ text.old ++ prefix_set_name conf.now at) }
{
    match conf.prefix_sets.get(at as usize) {
        Some(set) => text.push(set.name.as_slice()),
        None => Ok(()),
    }
}

/// The name of the as-set at a place of the list.
#[tactic(auto, unfolding(conf_tree::specs::Canonical::as_set_name))]
pub fn print_as_set_name(text: &mut Printed, conf: &Conf, at: u32) -> Result<(), NoMemory>
    ensures { OnOk result (text.new ≡ text.old ++ as_set_name conf.now at) }
{
    match conf.as_sets.get(at as usize) {
        Some(set) => text.push(set.name.as_slice()),
        None => Ok(()),
    }
}

/// The name of the origin-set at a place of the list.
#[tactic(auto, unfolding(conf_tree::specs::Canonical::origin_set_name))]
pub fn print_origin_set_name(text: &mut Printed, conf: &Conf, at: u32) -> Result<(), NoMemory>
    ensures { OnOk result (text.new ≡ text.old ++ origin_set_name conf.now at) }
{
    match conf.origin_sets.get(at as usize) {
        Some(set) => text.push(set.name.as_slice()),
        None => Ok(()),
    }
}

/// The name of a RIB: number 0 is Loc-RIB.
#[tactic(auto, unfolding(conf_tree::specs::Canonical::rib_name))]
pub fn print_rib_name(text: &mut Printed, conf: &Conf, number: u8) -> Result<(), NoMemory>
    ensures { OnOk result (text.new ≡ text.old ++ rib_name conf.now number) }
{
    if number == 0 {
        return text.push(b"Loc-RIB");
    }
    match conf.ribs.get(usize::from(number) - 1) {
        Some(rib) => text.push(rib.name.as_slice()),
        None => Ok(()),
    }
}
