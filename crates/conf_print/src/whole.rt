ghost use Rattle.std.specs.Prelude.{◌≡◌, IfOk};
ghost use Rattle.conf_tree.specs.Canonical.{canonical};

use crate::globals::print_globals;
use crate::groups::print_neighbours;
use crate::printed::Printed;
use crate::rules::print_rules;
use crate::sets::{print_networks, print_ribs, print_sets};
use conf_tree::Conf;
use net_base::{Bytes, NoMemory};
use std::alloc::Global;

/// The canonical text of a configuration: one statement a line, words separated by one blank, and every value printed
/// that has a default (bgpd.conf(5)). The last line ends with LF.
///
/// The text is ASCII but for what stands between quotes, which is printed as it is: it is UTF-8 where the quoted texts
/// of the configuration are. A set or RIB that the configuration names by number and doesn't have is printed as no name.
///
/// Read again, it says this configuration, if any text of a file or of a `reload` does: that is a law of the language.
///
/// The only error is refused memory.
#[tactic(auto, unfolding(conf_tree::specs::Canonical::canonical))]
pub fn print(alloc: Global, conf: &Conf) -> Result<Bytes, NoMemory>
    ensures text { IfOk result (λ text. text ≡ canonical conf.now) }
{
    let mut text = Printed::new(alloc);
    print_globals(&mut text, conf)?;
    print_ribs(&mut text, conf.ribs.as_slice())?;
    print_sets(&mut text, conf)?;
    print_networks(&mut text, conf.networks.as_slice())?;
    print_neighbours(alloc, &mut text, conf)?;
    print_rules(&mut text, conf)?;
    Ok(text.into_bytes())
}
