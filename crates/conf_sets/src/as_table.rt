ghost use Rattle.std.specs.Prelude.{◌≡◌, ◌==◌, IfOk};
ghost use Rattle.std.specs.List.{list_any};
ghost use Rattle.conf_sets.specs.Tables.{HaveSameNumbers, Rises};

use conf_tree::AsNumberList;
use lane_scan::has_as;
use net_base::{Items, NoMemory};
use std::alloc::Global;
use std::marker::Model;

/// Up to so many numbers are searched by lanes.
const SHORT: usize = 64;

/// The numbers of an as-set, ready to be asked. Contracts see the list that the table was built of. Beside it stand the same
/// numbers in order.
#[derive(Debug, Drop)]
pub(crate) struct AsTable {
    numbers: AsNumberList,
    order: Vec<u32>,
    ghost same: { HaveSameNumbers order.items numbers },
    ghost rising: { Rises order.items },
}

impl Model for AsTable {
    ghost use Rattle.std.specs.Prelude.{ℕ, List};

    ghost Value = { List ℕ };

    ghost view = { λ table. table.numbers };
}

impl AsTable {
    /// The table of these numbers. It needs memory.
    pub(crate) fn build(alloc: Global, list: &[u32]) -> Result<AsTable, NoMemory>
        ensures { IfOk result (λ table. table ≡ list.now) }
    {
        Ok(AsTable {
            numbers: Items::from_slice(alloc, list)?,
            order: in_order(alloc, list)?,
        })
    }

    /// Whether a number stands in the list: by lanes in a short list, and by halves in a long one.
    pub(crate) fn has(&self, asn: u32) -> bool
        ensures { result ≡ list_any (λ number. number == asn) self.now }
    {
        if self.order.len() <= SHORT {
            has_as(self.order.as_slice(), asn)
        } else {
            is_found(self.order.as_slice(), asn)
        }
    }
}

/// The numbers in order.
fn in_order(alloc: Global, list: &[u32]) -> Result<Vec<u32>, NoMemory>
    ensures same { IfOk result (λ numbers. HaveSameNumbers numbers.items list.now) }
    ensures rising { IfOk result (λ numbers. Rises numbers.items) }
{
    let mut numbers = Vec::from_slice(alloc, list)?;
    numbers.sort_unstable();
    Ok(numbers)
}

/// Whether a number stands in a list in order.
fn is_found(numbers: &[u32], asn: u32) -> bool
    requires { Rises numbers.now }
    ensures { result ≡ list_any (λ number. number == asn) numbers.now }
{
    numbers.binary_search(&asn).is_ok()
}
