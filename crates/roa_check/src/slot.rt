ghost use Rattle.std.specs.Prelude.{◌≡◌};
ghost use Rattle.net_base.specs.Order.{same_family};
ghost use Rattle.roa_check.specs.Table.{slot_of};

use lane_scan::Slot;
use net_base::{Family, Prefix};

/// The slot of a prefix: its bits moved up so that the first is the first of 128, and its length.
pub fn slot_of(prefix: Prefix) -> Slot
    ensures { result ≡ slot_of prefix }
{
    let bits = match prefix.family {
        Family::V4 => prefix.bits * 0x1_0000_0000_0000_0000_0000_0000,
        Family::V6 => prefix.bits,
    };
    Slot {
        bits,
        len: prefix.len,
    }
}

/// Whether the two families are one.
pub fn same_family(one: Family, other: Family) -> bool
    ensures { result ≡ same_family one other }
{
    match (one, other) {
        (Family::V4, Family::V4) | (Family::V6, Family::V6) => true,
        _ => false,
    }
}
