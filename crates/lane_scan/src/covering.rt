ghost use Rattle.std.specs.Prelude.{◌≡◌, ◌≤◌, length};
ghost use Rattle.lane_scan.specs.Covering.{IsFirstCovering, IsNextCovering};

use crate::lanes::LANES;
use crate::{Columns, Slot};

/// The first index from `from` on whose slot covers the prefix of these bits and this length: it isn't longer and has the
/// same first bits. It takes no memory.
pub fn next_covering(columns: &Columns, bits: u128, len: u8, from: usize) -> Option<usize>
    requires within { from ≤ length columns.now }
    requires length { len ≤ 128 }
    ensures { IsNextCovering columns.now (record { bits = bits; len = len }) from result }
{
    let slot = Slot { bits, len };
    let mut at = from;
    while columns.len() - at >= LANES {
        if columns.may_cover(slot, at) {
            let hit = first_between(columns, slot, at, at + LANES);
            if hit.is_some() {
                return hit;
            }
        }
        at += LANES;
    }
    first_between(columns, slot, at, columns.len())
}

/// The first index in a range whose slot covers.
fn first_between(columns: &Columns, slot: Slot, from: usize, to: usize) -> Option<usize>
    requires order { from ≤ to }
    requires within { to ≤ length columns.now }
    ensures { IsFirstCovering columns.now slot from to result }
{
    for at in from..to {
        if columns.at(at).covers(slot) {
            return Some(at);
        }
    }
    None
}
