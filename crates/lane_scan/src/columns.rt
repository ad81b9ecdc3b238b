ghost use Rattle.std.specs.Prelude.{◌≡◌, length, ◌/◌, ◌%◌, ◌≤◌, ◌==◌, ◌||◌, nat_lt, ◌+◌, take, drop};
ghost use Rattle.std.specs.List.{list_any};
ghost use Rattle.lane_scan.specs.Slots.{first_of, whole_of};

use crate::lanes::{LANES, has_front, has_short};
use std::alloc::{AllocError, Global};
use std::marker::Model;

/// How many numbers a half of 128 bits has.
const HALF: u128 = 0x1_0000_0000_0000_0000;

/// The bits and the length of a prefix of some family. The bits are those of an address, moved up so that its first bit
/// is the first of 128: an IPv4 address is moved up by 96 bits.
#[derive(Clone, Copy, Debug, PartialEq, Eq)]
pub struct Slot {
    pub bits: u128,
    pub len: u8,
}

/// Prefixes of one family, kept in columns so that several are looked at together. Contracts see the list of the slots.
#[derive(Debug, Drop)]
pub struct Columns {
    high: Vec<u64>,
    low: Vec<u64>,
    len: Vec<u8>,
    ghost low_too: { length low.items ≡ length high.items },
    ghost len_too: { length len.items ≡ length high.items },
}

impl Model for Columns {
    ghost use Rattle.std.specs.Prelude.{List};
    ghost use Rattle.lane_scan.specs.declared.columns.Slot.{Slot};
    ghost use Rattle.lane_scan.specs.Slots.{slots_of};

    ghost Value = { List Slot };

    ghost view = { λ columns. slots_of columns.high.items columns.low.items columns.len.items };
}

impl Columns {
    ghost use Rattle.std.specs.Prelude.{[], ◌∷◌, ◌++◌, OnOk, OnErr, ◌<◌, Some, slice_get, ◌≤◌, ◌+◌, ℕ, true};
    ghost use Rattle.lane_scan.specs.Covering.{covers_at};

    /// No slots, which takes no memory.
    pub fn new(alloc: Global) -> Self
        ensures { result ≡ [] }
    {
        Columns {
            high: Vec::new(alloc),
            low: Vec::new(alloc),
            len: Vec::new(alloc),
        }
    }

    /// How many slots there are.
    pub fn len(&self) -> usize
        ensures { result ≡ length self.now }
    {
        self.high.len()
    }

    /// The slot at an index.
    pub fn at(&self, index: usize) -> Slot
        requires { index < length self.now }
        ensures { slice_get self.now index ≡ Some result }
    {
        Slot {
            bits: whole(self.high[index], self.low[index]),
            len: self.len[index],
        }
    }

    /// Puts a slot behind the others. Where memory is refused, the columns are as they were.
    pub fn push(&mut self, slot: Slot) -> Result<(), AllocError>
        ensures ok { OnOk result (self.new ≡ self.old ++ slot ∷ []) }
        ensures err { OnErr result (self.new ≡ self.old) }
    {
        self.high.reserve(1)?;
        self.low.reserve(1)?;
        self.len.reserve(1)?;
        self.high.push(high_half(slot.bits))?;
        self.low.push(low_half(slot.bits))?;
        self.len.push(slot.len)?;
        Ok(())
    }

    /// Whether some slot of the group from an index on may cover. Where it answers no, none does.
    pub(crate) fn may_cover(&self, slot: Slot, at: usize) -> bool
        requires { at + LANES ≤ length self.now }
        ensures { (k : ℕ) → at ≤ k → k < at + LANES → covers_at self.now slot k ≡ true → result ≡ true }
    {
        may_have(
            self.high.as_slice(),
            self.len.as_slice(),
            at,
            high_half(slot.bits),
        )
    }
}

impl Slot {
    ghost use Rattle.lane_scan.specs.Slots.{covers_slot};

    /// Whether this prefix isn't longer than the other and has the same first bits.
    #[tactic(auto, unfolding(crate::specs::Slots::covers_slot))]
    pub fn covers(self, other: Slot) -> bool
        ensures { result ≡ covers_slot self other }
    {
        self.len <= other.len && first_bits(self.bits, self.len) == first_bits(other.bits, self.len)
    }
}

/// The first bits, as many as the length says.
fn first_bits(bits: u128, len: u8) -> u128
    ensures { result ≡ first_of len bits }
{
    match len {
        0 => 0,
        1..=127 => bits >> (128 - len),
        _ => bits,
    }
}

/// Whether a slot of the group from an index on begins with the same 16 bits, or has fewer.
fn may_have(highs: &[u64], lens: &[u8], at: usize, high: u64) -> bool
    requires highs { at + LANES ≤ length highs.now }
    requires lens { at + LANES ≤ length lens.now }
    ensures { result ≡ (list_any (λ other. other / 281474976710656 == high / 281474976710656) (take LANES (drop at highs.now)) || list_any (λ len. nat_lt len 16) (take LANES (drop at lens.now))) }
{
    has_front(&highs[at..], high) || has_short(&lens[at..])
}

/// The number of two halves.
fn whole(high: u64, low: u64) -> u128
    ensures { result ≡ whole_of high low }
{
    u128::from(high) * HALF + u128::from(low)
}

/// The first 64 of 128 bits.
pub(crate) fn high_half(bits: u128) -> u64
    ensures { result ≡ bits / 18446744073709551616 }
{
    (bits / HALF) as u64
}

/// The last 64 of 128 bits.
fn low_half(bits: u128) -> u64
    ensures { result ≡ bits % 18446744073709551616 }
{
    (bits % HALF) as u64
}
