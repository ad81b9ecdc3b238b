use lane_scan::*;
use std::alloc::Global;
use std::test::*;

/// The longest list of the table: more than four groups of 16 and a rest.
const MOST: usize = 70;

/// Some AS numbers, of which the one at a place is 65002 and the others are 65001.
fn numbers(alloc: Global, length: usize, place: usize) -> Result<Vec<u32>, Fail> {
    let mut numbers = Vec::new(alloc);
    for at in 0..length {
        numbers.push(if at == place { 65002 } else { 65001 })?;
    }
    Ok(numbers)
}

/// Bytes ff, but for one bit at a place.
fn ones(alloc: Global, length: usize, place: usize) -> Result<Vec<u8>, Fail> {
    let mut bytes = Vec::new(alloc);
    for at in 0..length {
        bytes.push(if at == place { 0xfe } else { 0xff })?;
    }
    Ok(bytes)
}

fn slot(address: u128, len: u8) -> Slot {
    Slot {
        bits: address << 96 & 0xffff_ffff_0000_0000_0000_0000_0000_0000,
        len,
    }
}

/// 192.0.3.0/24 and at a place 192.0.2.0/24.
fn columns(alloc: Global, length: usize, place: usize) -> Result<Columns, Fail> {
    let mut columns = Columns::new(alloc);
    for at in 0..length {
        columns.push(if at == place {
            slot(0xc000_0200, 24)
        } else {
            slot(0xc000_0300, 24)
        })?;
    }
    Ok(columns)
}

/// Where 192.0.2.1/32 is covered from an index on.
fn covering(columns: &Columns, from: usize) -> Option<usize> {
    if from > columns.len() {
        return None;
    }
    next_covering(columns, slot(0xc000_0201, 32).bits, 32, from)
}

// Lists of each length with the one hit at each place, and with none.
#[test]
fn one_hit_anywhere(rt: HostRuntime) -> Result<(), Fail> {
    for length in 0..=MOST {
        for place in 0..=length {
            let there = place < length;
            let list = numbers(rt.alloc(), length, place)?;
            assert_eq!(rt; has_as(list.as_slice(), 65002), there);
            let bytes = ones(rt.alloc(), length, place)?;
            assert_eq!(rt; all_ones(bytes.as_slice()), !there);
            let columns = columns(rt.alloc(), length, place)?;
            let first = if there { Some(place) } else { None };
            assert_eq!(rt; covering(&columns, 0), first);
            assert_eq!(rt; covering(&columns, place), first);
            assert_eq!(rt; covering(&columns, place.saturating_add(1)), None);
        }
    }
    Ok(())
}

// A slot, a prefix, and whether the one covers the other.
#[test]
fn covering_slots(rt: HostRuntime) -> Result<(), Fail> {
    for (outer, inner, covers) in [
        (slot(0x0a00_0000, 8), slot(0x0a01_0000, 16), true),
        (slot(0x0a00_0000, 8), slot(0x0a00_0000, 8), true),
        (slot(0x0a00_0000, 8), slot(0x0a00_0000, 7), false),
        (slot(0x0a00_0000, 8), slot(0x0b00_0000, 16), false),
        (slot(0, 0), slot(0xffff_ffff, 32), true),
    ] {
        assert_eq!(rt; outer.covers(inner), covers);
    }
    let addresses = Slot { bits: 1, len: 128 };
    assert!(rt; addresses.covers(addresses));
    assert!(rt; !addresses.covers(Slot { bits: 0, len: 128 }));
    Ok(())
}
