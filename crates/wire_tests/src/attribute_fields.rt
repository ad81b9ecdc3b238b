ghost use Rattle.std.specs.Prelude.{◌≡◌, IfOk};
ghost use Rattle.attr_model.specs.Valid.{IsValid};
ghost use Rattle.attr_codec.specs.Written.{HaveShortValues};

use attr_codec::*;
use attr_model::{Attrs, Path, Segment};
use bgp_wire::Encoding;
use net_base::{Addr, Bytes, Family, Items, Prefix};
use std::alloc::Global;
use std::test::*;
use wire_buf::Pipe;

const EXTERNAL: Encoding = Encoding {
    v4: true,
    v6: true,
    as4: true,
    refresh: true,
    external: true,
};

const TWO_OCTETS: Encoding = Encoding {
    v4: true,
    v6: false,
    as4: false,
    refresh: true,
    external: true,
};

fn read(alloc: Global, enc: Encoding, bytes: &[u8]) -> Result<ReadAttrs, Fail> {
    Ok(read_attrs(alloc, enc, bytes).ok().ok_or("no NOTIFICATION")?)
}

fn attrs(alloc: Global, enc: Encoding, bytes: &[u8]) -> Result<Attrs, Fail> {
    Ok(read(alloc, enc, bytes)?.attrs.ok_or("ORIGIN and AS_PATH")?)
}

// ORIGIN, AS_PATH 65002, NEXT_HOP 10.0.0.2.
const FIRST: [u8; 20] = [
    0x40, 1, 1, 0, 0x40, 2, 6, 2, 1, 0, 0, 0xfd, 0xea, 0x40, 3, 4, 10, 0, 0, 2,
];

#[test]
fn a_first_route(rt: HostRuntime) -> Result<(), Fail> {
    let said = read(rt.alloc(), EXTERNAL, &FIRST)?;
    assert!(rt; !said.withdraw);
    let hop = Addr {
        family: Family::V4,
        bits: 0x0a00_0002,
    };
    assert!(rt; said.next_hop == Some(hop));
    let attrs = said.attrs.ok_or("ORIGIN and AS_PATH")?;
    assert_eq!(rt; attrs.origin, 0);
    assert_eq!(rt; attrs.path.length(), 1);
    assert_eq!(rt; attrs.path.origin_as(65001), Some(65002));
    assert!(rt; attrs.hop == hop);
    Ok(())
}

// A second ORIGIN is dropped, whatever it says.
#[test]
fn a_copy(rt: HostRuntime) -> Result<(), Fail> {
    let bytes = [
        0x40, 1, 1, 0, 0x40, 1, 1, 2, 0x40, 2, 6, 2, 1, 0, 0, 0xfd, 0xea, 0x40, 3, 4, 10, 0, 0, 2,
    ];
    let said = read(rt.alloc(), EXTERNAL, &bytes)?;
    assert!(rt; !said.withdraw);
    assert_eq!(rt; said.attrs.ok_or("attributes")?.origin, 0);
    Ok(())
}

// A sequence without numbers makes AS_PATH malformed.
#[test]
fn an_empty_sequence(rt: HostRuntime) -> Result<(), Fail> {
    let said = read(rt.alloc(), EXTERNAL, &[0x40, 1, 1, 0, 0x40, 2, 2, 2, 0])?;
    assert!(rt; said.withdraw);
    assert!(rt; said.attrs.is_none());
    Ok(())
}

// RFC 6793 section 4.2.3: 65001 and 4200000000 from a speaker of two-octet numbers.
#[test]
fn a_path_of_four_octets(rt: HostRuntime) -> Result<(), Fail> {
    let bytes = [
        0x40, 1, 1, 0, 0x40, 2, 6, 2, 2, 0xfd, 0xe9, 0x5b, 0xa0, 0x40, 3, 4, 10, 0, 0, 1, 0xc0, 17,
        10, 2, 2, 0, 0, 0xfd, 0xe9, 0xfa, 0x56, 0xea, 0x00,
    ];
    let attrs = attrs(rt.alloc(), TWO_OCTETS, &bytes)?;
    assert_eq!(rt; attrs.path.length(), 2);
    assert_eq!(rt; attrs.path.origin_as(1), Some(4_200_000_000));
    Ok(())
}

// The surplus of AS_PATH stays a segment of its own.
#[test]
fn a_surplus_in_front(rt: HostRuntime) -> Result<(), Fail> {
    let bytes = [
        0x40, 1, 1, 0, 0x40, 2, 8, 2, 3, 0, 1, 0x5b, 0xa0, 0x5b, 0xa0, 0xc0, 17, 10, 2, 2, 0, 1, 0,
        2, 0, 3, 0, 4,
    ];
    let attrs = attrs(rt.alloc(), TWO_OCTETS, &bytes)?;
    assert_eq!(rt; attrs.path.as_slice().len(), 2);
    assert_eq!(rt; attrs.path.length(), 3);
    for segment in attrs.path.as_slice() {
        assert!(rt; matches!(segment, Segment::Sequence(_)));
    }
    Ok(())
}

// An unknown transitive attribute is kept, and communities are put in order.
#[test]
fn what_is_kept(rt: HostRuntime) -> Result<(), Fail> {
    let bytes = [
        0x40, 1, 1, 0, 0x40, 2, 0, 0xe0, 99, 1, 7, 0xc0, 9, 1, 1, 0x80, 10, 0, 0xe0, 8, 12, 0, 0,
        0, 2, 0, 0, 0, 1, 0, 0, 0, 2,
    ];
    let attrs = attrs(rt.alloc(), EXTERNAL, &bytes)?;
    assert_eq!(rt; attrs.communities.as_slice(), [1, 2].as_slice());
    assert_eq!(rt; attrs.partial, 2);
    let mut kinds = attrs.unknown.as_slice().iter().map(|(kind, _)| *kind);
    assert_eq!(rt; kinds.next(), Some(9));
    assert_eq!(rt; kinds.next(), Some(99));
    assert_eq!(rt; kinds.next(), None);
    Ok(())
}

// RFC 2545 section 3: 2001:db8::/32 by one global and one link-local hop.
#[test]
fn a_prefix_of_ipv6(rt: HostRuntime) -> Result<(), Fail> {
    let bytes = [
        0x80, 14, 42, 0, 2, 1, 32, 0x20, 1, 0xd, 0xb8, 0, 0, 0, 0, 0, 0, 0, 0, 0, 0, 0, 1, 0xfe,
        0x80, 0, 0, 0, 0, 0, 0, 0, 0, 0, 0, 0, 0, 0, 1, 0, 32, 0x20, 1, 0xd, 0xb8,
    ];
    let said = read(rt.alloc(), EXTERNAL, &bytes)?;
    let (family, hop, prefixes) = said.reach.ok_or("a reach")?;
    assert!(rt; family == Family::V6);
    assert_eq!(rt; hop.bits, 0x2001_0db8_0000_0000_0000_0000_0000_0001);
    assert_eq!(rt; prefixes.len(), 1);
    Ok(())
}

#[test]
fn notifications(rt: HostRuntime) {
    for (bytes, sub) in [
        // A value that passes the end, and an unknown attribute that isn't optional.
        ([0x40, 1, 9, 0, 0, 0, 0], 1),
        ([0x40, 99, 4, 0, 0, 0, 0], 2),
        // A withdrawn prefix of 33 bits.
        ([0x80, 15, 4, 0, 1, 1, 33], 10),
        // An unknown attribute comes before a header that passes the end.
        ([0x40, 99, 1, 0, 0x40, 1, 9], 2),
    ] {
        assert!(rt;
            matches!(read_attrs(rt.alloc(), EXTERNAL, &bytes), Err(UpdateFault::Notify(it)) if it == sub)
        );
    }
}

// ORIGIN IGP, an empty path, 10.0.0.1 and an unknown attribute of type 200.
fn route_with_unknown(alloc: Global) -> Result<Attrs, Fail>
    ensures valid { IfOk result (λ attrs. IsValid attrs) }
    ensures short { IfOk result (λ attrs. HaveShortValues EXTERNAL attrs) }
{
    let mut unknown = Items::new(alloc);
    unknown.push((200, Bytes::from_slice(alloc, &[1])?))?;
    Ok(Attrs {
        origin: 0,
        path: Path::new(alloc),
        hop: Addr {
            family: Family::V4,
            bits: 0x0a00_0001,
        },
        med: None,
        local_pref: None,
        atomic: false,
        aggregator: None,
        communities: Items::new(alloc),
        large: Items::new(alloc),
        unknown,
        partial: 0,
        weight: 0,
    })
}

// It is sent on with the partial bit.
#[test]
fn an_unknown_attribute_is_sent_on(rt: HostRuntime) -> Result<(), Fail> {
    let attrs = route_with_unknown(rt.alloc())?;
    let mut out = Pipe::new(rt.alloc());
    write_attrs(EXTERNAL, &attrs, &mut out)?;
    let wanted = [
        0x40, 1, 1, 0, 0x40, 2, 0, 0x40, 3, 4, 10, 0, 0, 1, 0xe0, 200, 1, 1,
    ];
    assert_eq!(rt; out.peek(), wanted.as_slice());
    assert_eq!(rt; attrs_size(EXTERNAL, &attrs), 18);
    Ok(())
}

// A frame carries them without NEXT_HOP. The same with the flags of a type that is known is no frame's.
#[test]
fn a_frame(rt: HostRuntime) -> Result<(), Fail> {
    let attrs = route_with_unknown(rt.alloc())?;
    assert_eq!(rt; frame_attrs_size(&attrs), 11);
    let mut out = Pipe::new(rt.alloc());
    write_frame_attrs(&attrs, &mut out)?;
    let wanted = [0x40, 1, 1, 0, 0x40, 2, 0, 0xe0, 200, 1, 1];
    assert_eq!(rt; out.peek(), wanted.as_slice());
    assert!(rt; read_frame_attrs(rt.alloc(), attrs.hop, 0, out.peek())? == Some(attrs));
    let other = [0x40, 1, 1, 0, 0x40, 2, 0, 0xc0, 200, 1, 1];
    let hop = Addr::unspecified(Family::V4);
    assert!(rt; read_frame_attrs(rt.alloc(), hop, 0, &other)?.is_none());
    Ok(())
}

// A number behind 1010 numbers of 65001.
fn route_of_1011(alloc: Global, last: u32) -> Result<Attrs, Fail> {
    let mut attrs = route_with_unknown(alloc)?;
    attrs.unknown.clear();
    attrs
        .path
        .push(Segment::Sequence(Items::from_slice(alloc, &[last])?))?;
    for times in [128, 128, 128, 128, 128, 128, 128, 113, 1] {
        attrs.path.prepend(alloc, 65001, times)?;
    }
    Ok(attrs)
}

// In 4096 bytes 1011 numbers have room, and 1012 have none.
#[test]
fn the_longest_path(rt: HostRuntime) -> Result<(), Fail> {
    let mut attrs = route_of_1011(rt.alloc(), 65002)?;
    assert_eq!(rt; size(EXTERNAL, &attrs, 4), 4094);
    attrs.path.prepend(rt.alloc(), 65001, 1)?;
    assert_eq!(rt; size(EXTERNAL, &attrs, 4), 4098);
    Ok(())
}

// To a two-octet peer AS4_PATH stands beside AS_PATH where a number is above 65535: 1011 numbers have no room then.
#[test]
fn the_longest_path_in_two_octets(rt: HostRuntime) -> Result<(), Fail> {
    let small = route_of_1011(rt.alloc(), 65002)?;
    assert_eq!(rt; size(TWO_OCTETS, &small, 4), 2072);
    let large = route_of_1011(rt.alloc(), 70000)?;
    assert_eq!(rt; size(TWO_OCTETS, &large, 4), 6128);
    Ok(())
}

// 2001:db8::/32 from ::1.
#[test]
fn prefixes_of_ipv6(rt: HostRuntime) -> Result<(), Fail> {
    let hop = Addr {
        family: Family::V6,
        bits: 1,
    };
    let db8 = Addr {
        family: Family::V6,
        bits: 0x2001_0db8 << 96,
    };
    let prefixes = [Prefix::new(db8, 32)];
    assert_eq!(rt; prefixes_size(&prefixes), 5);
    let mut out = Pipe::new(rt.alloc());
    write_unreach(&prefixes, &mut out)?;
    let wanted = [0x80, 15, 8, 0, 2, 1, 32, 0x20, 1, 0x0d, 0xb8];
    assert_eq!(rt; out.peek(), wanted.as_slice());
    out.take(11);
    write_reach(hop, &prefixes, &mut out)?;
    let wanted = [
        0x80, 14, 26, 0, 2, 1, 16, 0, 0, 0, 0, 0, 0, 0, 0, 0, 0, 0, 0, 0, 0, 0, 1, 0, 32, 0x20, 1,
        0x0d, 0xb8,
    ];
    assert_eq!(rt; out.peek(), wanted.as_slice());
    Ok(())
}

#[test]
fn laws() {
    attributes_split();
    attributes_read_back();
    prefixes_read_back();
}
