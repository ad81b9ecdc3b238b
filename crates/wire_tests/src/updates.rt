ghost use Rattle.std.specs.Prelude.{◌≡◌, ◌≤◌, ◌∷◌, [], false, is_some, length, IfOk};
ghost use Rattle.attr_model.specs.Valid.{IsPath, IsValid};
ghost use Rattle.update_codec.specs.Written.{IsWritable};

use attr_codec::UpdateFault;
use attr_model::{Attrs, Path, Segment};
use bgp_wire::Encoding;
use net_base::{Addr, Family, Items, Prefix};
use std::alloc::Global;
use std::test::*;
use update_codec::*;
use wire_buf::Pipe;

const EXTERNAL: Encoding = Encoding {
    v4: true,
    v6: true,
    as4: true,
    refresh: true,
    external: true,
};

const TWO_OCTETS: Encoding = Encoding {
    v4: true,
    v6: false,
    as4: false,
    refresh: false,
    external: true,
};

fn read(alloc: Global, body: &[u8]) -> Result<Update, Fail> {
    Ok(
        read_update(alloc, EXTERNAL, body)
            .ok()
            .ok_or("no NOTIFICATION")?,
    )
}

// 192.0.2.0/24.
fn prefix() -> Prefix
    ensures { result.family ≡ Family.V4 }
{
    Prefix::new(
        Addr {
            family: Family::V4,
            bits: 0xc000_0200,
        },
        24,
    )
}

// ORIGIN IGP, path 65002 and hop 10.0.0.2, with an ORIGIN more behind the first, which is dropped; an AS_PATH with a sequence of
// no numbers, which withdraws; and a prefix of 33 bits.
#[test]
fn bodies_that_are_read(rt: HostRuntime) -> Result<(), Fail> {
    let plain = [
        0, 0, 0, 0x14, 0x40, 1, 1, 0, 0x40, 2, 6, 2, 1, 0, 0, 0xfd, 0xea, 0x40, 3, 4, 10, 0, 0, 2,
        0x18, 0xc0, 0, 2,
    ];
    let copied = [
        0, 0, 0, 0x18, 0x40, 1, 1, 0, 0x40, 1, 1, 2, 0x40, 2, 6, 2, 1, 0, 0, 0xfd, 0xea, 0x40, 3,
        4, 10, 0, 0, 2, 0x18, 0xc0, 0, 2,
    ];
    for body in [plain.as_slice(), copied.as_slice()] {
        let update = read(rt.alloc(), body)?;
        assert!(rt; update.withdrawn.is_empty());
        assert_eq!(rt; update.announced.len(), 1);
        for (attrs, prefixes) in update.announced.as_slice() {
            assert_eq!(rt; attrs.origin, 0);
            assert_eq!(rt; attrs.path.origin_as(65001), Some(65002));
            assert!(rt; attrs.hop.bits == 0x0a00_0002);
            assert!(rt; prefixes.as_slice() == [prefix()].as_slice());
        }
    }
    let empty = [
        0, 0, 0, 0x10, 0x40, 1, 1, 0, 0x40, 2, 2, 2, 0, 0x40, 3, 4, 10, 0, 0, 2, 0x18, 0xc0, 0, 2,
    ];
    let withdrawn = [0, 4, 0x18, 0xc0, 0, 2, 0, 0];
    for body in [empty.as_slice(), withdrawn.as_slice()] {
        let update = read(rt.alloc(), body)?;
        assert!(rt; update.withdrawn.as_slice() == [prefix()].as_slice());
        assert!(rt; update.announced.is_empty());
    }
    Ok(())
}

// A prefix of 33 bits, and withdrawn routes that leave no room for the next length.
#[test]
fn notifications(rt: HostRuntime) {
    let long = [
        0, 0, 0, 0x14, 0x40, 1, 1, 0, 0x40, 2, 6, 2, 1, 0, 0, 0xfd, 0xea, 0x40, 3, 4, 10, 0, 0, 2,
        0x21, 0xc0, 0, 2, 1, 0,
    ];
    let short = [0, 3, 0x18, 0xc0, 0, 0];
    for (body, wanted) in [(long.as_slice(), 10), (short.as_slice(), 1)] {
        assert!(rt;
            matches!(read_update(rt.alloc(), EXTERNAL, body), Err(UpdateFault::Notify(sub)) if sub == wanted)
        );
    }
}

// 192.0.2.0/24 with ORIGIN IGP, a path of one sequence and an IPv4 hop.
fn route(alloc: Global, numbers: &[u32], bits: u32) -> Result<OutUpdate, Fail>
    requires some { 1 ≤ length numbers.now }
    requires few { length numbers.now ≤ 255 }
    ensures external { IfOk result (λ update. IsWritable EXTERNAL update) }
    ensures two_octets { IfOk result (λ update. IsWritable TWO_OCTETS update) }
{
    let mut path = Path::new(alloc);
    path.push(Segment::Sequence(Items::from_slice(alloc, numbers)?))?;
    let prefixes = Items::from_slice(alloc, &[prefix()])?;
    let attrs = Attrs {
        origin: 0,
        path,
        hop: Addr {
            family: Family::V4,
            bits: u128::from(bits),
        },
        med: None,
        local_pref: None,
        atomic: false,
        aggregator: None,
        communities: Items::new(alloc),
        large: Items::new(alloc),
        unknown: Items::new(alloc),
        partial: 0,
        weight: 0,
    };
    Ok(OutUpdate::Announce(attrs, prefixes))
}

// Whether an UPDATE is written as these bytes behind the marker.
fn is_written(alloc: Global, enc: Encoding, update: &OutUpdate, wanted: &[u8]) -> Result<bool, Fail>
    requires { IsWritable enc update.now }
{
    if !fits(enc, update) {
        return Ok(false);
    }
    let mut out = Pipe::new(alloc);
    write_update(enc, update, &mut out)?;
    out.take(16);
    Ok(out.peek() == wanted)
}

// 65002 sends 192.0.2.0/24 from 10.0.0.2.
#[test]
fn a_first_route(rt: HostRuntime) -> Result<(), Fail> {
    let update = route(rt.alloc(), &[65002], 0x0a00_0002)?;
    let bytes = [
        0, 0x2f, 2, 0, 0, 0, 0x14, 0x40, 1, 1, 0, 0x40, 2, 6, 2, 1, 0, 0, 0xfd, 0xea, 0x40, 3, 4,
        10, 0, 0, 2, 0x18, 0xc0, 0, 2,
    ];
    assert!(rt; is_written(rt.alloc(), EXTERNAL, &update, &bytes)?);
    Ok(())
}

// 65001 sends it on from 10.0.0.1.
#[test]
fn a_second_route(rt: HostRuntime) -> Result<(), Fail> {
    let update = route(rt.alloc(), &[65001, 65002], 0x0a00_0001)?;
    let bytes = [
        0, 0x33, 2, 0, 0, 0, 0x18, 0x40, 1, 1, 0, 0x40, 2, 0x0a, 2, 2, 0, 0, 0xfd, 0xe9, 0, 0,
        0xfd, 0xea, 0x40, 3, 4, 10, 0, 0, 1, 0x18, 0xc0, 0, 2,
    ];
    assert!(rt; is_written(rt.alloc(), EXTERNAL, &update, &bytes)?);
    Ok(())
}

// A path of 65001 and 4200000000 to a peer of two-octet numbers (RFC 6793 section 4.2.2).
#[test]
fn a_route_in_two_octets(rt: HostRuntime) -> Result<(), Fail> {
    let update = route(rt.alloc(), &[65001, 4_200_000_000], 0x0a00_0001)?;
    let bytes = [
        0, 0x3c, 2, 0, 0, 0, 0x21, 0x40, 1, 1, 0, 0x40, 2, 6, 2, 2, 0xfd, 0xe9, 0x5b, 0xa0, 0x40,
        3, 4, 10, 0, 0, 1, 0xc0, 0x11, 0x0a, 2, 2, 0, 0, 0xfd, 0xe9, 0xfa, 0x56, 0xea, 0, 0x18,
        0xc0, 0, 2,
    ];
    assert!(rt; is_written(rt.alloc(), TWO_OCTETS, &update, &bytes)?);
    Ok(())
}

// 192.0.2.0/24 is announced, and then withdrawn.
#[test]
fn what_is_told(rt: HostRuntime) -> Result<(), Fail> {
    let bytes = [
        0xff, 0xff, 0xff, 0xff, 0xff, 0xff, 0xff, 0xff, 0xff, 0xff, 0xff, 0xff, 0xff, 0xff, 0xff,
        0xff, 0, 0x2f, 2, 0, 0, 0, 0x14, 0x40, 1, 1, 0, 0x40, 2, 6, 2, 1, 0, 0, 0xfd, 0xea, 0x40,
        3, 4, 0x0a, 0, 0, 2, 0x18, 0xc0, 0, 2, 0xff, 0xff, 0xff, 0xff, 0xff, 0xff, 0xff, 0xff,
        0xff, 0xff, 0xff, 0xff, 0xff, 0xff, 0xff, 0xff, 0, 0x1b, 2, 0, 4, 0x18, 0xc0, 0, 2, 0, 0,
    ];
    let routes = told(rt.alloc(), EXTERNAL, &bytes[..47])?;
    assert_eq!(rt; routes.len(), 1);
    assert!(rt; routes.get(prefix()).is_some());
    let routes = told(rt.alloc(), EXTERNAL, &bytes)?;
    assert_eq!(rt; routes.len(), 0);
    let update = read(rt.alloc(), &[0, 4, 0x18, 0xc0, 0, 2, 0, 0])?;
    assert_eq!(rt; held(rt.alloc(), &[update])?.len(), 0);
    Ok(())
}
