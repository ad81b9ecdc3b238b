use net_base::*;
use std::net::{IpAddr, Ipv4Addr};
use std::test::Fail;

/// Texts of RFC 4291, section 2.2, and of RFC 5952, section 4, each beside its canonical text.
const PRINTED: [(&str, &str); 16] = [
    (
        "ABCD:EF01:2345:6789:ABCD:EF01:2345:6789",
        "abcd:ef01:2345:6789:abcd:ef01:2345:6789",
    ),
    ("2001:DB8:0:0:8:800:200C:417A", "2001:db8::8:800:200c:417a"),
    ("FF01:0:0:0:0:0:0:101", "ff01::101"),
    ("0:0:0:0:0:0:0:1", "::1"),
    ("0:0:0:0:0:0:0:0", "::"),
    ("2001:0db8::0001", "2001:db8::1"),
    ("2001:db8:0:0:0:0:2:1", "2001:db8::2:1"),
    ("2001:db8::1:1:1:1:1", "2001:db8:0:1:1:1:1:1"),
    ("2001:0:0:1:0:0:0:1", "2001:0:0:1::1"),
    ("2001:db8:0:0:1:0:0:1", "2001:db8::1:0:0:1"),
    ("2001:DB8::A", "2001:db8::a"),
    ("1:2:3:4:5:6:7::", "1:2:3:4:5:6:7:0"),
    ("::ffff:a00:1", "::ffff:a00:1"),
    ("192.0.2.1", "192.0.2.1"),
    ("0.0.0.0", "0.0.0.0"),
    ("255.255.255.255", "255.255.255.255"),
];

const REFUSED: [&str; 14] = [
    "",
    "192.0.02.1",
    "192.0.2",
    "192.0.2.256",
    "192.0.2.1.",
    " 192.0.2.1",
    "1:2:3:4:5:6:7:8::",
    "1::2::3",
    "1:2:3:4:5:6:7",
    "12345::",
    "::g",
    "::13.1.68.3",
    "::FFFF:129.144.52.38",
    "fe80::1%lo",
];

#[test]
fn addresses_are_read_and_printed(rt: HostRuntime) -> Result<(), Fail> {
    for (text, canonical) in PRINTED {
        let addr = Addr::read(text)?;
        let printed = addr.print(rt.alloc())?;
        assert_eq!(rt; printed.as_str(), canonical);
        assert_eq!(rt; Addr::read_bytes(printed.as_bytes())?, addr);
    }
    for text in REFUSED {
        assert!(rt; Addr::read(text).is_err(), "{text}");
    }
    Ok(())
}

#[test]
fn addresses_have_bits(rt: HostRuntime) -> Result<(), Fail> {
    let v4 = Addr::read("10.0.0.2")?;
    assert_eq!(rt; v4.bits, 0x0a00_0002);
    assert_eq!(rt; Addr::from(Ipv4Addr::new(10, 0, 0, 2)), v4);
    let v6 = Addr::read("1::2")?;
    assert_eq!(rt; v6.bits, 0x1_0000_0000_0000_0000_0000_0000_0002);
    assert!(rt; v4 < v6);
    assert!(rt; v4.ip() == IpAddr::V4(Ipv4Addr::new(10, 0, 0, 2)));
    assert!(rt; Addr::from(v6.ip()) == v6);
    assert!(rt; Addr::read("::")? == Addr::unspecified(Family::V6));
    assert!(rt; Addr::unspecified(Family::V4).is_unspecified());
    assert!(rt; !v6.is_unspecified());
    Ok(())
}
