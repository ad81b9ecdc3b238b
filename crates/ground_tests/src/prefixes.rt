use net_base::*;
use std::test::Fail;

const PRINTED: [(&str, &str); 7] = [
    ("10.1.2.3/8", "10.0.0.0/8"),
    ("10.1.2.3/32", "10.1.2.3/32"),
    ("10.1.2.3/0", "0.0.0.0/0"),
    ("2001:db8:ffff::/33", "2001:db8:8000::/33"),
    ("::ffff:ffff/127", "::ffff:fffe/127"),
    ("1::/0", "::/0"),
    ("::1/128", "::1/128"),
];

const REFUSED: [&str; 10] = [
    "",
    "10.0.0.0",
    "10.0.0.0/",
    "/8",
    "10.0.0.0/33",
    "10.0.0.0/08",
    "10.0.0.0/+8",
    "10.0.0.0/8/8",
    "::/129",
    "10.0.0.0/99999999999999999999",
];

#[test]
fn prefixes_are_read_and_printed(rt: HostRuntime) -> Result<(), Fail> {
    for (text, canonical) in PRINTED {
        let prefix = Prefix::read(text)?;
        let printed = prefix.print(rt.alloc())?;
        assert_eq!(rt; printed.as_str(), canonical);
        assert_eq!(rt; Prefix::read_bytes(printed.as_bytes())?, prefix);
    }
    for text in REFUSED {
        assert!(rt; Prefix::read(text).is_err(), "{text}");
    }
    Ok(())
}

#[test]
fn prefixes_cover(rt: HostRuntime) -> Result<(), Fail> {
    let wide = Prefix::read("10.0.0.0/8")?;
    let inner = Prefix::read("10.255.0.0/16")?;
    let host = Prefix::host(Addr::read("10.255.0.1")?);
    assert!(rt; wide.covers(wide) && wide.covers(inner) && inner.covers(host));
    assert!(rt; !inner.covers(wide) && !host.covers(inner));
    assert!(rt; !wide.covers(Prefix::read("11.0.0.0/16")?));
    assert!(rt; Prefix::read("0.0.0.0/0")?.covers(host));
    assert!(rt; !Prefix::read("::/0")?.covers(host));
    assert!(rt; Prefix::read("::/0")?.covers(Prefix::read("ffff::/16")?));
    assert_eq!(rt; host.addr(), Addr::read("10.255.0.1")?);
    assert!(rt; wide < inner && inner < Prefix::read("::/0")?);
    Ok(())
}
