use net_base::{Ovs, Prefix, Roa, RoaList};
use roa_check::*;
use std::test::*;

// 192.0.2.0/24 up to /24 for AS 65002, 198.51.100.0/24 up to /26 for AS 65003, and 203.0.113.0/24 for nobody. Out of order,
// prefixes within 10.0.0.0/8, of which 10.1.0.0/16 stands there twice.
const TABLE: [(&str, u8, u32); 9] = [
    ("10.1.2.0/24", 24, 65003),
    ("2001:db8::/32", 48, 65002),
    ("10.1.0.0/16", 24, 65002),
    ("10.0.0.0/8", 24, 65001),
    ("10.1.0.0/16", 16, 65004),
    ("10.1.1.0/24", 24, 65005),
    ("192.0.2.0/24", 24, 65002),
    ("198.51.100.0/24", 26, 65003),
    ("203.0.113.0/24", 32, 0),
];

// The prefix of a route, its origin, and what validation says of it (RFC 6811 section 2).
const ROWS: [(&str, Option<u32>, Ovs); 21] = [
    ("192.0.2.0/24", Some(65002), Ovs::Valid),
    ("192.0.2.0/25", Some(65002), Ovs::Invalid),
    ("192.0.2.0/24", Some(65003), Ovs::Invalid),
    ("192.0.2.0/24", None, Ovs::Invalid),
    ("192.0.0.0/16", Some(65002), Ovs::NotFound),
    ("198.51.100.64/26", Some(65003), Ovs::Valid),
    ("198.51.100.64/27", Some(65003), Ovs::Invalid),
    ("203.0.113.0/24", Some(0), Ovs::Invalid),
    ("203.0.113.0/24", None, Ovs::Invalid),
    ("10.0.0.0/7", Some(65001), Ovs::NotFound),
    ("10.1.2.0/24", Some(65003), Ovs::Valid),
    ("10.1.2.0/24", Some(65002), Ovs::Valid),
    ("10.1.2.0/24", Some(65001), Ovs::Valid),
    ("10.1.2.0/24", Some(65004), Ovs::Invalid),
    ("10.1.2.128/25", Some(65003), Ovs::Invalid),
    ("10.1.0.0/16", Some(65004), Ovs::Valid),
    ("10.1.3.0/24", Some(65002), Ovs::Valid),
    ("10.1.3.0/24", Some(65005), Ovs::Invalid),
    ("2001:db8:1::/48", Some(65002), Ovs::Valid),
    ("2001:db9::/48", Some(65002), Ovs::NotFound),
    ("::/0", Some(65002), Ovs::NotFound),
];

#[test]
fn routes_are_validated(rt: HostRuntime) -> Result<(), Fail> {
    let mut list = RoaList::new(rt.alloc());
    for (prefix, maxlen, source) in TABLE {
        let prefix = Prefix::read(prefix)?;
        list.push(Roa {
            prefix,
            maxlen,
            source,
        })?;
    }
    let table = RoaTable::build(rt.alloc(), &list)?;
    for (prefix, origin, said) in ROWS {
        assert_eq!(rt;
            ovs(&table, Prefix::read(prefix)?, origin),
            said,
            "{prefix}"
        );
    }
    Ok(())
}

#[test]
fn no_authorizations(rt: HostRuntime) -> Result<(), Fail> {
    let table = RoaTable::build(rt.alloc(), &RoaList::new(rt.alloc()))?;
    let said = ovs(&table, Prefix::read("192.0.2.0/24")?, Some(65002));
    assert_eq!(rt; said, Ovs::NotFound);
    Ok(())
}
