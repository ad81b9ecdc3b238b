use conf_sets::*;
use conf_tree::{
    AsSetConf, Conf, Members, OriginSetConf, PrefixRange, PrefixSetConf, SetId, SetKind,
};
use net_base::{Items, Ovs, Prefix, Roa};
use std::alloc::Global;
use std::test::*;

fn range(prefix: &str, low: u8, high: u8) -> Result<PrefixRange, Fail> {
    Ok(PrefixRange {
        prefix: Prefix::read(prefix)?,
        low,
        high,
    })
}

fn roa(maxlen: u8, source: u32) -> Result<Roa, Fail> {
    Ok(Roa {
        prefix: Prefix::read("192.0.2.0/24")?,
        maxlen,
        source,
    })
}

/// One set of each kind: 10.0.0.0/8 with the lengths 16 to 24, the AS numbers 65002 and 65004, and 192.0.2.0/24 up to
/// /25 for AS 65002, for which there is an authorization of /24 alone.
fn conf(alloc: Global) -> Result<Conf, Fail> {
    let mut conf = Conf::empty(alloc);
    conf.prefix_sets.push(PrefixSetConf {
        name: Items::from_slice(alloc, b"inside")?,
        entries: Items::from_slice(alloc, &[range("10.0.0.0/8", 16, 24)?])?,
    })?;
    conf.as_sets.push(AsSetConf {
        name: Items::from_slice(alloc, b"peers")?,
        numbers: Items::from_slice(alloc, &[65004, 65002])?,
    })?;
    conf.origin_sets.push(OriginSetConf {
        name: Items::from_slice(alloc, b"ours")?,
        entries: Items::from_slice(alloc, &[roa(25, 65002)?])?,
    })?;
    conf.roas.push(roa(24, 65002)?)?;
    Ok(conf)
}

fn prefix(text: &str) -> Result<Prefix, Fail> {
    Ok(Prefix::read(text)?)
}

// A prefix, whether the set has it, and whether it does with longer ones. The entries are out of order.
#[test]
fn prefixes(rt: HostRuntime) -> Result<(), Fail> {
    let entries = [
        range("10.1.0.0/16", 28, 28)?,
        range("2001:db8::/32", 32, 48)?,
        range("10.0.0.0/8", 16, 24)?,
        range("10.1.0.0/16", 25, 26)?,
    ];
    let mut conf = Conf::empty(rt.alloc());
    conf.prefix_sets.push(PrefixSetConf {
        name: Items::from_slice(rt.alloc(), b"ranges")?,
        entries: Items::from_slice(rt.alloc(), &entries)?,
    })?;
    let sets = Sets::build(rt.alloc(), &conf)?;
    assert_eq!(rt; conf.prefix_sets.len(), 1);
    let set = SetId {
        kind: SetKind::Prefix,
        at: 0,
    };
    let rows = [
        ("10.1.0.0/16", true, true),
        ("10.1.2.0/24", true, true),
        ("10.1.2.0/25", true, true),
        ("10.1.2.0/27", false, true),
        ("10.1.2.0/28", true, true),
        ("10.2.2.0/25", false, true),
        ("10.0.0.0/15", false, true),
        ("10.0.0.0/8", false, true),
        ("0.0.0.0/0", false, false),
        ("11.0.0.0/16", false, false),
        ("::/16", false, false),
        ("2001:db8:1::/48", true, true),
        ("2001:db8:1::/49", false, true),
    ];
    for (text, held, covered) in rows {
        let prefix = prefix(text)?;
        assert_eq!(rt; sets.in_prefix_set(set, prefix), held, "{text}");
        assert_eq!(rt;
            sets.in_prefix_set_or_longer(set, prefix),
            covered,
            "{text}"
        );
    }
    Ok(())
}

#[test]
fn sets_are_asked(rt: HostRuntime) -> Result<(), Fail> {
    let conf = conf(rt.alloc())?;
    let sets = Sets::build(rt.alloc(), &conf)?;
    let said = sets.ovs(prefix("192.0.2.0/24")?, Some(65002));
    assert_eq!(rt; said, Ovs::Valid);
    assert_eq!(rt; conf.as_sets.len(), 1);
    let set = SetId {
        kind: SetKind::As,
        at: 0,
    };
    assert!(rt; sets.in_as_set(set, 65002));
    assert!(rt; sets.in_as_set(set, 65004));
    assert!(rt; !sets.in_as_set(set, 65003));
    Ok(())
}
