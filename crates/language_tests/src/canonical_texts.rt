use conf_print::*;
use conf_tree::{
    Action, AsSetConf, Change, CommunityPattern, Condition, ConditionList, Conf, Direction, Item,
    ItemList, LargePattern, Listen, Neighbour, Network, NextHop, OriginSetConf, PathPart, Peer,
    PrefixRange, PrefixSetConf, Rib, RouteOrigin, Rule, SetId, SetKind, Text,
};
use net_base::{Addr, Family, Items, Ovs, Prefix, Roa};
use std::alloc::Global;
use std::test::Fail;

fn word(alloc: Global, bytes: &[u8]) -> Result<Text, Fail> {
    Ok(Items::from_slice(alloc, bytes)?)
}

fn set_id(kind: SetKind, at: u32) -> SetId {
    SetId { kind, at }
}

fn roa(prefix: &str, maxlen: u8, source: u32) -> Result<Roa, Fail> {
    Ok(Roa {
        prefix: Prefix::read(prefix)?,
        maxlen,
        source,
    })
}

fn range(prefix: &str, low: u8, high: u8) -> Result<PrefixRange, Fail> {
    Ok(PrefixRange {
        prefix: Prefix::read(prefix)?,
        low,
        high,
    })
}

fn network(alloc: Global, prefix: &str, items: &[Item]) -> Result<Network, Fail> {
    Ok(Network {
        prefix: Prefix::read(prefix)?,
        set: Items::from_slice(alloc, items)?,
    })
}

/// A neighbour with the defaults of an IPv4 address.
fn neighbour(alloc: Global, address: &str, group: Option<Text>) -> Result<Neighbour, Fail> {
    Ok(Neighbour {
        address: Addr::read(address)?,
        group,
        remote_as: 65002,
        local_address: None,
        description: None,
        port: 179,
        passive: false,
        down: false,
        multihop: None,
        hold: 90,
        hold_min: 3,
        announce_v4: true,
        announce_v6: false,
        announce_refresh: true,
        announce_as_4byte: true,
        max_prefix: None,
        rib: 0,
        set: Items::new(alloc),
    })
}

fn rule(direction: Direction, peer: Peer, conditions: ConditionList, set: ItemList) -> Rule {
    Rule {
        action: Action::Match,
        quick: false,
        rib: None,
        direction,
        peer,
        conditions,
        set,
    }
}

fn small(alloc: Global) -> Result<Conf, Fail> {
    let mut conf = Conf::empty(alloc);
    conf.asn = 65001;
    conf.router_id = 0x0a00_0001;
    conf.socket = word(alloc, b"bgpd.sock")?;
    conf.networks.push(network(alloc, "192.0.2.0/24", &[])?)?;
    Ok(conf)
}

/// The text of the own AS 65001 with one network: 133 bytes.
const SMALL: &str =
    "AS 65001\nrouter-id 10.0.0.1\nholdtime 90\nholdtime min 3\nfib-update yes\nrde med compare strict\nsocket \"bgpd.sock\"\nnetwork 192.0.2.0/24\n";

#[test]
fn defaults_are_printed(rt: HostRuntime) -> Result<(), Fail> {
    let conf = small(rt.alloc())?;
    let text = print(rt.alloc(), &conf)?;
    assert_eq!(rt; text.as_slice(), SMALL.as_bytes());
    assert_eq!(rt; text.len(), 133);
    Ok(())
}

const GLOBALS: &str =
    "AS 4200000000\nrouter-id 192.0.2.1\nholdtime 240\nholdtime min 9\nfib-update no\nnexthop qualify via default\nrde med compare always\nsocket \"/run/\u{fc} $x.sock\"\nlisten on 192.0.2.1 port 179\nlisten on 2001:db8::1 port 1790\nlisten on 192.0.2.1 port 179\nrde rib mirror rtable 2\nrde rib backup\n";

fn globals(alloc: Global) -> Result<Conf, Fail> {
    let mut conf = Conf::empty(alloc);
    conf.asn = 4200000000;
    conf.router_id = 0xc000_0201;
    conf.hold = 240;
    conf.hold_min = 9;
    conf.fib_update = false;
    conf.qualify_default = true;
    conf.med_always = true;
    conf.socket = word(alloc, "/run/\u{fc} $x.sock".as_bytes())?;
    let first = Listen {
        address: Addr::read("192.0.2.1")?,
        port: 179,
    };
    let second = Listen {
        address: Addr::read("2001:db8::1")?,
        port: 1790,
    };
    conf.listen = Items::from_slice(alloc, &[first, second, first])?;
    conf.ribs.push(Rib {
        name: word(alloc, b"mirror")?,
        table: Some(2),
    })?;
    conf.ribs.push(Rib {
        name: word(alloc, b"backup")?,
        table: None,
    })?;
    Ok(conf)
}

#[test]
fn globals_and_ribs(rt: HostRuntime) -> Result<(), Fail> {
    let conf = globals(rt.alloc())?;
    let text = print(rt.alloc(), &conf)?;
    assert_eq!(rt; text.as_slice(), GLOBALS.as_bytes());
    Ok(())
}

/// The text of a configuration whose values are all as at the beginning.
const HEAD: &str =
    "AS 0\nrouter-id 0.0.0.0\nholdtime 90\nholdtime min 3\nfib-update yes\nrde med compare strict\nsocket \"\"\n";

const SETS: &str =
    "prefix-set Empty {\n}\nprefix-set nets {\n\t10.0.0.0/8 prefixlen 8 - 24\n\t2001:db8::/32 prefixlen 48 - 33\n}\nas-set customers {\n\t65010\n\t4200000000\n}\norigin-set none {\n}\norigin-set ours {\n\t192.0.2.0/24 maxlen 26 source-as 65001\n}\nroa-set {\n\t198.51.100.0/24 maxlen 28 source-as 0\n\t2001:db8::/32 maxlen 32 source-as 65001\n}\nnetwork 192.0.2.0/24\nnetwork 2001:db8::/32 set { community 65535:65281 }\n";

fn prefix_set(alloc: Global, name: &[u8], entries: &[PrefixRange]) -> Result<PrefixSetConf, Fail> {
    Ok(PrefixSetConf {
        name: word(alloc, name)?,
        entries: Items::from_slice(alloc, entries)?,
    })
}

fn origin_set(alloc: Global, name: &[u8], entries: &[Roa]) -> Result<OriginSetConf, Fail> {
    Ok(OriginSetConf {
        name: word(alloc, name)?,
        entries: Items::from_slice(alloc, entries)?,
    })
}

fn as_set(alloc: Global, name: &[u8], numbers: &[u32]) -> Result<AsSetConf, Fail> {
    Ok(AsSetConf {
        name: word(alloc, name)?,
        numbers: Items::from_slice(alloc, numbers)?,
    })
}

fn add_prefix_sets(alloc: Global, conf: &mut Conf) -> Result<(), Fail> {
    let ranges = [range("10.0.0.0/8", 8, 24)?, range("2001:db8::/32", 48, 33)?];
    conf.prefix_sets.push(prefix_set(alloc, b"Empty", &[])?)?;
    conf.prefix_sets.push(prefix_set(alloc, b"nets", &ranges)?)?;
    Ok(())
}

fn add_origin_sets(alloc: Global, conf: &mut Conf) -> Result<(), Fail> {
    let ours = [roa("192.0.2.0/24", 26, 65001)?];
    let roas = [
        roa("198.51.100.0/24", 28, 0)?,
        roa("2001:db8::/32", 32, 65001)?,
    ];
    conf.origin_sets.push(origin_set(alloc, b"none", &[])?)?;
    conf.origin_sets.push(origin_set(alloc, b"ours", &ours)?)?;
    conf.roas = Items::from_slice(alloc, &roas)?;
    Ok(())
}

fn sets(alloc: Global) -> Result<Conf, Fail> {
    let mut conf = Conf::empty(alloc);
    let no_export = [Item::Community(0xffff_ff01)];
    add_prefix_sets(alloc, &mut conf)?;
    conf.as_sets
        .push(as_set(alloc, b"customers", &[65010, 4200000000])?)?;
    add_origin_sets(alloc, &mut conf)?;
    conf.networks.push(network(alloc, "192.0.2.0/24", &[])?)?;
    conf.networks
        .push(network(alloc, "2001:db8::/32", &no_export)?)?;
    Ok(conf)
}

#[test]
fn sets_and_networks(rt: HostRuntime) -> Result<(), Fail> {
    let conf = sets(rt.alloc())?;
    let text = print(rt.alloc(), &conf)?;
    let (head, rest) = text.as_slice().split_at(HEAD.len().min(text.len()));
    assert_eq!(rt; head, HEAD.as_bytes());
    assert_eq!(rt; rest, SETS.as_bytes());
    Ok(())
}

const NEIGHBOURS: &str =
    "rde rib mirror\nneighbor 10.0.0.3 {\n\tremote-as 65002\n\tport 179\n\tholdtime 90\n\tholdtime min 3\n\tannounce IPv4 unicast\n\tannounce IPv6 none\n\tannounce refresh yes\n\tannounce as-4byte yes\n\trib Loc-RIB\n}\ngroup \"Z\" {\nneighbor 10.0.0.4 {\n\tremote-as 65002\n\tport 179\n\tholdtime 90\n\tholdtime min 3\n\tannounce IPv4 unicast\n\tannounce IPv6 none\n\tannounce refresh yes\n\tannounce as-4byte yes\n\trib Loc-RIB\n}\n}\ngroup \"up stream\" {\nneighbor 10.0.0.2 {\n\tremote-as 65002\n\tport 179\n\tholdtime 90\n\tholdtime min 3\n\tannounce IPv4 unicast\n\tannounce IPv6 none\n\tannounce refresh yes\n\tannounce as-4byte yes\n\trib Loc-RIB\n}\nneighbor 2001:db8::2 {\n\tremote-as 65003\n\tlocal-address 2001:db8::1\n\tdescr \"to the east\"\n\tport 1790\n\tpassive\n\tdown\n\tmultihop 4\n\tholdtime 0\n\tholdtime min 60\n\tannounce IPv4 none\n\tannounce IPv6 unicast\n\tannounce refresh no\n\tannounce as-4byte no\n\tmax-prefix 500000\n\trib mirror\n\tset { localpref 200, weight +7 }\n}\n}\n";

fn full_neighbour(alloc: Global) -> Result<Neighbour, Fail> {
    let items = [
        Item::LocalPref(Change::Set(200)),
        Item::Weight(Change::Add(7)),
    ];
    Ok(Neighbour {
        address: Addr::read("2001:db8::2")?,
        group: Some(word(alloc, b"up stream")?),
        remote_as: 65003,
        local_address: Some(Addr::read("2001:db8::1")?),
        description: Some(word(alloc, b"to the east")?),
        port: 1790,
        passive: true,
        down: true,
        multihop: Some(4),
        hold: 0,
        hold_min: 60,
        announce_v4: false,
        announce_v6: true,
        announce_refresh: false,
        announce_as_4byte: false,
        max_prefix: Some(500000),
        rib: 1,
        set: Items::from_slice(alloc, &items)?,
    })
}

fn neighbours(alloc: Global) -> Result<Conf, Fail> {
    let mut conf = Conf::empty(alloc);
    conf.ribs.push(Rib {
        name: word(alloc, b"mirror")?,
        table: None,
    })?;
    let upstream = Some(word(alloc, b"up stream")?);
    let last = Some(word(alloc, b"Z")?);
    conf.neighbours
        .push(neighbour(alloc, "10.0.0.2", upstream)?)?;
    conf.neighbours.push(neighbour(alloc, "10.0.0.3", None)?)?;
    conf.neighbours.push(neighbour(alloc, "10.0.0.4", last)?)?;
    conf.neighbours.push(full_neighbour(alloc)?)?;
    Ok(conf)
}

#[test]
fn neighbours_and_groups(rt: HostRuntime) -> Result<(), Fail> {
    let conf = neighbours(rt.alloc())?;
    let text = print(rt.alloc(), &conf)?;
    let (head, rest) = text.as_slice().split_at(HEAD.len().min(text.len()));
    assert_eq!(rt; head, HEAD.as_bytes());
    assert_eq!(rt; rest, NEIGHBOURS.as_bytes());
    Ok(())
}

const RULES: &str =
    "prefix-set nets {\n}\nas-set customers {\n}\norigin-set ours {\n}\nallow quick rib Loc-RIB from any\ndeny to ebgp inet\nmatch from ibgp inet6\nmatch from 2001:db8::2\nmatch to group \"up stream\" set { nexthop self }\nmatch from AS 65010 prefix 10.0.0.0/8 prefixlen 8 - 32 prefix-set nets prefix-set nets or-longer AS 65001 source-as 0 transit-as as-set customers peer-as as-set customers origin-set ours ovs not-found community 65001:* large-community *:1:* max-as-len 0 nexthop 10.0.0.9 ovs valid ovs invalid set { localpref 100, med +5, weight -0, prepend-self 1, prepend-neighbor 128, origin igp, community 65001:7, community delete *:7, large-community 4200000000:0:1, large-community delete 65001:*:*, nexthop 10.0.0.9, nexthop no-modify, origin egp, origin incomplete }\n";

fn every_condition(alloc: Global) -> Result<ConditionList, Fail> {
    let conditions = [
        Condition::Prefix(range("10.0.0.0/8", 8, 32)?),
        Condition::PrefixSet(set_id(SetKind::Prefix, 0)),
        Condition::PrefixSetOrLonger(set_id(SetKind::Prefix, 0)),
        Condition::PathNumber(PathPart::Any, 65001),
        Condition::PathNumber(PathPart::Source, 0),
        Condition::PathSet(PathPart::Transit, set_id(SetKind::As, 0)),
        Condition::PathSet(PathPart::Peer, set_id(SetKind::As, 0)),
        Condition::OriginSet(set_id(SetKind::Origin, 0)),
        Condition::Ovs(Ovs::NotFound),
        Condition::Community(CommunityPattern {
            high: Some(65001),
            low: None,
        }),
        Condition::LargeCommunity(LargePattern {
            global: None,
            first: Some(1),
            second: None,
        }),
        Condition::MaxAsLen(0),
        Condition::NextHop(Addr::read("10.0.0.9")?),
        Condition::Ovs(Ovs::Valid),
        Condition::Ovs(Ovs::Invalid),
    ];
    Ok(Items::from_slice(alloc, &conditions)?)
}

fn every_item(alloc: Global) -> Result<ItemList, Fail> {
    let items = [
        Item::LocalPref(Change::Set(100)),
        Item::Med(Change::Add(5)),
        Item::Weight(Change::Subtract(0)),
        Item::PrependSelf(1),
        Item::PrependNeighbor(128),
        Item::Origin(RouteOrigin::Igp),
        Item::Community(0xfde9_0007),
        Item::DeleteCommunity(CommunityPattern {
            high: None,
            low: Some(7),
        }),
        Item::LargeCommunity(4200000000, 0, 1),
        Item::DeleteLargeCommunity(LargePattern {
            global: Some(65001),
            first: None,
            second: None,
        }),
        Item::NextHop(NextHop::Address(Addr::read("10.0.0.9")?)),
        Item::NextHop(NextHop::NoModify),
        Item::Origin(RouteOrigin::Egp),
        Item::Origin(RouteOrigin::Incomplete),
    ];
    Ok(Items::from_slice(alloc, &items)?)
}

/// Five rules, each for another kind of peer.
fn simple_rules(alloc: Global, conf: &mut Conf) -> Result<(), Fail> {
    let none = Items::new(alloc);
    let v4 = Items::from_slice(alloc, &[Condition::Family(Family::V4)])?;
    let v6 = Items::from_slice(alloc, &[Condition::Family(Family::V6)])?;
    let own = Items::from_slice(alloc, &[Item::NextHop(NextHop::Own)])?;
    let address = Peer::Address(Addr::read("2001:db8::2")?);
    let group = Peer::Group(word(alloc, b"up stream")?);
    let mut quick = rule(Direction::From, Peer::Any, none, Items::new(alloc));
    quick.action = Action::Allow;
    quick.quick = true;
    quick.rib = Some(0);
    conf.rules.push(quick)?;
    let mut deny = rule(Direction::To, Peer::Ebgp, v4, Items::new(alloc));
    deny.action = Action::Deny;
    conf.rules.push(deny)?;
    conf.rules
        .push(rule(Direction::From, Peer::Ibgp, v6, Items::new(alloc)))?;
    conf.rules.push(rule(
        Direction::From,
        address,
        Items::new(alloc),
        Items::new(alloc),
    ))?;
    conf.rules
        .push(rule(Direction::To, group, Items::new(alloc), own))?;
    Ok(())
}

fn rules(alloc: Global) -> Result<Conf, Fail> {
    let mut conf = Conf::empty(alloc);
    let peer = Peer::As(65010);
    conf.prefix_sets.push(prefix_set(alloc, b"nets", &[])?)?;
    conf.as_sets.push(as_set(alloc, b"customers", &[])?)?;
    conf.origin_sets.push(origin_set(alloc, b"ours", &[])?)?;
    simple_rules(alloc, &mut conf)?;
    let conditions = every_condition(alloc)?;
    conf.rules.push(rule(Direction::From, peer, conditions, every_item(alloc)?))?;
    Ok(conf)
}

#[test]
fn rules_with_everything(rt: HostRuntime) -> Result<(), Fail> {
    let conf = rules(rt.alloc())?;
    let text = print(rt.alloc(), &conf)?;
    let (head, rest) = text.as_slice().split_at(HEAD.len().min(text.len()));
    assert_eq!(rt; head, HEAD.as_bytes());
    assert_eq!(rt; rest, RULES.as_bytes());
    Ok(())
}
