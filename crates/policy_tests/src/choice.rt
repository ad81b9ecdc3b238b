use attr_model::{AttrRef, Attrs, Path, Segment};
use decision::*;
use net_base::{Addr, Family, Items};
use std::alloc::Global;
use std::rc::Rc;
use std::test::*;

/// What a test says of a candidate.
#[derive(Clone, Copy)]
struct Row {
    from: Origin,
    /// The first of the two numbers of its path, or none for an empty path.
    neighbour: Option<u32>,
    /// How often that number stands in the path.
    times: u8,
    local_pref: Option<u32>,
    origin: u8,
    med: Option<u32>,
    weight: u32,
    bgp_id: u32,
    eligible: bool,
}

fn peer(last: u8) -> Addr {
    Addr {
        family: Family::V4,
        bits: 0x0a00_0000 + u128::from(last),
    }
}

fn peer_v6() -> Addr {
    Addr {
        family: Family::V6,
        bits: 1,
    }
}

/// A route from the external neighbour 10.0.0.`last` of AS 65000 + `last`, with the address as identifier.
fn route(last: u8) -> Row {
    Row {
        from: Origin::External(peer(last)),
        neighbour: Some(65000 + u32::from(last)),
        times: 1,
        local_pref: None,
        origin: 0,
        med: None,
        weight: 0,
        bgp_id: 0x0a00_0000 + u32::from(last),
        eligible: true,
    }
}

/// A route of the speaker itself.
fn own() -> Row {
    Row {
        from: Origin::Local,
        neighbour: None,
        ..route(9)
    }
}

/// The same from an internal neighbour.
fn internal(last: u8) -> Row {
    Row {
        from: Origin::Internal(peer(last)),
        ..route(last)
    }
}

impl Row {
    fn of_as(self, asn: u32) -> Row {
        Row {
            neighbour: Some(asn),
            ..self
        }
    }

    fn without_path(self) -> Row {
        Row {
            neighbour: None,
            ..self
        }
    }

    fn times(self, times: u8) -> Row {
        Row { times, ..self }
    }

    fn local_pref(self, local_pref: u32) -> Row {
        Row {
            local_pref: Some(local_pref),
            ..self
        }
    }

    fn origin(self, origin: u8) -> Row {
        Row { origin, ..self }
    }

    fn med(self, med: u32) -> Row {
        Row {
            med: Some(med),
            ..self
        }
    }

    fn weight(self, weight: u32) -> Row {
        Row { weight, ..self }
    }

    fn id(self, bgp_id: u32) -> Row {
        Row { bgp_id, ..self }
    }

    fn ineligible(self) -> Row {
        Row {
            eligible: false,
            ..self
        }
    }
}

fn candidate(alloc: Global, row: Row) -> Result<Candidate, Fail> {
    let mut path = Path::new(alloc);
    if let Some(asn) = row.neighbour {
        path.prepend(alloc, asn, row.times)?;
    }
    candidate_of(alloc, row, path)
}

/// The candidate of a row, with this path.
fn candidate_of(alloc: Global, row: Row, path: Path) -> Result<Candidate, Fail> {
    let attrs = Attrs {
        origin: row.origin,
        path,
        hop: peer(1),
        med: row.med,
        local_pref: row.local_pref,
        atomic: false,
        aggregator: None,
        communities: Items::new(alloc),
        large: Items::new(alloc),
        unknown: Items::new(alloc),
        partial: 0,
        weight: row.weight,
    };
    Ok(Candidate {
        from: row.from,
        attrs: AttrRef {
            number: 0,
            attrs: Rc::new(alloc, attrs)?,
        },
        eligible: row.eligible,
        bgp_id: row.bgp_id,
        own_as: 65001,
    })
}

fn best_of_rows(alloc: Global, rows: &[Row], med_always: bool) -> Result<Option<Origin>, Fail> {
    let mut candidates = Vec::new(alloc);
    for row in rows {
        candidates.push(candidate(alloc, *row)?)?;
    }
    if candidates.len() > MOST_CANDIDATES {
        return Ok(None);
    }
    let best = best(candidates.as_slice(), med_always);
    Ok(
        best.and_then(|at| candidates.get(at))
            .map(|candidate| candidate.from),
    )
}

// AS 65002 sends MED 20 by 10.0.0.2 and MED 10 by 10.0.0.4, AS 65003 none by 10.0.0.3. The MED step removes 10.0.0.2 alone,
// and the lower identifier decides.
#[test]
fn med_in_any_order(rt: HostRuntime) -> Result<(), Fail> {
    let second = route(2).med(20);
    let third = route(3);
    let fourth = route(4).of_as(65002).med(10);
    for (one, two, three) in [
        (second, third, fourth),
        (second, fourth, third),
        (third, second, fourth),
        (third, fourth, second),
        (fourth, second, third),
        (fourth, third, second),
    ] {
        let best = best_of_rows(rt.alloc(), &[one, two, three], false)?;
        assert_eq!(rt; best, Some(third.from));
    }
    Ok(())
}

// Each step with a better candidate and a worse one, that would win by each later step.
#[test]
fn each_step_decides(rt: HostRuntime) -> Result<(), Fail> {
    let other_family = Row {
        from: Origin::External(peer_v6()),
        ..route(2)
    };
    for (better, worse) in [
        // eligible
        (route(3), route(2).local_pref(200).ineligible()),
        // the greater LOCAL_PREF, which is 100 where there is none
        (route(3).local_pref(101).times(3), route(2)),
        (route(3), route(2).local_pref(99)),
        // the shorter path
        (route(3).origin(2), route(2).times(2)),
        // the lower ORIGIN
        (route(3).med(9), route(2).origin(1)),
        // the lower MED of one neighbour AS, which is 0 where there is none
        (internal(3), route(3).med(1)),
        // own routes before external ones, and those before internal ones
        (own(), route(2).without_path().weight(9)),
        (route(3), internal(2).weight(9)),
        // the greater weight
        (route(3).weight(1), route(2)),
        // the lower identifier
        (route(3).id(1), route(2)),
        // the lower address, IPv4 before IPv6
        (route(2).id(7), route(3).id(7)),
        (route(3).id(7), other_family.id(7)),
    ] {
        let first = best_of_rows(rt.alloc(), &[better, worse], false)?;
        assert_eq!(rt; first, Some(better.from));
        let second = best_of_rows(rt.alloc(), &[worse, better], false)?;
        assert_eq!(rt; second, Some(better.from));
    }
    Ok(())
}

// A lower MED of another neighbour AS counts only where all MEDs are compared.
#[test]
fn med_of_other_neighbours(rt: HostRuntime) -> Result<(), Fail> {
    let high = route(2).med(20);
    let low = route(3).med(10);
    let strict = best_of_rows(rt.alloc(), &[high, low], false)?;
    assert_eq!(rt; strict, Some(high.from));
    let always = best_of_rows(rt.alloc(), &[high, low], true)?;
    assert_eq!(rt; always, Some(low.from));
    Ok(())
}

#[test]
fn nobody_is_eligible(rt: HostRuntime) -> Result<(), Fail> {
    assert_eq!(rt; best_of_rows(rt.alloc(), &[], false)?, None);
    let row = route(2).ineligible();
    assert_eq!(rt; best_of_rows(rt.alloc(), &[row], true)?, None);
    Ok(())
}

// The first number of a set in front is the neighbour AS too.
#[test]
fn a_set_in_front(rt: HostRuntime) -> Result<(), Fail> {
    let mut path = Path::new(rt.alloc());
    path.push(Segment::Set(Items::from_slice(rt.alloc(), &[65004, 1])?))?;
    let one = candidate_of(rt.alloc(), route(2).med(20), path)?;
    let two = candidate(rt.alloc(), route(4).med(10))?;
    assert_eq!(rt; best(&[one, two], false), Some(1));
    Ok(())
}
