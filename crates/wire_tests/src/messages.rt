use bgp_wire::*;
use net_base::Family;
use std::test::*;
use wire_buf::Pipe;

// AS 65001 with the address families and capabilities of an ordinary router, towards AS 65002.
const OURS: OpenRules = OpenRules {
    asn: 65001,
    remote_as: 65002,
    router_id: 0x0a00_0001,
    hold: 90,
    hold_min: 3,
    v4: true,
    v6: false,
    refresh: true,
    as4: true,
};

#[test]
fn headers(rt: HostRuntime) {
    for (marker, rest, want) in [
        (0xff, [0x00, 0x12, 4], fault(1, 2)),
        (0xff, [0x10, 0x01, 2], fault(1, 2)),
        (0xfe, [0x00, 0x13, 4], fault(1, 1)),
        (0xff, [0x00, 0x13, 9], fault(1, 3)),
        (0xff, [0x00, 0x14, 4], fault(1, 2)),
        (0xff, [0x00, 0x17, 2], Cut::More),
        (
            0xff,
            [0x00, 0x13, 4],
            Cut::Message {
                kind: 4,
                length: 19,
            },
        ),
    ] {
        let mut bytes = [0xff; 20];
        bytes[15] = marker;
        bytes[16] = rest[0];
        bytes[17] = rest[1];
        bytes[18] = rest[2];
        assert_eq!(rt; cut(&bytes[..19]), want);
        assert_eq!(rt; cut(&bytes[..18]), Cut::More);
    }
}

fn fault(code: u8, sub: u8) -> Cut {
    Cut::Notify(Notify { code, sub })
}

// The body of an OPEN of AS 65002 with IPv4, route refresh and four-octet numbers.
const BODY: [u8; 26] = [
    4, 0xfd, 0xea, 0x00, 0x5a, 10, 0, 0, 2, 0x10, 2, 14, 1, 4, 0, 1, 0, 1, 2, 0, 65, 4, 0, 0, 0xfd,
    0xea,
];

#[test]
fn an_open_is_read(rt: HostRuntime) {
    let agreed = OpenFacts {
        asn: 65002,
        id: 0x0a00_0002,
        hold: 90,
        encoding: Encoding {
            v4: true,
            v6: false,
            as4: true,
            refresh: true,
            external: true,
        },
    };
    assert_eq!(rt; read_open(&BODY, &OURS), Ok(agreed));
    // The AS is that of the capability, also where My AS has no room for it.
    let mut four_octets = BODY;
    four_octets[1] = 0x5b;
    four_octets[2] = 0xa0;
    four_octets[22] = 0xfa;
    four_octets[23] = 0x56;
    four_octets[24] = 0xea;
    four_octets[25] = 0x00;
    let far = OpenRules {
        remote_as: 4_200_000_000,
        ..OURS
    };
    let facts = read_open(&four_octets, &far);
    assert_eq!(rt;
        facts,
        Ok(OpenFacts {
            asn: 4_200_000_000,
            ..agreed
        })
    );
    // A peer without four-octet numbers and without route refresh.
    let two_octets = [
        4, 0xfd, 0xeb, 0x00, 0x5a, 10, 0, 0, 3, 8, 2, 6, 1, 4, 0, 1, 0, 1,
    ];
    let third = OpenRules {
        remote_as: 65003,
        ..OURS
    };
    let facts = read_open(&two_octets, &third);
    assert!(rt;
        matches!(
            facts,
            Ok(OpenFacts {
                asn: 65003,
                encoding: Encoding {
                    as4: false,
                    refresh: false,
                    ..
                },
                ..
            })
        )
    );
}

#[test]
fn faults_of_an_open(rt: HostRuntime) {
    for (at, byte, sub) in [
        (0, 3, 1),
        (9, 0x11, 0),
        (13, 3, 0),
        (10, 1, 4),
        (25, 0xeb, 2),
        (4, 2, 6),
    ] {
        let mut body = BODY;
        body[at] = byte;
        assert_eq!(rt;
            read_open(&body, &OURS),
            Err(Notify { code: 2, sub }),
            "byte {at}"
        );
    }
    // A malformed capability comes before a parameter of another type, wherever it stands.
    let body = [4, 0xfd, 0xea, 0, 90, 10, 0, 0, 2, 5, 1, 0, 2, 1, 2];
    assert_eq!(rt; read_open(&body, &OURS), Err(Notify { code: 2, sub: 0 }));
}

#[test]
fn messages_are_written(rt: HostRuntime) -> Result<(), Fail> {
    let mut out = Pipe::new(rt.alloc());
    write_open(&OURS, &mut out)?;
    let own = [
        0x00, 0x2d, 1, 4, 0xfd, 0xe9, 0x00, 0x5a, 10, 0, 0, 1, 0x10, 2, 14, 1, 4, 0, 1, 0, 1, 2, 0,
        65, 4, 0, 0, 0xfd, 0xe9,
    ];
    assert_eq!(rt; &out.peek()[16..], own.as_slice());
    out.take(45);
    write_keepalive(&mut out)?;
    assert_eq!(rt; &out.peek()[16..], [0, 19, 4].as_slice());
    out.take(19);
    write_notification(6, 2, &mut out)?;
    assert_eq!(rt; &out.peek()[16..], [0, 21, 3, 6, 2].as_slice());
    out.take(21);
    write_refresh(Family::V6, &mut out)?;
    assert_eq!(rt; &out.peek()[16..], [0, 23, 5, 0, 2, 0, 1].as_slice());
    assert_eq!(rt; read_refresh(&out.peek()[19..]), Some(Family::V6));
    assert_eq!(rt; read_refresh(&[0, 1, 0, 128]), None);
    messages_split();
    entries_split();
    Ok(())
}
