//! Tests: a socket that calls, and that is called by the peer (RFC 9260, 5.2.1), by bytes that were made apart from this code; what is kept under numbers and tags.

use crate::{
    ByPeer, Entry, Host, Meeting, Numbered, Peer, Place, Route, Source, Standing, Table, Tags,
    Turns, is_found_by_peer, key_for, meets,
};
use sctp_opening::Stray;
use sctp_packet::read_packet;
use sctp_terms::{Config, Draw, Reason};
use std::alloc::Global;
use std::test::Fail;

/// An INIT from port 5001 to port 5000, with the initiate tag 0x20 and the initial TSN 0x2000.
const INIT: [u8; 32] = [
    19, 137, 19, 136, 0, 0, 0, 0, 149, 56, 142, 170, 1, 0, 0, 20, 0, 0, 0, 32, 0, 1, 0, 0, 0, 1, 0,
    1, 0, 0, 32, 0,
];

/// The INIT ACK of the peer's call at 110 ms, under the tag 0x10 and the TSN 0x1000 of the own call. The key of its cookie is that of the master key 0, 1, .. 31 for the host
/// 10.0.0.2, UDP port 40001, port 5001.
const INIT_ACK: [u8; 108] = [
    19, 136, 19, 137, 0, 0, 0, 32, 169, 157, 89, 250, 2, 0, 0, 96, 0, 0, 0, 16, 0, 1, 0, 0, 0, 1,
    0, 1, 0, 0, 16, 0, 0, 7, 0, 76, 0, 0, 0, 0, 0, 0, 0, 110, 19, 136, 19, 137, 0, 0, 0, 16, 0, 0,
    0, 32, 0, 0, 16, 0, 0, 0, 32, 0, 0, 1, 0, 0, 0, 1, 0, 1, 0, 0, 0, 0, 188, 217, 76, 28, 110,
    120, 148, 158, 177, 35, 239, 173, 105, 123, 163, 205, 252, 151, 48, 107, 212, 165, 135, 40, 59,
    101, 53, 115, 248, 199, 68, 59,
];

/// The COOKIE ECHO with this cookie.
const COOKIE_ECHO: [u8; 88] = [
    19, 137, 19, 136, 0, 0, 0, 16, 90, 172, 137, 16, 10, 0, 0, 76, 0, 0, 0, 0, 0, 0, 0, 110, 19,
    136, 19, 137, 0, 0, 0, 16, 0, 0, 0, 32, 0, 0, 16, 0, 0, 0, 32, 0, 0, 1, 0, 0, 0, 1, 0, 1, 0, 0,
    0, 0, 188, 217, 76, 28, 110, 120, 148, 158, 177, 35, 239, 173, 105, 123, 163, 205, 252, 151,
    48, 107, 212, 165, 135, 40, 59, 101, 53, 115, 248, 199, 68, 59,
];

/// The master key of the socket.
const MASTER: [u8; 32] = [
    0, 1, 2, 3, 4, 5, 6, 7, 8, 9, 10, 11, 12, 13, 14, 15, 16, 17, 18, 19, 20, 21, 22, 23, 24, 25,
    26, 27, 28, 29, 30, 31,
];

/// What the INIT is routed by, if it arrives from this UDP port.
fn place(udp_port: u16) -> Result<Place, Fail> {
    let host = Host::new(&[10, 0, 0, 2]).ok_or("a host")?;
    Ok(Place {
        config: Config::new(5_000, 5_001, 1_200, 1_000, 65_536, 1, 1)?,
        key: key_for(&MASTER, &Peer::new(host, udp_port, 5_001)),
        standing: Standing::Called {
            own: Draw::new(0x10, 0x1000).ok_or("a tag")?,
        },
        bar: Some(100),
        moment: 110,
        draw: Draw::new(0x99, 0x9999).ok_or("a tag")?,
    })
}

/// What a listener does with this packet, with the random values with which it is routed there.
fn heard(alloc: Global, place: &Place, bytes: &[u8]) -> Result<Stray, Fail> {
    let packet = read_packet(bytes)?;
    match place.route(packet.tag, &packet.chunks) {
        Route::ToListener(draw) => Ok(place.hear(alloc, draw, &packet)?),
        _ => Ok(Stray::Dropped(Reason::Fault)),
    }
}

#[test]
fn a_caller_answers_under_its_own_tag(rt: HostRuntime) -> Result<(), Fail> {
    let here = place(40_001)?;
    assert!(rt; matches!(here.standing, Standing::Called { .. }));
    match heard(rt.alloc(), &here, &INIT)? {
        Stray::Answered(packet) => assert_eq!(rt; packet.as_slice(), &INIT_ACK[..]),
        _ => assert!(rt; false),
    }
    Ok(())
}

#[test]
fn a_cookie_opens_for_its_peer_alone(rt: HostRuntime) -> Result<(), Fail> {
    let here = place(40_001)?;
    match heard(rt.alloc(), &here, &COOKIE_ECHO)? {
        Stray::Begins(content) => {
            let met = meets(here.standing, here.bar, false, &content);
            assert!(rt; matches!(met, Meeting::Begins));
        }
        _ => assert!(rt; false),
    }
    let elsewhere = heard(rt.alloc(), &place(40_002)?, &COOKIE_ECHO)?;
    assert!(rt; matches!(elsewhere, Stray::Dropped(Reason::Cookie)));
    Ok(())
}

#[test]
fn a_cookie_echo_is_found_by_its_peer(rt: HostRuntime) -> Result<(), Fail> {
    let packet = read_packet(&COOKIE_ECHO)?;
    assert!(rt; is_found_by_peer(&packet.chunks));
    Ok(())
}

#[test]
fn numbers_tags_and_turns_are_kept(rt: HostRuntime) -> Result<(), Fail> {
    let mut values: Numbered<u8> = Numbered::new(rt.alloc());
    assert_eq!(rt; values.insert(7)?, 1);
    assert_eq!(rt; values.insert(8)?, 2);
    assert_eq!(rt; values.remove(1), Some(7));
    assert_eq!(rt; values.insert(9)?, 3);
    let mut tags = Tags::new(rt.alloc());
    assert!(rt; tags.insert(0x10, 1)?);
    assert!(rt; !tags.insert(0x10, 2)?);
    assert_eq!(rt; tags.number_of(0x10), Some(1));
    let mut turns = Turns::new(rt.alloc());
    turns.add(1)?;
    turns.add(2)?;
    turns.turn();
    Ok(())
}

#[test]
fn an_association_is_found_by_its_tag_and_its_host(rt: HostRuntime) -> Result<(), Fail> {
    let host = Host::new(&[10, 0, 0, 2]).ok_or("a host")?;
    let another = Host::new(&[10, 0, 0, 3]).ok_or("a host")?;
    let peer = Peer::new(host, 40_001, 5_001);
    let moved = Peer::new(host, 40_002, 5_001);
    let elsewhere = Peer::new(another, 40_001, 5_001);
    let mut table: Table<u8> = Table::new(rt.alloc());
    let first = Entry {
        peer,
        own: 0x10,
        bar: 100,
        current: true,
        end: 7,
    };
    assert_eq!(rt; table.open(first)?, Some(1));
    let second = Entry {
        peer,
        own: 0x10,
        bar: 100,
        current: true,
        end: 8,
    };
    assert_eq!(rt; table.open(second)?, None);
    assert_eq!(rt; table.find(0x10, &moved, Source::Claimed), Some(1));
    assert_eq!(rt; table.find(0x10, &elsewhere, Source::Claimed), None);
    assert_eq!(rt; table.find(0x10, &elsewhere, Source::Proved), Some(1));
    let mut peers = ByPeer::new(rt.alloc());
    peers.put(&peer, 1)?;
    assert_eq!(rt; peers.number_with(&peer), Some(1));
    assert_eq!(rt; peers.number_with(&moved), None);
    Ok(())
}
