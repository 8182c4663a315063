//! Tests of what a packet's bytes say, read without an endpoint.

use sctp_endpoint::{AbortCause, PacketHeader, abort_cause, peek_packet};

/// An ABORT from port 5000 to port 5001 with tag 9, and the user's reason "gone" (RFC 9260, 3.1, 3.3.7 and 3.3.10.12).
const ABORTED: [u8; 24] = [
    0x13, 0x88, 0x13, 0x89, 0, 0, 0, 9, 0x92, 0xd9, 0xa5, 0xe4, 6, 0, 0, 12, 0, 12, 0, 8, b'g',
    b'o', b'n', b'e',
];

#[test]
fn a_packet_says_whose_it_is_and_why_it_aborts(rt: HostRuntime) {
    let packet: &[u8] = &ABORTED;
    let header = PacketHeader {
        source: 5_000,
        destination: 5_001,
        tag: 9,
    };
    assert_eq!(rt; peek_packet(packet), Some(header));
    assert_eq!(rt; peek_packet(&packet[..12]), Some(header));
    assert_eq!(rt; peek_packet(&packet[..11]), None);
    let reason = AbortCause {
        code: 12,
        info: b"gone",
    };
    assert_eq!(rt; abort_cause(packet), Some(reason));
    assert_eq!(rt; abort_cause(&packet[..23]), None);
}
