//! Tests: messages by hand (RFC 8832, 5; RFC 8831, 6.6), broken ones, and what is written beside them.

use crate::{
    ACKNOWLEDGEMENT, Content, Control, ControlFault, OpenFault, Opening, Reliability, read_content,
    read_control, write_open,
};
use std::test::Fail;

/// The OPEN of a reliable, ordered channel "chat".
const CHAT: [u8; 16] = [3, 0, 1, 0, 0, 0, 0, 0, 0, 4, 0, 0, 0x63, 0x68, 0x61, 0x74];

/// That of an unordered channel "ü" of the protocol "p", with three retransmissions at most.
const UMLAUT: [u8; 15] = [3, 0x81, 1, 0, 0, 0, 0, 3, 0, 2, 0, 1, 0xc3, 0xbc, 0x70];

/// The parameters of these two.
fn openings() -> [Opening<'static>; 2] {
    [
        Opening {
            label: &[0x63, 0x68, 0x61, 0x74],
            protocol: &[],
            ordered: true,
            reliability: Reliability::Reliable,
            priority: 256,
        },
        Opening {
            label: &[0xc3, 0xbc],
            protocol: &[0x70],
            ordered: false,
            reliability: Reliability::MaxRetransmits(3),
            priority: 256,
        },
    ]
}

#[test]
fn an_open_is_written_and_read(rt: HostRuntime) -> Result<(), Fail> {
    let [chat, umlaut] = openings();
    let bytes: Vec<u8> = write_open(rt.alloc(), &chat)?;
    assert_eq!(rt; bytes.as_slice(), &CHAT[..]);
    assert_eq!(rt; read_control(&CHAT), Ok(Control::Open(chat)));
    let bytes: Vec<u8> = write_open(rt.alloc(), &umlaut)?;
    assert_eq!(rt; bytes.as_slice(), &UMLAUT[..]);
    assert_eq!(rt; read_control(&UMLAUT), Ok(Control::Open(umlaut)));
    Ok(())
}

#[test]
fn other_messages_are_read(rt: HostRuntime) {
    assert_eq!(rt;
        read_control(&[ACKNOWLEDGEMENT]),
        Ok(Control::Acknowledgement)
    );
    assert_eq!(rt; read_control(&[2, 0]), Err(ControlFault::AckWithMore));
    assert_eq!(rt; read_control(&[]), Err(ControlFault::UnknownMessage));
    assert_eq!(rt; read_control(&[4]), Err(ControlFault::UnknownMessage));
    assert_eq!(rt; read_control(&CHAT[..15]), Err(ControlFault::OpenCutShort));
    assert_eq!(rt; read_control(&CHAT[..11]), Err(ControlFault::OpenCutShort));
    assert_eq!(rt;
        read_control(&[3, 3, 0, 0, 0, 0, 0, 0, 0, 0, 0, 0]),
        Err(ControlFault::UnknownType)
    );
    assert_eq!(rt; read_content(51, &[0x41]), Some(Content::Text(&[0x41])));
    assert_eq!(rt; read_content(56, &[0x41]), Some(Content::Text(&[])));
    assert_eq!(rt; read_content(57, &[0]), Some(Content::Binary(&[])));
    assert_eq!(rt; read_content(52, &[0]), None);
    assert_eq!(rt; OpenFault::TooLong == OpenFault::NoMemory, false);
}
