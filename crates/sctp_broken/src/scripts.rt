//! The steps until each packet is built that is broken afterwards: the closing script, a message abandoned between two others, and a message
//! abandoned in part.

use crate::step::Side::{A, B};
use crate::step::Step::{self, Abandon, Build, Connect, Deliver, Draw, Open, Send, Shutdown, Take};

/// The closing script: opening, `Hi`, its SACK, and closing; each packet is delivered twice.
pub const CLOSING: [Step; 30] = [
    Connect(7, 100),
    Build(A),
    Draw(9, 500),
    Deliver(A, 0),
    Deliver(A, 0),
    Deliver(B, 0),
    Deliver(B, 0),
    Build(A),
    Deliver(A, 1),
    Deliver(A, 1),
    Build(B),
    Deliver(B, 2),
    Deliver(B, 2),
    Send(A, b"Hi", 1),
    Build(A),
    Deliver(A, 2),
    Deliver(A, 2),
    Build(B),
    Deliver(B, 3),
    Deliver(B, 3),
    Take(B),
    Shutdown(A),
    Build(A),
    Deliver(A, 3),
    Deliver(A, 3),
    Build(B),
    Deliver(B, 4),
    Deliver(B, 4),
    Deliver(A, 4),
    Deliver(A, 4),
];

/// Three messages, of which the second arrives, and all are abandoned.
pub const GIVEN_UP: [Step; 15] = [
    Open,
    Send(A, b"a", 1),
    Build(A),
    Send(A, b"b", 1),
    Build(A),
    Send(A, b"c", 1),
    Build(A),
    Deliver(A, 1),
    Abandon(A, 1),
    Abandon(A, 2),
    Abandon(A, 3),
    Build(A),
    Deliver(A, 3),
    Build(B),
    Deliver(B, 0),
];

/// The bytes of the long message, which repeats them 15 times: chunks, so that a fragment cut shorter by its length leaves chunks after it. Read from
/// most of its words on they are chunks, too, with other effects.
const CHUNKS: [u8; 100] = [
    0x0b, 0, 0, 4, 0xbf, 0, 0, 4, 4, 0, 0, 8, 0x3f, 0, 0, 4, 8, 0, 0, 4, 9, 0, 0, 0x0c, 0, 6, 0, 8,
    0x7f, 0, 0, 4, 7, 0, 0, 8, 0, 0, 0, 0, 3, 0, 0, 0x10, 0, 0, 0, 5, 0, 1, 0, 0, 0, 0, 0, 0, 5, 0,
    0, 4, 0xc0, 0, 0, 0x0c, 0, 0, 0, 1, 0, 0, 0, 0, 0xff, 0, 0, 4, 0xc2, 0, 0, 0x10, 0, 0, 0, 1, 0,
    0, 0, 0, 0, 0, 0, 0, 6, 0, 0, 4, 0x0b, 0, 0, 4,
];

/// A message of three fragments as I-DATA, abandoned when two of them have arrived; then another one.
pub const IN_PART: [Step; 14] = [
    Open,
    Send(A, &CHUNKS, 15),
    Build(A),
    Build(A),
    Deliver(A, 0),
    Deliver(A, 1),
    Build(B),
    Deliver(B, 0),
    Abandon(A, 1),
    Build(A),
    Deliver(A, 2),
    Send(A, b"a", 1),
    Build(A),
    Deliver(A, 3),
];
