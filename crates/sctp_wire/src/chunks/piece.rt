//! What DATA and I-DATA have in common: the fields of a chunk of user data, and its four flags (RFC 9260, 3.3.1; RFC 8260, 2.1).

ghost use Rattle.std.specs.Prelude.{◌≡◌};
ghost use Rattle.sctp_wire.specs.ChunkTree.{piece_meaning};
ghost use Rattle.sctp_wire.specs.chunks.Piece.{data_flags};

use crate::chunks::flags::flag;
use crate::codes::{BEGIN, END, IMMEDIATE, UNORDERED};

/// A DATA or I-DATA chunk.
#[derive(Clone, Copy)]
pub struct Piece<'a> {
    /// I: the receiver should not delay the SACK.
    pub immediate: bool,
    /// U: the message is unordered.
    pub unordered: bool,
    /// B: the first fragment of its message.
    pub begin: bool,
    /// E: the last fragment of its message.
    pub end: bool,
    pub tsn: u32,
    pub stream: u16,
    /// DATA's stream sequence number, which has 16 bits, or I-DATA's message identifier.
    pub number: u32,
    /// The payload protocol identifier, or the fragment sequence number in an I-DATA without B.
    pub word: u32,
    /// The data; a chunk without data can be read and written here, and is refused by the receiver.
    pub bytes: &'a [u8],
}

/// The flags of DATA and I-DATA, unused ones zero.
pub(crate) fn data_flags(piece: &Piece<'_>) -> u8
    ensures { result ≡ data_flags (piece_meaning piece.now) }
{
    flag(IMMEDIATE, piece.immediate)
        + flag(UNORDERED, piece.unordered)
        + flag(BEGIN, piece.begin)
        + flag(END, piece.end)
}
