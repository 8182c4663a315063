//! I-DATA: user data with a message identifier (RFC 8260, 2.1).

ghost use Rattle.std.specs.Prelude.{◌≡◌, ◌↔◌, ◌+◌, ◌≤◌, ◌++◌, IsTrue, IsOk, OnOk, OnErr, length, vec_len, vec_capacity};
ghost use Rattle.sctp_model.specs.wire.Chunk as meaning;
ghost use Rattle.sctp_wire.specs.ChunkTree.{piece_meaning};
ghost use Rattle.sctp_wire.specs.Layouts.{Fits};
ghost use Rattle.sctp_wire.specs.chunks.IData.{is_i_data_value, i_data_at};
ghost use Rattle.sctp_wire.specs.Writes.{written};
ghost use Rattle.sctp_wire.specs.inner.AtOnce.{i_data_head};

use crate::chunks::flags::is_set;
use crate::chunks::piece::{Piece, data_flags};
use crate::codes::{BEGIN, END, I_DATA, I_DATA_HEADER, IMMEDIATE, LONGEST, UNORDERED};
use crate::numbers::{read_u16, read_u32, write_padded};
use sctp_values::NoMemory;

/// Whether the length of an I-DATA fits 16 bits.
pub(crate) fn i_data_fits(piece: &Piece<'_>) -> bool
    ensures { IsTrue result ↔ Fits (meaning.IData (piece_meaning piece.now)) }
{
    let (_tsn, _stream) = (piece.tsn, piece.stream);
    let (_number, _word) = (piece.number, piece.word);
    piece.bytes.len() <= LONGEST - I_DATA_HEADER
}

/// Whether a value has the layout.
pub(crate) fn is_i_data(value: &[u8]) -> bool
    ensures { result ≡ is_i_data_value value.now }
{
    value.len() >= 16
}

/// I-DATA's value (RFC 8260, 2.1).
///
/// | at | size | field |
/// |---|---|---|
/// | 0 | 4 | TSN |
/// | 4 | 2 | stream |
/// | 6 | 2 | reserved |
/// | 8 | 4 | message identifier |
/// | 12 | 4 | payload protocol identifier if B is set, else fragment sequence number |
/// | 16 | any | data |
#[tactic(auto, unfolding(crate::specs::chunks::IData::i_data_at))]
pub(crate) fn read_i_data(flags: u8, value: &[u8]) -> Piece<'_>
    requires { 16 ≤ length value.now }
    ensures { piece_meaning result ≡ i_data_at flags value.now }
{
    // First, so that this one test of the length is the only one.
    let bytes = &value[16..];
    Piece {
        immediate: is_set(flags, IMMEDIATE),
        unordered: is_set(flags, UNORDERED),
        begin: is_set(flags, BEGIN),
        end: is_set(flags, END),
        tsn: read_u32(value),
        stream: read_u16(&value[4..]),
        number: read_u32(&value[8..]),
        word: read_u32(&value[12..]),
        bytes,
    }
}

/// Appends an I-DATA: its header and numbers at once, then the data and its padding.
///
/// # Errors
/// `NoMemory` if allocation fails; `out` is then unchanged.
#[inline(always)]
pub fn write_i_data(out: &mut Vec<u8>, piece: &Piece<'_>) -> Result<(), NoMemory>
    requires { Fits (meaning.IData (piece_meaning piece.now)) }
    ensures written { OnOk result (out.new.items ≡ out.old.items ++ written (meaning.IData (piece_meaning piece.now))) }
    ensures refused { OnErr result (out.new.items ≡ out.old.items) }
    ensures memory { vec_len out.old + meaning.size_of_chunk (meaning.IData (piece_meaning piece.now)) ≤ vec_capacity out.old → IsOk result }
    ensures capacity { vec_capacity out.old ≤ vec_capacity out.new }
{
    write_padded(out, &i_data_head(piece), piece.bytes)
}

/// An I-DATA's header and numbers, its reserved bits zero.
#[tactic(auto, unfolding(sctp_model::specs::numbers::Numbers::u16_bytes, sctp_model::specs::numbers::Numbers::u32_bytes))]
fn i_data_head(piece: &Piece<'_>) -> [u8; 20]
    requires { Fits (meaning.IData (piece_meaning piece.now)) }
    ensures { result ≡ i_data_head (piece_meaning piece.now) }
{
    let flags = data_flags(piece);
    let [high, low] = ((I_DATA_HEADER + piece.bytes.len()) as u16).to_be_bytes();
    let [a, b, c, d] = piece.tsn.to_be_bytes();
    let [e, f] = piece.stream.to_be_bytes();
    let [g, h, i, j] = piece.number.to_be_bytes();
    let [k, l, m, n] = piece.word.to_be_bytes();
    [
        I_DATA, flags, high, low, a, b, c, d, e, f, 0, 0, g, h, i, j, k, l, m, n,
    ]
}
