//! DATA: user data with a stream sequence number (RFC 9260, 3.3.1).

ghost use Rattle.std.specs.Prelude.{◌≡◌, ◌↔◌, ◌+◌, ◌≤◌, ◌++◌, IsTrue, IsOk, OnOk, OnErr, length, vec_len, vec_capacity};
ghost use Rattle.sctp_model.specs.wire.Chunk as meaning;
ghost use Rattle.sctp_wire.specs.ChunkTree.{piece_meaning};
ghost use Rattle.sctp_wire.specs.Layouts.{Fits};
ghost use Rattle.sctp_wire.specs.chunks.Data.{is_data_value, data_at};
ghost use Rattle.sctp_wire.specs.Writes.{written};
ghost use Rattle.sctp_wire.specs.inner.AtOnce.{data_head};

use crate::chunks::flags::is_set;
use crate::chunks::piece::{Piece, data_flags};
use crate::codes::{BEGIN, DATA, DATA_HEADER, END, IMMEDIATE, LONGEST, UNORDERED};
use crate::numbers::{read_u16, read_u32, write_padded};
use sctp_values::NoMemory;

/// Whether the stream sequence number and the length of a DATA fit 16 bits.
pub(crate) fn data_fits(piece: &Piece<'_>) -> bool
    ensures { IsTrue result ↔ Fits (meaning.Data (piece_meaning piece.now)) }
{
    let (_tsn, _stream, _word) = (piece.tsn, piece.stream, piece.word);
    piece.number <= u32::from(u16::MAX) && piece.bytes.len() <= LONGEST - DATA_HEADER
}

/// Whether a value has the layout.
pub(crate) fn is_data(value: &[u8]) -> bool
    ensures { result ≡ is_data_value value.now }
{
    value.len() >= 12
}

/// DATA's value (RFC 9260, 3.3.1).
///
/// | at | size | field |
/// |---|---|---|
/// | 0 | 4 | TSN |
/// | 4 | 2 | stream |
/// | 6 | 2 | stream sequence number |
/// | 8 | 4 | payload protocol identifier |
/// | 12 | any | data |
#[tactic(auto, unfolding(crate::specs::chunks::Data::data_at))]
pub(crate) fn read_data(flags: u8, value: &[u8]) -> Piece<'_>
    requires { 12 ≤ length value.now }
    ensures { piece_meaning result ≡ data_at flags value.now }
{
    // First, so that this one test of the length is the only one.
    let bytes = &value[12..];
    Piece {
        immediate: is_set(flags, IMMEDIATE),
        unordered: is_set(flags, UNORDERED),
        begin: is_set(flags, BEGIN),
        end: is_set(flags, END),
        tsn: read_u32(value),
        stream: read_u16(&value[4..]),
        number: u32::from(read_u16(&value[6..])),
        word: read_u32(&value[8..]),
        bytes,
    }
}

/// Appends a DATA: its header and numbers at once, then the data and its padding.
///
/// # Errors
/// `NoMemory` if allocation fails; `out` is then unchanged.
#[inline(always)]
pub fn write_data(out: &mut Vec<u8>, piece: &Piece<'_>) -> Result<(), NoMemory>
    requires { Fits (meaning.Data (piece_meaning piece.now)) }
    ensures written { OnOk result (out.new.items ≡ out.old.items ++ written (meaning.Data (piece_meaning piece.now))) }
    ensures refused { OnErr result (out.new.items ≡ out.old.items) }
    ensures memory { vec_len out.old + meaning.size_of_chunk (meaning.Data (piece_meaning piece.now)) ≤ vec_capacity out.old → IsOk result }
    ensures capacity { vec_capacity out.old ≤ vec_capacity out.new }
{
    write_padded(out, &data_head(piece), piece.bytes)
}

/// A DATA's header and numbers.
#[tactic(auto, unfolding(sctp_model::specs::numbers::Numbers::u16_bytes, sctp_model::specs::numbers::Numbers::u32_bytes))]
fn data_head(piece: &Piece<'_>) -> [u8; 16]
    requires { Fits (meaning.Data (piece_meaning piece.now)) }
    ensures { result ≡ data_head (piece_meaning piece.now) }
{
    let flags = data_flags(piece);
    let [high, low] = ((DATA_HEADER + piece.bytes.len()) as u16).to_be_bytes();
    let [a, b, c, d] = piece.tsn.to_be_bytes();
    let [e, f] = piece.stream.to_be_bytes();
    let [g, h] = (piece.number as u16).to_be_bytes();
    let [i, j, k, l] = piece.word.to_be_bytes();
    [DATA, flags, high, low, a, b, c, d, e, f, g, h, i, j, k, l]
}
