//! The first chunk of bytes: what is checked of it, and how it is separated from what follows (RFC 9260, 3.2).

ghost use Rattle.std.specs.Prelude.{◌≡◌, ◌==◌, ◌||◌, ◌<◌, ◌≤◌, ◌^◌, ◌∷◌, length, MatchOption, MatchResult, IfOk, None, Ok, Err};
ghost use Rattle.sctp_model.specs.wire.Chunk as meaning;
ghost use Rattle.sctp_wire.specs.ChunkTree.{piece_meaning, sack_meaning};
ghost use Rattle.sctp_wire.specs.FirstFault.{stated_length};
ghost use Rattle.sctp_wire.specs.Reading.{frame_at, chunk_at, AreChunks, chunks_of};
ghost use Rattle.sctp_wire.specs.Starts.{first_data, first_i_data, first_sack, starts_with_init, starts_reflected};
ghost use Rattle.sctp_wire.specs.inner.Frame.{IsWhole};
ghost use Rattle.sctp_wire.specs.inner.Standing.{first_of, IsParted};

use crate::body::{has_layout, has_list};
use crate::chunks::flags::is_set;
use crate::chunks::i_data::read_i_data;
use crate::chunks::piece::Piece;
use crate::chunks::sack::{Sack, read_sack};
use crate::chunks::user_data::read_data;
use crate::codes::{ABORT, DATA, I_DATA, INIT, REFLECTED, SACK, SHUTDOWN_COMPLETE};
use crate::fault::Reason;
use crate::numbers::{padded, read_u16};

/// What follows the first chunk, or what is wrong with it.
#[tactic(auto, unfolding(crate::specs::Reading::chunk_at))]
pub(crate) fn behind_first(bytes: &[u8]) -> Result<&[u8], Reason>
    ensures { MatchResult result (λ behind. chunk_at bytes.now ≡ Ok (first_of bytes.now, behind.now))
        (λ reason. chunk_at bytes.now ≡ Err reason) }
{
    let size = frame(bytes)?;
    let value = &bytes[4..size];
    if !has_layout(bytes[0], value) {
        return Err(Reason::HasOtherBody);
    }
    if !has_list(bytes[0], value) {
        return Err(Reason::HasNoList);
    }
    Ok(&bytes[padded(size)..])
}

/// The value of the first of whole chunks, and what follows this one.
pub(crate) fn parted(chunks: &[u8]) -> (&[u8], &[u8])
    requires some { 0 < length chunks.now }
    requires chunks { AreChunks chunks.now }
    ensures { IsParted chunks.now result.0.now result.1.now }
{
    let size = stated_length(chunks);
    (&chunks[4..size], &chunks[padded(size)..])
}

/// The length field of the first chunk; its header's length is checked once.
#[inline(always)]
fn stated_length(bytes: &[u8]) -> usize
    requires { 4 ≤ length bytes.now }
    ensures exact { result ≡ stated_length bytes.now }
    ensures small { result < 2 ^ 16 }
{
    usize::from(read_u16(&bytes[..4][2..4]))
}

/// Whether the first of whole chunks is an INIT.
pub(crate) fn starts_with_init(chunks: &[u8]) -> bool
    requires { AreChunks chunks.now }
    ensures { result ≡ starts_with_init (chunks_of chunks.now) }
{
    if chunks.is_empty() {
        return false;
    }
    chunks[0] == INIT
}

/// Whether the first of whole chunks is an ABORT or a SHUTDOWN COMPLETE with the flag T.
#[inline(always)]
pub(crate) fn starts_reflected(chunks: &[u8]) -> bool
    requires { AreChunks chunks.now }
    ensures { result ≡ starts_reflected (chunks_of chunks.now) }
{
    if chunks.is_empty() {
        return false;
    }
    if has_reflected(chunks[0]) {
        return is_set(chunks[1], REFLECTED);
    }
    false
}

/// Whether the chunks of a type have the flag T.
fn has_reflected(kind: u8) -> bool
    ensures { result ≡ ((kind == ABORT) || (kind == SHUTDOWN_COMPLETE)) }
{
    kind == ABORT || kind == SHUTDOWN_COMPLETE
}

/// The first of whole chunks and what follows it, if it is a DATA.
pub(crate) fn split_data(chunks: &[u8]) -> Option<(Piece<'_>, &[u8])>
    requires { AreChunks chunks.now }
    ensures { MatchOption result (first_data (chunks_of chunks.now) ≡ None)
        (λ found. (chunks_of chunks.now ≡ meaning.Data (piece_meaning found.0) ∷ chunks_of found.1.now)
        × AreChunks found.1.now) }
{
    if chunks.is_empty() {
        return None;
    }
    if chunks[0] != DATA {
        return None;
    }
    let (value, behind) = parted(chunks);
    let piece = read_data(chunks[1], value);
    Some((piece, behind))
}

/// The first of whole chunks and what follows it, if it is an I-DATA.
pub(crate) fn split_i_data(chunks: &[u8]) -> Option<(Piece<'_>, &[u8])>
    requires { AreChunks chunks.now }
    ensures { MatchOption result (first_i_data (chunks_of chunks.now) ≡ None)
        (λ found. (chunks_of chunks.now ≡ meaning.IData (piece_meaning found.0) ∷ chunks_of found.1.now)
        × AreChunks found.1.now) }
{
    if chunks.is_empty() {
        return None;
    }
    if chunks[0] != I_DATA {
        return None;
    }
    let (value, behind) = parted(chunks);
    let piece = read_i_data(chunks[1], value);
    Some((piece, behind))
}

/// The first of whole chunks and what follows it, if it is a SACK.
#[inline(always)]
pub(crate) fn split_sack(chunks: &[u8]) -> Option<(Sack<'_>, &[u8])>
    requires { AreChunks chunks.now }
    ensures { MatchOption result (first_sack (chunks_of chunks.now) ≡ None)
        (λ found. (chunks_of chunks.now ≡ meaning.Sack (sack_meaning found.0) ∷ chunks_of found.1.now)
        × AreChunks found.1.now) }
{
    if chunks.is_empty() {
        return None;
    }
    if chunks[0] != SACK {
        return None;
    }
    let (value, behind) = parted(chunks);
    let sack = read_sack(value);
    Some((sack, behind))
}

/// The length field of the first chunk, if the header, the length and the padding are right; else what is wrong.
#[tactic(auto, unfolding(crate::specs::Reading::frame_at))]
fn frame(bytes: &[u8]) -> Result<usize, Reason>
    ensures exact { result ≡ frame_at bytes.now }
    ensures whole { IfOk result
        (λ size. IsWhole bytes.now × (size ≡ stated_length bytes.now) × (size < 2 ^ 16)) }
{
    if bytes.len() < 4 {
        return Err(Reason::IsCut);
    }
    let size = usize::from(read_u16(&bytes[2..]));
    if size < 4 {
        return Err(Reason::HasShortLength);
    }
    if bytes.len() < size {
        return Err(Reason::IsCut);
    }
    if bytes.len() < padded(size) {
        return Err(Reason::LacksPadding);
    }
    Ok(size)
}
