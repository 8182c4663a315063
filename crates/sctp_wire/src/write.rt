//! Writing chunks (RFC 9260, 3.2).

ghost use Rattle.std.specs.Prelude.{◌≡◌, ◌+◌, ◌≤◌, [], ◌∷◌, ◌++◌, false, length, vec_len, vec_capacity, IsOk, OnOk, OnErr};
ghost use Rattle.sctp_model.specs.wire.Chunk.{size_of_chunk};
ghost use Rattle.sctp_wire.specs.ChunkTree.{chunk_meaning};
ghost use Rattle.sctp_wire.specs.Layouts.{Fits};
ghost use Rattle.sctp_wire.specs.Reads.{header, Reads};
ghost use Rattle.sctp_wire.specs.Writes.{written, Writes};
ghost use Rattle.sctp_wire.specs.inner.AtOnce.{is_at_once};

use crate::chunk::{Chunk, append_value, flags_of, kind_of, length_of};
use crate::chunks::i_data::write_i_data;
use crate::chunks::sack::write_sack;
use crate::chunks::user_data::write_data;
use crate::numbers::{append, append_zeros, padded};
use sctp_values::NoMemory;

/// Appends the bytes of a chunk that fits, with its padding: unused flags, reserved bits and padding are zero.
///
/// # Errors
/// `NoMemory` if allocation fails; `out` is then unchanged.
pub fn write_chunk(chunk: &Chunk<'_>, out: &mut Vec<u8>) -> Result<(), NoMemory>
    requires { Fits (chunk_meaning chunk.now) }
    ensures written { OnOk result (out.new.items ≡ out.old.items ++ written (chunk_meaning chunk.now)) }
    ensures writes { OnOk result (Writes (written (chunk_meaning chunk.now)) (chunk_meaning chunk.now ∷ [])) }
    // Parsing these bytes alone gives the chunk.
    ensures reads { OnOk result (Reads (written (chunk_meaning chunk.now)) (chunk_meaning chunk.now ∷ [])) }
    ensures refused { OnErr result (out.new.items ≡ out.old.items) }
    // It can't fail if there was capacity for them.
    ensures memory { vec_len out.old + length (written (chunk_meaning chunk.now)) ≤ vec_capacity out.old
        → IsOk result }
    // Capacity isn't lost.
    ensures capacity { vec_capacity out.old ≤ vec_capacity out.new }
{
    match chunk {
        Chunk::Data(piece) => write_data(out, piece),
        Chunk::IData(piece) => write_i_data(out, piece),
        Chunk::Sack(sack) => write_sack(out, sack),
        other => write_by_parts(out, other),
    }
}

/// Appends the bytes of a chunk other than DATA, I-DATA and SACK: header, value and padding.
fn write_by_parts(out: &mut Vec<u8>, chunk: &Chunk<'_>) -> Result<(), NoMemory>
    requires fits { Fits (chunk_meaning chunk.now) }
    requires other { is_at_once (chunk_meaning chunk.now) ≡ false }
    ensures written { OnOk result (out.new.items ≡ out.old.items ++ written (chunk_meaning chunk.now)) }
    ensures refused { OnErr result (out.new.items ≡ out.old.items) }
    ensures memory { vec_len out.old + size_of_chunk (chunk_meaning chunk.now) ≤ vec_capacity out.old → IsOk result }
    ensures capacity { vec_capacity out.old ≤ vec_capacity out.new }
{
    let size = length_of(chunk);
    let whole = padded(size);
    out.reserve(whole).map_err(|_| NoMemory)?;
    append_header(out, kind_of(chunk), flags_of(chunk), size as u16);
    append_value(out, chunk);
    append_zeros(out, whole - size);
    Ok(())
}

/// Appends type, flags and length.
#[tactic(auto, unfolding(sctp_model::specs::numbers::Numbers::u16_bytes))]
fn append_header(out: &mut Vec<u8>, kind: u8, flags: u8, size: u16)
    requires { vec_len out.old + 4 ≤ vec_capacity out.old }
    ensures items { out.new.items ≡ out.old.items ++ header kind flags size }
    ensures len { vec_len out.new ≡ vec_len out.old + 4 }
    ensures room { vec_capacity out.old ≤ vec_capacity out.new }
{
    let [high, low] = size.to_be_bytes();
    append(out, &[kind, flags, high, low]);
}
