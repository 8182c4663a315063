//! SACK: which TSNs a receiver has received (RFC 9260, 3.3.4).

ghost use Rattle.std.specs.Prelude.{◌≡◌, ◌↔◌, ◌+◌, ◌≤◌, true, ◌++◌, IsTrue, IsOk, OnOk, OnErr, vec_len, vec_capacity};
ghost use Rattle.sctp_model.specs.wire.Chunk as meaning;
ghost use Rattle.sctp_wire.specs.ChunkTree.{sack_meaning};
ghost use Rattle.sctp_wire.specs.Layouts.{Fits};
ghost use Rattle.sctp_wire.specs.chunks.Sack.{is_sack_value, sack_at};
ghost use Rattle.sctp_wire.specs.Writes.{written};
ghost use Rattle.sctp_wire.specs.inner.AtOnce.{sack_head};

use crate::codes::{LONGEST, SACK, SACK_HEADER};
use crate::lists::{Blocks, Tsns};
use crate::numbers::{append, append_list, make_room, read_u16, read_u32};
use sctp_values::NoMemory;

/// A SACK chunk.
#[derive(Drop)]
pub struct Sack<'a> {
    /// The cumulative TSN: all TSNs up to this one were received.
    pub cumulative: u32,
    /// The space left in the receive buffer, in bytes (a_rwnd).
    pub rwnd: u32,
    /// The runs of TSNs received above the cumulative one.
    pub blocks: Blocks<'a>,
    /// The TSNs received more than once.
    pub duplicates: Tsns<'a>,
}

/// Whether the length is that of the two lists that are counted.
pub(crate) fn is_sack(value: &[u8]) -> bool
    ensures { result ≡ is_sack_value value.now }
{
    if value.len() < 12 {
        return false;
    }
    let blocks = usize::from(read_u16(&value[8..]));
    let duplicates = usize::from(read_u16(&value[10..]));
    value.len() == 12 + 4 * (blocks + duplicates)
}

/// Whether the length of a SACK fits 16 bits.
pub(crate) fn sack_fits(sack: &Sack<'_>) -> bool
    ensures { IsTrue result ↔ Fits (meaning.Sack (sack_meaning sack.now)) }
{
    let (_cumulative, _rwnd) = (sack.cumulative, sack.rwnd);
    sack.blocks.len() + sack.duplicates.len() <= (LONGEST - SACK_HEADER) / 4
}

/// SACK's value (RFC 9260, 3.3.4).
///
/// | at | size | field |
/// |---|---|---|
/// | 0 | 4 | cumulative TSN |
/// | 4 | 4 | a_rwnd |
/// | 8 | 2 | number of gap ack blocks |
/// | 10 | 2 | number of duplicate TSNs |
/// | 12 | 4 each | gap ack blocks: start 2, end 2 |
/// | after them | 4 each | duplicate TSNs |
#[tactic(auto, unfolding(crate::specs::chunks::Sack::sack_at))]
pub(crate) fn read_sack(value: &[u8]) -> Sack<'_>
    requires { is_sack_value value.now ≡ true }
    ensures { sack_meaning result ≡ sack_at value.now }
{
    // First, so that this is the only test of the numbers' length.
    let lists = &value[12..];
    let (blocks, duplicates) = lists.split_at(4 * usize::from(read_u16(&value[8..])));
    Sack {
        cumulative: read_u32(value),
        rwnd: read_u32(&value[4..]),
        blocks: Blocks::new(blocks),
        duplicates: Tsns::new(duplicates),
    }
}

/// Appends a SACK: its header and numbers at once, then its lists.
///
/// # Errors
/// `NoMemory` if allocation fails; `out` is then unchanged.
pub(crate) fn write_sack(out: &mut Vec<u8>, sack: &Sack<'_>) -> Result<(), NoMemory>
    requires { Fits (meaning.Sack (sack_meaning sack.now)) }
    ensures written { OnOk result (out.new.items ≡ out.old.items ++ written (meaning.Sack (sack_meaning sack.now))) }
    ensures refused { OnErr result (out.new.items ≡ out.old.items) }
    ensures memory { vec_len out.old + meaning.size_of_chunk (meaning.Sack (sack_meaning sack.now)) ≤ vec_capacity out.old → IsOk result }
    ensures capacity { vec_capacity out.old ≤ vec_capacity out.new }
{
    let size = SACK_HEADER + 4 * (sack.blocks.len() + sack.duplicates.len());
    make_room(out, size)?;
    append(out, &sack_head(sack));
    append_list(out, sack.blocks.bytes());
    append_list(out, sack.duplicates.bytes());
    Ok(())
}

/// A SACK's header and numbers.
#[tactic(auto, unfolding(sctp_model::specs::numbers::Numbers::u16_bytes, sctp_model::specs::numbers::Numbers::u32_bytes))]
fn sack_head(sack: &Sack<'_>) -> [u8; SACK_HEADER]
    requires { Fits (meaning.Sack (sack_meaning sack.now)) }
    ensures { result ≡ sack_head (sack_meaning sack.now) }
{
    let (blocks, duplicates) = (sack.blocks.len(), sack.duplicates.len());
    let [high, low] = ((SACK_HEADER + 4 * (blocks + duplicates)) as u16).to_be_bytes();
    let [a, b, c, d] = sack.cumulative.to_be_bytes();
    let [e, f, g, h] = sack.rwnd.to_be_bytes();
    let [i, j] = (blocks as u16).to_be_bytes();
    let [k, l] = (duplicates as u16).to_be_bytes();
    [SACK, 0, high, low, a, b, c, d, e, f, g, h, i, j, k, l]
}
