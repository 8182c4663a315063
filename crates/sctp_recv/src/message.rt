//! A message as the user takes it.

ghost use Rattle.std.specs.Prelude.{◌≡◌, ◌-◌, ◌^◌, ◌++◌, ◌+◌, ◌≤◌, ◌<◌, min, List, length, map, take, drop, vec_len, vec_capacity, IsOk, OnOk, OnErr, IfOk, IfErr};
ghost use Rattle.sctp_model.specs.numbers.Lists.{joined};
ghost use Rattle.sctp_recv.specs.Parts.{text_of_parts, bytes_of};
ghost use Rattle.sctp_recv.specs.HandedOf.{message_bytes, handed_of};
ghost use Rattle.sctp_model.specs.messages.Format.{Format};
ghost use Rattle.sctp_model.specs.messages.Pieces.{Piece};
ghost use Rattle.sctp_model.specs.receiver.Receiving.{message_of};
ghost use Rattle.sctp_recv.specs.Fields.{lane_at};
ghost use Rattle.sctp_chains.specs.WholeOf.{IsMadeOf};

use sctp_chains::{Fragments, Whole};
use sctp_values::{Kind, NoMemory};

/// A complete message that was received, with its fragments as they were received.
#[derive(Debug, PartialEq, Drop)]
pub struct Message {
    pub(crate) first: u64,
    /// The stream that it was received on, from 0.
    pub stream: u16,
    /// Whether it was sent as ordered or as unordered.
    pub ordered: bool,
    /// The payload protocol identifier.
    pub payload_id: u32,
    /// Its number among the messages of its stream and kind, from 0; None for an unordered message under DATA.
    pub number: Option<u64>,
    pub(crate) parts: Fragments,
}

impl Message {
    /// The number of its bytes, 2^64 - 1 if there are more.
    pub fn len(&self) -> usize
        ensures { result ≡ min (length (message_bytes self.now)) (2 ^ 64 - 1) }
    {
        match &self.parts {
            Fragments::One([part]) => part.len(),
            Fragments::Many(parts) => len_of(parts),
        }
    }

    /// The data of its fragments, first to last, as they were received.
    pub fn parts(&self) -> &[Vec<u8>]
        ensures { joined (map bytes_of result.now) ≡ message_bytes self.now }
    {
        self.parts.all()
    }

    /// Appends its bytes to `out`.
    ///
    /// # Errors
    /// Allocation failed, and nothing was appended.
    #[tactic(auto, using(crate::proofs::PartLemmas::texts))]
    pub fn copy_to(&self, out: &mut Vec<u8>) -> Result<(), NoMemory>
        ensures copied { OnOk result (out.new.items ≡ out.old.items ++ message_bytes self.now) }
        ensures refused { OnErr result (out.new.items ≡ out.old.items) }
        ensures memory { vec_len out.old + length (message_bytes self.now) ≤ vec_capacity out.old → IsOk result }
    {
        let parts = self.parts();
        let before = out.len();
        for part in parts {
            if out.extend_from_slice(part).is_err() {
                out.truncate(before);
                return Err(NoMemory);
            }
        }
        Ok(())
    }

    /// Copies its bytes to the beginning of a buffer, and returns how many they are. The rest of the buffer stays as it is.
    ///
    /// # Errors
    /// The buffer is too small: nothing is written, and the error is how many bytes it must have.
    #[tactic(auto, using(crate::proofs::PartLemmas::texts))]
    pub fn copy_into(&self, room: &mut [u8]) -> Result<usize, usize>
        ensures copied { IfOk result (λ many. (many ≡ length (message_bytes self.now)) × (room.new ≡ message_bytes self.now ++ drop many room.old)) }
        ensures wanted { IfErr result (λ many. (many ≡ min (length (message_bytes self.now)) (2 ^ 64 - 1)) × (length room.old < many)) }
        ensures refused { OnErr result (room.new ≡ room.old) }
    {
        let wanted = self.len();
        if room.len() < wanted {
            return Err(wanted);
        }
        let parts = self.parts();
        let mut at: usize = 0;
        for part in parts {
            put_part(room, at, part);
            at += part.len();
        }
        Ok(at)
    }
}

/// The number of bytes of these parts, 2^64 - 1 if there are more.
#[tactic(auto, using(crate::proofs::PartLemmas::texts))]
fn len_of(parts: &[Vec<u8>]) -> usize
    ensures { result ≡ min (length (text_of_parts parts.now)) (2 ^ 64 - 1) }
{
    let mut sum: usize = 0;
    for part in parts {
        sum = sum.saturating_add(part.len());
    }
    sum
}

/// Copies the data of a part to an offset of a buffer in which it fits.
fn put_part(room: &mut [u8], at: usize, part: &[u8])
    requires { at + length part.now ≤ length room.old }
    ensures size { length room.new ≡ length room.old }
    ensures put { take (at + length part.now) room.new ≡ take at room.old ++ part.now }
    ensures behind { drop (at + length part.now) room.new ≡ drop (at + length part.now) room.old }
{
    room[at..at + part.len()].copy_from_slice(part);
}

/// A complete message as the user takes it.
pub(crate) fn message_of(whole: Whole, stream: u16, kind: Kind) -> Message
    ensures { (f : Format) (x : Piece) (xs : List Piece) → IsMadeOf f whole x xs → x.lane ≡ lane_at stream kind → handed_of result ≡ message_of f x xs }
{
    Message {
        first: whole.first,
        stream,
        ordered: matches!(kind, Kind::Ordered),
        number: whole.number,
        payload_id: whole.payload_id,
        parts: whole.parts,
    }
}
