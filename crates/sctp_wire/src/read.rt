//! Parsing chunks: header, length, padding, layout and list of each are checked in this order, then which chunks are bundled
//! (RFC 9260, 3.2).

ghost use Rattle.std.specs.Prelude.{◌≡◌, ◌*◌, ◌==◌, ◌≤◌, length, MatchOption, MatchResult, IfOk, IfErr, List, ◌∷◌, Some, None};
ghost use Rattle.std.specs.Iterator.{YieldsFirstBy, item_count};
ghost use Rattle.sctp_model.specs.wire.Chunk.{ChunkMeaning};
ghost use Rattle.sctp_model.specs.wire.Chunk as meaning;
ghost use Rattle.sctp_wire.specs.ChunkTree.{chunk_meaning, piece_meaning, sack_meaning};
ghost use Rattle.sctp_wire.specs.FaultTree.{offset_of};
ghost use Rattle.sctp_wire.specs.FirstFault.{Faults};
ghost use Rattle.sctp_wire.specs.Reads.{Reads};
ghost use Rattle.sctp_wire.specs.Starts.{first_data, first_i_data, first_sack, starts_with_init, starts_reflected};

use crate::body::{read_seen, read_value};
use crate::chunk::Chunk;
use crate::chunks::piece::Piece;
use crate::chunks::sack::Sack;
use crate::codes::SACK;
use crate::fault::WireFault;
use crate::first::{
    behind_first, parted, split_data, split_i_data, split_sack, starts_reflected, starts_with_init,
};
use crate::places::found_by;
use std::marker::Model;

/// An iterator over the chunks of a packet, which are known to be right.
#[derive(Drop)]
pub struct Chunks<'a> {
    rest: &'a [u8],
}

impl<'a> Model for Chunks<'a> {
    ghost use Rattle.std.specs.Prelude.{List};
    ghost use Rattle.sctp_model.specs.wire.Chunk.{ChunkMeaning};

    ghost Value = { List ChunkMeaning };

    ghost use Rattle.sctp_wire.specs.Reading.{chunks_of, AreChunks};

    ghost view = { λ s. chunks_of s.rest.now };

    ghost invariant = { λ s. AreChunks s.rest.now };
}

impl<'a> Chunks<'a> {
    /// Whether no chunk is left.
    pub fn is_empty(&self) -> bool
        ensures { result ≡ (length self.now == 0) }
    {
        self.rest.is_empty()
    }

    /// Whether the next chunk is an INIT.
    pub fn starts_with_init(&self) -> bool
        ensures { result ≡ starts_with_init self.now }
    {
        starts_with_init(self.rest)
    }

    /// Whether the next chunk is an ABORT or a SHUTDOWN COMPLETE with the flag T (RFC 9260, 8.5.1).
    #[inline(always)]
    pub fn starts_reflected(&self) -> bool
        ensures { result ≡ starts_reflected self.now }
    {
        starts_reflected(self.rest)
    }

    /// A second iterator over the chunks that are left, for a caller that looks for one of them before it handles all.
    pub fn again(&self) -> Chunks<'a>
        ensures { result ≡ self.now }
    {
        Chunks { rest: self.rest }
    }

    /// Takes the next chunk if it is a DATA; any other is left.
    pub fn next_data(&mut self) -> Option<Piece<'a>>
        ensures { MatchOption result ((self.new ≡ self.old) × (first_data self.old ≡ None))
            (λ piece. self.old ≡ meaning.Data (piece_meaning piece) ∷ self.new) }
    {
        match split_data(self.rest) {
            Some((piece, behind)) => {
                self.rest = behind;
                Some(piece)
            }
            None => None,
        }
    }

    /// Takes the next chunk if it is an I-DATA; any other is left.
    pub fn next_i_data(&mut self) -> Option<Piece<'a>>
        ensures { MatchOption result ((self.new ≡ self.old) × (first_i_data self.old ≡ None))
            (λ piece. self.old ≡ meaning.IData (piece_meaning piece) ∷ self.new) }
    {
        match split_i_data(self.rest) {
            Some((piece, behind)) => {
                self.rest = behind;
                Some(piece)
            }
            None => None,
        }
    }

    /// Takes the next chunk if it is a SACK; any other is left.
    #[inline(always)]
    pub fn next_sack(&mut self) -> Option<Sack<'a>>
        ensures { MatchOption result ((self.new ≡ self.old) × (first_sack self.old ≡ None))
            (λ sack. self.old ≡ meaning.Sack (sack_meaning sack) ∷ self.new) }
    {
        match split_sack(self.rest) {
            Some((sack, behind)) => {
                self.rest = behind;
                Some(sack)
            }
            None => None,
        }
    }
}

impl<'a> Iterator for Chunks<'a> {
    type Item = Chunk<'a>;

    ghost next_gives = { YieldsFirstBy chunk_meaning (λ s. s) };

    ghost remaining = { item_count (λ s. s) };

    fn next(&mut self) -> Option<Chunk<'a>> {
        if self.rest.is_empty() {
            return None;
        }
        let (value, behind) = parted(self.rest);
        let (kind, flags) = (self.rest[0], self.rest[1]);
        self.rest = behind;
        // SACKs are frequent: they are read here, and the others apart.
        if kind == SACK {
            return Some(read_seen(value));
        }
        Some(read_value(kind, flags, value))
    }
}

/// The chunks in these bytes, one after another, each with its padding, and bundled only as they may be.
///
/// # Errors
/// The fault of the first chunk that is cut off, doesn't have its type's layout or has a broken list of parameters or causes, by
/// the first check that fails; if all are right, `NotAlone` at the first misplaced one.
pub fn read_chunks(bytes: &[u8]) -> Result<Chunks<'_>, WireFault>
    // It returns the chunks that the bytes are, or their fault.
    ensures exact { MatchResult result (λ chunks. Reads bytes.now chunks) (λ fault. Faults bytes.now fault) }
    // Each chunk has at least four bytes.
    ensures few { IfOk result (λ chunks. 4 * length chunks ≤ length bytes.now) }
    // A fault is within the bytes.
    ensures within { IfErr result (λ fault. offset_of fault ≤ length bytes.now) }
    // If the bytes are chunks, it is these.
    ensures chunks { (ms : List ChunkMeaning) → Reads bytes.now ms
        → MatchResult result (λ chunks. chunks ≡ ms) (λ _. ⊥) }
    // If they have a fault, it is this one.
    ensures fault { (f : WireFault) → Faults bytes.now f
        → MatchResult result (λ _. ⊥) (λ fault. fault ≡ f) }
{
    let mut rest = bytes;
    let mut misplaced = None;
    while !rest.is_empty() {
        let before = bytes.len() - rest.len();
        match behind_first(rest) {
            Ok(behind) => {
                misplaced = found_by(misplaced, rest[0], before, behind.len());
                rest = behind;
            }
            Err(reason) => return Err(reason.at(before)),
        }
    }
    match misplaced {
        Some(offset) => Err(WireFault::NotAlone { offset }),
        None => Ok(Chunks { rest: bytes }),
    }
}
