//! The trait of a format, with its laws.

use sctp_values::Kind;
use sctp_wire::{Chunk, Forward, SkipForm};

/// A format of user data: DATA or I-DATA.
///
/// Sender and receiver are generic over it. Numbers of messages and indexes of TSNs are counts, which never wrap; the wire values are
/// in chunks alone.
pub trait Framing {
    ghost use Rattle.std.specs.Prelude.{◌≡◌};
    ghost use Rattle.sctp_model.specs.messages.Format.{Format, is_numbered};
    ghost use Rattle.sctp_model.specs.messages.Framing.{header_of, wire_number, takes_turns, number_near, place_in, begins_in, payload_in, forward_chunk, lets_go};
    ghost use Rattle.sctp_model.specs.messages.Pieces.{word_of};
    ghost use Rattle.sctp_values.specs.Meanings.{kind_meaning};
    ghost use Rattle.sctp_wire.specs.ChunkTree.{forward_meaning, chunk_meaning};
    ghost use Rattle.sctp_framing.specs.SkipForms.{skip_form};
    ghost use Rattle.sctp_model.specs.messages.FormatLaws.{WholeLaw, SkipLaw};

    // Which format it is.
    ghost format: { Format };

    // ---- what a sender writes

    /// The bytes of a chunk before its data, 16 or 20 (RFC 9260, 3.3.1; RFC 8260, 2.1).
    fn header() -> usize
        ensures { result ≡ header_of format };

    /// The wire value of a message's number: an SSN, 0 for an unordered DATA, or a MID (RFC 9260, 6.5; RFC 8260, 2.1).
    fn wire_number(kind: Kind, number: u64) -> u32
        ensures { result ≡ wire_number format (kind_meaning kind) number };

    /// The last word of a fragment's header: the payload protocol identifier, or, after an I-DATA message's first fragment, the fragment sequence
    /// number (RFC 9260, 3.3.1; RFC 8260, 2.1).
    fn wire_word(payload: u32, fragment: u32) -> u32
        ensures { result ≡ word_of format payload fragment };

    /// Whether streams take turns, a fragment each (RFC 8260, 2.2.2 and 3.2). Else all fragments of a message get consecutive TSNs
    /// (RFC 9260, 6.9).
    fn takes_turns() -> bool
        ensures { result ≡ takes_turns format };

    /// Whether messages of this kind are numbered: a FORWARD-TSN or I-FORWARD-TSN lists these, and a receiver files them by number.
    /// Others, the unordered ones of DATA, are known by their TSNs alone (RFC 9260, 3.3.1; RFC 8260, 2.1).
    fn is_numbered(kind: Kind) -> bool
        ensures { result ≡ is_numbered format (kind_meaning kind) };

    /// The chunk that skips abandoned messages: a FORWARD-TSN or an I-FORWARD-TSN (RFC 3758, 3.2; RFC 8260, 2.3.1).
    fn forward_chunk(forward: Forward<'_>) -> Chunk<'_>
        ensures { chunk_meaning result ≡ forward_chunk format (forward_meaning forward.entry) };

    /// The layout of the entries of that chunk, 4 or 8 bytes each (RFC 3758, 3.2; RFC 8260, 2.3.1).
    fn skip_form() -> SkipForm
        ensures { result ≡ skip_form format };

    // ---- what a receiver reads

    /// The number of a message from its wire value, the one near a reference; of a chunk, or of an entry of a FORWARD-TSN or I-FORWARD-TSN
    /// (RFC 9260, 2.6 and 6.5; RFC 8260, 2.1).
    ///
    /// None if the format has no number for this kind, if no count is near, and for a count of 2^64 - 1.
    fn number_near(kind: Kind, wire: u32, reference: u64) -> Option<u64>
        ensures { result ≡ number_near format (kind_meaning kind) wire reference };

    /// What increases by one from each fragment of a message to the next: the index of its TSN, or the fragment number (RFC 9260, 6.9;
    /// RFC 8260, 2.1).
    fn place(index: u64, begin: bool, word: u32) -> u64
        ensures { result ≡ place_in format index begin word };

    /// Whether a chunk with this flag B and this last word begins a message: if it has B or, under I-DATA, is fragment 0 (RFC 9260, 3.3.1;
    /// RFC 8260, 2.1).
    fn begins(begin: bool, word: u32) -> bool
        ensures { result ≡ begins_in format begin word };

    /// The payload protocol identifier in a message's first chunk; 0 of an I-DATA without B (RFC 9260, 3.3.1; RFC 8260, 2.1).
    fn payload(begin: bool, word: u32) -> u32
        ensures { result ≡ payload_in format begin word };

    /// Whether a FORWARD-TSN or I-FORWARD-TSN discards an unordered chunk that is kept, if its message isn't complete: under DATA if its index is
    /// at most `jump`, the largest index skipped, under I-DATA if its number is below `skip`, which is one past the largest number skipped
    /// (RFC 3758, 3.6; RFC 8260, 2.3.1).
    fn lets_go(index: u64, number: Option<u64>, jump: u64, skip: u64) -> bool
        ensures { result ≡ lets_go format index number jump skip };

    // ---- laws

    // Of an orderly plan, chunks are complete if and only if they are all those of one message, and give its bytes and its payload id.
    ghost whole: { WholeLaw format };

    // What the FORWARD of an orderly plan discards is of an abandoned message, or of a message that is complete.
    ghost skipping: { SkipLaw format };
}
