//! The format of DATA chunks (RFC 9260, 3.3.1): the fragments of a message have consecutive TSNs, and ordered messages have SSNs.

use crate::framing::Framing;
use crate::numbers::as_number;
use sctp_serial::{S16, Serial};
use sctp_values::Kind;
use sctp_wire::codes::DATA_HEADER;
use sctp_wire::{Chunk, Forward, SkipForm};

/// User data in DATA chunks.
#[derive(Clone, Copy, Debug)]
pub struct DataFraming;

impl Framing for DataFraming {
    ghost use Rattle.sctp_model.specs.messages.Format.{Plain};
    ghost use Rattle.sctp_safety.proofs.plan.WholeLaw.{whole_law};
    ghost use Rattle.sctp_safety.proofs.plan.SkipLaw.{skip_law};

    ghost format = { Plain };

    ghost whole = { whole_law Plain };

    ghost skipping = { skip_law Plain };

    fn header() -> usize {
        DATA_HEADER
    }

    fn wire_number(kind: Kind, number: u64) -> u32 {
        let ssn = u32::from(S16::of_count(number).0);
        match kind {
            Kind::Ordered => ssn,
            Kind::Unordered => 0,
        }
    }

    fn wire_word(payload: u32, _fragment: u32) -> u32 {
        payload
    }

    fn takes_turns() -> bool {
        false
    }

    fn is_numbered(kind: Kind) -> bool {
        matches!(kind, Kind::Ordered)
    }

    fn forward_chunk(forward: Forward<'_>) -> Chunk<'_> {
        Chunk::ForwardTsn(forward)
    }

    fn skip_form() -> SkipForm {
        SkipForm::Narrow
    }

    fn number_near(kind: Kind, wire: u32, reference: u64) -> Option<u64> {
        match kind {
            Kind::Ordered => as_number(S16::of_count(u64::from(wire)).near(reference)),
            Kind::Unordered => None,
        }
    }

    fn place(index: u64, _begin: bool, _word: u32) -> u64 {
        index
    }

    fn begins(begin: bool, _word: u32) -> bool {
        begin
    }

    fn payload(_begin: bool, word: u32) -> u32 {
        word
    }

    fn lets_go(index: u64, _number: Option<u64>, jump: u64, _skip: u64) -> bool {
        index <= jump
    }
}
