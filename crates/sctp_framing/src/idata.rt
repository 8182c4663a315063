//! The format of I-DATA chunks (RFC 8260, 2.1): the fragments of a message are numbered, and all messages have MIDs.

use crate::framing::Framing;
use crate::numbers::as_number;
use sctp_serial::{S32, Serial};
use sctp_values::Kind;
use sctp_wire::codes::I_DATA_HEADER;
use sctp_wire::{Chunk, Forward, SkipForm};

/// User data in I-DATA chunks.
#[derive(Clone, Copy, Debug)]
pub struct IDataFraming;

impl Framing for IDataFraming {
    ghost use Rattle.sctp_model.specs.messages.Format.{Interleaved};
    ghost use Rattle.sctp_safety.proofs.plan.WholeLaw.{whole_law};
    ghost use Rattle.sctp_safety.proofs.plan.SkipLaw.{skip_law};

    ghost format = { Interleaved };

    ghost whole = { whole_law Interleaved };

    ghost skipping = { skip_law Interleaved };

    fn header() -> usize {
        I_DATA_HEADER
    }

    fn wire_number(_kind: Kind, number: u64) -> u32 {
        S32::of_count(number).0
    }

    fn wire_word(payload: u32, fragment: u32) -> u32 {
        if fragment == 0 { payload } else { fragment }
    }

    fn takes_turns() -> bool {
        true
    }

    fn is_numbered(_kind: Kind) -> bool {
        true
    }

    fn forward_chunk(forward: Forward<'_>) -> Chunk<'_> {
        Chunk::IForwardTsn(forward)
    }

    fn skip_form() -> SkipForm {
        SkipForm::Wide
    }

    fn number_near(_kind: Kind, wire: u32, reference: u64) -> Option<u64> {
        as_number(S32(wire).near(reference))
    }

    fn place(_index: u64, begin: bool, word: u32) -> u64 {
        if begin { 0 } else { u64::from(word) }
    }

    fn begins(begin: bool, word: u32) -> bool {
        begin || word == 0
    }

    fn payload(begin: bool, word: u32) -> u32 {
        if begin { word } else { 0 }
    }

    fn lets_go(_index: u64, number: Option<u64>, _jump: u64, skip: u64) -> bool {
        match number {
            Some(number) => number < skip,
            None => false,
        }
    }
}
