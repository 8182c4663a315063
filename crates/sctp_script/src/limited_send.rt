//! Reads a line `send` with a limit of retransmissions (RFC 7496, 3.1), which a script with a line of options may have.

ghost use Rattle.std.specs.Prelude.{◌≡◌, ◌↔◌, ℕ, true, Option, Some, length, IsTrue, IfOk, OnErr, MatchOption};
ghost use Rattle.sctp_events.specs.Events.{event_meaning};
ghost use Rattle.sctp_script.specs.Commands.{name_of, arguments_of};
ghost use Rattle.sctp_script.specs.LimitedSends.{LimitedValues, limited_send, AreLimited, IsLimitedSend, HasNoLimit};
ghost use Rattle.sctp_script.specs.ReadLineAnswer.{Refuses};
ghost use Rattle.sctp_words.specs.Fields.{IsUntilLimit};
ghost use Rattle.sctp_words.specs.declared.line_fault.LineError.TheVariants as error;

use crate::command::Command;
use crate::side_word::read_side;
use sctp_events::Event;
use sctp_text::{LONGEST_LINE, Words};
use sctp_values::NoMemory;
use sctp_words::{read_bytes, read_kind, read_u16, read_u32, read_until_limit};
use std::alloc::Global;

/// Reads a line `send` with a limit of retransmissions, given without its line feed. None if the line isn't one.
///
/// # Errors
/// `NoMemory` if no memory could be allocated for the bytes.
pub(crate) fn read_limited_send(alloc: Global, line: &[u8]) -> Result<Option<Event>, NoMemory>
    ensures found { IfOk result (λ found. MatchOption found (HasNoLimit line.now)
        (λ event. (vs : LimitedValues) × IsLimitedSend line.now vs × (event_meaning event ≡ limited_send vs))) }
    ensures memory { OnErr result (Refuses true line.now error.NoMemory) }
{
    if line.len() > LONGEST_LINE {
        return Ok(None);
    }
    let mut words = Words::of(line);
    if !is_send(words.next_word()) {
        return Ok(None);
    }
    if words.count() != Command::Send.arguments() {
        return Ok(None);
    }
    read_words(alloc, words)
}

/// Whether a word is the name of `send`.
fn is_send(word: &[u8]) -> bool
    ensures { IsTrue result ↔ word.now ≡ name_of Command.Send }
{
    word == b"send".as_slice()
}

/// `send X STREAM KIND ID UNTIL HEX`, where UNTIL has a limit of retransmissions. None if a word isn't a value of its field.
///
/// # Errors
/// `NoMemory` if no memory could be allocated for the bytes.
fn read_words(alloc: Global, mut words: Words<'_>) -> Result<Option<Event>, NoMemory>
    requires { length words ≡ arguments_of Command.Send }
    ensures { IfOk result (λ found. MatchOption found ((vs : LimitedValues) → AreLimited words.entry vs → ⊥)
        (λ event. (vs : LimitedValues) × AreLimited words.entry vs × (event_meaning event ≡ limited_send vs))) }
{
    let side = read_side(words.next_word());
    let stream = read_u16(words.next_word());
    let kind = read_kind(words.next_word());
    let payload_id = read_u32(words.next_word());
    let limit = read_limit(words.next_word());
    let (Some(side), Some(stream), Some(kind), Some(payload_id)) = (side, stream, kind, payload_id)
    else {
        return Ok(None);
    };
    let Some((until, max_retransmits)) = limit else {
        return Ok(None);
    };
    match read_bytes(alloc, words.next_word())? {
        Some(bytes) => Ok(Some(Event::SendWithMaxRetransmits {
            side,
            stream,
            ordered: !kind.flag(),
            payload_id,
            bytes: bytes.into_vec(),
            until,
            max_retransmits,
        })),
        None => Ok(None),
    }
}

/// Reads the end of a lifetime with a limit of retransmissions. None if a word gives no limit.
fn read_limit(word: &[u8]) -> Option<(Option<u64>, u16)>
    ensures { MatchOption result
        ((until : Option ℕ) (n : ℕ) → IsUntilLimit word.now until (Some n) → ⊥)
        (λ found. IsUntilLimit word.now found.0 (Some found.1)) }
{
    let (until, limit) = read_until_limit(word)?;
    let limit = limit?;
    Some((until, limit))
}
