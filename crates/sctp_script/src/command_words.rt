//! Reads the words of each command but `pair`.

ghost use Rattle.std.specs.Prelude.{◌≡◌, [], ◌∷◌, length, IfOk, MatchOption};
ghost use Rattle.sctp_script.specs.Commands.{arguments_of, draw_fields};
ghost use Rattle.sctp_script.specs.Fields.{Value, IsValue};
ghost use Rattle.sctp_script.specs.Grammar.{LineMeaning, Spells};
ghost use Rattle.sctp_script.specs.ReadLineAnswer.{acting_meaning};
ghost use Rattle.sctp_words.specs.Fields.{Values, AreValues};

use crate::command::Command;
use crate::line::Acting;
use crate::side_word::read_side;
use sctp_events::Event;
use sctp_terms::Draw;
use sctp_text::Words;
use sctp_values::{NoMemory, Ticket};
use sctp_words::{read_bytes, read_draw, read_kind, read_u16, read_u32, read_u64, read_until};
use std::alloc::Global;

/// `open`: tag 1 for A and tag 2 for B, and initial TSN 1 for both.
pub(crate) fn opening(words: Words<'_>) -> Acting
    requires { length words ≡ arguments_of Command.Open }
    ensures { Spells Command.Open words.entry (acting_meaning result) }
{
    let (Some(a), Some(b)) = (Draw::new(1, 1), Draw::new(2, 1)) else {
        unreachable!()
    };
    Acting::Event(Event::Open { a, b })
}

/// `TAG TSN`
fn draw_behind(mut words: Words<'_>) -> Option<Draw>
    requires { length words ≡ length draw_fields }
    ensures { MatchOption result
        ((vs : Values Value draw_fields) → AreValues Value IsValue draw_fields words.entry vs → ⊥)
        (λ draw. AreValues Value IsValue draw_fields words.entry (draw.tag, (draw.tsn, tt))) }
{
    let tag = words.next_word();
    let tsn = words.next_word();
    read_draw(tag, tsn)
}

/// `at T`
pub(crate) fn read_at(mut words: Words<'_>) -> Option<Acting>
    requires { length words ≡ arguments_of Command.At }
    ensures { MatchOption result
        ((m : LineMeaning) → Spells Command.At words.entry m → ⊥)
        (λ acting. Spells Command.At words.entry (acting_meaning acting)) }
{
    let moment = read_u64(words.next_word())?;
    Some(Acting::Event(Event::At { moment }))
}

/// `draw TAG TSN`
pub(crate) fn read_drawing(words: Words<'_>) -> Option<Acting>
    requires { length words ≡ arguments_of Command.Draw }
    ensures { MatchOption result
        ((m : LineMeaning) → Spells Command.Draw words.entry m → ⊥)
        (λ acting. Spells Command.Draw words.entry (acting_meaning acting)) }
{
    let draw = draw_behind(words)?;
    Some(Acting::Event(Event::Drawing { draw }))
}

/// `connect TAG TSN`
pub(crate) fn read_connect(words: Words<'_>) -> Option<Acting>
    requires { length words ≡ arguments_of Command.Connect }
    ensures { MatchOption result
        ((m : LineMeaning) → Spells Command.Connect words.entry m → ⊥)
        (λ acting. Spells Command.Connect words.entry (acting_meaning acting)) }
{
    let draw = draw_behind(words)?;
    Some(Acting::Event(Event::Connect { draw }))
}

/// `build X`
pub(crate) fn read_build(mut words: Words<'_>) -> Option<Acting>
    requires { length words ≡ arguments_of Command.Build }
    ensures { MatchOption result
        ((m : LineMeaning) → Spells Command.Build words.entry m → ⊥)
        (λ acting. Spells Command.Build words.entry (acting_meaning acting)) }
{
    let side = read_side(words.next_word())?;
    Some(Acting::Event(Event::Build { side }))
}

/// `deliver X N`
pub(crate) fn read_deliver(mut words: Words<'_>) -> Option<Acting>
    requires { length words ≡ arguments_of Command.Deliver }
    ensures { MatchOption result
        ((m : LineMeaning) → Spells Command.Deliver words.entry m → ⊥)
        (λ acting. Spells Command.Deliver words.entry (acting_meaning acting)) }
{
    let side = read_side(words.next_word())?;
    let number = read_u32(words.next_word())?;
    Some(Acting::Event(Event::Deliver { side, number }))
}

/// `foreign Y HEX`
///
/// # Errors
/// `NoMemory` if no memory could be allocated for the bytes.
pub(crate) fn read_foreign(alloc: Global, mut words: Words<'_>) -> Result<Option<Acting>, NoMemory>
    requires { length words ≡ arguments_of Command.Foreign }
    ensures { IfOk result (λ found. MatchOption found
        ((m : LineMeaning) → Spells Command.Foreign words.entry m → ⊥)
        (λ acting. Spells Command.Foreign words.entry (acting_meaning acting))) }
{
    let Some(side) = read_side(words.next_word()) else {
        return Ok(None);
    };
    match read_bytes(alloc, words.next_word())? {
        Some(bytes) => {
            let bytes = bytes.into_vec();
            Ok(Some(Acting::Event(Event::Foreign { side, bytes })))
        }
        None => Ok(None),
    }
}

/// `send X STREAM KIND ID UNTIL HEX`
///
/// # Errors
/// `NoMemory` if no memory could be allocated for the bytes.
pub(crate) fn read_send(alloc: Global, mut words: Words<'_>) -> Result<Option<Acting>, NoMemory>
    requires { length words ≡ arguments_of Command.Send }
    ensures { IfOk result (λ found. MatchOption found
        ((m : LineMeaning) → Spells Command.Send words.entry m → ⊥)
        (λ acting. Spells Command.Send words.entry (acting_meaning acting))) }
{
    let side = read_side(words.next_word());
    let stream = read_u16(words.next_word());
    let kind = read_kind(words.next_word());
    let payload_id = read_u32(words.next_word());
    let until = read_until(words.next_word());
    let (Some(side), Some(stream), Some(kind), Some(payload_id), Some(until)) = (
        side, stream, kind, payload_id, until,
    ) else {
        return Ok(None);
    };
    match read_bytes(alloc, words.next_word())? {
        Some(bytes) => Ok(Some(Acting::Event(Event::Send {
            side,
            stream,
            ordered: !kind.flag(),
            payload_id,
            bytes: bytes.into_vec(),
            until,
        }))),
        None => Ok(None),
    }
}

/// `abandon X K`
pub(crate) fn read_abandon(mut words: Words<'_>) -> Option<Acting>
    requires { length words ≡ arguments_of Command.Abandon }
    ensures { MatchOption result
        ((m : LineMeaning) → Spells Command.Abandon words.entry m → ⊥)
        (λ acting. Spells Command.Abandon words.entry (acting_meaning acting)) }
{
    let side = read_side(words.next_word())?;
    let ticket = Ticket(read_u64(words.next_word())?);
    Some(Acting::Event(Event::Abandon { side, ticket }))
}

/// `take X STREAM`
pub(crate) fn read_take(mut words: Words<'_>) -> Option<Acting>
    requires { length words ≡ arguments_of Command.Take }
    ensures { MatchOption result
        ((m : LineMeaning) → Spells Command.Take words.entry m → ⊥)
        (λ acting. Spells Command.Take words.entry (acting_meaning acting)) }
{
    let side = read_side(words.next_word())?;
    let stream = read_u16(words.next_word())?;
    Some(Acting::Event(Event::Take { side, stream }))
}

/// `shutdown X`
pub(crate) fn read_shutdown(mut words: Words<'_>) -> Option<Acting>
    requires { length words ≡ arguments_of Command.Shutdown }
    ensures { MatchOption result
        ((m : LineMeaning) → Spells Command.Shutdown words.entry m → ⊥)
        (λ acting. Spells Command.Shutdown words.entry (acting_meaning acting)) }
{
    let side = read_side(words.next_word())?;
    Some(Acting::Event(Event::Shutdown { side }))
}

/// `abort X HEX`
///
/// # Errors
/// `NoMemory` if no memory could be allocated for the bytes.
pub(crate) fn read_abort(alloc: Global, mut words: Words<'_>) -> Result<Option<Acting>, NoMemory>
    requires { length words ≡ arguments_of Command.Abort }
    ensures { IfOk result (λ found. MatchOption found
        ((m : LineMeaning) → Spells Command.Abort words.entry m → ⊥)
        (λ acting. Spells Command.Abort words.entry (acting_meaning acting))) }
{
    let Some(side) = read_side(words.next_word()) else {
        return Ok(None);
    };
    match read_bytes(alloc, words.next_word())? {
        Some(bytes) => {
            let reason = bytes.into_vec();
            Ok(Some(Acting::Event(Event::Abort { side, reason })))
        }
        None => Ok(None),
    }
}
