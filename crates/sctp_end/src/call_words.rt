//! Reads the words of each command that has some.

ghost use Rattle.std.specs.Prelude.{◌≡◌, length, IfOk, MatchOption};
ghost use Rattle.sctp_end.specs.Commands.{arguments_of, send_call};
ghost use Rattle.sctp_end.specs.Grammar.{Spells};

use crate::call::Call;
use crate::command::Command;
use sctp_text::{Bytes, Words};
use sctp_values::{Kind, NoMemory};
use sctp_words::{
    read_bytes, read_draw, read_kind, read_u16, read_u32, read_u64, read_until_limit,
};
use std::alloc::Global;

/// `connect TAG TSN`
pub(crate) fn read_connect(mut words: Words<'_>) -> Option<Call>
    requires { length words ≡ arguments_of Command.Connect }
    ensures { MatchOption result
        ((call : Call) → Spells Command.Connect words.entry call → ⊥)
        (λ call. Spells Command.Connect words.entry call) }
{
    let draw = read_draw(words.next_word(), words.next_word())?;
    Some(Call::Connect(draw))
}

/// `draw TAG TSN`
pub(crate) fn read_new_draw(mut words: Words<'_>) -> Option<Call>
    requires { length words ≡ arguments_of Command.Draw }
    ensures { MatchOption result
        ((call : Call) → Spells Command.Draw words.entry call → ⊥)
        (λ call. Spells Command.Draw words.entry call) }
{
    let draw = read_draw(words.next_word(), words.next_word())?;
    Some(Call::NewDraw(draw))
}

/// `at T`
pub(crate) fn read_at(mut words: Words<'_>) -> Option<Call>
    requires { length words ≡ arguments_of Command.At }
    ensures { MatchOption result
        ((call : Call) → Spells Command.At words.entry call → ⊥)
        (λ call. Spells Command.At words.entry call) }
{
    let moment = read_u64(words.next_word())?;
    Some(Call::At(moment))
}

/// `packet HEX`
///
/// # Errors
/// `NoMemory` if no memory could be allocated for the bytes.
pub(crate) fn read_packet(alloc: Global, mut words: Words<'_>) -> Result<Option<Call>, NoMemory>
    requires { length words ≡ arguments_of Command.Packet }
    ensures { IfOk result (λ found. MatchOption found
        ((call : Call) → Spells Command.Packet words.entry call → ⊥)
        (λ call. Spells Command.Packet words.entry call)) }
{
    match read_bytes(alloc, words.next_word())? {
        Some(bytes) => Ok(Some(Call::Packet(bytes))),
        None => Ok(None),
    }
}

/// `send STREAM KIND ID UNTIL HEX`
///
/// # Errors
/// `NoMemory` if no memory could be allocated for the bytes.
pub(crate) fn read_send(alloc: Global, mut words: Words<'_>) -> Result<Option<Call>, NoMemory>
    requires { length words ≡ arguments_of Command.Send }
    ensures { IfOk result (λ found. MatchOption found
        ((call : Call) → Spells Command.Send words.entry call → ⊥)
        (λ call. Spells Command.Send words.entry call)) }
{
    let stream = read_u16(words.next_word());
    let kind = read_kind(words.next_word());
    let payload_id = read_u32(words.next_word());
    let lifetime = read_until_limit(words.next_word());
    let (Some(stream), Some(kind), Some(payload_id), Some(lifetime)) = (
        stream, kind, payload_id, lifetime,
    ) else {
        return Ok(None);
    };
    match read_bytes(alloc, words.next_word())? {
        Some(bytes) => Ok(Some(send_call(stream, kind, payload_id, lifetime, bytes))),
        None => Ok(None),
    }
}

/// The call that sends a message, by the end of its lifetime and its limit of retransmissions.
fn send_call(
    stream: u16,
    kind: Kind,
    payload_id: u32,
    lifetime: (Option<u64>, Option<u16>),
    bytes: Bytes,
) -> Call
    ensures { result ≡ send_call stream kind payload_id lifetime.0 lifetime.1 bytes }
{
    let (until, limit) = lifetime;
    match limit {
        Some(max_retransmits) => Call::SendWithMaxRetransmits {
            stream,
            kind,
            payload_id,
            until,
            max_retransmits,
            bytes,
        },
        None => Call::Send {
            stream,
            kind,
            payload_id,
            until,
            bytes,
        },
    }
}

/// `abandon K`
pub(crate) fn read_abandon(mut words: Words<'_>) -> Option<Call>
    requires { length words ≡ arguments_of Command.Abandon }
    ensures { MatchOption result
        ((call : Call) → Spells Command.Abandon words.entry call → ⊥)
        (λ call. Spells Command.Abandon words.entry call) }
{
    let ticket = read_u64(words.next_word())?;
    Some(Call::Abandon { ticket })
}

/// `acknowledged K`
pub(crate) fn read_acknowledged(mut words: Words<'_>) -> Option<Call>
    requires { length words ≡ arguments_of Command.Acknowledged }
    ensures { MatchOption result
        ((call : Call) → Spells Command.Acknowledged words.entry call → ⊥)
        (λ call. Spells Command.Acknowledged words.entry call) }
{
    let ticket = read_u64(words.next_word())?;
    Some(Call::Acknowledged { ticket })
}

/// `abandoned K`
pub(crate) fn read_abandoned(mut words: Words<'_>) -> Option<Call>
    requires { length words ≡ arguments_of Command.Abandoned }
    ensures { MatchOption result
        ((call : Call) → Spells Command.Abandoned words.entry call → ⊥)
        (λ call. Spells Command.Abandoned words.entry call) }
{
    let ticket = read_u64(words.next_word())?;
    Some(Call::Abandoned { ticket })
}

/// `take STREAM`
pub(crate) fn read_take(mut words: Words<'_>) -> Option<Call>
    requires { length words ≡ arguments_of Command.Take }
    ensures { MatchOption result
        ((call : Call) → Spells Command.Take words.entry call → ⊥)
        (λ call. Spells Command.Take words.entry call) }
{
    let stream = read_u16(words.next_word())?;
    Some(Call::Take { stream })
}

/// `reset STREAM`
pub(crate) fn read_reset(mut words: Words<'_>) -> Option<Call>
    requires { length words ≡ arguments_of Command.Reset }
    ensures { MatchOption result
        ((call : Call) → Spells Command.Reset words.entry call → ⊥)
        (λ call. Spells Command.Reset words.entry call) }
{
    let stream = read_u16(words.next_word())?;
    Some(Call::Reset { stream })
}

/// `abort HEX`
///
/// # Errors
/// `NoMemory` if no memory could be allocated for the bytes.
pub(crate) fn read_abort(alloc: Global, mut words: Words<'_>) -> Result<Option<Call>, NoMemory>
    requires { length words ≡ arguments_of Command.Abort }
    ensures { IfOk result (λ found. MatchOption found
        ((call : Call) → Spells Command.Abort words.entry call → ⊥)
        (λ call. Spells Command.Abort words.entry call)) }
{
    match read_bytes(alloc, words.next_word())? {
        Some(bytes) => Ok(Some(Call::Abort(bytes))),
        None => Ok(None),
    }
}
