//! The words beside an endpoint.

use crate::row::{Call, Deed, Note, Packet, Standing, Taken};
use sctp_pair::{Abandoned, Reason, Refusal, Side};
use sctp_text::Word;
use sctp_words::{end_word, state_word};
use std::alloc::{AllocError, Global};
use std::str;

/// The words for what an endpoint did, or what happened to it. Empty if there is nothing to show.
///
/// # Errors
/// An allocation failed.
pub(crate) fn deed_words(alloc: Global, note: &Note) -> Result<String, AllocError> {
    let mut words = String::new(alloc);
    if let Some(deed) = &note.deed {
        put_deed(deed, &mut words)?;
    }
    Ok(words)
}

/// The state that begins, in brackets. Empty if none does.
///
/// # Errors
/// An allocation failed.
pub(crate) fn state_words(alloc: Global, note: &Note) -> Result<String, AllocError> {
    let mut words = String::new(alloc);
    if let Some(standing) = note.begun {
        put_standing(standing, &mut words)?;
    }
    Ok(words)
}

/// The name of an endpoint.
pub(crate) fn side_word(side: Side) -> &'static str {
    match side {
        Side::A => "A",
        Side::B => "B",
    }
}

/// Appends the name of a packet, as in `A3`.
///
/// # Errors
/// An allocation failed.
pub(crate) fn put_name(packet: Packet, words: &mut String) -> Result<(), AllocError> {
    let side = side_word(packet.side);
    let number = packet.number;
    write!(words, "{side}{number}")
}

/// Appends the state of an endpoint in brackets, and how it ended.
fn put_standing(standing: Standing, words: &mut String) -> Result<(), AllocError> {
    let state = text_of(state_word(standing.state));
    match standing.ended {
        None => write!(words, "[{state}]"),
        Some(_) => {
            let end = text_of(end_word(standing.ended));
            write!(words, "[{state} {end}]")
        }
    }
}

/// The letters of a fixed word.
fn text_of(word: Word<'static>) -> &'static str {
    match word {
        Word::Text(text) => str::from_utf8(text).unwrap_or(""),
        _ => "",
    }
}

/// Appends what an endpoint did, or what happened to it.
fn put_deed(deed: &Deed, words: &mut String) -> Result<(), AllocError> {
    match deed {
        Deed::At { moment } => {
            let moment = *moment;
            write!(words, "at {moment}")
        }
        Deed::Later { moment } => {
            let moment = *moment;
            write!(words, "later {moment}")
        }
        Deed::Moment => words.push_str("moment"),
        Deed::Call(call) => put_call(call, words),
        Deed::Refused { call, refusal } => {
            put_call(call, words)?;
            let why = refusal_word(*refusal);
            write!(words, " refused: {why}")
        }
        Deed::Waited { wait } => {
            let wait = *wait;
            write!(words, "SACK waited {wait}")
        }
        Deed::Quiet => words.push_str("build: quiet"),
        Deed::Absent { packet } => {
            words.push_str("deliver ")?;
            put_name(*packet, words)?;
            words.push_str(": absent")
        }
        Deed::Dropped { reason } => {
            let why = reason_word(*reason);
            write!(words, "dropped: {why}")
        }
        Deed::Abandoned { ticket, fate } => {
            let (ticket, fate) = (*ticket, fate_word(*fate));
            write!(words, "abandon #{ticket}: {fate}")
        }
        Deed::Taken { stream, message } => put_taken(*stream, message, words),
        Deed::Resets { there } => put_resets(*there, words),
    }
}

/// Appends a user's call.
fn put_call(call: &Call, words: &mut String) -> Result<(), AllocError> {
    match call {
        Call::Open => words.push_str("open"),
        Call::Connect => words.push_str("connect"),
        Call::Shutdown => words.push_str("shutdown"),
        Call::Abort => words.push_str("abort"),
        Call::Reset { stream } => {
            let stream = *stream;
            write!(words, "reset {stream}")
        }
        Call::Send {
            stream,
            ordered,
            length,
            max_retransmits,
            ticket,
        } => {
            let (stream, length) = (*stream, *length);
            let kind = if *ordered { "" } else { "u" };
            write!(words, "send {stream}{kind} {length}B")?;
            put_limit(*max_retransmits, words)?;
            put_ticket(*ticket, words)
        }
    }
}

/// Appends a message's limit of retransmissions.
fn put_limit(max_retransmits: Option<u16>, words: &mut String) -> Result<(), AllocError> {
    match max_retransmits {
        Some(limit) => write!(words, " x{limit}"),
        None => Ok(()),
    }
}

/// Appends the ticket of a message that was accepted.
fn put_ticket(ticket: Option<u64>, words: &mut String) -> Result<(), AllocError> {
    match ticket {
        Some(ticket) => write!(words, " #{ticket}"),
        None => Ok(()),
    }
}

/// Appends the message that a user took.
fn put_taken(stream: u16, message: &Option<Taken>, words: &mut String) -> Result<(), AllocError> {
    write!(words, "take {stream}: ")?;
    let Some(message) = message else {
        return words.push_str("empty");
    };
    words.push_str(if message.ordered { "o" } else { "u" })?;
    if let Some(number) = message.number {
        write!(words, "{number}")?;
    }
    let length = message.length;
    write!(words, " {length}B")
}

/// Appends the stream that the peer has reset, and how many messages wait that were delivered before.
fn put_resets(there: Option<(u16, usize)>, words: &mut String) -> Result<(), AllocError> {
    match there {
        Some((stream, 0)) => write!(words, "resets: {stream}"),
        Some((stream, count)) => write!(words, "resets: {stream} after {count}"),
        None => words.push_str("resets: none"),
    }
}

/// Why a call was refused.
fn refusal_word(refusal: Refusal) -> &'static str {
    match refusal {
        Refusal::State => "state",
        Refusal::ReasonTooLong | Refusal::TooLong => "too long",
        Refusal::NotOpen => "not open",
        Refusal::NoSuchStream | Refusal::NoSuchReset => "no such stream",
        Refusal::Resetting => "resetting",
        Refusal::Empty => "empty",
        Refusal::QueueFull => "queue full",
        Refusal::Spent => "spent",
    }
}

/// Why a packet was dropped.
fn reason_word(reason: Reason) -> &'static str {
    match reason {
        Reason::Fault => "fault",
        Reason::Ports => "ports",
        Reason::Tag => "tag",
        Reason::State => "state",
        Reason::Cookie => "cookie",
    }
}

/// What has become of a message to be abandoned.
fn fate_word(fate: Abandoned) -> &'static str {
    match fate {
        Abandoned::Withdrawn => "withdrawn",
        Abandoned::Abandoned => "abandoned",
        Abandoned::Acknowledged => "acknowledged",
        Abandoned::Unknown => "unknown",
        Abandoned::Reliable => "reliable",
    }
}
