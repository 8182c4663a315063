//! Calls of an endpoint without channels, whose user sends anything.

use crate::bytes::{bytes_of, show_bytes};
use crate::shown::{done, numbered, say, show};
use crate::words::{Words, unreadable};
use anyhow::Result;
use sctp_endpoint::{Endpoint, Message};
use std::alloc::Global;
use std::fmt::Write;

/// Makes this call and appends its answer.
///
/// # Errors
/// It can't be read, or an allocation failed.
pub fn bare_call(
    alloc: Global,
    endpoint: &mut Endpoint,
    name: &str,
    words: &mut Words<'_>,
    out: &mut String,
) -> Result<()> {
    match name {
        "raw" => raw(alloc, endpoint, words, out),
        "reset" => done(out, endpoint.reset(words.number()?)),
        "take" => match endpoint.take(words.number()?) {
            Some(message) => {
                let shown = show_message(alloc, &message, out);
                drop(message);
                shown
            }
            None => say(out, "nothing"),
        },
        "trim" => {
            endpoint.trim();
            say(out, "ok")
        }
        "told" => match endpoint.take_reset() {
            Some(reset) => Ok(write!(out, "reset {} {}", reset.stream, reset.count)?),
            None => say(out, "nothing"),
        },
        _ => Err(unreadable()),
    }
}

/// STREAM o/u PAYLOAD-ID BYTES: sends a message.
fn raw(
    alloc: Global,
    endpoint: &mut Endpoint,
    words: &mut Words<'_>,
    out: &mut String,
) -> Result<()> {
    let stream = words.number()?;
    let ordered = words.either("o", "u")?;
    let payload_id = words.number()?;
    let bytes = bytes_of(alloc, words)?;
    match endpoint.send(stream, ordered, payload_id, bytes, None) {
        Ok(ticket) => numbered(out, "ticket", ticket.0),
        Err(why) => show(out, &why),
    }
}

/// A message that was taken.
fn show_message(alloc: Global, message: &Message, out: &mut String) -> Result<()> {
    let kind = if message.ordered { 'o' } else { 'u' };
    write!(out, "message {kind} {}", message.payload_id)?;
    let mut bytes = Vec::new(alloc);
    message.copy_to(&mut bytes)?;
    show_bytes(alloc, &bytes, out)
}
