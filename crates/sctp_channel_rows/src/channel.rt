//! Calls of data channels.

use crate::bytes::bytes_of;
use crate::events::tell;
use crate::shown::{done, numbered, say, show};
use crate::words::{Words, unreadable};
use anyhow::Result;
use sctp_channels::{Channels, Content, Opening};
use std::alloc::Global;

/// How many events are reported at most by one call.
const EVENTS: u32 = 100_000;

/// Makes this call and appends its answer.
///
/// # Errors
/// It can't be read, or an allocation failed.
pub fn channel_call(
    alloc: Global,
    now: u64,
    channels: &mut Channels,
    name: &str,
    words: &mut Words<'_>,
    out: &mut String,
) -> Result<()> {
    match name {
        "open" => open(alloc, channels, words, out),
        "negotiated" => negotiated(channels, words, out),
        "send" => send(alloc, now, channels, words, out),
        "close" => done(out, channels.close(words.number()?)),
        "buffered" => show(out, &channels.buffered_amount(words.number()?)),
        "low" => low(channels, words, out),
        "largest" => show(out, &channels.max_message_size()),
        "trim" => {
            channels.trim();
            say(out, "ok")
        }
        "event" => tell(alloc, channels, 1, out),
        "events" => tell(alloc, channels, EVENTS, out),
        _ => Err(unreadable()),
    }
}

/// STREAM/- o/u RELIABILITY PRIORITY LABEL PROTOCOL: opens a channel.
fn open(
    alloc: Global,
    channels: &mut Channels,
    words: &mut Words<'_>,
    out: &mut String,
) -> Result<()> {
    let stream = words.stream()?;
    let ordered = words.either("o", "u")?;
    let reliability = words.reliability()?;
    let priority = words.number()?;
    let label = bytes_of(alloc, words)?;
    let protocol = bytes_of(alloc, words)?;
    let opening = Opening {
        label: &label,
        protocol: &protocol,
        ordered,
        reliability,
        priority,
    };
    match channels.open(&opening, stream) {
        Ok(stream) => numbered(out, "stream", u64::from(stream)),
        Err(fault) => show(out, &fault),
    }
}

/// STREAM o/u RELIABILITY: opens a channel that both sides agreed on.
fn negotiated(channels: &mut Channels, words: &mut Words<'_>, out: &mut String) -> Result<()> {
    let stream = words.number()?;
    let ordered = words.either("o", "u")?;
    let reliability = words.reliability()?;
    done(out, channels.open_negotiated(stream, ordered, reliability))
}

/// STREAM text/binary BYTES: sends a content.
fn send(
    alloc: Global,
    now: u64,
    channels: &mut Channels,
    words: &mut Words<'_>,
    out: &mut String,
) -> Result<()> {
    let stream = words.number()?;
    let text = words.either("text", "binary")?;
    let bytes = bytes_of(alloc, words)?;
    let content = if text {
        Content::Text(&bytes)
    } else {
        Content::Binary(&bytes)
    };
    match channels.send(now, stream, content) {
        Ok(ticket) => numbered(out, "ticket", ticket.0),
        Err(fault) => show(out, &fault),
    }
}

/// STREAM BYTES: sets the low threshold of a channel.
fn low(channels: &mut Channels, words: &mut Words<'_>, out: &mut String) -> Result<()> {
    let stream = words.number()?;
    done(
        out,
        channels.set_buffered_amount_low_threshold(stream, words.number()?),
    )
}
