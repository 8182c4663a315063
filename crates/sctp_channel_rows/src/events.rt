//! Events are reported, and shown.

use crate::bytes::show_bytes;
use crate::shown::{numbered, say};
use anyhow::Result;
use sctp_channels::{Channels, Event, Parameters, Reliability};
use sctp_endpoint::Message;
use std::alloc::Global;
use std::fmt::Write;

/// Reports at most this number of events, one a line, and `nothing` after the last one.
pub fn tell(alloc: Global, channels: &mut Channels, most: u32, out: &mut String) -> Result<()> {
    for _ in 0..most {
        if !out.is_empty() {
            writeln!(out)?;
        }
        let Some(event) = channels.next_event()? else {
            return say(out, "nothing");
        };
        let shown = show_event(alloc, &event, out);
        drop(event);
        shown?;
    }
    Ok(())
}

/// An event.
fn show_event(alloc: Global, event: &Event, out: &mut String) -> Result<()> {
    match event {
        Event::Incoming { stream, parameters } => {
            write!(out, "incoming {stream}")?;
            show_parameters(alloc, parameters, out)
        }
        Event::Opened { stream } => numbered(out, "opened", u64::from(*stream)),
        Event::Message {
            stream,
            text,
            message,
        } => {
            let kind = if *text { "text" } else { "binary" };
            write!(out, "message {stream} {kind}")?;
            show_content(alloc, message, out)
        }
        Event::Closed { stream } => numbered(out, "closed", u64::from(*stream)),
        Event::BufferedAmountLow { stream } => numbered(out, "low", u64::from(*stream)),
        Event::Refused { stream, why } => Ok(write!(out, "refused {stream}: {why}")?),
        Event::Ignored { stream, why } => Ok(write!(out, "ignored {stream}: {why}")?),
    }
}

/// The parameters of a channel.
fn show_parameters(alloc: Global, parameters: &Parameters, out: &mut String) -> Result<()> {
    let order = if parameters.ordered { 'o' } else { 'u' };
    write!(out, " {order} ")?;
    match parameters.reliability {
        Reliability::Reliable => write!(out, "-")?,
        Reliability::MaxRetransmits(times) => write!(out, "x{times}")?,
        Reliability::MaxPacketLifetime(milliseconds) => write!(out, "{milliseconds}")?,
    }
    write!(out, " {}", parameters.priority)?;
    show_bytes(alloc, &parameters.label, out)?;
    show_bytes(alloc, &parameters.protocol, out)
}

/// The bytes of a content.
fn show_content(alloc: Global, message: &Option<Message>, out: &mut String) -> Result<()> {
    let mut bytes = Vec::new(alloc);
    if let Some(message) = message {
        message.copy_to(&mut bytes)?;
    }
    show_bytes(alloc, &bytes, out)
}
