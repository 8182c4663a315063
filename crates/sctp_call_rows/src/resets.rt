//! The calls of stream reset, of a sender, of a receiver, and of both (RFC 6525).

use crate::parts::bytes_of;
use crate::reconfig::{carry_request, carry_responses, reconfig, show_request, show_responses};
use crate::words::Words;
use anyhow::Result;
use sctp_framing::Framing;
use sctp_recv::{Receiver, Reset};
use sctp_send::Sender;
use sctp_values::GREATEST_PACKET;
use std::alloc::Global;
use std::fmt::Write;

/// A call of stream reset.
#[derive(Clone, Copy)]
pub enum ResetCall<'a> {
    /// The user asks for the reset of a stream.
    Reset { stream: u16 },
    /// The same for each stream below a number, in turn.
    ResetEach { streams: u16 },
    /// Whether a stream waits for its reset.
    IsResetting { stream: u16 },
    /// How many streams wait for their reset, and whether a request may be made.
    Resetting,
    /// Makes a request, if it may be made.
    Ask,
    /// The request that waits for its response.
    Request,
    /// A response arrives.
    Response { number: u32, code: u32 },
    /// The timer of the request expires.
    Retry,
    /// The value of a RE-CONFIG arrives; its responses are for packets of a limit.
    Reconfig { bytes: &'a str, limit: u16 },
    /// The responses that wait for a packet.
    Responses,
    ResponsesSent,
    /// The number of the last request that was taken.
    LastFinished,
    /// A reset of the peer.
    TakeReset,
    /// Whether there is one.
    HasReset,
    /// The sender's request arrives at the receiver.
    CarryRequest,
    /// The receiver's responses arrive at the sender.
    CarryResponses,
}

/// The call with this name, if it is one.
pub fn read_reset_call<'a>(name: &str, words: &mut Words<'a>) -> Option<ResetCall<'a>> {
    Some(match name {
        "reset" => ResetCall::Reset {
            stream: words.number()?,
        },
        "reset-each" => ResetCall::ResetEach {
            streams: words.number()?,
        },
        "resetting" if words.are_read() => ResetCall::Resetting,
        "resetting" => ResetCall::IsResetting {
            stream: words.number()?,
        },
        "ask" => ResetCall::Ask,
        "request" => ResetCall::Request,
        "response" => ResetCall::Response {
            number: words.number()?,
            code: words.number()?,
        },
        "retry" => ResetCall::Retry,
        "reconfig" => ResetCall::Reconfig {
            bytes: words.next()?,
            limit: if words.are_read() {
                GREATEST_PACKET
            } else {
                words.number()?
            },
        },
        "responses" => ResetCall::Responses,
        "responses-sent" => ResetCall::ResponsesSent,
        "last-finished" => ResetCall::LastFinished,
        "take-reset" => ResetCall::TakeReset,
        "has-reset" => ResetCall::HasReset,
        "carry-request" => ResetCall::CarryRequest,
        "carry-responses" => ResetCall::CarryResponses,
        _ => return None,
    })
}

/// Makes a call and appends its answer; nothing if it has no sender or receiver that it needs.
pub fn make_reset_call<F: Framing>(
    alloc: Global,
    sender: &mut Option<Sender<F>>,
    receiver: &mut Option<Receiver<F>>,
    call: ResetCall<'_>,
    out: &mut String,
) -> Result<()> {
    if let (Some(sender), Some(receiver)) = (&mut *sender, &mut *receiver) {
        make_at_both(alloc, sender, receiver, call, out)?;
    }
    if let Some(sender) = sender {
        make_at_sender(sender, call, out)?;
    }
    if let Some(receiver) = receiver {
        make_at_receiver(alloc, receiver, call, out)?;
    }
    Ok(())
}

/// A call of both; nothing is appended for another.
fn make_at_both<F: Framing>(
    alloc: Global,
    sender: &mut Sender<F>,
    receiver: &mut Receiver<F>,
    call: ResetCall<'_>,
    out: &mut String,
) -> Result<()> {
    match call {
        ResetCall::CarryRequest => carry_request(alloc, sender, receiver, out),
        ResetCall::CarryResponses => carry_responses(alloc, sender, receiver, out),
        _ => Ok(()),
    }
}

/// A call of a sender; nothing is appended for another.
fn make_at_sender<F: Framing>(
    sender: &mut Sender<F>,
    call: ResetCall<'_>,
    out: &mut String,
) -> Result<()> {
    match call {
        ResetCall::Reset { stream } => {
            sender.reset(stream)?;
            write!(out, "ok")?;
        }
        ResetCall::ResetEach { streams } => {
            for stream in 0..streams {
                sender.reset(stream)?;
            }
            write!(out, "ok")?;
        }
        ResetCall::IsResetting { stream } => write!(out, "{}", sender.is_resetting(stream))?,
        ResetCall::Resetting => {
            write!(out, "streams {}", sender.resetting_streams())?;
            if sender.may_ask() {
                write!(out, " may ask")?;
            }
        }
        ResetCall::Ask => {
            sender.ask()?;
            show_request(sender, out)?;
        }
        ResetCall::Request => show_request(sender, out)?,
        ResetCall::Response { number, code } => {
            sender.on_response(number, code);
            show_request(sender, out)?;
        }
        ResetCall::Retry => {
            sender.retry_request();
            show_request(sender, out)?;
        }
        _ => {}
    }
    Ok(())
}

/// A call of a receiver; nothing is appended for another.
fn make_at_receiver<F: Framing>(
    alloc: Global,
    receiver: &mut Receiver<F>,
    call: ResetCall<'_>,
    out: &mut String,
) -> Result<()> {
    match call {
        ResetCall::Reconfig { bytes, limit } => {
            if let Some(value) = bytes_of(alloc, bytes)? {
                reconfig(receiver, limit, &value, out)?;
            }
        }
        ResetCall::Responses => show_responses(receiver, out)?,
        ResetCall::ResponsesSent => {
            receiver.answers_sent();
            write!(out, "ok")?;
        }
        ResetCall::LastFinished => write!(out, "{}", receiver.last_finished_request())?,
        ResetCall::TakeReset => show_reset(receiver.take_reset(), out)?,
        ResetCall::HasReset => write!(out, "{}", receiver.has_reset())?,
        _ => {}
    }
    Ok(())
}

/// A reset of the peer that is reported, or none.
fn show_reset(reset: Option<Reset>, out: &mut String) -> Result<()> {
    match reset {
        Some(reset) => write!(out, "reset {} {}", reset.stream, reset.count)?,
        None => write!(out, "nothing")?,
    }
    Ok(())
}
