//! Reads a call from a line of a case.

use crate::call::Call;
use crate::pacing::read_pace_call;
use crate::plain::read_plain;
use crate::resets::read_reset_call;
use crate::words::Words;
use sctp_send::Ticket;
use sctp_values::GREATEST_PACKET;

impl<'a> Call<'a> {
    /// The call of a line, if it is one and nothing follows it.
    pub fn read(line: &'a str) -> Option<Call<'a>> {
        let (name, rest) = match line.split_once(' ') {
            Some((name, rest)) => (name, Some(rest)),
            None => (line, None),
        };
        let mut words = Words::new(rest);
        let call = match read_sending(name, &mut words) {
            Some(call) => call,
            None => {
                words = Words::new(rest);
                read_receiving(name, &mut words)?
            }
        };
        if words.are_read() { Some(call) } else { None }
    }
}

/// A call of a sender.
fn read_sending<'a>(name: &str, words: &mut Words<'a>) -> Option<Call<'a>> {
    Some(match name {
        "sender" => Call::Sender {
            tsn: words.number()?,
            streams: words.number()?,
            fragment: words.number()?,
            rwnd: words.number()?,
            partial: words.either("pr", "all")?,
        },
        "queue" => Call::Queue {
            stream: words.number()?,
            ordered: words.either("o", "u")?,
            payload_id: words.number()?,
            until: words.until()?,
            bytes: words.next()?,
        },
        "queue-each" => Call::QueueEach {
            streams: words.number()?,
            ordered: words.either("o", "u")?,
            payload_id: words.number()?,
            until: words.until()?,
            bytes: words.next()?,
        },
        "fill" | "recycle" => Call::Fill {
            limit: words.number()?,
            recycled: name == "recycle",
        },
        "forward" => Call::Forward {
            room: words.number()?,
            limit: if words.are_read() {
                GREATEST_PACKET
            } else {
                words.number()?
            },
        },
        "sack" => Call::Sack {
            tsn: words.number()?,
            rwnd: words.number()?,
            blocks: words.all(),
        },
        "shutdown" => Call::Shutdown {
            tsn: words.number()?,
        },
        "abandon" => Call::Abandon(Ticket(words.number()?)),
        "expire" => Call::Expire {
            now: words.number()?,
        },
        "timeout" => Call::Timeout,
        "fate" => Call::Fate(Ticket(words.number()?)),
        "sending" => Call::Sending,
        "trim" => Call::Trim,
        _ => Call::Pace(read_pace_call(name, words)?),
    })
}

/// A call of a receiver, of both, or of neither.
fn read_receiving<'a>(name: &str, words: &mut Words<'a>) -> Option<Call<'a>> {
    Some(match name {
        "receiver" => Call::Receiver {
            tsn: words.number()?,
            streams: words.number()?,
            buffer: words.number()?,
        },
        "data" => Call::Data {
            tsn: words.number()?,
            stream: words.number()?,
            flags: words.flags()?,
            number: words.number()?,
            word: words.number()?,
            bytes: words.next()?,
        },
        "rise" => Call::Rise {
            count: words.number()?,
            tsn: words.number()?,
            stream: words.number()?,
            number: words.number()?,
            step: if words.are_read() { 1 } else { words.number()? },
        },
        "leap" => Call::Leap {
            count: words.number()?,
            tsn: words.number()?,
        },
        "skip" => Call::Skip {
            tsn: words.number()?,
            skips: words.all(),
        },
        "carry" => Call::Carry {
            packet: words.number()?,
        },
        "take" => Call::Take {
            stream: words.number()?,
        },
        "next-readable" => Call::NextReadable(words.number()?),
        "tell" => Call::Tell,
        "acknowledge" => Call::Acknowledge,
        "receiving" => Call::Receiving,
        "trim-receiver" => Call::TrimReceiver,
        _ => return read_other(name, words),
    })
}

/// A call of stream reset, or one of numbers, bytes or cookies.
fn read_other<'a>(name: &str, words: &mut Words<'a>) -> Option<Call<'a>> {
    match read_reset_call(name, words) {
        Some(call) => Some(Call::Reset(call)),
        None => Some(Call::Plain(read_plain(name, words)?)),
    }
}
