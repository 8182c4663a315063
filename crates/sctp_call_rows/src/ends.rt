//! The sender and the receiver of a case, and the calls on them.

use crate::call::Call;
use crate::pacing::pace;
use crate::parts::{bytes_of, skips_of};
use crate::plain::answer;
use crate::receiving::{carry, data, leap, readable, receiving, rise, skip, taken, trim};
use crate::resets::make_reset_call;
use crate::sending::{Packets, fill, forward, queue, sack, sack_answer, send};
use crate::shown::sack_digits;
use anyhow::Result;
use sctp_framing::Framing;
use sctp_recv::Receiver;
use sctp_send::Sender;
use sctp_values::GREATEST_FRAGMENT;
use std::alloc::Global;
use std::fmt::Write;

/// A sender and a receiver, once they were made, and the packets that the sender built.
#[derive(Drop)]
pub struct Ends<F: Framing> {
    alloc: Global,
    sender: Option<Sender<F>>,
    receiver: Option<Receiver<F>>,
    packets: Packets,
}

impl<F: Framing> Ends<F> {
    /// A case at its beginning.
    pub fn new(alloc: Global) -> Ends<F> {
        Ends {
            alloc,
            sender: None,
            receiver: None,
            packets: Packets::new(alloc),
        }
    }

    /// Makes a call and appends its answer.
    ///
    /// # Errors
    /// An allocation failed.
    pub fn make(&mut self, call: &Call<'_>, out: &mut String) -> Result<()> {
        let before = out.len();
        match call {
            Call::Sender { .. } | Call::Receiver { .. } => self.begin(call, out)?,
            Call::Acknowledge => self.acknowledge(out)?,
            Call::Reset(call) => {
                make_reset_call(self.alloc, &mut self.sender, &mut self.receiver, *call, out)?;
            }
            Call::Plain(call) => answer(self.alloc, call, out)?,
            _ => {
                if let Some(sender) = &mut self.sender {
                    sending_call(self.alloc, sender, &mut self.packets, call, out)?;
                }
                if let Some(receiver) = &mut self.receiver {
                    receiving_call(self.alloc, receiver, &self.packets, call, out)?;
                }
            }
        }
        if out.len() == before {
            write!(out, "not a call")?;
        }
        Ok(())
    }

    /// A new sender, or a new receiver.
    fn begin(&mut self, call: &Call<'_>, out: &mut String) -> Result<()> {
        let begun = match *call {
            Call::Sender {
                tsn,
                streams,
                fragment,
                rwnd,
                partial,
            } => self.begin_sending(tsn, streams, fragment, rwnd, partial)?,
            Call::Receiver {
                tsn,
                streams,
                buffer,
            } => self.begin_receiving(tsn, streams, buffer)?,
            _ => false,
        };
        if begun {
            write!(out, "ok")?;
        }
        Ok(())
    }

    /// A new sender without packets; false if its words are no valid limits.
    fn begin_sending(
        &mut self,
        tsn: u32,
        streams: u16,
        fragment: u16,
        rwnd: u32,
        partial: bool,
    ) -> Result<bool> {
        if streams == 0 || fragment == 0 || fragment > GREATEST_FRAGMENT {
            return Ok(false);
        }
        let sender = Sender::new(self.alloc, tsn, streams, fragment, rwnd, partial)?;
        drop(self.sender.replace(sender));
        self.packets = Packets::new(self.alloc);
        Ok(true)
    }

    /// A new receiver.
    fn begin_receiving(&mut self, tsn: u32, streams: u16, buffer: u32) -> Result<bool> {
        let receiver = Receiver::new(self.alloc, tsn, streams, buffer)?;
        drop(self.receiver.replace(receiver));
        Ok(true)
    }

    /// Delivers the SACK that the receiver sends now to the sender.
    fn acknowledge(&mut self, out: &mut String) -> Result<()> {
        if let (Some(sender), Some(receiver)) = (&mut self.sender, &mut self.receiver) {
            let lists = receiver.sack()?;
            receiver.sack_sent();
            let answer = sender.on_sack(&lists.view());
            let digits = sack_digits(self.alloc, &lists)?;
            write!(out, "{digits} {}", sack_answer(answer))?;
        }
        Ok(())
    }
}

/// A call of a sender; nothing is appended for another.
fn sending_call<F: Framing>(
    alloc: Global,
    sender: &mut Sender<F>,
    packets: &mut Packets,
    call: &Call<'_>,
    out: &mut String,
) -> Result<()> {
    match *call {
        Call::Queue {
            stream,
            ordered,
            payload_id,
            until,
            bytes,
        } => match bytes_of(alloc, bytes)? {
            Some(bytes) => queue(sender, stream, ordered, payload_id, bytes, until, out),
            None => Ok(()),
        },
        Call::QueueEach {
            streams,
            ordered,
            payload_id,
            until,
            bytes,
        } => queue_each(
            alloc, sender, streams, ordered, payload_id, bytes, until, out,
        ),
        Call::Fill { limit, recycled } => fill(alloc, sender, packets, limit, recycled, out),
        Call::Forward { room, limit } => forward(alloc, sender, packets, room, limit, out),
        Call::Sack { tsn, rwnd, blocks } => sack(alloc, sender, tsn, rwnd, blocks, out),
        Call::Pace(asked) => pace(alloc, sender, asked, out),
        _ => send(sender, call, out),
    }
}

/// Sends a message on each stream below a number; the answer to the last one.
fn queue_each<F: Framing>(
    alloc: Global,
    sender: &mut Sender<F>,
    streams: u16,
    ordered: bool,
    payload_id: u32,
    bytes: &str,
    until: Option<u64>,
    out: &mut String,
) -> Result<()> {
    let mut last = String::new(alloc);
    for stream in 0..streams {
        if let Some(bytes) = bytes_of(alloc, bytes)? {
            last.clear();
            queue(sender, stream, ordered, payload_id, bytes, until, &mut last)?;
        }
    }
    Ok(write!(out, "{last}")?)
}

/// A call of a receiver; nothing is appended for another.
fn receiving_call<F: Framing>(
    alloc: Global,
    receiver: &mut Receiver<F>,
    packets: &Packets,
    call: &Call<'_>,
    out: &mut String,
) -> Result<()> {
    match *call {
        Call::Data {
            tsn,
            stream,
            flags,
            number,
            word,
            bytes,
        } => match bytes_of(alloc, bytes)? {
            Some(bytes) => data(receiver, tsn, stream, flags, number, word, &bytes, out),
            None => Ok(()),
        },
        Call::Leap { count, tsn } => leap(receiver, count, tsn, out),
        Call::Rise {
            count,
            tsn,
            stream,
            number,
            step,
        } => rise(receiver, count, tsn, step, stream, number, out),
        Call::Skip { tsn, skips } => match skips_of(alloc, F::skip_form(), skips)? {
            Some(skips) => skip(receiver, tsn, &skips, out),
            None => Ok(()),
        },
        Call::Carry { packet } => carry(receiver, packets.get(packet), out),
        Call::Take { stream } => taken(alloc, receiver.take(stream), out),
        Call::NextReadable(from) => readable(receiver.next_readable(from), out),
        Call::Tell => {
            let lists = receiver.sack()?;
            receiver.sack_sent();
            let digits = sack_digits(alloc, &lists)?;
            Ok(write!(out, "{digits}")?)
        }
        Call::Receiving => receiving(receiver, out),
        Call::TrimReceiver => trim(receiver, out),
        _ => Ok(()),
    }
}
