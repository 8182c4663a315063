//! The calls of a sender and their answers.

use crate::call::Call;
use crate::parts::blocks_of;
use crate::shown::show_packet;
use anyhow::Result;
use sctp_framing::Framing;
use sctp_packet::PacketWriter;
use sctp_send::{Abandoned, SackFault, SendFault, Sender, Ticket};
use sctp_values::GREATEST_PACKET;
use sctp_wire::{Blocks, Sack, Tsns};
use std::alloc::Global;
use std::fmt::Write;

/// The most tickets shown of a packet.
const SHOWN_TICKETS: usize = 8;

/// The packets that a sender built, numbered from 1.
#[derive(Drop)]
pub struct Packets {
    list: Vec<Vec<u8>>,
}

impl Packets {
    /// No packet.
    pub fn new(alloc: Global) -> Packets {
        Packets {
            list: Vec::new(alloc),
        }
    }

    /// The packet with this number.
    pub fn get(&self, number: usize) -> Option<&[u8]> {
        let packet = self.list.get(number.checked_sub(1)?)?;
        Some(packet.as_slice())
    }

    /// Shows a packet with the next number, and keeps it.
    fn keep(&mut self, alloc: Global, packet: Vec<u8>, out: &mut String) -> Result<()> {
        write!(out, "packet {} ", self.list.len().saturating_add(1))?;
        show_packet(alloc, &packet, out)?;
        self.list.push(packet)?;
        Ok(())
    }
}

/// Sends a message.
pub fn queue<F: Framing>(
    sender: &mut Sender<F>,
    stream: u16,
    ordered: bool,
    payload_id: u32,
    bytes: Vec<u8>,
    until: Option<u64>,
    out: &mut String,
) -> Result<()> {
    let bytes = in_buffer(sender, bytes)?;
    match sender.queue(stream, ordered, payload_id, bytes, until) {
        Ok(Ticket(ticket)) => write!(out, "ticket {ticket}")?,
        Err(SendFault::NoSuchStream) => write!(out, "no such stream")?,
        Err(SendFault::Resetting) => write!(out, "resetting")?,
        Err(SendFault::Empty) => write!(out, "empty")?,
        Err(SendFault::TooLong) => write!(out, "too long")?,
        Err(SendFault::QueueFull) => write!(out, "queue full")?,
        Err(SendFault::Spent) => write!(out, "spent")?,
        Err(fault) => return Err(fault.into()),
    }
    Ok(())
}

/// The bytes in a buffer of a message that is over, if the sender keeps one that they fit in, as they are otherwise.
fn in_buffer<F: Framing>(sender: &mut Sender<F>, bytes: Vec<u8>) -> Result<Vec<u8>> {
    match sender.take_buffer(bytes.len()) {
        Some(mut buffer) => {
            buffer.extend_from_slice(&bytes)?;
            Ok(buffer)
        }
        None => Ok(bytes),
    }
}

/// Fills a packet of a given maximum size; the buffer of the tickets may be returned to the sender.
pub fn fill<F: Framing>(
    alloc: Global,
    sender: &mut Sender<F>,
    packets: &mut Packets,
    limit: u16,
    recycled: bool,
    out: &mut String,
) -> Result<()> {
    let mut packet = PacketWriter::new(alloc, limit, 1, 2, 3);
    let mut again = Vec::new(alloc);
    let filled = sender.fill(&mut again, &mut packet)?;
    match packet.finish() {
        Some(bytes) => packets.keep(alloc, bytes, out)?,
        None => write!(out, "nothing")?,
    }
    show_tickets(&filled.tickets, out)?;
    if recycled {
        sender.recycle_tickets(filled.tickets);
    }
    Ok(())
}

/// The tickets that were given TSNs; of many the first ones.
fn show_tickets(tickets: &[Ticket], out: &mut String) -> Result<()> {
    if !tickets.is_empty() {
        write!(out, ", tickets")?;
    }
    for Ticket(ticket) in tickets.iter().take(SHOWN_TICKETS) {
        write!(out, " {ticket}")?;
    }
    if tickets.len() > SHOWN_TICKETS {
        write!(out, " ..{}", tickets.len())?;
    }
    Ok(())
}

/// A packet of a given maximum size with the FORWARD for packets of a limit.
pub fn forward<F: Framing>(
    alloc: Global,
    sender: &Sender<F>,
    packets: &mut Packets,
    room: u16,
    limit: u16,
    out: &mut String,
) -> Result<()> {
    if limit > GREATEST_PACKET {
        return Ok(());
    }
    let mut packet = PacketWriter::new(alloc, room, 1, 2, 3);
    let put = sender.put_forward(&mut packet, limit)?;
    match packet.finish() {
        Some(bytes) if put => packets.keep(alloc, bytes, out),
        _ => Ok(write!(out, "nothing")?),
    }
}

/// A SACK arrives.
pub fn sack<F: Framing>(
    alloc: Global,
    sender: &mut Sender<F>,
    cumulative: u32,
    rwnd: u32,
    blocks: Option<&str>,
    out: &mut String,
) -> Result<()> {
    if let Some(list) = blocks_of(alloc, blocks)? {
        // Each block has 4 bytes.
        if list.len() % 4 == 0 {
            let answer = sender.on_sack(&Sack {
                cumulative,
                rwnd,
                blocks: Blocks::new(&list),
                duplicates: Tsns::none(),
            });
            write!(out, "{}", sack_answer(answer))?;
        }
    }
    Ok(())
}

/// The answer to a SACK or a SHUTDOWN.
pub fn sack_answer(answer: Result<(), SackFault>) -> &'static str {
    match answer {
        Ok(()) => "ok",
        Err(SackFault::Stale) => "stale",
        Err(SackFault::Beyond) => "beyond",
        Err(SackFault::BadBlock) => "bad block",
    }
}

/// The other calls of a sender.
pub fn send<F: Framing>(sender: &mut Sender<F>, call: &Call<'_>, out: &mut String) -> Result<()> {
    match *call {
        Call::Shutdown { tsn } => write!(out, "{}", sack_answer(sender.on_shutdown(tsn)))?,
        Call::Abandon(ticket) => write!(out, "{}", abandon_answer(sender.abandon(ticket)))?,
        Call::Expire { now } => {
            sender.expire(now);
            write!(out, "ok")?;
        }
        Call::Timeout => {
            sender.on_timeout();
            write!(out, "ok")?;
        }
        Call::Fate(ticket) => write!(out, "{}", fate(sender, ticket))?,
        Call::Sending => show_sender(sender, out)?,
        Call::Trim => {
            sender.trim();
            write!(out, "ok")?;
        }
        _ => {}
    }
    Ok(())
}

/// The answer to abandoning a message.
fn abandon_answer(answer: Abandoned) -> &'static str {
    match answer {
        Abandoned::Withdrawn => "withdrawn",
        Abandoned::Abandoned => "abandoned",
        Abandoned::Acknowledged => "acknowledged",
        Abandoned::Unknown => "unknown",
        Abandoned::Reliable => "reliable",
    }
}

/// What has become of a message.
fn fate<F: Framing>(sender: &Sender<F>, ticket: Ticket) -> &'static str {
    match (sender.acknowledged(ticket), sender.abandoned(ticket)) {
        (true, false) => "acknowledged",
        (false, true) => "abandoned",
        (false, false) => "neither",
        (true, true) => "both",
    }
}

/// The readers of a sender.
fn show_sender<F: Framing>(sender: &Sender<F>, out: &mut String) -> Result<()> {
    write!(out, "cum {} point {}", sender.cum(), sender.point())?;
    write!(out, " outstanding {}", sender.outstanding())?;
    if sender.drained() {
        write!(out, " drained")?;
    }
    if sender.unsettled() {
        write!(out, " unsettled")?;
    }
    Ok(())
}
