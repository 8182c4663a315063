//! Packets are built, kept, and delivered.

use crate::case::{Case, pick};
use crate::making::draw_of;
use crate::shown::{numbered, say};
use crate::words::unreadable;
use anyhow::Result;
use sctp_endpoint::{Sent, Verdict};
use std::fmt::Write;

/// How many packets each side sends at most in an exchange.
const EXCHANGED: u32 = 100_000;

/// A packet that was built.
#[derive(Drop)]
pub struct Packet {
    to_a: bool,
    bytes: Vec<u8>,
}

impl Case {
    /// Builds the next packet of a side.
    pub(crate) fn poll(&mut self, is_a: bool, out: &mut String) -> Result<()> {
        let now = self.now;
        match self.side(is_a)?.poll_transmit(now)? {
            Some(sent) => self.note(!is_a, sent.packet, out),
            None => say(out, "nothing"),
        }
    }

    /// Keeps a packet, and shows its number, its length and its checksum.
    pub(crate) fn note(&mut self, to_a: bool, bytes: Vec<u8>, out: &mut String) -> Result<()> {
        let sum = hex::encode(self.alloc, bytes.get(8..12).unwrap_or(&[]))?;
        let length = bytes.len();
        let number = self.keep(to_a, bytes)?;
        Ok(write!(out, "packet {number} {length} {sum}")?)
    }

    /// Delivers a packet.
    pub(crate) fn deliver(&mut self, number: usize, out: &mut String) -> Result<()> {
        match self.handle(number)? {
            Verdict::Taken => say(out, "taken"),
            Verdict::Dropped(why) => numbered(out, "dropped", u64::from(why.code())),
            Verdict::Answer(bytes) => {
                let to_a = self.goes_to_a(number);
                self.note(!to_a, bytes, out)
            }
        }
    }

    /// Delivers what both sides send, in turn, until neither has a packet.
    pub(crate) fn exchange(&mut self, out: &mut String) -> Result<()> {
        for _ in 0..EXCHANGED {
            let went = self.carry(true)?;
            let came = self.carry(false)?;
            if !went && !came {
                break;
            }
        }
        numbered(out, "packets", self.packets.len() as u64)
    }

    /// Delivers the next packet of a side, and the answer to it: whether there was one.
    fn carry(&mut self, is_a: bool) -> Result<bool> {
        let now = self.now;
        let Some(sent) = self.side(is_a)?.poll_transmit(now)? else {
            return Ok(false);
        };
        let Sent { packet, tickets } = sent;
        drop(tickets);
        let number = self.keep(!is_a, packet)?;
        if let Verdict::Answer(bytes) = self.handle(number)? {
            let number = self.keep(is_a, bytes)?;
            drop(self.handle(number)?);
        }
        Ok(true)
    }

    /// Keeps a packet, and returns its number.
    fn keep(&mut self, to_a: bool, bytes: Vec<u8>) -> Result<usize> {
        self.packets.push(Packet { to_a, bytes })?;
        Ok(self.packets.len())
    }

    /// The packet of this number goes to A.
    fn goes_to_a(&self, number: usize) -> bool {
        match self.packets.get(number.wrapping_sub(1)) {
            Some(packet) => packet.to_a,
            None => false,
        }
    }

    /// Delivers the packet of this number.
    fn handle(&mut self, number: usize) -> Result<Verdict> {
        let Some(packet) = self.packets.get(number.wrapping_sub(1)) else {
            return Err(unreadable());
        };
        match pick(&mut self.a, &mut self.b, packet.to_a) {
            Some(side) => Ok(side.handle_packet(self.now, &packet.bytes, draw_of(packet.to_a)?)?),
            None => Err(unreadable()),
        }
    }
}
