//! The two sides of a case, the time, and the packets that they built.

use crate::bare::bare_call;
use crate::bytes::bytes_of;
use crate::channel::channel_call;
use crate::making::{draw_of, make_side};
use crate::packets::Packet;
use crate::shown::{done, numbered, say, show};
use crate::side::Side;
use crate::words::{Words, unreadable};
use anyhow::Result;
use sctp_endpoint::Ticket;
use std::alloc::Global;
use std::fmt::Write;

/// The two sides, once they were made, the time in milliseconds, and the packets.
#[derive(Drop)]
pub struct Case {
    pub(crate) alloc: Global,
    pub(crate) now: u64,
    pub(crate) packets: Vec<Packet>,
    pub(crate) a: Option<Side>,
    pub(crate) b: Option<Side>,
}

impl Case {
    /// A case at its beginning.
    pub fn new(alloc: Global) -> Case {
        Case {
            alloc,
            now: 0,
            packets: Vec::new(alloc),
            a: None,
            b: None,
        }
    }

    /// Makes the call of a line, and appends its answer; nothing for a line that is no call.
    ///
    /// # Errors
    /// The call can't be read, or an allocation failed.
    pub fn make(&mut self, line: &str, out: &mut String) -> Result<()> {
        let mut words = Words::new(line);
        match words.word()? {
            "new" => self.begin(&mut words, out),
            "at" => self.at(words.number()?, out),
            "deliver" => self.deliver(words.number()?, out),
            "exchange" => self.exchange(out),
            "A" => self.call(true, &mut words, out),
            "B" => self.call(false, &mut words, out),
            _ => Ok(()),
        }
    }

    /// A side is made anew; the one before it is dropped.
    fn begin(&mut self, words: &mut Words<'_>, out: &mut String) -> Result<()> {
        let is_a = words.either("A", "B")?;
        match make_side(self.alloc, is_a, words)? {
            Ok(side) => {
                drop(pick(&mut self.a, &mut self.b, is_a).replace(side));
                say(out, "ok")
            }
            Err(fault) => show(out, &fault),
        }
    }

    /// The time moves on, to this many milliseconds.
    fn at(&mut self, now: u64, out: &mut String) -> Result<()> {
        self.now = self.now.max(now);
        tick(&mut self.a, self.now);
        tick(&mut self.b, self.now);
        say(out, "ok")
    }

    /// A call of a side.
    fn call(&mut self, is_a: bool, words: &mut Words<'_>, out: &mut String) -> Result<()> {
        match words.word()? {
            "poll" => self.poll(is_a, out),
            "abort" => self.abort(is_a, words, out),
            name => {
                let (alloc, now) = (self.alloc, self.now);
                match pick(&mut self.a, &mut self.b, is_a) {
                    Some(side) => call_side(alloc, now, is_a, side, name, words, out),
                    None => Err(unreadable()),
                }
            }
        }
    }

    /// Aborts the association at a side: its ABORT.
    fn abort(&mut self, is_a: bool, words: &mut Words<'_>, out: &mut String) -> Result<()> {
        let reason = bytes_of(self.alloc, words)?;
        match self.side(is_a)?.abort(&reason) {
            Ok(packet) => self.note(!is_a, packet, out),
            Err(fault) => show(out, &fault),
        }
    }

    /// One of the sides.
    pub(crate) fn side(&mut self, is_a: bool) -> Result<&mut Side> {
        pick(&mut self.a, &mut self.b, is_a)
            .as_mut()
            .ok_or_else(unreadable)
    }
}

/// The first of both, or the second.
pub(crate) fn pick<'x>(
    a: &'x mut Option<Side>,
    b: &'x mut Option<Side>,
    is_a: bool,
) -> &'x mut Option<Side> {
    if is_a { a } else { b }
}

/// The time of a side, if it is there.
fn tick(side: &mut Option<Side>, now: u64) {
    if let Some(side) = side {
        side.on_moment(now);
    }
}

/// A call of a side that builds no packet.
fn call_side(
    alloc: Global,
    now: u64,
    is_a: bool,
    side: &mut Side,
    name: &str,
    words: &mut Words<'_>,
    out: &mut String,
) -> Result<()> {
    match name {
        "connect" => done(out, side.connect(now, draw_of(is_a)?)),
        "shutdown" => done(out, side.shutdown()),
        "abandon" => {
            let fate = side.abandon(Ticket(words.number()?));
            numbered(out, "fate", u64::from(fate.code()))
        }
        "state" => show_state(side, out),
        "tag" => show_tag(side, out),
        _ => match side {
            Side::Channels(channels) => channel_call(alloc, now, channels, name, words, out),
            Side::Bare(endpoint) => bare_call(alloc, endpoint, name, words, out),
        },
    }
}

/// The verification tag that packets to a side carry.
fn show_tag(side: &Side, out: &mut String) -> Result<()> {
    match side.endpoint().own_tag() {
        Some(tag) => numbered(out, "tag", u64::from(tag)),
        None => say(out, "none"),
    }
}

/// The state of a side, how its association ended, when it wants the time, and its streams each way.
fn show_state(side: &Side, out: &mut String) -> Result<()> {
    let endpoint = side.endpoint();
    write!(out, "{:?} {:?}", endpoint.state(), endpoint.ended())?;
    match endpoint.next_moment() {
        Some(moment) => write!(out, " {moment}")?,
        None => write!(out, " -")?,
    }
    Ok(write!(out, " {} {}", endpoint.outbound(), endpoint.inbound())?)
}
