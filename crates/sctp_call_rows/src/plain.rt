//! The calls of numbers, bytes and cookies, which need no sender and no receiver.

use crate::bytes::{again, packed, rule, sum, sums};
use crate::cookies::{mac, opened, sealed};
use crate::numbers::{Compared, How, compare, tell};
use crate::words::Words;
use anyhow::Result;
use sctp_cookie::{CookieBody, Ports};
use sctp_serial::{S16, S32, index_ahead, tsn_of};
use sctp_wire::{unknown_chunk, unknown_parameter};
use std::alloc::Global;
use std::fmt::Write;

/// A call that needs no sender and no receiver.
#[derive(Clone, Copy)]
pub enum Plain<'a> {
    /// Wire values of 16 bits.
    Short(Compared),
    /// Wire values of 32 bits.
    Long(Compared),
    Tsn {
        initial: u32,
        index: u64,
    },
    /// The index of a TSN, as far ahead of a known index as the TSN is of that index's.
    Index {
        initial: u32,
        known: u64,
        tsn: u32,
    },
    /// A checksum.
    Sum(&'a str),
    /// The checksums of all prefixes of a sequence up to this length.
    Sums(u16),
    /// Chunks to be read and written again.
    Again(&'a str),
    UnknownChunk(u8),
    UnknownParameter(u16),
    /// A packet with chunks as far as they fit.
    Packet {
        limit: u16,
        source: u16,
        destination: u16,
        tag: u32,
        chunks: &'a str,
    },
    Mac {
        key: &'a str,
        text: &'a str,
    },
    Seal {
        key: &'a str,
        body: CookieBody,
    },
    /// A cookie that arrives at a time, between ports, with a tag.
    Open {
        key: &'a str,
        cookie: &'a str,
        now: u64,
        ports: Ports,
        tag: u32,
    },
}

/// The call with this name, if it is one.
pub fn read_plain<'a>(name: &str, words: &mut Words<'a>) -> Option<Plain<'a>> {
    Some(match name {
        "16" => Plain::Short(read_compared(words)?),
        "32" => Plain::Long(read_compared(words)?),
        "tsn" => Plain::Tsn {
            initial: words.number()?,
            index: words.number()?,
        },
        "index" => Plain::Index {
            initial: words.number()?,
            known: words.number()?,
            tsn: words.number()?,
        },
        "sum" => Plain::Sum(words.next()?),
        "sums" => Plain::Sums(words.number()?),
        "again" => Plain::Again(words.next()?),
        "chunk" => Plain::UnknownChunk(words.number()?),
        "parameter" => Plain::UnknownParameter(words.number()?),
        "packet" => Plain::Packet {
            limit: words.number()?,
            source: words.number()?,
            destination: words.number()?,
            tag: words.number()?,
            chunks: words.next()?,
        },
        _ => return read_cookie_call(name, words),
    })
}

/// A call of MACs and cookies.
fn read_cookie_call<'a>(name: &str, words: &mut Words<'a>) -> Option<Plain<'a>> {
    Some(match name {
        "mac" => Plain::Mac {
            key: words.next()?,
            text: words.next()?,
        },
        "seal" => Plain::Seal {
            key: words.next()?,
            body: read_body(words)?,
        },
        "open" => Plain::Open {
            key: words.next()?,
            cookie: words.next()?,
            now: words.number()?,
            ports: Ports {
                listener: words.number()?,
                caller: words.number()?,
            },
            tag: words.number()?,
        },
        _ => return None,
    })
}

/// How two counts are compared, and the two.
fn read_compared(words: &mut Words<'_>) -> Option<Compared> {
    let how = match words.next()? {
        "ahead" => How::Ahead,
        "before" => How::Before,
        "near" => How::Near,
        _ => return None,
    };
    Some(Compared {
        how,
        first: words.number()?,
        second: words.number()?,
    })
}

/// The fields of a cookie, in the order of its layout.
fn read_body(words: &mut Words<'_>) -> Option<CookieBody> {
    Some(CookieBody {
        made: words.number()?,
        listener_port: words.number()?,
        caller_port: words.number()?,
        listener_tag: words.number()?,
        caller_tag: words.number()?,
        listener_tsn: words.number()?,
        caller_tsn: words.number()?,
        caller_rwnd: words.number()?,
        streams_to_caller: words.number()?,
        streams_from_caller: words.number()?,
        partial_reliability: words.either("pr", "-")?,
        interleaving: words.either("i-data", "-")?,
    })
}

/// Makes a call and appends its answer; nothing if its bytes can't be read.
pub fn answer(alloc: Global, call: &Plain<'_>, out: &mut String) -> Result<()> {
    match *call {
        Plain::Short(two) => compare::<S16>(two, out),
        Plain::Long(two) => compare::<S32>(two, out),
        Plain::Tsn { initial, index } => Ok(write!(out, "{}", tsn_of(initial, index))?),
        Plain::Index {
            initial,
            known,
            tsn,
        } => tell(index_ahead(initial, known, tsn), out),
        Plain::Sum(bytes) => sum(alloc, bytes, out),
        Plain::Sums(count) => sums(alloc, usize::from(count), out),
        Plain::Again(bytes) => again(alloc, bytes, out),
        Plain::UnknownChunk(kind) => rule(unknown_chunk(kind), out),
        Plain::UnknownParameter(kind) => rule(unknown_parameter(kind), out),
        Plain::Packet {
            limit,
            source,
            destination,
            tag,
            chunks,
        } => packed(alloc, limit, source, destination, tag, chunks, out),
        Plain::Mac { key, text } => mac(alloc, key, text, out),
        Plain::Seal { key, body } => sealed(alloc, key, &body, out),
        Plain::Open {
            key,
            cookie,
            now,
            ports,
            tag,
        } => opened(alloc, key, cookie, now, ports, tag, out),
    }
}
