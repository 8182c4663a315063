//! The streams of a request that was received: bytes, read as stream numbers one after another (RFC 6525, 4.1).

ghost use Rattle.std.specs.Prelude.{◌≡◌, ◌==◌, length};
ghost use Rattle.std.specs.Iterator.{YieldsFirst, item_count};
ghost use Rattle.sctp_model.specs.wire.Reconfig.{u16s_in};

use crate::numbers::read_u16;
use std::marker::Model;

/// The bytes of a stream number.
const STREAM: usize = 2;

/// The streams that a request lists, in its order; all of its sender's outgoing streams if it lists none (RFC 6525, 4.1).
#[derive(Drop)]
pub struct Streams<'a> {
    bytes: &'a [u8],
}

impl<'a> Model for Streams<'a> {
    ghost use Rattle.std.specs.Prelude.{ℕ, List};
    ghost use Rattle.sctp_model.specs.wire.Reconfig.{u16s_in};

    ghost Value = { List ℕ };

    ghost view = { λ s. u16s_in s.bytes.now };
}

impl<'a> Streams<'a> {
    /// The stream numbers in these bytes, 2 bytes each; a last odd byte is ignored.
    pub(crate) fn new(bytes: &'a [u8]) -> Streams<'a>
        ensures { result ≡ u16s_in bytes.now }
    {
        Streams { bytes }
    }

    /// Whether none is listed.
    pub fn is_empty(&self) -> bool
        ensures { result ≡ (length self.now == 0) }
    {
        self.bytes.len() < STREAM
    }

    /// How many are listed.
    pub(crate) fn len(&self) -> usize
        ensures { result ≡ length self.now }
    {
        self.bytes.len() / STREAM
    }

    /// Goes over them in order.
    pub fn iter(&self) -> StreamIter<'a>
        ensures { result ≡ self.now }
    {
        StreamIter { rest: self.bytes }
    }
}

/// An iterator over stream numbers.
#[derive(Drop)]
pub struct StreamIter<'a> {
    rest: &'a [u8],
}

impl<'a> Model for StreamIter<'a> {
    ghost use Rattle.std.specs.Prelude.{ℕ, List};
    ghost use Rattle.sctp_model.specs.wire.Reconfig.{u16s_in};

    ghost Value = { List ℕ };

    ghost view = { λ s. u16s_in s.rest.now };
}

impl<'a> Iterator for StreamIter<'a> {
    type Item = u16;

    ghost next_gives = { YieldsFirst (λ s. s) };

    ghost remaining = { item_count (λ s. s) };

    fn next(&mut self) -> Option<u16> {
        if self.rest.len() < STREAM {
            return None;
        }
        let stream = read_u16(self.rest);
        self.rest = &self.rest[STREAM..];
        Some(stream)
    }
}
