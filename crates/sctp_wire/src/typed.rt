//! Type-length-value lists: parameters and error causes (RFC 9260, 3.2.1 and 3.3.10).

ghost use Rattle.std.specs.Prelude.{◌≡◌, ◌↔◌, ◌<◌, ◌≤◌, ◌^◌, [], true, IsTrue, length, drop};
ghost use Rattle.std.specs.Iterator.{YieldsFirstBy, item_count};
ghost use Rattle.sctp_model.specs.wire.Chunk.{padded};
ghost use Rattle.sctp_model.specs.numbers.Numbers.{AreBytes};
ghost use Rattle.sctp_model.specs.wire.Typed.{length_field, starts_typed, typed_at, are_typed, typed_in, AreAsWritten};
ghost use Rattle.sctp_wire.specs.TypedTree.{typed_meaning};

use crate::as_written::are_as_written;
use crate::numbers::{padded, read_u16};
use std::marker::Model;

/// A parameter or a cause, without its padding.
#[derive(Clone, Copy)]
pub struct TypedItem<'a> {
    /// The type of the parameter, or the code of the cause.
    pub kind: u16,
    /// The value, after type and length.
    pub value: &'a [u8],
}

/// Parameters or causes, one after another: bytes that are known to be such a list.
#[derive(Drop)]
pub struct TypedItems<'a> {
    bytes: &'a [u8],
}

/// The parameters of an INIT or INIT ACK (RFC 9260, 3.2.1).
pub type Parameters<'a> = TypedItems<'a>;
/// A parameter.
pub type Parameter<'a> = TypedItem<'a>;
/// The causes of an ABORT or ERROR (RFC 9260, 3.3.10).
pub type Causes<'a> = TypedItems<'a>;
/// A cause.
pub type Cause<'a> = TypedItem<'a>;

impl<'a> Model for TypedItems<'a> {
    ghost use Rattle.std.specs.Prelude.{◌≡◌, ℕ, List, true};
    ghost use Rattle.sctp_model.specs.numbers.Numbers.{AreBytes};
    ghost use Rattle.sctp_model.specs.wire.Typed.{are_typed};

    ghost Value = { List ℕ };

    ghost view = { λ items. items.bytes.now };

    ghost invariant = { λ items. AreBytes items.bytes.now × (are_typed items.bytes.now ≡ true) };
}

impl<'a> TypedItems<'a> {
    /// The items in these bytes, which must be a list: `is_typed_list` says whether they are.
    pub fn new(bytes: &'a [u8]) -> TypedItems<'a>
        requires { are_typed bytes.now ≡ true }
        ensures { result ≡ bytes.now }
    {
        TypedItems { bytes }
    }

    /// No items.
    pub fn none() -> TypedItems<'static>
        ensures { result ≡ [] }
    {
        TypedItems::new(&[])
    }

    /// The number of bytes, with the padding between the items.
    pub fn size(&self) -> usize
        ensures size { result ≡ length self.now }
        ensures list { are_typed self.now ≡ true }
        ensures bytes { AreBytes self.now }
    {
        self.bytes.len()
    }

    /// Goes over the items in order.
    pub fn iter(&self) -> TypedIter<'a>
        ensures { result ≡ typed_in self.now }
    {
        TypedIter { rest: self.bytes }
    }

    /// The bytes, with the padding between the items.
    pub fn bytes(&self) -> &'a [u8]
        ensures { result.now ≡ self.now }
    {
        self.bytes
    }

    /// Whether the bytes are those that are written for these items: the padding between them is zero, and there is none after
    /// the last.
    pub fn is_plain(&self) -> bool
        ensures { IsTrue result ↔ AreAsWritten self.now }
    {
        are_as_written(self.bytes)
    }
}

/// An iterator over parameters or causes.
#[derive(Drop)]
pub struct TypedIter<'a> {
    rest: &'a [u8],
}

impl<'a> Model for TypedIter<'a> {
    ghost use Rattle.std.specs.Prelude.{◌≡◌, List, true};
    ghost use Rattle.sctp_model.specs.wire.Typed.{Typed, are_typed, typed_in};

    ghost Value = { List Typed };

    ghost view = { λ iter. typed_in iter.rest.now };

    ghost invariant = { λ iter. are_typed iter.rest.now ≡ true };
}

impl<'a> Iterator for TypedIter<'a> {
    type Item = TypedItem<'a>;

    ghost next_gives = { YieldsFirstBy typed_meaning (λ items. items) };

    ghost remaining = { item_count (λ items. items) };

    fn next(&mut self) -> Option<TypedItem<'a>> {
        if self.rest.is_empty() {
            return None;
        }
        let (item, rest) = split_first(self.rest);
        self.rest = rest;
        Some(item)
    }
}

/// Whether bytes are a list of parameters or causes: each item is followed by its padding, of any value, which the last may
/// lack.
pub fn is_typed_list(bytes: &[u8]) -> bool
    ensures { result ≡ are_typed bytes.now }
{
    let mut rest = bytes;
    while starts_typed(rest) {
        rest = split_first(rest).1;
    }
    rest.is_empty()
}

/// Whether bytes begin with a whole item, which nothing follows, or its padding at least.
#[tactic(auto, unfolding(sctp_model::specs::wire::Typed::starts_typed))]
pub(crate) fn starts_typed(bytes: &[u8]) -> bool
    ensures { result ≡ starts_typed bytes.now }
{
    if bytes.len() < 4 {
        return false;
    }
    let size = length_field(bytes);
    size >= 4 && (bytes.len() == size || padded(size) <= bytes.len())
}

/// The length field of the first item.
pub(crate) fn length_field(bytes: &[u8]) -> usize
    requires { 4 ≤ length bytes.now }
    ensures exact { result ≡ length_field bytes.now }
    ensures small { result < 2 ^ 16 }
{
    usize::from(read_u16(&bytes[2..]))
}

/// The first item, and the bytes after it and its padding.
pub(crate) fn split_first(bytes: &[u8]) -> (TypedItem<'_>, &[u8])
    requires { starts_typed bytes.now ≡ true }
    ensures item { typed_meaning result.0 ≡ typed_at bytes.now }
    ensures rest { result.1.now ≡ drop (padded (length_field bytes.now)) bytes.now }
{
    let size = length_field(bytes);
    let item = TypedItem {
        kind: read_u16(bytes),
        value: &bytes[4..size],
    };
    if padded(size) < bytes.len() {
        (item, &bytes[padded(size)..])
    } else {
        (item, &[])
    }
}
