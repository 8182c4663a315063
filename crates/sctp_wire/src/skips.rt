//! The entries of a FORWARD-TSN or of an I-FORWARD-TSN: bytes that are known to be whole entries.

ghost use Rattle.std.specs.Prelude.{◌≡◌, ◌↔◌, ◌+◌, ◌*◌, ◌%◌, ◌≤◌, ◌<◌, ◌^◌, [], ◌∷◌, ◌++◌, true, length, vec_len, vec_capacity, IsTrue, IsOk, OnOk, OnErr};
ghost use Rattle.std.specs.List.{flat_map, AllByRecursion};
ghost use Rattle.std.specs.Iterator.{YieldsFirstBy, item_count};
ghost use Rattle.sctp_wire.specs.ChunkTree.{skip_meaning};
ghost use Rattle.sctp_wire.specs.Skips.{skip_size, skip_bytes, skip_at, IsSkip, skips_in, are_reserved_zero, skip_list};

use crate::numbers::{append_u16, append_u32, read_u16, read_u32};
use sctp_values::NoMemory;
use std::marker::Model;

/// The layout of an entry.
#[derive(Clone, Copy)]
pub enum SkipForm {
    /// FORWARD-TSN's: stream 16 bits, stream sequence number 16 (RFC 3758, 3.2).
    Narrow,
    /// I-FORWARD-TSN's: stream 16 bits, reserved 15, U 1, message identifier 32 (RFC 8260, 2.3.1).
    Wide,
}

impl SkipForm {
    /// The bytes of an entry, 4 or 8.
    pub fn size(self) -> usize
        ensures { result ≡ skip_size self }
    {
        match self {
            SkipForm::Narrow => 4,
            SkipForm::Wide => 8,
        }
    }
}

/// An entry of a FORWARD-TSN or I-FORWARD-TSN: the largest stream sequence number or message identifier skipped among the ordered, or among the
/// unordered, messages of a stream (RFC 3758, 3.2; RFC 8260, 2.3.1).
#[derive(Clone, Copy, Debug, PartialEq, Eq)]
pub struct Skip {
    pub stream: u16,
    /// Whether it is of the unordered messages; FORWARD-TSN has no entries for those.
    pub unordered: bool,
    /// The stream sequence number, of 16 bits, or the message identifier, of 32.
    pub number: u32,
}

/// The entries of a FORWARD-TSN or I-FORWARD-TSN.
#[derive(Drop)]
pub struct Skips<'a> {
    form: SkipForm,
    bytes: &'a [u8],
}

impl<'a> Model for Skips<'a> {
    ghost use Rattle.std.specs.Prelude.{◌≡◌, ◌%◌, length};
    ghost use Rattle.sctp_model.specs.numbers.Numbers.{AreBytes};
    ghost use Rattle.sctp_wire.specs.Skips.{SkipList, skip_list, skip_size};

    ghost Value = { SkipList };

    ghost view = { λ s. skip_list s.form s.bytes.now };

    ghost invariant = { λ s. (length s.bytes.now % skip_size s.form ≡ 0) × AreBytes s.bytes.now };
}

impl<'a> Skips<'a> {
    /// The entries in these bytes.
    pub fn new(form: SkipForm, bytes: &'a [u8]) -> Skips<'a>
        requires { length bytes.now % skip_size form ≡ 0 }
        ensures { result ≡ skip_list form bytes.now }
    {
        Skips { form, bytes }
    }

    /// No entries.
    pub fn none() -> Skips<'static>
        ensures skips { result.skips ≡ [] }
        ensures plain { result.plain ≡ true }
    {
        Skips::new(SkipForm::Narrow, &[])
    }

    /// How many there are.
    pub fn len(&self) -> usize
        ensures count { result ≡ length self.now.skips }
        ensures small { result < 2 ^ 62 }
    {
        self.bytes.len() / self.form.size()
    }

    /// Goes over them in order.
    pub fn iter(&self) -> SkipIter<'a>
        ensures { result ≡ self.now.skips }
    {
        SkipIter {
            form: self.form,
            rest: self.bytes,
        }
    }

    /// Whether the reserved bits of all entries are zero.
    pub fn is_plain(&self) -> bool
        ensures { result ≡ self.now.plain }
    {
        match self.form {
            SkipForm::Narrow => true,
            SkipForm::Wide => are_reserved_zero(self.bytes),
        }
    }
}

/// Whether the reserved bits of all I-FORWARD-TSN entries are zero.
fn are_reserved_zero(bytes: &[u8]) -> bool
    ensures { result ≡ are_reserved_zero SkipForm.Wide bytes.now }
{
    let mut rest = bytes;
    while rest.len() >= 8 {
        if read_u16(&rest[2..]) > 1 {
            return false;
        }
        rest = &rest[8..];
    }
    true
}

/// An iterator over entries.
#[derive(Drop)]
pub struct SkipIter<'a> {
    form: SkipForm,
    rest: &'a [u8],
}

impl<'a> Model for SkipIter<'a> {
    ghost use Rattle.std.specs.Prelude.{List};
    ghost use Rattle.sctp_model.specs.wire.Chunk.{SkipMeaning};
    ghost use Rattle.sctp_wire.specs.Skips.{skips_in};

    ghost Value = { List SkipMeaning };

    ghost view = { λ s. skips_in s.form s.rest.now };
}

impl<'a> Iterator for SkipIter<'a> {
    type Item = Skip;

    ghost next_gives = { YieldsFirstBy skip_meaning (λ s. s) };

    ghost remaining = { item_count (λ s. s) };

    fn next(&mut self) -> Option<Skip> {
        let size = self.form.size();
        if self.rest.len() < size {
            return None;
        }
        let skip = read_skip(self.form, self.rest);
        self.rest = &self.rest[size..];
        Some(skip)
    }
}

/// The entry in the first bytes.
fn read_skip(form: SkipForm, bytes: &[u8]) -> Skip
    requires { skip_size form ≤ length bytes.now }
    ensures { skip_meaning result ≡ skip_at form bytes.now }
{
    match form {
        SkipForm::Narrow => Skip {
            stream: read_u16(bytes),
            unordered: false,
            number: u32::from(read_u16(&bytes[2..])),
        },
        SkipForm::Wide => Skip {
            stream: read_u16(bytes),
            unordered: read_u16(&bytes[2..]) % 2 == 1,
            number: read_u32(&bytes[4..]),
        },
    }
}

/// Whether all entries are within their bits.
pub(crate) fn are_in_range(form: SkipForm, skips: &Skips<'_>) -> bool
    ensures { IsTrue result ↔ AllByRecursion (IsSkip form) skips.now.skips }
{
    for skip in skips.iter() {
        if !skip_fits(form, skip) {
            return false;
        }
    }
    true
}

/// Whether an entry is within its bits.
fn skip_fits(form: SkipForm, skip: Skip) -> bool
    ensures { IsTrue result ↔ IsSkip form (skip_meaning skip) }
{
    match form {
        SkipForm::Narrow => skip.number <= u32::from(u16::MAX) && !skip.unordered,
        SkipForm::Wide => true,
    }
}

/// Appends an entry, for which there is capacity, its reserved bits zero.
fn append_skip(form: SkipForm, out: &mut Vec<u8>, skip: Skip)
    requires in_range { IsSkip form (skip_meaning skip) }
    requires spare { vec_len out.old + skip_size form ≤ vec_capacity out.old }
    ensures items { out.new.items ≡ out.old.items ++ skip_bytes form (skip_meaning skip) }
    ensures len { vec_len out.new ≡ vec_len out.old + skip_size form }
    ensures room { vec_capacity out.old ≤ vec_capacity out.new }
{
    append_u16(out, skip.stream);
    match form {
        SkipForm::Narrow => append_u16(out, skip.number as u16),
        SkipForm::Wide => {
            append_u16(out, u16::from(skip.unordered));
            append_u32(out, skip.number);
        }
    }
}

/// Appends entries, for which there is capacity, their reserved bits zero.
pub(crate) fn append_skips(form: SkipForm, out: &mut Vec<u8>, skips: &Skips<'_>)
    requires in_range { AllByRecursion (IsSkip form) skips.now.skips }
    requires spare { vec_len out.old + skip_size form * length skips.now.skips ≤ vec_capacity out.old }
    ensures items { out.new.items ≡ out.old.items ++ flat_map (skip_bytes form) skips.now.skips }
    ensures len { vec_len out.new ≡ vec_len out.old + skip_size form * length skips.now.skips }
    ensures room { vec_capacity out.old ≤ vec_capacity out.new }
{
    for skip in skips.iter() {
        append_skip(form, out, skip);
    }
}

/// Appends an entry to the bytes of `Skips` (RFC 3758, 3.2; RFC 8260, 2.3.1).
///
/// # Errors
/// `NoMemory` if allocation fails; the list is then unchanged.
pub fn put_skip(form: SkipForm, skip: Skip, list: &mut Vec<u8>) -> Result<(), NoMemory>
    requires { IsSkip form (skip_meaning skip) }
    ensures bytes { OnOk result (list.new.items ≡ list.old.items ++ skip_bytes form (skip_meaning skip)) }
    // Appended to whole entries, the list is these and this one.
    ensures skips { length list.old.items % skip_size form ≡ 0
        → OnOk result (skips_in form list.new.items ≡ skips_in form list.old.items ++ skip_meaning skip ∷ []) }
    ensures len { OnOk result (vec_len list.new ≡ vec_len list.old + skip_size form) }
    ensures refused { OnErr result (list.new.items ≡ list.old.items) }
    ensures memory { vec_len list.old + skip_size form ≤ vec_capacity list.old → IsOk result }
{
    list.reserve(form.size()).map_err(|_| NoMemory)?;
    append_skip(form, list, skip);
    Ok(())
}
