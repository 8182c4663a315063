//! Stretches: 64 entries in a row. If all of a stretch's entries are quiet (a SACK changes nothing of them but whether they are
//! acknowledged), and all or none are acknowledged, the stretch is acknowledged, or not any more, as a whole: its flags are set and two
//! sums are changed by what is known of it, without a look at its entries (RFC 9260, 6.2.1).

ghost use Rattle.std.specs.Prelude.{◌≡◌, ℕ, ◌+◌, ◌*◌, ◌/◌, ◌%◌, ◌<◌, ◌≤◌, [], true, false, not, length, slice_get, Some};
ghost use Rattle.std.specs.VecDeque.{deque_capacity};
ghost use Rattle.sctp_send.specs.declared.kept.stretches.Stretch.{Stretch};
ghost use Rattle.sctp_send.specs.OutstandingFields.{item_meaning};
ghost use Rattle.sctp_send.specs.inner.Counting.{entered, IsCounted};
ghost use Rattle.sctp_send.specs.inner.Stretching.{IsPlain, IsQuiet, plain_bytes, plain_one, AreAlike, told_run, covered_run, turned_counts};

use crate::kept::counts::Counts;
use crate::kept::entry::{Entry, Standing};
use crate::kept::wishes::{bytes_in, whole};
use std::collections::VecDeque;

/// The number of entries of a stretch. The index of its first one is a multiple of this number.
pub(crate) const STRETCH: usize = 64;

/// The number of slots. A stretch shares its slot with the one this many stretches further on.
const SLOTS: usize = 512;

/// If there are at most this many entries, no two whole stretches share a slot.
pub(crate) const MOST_KNOWN: usize = 32_768;

/// The slots are allocated when space for entries is, if at least this many are outstanding.
const FEW: usize = 256;

/// What is known of a stretch. Its abandoned entries belong to it, and count neither as bytes in flight nor as unsettled.
#[derive(Clone, Copy)]
pub(crate) struct Stretch {
    /// Each of its entries is quiet (`is_quiet`), and the fields below are valid.
    pub(crate) is_known: bool,
    /// All entries are acknowledged by the last SACK; otherwise none is.
    pub(crate) covered: bool,
    /// The number of entries that aren't abandoned.
    pub(crate) plain: u8,
    /// The bytes of user data of these.
    pub(crate) bytes: u32,
    /// The bytes of their chunks.
    pub(crate) chunks: u32,
}

/// A stretch of which nothing is known.
pub(crate) const UNKNOWN: Stretch = Stretch {
    is_known: false,
    covered: false,
    plain: 0,
    bytes: 0,
    chunks: 0,
};

/// The slot of the stretch that has this index.
fn slot_of(index: u32) -> usize
    ensures { result ≡ index / 64 % 512 }
{
    index as usize / STRETCH % SLOTS
}

/// What is known of the stretch that has this index.
pub(crate) fn stretch_of(stretches: &[Stretch], index: u32) -> Stretch
    ensures { result.is_known ≡ true → slice_get stretches.now (index / 64 % 512) ≡ Some result }
{
    let at = slot_of(index);
    if at < stretches.len() {
        stretches[at]
    } else {
        UNKNOWN
    }
}

/// Stores what is known of the stretch that has this index; if there are no slots, nothing.
pub(crate) fn put_stretch(stretches: &mut Vec<Stretch>, index: u32, stretch: Stretch)
    ensures here { (s : Stretch) → slice_get stretches.new.items (index / 64 % 512) ≡ Some s → s ≡ stretch }
    ensures others { (k : ℕ) → (k ≡ index / 64 % 512 → ⊥) → slice_get stretches.new.items k ≡ slice_get stretches.old.items k }
{
    let at = slot_of(index);
    if at < stretches.len() {
        stretches[at] = stretch;
    }
}

/// Forgets the stretch that has this index, since an entry of it is added or changes.
pub(crate) fn forget_stretch(stretches: &mut Vec<Stretch>, index: u32)
    ensures here { (s : Stretch) → slice_get stretches.new.items (index / 64 % 512) ≡ Some s → s.is_known ≡ false }
    ensures others { (k : ℕ) → (k ≡ index / 64 % 512 → ⊥) → slice_get stretches.new.items k ≡ slice_get stretches.old.items k }
{
    if stretches.is_empty() {
        return;
    }
    put_stretch(stretches, index, UNKNOWN);
}

/// Allocates the slots if many entries are outstanding. If the allocation fails there are none, and each SACK looks at each entry.
pub(crate) fn keep_stretches(stretches: &mut Vec<Stretch>, entries: usize)
    ensures { (k : ℕ) (s : Stretch) → slice_get stretches.new.items k ≡ Some s → s.is_known ≡ true → slice_get stretches.old.items k ≡ Some s }
{
    if entries >= FEW && stretches.is_empty() {
        let _kept = stretches.resize(SLOTS, UNKNOWN);
    }
}

/// Frees the slots, so that nothing is known.
pub(crate) fn forget_all(stretches: &mut Vec<Stretch>)
    ensures { stretches.new.items ≡ [] }
{
    stretches.clear();
    stretches.shrink_to_fit();
}

/// Looks at the entries of the stretch that begins at an offset, where so many bytes of a chunk are before its data. It is known if all of them are quiet, and
/// all or none acknowledged.
#[inline(never)]
pub(crate) fn look_at_stretch(
    entries: &VecDeque<Entry>,
    size: u16,
    header: u16,
    at: usize,
) -> Stretch
    requires some { 0 < size }
    requires within { at + 64 ≤ length entries.now.items }
    ensures { result.is_known ≡ true → AreAlike header size result.covered result.bytes result.chunks result.plain at 64 entries.now.items }
{
    let covered = entries[at].covered;
    let mut bytes: u32 = 0;
    let mut chunks: u32 = 0;
    let mut plain: u8 = 0;
    for offset in at..at + STRETCH {
        let entry = &entries[offset];
        if entry.covered != covered {
            return UNKNOWN;
        }
        if !is_quiet(entry) {
            return UNKNOWN;
        }
        let data = bytes_if_plain(entry, size);
        bytes += data;
        chunks += whole(header, data);
        plain += one_if_plain(entry);
    }
    Stretch {
        is_known: true,
        covered,
        plain,
        bytes,
        chunks,
    }
}

/// The bytes of user data of an entry, 0 if it is abandoned.
fn bytes_if_plain(entry: &Entry, size: u16) -> u32
    requires { 0 < size }
    ensures bytes { result ≡ plain_bytes size entry.now }
    ensures short { result ≤ 65535 }
{
    if entry.abandoned {
        return 0;
    }
    bytes_in(entry, size)
}

/// 1 for an entry that isn't abandoned, 0 for one that is.
fn one_if_plain(entry: &Entry) -> u8
    ensures one { result ≡ plain_one entry.now }
    ensures few { result ≤ 1 }
{
    if entry.abandoned { 0 } else { 1 }
}

/// A SACK changes nothing of the entry but whether it is acknowledged: it isn't marked for retransmission, and it was sent or is
/// abandoned (as an end mark is, which is never sent).
fn is_quiet(entry: &Entry) -> bool
    ensures { result ≡ true → IsQuiet entry.now.covered entry.now }
{
    match entry.standing {
        Standing::Sent => true,
        Standing::Unsent => entry.abandoned,
        Standing::Marked => false,
    }
}

/// The entry was sent, isn't marked for retransmission, and isn't abandoned.
pub(crate) fn is_plain(entry: &Entry) -> bool
    ensures { result ≡ true → IsPlain entry.now.covered entry.now }
{
    entry.standing == Standing::Sent && !entry.abandoned
}

/// All entries of a stretch, of which this is known, are acknowledged, or none is any more: the other way round than before.
pub(crate) fn turn_stretch(
    entries: &mut VecDeque<Entry>,
    counts: &mut Counts,
    size: u16,
    at: usize,
    stretch: Stretch,
    covered: bool,
)
    requires alike { AreAlike counts.old.header size (not covered) stretch.bytes stretch.chunks stretch.plain at 64 entries.old.items }
    requires counted { IsCounted size entries.old.items counts.old }
    ensures items { entries.new.items ≡ told_run covered at 64 entries.old.items }
    ensures counted { IsCounted size entries.new.items counts.new }
    ensures header { counts.new.header ≡ counts.old.header }
    ensures capacity { deque_capacity entries.new ≡ deque_capacity entries.old }
{
    set_covered(entries.make_contiguous(), at, covered);
    counts.turn(stretch, covered);
}

/// Sets the flag of each entry of a stretch.
fn set_covered(entries: &mut [Entry], at: usize, covered: bool)
    requires { at + 64 ≤ length entries.old }
    ensures { entries.new ≡ covered_run covered at 64 entries.old }
{
    for offset in at..at + STRETCH {
        entries[offset].covered = covered;
    }
}

impl Counts {
    /// Adds an entry that was sent, and is neither acknowledged nor abandoned nor marked for retransmission.
    #[inline(always)]
    pub(crate) fn enter_plain(&mut self, entry: &Entry, size: u16)
        requires some { 0 < size }
        requires plain { IsPlain false entry.now }
        ensures { self.new ≡ entered (item_meaning size entry.now) self.old }
    {
        self.fly(bytes_in(entry, size));
        self.unsettled = self.unsettled.wrapping_add(1);
    }

    /// The entries of a stretch that aren't abandoned count no more, since they are acknowledged; or they count again.
    fn turn(&mut self, stretch: Stretch, covered: bool)
        ensures { self.new ≡ turned_counts stretch.bytes stretch.chunks stretch.plain covered self.old }
    {
        let bytes = u64::from(stretch.bytes);
        let chunks = u64::from(stretch.chunks);
        let plain = u64::from(stretch.plain);
        if covered {
            self.flight = self.flight.wrapping_sub(bytes);
            self.chunks = self.chunks.wrapping_sub(chunks);
            self.unsettled = self.unsettled.wrapping_sub(plain);
        } else {
            self.flight = self.flight.wrapping_add(bytes);
            self.chunks = self.chunks.wrapping_add(chunks);
            self.unsettled = self.unsettled.wrapping_add(plain);
        }
    }
}
