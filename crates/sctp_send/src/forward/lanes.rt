//! The lanes that a FORWARD names: found in one walk over the entries that are passed, each with its largest number (RFC 3758, 3.5; RFC
//! 8260, 2.3.1).

ghost use Rattle.std.specs.Prelude.{◌≡◌, ℕ, ◌+◌, ◌<◌, ◌≤◌, ◌*◌, ◌++◌, ◌∷◌, [], true, false, length, map, take, IfOk, OnOk};
ghost use Rattle.std.specs.List.{AllByRecursion};
ghost use Rattle.sctp_model.specs.sender.Forwarding.{skips_below};
ghost use Rattle.sctp_model.specs.sender.SentChunks.{skip_said};
ghost use Rattle.sctp_wire.specs.Skips.{skip_size, skips_in, IsSkip};
ghost use Rattle.sctp_framing.specs.SkipForms.{skip_form};
ghost use Rattle.sctp_send.specs.OutstandingFields.{item_meaning, lane_of, entries_of};
ghost use Rattle.sctp_send.specs.ResetsKept.{base_of};
ghost use Rattle.sctp_send.specs.inner.Lanes.{lane_key, passed_meaning, AreRising, before, noted, noted_entry};

use crate::kept::entry::Entry;
use crate::kept::outstanding::Outstanding;
use crate::kept::resets::OutgoingResets;
use arrayvec::ArrayVec;
use sctp_framing::Framing;
use sctp_packet::HEADER;
use sctp_values::{Kind, NoMemory};
use sctp_wire::codes::FORWARD_HEADER;
use sctp_wire::{Skip, put_skip};
use std::alloc::Global;

/// What a packet with a FORWARD takes beside its list: the common header, the chunk's header and the cumulative TSN.
pub(crate) const PACKET_ALONE: u16 = (HEADER + FORWARD_HEADER) as u16;

/// A lane, and its largest number so far.
#[derive(Clone, Copy)]
pub(crate) struct Passed {
    stream: u16,
    kind: Kind,
    number: u64,
}

impl Default for Passed {
    fn default() -> Passed {
        Passed {
            stream: 0,
            kind: Kind::Ordered,
            number: 0,
        }
    }
}

/// Lanes in order. There is room for as many as the FORWARD of the longest packet names: 1,500 bytes, less 20 beside the entries, by 4.
pub(crate) type Lanes = ArrayVec<Passed, 370>;

/// Notes the lanes below `streams` of the first entries, of as many of the first `run` as have no more than `most` lanes, and answers how many
/// entries these are. It takes no memory.
pub(crate) fn note_first<F: Framing>(
    lanes: &mut Lanes,
    outstanding: &Outstanding,
    run: u32,
    streams: u16,
    most: usize,
) -> u32
    requires none { lanes.old.items ≡ [] }
    requires run { run ≤ length outstanding.now.items }
    requires most { most ≤ 370 }
    ensures within { result ≤ run }
    ensures lanes { (size : ℕ) → map passed_meaning lanes.new.items
        ≡ skips_below F.format (entries_of (map (item_meaning size) (take result outstanding.now.items))) streams }
    ensures few { length lanes.new.items ≤ most }
    ensures last { (size : ℕ) → result < run
        → most < length (skips_below F.format (entries_of (map (item_meaning size) (take (result + 1) outstanding.now.items))) streams) }
{
    for at in 0..run {
        if !note_entry::<F>(lanes, outstanding.get(at as usize), streams, most) {
            return at;
        }
    }
    run
}

/// Notes the number of an entry, where its lane is numbered, and its stream one of so many. False where that would be a lane more than
/// `most`: then nothing is noted.
fn note_entry<F: Framing>(lanes: &mut Lanes, entry: &Entry, streams: u16, most: usize) -> bool
    requires rising { AreRising 0 (map passed_meaning lanes.old.items) }
    requires few { length lanes.old.items ≤ most }
    requires most { most ≤ 370 }
    ensures noted { (size : ℕ) → result ≡ true → map passed_meaning lanes.new.items
        ≡ noted_entry F.format streams (item_meaning size entry.now).entry (map passed_meaning lanes.old.items) }
    ensures full { (size : ℕ) → result ≡ false
        → most < length (noted_entry F.format streams (item_meaning size entry.now).entry (map passed_meaning lanes.old.items)) }
    ensures same { result ≡ false → lanes.new.items ≡ lanes.old.items }
    ensures few { length lanes.new.items ≤ most }
{
    let stream = entry.message.stream;
    let kind = entry.message.kind;
    if stream >= streams || !F::is_numbered(kind) {
        return true;
    }
    let next = Passed {
        stream,
        kind,
        number: entry.number,
    };
    note(lanes, next, most)
}

/// Notes the number of a lane: the larger one, where the lane has one already. False where that would be a lane more than `most`: then
/// nothing is noted.
fn note(lanes: &mut Lanes, next: Passed, most: usize) -> bool
    requires rising { AreRising 0 (map passed_meaning lanes.old.items) }
    requires few { length lanes.old.items ≤ most }
    requires most { most ≤ 370 }
    ensures noted { result ≡ true → map passed_meaning lanes.new.items
        ≡ noted (lane_of next.stream next.kind) next.number (map passed_meaning lanes.old.items) }
    ensures full { result ≡ false → most < length (noted (lane_of next.stream next.kind) next.number (map passed_meaning lanes.old.items)) }
    ensures same { result ≡ false → lanes.new.items ≡ lanes.old.items }
    ensures few { length lanes.new.items ≤ most }
{
    let key = key_of(next);
    let rank = rank_of(lanes.as_slice(), key);
    if rank < lanes.len() {
        let found = lanes.as_slice()[rank];
        if key_of(found) == key {
            lanes.as_mut_slice()[rank] = Passed {
                stream: found.stream,
                kind: found.kind,
                number: found.number.max(next.number),
            };
            return true;
        }
    }
    if lanes.len() >= most {
        return false;
    }
    lanes.insert(rank, next);
    true
}

/// How many of these lanes, which stand in order, come before one.
fn rank_of(lanes: &[Passed], key: u32) -> usize
    requires { AreRising 0 (map passed_meaning lanes.now) }
    ensures rank { result ≡ before key (map passed_meaning lanes.now) }
    ensures within { result ≤ length lanes.now }
{
    let mut low = 0;
    let mut high = lanes.len();
    while low < high {
        let middle = low + (high - low) / 2;
        if key_of(lanes[middle]) < key {
            low = middle + 1;
        } else {
            high = middle;
        }
    }
    low
}

/// Where a lane stands: by rising stream, the ordered one first.
fn key_of(lane: Passed) -> u32
    ensures { result ≡ lane_key (lane_of lane.stream lane.kind) }
{
    let ordered = u32::from(lane.stream) * 2;
    match lane.kind {
        Kind::Ordered => ordered,
        Kind::Unordered => ordered + 1,
    }
}

/// The entries of these lanes, as bytes.
///
/// # Errors
/// `NoMemory`.
pub(crate) fn list_of<F: Framing>(
    alloc: Global,
    resets: &OutgoingResets,
    lanes: &[Passed],
) -> Result<Vec<u8>, NoMemory>
    requires { AllByRecursion (IsSkip (skip_form F.format)) (map (skip_said F.format (base_of resets.now)) (map passed_meaning lanes.now)) }
    ensures count { IfOk result (λ list. length list.items ≡ skip_size (skip_form F.format) * length (skips_in (skip_form F.format) list.items)) }
    ensures skips { IfOk result (λ list. skips_in (skip_form F.format) list.items ≡ map (skip_said F.format (base_of resets.now)) (map passed_meaning lanes.now)) }
{
    let mut list = Vec::new(alloc);
    for at in 0..lanes.len() {
        put_lane::<F>(resets, lanes[at], &mut list)?;
    }
    Ok(list)
}

/// Puts the entry of a lane behind the others.
fn put_lane<F: Framing>(
    resets: &OutgoingResets,
    lane: Passed,
    list: &mut Vec<u8>,
) -> Result<(), NoMemory>
    requires fits { IsSkip (skip_form F.format) (skip_said F.format (base_of resets.now) (passed_meaning lane)) }
    requires count { length list.old.items ≡ skip_size (skip_form F.format) * length (skips_in (skip_form F.format) list.old.items) }
    ensures count { OnOk result (length list.new.items ≡ skip_size (skip_form F.format) * length (skips_in (skip_form F.format) list.new.items)) }
    ensures skips { OnOk result (skips_in (skip_form F.format) list.new.items ≡ skips_in (skip_form F.format) list.old.items ++ skip_said F.format (base_of resets.now) (passed_meaning lane) ∷ []) }
{
    let base = resets.base(lane.stream, lane.kind);
    let skip = Skip {
        stream: lane.stream,
        unordered: lane.kind.flag(),
        number: F::wire_number(lane.kind, lane.number.saturating_sub(base)),
    };
    put_skip(F::skip_form(), skip, list)
}
