//! What is kept of each stream, and what is counted of all: how many messages are sent in part, and the TSNs that they may take.

ghost use Rattle.std.specs.Prelude.{◌≡◌, ℕ, ◌+◌, ◌<◌, ◌≤◌, ◌%◌, ◌^◌, true, false, map, length, set, replicate, slice_index_or, IfOk, IfSome, IfNone};
ghost use Rattle.sctp_send.specs.SenderFields.{track_meaning};
ghost use Rattle.sctp_send.specs.inner.Walks.{total, one_if_rest, rest_owes, any_rest, GoesOnAt};
ghost use Rattle.sctp_send.specs.inner.Newcomers.{IsNextPart, number_in, rest_at, has_rest, track_of};
ghost use Rattle.sctp_values.specs.Meanings.{kind_meaning};
ghost use Rattle.sctp_send.specs.inner.Owning.{IsRestOwned};
ghost use Rattle.sctp_send.specs.inner.Entering.{counted_to};
ghost use Rattle.sctp_send.specs.PartsKept.{changed_at};

use crate::kept::looking::{are_past, next_part_by_looking, stream_by_looking, ticket_of_track};
use crate::kept::track::{Rest, Track, fresh_tracks, owed_by_track};
use sctp_sequence::TwoWayMap;
use sctp_values::{Kind, NoMemory};
use std::alloc::Global;
use std::marker::Model;
use std::mem;

/// The streams of a sender, with counts of them.
#[derive(Drop)]
pub(crate) struct Streams {
    // the most bytes of a fragment
    pub(crate) size: u16,
    pub(crate) tracks: Vec<Track>,
    // how many messages are in part
    parts: u32,
    // the TSNs that they may take, modulo 2^64
    pub(crate) owed: u64,
    // of each stream with a message in part its ticket
    lists: TwoWayMap,
}

impl Model for Streams {
    ghost use Rattle.sctp_send.specs.PartsKept.{StreamsKept};

    ghost Value = { StreamsKept };

    ghost use Rattle.sctp_send.specs.inner.PartSeats.{IsStreamsOf};

    ghost view = { λ w. record { size = w.size; items = w.tracks.items } };

    ghost invariant = { λ w. IsStreamsOf w.size w.tracks.items w.parts w.owed w.lists };
}

impl Streams {
    /// Streams that have no message with a number; where they take turns, with room for a message in part on each.
    ///
    /// # Errors
    /// `NoMemory`.
    pub(crate) fn new(
        alloc: Global,
        streams: u16,
        size: u16,
        takes_turns: bool,
    ) -> Result<Streams, NoMemory>
        requires { 0 < size }
        ensures size { IfOk result (λ made. made.size ≡ size) }
        ensures items { IfOk result (λ made. made.items ≡ replicate streams (record { ordered = 0; unordered = 0; rest = None })) }
    {
        let tracks = fresh_tracks(alloc, streams)?;
        let room = if takes_turns { Some(streams) } else { None };
        let lists = TwoWayMap::new(alloc, room)?;
        Ok(Streams {
            size,
            tracks,
            parts: 0,
            owed: 0,
            lists,
        })
    }

    /// All streams, by number.
    pub(crate) fn tracks(&self) -> &[Track]
        ensures { result.now ≡ self.now.items }
    {
        &self.tracks
    }

    /// How many messages are in part, modulo 2^32.
    pub(crate) fn in_part(&self) -> u32
        ensures { result ≡ total (λ t. one_if_rest t.rest) (map (track_meaning self.now.size) self.now.items) % 2 ^ 32 }
    {
        self.parts
    }

    /// The TSNs that the messages in part may take, modulo 2^64.
    pub(crate) fn owed(&self) -> u64
        ensures { result ≡ total (λ t. rest_owes t.rest) (map (track_meaning self.now.size) self.now.items) % 2 ^ 64 }
    {
        self.owed
    }

    /// The next message of a kind takes its number on a stream. What is left on it stays.
    #[inline(always)]
    pub(crate) fn number_one(&mut self, at: usize, kind: Kind) -> u64
        requires { at < length self.old.items }
        ensures number { (size : ℕ) → result ≡ number_in (kind_meaning kind) (track_of (map (track_meaning size) self.old.items) at) }
        ensures counted { self.new ≡ record self.old { items = changed_at (counted_to kind ((result + 1) % 2 ^ 64)) at self.old.items } }
    {
        let track = &mut self.tracks[at];
        match kind {
            Kind::Ordered => {
                let number = track.ordered;
                track.ordered = number.wrapping_add(1);
                number
            }
            Kind::Unordered => {
                let number = track.unordered;
                track.unordered = number.wrapping_add(1);
                number
            }
        }
    }

    /// So much is left of the message in part of a stream. It answers how the stream was.
    #[inline(never)]
    pub(crate) fn leave(&mut self, at: usize, rest: Option<Rest>) -> Track
        requires within { at < length self.old.items }
        requires owned { IsRestOwned self.old.size rest }
        ensures before { result ≡ slice_index_or self.old.items at result }
        ensures after { self.new ≡ record self.old { items = set self.old.items at (record result { rest = rest }) } }
        ensures owned { IsRestOwned self.old.size result.rest }
    {
        let track = &self.tracks()[at];
        let next = Track {
            ordered: track.ordered,
            unordered: track.unordered,
            rest,
        };
        self.replace(at, next)
    }

    /// A stream goes on with this, instead of what it answers.
    #[inline(always)]
    fn replace(&mut self, at: usize, track: Track) -> Track
        requires within { at < length self.old.items }
        requires owned { IsRestOwned self.old.size track.rest }
        ensures before { result ≡ slice_index_or self.old.items at result }
        ensures after { self.new ≡ record self.old { items = set self.old.items at track } }
        ensures owned { IsRestOwned self.old.size result.rest }
    {
        self.parts = self.parts.wrapping_add(one_if_in_part(&track));
        self.owed = self.owed.wrapping_add(owed_by_track(&track, self.size));
        let comes = ticket_of_track(&track);
        let before = mem::replace(&mut self.tracks[at], track);
        self.parts = self.parts.wrapping_sub(one_if_in_part(&before));
        self.owed = self.owed.wrapping_sub(owed_by_track(&before, self.size));
        let goes = ticket_of_track(&before);
        self.lists.change(at as u64, goes, comes);
        before
    }

    /// The first stream from one on, below another, with a message in part, or that other.
    #[inline(always)]
    pub(crate) fn next_part(&self, from: u16, below: u16) -> u16
        ensures { (size : ℕ) → IsNextPart from below (map (track_meaning size) self.now.items) result }
    {
        if self.parts == 0 {
            return below;
        }
        self.next_listed(from, below)
    }

    /// `next_part`, when some message is in part. A function of its own, so that it costs little if none is.
    #[inline(never)]
    fn next_listed(&self, from: u16, below: u16) -> u16
        ensures { (size : ℕ) → IsNextPart from below (map (track_meaning size) self.now.items) result }
    {
        if !self.lists.is_complete() {
            return next_part_by_looking(&self.tracks, from, below);
        }
        match self.lists.first_from(u64::from(from)) {
            Some(part) => part.first.min(u64::from(below)) as u16,
            None => below,
        }
    }

    /// There is such a stream, and no message is in part on it.
    #[inline(always)]
    pub(crate) fn is_idle(&self, stream: u16) -> bool
        ensures there { result ≡ true → stream < length self.now.items }
        ensures idle { (size : ℕ) → result ≡ true → has_rest (rest_at (map (track_meaning size) self.now.items) stream) ≡ false }
        ensures always { (size : ℕ) → stream < length self.now.items → has_rest (rest_at (map (track_meaning size) self.now.items) stream) ≡ false → result ≡ true }
    {
        match self.tracks.get(usize::from(stream)) {
            Some(track) => track.rest.is_none(),
            None => false,
        }
    }

    /// All messages in part have tickets behind this one.
    pub(crate) fn is_past(&self, last: u64) -> bool
        ensures { (size t : ℕ) → result ≡ true → t ≤ last → any_rest t (map (track_meaning size) self.now.items) ≡ false }
    {
        if self.parts == 0 {
            return true;
        }
        if self.lists.is_complete() {
            return self.lists.are_above(last);
        }
        are_past(&self.tracks, last)
    }

    /// The stream that goes on with the message with this ticket.
    pub(crate) fn stream_of(&self, ticket: u64) -> Option<usize>
        ensures within { IfSome result (λ at. at < length self.now.items) }
        ensures none { (size : ℕ) → IfNone result (any_rest ticket (map (track_meaning size) self.now.items) ≡ false) }
        ensures some { (size : ℕ) → IfSome result (λ at. GoesOnAt ticket at (map (track_meaning size) self.now.items)) }
    {
        if self.parts == 0 {
            return None;
        }
        if !self.lists.is_complete() {
            return stream_by_looking(&self.tracks, ticket);
        }
        match self.lists.key_with(ticket) {
            Some(stream) => Some(stream as usize),
            None => None,
        }
    }
}

/// One where a stream has a message in part.
fn one_if_in_part(track: &Track) -> u32
    ensures { (size : ℕ) → result ≡ one_if_rest (track_meaning size track.now).rest }
{
    match &track.rest {
        Some(_) => 1,
        None => 0,
    }
}
