//! What is found among the streams: at those that have a message in part, where they are listed, or else by looking at each.

ghost use Rattle.std.specs.Prelude.{◌≡◌, ℕ, ◌<◌, ◌≤◌, true, false, map, length, IfSome, IfNone};
ghost use Rattle.sctp_send.specs.SenderFields.{track_meaning};
ghost use Rattle.sctp_send.specs.inner.Walks.{any_rest, rest_has, GoesOnAt};
ghost use Rattle.sctp_send.specs.inner.Newcomers.{rest_at, has_rest, IsNextPart};
ghost use Rattle.sctp_send.specs.inner.PartSeats.{ticket_left};

use crate::kept::track::Track;

// ---- one stream

/// The ticket of the message in part of a stream.
pub(crate) fn ticket_of_track(track: &Track) -> Option<u64>
    ensures { result ≡ ticket_left track.now.rest }
{
    match &track.rest {
        Some(rest) => Some(rest.message.ticket),
        None => None,
    }
}

/// A stream goes on with the message with this ticket.
pub(crate) fn goes_on(track: &Track, ticket: u64) -> bool
    ensures { (size : ℕ) → result ≡ rest_has ticket (track_meaning size track.now).rest }
{
    match &track.rest {
        Some(rest) => rest.message.ticket == ticket,
        None => false,
    }
}

/// A stream has a message in part.
pub(crate) fn goes_on_at(tracks: &[Track], stream: u16) -> bool
    ensures { (size : ℕ) → result ≡ has_rest (rest_at (map (track_meaning size) tracks.now) stream) }
{
    match tracks.get(usize::from(stream)) {
        Some(track) => track.rest.is_some(),
        None => false,
    }
}

/// The message in part of a stream, if there is one, has a ticket behind this one.
fn is_past(track: &Track, last: u64) -> bool
    ensures { (size t : ℕ) → result ≡ true → t ≤ last → rest_has t (track_meaning size track.now).rest ≡ false }
{
    match &track.rest {
        Some(rest) => last < rest.message.ticket,
        None => true,
    }
}

/// All messages in part have tickets behind this one.
pub(crate) fn are_past(tracks: &[Track], last: u64) -> bool
    ensures { (size t : ℕ) → result ≡ true → t ≤ last → any_rest t (map (track_meaning size) tracks.now) ≡ false }
{
    for at in 0..tracks.len() {
        if !is_past(&tracks[at], last) {
            return false;
        }
    }
    true
}

// ---- all streams, one after the other

/// The first stream from one on, below another, with a message in part, or that other.
pub(crate) fn next_part_by_looking(tracks: &[Track], from: u16, below: u16) -> u16
    ensures { (size : ℕ) → IsNextPart from below (map (track_meaning size) tracks.now) result }
{
    for stream in from..below {
        if goes_on_at(tracks, stream) {
            return stream;
        }
    }
    below
}

/// The stream that goes on with the message with this ticket.
pub(crate) fn stream_by_looking(tracks: &[Track], ticket: u64) -> Option<usize>
    ensures within { IfSome result (λ at. at < length tracks.now) }
    ensures none { (size : ℕ) → IfNone result (any_rest ticket (map (track_meaning size) tracks.now) ≡ false) }
    ensures some { (size : ℕ) → IfSome result (λ at. GoesOnAt ticket at (map (track_meaning size) tracks.now)) }
{
    for at in 0..tracks.len() {
        if goes_on(&tracks[at], ticket) {
            return Some(at);
        }
    }
    None
}
