//! What takes an index next, found among what waits and what is in part (RFC 9260, 6.9; RFC 8260, 2.2.2 and 3.2).

ghost use Rattle.std.specs.Prelude.{◌≡◌, ℕ, suc, ◌+◌, ◌<◌, ◌≤◌, ◌%◌, None, Some, map, length, IfSome, MatchOption};
ghost use Rattle.sctp_model.specs.messages.Format.{Interleaved};
ghost use Rattle.sctp_model.specs.sender.Assigning.{first_on};
ghost use Rattle.sctp_model.specs.sender.SenderView.{SenderView};
ghost use Rattle.sctp_send.specs.SenderKept.{Kept};
ghost use Rattle.sctp_send.specs.SenderStands.{Keeps};
ghost use Rattle.sctp_send.specs.SenderFields.{track_meaning, rest_meaning};
ghost use Rattle.sctp_send.specs.inner.Stocking.{stocked, NewAnswer, FirstTurnAnswer, IsNextWithin};
ghost use Rattle.sctp_send.specs.inner.Newcomers.{rest_at, track_of};

use crate::kept::track::{Rest, Track};
use crate::stock::Stock;

/// A message that takes its number: it stands at this place of the queue, so many of its fragments take their indexes, and this stream's turn
/// is next then.
#[derive(Clone, Copy)]
pub(crate) struct Beginning {
    pub(crate) place: usize,
    pub(crate) count: usize,
    pub(crate) turn: u16,
}

/// What takes the next index.
#[derive(Clone, Copy)]
pub(crate) enum Next {
    /// A message that has no number yet.
    Begins(Beginning),
    /// The next fragment of the message of this stream that is sent in part.
    Continues(u16),
}

/// What the first stream in turn that has something to send does.
#[inline(always)]
pub(crate) fn next_in_turn(stock: &Stock, streams: u16) -> Option<Next>
    ensures next { (s : Kept) (v : SenderView) → s.streams ≡ streams → Keeps Interleaved (stocked s stock.now) v → NewAnswer Interleaved v result }
    ensures within { IsNextWithin stock.now streams result }
{
    let turn = stock.turn;
    if let Some(next) = next_between(stock, turn, streams, streams) {
        return Some(next);
    }
    next_around(stock, turn.min(streams), streams)
}

/// What the first stream below another does. It stands apart, so that the first search of a turn stays small.
#[inline(never)]
fn next_around(stock: &Stock, below: u16, streams: u16) -> Option<Next>
    requires { below ≤ streams }
    ensures does { (s : Kept) (v : SenderView) → s.streams ≡ streams → Keeps Interleaved (stocked s stock.now) v → FirstTurnAnswer v 0 below result }
    ensures within { IsNextWithin stock.now streams result }
{
    next_between(stock, 0, below, streams)
}

/// What the first stream from one on, below another, that has something to send does: it goes on with its message in part, or else begins the
/// message that has waited longest on it.
#[inline(always)]
fn next_between(stock: &Stock, from: u16, below: u16, streams: u16) -> Option<Next>
    requires { below ≤ streams }
    ensures does { (s : Kept) (v : SenderView) → s.streams ≡ streams → Keeps Interleaved (stocked s stock.now) v → FirstTurnAnswer v from below result }
    ensures within { IsNextWithin stock.now streams result }
{
    let Some(found) = stock.queue.next_on(from, below) else {
        return part_between(stock, from, below, streams);
    };
    let stream = found.stream;
    let behind = stream_after(stream, streams);
    let part = stock.streams.next_part(from, stream + 1);
    if part <= stream {
        return Some(Next::Continues(part));
    }
    Some(Next::Begins(Beginning {
        place: found.place,
        count: 1,
        turn: behind,
    }))
}

/// `next_between`, when no message waits on any of these streams: only a message in part can go on.
#[inline(never)]
fn part_between(stock: &Stock, from: u16, below: u16, streams: u16) -> Option<Next>
    requires { below ≤ streams }
    ensures does { (s : Kept) (v : SenderView) → s.streams ≡ streams → Keeps Interleaved (stocked s stock.now) v → ((j : ℕ) → from ≤ j → j < below → first_on j v.queue ≡ None) → FirstTurnAnswer v from below result }
    ensures within { IsNextWithin stock.now streams result }
{
    let part = stock.streams.next_part(from, below);
    if part < below {
        return Some(Next::Continues(part));
    }
    None
}

/// The stream behind this one, upward and cyclic.
pub(crate) fn stream_after(stream: u16, streams: u16) -> u16
    requires { stream < streams }
    ensures { result ≡ suc stream % streams }
{
    ((u32::from(stream) + 1) % u32::from(streams)) as u16
}

/// What is left of the message in part of a stream.
pub(crate) fn rest_of(tracks: &[Track], stream: u16) -> Option<&Rest>
    ensures there { IfSome result (λ _. stream < length tracks.now) }
    ensures rest { (size : ℕ) → MatchOption result (None ≡ rest_at (map (track_meaning size) tracks.now) stream) (λ rest. Some (rest_meaning size (track_of (map (track_meaning size) tracks.now) stream) rest.now) ≡ rest_at (map (track_meaning size) tracks.now) stream) }
{
    match tracks.get(usize::from(stream)) {
        Some(track) => track.rest.as_ref(),
        None => None,
    }
}
