//! A stream takes the next fragment of its message in part: no memory is needed for that.

ghost use Rattle.std.specs.Prelude.{◌≡◌, ◌<◌, None, Some, map, length, slice_set, slice_index_or, IfSome, IfNone};
ghost use Rattle.sctp_send.specs.SenderFields.{track_meaning};
ghost use Rattle.sctp_send.specs.inner.Newcomers.{rest_after, rest_at, track_of};
ghost use Rattle.sctp_send.specs.inner.Owning.{AreOthersGone, IsTaken, taken_meaning};
ghost use Rattle.sctp_send.specs.declared.kept.track.Track.{Track as TrackFields};

use crate::kept::streams::Streams;
use crate::kept::track::{Ending, Taken, Track, ending_of, latest_of};

impl Streams {
    /// A stream takes the next fragment of its message in part, if it has one: with a further owner of it, or the last fragment with the message's own.
    #[inline(always)]
    pub(crate) fn take_fragment(&mut self, at: usize) -> Option<Taken>
        requires { at < length self.old.items }
        ensures size { self.new.size ≡ self.old.size }
        ensures none { IfNone result (rest_at (map (track_meaning self.old.size) self.old.items) at ≡ None) }
        ensures taken { IfSome result (λ t. rest_at (map (track_meaning self.old.size) self.old.items) at ≡ Some (taken_meaning self.old.size t)) }
        ensures items { IfSome result (λ t. map (track_meaning self.old.size) self.new.items ≡ slice_set (map (track_meaning self.old.size) self.old.items) at
            (record (track_of (map (track_meaning self.old.size) self.old.items) at) { rest = rest_after (taken_meaning self.old.size t).entry (taken_meaning self.old.size t).message })) }
    {
        match take_next(&mut self.tracks[at]) {
            Some(taken) => {
                self.owed = self.owed.wrapping_sub(1);
                Some(taken)
            }
            None => self.take_last(at),
        }
    }

    /// The same where the stream has no further owner: nothing is left of its message then.
    #[inline(never)]
    fn take_last(&mut self, at: usize) -> Option<Taken>
        requires within { at < length self.old.items }
        requires last { (t : TrackFields) → t ≡ slice_index_or self.old.items at t → AreOthersGone t.rest }
        ensures size { self.new.size ≡ self.old.size }
        ensures none { IfNone result (rest_at (map (track_meaning self.old.size) self.old.items) at ≡ None) }
        ensures taken { IfSome result (λ t. rest_at (map (track_meaning self.old.size) self.old.items) at ≡ Some (taken_meaning self.old.size t)) }
        ensures items { IfSome result (λ t. map (track_meaning self.old.size) self.new.items ≡ slice_set (map (track_meaning self.old.size) self.old.items) at
            (record (track_of (map (track_meaning self.old.size) self.old.items) at) { rest = rest_after (taken_meaning self.old.size t).entry (taken_meaning self.old.size t).message })) }
    {
        let ending = ending_of(self.leave(at, None))?;
        let Ending { rest, number } = ending;
        Some(Taken {
            message: rest.message,
            fragment: rest.fragment,
            number,
        })
    }
}

/// A stream takes the next fragment of its message in part with the last of the further owners, where there is one.
#[inline(always)]
pub(crate) fn take_next(track: &mut Track) -> Option<Taken>
    ensures none { IfNone result (AreOthersGone track.old.rest) }
    ensures unchanged { IfNone result (track.new ≡ track.old) }
    ensures some { IfSome result (λ taken. IsTaken track.old track.new taken) }
{
    let (ordered, unordered) = (track.ordered, track.unordered);
    match &mut track.rest {
        Some(rest) => {
            if rest.others.is_empty() {
                return None;
            }
            let message = rest.others.pop()?;
            let fragment = rest.fragment;
            rest.fragment = fragment.wrapping_add(1);
            let number = latest_of(message.kind, ordered, unordered);
            Some(Taken {
                message,
                fragment,
                number,
            })
        }
        None => None,
    }
}
