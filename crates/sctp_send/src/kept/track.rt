//! What is kept of a stream, and what is left of its message in part.

ghost use Rattle.std.specs.Prelude.{◌≡◌, ℕ, ◌<◌, ◌%◌, ◌^◌, None, replicate, option_map, IfOk};
ghost use Rattle.sctp_values.specs.Meanings.{kind_meaning};
ghost use Rattle.sctp_send.specs.SenderFields.{latest, track_meaning, endings_meaning};
ghost use Rattle.sctp_send.specs.inner.Walks.{rest_owes};

use crate::kept::message::Message;
use crate::kept::pieces::{fragments_of, owed};
use sctp_values::{Kind, NoMemory};
use std::alloc::Global;
use std::sync::Arc;

/// What is left of a message in part: the fragment that it takes next, and an owner of the message for each fragment behind that. Its number is the latest
/// that its kind took on its stream.
#[derive(Drop)]
pub(crate) struct Rest {
    pub(crate) message: Arc<Message>,
    pub(crate) fragment: u32,
    pub(crate) others: Vec<Arc<Message>>,
}

/// A fragment of a message in part, which takes its index, and the message's number.
#[derive(Drop)]
pub(crate) struct Taken {
    pub(crate) message: Arc<Message>,
    pub(crate) fragment: u32,
    pub(crate) number: u64,
}

/// A track: of one stream, how many messages of each kind have a number, and its message in part.
#[derive(Drop)]
pub(crate) struct Track {
    pub(crate) ordered: u64,
    pub(crate) unordered: u64,
    pub(crate) rest: Option<Rest>,
}

/// What was left of a message in part, as its stream ends it or goes on with it, and its number.
#[derive(Drop)]
pub(crate) struct Ending {
    pub(crate) rest: Rest,
    pub(crate) number: u64,
}

/// Streams that have no message with a number.
pub(crate) fn fresh_tracks(alloc: Global, streams: u16) -> Result<Vec<Track>, NoMemory>
    ensures { IfOk result (λ tracks. tracks.items ≡ replicate streams (record { ordered = 0; unordered = 0; rest = None })) }
{
    let mut tracks = Vec::with_capacity(alloc, usize::from(streams)).map_err(|_| NoMemory)?;
    for _ in 0..streams {
        tracks
            .push(Track {
                ordered: 0,
                unordered: 0,
                rest: None,
            })
            .map_err(|_| NoMemory)?;
    }
    Ok(tracks)
}

/// The message in part of a stream, with its number.
pub(crate) fn ending_of(track: Track) -> Option<Ending>
    ensures ending { (size : ℕ) → endings_meaning size result ≡ (track_meaning size track).rest }
    ensures rest { option_map (λ e. e.rest) result ≡ track.rest }
{
    let (ordered, unordered) = (track.ordered, track.unordered);
    let rest = track.rest?;
    let number = latest_of(rest.message.kind, ordered, unordered);
    Some(Ending { rest, number })
}

/// What the message in part of a stream owes.
pub(crate) fn owed_by_track(track: &Track, size: u16) -> u64
    requires { 0 < size }
    ensures { result ≡ rest_owes (track_meaning size track.now).rest % 2 ^ 64 }
{
    match &track.rest {
        Some(rest) => {
            let all = fragments_of(size, &rest.message.bytes);
            owed(all.saturating_sub(rest.fragment as usize))
        }
        None => 0,
    }
}

/// Of so many ordered and so many unordered messages that have a number, the number of the latest of a kind.
pub(crate) fn latest_of(kind: Kind, ordered: u64, unordered: u64) -> u64
    ensures { result ≡ latest (kind_meaning kind) ordered unordered }
{
    let counted = match kind {
        Kind::Ordered => ordered,
        Kind::Unordered => unordered,
    };
    counted.saturating_sub(1)
}
