//! The time at which the lifetime of a ticket's message ends, in milliseconds, for messages that may be abandoned (RFC 3758, 3.5).

ghost use Rattle.std.specs.Prelude.{◌≡◌, ℕ, true, nat_le, ◌==◌, map, find, option_and_then};
ghost use Rattle.sctp_model.specs.sender.SenderView.{SenderView};
ghost use Rattle.sctp_model.specs.sender.Words.{some_passes};
ghost use Rattle.sctp_model.specs.sender.Abandoning.{is_to_expire};
ghost use Rattle.sctp_send.specs.OutstandingFields.{item_meaning};
ghost use Rattle.sctp_send.specs.SenderFields.{queued_by, track_meaning};
ghost use Rattle.sctp_send.specs.SenderStands.{StandsFor, fate_here};
ghost use Rattle.sctp_send.specs.inner.Walks.{is_numbered_fate};
ghost use Rattle.sctp_send.specs.inner.Dues.{IsOpenUntil, IsLeftUntil, until_left};

use crate::kept::message::Fate;
use crate::kept::outstanding::Outstanding;
use crate::kept::queue::Queue;
use crate::kept::streams::Streams;
use crate::kept::track::Track;
use crate::sender::Sender;
use sctp_framing::Framing;

#[tactic(auto, unfolding(crate::specs::SenderStands::StandsFor))]
impl<F: Framing> Sender<F> {
    /// The time at which the lifetime of the message with this ticket ends, if it has one and the message may be abandoned.
    pub(crate) fn moment(&self, ticket: u64) -> Option<u64>
        ensures { (v : SenderView) → StandsFor F.format self.now v → (now : ℕ) → is_to_expire v now ticket ≡ some_passes (λ until. nat_le until now) result }
    {
        let at = ticket as usize;
        if at == 0 {
            return None;
        }
        if at > self.told.fates.len() {
            return None;
        }
        match self.told.fates.get(at - 1) {
            Fate::Withdrawn => None,
            Fate::Abandoned => None,
            Fate::Queued => until_waiting(&self.parts.queue, ticket),
            Fate::Numbered => self.moment_numbered(ticket),
        }
    }

    /// The end of the lifetime of a message that has TSNs and was not abandoned.
    fn moment_numbered(&self, ticket: u64) -> Option<u64>
        ensures { (v : SenderView) → StandsFor F.format self.now v → is_numbered_fate (fate_here v ticket) ≡ true → (now : ℕ) → is_to_expire v now ticket ≡ some_passes (λ until. nat_le until now) result }
    {
        if !self.told.partial {
            return None;
        }
        until_open(&self.parts.streams, &self.parts.outstanding, ticket)
    }
}

/// The moment of the message with this ticket among those that wait.
fn until_waiting(queue: &Queue, ticket: u64) -> Option<u64>
    ensures { (size : ℕ) → result ≡ option_and_then (λ q. q.message.until) (find (λ q. q.message.ticket == ticket) (map (queued_by size) queue.now.items)) }
{
    for at in queue.first_from(ticket)..queue.len() {
        let message = queue.get(at);
        if message.ticket == ticket {
            return message.until;
        }
    }
    None
}

/// The moment of a message that has an entry above CUM that is not covered, or is in part; none where all of it is assigned and covered.
fn until_open(streams: &Streams, outstanding: &Outstanding, ticket: u64) -> Option<u64>
    ensures { (size : ℕ) → IsOpenUntil ticket result (map (item_meaning size) outstanding.now.items) (map (track_meaning size) streams.now.items) }
{
    match outstanding.uncovered_until(ticket) {
        Some(until) => until,
        None => until_in_part(streams, ticket),
    }
}

/// The moment of the message in part with this ticket.
fn until_in_part(streams: &Streams, ticket: u64) -> Option<u64>
    ensures { (size : ℕ) → IsLeftUntil ticket result (map (track_meaning size) streams.now.items) }
{
    match streams.stream_of(ticket) {
        Some(at) => {
            let track = &streams.tracks()[at];
            until_left(track)
        }
        None => None,
    }
}

/// The moment of the message in part of a stream.
fn until_left(track: &Track) -> Option<u64>
    ensures { result ≡ until_left track.now.rest }
{
    match &track.rest {
        Some(rest) => rest.message.until,
        None => None,
    }
}
