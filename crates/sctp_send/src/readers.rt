//! What can be read from a sender.

pub mod more;
pub mod queued_on;

ghost use Rattle.std.specs.Prelude.{◌≡◌, ℕ, Bool, ◌<◌, ◌≤◌, ◌^◌, ◌%◌, ◌*◌, ◌&&◌, not, map, length};
ghost use Rattle.sctp_model.specs.numbers.Limits.{WINDOW, QUEUE_LIMIT, LONGEST_MESSAGE};
ghost use Rattle.sctp_model.specs.sender.SenderView.{SenderView};
ghost use Rattle.sctp_model.specs.sender.Readers.{point, unsettled, drained, outstanding, abandoned, acknowledged};
ghost use Rattle.sctp_send.specs.OutstandingFields.{item_meaning};
ghost use Rattle.sctp_send.specs.SenderFields.{track_meaning};
ghost use Rattle.sctp_send.specs.SenderStands.{StandsFor};
ghost use Rattle.sctp_send.specs.SenderAnswers.{abandoned_messages};
ghost use Rattle.sctp_send.specs.Waiting.{queued_bytes, queued_bytes_on};
ghost use Rattle.sctp_send.specs.inner.Walks.{total, one_if_rest, abandoned_items, any_unsettled, is_item_unsettled, is_abandoned_fate, is_numbered_fate, any_uncovered, any_rest};

use crate::kept::message::Fate;
use crate::kept::outstanding::Outstanding;
use crate::kept::streams::Streams;
use crate::kept::user_data::are_of_user_data;
use crate::readers::queued_on::bytes_on;
use crate::sender::Sender;
use sctp_framing::Framing;
use sctp_values::Ticket;

#[tactic(auto, unfolding(crate::specs::SenderStands::StandsFor))]
impl<F: Framing> Sender<F> {
    /// CUM, the Cumulative TSN Ack Point (RFC 9260, 6.2.1), as an index: the number of TSNs from the first one on that are acknowledged. 0 before
    /// the first SACK.
    pub fn cum(&self) -> u64
        ensures { (v : SenderView) → StandsFor F.format self.now v → result ≡ v.cum }
    {
        self.told.cum
    }

    /// The Advanced.Peer.Ack.Point as an index: the largest one from CUM on, up to which all TSNs after CUM are of abandoned messages (RFC 3758,
    /// 3.5, C1).
    pub fn point(&self) -> u64
        ensures { (v : SenderView) → StandsFor F.format self.now v → result ≡ point v }
    {
        self.told
            .cum
            .wrapping_add(u64::from(abandoned_run(&self.parts.outstanding)))
    }

    /// Whether the data timer should run (RFC 9260, 6.3.2): a chunk that was sent is neither acknowledged by a SACK nor abandoned, or the point
    /// is past CUM, so that a FORWARD-TSN is due (RFC 3758, 3.5).
    pub fn unsettled(&self) -> bool
        ensures { (v : SenderView) → StandsFor F.format self.now v → result ≡ unsettled v }
    {
        if self.parts.outstanding.is_unsettled() {
            return true;
        }
        self.parts.outstanding.front() > 0
    }

    /// The number of TSNs assigned after CUM, plus the messages of which some fragments have no TSN yet. At most 32,767.
    pub fn outstanding(&self) -> u32
        ensures count { (v : SenderView) → StandsFor F.format self.now v → result ≡ outstanding v }
        ensures bound { (v : SenderView) → StandsFor F.format self.now v → result ≤ WINDOW }
    {
        count_of(&self.parts.outstanding).wrapping_add(self.parts.streams.in_part())
    }

    /// Whether all data was sent and acknowledged: the queue is empty, no message is in part, and CUM is the last TSN assigned (RFC 9260, 9.2).
    pub fn drained(&self) -> bool
        ensures { (v : SenderView) → StandsFor F.format self.now v → result ≡ drained v }
    {
        if self.parts.queue.len() > 0 {
            return false;
        }
        if self.parts.streams.in_part() > 0 {
            return false;
        }
        self.parts.outstanding.len() == 0
    }

    /// The number of messages in the queue: accepted, and no fragment has a TSN yet. At most 1,024.
    pub fn queued(&self) -> usize
        ensures count { (v : SenderView) → StandsFor F.format self.now v → result ≡ length v.queue }
        ensures bound { (v : SenderView) → StandsFor F.format self.now v → result ≤ QUEUE_LIMIT }
    {
        self.parts.queue.len()
    }

    /// The bytes of the messages in the queue. At most 1,024 times 65,536.
    pub fn queued_bytes(&self) -> u64
        ensures bytes { (v : SenderView) → StandsFor F.format self.now v → result ≡ queued_bytes v }
        ensures bound { (v : SenderView) → StandsFor F.format self.now v → result ≤ QUEUE_LIMIT * LONGEST_MESSAGE }
    {
        self.parts.queue.bytes()
    }

    /// Of the bytes that `queued_bytes` counts, those of the messages on this stream, ordered or not, with one of these payload protocol identifiers; an
    /// identifier given twice counts once. Of 51 and 53, in this order, it is the user data that a data channel buffers (RFC 8831, 8), which is kept as a
    /// number of each stream. Of others it is a walk over the queue.
    pub fn queued_bytes_on(&self, stream: u16, payload_ids: &[u32]) -> u64
        ensures bytes { (v : SenderView) → StandsFor F.format self.now v → result ≡ queued_bytes_on stream payload_ids.now v }
        ensures bound { (v : SenderView) → StandsFor F.format self.now v → result ≤ QUEUE_LIMIT * LONGEST_MESSAGE }
    {
        if are_of_user_data(payload_ids) {
            return self.parts.queue.user_bytes_on(stream);
        }
        bytes_on(&self.parts.queue, stream, payload_ids)
    }

    /// The peer's receiver window in bytes, as last advertised (a_rwnd; RFC 9260, 3.3.2 and 3.3.4). Bytes in flight are not subtracted.
    pub fn peer_window(&self) -> u32
        ensures { (v : SenderView) → StandsFor F.format self.now v → result ≡ v.rwnd }
    {
        self.told.rwnd
    }

    /// The number of streams that it sends on, numbered from 0.
    pub fn stream_count(&self) -> u16
        ensures { (v : SenderView) → StandsFor F.format self.now v → result ≡ v.streams }
    {
        self.told.streams
    }

    /// The most bytes of user data in a fragment (RFC 9260, 6.9).
    pub fn fragment_size(&self) -> u16
        ensures { (v : SenderView) → StandsFor F.format self.now v → result ≡ v.fragment }
    {
        self.told.fragment
    }

    /// The number of tickets issued, one for each message accepted by `queue`. They are 1 to this number.
    pub fn tickets(&self) -> u64
        ensures { (v : SenderView) → StandsFor F.format self.now v → result ≡ v.tickets }
    {
        self.told.fates.len() as u64
    }

    /// The number of messages that were abandoned after they got a TSN (RFC 3758, 3.5), since the start. A message withdrawn from the queue isn't
    /// counted.
    pub fn abandoned_messages(&self) -> u64
        ensures { (v : SenderView) → StandsFor F.format self.now v → result ≡ abandoned_messages v }
    {
        self.told.fates.abandoned()
    }

    /// Whether the peer has acknowledged all of the message with this ticket: all its fragments have TSNs, each is acknowledged by a SACK, and it
    /// was not abandoned. False for a ticket that was never issued.
    pub fn acknowledged(&self, ticket: Ticket) -> bool
        ensures { (v : SenderView) → StandsFor F.format self.now v → result ≡ acknowledged v ticket.0 }
    {
        let at = ticket.0 as usize;
        if at == 0 {
            return false;
        }
        if at > self.told.fates.len() {
            return false;
        }
        let fate = self.told.fates.get(at - 1);
        if !is_numbered(fate) {
            return false;
        }
        is_all_covered(&self.parts.streams, &self.parts.outstanding, ticket.0)
    }

    /// Whether the message with this ticket was abandoned after it got a TSN. False for a ticket that was never issued.
    pub fn abandoned(&self, ticket: Ticket) -> bool
        ensures { (v : SenderView) → StandsFor F.format self.now v → result ≡ abandoned v ticket.0 }
    {
        let at = ticket.0 as usize;
        if at == 0 {
            return false;
        }
        if at > self.told.fates.len() {
            return false;
        }
        let fate = self.told.fates.get(at - 1);
        was_abandoned(fate)
    }
}

/// The message has a number and was abandoned.
fn was_abandoned(fate: Fate) -> bool
    ensures { result ≡ is_abandoned_fate fate }
{
    match fate {
        Fate::Abandoned => true,
        Fate::Queued | Fate::Numbered | Fate::Withdrawn => false,
    }
}

/// The message has a number and was not abandoned.
fn is_numbered(fate: Fate) -> bool
    ensures { result ≡ is_numbered_fate fate }
{
    match fate {
        Fate::Numbered => true,
        Fate::Queued | Fate::Withdrawn | Fate::Abandoned => false,
    }
}

/// All of the message with this ticket is assigned and covered.
pub(crate) fn is_all_covered(streams: &Streams, outstanding: &Outstanding, ticket: u64) -> bool
    ensures { (size : ℕ) → result
        ≡ (not (any_rest ticket (map (track_meaning size) streams.now.items)) && not (any_uncovered ticket (map (item_meaning size) outstanding.now.items))) }
{
    !is_in_part(streams, ticket) && !outstanding.some_uncovered(ticket)
}

/// The message with this ticket is in part.
fn is_in_part(streams: &Streams, ticket: u64) -> bool
    ensures { (size : ℕ) → result ≡ any_rest ticket (map (track_meaning size) streams.now.items) }
{
    match streams.stream_of(ticket) {
        Some(_) => true,
        None => false,
    }
}

/// How many entries there are.
fn count_of(outstanding: &Outstanding) -> u32
    ensures { result ≡ length outstanding.now.items % 2 ^ 32 }
{
    (outstanding.len() % 0x1_0000_0000) as u32
}

/// How many of the first entries are of abandoned messages.
pub(crate) fn abandoned_run(outstanding: &Outstanding) -> u32
    ensures { (size : ℕ) → result ≡ abandoned_items (map (item_meaning size) outstanding.now.items) % 2 ^ 32 }
{
    (outstanding.front() % 0x1_0000_0000) as u32
}
