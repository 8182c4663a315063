//! Abandoning a message on request (RFC 3758, 3.5; RFC 8260, 2.3.1).

pub mod at_limit;
pub mod expire;
pub mod moments;
pub mod wear;

ghost use Rattle.std.specs.Prelude.{◌≡◌, ℕ, ◌<◌, ◌≤◌, ◌+◌, [], ◌∷◌, ◌++◌, true, false, List, length, map, take, drop, set, IfSome, IfNone};
ghost use Rattle.sctp_send.specs.PartsKept.{IsSameRoom};
ghost use Rattle.sctp_model.specs.sender.SenderView.{SenderView};
ghost use Rattle.sctp_model.specs.sender.Abandoning.{AbandonAnswer, abandon_answer, abandon_after, may_abandon, waits, without};
ghost use Rattle.sctp_send.specs.OutstandingFields.{item_meaning};
ghost use Rattle.sctp_send.specs.SenderFields.{queued_by, track_meaning, ending_meaning};
ghost use Rattle.sctp_send.specs.SenderStands.{StandsFor, fate_here};
ghost use Rattle.sctp_send.specs.inner.Walks.{is_numbered_fate, any_rest, end_item, EndsAt};
ghost use Rattle.sctp_send.specs.SenderAnswers.{answer_meaning, answer_code};

use crate::kept::entry::{Content, Entry, Standing};
use crate::kept::message::Fate;
use crate::kept::outstanding::Outstanding;
use crate::kept::queue::Queue;
use crate::kept::streams::Streams;
use crate::kept::track::{Ending, ending_of};
use crate::readers::is_all_covered;
use crate::sender::Sender;
use sctp_framing::Framing;
use sctp_values::Ticket;

/// The answer to `abandon`.
#[derive(Clone, Copy, Debug, PartialEq, Eq)]
pub enum Abandoned {
    /// 1: no TSN was assigned to it; it was removed from the queue, by this call or an earlier one.
    Withdrawn,
    /// 2: it is abandoned, by this call or an earlier one.
    Abandoned,
    /// 3: the peer has acknowledged all of it.
    Acknowledged,
    /// 4: no message has this ticket.
    Unknown,
    /// 5: it has TSNs, and partial reliability was not negotiated (RFC 3758, 3.3).
    Reliable,
}

impl Abandoned {
    /// The number by which a user reads the answer, 1 to 5.
    pub fn code(self) -> u8
        ensures { result ≡ answer_code self }
    {
        match self {
            Abandoned::Withdrawn => 1,
            Abandoned::Abandoned => 2,
            Abandoned::Acknowledged => 3,
            Abandoned::Unknown => 4,
            Abandoned::Reliable => 5,
        }
    }
}

#[tactic(auto, unfolding(crate::specs::SenderStands::StandsFor))]
impl<F: Framing> Sender<F> {
    /// Abandons the message with this ticket (RFC 3758, 3.5). If it has no TSN yet, it leaves the queue; otherwise it is neither sent nor
    /// retransmitted again. If only some of its fragments have TSNs, an end mark takes one more (RFC 8260, 2.3.1). It doesn't allocate.
    pub fn abandon(&mut self, ticket: Ticket) -> Abandoned
        ensures answer { (v : SenderView) → StandsFor F.format self.old v → answer_meaning result ≡ abandon_answer v ticket.0 }
        ensures step { (v : SenderView) → StandsFor F.format self.old v → StandsFor F.format self.new (abandon_after v ticket.0) }
    {
        let at = ticket.0 as usize;
        if at == 0 {
            return Abandoned::Unknown;
        }
        if at > self.told.fates.len() {
            return Abandoned::Unknown;
        }
        match self.told.fates.get(at - 1) {
            Fate::Withdrawn => Abandoned::Withdrawn,
            Fate::Abandoned => Abandoned::Abandoned,
            Fate::Queued => {
                self.take_back(ticket.0);
                Abandoned::Withdrawn
            }
            Fate::Numbered => self.abandon_numbered(ticket.0),
        }
    }

    /// Abandons the message with this ticket, which has a number and was not abandoned.
    fn abandon_numbered(&mut self, ticket: u64) -> Abandoned
        requires some { 0 < ticket }
        requires given { ticket ≤ length self.old.fates }
        ensures answer { (v : SenderView) → StandsFor F.format self.old v → is_numbered_fate (fate_here v ticket) ≡ true → answer_meaning result ≡ abandon_answer v ticket }
        ensures step { (v : SenderView) → StandsFor F.format self.old v → is_numbered_fate (fate_here v ticket) ≡ true → StandsFor F.format self.new (abandon_after v ticket) }
    {
        if is_all_covered(&self.parts.streams, &self.parts.outstanding, ticket) {
            return Abandoned::Acknowledged;
        }
        if !self.told.partial {
            return Abandoned::Reliable;
        }
        self.give_up(ticket);
        Abandoned::Abandoned
    }

    /// Abandons the message with this ticket, once it is known that it may be abandoned.
    pub(crate) fn abandon_open(&mut self, ticket: u64)
        ensures { (v : SenderView) → StandsFor F.format self.old v → may_abandon v ticket ≡ true → StandsFor F.format self.new (abandon_after v ticket) }
    {
        let at = ticket as usize;
        if at == 0 {
            return;
        }
        if at > self.told.fates.len() {
            return;
        }
        match self.told.fates.get(at - 1) {
            Fate::Withdrawn => {}
            Fate::Abandoned => {}
            Fate::Queued => self.take_back(ticket),
            Fate::Numbered => self.give_up(ticket),
        }
    }

    /// Withdraws the message with this ticket, which waits for its number.
    fn take_back(&mut self, ticket: u64)
        requires some { 0 < ticket }
        requires given { ticket ≤ length self.old.fates }
        ensures { (v : SenderView) → StandsFor F.format self.old v → waits ticket v.queue ≡ true → StandsFor F.format self.new (abandon_after v ticket) }
    {
        withdraw(&mut self.parts.queue, ticket);
        self.told.fates.set(ticket as usize - 1, Fate::Withdrawn);
    }

    /// Abandons the message with this ticket, which has a number and may be abandoned.
    fn give_up(&mut self, ticket: u64)
        requires some { 0 < ticket }
        requires given { ticket ≤ length self.old.fates }
        ensures { (v : SenderView) → StandsFor F.format self.old v → is_numbered_fate (fate_here v ticket) ≡ true → may_abandon v ticket ≡ true → StandsFor F.format self.new (abandon_after v ticket) }
    {
        self.told.fates.give_up(ticket as usize - 1);
        self.parts.outstanding.abandon(ticket);
        if let Some(ending) = end(&mut self.parts.streams, ticket) {
            push_end(&mut self.parts.outstanding, ending);
        }
    }
}

/// The place in the queue of the message with this ticket, or the length of the queue if it isn't there.
fn place_of(queue: &Queue, ticket: u64) -> usize
    ensures { (size : ℕ) → without ticket (map (queued_by size) queue.now.items)
        ≡ take result (map (queued_by size) queue.now.items) ++ drop (result + 1) (map (queued_by size) queue.now.items) }
{
    for at in queue.first_from(ticket)..queue.len() {
        let message = queue.get(at);
        if message.ticket == ticket {
            return at;
        }
    }
    queue.len()
}

/// The message with this ticket waits no more.
fn withdraw(queue: &mut Queue, ticket: u64)
    ensures size { queue.new.size ≡ queue.old.size }
    ensures items { (size : ℕ) → map (queued_by size) queue.new.items ≡ without ticket (map (queued_by size) queue.old.items) }
{
    let place = place_of(queue, ticket);
    let _withdrawn = queue.remove(place);
}

/// The stream that goes on with the message with this ticket goes on with nothing; what was left of the message, where there is such a stream.
fn end(streams: &mut Streams, ticket: u64) -> Option<Ending>
    ensures size { streams.new.size ≡ streams.old.size }
    ensures none { (size : ℕ) → IfNone result (any_rest ticket (map (track_meaning size) streams.old.items) ≡ false) }
    ensures same { IfNone result (streams.new.items ≡ streams.old.items) }
    ensures some { (size : ℕ) → IfSome result (λ ending. EndsAt ticket (ending_meaning size ending) (map (track_meaning size) streams.old.items) (map (track_meaning size) streams.new.items)) }
{
    let at = streams.stream_of(ticket)?;
    ending_of(streams.leave(at, None))
}

/// Appends the end mark of a message. Its space was reserved when the message was queued.
fn push_end(outstanding: &mut Outstanding, ending: Ending)
    ensures items { (size : ℕ) → length outstanding.old.items < outstanding.old.capacity
        → map (item_meaning size) outstanding.new.items ≡ map (item_meaning size) outstanding.old.items ++ end_item (ending_meaning size ending) ∷ [] }
    ensures kept { length outstanding.old.items < outstanding.old.capacity → IsSameRoom outstanding.old outstanding.new }
    ensures size { outstanding.new.size ≡ outstanding.old.size }
    ensures header { outstanding.new.header ≡ outstanding.old.header }
{
    let _kept = outstanding.push(end_mark(ending));
}

/// The end mark of a message in part.
fn end_mark(ending: Ending) -> Entry
    ensures { (size : ℕ) → item_meaning size result ≡ end_item (ending_meaning size ending) }
{
    let Ending { rest, number } = ending;
    Entry {
        message: rest.message,
        number,
        content: Content::EndMark,
        standing: Standing::Unsent,
        covered: false,
        abandoned: true,
        repeats: 0,
    }
}
