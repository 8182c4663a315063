//! Tickets of whose messages nothing is kept but their fates.

ghost use Rattle.std.specs.Prelude.{◌≡◌, ℕ, ◌≤◌, true, false, map};
ghost use Rattle.sctp_model.specs.sender.SenderView.{SenderView};
ghost use Rattle.sctp_model.specs.sender.Abandoning.{waits};
ghost use Rattle.sctp_send.specs.OutstandingFields.{item_meaning};
ghost use Rattle.sctp_send.specs.SenderFields.{queued_by, track_meaning};
ghost use Rattle.sctp_send.specs.SenderStands.{StandsFor};
ghost use Rattle.sctp_send.specs.inner.Walks.{any_item, any_rest};

use crate::kept::outstanding::Outstanding;
use crate::kept::queue::Queue;
use crate::kept::streams::Streams;
use crate::sender::Sender;
use sctp_framing::Framing;

#[tactic(auto, unfolding(crate::specs::SenderStands::StandsFor))]
impl<F: Framing> Sender<F> {
    /// From time to time the first block of tickets ends, if nothing is kept of it but their fates.
    #[inline(always)]
    pub(crate) fn end_tickets(&mut self)
        ensures { (v : SenderView) → StandsFor F.format self.old v → StandsFor F.format self.new v }
    {
        if self.told.fates.is_due() {
            self.end_first_tickets();
        }
    }

    /// Where nothing is kept of the first block of tickets but their fates, these stand for good, and take less room where they are alike.
    fn end_first_tickets(&mut self)
        ensures { (v : SenderView) → StandsFor F.format self.old v → StandsFor F.format self.new v }
    {
        let Some(last) = self.told.fates.next_end() else {
            return;
        };
        if !is_past(
            &self.parts.queue,
            &self.parts.streams,
            &self.parts.outstanding,
            last,
        ) {
            return;
        }
        self.told.fates.end_block();
    }

    /// Ends all blocks of tickets of which nothing is kept but their fates, one by one.
    fn end_all_tickets(&mut self)
        ensures { (v : SenderView) → StandsFor F.format self.old v → StandsFor F.format self.new v }
    {
        for _ in 0..self.told.fates.blocks_left() {
            self.end_first_tickets();
        }
    }

    /// Gives memory back that a burst took, if less than an eighth of it is used: of chunks that were outstanding, of the queue, of tickets. That for the
    /// chunks of accepted messages stays. It allocates smaller blocks in place of larger ones; one that can't be allocated leaves the larger one.
    pub fn trim(&mut self)
        ensures { (v : SenderView) → StandsFor F.format self.old v → StandsFor F.format self.new v }
    {
        let owed = self.owed_by_accepted() as usize;
        if self.parts.outstanding.is_roomy(owed) || self.parts.queue.is_roomy() {
            self.give_all_back();
        }
    }

    /// Gives back what isn't used of the memory for entries, messages and tickets.
    fn give_all_back(&mut self)
        ensures { (v : SenderView) → StandsFor F.format self.old v → StandsFor F.format self.new v }
    {
        self.give_entries_back();
        self.parts.queue.give_back();
        self.end_all_tickets();
        self.told.fates.give_back();
        self.pass_all_tickets();
        self.told.dues.give_back();
    }

    /// Gives back what isn't used of the memory for entries, but for those that the accepted messages may still take.
    fn give_entries_back(&mut self)
        ensures { (v : SenderView) → StandsFor F.format self.old v → StandsFor F.format self.new v }
    {
        let owed = self.owed_by_accepted() as usize;
        self.parts.outstanding.give_back(owed);
    }

    /// From time to time the first tickets are passed, if nothing is kept of their messages.
    pub(crate) fn pass_tickets(&mut self)
        ensures { (v : SenderView) → StandsFor F.format self.old v → StandsFor F.format self.new v }
    {
        if self.told.dues.is_due() {
            self.pass_first_tickets();
        }
    }

    /// Where nothing is kept of the messages of a page of tickets, these are passed: they are never late.
    fn pass_first_tickets(&mut self)
        ensures { (v : SenderView) → StandsFor F.format self.old v → StandsFor F.format self.new v }
    {
        let Some(last) = self.told.dues.first_page() else {
            return;
        };
        if !is_past(
            &self.parts.queue,
            &self.parts.streams,
            &self.parts.outstanding,
            last,
        ) {
            return;
        }
        self.told.dues.pass_page();
    }

    /// Passes all tickets of whose messages nothing is kept, page by page, if they have moments of their own.
    fn pass_all_tickets(&mut self)
        ensures { (v : SenderView) → StandsFor F.format self.old v → StandsFor F.format self.new v }
    {
        for _ in 0..self.told.dues.pages_left() {
            self.pass_first_tickets();
        }
    }
}

/// No message up to this ticket waits, is in part, or has an entry above CUM.
fn is_past(queue: &Queue, streams: &Streams, outstanding: &Outstanding, last: u64) -> bool
    ensures queue { (size t : ℕ) → result ≡ true → t ≤ last → waits t (map (queued_by size) queue.now.items) ≡ false }
    ensures tracks { (size t : ℕ) → result ≡ true → t ≤ last → any_rest t (map (track_meaning size) streams.now.items) ≡ false }
    ensures items { (size t : ℕ) → result ≡ true → t ≤ last → any_item t (map (item_meaning size) outstanding.now.items) ≡ false }
{
    outstanding.is_past(last) && streams.is_past(last) && queue.is_past(last)
}
