//! Messages whose lifetime is over (timed reliability: RFC 3758, 3.5 and 4.1).
//!
//! Before the earliest of all deadlines nothing is done and no message is late, which one test of the table says (`Dues`). After it, the tickets whose
//! deadlines have passed are found by rising number; a page of 64 tickets with a later least deadline is skipped by one test. Such a ticket's
//! message is found by its fate (`Sender::moment`) and abandoned if it is late and may be, and its deadline is set anew: the latest possible one, if all
//! of it is acknowledged or it was abandoned, so that it costs nothing more. If a SACK may take back acknowledgements and deadlines were set so
//! (`asleep`), each outstanding message gets its own deadline again (`wake`), once. Only `queue` allocates for the table; at each 64th ticket it tests
//! whether nothing is kept of the messages of the first page, and passes it.

ghost use Rattle.std.specs.Prelude.{◌≡◌, ℕ, ◌+◌, ◌<◌, ◌≤◌, false, length, option_map, IfSome, IfNone};
ghost use Rattle.sctp_model.specs.sender.SenderView.{SenderView};
ghost use Rattle.sctp_model.specs.sender.Abandoning.{has_late, expired, expire_one, is_to_expire};
ghost use Rattle.sctp_send.specs.SenderStands.{StandsFor};
ghost use Rattle.sctp_send.specs.SenderAnswers.{next_late};
ghost use Rattle.sctp_send.specs.inner.Dues.{due_at, NextLateAnswer};

use crate::sender::Sender;
use sctp_framing::Framing;
use sctp_values::Ticket;

#[tactic(auto, unfolding(crate::specs::SenderStands::StandsFor))]
impl<F: Framing> Sender<F> {
    /// Abandons every message whose lifetime is over and that may be abandoned, in the order of tickets (RFC 3758, 4.1). `now` is in
    /// milliseconds, as `until` of `queue` is: the lifetime is over if `until` is `now` or earlier. It doesn't allocate.
    pub fn expire(&mut self, now: u64)
        ensures { (v : SenderView) → StandsFor F.format self.old v → StandsFor F.format self.new (expired v now) }
    {
        self.expire_all(now);
        self.told.dues.look_again(now);
    }

    /// Goes through the tickets with a deadline at or before `now`, and abandons the messages of those that are late.
    fn expire_all(&mut self, now: u64)
        ensures { (v : SenderView) → StandsFor F.format self.old v → StandsFor F.format self.new (expired v now) }
    {
        let mut last = 0;
        for _ in 0..self.told.fates.len() {
            match self.next_due(last, now) {
                Some(ticket) => {
                    self.expire_one(ticket, now);
                    last = ticket;
                }
                None => return,
            }
        }
    }

    /// The message with this ticket is abandoned, if it is past its time and may be; its deadline is set anew.
    fn expire_one(&mut self, ticket: u64, now: u64)
        ensures { (v : SenderView) → StandsFor F.format self.old v → StandsFor F.format self.new (expire_one now v ticket) }
    {
        self.abandon_late(ticket, now);
        self.look_at(ticket);
    }

    /// The message with this ticket is abandoned, if it is past its time and may be.
    fn abandon_late(&mut self, ticket: u64, now: u64)
        ensures { (v : SenderView) → StandsFor F.format self.old v → StandsFor F.format self.new (expire_one now v ticket) }
    {
        if self.is_late(ticket, now) {
            self.abandon_open(ticket);
        }
    }

    /// Sets the deadline of a ticket anew.
    fn look_at(&mut self, ticket: u64)
        ensures { (v : SenderView) → StandsFor F.format self.old v → StandsFor F.format self.new v }
    {
        let until = self.moment(ticket);
        self.told.dues.tell(ticket, until);
    }

    /// The first ticket above `last` whose deadline has passed.
    fn next_due(&self, last: u64, now: u64) -> Option<u64>
        ensures above { IfSome result (λ ticket. last < ticket) }
        ensures given { IfSome result (λ ticket. ticket ≤ self.now.passed + length self.now.moments) }
        ensures before { IfSome result (λ ticket. (t : ℕ) → last < t → t < ticket → now < due_at self.now.passed self.now.moments t) }
        ensures none { IfNone result ((t : ℕ) → last < t → now < due_at self.now.passed self.now.moments t) }
    {
        self.told.dues.next(last, now)
    }

    /// Whether the lifetime of some message that may be abandoned is over at `now`, in milliseconds. If not, `expire` changes nothing.
    pub fn has_late(&self, now: u64) -> bool
        ensures exact { (v : SenderView) → StandsFor F.format self.now v → result ≡ has_late v now }
        ensures idle { (v : SenderView) → StandsFor F.format self.now v → result ≡ false → expired v now ≡ v }
    {
        match self.lowest_late(0, now) {
            Some(_) => true,
            None => false,
        }
    }

    /// The lowest ticket above `last` whose message may be abandoned and whose lifetime is over at `now`, in milliseconds; `Ticket(0)` is below
    /// all tickets. Called again with each result, it gives all tickets that `expire` would abandon. A binary search finds its start; groups of
    /// tickets with later deadlines are skipped.
    pub fn next_late(&self, last: Ticket, now: u64) -> Option<Ticket>
        ensures { (v : SenderView) → StandsFor F.format self.now v → option_map (λ t. t.0) result ≡ next_late v last.0 now }
    {
        match self.lowest_late(last.0, now) {
            Some(ticket) => Some(Ticket(ticket)),
            None => None,
        }
    }

    /// `next_late`, by the numbers of the tickets.
    fn lowest_late(&self, last: u64, now: u64) -> Option<u64>
        ensures { (v : SenderView) → StandsFor F.format self.now v → NextLateAnswer v last now result }
    {
        let mut last = last;
        for _ in 0..self.told.fates.len() {
            match self.next_due(last, now) {
                Some(ticket) => {
                    if self.is_late(ticket, now) {
                        return Some(ticket);
                    }
                    last = ticket;
                }
                None => return None,
            }
        }
        None
    }

    /// The message with this ticket is past its time, and may be abandoned.
    fn is_late(&self, ticket: u64, now: u64) -> bool
        ensures { (v : SenderView) → StandsFor F.format self.now v → result ≡ is_to_expire v now ticket }
    {
        match self.moment(ticket) {
            Some(until) => until <= now,
            None => false,
        }
    }
}
