//! Abandoning messages that were retransmitted as often as they may be (RFC 7496, 3.1).

ghost use Rattle.std.specs.Prelude.{◌≡◌, ℕ, suc, ◌+◌, ◌<◌, Bool, true, length};
ghost use Rattle.sctp_model.specs.sender.SenderView.{SenderView};
ghost use Rattle.sctp_model.specs.sender.Abandoning.{wear_one, worn};
ghost use Rattle.sctp_send.specs.SenderStands.{StandsFor};
ghost use Rattle.sctp_send.specs.PaceAnswers.{AgreeAbove};
ghost use Rattle.sctp_send.specs.inner.Testing.{index_of, passes_between};
ghost use Rattle.sctp_send.specs.inner.Wearing.{WornAnswer};

use crate::index_test::{EachIndex, IndexTest};
use crate::kept::wishes::{is_spent, is_unsettled};
use crate::sack::marking::{index_at, offset_of};
use crate::sender::Sender;
use sctp_framing::Framing;
use sctp_values::Ticket;

#[tactic(auto, unfolding(crate::specs::SenderStands::StandsFor))]
impl<F: Framing> Sender<F> {
    /// For an expiry of the data timer, before `on_timeout`: each message is abandoned, as by `abandon`, if one of its outstanding fragments was
    /// retransmitted as often as the message's limit allows (RFC 7496, 3.1). It doesn't allocate.
    pub fn wear(&mut self)
        ensures { (v : SenderView) → StandsFor F.format self.old v → StandsFor F.format self.new (worn (λ i. true) v) }
    {
        let last = self.parts.outstanding.len();
        self.wear_offsets(0, last, &EachIndex);
    }

    /// As `wear`, for the fragments with the indexes from `from` on, below `below`, that pass the test. Indexes count TSNs from 1, the initial TSN.
    pub fn wear_between<T: IndexTest>(&mut self, from: u64, below: u64, test: &T)
        ensures { (v : SenderView) (missed : ℕ → Bool) → StandsFor F.format self.old v → AgreeAbove v from below (T.Says test.now) missed
            → StandsFor F.format self.new (worn missed v) }
    {
        let cum = self.told.cum;
        self.wear_offsets(offset_of(cum, from), offset_of(cum, below), test);
    }

    /// As `wear`, for the entries at the offsets from `from` on, below `to`, whose indexes pass, by rising offset. No end mark that it appends is looked at.
    fn wear_offsets<T: IndexTest>(&mut self, from: usize, to: usize, test: &T)
        ensures { (v : SenderView) (missed : ℕ → Bool) → StandsFor F.format self.old v
            → ((k : ℕ) → k < length self.old.items → passes_between (T.Says test.now) self.old.cum from to k ≡ missed (suc (v.cum + k)))
            → StandsFor F.format self.new (worn missed v) }
    {
        let last = to.min(self.parts.outstanding.len());
        let first = from.min(last);
        for at in first..last {
            self.wear_passing(at, test);
        }
    }

    /// `wear_at`, if the index at that offset passes.
    fn wear_passing<T: IndexTest>(&mut self, at: usize, test: &T)
        ensures { (v : SenderView) (missed : ℕ → Bool) → StandsFor F.format self.old v → T.Says test.now (index_of self.old.cum at) ≡ missed (suc (v.cum + at))
            → StandsFor F.format self.new (wear_one missed v (suc (v.cum + at))) }
    {
        if test.passes(index_at(self.told.cum, at)) {
            self.wear_at(at);
        }
    }

    /// The message of the entry at an offset is abandoned, if that was retransmitted as often as the limit allows.
    fn wear_at(&mut self, at: usize)
        ensures { (v : SenderView) → StandsFor F.format self.old v → (test : ℕ → Bool) → test (suc (v.cum + at)) ≡ true → StandsFor F.format self.new (wear_one test v (suc (v.cum + at))) }
    {
        if let Some(ticket) = self.worn_at(at) {
            let _answer = self.abandon(Ticket(ticket));
        }
    }

    /// The ticket of the message of the entry at an offset, if that was sent, is neither acknowledged nor abandoned, and was retransmitted as often as
    /// the limit allows.
    fn worn_at(&self, at: usize) -> Option<u64>
        ensures { (v : SenderView) → StandsFor F.format self.now v → (test : ℕ → Bool) → test (suc (v.cum + at)) ≡ true → WornAnswer test v (suc (v.cum + at)) result }
    {
        if at >= self.parts.outstanding.len() {
            return None;
        }
        let entry = self.parts.outstanding.get(at);
        if is_unsettled(entry) && is_spent(entry, self.told.partial) {
            return Some(entry.message.ticket);
        }
        None
    }
}
