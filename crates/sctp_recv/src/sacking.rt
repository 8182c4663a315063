//! The SACK of a receiver: with lists of its own, or, if it has none, without (RFC 9260, 3.3.4 and 6.2).

ghost use Rattle.std.specs.Prelude.{◌≡◌, ◌^◌, ◌<◌, ◌-◌, IfOk, MatchOption};
ghost use Rattle.sctp_model.specs.numbers.Limits.{BLOCK_LIMIT};
ghost use Rattle.sctp_model.specs.numbers.Serial.{tsn};
ghost use Rattle.sctp_model.specs.receiver.ReceiverView.{ReceiverView};
ghost use Rattle.sctp_model.specs.receiver.SackMade.{IsSack};
ghost use Rattle.sctp_model.specs.wire.Chunk.{Sack};
ghost use Rattle.sctp_wire.specs.Layouts.{Fits};
ghost use Rattle.sctp_recv.specs.SackOf.{lists_meaning, plain_meaning, TellsLists};
ghost use Rattle.sctp_recv.specs.StandsFor.{StandsFor};

use crate::receiver::Receiver;
use crate::sack::{PlainSack, SackLists};
use sctp_framing::Framing;
use sctp_serial::tsn_of;
use sctp_values::NoMemory;

#[tactic(auto, unfolding(crate::specs::StandsFor::StandsFor))]
impl<F: Framing> Receiver<F> {
    /// The SACK to be sent now. Nothing changes.
    ///
    /// # Errors
    /// Allocation failed.
    pub fn sack(&self) -> Result<SackLists, NoMemory>
        ensures sack { (v : ReceiverView) → StandsFor F.format self.now v → IfOk result (λ s. IsSack BLOCK_LIMIT v (lists_meaning s)) }
        ensures fits { IfOk result (λ s. Fits (Sack (lists_meaning s))) }
    {
        let mut blocks = Vec::new(self.alloc);
        self.seen.put_blocks(&mut blocks)?;
        let mut duplicates = Vec::new(self.alloc);
        self.duplicates.put(&mut duplicates)?;
        let words = self.sack_words();
        Ok(SackLists {
            cumulative: words.cumulative,
            rwnd: words.rwnd,
            blocks,
            duplicates,
        })
    }

    /// The SACK to be sent now, if it has neither gap ack blocks nor duplicates: None if and only if it has. Nothing changes, and nothing is allocated.
    #[inline(always)]
    pub fn plain_sack(&self) -> Option<PlainSack>
        ensures { (v : ReceiverView) → StandsFor F.format self.now v → MatchOption result (TellsLists v) (λ s. IsSack BLOCK_LIMIT v (plain_meaning s)) }
    {
        if self.seen.has_runs() || self.duplicates.has_some() {
            return None;
        }
        Some(self.sack_words())
    }

    /// The cumulative TSN and the space left, as a SACK tells them.
    #[inline(always)]
    fn sack_words(&self) -> PlainSack
        ensures cumulative { result.cumulative ≡ tsn self.now.initial self.now.seen.kept.cumulative }
        ensures rwnd { result.rwnd ≡ self.now.buffer - self.now.held }
        ensures fits { (result.cumulative < 2 ^ 32) × (result.rwnd < 2 ^ 32) }
    {
        PlainSack {
            cumulative: tsn_of(self.initial, self.seen.cumulative()),
            rwnd: self.buffer.saturating_sub(self.held),
        }
    }
}
