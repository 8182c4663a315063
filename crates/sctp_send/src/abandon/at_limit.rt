//! Messages with a fragment that was retransmitted as often as its limit allows (RFC 7496, 3.1).

ghost use Rattle.std.specs.Prelude.{◌≡◌, ℕ, Bool, true, false, option_map};
ghost use Rattle.sctp_model.specs.sender.SenderView.{SenderView};
ghost use Rattle.sctp_model.specs.sender.Abandoning.{worn};
ghost use Rattle.sctp_model.specs.sender.Readers.{abandoned};
ghost use Rattle.sctp_send.specs.SenderStands.{StandsFor};
ghost use Rattle.sctp_send.specs.SenderAnswers.{is_at_limit, next_at_limit};

use crate::sender::Sender;
use sctp_framing::Framing;
use sctp_values::Ticket;

#[tactic(auto, unfolding(crate::specs::SenderStands::StandsFor))]
impl<F: Framing> Sender<F> {
    /// The lowest ticket above `last` of a message that isn't abandoned, one of whose outstanding fragments was retransmitted as often as its limit
    /// allows (RFC 7496, 3.1); `Ticket(0)` is below all tickets. Called again with each result, it gives all tickets that `wear` may abandon.
    pub fn next_at_limit(&self, last: Ticket) -> Option<Ticket>
        ensures { (v : SenderView) → StandsFor F.format self.now v → option_map (λ t. t.0) result ≡ next_at_limit v last.0 }
    {
        match self.parts.outstanding.next_spent(last.0, self.told.partial) {
            Some(ticket) => Some(Ticket(ticket)),
            None => None,
        }
    }

    // law
    /// An abandoned message is not at its limit, and `worn`, whichever indexes pass, abandons only messages that are.
    pub fn limited(&self)
        ensures gone { (v : SenderView) → StandsFor F.format self.now v → (t : ℕ) → abandoned v t ≡ true → is_at_limit v t ≡ false }
        ensures only { (v : SenderView) → StandsFor F.format self.now v → (test : ℕ → Bool) (t : ℕ) → abandoned (worn test v) t ≡ true → abandoned v t ≡ false → is_at_limit v t ≡ true }
    {}
}
