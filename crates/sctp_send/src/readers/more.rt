//! Whether something waits to be sent.

ghost use Rattle.std.specs.Prelude.{◌≡◌};
ghost use Rattle.sctp_model.specs.sender.SenderView.{SenderView};
ghost use Rattle.sctp_model.specs.sender.Readers.{has_more};
ghost use Rattle.sctp_send.specs.SenderStands.{StandsFor};

use crate::sender::Sender;
use sctp_framing::Framing;

#[tactic(auto, unfolding(crate::specs::SenderStands::StandsFor))]
impl<F: Framing> Sender<F> {
    /// Whether something waits to be sent: a chunk that is marked for retransmission, or has a TSN and was never sent, a message in the queue, or the rest
    /// of one. It costs four tests if nothing does, and a search if a chunk was marked or never sent at the last fill.
    pub fn has_more(&self) -> bool
        ensures { (v : SenderView) → StandsFor F.format self.now v → result ≡ has_more v }
    {
        if self.parts.queue.len() > 0 {
            return true;
        }
        if self.parts.streams.in_part() > 0 {
            return true;
        }
        self.parts.outstanding.has_pending()
    }
}
