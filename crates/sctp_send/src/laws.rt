//! What holds of every view that a sender stands for.

ghost use Rattle.sctp_model.specs.sender.SenderView.{SenderView};
ghost use Rattle.sctp_model.specs.sender.Reached.{IsReached};
ghost use Rattle.sctp_send.specs.SenderStands.{StandsFor};

use crate::sender::Sender;
use sctp_framing::Framing;

#[tactic(auto, unfolding(crate::specs::SenderStands::StandsFor))]
impl<F: Framing> Sender<F> {
    // law
    /// A sender stands only for views that its calls can reach.
    pub fn reached(&self)
        ensures { (v : SenderView) → StandsFor F.format self.now v → IsReached F.format v }
    {}
}
