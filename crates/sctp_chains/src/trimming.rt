//! Memory that chunks took is given back when the user asks.

ghost use Rattle.sctp_model.specs.messages.Format.{Lane};
ghost use Rattle.sctp_chains.specs.Cells.{Kept};
ghost use Rattle.sctp_chains.specs.StandsFor.{StandsFor};

use crate::chains::Chains;
use sctp_framing::Framing;

#[tactic(auto, unfolding(crate::specs::StandsFor::StandsFor))]
impl<F: Framing> Chains<F> {
    /// Gives back the memory for chunks, if none is kept.
    pub fn trim(&mut self)
        ensures { (l : Lane) (kept : Kept) → StandsFor F.format self.old l kept → StandsFor F.format self.new l kept }
    {
        self.filed.trim();
    }
}
