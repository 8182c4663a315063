//! Which verification tags an endpoint accepts (RFC 9260, 8.5).

ghost use Rattle.std.specs.Prelude.{◌≡◌, if◌then◌else◌};
ghost use Rattle.sctp_model.specs.end.EndView.{EndView};
ghost use Rattle.sctp_model.specs.end.Passing.{passes_tag};
ghost use Rattle.sctp_association.specs.PhaseMeans.{phase_in, phase_unjoined};
ghost use Rattle.sctp_association.specs.MachineStands.{MachineStands};

use crate::machine::Machine;
use crate::state::life::{Association, Life, Progress, Unjoined};
use crate::state::stage::Tags;

#[tactic(auto, unfolding(crate::specs::MachineStands::MachineStands))]
impl Machine {
    /// A packet with this tag is accepted: the tag is the endpoint's own, or its peer's if `reflected`, that is, if the packet's ABORT or SHUTDOWN
    /// COMPLETE has the T bit set (RFC 9260, 8.5.1). Without an association every tag is accepted.
    #[inline(always)]
    pub fn passes_tag(&self, reflected: bool, tag: u32) -> bool
        ensures { (v : EndView) → MachineStands self.now v → result ≡ passes_tag v.phase reflected tag }
    {
        match &self.life {
            Life::Unjoined(unjoined) => unjoined.passes_tag(reflected, tag),
            Life::Joined(association) => association.passes_tag(reflected, tag),
        }
    }
}

impl Unjoined {
    /// Before an association: a caller accepts its own tag alone, any other endpoint every tag.
    fn passes_tag(self, reflected: bool, tag: u32) -> bool
        ensures { result ≡ passes_tag (phase_unjoined self) reflected tag }
    {
        match self {
            Unjoined::Calling(draw) => !reflected && tag == draw.tag(),
            Unjoined::Idle => true,
            Unjoined::Listening => true,
            Unjoined::Failed(_) => true,
        }
    }
}

impl Association {
    /// In an association: the tag that is asked for; once it is over, every tag.
    #[inline(always)]
    fn passes_tag(&self, reflected: bool, tag: u32) -> bool
        ensures { result ≡ passes_tag (phase_in self.now.tags self.now.progress) reflected tag }
    {
        match &self.progress {
            Progress::Echoing(_) => tag == self.tags.asked(reflected),
            Progress::Open(_) => tag == self.tags.asked(reflected),
            Progress::Over(_) => true,
        }
    }
}

impl Tags {
    /// The tag that is asked for.
    fn asked(self, reflected: bool) -> u32
        ensures { result ≡ (if reflected then self.peer else self.own) }
    {
        if reflected { self.peer } else { self.own }
    }
}
