//! The states of an endpoint (RFC 9260, 4), each with the data that it has in that state alone: sender and receiver exist exactly if there is or
//! was an association.

ghost use Rattle.std.specs.Prelude.{◌≡◌, Bool, false, MatchOption};
ghost use Rattle.sctp_model.specs.end.EndView as model;
ghost use Rattle.sctp_model.specs.end.EndView.{has_association, ended_of};
ghost use Rattle.sctp_model.specs.end.Closing.{hears};
ghost use Rattle.sctp_model.specs.end.Opening.{is_calling};
ghost use Rattle.sctp_model.specs.end.UserCalls.{peer_tag};
ghost use Rattle.sctp_association.specs.StageMeans.{stage_meaning, tags_meaning};
ghost use Rattle.sctp_association.specs.PhaseMeans.{phase_in, phase_unjoined};

use crate::state::carried::EchoedCookie;
use crate::state::stage::{Stage, Tags};
use crate::traffic::Traffic;
use sctp_cookie::Key;
use sctp_opening::Terms;
use sctp_terms::{Draw, End};

/// How an endpoint was created.
#[derive(Drop)]
pub(crate) enum Role {
    /// It calls, by an INIT.
    Caller,
    /// It listens; this key seals its cookies.
    Listener(Key),
    /// It was created established, together with its peer, without packets.
    Paired,
}

/// The state of an endpoint.
#[derive(Drop)]
pub(crate) enum Life {
    /// There was no association yet.
    Unjoined(Unjoined),
    /// There is an association, or there was one.
    Joined(Association),
}

/// The state of an endpoint that never had an association.
#[derive(Clone, Copy)]
pub(crate) enum Unjoined {
    /// Nothing happened yet.
    Idle,
    /// It waits for a COOKIE ECHO, and keeps no state.
    Listening,
    /// It sent or is to send its INIT, with this tag and initial TSN.
    Calling(Draw),
    /// Closed for good before there was an association.
    Failed(End),
}

/// An association: it exists as soon as both tags and all terms are known, and also once it is over.
#[derive(Drop)]
pub(crate) struct Association {
    pub(crate) tags: Tags,
    pub(crate) terms: Terms,
    pub(crate) progress: Progress,
    pub(crate) traffic: Traffic,
}

/// The progress of an association.
#[derive(Drop)]
pub(crate) enum Progress {
    /// COOKIE ECHOED: the cookie goes back to the listener.
    Echoing(EchoedCookie),
    /// Open, in this stage.
    Open(Stage),
    /// Closed for good.
    Over(End),
}

/// The tags and the stage of an open association.
#[derive(Clone, Copy)]
pub struct Opened {
    pub tags: Tags,
    pub stage: Stage,
}

impl Unjoined {
    /// The tag and initial TSN of a caller that waits for an INIT ACK.
    pub(crate) fn calling(&self) -> Option<Draw>
        ensures { MatchOption result (is_calling (phase_unjoined self.now) ≡ false) (λ d. phase_unjoined self.now ≡ model.Calling d) }
    {
        match self {
            Unjoined::Idle => None,
            Unjoined::Listening => None,
            Unjoined::Calling(draw) => Some(*draw),
            Unjoined::Failed(_) => None,
        }
    }
}

impl Association {
    /// Tags and stage, while it is open.
    pub(crate) fn opened(&self) -> Option<Opened>
        ensures { MatchOption result ((says : model.Stage → Bool) → hears says (phase_in self.now.tags self.now.progress) ≡ false)
            (λ o. phase_in self.now.tags self.now.progress ≡ model.Open (tags_meaning o.tags) (stage_meaning o.stage)) }
    {
        match &self.progress {
            Progress::Open(stage) => Some(Opened {
                tags: self.tags,
                stage: *stage,
            }),
            Progress::Echoing(_) | Progress::Over(_) => None,
        }
    }

    /// The peer's tag, unless the association is over.
    pub(crate) fn peer_tag(&self) -> Option<u32>
        ensures { result ≡ peer_tag (phase_in self.now.tags self.now.progress) }
    {
        match &self.progress {
            Progress::Echoing(_) => Some(self.tags.peer),
            Progress::Open(_) => Some(self.tags.peer),
            Progress::Over(_) => None,
        }
    }

    /// It isn't over.
    pub(crate) fn is_alive(&self) -> bool
        ensures { result ≡ has_association (phase_in self.now.tags self.now.progress) }
    {
        match &self.progress {
            Progress::Echoing(_) => true,
            Progress::Open(_) => true,
            Progress::Over(_) => false,
        }
    }
}
