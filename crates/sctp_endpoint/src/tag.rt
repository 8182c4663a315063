//! The endpoint's own verification tag (RFC 9260, 5.3.1 and 8.5).

ghost use Rattle.std.specs.Prelude.{◌≡◌};
ghost use Rattle.sctp_model.specs.end.EndView.{EndView};
ghost use Rattle.sctp_association.specs.OwnTag.{own_tag};
ghost use Rattle.sctp_endpoint.specs.EndpointStands.{EndpointStands};

use crate::endpoint::Endpoint;

#[tactic(auto, unfolding(crate::specs::EndpointStands::EndpointStands))]
impl Endpoint {
    /// The verification tag that packets to it carry, so that a program with many endpoints at one socket finds the one that a packet is for: a
    /// caller's from `connect` on, a listener's from its COOKIE ECHO on, at which the association begins. None before, and once the association is
    /// over. It isn't 0 (RFC 9260, 5.3.1 and 8.5).
    pub fn own_tag(&self) -> Option<u32>
        ensures { (v : EndView) → EndpointStands self.now v → result ≡ own_tag v.phase }
    {
        self.machine.own_tag()
    }
}
