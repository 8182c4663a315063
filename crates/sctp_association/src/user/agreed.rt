//! What both endpoints agreed on, as it is reported to the user.

ghost use Rattle.sctp_opening.specs.Terms.{terms_meaning};
ghost use Rattle.sctp_association.specs.Agreeing.{AgreedAnswer};

use sctp_opening::Terms;

/// What both endpoints agreed on: the streams of each direction, and the extensions in use (RFC 9260, 5.1.1; RFC 8260, 2.2.1; RFC 3758, 3.1).
#[derive(Clone, Copy, Debug, PartialEq, Eq)]
pub struct Agreed {
    /// The number of streams on which this endpoint may send.
    pub outbound: u16,
    /// The number of streams on which its peer may send.
    pub inbound: u16,
    /// User data is sent as I-DATA and skipped by I-FORWARD-TSN; else by DATA and FORWARD-TSN.
    pub interleave: bool,
    /// Messages with TSNs may be abandoned: the peer skips them by FORWARD-TSN or I-FORWARD-TSN.
    pub partial: bool,
}

impl Agreed {
    /// From these terms: None exactly if they have no stream in either direction.
    pub(crate) fn on(terms: Terms) -> Option<Agreed>
        ensures { AgreedAnswer (terms_meaning terms) result }
    {
        if terms.outbound == 0 && terms.inbound == 0 {
            return None;
        }
        Some(Agreed {
            outbound: terms.outbound,
            inbound: terms.inbound,
            interleave: terms.interleave,
            partial: terms.partial,
        })
    }
}
