//! The random values of an endpoint that opens an association.

ghost use Rattle.std.specs.Prelude.{◌≡◌, ◌<◌, MatchOption};
ghost use Rattle.sctp_model.specs.end.EndView.{IsDraw};

use std::marker::Model;

/// The random values that an endpoint needs to open an association: its verification tag, which is never 0, and its initial TSN
/// (RFC 9260, 5.3.1 and 3.3.2). The caller generates them. Contracts see the definitions' `Draw`.
#[derive(Clone, Copy, Debug, PartialEq, Eq)]
pub struct Draw {
    tag: u32,
    tsn: u32,
}

impl Model for Draw {
    ghost use Rattle.sctp_model.specs.end.EndView as meaning;
    ghost use Rattle.sctp_model.specs.end.EndView.{IsDraw};

    ghost Value = { meaning.Draw };

    ghost view = { λ d. record { tag = d.tag; tsn = d.tsn } };

    ghost inverse = { λ d. record { tag = d.tag; tsn = d.tsn } };

    ghost invariant = { λ d. IsDraw (record { tag = d.tag; tsn = d.tsn }) };
}

impl Draw {
    /// The random values with this verification tag and this initial TSN; None if and only if the tag is 0.
    pub fn new(tag: u32, tsn: u32) -> Option<Draw>
        ensures { MatchOption result (tag ≡ 0) (λ draw. (draw ≡ record { tag = tag; tsn = tsn }) × (0 < tag)) }
    {
        if tag == 0 {
            return None;
        }
        Some(Draw { tag, tsn })
    }

    /// The verification tag of packets to this endpoint (RFC 9260, 8.5), which isn't 0.
    pub fn tag(&self) -> u32
        ensures exact { result ≡ self.now.tag }
        ensures some { 0 < result }
        // Both numbers have 32 bits.
        ensures drawn { IsDraw self.now }
    {
        self.tag
    }

    /// The initial TSN: that of the first DATA or I-DATA chunk that it sends.
    pub fn tsn(&self) -> u32
        ensures { result ≡ self.now.tsn }
    {
        self.tsn
    }
}
