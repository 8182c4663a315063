//! Why a received packet is dropped.

ghost use Rattle.std.specs.Prelude.{◌≡◌};
ghost use Rattle.sctp_terms.specs.Meanings.{reason_code};

/// Why a received packet was dropped: it had no effect but that the time of its arrival was noted.
#[derive(Clone, Copy, Debug, PartialEq, Eq)]
pub enum Reason {
    /// 1: its bytes aren't a packet (RFC 9260, 3 and 6.8).
    Fault,
    /// 2: its ports aren't those of the association (RFC 9260, 8.4).
    Ports,
    /// 3: its verification tag is wrong (RFC 9260, 8.5).
    Tag,
    /// 4: none of its chunks is handled in the endpoint's state.
    State,
    /// 5: its cookie isn't valid (RFC 9260, 5.1.5).
    Cookie,
}

impl Reason {
    /// The code of this reason, 1 to 5.
    pub fn code(self) -> u8
        ensures { result ≡ reason_code self }
    {
        match self {
            Reason::Fault => 1,
            Reason::Ports => 2,
            Reason::Tag => 3,
            Reason::State => 4,
            Reason::Cookie => 5,
        }
    }
}
