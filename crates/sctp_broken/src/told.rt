//! The verdict on a packet.

use sctp_endpoint::Verdict;

/// The verdict on a packet that arrived.
#[derive(Clone, Copy, PartialEq, Eq)]
pub enum Told {
    /// It was processed.
    Taken,
    /// It was answered.
    Answered,
    /// It was dropped, for the reason with this code: 1 fault, 2 ports, 3 tag, 4 state, 5 cookie.
    Dropped(u8),
}

/// Its bytes aren't a packet.
pub const FAULT: Told = Told::Dropped(1);
/// Its ports aren't those of the association.
pub const PORTS: Told = Told::Dropped(2);
/// Its verification tag isn't right.
pub const TAG: Told = Told::Dropped(3);
/// Nothing in it is listed for the state.
pub const STATE: Told = Told::Dropped(4);
/// Its cookie doesn't open.
pub const COOKIE: Told = Told::Dropped(5);

impl Told {
    /// The verdict of an endpoint.
    pub fn of(verdict: &Verdict) -> Told {
        match verdict {
            Verdict::Taken => Told::Taken,
            Verdict::Answer(_) => Told::Answered,
            Verdict::Dropped(reason) => Told::Dropped(reason.code()),
        }
    }

    /// Its word.
    pub fn word(self) -> &'static str {
        match self {
            Told::Taken => "taken",
            Told::Answered => "answered",
            FAULT => "dropped 1",
            PORTS => "dropped 2",
            TAG => "dropped 3",
            STATE => "dropped 4",
            Told::Dropped(_) => "dropped 5",
        }
    }

    /// Whether it is dropped for a fault, for its ports or for its tag: then no end has changed.
    pub fn is_strange(self) -> bool {
        matches!(self, Told::Dropped(1..=3))
    }
}
