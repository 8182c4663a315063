//! Whether a message is ordered.

ghost use Rattle.std.specs.Prelude.{◌≡◌};
ghost use Rattle.sctp_model.specs.messages.Framing.{lane_kind};
ghost use Rattle.sctp_values.specs.Meanings.{kind_meaning};

/// Ordered or unordered delivery of a message (RFC 9260, 6.6).
#[derive(Clone, Copy, Debug, PartialEq, Eq)]
pub enum Kind {
    /// Delivered in the order of sending on its stream.
    Ordered,
    /// Delivered as soon as all its fragments have arrived.
    Unordered,
}

impl Kind {
    /// The kind that a U flag says: the flag is set for an unordered message (RFC 9260, 3.3.1).
    pub fn of_flag(unordered: bool) -> Kind
        ensures { kind_meaning result ≡ lane_kind unordered }
    {
        if unordered {
            Kind::Unordered
        } else {
            Kind::Ordered
        }
    }

    /// The U flag of this kind.
    pub fn flag(self) -> bool
        ensures { lane_kind result ≡ kind_meaning self }
    {
        matches!(self, Kind::Unordered)
    }
}
