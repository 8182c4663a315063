//! The states of an open association, and the verification tags of its packets (RFC 9260, 4 and 8.5).

ghost use Rattle.std.specs.Prelude.{◌≡◌};
ghost use Rattle.sctp_model.specs.end.EndView as model;
ghost use Rattle.sctp_model.specs.end.Clock.{is_home};
ghost use Rattle.sctp_model.specs.end.Closing.{takes_data, takes_acknowledgements, takes_cookies, awaits_ack, awaits_complete, is_shutdown_sent};
ghost use Rattle.sctp_model.specs.end.UserCalls.{is_established};
ghost use Rattle.sctp_association.specs.StageMeans.{stage_meaning};

/// The verification tags of an association: packets to this endpoint carry `own`, packets from it `peer` (RFC 9260, 8.5).
#[derive(Clone, Copy)]
pub struct Tags {
    pub own: u32,
    pub peer: u32,
}

/// The state of an open association (RFC 9260, 4).
#[derive(Clone, Copy)]
pub enum Stage {
    /// ESTABLISHED: both users may send.
    Established,
    /// SHUTDOWN-PENDING: the user called `shutdown`; what is queued still goes out.
    ShutdownPending,
    /// SHUTDOWN-SENT: all was acknowledged, and a SHUTDOWN is sent.
    ShutdownSent,
    /// SHUTDOWN-RECEIVED: the peer sent a SHUTDOWN; what is queued here still goes out.
    ShutdownReceived,
    /// SHUTDOWN-ACK-SENT: all was acknowledged here too, and a SHUTDOWN ACK is sent.
    ShutdownAckSent,
}

impl Stage {
    /// Both users may send.
    pub(crate) fn is_established(self) -> bool
        ensures established { result ≡ is_established (stage_meaning self) }
        ensures home { (t : model.Tags) → result ≡ is_home model.ResetAlarm (model.Open t (stage_meaning self)) }
    {
        matches!(self, Stage::Established)
    }

    /// SHUTDOWN is sent until it is answered (RFC 9260, 9.2).
    pub fn is_shutdown_sent(self) -> bool
        ensures home { (t : model.Tags) → result ≡ is_home model.ShutdownAlarm (model.Open t (stage_meaning self)) }
        ensures sent { result ≡ is_shutdown_sent (stage_meaning self) }
    {
        matches!(self, Stage::ShutdownSent)
    }

    /// SHUTDOWN ACK is sent until it is answered (RFC 9260, 9.2).
    pub(crate) fn is_shutdown_ack_sent(self) -> bool
        ensures { (t : model.Tags) → result ≡ is_home model.AckAlarm (model.Open t (stage_meaning self)) }
    {
        matches!(self, Stage::ShutdownAckSent)
    }

    /// User data and FORWARD-TSN are processed: until the peer has sent its SHUTDOWN (RFC 9260, 6.2 and 9.2).
    pub fn takes_data(self) -> bool
        ensures { result ≡ takes_data (stage_meaning self) }
    {
        matches!(
            self,
            Stage::Established | Stage::ShutdownPending | Stage::ShutdownSent
        )
    }

    /// SACKs and the cumulative TSN of a SHUTDOWN are processed: until all data of this endpoint is acknowledged and its closing went on (RFC
    /// 9260, 6.2.1 and 9.2).
    pub fn takes_acknowledgements(self) -> bool
        ensures { result ≡ takes_acknowledgements (stage_meaning self) }
    {
        matches!(
            self,
            Stage::Established | Stage::ShutdownPending | Stage::ShutdownReceived
        )
    }

    /// A repeated COOKIE ECHO is answered (RFC 9260, 5.2.4).
    pub fn takes_cookies(self) -> bool
        ensures { result ≡ takes_cookies (stage_meaning self) }
    {
        !matches!(self, Stage::ShutdownAckSent)
    }

    /// A SHUTDOWN ACK closes the association (RFC 9260, 9.2).
    pub fn awaits_shutdown_ack(self) -> bool
        ensures { result ≡ awaits_ack (stage_meaning self) }
    {
        matches!(self, Stage::ShutdownSent | Stage::ShutdownAckSent)
    }

    /// A SHUTDOWN COMPLETE closes the association (RFC 9260, 9.2).
    pub fn awaits_shutdown_complete(self) -> bool
        ensures { result ≡ awaits_complete (stage_meaning self) }
    {
        matches!(self, Stage::ShutdownAckSent)
    }
}
