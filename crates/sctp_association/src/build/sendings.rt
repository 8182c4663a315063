//! How many chunks of user data a packet sends for the first time, and how many again, and why (RFC 9260, 6.1, 6.3.3 and 7.2.4).

ghost use Rattle.std.specs.Prelude.{◌≡◌, ◌-◌, count_by};
ghost use Rattle.sctp_congestion.specs.PaceStands.{missed_at};
ghost use Rattle.sctp_association.specs.Sends.{FillsNone};

use sctp_congestion::Pacing;
use sctp_values::Ticket;
use std::alloc::Global;

/// Of the DATA and I-DATA chunks of a packet, how many are sent for the first time, and how many again.
#[derive(Clone, Copy, Debug, PartialEq, Eq)]
pub struct Sendings {
    /// Sent for the first time (RFC 9260, 6.1).
    pub first: u64,
    /// Retransmitted without having three miss indications, after an expiry of the data timer (RFC 9260, 6.3.3).
    pub timed: u64,
    /// Retransmitted, and with three miss indications (RFC 9260, 7.2.4).
    pub missed: u64,
}

/// What went into a packet of user data: the tickets of the messages that were assigned their TSNs with it, by their first TSN, and how many chunks were
/// sent first and again.
#[derive(Drop)]
pub(crate) struct Filled {
    pub(crate) tickets: Vec<Ticket>,
    pub(crate) sendings: Sendings,
}

impl Sendings {
    /// Those of the sender, without a pace: none was missed.
    #[inline(always)]
    pub(crate) fn of(sent: sctp_send::Sendings) -> Sendings
        ensures { result ≡ record { first = sent.first; timed = sent.again; missed = 0 } }
    {
        Sendings {
            first: u64::from(sent.first),
            timed: u64::from(sent.again),
            missed: 0,
        }
    }
}

/// No user data.
#[inline(always)]
pub(crate) fn filled_none(alloc: Global) -> Filled
    ensures { FillsNone result }
{
    Filled {
        tickets: Vec::new(alloc),
        sendings: Sendings {
            first: 0,
            timed: 0,
            missed: 0,
        },
    }
}

impl Filled {
    /// So many of the chunks that were sent again had three miss indications.
    #[inline(always)]
    pub(crate) fn with_missed(self, missed: u64) -> Filled
        ensures tickets { result.tickets ≡ self.tickets }
        ensures sendings { result.sendings ≡ record self.sendings { timed = self.sendings.timed - missed; missed = missed } }
    {
        Filled {
            tickets: self.tickets,
            sendings: Sendings {
                first: self.sendings.first,
                timed: self.sendings.timed.saturating_sub(missed),
                missed,
            },
        }
    }
}

/// How many of these indexes have their third miss indication by this pace.
#[inline(always)]
pub(crate) fn missed_among(pace: &Pacing, indexes: &[u64]) -> u64
    ensures { result ≡ count_by (missed_at pace.now) indexes.now }
{
    if indexes.is_empty() {
        return 0;
    }
    count_missed(pace, indexes)
}

/// `missed_among`, by a walk.
#[inline(never)]
fn count_missed(pace: &Pacing, indexes: &[u64]) -> u64
    ensures { result ≡ count_by (missed_at pace.now) indexes.now }
{
    let mut count = 0;
    for index in indexes {
        if pace.is_missed(*index) {
            count += 1;
        }
    }
    count
}
