//! What is known of a stream that the peer reset, and a response to a request of the peer (RFC 6525, 4.4 and 5.2).

ghost use Rattle.std.specs.Prelude.{◌≡◌, ◌-◌, true, false, Some};
ghost use Rattle.sctp_model.specs.numbers.Serial.{COUNTS};
ghost use Rattle.sctp_values.specs.Meanings.{kind_meaning};
ghost use Rattle.sctp_recv.specs.Resets.{UNRESET, base_of};
ghost use Rattle.sctp_recv.specs.inner.Restarting.{restart_by};

use sctp_reconfig::ResetResult;
use sctp_values::Kind;

/// A response to a request of the peer, which waits for a packet (RFC 6525, 4.4).
#[derive(Clone, Copy, Debug, PartialEq, Eq)]
pub struct ResetResponse {
    /// The Re-configuration Response Sequence Number: that of the request.
    pub number: u32,
    /// The result.
    pub result: ResetResult,
}

/// A stream of the peer that was reset.
#[derive(Clone, Copy, Debug, PartialEq, Eq)]
pub struct Reset {
    /// The stream, from 0.
    pub stream: u16,
    /// Of its messages that wait, the number of those delivered before the reset: the first ones.
    pub count: usize,
}

/// The numbers of a stream since its last reset.
#[derive(Clone, Copy)]
pub(crate) struct Restart {
    /// The ordered number that is 0 on the wire.
    pub(crate) ordered: u64,
    /// The unordered number that is 0 on the wire.
    pub(crate) unordered: u64,
    /// The number of messages that wait and were delivered before the reset.
    pub(crate) old: usize,
}

impl Restart {
    /// Those of a stream that wasn't reset.
    pub(crate) fn none() -> Restart
        ensures { result ≡ UNRESET }
    {
        Restart {
            ordered: 0,
            unordered: 0,
            old: 0,
        }
    }

    /// The number of this kind that is 0 on the wire.
    pub(crate) fn base(self, kind: Kind) -> u64
        ensures { result ≡ base_of self (kind_meaning kind) }
    {
        match kind {
            Kind::Ordered => self.ordered,
            Kind::Unordered => self.unordered,
        }
    }

    /// The same after it was reset: its numbers begin anew as these do. If it was reset by the same request before, which was retried, nothing more is to
    /// be reported.
    pub(crate) fn renumbered(self, anew: Restart, again: bool) -> Restart
        ensures { result ≡ restart_by again anew self }
    {
        Restart {
            ordered: anew.ordered,
            unordered: anew.unordered,
            old: if again { self.old } else { anew.old },
        }
    }

    /// The same after its reset was reported.
    pub(crate) fn reported(self) -> Restart
        ensures { result ≡ record self { old = 0 } }
    {
        Restart {
            ordered: self.ordered,
            unordered: self.unordered,
            old: 0,
        }
    }

    /// The same after a message was taken.
    pub(crate) fn taken(self) -> Restart
        ensures { result ≡ record self { old = self.old - 1 } }
    {
        Restart {
            ordered: self.ordered,
            unordered: self.unordered,
            old: self.old.saturating_sub(1),
        }
    }
}

/// The number of a chunk is no count below the largest.
#[derive(Clone, Copy)]
pub(crate) struct Uncounted;

/// Whether a number is the largest, which stands for each that is no count below it.
pub(crate) fn is_largest(number: Option<u64>) -> bool
    ensures largest { result ≡ true → number ≡ Some (COUNTS - 1) }
    ensures other { result ≡ false → number ≡ Some (COUNTS - 1) → ⊥ }
{
    match number {
        Some(number) => number == u64::MAX,
        None => false,
    }
}
