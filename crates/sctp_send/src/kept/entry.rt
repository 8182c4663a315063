//! What the TSN of an index above CUM is: a fragment or an end mark, and runs of such entries.

ghost use Rattle.std.specs.Prelude.{◌≡◌};
ghost use Rattle.sctp_send.specs.inner.Changes.{unmarked, state_of};

use crate::kept::message::Message;
use std::sync::Arc;

/// Whether an entry went out, and whether it is to go out again.
#[derive(Clone, Copy, PartialEq, Eq)]
pub(crate) enum Standing {
    /// It never went out.
    Unsent,
    /// It went out.
    Sent,
    /// It went out, and waits to be repeated.
    Marked,
}

/// This standing without the mark for retransmission.
pub(crate) fn unmarked(standing: Standing) -> Standing
    ensures { result ≡ unmarked standing }
{
    match standing {
        Standing::Unsent => Standing::Unsent,
        Standing::Sent | Standing::Marked => Standing::Sent,
    }
}

/// The content of an index: what was given to it.
#[derive(Clone, Copy)]
pub(crate) enum Content {
    /// A fragment of a message.
    Fragment(u32),
    /// The end mark of a message that was abandoned in part.
    EndMark,
}

/// One index above CUM: the fragment or end mark that has it, and what became of it.
#[derive(Drop)]
pub(crate) struct Entry {
    pub(crate) message: Arc<Message>,
    /// Its message's number in the lane (SSN or MID, as a count).
    pub(crate) number: u64,
    pub(crate) content: Content,
    pub(crate) standing: Standing,
    pub(crate) covered: bool,
    pub(crate) abandoned: bool,
    /// How often it was retransmitted; 65,535 says that it was so often or more often.
    pub(crate) repeats: u16,
}

/// What became of an entry. The fields are those of `Entry`.
#[derive(Clone, Copy)]
pub(crate) struct State {
    pub(crate) standing: Standing,
    pub(crate) covered: bool,
    pub(crate) abandoned: bool,
    pub(crate) repeats: u16,
}

impl Entry {
    /// What became of it.
    #[inline(always)]
    pub(crate) fn state(&self) -> State
        ensures { result ≡ state_of self.now }
    {
        State {
            standing: self.standing,
            covered: self.covered,
            abandoned: self.abandoned,
            repeats: self.repeats,
        }
    }
}

/// A run of entries that the peer has, by their offsets above CUM: those behind `from`, up to `to`.
#[derive(Clone, Copy)]
pub(crate) struct CoveredRun {
    pub(crate) from: u16,
    pub(crate) to: u16,
}

/// The most runs that are kept: as many blocks as a SACK has in a packet of 1,500 bytes (RFC 9260, 3.3.4), behind the packet's header and
/// its own first 16 bytes.
pub(crate) const RUNS: usize = 368;
