//! What a chunk leaves, what is noted of it for the end of its packet, and what is returned of a packet.

ghost use Rattle.std.specs.Prelude.{◌≡◌};
ghost use Rattle.sctp_model.specs.end.Arriving.{no_notes, noted, urged};
ghost use Rattle.sctp_model.specs.end.PeerFaults.{Unnoted, ToAcknowledge};
ghost use Rattle.sctp_endpoint.specs.inner.Acted.{notes_meaning};

use sctp_terms::Reason;

/// What a chunk leaves.
#[derive(Drop)]
pub(crate) enum After {
    /// The chunk was handled; those after it follow.
    GoesOn,
    /// The chunk was handled, and the packet is to be acknowledged once its last chunk was (RFC 9260, 6.2).
    Acknowledges {
        /// It is a DATA or I-DATA chunk.
        is_data: bool,
        /// The SACK may not be delayed.
        at_once: bool,
    },
    /// The chunk was handled; those after it are ignored.
    Ends,
    /// The chunk is ignored in this state.
    PassedOver,
    /// The packet is answered by this one; the chunks after it are ignored.
    Replies(Vec<u8>),
    /// The packet is dropped.
    Drops(Reason),
}

/// What is noted of the chunks of a packet that were handled.
#[derive(Clone, Copy)]
pub(crate) struct Notes {
    /// One of them wasn't ignored.
    pub(crate) listed: bool,
    /// One of them is to be acknowledged (RFC 9260, 6.2).
    pub(crate) acknowledges: bool,
    /// One of these is a DATA or I-DATA chunk.
    pub(crate) brings_data: bool,
    /// For one of these the SACK may not be delayed.
    pub(crate) at_once: bool,
}

impl Notes {
    /// Before the first chunk.
    pub(crate) fn none() -> Notes
        ensures { notes_meaning result ≡ no_notes }
    {
        Notes {
            listed: false,
            acknowledges: false,
            brings_data: false,
            at_once: false,
        }
    }

    /// After a cookie that began an association.
    pub(crate) fn of_cookie() -> Notes
        ensures { notes_meaning result ≡ noted Unnoted no_notes }
    {
        Notes {
            listed: true,
            acknowledges: false,
            brings_data: false,
            at_once: false,
        }
    }

    /// Notes one more chunk that is to be acknowledged.
    pub(crate) fn acknowledge(&mut self, is_data: bool, at_once: bool)
        ensures { notes_meaning self.new ≡ noted (ToAcknowledge is_data at_once) (notes_meaning self.old) }
    {
        self.listed = true;
        self.acknowledges = true;
        if is_data {
            self.brings_data = true;
        }
        if at_once {
            self.at_once = true;
        }
    }

    /// The SACK may not be delayed: for one of the chunks, or because the packet left a gap.
    pub(crate) fn is_urged(self, gap: bool) -> bool
        ensures { result ≡ (urged gap (notes_meaning self)).at_once }
    {
        self.at_once || gap
    }
}

/// What was done with a packet at an endpoint without an association.
#[derive(Drop)]
pub(crate) enum Strayed {
    /// Its first chunk began an association; the others are handled there.
    Begun,
    /// It changed nothing, and this is returned.
    Told(Verdict),
}

/// What was done with a received packet.
#[derive(Debug, PartialEq, Eq, Drop)]
pub enum Verdict {
    /// At least one of its chunks was handled.
    Taken,
    /// It was dropped: it had no effect but that the time of its arrival was noted.
    Dropped(Reason),
    /// It is answered: these bytes are a packet, no longer than the packet limit, to be sent to the peer at once.
    Answer(Vec<u8>),
}
