//! The response to a request to reset streams: they are reset, the request goes on under its number or the one before, or they take no messages any more;
//! and its retransmission (RFC 6525, 5.2.7).

ghost use Rattle.std.specs.Prelude.{◌≡◌, ◌&&◌, ℕ, Some};
ghost use Rattle.sctp_model.specs.wire.Reconfig.{is_progress_code, is_number_code};
ghost use Rattle.sctp_model.specs.sender.Outgoing as model;
ghost use Rattle.sctp_model.specs.sender.Resetting.{is_open_number, numbered_so, retried, kept_asking, number_back, reset_done, response_taken, is_past_first};
ghost use Rattle.sctp_model.specs.sender.SenderView.{SenderView};
ghost use Rattle.sctp_send.specs.ResetsKept.{numbering_meaning};
ghost use Rattle.sctp_send.specs.SenderStands.{StandsFor};

use crate::kept::request::Numbering;
use crate::kept::resets::MOST_REQUESTS;
use crate::sender::Sender;
use sctp_framing::Framing;
use sctp_serial::tsn_of;

/// Success: nothing to do, or performed (RFC 6525, 4.4).
const PERFORMED: u32 = 1;

/// Another request is in progress.
const OTHER_IN_PROGRESS: u32 = 4;

/// Its sequence number isn't the next one.
const BAD_NUMBER: u32 = 5;

/// In progress.
const IN_PROGRESS: u32 = 6;

#[tactic(auto, unfolding(crate::specs::SenderStands::StandsFor))]
impl<F: Framing> Sender<F> {
    /// The peer's response to the request with this sequence number: its result (Re-configuration Response; RFC 6525, 4.4 and 5.2.7). A response to
    /// another number than that of the request that waits changes nothing. 0 and 1: the streams are reset, their numbers begin anew, and they take messages
    /// again. 4 and 6: the request keeps its number until it is retransmitted (`retry_request`), so that a response to that still counts. 5, to another number
    /// than its first: the peer has not counted the one before, which the request has again, and so on back to its first. Any other: its streams take no
    /// messages until their reset is asked for again.
    pub fn on_response(&mut self, number: u32, code: u32)
        ensures { (v : SenderView) → StandsFor F.format self.old v → StandsFor F.format self.new (response_taken v number code) }
    {
        if !self.is_open(number) {
            return;
        }
        if code <= PERFORMED {
            self.restart();
        } else if is_progress(code) {
            self.keep_asking();
        } else if self.is_uncounted(code) {
            self.go_back();
        } else {
            self.told.resets.refuse();
        }
    }

    /// The request that waits is retransmitted by its timer: if it is in progress, it takes the next sequence number, if there is one, since the peer may always
    /// answer a number that it has counted as it did (RFC 6525, 5.2.1 and 5.2.7). Else nothing changes.
    pub fn retry_request(&mut self)
        ensures { (v : SenderView) → StandsFor F.format self.old v → StandsFor F.format self.new (retried v) }
    {
        if !self.told.resets.takes_next() {
            return;
        }
        let made = self.told.resets.made();
        if made >= MOST_REQUESTS {
            return;
        }
        self.renumber(made + 1, Numbering::Later);
    }

    /// The result says that the peer hasn't counted the number before that of the request that waits, which isn't its first (RFC 6525, 4.4).
    fn is_uncounted(&self, code: u32) -> bool
        ensures { (v : SenderView) (q : model.Request) → StandsFor F.format self.now v → v.resets.pending ≡ Some q → result ≡ (is_number_code code && is_past_first v q) }
    {
        let made = self.told.resets.made();
        code == BAD_NUMBER && self.told.resets.is_past_first(made)
    }

    /// The request that waits is in progress: it keeps its number until it is retransmitted.
    fn keep_asking(&mut self)
        ensures { (v : SenderView) (q : model.Request) → StandsFor F.format self.old v → v.resets.pending ≡ Some q → StandsFor F.format self.new (kept_asking v q) }
    {
        let made = self.told.resets.made();
        self.renumber(made, Numbering::Next);
    }

    /// The request that waits has the number before its own again.
    fn go_back(&mut self)
        ensures { (v : SenderView) (q : model.Request) → StandsFor F.format self.old v → v.resets.pending ≡ Some q → StandsFor F.format self.new (number_back v q) }
    {
        let made = self.told.resets.made().saturating_sub(1);
        let numbering = self.told.resets.numbering_of(made);
        self.renumber(made, numbering);
    }

    /// The request that waits has this number, and so many were used.
    fn renumber(&mut self, made: u32, numbering: Numbering)
        ensures { (v : SenderView) (q : model.Request) → StandsFor F.format self.old v → v.resets.pending ≡ Some q
            → StandsFor F.format self.new (numbered_so v made (numbering_meaning numbering) q) }
    {
        self.told.resets.renumber(made, numbering);
    }

    /// The number is that of the request that waits.
    fn is_open(&self, number: u32) -> bool
        ensures { (v : SenderView) → StandsFor F.format self.now v → result ≡ is_open_number v number }
    {
        self.told.resets.pending().is_some()
            && number == tsn_of(self.told.initial, u64::from(self.told.resets.made()))
    }

    /// The streams of the request that waits are reset. The FORWARD that is kept goes, since it may say numbers by the bases before that.
    fn restart(&mut self)
        ensures { (v : SenderView) (q : model.Request) → StandsFor F.format self.old v → v.resets.pending ≡ Some q → StandsFor F.format self.new (reset_done v q) }
    {
        self.told.forward = None;
        self.told.resets.restart(self.parts.streams.tracks());
    }
}

/// The result says that the request is in progress, or another one is.
fn is_progress(code: u32) -> bool
    ensures { result ≡ is_progress_code code }
{
    matches!(code, OTHER_IN_PROGRESS | IN_PROGRESS)
}
