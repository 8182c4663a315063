//! What congestion control, loss detection and the measurement of round trips ask of the sender (RFC 9260, 6.1, 6.3.1 and 7.2).

pub mod flying;
pub mod last;
pub mod repeats;
pub mod taking_back;
pub mod tally;
pub mod weighing;
pub mod weight;

ghost use Rattle.std.specs.Prelude.{◌≡◌, ℕ, ◌<◌, ◌≤◌, Bool, false, ◌||◌, []};
ghost use Rattle.sctp_model.specs.messages.Framing.{header_of};
ghost use Rattle.sctp_model.specs.sender.SenderView.{SenderView};
ghost use Rattle.sctp_model.specs.sender.Entries.{in_flight};
ghost use Rattle.sctp_model.specs.sender.Filling.{fill};
ghost use Rattle.sctp_model.specs.end.Misses.{last_sent};
ghost use Rattle.sctp_model.specs.end.Control.{chunk_flight, room_of_repeats};
ghost use Rattle.sctp_send.specs.SenderStands.{StandsFor};
ghost use Rattle.sctp_send.specs.FillAnswers.{sent_again};
ghost use Rattle.sctp_send.specs.PaceAnswers.{first_in_flight, AgreeInFlight};

use crate::index_test::IndexTest;
use crate::pace::flying::{first_flying, is_done};
use crate::sack::marking::{index_at, offset_of};
use crate::sender::Sender;
use sctp_framing::Framing;

#[tactic(auto, unfolding(crate::specs::SenderStands::StandsFor))]
impl<F: Framing> Sender<F> {
    /// The bytes of user data in flight: sent, neither acknowledged nor abandoned, and not marked for retransmission (RFC 9260, 6.1).
    pub fn in_flight(&self) -> u64
        ensures { (v : SenderView) → StandsFor F.format self.now v → result ≡ in_flight v }
    {
        self.parts.outstanding.flight()
    }

    /// The bytes of the chunks in flight, with their headers and padding: what congestion control counts (RFC 9260, 7.2).
    pub fn chunk_flight(&self) -> u64
        ensures { (v : SenderView) → StandsFor F.format self.now v → result ≡ chunk_flight (header_of F.format) v }
    {
        self.parts.outstanding.chunk_flight()
    }

    /// The highest index that was sent; 0 before the first chunk (RFC 9260, 6.3.1, C4; 7.2.4, step 6).
    pub fn last_sent(&self) -> u64
        ensures { (v : SenderView) → StandsFor F.format self.now v → result ≡ last_sent v }
    {
        self.last_sent_within(self.parts.outstanding.len())
    }

    /// The lowest index in flight from `from` on, below `below`, that passes the test (RFC 9260, 7.2.4). It costs a walk over that range, as far as that.
    pub fn first_missed<T: IndexTest>(&self, from: u64, below: u64, test: &T) -> Option<u64>
        ensures { (v : SenderView) (missed : ℕ → Bool) → StandsFor F.format self.now v → AgreeInFlight v from below (T.Says test.now) missed
            → result ≡ first_in_flight v missed }
    {
        let cum = self.told.cum;
        let first = offset_of(cum, from);
        let last = offset_of(cum, below);
        match first_flying(&self.parts.outstanding, cum, first, last, test) {
            Some(at) => Some(index_at(cum, at)),
            None => None,
        }
    }

    /// Whether the chunk at an index, from 1 on, is marked for retransmission or acknowledged: then it isn't timed any more (RFC 9260, 6.3.1, C5).
    pub fn is_marked_or_covered(&self, index: u64) -> bool
        ensures { (v : SenderView) → StandsFor F.format self.now v → 0 < index → result ≡ (v.marked index || v.covered index) }
    {
        if index <= self.told.cum {
            return true;
        }
        is_done(&self.parts.outstanding, offset_of(self.told.cum, index))
    }

    /// Whether `fill` may retransmit something; if not, it lists no index as sent again. Two numbers are compared.
    pub fn may_repeat(&self) -> bool
        ensures { (v : SenderView) → StandsFor F.format self.now v → result ≡ false → (room : ℕ) → sent_again (fill F.format room v).wishes ≡ [] }
    {
        self.parts.outstanding.may_repeat()
    }

    /// The space in bytes that the retransmissions take, of the chunks that `fill` would put into a packet with this much space for chunks
    /// (RFC 9260, 7.2.4, step 3). It costs a walk over the chunks marked for retransmission, from the first one on.
    pub fn room_of_repeats(&self, room: u16) -> u16
        ensures count { (v : SenderView) → StandsFor F.format self.now v → result ≡ room_of_repeats F.format (fill F.format room v).wishes }
        ensures bound { result ≤ room }
    {
        self.parts.outstanding.room_of_repeats::<F>(room)
    }
}
