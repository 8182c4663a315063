//! What the pace of an association reads of its sender, and changes in it, in either format (RFC 9260, 6.1, 6.3.1 and 7.2).

ghost use Rattle.std.specs.Prelude.{◌≡◌, ℕ, ◌<◌, ◌≤◌, Bool, ◌||◌, None, IfSome, IfOk, OnOk};
ghost use Rattle.std.specs.List.{All};
ghost use Rattle.sctp_model.specs.messages.Format.{Format};
ghost use Rattle.sctp_model.specs.messages.Framing.{header_of};
ghost use Rattle.sctp_model.specs.sender.SenderView.{SenderView};
ghost use Rattle.sctp_model.specs.receiver.ReceiverView.{ReceiverView};
ghost use Rattle.sctp_model.specs.sender.Entries.{in_flight};
ghost use Rattle.sctp_model.specs.sender.Filling.{fill};
ghost use Rattle.sctp_model.specs.sender.Readers.{has_more};
ghost use Rattle.sctp_model.specs.sender.SackTaken.{sack_fault, sack_after, shutdown_fault, shutdown_after};
ghost use Rattle.sctp_model.specs.sender.Abandoning.{marking, worn};
ghost use Rattle.sctp_model.specs.end.Misses.{last_sent};
ghost use Rattle.sctp_model.specs.end.Control.{room_of_repeats, chunk_flight};
ghost use Rattle.sctp_model.specs.end.Pacing.{is_probe};
ghost use Rattle.sctp_wire.specs.ChunkTree.{sack_meaning};
ghost use Rattle.sctp_send.specs.SenderStands.{StandsFor};
ghost use Rattle.sctp_send.specs.PaceAnswers.{first_in_flight, AgreeInFlight, AgreeAbove, IsWeight, AreTakenBack};
ghost use Rattle.sctp_association.specs.TrafficStands.{TrafficStands, indexes_of};

use crate::traffic::Traffic;
use sctp_framing::Framing;
use sctp_send::{IndexTest, Sender, Weight};
use sctp_values::NoMemory;
use sctp_wire::Sack;

impl Traffic {
    /// The bytes of user data in flight: sent, and neither acknowledged, abandoned nor marked for retransmission (RFC 9260, 6.1).
    pub(crate) fn in_flight(&self) -> u64
        ensures { (f : Format) (s : SenderView) (r : ReceiverView) → TrafficStands self.now f s r → result ≡ in_flight s }
    {
        match self {
            Traffic::Plain(directions) => directions.sender.in_flight(),
            Traffic::Interleaved(directions) => directions.sender.in_flight(),
        }
    }

    /// The bytes of the chunks in flight, with their headers and padding: what congestion control counts (RFC 9260, 7.2).
    #[inline(always)]
    pub(crate) fn chunk_flight(&self) -> u64
        ensures { (f : Format) (s : SenderView) (r : ReceiverView) → TrafficStands self.now f s r → result ≡ chunk_flight (header_of f) s }
    {
        match self {
            Traffic::Plain(directions) => directions.sender.chunk_flight(),
            Traffic::Interleaved(directions) => directions.sender.chunk_flight(),
        }
    }

    /// Something waits to be sent, for the first time or again.
    pub(crate) fn has_more(&self) -> bool
        ensures { (f : Format) (s : SenderView) (r : ReceiverView) → TrafficStands self.now f s r → result ≡ has_more s }
    {
        match self {
            Traffic::Plain(directions) => directions.sender.has_more(),
            Traffic::Interleaved(directions) => directions.sender.has_more(),
        }
    }

    /// All that is in flight probes a window without space: it is more than the peer has space for, and no more than a fragment has (RFC 9260, 6.1, rule A).
    pub(crate) fn is_probe(&self) -> bool
        ensures { (f : Format) (s : SenderView) (r : ReceiverView) → TrafficStands self.now f s r → result ≡ is_probe s }
    {
        match self {
            Traffic::Plain(directions) => probes(&directions.sender),
            Traffic::Interleaved(directions) => probes(&directions.sender),
        }
    }

    /// The highest index that was sent; 0 before the first.
    #[inline(always)]
    pub(crate) fn last_sent(&self) -> u64
        ensures { (f : Format) (s : SenderView) (r : ReceiverView) → TrafficStands self.now f s r → result ≡ last_sent s }
    {
        match self {
            Traffic::Plain(directions) => directions.sender.last_sent(),
            Traffic::Interleaved(directions) => directions.sender.last_sent(),
        }
    }

    /// The highest index that was sent, if something is lost; else it is not asked for.
    #[inline(always)]
    pub(crate) fn last_sent_if(&self, lost: Option<u64>) -> u64
        ensures { (f : Format) (s : SenderView) (r : ReceiverView) → TrafficStands self.now f s r → IfSome lost (λ i. result ≡ last_sent s) }
    {
        match lost {
            None => 0,
            Some(_) => self.last_sent(),
        }
    }

    /// The lowest index in flight from `from` on, below `below`, that passes the test (RFC 9260, 7.2.4).
    pub(crate) fn first_missed<T: IndexTest>(&self, from: u64, below: u64, test: &T) -> Option<u64>
        ensures { (f : Format) (s : SenderView) (r : ReceiverView) (missed : ℕ → Bool) → TrafficStands self.now f s r → AgreeInFlight s from below (T.Says test.now) missed
            → result ≡ first_in_flight s missed }
    {
        match self {
            Traffic::Plain(directions) => directions.sender.first_missed(from, below, test),
            Traffic::Interleaved(directions) => directions.sender.first_missed(from, below, test),
        }
    }

    /// The chunk with this index, from 1 on, is marked for retransmission or acknowledged (RFC 9260, 6.3.1, C5).
    #[inline(always)]
    pub(crate) fn is_marked_or_covered(&self, index: u64) -> bool
        ensures { (f : Format) (s : SenderView) (r : ReceiverView) → TrafficStands self.now f s r → 0 < index → result ≡ (s.marked index || s.covered index) }
    {
        match self {
            Traffic::Plain(directions) => directions.sender.is_marked_or_covered(index),
            Traffic::Interleaved(directions) => directions.sender.is_marked_or_covered(index),
        }
    }

    /// The space in bytes that retransmissions take, of what `fill` would put into a packet with this much space (RFC 9260, 7.2.4, step 3).
    pub(crate) fn room_of_repeats(&self, room: u16) -> u16
        ensures count { (f : Format) (s : SenderView) (r : ReceiverView) → TrafficStands self.now f s r → result ≡ room_of_repeats f (fill f room s).wishes }
        ensures bound { result ≤ room }
    {
        match self {
            Traffic::Plain(directions) => directions.sender.room_of_repeats(room),
            Traffic::Interleaved(directions) => directions.sender.room_of_repeats(room),
        }
    }

    /// What a SACK without a fault does, before it is taken; `timed` is the index of the chunk that is timed, if there is one (RFC 9260, 6.3.1 and 7.2).
    #[inline(always)]
    pub(crate) fn weigh(&self, sack: &Sack<'_>, timed: Option<u64>) -> Weight
        ensures { (f : Format) (s : SenderView) (r : ReceiverView) → TrafficStands self.now f s r → sack_fault s (sack_meaning sack.now) ≡ None
            → IsWeight f s (sack_after s (sack_meaning sack.now)) timed result }
    {
        match self {
            Traffic::Plain(directions) => directions.sender.weigh(sack, timed),
            Traffic::Interleaved(directions) => directions.sender.weigh(sack, timed),
        }
    }

    /// What the cumulative TSN of a SHUTDOWN without a fault does, before it is taken.
    pub(crate) fn weigh_shutdown(&self, tsn: u32, timed: Option<u64>) -> Weight
        ensures { (f : Format) (s : SenderView) (r : ReceiverView) → TrafficStands self.now f s r → shutdown_fault s tsn ≡ None
            → IsWeight f s (shutdown_after s tsn) timed result }
    {
        match self {
            Traffic::Plain(directions) => directions.sender.weigh_shutdown(tsn, timed),
            Traffic::Interleaved(directions) => directions.sender.weigh_shutdown(tsn, timed),
        }
    }

    /// Lists the indexes that a SACK without a fault takes back, before it is taken (`indexes`), and returns one that none of them is above (RFC 9260, 6.2.1,
    /// D iii).
    ///
    /// # Errors
    /// `NoMemory` if an allocation was refused.
    #[inline(always)]
    pub(crate) fn list_taken_back(&mut self, sack: &Sack<'_>) -> Result<u64, NoMemory>
        ensures same { (f : Format) (s : SenderView) (r : ReceiverView) → TrafficStands self.old f s r → TrafficStands self.new f s r }
        ensures back { (f : Format) (s : SenderView) (r : ReceiverView) → TrafficStands self.old f s r → sack_fault s (sack_meaning sack.now) ≡ None
            → OnOk result (AreTakenBack s (sack_after s (sack_meaning sack.now)) (indexes_of self.new)) }
        ensures highest { (f : Format) (s : SenderView) (r : ReceiverView) → TrafficStands self.old f s r → sack_fault s (sack_meaning sack.now) ≡ None
            → IfOk result (λ highest. All (λ i. i ≤ highest) (indexes_of self.new)) }
    {
        match self {
            Traffic::Plain(directions) => {
                directions
                    .sender
                    .list_taken_back(sack, &mut directions.indexes)
            }
            Traffic::Interleaved(directions) => {
                directions
                    .sender
                    .list_taken_back(sack, &mut directions.indexes)
            }
        }
    }

    /// The list that was made last.
    #[inline(always)]
    pub(crate) fn indexes(&self) -> &[u64]
        ensures { result.now ≡ indexes_of self.now }
    {
        match self {
            Traffic::Plain(directions) => directions.indexes.as_slice(),
            Traffic::Interleaved(directions) => directions.indexes.as_slice(),
        }
    }

    /// What is in flight with the indexes from `from` on, below `below`, that pass the test, is marked for retransmission (RFC 9260, 7.2.4).
    pub(crate) fn on_missed<T: IndexTest>(&mut self, from: u64, below: u64, test: &T)
        ensures { (f : Format) (s : SenderView) (r : ReceiverView) (missed : ℕ → Bool) → TrafficStands self.old f s r → AgreeInFlight s from below (T.Says test.now) missed
            → TrafficStands self.new f (marking s missed) r }
    {
        match self {
            Traffic::Plain(directions) => directions.sender.on_missed(from, below, test),
            Traffic::Interleaved(directions) => directions.sender.on_missed(from, below, test),
        }
    }

    /// Of what is outstanding with the indexes from `from` on, below `below`, that pass the test, the messages are abandoned that may not be retransmitted
    /// again (RFC 7496, 3.1).
    pub(crate) fn wear_between<T: IndexTest>(&mut self, from: u64, below: u64, test: &T)
        ensures { (f : Format) (s : SenderView) (r : ReceiverView) (missed : ℕ → Bool) → TrafficStands self.old f s r → AgreeAbove s from below (T.Says test.now) missed
            → TrafficStands self.new f (worn missed s) r }
    {
        match self {
            Traffic::Plain(directions) => directions.sender.wear_between(from, below, test),
            Traffic::Interleaved(directions) => directions.sender.wear_between(from, below, test),
        }
    }
}

/// All that a sender has in flight probes a window without space.
fn probes<F: Framing>(sender: &Sender<F>) -> bool
    ensures { (s : SenderView) → StandsFor F.format sender.now s → result ≡ is_probe s }
{
    let flight = sender.in_flight();
    u64::from(sender.peer_window()) < flight && flight <= u64::from(sender.fragment_size())
}
