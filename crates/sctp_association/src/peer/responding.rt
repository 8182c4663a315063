//! What an acknowledgement does to the pace of an association, and what follows from that for its sender: misses, in two steps, and the chunk that is timed
//! (RFC 9260, 6.3.1 and 7.2.4).

ghost use Rattle.std.specs.Prelude.{◌≡◌, ℕ, ◌<◌, ◌||◌, true, None, IfSome, OnOk, length};
ghost use Rattle.sctp_model.specs.messages.Format.{Format};
ghost use Rattle.sctp_model.specs.sender.SenderView.{SenderView};
ghost use Rattle.sctp_model.specs.receiver.ReceiverView.{ReceiverView};
ghost use Rattle.sctp_model.specs.sender.Abandoning.{marking};
ghost use Rattle.sctp_model.specs.sender.SackTaken.{sack_fault, sack_after};
ghost use Rattle.sctp_model.specs.end.Misses.{last_sent, is_missed, first_missed, is_taken_back};
ghost use Rattle.sctp_model.specs.end.Pacing.{Pace, heard};
ghost use Rattle.sctp_wire.specs.ChunkTree.{sack_meaning};
ghost use Rattle.sctp_congestion.specs.Went.{AreThose};
ghost use Rattle.sctp_congestion.specs.PaceStands.{PaceStands, pace_room};
ghost use Rattle.sctp_association.specs.TrafficStands.{TrafficStands, indexes_of};
ghost use Rattle.sctp_association.specs.Weighing.{timed_of, IsBefore, counted, AreMissedBelow, IsReply};

use crate::peer::pacing::Before;
use crate::traffic::Traffic;
use crate::traffic::missed::Missed;
use sctp_congestion::{Highest, Pacing, Reply, Weighed};
use sctp_values::NoMemory;
use sctp_wire::Sack;

/// The index of the chunk that is timed, if there is one.
#[inline(always)]
pub(crate) fn timed_by(pace: &Pacing) -> Option<u64>
    ensures { result ≡ timed_of pace.now.trips }
{
    match pace.trips().timed() {
        None => None,
        Some(chunk) => Some(chunk.index()),
    }
}

/// Before a SACK is taken, lists what it takes back (`indexes`), and has the pace allocate memory for that.
///
/// # Errors
/// `NoMemory` if an allocation was refused.
#[inline(always)]
pub(crate) fn make_room(
    pace: &mut Pacing,
    traffic: &mut Traffic,
    sack: &Sack<'_>,
) -> Result<(), NoMemory>
    ensures pace { (f : Format) (cum : ℕ) (p : Pace) → PaceStands f cum pace.old p → PaceStands f cum pace.new p }
    ensures traffic { (f : Format) (s : SenderView) (r : ReceiverView) → TrafficStands traffic.old f s r → TrafficStands traffic.new f s r }
    ensures back { (f : Format) (s : SenderView) (r : ReceiverView) → TrafficStands traffic.old f s r → sack_fault s (sack_meaning sack.now) ≡ None
        → OnOk result (AreThose (is_taken_back s (sack_after s (sack_meaning sack.now))) (sack_after s (sack_meaning sack.now)).cum (pace_room pace.new) (indexes_of traffic.new)) }
{
    let highest = traffic.list_taken_back(sack)?;
    if highest == 0 {
        return Ok(());
    }
    pace.reserve(highest)
}

/// Counts the misses of an acknowledgement that the sender has taken; `back` are the indexes that it takes back (RFC 9260, 7.2.4).
#[inline(always)]
pub(crate) fn count_misses(pace: &mut Pacing, traffic: &Traffic, before: Before, back: &[u64])
    ensures { (f : Format) (v u : SenderView) (r : ReceiverView) (p : Pace) → TrafficStands traffic.now f u r → IsBefore f v u p before → PaceStands f u.cum pace.old p
        → AreThose (is_taken_back v u) u.cum (pace_room pace.old) back.now → PaceStands f u.cum pace.new (counted v u p) }
{
    let weight = before.weight;
    let last = last_sent_for(traffic, back);
    let highest = Highest {
        cum: weight.cum,
        newest: weight.newest,
        newest_in_recovery: weight.newest_in_recovery,
    };
    pace.notice(highest, last, back);
}

/// The highest index that was sent, if some indexes are taken back; else it is not asked for.
#[inline(always)]
fn last_sent_for(traffic: &Traffic, back: &[u64]) -> u64
    ensures { (f : Format) (s : SenderView) (r : ReceiverView) → TrafficStands traffic.now f s r → 0 < length back.now → result ≡ last_sent s }
{
    if back.is_empty() {
        return 0;
    }
    traffic.last_sent()
}

/// Marks for retransmission what was missed three times, once misses are counted, and has the pace act on an acknowledgement that the sender has taken, at
/// this time, in milliseconds (RFC 9260, 6.3.1 and 7.2).
#[inline(always)]
pub(crate) fn respond(pace: &mut Pacing, traffic: &mut Traffic, now: u64, before: Before) -> Reply
    ensures pace { (f : Format) (v u : SenderView) (r : ReceiverView) (p : Pace) → TrafficStands traffic.old f u r → IsBefore f v u p before → PaceStands f u.cum pace.old (counted v u p)
        → PaceStands f u.cum pace.new (heard now v u p).pace }
    ensures traffic { (f : Format) (v u : SenderView) (r : ReceiverView) (p : Pace) → TrafficStands traffic.old f u r → IsBefore f v u p before → PaceStands f u.cum pace.old (counted v u p)
        → TrafficStands traffic.new f (heard now v u p).sender r }
    ensures reply { (f : Format) (v u : SenderView) (r : ReceiverView) (p : Pace) → TrafficStands traffic.old f u r → IsBefore f v u p before → PaceStands f u.cum pace.old (counted v u p)
        → IsReply (heard now v u p) result }
{
    let weight = before.weight;
    let lost = mark_missed(traffic, pace, weight.cum);
    let last_sent = traffic.last_sent_if(lost);
    let over = is_over(weight.acked, pace, traffic);
    let left = traffic.chunk_flight();
    pace.hear(
        now,
        Weighed {
            moved: weight.moved,
            cum: weight.cum,
            waits: before.waits,
            lost,
            last_sent,
            flight: before.flight,
            bytes: weight.bytes,
            left,
            acked: weight.acked,
            over,
        },
    )
}

/// What has its third miss indication is marked for retransmission, at the cumulative TSN's index `cum`. Returns the lowest index that was in flight among
/// it. If the cumulative TSN passed all of it, there is none (RFC 9260, 7.2.4).
#[inline(always)]
fn mark_missed(traffic: &mut Traffic, pace: &Pacing, cum: u64) -> Option<u64>
    ensures lost { (f : Format) (s : SenderView) (r : ReceiverView) (p : Pace) → TrafficStands traffic.old f s r → cum ≡ s.cum → PaceStands f s.cum pace.now p
        → result ≡ first_missed p.misses s }
    ensures marked { (f : Format) (s : SenderView) (r : ReceiverView) (p : Pace) → TrafficStands traffic.old f s r → cum ≡ s.cum → PaceStands f s.cum pace.now p
        → TrafficStands traffic.new f (marking s (is_missed p.misses)) r }
{
    // law: what the cumulative TSN passed is acknowledged
    traffic.reached();
    let below = pace.missed_end();
    if below <= cum {
        return None;
    }
    mark_below(traffic, pace, cum, below)
}

/// The same, if something above the cumulative TSN may be missed: then it is below the index `below`.
#[inline(never)]
fn mark_below(traffic: &mut Traffic, pace: &Pacing, cum: u64, below: u64) -> Option<u64>
    ensures lost { (f : Format) (s : SenderView) (r : ReceiverView) (p : Pace) → TrafficStands traffic.old f s r → AreMissedBelow p pace.now s.cum cum below
        → result ≡ first_missed p.misses s }
    ensures marked { (f : Format) (s : SenderView) (r : ReceiverView) (p : Pace) → TrafficStands traffic.old f s r → AreMissedBelow p pace.now s.cum cum below
        → TrafficStands traffic.new f (marking s (is_missed p.misses)) r }
{
    let missed = Missed { pace };
    let lost = traffic.first_missed(cum, below, &missed);
    traffic.on_missed(cum, below, &missed);
    lost
}

/// The chunk that is timed is acknowledged, or marked for retransmission; it is, if it was newly acknowledged (`acked`). Not to be read without one
/// (RFC 9260, 6.3.1, C5).
#[inline(always)]
fn is_over(acked: bool, pace: &Pacing, traffic: &Traffic) -> bool
    ensures { (f : Format) (u : SenderView) (r : ReceiverView) → TrafficStands traffic.now f u r → IfSome pace.now.trips.timed (λ t. acked ≡ true → u.covered t.index ≡ true)
        → IfSome pace.now.trips.timed (λ t. result ≡ (u.marked t.index || u.covered t.index)) }
{
    if acked {
        return true;
    }
    match pace.trips().timed() {
        None => false,
        Some(chunk) => traffic.is_marked_or_covered(chunk.index()),
    }
}
