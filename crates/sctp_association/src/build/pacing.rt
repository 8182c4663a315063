//! User data of a packet as far as the pace of its endpoint allows: the congestion window, the limit of bursts, and the chunk that is timed (RFC 9260, 6.1,
//! 6.3.1 and 7.2).

ghost use Rattle.std.specs.Prelude.{◌≡◌, ◌≤◌, ℕ, List, Option, Some, IfOk, OnOk, OnErr};
ghost use Rattle.std.specs.List.{All};
ghost use Rattle.sctp_model.specs.messages.Format.{Format};
ghost use Rattle.sctp_model.specs.sender.SenderView.{SenderView};
ghost use Rattle.sctp_model.specs.receiver.ReceiverView.{ReceiverView};
ghost use Rattle.sctp_model.specs.sender.Filling.{fill};
ghost use Rattle.sctp_model.specs.end.EndView.{EndView, format_of};
ghost use Rattle.sctp_model.specs.end.Misses.{last_sent};
ghost use Rattle.sctp_model.specs.end.Pacing.{Pace, room_paced};
ghost use Rattle.sctp_model.specs.end.Building.{filled_behind, sent};
ghost use Rattle.sctp_congestion.specs.PaceStands.{PaceStands, PacesStand, pace_room};
ghost use Rattle.sctp_packet.specs.Draft.{room_in};
ghost use Rattle.sctp_send.specs.FillAnswers.{AreSentAgain};
ghost use Rattle.sctp_association.specs.StartsMean.{starts_at, with_fragments};
ghost use Rattle.sctp_association.specs.TrafficStands.{TrafficStands};
ghost use Rattle.sctp_association.specs.Drafted.{drafted, IsOf};
ghost use Rattle.sctp_association.specs.FillsBehind.{FillsBehind};
ghost use Rattle.sctp_association.specs.declared.time.starts.Starts as starts;
ghost use Rattle.sctp_association.specs.declared.build.packing.Marks as marks;

use crate::build::filling::{Fragments, fill_rest};
use crate::build::sendings::{filled_none, missed_among};
use crate::traffic::Traffic;
use sctp_congestion::{Allowance, Pacing};
use sctp_packet::PacketWriter;
use sctp_values::NoMemory;
use std::alloc::Global;

/// Fills what is left of a packet with user data, at this time in milliseconds: all of it without a pace, else what the pace allows. A sender that has
/// nothing to send costs one test.
///
/// # Errors
/// `NoMemory` if an allocation was refused; nothing of the traffic and of the pace changed then.
#[inline(always)]
pub(crate) fn fill_by(
    alloc: Global,
    traffic: &mut Traffic,
    pace: &mut Option<Pacing>,
    moment: u64,
    writer: &mut PacketWriter,
) -> Result<Fragments, NoMemory>
    ensures filled { (e : EndView) (m : marks.Marks) (n : starts.Starts) → TrafficStands traffic.old (format_of e) e.sender e.receiver → PacesStand (format_of e) e.sender.cum pace.old e.pace
        → moment ≡ e.moment → IsOf e (record { writer = writer.old; marks = m })
        → IfOk result (λ fragments. starts_at n ≡ with_fragments fragments.some (starts_at m.starts)
        → FillsBehind e.pace e (record { writer = writer.old; marks = m }) (record { writer = writer.new; marks = record m { starts = n } }) traffic.new fragments.filled) }
    ensures paced { (e : EndView) (m : marks.Marks) → TrafficStands traffic.old (format_of e) e.sender e.receiver → PacesStand (format_of e) e.sender.cum pace.old e.pace → moment ≡ e.moment
        → IsOf e (record { writer = writer.old; marks = m }) → OnOk result (PacesStand (format_of e) (filled_behind (drafted m e) writer.old.chunks).view.cum pace.new (sent (drafted m e) writer.old.chunks).pace) }
    ensures memory { (f : Format) (s : SenderView) (r : ReceiverView) → TrafficStands traffic.old f s r → OnErr result (TrafficStands traffic.new f s r) }
    ensures kept { (f : Format) (cum : ℕ) (o : Option Pace) → PacesStand f cum pace.old o → OnErr result (PacesStand f cum pace.new o) }
{
    if traffic.drained() {
        // law: then it has nothing to send
        traffic.reached();
        let filled = filled_none(alloc);
        return Ok(Fragments {
            some: false,
            filled,
        });
    }
    match pace {
        None => fill_rest(traffic, writer),
        Some(pace) => fill_paced(traffic, pace, moment, writer),
    }
}

/// Fills what is left of a packet with user data as far as the pace allows, which notes that it was sent at this time, in milliseconds.
///
/// # Errors
/// `NoMemory` if an allocation was refused; nothing of the traffic and of the pace changed then.
#[inline(always)]
fn fill_paced(
    traffic: &mut Traffic,
    pace: &mut Pacing,
    moment: u64,
    writer: &mut PacketWriter,
) -> Result<Fragments, NoMemory>
    ensures filled { (e : EndView) (m : marks.Marks) (n : starts.Starts) → TrafficStands traffic.old (format_of e) e.sender e.receiver → PacesStand (format_of e) e.sender.cum (Some pace.old) e.pace
        → moment ≡ e.moment → IsOf e (record { writer = writer.old; marks = m })
        → IfOk result (λ fragments. starts_at n ≡ with_fragments fragments.some (starts_at m.starts)
        → FillsBehind e.pace e (record { writer = writer.old; marks = m }) (record { writer = writer.new; marks = record m { starts = n } }) traffic.new fragments.filled) }
    ensures paced { (e : EndView) (m : marks.Marks) → TrafficStands traffic.old (format_of e) e.sender e.receiver → PacesStand (format_of e) e.sender.cum (Some pace.old) e.pace → moment ≡ e.moment
        → IsOf e (record { writer = writer.old; marks = m }) → OnOk result (PacesStand (format_of e) (filled_behind (drafted m e) writer.old.chunks).view.cum (Some pace.new) (sent (drafted m e) writer.old.chunks).pace) }
    ensures memory { (f : Format) (s : SenderView) (r : ReceiverView) → TrafficStands traffic.old f s r → OnErr result (TrafficStands traffic.new f s r) }
    ensures kept { (f : Format) (cum : ℕ) (o : Option Pace) → PacesStand f cum (Some pace.old) o → OnErr result (PacesStand f cum (Some pace.new) o) }
{
    let before = traffic.last_sent();
    narrow(traffic, pace, writer);
    reserve_again(traffic, pace, before)?;
    let fragments = fill_rest(traffic, writer)?;
    if !fragments.some {
        return Ok(fragments);
    }
    let again = traffic.indexes();
    let missed = missed_among(pace, again);
    let flight = traffic.chunk_flight();
    pace.sent(moment, before, traffic.last_sent(), flight, again);
    Ok(Fragments {
        some: true,
        filled: fragments.filled.with_missed(missed),
    })
}

/// Lowers the limit of a packet to what congestion control allows of its space (RFC 9260, 6.1, rules B and D; 7.2.4, step 3).
#[inline(always)]
fn narrow(traffic: &Traffic, pace: &Pacing, writer: &mut PacketWriter)
    ensures room { (f : Format) (s : SenderView) (r : ReceiverView) (p : Pace) → TrafficStands traffic.now f s r → PaceStands f s.cum pace.now p
        → room_in writer.new ≡ room_paced p.control f (room_in writer.old) s }
    ensures within { writer.new.limit ≤ writer.old.limit }
    ensures same { writer.new ≡ record writer.old { limit = writer.new.limit } }
{
    match pace.allowance(traffic.chunk_flight()) {
        Allowance::All => {}
        Allowance::Retransmissions => {
            let room = writer.room() as u16;
            writer.narrow(traffic.room_of_repeats(room));
        }
        Allowance::Nothing => writer.narrow(0),
    }
}

/// If the next packet may retransmit something, the pace has memory for what that is; `last` is the highest index that was sent.
///
/// # Errors
/// `NoMemory` if an allocation was refused; the pace is as it was.
#[inline(always)]
fn reserve_again(traffic: &Traffic, pace: &mut Pacing, last: u64) -> Result<(), NoMemory>
    ensures same { (f : Format) (cum : ℕ) (p : Pace) → PaceStands f cum pace.old p → PaceStands f cum pace.new p }
    ensures room { (f : Format) (s : SenderView) (r : ReceiverView) → TrafficStands traffic.now f s r → last ≡ last_sent s → (room : ℕ) (is : List ℕ)
        → AreSentAgain s (fill f room s).wishes is → OnOk result (All (λ i. i ≤ pace_room pace.new) is) }
{
    if !traffic.may_repeat() {
        return Ok(());
    }
    pace.reserve(last)
}
