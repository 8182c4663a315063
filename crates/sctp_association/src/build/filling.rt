//! What the sender puts into a packet: FORWARD-TSN, and user data after all control chunks (RFC 9260, 6.1 and 6.3.2; RFC 3758, 3.5; RFC 8260, 2.2
//! and 2.3.1).

ghost use Rattle.std.specs.Prelude.{◌≡◌, ◌≤◌, ◌&&◌, ℕ, Option, None, false, nat_lt, [], length, map, IfOk, OnOk, OnErr};
ghost use Rattle.sctp_model.specs.numbers.Limits.{LEAST_PACKET, GREATEST_PACKET};
ghost use Rattle.sctp_model.specs.messages.Format.{Format};
ghost use Rattle.sctp_model.specs.sender.SenderView.{SenderView};
ghost use Rattle.sctp_model.specs.receiver.ReceiverView.{ReceiverView};
ghost use Rattle.sctp_model.specs.sender.Filling.{fill, newly_numbered, chunk_of};
ghost use Rattle.sctp_model.specs.sender.SentChunks.{forward_chunk_of};
ghost use Rattle.sctp_model.specs.end.EndView.{EndView, format_of};
ghost use Rattle.sctp_model.specs.end.Clock.{is_point_past};
ghost use Rattle.sctp_model.specs.end.Building.{room_behind, filled_behind, sent};
ghost use Rattle.sctp_packet.specs.Draft.{room_in, with_chunks, has_room, after_try};
ghost use Rattle.sctp_model.specs.end.Pacing.{Pace};
ghost use Rattle.sctp_congestion.specs.PaceStands.{PacesStand};
ghost use Rattle.sctp_send.specs.SenderStands.{StandsFor};
ghost use Rattle.sctp_send.specs.FillAnswers.{sendings_of, sent_again, AreSentAgain};
ghost use Rattle.sctp_association.specs.StartsMean.{starts_at, with_fragments};
ghost use Rattle.sctp_association.specs.TrafficStands.{TrafficStands, indexes_of};
ghost use Rattle.sctp_association.specs.Drafted.{drafted, IsOf, IsOwn};
ghost use Rattle.sctp_association.specs.FillsBehind.{FillsBehind};
ghost use Rattle.sctp_association.specs.declared.time.starts.Starts as starts;
ghost use Rattle.sctp_association.specs.declared.build.packing.Marks as marks;

use crate::build::pacing::fill_by;
use crate::build::packing::Packing;
use crate::build::sendings::{Filled, Sendings};
use crate::time::starts::Starts;
use crate::time::timer::Alarm;
use crate::traffic::Traffic;
use sctp_congestion::Pacing;
use sctp_framing::Framing;
use sctp_packet::PacketWriter;
use sctp_send::Sender;
use sctp_values::NoMemory;
use std::alloc::Global;

impl Traffic {
    /// Builds the FORWARD-TSN or I-FORWARD-TSN for a packet of this limit, in bytes, and keeps it for `put_forward` (`Sender::keep_forward`).
    pub(crate) fn keep_forward(&mut self, limit: u16)
        requires { limit ≤ GREATEST_PACKET }
        ensures { (f : Format) (s : SenderView) (r : ReceiverView) → TrafficStands self.old f s r → TrafficStands self.new f s r }
    {
        match self {
            Traffic::Plain(directions) => directions.sender.keep_forward(limit),
            Traffic::Interleaved(directions) => directions.sender.keep_forward(limit),
        }
    }

    /// Puts the FORWARD-TSN or I-FORWARD-TSN in, up to the TSN whose entries fit a packet of this limit, in bytes (RFC 3758, 3.5). False exactly if
    /// it would skip nothing, or the chunk doesn't fit.
    ///
    /// # Errors
    /// `NoMemory` if an allocation was refused.
    pub(crate) fn put_forward(
        &self,
        packet: &mut PacketWriter,
        limit: u16,
    ) -> Result<bool, NoMemory>
        requires least { LEAST_PACKET ≤ limit }
        requires greatest { limit ≤ GREATEST_PACKET }
        ensures answer { (f : Format) (s : SenderView) (r : ReceiverView) → TrafficStands self.now f s r
            → IfOk result (λ put. put ≡ (is_point_past s && has_room packet.old (forward_chunk_of f limit s))) }
        ensures after { (f : Format) (s : SenderView) (r : ReceiverView) → TrafficStands self.now f s r
            → IfOk result (λ put. packet.new ≡ after_try packet.old (forward_chunk_of f limit s) put) }
    {
        match self {
            Traffic::Plain(directions) => directions.sender.put_forward(packet, limit),
            Traffic::Interleaved(directions) => directions.sender.put_forward(packet, limit),
        }
    }

    /// Fills the packet with DATA or I-DATA chunks, as many as may be sent and fit (RFC 9260, 6.1). It returns the tickets of the messages that were
    /// assigned their TSNs, and how many chunks were sent first and again; `indexes` has those that were sent again.
    ///
    /// # Errors
    /// `NoMemory` if an allocation was refused; nothing of the traffic changed then.
    #[inline(always)]
    pub(crate) fn fill(&mut self, packet: &mut PacketWriter) -> Result<sctp_send::Filled, NoMemory>
        ensures chunks { (f : Format) (s : SenderView) (r : ReceiverView) → TrafficStands self.old f s r
            → OnOk result (packet.new ≡ with_chunks packet.old (map (chunk_of f) (fill f (room_in packet.old) s).wishes)) }
        ensures step { (f : Format) (s : SenderView) (r : ReceiverView) → TrafficStands self.old f s r
            → OnOk result (TrafficStands self.new f (fill f (room_in packet.old) s).view r) }
        ensures tickets { (f : Format) (s : SenderView) (r : ReceiverView) → TrafficStands self.old f s r
            → IfOk result (λ filled. map (λ t. t.0) filled.tickets.items ≡ newly_numbered s (fill f (room_in packet.old) s).view) }
        ensures sendings { (f : Format) (s : SenderView) (r : ReceiverView) → TrafficStands self.old f s r
            → IfOk result (λ filled. filled.sendings ≡ sendings_of (fill f (room_in packet.old) s).wishes) }
        ensures again { (f : Format) (s : SenderView) (r : ReceiverView) → TrafficStands self.old f s r
            → OnOk result (AreSentAgain s (fill f (room_in packet.old) s).wishes (indexes_of self.new)) }
        ensures memory { (f : Format) (s : SenderView) (r : ReceiverView) → TrafficStands self.old f s r → OnErr result (TrafficStands self.new f s r) }
    {
        match self {
            Traffic::Plain(directions) => {
                fill_from(&mut directions.sender, &mut directions.indexes, packet)
            }
            Traffic::Interleaved(directions) => {
                fill_from(&mut directions.sender, &mut directions.indexes, packet)
            }
        }
    }

    /// A packet may retransmit something; if not, it retransmits nothing.
    #[inline(always)]
    pub(crate) fn may_repeat(&self) -> bool
        ensures { (f : Format) (s : SenderView) (r : ReceiverView) → TrafficStands self.now f s r → result ≡ false → (room : ℕ) → sent_again (fill f room s).wishes ≡ [] }
    {
        match self {
            Traffic::Plain(directions) => directions.sender.may_repeat(),
            Traffic::Interleaved(directions) => directions.sender.may_repeat(),
        }
    }
}

/// `Sender::fill`, with its contract in terms of the function that computes what is filled in.
#[inline(always)]
fn fill_from<F: Framing>(
    sender: &mut Sender<F>,
    again: &mut Vec<u64>,
    packet: &mut PacketWriter,
) -> Result<sctp_send::Filled, NoMemory>
    ensures chunks { (s : SenderView) → StandsFor F.format sender.old s
        → OnOk result (packet.new ≡ with_chunks packet.old (map (chunk_of F.format) (fill F.format (room_in packet.old) s).wishes)) }
    ensures step { (s : SenderView) → StandsFor F.format sender.old s → OnOk result (StandsFor F.format sender.new (fill F.format (room_in packet.old) s).view) }
    ensures tickets { (s : SenderView) → StandsFor F.format sender.old s
        → IfOk result (λ filled. map (λ t. t.0) filled.tickets.items ≡ newly_numbered s (fill F.format (room_in packet.old) s).view) }
    ensures sendings { (s : SenderView) → StandsFor F.format sender.old s
        → IfOk result (λ filled. filled.sendings ≡ sendings_of (fill F.format (room_in packet.old) s).wishes) }
    ensures again { (s : SenderView) → StandsFor F.format sender.old s → OnOk result (AreSentAgain s (fill F.format (room_in packet.old) s).wishes again.new.items) }
    ensures memory { (s : SenderView) → StandsFor F.format sender.old s → OnErr result (StandsFor F.format sender.new s) }
{
    sender.fill(again, packet)
}

/// The DATA or I-DATA chunks that went into a packet.
#[derive(Drop)]
pub(crate) struct Fragments {
    /// There are some.
    pub(crate) some: bool,
    pub(crate) filled: Filled,
}

/// Fills what is left of a packet with user data, of which it counts what was sent again as without a pace: `Traffic::indexes` has it. It is the one place
/// where user data goes out (RFC 9260, 6.1).
///
/// # Errors
/// `NoMemory` if an allocation was refused; nothing of the traffic changed then.
#[inline(always)]
pub(crate) fn fill_rest(
    traffic: &mut Traffic,
    writer: &mut PacketWriter,
) -> Result<Fragments, NoMemory>
    ensures filled { (e : EndView) (m : marks.Marks) (n : starts.Starts) → TrafficStands traffic.old (format_of e) e.sender e.receiver
        → room_in writer.old ≡ room_behind (drafted m e) writer.old.chunks → IsOwn e (record { writer = writer.old; marks = m })
        → IfOk result (λ fragments. starts_at n ≡ with_fragments fragments.some (starts_at m.starts)
        → FillsBehind None e (record { writer = writer.old; marks = m }) (record { writer = writer.new; marks = record m { starts = n } }) traffic.new fragments.filled) }
    ensures step { (e : EndView) (m : marks.Marks) → TrafficStands traffic.old (format_of e) e.sender e.receiver
        → room_in writer.old ≡ room_behind (drafted m e) writer.old.chunks
        → OnOk result (TrafficStands traffic.new (format_of e) (filled_behind (drafted m e) writer.old.chunks).view e.receiver) }
    ensures some { (e : EndView) (m : marks.Marks) → TrafficStands traffic.old (format_of e) e.sender e.receiver
        → room_in writer.old ≡ room_behind (drafted m e) writer.old.chunks
        → IfOk result (λ fragments. fragments.some ≡ nat_lt 0 (length (filled_behind (drafted m e) writer.old.chunks).wishes)) }
    ensures again { (e : EndView) (m : marks.Marks) → TrafficStands traffic.old (format_of e) e.sender e.receiver
        → room_in writer.old ≡ room_behind (drafted m e) writer.old.chunks
        → OnOk result (AreSentAgain e.sender (filled_behind (drafted m e) writer.old.chunks).wishes (indexes_of traffic.new)) }
    ensures memory { (f : Format) (s : SenderView) (r : ReceiverView) → TrafficStands traffic.old f s r → OnErr result (TrafficStands traffic.new f s r) }
{
    let before = writer.room();
    let filled = traffic.fill(writer)?;
    let some = writer.room() < before;
    Ok(Fragments {
        some,
        filled: Filled {
            tickets: filled.tickets,
            sendings: Sendings::of(filled.sendings),
        },
    })
}

/// Fills what is left after the control chunks with user data, as far as the pace allows, which starts the data timer. The time is that of the packet,
/// in milliseconds.
///
/// # Errors
/// `NoMemory` if an allocation was refused; nothing of the traffic and of the pace changed then.
pub(crate) fn fill_behind(
    alloc: Global,
    traffic: &mut Traffic,
    pace: &mut Option<Pacing>,
    moment: u64,
    packing: &mut Packing,
) -> Result<Filled, NoMemory>
    ensures filled { (e : EndView) → TrafficStands traffic.old (format_of e) e.sender e.receiver → PacesStand (format_of e) e.sender.cum pace.old e.pace → moment ≡ e.moment → IsOf e packing.old
        → IfOk result (λ filled. FillsBehind e.pace e packing.old packing.new traffic.new filled) }
    ensures paced { (e : EndView) → TrafficStands traffic.old (format_of e) e.sender e.receiver → PacesStand (format_of e) e.sender.cum pace.old e.pace → moment ≡ e.moment → IsOf e packing.old
        → OnOk result (PacesStand (format_of e) (filled_behind (drafted packing.old.marks e) packing.old.writer.chunks).view.cum pace.new
        (sent (drafted packing.old.marks e) packing.old.writer.chunks).pace) }
    ensures memory { (f : Format) (s : SenderView) (r : ReceiverView) → TrafficStands traffic.old f s r → OnErr result (TrafficStands traffic.new f s r) }
    ensures kept { (f : Format) (cum : ℕ) (o : Option Pace) → PacesStand f cum pace.old o → OnErr result (PacesStand f cum pace.new o) }
{
    let fragments = fill_by(alloc, traffic, pace, moment, &mut packing.writer)?;
    start_fragments(&mut packing.marks.starts, fragments.some);
    Ok(fragments.filled)
}

/// The data timer is to start, if user data went out.
fn start_fragments(starts: &mut Starts, went_out: bool)
    ensures { starts_at starts.new ≡ with_fragments went_out (starts_at starts.old) }
{
    if !went_out {
        return;
    }
    starts.add(Alarm::Fragments);
}
