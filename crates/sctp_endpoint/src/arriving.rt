//! A packet is received: whether it is for this endpoint, what its chunks do, and what is due after its last one (RFC 9260, 5.1, 6.2, 8.4 and 8.5).

ghost use Rattle.std.specs.Prelude.{◌≡◌, ℕ, Bool, false, drop, length, Option, OnOk, IfOk};
ghost use Rattle.sctp_model.specs.wire.Packet as meaning;
ghost use Rattle.sctp_model.specs.end.EndView.{EndView, has_association};
ghost use Rattle.sctp_model.specs.end.Clock.{at_moment};
ghost use Rattle.sctp_model.specs.end.Arriving.{LeavesGap, urged, packet_ended};
ghost use Rattle.sctp_packet.specs.PacketTree.{packet_meaning};
ghost use Rattle.sctp_association.specs.MachineStands.{MachineStands};
ghost use Rattle.sctp_endpoint.specs.EndpointStands.{EndpointStands};
ghost use Rattle.sctp_endpoint.specs.Counted.{counted, sacks_read, heard_counts};
ghost use Rattle.sctp_endpoint.specs.Logs.{LeavesLogs};
ghost use Rattle.sctp_endpoint.specs.Handled.{IsRead, Handled, IsAnsweredWithin};
ghost use Rattle.sctp_endpoint.specs.inner.Acted.{notes_meaning, with_verdict};
ghost use Rattle.sctp_endpoint.specs.declared.after.Verdict.TheVariants.{Taken};
ghost use Rattle.sctp_endpoint.specs.inner.Arrived.{Arrived, HearsAll, IsFor, worn_from};
ghost use Rattle.sctp_endpoint.specs.inner.SacksHeard.{after_chunks, IfTaken};

use crate::acting::act_all;
use crate::after::{Notes, Strayed, Verdict};
use crate::endpoint::Endpoint;
use crate::passing::{has_ports, passes};
use crate::strays::on_stray;
use sctp_association::Machine;
use sctp_packet::{Packet, read_packet};
use sctp_terms::{Draw, Reason};
use sctp_values::NoMemory;
use sctp_wire::Chunks;

#[tactic(auto, unfolding(crate::specs::EndpointStands::EndpointStands, crate::specs::Counted::counted))]
impl Endpoint {
    /// Handles a received packet: its bytes from the common header on, without those of the protocol that carried it. `now` is the current time in
    /// milliseconds; a time before the latest one counts as that one.
    ///
    /// `draw` is used only if an INIT arrives at a listener without an association, which replies with these values and doesn't keep them; any other
    /// packet leaves them unused. Pass fresh random values with each packet unless you know better: nobody may be able to guess a verification tag.
    ///
    /// The verdict says whether the packet had an effect. An `Answer` is a packet to send at once, no longer than the packet limit; everything else
    /// that is to be sent is returned by `poll_transmit`. Messages that are now complete wait for `take`. A packet that is dropped, for whatever
    /// reason, changes nothing but the time; nor does one that arrives at an endpoint without an association, unless it has a valid cookie. Both are
    /// laws of the transitions that this call follows (`sctp_outcomes::packets_leave_no_trace`).
    ///
    /// # Errors
    /// `NoMemory` if an allocation failed: only the chunks before the one that needed it took effect, so the packet may be passed in again. If
    /// that was the first chunk, nothing but the time changed.
    #[inline(always)]
    pub fn handle_packet(&mut self, now: u64, bytes: &[u8], draw: Draw) -> Result<Verdict, NoMemory>
        ensures step { (v : EndView) (o : Option meaning.Packet) → EndpointStands self.old v → IsRead bytes.now o → Handled v now draw o result self.new }
        ensures within { (v : EndView) → EndpointStands self.old v → IfOk result (λ verdict. IsAnsweredWithin v.configuration.limit verdict) }
        ensures logs { (v : EndView) → EndpointStands self.old v → LeavesLogs v self.new }
        ensures counts { (v : EndView) (o : Option meaning.Packet) → EndpointStands self.old v → IsRead bytes.now o
            → counted self.new ≡ heard_counts (length bytes.now) (sacks_read o) result (counted self.old) }
    {
        // law: it is sound
        self.machine.sound();
        self.machine.advance_clock(now);
        match read_packet(bytes) {
            Err(_) => {
                let told = Verdict::Dropped(Reason::Fault);
                self.tally.hear(bytes.len(), 0, &told);
                Ok(told)
            }
            Ok(packet) => {
                let mut sacks = 0u64;
                let mut told = Verdict::Taken;
                arrive(&mut self.machine, packet, draw, &mut sacks, &mut told)?;
                self.tally.hear(bytes.len(), sacks, &told);
                Ok(told)
            }
        }
    }
}

/// A well-formed packet is received, at a time already noted. The random values are for an INIT. If the packet is `Taken`, its SACKs are counted
/// modulo 2^64. The verdict, `Taken` so far, is written only if it is another one: so that of most packets isn't copied from call to call.
///
/// # Errors
/// `NoMemory` if an allocation failed: the chunks before the failing one took effect.
#[inline(always)]
pub(crate) fn arrive(
    machine: &mut Machine,
    packet: Packet<'_>,
    draw: Draw,
    sacks: &mut u64,
    told: &mut Verdict,
) -> Result<(), NoMemory>
    requires { told.old ≡ Taken }
    ensures step { (e : EndView) (now : ℕ) → MachineStands machine.old (at_moment e now) → Arrived e now draw (packet_meaning packet.entry) (with_verdict result told.new) machine.new }
    ensures sacks { (v : EndView) → MachineStands machine.old v → IfTaken (with_verdict result told.new) (sacks.new ≡ after_chunks (packet_meaning packet.entry).chunks sacks.old) }
{
    if !has_ports(machine, packet.destination, packet.source) {
        *told = Verdict::Dropped(Reason::Ports);
        return Ok(());
    }
    if !passes(machine, packet.tag, &packet.chunks) {
        *told = Verdict::Dropped(Reason::Tag);
        return Ok(());
    }
    if machine.has_association() {
        let from = machine.missed_below();
        return hear(
            machine,
            packet.tag,
            Notes::none(),
            Some(from),
            packet.chunks,
            sacks,
            told,
        );
    }
    arrive_outside(machine, packet, draw, sacks, told)
}

/// A packet is received by an endpoint without an association: it may begin one.
///
/// # Errors
/// `NoMemory` if an allocation failed: the chunks before the failing one took effect.
#[inline(never)]
fn arrive_outside(
    machine: &mut Machine,
    packet: Packet<'_>,
    draw: Draw,
    sacks: &mut u64,
    told: &mut Verdict,
) -> Result<(), NoMemory>
    requires { told.old ≡ Taken }
    ensures step { (e : EndView) (now : ℕ) → MachineStands machine.old (at_moment e now) → IsFor (at_moment e now) (packet_meaning packet.entry)
        → has_association (at_moment e now).phase ≡ false → Arrived e now draw (packet_meaning packet.entry) (with_verdict result told.new) machine.new }
    ensures sacks { (v : EndView) → MachineStands machine.old v → IfTaken (with_verdict result told.new) (sacks.new ≡ after_chunks (packet_meaning packet.entry).chunks sacks.old) }
{
    match on_stray(machine, draw, packet.tag, &packet.chunks)? {
        Strayed::Told(said) => {
            *told = said;
            Ok(())
        }
        Strayed::Begun => hear(
            machine,
            packet.tag,
            Notes::of_cookie(),
            None,
            behind_first(packet.chunks),
            sacks,
            told,
        ),
    }
}

/// The chunks after the first one.
fn behind_first(chunks: Chunks<'_>) -> Chunks<'_>
    ensures { result ≡ drop 1 chunks.entry }
{
    let mut chunks = chunks;
    match chunks.next() {
        Some(_) => chunks,
        None => chunks,
    }
}

/// Handles all chunks, and counts the SACKs among them modulo 2^64; then what they missed from an index on is given up, and what they ask for together, as a SACK, is due once (RFC 9260, 6.2).
///
/// # Errors
/// `NoMemory` if an allocation failed: the chunks before the failing one took effect.
#[inline(always)]
fn hear(
    machine: &mut Machine,
    tag: u32,
    notes: Notes,
    from: Option<u64>,
    chunks: Chunks<'_>,
    sacks: &mut u64,
    told: &mut Verdict,
) -> Result<(), NoMemory>
    requires { told.old ≡ Taken }
    ensures step { (v : EndView) → MachineStands machine.old v → HearsAll from tag v (notes_meaning notes) chunks.entry (with_verdict result told.new) machine.new }
    ensures sacks { OnOk result (sacks.new ≡ after_chunks chunks.entry sacks.old) }
{
    let mut notes = notes;
    let answer = act_all(machine, tag, &mut notes, chunks, sacks, told);
    end_packet(machine, notes, from);
    answer
}

/// After the last chunk of a packet that is handled: what was missed from an index on is given up; its SACK is due, at once if the packet left a gap
/// (RFC 9260, 6.2; RFC 7496, 3.1).
#[inline(always)]
fn end_packet(machine: &mut Machine, notes: Notes, from: Option<u64>)
    ensures { (v : EndView) → MachineStands machine.old v
        → (gap : Bool) × LeavesGap v gap × MachineStands machine.new (packet_ended (urged gap (notes_meaning notes)) (worn_from from v)) }
{
    let gap = machine.leaves_gap();
    give_up(machine, from);
    if notes.acknowledges {
        machine.acknowledge(notes.is_urged(gap), notes.brings_data);
    }
}

/// What was missed from this index on, and may not be retransmitted again, is given up (RFC 7496, 3.1).
#[inline(always)]
fn give_up(machine: &mut Machine, from: Option<u64>)
    ensures { (v : EndView) → MachineStands machine.old v → MachineStands machine.new (worn_from from v) }
{
    match from {
        None => {}
        Some(from) => machine.give_up_missed(from),
    }
}
