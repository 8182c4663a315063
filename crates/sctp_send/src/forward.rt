//! FORWARD-TSN and I-FORWARD-TSN chunks: how far the peer may move its cumulative TSN over abandoned messages (RFC 3758, 3.5; RFC 8260,
//! 2.3.1).
//!
//! `put_forward` walks once over the entries that the chunk skips. Each is noted at the rank of its lane, which a binary search finds among at most 370
//! in an array, and the walk ends at the entry whose lane would no longer fit a packet. So it costs what it lists and what it skips, whatever the
//! number of streams, and allocates only once it is known that the chunk fits. `keep_forward` does the walk ahead and keeps the list.

pub mod keeping;
pub mod lanes;

ghost use Rattle.std.specs.Prelude.{◌≡◌, ℕ, ◌+◌, ◌*◌, ◌%◌, ◌≤◌, ◌&&◌, true, [], length, map, take, nat_lt, IfOk, OnErr};
ghost use Rattle.std.specs.List.{AllByRecursion};
ghost use Rattle.sctp_model.specs.numbers.Limits.{LEAST_PACKET, GREATEST_PACKET};
ghost use Rattle.sctp_model.specs.sender.SenderView.{SenderView};
ghost use Rattle.sctp_model.specs.sender.Readers.{point};
ghost use Rattle.sctp_model.specs.sender.Forwarding.{skips_below};
ghost use Rattle.sctp_model.specs.sender.SentChunks.{skip_said, forward_end, forward_chunk_of};
ghost use Rattle.sctp_wire.specs.Skips.{skip_size, IsSkip};
ghost use Rattle.sctp_framing.specs.SkipForms.{skip_form};
ghost use Rattle.sctp_packet.specs.Draft.{has_room, after_try};
ghost use Rattle.sctp_send.specs.OutstandingFields.{item_meaning, entries_of};
ghost use Rattle.sctp_send.specs.SenderKept.{Kept};
ghost use Rattle.sctp_send.specs.SenderStands.{StandsFor, Keeps};
ghost use Rattle.sctp_send.specs.ResetsKept.{base_of};
ghost use Rattle.sctp_send.specs.inner.Lanes.{passed_meaning, forward_of_lanes, forward_of_list};

use crate::forward::keeping::kept_for;
use crate::forward::lanes::{Lanes, PACKET_ALONE, Passed, list_of, note_first};
use crate::kept::outstanding::Outstanding;
use crate::kept::resets::OutgoingResets;
use crate::readers::abandoned_run;
use crate::sender::Sender;
use arrayvec::ArrayVec;
use sctp_framing::Framing;
use sctp_packet::PacketWriter;
use sctp_serial::tsn_of;
use sctp_values::NoMemory;
use sctp_wire::codes::FORWARD_HEADER;
use sctp_wire::{Forward, Skips};
use std::alloc::Global;

#[tactic(auto, unfolding(crate::specs::SenderStands::StandsFor))]
impl<F: Framing> Sender<F> {
    /// Puts the FORWARD-TSN or I-FORWARD-TSN chunk into a packet. Its new cumulative TSN is the last one up to the point for which the chunk
    /// alone fits a packet of `limit` bytes, 1,500 at most; it lists the largest SSN or MID skipped, for each stream and kind of message that is
    /// numbered. False exactly if there is no such TSN past CUM, or if the chunk doesn't fit what is left of this packet. If `keep_forward` has
    /// kept the chunk for this state, it is taken from there.
    ///
    /// # Errors
    /// `NoMemory`, only if the chunk would have gone in; the packet is then as before.
    pub fn put_forward(&self, packet: &mut PacketWriter, limit: u16) -> Result<bool, NoMemory>
        requires { limit ≤ GREATEST_PACKET }
        ensures answer { (v : SenderView) → StandsFor F.format self.now v
            → IfOk result (λ put. put ≡ (nat_lt v.cum (forward_end F.format limit v) && has_room packet.old (forward_chunk_of F.format limit v))) }
        ensures after { (v : SenderView) → StandsFor F.format self.now v
            → IfOk result (λ put. packet.new ≡ after_try packet.old (forward_chunk_of F.format limit v) put) }
        // One entry fits a packet of the least limit.
        ensures reaches { (v : SenderView) → StandsFor F.format self.now v → LEAST_PACKET ≤ limit
            → nat_lt v.cum (forward_end F.format limit v) ≡ nat_lt v.cum (point v) }
        ensures unchanged { OnErr result (packet.new ≡ packet.old) }
        ensures memory { (v : SenderView) → StandsFor F.format self.now v
            → OnErr result ((nat_lt v.cum (forward_end F.format limit v) && has_room packet.old (forward_chunk_of F.format limit v)) ≡ true) }
    {
        let run = abandoned_run(&self.parts.outstanding);
        if let Some(last) = kept_for::<F>(&self.told, run, limit) {
            let point = last.cum.wrapping_add(u64::from(last.passed));
            let upto = tsn_of(self.told.initial, point);
            return put_list::<F>(upto, &last.list, packet);
        }
        let mut lanes = ArrayVec::new();
        let passed = note_within::<F>(
            &mut lanes,
            &self.parts.outstanding,
            self.told.streams,
            limit,
        );
        if passed == 0 {
            return Ok(false);
        }
        let end = self.told.cum.wrapping_add(u64::from(passed));
        let cumulative = tsn_of(self.told.initial, end);
        put_lanes::<F>(
            self.told.alloc,
            &self.told.resets,
            cumulative,
            lanes.as_slice(),
            packet,
        )
    }
}

/// Notes the lanes that a FORWARD names which goes as far as fits a packet of so many bytes, and answers how many entries it passes.
fn note_within<F: Framing>(
    lanes: &mut Lanes,
    outstanding: &Outstanding,
    streams: u16,
    limit: u16,
) -> u32
    requires none { lanes.old.items ≡ [] }
    requires limit { limit ≤ GREATEST_PACKET }
    ensures end { (s : Kept) (v : SenderView) (size : ℕ) → Keeps F.format s v → s.items ≡ map (item_meaning size) outstanding.now.items
        → s.streams ≡ streams → forward_end F.format limit v ≡ v.cum + result }
    ensures lanes { (size : ℕ) → map passed_meaning lanes.new.items
        ≡ skips_below F.format (entries_of (map (item_meaning size) (take result outstanding.now.items))) streams }
    ensures few { skip_size (skip_form F.format) * length lanes.new.items ≤ limit }
{
    if limit < PACKET_ALONE {
        return 0;
    }
    let run = abandoned_run(outstanding);
    let most = usize::from(limit - PACKET_ALONE) / F::skip_form().size();
    note_first::<F>(lanes, outstanding, run, streams, most)
}

/// Puts the FORWARD to this TSN that names these lanes. False exactly where it doesn't fit.
///
/// # Errors
/// `NoMemory`, and only where it fits.
fn put_lanes<F: Framing>(
    alloc: Global,
    resets: &OutgoingResets,
    cumulative: u32,
    lanes: &[Passed],
    packet: &mut PacketWriter,
) -> Result<bool, NoMemory>
    requires fits { AllByRecursion (IsSkip (skip_form F.format)) (map (skip_said F.format (base_of resets.now)) (map passed_meaning lanes.now)) }
    requires few { skip_size (skip_form F.format) * length lanes.now ≤ GREATEST_PACKET }
    ensures answer { IfOk result (λ put. put ≡ has_room packet.old (forward_of_lanes F.format (base_of resets.now) cumulative lanes.now)) }
    ensures after { IfOk result (λ put. packet.new ≡ after_try packet.old (forward_of_lanes F.format (base_of resets.now) cumulative lanes.now) put) }
    ensures unchanged { OnErr result (packet.new ≡ packet.old) }
    ensures memory { OnErr result (has_room packet.old (forward_of_lanes F.format (base_of resets.now) cumulative lanes.now) ≡ true) }
{
    let form = F::skip_form();
    if FORWARD_HEADER + form.size() * lanes.len() > packet.room() {
        return Ok(false);
    }
    let list = list_of::<F>(alloc, resets, lanes)?;
    put_list::<F>(cumulative, &list, packet)
}

/// Puts the FORWARD to this TSN with this list of streams and numbers. False exactly if it doesn't fit.
///
/// # Errors
/// `NoMemory`, and only if it fits.
fn put_list<F: Framing>(
    cumulative: u32,
    list: &[u8],
    packet: &mut PacketWriter,
) -> Result<bool, NoMemory>
    requires whole { length list.now % skip_size (skip_form F.format) ≡ 0 }
    requires few { length list.now ≤ GREATEST_PACKET }
    ensures answer { IfOk result (λ put. put ≡ has_room packet.old (forward_of_list F.format cumulative list.now)) }
    ensures after { IfOk result (λ put. packet.new ≡ after_try packet.old (forward_of_list F.format cumulative list.now) put) }
    ensures unchanged { OnErr result (packet.new ≡ packet.old) }
    ensures memory { OnErr result (has_room packet.old (forward_of_list F.format cumulative list.now) ≡ true) }
{
    let chunk = F::forward_chunk(Forward {
        cumulative,
        skips: Skips::new(F::skip_form(), list),
    });
    packet.try_chunk(&chunk)
}
