//! The FORWARD over the entries up to the point is kept once it was built, until CUM or the point moves: a peer that repeats a SACK which changes
//! nothing has it sent again, and building it costs a walk over all entries that it passes (RFC 3758, 3.5). No call forgets it: what it says of the
//! entries that it was built from stays true, since their TSNs are assigned for good, and whether it is the FORWARD of now is tested when it is used.

ghost use Rattle.std.specs.Prelude.{◌≡◌, ℕ, ◌%◌, ◌≤◌, true, length, map, take, Some, IfSome};
ghost use Rattle.sctp_model.specs.numbers.Limits.{GREATEST_PACKET};
ghost use Rattle.sctp_model.specs.sender.SenderView.{SenderView};
ghost use Rattle.sctp_wire.specs.Skips.{skip_size};
ghost use Rattle.sctp_framing.specs.SkipForms.{skip_form};
ghost use Rattle.sctp_send.specs.OutstandingFields.{item_meaning, entries_of};
ghost use Rattle.sctp_send.specs.ForwardKept.{IsBuilt};
ghost use Rattle.sctp_send.specs.ResetsKept.{base_of};
ghost use Rattle.sctp_send.specs.SenderStands.{StandsFor};

use crate::forward::lanes::{PACKET_ALONE, list_of, note_first};
use crate::kept::last_forward::LastForward;
use crate::kept::outstanding::Outstanding;
use crate::kept::resets::OutgoingResets;
use crate::readers::abandoned_run;
use crate::sender::Sender;
use crate::told::Told;
use arrayvec::ArrayVec;
use sctp_framing::Framing;
use std::alloc::Global;

#[tactic(auto, unfolding(crate::specs::SenderStands::StandsFor))]
impl<F: Framing> Sender<F> {
    /// Builds the FORWARD for a packet of `limit` bytes, 1,500 at most, and keeps it for `put_forward`, unless the one that is kept was built
    /// for the same CUM, point and limit (RFC 3758, 3.5). The sender's view stays as it is. It may allocate; if memory is refused, none is kept,
    /// and `put_forward` builds its own.
    pub fn keep_forward(&mut self, limit: u16)
        requires { limit ≤ GREATEST_PACKET }
        ensures { (v : SenderView) → StandsFor F.format self.old v → StandsFor F.format self.new v }
    {
        let run = abandoned_run(&self.parts.outstanding);
        if run == 0 || kept_for::<F>(&self.told, run, limit).is_some() {
            return;
        }
        self.told.forward = built::<F>(
            self.told.alloc,
            &self.told.resets,
            &self.parts.outstanding,
            self.told.cum,
            run,
            self.told.streams,
            limit,
        );
    }
}

/// The FORWARD that is kept, if it was built for this CUM, with this many abandoned entries after it, and for this packet limit.
pub(crate) fn kept_for<F: Framing>(told: &Told, run: u32, limit: u16) -> Option<&LastForward>
    ensures kept { IfSome result (λ last. told.now.forward ≡ Some last.now) }
    ensures cum { IfSome result (λ last. last.now.cum ≡ told.now.cum) }
    ensures run { IfSome result (λ last. last.now.run ≡ run) }
    ensures limit { IfSome result (λ last. last.now.limit ≡ limit) }
    ensures whole { IfSome result (λ last. length last.now.list.items % skip_size (skip_form F.format) ≡ 0) }
    ensures few { IfSome result (λ last. length last.now.list.items ≤ limit) }
{
    match &told.forward {
        Some(last) => {
            if serves::<F>(last, told.cum, run, limit) {
                Some(last)
            } else {
                None
            }
        }
        None => None,
    }
}

/// It was built for this CUM, number of abandoned entries, and packet limit; and its list has whole entries and fits such a packet, as each that
/// was built for it does.
fn serves<F: Framing>(last: &LastForward, cum: u64, run: u32, limit: u16) -> bool
    ensures cum { result ≡ true → last.now.cum ≡ cum }
    ensures run { result ≡ true → last.now.run ≡ run }
    ensures limit { result ≡ true → last.now.limit ≡ limit }
    ensures whole { result ≡ true → length last.now.list.items % skip_size (skip_form F.format) ≡ 0 }
    ensures few { result ≡ true → length last.now.list.items ≤ limit }
{
    if last.cum != cum || last.run != run || last.limit != limit {
        return false;
    }
    let bytes = last.list.len();
    bytes % F::skip_form().size() == 0 && bytes <= usize::from(limit)
}

/// The FORWARD over as many of the first `run` entries after CUM as fit a packet of `limit` bytes. None if no entry fits, or if memory is refused.
fn built<F: Framing>(
    alloc: Global,
    resets: &OutgoingResets,
    outstanding: &Outstanding,
    cum: u64,
    run: u32,
    streams: u16,
    limit: u16,
) -> Option<LastForward>
    requires run { run ≤ length outstanding.now.items }
    requires limit { limit ≤ GREATEST_PACKET }
    ensures cum { IfSome result (λ last. last.cum ≡ cum) }
    ensures run { IfSome result (λ last. last.run ≡ run) }
    ensures built { (size : ℕ) → IfSome result (λ last.
        IsBuilt F.format (base_of resets.now) streams (entries_of (map (item_meaning size) (take run outstanding.now.items))) last) }
{
    if limit < PACKET_ALONE {
        return None;
    }
    let most = usize::from(limit - PACKET_ALONE) / F::skip_form().size();
    let mut lanes = ArrayVec::new();
    let passed = note_first::<F>(&mut lanes, outstanding, run, streams, most);
    if passed == 0 {
        return None;
    }
    match list_of::<F>(alloc, resets, lanes.as_slice()) {
        Ok(list) => Some(LastForward {
            cum,
            run,
            limit,
            passed,
            list,
        }),
        Err(_) => None,
    }
}
