//! What takes the next index where streams take turns, and whether it may (RFC 8260, 2.2.2 and 3.2).

ghost use Rattle.std.specs.Prelude.{◌≡◌, ◌<◌, true, Some, IfSome};
ghost use Rattle.sctp_model.specs.messages.Framing.{takes_turns};
ghost use Rattle.sctp_model.specs.sender.SenderView.{SenderView};
ghost use Rattle.sctp_packet.specs.Draft.{Draft as PacketDraft, room_in};
ghost use Rattle.sctp_send.specs.SenderStands.{Keeps};
ghost use Rattle.sctp_send.specs.inner.Asking.{CanGo, CanGoOn, CanTake, GoesAnswer, IsAsked};
ghost use Rattle.sctp_send.specs.inner.Newcomers.{IsContinued};
ghost use Rattle.sctp_send.specs.inner.Stocking.{bare, stocked, IsNextWithin, NewAnswer, NothingStands};
ghost use Rattle.sctp_send.specs.inner.Entering.{IsSized};

use crate::fill::asking::{Going, has_window};
use crate::fill::assigning::{Next, next_in_turn, rest_of};
use crate::kept::entry::Content;
use crate::kept::pieces::fragments_of;
use crate::stock::Stock;
use crate::told::Told;
use sctp_framing::Framing;

impl Told {
    /// `next_new`, where streams take turns.
    #[inline(always)]
    pub(crate) fn next_by_turn<F: Framing>(&self, stock: &Stock, room: usize) -> Option<Going>
        requires sized { IsSized F.format self.now.fragment stock.now }
        requires turns { takes_turns F.format ≡ true }
        ensures goes { (v : SenderView) (p : PacketDraft) → Keeps F.format (stocked (bare self.now) stock.now) v → room ≡ room_in p → NothingStands F.format v → GoesAnswer F.format v p result }
        ensures can { (p : PacketDraft) → room ≡ room_in p → IfSome result (λ going. CanGo F.format p self.now stock.now going) }
    {
        let Some(next) = next_in_turn(stock, self.streams) else {
            return None;
        };
        if !self.lets_take::<F>(stock, next, room) {
            return None;
        }
        Some(Going::New(next))
    }

    /// What is to take the next index may.
    #[inline(always)]
    fn lets_take<F: Framing>(&self, stock: &Stock, next: Next, room: usize) -> bool
        requires sized { IsSized F.format self.now.fragment stock.now }
        requires within { IsNextWithin stock.now self.now.streams (Some next) }
        ensures asked { (v : SenderView) (p : PacketDraft) → Keeps F.format (stocked (bare self.now) stock.now) v → room ≡ room_in p → NothingStands F.format v → NewAnswer F.format v (Some next)
            → IsAsked F.format v p result }
        ensures can { (p : PacketDraft) → room ≡ room_in p → result ≡ true → CanTake F.format p self.now stock.now next }
    {
        match next {
            Next::Begins(begun) => {
                let message = stock.queue.get(begun.place);
                let all = fragments_of(self.fragment, &message.bytes);
                self.lets_begin::<F>(stock, begun, message, all, room)
            }
            Next::Continues(stream) => self.lets_go_on::<F>(stock, stream, room),
        }
    }

    /// The message in part of a stream may take its next index: its fragment fits and may flow, and so does the window.
    #[inline(always)]
    fn lets_go_on<F: Framing>(&self, stock: &Stock, stream: u16, room: usize) -> bool
        requires sized { IsSized F.format self.now.fragment stock.now }
        requires within { stream < self.now.streams }
        ensures asked { (v : SenderView) (p : PacketDraft) → Keeps F.format (stocked (bare self.now) stock.now) v → room ≡ room_in p → NothingStands F.format v → IsContinued F.format v stream
            → IsAsked F.format v p result }
        ensures can { (p : PacketDraft) → room ≡ room_in p → result ≡ true → CanGoOn F.format p self.now stock.now stream }
    {
        let Some(rest) = rest_of(stock.streams.tracks(), stream) else {
            return false;
        };
        // Its entry was reserved when it was queued, so that this is never so.
        if !stock.outstanding.has_room(1) {
            return false;
        }
        let next = rest.fragment.wrapping_add(1);
        let more = (next as usize) < fragments_of(self.fragment, &rest.message.bytes);
        if !has_window(stock, 1, more, 1) {
            return false;
        }
        let content = Content::Fragment(rest.fragment);
        self.is_let_in::<F>(stock, &rest.message, content, false, room)
    }
}
