//! Which wish goes into a packet, and whether one may (RFC 9260, 6.1 and 6.3.3): nothing changes, and no answer takes memory.

ghost use Rattle.std.specs.Prelude.{◌≡◌, ℕ, ◌+◌, ◌<◌, ◌≤◌, ◌%◌, ◌^◌, true, map, length, nat_le, slice_index_or, IfSome};
ghost use Rattle.sctp_model.specs.numbers.Limits.{WINDOW};
ghost use Rattle.sctp_model.specs.sender.Queueing.{cut};
ghost use Rattle.sctp_model.specs.sender.SenderView.{SenderView};
ghost use Rattle.sctp_packet.specs.Draft.{Draft as PacketDraft, room_in};
ghost use Rattle.sctp_send.specs.SenderFields.{track_meaning};
ghost use Rattle.sctp_send.specs.SenderStands.{Keeps};
ghost use Rattle.sctp_send.specs.OutstandingFields.{entry_meaning, item_meaning, lane_meaning, message_meaning};
ghost use Rattle.sctp_send.specs.inner.Asking.{CanBegin, CanGo, GoesAnswer, IsAsked, IsEntrance, PendingAnswer, let_in};
ghost use Rattle.sctp_send.specs.inner.Newcomers.{IsBegun, one_if};
ghost use Rattle.sctp_send.specs.inner.Stocking.{bare, stocked, FitsInto, NothingStands};
ghost use Rattle.sctp_send.specs.inner.Entering.{IsSized};
ghost use Rattle.sctp_send.specs.inner.Walks.{total, one_if_rest};
ghost use Rattle.sctp_send.specs.inner.Wishing.{lets_flow};

use crate::fill::assigning::{Beginning, Next};
use crate::kept::entry::Content;
use crate::kept::message::Message;
use crate::kept::outstanding::Outstanding;
use crate::kept::pieces::{bytes_of, fits};
use crate::kept::queue::Queue;
use crate::stock::Stock;
use crate::told::Told;
use sctp_framing::Framing;
use sctp_values::WINDOW;
use std::alloc::Global;
use std::sync::Arc;

/// An entry that is to go out: its offset, and whether it went out before.
#[derive(Clone, Copy)]
pub(crate) struct Pending {
    pub(crate) at: usize,
    pub(crate) again: bool,
}

/// A wish that goes.
#[derive(Clone, Copy)]
pub(crate) enum Going {
    /// An entry, which has its index.
    Indexed(Pending),
    /// What takes the next index.
    New(Next),
}

impl Told {
    /// Which wish goes into a packet with so many bytes left, if one may: the first of the entries that are to go out, or else what takes the next index.
    #[inline(always)]
    pub(crate) fn next_going<F: Framing>(&self, stock: &mut Stock, room: usize) -> Option<Going>
        requires { IsSized F.format self.now.fragment stock.old }
        ensures goes { (v : SenderView) (p : PacketDraft) → Keeps F.format (stocked (bare self.now) stock.old) v → room ≡ room_in p → GoesAnswer F.format v p result }
        ensures can { (p : PacketDraft) → room ≡ room_in p → IfSome result (λ going. CanGo F.format p self.now stock.old going) }
        ensures same { stock.new ≡ stock.old }
    {
        if stock.outstanding.is_all_out() {
            return self.next_new::<F>(stock, room);
        }
        self.next_pending::<F>(stock, room)
    }

    /// `next_going`, where an entry may be to go out.
    #[inline(always)]
    fn next_pending<F: Framing>(&self, stock: &mut Stock, room: usize) -> Option<Going>
        requires { IsSized F.format self.now.fragment stock.old }
        ensures goes { (v : SenderView) (p : PacketDraft) → Keeps F.format (stocked (bare self.now) stock.old) v → room ≡ room_in p → GoesAnswer F.format v p result }
        ensures can { (p : PacketDraft) → room ≡ room_in p → IfSome result (λ going. CanGo F.format p self.now stock.old going) }
        ensures same { stock.new ≡ stock.old }
    {
        let Some(pending) = first_pending(&mut stock.outstanding) else {
            return self.next_new::<F>(stock, room);
        };
        let entry = stock.outstanding.get(pending.at);
        let again = pending.again;
        if !self.is_let_in::<F>(stock, &entry.message, entry.content, again, room) {
            return None;
        }
        Some(Going::Indexed(pending))
    }

    /// What takes the next index, if it may: under DATA the message that has waited longest, whole; under I-DATA the streams take turns.
    #[inline(always)]
    fn next_new<F: Framing>(&self, stock: &Stock, room: usize) -> Option<Going>
        requires { IsSized F.format self.now.fragment stock.now }
        ensures goes { (v : SenderView) (p : PacketDraft) → Keeps F.format (stocked (bare self.now) stock.now) v → room ≡ room_in p → NothingStands F.format v → GoesAnswer F.format v p result }
        ensures can { (p : PacketDraft) → room ≡ room_in p → IfSome result (λ going. CanGo F.format p self.now stock.now going) }
    {
        if F::takes_turns() {
            return self.next_by_turn::<F>(stock, room);
        }
        if stock.queue.len() == 0 {
            return None;
        }
        let message = stock.queue.get(0);
        let all = stock.queue.fragments(0);
        let next = Beginning {
            place: 0,
            count: all,
            turn: stock.turn,
        };
        if !self.lets_begin::<F>(stock, next, message, all, room) {
            return None;
        }
        Some(Going::New(Next::Begins(next)))
    }

    /// A message of so many fragments may take its number: its first fragment fits and may flow, and the window has space for all that take an index.
    #[inline(always)]
    pub(crate) fn lets_begin<F: Framing>(
        &self,
        stock: &Stock,
        next: Beginning,
        message: &Arc<Message>,
        all: usize,
        room: usize,
    ) -> bool
        requires sized { IsSized F.format self.now.fragment stock.now }
        requires place { next.place < length stock.now.queue.items }
        requires some { 0 < next.count }
        requires its { message.now ≡ slice_index_or stock.now.queue.items next.place message.now }
        requires all { all ≡ length (cut self.now.fragment message.now.value.bytes.items) }
        ensures asked { (v : SenderView) (p : PacketDraft) → Keeps F.format (stocked (bare self.now) stock.now) v → room ≡ room_in p → NothingStands F.format v → IsBegun F.format v next.place next.count next.turn
            → IsAsked F.format v p result }
        ensures can { (p : PacketDraft) → room ≡ room_in p → result ≡ true → CanBegin F.format p self.now.fragment stock.now next }
    {
        if !can_begin(stock, message.stream, next.count, all) {
            return false;
        }
        if !has_window(stock, next.count, next.count < all, 0) {
            return false;
        }
        self.is_let_in::<F>(stock, message, Content::Fragment(0), false, room)
    }

    /// A message's fragment fits, and may flow while so much is in flight, or went out before.
    #[inline(always)]
    pub(crate) fn is_let_in<F: Framing>(
        &self,
        stock: &Stock,
        message: &Message,
        content: Content,
        again: bool,
        room: usize,
    ) -> bool
        requires { IsSized F.format self.now.fragment stock.now }
        ensures asked { (v : SenderView) (p : PacketDraft) (number i : ℕ) → Keeps F.format (stocked (bare self.now) stock.now) v → room ≡ room_in p
            → result ≡ let_in F.format again (bare self.now) stock.now i p (entry_meaning (lane_meaning message.now) number content) (Some (message_meaning self.now.fragment message.now)) }
        ensures fits { (p : PacketDraft) → room ≡ room_in p → result ≡ true → FitsInto F.format p self.now.fragment message.now content }
    {
        let bytes = bytes_of(message, content, self.fragment).len();
        let flows = again || may_flow(stock.outstanding.flight(), bytes, self.rwnd);
        flows && fits::<F>(bytes, room)
    }
}

impl Queue {
    /// How many fragments the message at a place makes.
    #[inline(always)]
    fn fragments(&self, at: usize) -> usize
        requires { at < length self.now.items }
        ensures count { (x : Arc Message Global) → x ≡ slice_index_or self.now.items at x → result ≡ length (cut self.now.size x.value.bytes.items) }
        ensures some { 0 < result }
    {
        self.messages[at].fragments()
    }
}

/// A message of so many fragments can begin on a stream with this many of them: they are among its own, nothing is in part there, and their entries have
/// room. It always can, since entries are reserved when a message is queued, and what is in part on a stream goes first.
#[inline(always)]
fn can_begin(stock: &Stock, stream: u16, count: usize, all: usize) -> bool
    ensures can { (size : ℕ) → result ≡ true → IsEntrance size stock.now stream count all }
    ensures always { (size : ℕ) → IsEntrance size stock.now stream count all → result ≡ true }
{
    count <= all && stock.streams.is_idle(stream) && stock.outstanding.has_room(count)
}

/// A first sending of so many bytes needs that nothing is in flight, or that the peer's window has room (RFC 9260, 6.1, rule A).
fn may_flow(flying: u64, bytes: usize, rwnd: u32) -> bool
    ensures { result ≡ lets_flow flying bytes rwnd }
{
    flying == 0 || flying.saturating_add(bytes as u64) <= u64::from(rwnd)
}

/// So many indexes more keep within the window, where the stream then has a message in part or not, and had one or none.
#[inline(always)]
pub(crate) fn has_window(stock: &Stock, count: usize, more: bool, had: usize) -> bool
    requires some { 0 < count }
    requires one { had ≤ 1 }
    ensures fits { (size : ℕ) → size ≡ stock.now.streams.size → result ≡ nat_le (length stock.now.outstanding.items + count + (total (λ t. one_if_rest t.rest) (map (track_meaning size) stock.now.streams.items) % 2 ^ 32 + one_if more)) (WINDOW + had) }
    ensures few { result ≡ true → count ≤ WINDOW + 1 }
{
    let window = WINDOW as usize;
    let outstanding = stock.outstanding.len();
    if outstanding > window || count > window + 1 {
        return false;
    }
    let parts = stock.streams.in_part() as usize + usize::from(more);
    outstanding + count + parts <= window + had
}

/// The first entry that waits to be repeated, or else the first one that never went out.
#[inline(always)]
fn first_pending(entries: &mut Outstanding) -> Option<Pending>
    ensures same { entries.new ≡ entries.old }
    ensures found { PendingAnswer (map (item_meaning entries.old.size) entries.old.items) result }
    ensures within { IfSome result (λ x. x.at < length entries.old.items) }
{
    if let Some(at) = entries.first_marked() {
        return Some(Pending { at, again: true });
    }
    let at = entries.first_unsent()?;
    Some(Pending { at, again: false })
}
