//! All chunks of a packet, one after the other, and how many of them are sent for the first time, and how many again. The chunk of a wish that goes is put
//! into the packet, and the stock keeps what it leaves (RFC 9260, 6.1 and 6.3.3; RFC 8260, 2.2). All memory was taken before: the packet's and that of
//! tickets as the fill began, that of entries and owners when messages were queued. So nothing here can fail.

ghost use Rattle.std.specs.Prelude.{◌≡◌, suc, ◌+◌, ◌-◌, ◌*◌, ◌^◌, ◌<◌, ◌≤◌, ◌∷◌, [], Bool, true, Some, length, slice_index_or};
ghost use Rattle.std.specs.Vec.{vec_len, vec_capacity};
ghost use Rattle.sctp_model.specs.numbers.Limits.{GREATEST_FRAGMENT};
ghost use Rattle.sctp_model.specs.sender.SenderView.{SenderView};
ghost use Rattle.sctp_packet.specs.Draft.{room_in, with_chunks};
ghost use Rattle.sctp_send.specs.SenderStands.{Keeps};
ghost use Rattle.sctp_send.specs.OutstandingFields.{lane_meaning};
ghost use Rattle.sctp_send.specs.ResetsKept.{base_of};
ghost use Rattle.sctp_send.specs.inner.Asking.{CanBegin, CanGo, CanGoOn, GoesAnswer, IsAsked, IsNextPending};
ghost use Rattle.sctp_send.specs.inner.Newcomers.{IsBegun, IsContinued};
ghost use Rattle.sctp_send.specs.inner.Stocking.{bare, stocked, fragment_chunk, AllPut, FitsInto, IsPut, NothingStands};
ghost use Rattle.sctp_send.specs.inner.Entering.{IsSized};
ghost use Rattle.sctp_send.specs.inner.Sending.{sent_going};
ghost use Rattle.sctp_send.specs.declared.kept.entry.Entry.{Entry as EntryFields};

use crate::fill::asking::Going;
use crate::fill::assigning::{Beginning, Next, stream_after};
use crate::fill::others::{enter_others, push_fragment};
use crate::fill::sendings::Sendings;
use crate::kept::entry::{Content, Entry, Standing};
use crate::kept::message::Message;
use crate::kept::pieces::put_fragment;
use crate::kept::resets::base_at;
use crate::kept::track::Taken;
use crate::kept::waiting::Waiting;
use crate::stock::Stock;
use crate::told::Told;
use sctp_framing::Framing;
use sctp_packet::PacketWriter;
use sctp_serial::tsn_of;
use sctp_values::Ticket;

impl Told {
    /// Puts the chunk of a wish that goes: its entry goes out, or its message takes its number, or its next index.
    #[inline(always)]
    pub(crate) fn go<F: Framing>(&self, stock: &mut Stock, going: Going, packet: &mut PacketWriter)
        requires sized { IsSized F.format self.now.fragment stock.old }
        requires can { CanGo F.format packet.old self.now stock.old going }
        requires reserved { packet.old.space ≡ true }
        requires told { vec_len stock.old.tickets < vec_capacity stock.old.tickets }
        ensures put { (v : SenderView) → Keeps F.format (stocked (bare self.now) stock.old) v → GoesAnswer F.format v packet.old (Some going)
            → IsPut F.format (bare self.now) v packet.old packet.new stock.old stock.new }
        ensures sized { IsSized F.format self.now.fragment stock.new }
        ensures left { vec_capacity stock.old.tickets + vec_len stock.new.tickets ≤ vec_capacity stock.new.tickets + vec_len stock.old.tickets + 1 }
        ensures reserved { packet.new.space ≡ true }
    {
        match going {
            Going::Indexed(pending) => self.put_entry::<F>(stock, pending.at, packet),
            Going::New(Next::Begins(next)) => self.begin::<F>(stock, next, packet),
            Going::New(Next::Continues(stream)) => self.go_on::<F>(stock, stream, packet),
        }
    }

    /// Puts the entry at this offset, which fits: it goes out.
    #[inline(always)]
    fn put_entry<F: Framing>(&self, stock: &mut Stock, at: usize, packet: &mut PacketWriter)
        requires sized { IsSized F.format self.now.fragment stock.old }
        requires within { at < length stock.old.outstanding.items }
        requires reserved { packet.old.space ≡ true }
        requires fits { (x : EntryFields) → x ≡ slice_index_or stock.old.outstanding.items at x → FitsInto F.format packet.old self.now.fragment x.message.value x.content }
        ensures put { (v : SenderView) → Keeps F.format (stocked (bare self.now) stock.old) v → (again : Bool) → IsNextPending F.format v at again → IsAsked F.format v packet.old true
            → IsPut F.format (bare self.now) v packet.old packet.new stock.old stock.new }
        ensures sized { IsSized F.format self.now.fragment stock.new }
        ensures tickets { stock.new.tickets ≡ stock.old.tickets }
        ensures reserved { packet.new.space ≡ true }
    {
        let entry = stock.outstanding.get(at);
        self.put_piece::<F>(&entry.message, entry.number, entry.content, at, packet);
        stock.outstanding.send(at);
    }

    /// Puts the chunk of a message's entry, which fits, with the TSN of an offset. `number` is its message's number in the lane.
    #[inline(always)]
    fn put_piece<F: Framing>(
        &self,
        message: &Message,
        number: u64,
        content: Content,
        at: usize,
        packet: &mut PacketWriter,
    )
        requires some { 0 < self.now.fragment }
        requires short { self.now.fragment ≤ GREATEST_FRAGMENT }
        requires reserved { packet.old.space ≡ true }
        requires fits { FitsInto F.format packet.old self.now.fragment message.now content }
        ensures put { packet.new ≡ with_chunks packet.old (fragment_chunk F.format (base_of self.now.resets) self.now.fragment self.now.initial (suc (self.now.cum + at)) message.now number content ∷ []) }
        ensures reserved { packet.new.space ≡ true }
    {
        let index = self.cum.wrapping_add(at as u64).wrapping_add(1);
        let tsn = tsn_of(self.initial, index);
        let since = self.since_reset(message, number);
        put_fragment::<F>(message, since, content, self.fragment, tsn, packet);
    }

    /// A message's number in the lane, counted from the last reset of its stream (RFC 6525, 5.2.2); mostly there was none.
    #[inline(always)]
    fn since_reset(&self, message: &Message, number: u64) -> u64
        ensures { result ≡ number - base_of self.now.resets (lane_meaning message.now) }
    {
        match &self.resets.table {
            Some(table) => {
                let base = base_at(&table.streams, message.stream, message.kind);
                number.saturating_sub(base)
            }
            None => number,
        }
    }

    /// The message at a place of the queue takes its number, and so many of its fragments their indexes: the first one's chunk is put.
    #[inline(always)]
    fn begin<F: Framing>(&self, stock: &mut Stock, next: Beginning, packet: &mut PacketWriter)
        requires sized { IsSized F.format self.now.fragment stock.old }
        requires can { CanBegin F.format packet.old self.now.fragment stock.old next }
        requires reserved { packet.old.space ≡ true }
        requires told { vec_len stock.old.tickets < vec_capacity stock.old.tickets }
        ensures put { (v : SenderView) → Keeps F.format (stocked (bare self.now) stock.old) v → NothingStands F.format v → IsBegun F.format v next.place next.count next.turn → IsAsked F.format v packet.old true
            → IsPut F.format (bare self.now) v packet.old packet.new stock.old stock.new }
        ensures sized { IsSized F.format self.now.fragment stock.new }
        ensures one { vec_len stock.new.tickets ≡ vec_len stock.old.tickets + 1 }
        ensures capacity { vec_capacity stock.new.tickets ≡ vec_capacity stock.old.tickets }
        ensures reserved { packet.new.space ≡ true }
    {
        let Some(waiting) = stock.queue.remove(next.place) else {
            return;
        };
        let Waiting { message, others } = waiting;
        let stream = message.stream;
        stock.tickets.push_reserved(Ticket(message.ticket));
        let number = stock.streams.number_one(usize::from(stream), message.kind);
        let at = stock.outstanding.len();
        self.put_piece::<F>(&message, number, Content::Fragment(0), at, packet);
        stock.outstanding.put(Entry {
            message,
            number,
            content: Content::Fragment(0),
            standing: Standing::Sent,
            covered: false,
            abandoned: false,
            repeats: 0,
        });
        if !others.is_empty() {
            enter_others(stock, others, stream, number, next.count);
        }
        stock.turn = next.turn;
    }

    /// The message in part of a stream takes its next index: its chunk is put.
    fn go_on<F: Framing>(&self, stock: &mut Stock, stream: u16, packet: &mut PacketWriter)
        requires sized { IsSized F.format self.now.fragment stock.old }
        requires can { CanGoOn F.format packet.old self.now stock.old stream }
        requires reserved { packet.old.space ≡ true }
        ensures put { (v : SenderView) → Keeps F.format (stocked (bare self.now) stock.old) v → NothingStands F.format v → IsContinued F.format v stream → IsAsked F.format v packet.old true
            → IsPut F.format (bare self.now) v packet.old packet.new stock.old stock.new }
        ensures sized { IsSized F.format self.now.fragment stock.new }
        ensures tickets { stock.new.tickets ≡ stock.old.tickets }
        ensures reserved { packet.new.space ≡ true }
    {
        let Some(next) = stock.streams.take_fragment(usize::from(stream)) else {
            return;
        };
        let Taken {
            message,
            fragment,
            number,
        } = next;
        let at = stock.outstanding.len();
        let content = Content::Fragment(fragment);
        self.put_piece::<F>(&message, number, content, at, packet);
        let standing = Standing::Sent;
        push_fragment(&mut stock.outstanding, message, number, fragment, standing);
        stock.turn = stream_after(stream, self.streams);
    }
}

impl Sendings {
    /// No chunk went in.
    pub(crate) fn none() -> Sendings
        ensures { result ≡ record { first = 0; again = 0 } }
    {
        Sendings { first: 0, again: 0 }
    }

    /// A wish goes: one more chunk.
    #[inline(always)]
    fn count(&mut self, going: Going)
        ensures { self.new ≡ sent_going going self.old }
    {
        match going {
            Going::Indexed(pending) if pending.again => {
                self.again = self.again.wrapping_add(1);
            }
            _ => self.first = self.first.wrapping_add(1),
        }
    }
}

impl Told {
    /// Puts the next chunk to be sent, until none may go, at most so many, and counts them.
    pub(crate) fn put_all<F: Framing>(
        &self,
        stock: &mut Stock,
        most: usize,
        packet: &mut PacketWriter,
    ) -> Sendings
        requires fresh { stock.old.tickets.items ≡ [] }
        requires sized { IsSized F.format self.now.fragment stock.old }
        requires reserved { packet.old.space ≡ true }
        requires few { most < 2 ^ 16 }
        requires more { room_in packet.old < 16 * most }
        requires told { most ≤ vec_capacity stock.old.tickets }
        ensures all { (v : SenderView) → Keeps F.format (stocked (bare self.now) stock.old) v
            → AllPut F.format (bare self.now) v packet.old packet.new stock.new result }
        ensures sized { IsSized F.format self.now.fragment stock.new }
        ensures reserved { packet.new.space ≡ true }
    {
        let mut sendings = Sendings::none();
        for turn in 0..most {
            let Some(going) = self.next_going::<F>(stock, packet.room()) else {
                return sendings;
            };
            sendings.count(going);
            self.go::<F>(stock, going, packet);
        }
        sendings
    }
}
