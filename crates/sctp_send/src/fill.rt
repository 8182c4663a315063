//! Which DATA or I-DATA chunks go into a packet (RFC 9260, 6.1 and 6.3.3; RFC 8260, 2.2).
//!
//! A sender is a `Told`, which a fill only reads but for the fates that it sets at its end, and a `Stock`, which it changes. Clauses of `Told`'s methods
//! speak of what the sender keeps with that stock (`stocked` of `bare`). All memory is taken first: the packet's (`PacketWriter::reserve`), and that of
//! the tickets that it may return; that of entries and owners was taken when messages were queued. So nothing is refused after that, and if something is
//! refused then, that is an error only if some chunk could go (`asking`). A chunk costs its search from the two counted offsets on, and its bytes; if nothing is to
//! be sent, a fill costs three tests (`is_at_rest`).

pub mod asking;
pub mod assigning;
pub mod entering;
pub mod others;
pub mod sendings;
pub mod turning;

ghost use Rattle.std.specs.Prelude.{◌≡◌, ℕ, ◌+◌, ◌*◌, ◌^◌, ◌<◌, ◌≤◌, [], true, None, IfOk, OnOk, OnErr};
ghost use Rattle.std.specs.Vec.{vec_capacity};
ghost use Rattle.sctp_model.specs.sender.Filling.{next_wish, fill};
ghost use Rattle.sctp_model.specs.sender.SenderView.{SenderView};
ghost use Rattle.sctp_send.specs.SenderStands.{StandsFor};
ghost use Rattle.sctp_send.specs.FillAnswers.{AreSentAgain, FillAnswer, HasNext, sendings_of};
ghost use Rattle.sctp_packet.specs.Draft.{room_in, with_space};
ghost use Rattle.sctp_send.specs.inner.Stocking.{bare, numbers_of, all_numbered, stocked, AreOpen};

use crate::fill::sendings::Sendings;
use crate::kept::fates::Fates;
use crate::kept::message::Fate;
use crate::sender::Sender;
use crate::stock::Stock;
use crate::told::Told;
use sctp_framing::Framing;
use sctp_packet::PacketWriter;
use sctp_values::{NoMemory, Ticket};
use std::alloc::Global;
use std::mem;

/// No buffer for more tickets is kept for the next fill.
const MOST_TICKETS: usize = 128;

/// The bytes of a DATA chunk's header, the shorter one of the two (RFC 9260, 3.3.1; RFC 8260, 2.1).
const HEADER: usize = 16;

/// What went into a packet.
#[derive(Debug, Drop)]
pub struct Filled {
    /// The tickets of the messages whose first fragment got its TSN, in the order of these TSNs.
    pub tickets: Vec<Ticket>,
    /// How many chunks were sent for the first time, and how many again.
    pub sendings: Sendings,
}

#[tactic(auto, unfolding(crate::specs::SenderStands::StandsFor))]
impl<F: Framing> Sender<F> {
    /// Fills a packet with DATA or I-DATA chunks: first those marked for retransmission, then those that have a TSN and were never sent, then
    /// new ones, as long as they fit and the peer's window (RFC 9260, 6.1, rule A) and the limit of 32,767 outstanding TSNs allow it. Returns
    /// the tickets of the messages that began. `again` is cleared, and gets the indexes of the chunks that it retransmits, which count TSNs from 1, the
    /// initial TSN. It takes memory for them before anything is sent, and none if nothing is retransmitted.
    ///
    /// # Errors
    /// `NoMemory`, only if a chunk could go. The sender's view and the packet are then as before.
    #[inline(always)]
    pub fn fill(
        &mut self,
        again: &mut Vec<u64>,
        packet: &mut PacketWriter,
    ) -> Result<Filled, NoMemory>
        ensures step { (v : SenderView) → StandsFor F.format self.old v → IfOk result (λ filled. FillAnswer F.format v packet.old packet.new self.new filled) }
        ensures sendings { (v : SenderView) → StandsFor F.format self.old v → IfOk result (λ filled. filled.sendings ≡ sendings_of (fill F.format (room_in packet.old) v).wishes) }
        ensures again { (v : SenderView) → StandsFor F.format self.old v → OnOk result (AreSentAgain v (fill F.format (room_in packet.old) v).wishes again.new.items) }
        ensures memory { (v : SenderView) → StandsFor F.format self.old v → OnErr result (StandsFor F.format self.new v) }
        ensures unchanged { OnErr result (packet.new ≡ packet.old) }
        ensures asked { (v : SenderView) → StandsFor F.format self.old v → OnErr result (HasNext F.format v (room_in packet.old)) }
    {
        again.clear();
        if self.is_at_rest() {
            let tickets = Vec::new(self.told.alloc);
            let sendings = Sendings::none();
            return Ok(Filled { tickets, sendings });
        }
        self.fill_on(again, packet)
    }

    /// Nothing is to be sent: no chunk is marked or unsent, the queue is empty, and no message is in part.
    #[inline(always)]
    fn is_at_rest(&self) -> bool
        ensures { (v : SenderView) → StandsFor F.format self.now v → result ≡ true → next_wish F.format v ≡ None }
    {
        let streams = self.told.streams;
        if self.parts.queue.len() > 0 {
            return false;
        }
        if !self.parts.outstanding.is_all_out() {
            return false;
        }
        if self.parts.streams.next_part(0, streams) < streams {
            return false;
        }
        true
    }

    /// `fill`, when something may be to be sent. A function of its own, so that a call with nothing to send stays cheap.
    #[inline(never)]
    fn fill_on(
        &mut self,
        again: &mut Vec<u64>,
        packet: &mut PacketWriter,
    ) -> Result<Filled, NoMemory>
        requires fresh { again.old.items ≡ [] }
        ensures step { (v : SenderView) → StandsFor F.format self.old v → IfOk result (λ filled. FillAnswer F.format v packet.old packet.new self.new filled) }
        ensures sendings { (v : SenderView) → StandsFor F.format self.old v → IfOk result (λ filled. filled.sendings ≡ sendings_of (fill F.format (room_in packet.old) v).wishes) }
        ensures again { (v : SenderView) → StandsFor F.format self.old v → OnOk result (AreSentAgain v (fill F.format (room_in packet.old) v).wishes again.new.items) }
        ensures memory { (v : SenderView) → StandsFor F.format self.old v → OnErr result (StandsFor F.format self.new v) }
        ensures unchanged { OnErr result (packet.new ≡ packet.old) }
        ensures asked { (v : SenderView) → StandsFor F.format self.old v → OnErr result (HasNext F.format v (room_in packet.old)) }
    {
        let room = packet.room();
        if self.list_again(again, room).is_err() {
            return self.fill_unreserved(again, packet);
        }
        let most = most_chunks(room);
        let Ok(before) = reserve_all(&mut self.parts, most, packet) else {
            return self.fill_unreserved(again, packet);
        };
        let sendings = self.told.put_all::<F>(&mut self.parts, most, packet);
        packet.restore(before);
        let tickets = take_tickets(self.told.alloc, &mut self.parts.tickets);
        number_all(&mut self.told.fates, &tickets);
        Ok(Filled { tickets, sendings })
    }

    /// Lists the indexes of the chunks that a packet with so much space will retransmit.
    ///
    /// # Errors
    /// `NoMemory`.
    #[inline(always)]
    fn list_again(&self, again: &mut Vec<u64>, room: usize) -> Result<(), NoMemory>
        requires fresh { again.old.items ≡ [] }
        ensures { (v : SenderView) → StandsFor F.format self.now v → OnOk result (AreSentAgain v (fill F.format room v).wishes again.new.items) }
    {
        let cum = self.told.cum;
        self.parts.outstanding.list_repeats::<F>(cum, room, again)
    }

    /// `fill`, when memory was refused: an error if and only if some chunk could go.
    #[inline(never)]
    fn fill_unreserved(
        &mut self,
        again: &mut Vec<u64>,
        packet: &PacketWriter,
    ) -> Result<Filled, NoMemory>
        ensures step { (v : SenderView) → StandsFor F.format self.old v → IfOk result (λ filled. FillAnswer F.format v packet.now packet.now self.new filled) }
        ensures sendings { (v : SenderView) → StandsFor F.format self.old v → IfOk result (λ filled. filled.sendings ≡ sendings_of (fill F.format (room_in packet.now) v).wishes) }
        ensures again { (v : SenderView) → StandsFor F.format self.old v → OnOk result (AreSentAgain v (fill F.format (room_in packet.now) v).wishes again.new.items) }
        ensures memory { (v : SenderView) → StandsFor F.format self.old v → OnErr result (StandsFor F.format self.new v) }
        ensures asked { (v : SenderView) → StandsFor F.format self.old v → OnErr result (HasNext F.format v (room_in packet.now)) }
    {
        again.clear();
        self.parts.tickets.clear();
        let room = packet.room();
        if let Some(_going) = self.told.next_going::<F>(&mut self.parts, room) {
            return Err(NoMemory);
        }
        let tickets = Vec::new(self.told.alloc);
        let sendings = Sendings::none();
        Ok(Filled { tickets, sendings })
    }

    /// Returns the buffer of the tickets that a fill returned: they are dropped, and the next fill writes to it in place of a new allocation. One buffer is
    /// kept, the larger one of two, and none for more than 128 tickets. It allocates no memory.
    #[inline(always)]
    pub fn recycle_tickets(&mut self, tickets: Vec<Ticket>)
        ensures { (v : SenderView) → StandsFor F.format self.old v → StandsFor F.format self.new v }
    {
        let count = tickets.capacity();
        if count <= self.parts.tickets.capacity() || count > MOST_TICKETS {
            return;
        }
        self.parts.tickets = tickets;
    }
}

/// More chunks than a packet with so many bytes left takes: each takes its header at least.
#[inline(always)]
fn most_chunks(room: usize) -> usize
    requires { room < 2 ^ 16 }
    ensures more { room < 16 * result }
    ensures few { 16 * result ≤ room + 16 }
{
    room / HEADER + 1
}

/// All memory that a fill of so many chunks may want is taken: for the tickets of messages that begin, each of which takes a chunk, and for the packet.
///
/// # Errors
/// `NoMemory`: the packet is as before.
#[inline(always)]
fn reserve_all(stock: &mut Stock, most: usize, packet: &mut PacketWriter) -> Result<bool, NoMemory>
    ensures same { stock.new ≡ record stock.old { tickets = stock.new.tickets } }
    ensures fresh { stock.new.tickets.items ≡ [] }
    ensures told { OnOk result (most ≤ vec_capacity stock.new.tickets) }
    ensures before { IfOk result (λ before. before ≡ packet.old.space) }
    ensures reserved { OnOk result (packet.new ≡ with_space packet.old true) }
    ensures unchanged { OnErr result (packet.new ≡ packet.old) }
{
    stock.tickets.clear();
    // Where there is room, it costs one test.
    if most > stock.tickets.capacity() {
        stock.tickets.reserve(most).map_err(|_| NoMemory)?;
    }
    packet.reserve()
}

/// Takes the tickets that are told; if there are none, their buffer stays.
#[inline(always)]
fn take_tickets(alloc: Global, tickets: &mut Vec<Ticket>) -> Vec<Ticket>
    ensures { result.items ≡ tickets.old.items }
{
    if tickets.is_empty() {
        return Vec::new(alloc);
    }
    mem::replace(tickets, Vec::new(alloc))
}

/// The messages with these tickets have their numbers.
fn number_all(fates: &mut Fates, tickets: &[Ticket])
    ensures items { AreOpen fates.old.ended (numbers_of tickets.now) → fates.new.items ≡ all_numbered fates.old.items (numbers_of tickets.now) }
    ensures ended { fates.new.ended ≡ fates.old.ended }
    ensures abandoned { fates.new.abandoned ≡ fates.old.abandoned }
{
    for ticket in tickets {
        let at = (ticket.0 as usize).saturating_sub(1);
        fates.set(at, Fate::Numbered);
    }
}
