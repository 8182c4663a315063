//! Messages from the user: queued, or refused for the first reason that applies (RFC 9260, 6.1 and 6.9).

pub mod owing;
pub mod passing;

ghost use Rattle.std.specs.Prelude.{◌≡◌, ℕ, ◌<◌, ◌≤◌, ◌++◌, ◌∷◌, [], map, length, vec_capacity, None, OnOk, OnErr, IfErr, IfSome, IfNone};
ghost use Rattle.sctp_model.specs.numbers.Limits.{LONGEST_MESSAGE, TICKET_LIMIT};
ghost use Rattle.sctp_model.specs.sender.SenderView.{SenderView};
ghost use Rattle.sctp_model.specs.sender.Queueing.{cut, refusal};
ghost use Rattle.sctp_send.specs.OutstandingFields.{queued_meaning};
ghost use Rattle.sctp_send.specs.SenderFields.{queued_by};
ghost use Rattle.sctp_send.specs.declared.queueing.SendFault.TheVariants.{NoMemory as FaultNoMemory};
ghost use Rattle.sctp_send.specs.SenderStands.{StandsFor};
ghost use Rattle.sctp_send.specs.SenderAnswers.{QueueAnswer, queue_after, lane_for, refused_with};

use crate::kept::message::{Fate, Message};
use crate::kept::pieces::{fragments_in, owed};
use crate::kept::queue::Queue;
use crate::kept::shells::{buffer_of, in_shell};
use crate::queueing::owing::reserve_message;
use crate::sender::Sender;
use sctp_framing::Framing;
use sctp_values::{Kind, LONGEST_MESSAGE, QUEUE_LIMIT, TICKET_LIMIT, TSN_LIMIT, Ticket};
use std::alloc::Global;
use std::sync::Arc;
use thiserror::Error;

/// Why a message is refused: the first reason that applies, in this order.
#[derive(Clone, Copy, Debug, PartialEq, Eq, Error)]
pub enum SendFault {
    /// The stream number isn't below the number of outgoing streams.
    #[error("there is no such stream")]
    NoSuchStream,
    /// The stream is being reset, or the peer refused to reset it (RFC 6525, 5.1).
    #[error("the stream is being reset")]
    Resetting,
    /// The message is empty (RFC 9260, 3.3.1: a DATA chunk has at least one byte).
    #[error("the message is empty")]
    Empty,
    /// The message has more than 65,536 bytes.
    #[error("the message is too long")]
    TooLong,
    /// 1,024 messages wait in the queue already.
    #[error("too many messages wait")]
    QueueFull,
    /// No ticket is left, or the TSNs assigned and still to be assigned would be more than 2^63 - 1.
    #[error("no more messages can be numbered")]
    Spent,
    /// An allocation failed.
    #[error("out of memory")]
    NoMemory,
}

#[tactic(auto, unfolding(crate::specs::SenderStands::StandsFor))]
impl<F: Framing> Sender<F> {
    /// Queues a message of 1 to 65,536 bytes for a stream. `until` is the time at which its lifetime ends, in milliseconds, if it has one
    /// (RFC 3758, 4.1). It is fragmented as it is sent (RFC 9260, 6.9). If it is refused, the bytes are dropped. The ticket names the message in
    /// later calls; tickets are numbered from 1.
    ///
    /// # Errors
    /// The first reason of `SendFault` that applies; nothing changes then.
    pub fn queue(
        &mut self,
        stream: u16,
        ordered: bool,
        payload_id: u32,
        bytes: Vec<u8>,
        until: Option<u64>,
    ) -> Result<Ticket, SendFault>
        ensures answer { (v : SenderView) → StandsFor F.format self.old v → QueueAnswer v stream bytes.items result }
        ensures step { (v : SenderView) → StandsFor F.format self.old v
            → StandsFor F.format self.new (queue_after v (lane_for stream ordered) payload_id bytes.items until None result) }
    {
        self.queue_limited(stream, ordered, payload_id, bytes, until, None)
    }

    /// As `queue`, of a message each of whose fragments is retransmitted at most `limit` times, if there is a limit (RFC 7496, 3.1).
    ///
    /// # Errors
    /// As `queue`.
    #[inline(always)]
    pub fn queue_limited(
        &mut self,
        stream: u16,
        ordered: bool,
        payload_id: u32,
        bytes: Vec<u8>,
        until: Option<u64>,
        limit: Option<u16>,
    ) -> Result<Ticket, SendFault>
        ensures answer { (v : SenderView) → StandsFor F.format self.old v → QueueAnswer v stream bytes.items result }
        ensures step { (v : SenderView) → StandsFor F.format self.old v
            → StandsFor F.format self.new (queue_after v (lane_for stream ordered) payload_id bytes.items until limit result) }
    {
        match self.accept(stream, ordered, payload_id, bytes, until, limit) {
            Ok(ticket) => {
                self.end_tickets();
                self.pass_tickets();
                Ok(ticket)
            }
            Err(fault) => Err(fault),
        }
    }

    /// Takes the buffer of a message that is over, for the bytes of one to come: it is empty, and has capacity for `least` bytes. None if none is kept, or
    /// it has less. Of 64 messages that were acknowledged the buffers are kept, if they have 128 bytes at most. It allocates no memory.
    #[inline(always)]
    pub fn take_buffer(&mut self, least: usize) -> Option<Vec<u8>>
        ensures empty { IfSome result (λ buffer. buffer.items ≡ []) }
        ensures room { IfSome result (λ buffer. least ≤ vec_capacity buffer) }
        ensures kept { self.new ≡ self.old }
    {
        let alloc = self.told.alloc;
        buffer_of(&mut self.told.shells, alloc, least)
    }

    /// Queues a message, or refuses it. The space for its ticket, and for all entries that it may take, is reserved before anything changes.
    #[inline(always)]
    fn accept(
        &mut self,
        stream: u16,
        ordered: bool,
        payload_id: u32,
        bytes: Vec<u8>,
        until: Option<u64>,
        limit: Option<u16>,
    ) -> Result<Ticket, SendFault>
        ensures answer { (v : SenderView) → StandsFor F.format self.old v → QueueAnswer v stream bytes.items result }
        ensures step { (v : SenderView) → StandsFor F.format self.old v
            → StandsFor F.format self.new (queue_after v (lane_for stream ordered) payload_id bytes.items until limit result) }
    {
        if let Some(fault) = self.refusal(stream, &bytes) {
            return Err(fault);
        }
        let given = self.told.fates.len();
        let fragments = fragments_in(self.told.fragment, &bytes);
        let more = owed(fragments);
        let entries = self.owed_by_accepted().wrapping_add(more);
        match reserve_message(
            &mut self.told.fates,
            &mut self.told.dues,
            &mut self.parts.outstanding,
            entries as usize,
        ) {
            Ok(()) => {}
            Err(_) => return Err(SendFault::NoMemory),
        }
        let ticket = given as u64 + 1;
        let message = Message {
            ticket,
            stream,
            kind: Kind::of_flag(!ordered),
            payload_id,
            until,
            limit,
            bytes,
        };
        enqueue(
            &mut self.parts.queue,
            &mut self.told.shells,
            self.told.alloc,
            message,
            fragments,
        )?;
        self.told.fates.push(Fate::Queued);
        self.told.dues.push(until);
        Ok(Ticket(ticket))
    }

    /// The first reason for which a message with these bytes is refused on a stream, whatever memory there is.
    #[inline(always)]
    fn refusal(&self, stream: u16, bytes: &[u8]) -> Option<SendFault>
        ensures none { (v : SenderView) → StandsFor F.format self.now v → IfNone result (refusal v stream bytes.now ≡ None) }
        ensures some { (v : SenderView) → StandsFor F.format self.now v → IfSome result (λ fault. refused_with (refusal v stream bytes.now) fault) }
        ensures told { IfSome result (λ fault. fault ≡ FaultNoMemory → ⊥) }
        ensures few { IfNone result (length self.now.fates < TICKET_LIMIT) }
        ensures long { IfNone result (0 < length bytes.now) }
        ensures short { IfNone result (length bytes.now ≤ LONGEST_MESSAGE) }
    {
        if stream >= self.told.streams {
            return Some(SendFault::NoSuchStream);
        }
        if !self.told.resets.sends(stream) {
            return Some(SendFault::Resetting);
        }
        if bytes.len() == 0 {
            return Some(SendFault::Empty);
        }
        if bytes.len() > LONGEST_MESSAGE {
            return Some(SendFault::TooLong);
        }
        if self.parts.queue.len() >= QUEUE_LIMIT {
            return Some(SendFault::QueueFull);
        }
        let promised = self.promised();
        let more = owed(fragments_in(self.told.fragment, bytes));
        let given = self.told.fates.len();
        if given >= TICKET_LIMIT as usize {
            return Some(SendFault::Spent);
        }
        if promised.wrapping_add(more) > TSN_LIMIT {
            return Some(SendFault::Spent);
        }
        None
    }
}

/// A message of so many fragments comes to the end of the queue, with the owners of these.
#[inline(always)]
fn enqueue(
    queue: &mut Queue,
    shells: &mut Vec<Arc<Message>>,
    alloc: Global,
    message: Message,
    fragments: usize,
) -> Result<(), SendFault>
    requires all { fragments ≡ length (cut queue.old.size message.bytes.items) }
    requires some { 0 < length message.bytes.items }
    requires short { length message.bytes.items ≤ LONGEST_MESSAGE }
    ensures size { queue.new.size ≡ queue.old.size }
    ensures waits { (size : ℕ) → OnOk result (map (queued_by size) queue.new.items ≡ map (queued_by size) queue.old.items ++ queued_meaning size message ∷ []) }
    ensures unchanged { OnErr result (queue.new.items ≡ queue.old.items) }
    ensures memory { IfErr result (λ fault. fault ≡ FaultNoMemory) }
{
    let message = match in_shell(shells, alloc, message) {
        Ok(message) => message,
        Err(_) => return Err(SendFault::NoMemory),
    };
    match queue.push(alloc, message, fragments) {
        Ok(()) => Ok(()),
        Err(_) => Err(SendFault::NoMemory),
    }
}
