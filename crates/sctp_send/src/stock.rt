//! The stock of a sender, which filling a packet changes.

use crate::kept::outstanding::Outstanding;
use crate::kept::queue::Queue;
use crate::kept::streams::Streams;
use sctp_values::Ticket;

/// The stock of a sender: entries, the queue, streams and the turn; and of the fill that goes on, the messages that took their numbers, in
/// order.
#[derive(Drop)]
pub(crate) struct Stock {
    pub(crate) outstanding: Outstanding,
    pub(crate) queue: Queue,
    pub(crate) streams: Streams,
    pub(crate) turn: u16,
    pub(crate) tickets: Vec<Ticket>,
}
