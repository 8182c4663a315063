//! What an endpoint sends (RFC 9260, 6.10 and 11.1.4).

ghost use Rattle.std.specs.Prelude.{◌≡◌, ◌≤◌, length, IfOk, OnErr};
ghost use Rattle.sctp_model.specs.end.EndView.{EndView};
ghost use Rattle.sctp_model.specs.end.Clock.{at_moment};
ghost use Rattle.sctp_association.specs.AbortAnswers.{AbortAnswers, aborted_view};
ghost use Rattle.sctp_endpoint.specs.EndpointStands.{EndpointStands};
ghost use Rattle.sctp_endpoint.specs.Counted.{counted, CountsAfter, aborted_counts};
ghost use Rattle.sctp_endpoint.specs.Logs.{LeavesLogs, SendsLogs, TellsAnew};
ghost use Rattle.sctp_endpoint.specs.Transmitted.{Transmits, TellsFew};

use crate::endpoint::Endpoint;
use sctp_terms::AbortFault;
use sctp_values::{NoMemory, Ticket};

/// A packet to send.
#[derive(Debug, PartialEq, Eq, Drop)]
pub struct Sent {
    /// Its bytes, from the common header on: no more than the packet limit.
    pub packet: Vec<u8>,
    /// The tickets of the messages whose first fragment it has, by their first TSN: each is returned once in the life of an endpoint.
    pub tickets: Vec<Ticket>,
}

#[tactic(auto, unfolding(crate::specs::EndpointStands::EndpointStands, crate::specs::Counted::counted))]
impl Endpoint {
    /// The next packet to send at the time `now`, in milliseconds: control chunks that are due, in the order of RFC 9260, 6.10, and then user data as far
    /// as the peer's window and the packet limit allow. None if there is nothing to send. A packet that is returned counts as sent: its timers are
    /// started, and what it has isn't sent again unless one of them expires.
    ///
    /// A ticket is returned once in the life of an endpoint, with the packet in which its message gets its first TSN: no packet before or after
    /// returns it, whatever happens (`sctp_outcomes::tickets_are_told_once`). A packet has 74 tickets at most.
    ///
    /// # Errors
    /// `NoMemory` if an allocation failed: nothing changed, not even the time.
    #[inline(always)]
    pub fn poll_transmit(&mut self, now: u64) -> Result<Option<Sent>, NoMemory>
        ensures step { (v : EndView) → EndpointStands self.old v → IfOk result (λ sent. Transmits (at_moment v now) sent self.new) }
        ensures refused { (v : EndView) → EndpointStands self.old v → OnErr result (EndpointStands self.new v) }
        ensures logs { (v : EndView) → EndpointStands self.old v → IfOk result (λ sent. SendsLogs v sent self.new) }
        ensures anew { (v : EndView) → EndpointStands self.old v → IfOk result (λ sent. TellsAnew v sent) }
        ensures few { (v : EndView) → EndpointStands self.old v → IfOk result (λ sent. TellsFew sent) }
        ensures counts { (v : EndView) → EndpointStands self.old v → CountsAfter (at_moment v now) result self.new (counted self.old) }
    {
        // laws: it is sound; a packet begins few messages; how long a packet may be
        self.machine.sound();
        self.machine.packets_begin_few();
        let _ = self.machine.config().limit();
        let was_due = self.machine.owes_sack();
        match self.machine.build(now)? {
            Some(built) => {
                // law: no ticket is returned twice
                self.machine.tickets_are_apart();
                self.tally.send(&built.packet);
                self.tally.acknowledge(was_due, self.machine.owes_sack());
                self.tally.send_chunks(built.sendings);
                Ok(Some(Sent {
                    packet: built.packet,
                    tickets: built.tickets,
                }))
            }
            None => Ok(None),
        }
    }

    /// Aborts the association: the result is a packet to send, with an ABORT for this reason (RFC 9260, 9.1, 11.1.4 and 3.3.10.12). What is queued is
    /// dropped; messages that were received may still be taken.
    ///
    /// # Errors
    /// The first of these that applies: `AbortFault::State` if there is no peer to notify, `AbortFault::TooLong` if the reason doesn't fit one packet,
    /// `AbortFault::NoMemory` if an allocation failed. Nothing changed.
    pub fn abort(&mut self, reason: &[u8]) -> Result<Vec<u8>, AbortFault>
        ensures answer { (v : EndView) → EndpointStands self.old v → AbortAnswers v reason.now result }
        ensures within { (v : EndView) → EndpointStands self.old v → IfOk result (λ packet. length packet.items ≤ v.configuration.limit) }
        ensures step { (v : EndView) → EndpointStands self.old v → EndpointStands self.new (aborted_view v reason.now result) }
        ensures logs { (v : EndView) → EndpointStands self.old v → LeavesLogs v self.new }
        ensures counts { counted self.new ≡ aborted_counts result (counted self.old) }
    {
        // law: it is sound
        self.machine.sound();
        let answer = self.machine.abort(reason);
        self.tally.abort(&answer);
        answer
    }
}
