//! The user's calls (RFC 9260, 11.1): connect, send, abandon, shutdown.

ghost use Rattle.std.specs.Prelude.{◌≡◌, option_map};
ghost use Rattle.sctp_model.specs.end.EndView.{EndView};
ghost use Rattle.sctp_model.specs.end.EndView as model;
ghost use Rattle.sctp_model.specs.end.Clock.{at_moment, timers_in};
ghost use Rattle.sctp_model.specs.end.UserCalls.{connect_answer, abandons, abandoned_at, shutdown_answer, shut};
ghost use Rattle.sctp_send.specs.SenderAnswers.{answer_meaning, lane_for};
ghost use Rattle.sctp_association.specs.TimersMean.{timers_meaning};
ghost use Rattle.sctp_association.specs.MachineStands.{MachineStands};
ghost use Rattle.sctp_association.specs.PhaseMeans.{is_idle};
ghost use Rattle.sctp_association.specs.CallAnswers.{connect_meaning, connected, shutdown_meaning, call_of, limited_call_of, call_with, SendAnswers, sent_view};

use crate::machine::Machine;
use crate::state::life::{Life, Unjoined};
use crate::state::stage::Stage;
use crate::time::timer::Alarm;
use crate::time::timers::Timers;
use sctp_send::{Abandoned, SendFault};
use sctp_terms::{ConnectFault, Draw, ShutdownFault};
use sctp_values::Ticket;
use std::mem::replace;
use thiserror::Error;

/// Why a message is refused.
#[derive(Clone, Copy, Debug, PartialEq, Eq, Error)]
pub enum Refused {
    /// The association isn't established.
    #[error("the association isn't established")]
    NotOpen,
    /// The sender refuses it, for this reason.
    #[error(transparent)]
    Fault(SendFault),
}

#[tactic(auto, unfolding(crate::specs::MachineStands::MachineStands))]
impl Machine {
    /// Calls the peer at this time, in milliseconds, with these random values (tag, initial TSN): an INIT is due (RFC 9260, 5.1, A and 11.1.2). It doesn't allocate.
    ///
    /// # Errors
    /// `ConnectFault::State` unless it is a caller that wasn't used yet; nothing changed then, not even the clock.
    pub fn connect(&mut self, now: u64, draw: Draw) -> Result<(), ConnectFault>
        ensures answer { (v : EndView) → MachineStands self.old v → connect_meaning result ≡ connect_answer v.phase }
        ensures step { (v : EndView) → MachineStands self.old v → MachineStands self.new (connected v now draw result) }
    {
        if !self.is_idle() {
            return Err(ConnectFault::State);
        }
        self.moment = self.moment.max(now);
        drop(replace(&mut self.life, Life::Unjoined(Unjoined::Calling(draw))));
        self.due.call();
        call_timers(&mut self.timers);
        Ok(())
    }

    /// It is a caller that wasn't used yet.
    fn is_idle(&self) -> bool
        ensures { result ≡ is_idle self.now.life }
    {
        match &self.life {
            Life::Unjoined(unjoined) => matches!(unjoined, Unjoined::Idle),
            Life::Joined(_) => false,
        }
    }

    /// Queues a message on a stream, ordered or not (RFC 9260, 11.1.5): from the time `until` on, in milliseconds, it may be abandoned.
    ///
    /// # Errors
    /// `NotOpen` if the association isn't established, before every other reason; else the sender's first reason. Nothing changed; the bytes are
    /// dropped.
    #[inline(always)]
    pub fn send(
        &mut self,
        stream: u16,
        ordered: bool,
        payload_id: u32,
        bytes: Vec<u8>,
        until: Option<u64>,
    ) -> Result<Ticket, Refused>
        ensures answer { (v : EndView) → MachineStands self.old v → SendAnswers v (call_of (lane_for stream ordered) payload_id bytes.items until) result }
        ensures step { (v : EndView) → MachineStands self.old v → MachineStands self.new (sent_view v (call_of (lane_for stream ordered) payload_id bytes.items until) result) }
    {
        self.accept(stream, ordered, payload_id, bytes, until, None)
    }

    /// As `send`, of a message with a limit: if a fragment of it was retransmitted `max_retransmits` times, and both endpoints support partial
    /// reliability, the message is abandoned in place of another retransmission (RFC 7496, 3.1).
    ///
    /// # Errors
    /// As `send`.
    pub fn send_with_max_retransmits(
        &mut self,
        stream: u16,
        ordered: bool,
        payload_id: u32,
        bytes: Vec<u8>,
        until: Option<u64>,
        max_retransmits: u16,
    ) -> Result<Ticket, Refused>
        ensures answer { (v : EndView) → MachineStands self.old v
            → SendAnswers v (limited_call_of (lane_for stream ordered) payload_id bytes.items until max_retransmits) result }
        ensures step { (v : EndView) → MachineStands self.old v
            → MachineStands self.new (sent_view v (limited_call_of (lane_for stream ordered) payload_id bytes.items until max_retransmits) result) }
    {
        self.accept(
            stream,
            ordered,
            payload_id,
            bytes,
            until,
            Some(max_retransmits),
        )
    }

    /// Queues a message with a lifetime and a limit of retransmissions, if it has them.
    ///
    /// # Errors
    /// As `send`.
    #[inline(always)]
    fn accept(
        &mut self,
        stream: u16,
        ordered: bool,
        payload_id: u32,
        bytes: Vec<u8>,
        until: Option<u64>,
        limit: Option<u16>,
    ) -> Result<Ticket, Refused>
        ensures answer { (v : EndView) → MachineStands self.old v
            → SendAnswers v (call_with (lane_for stream ordered) payload_id bytes.items until limit) result }
        ensures step { (v : EndView) → MachineStands self.old v
            → MachineStands self.new (sent_view v (call_with (lane_for stream ordered) payload_id bytes.items until limit) result) }
    {
        let Some(opened) = self.opened() else {
            return Err(Refused::NotOpen);
        };
        if !opened.stage.is_established() {
            return Err(Refused::NotOpen);
        }
        match self.queue(stream, ordered, payload_id, bytes, until, limit) {
            Ok(ticket) => Ok(ticket),
            Err(fault) => Err(Refused::Fault(fault)),
        }
    }

    /// Abandons the message with this ticket (RFC 3758, 3.5). It doesn't allocate.
    pub fn abandon(&mut self, ticket: Ticket) -> Abandoned
        ensures answer { (v : EndView) → MachineStands self.old v → answer_meaning result ≡ abandons v ticket.0 }
        ensures step { (v : EndView) → MachineStands self.old v → MachineStands self.new (abandoned_at v ticket.0) }
    {
        let before = self.point();
        let answer = self.abandon_one(ticket);
        if !self.is_open() {
            return answer;
        }
        self.when_abandoned(before);
        answer
    }

    /// Closes the association gracefully: queued messages are still sent and delivered (RFC 9260, 9.2 and 11.1.3). Once that has begun, the call
    /// changes nothing. It doesn't allocate.
    ///
    /// # Errors
    /// `ShutdownFault::NotOpen` if no association is open; nothing changed.
    pub fn shutdown(&mut self) -> Result<(), ShutdownFault>
        ensures answer { (v : EndView) → MachineStands self.old v → shutdown_meaning result ≡ shutdown_answer v.phase }
        ensures step { (v : EndView) → MachineStands self.old v → MachineStands self.new (shut v) }
    {
        let Some(opened) = self.opened() else {
            return Err(ShutdownFault::NotOpen);
        };
        if !opened.stage.is_established() {
            return Ok(());
        }
        self.turn(Stage::ShutdownPending);
        self.advance_closing();
        Ok(())
    }
}

/// The timers of an endpoint that calls: all but the one of its INIT stop.
fn call_timers(timers: &mut Timers)
    ensures { (d : model.Draw) → timers_meaning timers.new ≡ timers_in (model.Calling d) (timers_meaning timers.old) }
{
    timers.stop(Alarm::Cookie);
    timers.stop(Alarm::Fragments);
    timers.stop(Alarm::Shutdown);
    timers.stop(Alarm::ShutdownAck);
    timers.stop(Alarm::Reset);
}
