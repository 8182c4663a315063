//! The calls of both endpoints' users.

ghost use Rattle.std.specs.Prelude.{Some, OnErr};
ghost use Rattle.sctp_model.specs.world.World.{World};
ghost use Rattle.sctp_model.specs.world.Events as meaning;
ghost use Rattle.sctp_model.specs.world.Steps.{Step};
ghost use Rattle.sctp_send.specs.SenderAnswers.{lane_for};
ghost use Rattle.sctp_association.specs.CallAnswers.{call_with};
ghost use Rattle.sctp_events.specs.Events.{side_meaning, outcome_meaning, answer_of};
ghost use Rattle.sctp_pair.specs.Memory.{TakesMemory};
ghost use Rattle.sctp_pair.specs.PairStands.{PairStands};

use crate::moments::abandon_at;
use crate::one_side::{abort_at, shut_down, take_at};
use crate::pair::Pair;
use crate::sending::send_at;
use sctp_events::{Outcome, Side};
use sctp_values::{NoMemory, Ticket};

#[tactic(auto, unfolding(crate::specs::PairStands::PairStands))]
impl Pair {
    /// An endpoint's user sends a message, with a lifetime and a limit of retransmissions, if it has them.
    ///
    /// # Errors
    /// An allocation failed; nothing has changed.
    pub(crate) fn send(
        &mut self,
        side: Side,
        stream: u16,
        ordered: bool,
        payload_id: u32,
        bytes: &[u8],
        until: Option<u64>,
        limit: Option<u16>,
    ) -> Result<Outcome, NoMemory>
        ensures { (w : World) → PairStands self.old w
            → (x : World) × Step w (meaning.Send (side_meaning side) (call_with (lane_for stream ordered) payload_id bytes.now until limit)) (answer_of result) x
            × PairStands self.new x }
    {
        let alloc = self.alloc;
        match side {
            Side::A => send_at(
                alloc,
                &mut self.a,
                stream,
                ordered,
                payload_id,
                bytes,
                until,
                limit,
            ),
            Side::B => send_at(
                alloc,
                &mut self.b,
                stream,
                ordered,
                payload_id,
                bytes,
                until,
                limit,
            ),
        }
    }

    /// An endpoint's user abandons a message.
    ///
    /// # Errors
    /// An allocation failed; nothing has changed.
    pub(crate) fn abandon(&mut self, side: Side, ticket: Ticket) -> Result<Outcome, NoMemory>
        ensures step { (w : World) → PairStands self.old w
            → (x : World) × Step w (meaning.Abandon (side_meaning side) ticket.0) (answer_of result) x × PairStands self.new x }
        ensures memory { (w : World) → PairStands self.old w → OnErr result (TakesMemory w (meaning.Abandon (side_meaning side) ticket.0)) }
    {
        match side {
            Side::A => abandon_at(&mut self.a, ticket),
            Side::B => abandon_at(&mut self.b, ticket),
        }
    }

    /// An endpoint's user takes the next message of a stream.
    ///
    /// # Errors
    /// An allocation failed; nothing has changed.
    pub(crate) fn take(&mut self, side: Side, stream: u16) -> Result<Outcome, NoMemory>
        ensures step { (w : World) → PairStands self.old w
            → (x : World) × Step w (meaning.Take (side_meaning side) stream) (answer_of result) x × PairStands self.new x }
        ensures memory { (w : World) → PairStands self.old w → OnErr result (TakesMemory w (meaning.Take (side_meaning side) stream)) }
    {
        let alloc = self.alloc;
        match side {
            Side::A => take_at(alloc, &mut self.a, stream),
            Side::B => take_at(alloc, &mut self.b, stream),
        }
    }

    /// An endpoint's user closes the association gracefully.
    pub(crate) fn shutdown(&mut self, side: Side) -> Outcome
        ensures { (w : World) → PairStands self.old w
            → (x : World) × Step w (meaning.Shutdown (side_meaning side)) (Some (outcome_meaning result)) x × PairStands self.new x }
    {
        match side {
            Side::A => shut_down(&mut self.a),
            Side::B => shut_down(&mut self.b),
        }
    }

    /// An endpoint's user aborts the association.
    ///
    /// # Errors
    /// An allocation failed; nothing has changed.
    pub(crate) fn abort(&mut self, side: Side, reason: &[u8]) -> Result<Outcome, NoMemory>
        ensures { (w : World) → PairStands self.old w
            → (x : World) × Step w (meaning.Abort (side_meaning side) reason.now) (answer_of result) x × PairStands self.new x }
    {
        match side {
            Side::A => abort_at(&mut self.a, reason),
            Side::B => abort_at(&mut self.b, reason),
        }
    }
}
