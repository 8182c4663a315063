//! Resets of streams, which a user asks for and which are reported to it (RFC 6525).

ghost use Rattle.std.specs.Prelude.{Some, OnErr};
ghost use Rattle.sctp_model.specs.world.World as world;
ghost use Rattle.sctp_model.specs.world.World.{World};
ghost use Rattle.sctp_model.specs.world.Events as meaning;
ghost use Rattle.sctp_model.specs.world.Steps.{Step};
ghost use Rattle.sctp_events.specs.Events.{side_meaning, outcome_meaning, answer_of};
ghost use Rattle.sctp_pair.specs.Memory.{TakesMemory};
ghost use Rattle.sctp_pair.specs.PairStands.{PairStands};
ghost use Rattle.sctp_pair.specs.Sides.{SideView, side_of, with_side, SideStands};

use crate::one_side::{OneSide, refused};
use crate::pair::Pair;
use sctp_endpoint::ResetFault;
use sctp_events::{Outcome, Refusal, Side};
use sctp_values::NoMemory;

#[tactic(auto, unfolding(crate::specs::PairStands::PairStands))]
impl Pair {
    /// An endpoint's user asks for the reset of an outgoing stream.
    ///
    /// # Errors
    /// An allocation failed; nothing has changed.
    pub(crate) fn reset(&mut self, side: Side, stream: u16) -> Result<Outcome, NoMemory>
        ensures step { (w : World) → PairStands self.old w
            → (x : World) × Step w (meaning.Reset (side_meaning side) stream) (answer_of result) x × PairStands self.new x }
        ensures memory { (w : World) → PairStands self.old w → OnErr result (TakesMemory w (meaning.Reset (side_meaning side) stream)) }
    {
        match side {
            Side::A => reset_at(&mut self.a, stream),
            Side::B => reset_at(&mut self.b, stream),
        }
    }

    /// An endpoint's user asks which stream the peer has reset.
    pub(crate) fn was_reset(&mut self, side: Side) -> Outcome
        ensures { (w : World) → PairStands self.old w
            → (x : World) × Step w (meaning.WasReset (side_meaning side)) (Some (outcome_meaning result)) x × PairStands self.new x }
    {
        match side {
            Side::A => was_reset_at(&mut self.a),
            Side::B => was_reset_at(&mut self.b),
        }
    }
}

/// The endpoint's user asks for the reset of an outgoing stream.
///
/// # Errors
/// An allocation failed; nothing has changed.
#[tactic(auto, unfolding(crate::specs::Sides::SideStands))]
fn reset_at(side: &mut OneSide, stream: u16) -> Result<Outcome, NoMemory>
    ensures step { (w : World) (s : world.Side) → SideStands side.old (side_of w s)
        → (h : SideView) × Step w (meaning.Reset s stream) (answer_of result) (with_side w s h) × SideStands side.new h }
    ensures memory { (w : World) (s : world.Side) → SideStands side.old (side_of w s) → OnErr result (TakesMemory w (meaning.Reset s stream)) }
{
    // law: the endpoint is sound
    side.end.sound();
    match side.end.reset(stream) {
        Ok(()) => Ok(Outcome::Done),
        Err(ResetFault::State) => refused(Refusal::State),
        Err(ResetFault::NoSuchStream) => refused(Refusal::NoSuchReset),
        Err(ResetFault::NoMemory) => Err(NoMemory),
    }
}

/// The endpoint's user asks which stream the peer has reset: the lowest that wasn't reported.
#[tactic(auto, unfolding(crate::specs::Sides::SideStands))]
fn was_reset_at(side: &mut OneSide) -> Outcome
    ensures { (w : World) (s : world.Side) → SideStands side.old (side_of w s)
        → (h : SideView) × Step w (meaning.WasReset s) (Some (outcome_meaning result)) (with_side w s h) × SideStands side.new h }
{
    // law: the endpoint is sound
    side.end.sound();
    match side.end.take_reset() {
        Some(reset) => Outcome::ResetThere {
            stream: reset.stream,
            count: reset.count,
        },
        None => Outcome::NoReset,
    }
}
