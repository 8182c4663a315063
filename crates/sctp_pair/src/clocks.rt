//! Time: each endpoint has a clock of its own, and is notified of that clock alone.

ghost use Rattle.std.specs.Prelude.{◌≡◌, Some, OnErr};
ghost use Rattle.sctp_model.specs.world.World.{World};
ghost use Rattle.sctp_model.specs.world.Events as meaning;
ghost use Rattle.sctp_model.specs.world.Steps.{Step};
ghost use Rattle.sctp_events.specs.Events.{side_meaning, outcome_meaning, answer_of};
ghost use Rattle.sctp_pair.specs.Memory.{TakesMemory};
ghost use Rattle.sctp_pair.specs.PairStands.{PairStands};

use crate::moments::{make_room, notify_at, tick};
use crate::pair::Pair;
use sctp_events::{Outcome, Side};
use sctp_values::NoMemory;

#[tactic(auto, unfolding(crate::specs::PairStands::PairStands))]
impl Pair {
    /// Advances the clock of an endpoint, which isn't notified. A time before the clock leaves it.
    pub(crate) fn go_on(&mut self, side: Side, moment: u64) -> Outcome
        ensures { (w : World) → PairStands self.old w
            → (x : World) × Step w (meaning.Later (side_meaning side) moment) (Some (outcome_meaning result)) x × PairStands self.new x }
    {
        match side {
            Side::A => {
                self.clock_a = self.clock_a.max(moment);
                Outcome::Done
            }
            Side::B => {
                self.clock_b = self.clock_b.max(moment);
                Outcome::Done
            }
        }
    }

    /// Notifies an endpoint of the time of its clock; the messages that it abandons then are logged, for which space is reserved first.
    ///
    /// # Errors
    /// An allocation failed; nothing has changed.
    pub(crate) fn notify(&mut self, side: Side) -> Result<Outcome, NoMemory>
        ensures step { (w : World) → PairStands self.old w
            → (x : World) × Step w (meaning.Moment (side_meaning side)) (answer_of result) x × PairStands self.new x }
        ensures memory { (w : World) → PairStands self.old w → OnErr result (TakesMemory w (meaning.Moment (side_meaning side))) }
    {
        match side {
            Side::A => notify_at(self.alloc, &mut self.a, self.clock_a),
            Side::B => notify_at(self.alloc, &mut self.b, self.clock_b),
        }
    }

    /// Advances both clocks and notifies both endpoints, each of its own clock; the messages that they abandon then are logged. A time before a
    /// clock counts as that clock's. Space for both logs is reserved before either endpoint is notified.
    ///
    /// # Errors
    /// An allocation failed; nothing has changed.
    pub(crate) fn pass_time(&mut self, moment: u64) -> Result<Outcome, NoMemory>
        ensures step { (w : World) → PairStands self.old w
            → (x : World) × Step w (meaning.At moment) (answer_of result) x × PairStands self.new x }
        ensures memory { (w : World) → PairStands self.old w → OnErr result (TakesMemory w (meaning.At moment)) }
    {
        let at_a = self.clock_a.max(moment);
        let at_b = self.clock_b.max(moment);
        let of_a = make_room(self.alloc, &mut self.a, at_a)?;
        let of_b = make_room(self.alloc, &mut self.b, at_b)?;
        self.clock_a = at_a;
        self.clock_b = at_b;
        tick(&mut self.a, &of_a, at_a);
        tick(&mut self.b, &of_b, at_b);
        Ok(Outcome::Done)
    }
}
