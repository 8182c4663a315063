//! The step of each kind of event.

ghost use Rattle.std.specs.Prelude.{◌≡◌, ◌&&◌, Option, Some, OnErr};
ghost use Rattle.sctp_model.specs.wire.Packet.{Packet};
ghost use Rattle.sctp_model.specs.world.World.{World, are_alike};
ghost use Rattle.sctp_model.specs.world.Events as meaning;
ghost use Rattle.sctp_model.specs.world.Steps.{Step};
ghost use Rattle.sctp_endpoint.specs.Handled.{IsRead};
ghost use Rattle.sctp_events.specs.Events.{side_meaning, outcome_meaning, answer_of};
ghost use Rattle.sctp_pair.specs.Memory.{TakesMemory};
ghost use Rattle.sctp_pair.specs.PairStands.{PairStands};

use crate::alike::are_alike;
use crate::arrivals::{arrive, packet_at};
use crate::one_side::{build_at, refused};
use crate::pair::Pair;
use sctp_endpoint::{Endpoint, one_packet};
use sctp_events::{Outcome, Refusal, Side};
use sctp_outcomes::new_ends_have_no_logs;
use sctp_terms::Draw;
use sctp_values::NoMemory;

#[tactic(auto, unfolding(crate::specs::PairStands::PairStands))]
impl Pair {
    /// Opens both endpoints without a packet, unless A has called or something has arrived at one of them, or they wouldn't agree. Both are made
    /// before either is replaced.
    ///
    /// # Errors
    /// An allocation failed; nothing has changed.
    pub(crate) fn open(&mut self, a: Draw, b: Draw) -> Result<Outcome, NoMemory>
        ensures step { (w : World) → PairStands self.old w
            → (x : World) × Step w (meaning.OpenBoth a b) (answer_of result) x × PairStands self.new x }
        ensures memory { (w : World) → PairStands self.old w → OnErr result (TakesMemory w (meaning.OpenBoth a b)) }
    {
        // law: the logs of an endpoint that is opened are empty
        new_ends_have_no_logs();
        if !self.may_open() {
            return refused(Refusal::State);
        }
        let _tags = (a.tag(), b.tag());
        let at_a = Endpoint::opened(self.alloc, *self.a.end.config(), a, b)?;
        match Endpoint::opened(self.alloc, *self.b.end.config(), b, a) {
            Ok(at_b) => self.b.put_in(self.alloc, at_b),
            Err(refusal) => {
                drop(at_a);
                return Err(refusal);
            }
        }
        self.a.put_in(self.alloc, at_a);
        self.openable = false;
        Ok(Outcome::Done)
    }

    /// Whether both endpoints may be opened without packets: A hasn't called, nothing has arrived, and they would agree.
    fn may_open(&self) -> bool
        ensures { (w : World) → PairStands self.now w → result ≡ (w.openable && are_alike w.a.configuration w.b.configuration) }
    {
        self.openable && are_alike(self.a.end.config(), self.b.end.config())
    }

    /// Sets the random values (tag and initial TSN) for INITs that arrive from now on.
    pub(crate) fn set_draw(&mut self, draw: Draw) -> Outcome
        ensures { (w : World) → PairStands self.old w
            → (x : World) × Step w (meaning.Drawing draw) (Some (outcome_meaning result)) x × PairStands self.new x }
    {
        let _tag = draw.tag();
        self.draw = draw;
        Outcome::Done
    }

    /// A calls B.
    pub(crate) fn connect(&mut self, draw: Draw) -> Outcome
        ensures { (w : World) → PairStands self.old w
            → (x : World) × Step w (meaning.Connect draw) (Some (outcome_meaning result)) x × PairStands self.new x }
    {
        // law: the endpoint is sound
        self.a.end.sound();
        let _tag = draw.tag();
        match self.a.end.connect(self.clock_a, draw) {
            Ok(()) => {
                self.openable = false;
                Outcome::Done
            }
            Err(_) => Outcome::Refused {
                refusal: Refusal::State,
            },
        }
    }

    /// Asks an endpoint for its next packet.
    ///
    /// # Errors
    /// An allocation failed; nothing has changed.
    pub(crate) fn build(&mut self, side: Side) -> Result<Outcome, NoMemory>
        ensures { (w : World) → PairStands self.old w
            → (x : World) × Step w (meaning.Build (side_meaning side)) (answer_of result) x × PairStands self.new x }
    {
        match side {
            Side::A => build_at(&mut self.a, self.clock_a),
            Side::B => build_at(&mut self.b, self.clock_b),
        }
    }

    /// Delivers a packet of an endpoint's bag to the other endpoint.
    ///
    /// # Errors
    /// An allocation failed: the chunks before the failing one have taken effect.
    pub(crate) fn deliver(&mut self, side: Side, number: u32) -> Result<Outcome, NoMemory>
        ensures step { (w : World) → PairStands self.old w
            → (x : World) × Step w (meaning.Deliver (side_meaning side) number) (answer_of result) x × PairStands self.new x }
        ensures memory { (w : World) → PairStands self.old w → OnErr result (TakesMemory w (meaning.Deliver (side_meaning side) number)) }
    {
        match side {
            Side::A => {
                let Some(packet) = packet_at(&self.a.bag, number) else {
                    return Ok(Outcome::Absent);
                };
                self.openable = false;
                arrive(self.alloc, &mut self.b, self.clock_b, self.draw, packet)
            }
            Side::B => {
                let Some(packet) = packet_at(&self.b.bag, number) else {
                    return Ok(Outcome::Absent);
                };
                self.openable = false;
                arrive(self.alloc, &mut self.a, self.clock_a, self.draw, packet)
            }
        }
    }

    /// Delivers a third party's bytes to an endpoint.
    ///
    /// # Errors
    /// An allocation failed: the chunks before the failing one have taken effect.
    pub(crate) fn foreign(&mut self, side: Side, bytes: &[u8]) -> Result<Outcome, NoMemory>
        ensures { (w : World) → PairStands self.old w
            → (p : Option Packet) × (x : World) × IsRead bytes.now p
            × Step w (meaning.Foreign (side_meaning side) p) (answer_of result) x × PairStands self.new x }
    {
        // law: bytes read as a packet or have a fault
        one_packet();
        self.openable = false;
        match side {
            Side::A => arrive(self.alloc, &mut self.a, self.clock_a, self.draw, bytes),
            Side::B => arrive(self.alloc, &mut self.b, self.clock_b, self.draw, bytes),
        }
    }
}
