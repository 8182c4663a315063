//! Two endpoints and the packets between them.

ghost use Rattle.std.specs.Prelude.{◌≡◌, None, MatchOption, IfOk, OnErr};
ghost use Rattle.sctp_model.specs.numbers.Lists.{item_at};
ghost use Rattle.sctp_model.specs.end.Sealing.{Sealing};
ghost use Rattle.sctp_model.specs.world.World.{World, start, end_of, bag_of, clock_of};
ghost use Rattle.sctp_model.specs.world.Events as meaning;
ghost use Rattle.sctp_model.specs.world.Steps.{Step, last_of};
ghost use Rattle.sctp_cookie.specs.Seals.{IsUnder};
ghost use Rattle.sctp_endpoint.specs.EndpointStands.{EndpointStands};
ghost use Rattle.sctp_script.specs.ReportText.{report};
ghost use Rattle.sctp_events.specs.Setups.{setup_of, setup_of_two};
ghost use Rattle.sctp_events.specs.Events.{side_meaning, answer_of};
ghost use Rattle.sctp_pair.specs.Happens.{Means};
ghost use Rattle.sctp_pair.specs.Memory.{TakesMemory};
ghost use Rattle.sctp_pair.specs.Sides.{IsItem};
ghost use Rattle.sctp_pair.specs.PairKey as specs;
ghost use Rattle.sctp_pair.specs.PairStands.{PairStands};
ghost use Rattle.sctp_pair.specs.PairRuns.{Course, one_event, RunLeaves, Promised};

use crate::arrivals::packet_at;
use crate::one_side::OneSide;
use crate::reporting::put_side;
use sctp_cookie::Key;
use sctp_endpoint::Endpoint;
use sctp_events::{Event, Outcome, PairConfig, Side, TwoConfigs};
use sctp_outcomes::{new_ends_have_no_logs, users_take_what_was_sent};
use sctp_safety::{a_run_passes_its_worlds, each_world_on_the_way_is_safe};
use sctp_terms::Draw;
use sctp_values::NoMemory;
use std::alloc::Global;

/// The listener's key, unless another is given: the bytes 0 to 31.
const PAIR_KEY: [u8; 32] = [
    0, 1, 2, 3, 4, 5, 6, 7, 8, 9, 10, 11, 12, 13, 14, 15, 16, 17, 18, 19, 20, 21, 22, 23, 24, 25,
    26, 27, 28, 29, 30, 31,
];

/// Two endpoints, the packets that either has given to the network, the logs of their users' messages, a clock for each, the random values for
/// INITs that arrive, and whether both may still be opened without packets: A hasn't called and nothing has arrived.
#[derive(Drop)]
pub struct Pair {
    pub(crate) alloc: Global,
    pub(crate) a: OneSide,
    pub(crate) b: OneSide,
    pub(crate) clock_a: u64,
    pub(crate) clock_b: u64,
    pub(crate) draw: Draw,
    pub(crate) openable: bool,
}

impl Pair {
    /// A new pair, as scripts have it: A may call, and B listens. B seals its cookies with the key of bytes 0 to 31.
    ///
    /// # Errors
    /// An allocation failed.
    pub fn new(alloc: Global, config: PairConfig) -> Result<Pair, NoMemory>
        ensures { (s : Sealing) → IsUnder specs.PAIR_KEY s → IfOk result (λ pair. PairStands pair (start (setup_of config s))) }
    {
        Pair::with_key(alloc, config, Key::new(PAIR_KEY))
    }

    /// A new pair whose listener B seals its cookies with this key.
    ///
    /// # Errors
    /// An allocation failed.
    pub fn with_key(alloc: Global, config: PairConfig, key: Key) -> Result<Pair, NoMemory>
        ensures { (s : Sealing) → IsUnder key s → IfOk result (λ pair. PairStands pair (start (setup_of config s))) }
    {
        Pair::of_two_with_key(alloc, TwoConfigs::alike(config), key)
    }

    /// A new pair whose endpoints have configurations of their own. B seals its cookies with the key of bytes 0 to 31.
    ///
    /// # Errors
    /// An allocation failed.
    pub fn of_two(alloc: Global, configs: TwoConfigs) -> Result<Pair, NoMemory>
        ensures { (s : Sealing) → IsUnder specs.PAIR_KEY s → IfOk result (λ pair. PairStands pair (start (setup_of_two configs s))) }
    {
        Pair::of_two_with_key(alloc, configs, Key::new(PAIR_KEY))
    }

    /// A new pair whose endpoints have configurations of their own, and whose listener B seals its cookies with this key.
    ///
    /// # Errors
    /// An allocation failed.
    #[tactic(auto, unfolding(crate::specs::PairStands::PairStands, crate::specs::Sides::SideStands))]
    pub fn of_two_with_key(alloc: Global, configs: TwoConfigs, key: Key) -> Result<Pair, NoMemory>
        ensures { (s : Sealing) → IsUnder key s → IfOk result (λ pair. PairStands pair (start (setup_of_two configs s))) }
    {
        // law: the logs of a new endpoint are empty
        new_ends_have_no_logs();
        let Some(draw) = Draw::new(1, 1) else {
            unreachable!()
        };
        let a = OneSide::new(alloc, Endpoint::caller(alloc, configs.caller()))?;
        match OneSide::new(alloc, Endpoint::listener(alloc, configs.listener(), key)) {
            Ok(b) => Ok(Pair {
                alloc,
                a,
                b,
                clock_a: 0,
                clock_b: 0,
                draw,
                openable: true,
            }),
            // A side is dropped by name, and at no `?`, as an endpoint is.
            Err(refused) => {
                drop(a);
                Err(refused)
            }
        }
    }

    /// Makes the step of an event and returns its outcome. Whatever the events are, each stream delivers what the peer sent on it in both
    /// directions: whole, at most once, ordered messages in their order; and once an endpoint has completed its association, no message
    /// that was given a TSN is missing.
    ///
    /// This is promised of every world on the way under three premises. No third party's packet carries a tag that an endpoint generates in
    /// the run, has an INIT that proposes one, or has a COOKIE ECHO with a cookie that the listener's key seals; that the contract's premises
    /// say this is the law [`premises_are_the_keys`](crate::premises_are_the_keys). And a packet is delivered only before either endpoint has
    /// assigned 2^31 - 65,536 more TSNs than when it was built (RFC 9260, 2.6). A run with fewer TSNs meets this premise by itself, by
    /// `sctp_safety::a_short_run_is_aged`; if each endpoint assigns fewer than 2^31 it isn't needed (`a_run_of_half_the_tsns_is_safe`).
    ///
    /// # Errors
    /// An allocation failed, which is possible only for an event that allocates. Of an arriving packet the chunks before the failing one have
    /// taken effect; any other event has changed nothing.
    pub fn step(&mut self, event: &Event) -> Result<Outcome, NoMemory>
        ensures step { (w : World) → PairStands self.old w
            → (e : meaning.Event) × (x : World) × Means event.now e × Step w e (answer_of result) x
            × Promised w (one_event e (answer_of result) x) × PairStands self.new x }
        ensures memory { (w : World) (e : meaning.Event) → PairStands self.old w → Means event.now e → OnErr result (TakesMemory w e) }
    {
        // laws: the theorems that the promise cites
        a_run_passes_its_worlds();
        each_world_on_the_way_is_safe();
        users_take_what_was_sent();
        match event {
            Event::Open { a, b } => self.open(*a, *b),
            Event::Later { side, moment } => Ok(self.go_on(*side, *moment)),
            Event::Moment { side } => self.notify(*side),
            Event::At { moment } => self.pass_time(*moment),
            Event::Drawing { draw } => Ok(self.set_draw(*draw)),
            Event::Connect { draw } => Ok(self.connect(*draw)),
            Event::Build { side } => self.build(*side),
            Event::Deliver { side, number } => self.deliver(*side, *number),
            Event::Foreign { side, bytes } => self.foreign(*side, bytes),
            Event::Send {
                side,
                stream,
                ordered,
                payload_id,
                bytes,
                until,
            } => self.send(*side, *stream, *ordered, *payload_id, bytes, *until, None),
            Event::SendWithMaxRetransmits {
                side,
                stream,
                ordered,
                payload_id,
                bytes,
                until,
                max_retransmits,
            } => {
                let limit = Some(*max_retransmits);
                self.send(*side, *stream, *ordered, *payload_id, bytes, *until, limit)
            }
            Event::Abandon { side, ticket } => self.abandon(*side, *ticket),
            Event::Take { side, stream } => self.take(*side, *stream),
            Event::Reset { side, stream } => self.reset(*side, *stream),
            Event::WasReset { side } => Ok(self.was_reset(*side)),
            Event::Shutdown { side } => Ok(self.shutdown(*side)),
            Event::Abort { side, reason } => self.abort(*side, reason),
        }
    }

    /// Makes the steps of several events and returns their outcomes. What `step` promises is promised of each world on the way, under the same
    /// premises over all of the events; [`premises_are_the_keys`](crate::premises_are_the_keys) states them in the words of the
    /// listener's key.
    ///
    /// # Errors
    /// An allocation failed at some event, as in `step`; those before it have taken effect. Or before the first event, when space for the
    /// outcomes is reserved.
    pub fn run(&mut self, events: &[Event]) -> Result<Vec<Outcome>, NoMemory>
        ensures { (w : World) → PairStands self.old w
            → (c : Course) × RunLeaves w events.now result c × Promised w c × PairStands self.new (last_of w c.worlds) }
    {
        // laws: the theorems that the promise cites
        a_run_passes_its_worlds();
        each_world_on_the_way_is_safe();
        users_take_what_was_sent();
        let mut outcomes = Vec::with_capacity(self.alloc, events.len()).map_err(|_| NoMemory)?;
        for event in events {
            let outcome = self.step(event)?;
            outcomes.push_reserved(outcome);
        }
        Ok(outcomes)
    }

    /// The report of what became of both users' messages. For A and then for B: the state; the tickets of the messages that were given TSNs, by
    /// their first TSN; of those abandoned, in the order in which they were; and for each stream what was delivered, taken or not: the numbers
    /// of the ordered messages, in order, and how many unordered ones. Empty lines are left out.
    ///
    /// # Errors
    /// An allocation failed.
    #[tactic(auto, unfolding(crate::specs::PairStands::PairStands))]
    pub fn report(&self) -> Result<Vec<u8>, NoMemory>
        ensures { (w : World) → PairStands self.now w → IfOk result (λ text. text.items ≡ report w) }
    {
        let mut text = Vec::new(self.alloc);
        put_side(self.alloc, Side::A, &self.a, &mut text)?;
        put_side(self.alloc, Side::B, &self.b, &mut text)?;
        Ok(text)
    }

    /// An endpoint of the pair.
    #[tactic(auto, unfolding(crate::specs::PairStands::PairStands, crate::specs::Sides::SideStands))]
    pub fn end(&self, side: Side) -> &Endpoint
        ensures { (w : World) → PairStands self.now w → EndpointStands result.now (end_of w (side_meaning side)) }
    {
        match side {
            Side::A => &self.a.end,
            Side::B => &self.b.end,
        }
    }

    /// A packet that an endpoint has given to the network, counted from 1. None if there is none with that number.
    #[tactic(auto, unfolding(crate::specs::PairStands::PairStands, crate::specs::Sides::SideStands))]
    pub fn packet(&self, side: Side, number: u32) -> Option<&[u8]>
        ensures { (w : World) → PairStands self.now w
            → MatchOption result (item_at (bag_of w (side_meaning side)) number ≡ None) (λ bytes. IsItem (bag_of w (side_meaning side)) number bytes.now) }
    {
        match side {
            Side::A => packet_at(&self.a.bag, number),
            Side::B => packet_at(&self.b.bag, number),
        }
    }

    /// The clock of an endpoint, in milliseconds.
    #[tactic(auto, unfolding(crate::specs::PairStands::PairStands))]
    pub fn clock(&self, side: Side) -> u64
        ensures { (w : World) → PairStands self.now w → result ≡ clock_of w (side_meaning side) }
    {
        match side {
            Side::A => self.clock_a,
            Side::B => self.clock_b,
        }
    }
}
