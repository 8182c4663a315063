//! One side of a pair: an endpoint, its bag and the log of its user's messages; the events at it.

ghost use Rattle.std.specs.Prelude.{◌≡◌, ◌<◌, ◌+◌, ◌++◌, ◌∷◌, [], List, length, vec_capacity, Some, Option, IfOk, OnErr};
ghost use Rattle.sctp_model.specs.wire.Packet.{Packet};
ghost use Rattle.sctp_model.specs.end.EndView.{EndView};
ghost use Rattle.sctp_model.specs.world.World as world;
ghost use Rattle.sctp_model.specs.world.World.{World, no_log, clock_of};
ghost use Rattle.sctp_model.specs.world.Events as meaning;
ghost use Rattle.sctp_model.specs.world.Steps.{Step};
ghost use Rattle.sctp_outcomes.specs.Kept.{HasNoLogs};
ghost use Rattle.sctp_endpoint.specs.EndpointStands.{EndpointStands};
ghost use Rattle.sctp_events.specs.Events.{refusal_meaning, outcome_meaning, answer_of};
ghost use Rattle.sctp_pair.specs.Memory.{TakesMemory};
ghost use Rattle.sctp_pair.specs.Sides.{SideView, side_of, with_side, SideStands, Carries, ArePackets};

use crate::taken::{StreamLog, fresh_logs, make_room_at, note_at, wipe};
use sctp_endpoint::{Endpoint, Sent, written_packet_reads};
use sctp_events::{Outcome, Refusal};
use sctp_terms::AbortFault;
use sctp_values::{NoMemory, Ticket};
use std::alloc::Global;
use std::mem::replace;

/// An endpoint with its bag and its logs.
#[derive(Drop)]
pub(crate) struct OneSide {
    pub(crate) end: Endpoint,
    /// Every packet that the endpoint has given to the network, oldest first.
    pub(crate) bag: Vec<Vec<u8>>,
    /// The tickets of the messages that were given TSNs with each packet, by their first TSN.
    pub(crate) numbered: Vec<Vec<Ticket>>,
    /// The tickets of the abandoned messages, in the order in which they were abandoned.
    pub(crate) abandoned: Vec<Ticket>,
    /// What its user has taken from each stream: a log for each stream that the peer may send on.
    pub(crate) taken: Vec<StreamLog>,
}

#[tactic(auto, unfolding(crate::specs::Sides::SideStands))]
impl OneSide {
    /// A side with an empty bag and empty logs.
    ///
    /// # Errors
    /// An allocation failed.
    pub(crate) fn new(alloc: Global, end: Endpoint) -> Result<OneSide, NoMemory>
        ensures { (v : EndView) → EndpointStands end v → HasNoLogs v → IfOk result (λ side. SideStands side (record { end = v; bag = []; log = no_log })) }
    {
        let inbound = end.config().inbound();
        match fresh_logs(alloc, inbound) {
            Ok(taken) => Ok(OneSide {
                end,
                bag: Vec::new(alloc),
                numbered: Vec::new(alloc),
                abandoned: Vec::new(alloc),
                taken,
            }),
            // Each place that drops an endpoint is proved: it is dropped here by name, and at no `?`.
            Err(refused) => {
                drop(end);
                Err(refused)
            }
        }
    }

    /// Replaces the endpoint by another one with empty logs. The bag and the log of abandoned messages stay.
    pub(crate) fn put_in(&mut self, alloc: Global, end: Endpoint)
        ensures { (v : SideView) (t : EndView) → SideStands self.old v → EndpointStands end t → HasNoLogs t → SideStands self.new (record v { end = t }) }
    {
        drop(replace(&mut self.end, end));
        drop(replace(&mut self.numbered, Vec::new(alloc)));
        wipe(alloc, &mut self.taken);
    }
}

/// Adds a packet to a bag, in which space is reserved. The copy in the bag takes no more memory than its bytes; an endpoint reserves that of
/// the largest packet with the second chunk.
pub(crate) fn put_packet(bag: &mut Vec<Vec<u8>>, packet: Vec<u8>)
    requires { length bag.old.items < vec_capacity bag.old }
    ensures packets { (ps : List Packet) (p : Packet) → ArePackets bag.old.items ps → Carries packet.items p → ArePackets bag.new.items (ps ++ p ∷ []) }
    ensures number { length bag.new.items ≡ length bag.old.items + 1 }
{
    let mut packet = packet;
    packet.shrink_to_fit();
    bag.push_reserved(packet);
}

/// Asks the endpoint for its next packet, which is added to its bag; the tickets that are given TSNs are logged. Space for both is reserved
/// first.
///
/// # Errors
/// An allocation failed; nothing has changed.
#[tactic(auto, unfolding(crate::specs::Sides::SideStands))]
pub(crate) fn build_at(side: &mut OneSide, clock: u64) -> Result<Outcome, NoMemory>
    ensures { (w : World) (s : world.Side) → SideStands side.old (side_of w s) → clock_of w s ≡ clock
        → (h : SideView) × Step w (meaning.Build s) (answer_of result) (with_side w s h) × SideStands side.new h }
{
    // law: a packet that was written reads back
    written_packet_reads();
    // law: the endpoint is sound
    side.end.sound();
    side.bag.reserve(1).map_err(|_| NoMemory)?;
    side.numbered.reserve(1).map_err(|_| NoMemory)?;
    match side.end.poll_transmit(clock)? {
        None => Ok(Outcome::Quiet),
        Some(sent) => {
            let Sent { packet, tickets } = sent;
            let length = packet.len();
            put_packet(&mut side.bag, packet);
            side.numbered.push_reserved(tickets);
            Ok(Outcome::Sent {
                number: side.bag.len(),
                length,
            })
        }
    }
}

/// The outcome of a refused call.
pub(crate) fn refused(refusal: Refusal) -> Result<Outcome, NoMemory>
    ensures { answer_of result ≡ Some (refusal_meaning refusal) }
{
    Ok(Outcome::Refused { refusal })
}

/// The endpoint's user takes the next message of a stream, which is logged. If a message waits, space for the log is reserved first.
///
/// # Errors
/// An allocation failed; nothing has changed.
#[tactic(auto, unfolding(crate::specs::Sides::SideStands))]
pub(crate) fn take_at(alloc: Global, side: &mut OneSide, stream: u16) -> Result<Outcome, NoMemory>
    ensures step { (w : World) (s : world.Side) → SideStands side.old (side_of w s)
        → (h : SideView) × Step w (meaning.Take s stream) (answer_of result) (with_side w s h) × SideStands side.new h }
    ensures memory { (w : World) (s : world.Side) → SideStands side.old (side_of w s) → OnErr result (TakesMemory w (meaning.Take s stream)) }
{
    // law: the endpoint is sound
    side.end.sound();
    let Some(_) = side.end.waiting(stream, 0) else {
        // By the clause of `limit` its options are plain, so that to take nothing changes nothing.
        let _limit = side.end.config().limit();
        return Ok(Outcome::Empty);
    };
    make_room_at(alloc, &mut side.taken, stream)?;
    match side.end.take(stream) {
        None => Ok(Outcome::Empty),
        Some(message) => {
            note_at(&mut side.taken, stream, &message);
            Ok(Outcome::Message { message })
        }
    }
}

/// The endpoint's user closes the association gracefully.
#[tactic(auto, unfolding(crate::specs::Sides::SideStands))]
pub(crate) fn shut_down(side: &mut OneSide) -> Outcome
    ensures { (w : World) (s : world.Side) → SideStands side.old (side_of w s)
        → (h : SideView) × Step w (meaning.Shutdown s) (Some (outcome_meaning result)) (with_side w s h) × SideStands side.new h }
{
    // law: the endpoint is sound
    side.end.sound();
    match side.end.shutdown() {
        Ok(()) => Outcome::Done,
        Err(_) => Outcome::Refused {
            refusal: Refusal::State,
        },
    }
}

/// The endpoint's user aborts the association; the ABORT is added to the bag, in which space is reserved first.
///
/// # Errors
/// An allocation failed; nothing has changed.
#[tactic(auto, unfolding(crate::specs::Sides::SideStands))]
pub(crate) fn abort_at(side: &mut OneSide, reason: &[u8]) -> Result<Outcome, NoMemory>
    ensures { (w : World) (s : world.Side) → SideStands side.old (side_of w s)
        → (h : SideView) × Step w (meaning.Abort s reason.now) (answer_of result) (with_side w s h) × SideStands side.new h }
{
    // law: a packet that was written reads back
    written_packet_reads();
    // law: the endpoint is sound
    side.end.sound();
    side.bag.reserve(1).map_err(|_| NoMemory)?;
    match side.end.abort(reason) {
        Ok(packet) => {
            let length = packet.len();
            put_packet(&mut side.bag, packet);
            Ok(Outcome::Answer {
                number: side.bag.len(),
                length,
            })
        }
        Err(AbortFault::State) => refused(Refusal::State),
        Err(AbortFault::TooLong) => refused(Refusal::ReasonTooLong),
        Err(AbortFault::NoMemory) => Err(NoMemory),
    }
}
