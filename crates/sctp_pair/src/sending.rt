//! A user's message, handed to an endpoint.

ghost use Rattle.sctp_model.specs.end.EndView.{EndView};
ghost use Rattle.sctp_model.specs.world.World as world;
ghost use Rattle.sctp_model.specs.world.World.{World};
ghost use Rattle.sctp_model.specs.world.Events as meaning;
ghost use Rattle.sctp_model.specs.world.Steps.{Step};
ghost use Rattle.sctp_send.specs.SenderAnswers.{lane_for};
ghost use Rattle.sctp_association.specs.CallAnswers.{call_with, SendAnswers, sent_view};
ghost use Rattle.sctp_endpoint.specs.EndpointStands.{EndpointStands};
ghost use Rattle.sctp_events.specs.Events.{answer_of};
ghost use Rattle.sctp_pair.specs.Sides.{SideView, side_of, with_side, SideStands};

use crate::one_side::{OneSide, refused};
use sctp_endpoint::{Endpoint, Refused};
use sctp_events::{Outcome, Refusal};
use sctp_send::SendFault;
use sctp_values::{NoMemory, Ticket};
use std::alloc::Global;

/// The endpoint's user sends a message, with a lifetime and a limit of retransmissions, if it has them; the endpoint gets a copy of its bytes.
///
/// # Errors
/// An allocation failed; nothing has changed.
#[tactic(auto, unfolding(crate::specs::Sides::SideStands))]
pub(crate) fn send_at(
    alloc: Global,
    side: &mut OneSide,
    stream: u16,
    ordered: bool,
    payload_id: u32,
    bytes: &[u8],
    until: Option<u64>,
    limit: Option<u16>,
) -> Result<Outcome, NoMemory>
    ensures { (w : World) (s : world.Side) → SideStands side.old (side_of w s)
        → (h : SideView) × Step w (meaning.Send s (call_with (lane_for stream ordered) payload_id bytes.now until limit)) (answer_of result) (with_side w s h) × SideStands side.new h }
{
    // law: the endpoint is sound
    side.end.sound();
    let copy = Vec::from_slice(alloc, bytes).map_err(|_| NoMemory)?;
    match queue(
        &mut side.end,
        stream,
        ordered,
        payload_id,
        copy,
        until,
        limit,
    ) {
        Ok(ticket) => Ok(Outcome::Ticket { ticket }),
        Err(Refused::NotOpen) => refused(Refusal::NotOpen),
        Err(Refused::Fault(SendFault::NoSuchStream)) => refused(Refusal::NoSuchStream),
        Err(Refused::Fault(SendFault::Resetting)) => refused(Refusal::Resetting),
        Err(Refused::Fault(SendFault::Empty)) => refused(Refusal::Empty),
        Err(Refused::Fault(SendFault::TooLong)) => refused(Refusal::TooLong),
        Err(Refused::Fault(SendFault::QueueFull)) => refused(Refusal::QueueFull),
        Err(Refused::Fault(SendFault::Spent)) => refused(Refusal::Spent),
        Err(Refused::Fault(SendFault::NoMemory)) => Err(NoMemory),
    }
}

/// Queues a message at the endpoint by the call that takes its limit of retransmissions, or by the one without.
///
/// # Errors
/// Why it is refused; nothing changed.
fn queue(
    end: &mut Endpoint,
    stream: u16,
    ordered: bool,
    payload_id: u32,
    bytes: Vec<u8>,
    until: Option<u64>,
    limit: Option<u16>,
) -> Result<Ticket, Refused>
    ensures answer { (v : EndView) → EndpointStands end.old v → SendAnswers v (call_with (lane_for stream ordered) payload_id bytes.items until limit) result }
    ensures step { (v : EndView) → EndpointStands end.old v
        → EndpointStands end.new (sent_view v (call_with (lane_for stream ordered) payload_id bytes.items until limit) result) }
{
    match limit {
        None => end.send(stream, ordered, payload_id, bytes, until),
        Some(max_retransmits) => end.send_with_max_retransmits(
            stream,
            ordered,
            payload_id,
            bytes,
            until,
            max_retransmits,
        ),
    }
}
