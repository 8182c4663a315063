//! An endpoint hears a packet, and the log of the messages that it abandons at the packet's end.

ghost use Rattle.std.specs.Prelude.{◌≡◌, ℕ, ◌+◌, ◌≤◌, ◌<◌, ◌++◌, false, Option, None, length, map, filter, vec_capacity, IfOk};
ghost use Rattle.sctp_model.specs.wire.Packet.{Packet};
ghost use Rattle.sctp_model.specs.sender.Readers.{abandoned};
ghost use Rattle.sctp_model.specs.end.EndView.{EndView};
ghost use Rattle.sctp_model.specs.end.Clock.{at_moment};
ghost use Rattle.sctp_endpoint.specs.EndpointStands.{EndpointStands};
ghost use Rattle.sctp_endpoint.specs.Handled.{Handled, IsRead};
ghost use Rattle.sctp_script.specs.ReportText.{ticket_number};
ghost use Rattle.sctp_pair.specs.Noted.{tickets_at_limit, tickets_to_watch};
ghost use Rattle.sctp_pair.specs.Sides.{SideView, SideStands};

use crate::moments::note;
use crate::one_side::OneSide;
use sctp_endpoint::{Endpoint, Verdict};
use sctp_terms::Draw;
use sctp_values::{NoMemory, Ticket};
use std::alloc::Global;

/// Reserves space in the bag for an answer, and in the log for what a packet abandons. Returns the tickets of the messages that it may abandon.
///
/// # Errors
/// An allocation failed; nothing has changed.
#[tactic(auto, unfolding(crate::specs::Sides::SideStands))]
pub(crate) fn make_ready(alloc: Global, side: &mut OneSide) -> Result<Vec<Ticket>, NoMemory>
    ensures same { (v : SideView) → SideStands side.old v → SideStands side.new v }
    ensures listed { (v : SideView) → SideStands side.old v → IfOk result (λ before. map ticket_number before.items ≡ tickets_to_watch v.end) }
    ensures log { IfOk result (λ before. length side.new.abandoned.items + length before.items ≤ vec_capacity side.new.abandoned) }
    ensures bag { IfOk result (λ before. length side.new.bag.items < vec_capacity side.new.bag) }
{
    let before = to_watch(alloc, &side.end)?;
    side.abandoned.reserve(before.len()).map_err(|_| NoMemory)?;
    side.bag.reserve(1).map_err(|_| NoMemory)?;
    Ok(before)
}

/// The tickets of the messages that a packet may abandon, rising: with fast retransmit those at their limit of retransmissions, else none.
///
/// # Errors
/// An allocation failed.
fn to_watch(alloc: Global, end: &Endpoint) -> Result<Vec<Ticket>, NoMemory>
    ensures { (v : EndView) → EndpointStands end.now v → IfOk result (λ tickets. map ticket_number tickets.items ≡ tickets_to_watch v) }
{
    if !end.config().fast_retransmit() {
        return Ok(Vec::new(alloc));
    }
    at_limit(alloc, end)
}

/// The tickets of the messages at their limit of retransmissions, rising.
///
/// # Errors
/// An allocation failed.
fn at_limit(alloc: Global, end: &Endpoint) -> Result<Vec<Ticket>, NoMemory>
    ensures { (v : EndView) → EndpointStands end.now v → IfOk result (λ tickets. map ticket_number tickets.items ≡ tickets_at_limit v) }
{
    let mut tickets = Vec::new(alloc);
    let mut last = Ticket(0);
    for _ in 0..end.tickets() {
        match end.next_at_limit(last) {
            Some(ticket) => {
                tickets.push(ticket).map_err(|_| NoMemory)?;
                last = ticket;
            }
            None => return Ok(tickets),
        }
    }
    Ok(tickets)
}

/// Bytes arrive at an endpoint; of these tickets those of messages that are abandoned after it are logged, for which space is reserved.
///
/// # Errors
/// An allocation failed: the chunks before the failing one have taken effect.
pub(crate) fn hear(
    end: &mut Endpoint,
    log: &mut Vec<Ticket>,
    before: &[Ticket],
    clock: u64,
    bytes: &[u8],
    draw: Draw,
) -> Result<Verdict, NoMemory>
    requires { length log.old.items + length before.now ≤ vec_capacity log.old }
    ensures step { (v : EndView) (p : Option Packet) → EndpointStands end.old v → IsRead bytes.now p → Handled v clock draw p result end.new }
    ensures noted { (t : EndView) → EndpointStands end.new t
        → map ticket_number log.new.items ≡ map ticket_number log.old.items ++ filter (λ k. abandoned t.sender k) (map ticket_number before.now) }
    ensures unpaced { (t : EndView) → EndpointStands end.new t → t.configuration.fast_retransmit ≡ false → t.pace ≡ None }
{
    let heard = end.handle_packet(clock, bytes, draw);
    // law: without fast retransmit it has no pace
    end.reached();
    note(end, log, before);
    heard
}

/// Advances an endpoint's clock and nothing else: by bytes that are no packet, which allocates nothing.
pub(crate) fn pass_time(end: &mut Endpoint, clock: u64, draw: Draw)
    ensures { (v : EndView) → EndpointStands end.old v → EndpointStands end.new (at_moment v clock) }
{
    let _dropped = end.handle_packet(clock, &[], draw);
}
