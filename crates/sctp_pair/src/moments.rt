//! Time and `abandon` at an endpoint, and the log of the messages that they abandon.

ghost use Rattle.std.specs.Prelude.{◌≡◌, ℕ, ◌+◌, ◌≤◌, ◌++◌, true, length, map, filter, vec_capacity, IfOk, OnErr};
ghost use Rattle.sctp_model.specs.sender.Readers.{abandoned};
ghost use Rattle.sctp_model.specs.end.EndView.{EndView};
ghost use Rattle.sctp_model.specs.world.World as world;
ghost use Rattle.sctp_model.specs.world.World.{World, clock_of};
ghost use Rattle.sctp_model.specs.world.Events as meaning;
ghost use Rattle.sctp_model.specs.world.Steps.{Step};
ghost use Rattle.sctp_endpoint.specs.EndpointStands.{EndpointStands};
ghost use Rattle.sctp_events.specs.Events.{answer_of};
ghost use Rattle.sctp_script.specs.ReportText.{ticket_number};
ghost use Rattle.sctp_pair.specs.Memory.{TakesMemory};
ghost use Rattle.sctp_pair.specs.Noted.{tickets_to_give_up, has_to_give_up};
ghost use Rattle.sctp_pair.specs.Sides.{SideView, side_of, with_side, ticked_side, SideStands};

use crate::one_side::OneSide;
use sctp_endpoint::Endpoint;
use sctp_events::Outcome;
use sctp_values::{NoMemory, Ticket};
use std::alloc::Global;

/// Reserves space in the log for what a time abandons. Returns the tickets of the messages that it may abandon.
///
/// # Errors
/// An allocation failed; nothing has changed.
#[tactic(auto, unfolding(crate::specs::Sides::SideStands))]
pub(crate) fn make_room(
    alloc: Global,
    side: &mut OneSide,
    now: u64,
) -> Result<Vec<Ticket>, NoMemory>
    ensures same { (v : SideView) → SideStands side.old v → SideStands side.new v }
    ensures listed { (v : SideView) → SideStands side.old v → IfOk result (λ before. map ticket_number before.items ≡ tickets_to_give_up v.end now) }
    ensures memory { (v : SideView) → SideStands side.old v → OnErr result (has_to_give_up v.end now ≡ true) }
    ensures room { IfOk result (λ before. length side.new.abandoned.items + length before.items ≤ vec_capacity side.new.abandoned) }
{
    // law: the endpoint is sound
    side.end.sound();
    let before = to_give_up(alloc, &side.end, now)?;
    side.abandoned.reserve(before.len()).map_err(|_| NoMemory)?;
    Ok(before)
}

/// The tickets of the messages that a time may abandon, rising: past their lifetime, or at their limit of retransmissions if the data timer is due.
///
/// # Errors
/// An allocation failed; then there is such a message.
fn to_give_up(alloc: Global, end: &Endpoint, now: u64) -> Result<Vec<Ticket>, NoMemory>
    ensures tickets { (v : EndView) → EndpointStands end.now v → IfOk result (λ tickets. map ticket_number tickets.items ≡ tickets_to_give_up v now) }
    ensures memory { (v : EndView) → EndpointStands end.now v → OnErr result (has_to_give_up v now ≡ true) }
{
    let mut tickets = Vec::new(alloc);
    let mut last = Ticket(0);
    for _ in 0..end.tickets() {
        match end.next_to_give_up(last, now) {
            Some(ticket) => {
                tickets.push(ticket).map_err(|_| NoMemory)?;
                last = ticket;
            }
            None => return Ok(tickets),
        }
    }
    Ok(tickets)
}

/// Notifies the endpoint of the time and logs what that abandons, for which space is reserved: of the tickets that it may abandon at that time.
#[tactic(auto, unfolding(crate::specs::Sides::SideStands))]
pub(crate) fn tick(side: &mut OneSide, before: &[Ticket], now: u64)
    requires { length side.old.abandoned.items + length before.now ≤ vec_capacity side.old.abandoned }
    ensures { (v : SideView) → SideStands side.old v → map ticket_number before.now ≡ tickets_to_give_up v.end now
        → SideStands side.new (ticked_side v now) }
{
    // laws: the endpoint is sound, and abandons nothing else
    side.end.sound();
    side.end.gives_up_alone();
    side.end.on_moment(now);
    note(&side.end, &mut side.abandoned, before);
}

/// Notifies the endpoint of the time of its clock and logs what that abandons. Space for the log is reserved first.
///
/// # Errors
/// An allocation failed; nothing has changed.
#[tactic(auto, unfolding(crate::specs::Sides::SideStands))]
pub(crate) fn notify_at(alloc: Global, side: &mut OneSide, clock: u64) -> Result<Outcome, NoMemory>
    ensures step { (w : World) (s : world.Side) → SideStands side.old (side_of w s) → clock_of w s ≡ clock
        → (h : SideView) × Step w (meaning.Moment s) (answer_of result) (with_side w s h) × SideStands side.new h }
    ensures memory { (w : World) (s : world.Side) → SideStands side.old (side_of w s) → clock_of w s ≡ clock
        → OnErr result (TakesMemory w (meaning.Moment s)) }
{
    let before = make_room(alloc, side, clock)?;
    tick(side, &before, clock);
    Ok(Outcome::Done)
}

/// Logs which of these tickets are abandoned now; space for all of them is reserved.
pub(crate) fn note(end: &Endpoint, log: &mut Vec<Ticket>, before: &[Ticket])
    requires { length log.old.items + length before.now ≤ vec_capacity log.old }
    ensures { (v : EndView) → EndpointStands end.now v
        → map ticket_number log.new.items ≡ map ticket_number log.old.items ++ filter (λ k. abandoned v.sender k) (map ticket_number before.now) }
{
    for ticket in before {
        if end.abandoned(*ticket) {
            log.push_reserved(*ticket);
        }
    }
}

/// The endpoint's user abandons a message, which is logged if it has an effect. Space for the log is reserved first.
///
/// # Errors
/// An allocation failed; nothing has changed.
#[tactic(auto, unfolding(crate::specs::Sides::SideStands))]
pub(crate) fn abandon_at(side: &mut OneSide, ticket: Ticket) -> Result<Outcome, NoMemory>
    ensures step { (w : World) (s : world.Side) → SideStands side.old (side_of w s)
        → (h : SideView) × Step w (meaning.Abandon s ticket.0) (answer_of result) (with_side w s h) × SideStands side.new h }
    ensures memory { (w : World) (s : world.Side) → SideStands side.old (side_of w s) → OnErr result (TakesMemory w (meaning.Abandon s ticket.0)) }
{
    // law: the endpoint is sound
    side.end.sound();
    if side.end.abandoned(ticket) {
        return Ok(Outcome::Fate {
            fate: side.end.abandon(ticket),
        });
    }
    side.abandoned.reserve(1).map_err(|_| NoMemory)?;
    let fate = side.end.abandon(ticket);
    note(&side.end, &mut side.abandoned, &[ticket]);
    Ok(Outcome::Fate { fate })
}
