//! The report of one side.

ghost use Rattle.std.specs.Prelude.{◌≡◌, List, ◌++◌, map, IfOk, OnOk};
ghost use Rattle.sctp_model.specs.receiver.ReceiverView.{Handed, handed};
ghost use Rattle.sctp_model.specs.end.EndView.{EndView};
ghost use Rattle.sctp_endpoint.specs.EndpointStands.{EndpointStands};
ghost use Rattle.sctp_events.specs.Events.{side_meaning};
ghost use Rattle.sctp_script.specs.ReportText.{ticket_number, streams_lines, end_report};
ghost use Rattle.sctp_pair.specs.Taken.{IsStreamLog};
ghost use Rattle.sctp_pair.specs.Noted.{tickets_noted};
ghost use Rattle.sctp_pair.specs.Sides.{SideView, SideStands};

use crate::one_side::OneSide;
use crate::taken::{StreamLog, log_of};
use sctp_endpoint::Endpoint;
use sctp_events::Side;
use sctp_script::{put_abandoned, put_count, put_end, put_handed, put_numbered};
use sctp_values::{NoMemory, Ticket};
use std::alloc::Global;

/// Appends a side's lines: the state of its endpoint, the tickets that were given TSNs and those abandoned, and what was delivered.
///
/// # Errors
/// An allocation failed; some of the lines have been appended.
#[tactic(auto, unfolding(crate::specs::Sides::SideStands))]
pub(crate) fn put_side(
    alloc: Global,
    name: Side,
    side: &OneSide,
    out: &mut Vec<u8>,
) -> Result<(), NoMemory>
    ensures { (v : SideView) → SideStands side.now v → OnOk result (out.new.items ≡ out.old.items ++ end_report (side_meaning name) v.end v.log) }
{
    put_end(name, side.end.state(), side.end.ended(), out)?;
    let tickets = all_tickets(alloc, &side.numbered)?;
    put_numbered(name, &tickets, out)?;
    put_abandoned(name, &side.abandoned, out)?;
    put_streams(alloc, name, side, out)
}

/// The tickets that were given TSNs, packet by packet.
///
/// # Errors
/// An allocation failed.
fn all_tickets(alloc: Global, packets: &[Vec<Ticket>]) -> Result<Vec<Ticket>, NoMemory>
    ensures { IfOk result (λ tickets. map ticket_number tickets.items ≡ tickets_noted packets.now) }
{
    let mut all = Vec::new(alloc);
    for tickets in packets {
        all.extend_from_slice(tickets).map_err(|_| NoMemory)?;
    }
    Ok(all)
}

/// Appends the lines of the streams that the peer may send on.
///
/// # Errors
/// An allocation failed; some of the lines have been appended.
#[tactic(auto, unfolding(crate::specs::Sides::SideStands))]
fn put_streams(alloc: Global, name: Side, side: &OneSide, out: &mut Vec<u8>) -> Result<(), NoMemory>
    ensures { (v : SideView) → SideStands side.now v → OnOk result (out.new.items ≡ out.old.items ++ streams_lines (side_meaning name) v.end.receiver v.end.receiver.streams) }
{
    for stream in 0..side.end.inbound() {
        let log = handed_over(alloc, side, stream)?;
        put_handed(name, stream, &log.numbers, out)?;
        put_count(name, stream, log.unordered, out)?;
    }
    Ok(())
}

/// What was delivered on a stream: what the user has taken, and what waits to be taken.
///
/// # Errors
/// An allocation failed.
#[tactic(auto, unfolding(crate::specs::Sides::SideStands))]
fn handed_over(alloc: Global, side: &OneSide, stream: u16) -> Result<StreamLog, NoMemory>
    ensures { (v : SideView) → SideStands side.now v → IfOk result (λ log. IsStreamLog log (handed v.end.receiver stream)) }
{
    let mut log = log_of(alloc, &side.taken, stream)?;
    add_waiting(&side.end, stream, &mut log)?;
    Ok(log)
}

/// Adds the messages that wait on a stream.
///
/// # Errors
/// An allocation failed; some of them have been added.
fn add_waiting(end: &Endpoint, stream: u16, log: &mut StreamLog) -> Result<(), NoMemory>
    ensures { (v : EndView) (hs : List Handed) → EndpointStands end.now v → IsStreamLog log.old hs
        → OnOk result (IsStreamLog log.new (hs ++ v.receiver.waiting stream)) }
{
    for place in 0..usize::MAX {
        let Some(message) = end.waiting(stream, place) else {
            return Ok(());
        };
        log.make_room()?;
        log.note(message);
    }
    // No memory holds this many.
    Err(NoMemory)
}
