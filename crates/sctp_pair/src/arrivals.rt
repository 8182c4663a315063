//! A packet arrives at an endpoint: one of the other endpoint's bag, or a third party's.

ghost use Rattle.std.specs.Prelude.{◌≡◌, List, Option, None, MatchOption};
ghost use Rattle.sctp_model.specs.numbers.Lists.{item_at};
ghost use Rattle.sctp_model.specs.wire.Packet.{Packet};
ghost use Rattle.sctp_model.specs.world.World as world;
ghost use Rattle.sctp_model.specs.world.World.{World, clock_of};
ghost use Rattle.sctp_model.specs.world.Events as meaning;
ghost use Rattle.sctp_model.specs.world.Steps.{Step, Brings};
ghost use Rattle.sctp_endpoint.specs.Handled.{IsRead};
ghost use Rattle.sctp_events.specs.Events.{answer_of};
ghost use Rattle.sctp_pair.specs.Sides.{SideView, side_of, left, SideStands, ArePackets, IsItem};

use crate::hearing::{hear, make_ready, pass_time};
use crate::one_side::{OneSide, put_packet};
use sctp_endpoint::{Verdict, written_packet_reads};
use sctp_events::Outcome;
use sctp_terms::Draw;
use sctp_values::NoMemory;
use std::alloc::Global;

/// The packet with this number in a bag, counted from 1. None if there is none.
pub(crate) fn packet_at(bag: &[Vec<u8>], number: u32) -> Option<&[u8]>
    ensures { (ps : List Packet) → ArePackets bag.now ps → MatchOption result (item_at ps number ≡ None) (λ bytes. IsItem ps number bytes.now) }
{
    let index = number as usize;
    if index == 0 || index > bag.len() {
        return None;
    }
    Some(bag[index - 1].as_slice())
}

/// Bytes arrive at the endpoint; its answer is added to its bag, and what it abandons is logged. Space for both is reserved first.
///
/// # Errors
/// An allocation failed: the chunks before the failing one have taken effect.
#[tactic(auto, unfolding(crate::specs::Sides::SideStands))]
pub(crate) fn arrive(
    alloc: Global,
    side: &mut OneSide,
    clock: u64,
    draw: Draw,
    bytes: &[u8],
) -> Result<Outcome, NoMemory>
    ensures { (w : World) (s : world.Side) (e : meaning.Event) (p : Option Packet) → SideStands side.old (side_of w s) → Brings w e s p → IsRead bytes.now p
        → clock_of w s ≡ clock → w.draw ≡ draw
        → (h : SideView) × Step w e (answer_of result) (left w s h) × SideStands side.new h }
{
    // laws: a packet that was written reads back; the endpoint is sound, and its sender's view is one that calls reach
    written_packet_reads();
    side.end.sound();
    side.end.reached();
    let Ok(before) = make_ready(alloc, side) else {
        pass_time(&mut side.end, clock, draw);
        return Err(NoMemory);
    };
    match hear(
        &mut side.end,
        &mut side.abandoned,
        &before,
        clock,
        bytes,
        draw,
    )? {
        Verdict::Taken => Ok(Outcome::Taken),
        Verdict::Dropped(reason) => Ok(Outcome::Dropped { reason }),
        Verdict::Answer(packet) => {
            let length = packet.len();
            put_packet(&mut side.bag, packet);
            Ok(Outcome::Answer {
                number: side.bag.len(),
                length,
            })
        }
    }
}
