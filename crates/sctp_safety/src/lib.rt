//! Safety of one direction of an association, over every list of moves, and of both directions in every world of two endpoints.
//!
//! No function here does anything: each carries a theorem as its contract.
#![tactic(auto)]

mod ends;
mod exact;
mod laws;
mod resets;
mod rest;
mod safety;
mod sender;
mod told;
mod two_ends;

pub use ends::{
    an_association_closes, an_association_opens, closed_for_good, ends_follow_the_diagram,
    strangers_change_nothing, the_ends_agree, the_first_answer_counts,
};
pub use exact::{
    abandon_is_moves, expire_is_moves, fill_is_moves, forward_is_allowed, forward_is_moves,
    forward_taken_is_moves, marking_is_moves, passing_is_moves, piece_taken_is_moves,
    queue_is_moves, sack_is_allowed, sack_is_moves, sack_made_is_moves, shutdown_is_allowed,
    shutdown_is_moves, take_is_moves, taking_is_moves,
};
pub use laws::{skip_law, whole_law};
pub use resets::requests_part_messages;
pub use rest::{
    every_call_leaves_rest, no_call_passes_the_buffer, nothing_more_is_due, nothing_whole_is_let_go,
};
pub use safety::{
    each_message_is_placed, orderly_over_every_run, safe_over_every_run, safe_without_limits,
};
pub use sender::{
    abandoned_only_asked, abandons_its_own_alone, drained_is_told, each_call_has_one_result,
    none_goes_too_often, plan_stays_orderly,
};
pub use told::{
    a_message_is_abandoned_by_its_ticket, a_message_is_told_by_its_ticket,
    nothing_is_left_to_expire,
};
pub use two_ends::{
    a_beginning_meets_the_premises, a_beginning_of_an_aged_run_is_aged,
    a_run_of_half_the_tsns_is_safe, a_run_passes_its_worlds, a_run_without_limits_is_safe,
    a_short_run_is_aged, each_world_on_the_way_is_safe, nothing_is_missing_once_completed,
    nothing_waits_once_completed, two_ends_are_safe,
};
