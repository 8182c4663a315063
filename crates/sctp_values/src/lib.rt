//! What all crates share: the limits of this profile as constants, the ticket of a message, ordered or unordered, the allocation error, and
//! lengths as 32-bit numbers.
//!
//! | public item | what is promised |
//! |---|---|
//! | the constants | each is the limit of that name in the definitions (`sctp_model/specs/numbers/Limits`): [`limits_are_the_definitions`], a law |
//! | [`small_len`] | the number of bytes, at most 2^32 - 1 |
//! | [`Kind::of_flag`], [`Kind::flag`] | the kind that a U flag says (RFC 9260, 3.3.1), and the flag that says it: `lane_kind` of the definitions |
//! | [`Ticket`], [`NoMemory`] | plain values: no calls |
//!
//! A law is a function that does nothing: its contract is the theorem.
#![tactic(auto)]

mod kind;
mod laws;
mod lengths;
mod limits;
mod no_memory;
mod ticket;

pub use kind::Kind;
pub use laws::limits_are_the_definitions;
pub use lengths::small_len;
pub use limits::{
    BLOCK_LIMIT, COOKIE_LIFE, DUPLICATE_LIMIT, FIRST_WAIT, FRAGMENT_OVERHEAD, GREATEST_BUFFER,
    GREATEST_FRAGMENT, GREATEST_PACKET, LAST_MOMENT, LEAST_BUFFER, LEAST_FRAGMENT, LEAST_PACKET,
    LONGEST_MESSAGE, LONGEST_WAIT, OPENING_REPEATS, QUEUE_LIMIT, REPEATS, RUN_LIMIT, SACK_DELAY,
    STREAM_LIMIT, TICKET_LIMIT, TSN_LIMIT, WINDOW,
};
pub use no_memory::NoMemory;
pub use ticket::Ticket;
