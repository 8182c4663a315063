//! The words of lines that `sctp-trace` and `sctp-end` share: how values are read and written, and the faults of a line.
//!
//! Each word has one meaning (`specs/Fields`, `specs/Names`). What a program's lines ask for is that program's own grammar; here are the
//! values in them and the kinds of their faults (`specs/Lines`). A *draw* is the pair of random values that an endpoint needs to open an
//! association: its verification tag, never 0, and its initial TSN (RFC 9260, 5.3.1). A *kind* is ordered or unordered delivery
//! (RFC 9260, 6.6).
//!
//! # Promises
//!
//! - `read_u16`, `read_u32` and `read_u64` read a number exactly if the word spells one of 16, 32 or 64 bits.
//! - `read_draw` reads two words exactly if they spell a tag other than 0 and a TSN. `read_kind`, `read_until` (a time in milliseconds, or
//!   `-` for none), `read_mode` and `read_bytes` read a word exactly if it spells such a value.
//! - `read_until_limit` reads a word exactly if it spells such a time, a limit of retransmissions after `LIMIT_MARK`, or both (`xN`, `TxN`), or
//!   `-`; the law `limits_follow_an_x` states `LIMIT_MARK` to be 120, `x`.
//! - `is_delay`, `is_standard_closing`, `is_fast_retransmit`, `is_congestion_control`, `is_rto_min` and `is_reset` say whether a word is that option's name.
//! - `kind_word`, `number_word`, `state_word` and `end_word` write kinds, numbers or `-`, the states of an association (RFC 9260, 4) and how
//!   it ended by their names; these are the names of the model's kinds, states and ends.
//! - `LineFault::kind` is the number of a line's fault, 1 to 5. `is_silent` says which lines do nothing: an empty one, and one that begins
//!   with `COMMENT`, which the law `comments_begin_with_a_number_sign` states to be 35, `#`.
//! - `put_line` appends a line, or nothing if an allocation fails.
//!
//! `specs/Fields` also has the walk over the words after a command, `Values` and `AreValues`, for any type of fields, so that each program
//! states only its fields and their values.
//!
//! # What the contracts can't say
//!
//! No contract says when memory is available: a `read_bytes` or a `put_line` that always answers `NoMemory` would meet its contract.
#![tactic(auto)]

mod fields;
mod line_fault;
mod line_out;
mod names;
mod numbers;

pub use fields::{
    LIMIT_MARK, is_congestion_control, is_delay, is_fast_retransmit, is_reset, is_rto_min,
    is_standard_closing, limits_follow_an_x, read_bytes, read_draw, read_kind, read_mode,
    read_until, read_until_limit,
};
pub use line_fault::{COMMENT, LineError, LineFault, comments_begin_with_a_number_sign, is_silent};
pub use line_out::put_line;
pub use names::{end_word, kind_word, number_word, state_word};
pub use numbers::{read_u16, read_u32, read_u64};
