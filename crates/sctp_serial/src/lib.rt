//! Serial numbers (RFC 9260, 2.6; RFC 8260, 2.1; RFC 1982): TSNs and MIDs of 32 bits, SSNs of 16.
//!
//! Inside an endpoint TSNs and messages are counted without wrapping, from 0 to `COUNTS - 1`, as a plain `u64`; `COUNTS`, 2^64, is the
//! name of that bound (`sctp_model/specs/numbers/Serial`, where all the words below are defined). A packet carries a count modulo a power of
//! two: [`Serial`] is such a wire value. Wire values are compared as serial numbers, and read as the count nearest to one that is known.
//!
//! | word of the contracts | meaning | source |
//! |---|---|---|
//! | `wire_value bits count` | the count mod 2^bits | |
//! | `tsn initial index` | (initial + index - 1) mod 2^32. The first TSN has index 1; index 0 is the TSN before it, which is the cumulative TSN as long as nothing was received | RFC 9260, 3.3.2 and 6 |
//! | `ssn number`, `mid number` | the number mod 2^16, mod 2^32 | RFC 9260, 6.5; RFC 8260, 2.1 |
//! | `ahead bits a b` | (b - a) mod 2^bits | |
//! | `before bits a b` | `ahead bits a b` is 1 to 2^(bits-1) - 1 | RFC 1982, 3.2; RFC 9260, 2.6 |
//! | `IsNear bits wire reference count` | the count is below `COUNTS`, has this wire value, and differs from the reference by less than 2^(bits-1) | |
//! | `IsNearAnswer` | the count that is near, or `None` if and only if no count is | |
//! | `near bits wire reference` | that answer as a function, for definitions that compute | |
//!
//! The trait [`Serial`] has two ghost members, `bits` (the width) and `wire` (the value as a number), and four calls, implemented by [`S16`] and
//! [`S32`]:
//!
//! | call | what is promised |
//! |---|---|
//! | [`Serial::of_count`] | its `wire` is `wire_value bits count` |
//! | [`Serial::ahead`] | exactly `ahead bits` of the two wire values: the number of steps forward from the first to the second |
//! | [`Serial::before`] | exactly `before bits` of the two wire values. Of two values half the space apart neither is before the other |
//! | [`Serial::near`] | `answer`: `IsNearAnswer`, so `None` if and only if no count is near, also next to 0 and to the largest count; `exact`: it is `near bits (wire s) reference` |
//! | [`tsn_of`] | exactly `tsn` |
//! | [`index_ahead`] | the index as far ahead of the known one as the TSN is ahead of the known index's TSN, or `None` if that is no count |
//!
//! Laws of the trait, which generic code has at every width: `near_finds`, `near` of the wire value of n at r is `Some n` if the counts n and r
//! differ by less than half the space; `near_answers`, what `near` answers is near, and it answers `None` only if nothing is; `near_is_one`, at
//! most one count is near.
//!
//! No call allocates memory.
#![tactic(auto)]

mod counts;
mod tsn;
mod widths;

pub use counts::Serial;
pub use tsn::{index_ahead, tsn_of};
pub use widths::{S16, S32};
