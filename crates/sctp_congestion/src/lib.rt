//! Congestion control, loss detection and round trips of one association, as arithmetic (RFC 9260, 6.1, 6.3.1 and 7.2): numbers in, numbers out.
//!
//! No chunk, packet or sender is known here, and no clock is read. The caller asks its sender for bytes and indexes, and passes them on; contracts say which
//! number of the sender's views each is (`specs/Highest`, `specs/Weighs`), and that the result is then exactly the definition's (`sctp_model/specs/end`:
//! `Trips`, `Misses`, `Control`, `Pacing`). Times are in milliseconds, sizes in bytes of whole chunks with headers and padding; an index counts TSNs without
//! wrapping, from 1 on.
//!
//! A [`Pacing`] stands for a `Pace` (`specs/PaceStands`), at a sender of one format with one cumulative index: all is equal but that nothing is known of
//! when an index went out last that the cumulative TSN has passed. Of the others a number is kept only from the first one on that was retransmitted, or
//! taken back by an acknowledgement, and memory taken only for these: by [`Pacing::reserve`], before the packet or the acknowledgement, so that no other call
//! can fail. Slow start has L = 1, there is no CUBIC, and RTO.Initial and RTO.Max are 1 and 60 seconds (`specs/Waits`).
//!
//! | type | what it is in contracts |
//! |---|---|
//! | [`Pacing`] | `PaceKept`, which stands for `Pace`: the three below, of one association |
//! | [`RoundTrips`], [`TimedChunk`] | `Trips`, `Timed`: the chunk that is timed, SRTT and RTTVAR |
//! | [`RttEstimate`], [`RoundTrip`] | `Smoothed`: SRTT and RTTVAR, each at most RTO.Max; a number of milliseconds, at most RTO.Max |
//! | `MissIndications`, `LastSendings` | `MissesKept`, which stands for `Misses`: three numbers that only rise, and the exit point of Fast Recovery; `WentKept`, its `went` |
//! | [`CongestionControl`] | `Control`: cwnd, ssthresh, partial_bytes_acked, the limit of bursts |
//!
//! | call of [`Pacing`] | what is promised |
//! |---|---|
//! | [`Pacing::fresh`] | `fresh_pace` |
//! | [`Pacing::begin`], [`Pacing::first_rto`] | the handshake is over: `pace_begun`; the data timer's first RTO, `wait_begun` |
//! | [`Pacing::notice`] | the misses become `misses_heard` |
//! | [`Pacing::is_missed`], [`Pacing::missed_end`] | `is_missed` of an index above the cumulative one; none from `missed_end` on is |
//! | [`Pacing::hear`] | the pace becomes that of `heard`; the reply is its round trip, whether the cumulative TSN moved, whether the data timer is restarted |
//! | [`Pacing::rto_after`] | the RTO after it, `wait_heard` |
//! | [`Pacing::expire`], [`Pacing::sent`] | the data timer expired: `expired_pace`; a packet was sent: `sent_pace` |
//! | [`Pacing::allowance`] | how much of a packet's space fragments may take: `room_paced` |
//! | [`Pacing::reserve`], [`Pacing::trim`] | it stands for the same; then it has memory for indexes up to one (`pace_room`), or has given memory back |
//! | [`Pacing::missed_below`] | the third largest of the highest acknowledged indexes |
//! | [`Pacing::stays`] | law: what it stands for at a sender, it stands for once the cumulative TSN has moved |
//!
//! | call of a part | what is promised |
//! |---|---|
//! | [`RoundTrip::between`] | the difference, at most RTO.Max |
//! | [`RttEstimate::first`], [`RttEstimate::smoothed_by`], [`RttEstimate::rto`] | `smoothed_by`, for the first and for a later measurement; `wait_of`, at most RTO.Max |
//! | [`RoundTrips::start_timing`], [`RoundTrips::stop_timing`] | `timed_from`; `still_timed` (Karn's algorithm) |
//! | [`RoundTrips::trip`], [`RoundTrips::measure`], [`RoundTrips::rto`] | `trip_told`; `with_trip`; `wait_measured` |
//!
//! The other calls read a value, or change one that they name. Costs are constant, but that `notice` and `sent` cost the indexes that they are passed, and
//! each index from the first of these to the last once, and once more when the cumulative TSN passes it. Without such indexes nothing is allocated.
#![tactic(auto)]

mod control;
mod estimate;
mod hearing;
mod last_sendings;
mod misses;
mod news;
mod pacing;
mod round_trip;
mod round_trips;

pub use control::{Allowance, CongestionControl};
pub use estimate::RttEstimate;
pub use hearing::{Reply, Weighed};
pub use misses::Highest;
pub use pacing::Pacing;
pub use round_trip::RoundTrip;
pub use round_trips::{RoundTrips, TimedChunk};
