//! The answers to a data chunk, and how far its TSN is ahead (RFC 9260, 6.2 and 6.6; RFC 3758, 3.6; RFC 8260, 2.2).

ghost use Rattle.std.specs.Prelude.{◌≡◌};
ghost use Rattle.sctp_recv.specs.inner.Rows.{IsTsnPlace};

use sctp_serial::{S32, Serial, index_ahead, tsn_of};
use sctp_values::WINDOW;

/// What was done with a DATA or I-DATA chunk.
#[derive(Clone, Copy, Debug, PartialEq, Eq)]
pub enum Answer {
    /// Its TSN was received before: it is noted as a duplicate for the next SACK (RFC 9260, 6.2).
    Duplicate,
    /// Its TSN is too far ahead of the cumulative TSN: nothing was done.
    Ahead,
    /// Its stream doesn't exist: its TSN was recorded, and its data dropped.
    NoSuchStream,
    /// Its message was delivered or skipped already or has this fragment, or its number is near no count: its TSN was recorded, and its data dropped.
    Passed,
    /// Its data doesn't fit the receive buffer: nothing was done.
    NoRoom,
    /// It was recorded and kept, and the messages that were then due were delivered.
    Taken,
}

/// What is to be done with a chunk: its answer, and what that needs.
#[derive(Clone, Copy)]
pub(crate) enum Row {
    Duplicate,
    Ahead,
    NoSuchStream { index: u64 },
    Passed { index: u64 },
    NoRoom,
    /// Taken, but its number is no count below the largest.
    Uncounted,
    Taken { index: u64, number: Option<u64> },
}

/// Where a TSN is relative to the cumulative TSN.
#[derive(Clone, Copy)]
pub(crate) enum TsnPlace {
    /// It is the cumulative TSN, or before it.
    Behind,
    /// It is past the window, or its index isn't a count below the largest.
    Ahead,
    /// It is ahead of the cumulative TSN, and has this index.
    At(u64),
}

/// Where a TSN is relative to the cumulative TSN; `initial` is the TSN of index 1.
pub(crate) fn place_of_tsn(initial: u32, cumulative: u64, tsn: u32) -> TsnPlace
    ensures { IsTsnPlace initial cumulative tsn result }
{
    let ahead = S32(tsn_of(initial, cumulative)).ahead(S32(tsn));
    if ahead == 1 && cumulative < u64::MAX - 1 {
        return TsnPlace::At(cumulative + 1);
    }
    if !S32(tsn_of(initial, cumulative)).before(S32(tsn)) {
        return TsnPlace::Behind;
    }
    match index_ahead(initial, cumulative, tsn) {
        Some(index) if index < u64::MAX && index.saturating_sub(cumulative) <= u64::from(WINDOW) =>
            { TsnPlace::At(index) }
        _ => TsnPlace::Ahead,
    }
}
