//! Why a picture can't be drawn, or only in part.

use sctp_words::LineFault;
use std::alloc::AllocError;

/// Why a picture can't be drawn, or only up to a line.
#[derive(Clone, Copy)]
pub(crate) enum LookFault {
    /// Reading failed.
    Read,
    /// Writing failed.
    Write,
    /// An allocation failed.
    NoMemory,
    /// The first line with a fault, counted from 1, and the fault.
    Line(u64, LineFault),
}

impl From<AllocError> for LookFault {
    fn from(_: AllocError) -> LookFault {
        LookFault::NoMemory
    }
}
