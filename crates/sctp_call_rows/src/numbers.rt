//! The calls of wire values and their answers.

use anyhow::Result;
use sctp_serial::Serial;
use std::fmt::Write;

/// Two counts of which the wire values are compared, or of which the second is a reference for the wire value of the first.
#[derive(Clone, Copy)]
pub struct Compared {
    pub how: How,
    pub first: u64,
    pub second: u64,
}

/// What is asked of two counts.
#[derive(Clone, Copy)]
pub enum How {
    /// The distance from the first one's wire value forward to the second one's.
    Ahead,
    /// Whether the first one's is before the second one's.
    Before,
    /// The count near the second that has the first one's.
    Near,
}

/// The answer at one width.
pub fn compare<S: Serial>(two: Compared, out: &mut String) -> Result<()> {
    let wire = S::of_count(two.first);
    match two.how {
        How::Ahead => write!(out, "{}", wire.ahead(S::of_count(two.second)))?,
        How::Before => write!(out, "{}", wire.before(S::of_count(two.second)))?,
        How::Near => tell(wire.near(two.second), out)?,
    }
    Ok(())
}

/// Shows a count, or that there is none.
pub fn tell(count: Option<u64>, out: &mut String) -> Result<()> {
    match count {
        Some(count) => write!(out, "{count}")?,
        None => write!(out, "none")?,
    }
    Ok(())
}
