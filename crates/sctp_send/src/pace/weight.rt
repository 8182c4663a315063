//! What congestion control weighs of an acknowledgement.

/// What an acknowledgement does, before it is taken (RFC 9260, 6.3.1 and 7.2): indexes count TSNs without wrapping from 1 on, and sizes are
/// bytes of chunks, with their headers and padding.
#[derive(Clone, Copy, Debug)]
pub struct Weight {
    /// It moves the cumulative TSN.
    pub moved: bool,
    /// The index of the cumulative TSN after it.
    pub cum: u64,
    /// The highest index that it newly acknowledges (HTNA; RFC 9260, 7.2.4); 0 if it acknowledges nothing new.
    pub newest: u64,
    /// What counts in its place in Fast Recovery: the highest index that it acknowledges, if it moves the cumulative TSN; else the same.
    pub newest_in_recovery: u64,
    /// The bytes that it newly acknowledges.
    pub bytes: u64,
    /// It newly acknowledges the chunk that is timed, whose message was not abandoned; without such a chunk this is not read.
    pub acked: bool,
}

impl Weight {
    /// What an acknowledgement does that is refused.
    pub(crate) fn none() -> Weight {
        Weight {
            moved: false,
            cum: 0,
            newest: 0,
            newest_in_recovery: 0,
            bytes: 0,
            acked: false,
        }
    }
}
