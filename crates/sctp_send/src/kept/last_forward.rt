//! The FORWARD that was built last, which serves as long as nothing that it names has changed (RFC 3758, 3.5).

/// A FORWARD, and what it was built from.
#[derive(Drop)]
pub(crate) struct LastForward {
    // CUM, when it was built
    pub(crate) cum: u64,
    // how many entries after CUM were then all of abandoned messages
    pub(crate) run: u32,
    // the packet limit that it was built for, in bytes
    pub(crate) limit: u16,
    // how many of those entries it passes
    pub(crate) passed: u32,
    // its list of streams and numbers, as on the wire
    pub(crate) list: Vec<u8>,
}
