//! Time at an endpoint (RFC 9260, 5.1, 6.2, 6.3 and 9.2): its timers, what their expiry does, and SACKs that are delayed.

pub mod delaying;
pub mod giving_up;
pub mod moments;
pub mod starts;
pub mod timer;
pub mod timers;
