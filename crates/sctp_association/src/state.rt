//! The state of an endpoint (RFC 9260, 4): its phase and stage, what its next packets owe the peer, and how it goes from one state to the next.

pub mod carried;
pub mod closing;
pub mod due;
pub mod life;
pub mod stage;
