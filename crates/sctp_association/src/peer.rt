//! What chunks of the peer do to an endpoint, and what it answers: opening an association, data and acknowledgements, HEARTBEAT, SHUTDOWN and ERROR.

pub mod answering;
pub mod hearing;
pub mod joining;
pub mod measuring;
pub mod missing;
pub mod opening;
pub mod pacing;
pub mod passing;
pub mod reconfiguring;
pub mod reporting;
pub mod responding;
