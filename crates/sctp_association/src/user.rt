//! The user's side of an endpoint (RFC 9260, 11.1): calls, and what he reads of its state.

pub mod abort;
pub mod agreed;
pub mod calls;
pub mod path;
pub mod readers;
pub mod resetting;
pub mod rooms;
pub mod status;
pub mod tag;
