//! The ticket of a message.

/// The number by which a user names a message that was accepted for sending: 1 for the first one, 2 for the next, and so on.
#[derive(Clone, Copy, Debug, PartialEq, Eq)]
pub struct Ticket(pub u64);
