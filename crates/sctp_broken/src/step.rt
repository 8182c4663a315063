//! The steps of two endpoints.

/// One of two endpoints: A is the caller, B the listener.
#[derive(Clone, Copy, PartialEq, Eq)]
pub enum Side {
    A,
    B,
}

impl Side {
    /// The other one.
    pub fn other(self) -> Side {
        match self {
            Side::A => Side::B,
            Side::B => Side::A,
        }
    }

    /// Its place among the two, from 0.
    pub fn place(self) -> usize {
        match self {
            Side::A => 0,
            Side::B => 1,
        }
    }
}

/// A step of two endpoints, at time 0.
#[derive(Clone, Copy)]
pub enum Step {
    /// Both are put into an association without packets: A has tag 1, B tag 2, both initial TSN 1.
    Open,
    /// A calls, with this tag and initial TSN.
    Connect(u32, u32),
    /// The tag and initial TSN for INITs that arrive.
    Draw(u32, u32),
    /// The user of this endpoint sends a message that repeats these bytes a number of times, ordered, on stream 0.
    Send(Side, &'static [u8], usize),
    /// This endpoint builds a packet, which is added to its bag.
    Build(Side),
    /// The packet at this place of this endpoint's bag, from 0, arrives at the other one, whose answer is added to its bag.
    Deliver(Side, usize),
    /// The user of this endpoint takes a message of stream 0.
    Take(Side),
    /// The user of this endpoint abandons this ticket.
    Abandon(Side, u64),
    /// The user of this endpoint closes it gracefully.
    Shutdown(Side),
}
