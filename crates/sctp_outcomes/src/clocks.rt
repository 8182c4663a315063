//! The clocks of both endpoints.
//!
//! No function here does anything: each carries a theorem as its contract.

ghost use Rattle.sctp_outcomes.specs.Clocks.{AMessageArrivesByTwoClocks, BothAreEach, OneClockStaysOne};

/// A world with one clock is a case of one with two: in every run without an event of one clock alone both show the same time; and an event that notifies
/// both of the time leads to the same world as four events of one clock alone: each clock goes on to it, and each endpoint is notified.
// law
pub fn one_clock_is_a_case_of_two()
    ensures same { OneClockStaysOne }
    ensures each { BothAreEach }
{}

/// There is a run in which the clocks differ: the receiving application hands in what arrived at the time of its clock and then notifies its endpoint of
/// the time; the message is delivered; and the sender's data timer expires by the sender's clock alone (RFC 9260, 6.3.3).
// law
pub fn a_message_arrives_by_two_clocks()
    ensures { AMessageArrivesByTwoClocks }
{}
