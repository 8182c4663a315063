//! Laws: the calls of channels make the runs of which the law of channels speaks.
//!
//! No function here does anything: each carries a law as its contract. They speak of a call by the relation that its contract has.

ghost use Rattle.sctp_channels.specs.MadeByCalls.{NothingIsMade, OpensAreMade, NegotiatedAreMade, SendsAreMade, ClosesAreMade, ThresholdsAreMade, EventsAreMade, PacketsAreMade, TransmitsAreMade, ConnectsAreMade, AbandonsAreMade, ShutdownsAreMade, AbortsAreMade, TimesAreMade, CallsAreDriven};

// law
/// A channel that is opened, a message that is sent and a channel that is closed make calls of the endpoint, each a step of the world: an OPEN, the ACK that is due and the
/// content, a reset. A call that is refused makes none, but for the ACK before a refused content; nor do a negotiated channel and a low threshold (RFC 8831, 6; RFC 8832, 6).
pub fn user_calls_are_made()
    ensures nothing { NothingIsMade }
    ensures opens { OpensAreMade }
    ensures negotiated { NegotiatedAreMade }
    ensures sends { SendsAreMade }
    ensures closes { ClosesAreMade }
    ensures thresholds { ThresholdsAreMade }
{}

// law
/// What is reported makes at most one call: the message that it reports is taken (RFC 8831, 6.6).
pub fn events_are_made()
    ensures { EventsAreMade }
{}

// law
/// A packet that is received, at the time of the endpoint's clock and with the world's random numbers, makes the step that brings it, and each reset of the peer's is noted.
/// Before a packet is sent, what is due of the channels is queued, stream by stream; an allocation that fails leaves what was queued until then. What is sent, or answers, is in the bag of the
/// endpoint (RFC 8831, 6.7; RFC 6525, 5.2.2).
pub fn packets_are_made()
    ensures hears { PacketsAreMade }
    ensures transmits { TransmitsAreMade }
{}

// law
/// Calls that are passed on to the endpoint make its steps. `on_moment` makes two: the endpoint's clock goes on to that time, and the endpoint is asked what is due.
pub fn passed_calls_are_made()
    ensures connects { ConnectsAreMade }
    ensures abandons { AbandonsAreMade }
    ensures shuts { ShutdownsAreMade }
    ensures aborts { AbortsAreMade }
    ensures times { TimesAreMade }
{}

// law
/// So calls at both endpoints, one after the other from the start, are a run that the tables of both drive: [`channels_are_faithful`](crate::channels_are_faithful) speaks of it.
pub fn calls_are_driven()
    ensures { CallsAreDriven }
{}
