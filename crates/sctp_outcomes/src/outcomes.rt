//! Outcomes of events in the worlds of two endpoints.

ghost use Rattle.sctp_outcomes.specs.Outcomes.{EventsHaveOutcomes, OutcomesAreOne};

/// In every world of every run, also of one that meets no premise, whatever may happen has an outcome that isn't an allocation failure: no chunk, packet,
/// time or call is without an answer.
pub fn every_event_has_an_outcome()
    ensures { EventsHaveOutcomes }
{}

/// And it has no other: in every such world an event has one outcome, unless an allocation fails, and leaves one world. So a packet that arrives, a packet
/// that is built, a time and each call of a user leave one endpoint and one answer.
pub fn every_event_has_one_outcome()
    ensures { OutcomesAreOne }
{}
