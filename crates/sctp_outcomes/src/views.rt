//! What both endpoints' senders and receivers are, in every world.

ghost use Rattle.sctp_outcomes.specs.Views.{BothSendersAreInOrder, BuffersHold, ReceiversAreAtRest, SendersAreInOrder};
ghost use Rattle.sctp_outcomes.specs.NeverHeld.{NoneIsHeldForEver, NoPaceUnasked};
ghost use Rattle.sctp_outcomes.specs.NeverReset.{NoResetUnasked};
ghost use Rattle.sctp_outcomes.specs.Reserves.{NextIsTaken};
ghost use Rattle.sctp_outcomes.specs.NeverBeats.{BeatsGoOn, NoBeatUnasked};

/// In every world of every run, also of one that meets no premise, each sender is one that its calls reach, and its plan is orderly, as far as its
/// endpoint's fragments may hold a byte; if the premises are met, both are (RFC 9260, 6.6 and 6.9; RFC 8260, 2.2).
pub fn both_senders_are_in_order()
    ensures each { SendersAreInOrder }
    ensures both { BothSendersAreInOrder }
{}

/// In every world of every run, also of one that meets no premise, both receivers are at rest: all that is due was delivered, and nothing is kept twice
/// (RFC 9260, 6.6 and 6.9).
pub fn both_receivers_are_at_rest()
    ensures { ReceiversAreAtRest }
{}

/// And there what a receiver holds, kept chunks and messages that wait, is never more than the buffer that its endpoint is set up with (RFC 9260, 6.2).
pub fn no_receiver_passes_its_buffer()
    ensures { BuffersHold }
{}

/// If the premises are met, congestion control keeps no endpoint from sending for ever: with nothing in flight it fills a packet as it would without, and
/// with something in flight its data timer runs (RFC 9260, 6.1 and 6.3).
pub fn no_end_is_held_for_ever()
    ensures { NoneIsHeldForEver }
{}

/// In every world of every run, also of one that meets no premise, an endpoint that is set up without Fast Retransmit has no pace: its timer, its marks and
/// the space of its packets are those of an endpoint without round trips and congestion control (RFC 9260, 6.3).
pub fn no_end_gets_a_pace_unasked()
    ensures { NoPaceUnasked }
{}

/// And an endpoint that is set up without stream reset hasn't agreed on it, whatever third parties know: it treats a RE-CONFIG as a chunk of an unknown
/// type, and makes no request (RFC 6525, 5).
pub fn no_end_resets_unasked()
    ensures { NoResetUnasked }
{}

/// In every world of every run, also of one that meets no premise: if the messages that wait for `take`, what is kept up to the cumulative TSN, and the next
/// chunk expected have no more bytes than the reserve together, that chunk isn't refused for space (RFC 9260, 6.2).
pub fn the_next_chunk_is_never_refused()
    ensures { NextIsTaken }
{}

/// In every world of every run, also of one that meets no premise, an endpoint that is set up without HEARTBEATs has made none, none is due, and their timer rests
/// (RFC 9260, 8.3).
pub fn no_end_beats_unasked()
    ensures { NoBeatUnasked }
{}

/// In every world of every run, also of one that meets no premise, the timer of HEARTBEATs runs at an endpoint that is set up for them, in each state in which
/// it may send one: Established, ShutdownPending and ShutdownReceived (RFC 9260, 8.3).
pub fn heartbeats_go_on()
    ensures { BeatsGoOn }
{}
