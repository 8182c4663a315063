//! Laws of scripts, which hold for every text.

ghost use Rattle.std.specs.Prelude.{ℕ, List};
ghost use Rattle.sctp_trace.specs.ScriptOneFault.{HasOneFault};
ghost use Rattle.sctp_trace.specs.ScriptSafe.{ScriptsAreSafe};
ghost use Rattle.sctp_trace.specs.ScriptLaws.{LinesAreThere};

use sctp_cookie::keys_have_seals;
use sctp_endpoint::one_packet;
use sctp_outcomes::{every_event_has_an_outcome, users_take_what_was_sent};
use sctp_pair::premises_are_the_keys;
use sctp_safety::each_world_on_the_way_is_safe;
use sctp_script::{
    configurations_are_right, events_at_their_place, one_meaning_at, the_pair_comes_first,
};
use sctp_terms::faultless_is_configured;
use sctp_text::lines_in_one_way;

// law
/// In each world that the lines of a script lead through, both directions are safe, and once an endpoint has completed its association no
/// message that was given a TSN is missing. That is: each message delivered is one that the peer sent on that stream, whole and delivered
/// at most once, ordered messages in rising number; a number that was passed over is an abandoned message's; and a message that was
/// acknowledged in full was delivered, or is held in full, or was abandoned. This is promised of a script in which no third party's packet
/// carries a tag that an endpoint generates in it, has an INIT that proposes one, or has a cookie that the listener's key seals, and in
/// which every packet is delivered before either endpoint has assigned 2^31 - 65,536 more TSNs than when it was built.
pub fn every_script_is_safe()
    ensures { ScriptsAreSafe }
{
    the_pair_comes_first();
    configurations_are_right();
    faultless_is_configured();
    events_at_their_place();
    premises_are_the_keys();
    each_world_on_the_way_is_safe();
    users_take_what_was_sent();
}

// law
/// What the lines of a text write is defined for every text, and what its first lines write is a prefix of it.
pub fn lines_are_there()
    ensures { LinesAreThere }
{
    one_meaning_at();
    events_at_their_place();
    lines_in_one_way();
    one_packet();
    keys_have_seals();
    every_event_has_an_outcome();
}

// law
/// A text has at most one first fault, on one line.
pub fn one_first_fault()
    ensures { (text : List ℕ) → HasOneFault text }
{
    one_meaning_at();
}
