//! What holds of two endpoints in every world of every run.

ghost use Rattle.sctp_safety.specs.Unlimited.{UnlimitedRunsAreSafe};
ghost use Rattle.sctp_safety.specs.Runs.{BeginningsAreAged, BeginningsAreRuns, BeginningsMeetThePremises, EachWorldIsSafe, NothingIsMissing, NothingWaits};
ghost use Rattle.sctp_safety.specs.Runs.{PassingGoesOn, PassingIsARun, RunsGoOn, RunsHaveWorlds, ShortRunsAreAged, ShortRunsAreSafe, TwoEndsAreSafe};

/// The headline. Whatever two users call, whatever packets are lost, repeated, reordered, cut short at an allocation failure or sent by third parties that
/// carry neither a generated tag nor a cookie of the listener's, as long as no packet arrives after either endpoint has assigned 2^31 - 65,536 more TSNs
/// than when it was built: in both directions each stream delivers messages that the peer sent on it, whole, each at most once, the ordered ones in rising
/// number; every ordered number that it passed over was abandoned by its sender; and a message acknowledged whole and not abandoned is held whole or was
/// delivered (RFC 9260, 6.5 and 6.6; RFC 3758, 3.6; RFC 8260, 2.2).
pub fn two_ends_are_safe()
    ensures { TwoEndsAreSafe }
{}

/// Closing. In every run of which the same is asked, an endpoint that completes its association by SHUTDOWN, SHUTDOWN ACK and SHUTDOWN COMPLETE knows that
/// nothing is missing: every message that took a TSN at either endpoint, unordered ones too, was delivered at the other, or abandoned by its sender (RFC
/// 9260, 9.2).
pub fn nothing_is_missing_once_completed()
    ensures { NothingIsMissing }
{}

/// If a run goes on from a world that a run led to, and the premises hold of both as one run, both promises hold in each world on the way.
pub fn each_world_on_the_way_is_safe()
    ensures { EachWorldIsSafe }
{}

/// A run that is given with its worlds is a run to the last of them, and each run can be given so; a run that goes on is a run, which passes the worlds of
/// both, and so is its beginning.
pub fn a_run_passes_its_worlds()
    ensures run { PassingIsARun }
    ensures worlds { RunsHaveWorlds }
    ensures goes_on { RunsGoOn }
    ensures begins { BeginningsAreRuns }
    ensures passes_on { PassingGoesOn }
{}

/// The beginning of a run that meets the premises meets them.
pub fn a_beginning_meets_the_premises()
    ensures { BeginningsMeetThePremises }
{}

/// The beginning of a run in which no packet arrives too late is such a run.
pub fn a_beginning_of_an_aged_run_is_aged()
    ensures { BeginningsAreAged }
{}

/// In a run in which neither endpoint assigns 2^31 - 65,536 TSNs no packet arrives too late.
pub fn a_short_run_is_aged()
    ensures { ShortRunsAreAged }
{}

/// If neither endpoint assigns 2^31 TSNs in the whole run, half of all that there are, both promises hold in each of its worlds however late packets
/// arrive: what is asked of tags and cookies is all that is asked (RFC 9260, 2.6).
pub fn a_run_of_half_the_tsns_is_safe()
    ensures { ShortRunsAreSafe }
{}

/// And no message waits to be sent there, at either endpoint.
pub fn nothing_waits_once_completed()
    ensures { NothingWaits }
{}

/// If no message of a run has a limit of retransmissions, the promises are those of endpoints without such limits.
pub fn a_run_without_limits_is_safe()
    ensures { UnlimitedRunsAreSafe }
{}
