//! What holds of one endpoint, whatever arrives at it.

ghost use Rattle.sctp_safety.specs.Agreement.{EndsAgree};
ghost use Rattle.sctp_safety.specs.Handshake.{AnAssociationCloses, AnAssociationOpens, TheFirstAnswerCounts};
ghost use Rattle.sctp_safety.specs.States.{ClosedForGood, EndsFollowTheDiagram};
ghost use Rattle.sctp_safety.specs.Strangers.{StrangersChangeNothing};

/// A packet of a third party, which carries no tag that was generated and no cookie that opens, leaves an endpoint as it was, whatever is answered to it
/// (RFC 9260, 8.4, 8.5 and 5.1.3).
pub fn strangers_change_nothing()
    ensures { StrangersChangeNothing }
{}

/// Over every run each endpoint goes along the diagram of states, and keeps its tags and what it agreed on; nothing leads away from a closed endpoint (RFC
/// 9260, 4).
pub fn ends_follow_the_diagram()
    ensures { EndsFollowTheDiagram }
{}

/// There is a run of packets alone, INIT, INIT ACK, COOKIE ECHO and COOKIE ACK, after which both endpoints are established and agree: so the machine's
/// definitions aren't empty.
pub fn an_association_opens()
    ensures { AnAssociationOpens }
{}

/// And one that goes on with SHUTDOWN, SHUTDOWN ACK and SHUTDOWN COMPLETE, after which both endpoints are closed since both were done (RFC 9260, 9.2).
pub fn an_association_closes()
    ensures { AnAssociationCloses }
{}

/// And an endpoint that is closed stays closed, for the same reason, whatever arrives and whatever its user calls.
pub fn closed_for_good()
    ensures { ClosedForGood }
{}

/// Over every run of both endpoints that meets the premises, whichever way they are opened, however its packets are lost, repeated and reordered, and
/// whatever third parties send: until the listener has opened a cookie the caller isn't open; from then on both agree, for good, on first TSNs, streams,
/// I-DATA and partial reliability, and each goes by the other's tag (RFC 9260, 5.1 and 5.2).
pub fn the_ends_agree()
    ensures { EndsAgree }
{}

/// There is a run in which the INIT arrives twice, and is answered twice under other tags and TSNs: the caller takes the answer that arrives first, here
/// the second one, and drops the other; when its cookie arrives, both endpoints go by the tags that it says (RFC 9260, 5.2.3).
pub fn the_first_answer_counts()
    ensures { TheFirstAnswerCounts }
{}
