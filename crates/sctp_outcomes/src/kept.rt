//! What each call of an endpoint leaves of all that its user notes of it, whatever arrives.
//!
//! No function here does anything: each carries laws as its contract.

ghost use Rattle.sctp_outcomes.specs.Few.{BuildsBeginFew};
ghost use Rattle.sctp_outcomes.specs.Kept.{AbandonKeepsLogs, AbortKeepsLogs, BuildsAddNumbers, ConnectKeepsLogs, CutPacketsKeepLogs, EmptyBuildsKeepLogs};
ghost use Rattle.sctp_outcomes.specs.Kept.{FreshHasNoLogs, MomentsKeepLogs, OpenedHasNoLogs, PacketsKeepLogs, ResetKeepsLogs, SendGivesTickets};
ghost use Rattle.sctp_outcomes.specs.Kept.{ShutdownKeepsLogs, TakeTakesOne, ToldKeepsLogs};
ghost use Rattle.sctp_outcomes.specs.ToldOnce.{BuildsTellAnew, RunsTellAnew};

/// Of an endpoint that is made, or opened without packets, nothing is noted: no ticket, no number, no message taken.
pub fn new_ends_have_no_logs()
    ensures fresh { FreshHasNoLogs }
    ensures opened { OpenedHasNoLogs }
{}

/// A packet that arrives, whole or cut short, and a time note nothing.
pub fn what_comes_keeps_logs()
    ensures packets { PacketsKeepLogs }
    ensures cut { CutPacketsKeepLogs }
    ensures moments { MomentsKeepLogs }
{}

/// Nor do connect, reset, shutdown, abort and abandon, and what is reported of the peer's resets; send notes a ticket exactly if it answers one, and take a
/// message exactly if it answers one (RFC 9260, 11.1; RFC 3758, 3.5; RFC 6525, 5).
pub fn calls_note_their_own()
    ensures connect { ConnectKeepsLogs }
    ensures reset { ResetKeepsLogs }
    ensures told { ToldKeepsLogs }
    ensures shutdown { ShutdownKeepsLogs }
    ensures abort { AbortKeepsLogs }
    ensures abandon { AbandonKeepsLogs }
    ensures send { SendGivesTickets }
    ensures take { TakeTakesOne }
{}

/// A packet that is built notes the tickets of the messages that it newly numbers, after all before them, and nothing else (RFC 9260, 6.9).
pub fn packets_note_their_numbers()
    ensures { BuildsAddNumbers }
{}

/// It begins a message for each 20 bytes after its header at most (RFC 9260, 3.3.1 and 6.9).
pub fn packets_begin_few_messages()
    ensures { BuildsBeginFew }
{}

/// If there is no packet to build, asking for it notes nothing.
pub fn no_packet_notes_nothing()
    ensures { EmptyBuildsKeepLogs }
{}

/// A ticket is reported once in the life of an endpoint: each packet that is built reports tickets of messages that had no TSN before and have one now, and
/// over every run, also of one that meets no premise, what was reported stays in its order, and no ticket is twice in it. So no later packet reports it
/// again (RFC 9260, 6.9).
pub fn tickets_are_told_once()
    ensures builds { BuildsTellAnew }
    ensures runs { RunsTellAnew }
{}
