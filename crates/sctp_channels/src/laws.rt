//! Laws: what is reported to a user was taken from the endpoint, and sent by the peer's user; and a reset of the peer's parts what is reported of a stream's channels.
//!
//! No function here does anything: each carries a law as its contract.

ghost use Rattle.sctp_channels.specs.Driven.{ChannelsAreFaithful, ResetsAreAllNoted};
ghost use Rattle.sctp_channels.specs.NextChannel.{CoursesKeepPlaces, NextChannelsAreNew};
ghost use Rattle.sctp_channels.specs.OneChannel.{ChannelsAreOne, TwoChannelsOnAStream};
ghost use Rattle.sctp_channels.specs.Promise.{ChannelsSayWhatWasSent, ClosedAtThePlace, ContentsAreTaken, PlacesAreKept, ResetsAreNoted, SecondResetsAreKept};

// law
/// A content that is reported is in the message that waited first on the channel's stream, and that message is taken from the endpoint (RFC 8831, 6.6).
pub fn contents_are_taken()
    ensures { ContentsAreTaken }
{}

// law
/// A reset of the peer's is noted with its place: how many messages of the stream were taken and wait that were delivered before it. A second one is kept for the
/// stream's next channel. Until this one is closed the place stays: each message of the stream that is taken is before it (RFC 8831, 6.7).
pub fn resets_are_noted()
    ensures noted { ResetsAreNoted }
    ensures kept { PlacesAreKept }
    ensures course { CoursesKeepPlaces }
{}

// law
/// A second reset of the peer's is noted with its place, too, which stays until the channel is reported closed; then it is the place of the stream's next
/// channel (RFC 8831, 6.7).
pub fn second_resets_are_kept()
    ensures { SecondResetsAreKept }
{}

// law
/// While the association lives, a channel is reported closed when all messages before the place were taken, and no other: so what is reported of the stream's next channel
/// was delivered after the reset (RFC 8831, 6.7).
pub fn closed_at_the_place()
    ensures { ClosedAtThePlace }
{}

// law
/// In every run that meets the three premises, if all that the peer's user sends on a stream are messages of DCEP and contents of channels, all messages that were taken
/// from it, and that wait, are matched with messages that were sent: each content with the same content, text with text, with the same bytes, none with two, the
/// ordered ones in the order in which they were sent; and each reset that was reported parts them: what was delivered after it was accepted after the peer's user reset the
/// stream (RFC 8831, 6.4 to 6.7).
pub fn channels_say_what_was_sent()
    ensures { ChannelsSayWhatWasSent }
{}

// law
/// And once a channel is reported closed for a reset of the peer's, all that is delivered on its stream is matched with messages that were accepted after the peer's user
/// reset the stream: across a reset no message of the old channel is reported on the next one. What was taken from the stream until then was accepted before the reset, if
/// some of it waited when the reset was reported (RFC 8831, 6.7).
pub fn next_channels_are_new()
    ensures { NextChannelsAreNew }
{}

// law
/// THE LAW OF CHANNELS. Where a table of channels drives each end of a run that meets the three premises, of each stream in each direction: the contents that are reported
/// are those of messages that were taken, each of one, in their order; all messages that were taken, and that wait, are matched with messages that the peer's user sent:
/// each content with the same content, text with text, with the same bytes, none with two, the ordered ones in the order in which they were sent; and whenever a
/// channel is reported closed, while the association lives, the peer's user had reset the stream, all that was taken until then was accepted before that reset,
/// and all that is delivered later was accepted after it: across a reset no message of the old channel is reported on the next one, and none of the next one on the old
/// (RFC 8831, 6.4 to 6.7).
pub fn channels_are_faithful()
    ensures { ChannelsAreFaithful }
{}

// law
/// Once all resets of the peer's are noted, as they are after each packet, none is left to be reported: so it is whenever a message is taken (RFC 6525, 5.2.2).
pub fn resets_are_all_noted()
    ensures { ResetsAreAllNoted }
{}

// law
/// CHANNELS ARE ONE. Where a table of channels drives each end of a run that meets the three premises, and each reset was noted whenever a packet arrived, as calls of channels
/// do: any two contents that are reported of a stream, without a report between that a channel of it is closed, are those of two messages between which the peer's user had no
/// reset of the stream accepted: what is reported on one channel was sent on one (RFC 8831, 6.7). And there is such a run in which two contents are reported on one channel, and a
/// third, after CLOSED, on the next one of its stream.
pub fn channels_are_one()
    ensures one { ChannelsAreOne }
    ensures two { TwoChannelsOnAStream }
{}
