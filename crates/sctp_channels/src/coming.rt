//! What a message does to its stream (RFC 8831, 6.5 to 6.7; RFC 8832, 6).

ghost use Rattle.std.specs.Prelude.{◌≡◌, ℕ, List, Option, Some, None};
ghost use Rattle.sctp_dcep.specs.Dcep.{Opens, Acknowledges, Faulty};
ghost use Rattle.sctp_dcep.specs.Meanings.{fault_meaning};
ghost use Rattle.sctp_channels.specs.Meanings.{parameters_meaning, refusal_meaning, ignored_meaning};
ghost use Rattle.sctp_channels.specs.Told.{Ignores};
ghost use Rattle.sctp_channels.specs.declared.table.DtlsRole.{DtlsRole};
ghost use Rattle.sctp_channels.specs.Coming.{tells, refuses, begins, control_comes, content_comes, other_comes, comes_saying};
ghost use Rattle.sctp_channels.specs.inner.SaidMeans.{content_as, said_meaning, after_meaning};

use crate::event::{Ignored, Parameters, Refusal};
use crate::said::Said;
use crate::stream::{Due, State, Stream};
use crate::table::DtlsRole;
use sctp_dcep::ControlFault;

/// What is reported to the user of a message.
#[derive(Drop)]
pub(crate) enum Told {
    /// The peer opened a channel.
    Incoming(Parameters),
    /// The channel is open at the peer.
    Opened,
    /// A content.
    Message {
        /// It is text.
        text: bool,
        /// It is empty.
        empty: bool,
    },
    /// It opens no channel.
    Refused(Refusal),
    /// It is ignored.
    Ignored(Ignored),
}

/// What a message does.
#[derive(Drop)]
pub(crate) struct After {
    /// The stream after it.
    pub(crate) stream: Stream,
    /// What is reported to the user.
    pub(crate) told: Told,
    /// The message is taken by that; else it waits on.
    pub(crate) taken: bool,
}

/// This side: its role, and how many streams go out.
#[derive(Clone, Copy)]
pub(crate) struct Side {
    pub(crate) role: DtlsRole,
    pub(crate) outgoing: usize,
}

/// What a message that says this does to the stream of this number.
pub(crate) fn comes(side: Side, number: u16, said: Said, stream: Stream) -> After
    ensures { (bytes : List ℕ) → after_meaning bytes result ≡ comes_saying side.role side.outgoing number (said_meaning bytes said) stream }
{
    match said {
        Said::Open(parameters) => open_comes(side, number, parameters, stream),
        Said::Acknowledgement => ack_comes(stream),
        Said::Faulty(fault) => fault_comes(fault, stream),
        Said::Content { text, empty } => content_comes(text, empty, stream),
        Said::Other => other_comes(stream),
    }
}

/// An OPEN.
fn open_comes(side: Side, number: u16, parameters: Parameters, stream: Stream) -> After
    ensures { (bytes : List ℕ) → after_meaning bytes result
        ≡ control_comes side.role side.outgoing number stream.state (Opens (parameters_meaning parameters)) stream }
{
    match stream.state {
        State::Unused => begin(side, number, parameters, stream),
        State::Connecting | State::Unanswered | State::Open => ignore(Ignored::OpenAgain, stream),
        State::Closing | State::Silent => ignore(Ignored::Closing, stream),
        State::Refused => ignore(Ignored::Refused, stream),
    }
}

/// An OPEN on a stream without a channel.
fn begin(side: Side, number: u16, parameters: Parameters, stream: Stream) -> After
    ensures { (bytes : List ℕ) → after_meaning bytes result ≡ begins side.role side.outgoing number (parameters_meaning parameters) stream }
{
    if side.role.is_own(number) {
        return refuse(Refusal::WrongHalf, stream);
    }
    if side.outgoing <= usize::from(number) {
        return refuse(Refusal::NoWayBack, stream);
    }
    let opened = stream.with_channel(State::Open, parameters.ordered, parameters.reliability);
    After {
        stream: Stream {
            due: Due::Acknowledgement,
            ..opened
        },
        told: Told::Incoming(parameters),
        taken: true,
    }
}

/// An ACK.
fn ack_comes(stream: Stream) -> After
    ensures { (r : DtlsRole) (n s : ℕ) (bytes : List ℕ) → after_meaning bytes result ≡ control_comes r n s stream.state Acknowledges stream }
{
    match stream.state {
        State::Unused | State::Open => ignore(Ignored::StrayAck, stream),
        State::Connecting => After {
            stream: Stream {
                state: State::Open,
                ..stream
            },
            told: Told::Opened,
            taken: true,
        },
        State::Unanswered => ignore(
            Ignored::LateAck,
            Stream {
                state: State::Open,
                ..stream
            },
        ),
        State::Closing | State::Silent => ignore(Ignored::Closing, stream),
        State::Refused => ignore(Ignored::Refused, stream),
    }
}

/// A message of DCEP with this fault.
fn fault_comes(fault: ControlFault, stream: Stream) -> After
    ensures { (r : DtlsRole) (n s : ℕ) (bytes : List ℕ) → after_meaning bytes result ≡ control_comes r n s stream.state (Faulty (fault_meaning fault)) stream }
{
    match stream.state {
        State::Unused => refuse(Refusal::BadOpening(fault), stream),
        State::Connecting | State::Unanswered | State::Open => {
            ignore(Ignored::BadControl(fault), stream)
        }
        State::Closing | State::Silent => ignore(Ignored::Closing, stream),
        State::Refused => ignore(Ignored::Refused, stream),
    }
}

/// What the peer's application sent: text or not, empty or not.
fn content_comes(text: bool, empty: bool, stream: Stream) -> After
    ensures { (bytes : List ℕ) → after_meaning bytes result ≡ content_comes stream.state (content_as text empty bytes) stream }
{
    match stream.state {
        State::Unused => ignore(Ignored::NoChannel, stream),
        State::Connecting => After {
            stream: Stream {
                state: State::Unanswered,
                ..stream
            },
            told: Told::Opened,
            taken: false,
        },
        State::Unanswered | State::Open | State::Closing => After {
            stream,
            told: Told::Message { text, empty },
            taken: true,
        },
        State::Refused => ignore(Ignored::Refused, stream),
        State::Silent => ignore(Ignored::Closing, stream),
    }
}

/// A message with another payload protocol identifier.
fn other_comes(stream: Stream) -> After
    ensures { (bytes : List ℕ) → after_meaning bytes result ≡ other_comes stream.state stream }
{
    match stream.state {
        State::Unused => ignore(Ignored::NoChannel, stream),
        State::Connecting | State::Unanswered | State::Open => {
            ignore(Ignored::OtherPayload, stream)
        }
        State::Closing | State::Silent => ignore(Ignored::Closing, stream),
        State::Refused => ignore(Ignored::Refused, stream),
    }
}

/// The message is ignored for this reason.
fn ignore(why: Ignored, stream: Stream) -> After
    ensures { (bytes : List ℕ) → after_meaning bytes result ≡ tells (Ignores (ignored_meaning why)) stream }
{
    After {
        stream,
        told: Told::Ignored(why),
        taken: true,
    }
}

/// The message opens no channel, for this reason: this side's half of the stream is reset (RFC 8832, 6).
fn refuse(why: Refusal, stream: Stream) -> After
    ensures { (bytes : List ℕ) → after_meaning bytes result ≡ refuses (refusal_meaning why) stream }
{
    After {
        stream: Stream {
            state: State::Refused,
            due: Due::Reset,
            ..stream
        },
        told: Told::Refused(why),
        taken: true,
    }
}
