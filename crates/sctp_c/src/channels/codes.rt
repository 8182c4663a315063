//! The numbers that C gets of channels: results, kinds of events, reasons.

ghost use Rattle.std.specs.Prelude.{◌≡◌};
ghost use Rattle.sctp_dcep.specs.Meanings.{fault_meaning};
ghost use Rattle.sctp_channels.specs.Meanings.{refusal_meaning, ignored_meaning};
ghost use Rattle.sctp_c.specs.channels.Codes.{open_code, message_code, close_code, fault_number, refusal_number, ignored_number};

use crate::codes::{NO_CHANNEL, NO_STREAM, OUT_OF_RANGE, TOO_LONG, USED, WRONG_HALF};
use crate::resets::code_of;
use crate::sending::send_code;
use sctp_channels::{CloseFault, ControlFault, Ignored, OpenFault, Refusal, SendFault};

/// The result if no channel is opened.
pub(crate) fn open_code(why: OpenFault) -> u32
    ensures { result ≡ open_code why }
{
    match why {
        OpenFault::TooLong => TOO_LONG,
        OpenFault::OutOfRange => OUT_OF_RANGE,
        OpenFault::NoStream => NO_STREAM,
        OpenFault::WrongHalf => WRONG_HALF,
        OpenFault::Used => USED,
        OpenFault::Refused(why) => send_code(why),
    }
}

/// The result if a message isn't sent.
pub(crate) fn message_code(why: SendFault) -> u32
    ensures { result ≡ message_code why }
{
    match why {
        SendFault::NoChannel => NO_CHANNEL,
        SendFault::Refused(why) => send_code(why),
    }
}

/// The result if a channel isn't closed.
pub(crate) fn close_code(why: CloseFault) -> u32
    ensures { result ≡ close_code why }
{
    match why {
        CloseFault::NoChannel => NO_CHANNEL,
        CloseFault::Refused(why) => code_of(Err(why)),
    }
}

/// The number of a fault of a message of DCEP.
fn fault_number(why: ControlFault) -> u32
    ensures { result ≡ fault_number (fault_meaning why) }
{
    match why {
        ControlFault::UnknownMessage => 1,
        ControlFault::OpenCutShort => 2,
        ControlFault::AckWithMore => 3,
        ControlFault::UnknownType => 4,
    }
}

/// The number of why the peer is refused.
pub(crate) fn refusal_number(why: Refusal) -> u32
    ensures { result ≡ refusal_number (refusal_meaning why) }
{
    match why {
        Refusal::BadOpening(fault) => fault_number(fault),
        Refusal::WrongHalf => 5,
        Refusal::NoWayBack => 6,
    }
}

/// The number of why a message of the peer is ignored.
pub(crate) fn ignored_number(why: Ignored) -> u32
    ensures { result ≡ ignored_number (ignored_meaning why) }
{
    match why {
        Ignored::BadControl(fault) => fault_number(fault),
        Ignored::NoChannel => 7,
        Ignored::OpenAgain => 8,
        Ignored::StrayAck => 9,
        Ignored::LateAck => 10,
        Ignored::OtherPayload => 11,
        Ignored::Closing => 12,
        Ignored::Refused => 13,
    }
}
