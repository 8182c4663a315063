//! One parameter of a RE-CONFIG that was received (RFC 6525, 4).

ghost use Rattle.std.specs.Prelude.{◌≡◌, ◌≤◌, length};
ghost use Rattle.sctp_model.specs.wire.Reconfig.{reset_read, is_parameter, is_other_request};
ghost use Rattle.sctp_wire.specs.TypedTree.{item};
ghost use Rattle.sctp_reconfig.specs.Meanings.{request_meaning, parameter_meaning};
ghost use Rattle.sctp_reconfig.specs.Reading.{parameter_read};

use crate::codes::{
    ADD_INCOMING, ADD_OUTGOING, INCOMING_RESET, OUTGOING_RESET, RECONFIG_RESPONSE, TSN_RESET,
};
use crate::numbers::read_u32;
use crate::streams::Streams;

/// The bytes of an Outgoing SSN Reset Request's numbers, before its streams.
const RESET_NUMBERS: usize = 12;
/// The bytes of a Re-configuration Response's sequence number and result.
const RESPONSE_NUMBERS: usize = 8;
/// The bytes of a sequence number.
const NUMBER: usize = 4;
/// The bytes of a request to add streams: its sequence number, how many, and what is reserved.
const ADD_NUMBERS: usize = 8;

/// A request of the peer to reset its outgoing streams (RFC 6525, 4.1). Its Re-configuration Response Sequence Number is not kept.
#[derive(Drop)]
pub struct ResetRequest<'a> {
    /// Its Re-configuration Request Sequence Number.
    pub number: u32,
    /// The last TSN that its sender had assigned.
    pub last: u32,
    /// Its streams.
    pub streams: Streams<'a>,
}

/// A parameter of a RE-CONFIG (RFC 6525, 4).
#[derive(Drop)]
pub enum Parameter<'a> {
    /// An Outgoing SSN Reset Request (RFC 6525, 4.1).
    Reset(ResetRequest<'a>),
    /// A Re-configuration Response; the TSNs that may follow its result are ignored (RFC 6525, 4.4).
    Response {
        /// The Re-configuration Response Sequence Number: that of the request.
        number: u32,
        /// The result: see [`is_done`](crate::is_done) and [`is_in_progress`](crate::is_in_progress). Any other is a refusal.
        code: u32,
    },
    /// A request of another kind: Incoming SSN Reset, SSN/TSN Reset, Add Outgoing or Add Incoming Streams (RFC 6525, 4.2, 4.3, 4.5 and
    /// 4.6).
    OtherRequest {
        /// Its Re-configuration Request Sequence Number.
        number: u32,
    },
    /// A parameter of any other type, or one too short for its type.
    Skipped,
}

/// What a parameter of this type with this value says.
pub(crate) fn read_parameter(kind: u16, value: &[u8]) -> Parameter<'_>
    ensures { parameter_meaning result ≡ parameter_read (item kind value.now) }
{
    if is_parameter(OUTGOING_RESET, RESET_NUMBERS, kind, value) {
        return Parameter::Reset(read_reset(value));
    }
    if is_parameter(RECONFIG_RESPONSE, RESPONSE_NUMBERS, kind, value) {
        return Parameter::Response {
            number: read_u32(value),
            code: read_u32(&value[4..]),
        };
    }
    if is_other_request(kind, value) {
        return Parameter::OtherRequest {
            number: read_u32(value),
        };
    }
    Parameter::Skipped
}

/// Whether a parameter has the type `wanted`, and a value of `least` bytes at least.
fn is_parameter(wanted: u16, least: usize, kind: u16, value: &[u8]) -> bool
    ensures { result ≡ is_parameter wanted least (item kind value.now) }
{
    kind == wanted && value.len() >= least
}

/// Whether a parameter is a request of another kind than an Outgoing SSN Reset Request.
fn is_other_request(kind: u16, value: &[u8]) -> bool
    ensures { result ≡ is_other_request (item kind value.now) }
{
    is_parameter(INCOMING_RESET, NUMBER, kind, value)
        || is_parameter(TSN_RESET, NUMBER, kind, value)
        || is_parameter(ADD_OUTGOING, ADD_NUMBERS, kind, value)
        || is_parameter(ADD_INCOMING, ADD_NUMBERS, kind, value)
}

/// The request in the value of an Outgoing SSN Reset Request.
fn read_reset(value: &[u8]) -> ResetRequest<'_>
    requires { 12 ≤ length value.now }
    ensures { request_meaning result ≡ reset_read (item OUTGOING_RESET value.now) }
{
    ResetRequest {
        number: read_u32(value),
        last: read_u32(&value[8..]),
        streams: Streams::new(&value[RESET_NUMBERS..]),
    }
}
