//! What a message says (RFC 8831, 6.6 and 8; RFC 8832, 5).

ghost use Rattle.std.specs.Prelude.{◌≡◌, ℕ, List, ◌++◌, IfOk, Some, option_map};
ghost use Rattle.sctp_recv.specs.HandedOf.{message_bytes, handed_of};
ghost use Rattle.sctp_dcep.specs.Dcep.{control_of, Opens};
ghost use Rattle.sctp_dcep.specs.Meanings.{opening_meaning};
ghost use Rattle.sctp_channels.specs.Meanings.{parameters_meaning};
ghost use Rattle.sctp_channels.specs.Coming.{said_in, OfDcep};
ghost use Rattle.sctp_dcep.specs.Content.{content_of};
ghost use Rattle.sctp_channels.specs.inner.SaidMeans.{said_meaning, SaysContent, kind_meaning, content_told};

use crate::event::Parameters;
use crate::stream::State;
use sctp_dcep::{Content, Control, ControlFault, DCEP, Opening, read_content, read_control};
use sctp_endpoint::Message;
use sctp_values::NoMemory;
use std::alloc::Global;

/// What a message says.
#[derive(Drop)]
pub(crate) enum Said {
    /// DATA_CHANNEL_OPEN
    Open(Parameters),
    /// DATA_CHANNEL_ACK
    Acknowledgement,
    /// A message of DCEP with a fault.
    Faulty(ControlFault),
    /// What the peer's application sent: its bytes, or nothing.
    Content {
        /// It is text.
        text: bool,
        /// It is empty, whatever bytes the message has.
        empty: bool,
    },
    /// It has a payload protocol identifier of none of these.
    Other,
}

/// What kind of content a message is.
#[derive(Clone, Copy)]
pub(crate) struct ContentKind {
    /// It is text.
    pub(crate) text: bool,
    /// It is empty, whatever bytes the message has.
    pub(crate) empty: bool,
}

/// What this message says. Only a message of DCEP is copied.
///
/// # Errors
/// `NoMemory` if an allocation failed.
pub(crate) fn read_message(alloc: Global, message: &Message) -> Result<Said, NoMemory>
    ensures { IfOk result (λ said. said_meaning (message_bytes message.now) said ≡ said_in (handed_of message.now)) }
{
    if message.payload_id == DCEP {
        let mut bytes = Vec::new(alloc);
        message.copy_to(&mut bytes)?;
        control_said(alloc, &bytes)
    } else {
        Ok(content_said(message.payload_id))
    }
}

/// What these bytes of a message of DCEP say.
///
/// # Errors
/// `NoMemory` if an allocation failed.
fn control_said(alloc: Global, bytes: &[u8]) -> Result<Said, NoMemory>
    ensures { IfOk result (λ said. said_meaning bytes.now said ≡ OfDcep (control_of bytes.now)) }
{
    match read_control(bytes) {
        Ok(Control::Open(opening)) => Ok(Said::Open(parameters_of(alloc, &opening)?)),
        Ok(Control::Acknowledgement) => Ok(Said::Acknowledgement),
        Err(fault) => Ok(Said::Faulty(fault)),
    }
}

/// The parameters, copied.
///
/// # Errors
/// `NoMemory` if an allocation failed.
fn parameters_of(alloc: Global, opening: &Opening<'_>) -> Result<Parameters, NoMemory>
    ensures { IfOk result (λ p. parameters_meaning p ≡ opening_meaning opening.now) }
{
    Ok(Parameters {
        label: Vec::from_slice(alloc, opening.label).map_err(|_| NoMemory)?,
        protocol: Vec::from_slice(alloc, opening.protocol).map_err(|_| NoMemory)?,
        ordered: opening.ordered,
        reliability: opening.reliability,
        priority: opening.priority,
    })
}

/// What a message with this payload protocol identifier says, if that isn't DCEP: the identifier alone decides it, so any bytes will do.
fn content_said(payload_id: u32) -> Said
    ensures { SaysContent payload_id result }
{
    match content_kind(payload_id) {
        Some(kind) => Said::Content {
            text: kind.text,
            empty: kind.empty,
        },
        None => Said::Other,
    }
}

/// What kind of content a message with this payload protocol identifier is; None if it is none.
fn content_kind(payload_id: u32) -> Option<ContentKind>
    ensures { (bytes : List ℕ) → option_map (kind_meaning bytes) result ≡ content_of payload_id bytes }
{
    match read_content(payload_id, &[0]) {
        Some(Content::Text(bytes)) => Some(ContentKind {
            text: true,
            empty: bytes.is_empty(),
        }),
        Some(Content::Binary(bytes)) => Some(ContentKind {
            text: false,
            empty: bytes.is_empty(),
        }),
        None => None,
    }
}

/// What kind of content is told of a message with this payload protocol identifier on a stream in this state; None unless a content is all that it
/// tells, and nothing else of the stream changes.
pub(crate) fn content_told(state: State, payload_id: u32) -> Option<ContentKind>
    ensures { (bytes : List ℕ) → option_map (kind_meaning bytes) result ≡ content_told state payload_id bytes }
{
    match state {
        State::Unanswered | State::Open | State::Closing => content_kind(payload_id),
        State::Unused | State::Connecting | State::Refused | State::Silent => None,
    }
}
