//! A message of DCEP is written (RFC 8832, 5).

ghost use Rattle.std.specs.Prelude.{◌≡◌, ◌+◌, ◌*◌, ◌<◌, ◌≤◌, ◌^◌, ◌++◌, IfOk, length, vec_len, vec_capacity};
ghost use Rattle.sctp_dcep.specs.Dcep.{type_of, value_of, channel_type, opening};
ghost use Rattle.sctp_dcep.specs.Meanings.{reliability_meaning, opening_meaning};
ghost use Rattle.sctp_dcep.specs.Writing.{OpenAnswers, TextAnswers};

use crate::control::{Opening, Reliability};
use crate::numbers::{append, u16_bytes, u32_bytes};
use std::alloc::Global;
use thiserror::Error;

/// A DATA_CHANNEL_ACK (RFC 8832, 5.2).
pub const ACKNOWLEDGEMENT: u8 = 2;

/// The first byte of an OPEN.
const OPEN: u8 = 3;
/// The bytes of an OPEN before its texts.
const HEADER: usize = 12;

/// Why no OPEN is written.
#[derive(Clone, Copy, Debug, PartialEq, Eq, Error)]
pub enum OpenFault {
    /// Its label or its protocol has more than 65,535 bytes.
    #[error("label or protocol has more than 65,535 bytes")]
    TooLong,
    /// An allocation failed.
    #[error("memory allocation failed")]
    NoMemory,
}

/// A DATA_CHANNEL_OPEN with these parameters (RFC 8832, 5.1): 12 bytes and the two texts.
///
/// # Errors
/// `OpenFault::TooLong` exactly if the label or the protocol has more than 65,535 bytes, else `OpenFault::NoMemory` if an allocation failed.
pub fn write_open(alloc: Global, parameters: &Opening<'_>) -> Result<Vec<u8>, OpenFault>
    ensures { OpenAnswers (opening_meaning parameters.now) result }
{
    let label = text_len(parameters.label)?;
    let protocol = text_len(parameters.protocol)?;
    let size = HEADER + parameters.label.len() + parameters.protocol.len();
    let mut bytes = Vec::with_capacity(alloc, size).map_err(|_| OpenFault::NoMemory)?;
    append(&mut bytes, &[OPEN, channel_type(parameters)]);
    append(&mut bytes, &u16_bytes(parameters.priority));
    append(&mut bytes, &u32_bytes(value_of(parameters.reliability)));
    append(&mut bytes, &u16_bytes(label));
    append(&mut bytes, &u16_bytes(protocol));
    append(&mut bytes, parameters.label);
    append(&mut bytes, parameters.protocol);
    Ok(bytes)
}

/// The length of a text as a field of 16 bits.
fn text_len(text: &[u8]) -> Result<u16, OpenFault>
    ensures { TextAnswers (length text.now) result }
{
    u16::try_from(text.len()).map_err(|_| OpenFault::TooLong)
}

/// The channel type (RFC 8832, 5.1): its top bit is set if the channel is unordered.
fn channel_type(parameters: &Opening<'_>) -> u8
    ensures { result ≡ channel_type (opening_meaning parameters.now) }
{
    let unordered = if parameters.ordered { 0 } else { 128 };
    unordered + type_of(parameters.reliability)
}

/// The channel type without its top bit.
fn type_of(reliability: Reliability) -> u8
    ensures kind { result ≡ type_of (reliability_meaning reliability) }
    ensures small { result < 3 }
{
    match reliability {
        Reliability::Reliable => 0,
        Reliability::MaxRetransmits(_) => 1,
        Reliability::MaxPacketLifetime(_) => 2,
    }
}

/// The reliability parameter.
fn value_of(reliability: Reliability) -> u32
    ensures { result ≡ value_of (reliability_meaning reliability) }
{
    match reliability {
        Reliability::Reliable => 0,
        Reliability::MaxRetransmits(times) => times,
        Reliability::MaxPacketLifetime(milliseconds) => milliseconds,
    }
}
