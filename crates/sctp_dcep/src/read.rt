//! A message of DCEP is read (RFC 8832, 5). Nothing is copied.

ghost use Rattle.std.specs.Prelude.{◌≡◌, ◌≤◌, length, option_map};
ghost use Rattle.sctp_dcep.specs.Dcep.{control_of, opening_of, opening_read, reliability_of, acknowledgement_of};
ghost use Rattle.sctp_dcep.specs.Meanings.{reliability_meaning, control_meaning};

use crate::control::{Control, ControlFault, Opening, Reliability};
use crate::numbers::{read_u16, read_u32};

/// The first byte of a DATA_CHANNEL_ACK (RFC 8832, 8.2.1).
const ACK: u8 = 2;
/// The first byte of a DATA_CHANNEL_OPEN (RFC 8832, 8.2.1).
const OPEN: u8 = 3;
/// The bytes of an OPEN between its channel type and its texts.
const FIELDS: usize = 10;

/// What a message of DCEP says: one with the payload protocol identifier [`DCEP`](crate::DCEP). What follows the texts of an OPEN is ignored.
///
/// # Errors
/// Its first fault.
pub fn read_control(bytes: &[u8]) -> Result<Control<'_>, ControlFault>
    ensures { control_meaning result ≡ control_of bytes.now }
{
    let Some((kind, rest)) = bytes.split_first() else {
        return Err(ControlFault::UnknownMessage);
    };
    match *kind {
        OPEN => read_open(rest),
        ACK => read_acknowledgement(rest),
        _ => Err(ControlFault::UnknownMessage),
    }
}

/// What an OPEN says, after its first byte.
fn read_open(bytes: &[u8]) -> Result<Control<'_>, ControlFault>
    ensures { control_meaning result ≡ opening_of bytes.now }
{
    let Some((kind, fields)) = bytes.split_first() else {
        return Err(ControlFault::OpenCutShort);
    };
    if fields.len() < FIELDS {
        return Err(ControlFault::OpenCutShort);
    }
    read_fields(*kind, fields)
}

/// What an OPEN of this channel type says with these fields and texts.
fn read_fields(kind: u8, fields: &[u8]) -> Result<Control<'_>, ControlFault>
    requires { 10 ≤ length fields.now }
    ensures { control_meaning result ≡ opening_read kind fields.now }
{
    let label = usize::from(read_u16(&fields[6..]));
    let protocol = usize::from(read_u16(&fields[8..]));
    if fields.len() < FIELDS + (label + protocol) {
        return Err(ControlFault::OpenCutShort);
    }
    let texts = &fields[FIELDS..];
    let behind = &texts[label..];
    match reliability_of(kind % 128, read_u32(&fields[2..])) {
        Some(reliability) => Ok(Control::Open(Opening {
            label: &texts[..label],
            protocol: &behind[..protocol],
            ordered: kind < 128,
            reliability,
            priority: read_u16(fields),
        })),
        None => Err(ControlFault::UnknownType),
    }
}

/// The reliability, by a channel type without its top bit and the reliability parameter (RFC 8832, 5.1).
fn reliability_of(kind: u8, value: u32) -> Option<Reliability>
    ensures { option_map reliability_meaning result ≡ reliability_of kind value }
{
    match kind {
        0 => Some(Reliability::Reliable),
        1 => Some(Reliability::MaxRetransmits(value)),
        2 => Some(Reliability::MaxPacketLifetime(value)),
        _ => None,
    }
}

/// What an ACK says, after its first byte.
fn read_acknowledgement(bytes: &[u8]) -> Result<Control<'_>, ControlFault>
    ensures { control_meaning result ≡ acknowledgement_of bytes.now }
{
    if bytes.is_empty() {
        Ok(Control::Acknowledgement)
    } else {
        Err(ControlFault::AckWithMore)
    }
}
