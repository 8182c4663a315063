//! Appending a parameter to the bytes of a RE-CONFIG that is to be sent: its bytes are appended, or nothing is (RFC 6525, 4.1 and 4.4).

ghost use Rattle.std.specs.Prelude.{◌≡◌, ◌+◌, ◌-◌, ◌*◌, ◌<◌, ◌≤◌, ◌^◌, List, [], ◌∷◌, ◌++◌, length, vec_len, vec_capacity, IsOk, OnOk, OnErr};
ghost use Rattle.sctp_model.specs.numbers.Numbers.{u16_bytes};
ghost use Rattle.sctp_model.specs.wire.Chunk.{padded};
ghost use Rattle.sctp_model.specs.wire.Typed.{Typed, filled, typed_bytes, WritesTyped};
ghost use Rattle.sctp_model.specs.wire.Reconfig.{reset_item, response_item};
ghost use Rattle.sctp_reconfig.specs.Meanings.{own_meaning, result_meaning};

use crate::codes::{MOST_STREAMS, OUTGOING_RESET, RECONFIG_RESPONSE};
use crate::numbers::{append_u16, append_u16s, append_u32, append_zeros};
use crate::result::ResetResult;
use sctp_wire::{NoMemory, padded};

/// The bytes of an Outgoing SSN Reset Request before its streams.
const RESET_HEADER: usize = 16;
/// The bytes of a Re-configuration Response without TSNs.
const RESPONSE: usize = 12;

/// A reset of this endpoint's outgoing streams, to be requested of the peer (RFC 6525, 4.1).
#[derive(Clone, Copy)]
pub struct OwnReset<'a> {
    /// Its Re-configuration Request Sequence Number.
    pub number: u32,
    /// The last TSN that this endpoint has assigned.
    pub last: u32,
    /// Its streams, at most [`MOST_STREAMS`]; all outgoing streams if there is none.
    pub streams: &'a [u16],
}

/// Pads a list of parameters to a multiple of 4 bytes with zeros, and appends an Outgoing SSN Reset Request (RFC 6525, 4.1); `answered`
/// is the Re-configuration Response Sequence Number, that of the peer's last request.
///
/// # Errors
/// `NoMemory` if allocation fails; the list is then unchanged.
pub fn put_reset(out: &mut Vec<u8>, answered: u32, request: &OwnReset<'_>) -> Result<(), NoMemory>
    requires { length request.now.streams.now ≤ MOST_STREAMS }
    ensures bytes { OnOk result (out.new.items ≡ filled out.old.items ++ typed_bytes (reset_item answered (own_meaning request.now))) }
    // Appended to what is written for a list, it is what is written for its items and this one.
    ensures writes { (items : List Typed) → WritesTyped out.old.items items
        → OnOk result (WritesTyped out.new.items (items ++ reset_item answered (own_meaning request.now) ∷ [])) }
    ensures len { OnOk result (vec_len out.new ≡ padded (vec_len out.old) + 16 + 2 * length request.now.streams.now) }
    ensures refused { OnErr result (out.new.items ≡ out.old.items) }
    ensures memory { padded (vec_len out.old) + 16 + 2 * length request.now.streams.now ≤ vec_capacity out.old → IsOk result }
{
    let size = RESET_HEADER + 2 * request.streams.len();
    begin_parameter(out, OUTGOING_RESET, size)?;
    append_u32(out, request.number);
    append_u32(out, answered);
    append_u32(out, request.last);
    append_u16s(out, request.streams);
    Ok(())
}

/// Pads a list of parameters to a multiple of 4 bytes with zeros, and appends a Re-configuration Response to the request with the sequence
/// number `number`, without TSNs (RFC 6525, 4.4).
///
/// # Errors
/// `NoMemory` if allocation fails; the list is then unchanged.
pub fn put_response(out: &mut Vec<u8>, number: u32, answer: ResetResult) -> Result<(), NoMemory>
    ensures bytes { OnOk result (out.new.items ≡ filled out.old.items ++ typed_bytes (response_item number (result_meaning answer))) }
    // Appended to what is written for a list, it is what is written for its items and this one.
    ensures writes { (items : List Typed) → WritesTyped out.old.items items
        → OnOk result (WritesTyped out.new.items (items ++ response_item number (result_meaning answer) ∷ [])) }
    ensures len { OnOk result (vec_len out.new ≡ padded (vec_len out.old) + 12) }
    ensures refused { OnErr result (out.new.items ≡ out.old.items) }
    ensures memory { padded (vec_len out.old) + 12 ≤ vec_capacity out.old → IsOk result }
{
    begin_parameter(out, RECONFIG_RESPONSE, RESPONSE)?;
    append_u32(out, number);
    append_u32(out, answer.code());
    Ok(())
}

/// Reserves capacity for the padding of the list and a parameter of `size` bytes, and appends the padding and the parameter's header.
///
/// # Errors
/// `NoMemory` if allocation fails; the list is then unchanged.
fn begin_parameter(out: &mut Vec<u8>, kind: u16, size: usize) -> Result<(), NoMemory>
    requires least { 4 ≤ size }
    requires small { size < 2 ^ 16 }
    ensures header { OnOk result (out.new.items ≡ filled out.old.items ++ (u16_bytes kind ++ u16_bytes size)) }
    ensures len { OnOk result (vec_len out.new ≡ padded (vec_len out.old) + 4) }
    ensures spare { OnOk result (vec_len out.new + (size - 4) ≤ vec_capacity out.new) }
    ensures refused { OnErr result (out.new.items ≡ out.old.items) }
    ensures memory { padded (vec_len out.old) + size ≤ vec_capacity out.old → IsOk result }
{
    let gap = padded(out.len()) - out.len();
    out.reserve(gap + size).map_err(|_| NoMemory)?;
    append_zeros(out, gap);
    append_u16(out, kind);
    append_u16(out, size as u16);
    Ok(())
}
