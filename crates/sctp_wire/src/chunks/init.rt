//! INIT and INIT ACK: an endpoint's offer to open an association (RFC 9260, 3.3.2 and 3.3.3).
//!
//! | at | size | field |
//! |---|---|---|
//! | 0 | 4 | initiate tag |
//! | 4 | 4 | a_rwnd |
//! | 8 | 2 | number of outbound streams |
//! | 10 | 2 | number of inbound streams |
//! | 12 | 4 | initial TSN |
//! | 16 | any | parameters |

ghost use Rattle.std.specs.Prelude.{◌≡◌, ◌↔◌, ◌+◌, ◌≤◌, true, ◌++◌, IsTrue, length, vec_len, vec_capacity};
ghost use Rattle.sctp_model.specs.wire.Chunk as meaning;
ghost use Rattle.sctp_wire.specs.ChunkTree.{init_meaning};
ghost use Rattle.sctp_wire.specs.Layouts.{Fits};
ghost use Rattle.sctp_wire.specs.chunks.Init.{init_value, has_init_numbers, has_init_list, init_at};

use crate::codes::LONGEST_VALUE;
use crate::numbers::{append, append_u16, append_u32, read_u16, read_u32};
use crate::typed::{Parameters, is_typed_list};

/// The bytes of the fixed fields in the value, before the parameters.
const NUMBERS: usize = 16;

/// What an endpoint offers in an INIT or INIT ACK.
#[derive(Drop)]
pub struct Init<'a> {
    /// The verification tag of packets to this endpoint (initiate tag).
    pub tag: u32,
    /// Its receive buffer in bytes (a_rwnd).
    pub rwnd: u32,
    /// The number of streams that it wants to send on.
    pub outbound: u16,
    /// The most streams that it accepts messages on.
    pub inbound: u16,
    /// Its initial TSN.
    pub tsn: u32,
    /// Its parameters; one of an INIT ACK is its cookie.
    pub parameters: Parameters<'a>,
}

/// Whether an offer can be written, as INIT or INIT ACK: the length fits 16 bits, and the parameters are the bytes that are written for them.
pub(crate) fn init_fits(offer: &Init<'_>) -> bool
    ensures init { IsTrue result ↔ Fits (meaning.Init (init_meaning offer.now)) }
    ensures init_ack { IsTrue result ↔ Fits (meaning.InitAck (init_meaning offer.now)) }
{
    let (_tag, _rwnd, _first) = (offer.tag, offer.rwnd, offer.tsn);
    let (_sends, _takes) = (offer.outbound, offer.inbound);
    offer.parameters.size() <= LONGEST_VALUE - NUMBERS && offer.parameters.is_plain()
}

/// Whether a value has the fixed fields.
pub(crate) fn is_init(value: &[u8]) -> bool
    ensures { result ≡ has_init_numbers value.now }
{
    value.len() >= NUMBERS
}

/// Whether what follows the fixed fields is a list of parameters.
pub(crate) fn has_parameters(value: &[u8]) -> bool
    requires { has_init_numbers value.now ≡ true }
    ensures { result ≡ has_init_list value.now }
{
    is_typed_list(&value[NUMBERS..])
}

/// The offer in a value.
#[tactic(auto, unfolding(crate::specs::chunks::Init::init_at))]
pub(crate) fn read_init(value: &[u8]) -> Init<'_>
    requires numbers { has_init_numbers value.now ≡ true }
    requires parameters { has_init_list value.now ≡ true }
    ensures { init_meaning result ≡ init_at value.now }
{
    Init {
        tag: read_u32(value),
        rwnd: read_u32(&value[4..]),
        outbound: read_u16(&value[8..]),
        inbound: read_u16(&value[10..]),
        tsn: read_u32(&value[12..]),
        parameters: Parameters::new(&value[NUMBERS..]),
    }
}

/// Appends the value, for which there is capacity.
pub(crate) fn append_init(out: &mut Vec<u8>, offer: &Init<'_>)
    requires { vec_len out.old + 16 + length offer.now.parameters ≤ vec_capacity out.old }
    ensures items { out.new.items ≡ out.old.items ++ init_value (init_meaning offer.now) }
    ensures len { vec_len out.new ≡ vec_len out.old + 16 + length offer.now.parameters }
    ensures room { vec_capacity out.old ≤ vec_capacity out.new }
{
    append_u32(out, offer.tag);
    append_u32(out, offer.rwnd);
    append_u16(out, offer.outbound);
    append_u16(out, offer.inbound);
    append_u32(out, offer.tsn);
    append(out, offer.parameters.bytes());
}
