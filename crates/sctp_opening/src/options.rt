//! What an endpoint offers in INIT and in INIT ACK, and which extensions are used (RFC 9260, 3.3.2 and 3.3.3; RFC 3758, 3.1 and 3.3;
//! RFC 6525, 5.1; RFC 8260, 2.2.1 and 2.3.1).

ghost use Rattle.std.specs.Prelude.{◌≡◌, List, ◌++◌, true, false, IfOk, OnOk, OnErr};
ghost use Rattle.sctp_model.specs.wire.Typed.{Typed, WritesTyped, are_typed};
ghost use Rattle.sctp_model.specs.end.Options.{own_extensions, own_options, agreed_interleave, agreed_partial, agreed_reset, lists_type, value_of};
ghost use Rattle.sctp_model.specs.end.Opening.{has_no_stream, introduction, own_init};
ghost use Rattle.sctp_wire.specs.ChunkTree.{init_meaning};
ghost use Rattle.sctp_packet.specs.Draft.{has_room, after_try};

use crate::parameters::value_of;
use sctp_packet::PacketWriter;
use sctp_reconfig::RECONFIG;
use sctp_terms::{Config, Draw};
use sctp_wire::codes::{
    FORWARD_TSN, FORWARD_TSN_SUPPORTED, I_DATA, I_FORWARD_TSN, SUPPORTED_EXTENSIONS,
};
use sctp_wire::{Chunk, Init, NoMemory, Parameters, put_parameter};
use std::alloc::Global;

/// Whether I-DATA is used: this endpoint is configured for it, and its peer lists the chunk type (RFC 8260, 2.2.1).
pub(crate) fn agreed_interleave(config: &Config, parameters: &Parameters<'_>) -> bool
    ensures { result ≡ agreed_interleave config.now parameters.now }
{
    config.interleave() && lists_type(I_DATA, parameters)
}

/// Whether partial reliability is used: this endpoint is configured for it, and its peer supports it (RFC 3758, 3.3); with I-DATA the peer also
/// lists I-FORWARD-TSN (RFC 8260, 2.3.1).
pub(crate) fn agreed_partial(config: &Config, parameters: &Parameters<'_>) -> bool
    ensures { result ≡ agreed_partial config.now parameters.now }
{
    config.partial()
        && value_of(FORWARD_TSN_SUPPORTED, parameters).is_some()
        && (!agreed_interleave(config, parameters) || lists_type(I_FORWARD_TSN, parameters))
}

/// Whether streams can be reset: this endpoint is configured for it, and its peer lists RE-CONFIG (RFC 6525, 5.1).
pub(crate) fn agreed_reset(config: &Config, parameters: &Parameters<'_>) -> bool
    ensures { result ≡ agreed_reset config.now parameters.now }
{
    config.reset() && lists_type(RECONFIG, parameters)
}

/// Whether the peer lists a chunk type among its extensions (RFC 5061, 4.2.7).
fn lists_type(kind: u8, parameters: &Parameters<'_>) -> bool
    ensures { result ≡ lists_type kind (value_of SUPPORTED_EXTENSIONS parameters.now) }
{
    match value_of(SUPPORTED_EXTENSIONS, parameters) {
        Some(kinds) => kinds.contains(&kind),
        None => false,
    }
}

/// The chunk types of this endpoint's extensions, in ascending order (RFC 5061, 4.2.7).
fn extensions(config: &Config) -> &'static [u8]
    ensures { result.now ≡ own_extensions config.now }
{
    match (config.interleave(), config.reset(), config.partial()) {
        (false, false, false) => &[],
        (false, false, true) => &[FORWARD_TSN],
        (false, true, false) => &[RECONFIG],
        (false, true, true) => &[RECONFIG, FORWARD_TSN],
        (true, false, false) => &[I_DATA],
        (true, false, true) => &[I_DATA, FORWARD_TSN, I_FORWARD_TSN],
        (true, true, false) => &[I_DATA, RECONFIG],
        (true, true, true) => &[I_DATA, RECONFIG, FORWARD_TSN, I_FORWARD_TSN],
    }
}

/// Appends this endpoint's extensions to a list of parameters.
pub(crate) fn put_options(config: &Config, list: &mut Vec<u8>) -> Result<(), NoMemory>
    ensures { (xs : List Typed) → WritesTyped list.old.items xs → OnOk result (WritesTyped list.new.items (xs ++ own_options config.now)) }
{
    // Its contract says that no endpoint is configured for zero checksums.
    let _limit = config.limit();
    if config.partial() {
        put_parameter(FORWARD_TSN_SUPPORTED, &[], list)?;
    }
    let kinds = extensions(config);
    if !kinds.is_empty() {
        put_parameter(SUPPORTED_EXTENSIONS, kinds, list)?;
    }
    Ok(())
}

/// Whether an INIT or an INIT ACK has no outbound or no inbound stream (RFC 9260, 3.3.2 and 3.3.3).
pub(crate) fn has_no_stream(offer: &Init<'_>) -> bool
    ensures { result ≡ has_no_stream (init_meaning offer.now) }
{
    offer.outbound == 0 || offer.inbound == 0
}

/// The fields of this endpoint's INIT or INIT ACK, with these parameters.
pub(crate) fn introduction<'a>(config: &Config, draw: Draw, parameters: &'a [u8]) -> Init<'a>
    requires { are_typed parameters.now ≡ true }
    ensures { init_meaning result ≡ introduction config.now draw parameters.now }
{
    // Its contract says that no space is reserved.
    let _limit = config.limit();
    Init {
        tag: draw.tag(),
        rwnd: config.buffer(),
        outbound: config.outbound(),
        inbound: config.inbound(),
        tsn: draw.tsn(),
        parameters: Parameters::new(parameters),
    }
}

/// Appends a caller's INIT, with its verification tag and initial TSN `draw`, to a packet (RFC 9260, 5.1, A). False exactly if it doesn't fit; into an
/// empty packet it always does. The packet is then unchanged.
///
/// # Errors
/// `NoMemory` if an allocation failed; the packet is then unchanged.
pub fn put_init(
    alloc: Global,
    config: &Config,
    draw: Draw,
    writer: &mut PacketWriter,
) -> Result<bool, NoMemory>
    ensures answer { IfOk result (λ put. put ≡ has_room writer.old (own_init config.now draw)) }
    ensures after { IfOk result (λ put. writer.new ≡ after_try writer.old (own_init config.now draw) put) }
    ensures unchanged { OnErr result (writer.new ≡ writer.old) }
{
    let mut list = Vec::new(alloc);
    put_options(config, &mut list)?;
    writer.try_chunk(&Chunk::Init(introduction(config, draw, &list)))
}
