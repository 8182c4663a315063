//! A caller reads an INIT ACK: its cookie, or why it is refused, and what is reported to the peer (RFC 9260, 5.1.2 and 3.3.3).

ghost use Rattle.std.specs.Prelude.{◌≡◌, ◌≤◌, ◌<◌, ◌+◌, ◌^◌, true, length, Some, None, MatchResult, IfOk, OnOk, OnErr};
ghost use Rattle.sctp_model.specs.wire.Chunk.{InitMeaning};
ghost use Rattle.sctp_model.specs.numbers.Numbers.{AreBytes};
ghost use Rattle.sctp_model.specs.wire.Typed.{AreAsWritten, WritesTyped, are_typed};
ghost use Rattle.sctp_model.specs.end.EndView.{EndView};
ghost use Rattle.sctp_model.specs.end.Options.{value_of};
ghost use Rattle.sctp_model.specs.end.Opening.{ack_fault, ack_causes};
ghost use Rattle.sctp_model.specs.end.PeerFaults.{packet_to, abort_for};
ghost use Rattle.sctp_wire.specs.ChunkTree.{init_meaning};
ghost use Rattle.sctp_packet.specs.PacketBytes.{WritesPacket};
ghost use Rattle.sctp_opening.specs.AckFaults.{cause_of};

use crate::options::has_no_stream;
use crate::packets::{abort_packet, room_behind};
use crate::parameters::{put_unrecognized, value_of};
use sctp_terms::Config;
use sctp_wire::codes::{
    INVALID_PARAMETER, MISSING_PARAMETER, OUT_OF_RESOURCE, STATE_COOKIE, UNRECOGNIZED_PARAMETERS,
};
use sctp_wire::{Init, NoMemory, Parameters, padded, put_cause};
use std::alloc::Global;

/// Why an INIT ACK is refused: the first of these that applies.
#[derive(Clone, Copy, Debug, PartialEq, Eq)]
pub enum AckFault {
    /// It has no outbound or no inbound stream (RFC 9260, 3.3.3).
    NoStream,
    /// It has no State Cookie (RFC 9260, 5.1.2).
    NoCookie,
    /// Its cookie doesn't fit a COOKIE ECHO of one packet.
    LargeCookie,
}

/// The State Cookie of an INIT ACK, for the COOKIE ECHO. It takes no memory.
///
/// # Errors
/// Why the INIT ACK is refused; the reply is then [`ack_abort`].
pub fn cookie_of<'a>(config: &Config, offer: &Init<'a>) -> Result<&'a [u8], AckFault>
    ensures { (e : EndView) → e.configuration ≡ config.now → MatchResult result
        (λ cookie. (value_of STATE_COOKIE offer.now.parameters ≡ Some cookie.now) × (ack_fault e (init_meaning offer.now) (Some cookie.now) ≡ None))
        (λ fault. ack_fault e (init_meaning offer.now) (value_of STATE_COOKIE offer.now.parameters) ≡ Some (cause_of fault)) }
{
    if has_no_stream(offer) {
        return Err(AckFault::NoStream);
    }
    let Some(cookie) = value_of(STATE_COOKIE, &offer.parameters) else {
        return Err(AckFault::NoCookie);
    };
    if cookie.len() > room_behind(config, 4) {
        return Err(AckFault::LargeCookie);
    }
    Ok(cookie)
}

/// The packet with the ABORT that answers a refused INIT ACK, with the error cause of that fault; `tag` is the INIT ACK's initiate tag (RFC 9260,
/// 3.3.10).
///
/// # Errors
/// `NoMemory` if an allocation failed.
#[tactic(auto, unfolding(sctp_model::specs::numbers::Numbers::u16_bytes, sctp_model::specs::numbers::Numbers::u32_bytes))]
pub fn ack_abort(
    alloc: Global,
    config: &Config,
    tag: u32,
    fault: AckFault,
) -> Result<Vec<u8>, NoMemory>
    ensures packet { IfOk result (λ packet. WritesPacket packet.items (packet_to config.now tag (abort_for (cause_of fault)))) }
    ensures within { IfOk result (λ packet. length packet.items ≤ config.now.limit) }
{
    // Its contract bounds the limit, so each cause fits a packet.
    let _limit = config.limit();
    match fault {
        AckFault::NoStream => abort_packet(alloc, config, tag, INVALID_PARAMETER, &[]),
        // One parameter is missing, of the type State Cookie.
        AckFault::NoCookie => {
            abort_packet(alloc, config, tag, MISSING_PARAMETER, &[0, 0, 0, 1, 0, 7])
        }
        AckFault::LargeCookie => abort_packet(alloc, config, tag, OUT_OF_RESOURCE, &[]),
    }
}

/// Appends to the causes of the next ERROR one that reports the unrecognized parameters of an INIT ACK, as many as fit a packet with that ERROR; none
/// if nothing is to be reported or nothing fits (RFC 9260, 3.2.2 and 3.3.10.8).
///
/// # Errors
/// `NoMemory` if an allocation failed; the causes are then unchanged.
pub fn put_ack_report(
    alloc: Global,
    config: &Config,
    parameters: &Parameters<'_>,
    causes: &mut Vec<u8>,
) -> Result<(), NoMemory>
    requires { length causes.old.items < 2 ^ 16 }
    ensures step { (e : EndView) (m : InitMeaning) → e.configuration ≡ config.now → m.parameters ≡ parameters.now
        → WritesTyped causes.old.items e.due.causes → OnOk result (WritesTyped causes.new.items (ack_causes e m)) }
    // Causes that are a list, as it is written, and short enough for a chunk stay so.
    ensures listed { AreAsWritten causes.old.items → OnOk result (are_typed causes.new.items ≡ true) }
    ensures plain { AreAsWritten causes.old.items → OnOk result (AreAsWritten causes.new.items) }
    ensures short { 4 + length causes.old.items < 2 ^ 16 → OnOk result (4 + length causes.new.items < 2 ^ 16) }
    ensures refused { OnErr result (causes.new.items ≡ causes.old.items) }
{
    are_bytes(causes);
    let used = padded(causes.len()) + 4;
    let room = room_behind(config, 4);
    if used > room {
        return Ok(());
    }
    let mut list = Vec::new(alloc);
    put_unrecognized(parameters, room - used, &mut list)?;
    if list.is_empty() {
        return Ok(());
    }
    put_cause(UNRECOGNIZED_PARAMETERS, &list, causes)?;
    Ok(())
}

/// What a slice of `u8` holds are bytes, each below 256.
// law
fn are_bytes(bytes: &[u8])
    ensures { AreBytes bytes.now }
{
    let _ = bytes;
}
