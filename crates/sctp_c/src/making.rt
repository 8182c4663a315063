//! How C makes an endpoint, and frees it.

ghost use Rattle.std.specs.Prelude.{◌≡◌, ◌<◌, ◌⊎◌, ◌==◌, ◌&&◌, false, true, None, Some};
ghost use Rattle.sctp_model.specs.end.Sealing.{Sealing};
ghost use Rattle.sctp_model.specs.end.EndView as model;
ghost use Rattle.sctp_model.specs.end.EndView.{fresh_end};
ghost use Rattle.sctp_model.specs.end.Opening.{opened};
ghost use Rattle.sctp_cookie.specs.Seals.{IsUnder};
ghost use Rattle.sctp_endpoint.specs.Counted.{none_counted};
ghost use Rattle.sctp_c.specs.Counts.{counted_in};
ghost use Rattle.sctp_c.specs.Slot.{is_full};
ghost use Rattle.sctp_c.specs.Holds.{Holds};
ghost use Rattle.sctp_c.specs.Asked.{asked_by, drawn, is_zeroed, is_free, is_zero_key, IsMade, IsListening};

use crate::codes::{BAD_DRAW, BAD_RESERVED, MISUSE, NO_MEMORY, OK, ZERO_KEY};
use crate::config::{config_answer, config_of, is_free, is_zeroed};
use crate::crossing::{SctpConfig, SctpDraw, SctpKey};
use crate::handle::SctpEndpoint;
use crate::key::is_zero;
use sctp_endpoint::{Draw, Endpoint, Key};
use std::alloc::Global;

/// The version of structs, calls and numbers: 1.
#[unsafe(no_mangle)]
pub extern "C" fn sctp_endpoint_abi() -> u32
    ensures { result ≡ 1 }
{
    1
}

/// Whether the reserved numbers that a listener is made with are all 0, and each flag has a meaning.
fn are_listening_zeroed(config: &SctpConfig, key: &SctpKey) -> bool
    ensures { result ≡ (is_free config.now && is_zeroed key.now.reserved) }
{
    is_free(config) && is_zeroed(&key.reserved)
}

/// Whether the reserved numbers that an opened endpoint is made with are all 0, and each flag has a meaning.
fn are_opened_zeroed(own: &SctpDraw, peer: &SctpDraw, config: &SctpConfig) -> bool
    ensures { result ≡ ((own.now.reserved == 0) && ((peer.now.reserved == 0) && is_free config.now)) }
{
    own.reserved == 0 && (peer.reserved == 0 && is_free(config))
}

/// Puts an endpoint that was made into the handle.
fn keep(alloc: Global, handle: &mut SctpEndpoint, end: Endpoint) -> u32
    requires { handle.old.slot.endpoint ≡ None }
    ensures made { (result ≡ OK) → handle.new.slot.endpoint ≡ Some end }
    ensures answer { (result ≡ OK) ⊎ (result ≡ NO_MEMORY) }
    ensures kept { ((result ≡ OK) → ⊥) → handle.new ≡ handle.old }
{
    match Box::new(alloc, end) {
        Ok(end) => {
            handle.put(end);
            OK
        }
        Err(_) => NO_MEMORY,
    }
}

/// Makes an endpoint that opens the association, by `sctp_endpoint_connect`.
#[unsafe(no_mangle)]
pub extern "C" fn sctp_endpoint_caller(
    alloc: Global,
    handle: &mut SctpEndpoint,
    config: &SctpConfig,
) -> u32
    ensures made { (result ≡ OK) → Holds handle.new.slot.endpoint (fresh_end (asked_by config.now) model.Caller model.Idle) }
    ensures answer { IsMade (is_full handle.old.slot.endpoint) (is_free config.now) config.now result }
    ensures kept { ((result ≡ OK) → ⊥) → handle.new ≡ handle.old }
    ensures counts { (result ≡ OK) → counted_in handle.new.slot.endpoint ≡ none_counted }
{
    if handle.is_full() {
        return MISUSE;
    }
    if !is_free(config) {
        return BAD_RESERVED;
    }
    match config_of(config) {
        Ok(config) => keep(alloc, handle, Endpoint::caller(alloc, config)),
        Err(fault) => config_answer(fault),
    }
}

/// Makes an endpoint that waits for a peer to open the association; the key, which isn't all zeros, authenticates its state cookies.
#[unsafe(no_mangle)]
pub extern "C" fn sctp_endpoint_listener(
    alloc: Global,
    handle: &mut SctpEndpoint,
    config: &SctpConfig,
    key: &SctpKey,
) -> u32
    ensures made { (s : Sealing) → IsUnder key.now.bytes s → (result ≡ OK)
        → Holds handle.new.slot.endpoint (fresh_end (asked_by config.now) (model.Listener s) model.Listening) }
    ensures answer { IsListening (is_full handle.old.slot.endpoint) (is_free config.now && is_zeroed key.now.reserved) (is_zero_key key.now.bytes) config.now result }
    ensures kept { ((result ≡ OK) → ⊥) → handle.new ≡ handle.old }
    ensures counts { (result ≡ OK) → counted_in handle.new.slot.endpoint ≡ none_counted }
{
    if handle.is_full() {
        return MISUSE;
    }
    if !are_listening_zeroed(config, key) {
        return BAD_RESERVED;
    }
    if is_zero(key) {
        return ZERO_KEY;
    }
    match config_of(config) {
        Ok(config) => keep(
            alloc,
            handle,
            Endpoint::listener(alloc, config, Key::new(key.bytes)),
        ),
        Err(fault) => config_answer(fault),
    }
}

/// Makes an endpoint that is established at once, without packets: its peer is opened with `own` and `peer` exchanged.
#[unsafe(no_mangle)]
pub extern "C" fn sctp_endpoint_opened(
    alloc: Global,
    handle: &mut SctpEndpoint,
    config: &SctpConfig,
    own: &SctpDraw,
    peer: &SctpDraw,
) -> u32
    ensures made { (result ≡ OK) → Holds handle.new.slot.endpoint (opened (asked_by config.now) (drawn own.now) (drawn peer.now)) }
    ensures undrawn { (own.now.tag ≡ 0) ⊎ (peer.now.tag ≡ 0) → result ≡ BAD_DRAW }
    ensures answer { 0 < own.now.tag → 0 < peer.now.tag
        → IsMade (is_full handle.old.slot.endpoint) ((own.now.reserved == 0) && ((peer.now.reserved == 0) && is_free config.now)) config.now result }
    ensures kept { ((result ≡ OK) → ⊥) → handle.new ≡ handle.old }
    ensures counts { (result ≡ OK) → counted_in handle.new.slot.endpoint ≡ none_counted }
{
    let are_zeroed = are_opened_zeroed(own, peer, config);
    let (Some(own), Some(peer)) = (Draw::new(own.tag, own.tsn), Draw::new(peer.tag, peer.tsn))
    else {
        return BAD_DRAW;
    };
    if handle.is_full() {
        return MISUSE;
    }
    if !are_zeroed {
        return BAD_RESERVED;
    }
    match config_of(config) {
        Ok(config) => match Endpoint::opened(alloc, config, own, peer) {
            Ok(end) => keep(alloc, handle, end),
            Err(_) => NO_MEMORY,
        },
        Err(fault) => config_answer(fault),
    }
}

/// Frees the endpoint in the handle with all that it holds, and empties the handle. It does nothing for an empty one.
#[unsafe(no_mangle)]
pub extern "C" fn sctp_endpoint_free(alloc: Global, handle: &mut SctpEndpoint)
    ensures { handle.new.slot.endpoint ≡ None }
{
    drop(handle.take(alloc));
}
