//! How C makes channels over an endpoint, and frees them.

ghost use Rattle.std.specs.Prelude.{◌≡◌, ◌<◌, ◌⊎◌, nat_lt, true, false, None, Some, max, IfOk};
ghost use Rattle.sctp_model.specs.end.EndView.{EndView};
ghost use Rattle.sctp_endpoint.specs.EndpointStands.{EndpointStands};
ghost use Rattle.sctp_channels.specs.Streams.{fresh_table};
ghost use Rattle.sctp_channels.specs.ChannelsStand.{ChannelsStand};
ghost use Rattle.sctp_c.specs.Slot.{is_full};
ghost use Rattle.sctp_c.specs.Holds.{Holds};
ghost use Rattle.sctp_c.specs.channels.Asked.{role_of};
ghost use Rattle.sctp_c.specs.channels.Holds.{HoldsChannels, waiting_in};

use crate::channels::handle::SctpChannels;
use crate::channels::held::Held;
use crate::codes::{BAD_STATE, MISUSE, NO_MEMORY, OK};
use crate::handle::SctpEndpoint;
use sctp_channels::{Channels, DtlsRole};
use sctp_endpoint::Endpoint;
use sctp_values::NoMemory;
use std::alloc::Global;

/// The role in the DTLS handshake.
fn role_of(is_client: bool) -> DtlsRole
    ensures { result ≡ role_of is_client }
{
    if is_client {
        DtlsRole::Client
    } else {
        DtlsRole::Server
    }
}

/// Channels over this endpoint, in a block of their own.
///
/// # Errors
/// `NoMemory` if an allocation failed: the endpoint is freed.
fn channels_over(
    alloc: Global,
    endpoint: Box<Endpoint>,
    role: DtlsRole,
) -> Result<Box<Held>, NoMemory>
    ensures stands { (v : EndView) → EndpointStands endpoint.value v
        → IfOk result (λ held. ChannelsStand held.value.channels v (fresh_table role (max v.configuration.outbound v.configuration.inbound))) }
    ensures waits { IfOk result (λ held. held.value.waiting ≡ None) }
{
    let channels = Channels::new(alloc, Box::into_inner(endpoint), role)?;
    let held = Held {
        channels,
        waiting: None,
    };
    Box::new(alloc, held).map_err(|_| NoMemory)
}

/// Whether a message was sent on the endpoint in a handle, if there is one.
fn has_sent(endpoint: &mut SctpEndpoint) -> bool
    ensures answer { (v : EndView) → Holds endpoint.old.slot.endpoint v → result ≡ nat_lt 0 v.sender.tickets }
    ensures empty { endpoint.old.slot.endpoint ≡ None → result ≡ false }
    ensures kept { endpoint.new.slot.endpoint ≡ endpoint.old.slot.endpoint }
{
    if !endpoint.is_full() {
        return false;
    }
    let end = endpoint.slot.lend();
    end.tickets() > 0
}

/// Makes channels over an endpoint on which no message was sent, and whose handle is empty afterwards.
#[unsafe(no_mangle)]
pub extern "C" fn sctp_channels_over(
    alloc: Global,
    channels: &mut SctpChannels,
    endpoint: &mut SctpEndpoint,
    is_dtls_client: bool,
) -> u32
    ensures full { is_full channels.old.slot.held ≡ true → (result ≡ MISUSE) × (channels.new ≡ channels.old) × (endpoint.new ≡ endpoint.old) }
    ensures misuse { endpoint.old.slot.endpoint ≡ None → (result ≡ MISUSE) × (channels.new ≡ channels.old) × (endpoint.new.slot.endpoint ≡ None) }
    ensures used { (v : EndView) → channels.old.slot.held ≡ None → Holds endpoint.old.slot.endpoint v → 0 < v.sender.tickets
        → (result ≡ BAD_STATE) × (channels.new ≡ channels.old) × (endpoint.new.slot.endpoint ≡ endpoint.old.slot.endpoint) }
    ensures answer { (v : EndView) → channels.old.slot.held ≡ None → Holds endpoint.old.slot.endpoint v → v.sender.tickets ≡ 0
        → ((result ≡ OK) ⊎ (result ≡ NO_MEMORY)) × (endpoint.new.slot.endpoint ≡ None) }
    ensures made { (v : EndView) → Holds endpoint.old.slot.endpoint v → (result ≡ OK)
        → HoldsChannels channels.new.slot.held v (fresh_table (role_of is_dtls_client) (max v.configuration.outbound v.configuration.inbound)) }
    ensures waits { (result ≡ OK) → waiting_in channels.new.slot.held ≡ None }
    ensures kept { ((result ≡ OK) → ⊥) → channels.new ≡ channels.old }
{
    if channels.is_full() {
        return MISUSE;
    }
    if has_sent(endpoint) {
        return BAD_STATE;
    }
    let Some(end) = endpoint.take(alloc) else {
        return MISUSE;
    };
    match channels_over(alloc, end, role_of(is_dtls_client)) {
        Ok(held) => {
            channels.put(held);
            OK
        }
        Err(NoMemory) => NO_MEMORY,
    }
}

/// Frees the channels in the handle with their endpoint and all that it holds, and empties the handle. It does nothing for an empty one.
#[unsafe(no_mangle)]
pub extern "C" fn sctp_channels_free(alloc: Global, channels: &mut SctpChannels)
    ensures { channels.new.slot.held ≡ None }
{
    drop(channels.take(alloc));
}
