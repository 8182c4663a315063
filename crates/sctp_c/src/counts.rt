//! What an endpoint counted from its start on.

ghost use Rattle.std.specs.Prelude.{◌≡◌, None};
ghost use Rattle.sctp_model.specs.end.EndView.{EndView};
ghost use Rattle.sctp_endpoint.specs.EndpointStands.{EndpointStands};
ghost use Rattle.sctp_endpoint.specs.Counted.{counted};
ghost use Rattle.sctp_c.specs.Counts.{counted_in, IsCounts};
ghost use Rattle.sctp_c.specs.Holds.{Holds};

use crate::codes::{MISUSE, OK};
use crate::handle::SctpEndpoint;
use sctp_endpoint::Endpoint;

/// What an endpoint counted from its start on. Each number is counted modulo 2^64.
#[repr(C)]
#[derive(Clone, Copy)]
pub struct SctpCounts {
    /// Packets that it returned to be sent.
    pub packets_out: u64,
    /// The bytes of these, from the common header on.
    pub bytes_out: u64,
    /// Packets that were passed in; not those at which an allocation failed.
    pub packets_in: u64,
    /// The bytes of these, from the common header on.
    pub bytes_in: u64,
    /// Fragments that were sent for the first time.
    pub first_sent: u64,
    /// Fragments that were retransmitted because the data timer expired.
    pub timer_retransmitted: u64,
    /// Fragments that were retransmitted by fast retransmit.
    pub fast_retransmitted: u64,
    /// Packets sent that have a SACK.
    pub sacks_out: u64,
    /// SACK chunks in packets that were processed.
    pub sacks_in: u64,
    /// Messages that were abandoned after they were sent, in part at least.
    pub abandoned: u64,
    /// Packets that were dropped: their bytes aren't a packet.
    pub dropped_fault: u64,
    /// Packets that were dropped: their ports aren't those of the association.
    pub dropped_ports: u64,
    /// Packets that were dropped: their verification tag is wrong.
    pub dropped_tag: u64,
    /// Packets that were dropped: none of their chunks is handled in the endpoint's state.
    pub dropped_state: u64,
    /// Packets that were dropped: their cookie isn't valid.
    pub dropped_cookie: u64,
    /// 0.
    pub reserved: u64,
}

/// What an endpoint counted, as C gets it.
pub(crate) fn counts_of(end: &Endpoint) -> SctpCounts
    ensures { (v : EndView) → EndpointStands end.now v → IsCounts result v (counted end.now) }
{
    let counts = end.counts();
    SctpCounts {
        packets_out: counts.packets_out,
        bytes_out: counts.bytes_out,
        packets_in: counts.packets_in,
        bytes_in: counts.bytes_in,
        first_sent: counts.first_sent,
        timer_retransmitted: counts.timer_retransmitted,
        fast_retransmitted: counts.fast_retransmitted,
        sacks_out: counts.sacks_out,
        sacks_in: counts.sacks_in,
        abandoned: counts.abandoned,
        dropped_fault: counts.dropped.fault,
        dropped_ports: counts.dropped.ports,
        dropped_tag: counts.dropped.tag,
        dropped_state: counts.dropped.state,
        dropped_cookie: counts.dropped.cookie,
        reserved: 0,
    }
}

/// Writes what the endpoint counted from its start on.
#[unsafe(no_mangle)]
pub extern "C" fn sctp_endpoint_counts(handle: &mut SctpEndpoint, counts: &mut SctpCounts) -> u32
    ensures misuse { handle.old.slot.endpoint ≡ None → result ≡ MISUSE }
    ensures untold { ((result ≡ OK) → ⊥) → counts.new ≡ counts.old }
    ensures answer { (v : EndView) → Holds handle.old.slot.endpoint v → (result ≡ OK) × IsCounts counts.new v (counted_in handle.old.slot.endpoint) }
    ensures kept { handle.new.slot.endpoint ≡ handle.old.slot.endpoint }
{
    if !handle.is_full() {
        return MISUSE;
    }
    let end = handle.slot.lend();
    *counts = counts_of(end);
    OK
}
