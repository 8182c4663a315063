//! What an endpoint knows of the path to its peer (RFC 9260, 6.3.1 and 7.2).

ghost use Rattle.std.specs.Prelude.{◌≡◌, None};
ghost use Rattle.sctp_model.specs.end.EndView.{EndView};
ghost use Rattle.sctp_endpoint.specs.EndpointStands.{EndpointStands};
ghost use Rattle.sctp_c.specs.Holds.{Holds};
ghost use Rattle.sctp_c.specs.Path.{number_of, flags_of, IsPath, PathTold};

use crate::codes::{MISUSE, OK, PATH_RTO, PATH_TRIP, PATH_WINDOW};
use crate::handle::SctpEndpoint;
use sctp_endpoint::{Endpoint, Path};

/// What an endpoint knows of the path to its peer: times in milliseconds, sizes in bytes of user data.
#[repr(C)]
#[derive(Clone, Copy)]
pub struct SctpPath {
    /// The bytes in flight: sent, and neither acknowledged, abandoned nor marked for retransmission.
    pub in_flight: u64,
    /// The RTO of the data timer at its next start.
    pub rto: u64,
    /// The smoothed round-trip time (SRTT), rounded down.
    pub srtt: u32,
    /// The round-trip time variation (RTTVAR), rounded down.
    pub rttvar: u32,
    /// The congestion window.
    pub cwnd: u32,
    /// The slow-start threshold.
    pub ssthresh: u32,
    /// Which of these numbers are there, as a sum: 1 for `rto`, 2 for `srtt` and `rttvar`, 4 for `cwnd` and `ssthresh`. Those that aren't are 0.
    pub flags: u32,
    /// 0.
    pub reserved: u32,
}

/// A number, and 0 if it is missing.
fn number_of(number: Option<u32>) -> u32
    ensures { result ≡ number_of number }
{
    match number {
        None => 0,
        Some(number) => number,
    }
}

/// The flags of a path that is known.
fn flags_of(measured: bool, controlled: bool) -> u32
    ensures { result ≡ flags_of measured controlled }
{
    match (measured, controlled) {
        (false, false) => PATH_RTO,
        (true, false) => PATH_RTO + PATH_TRIP,
        (false, true) => PATH_RTO + PATH_WINDOW,
        (true, true) => PATH_RTO + PATH_TRIP + PATH_WINDOW,
    }
}

/// A path as C gets it.
fn path_told(in_flight: u64, path: Option<Path>) -> SctpPath
    ensures flight { result.in_flight ≡ in_flight }
    ensures told { PathTold path result }
    ensures reserved { result.reserved ≡ 0 }
{
    let Some(path) = path else {
        return SctpPath {
            in_flight,
            rto: 0,
            srtt: 0,
            rttvar: 0,
            cwnd: 0,
            ssthresh: 0,
            flags: 0,
            reserved: 0,
        };
    };
    SctpPath {
        in_flight,
        rto: path.rto,
        srtt: number_of(path.srtt),
        rttvar: number_of(path.rttvar),
        cwnd: number_of(path.cwnd),
        ssthresh: number_of(path.ssthresh),
        flags: flags_of(path.srtt.is_some(), path.cwnd.is_some()),
        reserved: 0,
    }
}

/// The path of an endpoint.
pub(crate) fn path_of(end: &Endpoint) -> SctpPath
    ensures { (v : EndView) → EndpointStands end.now v → IsPath result v }
{
    path_told(end.in_flight(), end.path())
}

/// Writes what the endpoint knows of the path to its peer. Without fast retransmit, and before an association, it is only the bytes in flight.
#[unsafe(no_mangle)]
pub extern "C" fn sctp_endpoint_path(handle: &mut SctpEndpoint, path: &mut SctpPath) -> u32
    ensures misuse { handle.old.slot.endpoint ≡ None → result ≡ MISUSE }
    ensures untold { ((result ≡ OK) → ⊥) → path.new ≡ path.old }
    ensures answer { (v : EndView) → Holds handle.old.slot.endpoint v → (result ≡ OK) × IsPath path.new v }
    ensures kept { handle.new.slot.endpoint ≡ handle.old.slot.endpoint }
{
    if !handle.is_full() {
        return MISUSE;
    }
    let end = handle.slot.lend();
    *path = path_of(end);
    OK
}
