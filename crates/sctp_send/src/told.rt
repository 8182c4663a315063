//! What a sender knows beside its queue and its entries: a fill leaves it as it is, but for the fates that it sets at its end.

use crate::kept::dues::Dues;
use crate::kept::entry::CoveredRun;
use crate::kept::fates::Fates;
use crate::kept::last_forward::LastForward;
use crate::kept::message::Message;
use crate::kept::resets::OutgoingResets;
use std::alloc::Global;
use std::sync::Arc;

/// All of a sender but the parts that filling a packet changes: what it was told as it began, what its peer told, and the fates of tickets.
#[derive(Drop)]
pub(crate) struct Told {
    pub(crate) alloc: Global,
    pub(crate) initial: u32,
    pub(crate) streams: u16,
    pub(crate) fragment: u16,
    pub(crate) partial: bool,
    // CUM: all indexes up to it are acknowledged
    pub(crate) cum: u64,
    // the highest index up to CUM that was sent
    pub(crate) before: u64,
    // the peer's last advertised window, in bytes
    pub(crate) rwnd: u32,
    // by ticket, from 1 on
    pub(crate) fates: Fates,
    // by ticket, the moment from which its message may be past its time
    pub(crate) dues: Dues,
    // what the last SACK covers above CUM, unless it had too many blocks; it has no room until a SACK comes behind the first entry
    pub(crate) covered: Vec<CoveredRun>,
    pub(crate) is_known: bool,
    // the room of the next SACK's runs
    pub(crate) spare: Vec<CoveredRun>,
    // the FORWARD that was built last, if one was
    pub(crate) forward: Option<LastForward>,
    // the resets of streams
    pub(crate) resets: OutgoingResets,
    // memory of messages that are gone, without their bytes, for messages to come
    pub(crate) shells: Vec<Arc<Message>>,
}
