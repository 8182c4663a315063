//! The status of an endpoint, and of its messages (RFC 9260, 4 and 11.1).

ghost use Rattle.std.specs.Prelude.{◌≡◌, None, option_map};
ghost use Rattle.sctp_model.specs.sender.Readers as sender;
ghost use Rattle.sctp_model.specs.end.EndView.{EndView};
ghost use Rattle.sctp_terms.specs.Meanings.{end_meaning, state_meaning};
ghost use Rattle.sctp_association.specs.OwnTag.{own_tag};
ghost use Rattle.sctp_send.specs.ResetAnswers.{resetting_streams};
ghost use Rattle.sctp_endpoint.specs.EndpointStands.{EndpointStands};
ghost use Rattle.sctp_c.specs.Holds.{Holds};
ghost use Rattle.sctp_c.specs.Codes.{moment_code, state_number, ended_number, tag_number};
ghost use Rattle.sctp_c.specs.Status.{IsStatus, IsWithin, TagTold};

use crate::codes::{MISUSE, NOTHING, OK};
use crate::handle::SctpEndpoint;
use sctp_endpoint::{End, Endpoint, State, Ticket};
use sctp_values::small_len;

/// The state of an endpoint, its counts and its next time.
#[repr(C)]
#[derive(Clone, Copy)]
pub struct SctpStatus {
    /// The time by which to call `sctp_endpoint_on_moment`, in milliseconds: the first timer or delayed SACK; 2^64 - 1 for never. The lifetimes
    /// of messages aren't part of it.
    pub next_moment: u64,
    /// How many messages were accepted: the last ticket.
    pub tickets: u64,
    /// TSNs that aren't acknowledged, and one for each message of which fragments are still to be sent.
    pub outstanding: u64,
    /// Messages of which no fragment has a TSN.
    pub queued: u64,
    /// The bytes of these messages.
    pub queued_bytes: u64,
    /// The bytes of user data that were received and not taken, messages in part included.
    pub held_bytes: u64,
    /// The peer's receiver window in bytes, as last advertised.
    pub peer_window: u64,
    /// The state, 1 to 9.
    pub state: u32,
    /// How the association ended, 1 to 5; 0 if it hasn't.
    pub ended: u32,
    /// The streams to the peer that were agreed on; 0 before that.
    pub outbound: u16,
    /// The streams from the peer that were agreed on; 0 before that.
    pub inbound: u16,
    /// I-DATA was agreed on.
    pub interleaved: bool,
    /// Partial reliability was agreed on.
    pub partial: bool,
    /// Of `held_bytes`, those that can't be taken yet: of messages of which fragments are missing, and of ordered ones after them.
    pub reassembly_bytes: u32,
    /// The outgoing streams whose reset was asked for and isn't done.
    pub resetting: u32,
    /// The verification tag that packets to it carry; 0 if it has none: before an INIT or COOKIE ECHO, and once the association is over.
    pub own_tag: u32,
    /// 0.
    pub reserved: u32,
}

/// The number of a state.
fn state_of(state: State) -> u32
    ensures { result ≡ state_number (state_meaning state) }
{
    match state {
        State::Closed => 1,
        State::Listen => 2,
        State::CookieWait => 3,
        State::CookieEchoed => 4,
        State::Established => 5,
        State::ShutdownPending => 6,
        State::ShutdownSent => 7,
        State::ShutdownReceived => 8,
        State::ShutdownAckSent => 9,
    }
}

/// The number of how an association ended.
fn ended_of(ended: Option<End>) -> u32
    ensures { result ≡ ended_number (option_map end_meaning ended) }
{
    match ended {
        None => 0,
        Some(End::Completed) => 1,
        Some(End::Aborted) => 2,
        Some(End::AbortedHere) => 3,
        Some(End::TimedOut) => 4,
        Some(End::StaleCookie) => 5,
    }
}

/// A time as C gets it.
fn moment_told(moment: Option<u64>) -> u64
    ensures { result ≡ moment_code moment }
{
    match moment {
        None => u64::MAX,
        Some(moment) => moment,
    }
}

/// A verification tag, and 0 if there is none.
fn tag_of(tag: Option<u32>) -> u32
    ensures { result ≡ tag_number tag }
{
    match tag {
        None => 0,
        Some(tag) => tag,
    }
}

/// How many streams wait for their reset: at most 1,024.
fn resetting_of(end: &Endpoint) -> u32
    ensures { (v : EndView) → EndpointStands end.now v → result ≡ resetting_streams v.sender }
{
    small_len(end.resetting_streams())
}

/// The status of an endpoint.
pub(crate) fn status_of(end: &Endpoint) -> SctpStatus
    ensures told { (v : EndView) → EndpointStands end.now v → IsStatus result v }
    ensures within { (v : EndView) → EndpointStands end.now v → IsWithin result v }
{
    SctpStatus {
        next_moment: moment_told(end.next_moment()),
        tickets: end.tickets(),
        outstanding: u64::from(end.outstanding()),
        queued: end.queued() as u64,
        queued_bytes: end.queued_bytes(),
        held_bytes: u64::from(end.held_bytes()),
        peer_window: u64::from(end.peer_window()),
        state: state_of(end.state()),
        ended: ended_of(end.ended()),
        outbound: end.outbound(),
        inbound: end.inbound(),
        interleaved: end.is_interleaved(),
        partial: end.is_partial(),
        reassembly_bytes: end.reassembly_bytes(),
        resetting: resetting_of(end),
        own_tag: tag_of(end.own_tag()),
        reserved: 0,
    }
}

/// Writes the status of the endpoint.
#[unsafe(no_mangle)]
pub extern "C" fn sctp_endpoint_status(handle: &mut SctpEndpoint, status: &mut SctpStatus) -> u32
    ensures misuse { handle.old.slot.endpoint ≡ None → result ≡ MISUSE }
    ensures untold { ((result ≡ OK) → ⊥) → status.new ≡ status.old }
    ensures answer { (v : EndView) → Holds handle.old.slot.endpoint v → (result ≡ OK) × IsStatus status.new v }
    ensures within { (v : EndView) → Holds handle.old.slot.endpoint v → IsWithin status.new v }
    ensures kept { handle.new.slot.endpoint ≡ handle.old.slot.endpoint }
{
    if !handle.is_full() {
        return MISUSE;
    }
    let end = handle.slot.lend();
    *status = status_of(end);
    OK
}

/// Writes a verification tag, if there is one.
fn tell_tag(found: Option<u32>, tag: &mut u32) -> u32
    ensures { TagTold found result tag.old tag.new }
{
    match found {
        Some(own) => {
            *tag = own;
            OK
        }
        None => NOTHING,
    }
}

/// Writes the verification tag that packets to the endpoint carry to `tag`: a program with many endpoints at one socket finds by it the one that a
/// packet is for.
#[unsafe(no_mangle)]
pub extern "C" fn sctp_endpoint_own_tag(handle: &mut SctpEndpoint, tag: &mut u32) -> u32
    ensures misuse { handle.old.slot.endpoint ≡ None → result ≡ MISUSE }
    ensures untold { ((result ≡ OK) → ⊥) → tag.new ≡ tag.old }
    ensures answer { (v : EndView) → Holds handle.old.slot.endpoint v → TagTold (own_tag v.phase) result tag.old tag.new }
    ensures kept { handle.new.slot.endpoint ≡ handle.old.slot.endpoint }
{
    if !handle.is_full() {
        return MISUSE;
    }
    let end = handle.slot.lend();
    let found = end.own_tag();
    tell_tag(found, tag)
}

/// Writes to `is` whether the peer has acknowledged all of a message that wasn't abandoned.
#[unsafe(no_mangle)]
pub extern "C" fn sctp_endpoint_acknowledged(
    handle: &mut SctpEndpoint,
    ticket: u64,
    is: &mut bool,
) -> u32
    ensures misuse { handle.old.slot.endpoint ≡ None → result ≡ MISUSE }
    ensures untold { ((result ≡ OK) → ⊥) → is.new ≡ is.old }
    ensures answer { (v : EndView) → Holds handle.old.slot.endpoint v → (result ≡ OK) × (is.new ≡ sender.acknowledged v.sender ticket) }
    ensures kept { handle.new.slot.endpoint ≡ handle.old.slot.endpoint }
{
    if !handle.is_full() {
        return MISUSE;
    }
    let end = handle.slot.lend();
    *is = end.acknowledged(Ticket(ticket));
    OK
}

/// Writes to `is` whether a message was sent, at least in part, and then abandoned.
#[unsafe(no_mangle)]
pub extern "C" fn sctp_endpoint_abandoned(
    handle: &mut SctpEndpoint,
    ticket: u64,
    is: &mut bool,
) -> u32
    ensures misuse { handle.old.slot.endpoint ≡ None → result ≡ MISUSE }
    ensures untold { ((result ≡ OK) → ⊥) → is.new ≡ is.old }
    ensures answer { (v : EndView) → Holds handle.old.slot.endpoint v → (result ≡ OK) × (is.new ≡ sender.abandoned v.sender ticket) }
    ensures kept { handle.new.slot.endpoint ≡ handle.old.slot.endpoint }
{
    if !handle.is_full() {
        return MISUSE;
    }
    let end = handle.slot.lend();
    *is = end.abandoned(Ticket(ticket));
    OK
}
