//! One endpoint of an SCTP association as a state machine: its state, the chunks that its next packets owe, its timers, its sender and its receiver;
//! how its next packet is built, what time does to it, and the user's calls (RFC 9260, 4). It reads no packet: `sctp_endpoint` does, and calls it
//! for each chunk. In comments FORWARD-TSN stands for I-FORWARD-TSN too, and the data timer is the RFC's one timer for the retransmission of
//! user data (RFC 9260, 6.3); times are in milliseconds.
//!
//! Contracts speak of the specification's view of an endpoint (`EndView` of `sctp_model`) by `MachineStands`, which is hidden from the crates above.
//! Each call is the specification's function on every view that the endpoint stands for; if an allocation fails, it still stands for the old view.
//! The crates above name `Machine` and what its calls take and return (`Agreed`, `Built`, `Opened`, `Path`, `Refused`, `Sendings`, `Stage`, `Tags`). The promises:
//!
//! - **Creation.** A caller begins in CLOSED, a listener in LISTEN with its key (`Machine::caller`, `listener`); two endpoints may begin established,
//!   without packets (`paired`).
//! - **Opening** (RFC 9260, 5.1). The listener enters the association by the cookie that it reads (`read_cookie`, `begin`), the caller by the INIT ACK
//!   that it accepts (`calling`, `cookie_in`, `echo`) and by the COOKIE ACK (`is_echoing`, `establish`). A refused INIT ACK is answered by an ABORT with
//!   the cause (`refuse_ack`); a repeated COOKIE ECHO by a COOKIE ACK (`acknowledge_cookie`); `may_report` says if unknown chunks may be reported.
//! - **Packets without an association** are judged as `sctp_opening::Outside::hear` says, by the endpoint's own configuration, clock and key
//!   (`hear_outside`). Which tags are accepted: `passes_tag`; whether there is an association, and its tags and stage: `has_association`, `is_open`,
//!   `opened`.
//! - **Received chunks.** User data and FORWARD-TSN are processed as the receiver's contract says, an invalid stream is reported (`hear_piece`,
//!   `hear_forward`). A SACK and the cumulative TSN of a SHUTDOWN are refused for their first fault, or acknowledge, with what that does to the data
//!   timer and to a FORWARD-TSN that is due (`hear_sack`, `hear_shutdown`). A HEARTBEAT whose value fits a packet, and a SHUTDOWN, are answered (`hear_heartbeat`,
//!   `answer_shutdown`, `repeat_shutdown_ack`); a HEARTBEAT ACK answers nothing (`hear_heartbeat_ack`); `abort_with` and `complete` close the endpoint with an ABORT or a SHUTDOWN COMPLETE.
//! - **Stream reset** (RFC 6525, 5). An endpoint that agreed on it resets its outgoing streams (`reset`), makes a request as soon as one is ready, and
//!   retransmits it until its response arrives, one in progress with its next sequence number (`build`, `on_moment`). A RE-CONFIG acts where stream reset was agreed on and user data is taken: its
//!   requests at the receiver, its responses at the sender, as one after the other would (`takes_reconfig`, `hear_reconfig`). Each stream that
//!   the peer reset is reported to the user once (`take_reset`).
//! - **Pace** (RFC 9260, 6.3.1 and 7.2). An endpoint that is set up for fast retransmit measures round trips, that of
//!   the handshake first (`begin`, `establish`), and computes the RTO of the data timer from them; what an acknowledgement misses for the third time is
//!   marked for retransmission (`hear_sack`, `hear_shutdown`), and at a packet's end what was missed and may not be retransmitted again is given up
//!   (`missed_below`, `give_up_missed`). With congestion control a packet has only the space for user data that the congestion window allows (`build`).
//!   The arithmetic is that of `sctp_congestion`. What a user reads of it: `in_flight`, `path`. A SACK that takes back what an earlier one acknowledged
//!   takes memory for that, all of it before anything changes (`hear_sack`, clause `memory`).
//! - **Acknowledging** (RFC 9260, 6.2). After a packet a SACK is due, and in SHUTDOWN-SENT the SHUTDOWN again. An endpoint that delays SACKs delays it by
//!   200 ms in any other state, if nothing in the packet asks for it at once and none is owed. With standard closing, data in SHUTDOWN-SENT restarts the
//!   SHUTDOWN's timer and count (`acknowledge`). Whether received TSNs have a gap: `leaves_gap`.
//! - **ERROR.** A cause joins those that are collected exactly if the ERROR of them all still fits a packet; a chunk of an unknown type is such a cause
//!   (`report_chunk`; `WaitingCauses::report`, `has_room`).
//! - **Closing** (RFC 9260, 9.2). Transitions, the end for good, and what follows once all is acknowledged: `turn`, `close`, `advance_closing`.
//! - **Time.** Messages whose lifetime is over are abandoned, and if the data timer is due, those with a fragment that was retransmitted as often as their
//!   limit allows; then each timer that is due expires once, and after its last retransmission the endpoint gives up; a SACK that was delayed long
//!   enough is due. An earlier time than the latest counts as the latest (`on_moment`, `advance_clock`). When to call next: `next_moment`, which
//!   doesn't count lifetimes. Which messages a time may abandon: `next_to_give_up`; it abandons no others (`gives_up_alone`). Each timer starts, stops,
//!   expires, doubles its timeout and counts as RFC 9260, 6.3 says (`Timers`, `Timer`, by equations).
//! - **The next packet** (`build`: `BuildAnswer`). INIT alone; COOKIE ECHO and an ERROR; or all chunks that are due, in the specification's order, and user
//!   data after them. There is a packet exactly if the specification's has a chunk; its bytes are that packet, within the packet limit, and its tickets
//!   those of the messages that were assigned TSNs, by first TSN; how many of its DATA and I-DATA chunks are sent for the first time, and how many again, of
//!   these with and without three miss indications, it says too (`Sends`). Chunks that went in are no longer due, their timers run, and a SACK's duplicates are
//!   forgotten, as are the responses of a RE-CONFIG. What doesn't fit stays due, and nothing goes out after it. User data goes out at one place:
//!   `fill_rest`. A request to reset streams is made first, once it may be, and is undone if the packet can't be built.
//! - **The parts.** What the sender and the receiver do in the format agreed on is the step of both views (`Traffic`: every call); what is due changes as
//!   the view's does (`Due`: every call, `DueStands`).
//! - **Every packet** that an endpoint returns is within its packet limit (clauses `within`; `build`).
//! - **The user's calls** are refused exactly as specified: `connect`, `send`, `send_with_max_retransmits`, `abandon`, `shutdown`, `reset`,
//!   `abort`, `take`.
//! - **Readers** return what the view says, before, in and after an association: `state`, `ended`, `config`, `agreed` (None exactly if no stream is agreed
//!   on), `tickets`, `waiting`, `readable`, `next_readable`, `inbound`, `outbound`, `is_interleaved`, `is_partial`, `has_late`, `next_late`, `next_to_give_up`,
//!   `next_at_limit`, `acknowledged`, `abandoned`, `abandoned_messages`, `owes_sack`, `queued`, `queued_bytes`,
//!   `queued_bytes_on`, `peer_window`, `held_bytes`, `outstanding`, `is_resetting`, `has_reset`, `resetting_streams`, `own_tag`.
//! - **Bounds.** Received bytes that aren't taken never exceed the receive buffer (`held_bytes`, `bound`); at most 32,767 TSNs and partly sent messages are
//!   outstanding (`outstanding`, `bound`).
//! - **Laws of every view** that an endpoint stands for (their functions do nothing): it is sound (`sound`), its sender's view is one that a
//!   sender's calls reach (`reached`), no two messages with TSNs share a ticket (`tickets_are_apart`), and a packet begins at most one message for each
//!   20 bytes (`packets_begin_few`). The headline theorem uses them.
//! - **Buffers that the user hands back** change no view. Of packets the larger buffer is kept, never one above the packet limit (`recycle`, clauses `kept`
//!   and `within`); that the next packet is made in it, its tickets in a buffer of tickets (`recycle_tickets`), and received data in a message's memory
//!   (`give_back`), is only measured, as is what `trim` frees. `take_buffer` returns the buffer of a message that is over, or none.
//!
//! What a body may still get away with: calls that allocate could always fail. That they succeed is only tested, by the rows of `sctp_rows`.
#![tactic(auto)]

mod build;
mod machine;
mod peer;
mod state;
mod time;
mod traffic;
mod user;

pub use build::Built;
pub use build::sendings::Sendings;
pub use machine::Machine;
pub use state::life::Opened;
pub use state::stage::{Stage, Tags};
pub use user::agreed::Agreed;
pub use user::calls::Refused;
pub use user::path::Path;
