//! The sending half of an endpoint, over DATA or I-DATA: the queue of messages, TSNs, retransmission, what the peer acknowledged, and abandoned
//! messages (RFC 9260, 6; RFC 3758, 3.5; RFC 8260, 2).
//!
//! A [`Sender`] stands for views (`SenderView` of `sctp_model`, where all calls are defined, with their laws). Each call promises of every view
//! that the sender stands for what the definition of that call says. Crates above know the relation `StandsFor` by these clauses alone.
//!
//! | call | promise (clause) |
//! |---|---|
//! | [`Sender::new`] | the sender stands for the fresh view of its arguments, also with 0 streams |
//! | [`Sender::queue`] | `answer`: the first of NoSuchStream, Resetting, Empty, TooLong, QueueFull, Spent that applies, each if and only if it is the first; NoMemory only if none applies; an accepted message has the next ticket. `step`: the view with the message at the end of its queue, cut into fragments, or the same view |
//! | [`Sender::queue_limited`] | as `queue`, of a message each of whose fragments is retransmitted at most so often, if there is a limit |
//! | [`Sender::fill`] | `step`: the packet gets the longest list of chunks of which each is the next to be sent and may go (it fits, the flow rule and the window allow it), after its own chunks; the sender stands for the view after them; the tickets returned are those of the messages that began, in the order of their first TSNs. `memory`, `unchanged`: after NoMemory it stands for the same view, and the packet is as it was. `asked`: then a chunk could go |
//! | [`Sendings`], [`Sender::may_repeat`] | of that packet `sendings`: how many of the chunks were sent for the first time, and how many again; `again`: the list has the indexes of those that were sent again, by rising index, and no others (`AreSentAgain`); whether there may be one |
//! | [`Sender::trim`] | the same view: memory that a burst took and of which less than an eighth is used is given back, if it is for more than 128 entries or messages: of entries and their order by ticket, the queue and its seats, fates and deadlines (`kept/giving_back.rt`, `queueing/passing.rt`) |
//! | [`Sender::take_buffer`] | the same view: an empty buffer with the capacity that is asked for, that of a message that is over, or none; of 64 messages those of 128 bytes at most are kept |
//! | [`Sender::recycle_tickets`] | the same view: the buffer of the tickets that a fill returned is used for the next fill |
//! | [`Sender::on_sack`] | `answer`: the first of Stale, Beyond, BadBlock that applies, in this order, each if and only if it is the first. `step`: the view with the SACK's CUM, gap blocks (in place of those of the last SACK) and window, or the same view |
//! | [`Sender::on_shutdown`] | as `on_sack` for the cumulative TSN of a SHUTDOWN; what gap blocks acknowledged beyond it stays acknowledged |
//! | [`Sender::on_timeout`] | every chunk that was sent and is neither acknowledged nor abandoned is marked for retransmission, unless it was retransmitted as often as its message's limit allows |
//! | [`Sender::on_missed`], [`IndexTest`] | so are those that a caller names, by a range of indexes and a test (`AgreeInFlight`) |
//! | [`Sender::abandon`] | `answer`: the first of the five answers that applies. `step`: a message without a TSN leaves the queue; one with TSNs is abandoned, with its marks; one sent in part gets an end mark |
//! | [`Sender::wear`] | each message is abandoned, as by `abandon`, if one of its outstanding fragments was retransmitted as often as its limit allows |
//! | [`Sender::wear_between`] | so is each message if one of its outstanding fragments was that the caller names, by a range of indexes and a test (`AgreeAbove`) |
//! | [`Sender::next_at_limit`] | the lowest ticket above one of a message that isn't abandoned and has an outstanding fragment retransmitted as often as its limit allows |
//! | [`Sender::expire`] | each message whose lifetime is over is abandoned, by rising ticket, as `abandon` would |
//! | [`Sender::put_forward`] | `answer`: true if and only if the FORWARD goes past CUM and fits what is left of the packet. `after`: the packet has it after its other chunks, or is as before. `reaches`: with the least packet limit or more it goes past CUM whenever the point does. `memory`, `unchanged`: NoMemory only if the chunk would have gone in, and the packet is then as before |
//! | [`Sender::keep_forward`] | the sender stands for the same views: it builds the FORWARD ahead, for `put_forward` to take |
//! | [`Sender::has_late`], [`Sender::next_late`] | whether a message that may be abandoned is late, and the lowest such ticket above one; if none is, `expire` changes nothing (`idle`) |
//! | [`Sender::cum`], [`Sender::point`], [`Sender::unsettled`], [`Sender::outstanding`], [`Sender::drained`], [`Sender::has_more`], [`Sender::acknowledged`], [`Sender::abandoned`], [`Sender::abandoned_messages`], [`Sender::tickets`], [`Sender::peer_window`], [`Sender::stream_count`], [`Sender::fragment_size`] | exactly the functions of `sender/Readers` of the model, and how many tickets are of abandoned messages; at most 32,767 are outstanding (`bound`) |
//! | [`Sender::in_flight`], [`Sender::chunk_flight`], [`Sender::last_sent`], [`Sender::room_of_repeats`] | the bytes of data in flight, those of their chunks, the highest index that was sent, the space of the retransmissions among what `fill` would put into a packet: exactly `in_flight`, `chunk_flight`, `last_sent`, `room_of_repeats` of the model |
//! | [`Sender::first_missed`], [`Sender::is_marked_or_covered`] | the lowest index in flight that the caller names, by a range of indexes and a test (`AgreeInFlight`); whether an index is marked or acknowledged |
//! | [`Sender::weigh`], [`Sender::weigh_shutdown`], [`Weight`] | of a SACK or a SHUTDOWN without a fault, before it is taken: whether it moves CUM, CUM after it, the highest indexes and the bytes of chunks that it newly acknowledges, and whether the chunk that is timed is among them (`IsWeight`) |
//! | [`Sender::list_taken_back`] | of a SACK without a fault, before it is taken: the list has the indexes that it takes back, by rising index, and no others (`back`, by `AreTakenBack`); none of them is above the index that is returned (`highest`) |
//! | [`Sender::queued`], [`Sender::queued_bytes`] | the length and the bytes of the queue; at most 1,024 messages of 65,536 bytes (`bound`) |
//! | [`Sender::queued_bytes_on`] | the bytes of the messages in the queue that are on one stream with one of the given payload protocol identifiers; no more than all of it may have (`bound`). Of user data of data channels (51 and 53, in this order) it is kept as a number of each stream |
//! | [`Sender::reset`], [`Sender::is_resetting`], [`Sender::resetting_streams`] | the stream takes no further message (`resetting`), or the same view if memory is refused (`memory`); whether it waits for its reset, and how many do |
//! | [`Sender::may_ask`], [`Sender::ask`], [`Sender::take_back_request`], [`EarlierRequest`], [`Sender::request`], [`ResetRequest`] | whether a request to reset streams may be made; `step`: the view in which it is made, if it may, `before`: the last one before it; the view before that; what the request that waits says: its number, the last TSN that was assigned when it was made, and its streams, the lowest 256 of which nothing waits or is outstanding, the first of them twice if it said the same as the last one |
//! | [`Sender::on_response`], [`Sender::retry_request`] | the view after a response: its streams count from 0 again and take messages, the request goes on under its number or the one before, or its streams take none; the view in which a request in progress has the next number, as it is retransmitted |
//! | [`Sender::reached`] | a law: each view that a sender stands for is one that its calls reach |
//! | [`Sender::limited`] | laws: an abandoned message isn't at its limit (`gone`), and `wear` and `wear_between` abandon only messages that `next_at_limit` gives (`only`) |
//!
//! Only `new`, `queue`, `queue_limited`, `fill`, `list_taken_back`, `put_forward`, `reset` and `ask` return NoMemory; `keep_forward` may allocate, `trim`
//! allocates nothing but smaller blocks in place of larger ones, and the others don't allocate. So that `abandon`, `expire`, `wear` and SACKs needn't, nor a `fill` in its
//! middle, a queued message reserves the entries of its fragments and of its end mark (`room` of `Holds`), and the first one the space for the runs of
//! SACKs. Neither is given back while it may be needed.
//!
//! Laws of every view that calls reach, by induction over the calls (`sctp_model/proofs/sender`): CUM is no more than the TSNs assigned, all up to it
//! is acknowledged, nothing beyond the last TSN is said (`Bounds`); TSNs after CUM and messages in part are at most 32,767, TSNs assigned and owed at
//! most 2^63 - 1 (`OwedLaws`); a ticket is of one message at most (`TicketLaws`), by which its entries are found (`NameLaws`); only `abandon`,
//! `expire`, `wear` and `wear_between` abandon a message (`AbandonedLaws`); none goes out again more often than its limit allows (`WornLaws`); the
//! point is the largest index up to which all after CUM is abandoned (`point_is_point`); a FORWARD lists the largest number of each numbered (stream,
//! kind) that it skips, by rising stream (`forward_is_forward`), and goes as far as a packet lets it (`ForwardEnd`); what a packet is filled with is
//! one list (`FillLaws`).
//!
//! Words of the code, by the RFCs' words: an *index* counts TSNs from 1, the initial TSN; *CUM* is the Cumulative TSN Ack Point, the *point* the
//! Advanced.Peer.Ack.Point; an entry is *covered* if a gap block of the last SACK acknowledges it, *marked* if it waits for retransmission; a *lane* is a
//! (stream, ordered or unordered) of messages; a message *in part* has TSNs for some of its fragments only; an *end mark* is the TSN that a message
//! abandoned in part takes at its end and that is never sent; a FORWARD is a FORWARD-TSN or I-FORWARD-TSN chunk.
//!
//! Costs: a chunk costs its bytes and a constant, a SACK its blocks, the runs of the last one, what CUM passes, and what is newly acknowledged or no
//! longer so (64 entries at a time, if they are alike); a FORWARD a walk over what it passes the first time, and its list when it is sent again;
//! `on_timeout` and `wear` all that is outstanding, `on_missed` and `wear_between` what is of their range, `next_at_limit` the outstanding entries of
//! higher tickets up to the one that it finds; `expire` and `next_late` the tickets whose deadlines have passed; `weigh` what the SACK does but for what is
//! no longer acknowledged, each entry once, `list_taken_back` two tests if the last SACK had no gap blocks, its runs and the blocks if nothing is taken
//! back, and else all that is outstanding, once, `first_missed` its range, `room_of_repeats` the entries from the first marked one on, `last_sent` the
//! entries after it, which were never sent, `has_more` the entries from the first one on that was marked or not sent at the last fill, if there was one,
//! `queued_bytes_on` the queue, but of user data of data channels nothing; other readers are constant, `abandon` and `acknowledged` the message's own
//! entries and a search for them, by a look at three of them if tickets rise by one from entry to entry, otherwise binary. The first `reset` makes a
//! table of all streams; each costs a binary search among the streams that wait for their reset, a move of those with higher numbers, and the entries
//! after the last one of its stream; `on_response` the streams that wait, if it ends the request; `may_ask` and `ask` the streams that wait, each a
//! look at the entry noted for it and, if that is gone, its search in the queue and a walk over the entries up to its first one, and nothing if there
//! are none; without a reset no table is kept, and a message costs one test more. User data of a data channel takes memory for a number of each stream up
//! to its own, 4 bytes each, if there is none yet: the table doubles. What is kept for that is in `kept`, and each part's counts are its invariant: an
//! entry takes 32 bytes with the count of its retransmissions, which ends at 65,535, as limits do.
//!
//! The files of `src` form a path on which each imports only what is before it: `index_test`, `last_forward`, `message`, `request`, `sendings`; `blocks`, `by_ticket`,
//! `dues`, `entry`, `resets`, `seats`, `shells`, `user_data`; `fates`, `heads`, `naming`, `pieces`; `queue`, `told`, `track`, `wishes`; `counts`, `looking`, `queued_on`;
//! `streams`, `stretches`; `acknowledging`, `outstanding`; `by_message`, `entries`, `giving_back`, `going_out`, `lanes`, `marking`,
//! `run_room`, `searching`, `stock`, `table`, `tally`, `telling`, `weight`; `assigning`, `covered`, `flying`, `others`, `repeats`, `restarting`, `sender`,
//! `still`, `waking`; `answering`, `asking`, `at_limit`, `last`, `laws`, `more`, `owing`, `pace`, `readers`, `resetting`, `sack`, `taking_back`, `wear`,
//! `weighing`; `abandon`, `entering`, `keeping`, `moments`, `passing`, `queueing`, `turning`; `expire`, `fill`, `forward`.
//!
//! What a body may still get away with: nothing that a caller can see but costs, how much memory is kept, and the texts of `Debug` and of faults. Only
//! tested: `crates/sctp_call_rows` compares each answer and each packet's bytes at the limits (docs/CALLS.md).
#![tactic(auto)]

mod abandon;
mod fill;
mod forward;
mod index_test;
mod kept;
mod laws;
mod pace;
mod queueing;
mod readers;
mod resetting;
mod sack;
mod sender;
mod stock;
mod told;

pub use abandon::Abandoned;
pub use fill::Filled;
pub use fill::sendings::Sendings;
pub use index_test::IndexTest;
pub use pace::weight::Weight;
pub use queueing::SendFault;
pub use resetting::{EarlierRequest, ResetRequest};
pub use sack::SackFault;
pub use sctp_values::{NoMemory, Ticket};
pub use sender::Sender;
