//! The receiver of an association: which TSNs were received, the chunks that are kept until their messages are complete, the messages that
//! wait for the user (RFC 9260, 6.2 and 6.6; RFC 3758, 3.6; RFC 8260, 2.2 and 2.3), and which streams the peer reset (RFC 6525, 5.2), in either
//! format of user data.
//!
//! A DATA or I-DATA chunk is handled, a FORWARD-TSN or I-FORWARD-TSN (a FORWARD, below) is handled, messages that can be delivered then
//! wait for the user at once, SACKs report what was received, and the user takes the messages. TSNs are counted without wrapping as indexes: the
//! peer's initial TSN has index 1. Messages are counted without wrapping too, also across a reset of their stream: a number that is 0 on the wire
//! then is the stream's base, and only wire values begin anew.
//!
//! `StandsFor` relates a receiver to each view that it represents (`sctp_model/specs/receiver/ReceiverView`): recorded indexes, chunks kept, next
//! and skipped numbers of each stream, messages that wait, duplicates noted, resets (`KeepsResets`), bytes held. It also says that nothing that could be delivered is held
//! back (`IsAtRest`; that each call leaves it so is `sctp_model/proofs/receiver/AtRest` and `ForwardAtRest`), and that a FORWARD finds each unordered
//! chunk that it discards (`AreFindable`). [`Receiver::new`] ensures it without a condition, and no crate above unfolds it.
//!
//! | promise | contract |
//! |---|---|
//! | a new receiver represents the view in which nothing was received, with the parameters given | [`Receiver::new`] |
//! | a data chunk gets the answer of the first row that applies (Duplicate, Ahead, NoSuchStream, Passed, NoRoom, Taken), and every view that the receiver represented makes the step of that answer: messages that can then be delivered, complete and in order, wait for the user, and their chunks are kept no longer; for every chunk, also from a dishonest peer | [`Receiver::on_data`]: `step`, `PieceTaken` |
//! | if allocation fails, the receiver represents the same views as before; nothing is allocated for a chunk that is too far ahead or doesn't fit the buffer, for a duplicate once as many are noted as a SACK reports, and to record the next index alone | `on_data`: `refused`, `memory` |
//! | a FORWARD gets the answer of the first row that applies (OutOfDate, Bad, Moved), and every view makes the step of that answer: one that moves passes all indexes up to its own and, of each stream and kind, the numbers that it names, discards the unordered chunks that belong to them, and delivers what can then be delivered on every stream; for every FORWARD, also from a dishonest peer, with entries of either format | [`Receiver::on_forward`]: `step`, `ForwardTaken` |
//! | if allocation fails, the receiver represents the same views as before; only a FORWARD that moves the cumulative TSN allocates | `on_forward`: `refused`, `memory` |
//! | the bytes held are those of all chunks kept and all messages that wait, never more than the buffer | [`Receiver::held_bytes`]: `held`, `bound` |
//! | the cumulative TSN | [`Receiver::cumulative`] |
//! | the number of maximal runs of TSNs received above it, never more than 16,383, whatever the peer does | [`Receiver::run_count`]: `runs`, `bound` |
//! | whether a TSN above it was received, so that one below that is missing | [`Receiver::has_gap`]: `TellsGap` |
//! | a SACK has the cumulative TSN, the buffer less the bytes held, the lowest 64 maximal runs, and the duplicates noted; it changes nothing, and can always be written as a chunk | [`Receiver::sack`]: `sack`, `IsSack`, `fits`; [`SackLists::view`] |
//! | if it has neither runs nor duplicates, its cumulative TSN and its space are there without an allocation; else there is none | [`Receiver::plain_sack`]: `plain_meaning`, `TellsLists` |
//! | after `sack_sent` the duplicates noted are forgotten, and all else is as before | [`Receiver::sack_sent`] |
//! | the number of streams; the message that waits at a position of a stream, None if and only if there is none | [`Receiver::stream_count`], [`Receiver::waiting`] |
//! | the lowest stream from one on, on which a message waits; None if and only if none waits from there on | [`Receiver::readable`]: `ReadableAnswer` |
//! | the same, or else the lowest stream of all on which a message waits; None if and only if none waits | [`Receiver::next_readable`]: `NextReadableAnswer` |
//! | `take` returns the first message that waits on a stream, None if and only if none waits; its bytes are held no longer | [`Receiver::take`]: `TakeLeaves` |
//! | returning a message's memory, and giving back memory that isn't used, change nothing that a receiver represents | [`Receiver::give_back`], [`Receiver::trim`] |
//! | all requests of a RE-CONFIG act, one after another, at the cumulative TSN: one to reset streams gets the result of the first row that applies (wrong stream, in progress, performed), if it is the next one, or the last one again after "in progress"; the last one again gets the same result, any other number is a bad one; requests of other kinds are denied; a performed one sets the base of both kinds of each stream that it lists, or of all, and these are to be reported as reset, unless it was performed before: in progress, performed when it arrived again, and retried with the next number. Each response waits for a packet if the limit has space for all that wait | [`Receiver::on_requests`]: `step`, `all_requested` |
//! | if allocation fails, no request acted, and the receiver represents the same views as before | `on_requests`: `refused` |
//! | the responses that wait; after `answers_sent` none does, and all else is as before | [`Receiver::answers`], [`Receiver::answers_sent`]: `with_answers` |
//! | the sequence number of the peer's last request that is finished | [`Receiver::last_finished_request`] |
//! | each reset is reported once: the lowest stream of which one wasn't reported, and how many of the messages that wait there were delivered before it; None if and only if there is none | [`Receiver::take_reset`]: `reset_there`, `old_waiting`, `told_of` |
//! | whether there is a reset to be reported | [`Receiver::has_reset`]: `reset_there` |
//! | a message's parts joined are its bytes; `copy_to` appends them, or nothing if allocation fails, which it can't with enough capacity | [`Message::parts`], [`Message::copy_to`] |
//! | `len` is the number of bytes, 2^64 - 1 if there are more; `copy_into` copies them to the beginning of a buffer whose rest stays, or leaves a buffer that is too small, and returns how many they are | [`Message::len`], [`Message::copy_into`] |
//!
//! Only `new`, `on_data`, `on_forward`, `on_requests`, `sack` and `copy_to` allocate. Everything that allocates is done first: a call that fails has changed
//! capacity alone, and under DATA a bound (`lows.rt`). Memory that thousands of messages or chunks took is given back as soon as none of them is left
//! (`stream.rt`, `Sequence::give_back`), that of messages that were returned little by little (`spare.rt` of `sctp_chains`), and all that isn't used when
//! `trim` is called (`trimming.rt`): a smaller block takes the place of a large one, which stays if there is none.
//! Laws of the steps, for crates above: [`cumulative_is_one`], [`piece_is_one`] and [`forward_is_one`] (each step has one result),
//! [`due_is_in_words`] and [`words_are_one`] (which messages are due), [`nothing_is_given`], [`resets_stay`],
//! [`stands_for_ordinary`], [`stands_for_bounded`].
//!
//! How it works is at the head of `pieces.rt` (a data chunk), `forward.rt` (a FORWARD), `requests.rt` and `resets.rt` (stream resets), `lows.rt`,
//! `seen.rt` (indexes) and `ready.rt` (streams with messages); costs, which no contract states, are there too. Tried beside the proof, by the rows of `sctp_call_rows`
//! (`docs/CALLS.md`), with every answer, SACK and message compared: both formats, wraps of TSN and SSN, each answer and the order of these, a buffer
//! filled exactly and by one byte too much, fragments in any order, what a dishonest peer may send (two messages with one number, fragment 0 without
//! B, numbers half the space ahead), 16,383 runs, and each kind of FORWARD.
//!
//! What a body may still get away with: `on_data`, `on_forward`, `on_requests`, `sack` and `new` may answer [`NoMemory`] although there was some, the first
//! two but for the answers that allocate nothing. `on_data` and `on_forward` do so after a reset, if a number would be no count below the largest
//! (2^64 - 1): a count is the base and a number of 64 bits.
#![tactic(auto)]

mod answer;
mod bits;
mod duplicates;
mod entries;
mod forward;
mod give;
mod inbound;
mod laws;
mod lows;
mod message;
mod parameters;
mod pieces;
mod places;
mod postponed;
mod ready;
mod reassembly;
mod receiver;
mod renumbering;
mod requests;
mod resets;
mod restart;
mod runs;
mod sack;
mod sacking;
mod seen;
mod stream;
mod trimming;
mod turns;

pub use answer::Answer;
pub use forward::ForwardAnswer;
pub use laws::{
    cumulative_is_one, due_is_in_words, forward_is_one, nothing_is_given, piece_is_one,
    resets_stay, stands_for_bounded, stands_for_ordinary, words_are_one,
};
pub use message::Message;
pub use receiver::Receiver;
pub use restart::{Reset, ResetResponse};
pub use sack::{PlainSack, SackLists};
pub use sctp_values::NoMemory;
