//! Reassembly: the DATA or I-DATA chunks that a receiver keeps until their messages are complete (RFC 9260, 6.9; RFC 8260, 2.2.2).
//!
//! One [`Chains`] keeps the chunks of one stream and kind, ordered or unordered: a "lane". Chunks that follow one another are one
//! chain, with their data in one list, so a message is complete ("whole") if and only if a chain begins and ends one, and its fragments are
//! delivered as they were recorded, moved and not copied. Chains are in one list in blocks (`sctp_sequence`), ordered by the number of their message and
//! then by the place of their first fragment: the index of its TSN under DATA, its fragment number under I-DATA.
//!
//! A receiver has two `Chains` a stream, and its calls use them so:
//!
//! - A data chunk: `is_held` finds a fragment received twice under I-DATA. Then everything that allocates is done: memory for the messages that
//!   may be delivered (for an ordered chunk at most one more than `whole_count`), memory for the index, and `add`, which changes nothing
//!   if it fails; then the index is recorded. After an unordered chunk `take_with` returns its message, if it is complete. After an
//!   ordered one `take_lowest(next, next)` returns the message that is waited for, if it is complete, and so on with the number after it, until
//!   one isn't; what is below is dropped with them. An ordered chunk that is the next message alone needn't be added: `alone` returns it.
//! - A FORWARD-TSN or I-FORWARD-TSN: of each stream's unordered chunks `let_go` drops those that it discards; under DATA `lowest_index` then is
//!   the index from which on a later one discards more. Of the ordered ones `take_lowest(next, next.max(floor))` returns what is due, one
//!   message after another, if all numbers below `floor` are skipped; then `drop_below` drops what is left below the number waited for.
//! - `held_bytes` before and after a call says how many bytes were dropped.
//!
//! `StandsFor` (`specs/StandsFor`) relates chains to each list of chunks that they represent: chunks of the lane, no place filled twice, those of
//! the chains in any order, their bytes counted. No crate above unfolds it. Each clause holds for every chunk, also from a dishonest peer.
//!
//! | promise | contract |
//! |---|---|
//! | new chains represent no chunks, in every lane | [`Chains::new`] |
//! | the bytes held are those of all chunks kept | `held_bytes` |
//! | chains are counted: a chunk adds one at most, and each message taken out removes one at least, so taking out ends | `add`, `take_lowest`, `take_with`: `count` |
//! | of a numbered lane no more messages can be taken out than `whole_count`: a chunk adds one at most, each message taken out removes one at least | `whole_count`, `add`, `take_lowest`: `whole` |
//! | the lowest index of the chunks kept, of a lane whose messages have no number; None if and only if nothing is kept | `lowest_index`: `IsLowestIndex` |
//! | whether a fragment is kept already: under I-DATA by stream, kind, number and fragment number; under DATA never | `is_held`: `is_repeated` |
//! | a chunk of the lane is kept, if its place is free; if allocation fails, the chains represent the same lists as before | `add`: `kept`, `refused` |
//! | of the complete messages with a number within bounds the one with the lowest number is taken out, of several with that number the one that begins with the lowest index, and all chunks up to its number are dropped. None, and no change, if and only if no number within the bounds is complete | `take_lowest`: `TakesLowest` |
//! | a chunk that is a message by itself, if no chunk of its number or a lower one is kept, is returned as the message that `take_lowest` would return, and nothing changes | `alone`: `TakesLowest` |
//! | the complete message of a kept chunk is taken out, and what belongs to it is dropped: under DATA its own chunks, under I-DATA all of its number. None, and no change, if and only if its message isn't complete | `take_with`: `TakesWith` |
//! | a message taken out has the index of its first chunk, its number, its payload protocol identifier, and as parts the data of its chunks, one for one | `IsMadeOf`, [`Fragments::all`] |
//! | a copy of a chunk's data is that data, in whichever block of memory it is | [`Spare::copy`] |
//! | the chunks below a number are dropped, in a numbered lane, and no others | `drop_below`: `from_number` |
//! | if `is_resting` holds of a number, no message is complete, and no chunk is below the number | `is_resting`: `IsResting` |
//! | the unordered chunks that a FORWARD discards are dropped, and no others: by index under DATA, by number under I-DATA | `let_go`: `lets_go` |
//!
//! Of the calls of `Chains` only `add` and `alone` allocate, before anything changes. What is promised of one lane is a promise of all kept
//! chunks by `sctp_model/proofs/receiver/OfLane`. Costs, which no contract states, are at the head of `filing.rt`, `filed.rt`,
//! `letting_go.rt` and `spare.rt`; what a lane keeps of a chunk, and its rank, at `specs/Cells`. The rows of `sctp_call_rows` (`docs/CALLS.md`) try it
//! through a receiver.
//!
//! What a body may still get away with: `add` and `alone` may answer [`NoMemory`] although there was some; `is_resting` may say no if it could
//! say yes, which costs a search; and nothing is promised of how many blocks [`Spare`] keeps.
//!
//! [`NoMemory`]: sctp_values::NoMemory
#![tactic(auto)]

mod chain;
mod chains;
mod ends;
mod filed;
mod filing;
mod letting_go;
mod parts;
mod rank;
mod search;
mod spare;
mod trimming;
mod whole;

pub use chains::Chains;
pub use spare::Spare;
pub use whole::{Fragments, Whole};
