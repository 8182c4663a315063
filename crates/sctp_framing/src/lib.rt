//! The two formats of user data, DATA and I-DATA, as one trait (RFC 9260, 3.3.1; RFC 8260, 2.1): what a sender writes for a fragment, how a
//! receiver reads it, what a FORWARD-TSN or I-FORWARD-TSN names and discards, and two laws that the safety proof rests on.
//!
//! [`Framing`] has the format as its ghost member `format`. Each method's contract is one function of
//! `sctp_model/specs/messages/Framing` (`word_of` of `Pieces`, `is_numbered` of `Format`) at that format, exactly, for every argument. So a
//! sender or a receiver that is written over the trait is proved once for both formats. Numbers of messages and indexes of TSNs are counts that
//! never wrap; below, "number" and "index" are these.
//!
//! | promise | contract |
//! |---|---|
//! | abandoned messages are skipped by FORWARD-TSN or by I-FORWARD-TSN | `forward_chunk` |
//! | the entries of a FORWARD-TSN have 4 bytes, those of an I-FORWARD-TSN 8 | `skip_form` |
//! | a chunk's bytes before its data: 16 for DATA, 20 for I-DATA | `header`: `header_of` |
//! | a message's number on the wire: an SSN, 0 for an unordered DATA, or a MID | `wire_number` |
//! | the last word of a fragment's header: the payload protocol identifier; after an I-DATA message's first fragment the fragment sequence number | `wire_word`: `word_of` |
//! | fragments are sent as I-DATA where streams take turns, a fragment each; else as DATA, all fragments of a message with consecutive TSNs | `takes_turns` |
//! | all messages have numbers but the unordered ones of DATA: a FORWARD lists those, and a receiver files them by number | `is_numbered` |
//! | a wire value is read as the count near a reference; None if the format has no number, if no count is near, and for 2^64 - 1 | `number_near` |
//! | what increases by one from each fragment of a message to the next: the index, or the fragment number; which chunk begins a message; the payload protocol identifier that it has | `place`, `begins`, `payload` |
//! | which unordered chunks that were received a FORWARD discards: by their index under DATA, by their number under I-DATA | `lets_go` |
//!
//! | law of the trait, at both formats | member |
//! |---|---|
//! | chunks of an orderly plan are complete if and only if they are, in order, all fragments of one message, and then they give its bytes and its payload protocol identifier | `whole`: `WholeLaw` |
//! | what the FORWARD of an orderly plan discards, at a receiver that has each index up to its cumulative TSN or has it of an abandoned message, is of an abandoned message or among all chunks of a complete one | `skipping`: `SkipLaw` |
//!
//! The statements of the laws are in `sctp_model/specs/messages/FormatLaws`, their proofs are those of `sctp_safety`, which this crate uses for
//! them alone. No function here allocates or fails, and none needs a proof file: each goal follows from the definitions.
//!
//! What a body may still get away with: nothing that a caller can see.
#![tactic(auto)]

mod data;
mod framing;
mod idata;
mod numbers;

pub use data::DataFraming;
pub use framing::Framing;
pub use idata::IDataFraming;
