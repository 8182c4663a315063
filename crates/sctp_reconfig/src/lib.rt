//! The parameters of a RE-CONFIG, read and written (RFC 6525, 3 and 4): the requests and responses by which streams are reset.
//!
//! No endpoint is known here, and no stream. A chunk of type [`RECONFIG`] is parsed by `sctp_wire` as one of an unknown type, and its value is passed to
//! [`read_parameters`], which copies nothing; the bytes that [`put_reset`] and [`put_response`] append are the value of one that is to be sent. What
//! parameters say is defined in `specs/Reading`, by the words of `sctp_model` (`wire/Reconfig`).
//!
//! | promise | contract or law |
//! |---|---|
//! | [`read_parameters`] returns the parameters, in order, exactly if the value is a list of parameters: each is a request to reset outgoing streams, a response, a request of another kind, or is skipped; padding may have any value, and the last may lack it | `parameters_of` |
//! | the iterator returns each once | [`Parameters`]: `next_gives` |
//! | none of those left lists more streams than [`Parameters::most_streams`] | `ListAtMost` |
//! | a request's [`Streams`] are its stream numbers in order; a last odd byte is ignored, and no stream means all | `u16s_in`; [`Streams::iter`], [`StreamIter`]: `next_gives`; [`Streams::is_empty`] |
//! | what a RE-CONFIG does at an endpoint, as it is defined, is what its parameters do as they are read here | law [`parameters_act`] |
//! | [`put_reset`], [`put_response`] pad the list to a multiple of 4 with zeros and append the parameter | `bytes`, `writes`, `len` |
//! | each of the two leaves everything as it was if allocation fails, and can't fail if capacity was there | `refused`, `memory` |
//! | what is written is read as the same | law [`written_is_read`] |
//! | [`ResetResult::code`], [`is_done`], [`is_in_progress`]: the results' codes | all exactly |
//! | the types of the chunk and of its parameters are those of the definitions | law [`codes_are_the_definitions`] |
//!
//! Nothing but the two `put_` calls allocates memory.
#![tactic(auto)]

mod codes;
mod laws;
mod numbers;
mod parameter;
mod parameters;
mod result;
mod streams;
#[cfg(test)]
mod tests;
mod write;

pub use codes::{MOST_STREAMS, RECONFIG};
pub use laws::{codes_are_the_definitions, parameters_act, written_is_read};
pub use parameter::{Parameter, ResetRequest};
pub use parameters::{Parameters, read_parameters};
pub use result::{ResetResult, is_done, is_in_progress};
pub use sctp_values::NoMemory;
pub use streams::{StreamIter, Streams};
pub use write::{OwnReset, put_reset, put_response};
