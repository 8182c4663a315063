//! What is carried on the streams of data channels: the messages of the Data Channel Establishment Protocol, DCEP (RFC 8832), and what applications send
//! (RFC 8831, 6.6), read and written.
//!
//! No endpoint is known here, and no stream. A received message, with its payload protocol identifier, is passed to [`read_control`] if that is [`DCEP`],
//! and else to [`read_content`]; neither copies anything. What messages say is defined in `specs/Dcep` and `specs/Content`.
//!
//! | promise | contract or law |
//! |---|---|
//! | [`read_control`] returns what a message of DCEP says: an OPEN with its parameters, an ACK, or its first fault. What follows an OPEN's texts is ignored | `control_of` |
//! | [`read_content`] returns text or binary data, empty or not, by the identifier; None exactly with any other | `content_of` |
//! | [`write_open`] returns the OPEN of these parameters; it is refused exactly if a text has more than 65,535 bytes | `OpenAnswers` |
//! | [`ACKNOWLEDGEMENT`] is the only byte of an ACK, [`DCEP`] the identifier | law [`codes_are_the_definitions`] |
//! | [`Content::payload_id`], [`Content::user_data`]: what a content is sent with and as | `id_of`, `carried` |
//! | what is written is read as the same | law [`written_is_read`] |
//!
//! Nothing but [`write_open`] allocates memory. That texts are UTF-8 isn't tested.
#![tactic(auto)]

mod content;
mod control;
mod laws;
mod numbers;
mod read;
#[cfg(test)]
mod tests;
mod write;

pub use content::{Content, DCEP, read_content};
pub use control::{Control, ControlFault, Opening, Reliability};
pub use laws::{codes_are_the_definitions, written_is_read};
pub use read::read_control;
pub use write::{ACKNOWLEDGEMENT, OpenFault, write_open};
