//! Prints packets and chunks as lines of text, for a person to read.
//!
//! A line is words with one space between them: the name of the chunk, then its fields, each after its name. Numbers are decimal, bytes
//! and tags have two lower-case digits a byte, the items of a list are separated by commas, and `-` means none.
//!
//! # Promises
//!
//! What is printed is a definition over a chunk's meaning: `chunk_line m` is `chunk_words m` with one space between the words and a line
//! feed (`specs/ChunkLines`), so the line of one type of chunk can be changed without touching another's.
//!
//! | definition | what it says |
//! |---|---|
//! | `chunk_words` | the name of the chunk and its fields, each after its name; tags have eight hexadecimal digits, flags are the letters of those that are set, lists have commas, `-` means none |
//! | `header_line` | `packet SOURCE DESTINATION tag TTTTTTTT` |
//! | `packet_fault_line`, `wire_fault_line`, `hex_fault_line` | `fault P`; `fault 3 K at OFFSET`; `fault hex` |
//! | `IsChunksText`, `IsPacketText` | of bytes that can be read, the lines of what they read as; of others the line of their fault |
//! | `IsChunksTextOf`, `IsPacketTextOf` | of text that spells bytes in hexadecimal, in either case, what is printed for these bytes; of other text the line of that fault |
//!
//! - `put_chunk` appends `chunk_line` of the chunk's meaning (`put`); if an allocation fails, `out` is unchanged (`refused`).
//! - `print_packet` and `print_chunks` append what `IsPacketTextOf` and `IsChunksTextOf` say of the text, and return whether it was read.
//!   They only decode the hexadecimal digits and call private functions whose contracts say what a word, a list, a header and a fault
//!   print.
//! - The law `signs_of_lists` states the bytes of `COMMA`, `DASH` and `COLON`: 44, 45 and 58.
//!
//! # What the contracts don't say
//!
//! If an allocation fails in `print_packet` or `print_chunks`, `out` may hold some of the lines; no clause says which. Known lines, each
//! beside its text, are compared in the rows of sctp_rows only.
#![tactic(auto)]

mod chunk;
mod control;
mod fault;
mod seen;
mod text;
mod user_data;
mod words;

pub use chunk::put_chunk;
pub use text::{print_chunks, print_packet};
pub use words::{COLON, COMMA, DASH, signs_of_lists};
