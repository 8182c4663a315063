//! Parsing and writing SCTP chunks, parameters and error causes (RFC 9260, 3.2 and 3.3; RFC 3758, 3.2; RFC 8260, 2.1 and 2.3.1).
//!
//! [`read_chunks`] parses the chunks of a packet without copying: data and lists are slices of the bytes given. [`write_chunk`] appends a
//! chunk's bytes, and the `put_` calls append one item of a list.
//!
//! What bytes mean is a relation by cases on type and length: `specs/Reads`, the layout of each chunk in a file of its own under
//! `specs/chunks/`, and `specs/Layouts`, which says which layout is whose. What is wrong with bytes is in `specs/FirstFault`. Lists of
//! parameters and causes, which chunks may be bundled and the rule of unknown types are in `sctp_model` (`Typed`, `Places`, `Unknown`), since
//! the state machine uses them too.
//!
//! | promise | contract or law |
//! |---|---|
//! | [`read_chunks`] is Ok if and only if the bytes are chunks, each bundled only as it may be, and returns these; otherwise it returns the bytes' fault: that of the first check, in the documented order, that fails at the first chunk that isn't right, or, if all are, `NotAlone` at the first chunk that may not be bundled so | `exact`, `chunks`, `fault`; laws [`one_reading`], [`chunks_are_read`] |
//! | a fault's offset is within the bytes | `read_chunks`: `within` |
//! | the iterator returns the chunks in order, with their data and lists | `Chunks`: `next_gives` |
//! | unused flags, reserved bits and padding may have any value, also in parameters and causes; a final padding that a list's length counts is accepted | `ReadsFlags`, `ReadsValue`, `ReadsChunk`, `ReadsTyped`, which `exact` names |
//! | what [`write_chunk`] appends is the chunk's bytes, with unused flags, reserved bits and padding zero, and parsing it alone gives the chunk | `written`, `writes`, `reads`; laws [`written_reads`], [`written_each_reads`] |
//! | what [`write_data`], [`write_i_data`] append is what `write_chunk` appends for a DATA, an I-DATA with these fields | `written` |
//! | [`Chunk::written_length`] is the one size of a chunk, and the length of what is written | `size`, `written` |
//! | [`Chunk::fits`] is true if and only if the fields and the length are within their bits, lists of parameters and causes have zero padding and none after the last item, reserved bits are zero, and an unknown type is none that has a case of its own | `fits` |
//! | [`put_block`], [`put_word`], [`put_skip`] append one item's bytes; appended to whole items, the list is these and the new one | `bytes`, `blocks`, `words`, `skips` |
//! | [`put_parameter`], [`put_cause`] pad the list, however long it is, to a multiple of 4 with zeros and append the item; the list is then its items and the new one. The item's length must fit 16 bits | `bytes`, `reads`, `writes`, `len` |
//! | each of these, `write_data`, `write_i_data` and `write_chunk` leave everything as it was if allocation fails, and can't fail if capacity was there | `refused`, `memory` |
//! | parameters and causes can be read in one way only, what is written for them is read back, and a list is plain (`is_plain`) if and only if it is what is written for its items | law [`typed_one_reading`] |
//! | chunks after chunks are those of both, read or written | law [`chunks_join`] |
//! | [`Chunks::next_data`], [`Chunks::next_i_data`], [`Chunks::next_sack`] take the first chunk if it is a DATA, an I-DATA, a SACK; any other is left | their contracts |
//! | [`Chunks::is_empty`], [`Chunks::starts_with_init`], [`Chunks::starts_reflected`]: whether no chunk is left, whether the first is an INIT, whether it is an ABORT or SHUTDOWN COMPLETE with the flag T | their contracts |
//! | [`Chunks::again`] is a second iterator over the chunks that are left | its contract |
//! | each cause's and each parameter's number is that of the definitions, and so are the known ones and those that are passed over | law [`codes_are_the_definitions`] |
//! | the flags B, E, U, I and T are the bits that the RFC gives them | law [`chunk_flags`] |
//! | [`unknown_chunk`], [`unknown_parameter`] are the rules of the two highest bits of a type: 00 stop, 01 stop and report, 10 skip, 11 skip and report | both, exactly; law [`unknown_types`]: `chunk_bits`, `parameter_bits` |
//! | an endpoint treats a chunk of an unknown type by that rule; whatever follows one that stops the packet, the packet leaves the same state and has the same answer | law [`unknown_types`]: `chunks`, `packet` |
//! | of a chunk's parameters those up to the first one that stops are looked at; the known ones among them take effect, and just those are reported whose rule says so | law [`unknown_types`]: `parameters` |
//! | [`padded`] is the length rounded up to a multiple of 4 | `padded` |
//!
//! `read_chunks`, the iterators and readers of `Chunks`, `fits`, `written_length`, `unknown_chunk` and `unknown_parameter` allocate no memory.
//!
//! What a body may still get away with: nothing that a caller can see. `Debug` texts and the faults' messages are outside of the contracts. A wrong
//! chunk, layout or item is refused by the private function's own clause, or in its proof; the public clause follows from these.
#![tactic(auto)]

mod as_written;
mod body;
mod chunk;
mod chunks;
pub mod codes;
mod fault;
mod first;
mod items;
mod laws;
mod lists;
mod numbers;
mod places;
mod read;
mod skips;
mod typed;
mod unknown;
mod write;

pub use chunk::Chunk;
pub use chunks::forward::Forward;
pub use chunks::i_data::write_i_data;
pub use chunks::init::Init;
pub use chunks::piece::Piece;
pub use chunks::sack::Sack;
pub use chunks::user_data::write_data;
pub use fault::WireFault;
pub use items::{put_block, put_cause, put_parameter, put_word};
pub use laws::{
    chunk_flags, chunks_are_read, chunks_join, codes_are_the_definitions, one_reading,
    typed_one_reading, unknown_types, written_each_reads, written_reads,
};
pub use lists::{BlockIter, Blocks, GapBlock, TsnIter, Tsns};
pub use numbers::padded;
pub use read::{Chunks, read_chunks};
pub use sctp_values::NoMemory;
pub use skips::{Skip, SkipForm, SkipIter, Skips, put_skip};
pub use typed::{
    Cause, Causes, Parameter, Parameters, TypedItem, TypedItems, TypedIter, is_typed_list,
};
pub use unknown::{Rule, unknown_chunk, unknown_parameter};
pub use write::write_chunk;
