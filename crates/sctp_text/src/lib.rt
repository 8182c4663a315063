//! Text: byte streams read and written one call at a time, split into lines and words; numbers and bytes as words of a line.
//!
//! The crate knows nothing of SCTP and depends on none of this project's crates. A text is bytes in which a line feed (10) ends a line and
//! one space (32) separates two words (`specs/TextLines`, `specs/SpacedWords`). A line has at most 140,000 bytes without its line feed, a
//! text 2^40: `limits` names these numbers once, code, clauses and definitions use the names, and the law `limits_of_a_text` states the
//! values. `AllocError` of std is the only answer to a failed allocation.
//!
//! # Promises
//!
//! - **Streams.** `Source::read` has read exactly the bytes that it returns, and none if it fails; 0 bytes into a non-empty buffer are
//!   returned only at the end of the input. `Sink::write` takes a non-empty prefix of the bytes (of no bytes, none), or fails and takes none.
//!   `failures` is how many calls have failed so far. Two reads in a row, or two writes, are one of the bytes joined (the laws
//!   `reads_none`, `reads_more`, `writes_none`, `writes_more`). `FromRead` and `ToWrite` wrap readers and writers of std and report the
//!   bytes that those do.
//! - **Writing.** `write_all` writes all of the bytes in order, each once; or a proper prefix, and then exactly one call has failed.
//! - **Reading lines.** `LineReader::next_line` returns the next line (terminated, or the last one without a line feed), the end of the
//!   input, or that the line or the text is too long. No byte is lost, added or moved, however the input is cut into calls. An error is
//!   returned only if a call failed in this very call. It reads nothing if the bytes already held are enough, which `is_ready` says
//!   beforehand. At most one line and one block of 4,096 bytes are held.
//! - **Skipping.** `LineReader::skip_line` discards a line that is too long up to and including its line feed, in constant memory, and counts
//!   its bytes as given. It reports whether a line feed or the end of the input ended the line, that the text has more than 2^40
//!   bytes, or that a call failed (`Skips`).
//! - **Words.** `Words::of`, `count` and `next_word` give what is between the spaces of a line; two spaces in a row make an empty word.
//! - **Written lines.** `put_line` appends a first word, further words and numbers, one space between them, and a line feed. If an
//!   allocation fails, nothing is appended.
//! - **Numbers and bytes.** `put_decimal` and `read_decimal` write and read 0 to 2^64 - 1 without sign or leading zeros; `put_hex` and
//!   `read_hex` bytes as two lower-case digits each, `-` for none. A word is read exactly if it spells such a value.
//! - **Bytes as a value.** `Bytes`: its content, a copy, equality.
//!
//! # Laws
//!
//! `lines_in_one_way` (a text is split into lines in one way), `too_long_for_good` (a line that is too long stays so whatever follows),
//! `line_after_line` (calling `next_line` again and again gives the lines of what was read, at the end all of them), `skipped_lines_count`
//! (a skipped line counts among these lines as if it were given, and one reported as too long has more than 140,000 bytes),
//! `words_part_at_spaces`, `words_say_one_value` (a word spells one number or none, one list of bytes or none). Crates above use the lemmas
//! of `proofs/WordValues` and `proofs/WordLemmas`. The laws of std's readers and writers are in `specs/inner/StreamLaws`, since an `impl`
//! may cite `specs` alone.
//!
//! # What the contracts can't say
//!
//! A `FromRead::read` that never calls its reader, or a `ToWrite::write` that never calls its writer, and always answers `Failed` would meet
//! its contract: std doesn't say when its readers and writers fail. The counts `failures` are exact, and so is the translation of std's
//! answers (`read_answer`, `write_answer`). A call that grows a vector may always answer `AllocError`; tests have each of them succeed.
//! Slow and failing readers and writers, and lines at the limit, are tested only.
#![tactic(auto)]

mod block;
mod bytes;
mod decimal;
mod hexadecimal;
mod laws;
mod limits;
mod line_out;
mod line_reader;
mod line_skipping;
mod source_sink;
mod words_of_line;
mod writing;

pub use bytes::Bytes;
pub use decimal::{put_decimal, read_decimal};
pub use hexadecimal::{put_hex, read_hex};
pub use laws::{
    limits_of_a_text, line_after_line, lines_in_one_way, skipped_lines_count, too_long_for_good,
    words_part_at_spaces, words_say_one_value,
};
pub use limits::{LINE_FEED, LONGEST_LINE, LONGEST_TEXT, SPACE};
pub use line_out::{Word, put_line};
pub use line_reader::{LineReader, NextLine, ReadFault, SkippedLine};
pub use source_sink::{Failed, FromRead, Sink, Source, ToWrite};
pub use words_of_line::Words;
pub use writing::write_all;
