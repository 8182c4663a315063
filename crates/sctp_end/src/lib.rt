//! One endpoint by lines, and the command line of `sctp-end`: its user's calls, the packets that arrive and the time are lines of the input,
//! and each is answered by one line before the next one is read.
//!
//! `docs/FORMATS.md` has the lines and the answers. The crate depends on the public contracts of `sctp_endpoint::Endpoint` alone, and on the
//! law `one_packet`: bytes that arrive are a packet or have a fault.
//!
//! # Promises
//!
//! - `read_line` reads a line exactly as the grammar says (`specs/Grammar`, `Commands`, `Fields`), and reports the fault with the smallest
//!   kind: too long, no such command, wrong number of words, a word that isn't a value of its field.
//! - A call does what the specified state machine of an endpoint does, whatever state the endpoint is in, and the reply says which way it
//!   went; `specs/Performing` has a row for each call. The random values (tag and TSN) and the time used by later lines are those of the
//!   latest `draw` and `at`. (`Session::perform`, private)
//! - `status` reports what the machine's state says; READABLE is the lowest stream on which a message waits for `take`, and `-` exactly if
//!   none does (`IsStatus` of `specs/Telling`).
//! - `path` reports the bytes in flight, and of the path to the peer SRTT, RTTVAR, RTO, congestion window and threshold, with `-` for what
//!   isn't there (`TellsPath` of `specs/Performing`).
//! - `counts` reports what the endpoint counted from its start on: before the first line all numbers are 0 (`first_standing` of
//!   `specs/SetUpWords`), and a line leaves those before it with what it adds (`specs/Counting`, by the rows of `specs/Performing`).
//! - `put_reply` writes a reply as its line.
//! - **`run_words` is the program.** Either its words set up an endpoint (`specs/SetUpWords`; the options `delay`, `standard-closing`,
//!   `fast-retransmit`, `congestion-control`, `reset` and `rto-min` with its number of milliseconds may be after MODE, in this order) or they are wrong, and the status says which. From the endpoint that they set up, the answers to all lines of
//!   the input are written, each from the state that the line before it left (`specs/Answering`), with status 0 after all input was read; or a
//!   prefix of them, with status 3. For wrong words nothing is read and the usage text is written to standard error, with status 1, or a prefix
//!   of it with status 3. A line of more than 140,000 bytes is like any other: it has its fault, changes nothing, and the next line is
//!   answered (`ends`, `Ends` of `specs/ExitStatus`).
//! - Wrong words have status 3 only if writing the usage text failed: setting up an endpoint allocates nothing, and a listener's key is read
//!   in place (`wrong`). A status below 3 is returned only if no call of a stream failed, and at most one call fails (`well`, `once`).
//! - `exit_statuses` (law): the statuses are 0, 1 and 3.
//!
//! At most one line and one block of the input are held; of a line that is too long one block. Its fault is reported once its end has been
//! read, so that the answers are in the order of the lines.
//!
//! # What the contracts leave open
//!
//! No contract says when memory is available. So the answer `memory` is allowed for `build`, `send`, `take`, `reset`, `abort` and a packet that
//! allocates, and, as `read_line` doesn't say which lines have bytes, for any line of a command with its number of words; and status 3 for
//! words that set up an endpoint. The rows show that neither happens while there is memory. Status 3 is also that of an input of more than
//! 2^40 bytes. Of a listener's seal `ends` says that there is one under its key; the endpoint of the program stands for the machine with each
//! such seal (`Endpoint::listener`).
//!
//! # Only tested
//!
//! The program's whole output: by the cases in `crates/sctp_rows`, whose packets and answers were computed by a second model written from the
//! rules (`tests/model/rows.py` writes all of their transcript but what is written for wrong words), and by the stored run of
//! `crates/sctp_end_main`. The cases cover: opening by a cookie as caller and listener, with lost and repeated packets, cookies that are a
//! millisecond too old, under another key, of other ports or tags, refused INIT ACKs, an INIT in each kind of state; a message each way,
//! fragments, the peer's window, duplicates, TSNs too far ahead; messages withdrawn, abandoned, expired and skipped, reliable ones; I-DATA;
//! unknown types and parameters; HEARTBEATs, also too large; SHUTDOWNs that cross, with data outstanding, repeated; each timer to its end;
//! aborts by the user, by the peer and for a fault; the T bit; drops for each reason; faulty lines, one too long with lines after it; wrong
//! words.
#![tactic(auto)]

mod call;
mod call_words;
mod command;
mod command_line;
mod counts_line;
mod line;
mod options;
mod path_line;
mod readers;
mod replies;
mod reply;
mod reply_line;
mod resets;
mod run;
mod sending;
mod session;
mod set_up;
mod status;
mod status_line;

pub use call::Call;
pub use command_line::{DONE, FAILED, USAGE, WRONG_WORDS, exit_statuses, run_words};
pub use line::read_line;
pub use reply::{Refusal, Reply};
pub use reply_line::put_reply;
pub use sctp_text::{FromRead, ToWrite};
pub use sctp_words::{LineError, LineFault};
pub use status::Status;
