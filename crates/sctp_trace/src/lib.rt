//! Runs a script over two endpoints and the network between them, and is the command line of `sctp-trace`.
//!
//! The pair, its steps and its report are sctp_pair's; what a line says and how an outcome is written are sctp_script's. What a script
//! writes and where its first fault is are definitions over its bytes, in the words of the grammar and of the model's world
//! (`specs/Script`); they mention neither the parser nor when something is written.
//!
//! # Promises
//!
//! - `run_script` returns Ok only if all of the script was read and exactly its output was written; `Line(n, k)` only if line n is the first
//!   with a fault and k its smallest kind, with what the lines before it write and without a report. After a failed read, a failed write or
//!   a failed allocation a prefix of the output was written. A failed read and a failed write are reported exactly if one call failed. All
//!   this holds for every script, whatever third parties send in it.
//! - `lines_are_there`, `one_first_fault` (laws): what the lines of a text write is defined for every text, and a text has one first fault,
//!   on one line.
//! - **`every_script_is_safe` (law): wherever the lines of a script lead, both directions are safe in each world on the way, and once an
//!   endpoint has completed its association no message that was given a TSN is missing**, if no third party's packet in it carries a tag
//!   that an endpoint generates, has an INIT that proposes one, or has a COOKIE ECHO with a cookie that the listener's key seals, and no
//!   packet is delivered later than AGED allows (sctp_pair). A script without `foreign` lines meets the first two by itself.
//! - `run_words` does what the program's words ask for, and its status says how that ended; of words that are no form nothing is read, and
//!   what is wrong with them is written to standard error, with status 1. A status below 3 is returned only if no call of a stream failed, and
//!   at most one call fails. `exit_statuses` (law): the statuses are 0 to 3.
//!
//! Output is written in blocks, before each call that reads: the answer to a line is written before the next line is waited for.
//!
//! `docs/proofs/sctp_trace.md` has these promises in full, how they are proved, and what a body may still get away with.
#![tactic(auto)]

mod command_line;
mod form;
mod gathered;
mod script;
mod script_laws;

pub use command_line::{FAILED, USAGE, WRONG_WORDS, exit_statuses, run_words};
pub use script::{ScriptFault, run_script};
pub use script_laws::{every_script_is_safe, lines_are_there, one_first_fault};
pub use sctp_pair::{ConfigFault, Draw, Event, Mode, Outcome, Pair, PairConfig, Refusal, Side};
pub use sctp_text::{Failed, FromRead, Sink, Source, ToWrite};
pub use sctp_words::LineFault;
