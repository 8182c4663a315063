//! Draws the run of a script over two endpoints, for a person who looks for what went wrong: as a ladder in text, as SVG, or as a hex dump of
//! its packets for a program that reads captures.
//!
//! Events of a pair leave rows (`recording`, `rows`, `lives`, and `waits` for delayed SACKs), which are drawn as text (`ladder`), as SVG
//! (`svg`) and as a hex dump (`capture`). The crate depends on public calls alone: `sctp_script::read_line_at`; `Pair::of_two`, `step`, `end`,
//! `packet` and `clock`; an endpoint's `state` and `ended`; `sctp_packet::read_packet`; `sctp_reconfig::read_parameters`; and the words for states of sctp_words.
//!
//! # Promises
//!
//! No contract says what a picture shows. Proved is that each function is safe on every input and returns: no index out of range, no sum that
//! wraps, no call of a reader or a writer beyond the number of failures that it counts. `run_words` asks of its callers what that of sctp-trace
//! does, and returns a status, of which nothing is said but that the four are 0 to 3 (`exit_statuses`, a law).
//!
//! # Only tested
//!
//! What it shows: by stored runs that were read line by line beside their scripts (`docs/FORMATS.md` has the signs). The opening and closing
//! with every packet repeated is the run of `crates/sctp_look_main`; in `crates/sctp_rows` are an abandoned message with a lost packet and a
//! FORWARD-TSN, also narrow, in ASCII and as SVG; both endpoints closing with data on its way, also as narrow as possible; I-DATA repeated and
//! reordered; fragments repeated and reordered with a third party's packets between, as a ladder, as SVG and as a capture; a timeout with
//! refused calls; colours; a faulty line; a script without `pair`; wrong words.
//!
//! Looked at by hand, not in the gate: `SACK waited`, which no stored run shows; the SVGs as pictures; captures in `text2pcap` and `tshark`,
//! with its checksums on; input that can't be read, a full disk, little memory; the launcher at a terminal.
//!
//! The cost is linear in the script: a row or two for each event; a number for each packet and the bytes of third parties are kept; each row is
//! drawn once (in SVG twice), and of a packet the chunks are put into words until its place is full.
#![tactic(auto)]

mod arrows;
mod capture;
mod command_line;
mod drawing;
mod fault;
mod ladder;
mod lives;
mod notes;
mod packet_words;
mod reconfig_words;
mod recording;
mod request;
mod row;
mod rows;
mod script;
mod signs;
mod style;
mod svg;
mod text;
mod waits;

pub use command_line::{DONE, FAILED, REFUSED, USAGE, WRONG_WORDS, exit_statuses, run_words};
pub use sctp_text::{FromRead, ToWrite};
