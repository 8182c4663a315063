//! The script language of a pair of endpoints: reads its lines, and writes the lines of outcomes and of the report.
//!
//! Events, outcomes and the pair's configuration are those of sctp_events; numbers, tags and TSNs, modes, names and line faults those of
//! sctp_words. `specs/Commands` has the fourteen commands and the fields of each (their names are thirteen: `pair` has two forms, distinguished
//! by the number of words), `specs/Fields` the values of a field, `specs/Grammar` what a line says, which faults it has and which of
//! them counts. After the `pair` line there may be lines of options, which set the configurations of both endpoints: `specs/Options` has the
//! options, their fields and what each sets, `specs/OptionLines` which lines are such lines and what they leave, `specs/Places` what a line says
//! at its place in a script. In a script without such a line every line says what `specs/Grammar` says; in one with it a line `send` may give a
//! limit of retransmissions, too (`specs/LimitedSends`), and there are four further commands (`specs/FurtherLines`): two of resets of streams, and
//! two of the clock of one endpoint. `specs/OutcomeText` has the line of each outcome, `specs/ReportText` the report.
//!
//! # Promises
//!
//! - `read_line` returns what the grammar says of the line: the event with its values, or nothing for an empty line or a comment. Otherwise
//!   it returns the fault with the smallest kind, and only if the line has it. `NoMemory` is possible only for a line of `foreign`, `send`
//!   or `abort` with its number of words.
//! - `read_line_at` returns what a line says at its place: before the `pair` line, after it until a line asks something of the pair, or after
//!   that. `Place::of` makes the place of the `Preamble`: what the lines before said of the endpoints. Right after the `pair` line a line of options gives the configurations that it leaves; if it leaves none its fault is `BadValue`. Every other
//!   line is read as by `read_line`.
//! - `put_outcome` appends exactly the line of the outcome; endpoint and stream in it are those of the event that it answers.
//! - `put_end` appends `end X STATE WHY`; `put_numbered`, `put_abandoned`, `put_handed` and `put_count` append the line with all tickets or
//!   numbers in order, or the count, and nothing if there is none.
//! - If an allocation fails, none of these appends anything.
//!
//! Laws, over all lines: `one_meaning` (a line says exactly one thing), `one_meaning_at` (at its place too), `configurations_are_right` (the
//! configurations that the `pair` line and lines of options say have the pair's ports and no fault), `the_pair_comes_first` (a line makes a pair only if none was made
//! before, and its configuration has the pair's ports and no fault), `events_follow_the_pair` (a line asks for an event only after a
//! `pair` line), `events_can_happen` (tags aren't 0, times have 64 bits, a third party's bytes are bytes), `events_at_their_place` (both of these
//! at a line's place, too).
//!
//! An event is one of the model's, or brings the bytes of a third party to an endpoint (`Wanted` of `sctp_events/specs/Events`): how these
//! bytes read as a packet isn't this crate's matter. The report is a function of the model's world (`report`); the functions here write its
//! lines from lists that the pair keeps, and that these lists are the world's is sctp_pair's promise.
//!
//! # What the contracts can't say
//!
//! A caller might pass withdrawn tickets to `put_abandoned`, or leave messages out of `put_handed`: that is refused where the report is put
//! together, by `report` of sctp_pair. That each call which allocates can succeed is shown by the rows of sctp_rows; the texts of faults
//! are checked by nothing.
//!
//! # How the proofs go
//!
//! Commands are distinguished by `command_named`, a search in the list `commands` that computes, and then by `form_of`. `named_again`
//! (`proofs/CommandLemmas`) has a row for each command: its name finds `first_form` of it. That a name and a number of words determine one
//! command (`same_command`) follows from it and `formed_again`; what is said of all names follows from the list (`each_passes`). Words are
//! decided field by field and a line by the list of its fields (`proofs/FieldLemmas`), so a further command with known fields needs no new
//! lemma; that a word spells one value or none is the law `words_say_one_value` of sctp_text, which `one_meaning` and the reader of `pair`
//! call. What the words of each command say is in `proofs/SpellLemmas`. A further option with known fields needs a row in `specs/Options` (three
//! functions), in `src/option_name.rt` and `src/options.rt` (`set`), in `proofs/OptionNames` and in `set_ports` of `proofs/OptionsLeave`; that words
//! are options in one way (`proofs/OptionWords`) and that this is decided (`proofs/OptionsDecided`) is proved for all of them. `put_outcome` and `side_named` need no answer file: their cases
//! compute. `Command::named`, here and in sctp_end, closes by search, also at half of the search's limits
//! (`rt check --only Command::named --margin`).
#![tactic(auto)]

mod command;
mod command_words;
mod further_line;
mod laws;
mod limited_send;
mod line;
mod option_name;
mod options;
mod outcome_line;
mod pair_words;
mod placed;
mod report;
mod side_word;
mod ticket_line;

pub use laws::{
    configurations_are_right, events_at_their_place, events_can_happen, events_follow_the_pair,
    one_meaning, one_meaning_at, the_pair_comes_first,
};
pub use line::{Acting, read_line};
pub use outcome_line::put_outcome;
pub use placed::{Place, Placed, Preamble, read_line_at};
pub use report::{put_abandoned, put_count, put_end, put_handed, put_numbered};
