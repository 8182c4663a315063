//! Reads a line of a script.

ghost use Rattle.std.specs.Prelude.{◌≡◌, true, length, IfOk, OnErr, MatchOption, MatchResult};
ghost use Rattle.sctp_script.specs.Commands.{arguments_of, has_bytes};
ghost use Rattle.sctp_script.specs.Grammar.{LineMeaning, Spells};
ghost use Rattle.sctp_script.specs.ReadLineAnswer.{Finds, Refuses, acting_meaning};

use crate::command::Command;
use crate::command_words::{
    opening, read_abandon, read_abort, read_at, read_build, read_connect, read_deliver,
    read_drawing, read_foreign, read_send, read_shutdown, read_take,
};
use crate::pair_words::{read_delayed_pair, read_pair};
use sctp_events::{Event, PairConfig};
use sctp_text::{LONGEST_LINE, Words};
use sctp_values::NoMemory;
use sctp_words::{LineError, LineFault, is_silent};
use std::alloc::Global;

/// What a line asks for.
#[derive(Debug, PartialEq, Drop)]
pub enum Acting {
    /// `pair`: a new pair with this configuration.
    Pair(PairConfig),
    /// Any other command: this event.
    Event(Event),
}

/// Reads a line, given without its line feed. `paired` says whether a `pair` line was read before. None for an empty line or a comment.
///
/// # Errors
/// The line's fault with the smallest kind, or `NoMemory` if no memory could be allocated for the bytes of a word.
pub fn read_line(alloc: Global, line: &[u8], paired: bool) -> Result<Option<Acting>, LineError>
    ensures { MatchResult result (λ found. Finds paired line.now found) (λ error. Refuses paired line.now error) }
{
    if line.len() > LONGEST_LINE {
        return Err(LineError::Fault(LineFault::TooLong));
    }
    if is_silent(line) {
        return Ok(None);
    }
    let mut words = Words::of(line);
    let Some(named) = Command::named(words.next_word()) else {
        return Err(LineError::Fault(LineFault::UnknownCommand));
    };
    let Some(command) = named.with_arguments(words.count()) else {
        return Err(LineError::Fault(LineFault::WordCount));
    };
    match read_acting(alloc, command, words) {
        Ok(Some(acting)) => {
            if command.is_pair() == paired {
                return Err(LineError::Fault(LineFault::PairOrder));
            }
            Ok(Some(acting))
        }
        Ok(None) => Err(LineError::Fault(LineFault::BadValue)),
        Err(NoMemory) => Err(LineError::NoMemory),
    }
}

/// Reads the words after a command. None if a word isn't a value of its field, or the values make no configuration.
fn read_acting(
    alloc: Global,
    command: Command,
    words: Words<'_>,
) -> Result<Option<Acting>, NoMemory>
    requires { length words ≡ arguments_of command }
    ensures found { IfOk result (λ found. MatchOption found
        ((m : LineMeaning) → Spells command words.entry m → ⊥)
        (λ acting. Spells command words.entry (acting_meaning acting))) }
    // Only the bytes of a word are allocated.
    ensures memory { OnErr result (has_bytes command ≡ true) }
{
    match command {
        Command::Pair => Ok(read_pair(words)),
        Command::DelayedPair => Ok(read_delayed_pair(words)),
        Command::Open => Ok(Some(opening(words))),
        Command::At => Ok(read_at(words)),
        Command::Draw => Ok(read_drawing(words)),
        Command::Connect => Ok(read_connect(words)),
        Command::Build => Ok(read_build(words)),
        Command::Deliver => Ok(read_deliver(words)),
        Command::Foreign => read_foreign(alloc, words),
        Command::Send => read_send(alloc, words),
        Command::Abandon => Ok(read_abandon(words)),
        Command::Take => Ok(read_take(words)),
        Command::Shutdown => Ok(read_shutdown(words)),
        Command::Abort => read_abort(alloc, words),
    }
}
