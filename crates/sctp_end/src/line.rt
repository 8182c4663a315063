//! Reads a line: what it asks for, or its fault.

ghost use Rattle.std.specs.Prelude.{◌≡◌, length, IfOk, MatchOption, MatchResult};
ghost use Rattle.sctp_end.specs.Commands.{arguments_of};
ghost use Rattle.sctp_end.specs.Grammar.{Spells, Finds, Refuses};

use crate::call::Call;
use crate::call_words::{
    read_abandon, read_abandoned, read_abort, read_acknowledged, read_at, read_connect,
    read_new_draw, read_packet, read_reset, read_send, read_take,
};
use crate::command::Command;
use sctp_text::{LONGEST_LINE, Words};
use sctp_values::NoMemory;
use sctp_words::{LineError, LineFault, is_silent};
use std::alloc::Global;

/// Reads a line, given without its line feed. None for an empty line or a comment.
///
/// # Errors
/// The line's fault with the smallest kind, or `NoMemory` if no memory could be allocated for the bytes of a word.
pub fn read_line(alloc: Global, line: &[u8]) -> Result<Option<Call>, LineError>
    ensures { MatchResult result (λ found. Finds line.now found) (λ error. Refuses line.now error) }
{
    if line.len() > LONGEST_LINE {
        return Err(LineError::Fault(LineFault::TooLong));
    }
    if is_silent(line) {
        return Ok(None);
    }
    let mut words = Words::of(line);
    let Some(command) = Command::named(words.next_word()) else {
        return Err(LineError::Fault(LineFault::UnknownCommand));
    };
    if words.count() != command.arguments() {
        return Err(LineError::Fault(LineFault::WordCount));
    }
    match read_call(alloc, command, words) {
        Ok(Some(call)) => Ok(Some(call)),
        Ok(None) => Err(LineError::Fault(LineFault::BadValue)),
        Err(NoMemory) => Err(LineError::NoMemory),
    }
}

/// Reads the words after a command. None if a word isn't a value of its field.
fn read_call(alloc: Global, command: Command, words: Words<'_>) -> Result<Option<Call>, NoMemory>
    requires { length words ≡ arguments_of command }
    ensures { IfOk result (λ found. MatchOption found
        ((call : Call) → Spells command words.entry call → ⊥) (λ call. Spells command words.entry call)) }
{
    match command {
        Command::Connect => Ok(read_connect(words)),
        Command::Draw => Ok(read_new_draw(words)),
        Command::At => Ok(read_at(words)),
        Command::Packet => read_packet(alloc, words),
        Command::Build => Ok(Some(Call::Build)),
        Command::Send => read_send(alloc, words),
        Command::Abandon => Ok(read_abandon(words)),
        Command::Acknowledged => Ok(read_acknowledged(words)),
        Command::Abandoned => Ok(read_abandoned(words)),
        Command::Take => Ok(read_take(words)),
        Command::Reset => Ok(read_reset(words)),
        Command::Resets => Ok(Some(Call::Resets)),
        Command::Shutdown => Ok(Some(Call::Shutdown)),
        Command::Abort => read_abort(alloc, words),
        Command::Next => Ok(Some(Call::Next)),
        Command::State => Ok(Some(Call::State)),
        Command::Held => Ok(Some(Call::Held)),
        Command::Reassembly => Ok(Some(Call::Reassembly)),
        Command::Status => Ok(Some(Call::Status)),
        Command::Path => Ok(Some(Call::Path)),
        Command::Counts => Ok(Some(Call::Counts)),
    }
}
