//! Reads the further lines, which only a script with a line of options has: `reset` and `resets` (RFC 6525), `later` and `moment` (the clock of
//! one endpoint).

ghost use Rattle.std.specs.Prelude.{◌≡◌, List, ℕ, length, MatchOption, MatchResult};
ghost use Rattle.sctp_events.specs.Events.{event_meaning};
ghost use Rattle.sctp_script.specs.Grammar.{Acts, Fault};
ghost use Rattle.sctp_script.specs.FurtherLines.{further_name, further_arguments, FurtherValues, AreOfFurther, AsksFurther, IsNotFurther, SaysFurther};

use crate::side_word::read_side;
use sctp_events::Event;
use sctp_text::{LONGEST_LINE, Words};
use sctp_words::{LineFault, read_u16, read_u64};

/// A command that only a script with a line of options has.
#[derive(Clone, Copy)]
pub enum FurtherCommand {
    Reset,
    Resets,
    Later,
    Moment,
}

impl FurtherCommand {
    /// The command with this name.
    fn named(word: &[u8]) -> Option<FurtherCommand>
        ensures { MatchOption result ((c : FurtherCommand) → word.now ≡ further_name c → ⊥) (λ c. word.now ≡ further_name c) }
    {
        match word {
            b"reset" => Some(FurtherCommand::Reset),
            b"resets" => Some(FurtherCommand::Resets),
            b"later" => Some(FurtherCommand::Later),
            b"moment" => Some(FurtherCommand::Moment),
            _ => None,
        }
    }

    /// The number of words after the command's name.
    fn arguments(self) -> usize
        ensures { result ≡ further_arguments self }
    {
        match self {
            FurtherCommand::Reset | FurtherCommand::Later => 2,
            FurtherCommand::Resets | FurtherCommand::Moment => 1,
        }
    }
}

/// Reads a line of one of these commands, given without its line feed. None if it has another command or none.
///
/// # Errors
/// `WordCount` if it has another number of words, `BadValue` if a word isn't a value of its field.
pub(crate) fn read_further_line(line: &[u8]) -> Result<Option<Event>, LineFault>
    ensures { MatchResult result
        (λ found. MatchOption found (IsNotFurther line.now) (λ event. SaysFurther line.now (Acts (event_meaning event))))
        (λ fault. SaysFurther line.now (Fault fault)) }
{
    if line.len() > LONGEST_LINE {
        return Ok(None);
    }
    let mut words = Words::of(line);
    let Some(command) = FurtherCommand::named(words.next_word()) else {
        return Ok(None);
    };
    if words.count() != command.arguments() {
        return Err(LineFault::WordCount);
    }
    match read_words(command, words) {
        Some(event) => Ok(Some(event)),
        None => Err(LineFault::BadValue),
    }
}

/// Reads the words after the command's name. None if one isn't a value of its field.
fn read_words(command: FurtherCommand, words: Words<'_>) -> Option<Event>
    requires { length words ≡ further_arguments command }
    ensures { MatchOption result
        ((vs : FurtherValues command) → AreOfFurther command words.entry vs → ⊥)
        (λ event. AsksFurther command words.entry (event_meaning event)) }
{
    match command {
        FurtherCommand::Reset => read_reset(words),
        FurtherCommand::Resets => read_resets(words),
        FurtherCommand::Later => read_later(words),
        FurtherCommand::Moment => read_moment(words),
    }
}

/// `reset X STREAM`
fn read_reset(mut words: Words<'_>) -> Option<Event>
    requires { length words ≡ further_arguments FurtherCommand.Reset }
    ensures { MatchOption result
        ((vs : FurtherValues FurtherCommand.Reset) → AreOfFurther FurtherCommand.Reset words.entry vs → ⊥)
        (λ event. AsksFurther FurtherCommand.Reset words.entry (event_meaning event)) }
{
    let side = read_side(words.next_word())?;
    let stream = read_u16(words.next_word())?;
    Some(Event::Reset { side, stream })
}

/// `resets X`
fn read_resets(mut words: Words<'_>) -> Option<Event>
    requires { length words ≡ further_arguments FurtherCommand.Resets }
    ensures { MatchOption result
        ((vs : FurtherValues FurtherCommand.Resets) → AreOfFurther FurtherCommand.Resets words.entry vs → ⊥)
        (λ event. AsksFurther FurtherCommand.Resets words.entry (event_meaning event)) }
{
    let side = read_side(words.next_word())?;
    Some(Event::WasReset { side })
}

/// `later X T`
fn read_later(mut words: Words<'_>) -> Option<Event>
    requires { length words ≡ further_arguments FurtherCommand.Later }
    ensures { MatchOption result
        ((vs : FurtherValues FurtherCommand.Later) → AreOfFurther FurtherCommand.Later words.entry vs → ⊥)
        (λ event. AsksFurther FurtherCommand.Later words.entry (event_meaning event)) }
{
    let side = read_side(words.next_word())?;
    let moment = read_u64(words.next_word())?;
    Some(Event::Later { side, moment })
}

/// `moment X`
fn read_moment(mut words: Words<'_>) -> Option<Event>
    requires { length words ≡ further_arguments FurtherCommand.Moment }
    ensures { MatchOption result
        ((vs : FurtherValues FurtherCommand.Moment) → AreOfFurther FurtherCommand.Moment words.entry vs → ⊥)
        (λ event. AsksFurther FurtherCommand.Moment words.entry (event_meaning event)) }
{
    let side = read_side(words.next_word())?;
    Some(Event::Moment { side })
}
