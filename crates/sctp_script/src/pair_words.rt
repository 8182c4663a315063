//! Reads the words of the `pair` command.

ghost use Rattle.std.specs.Prelude.{◌≡◌, [], ◌∷◌, length, MatchOption};
ghost use Rattle.sctp_script.specs.Commands.{arguments_of};
ghost use Rattle.sctp_script.specs.Grammar.{LineMeaning, Pairs, Spells};
ghost use Rattle.sctp_script.specs.ReadLineAnswer.{acting_meaning};

use crate::command::Command;
use crate::line::Acting;
use sctp_events::PairConfig;
use sctp_text::{Words, words_say_one_value};
use sctp_words::{is_delay, read_mode, read_u16, read_u32};

/// `LIMIT FRAGMENT BUFFER STREAMS MODE`
fn config_of(
    limit: &[u8],
    fragment: &[u8],
    buffer: &[u8],
    streams: &[u8],
    mode: &[u8],
) -> Option<PairConfig>
    ensures { let words = limit.now ∷ fragment.now ∷ buffer.now ∷ streams.now ∷ mode.now ∷ [] in MatchOption result
        ((m : LineMeaning) → Spells Command.Pair words m → ⊥)
        (λ config. Spells Command.Pair words (Pairs config.a)) }
{
    let limit = read_u16(limit)?;
    let fragment = read_u16(fragment)?;
    let buffer = read_u32(buffer)?;
    let streams = read_u16(streams)?;
    let mode = read_mode(mode)?;
    // law: these words spell no other values
    words_say_one_value();
    match PairConfig::new(limit, fragment, buffer, streams, mode) {
        Ok(config) => Some(config),
        Err(_) => None,
    }
}

/// `pair LIMIT FRAGMENT BUFFER STREAMS MODE`
pub(crate) fn read_pair(mut words: Words<'_>) -> Option<Acting>
    requires { length words ≡ arguments_of Command.Pair }
    ensures { MatchOption result
        ((m : LineMeaning) → Spells Command.Pair words.entry m → ⊥)
        (λ acting. Spells Command.Pair words.entry (acting_meaning acting)) }
{
    let limit = words.next_word();
    let fragment = words.next_word();
    let buffer = words.next_word();
    let streams = words.next_word();
    let mode = words.next_word();
    match config_of(limit, fragment, buffer, streams, mode) {
        Some(config) => Some(Acting::Pair(config)),
        None => None,
    }
}

/// `pair LIMIT FRAGMENT BUFFER STREAMS MODE delay`
pub(crate) fn read_delayed_pair(mut words: Words<'_>) -> Option<Acting>
    requires { length words ≡ arguments_of Command.DelayedPair }
    ensures { MatchOption result
        ((m : LineMeaning) → Spells Command.DelayedPair words.entry m → ⊥)
        (λ acting. Spells Command.DelayedPair words.entry (acting_meaning acting)) }
{
    let limit = words.next_word();
    let fragment = words.next_word();
    let buffer = words.next_word();
    let streams = words.next_word();
    let mode = words.next_word();
    if !is_delay(words.next_word()) {
        return None;
    }
    match config_of(limit, fragment, buffer, streams, mode) {
        Some(config) => Some(Acting::Pair(config.with_delay())),
        None => None,
    }
}
