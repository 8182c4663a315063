//! Writes kinds, optional numbers, states and how an association ended as words.

ghost use Rattle.std.specs.Prelude.{◌≡◌, option_map};
ghost use Rattle.sctp_values.specs.Meanings.{kind_meaning};
ghost use Rattle.sctp_terms.specs.Meanings.{state_meaning, end_meaning};
ghost use Rattle.sctp_text.specs.WrittenWords.{text_of};
ghost use Rattle.sctp_words.specs.Fields.{kind_word};
ghost use Rattle.sctp_words.specs.Names.{number_word, state_word, end_word};

use sctp_terms::{End, State};
use sctp_text::Word;
use sctp_values::Kind;

/// `o` for ordered delivery, `u` for unordered.
pub fn kind_word(kind: Kind) -> Word<'static>
    ensures { text_of result ≡ kind_word (kind_meaning kind) }
{
    match kind {
        Kind::Ordered => Word::Text(b"o"),
        Kind::Unordered => Word::Text(b"u"),
    }
}

/// A number, or `-` if there is none.
pub fn number_word(number: Option<u64>) -> Word<'static>
    ensures { text_of result ≡ number_word number }
{
    match number {
        Some(number) => Word::Number(number),
        None => Word::Text(b"-"),
    }
}

/// The name of a state (RFC 9260, 4).
pub fn state_word(state: State) -> Word<'static>
    ensures { text_of result ≡ state_word (state_meaning state) }
{
    match state {
        State::Closed => Word::Text(b"Closed"),
        State::Listen => Word::Text(b"Listen"),
        State::CookieWait => Word::Text(b"CookieWait"),
        State::CookieEchoed => Word::Text(b"CookieEchoed"),
        State::Established => Word::Text(b"Established"),
        State::ShutdownPending => Word::Text(b"ShutdownPending"),
        State::ShutdownSent => Word::Text(b"ShutdownSent"),
        State::ShutdownReceived => Word::Text(b"ShutdownReceived"),
        State::ShutdownAckSent => Word::Text(b"ShutdownAckSent"),
    }
}

/// The name of how an association ended, or `-` if it hasn't.
pub fn end_word(ended: Option<End>) -> Word<'static>
    ensures { text_of result ≡ end_word (option_map end_meaning ended) }
{
    match ended {
        Some(End::Completed) => Word::Text(b"Completed"),
        Some(End::Aborted) => Word::Text(b"Aborted"),
        Some(End::AbortedHere) => Word::Text(b"AbortedHere"),
        Some(End::TimedOut) => Word::Text(b"TimedOut"),
        Some(End::StaleCookie) => Word::Text(b"StaleCookie"),
        None => Word::Text(b"-"),
    }
}
