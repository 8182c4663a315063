//! Splits a line into words at its spaces.

ghost use Rattle.std.specs.Prelude.{◌≡◌, ◌==◌, ◌<◌, ◌∷◌, length, position};
ghost use Rattle.sctp_text.specs.SpacedWords.{words_of};

use crate::limits::SPACE;
use std::marker::Model;

/// An iterator over the words of a line: those that aren't taken yet. Leading, double and trailing spaces make empty words.
#[derive(Debug, Drop)]
pub struct Words<'a> {
    rest: &'a [u8],
    ended: bool,
}

impl<'a> Model for Words<'a> {
    ghost use Rattle.std.specs.Prelude.{ℕ, List};

    ghost Value = { List (List ℕ) };

    ghost use Rattle.sctp_text.specs.SpacedWords.{words_left};

    ghost view = { λ s. words_left s.ended s.rest.now };
}

impl<'a> Words<'a> {
    /// The words of a line: at least one, which is empty if the line is.
    pub fn of(line: &'a [u8]) -> Words<'a>
        ensures { result ≡ words_of line.now }
    {
        Words {
            rest: line,
            ended: false,
        }
    }

    /// The number of words left.
    pub fn count(&self) -> usize
        ensures { result ≡ length self.now }
    {
        if self.ended {
            return 0;
        }
        1 + self.rest.iter().filter(|byte| **byte == SPACE).count()
    }

    /// Takes the next word.
    pub fn next_word(&mut self) -> &'a [u8]
        requires { 0 < length self.old }
        ensures { self.old ≡ result.now ∷ self.new }
    {
        let rest = self.rest;
        match first_space(rest) {
            Some(end) => {
                self.rest = &rest[end + 1..];
                &rest[..end]
            }
            None => {
                self.ended = true;
                rest
            }
        }
    }
}

/// The position of the first space.
fn first_space(text: &[u8]) -> Option<usize>
    ensures { result ≡ position (λ byte. byte == SPACE) text.now }
{
    text.iter().position(|byte| *byte == SPACE)
}
