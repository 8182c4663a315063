//! Reads the words of a line one by one.

use std::str::FromStr;

/// The words of a line that aren't read yet, none after the last one.
#[derive(Drop)]
pub struct Words<'a> {
    rest: Option<&'a str>,
}

impl<'a> Words<'a> {
    /// All words of this text, with one space between them; none if there is no text.
    pub fn new(text: Option<&'a str>) -> Words<'a> {
        Words { rest: text }
    }

    /// Whether each word was read.
    pub fn are_read(&self) -> bool {
        self.rest.is_none()
    }

    /// The next word.
    pub fn next(&mut self) -> Option<&'a str> {
        let text = self.rest?;
        let (word, rest) = match text.split_once(' ') {
            Some((word, rest)) => (word, Some(rest)),
            None => (text, None),
        };
        self.rest = rest;
        if word.is_empty() { None } else { Some(word) }
    }

    /// The next word, a number.
    pub fn number<T: FromStr>(&mut self) -> Option<T>
    where
        T::Err: Drop,
    {
        self.next()?.parse().ok()
    }

    /// The next word, one of two.
    pub fn either(&mut self, yes: &str, no: &str) -> Option<bool> {
        let word = self.next()?;
        if word == yes {
            Some(true)
        } else if word == no {
            Some(false)
        } else {
            None
        }
    }

    /// All words that are left.
    pub fn all(&mut self) -> Option<&'a str> {
        self.rest.take()
    }

    /// The next word: flags in the order I, U, B, E, or `-` for none.
    pub fn flags(&mut self) -> Option<&'a str> {
        let word = self.next()?;
        let mut rest = word;
        for flag in ['I', 'U', 'B', 'E'] {
            rest = rest.strip_prefix(flag).unwrap_or(rest);
        }
        if rest.is_empty() || word == "-" {
            Some(word)
        } else {
            None
        }
    }

    /// The next word: a time, or none.
    pub fn until(&mut self) -> Option<Option<u64>> {
        let word = self.next()?;
        if word == "-" {
            Some(None)
        } else {
            Some(Some(word.parse().ok()?))
        }
    }
}
