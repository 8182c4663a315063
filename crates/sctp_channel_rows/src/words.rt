//! Reads the words of a line one by one.

use anyhow::{Error, Result, anyhow};
use sctp_channels::Reliability;
use std::str::FromStr;

/// The words of a line that aren't read yet, none after the last one.
#[derive(Drop)]
pub struct Words<'a> {
    rest: Option<&'a str>,
}

impl<'a> Words<'a> {
    /// All words of this line, with one space between them.
    pub fn new(line: &'a str) -> Words<'a> {
        Words { rest: Some(line) }
    }

    /// The next word; none after the last one.
    pub fn next(&mut self) -> Option<&'a str> {
        let text = self.rest?;
        let (word, rest) = match text.split_once(' ') {
            Some((word, rest)) => (word, Some(rest)),
            None => (text, None),
        };
        self.rest = rest;
        Some(word)
    }

    /// All words that are left.
    pub fn rest(&mut self) -> &'a str {
        self.rest.take().unwrap_or("")
    }

    /// The next word.
    ///
    /// # Errors
    /// There is none.
    pub fn word(&mut self) -> Result<&'a str> {
        self.next().ok_or_else(unreadable)
    }

    /// The next word, a number.
    ///
    /// # Errors
    /// It is none.
    pub fn number<T: FromStr>(&mut self) -> Result<T>
    where
        T::Err: Drop,
    {
        self.word()?.parse().map_err(|_| unreadable())
    }

    /// The next word, one of two: whether it is the first one.
    ///
    /// # Errors
    /// It is neither.
    pub fn either(&mut self, yes: &str, no: &str) -> Result<bool> {
        let word = self.word()?;
        if word == yes {
            Ok(true)
        } else if word == no {
            Ok(false)
        } else {
            Err(unreadable())
        }
    }

    /// The next word: a reliability, `-`, `xTIMES` or MILLISECONDS.
    ///
    /// # Errors
    /// It is none.
    pub fn reliability(&mut self) -> Result<Reliability> {
        let word = self.word()?;
        if word == "-" {
            return Ok(Reliability::Reliable);
        }
        match word.strip_prefix('x') {
            Some(times) => Ok(Reliability::MaxRetransmits(
                times.parse().map_err(|_| unreadable())?,
            )),
            None => Ok(Reliability::MaxPacketLifetime(word.parse().map_err(|_| unreadable())?)),
        }
    }

    /// The next word: a stream, or `-` for any.
    ///
    /// # Errors
    /// It is neither.
    pub fn stream(&mut self) -> Result<Option<u16>> {
        let word = self.word()?;
        if word == "-" {
            return Ok(None);
        }
        Ok(Some(word.parse().map_err(|_| unreadable())?))
    }
}

/// A call has another form.
pub fn unreadable() -> Error {
    anyhow!("a call can't be read")
}
