//! The faults of a line, and which lines do nothing.

ghost use Rattle.std.specs.Prelude.{◌≡◌, ◌↔◌, IsTrue};
ghost use Rattle.sctp_words.specs.Lines.{IsSilent};

use thiserror::Error;

/// The first byte of a comment line, `#`.
pub const COMMENT: u8 = 35;

// law
/// A comment begins with byte 35, as in the pages on formats.
pub fn comments_begin_with_a_number_sign()
    ensures { COMMENT ≡ 35 }
{}

/// What is wrong with a line. If it has several faults, the one with the smallest kind is reported.
#[derive(Clone, Copy, Debug, PartialEq, Eq, Error)]
pub enum LineFault {
    /// 1: the line has more than 140,000 bytes; comments are no exception.
    #[error("too long")]
    TooLong,
    /// 2: the first word isn't a command.
    #[error("unknown command")]
    UnknownCommand,
    /// 3: the line doesn't have the command's number of words.
    #[error("wrong number of words")]
    WordCount,
    /// 4: a word isn't a value of its field, or the values together make no configuration.
    #[error("bad value")]
    BadValue,
    /// 5: a second `pair` line, or another command before the first one. Only scripts of two endpoints have this fault.
    #[error("`pair` missing or repeated")]
    PairOrder,
}

impl LineFault {
    ghost use Rattle.std.specs.Prelude.{◌≡◌};
    ghost use Rattle.sctp_words.specs.Lines.{kind_of};

    /// The number of the fault's kind, 1 to 5.
    pub fn kind(self) -> u8
        ensures { result ≡ kind_of self }
    {
        match self {
            LineFault::TooLong => 1,
            LineFault::UnknownCommand => 2,
            LineFault::WordCount => 3,
            LineFault::BadValue => 4,
            LineFault::PairOrder => 5,
        }
    }
}

/// Why a line couldn't be read.
#[derive(Clone, Copy, Debug, PartialEq, Eq, Error)]
pub enum LineError {
    /// The line has this fault.
    #[error("{0}")]
    Fault(LineFault),
    /// The bytes of a word couldn't be allocated.
    #[error("out of memory")]
    NoMemory,
}

/// Whether a line is empty or a comment.
pub fn is_silent(line: &[u8]) -> bool
    ensures { IsTrue result ↔ IsSilent line.now }
{
    match line.first() {
        Some(first) => *first == COMMENT,
        None => true,
    }
}
