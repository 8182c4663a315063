//! Laws of lines and words, which hold for every text.

ghost use Rattle.std.specs.Prelude.{◌≡◌, ℕ, ◌^◌, List, ◌++◌, Result};
ghost use Rattle.sctp_text.specs.Numerals.{SaysOneNumber, SaysOneList};
ghost use Rattle.sctp_text.specs.SpacedWords.{words_of, AreItsWords};
ghost use Rattle.sctp_text.specs.TextLines.{IsTooLong, Reading, SplitInOneWay, IsLines};
ghost use Rattle.sctp_text.specs.NextLineAnswer.{LeadsOn};
ghost use Rattle.sctp_text.specs.SkippedLines.{IsSkipped};
ghost use Rattle.sctp_text.specs.declared.line_reader.NextLine.{NextLine};
ghost use Rattle.sctp_text.specs.declared.line_reader.SkippedLine.{SkippedLine};
ghost use Rattle.sctp_text.specs.declared.source_sink.Failed.{Failed};
ghost use Rattle.sctp_text.specs.declared.line_reader.ReadFault.{ReadFault};

use crate::limits::{LINE_FEED, LONGEST_LINE, LONGEST_TEXT, SPACE};

// law
/// The separators of lines and words, and the maximum lengths of a line and of a text, as numbers: those of the pages on formats.
pub fn limits_of_a_text()
    ensures line_feed { LINE_FEED ≡ 10 }
    ensures space { SPACE ≡ 32 }
    ensures line { LONGEST_LINE ≡ 140000 }
    ensures text { LONGEST_TEXT ≡ 2 ^ 40 }
{}

// law
/// Every text is split into lines in exactly one way, so lines that are given one by one from its front are its lines.
pub fn lines_in_one_way()
    ensures split { (lines : List (List ℕ)) (rest : List ℕ) → SplitInOneWay lines rest }
    ensures exist { (text : List ℕ) → IsLines text }
{}

// law
/// A line that is too long stays too long, whatever bytes follow.
pub fn too_long_for_good()
    ensures { (given : ℕ) (text more : List ℕ) → IsTooLong given text → IsTooLong given (text ++ more) }
{}

// law
/// Repeated calls of `next_line` return the lines of the text that was read, and all of them once the input has ended.
pub fn line_after_line()
    ensures { (text : List ℕ) (lines : List (List ℕ)) (now : Reading) (bytes : List ℕ) (answer : Result NextLine ReadFault)
        (after : Reading) → LeadsOn text lines now bytes answer after }
{}

// law
/// A skipped line counts among the lines of the text that was read; a line reported as too long has more than `LONGEST_LINE` bytes.
pub fn skipped_lines_count()
    ensures { (text : List ℕ) (lines : List (List ℕ)) (now : Reading) (bytes : List ℕ) (answer : Result SkippedLine Failed)
        (after : Reading) → IsSkipped text lines now bytes answer after }
{}

// law
/// The words of a line are the stretches between its spaces.
pub fn words_part_at_spaces()
    ensures { (line : List ℕ) → AreItsWords line (words_of line) }
{}

// law
/// A word spells at most one number, and at most one list of bytes.
pub fn words_say_one_value()
    ensures numbers { (word : List ℕ) → SaysOneNumber word }
    ensures bytes { (word : List ℕ) → SaysOneList word }
{}
