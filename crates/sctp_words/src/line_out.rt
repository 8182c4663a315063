//! Writes a line; a failed allocation is this project's `NoMemory`.

ghost use Rattle.std.specs.Prelude.{◌≡◌, ◌∷◌, ◌++◌, map, decimal, OnOk, OnErr};
ghost use Rattle.sctp_text.specs.SpacedWords.{line_of};
ghost use Rattle.sctp_text.specs.WrittenWords.{text_of};

use sctp_text::Word;
use sctp_values::NoMemory;

/// Appends a line: its first word, further words, then numbers.
///
/// # Errors
/// `NoMemory` if `out` can't grow; it is unchanged then.
pub fn put_line(
    first: &[u8],
    words: &[Word<'_>],
    numbers: &[u64],
    out: &mut Vec<u8>,
) -> Result<(), NoMemory>
    ensures put { OnOk result (out.new.items ≡ out.old.items
        ++ line_of (first.now ∷ (map text_of words.now ++ map decimal numbers.now))) }
    ensures refused { OnErr result (out.new.items ≡ out.old.items) }
{
    sctp_text::put_line(first, words, numbers, out).map_err(|_| NoMemory)
}
