//! Writes the line of a path.

ghost use Rattle.std.specs.Prelude.{◌≡◌, ◌++◌, Some, OnOk, OnErr};
ghost use Rattle.sctp_end.specs.PathText.{path_words};
ghost use Rattle.sctp_text.specs.SpacedWords.{line_of};

use sctp_endpoint::Path;
use sctp_text::Word;
use sctp_values::NoMemory;
use sctp_words::{number_word, put_line};

/// Appends `path` with its words; nothing if an allocation fails.
pub(crate) fn put_path(flight: u64, path: Option<Path>, out: &mut Vec<u8>) -> Result<(), NoMemory>
    ensures put { OnOk result (out.new.items ≡ out.old.items ++ line_of (path_words flight path)) }
    ensures refused { OnErr result (out.new.items ≡ out.old.items) }
{
    match path {
        Some(path) => put_known(flight, path, out),
        None => {
            let words = [
                Word::Number(flight),
                number_word(None),
                number_word(None),
                number_word(None),
                number_word(None),
                number_word(None),
            ];
            put_line(b"path", &words, &[], out)
        }
    }
}

/// Appends the line of a path of which something is known; nothing if an allocation fails.
fn put_known(flight: u64, path: Path, out: &mut Vec<u8>) -> Result<(), NoMemory>
    ensures put { OnOk result (out.new.items ≡ out.old.items ++ line_of (path_words flight (Some path))) }
    ensures refused { OnErr result (out.new.items ≡ out.old.items) }
{
    let words = [
        Word::Number(flight),
        number_word(path.srtt.map(u64::from)),
        number_word(path.rttvar.map(u64::from)),
        Word::Number(path.rto),
        number_word(path.cwnd.map(u64::from)),
        number_word(path.ssthresh.map(u64::from)),
    ];
    put_line(b"path", &words, &[], out)
}
