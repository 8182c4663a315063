//! Writes the line of a status.

ghost use Rattle.std.specs.Prelude.{◌≡◌, ◌++◌, OnOk, OnErr};
ghost use Rattle.sctp_end.specs.StatusText.{status_words, outbound_word, inbound_word, formats_word, mode_on};
ghost use Rattle.sctp_text.specs.SpacedWords.{line_of};
ghost use Rattle.sctp_text.specs.WrittenWords.{text_of};

use crate::status::Status;
use sctp_endpoint::Agreed;
use sctp_text::Word;
use sctp_values::NoMemory;
use sctp_words::{end_word, number_word, put_line, state_word};

/// Appends `status` with its words; nothing if an allocation fails.
pub(crate) fn put_status(status: &Status, out: &mut Vec<u8>) -> Result<(), NoMemory>
    ensures put { OnOk result (out.new.items ≡ out.old.items ++ line_of (status_words status.now)) }
    ensures refused { OnErr result (out.new.items ≡ out.old.items) }
{
    let words = [
        state_word(status.state),
        end_word(status.ended),
        number_word(status.next),
        outbound_word(status.agreed),
        inbound_word(status.agreed),
        formats_word(status.agreed),
        Word::Number(u64::from(status.outstanding)),
        Word::Number(status.queued as u64),
        Word::Number(status.queued_bytes),
        Word::Number(u64::from(status.held)),
        Word::Number(u64::from(status.window)),
        number_word(status.readable.map(u64::from)),
    ];
    put_line(b"status", &words, &[], out)
}

/// The number of streams that it may send on, or `-`.
fn outbound_word(agreed: Option<Agreed>) -> Word<'static>
    ensures { text_of result ≡ outbound_word agreed }
{
    match agreed {
        Some(agreed) => Word::Number(u64::from(agreed.outbound)),
        None => Word::Text(b"-"),
    }
}

/// The number of streams that its peer may send on, or `-`.
fn inbound_word(agreed: Option<Agreed>) -> Word<'static>
    ensures { text_of result ≡ inbound_word agreed }
{
    match agreed {
        Some(agreed) => Word::Number(u64::from(agreed.inbound)),
        None => Word::Text(b"-"),
    }
}

/// The extensions agreed on, by the name of the mode that asks for them, or `-`.
fn formats_word(agreed: Option<Agreed>) -> Word<'static>
    ensures { text_of result ≡ formats_word agreed }
{
    match agreed {
        Some(agreed) => mode_of(agreed.interleave, agreed.partial),
        None => Word::Text(b"-"),
    }
}

/// The name of the mode with these extensions: I-DATA, partial reliability.
fn mode_of(interleave: bool, partial: bool) -> Word<'static>
    ensures { text_of result ≡ mode_on interleave partial }
{
    if interleave && partial {
        return Word::Text(b"idata-pr");
    }
    if interleave {
        return Word::Text(b"idata");
    }
    if partial {
        return Word::Text(b"data-pr");
    }
    Word::Text(b"data")
}
