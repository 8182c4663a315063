//! Writes the line of an answer.

ghost use Rattle.std.specs.Prelude.{◌≡◌, ◌∷◌, [], ◌++◌, map, codes, decimal, OnOk, OnErr};
ghost use Rattle.sctp_end.specs.ReplyText.{truth_word, reply_line, reply_words};
ghost use Rattle.sctp_values.specs.Meanings.{kind_meaning};
ghost use Rattle.sctp_words.specs.Fields.{kind_word};
ghost use Rattle.sctp_words.specs.Names.{number_word};
ghost use Rattle.sctp_text.specs.Numerals.{hex_word};
ghost use Rattle.sctp_text.specs.SpacedWords.{line_of};
ghost use Rattle.sctp_text.specs.WrittenWords.{text_of};

use crate::counts_line::put_counts;
use crate::path_line::put_path;
use crate::reply::Reply;
use crate::status_line::put_status;
use sctp_text::{Bytes, Word};
use sctp_values::{Kind, NoMemory};
use sctp_words::{end_word, kind_word, number_word, put_line, state_word};

/// Appends the line of an answer, with its line feed.
///
/// # Errors
/// `NoMemory` if `out` can't grow; it is unchanged then.
pub fn put_reply(reply: &Reply, out: &mut Vec<u8>) -> Result<(), NoMemory>
    ensures put { OnOk result (out.new.items ≡ out.old.items ++ reply_line reply.now) }
    ensures refused { OnErr result (out.new.items ≡ out.old.items) }
{
    match reply {
        Reply::Done => put_words(b"ok", &[], out),
        Reply::Refused(refusal) => put_number(b"refused", u64::from(refusal.code()), out),
        Reply::Taken => put_words(b"taken", &[], out),
        Reply::Dropped(reason) => put_number(b"dropped", u64::from(reason.code()), out),
        Reply::Answer(bytes) => put_words(b"answer", &[Word::Hex(bytes.as_slice())], out),
        Reply::Sent(bytes) => put_words(b"sent", &[Word::Hex(bytes.as_slice())], out),
        Reply::Quiet => put_words(b"quiet", &[], out),
        Reply::Ticket(ticket) => put_number(b"ticket", *ticket, out),
        Reply::Fate(fate) => put_number(b"fate", u64::from(fate.code()), out),
        Reply::Holds(holds) => put_words(truth(*holds), &[], out),
        Reply::Message {
            stream,
            kind,
            number,
            payload_id,
            bytes,
        } => put_message(*stream, *kind, *number, *payload_id, bytes, out),
        Reply::Empty { stream } => put_number(b"empty", u64::from(*stream), out),
        Reply::ResetThere { stream, count } => put_reset(*stream, *count, out),
        Reply::NoReset => put_words(b"no-reset", &[], out),
        Reply::Next(moment) => put_words(b"next", &[number_word(*moment)], out),
        Reply::Stands { state, ended } => {
            put_words(b"state", &[state_word(*state), end_word(*ended)], out)
        }
        Reply::Status(status) => put_status(status, out),
        Reply::Path { flight, path } => put_path(*flight, *path, out),
        Reply::Counts(counts) => put_counts(counts, out),
        Reply::Held(bytes) => put_number(b"held", u64::from(*bytes), out),
        Reply::Reassembly(bytes) => put_number(b"reassembly", u64::from(*bytes), out),
        Reply::Fault(fault) => put_number(b"fault", u64::from(fault.kind()), out),
        Reply::NoMemory => put_words(b"memory", &[], out),
    }
}

/// Appends a line of a first word and further words; nothing if an allocation fails.
fn put_words(first: &[u8], words: &[Word<'_>], out: &mut Vec<u8>) -> Result<(), NoMemory>
    ensures put { OnOk result (out.new.items ≡ out.old.items ++ line_of (first.now ∷ map text_of words.now)) }
    ensures refused { OnErr result (out.new.items ≡ out.old.items) }
{
    put_line(first, words, &[], out)
}

/// Appends a line of a word and a number; nothing if an allocation fails.
fn put_number(first: &[u8], number: u64, out: &mut Vec<u8>) -> Result<(), NoMemory>
    ensures put { OnOk result (out.new.items ≡ out.old.items ++ line_of (first.now ∷ decimal number ∷ [])) }
    ensures refused { OnErr result (out.new.items ≡ out.old.items) }
{
    put_words(first, &[Word::Number(number)], out)
}

/// Appends `message STREAM KIND NUMBER ID HEX`; nothing if an allocation fails.
fn put_message(
    stream: u16,
    kind: Kind,
    number: Option<u64>,
    payload_id: u32,
    bytes: &Bytes,
    out: &mut Vec<u8>,
) -> Result<(), NoMemory>
    ensures put { OnOk result (out.new.items ≡ out.old.items
        ++ line_of (codes "message" ∷ decimal stream ∷ kind_word (kind_meaning kind) ∷ number_word number ∷ decimal payload_id ∷ hex_word bytes.now ∷ [])) }
    ensures refused { OnErr result (out.new.items ≡ out.old.items) }
{
    let words = [
        Word::Number(u64::from(stream)),
        kind_word(kind),
        number_word(number),
        Word::Number(u64::from(payload_id)),
        Word::Hex(bytes.as_slice()),
    ];
    put_words(b"message", &words, out)
}

/// Appends `reset STREAM COUNT`; nothing if an allocation fails.
fn put_reset(stream: u16, count: usize, out: &mut Vec<u8>) -> Result<(), NoMemory>
    ensures put { OnOk result (out.new.items ≡ out.old.items ++ line_of (codes "reset" ∷ decimal stream ∷ decimal count ∷ [])) }
    ensures refused { OnErr result (out.new.items ≡ out.old.items) }
{
    let words = [Word::Number(u64::from(stream)), Word::Number(count as u64)];
    put_words(b"reset", &words, out)
}

/// `yes` or `no`.
fn truth(holds: bool) -> &'static [u8]
    ensures { result.now ≡ truth_word holds }
{
    if holds { b"yes" } else { b"no" }
}
