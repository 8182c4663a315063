//! The lines of DATA and I-DATA.

ghost use Rattle.std.specs.Prelude.{◌≡◌, ◌++◌, OnOk, OnErr};
ghost use Rattle.sctp_text.specs.SpacedWords.{line_of};
ghost use Rattle.sctp_wire.specs.ChunkTree.{piece_meaning};
ghost use Rattle.sctp_print.specs.ChunkLines.{data_words, i_data_words, piece_words, word_name};

use crate::words::{flags_word, hex_text};
use sctp_text::{Word, put_line};
use sctp_wire::Piece;
use std::alloc::{AllocError, Global};

/// The names that a line uses for a chunk, for its SSN or MID, and for the word that is a payload protocol identifier or an FSN.
#[derive(Clone, Copy)]
struct Names {
    chunk: &'static [u8],
    number: &'static [u8],
    word: &'static [u8],
}

/// Appends the line of a DATA chunk.
pub(crate) fn put_data(
    alloc: Global,
    piece: &Piece<'_>,
    out: &mut Vec<u8>,
) -> Result<(), AllocError>
    ensures put { OnOk result (out.new.items ≡ out.old.items ++ line_of (data_words (piece_meaning piece.now))) }
    ensures refused { OnErr result (out.new.items ≡ out.old.items) }
{
    let names = Names {
        chunk: b"DATA",
        number: b"ssn",
        word: b"id",
    };
    put_piece(alloc, &names, piece, out)
}

/// Appends the line of an I-DATA chunk.
pub(crate) fn put_i_data(
    alloc: Global,
    piece: &Piece<'_>,
    out: &mut Vec<u8>,
) -> Result<(), AllocError>
    ensures put { OnOk result (out.new.items ≡ out.old.items ++ line_of (i_data_words (piece_meaning piece.now))) }
    ensures refused { OnErr result (out.new.items ≡ out.old.items) }
{
    let names = Names {
        chunk: b"I-DATA",
        number: b"mid",
        word: word_name(piece.begin),
    };
    put_piece(alloc, &names, piece, out)
}

/// Appends the line of a DATA or I-DATA chunk by these names.
fn put_piece(
    alloc: Global,
    names: &Names,
    piece: &Piece<'_>,
    out: &mut Vec<u8>,
) -> Result<(), AllocError>
    ensures put { OnOk result (out.new.items ≡ out.old.items
        ++ line_of (piece_words names.now.chunk.now names.now.number.now names.now.word.now (piece_meaning piece.now))) }
    ensures refused { OnErr result (out.new.items ≡ out.old.items) }
{
    let flags = flags_word(alloc, piece)?;
    let data = hex_text(alloc, piece.bytes)?;
    let words = [
        Word::Text(&flags),
        Word::Text(b"tsn"),
        Word::Number(u64::from(piece.tsn)),
        Word::Text(b"stream"),
        Word::Number(u64::from(piece.stream)),
        Word::Text(names.number),
        Word::Number(u64::from(piece.number)),
        Word::Text(names.word),
        Word::Number(u64::from(piece.word)),
        Word::Text(b"data"),
        Word::Text(&data),
    ];
    put_line(names.chunk, &words, &[], out)
}

/// The name of an I-DATA chunk's last number: the payload protocol identifier of a first fragment, else its FSN (RFC 8260, 2.1).
fn word_name(begin: bool) -> &'static [u8]
    ensures { result.now ≡ word_name begin }
{
    if begin { b"id" } else { b"fsn" }
}
