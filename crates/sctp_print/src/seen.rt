//! The lines of SACK, FORWARD-TSN and I-FORWARD-TSN.

ghost use Rattle.std.specs.Prelude.{◌≡◌, ◌++◌, codes, OnOk, OnErr};
ghost use Rattle.sctp_text.specs.SpacedWords.{line_of};
ghost use Rattle.sctp_wire.specs.ChunkTree.{sack_meaning, forward_meaning};
ghost use Rattle.sctp_print.specs.ChunkLines.{sack_words, forward_words, skip_word, kind_skip_word};

use crate::words::{behind_comma, blocks_word, kind_skips_word, numbers_word, skips_word};
use sctp_text::{Word, put_line};
use sctp_wire::{Forward, Sack};
use std::alloc::{AllocError, Global};

/// Appends the line of a SACK.
pub(crate) fn put_sack(alloc: Global, sack: &Sack<'_>, out: &mut Vec<u8>) -> Result<(), AllocError>
    ensures put { OnOk result (out.new.items ≡ out.old.items ++ line_of (sack_words (sack_meaning sack.now))) }
    ensures refused { OnErr result (out.new.items ≡ out.old.items) }
{
    let blocks = blocks_word(alloc, &sack.blocks)?;
    let duplicates = numbers_word(alloc, &sack.duplicates)?;
    let words = [
        Word::Text(b"cum"),
        Word::Number(u64::from(sack.cumulative)),
        Word::Text(b"rwnd"),
        Word::Number(u64::from(sack.rwnd)),
        Word::Text(b"blocks"),
        Word::Text(behind_comma(&blocks)),
        Word::Text(b"dups"),
        Word::Text(behind_comma(&duplicates)),
    ];
    put_line(b"SACK", &words, &[], out)
}

/// Appends the line of a FORWARD-TSN.
pub(crate) fn put_forward(
    alloc: Global,
    forward: &Forward<'_>,
    out: &mut Vec<u8>,
) -> Result<(), AllocError>
    ensures put { OnOk result (out.new.items ≡ out.old.items
        ++ line_of (forward_words (codes "FORWARD-TSN") skip_word (forward_meaning forward.now))) }
    ensures refused { OnErr result (out.new.items ≡ out.old.items) }
{
    let skips = skips_word(alloc, &forward.skips)?;
    let words = [
        Word::Text(b"cum"),
        Word::Number(u64::from(forward.cumulative)),
        Word::Text(b"skips"),
        Word::Text(behind_comma(&skips)),
    ];
    put_line(b"FORWARD-TSN", &words, &[], out)
}

/// Appends the line of an I-FORWARD-TSN.
pub(crate) fn put_i_forward(
    alloc: Global,
    forward: &Forward<'_>,
    out: &mut Vec<u8>,
) -> Result<(), AllocError>
    ensures put { OnOk result (out.new.items ≡ out.old.items
        ++ line_of (forward_words (codes "I-FORWARD-TSN") kind_skip_word (forward_meaning forward.now))) }
    ensures refused { OnErr result (out.new.items ≡ out.old.items) }
{
    let skips = kind_skips_word(alloc, &forward.skips)?;
    let words = [
        Word::Text(b"cum"),
        Word::Number(u64::from(forward.cumulative)),
        Word::Text(b"skips"),
        Word::Text(behind_comma(&skips)),
    ];
    put_line(b"I-FORWARD-TSN", &words, &[], out)
}
