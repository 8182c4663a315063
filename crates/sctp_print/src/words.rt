//! Words that need a buffer of their own before their line is written: lists, flags, bytes.

ghost use Rattle.std.specs.Prelude.{◌≡◌, ◌∷◌, ◌++◌, length, decimal, IfOk, OnOk};
ghost use Rattle.sctp_text.specs.Numerals.{hex_word};
ghost use Rattle.sctp_model.specs.wire.Typed.{typed_in};
ghost use Rattle.sctp_wire.specs.ChunkTree.{block_meaning, piece_meaning, skip_meaning};
ghost use Rattle.sctp_print.specs.ChunkLines.{letter, flags_word, each_behind_comma, block_word, skip_word, kind_skip_word, type_word};
ghost use Rattle.sctp_print.specs.Commas.{behind_comma};

use sctp_text::{put_decimal, put_hex};
use sctp_wire::{Blocks, Causes, GapBlock, Parameters, Piece, Skip, Skips, Tsns};
use std::alloc::{AllocError, Global};

/// Separates the items of a list.
pub const COMMA: u8 = b',';
/// Separates start and end of a gap block; alone it means none.
pub const DASH: u8 = b'-';
/// Separates the parts of a FORWARD-TSN entry.
pub const COLON: u8 = b':';

// law
/// The separators of printed lists as ASCII codes, as the pages on formats show them: `,`, `-` and `:`.
pub fn signs_of_lists()
    ensures comma { COMMA ≡ 44 }
    ensures dash { DASH ≡ 45 }
    ensures colon { COLON ≡ 58 }
{}

/// The gap blocks, each after a comma.
pub(crate) fn blocks_word(alloc: Global, blocks: &Blocks<'_>) -> Result<Vec<u8>, AllocError>
    ensures { IfOk result (λ word. word.items ≡ each_behind_comma block_word blocks.now) }
{
    let mut word = Vec::new(alloc);
    for block in blocks.iter() {
        put_block(&block, &mut word)?;
    }
    Ok(word)
}

/// Appends a comma and a gap block.
fn put_block(block: &GapBlock, word: &mut Vec<u8>) -> Result<(), AllocError>
    ensures { OnOk result (word.new.items ≡ word.old.items ++ (COMMA ∷ block_word (block_meaning block.now))) }
{
    word.push(COMMA)?;
    put_decimal(u64::from(block.start), word)?;
    word.push(DASH)?;
    put_decimal(u64::from(block.end), word)
}

/// The numbers, each after a comma.
pub(crate) fn numbers_word(alloc: Global, numbers: &Tsns<'_>) -> Result<Vec<u8>, AllocError>
    ensures { IfOk result (λ word. word.items ≡ each_behind_comma decimal numbers.now) }
{
    let mut word = Vec::new(alloc);
    for number in numbers.iter() {
        word.push(COMMA)?;
        put_decimal(u64::from(number), &mut word)?;
    }
    Ok(word)
}

/// The entries of a FORWARD-TSN, each after a comma.
pub(crate) fn skips_word(alloc: Global, skips: &Skips<'_>) -> Result<Vec<u8>, AllocError>
    ensures { IfOk result (λ word. word.items ≡ each_behind_comma skip_word skips.now.skips) }
{
    let mut word = Vec::new(alloc);
    for skip in skips.iter() {
        put_skip(&skip, &mut word)?;
    }
    Ok(word)
}

/// Appends a comma and an entry of a FORWARD-TSN.
fn put_skip(skip: &Skip, word: &mut Vec<u8>) -> Result<(), AllocError>
    ensures { OnOk result (word.new.items ≡ word.old.items ++ (COMMA ∷ skip_word (skip_meaning skip.now))) }
{
    word.push(COMMA)?;
    put_decimal(u64::from(skip.stream), word)?;
    word.push(COLON)?;
    put_decimal(u64::from(skip.number), word)
}

/// The entries of an I-FORWARD-TSN, each after a comma.
pub(crate) fn kind_skips_word(alloc: Global, skips: &Skips<'_>) -> Result<Vec<u8>, AllocError>
    ensures { IfOk result (λ word. word.items ≡ each_behind_comma kind_skip_word skips.now.skips) }
{
    let mut word = Vec::new(alloc);
    for skip in skips.iter() {
        put_kind_skip(&skip, &mut word)?;
    }
    Ok(word)
}

/// Appends a comma and an entry of an I-FORWARD-TSN.
fn put_kind_skip(skip: &Skip, word: &mut Vec<u8>) -> Result<(), AllocError>
    ensures { OnOk result (word.new.items ≡ word.old.items ++ (COMMA ∷ kind_skip_word (skip_meaning skip.now))) }
{
    word.push(COMMA)?;
    put_decimal(u64::from(skip.stream), word)?;
    word.push(COLON)?;
    word.push(if skip.unordered { b'u' } else { b'o' })?;
    word.push(COLON)?;
    put_decimal(u64::from(skip.number), word)
}

/// The types of causes, each after a comma.
pub(crate) fn kinds_word(alloc: Global, causes: &Causes<'_>) -> Result<Vec<u8>, AllocError>
    ensures { IfOk result (λ word. word.items ≡ each_behind_comma type_word (typed_in causes.now)) }
{
    let mut word = Vec::new(alloc);
    for cause in causes.iter() {
        word.push(COMMA)?;
        put_decimal(u64::from(cause.kind), &mut word)?;
    }
    Ok(word)
}

/// The number of parameters.
pub(crate) fn count_items(parameters: &Parameters<'_>) -> u64
    ensures { result ≡ length (typed_in parameters.now) }
{
    // There are no more of them than bytes.
    let _size = parameters.size();
    let mut count = 0u64;
    for item in parameters.iter() {
        let _ = item;
        count += 1;
    }
    count
}

/// The word without its first comma, or `-` if it is empty.
pub(crate) fn behind_comma(word: &[u8]) -> &[u8]
    ensures { result.now ≡ behind_comma word.now }
{
    if word.is_empty() {
        return b"-";
    }
    &word[1..]
}

/// The bytes in hexadecimal, or `-` if there are none.
pub(crate) fn hex_text(alloc: Global, bytes: &[u8]) -> Result<Vec<u8>, AllocError>
    ensures { IfOk result (λ word. word.items ≡ hex_word bytes.now) }
{
    let mut word = Vec::new(alloc);
    put_hex(bytes, &mut word)?;
    Ok(word)
}

/// The letters of the flags that are set, or `-`.
pub(crate) fn flags_word(alloc: Global, piece: &Piece<'_>) -> Result<Vec<u8>, AllocError>
    ensures { IfOk result (λ word. word.items ≡ flags_word (piece_meaning piece.now)) }
{
    let mut word = Vec::new(alloc);
    put_letter(piece.immediate, b'I', &mut word)?;
    put_letter(piece.unordered, b'U', &mut word)?;
    put_letter(piece.begin, b'B', &mut word)?;
    put_letter(piece.end, b'E', &mut word)?;
    if word.is_empty() {
        word.push(DASH)?;
    }
    Ok(word)
}

/// Appends a letter if a flag is set.
fn put_letter(set: bool, code: u8, word: &mut Vec<u8>) -> Result<(), AllocError>
    ensures { OnOk result (word.new.items ≡ word.old.items ++ letter code set) }
{
    if set {
        word.push(code)?;
    }
    Ok(())
}
