//! The items of lists in chunks, as bytes.

use anyhow::Result;
use sctp_wire::{
    GapBlock, Skip, SkipForm, put_block, put_cause, put_parameter, put_skip, put_word,
};
use std::alloc::Global;

/// A gap block, a TSN, an entry of a FORWARD-TSN, one of an I-FORWARD-TSN, a parameter, and a cause after its padding.
const ITEMS: [u8; 35] = [
    0, 2, 0, 3, 0, 0, 0, 7, 0, 3, 0, 9, 0, 3, 0, 0, 0, 0, 0, 9, 0x80, 8, 0, 5, 0x40, 0, 0, 0, 0,
    12, 0, 7, 0x77, 0x68, 0x79,
];

/// Whether all items are written with the right bytes, one after another.
pub fn are_written(alloc: Global) -> Result<bool> {
    let mut list = Vec::new(alloc);
    put_block(GapBlock { start: 2, end: 3 }, &mut list)?;
    put_word(7, &mut list)?;
    put_skips(&mut list)?;
    put_parameter(0x8008, b"@", &mut list)?;
    put_cause(12, b"why", &mut list)?;
    Ok(list.as_slice() == ITEMS.as_slice())
}

/// An entry that skips the ordered messages up to number 9 of stream 3, in both formats.
fn put_skips(list: &mut Vec<u8>) -> Result<()> {
    let skip = Skip {
        stream: 3,
        unordered: false,
        number: 9,
    };
    put_skip(SkipForm::Narrow, skip, list)?;
    Ok(put_skip(SkipForm::Wide, skip, list)?)
}
