//! What congestion control asks of a sender before it takes a SACK (RFC 9260, 6.2.1 and 7.2).

use crate::parts::blocks_of;
use crate::words::Words;
use anyhow::Result;
use sctp_framing::Framing;
use sctp_send::Sender;
use sctp_wire::{Blocks, Sack, Tsns};
use std::alloc::Global;
use std::fmt::Write;

/// A question of congestion control.
#[derive(Clone, Copy)]
pub enum PaceCall<'a> {
    /// What a SACK would take back.
    TakenBack {
        tsn: u32,
        /// Words, if there are any.
        blocks: Option<&'a str>,
    },
    /// Whether something waits to be sent.
    HasMore,
}

/// The question of a line's words, if it is one.
pub fn read_pace_call<'a>(name: &str, words: &mut Words<'a>) -> Option<PaceCall<'a>> {
    Some(match name {
        "taken-back" => PaceCall::TakenBack {
            tsn: words.number()?,
            blocks: words.all(),
        },
        "has-more" => PaceCall::HasMore,
        _ => return None,
    })
}

/// Asks a sender.
pub fn pace<F: Framing>(
    alloc: Global,
    sender: &Sender<F>,
    call: PaceCall<'_>,
    out: &mut String,
) -> Result<()> {
    match call {
        PaceCall::TakenBack { tsn, blocks } => show_taken_back(alloc, sender, tsn, blocks, out),
        PaceCall::HasMore => Ok(write!(out, "{}", sender.has_more())?),
    }
}

/// The indexes that a SACK would take back.
fn show_taken_back<F: Framing>(
    alloc: Global,
    sender: &Sender<F>,
    cumulative: u32,
    blocks: Option<&str>,
    out: &mut String,
) -> Result<()> {
    if let Some(list) = blocks_of(alloc, blocks)? {
        // Each block has 4 bytes.
        if list.len() % 4 == 0 {
            let mut back = Vec::new(alloc);
            let highest = sender.list_taken_back(
                &Sack {
                    cumulative,
                    rwnd: 0,
                    blocks: Blocks::new(&list),
                    duplicates: Tsns::none(),
                },
                &mut back,
            )?;
            show_indexes(&back, highest, out)?;
        }
    }
    Ok(())
}

/// These indexes, and one that none of them is above; or that there are none.
fn show_indexes(indexes: &[u64], highest: u64, out: &mut String) -> Result<()> {
    if indexes.is_empty() {
        write!(out, "nothing")?;
        return Ok(());
    }
    write!(out, "indexes")?;
    for index in indexes {
        write!(out, " {index}")?;
    }
    Ok(write!(out, " up to {highest}")?)
}
