//! The arrow of a row: its direction, its extent and its words.

use crate::notes::put_name;
use crate::packet_words::packet_words;
use crate::recording::Recording;
use crate::row::{Arrow, Packet};
use crate::signs::Tone;
use crate::text::put_cut;
use sctp_pair::Side;
use std::alloc::AllocError;

/// How far an arrow goes in its row.
#[derive(Clone, Copy, PartialEq, Eq)]
pub(crate) enum Stroke {
    /// From one endpoint to the other.
    Across,
    /// It leaves, and arrives in a later row.
    Away,
    /// It leaves, and never arrives.
    Lost,
    /// It arrives, and left in an earlier row.
    Arriving,
    /// It arrives from a third party.
    Strange,
}

impl Stroke {
    /// Whether it begins at an endpoint.
    pub(crate) fn leaves(self) -> bool {
        matches!(self, Stroke::Across | Stroke::Away | Stroke::Lost)
    }
}

/// How far an arrow goes in its row.
pub(crate) fn stroke_of(run: &Recording, arrow: &Arrow) -> Stroke {
    match arrow {
        Arrow::Leaves { packet } => match run.lives().get(*packet) {
            Some(life) if life.comings > 0 => Stroke::Away,
            _ => Stroke::Lost,
        },
        Arrow::Crosses { .. } => Stroke::Across,
        Arrow::Comes { .. } => Stroke::Arriving,
        Arrow::Strange { .. } => Stroke::Strange,
    }
}

/// The endpoint that an arrow goes to.
pub(crate) fn target_of(arrow: &Arrow) -> Side {
    match arrow {
        Arrow::Leaves { packet } | Arrow::Crosses { packet } | Arrow::Comes { packet, .. } => {
            packet.side.other()
        }
        Arrow::Strange { to, .. } => *to,
    }
}

/// The colour of an arrow.
pub(crate) fn tone_of(run: &Recording, arrow: &Arrow) -> Tone {
    match (stroke_of(run, arrow), arrow) {
        (Stroke::Lost, _) => Tone::Loss,
        (Stroke::Strange, _) => Tone::Strange,
        (_, Arrow::Comes { time, .. }) if *time > 1 => Tone::Strange,
        _ => Tone::Quiet,
    }
}

/// The words of an arrow, and the number of their columns.
#[derive(Drop)]
pub(crate) struct Words {
    pub(crate) text: String,
    pub(crate) width: usize,
}

/// The words of an arrow: the packet's name, its chunks, and whether it has arrived before; cut to the columns that there are.
///
/// # Errors
/// An allocation failed.
pub(crate) fn arrow_words(
    run: &Recording,
    arrow: &Arrow,
    room: usize,
    cut: &str,
) -> Result<Words, AllocError> {
    let mut whole = String::new(run.alloc());
    let mut again = String::new(run.alloc());
    match arrow {
        Arrow::Leaves { packet } | Arrow::Crosses { packet } => {
            put_packet(run, *packet, room, &mut whole)?;
        }
        Arrow::Comes { packet, time } => {
            put_packet(run, *packet, room, &mut whole)?;
            put_again(*time, &mut again)?;
        }
        Arrow::Strange { index, .. } => {
            whole.push_str("? ")?;
            let words = packet_words(run.alloc(), run.strange(*index), room)?;
            whole.push_str(words.as_str())?;
        }
    }
    let mut text = String::new(run.alloc());
    let width = put_cut(
        whole.as_str(),
        room.saturating_sub(again.len()),
        cut,
        &mut text,
    )?;
    text.push_str(again.as_str())?;
    Ok(Words {
        text,
        width: width.saturating_add(again.len()),
    })
}

/// Appends a packet's name and its chunks.
fn put_packet(
    run: &Recording,
    packet: Packet,
    enough: usize,
    words: &mut String,
) -> Result<(), AllocError> {
    put_name(packet, words)?;
    words.push_str(" ")?;
    let chunks = packet_words(run.alloc(), run.bytes(packet), enough)?;
    words.push_str(chunks.as_str())
}

/// Appends how often a packet has arrived before.
fn put_again(time: u32, words: &mut String) -> Result<(), AllocError> {
    match time {
        0 | 1 => Ok(()),
        2 => words.push_str("  (again)"),
        _ => write!(words, "  ({time}. time)"),
    }
}
