//! What goes between the lifelines of a ladder.

use crate::arrows::{Stroke, Words, arrow_words, stroke_of, target_of, tone_of};
use crate::recording::Recording;
use crate::row::Arrow;
use crate::signs::Signs;
use crate::style::Style;
use crate::text::put_times;
use sctp_pair::Side;
use std::alloc::AllocError;

/// The most columns of an arrow besides its words.
const ARROW: usize = 8;

/// Appends both lifelines and the arrow between them.
///
/// # Errors
/// An allocation failed.
pub(super) fn put_arrow(
    style: &Style,
    run: &Recording,
    arrow: &Arrow,
    out: &mut String,
) -> Result<(), AllocError> {
    let signs = style.signs();
    let (stroke, to, tone) = (stroke_of(run, arrow), target_of(arrow), tone_of(run, arrow));
    let words = arrow_words(run, arrow, style.between.saturating_sub(ARROW), signs.cut)?;
    let leaves_a = stroke.leaves() && to == Side::B;
    let leaves_b = stroke.leaves() && to == Side::A;
    out.push_str(if leaves_a { signs.from_a } else { signs.line })?;
    out.push_str(style.begin(tone))?;
    match stroke {
        Stroke::Across => put_across(signs, to, &words, style.between, out)?,
        _ => put_part(signs, stroke, to, &words, style.between, out)?,
    }
    out.push_str(style.end(tone))?;
    out.push_str(if leaves_b { signs.from_b } else { signs.line })
}

/// Appends an arrow from one endpoint to the other, its words in the middle.
fn put_across(
    signs: &Signs,
    to: Side,
    words: &Words,
    room: usize,
    out: &mut String,
) -> Result<(), AllocError> {
    let spare = room.saturating_sub(words.width.saturating_add(2));
    let left = spare / 2;
    let right = spare - left;
    match to {
        Side::A => {
            out.push_str(signs.to_a)?;
            put_times(signs.dash, left.saturating_sub(1), out)?;
            put_spaced(words, out)?;
            put_times(signs.dash, right, out)
        }
        Side::B => {
            put_times(signs.dash, left, out)?;
            put_spaced(words, out)?;
            put_times(signs.dash, right.saturating_sub(1), out)?;
            out.push_str(signs.to_b)
        }
    }
}

/// Appends an arrow at one endpoint only.
fn put_part(
    signs: &Signs,
    stroke: Stroke,
    to: Side,
    words: &Words,
    room: usize,
    out: &mut String,
) -> Result<(), AllocError> {
    let tail = tail_of(signs, stroke);
    let head = head_of(signs, stroke, to);
    let taken = words
        .width
        .saturating_add(2)
        .saturating_add(count_of(&tail))
        .saturating_add(count_of(&head));
    let spare = room.saturating_sub(taken);
    let stands_at_a = stroke.leaves() == (to == Side::B);
    if !stands_at_a {
        put_times(" ", spare, out)?;
    }
    match to {
        Side::A => {
            put_backwards(&head, out)?;
            put_spaced(words, out)?;
            put_backwards(&tail, out)?;
        }
        Side::B => {
            put_all(&tail, out)?;
            put_spaced(words, out)?;
            put_all(&head, out)?;
        }
    }
    if stands_at_a {
        put_times(" ", spare, out)?;
    }
    Ok(())
}

/// Up to three signs, in the direction of an arrow; empty ones don't count.
type Part = [&'static str; 3];

/// The signs before an arrow's words.
fn tail_of(signs: &Signs, stroke: Stroke) -> Part {
    match stroke {
        Stroke::Arriving => [signs.gap, signs.gap, ""],
        Stroke::Strange => ["?", signs.gap, ""],
        Stroke::Across | Stroke::Away | Stroke::Lost => [signs.dash, "", ""],
    }
}

/// The signs after an arrow's words.
fn head_of(signs: &Signs, stroke: Stroke, to: Side) -> Part {
    let point = match to {
        Side::A => signs.to_a,
        Side::B => signs.to_b,
    };
    match stroke {
        Stroke::Away => [signs.dash, signs.gap, signs.gap],
        Stroke::Lost => [signs.dash, signs.lost, ""],
        Stroke::Across | Stroke::Arriving | Stroke::Strange => [signs.dash, point, ""],
    }
}

/// The number of signs.
fn count_of(part: &Part) -> usize {
    part.iter().filter(|sign| !sign.is_empty()).count()
}

/// Appends signs in their order.
fn put_all(part: &Part, out: &mut String) -> Result<(), AllocError> {
    for sign in part {
        out.push_str(sign)?;
    }
    Ok(())
}

/// Appends signs, the last one first.
fn put_backwards(part: &Part, out: &mut String) -> Result<(), AllocError> {
    let [first, second, third] = part;
    out.push_str(third)?;
    out.push_str(second)?;
    out.push_str(first)
}

/// Appends words between two spaces.
fn put_spaced(words: &Words, out: &mut String) -> Result<(), AllocError> {
    out.push_str(" ")?;
    out.push_str(words.text.as_str())?;
    out.push_str(" ")
}
