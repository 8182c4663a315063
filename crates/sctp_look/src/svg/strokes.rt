//! The arrows of a drawing, without words.

use crate::recording::Recording;
use crate::row::{Arrow, Row};
use crate::svg::{MIDDLE, height_of, line_of, row_of};
use std::alloc::AllocError;

/// How far an arrow falls in a row in which it both leaves and arrives.
const FALL: usize = 8;

/// Appends the arrow of a row. That of a packet which arrives later belongs to the row of its arrival.
///
/// # Errors
/// An allocation failed.
pub(crate) fn put_stroke(
    run: &Recording,
    index: usize,
    row: &Row,
    out: &mut String,
) -> Result<(), AllocError> {
    let y = height_of(index);
    let low = y.saturating_add(FALL);
    match &row.arrow {
        None => Ok(()),
        Some(Arrow::Leaves { packet }) => match run.lives().get(*packet) {
            Some(life) if life.comings > 0 => Ok(()),
            _ => put_line("p x", line_of(packet.side), y, MIDDLE, low, out),
        },
        Some(Arrow::Crosses { packet }) => {
            let to = packet.side.other();
            put_line("p", line_of(packet.side), y, line_of(to), low, out)
        }
        Some(Arrow::Comes { packet, time }) => {
            let class = if *time > 1 { "p d" } else { "p" };
            let from = height_of(row_of(run, *packet));
            let to = packet.side.other();
            put_line(class, line_of(packet.side), from, line_of(to), y, out)
        }
        Some(Arrow::Strange { to, .. }) => put_line("p f", MIDDLE, low, line_of(*to), y, out),
    }
}

/// Appends a line.
fn put_line(
    class: &str,
    x1: usize,
    y1: usize,
    x2: usize,
    y2: usize,
    out: &mut String,
) -> Result<(), AllocError> {
    write!(
        out,
        "<line class=\"{class}\" x1=\"{x1}\" y1=\"{y1}\" x2=\"{x2}\" y2=\"{y2}\"/>\n"
    )
}
