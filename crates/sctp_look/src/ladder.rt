//! Draws a run as a ladder in text: the time, what A did, the two lifelines and what goes between them, what B did.

mod foot;
mod labels;
mod strokes;

use crate::recording::Recording;
use crate::row::Row;
use crate::style::Style;
use crate::text::put_times;
pub(crate) use foot::put_foot;
use labels::{label_of, put_label};
use std::alloc::AllocError;
use strokes::put_arrow;

/// The columns of the time.
const MOMENT: usize = 8;

/// Appends the line above the rows.
///
/// # Errors
/// An allocation failed.
pub(crate) fn put_head(style: &Style, out: &mut String) -> Result<(), AllocError> {
    out.push_str("  moment")?;
    put_times(" ", style.beside.saturating_sub(1), out)?;
    out.push_str("A")?;
    put_times(" ", style.between.saturating_add(4), out)?;
    out.push_str("B\n")
}

/// Appends a row.
///
/// # Errors
/// An allocation failed.
pub(crate) fn put_row(
    style: &Style,
    run: &Recording,
    row: &Row,
    out: &mut String,
) -> Result<(), AllocError> {
    put_left(style, run, row, out)?;
    out.push_str(" ")?;
    match &row.arrow {
        Some(arrow) => put_arrow(style, run, arrow, out)?,
        None => {
            let line = style.signs().line;
            out.push_str(line)?;
            put_times(" ", style.between, out)?;
            out.push_str(line)?;
        }
    }
    let label = label_of(run, &row.at_b, style.beside)?;
    if label.width > 0 {
        out.push_str(" ")?;
        put_label(style, &label, out)?;
    }
    out.push_str("\n")
}

/// Appends the time, if it is new in this row, and the words beside A, which may use the columns of the time if it isn't.
fn put_left(style: &Style, run: &Recording, row: &Row, out: &mut String) -> Result<(), AllocError> {
    let mut moment = String::new(run.alloc());
    if row.begins {
        let number = row.moment;
        write!(&mut moment, "{number:>8}")?;
    }
    let whole = MOMENT.saturating_add(style.beside);
    let rest = whole.saturating_sub(moment.len());
    let label = label_of(run, &row.at_a, rest.saturating_sub(1))?;
    out.push_str(moment.as_str())?;
    put_times(" ", rest.saturating_sub(label.width), out)?;
    put_label(style, &label, out)
}
