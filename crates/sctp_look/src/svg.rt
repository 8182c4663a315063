//! Draws a run as SVG: the rows of the ladder, 26 units each, with an arrow from the row in which a packet leaves to each row in which it
//! arrives. All arrows are under all words. Every number is an integer, every word is fixed or a number; no text is measured.

mod strokes;
mod words;

use crate::recording::Recording;
use crate::row::Packet;
use sctp_pair::Side;
use std::alloc::AllocError;
pub(crate) use strokes::put_stroke;
pub(crate) use words::put_words;

/// The positions of the two lifelines, and the middle between them.
const A_LINE: usize = 300;

const B_LINE: usize = 800;

const MIDDLE: usize = 550;
/// The height of a row, and the position of the first one.
const ROW: usize = 26;

const FIRST: usize = 52;

/// The beginning of the drawing after its sizes: styles, the arrow heads (a packet's and a third party's), and the background.
const LOOKS: &str =
    "<style>.l{stroke:#888}.p{stroke:#1668b8;fill:none;marker-end:url(#h)}.d{stroke-dasharray:5 4}.f{stroke:#b60;stroke-dasharray:2 3;marker-end:url(#g)}.x{stroke:#b22;marker-end:none}.s{fill:#060;font-weight:bold}.q{fill:#b22}.m{fill:#666}.n{font-size:10px}.w{fill:#fff;stroke:#fff;stroke-width:5;stroke-linejoin:round;text-decoration:line-through}</style>
<defs><marker id=\"h\" markerWidth=\"9\" markerHeight=\"9\" refX=\"8\" refY=\"4\" orient=\"auto\"><path d=\"M0,0L9,4L0,8z\" fill=\"#1668b8\"/></marker><marker id=\"g\" markerWidth=\"9\" markerHeight=\"9\" refX=\"8\" refY=\"4\" orient=\"auto\"><path d=\"M0,0L9,4L0,8z\" fill=\"#b60\"/></marker></defs>
<rect width=\"100%\" height=\"100%\" fill=\"#fff\"/>
";

/// Appends the beginning of a drawing of this many rows.
///
/// # Errors
/// An allocation failed.
pub(crate) fn put_head(rows: usize, out: &mut String) -> Result<(), AllocError> {
    let end = height_of(rows);
    let height = end.saturating_add(ROW);
    write!(
        &mut *out,
        "<svg xmlns=\"http://www.w3.org/2000/svg\" version=\"1.1\" width=\"1100\" height=\"{height}\" font-family=\"sans-serif\" font-size=\"13\">\n"
    )?;
    out.push_str(LOOKS)?;
    put_line_of_life("A", A_LINE, end, out)?;
    put_line_of_life("B", B_LINE, end, out)
}

/// Appends the name of an endpoint and its lifeline.
fn put_line_of_life(name: &str, x: usize, end: usize, out: &mut String) -> Result<(), AllocError> {
    write!(
        &mut *out,
        "<text x=\"{x}\" y=\"16\" text-anchor=\"middle\">{name}</text>"
    )?;
    write!(
        out,
        "<line class=\"l\" x1=\"{x}\" y1=\"24\" x2=\"{x}\" y2=\"{end}\"/>\n"
    )
}

/// Appends the end of the drawing.
///
/// # Errors
/// An allocation failed.
pub(crate) fn put_foot(out: &mut String) -> Result<(), AllocError> {
    out.push_str("</svg>\n")
}

/// The vertical position of a row.
fn height_of(index: usize) -> usize {
    index.saturating_mul(ROW).saturating_add(FIRST)
}

/// The horizontal position of an endpoint's lifeline.
fn line_of(side: Side) -> usize {
    match side {
        Side::A => A_LINE,
        Side::B => B_LINE,
    }
}

/// The row in which a packet leaves.
fn row_of(run: &Recording, packet: Packet) -> usize {
    match run.lives().get(packet) {
        Some(life) => life.left,
        None => 0,
    }
}
