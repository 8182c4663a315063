//! The words of a drawing.

use crate::arrows::{Stroke, arrow_words, stroke_of};
use crate::notes::{deed_words, put_name, state_words};
use crate::recording::Recording;
use crate::row::{Arrow, Note, Packet, Row};
use crate::svg::{MIDDLE, height_of, row_of};
use sctp_pair::Side;
use std::alloc::AllocError;

/// The most letters of an arrow's words, and of a third party's, which have half the space.
const LETTERS: usize = 60;

const STRANGE_LETTERS: usize = 28;
/// A packet that arrives at most this many rows below the one in which it leaves needs no name there.
const NEAR: usize = 2;

/// Appends the words of a row: its time, what both endpoints did, and the packet.
///
/// # Errors
/// An allocation failed.
pub(crate) fn put_words(
    run: &Recording,
    index: usize,
    row: &Row,
    out: &mut String,
) -> Result<(), AllocError> {
    let y = height_of(index);
    let low = y.saturating_add(4);
    if row.begins {
        let moment = row.moment;
        write!(
            &mut *out,
            "<text class=\"m\" x=\"8\" y=\"{low}\">{moment} ms</text>\n"
        )?;
    }
    if let Some(arrow) = &row.arrow {
        put_arrow_words(run, index, arrow, out)?;
    }
    put_note(run, &row.at_a, Side::A, low, out)?;
    put_note(run, &row.at_b, Side::B, low, out)
}

/// Appends the words beside an endpoint.
fn put_note(
    run: &Recording,
    note: &Note,
    side: Side,
    y: usize,
    out: &mut String,
) -> Result<(), AllocError> {
    let deed = deed_words(run.alloc(), note)?;
    let state = state_words(run.alloc(), note)?;
    if deed.is_empty() && state.is_empty() {
        return Ok(());
    }
    match side {
        Side::A => write!(&mut *out, "<text x=\"290\" y=\"{y}\" text-anchor=\"end\">")?,
        Side::B => write!(&mut *out, "<text x=\"810\" y=\"{y}\">")?,
    }
    out.push_str(deed.as_str())?;
    if !state.is_empty() {
        let gap = if deed.is_empty() { "" } else { " " };
        let state = state.as_str();
        write!(&mut *out, "{gap}<tspan class=\"s\">{state}</tspan>")?;
    }
    out.push_str("</text>\n")
}

/// Appends the words of a row's arrow: in the middle if it goes from one endpoint to the other, after the middle if it is a third party's, else
/// at the endpoint that the packet leaves. If it arrives further below, its name is repeated there.
fn put_arrow_words(
    run: &Recording,
    index: usize,
    arrow: &Arrow,
    out: &mut String,
) -> Result<(), AllocError> {
    let y = height_of(index);
    match arrow {
        Arrow::Crosses { .. } => {
            let words = arrow_words(run, arrow, LETTERS, "…")?;
            put_clear(Place::Middle, y.saturating_sub(3), words.text.as_str(), out)
        }
        Arrow::Strange { to, .. } => {
            let words = arrow_words(run, arrow, STRANGE_LETTERS, "…")?;
            put_clear(
                Place::before(*to),
                y.saturating_sub(3),
                words.text.as_str(),
                out,
            )
        }
        Arrow::Leaves { packet } => {
            let words = arrow_words(run, arrow, LETTERS, "…")?;
            let place = Place::at(packet.side);
            put_clear(place, y.saturating_sub(4), words.text.as_str(), out)?;
            match stroke_of(run, arrow) {
                Stroke::Lost => put_cross(y.saturating_add(13), out),
                _ => Ok(()),
            }
        }
        Arrow::Comes { packet, .. } => put_arrival(run, index, *packet, out),
    }
}

/// Appends the name of a packet at its arrival, unless it left just above.
fn put_arrival(
    run: &Recording,
    index: usize,
    packet: Packet,
    out: &mut String,
) -> Result<(), AllocError> {
    if index.saturating_sub(row_of(run, packet)) <= NEAR {
        return Ok(());
    }
    let y = height_of(index).saturating_add(11);
    let (x, anchor) = match packet.side {
        Side::A => (788, "end"),
        Side::B => (312, "start"),
    };
    write!(
        &mut *out,
        "<text class=\"n\" x=\"{x}\" y=\"{y}\" text-anchor=\"{anchor}\">"
    )?;
    put_name(packet, out)?;
    out.push_str("</text>\n")
}

/// Appends the sign that a packet never arrives.
fn put_cross(y: usize, out: &mut String) -> Result<(), AllocError> {
    write!(
        out,
        "<text class=\"q\" x=\"{MIDDLE}\" y=\"{y}\" text-anchor=\"middle\">✗</text>\n"
    )
}

/// A position of words between the lifelines.
#[derive(Clone, Copy)]
enum Place {
    AtA,
    BeforeA,
    Middle,
    BeforeB,
    AtB,
}

impl Place {
    /// The position at an endpoint.
    fn at(side: Side) -> Place {
        match side {
            Side::A => Place::AtA,
            Side::B => Place::AtB,
        }
    }

    /// The position between the middle and an endpoint.
    fn before(side: Side) -> Place {
        match side {
            Side::A => Place::BeforeA,
            Side::B => Place::BeforeB,
        }
    }
}

/// Appends words that arrows may cross: first in white and broad (a line through them covers the blanks too), then as they are.
fn put_clear(place: Place, y: usize, words: &str, out: &mut String) -> Result<(), AllocError> {
    let (x, anchor) = match place {
        Place::AtA => (314, "start"),
        Place::BeforeA => (540, "end"),
        Place::Middle => (550, "middle"),
        Place::BeforeB => (560, "start"),
        Place::AtB => (786, "end"),
    };
    write!(
        &mut *out,
        "<text class=\"w\" x=\"{x}\" y=\"{y}\" text-anchor=\"{anchor}\">{words}</text>"
    )?;
    write!(
        out,
        "<text x=\"{x}\" y=\"{y}\" text-anchor=\"{anchor}\">{words}</text>\n"
    )
}
