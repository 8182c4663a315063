//! Draws a run row by row in the form asked for, and writes it a block at a time.

ghost use Rattle.std.specs.Prelude.{◌≡◌, ◌-◌, ◌^◌, ◌<◌, OnOk};

use crate::capture::put_capture;
use crate::fault::LookFault;
use crate::recording::Recording;
use crate::request::Request;
use crate::row::Row;
use crate::{ladder, svg};
use sctp_text::{Failed, Sink, write_all};
use std::alloc::AllocError;

/// What is drawn is written once it has this many bytes.
const ENOUGH: usize = 65_536;

/// The layers of SVG: all arrows are under all words.
#[derive(Clone, Copy)]
enum Layer {
    Arrows,
    Words,
}

/// Draws a run.
///
/// # Errors
/// `Write` if a call of the writer failed, `NoMemory` if an allocation did: a prefix of the drawing has been written.
pub(crate) fn draw<W: Sink>(
    request: &Request,
    run: &Recording,
    output: &mut W,
) -> Result<(), LookFault>
    requires { W.failures output.old < 2 ^ 64 - 1 }
{
    let mut page = String::new(run.alloc());
    put_head(request, run, &mut page)?;
    if matches!(request, Request::Svg) {
        draw_rows(request, Layer::Arrows, run, &mut page, output)?;
    }
    draw_rows(request, Layer::Words, run, &mut page, output)?;
    put_foot(request, run, &mut page)?;
    write_page(page.as_str(), output)
}

/// Draws a layer of all rows.
fn draw_rows<W: Sink>(
    request: &Request,
    layer: Layer,
    run: &Recording,
    page: &mut String,
    output: &mut W,
) -> Result<(), LookFault>
    requires { W.failures output.old < 2 ^ 64 - 1 }
    ensures well { OnOk result (W.failures output.new ≡ W.failures output.old) }
{
    for (index, row) in run.rows().iter().enumerate() {
        put_row(request, layer, run, index, row, page)?;
        if page.len() >= ENOUGH {
            write_page(page.as_str(), output)?;
            page.clear();
        }
    }
    Ok(())
}

/// Appends what is above the rows.
fn put_head(request: &Request, run: &Recording, page: &mut String) -> Result<(), AllocError> {
    match request {
        Request::Ladder(style) => ladder::put_head(style, page),
        Request::Svg => svg::put_head(run.rows().len(), page),
        Request::Capture => Ok(()),
    }
}

/// Appends a layer of a row.
fn put_row(
    request: &Request,
    layer: Layer,
    run: &Recording,
    index: usize,
    row: &Row,
    page: &mut String,
) -> Result<(), AllocError> {
    match (request, layer) {
        (Request::Ladder(style), _) => ladder::put_row(style, run, row, page),
        (Request::Svg, Layer::Arrows) => svg::put_stroke(run, index, row, page),
        (Request::Svg, Layer::Words) => svg::put_words(run, index, row, page),
        (Request::Capture, _) => put_capture(run, row, page),
    }
}

/// Appends what is below the rows.
fn put_foot(request: &Request, run: &Recording, page: &mut String) -> Result<(), AllocError> {
    match request {
        Request::Ladder(style) => ladder::put_foot(style, run, page),
        Request::Svg => svg::put_foot(page),
        Request::Capture => Ok(()),
    }
}

/// Writes what is drawn.
fn write_page<W: Sink>(page: &str, output: &mut W) -> Result<(), LookFault>
    requires { W.failures output.old < 2 ^ 64 - 1 }
    ensures well { OnOk result (W.failures output.new ≡ W.failures output.old) }
{
    match write_all(output, page.as_bytes()) {
        Ok(()) => Ok(()),
        Err(Failed) => Err(LookFault::Write),
    }
}
