//! Reads the words of the command line.

use crate::style::Style;
use sctp_text::read_decimal;

/// What the words ask for.
#[derive(Clone, Copy)]
pub(crate) enum Request {
    /// A ladder in text.
    Ladder(Style),
    /// A ladder as SVG.
    Svg,
    /// The packets, for a program that reads captures.
    Capture,
}

/// Reads the words, of which the first is the program's own name. None if they are wrong.
pub(crate) fn request_of(words: &[String]) -> Option<Request> {
    let (_name, words) = words.split_first()?;
    if let [word] = words {
        match word.as_bytes() {
            b"svg" => return Some(Request::Svg),
            b"hex" => return Some(Request::Capture),
            _ => {}
        }
    }
    Some(Request::Ladder(style_of(words)?))
}

/// Reads how a ladder is to be drawn. Of several widths the last one counts.
fn style_of(words: &[String]) -> Option<Style> {
    let mut style = Style::usual();
    let mut wants_width = false;
    for word in words {
        if wants_width {
            let wide = Style::of_width(read_decimal(word.as_bytes())?);
            style.beside = wide.beside;
            style.between = wide.between;
            wants_width = false;
            continue;
        }
        match word.as_bytes() {
            b"--ascii" => style.ascii = true,
            b"--color" => style.colored = true,
            b"--width" => wants_width = true,
            _ => return None,
        }
    }
    if wants_width { None } else { Some(style) }
}
