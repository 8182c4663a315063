//! How a ladder is drawn: its width, its signs, and whether in colours.

use crate::signs::{ASCII, PLAIN, Signs, Tone};

/// The width of a ladder in columns: by default, at least and at most.
const USUAL_WIDTH: u64 = 122;

const LEAST_WIDTH: u64 = 60;

const GREATEST_WIDTH: u64 = 1_000;
/// The columns that are neither for words nor between the lifelines: those of the time, the two lifelines, and a blank beside each.
const FIXED: usize = 12;

/// How a ladder is drawn.
#[derive(Clone, Copy)]
pub(crate) struct Style {
    /// With ASCII signs only.
    pub(crate) ascii: bool,
    /// With terminal colours.
    pub(crate) colored: bool,
    /// The columns of the words beside each endpoint, and between the lifelines.
    pub(crate) beside: usize,
    pub(crate) between: usize,
}

impl Style {
    /// A ladder of the default width.
    pub(crate) fn usual() -> Style {
        Style::of_width(USUAL_WIDTH)
    }

    /// A ladder of this width, or the nearest one allowed. Of the columns that aren't fixed at most three tenths are for the words at each side.
    pub(crate) fn of_width(width: u64) -> Style {
        let width = width.clamp(LEAST_WIDTH, GREATEST_WIDTH) as usize;
        let spare = width - FIXED;
        let beside = (spare * 3 / 10).min(32);
        Style {
            ascii: false,
            colored: false,
            beside,
            between: spare - 2 * beside,
        }
    }

    /// Its width in columns.
    pub(crate) fn width(&self) -> usize {
        self.beside
            .saturating_mul(2)
            .saturating_add(self.between)
            .saturating_add(FIXED)
    }

    /// Its signs.
    pub(crate) fn signs(&self) -> &'static Signs {
        if self.ascii { &ASCII } else { &PLAIN }
    }

    /// The sequence that begins a colour, empty without colours.
    pub(crate) fn begin(&self, tone: Tone) -> &'static str {
        if self.colored { tone.begin() } else { "" }
    }

    /// The sequence that ends a colour.
    pub(crate) fn end(&self, tone: Tone) -> &'static str {
        if self.colored { tone.end() } else { "" }
    }
}
