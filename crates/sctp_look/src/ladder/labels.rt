//! The words beside the lifelines of a ladder.

use crate::notes::{deed_words, state_words};
use crate::recording::Recording;
use crate::row::{Deed, Note};
use crate::signs::Tone;
use crate::style::Style;
use crate::text::{put_cut, put_times};
use std::alloc::AllocError;

/// The columns between what an endpoint did and the state that begins.
const GAP: usize = 2;

/// The words beside an endpoint: what it did, and the state that begins, each with the columns that it may use.
#[derive(Drop)]
pub(super) struct Label {
    deed: String,
    deed_room: usize,
    deed_tone: Tone,
    /// The blanks between the two.
    gap: usize,
    state: String,
    state_room: usize,
    /// The columns of all.
    pub(super) width: usize,
}

/// The words beside an endpoint in `room` columns. If these are too few, what it did is cut.
///
/// # Errors
/// An allocation failed.
pub(super) fn label_of(run: &Recording, note: &Note, room: usize) -> Result<Label, AllocError> {
    let deed = deed_words(run.alloc(), note)?;
    let state = state_words(run.alloc(), note)?;
    let state_room = state.len().min(room);
    let rest = room.saturating_sub(state_room);
    let (deed_room, gap) = match (deed.is_empty(), state.is_empty()) {
        (true, _) => (0, 0),
        (false, true) => (deed.len().min(rest), 0),
        (false, false) if rest <= GAP => (0, 0),
        (false, false) => (deed.len().min(rest.saturating_sub(GAP)), GAP),
    };
    Ok(Label {
        deed,
        deed_room,
        deed_tone: deed_tone(note),
        gap,
        state,
        state_room,
        width: deed_room.saturating_add(gap).saturating_add(state_room),
    })
}

/// The colour of what an endpoint did.
fn deed_tone(note: &Note) -> Tone {
    match note.deed {
        Some(Deed::Dropped { .. } | Deed::Refused { .. } | Deed::Absent { .. }) => Tone::Loss,
        _ => Tone::Quiet,
    }
}

/// Appends the words beside an endpoint.
///
/// # Errors
/// An allocation failed.
pub(super) fn put_label(style: &Style, label: &Label, out: &mut String) -> Result<(), AllocError> {
    put_toned(
        style,
        label.deed_tone,
        label.deed.as_str(),
        label.deed_room,
        out,
    )?;
    put_times(" ", label.gap, out)?;
    put_toned(
        style,
        Tone::State,
        label.state.as_str(),
        label.state_room,
        out,
    )
}

/// Appends words in a colour, cut to the columns that there are; nothing if there are none.
fn put_toned(
    style: &Style,
    tone: Tone,
    words: &str,
    room: usize,
    out: &mut String,
) -> Result<(), AllocError> {
    if room == 0 {
        return Ok(());
    }
    out.push_str(style.begin(tone))?;
    let _columns = put_cut(words, room, style.signs().cut, out)?;
    out.push_str(style.end(tone))
}
