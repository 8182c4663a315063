//! Cuts words to a number of columns, and repeats signs.

use std::alloc::AllocError;

/// Appends words, one column a letter; if they are too long, their beginning and the sign for that. Returns the number of columns used.
///
/// # Errors
/// An allocation failed.
pub(crate) fn put_cut(
    words: &str,
    room: usize,
    cut: &str,
    out: &mut String,
) -> Result<usize, AllocError> {
    if words.len() <= room {
        out.push_str(words)?;
        return Ok(words.len());
    }
    if room == 0 {
        return Ok(0);
    }
    for letter in words.chars().take(room - 1) {
        out.push(letter)?;
    }
    out.push_str(cut)?;
    Ok(room)
}

/// Appends a text `count` times.
///
/// # Errors
/// An allocation failed.
pub(crate) fn put_times(text: &str, count: usize, out: &mut String) -> Result<(), AllocError> {
    for _ in 0..count {
        out.push_str(text)?;
    }
    Ok(())
}
