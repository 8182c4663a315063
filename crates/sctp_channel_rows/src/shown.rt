//! Answers.

use anyhow::Result;
use std::fmt::{Display, Write};

/// A text.
pub fn say(out: &mut String, text: &str) -> Result<()> {
    Ok(out.push_str(text)?)
}

/// A value by itself.
pub fn show<T: Display>(out: &mut String, value: &T) -> Result<()> {
    Ok(write!(out, "{value}")?)
}

/// A name and a number.
pub fn numbered(out: &mut String, name: &str, number: u64) -> Result<()> {
    Ok(write!(out, "{name} {number}")?)
}

/// `ok`, or why a call is refused.
pub fn done<E: Display + Drop>(out: &mut String, answer: Result<(), E>) -> Result<()> {
    match answer {
        Ok(()) => say(out, "ok"),
        Err(fault) => {
            let shown = show(out, &fault);
            drop(fault);
            shown
        }
    }
}
