//! A line of a script, as it is written in a case.

use std::alloc::{AllocError, Global};

/// A line: its text in the case, its bytes, and how often it is repeated.
#[derive(Drop)]
pub struct Line<'a> {
    pub shown: &'a str,
    pub bytes: Vec<u8>,
    pub times: usize,
}

impl<'a> Line<'a> {
    /// The line that this text means, if it is one.
    pub fn read(alloc: Global, shown: &'a str, text: &str) -> Result<Option<Line<'a>>, AllocError> {
        let (form, text) = text.split_once(' ').unwrap_or((text, ""));
        let mut bytes = Vec::from_slice(alloc, text.as_bytes())?;
        let mut times = 1;
        if form == ">" || form == "-" {} else if let Some(count) = number_behind('*', form) {
            times = count;
        } else if let Some(length) = number_behind('~', form) {
            for _ in text.len()..length {
                bytes.push(b'0')?;
            }
        } else if let Some(count) = number_behind('x', form) {
            bytes.clear();
            for _ in 0..count {
                bytes.extend_from_slice(text.as_bytes())?;
            }
        } else {
            return Ok(None);
        }
        if form != "-" {
            bytes.push(b'\n')?;
        }
        Ok(Some(Line {
            shown,
            bytes,
            times,
        }))
    }
}

/// The number after a sign.
fn number_behind(sign: char, form: &str) -> Option<usize> {
    form.strip_prefix(sign)?.parse().ok()
}
