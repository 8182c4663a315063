//! A RE-CONFIG in short words (RFC 6525): its requests and responses.

use sctp_reconfig::{Parameter, ResetRequest, Streams, read_parameters};
use std::alloc::AllocError;

/// Appends a RE-CONFIG: each of its parameters.
///
/// # Errors
/// An allocation failed.
pub(crate) fn put_reconfig(value: &[u8], words: &mut String) -> Result<(), AllocError> {
    words.push_str("RE-CONFIG")?;
    let Some(parameters) = read_parameters(value) else {
        return words.push_str(" unreadable");
    };
    let mut is_first = true;
    for parameter in parameters {
        words.push_str(if is_first { " " } else { ", " })?;
        put_parameter(&parameter, words)?;
        is_first = false;
    }
    Ok(())
}

/// Appends a parameter.
fn put_parameter(parameter: &Parameter<'_>, words: &mut String) -> Result<(), AllocError> {
    match parameter {
        Parameter::Reset(request) => put_request(request, words),
        Parameter::Response { number, code } => put_response(*number, *code, words),
        Parameter::OtherRequest { number } => {
            let number = *number;
            write!(words, "{number} other request")
        }
        Parameter::Skipped => words.push_str("other"),
    }
}

/// Appends a request to reset streams: its number, its streams, and the last TSN that its sender had assigned.
fn put_request(request: &ResetRequest<'_>, words: &mut String) -> Result<(), AllocError> {
    let (number, last) = (request.number, request.last);
    write!(words, "{number} streams ")?;
    put_streams(&request.streams, words)?;
    write!(words, " last {last}")
}

/// Appends stream numbers; none stands for all streams.
fn put_streams(streams: &Streams<'_>, words: &mut String) -> Result<(), AllocError> {
    if streams.is_empty() {
        return words.push_str("all");
    }
    let mut is_first = true;
    for stream in streams.iter() {
        words.push_str(if is_first { "" } else { "," })?;
        write!(words, "{stream}")?;
        is_first = false;
    }
    Ok(())
}

/// Appends a response: the number of its request, and the result (RFC 6525, 4.4).
fn put_response(number: u32, code: u32, words: &mut String) -> Result<(), AllocError> {
    match result_word(code) {
        Some(result) => write!(words, "{number} {result}"),
        None => write!(words, "{number} result {code}"),
    }
}

/// The name of a result, if it has one.
fn result_word(code: u32) -> Option<&'static str> {
    match code {
        0 => Some("nothing to do"),
        1 => Some("performed"),
        2 => Some("denied"),
        3 => Some("wrong SSN"),
        4 => Some("already in progress"),
        5 => Some("bad sequence number"),
        6 => Some("in progress"),
        _ => None,
    }
}
