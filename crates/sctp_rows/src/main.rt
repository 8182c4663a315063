//! Runs the cases on standard input, each with one of the programs `sctp-trace`, `sctp-end` and `sctp-look`, and prints a transcript:
//! each line of a case, followed by what the program wrote before it read on; then what it wrote to standard error, and its status.
//!
//! A case is
//! - `= NAME`,
//! - `$ WORDS`: the words of a program, with one space between them. The first is its own name, and `sctp-end` and `sctp-look` run
//!   these; any other name, or none, runs `sctp-trace`, which looks at no name,
//! - the lines of the script on its standard input.
//!
//! A line of the script is one of
//! - `> TEXT`: this line,
//! - `- TEXT`: this line without its line feed,
//! - `*N TEXT`: this line N times; what is written for all but the last isn't shown,
//! - `~N TEXT`: this line, filled with `0` up to N bytes,
//! - `xN TEXT`: one line of this text N times,
//! - with `/` before any of these: an alternative begins, with this line and those below it. The lines above the first alternative are
//!   run before each of them, and their output isn't shown.
//!
//! Other lines are remarks: one that begins with two spaces says what the bytes below it are. Of a script only what was read is
//! shown. The model in tests/model writes the same transcript, except for the pictures of `sctp-look`: `rows.py`.
#![tactic(auto)]

mod line;
mod script;
mod shown;

use crate::line::Line;
use crate::script::Script;
use crate::shown::Shown;
use sctp_trace::{FromRead, ToWrite};
use std::cell::Cell;
use std::io::{Read, Result, Write};
use std::str;

fn main(rt: HostRuntime) -> Result<()> {
    let mut text = String::new(rt.alloc());
    rt.stdin().read_to_string(&mut text)?;
    let mut parts = text.split("\n= ");
    if let Some(remarks) = parts.next() {
        writeln!(rt.stdout(), "{remarks}")?;
    }
    for case in parts {
        run_case(&rt, case)?;
    }
    Ok(())
}

/// Runs a case, each of its alternatives by itself.
fn run_case(rt: &HostRuntime, case: &str) -> Result<()> {
    let (name, rest) = case.split_once('\n').unwrap_or((case, ""));
    let (words, rest) = rest.split_once('\n').unwrap_or((rest, ""));
    writeln!(rt.stdout(), "= {name}\n{words}")?;
    let mut lines = Vec::new(rt.alloc());
    let mut above = None;
    for text in rest.split('\n') {
        let line = match text.strip_prefix('/') {
            None => text,
            Some(line) => {
                above = Some(begin_alternative(rt, words, &mut lines, above)?);
                line
            }
        };
        lines.extend(Line::read(rt.alloc(), text, line)?)?;
    }
    run(rt, words, &lines, above.unwrap_or(0))?;
    writeln!(rt.stdout(), "")
}

/// Runs the alternative before this one, or shows the lines above the first one. Returns the number of lines above.
fn begin_alternative(
    rt: &HostRuntime,
    words: &str,
    lines: &mut Vec<Line<'_>>,
    above: Option<usize>,
) -> Result<usize> {
    match above {
        None => {
            show(rt, lines)?;
            Ok(lines.len())
        }
        Some(count) => {
            run(rt, words, lines, count)?;
            lines.truncate(count);
            Ok(count)
        }
    }
}

/// Prints lines as they are in the case.
fn show(rt: &HostRuntime, lines: &[Line<'_>]) -> Result<()> {
    for line in lines {
        writeln!(rt.stdout(), "{}", line.shown)?;
    }
    Ok(())
}

/// The words after `$`, none in a case without it.
fn words_of(rt: &HostRuntime, words: &str) -> Result<Vec<String>> {
    let mut list = Vec::new(rt.alloc());
    if let Some(words) = words.strip_prefix("$ ") {
        for word in words.split(' ') {
            list.push(String::from_str(rt.alloc(), word)?)?;
        }
    }
    Ok(list)
}

/// Runs the program once and prints its output after the hidden lines.
fn run(rt: &HostRuntime, words: &str, lines: &[Line<'_>], above: usize) -> Result<()> {
    let list = words_of(rt, words)?;
    let mut said = Vec::new(rt.alloc());
    let status = status_of(rt, &list, lines, above, &mut said);
    print_said(rt, str::from_utf8(&said).unwrap_or(""))?;
    writeln!(rt.stdout(), "status {status}")
}

/// Runs the program that the words name over these lines. What it writes to standard error is appended to `said`. Returns its status.
fn status_of(
    rt: &HostRuntime,
    words: &[String],
    lines: &[Line<'_>],
    above: usize,
    said: &mut Vec<u8>,
) -> u8 {
    let alloc = rt.alloc();
    let hidden = Cell::new(false);
    let mut input = FromRead::new(Script::new(rt.stdout(), lines, above, &hidden));
    let mut output = ToWrite::new(Shown::new(rt.stdout(), &hidden));
    let mut faults = ToWrite::new(said);
    match name_of(words) {
        "sctp-end" => sctp_end::run_words(alloc, words, &mut input, &mut output, &mut faults),
        "sctp-look" => sctp_look::run_words(alloc, words, &mut input, &mut output, &mut faults),
        _ => sctp_trace::run_words(alloc, words, &mut input, &mut output, &mut faults),
    }
}

/// The first word, which is the program's name; empty if there is none.
fn name_of(words: &[String]) -> &str {
    match words.first() {
        Some(name) => name.as_str(),
        None => "",
    }
}

/// Prints what was written to standard error, each line after `!`.
fn print_said(rt: &HostRuntime, said: &str) -> Result<()> {
    for line in said.lines() {
        let space = if line.is_empty() { "" } else { " " };
        writeln!(rt.stdout(), "!{space}{line}")?;
    }
    Ok(())
}
