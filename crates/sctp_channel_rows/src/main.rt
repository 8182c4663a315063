//! Runs cases of data channels on standard input and prints a transcript: each line of a case, and after each call its answer. Two sides, each with
//! data channels or with an endpoint alone, that may send anything, are called here, with the packets between them, which are delivered, lost and
//! repeated as the lines say.
//!
//! A case begins with `= NAME`. The calls and their answers are described in `docs/CALLS.md`. Other lines are remarks.
#![tactic(auto)]

mod bare;
mod bytes;
mod case;
mod channel;
mod events;
mod making;
mod packets;
mod shown;
mod side;
mod words;

use crate::case::Case;
use anyhow::Result;
use std::io::{Read, Write};

fn main(rt: HostRuntime) -> Result<()> {
    let mut text = String::new(rt.alloc());
    rt.stdin().read_to_string(&mut text)?;
    let lines = text.strip_suffix('\n').unwrap_or(&text);
    let mut parts = lines.split("\n= ");
    if let Some(remarks) = parts.next() {
        writeln!(rt.stdout(), "{remarks}")?;
    }
    for case in parts {
        let (name, lines) = case.split_once('\n').unwrap_or((case, ""));
        writeln!(rt.stdout(), "= {name}")?;
        run_case(&rt, lines)?;
    }
    Ok(())
}

/// Runs the calls of a case.
fn run_case(rt: &HostRuntime, lines: &str) -> Result<()> {
    let mut run = Case::new(rt.alloc());
    let ended = run_lines(rt, &mut run, lines);
    drop(run);
    ended
}

/// Runs the calls of these lines, each as often as its line says.
fn run_lines(rt: &HostRuntime, run: &mut Case, lines: &str) -> Result<()> {
    let mut answer = String::new(rt.alloc());
    for line in lines.split('\n') {
        writeln!(rt.stdout(), "{line}")?;
        let (times, call) = repeated(line);
        for _ in 0..times {
            answer.clear();
            run.make(call, &mut answer)?;
        }
        if !answer.is_empty() {
            writeln!(rt.stdout(), "{answer}")?;
        }
    }
    Ok(())
}

/// How often a line's call is made, and the call: `*N CALL`, or the call alone.
fn repeated(line: &str) -> (u32, &str) {
    let Some((sign, call)) = line.split_once(' ') else {
        return (1, line);
    };
    match sign.strip_prefix('*') {
        Some(count) => (count.parse().unwrap_or(1), call),
        None => (1, line),
    }
}
