//! Runs the cases of calls on standard input and prints a transcript: each line of a case, and after each call its answer. A sender and a
//! receiver are called here alone, or side by side with the packets that go between them; and numbers, bytes and cookies.
//!
//! A case begins with `= NAME`; one with a sender or a receiver with `= data NAME` or `= i-data NAME`, which is their format. The calls and
//! their answers are described in `docs/CALLS.md`. Other lines are remarks.
#![tactic(auto)]

mod bytes;
mod call;
mod cookies;
mod ends;
mod numbers;
mod pacing;
mod parts;
mod plain;
mod reading;
mod receiving;
mod reconfig;
mod resets;
mod sending;
mod shown;
mod words;

use crate::call::Call;
use crate::ends::Ends;
use anyhow::Result;
use sctp_framing::{DataFraming, Framing, IDataFraming};
use std::io::{Read, Write};

fn main(rt: HostRuntime) -> Result<()> {
    let mut text = String::new(rt.alloc());
    rt.stdin().read_to_string(&mut text)?;
    let lines = text.strip_suffix('\n').unwrap_or(&text);
    let mut parts = lines.split("\n= ");
    if let Some(remarks) = parts.next() {
        writeln!(rt.stdout(), "{remarks}")?;
    }
    for case in parts {
        let (name, lines) = case.split_once('\n').unwrap_or((case, ""));
        writeln!(rt.stdout(), "= {name}")?;
        if name.starts_with("i-data ") {
            run_case::<IDataFraming>(&rt, lines)?;
        } else {
            run_case::<DataFraming>(&rt, lines)?;
        }
    }
    Ok(())
}

/// Runs the calls of a case, under this format.
fn run_case<F: Framing>(rt: &HostRuntime, lines: &str) -> Result<()> {
    let mut ends: Ends<F> = Ends::new(rt.alloc());
    let ended = run_lines(rt, &mut ends, lines);
    drop(ends);
    ended
}

/// Runs the calls of these lines, each as often as its line says.
fn run_lines<F: Framing>(rt: &HostRuntime, ends: &mut Ends<F>, lines: &str) -> Result<()> {
    for line in lines.split('\n') {
        writeln!(rt.stdout(), "{line}")?;
        let (times, text) = repeated(line);
        if let Some(call) = Call::read(text) {
            let mut answer = String::new(rt.alloc());
            for _ in 0..times {
                answer.clear();
                ends.make(&call, &mut answer)?;
            }
            writeln!(rt.stdout(), "{answer}")?;
        }
    }
    Ok(())
}

/// How often a line's call is made, and the call: `*N CALL`, or the call alone.
fn repeated(line: &str) -> (u32, &str) {
    let Some((sign, call)) = line.split_once(' ') else {
        return (1, line);
    };
    match sign.strip_prefix('*') {
        Some(count) => (count.parse().unwrap_or(1), call),
        None => (1, line),
    }
}
