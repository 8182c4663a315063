//! The program `sctp-look`: `run_words` over the process's words and its three standard streams.
#![tactic(auto)]

use sctp_look::{FAILED, FromRead, ToWrite, USAGE, WRONG_WORDS, run_words};
use std::process::ExitCode;
use std::{env, io};

fn main(rt: HostRuntime) -> ExitCode {
    let words: io::Result<Vec<String>> = match env::args(&rt) {
        Ok(words) => words.collect(rt.alloc()).map_err(io::Error::from),
        Err(error) => Err(error),
    };
    let mut input = FromRead::new(rt.stdin());
    let mut output = ToWrite::new(rt.stdout());
    let mut faults = ToWrite::new(rt.stderr());
    match words {
        Ok(words) => ExitCode::from(run_words(
            rt.alloc(),
            &words,
            &mut input,
            &mut output,
            &mut faults,
        )),
        Err(error) if error.kind() == io::ErrorKind::InvalidData => {
            match eprint!(rt; "sctp-look: a word isn't UTF-8\n{USAGE}") {
                Ok(()) => ExitCode::from(WRONG_WORDS),
                Err(_) => ExitCode::from(FAILED),
            }
        }
        Err(_) => ExitCode::from(FAILED),
    }
}
