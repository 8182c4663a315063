//! Tests of the exit status if a reader, a writer or an allocation fails.

use crate::fakes::{SlowReader, SlowWriter, TABLE};
use sctp_trace::{FromRead, ToWrite, run_words};
use std::alloc::{AllocError, Global};
use std::test::Fail;

/// The words of a command line.
fn words_of(alloc: Global, texts: &[&str]) -> Result<Vec<String>, AllocError> {
    let mut words = Vec::new(alloc);
    for text in texts {
        words.push(String::from_str(alloc, text)?)?;
    }
    Ok(words)
}

#[test]
fn a_reader_or_writer_that_fails_ends_with_3(rt: HostRuntime) -> Result<(), Fail> {
    let alloc = rt.alloc();
    // The word after the name, the script, the failing call of the reader, of the output's and of the faults' writer, and the status.
    let table = [
        ("run", TABLE, 0, 0, 1, 0),
        ("run", TABLE, 1, 0, 0, 3),
        ("run", TABLE, 90, 0, 0, 3),
        ("run", TABLE, 0, 1, 0, 3),
        ("run", TABLE, 0, 100, 0, 3),
        ("run", "open", 0, 0, 0, 2),
        ("run", "open", 0, 0, 1, 3),
        ("run", "open", 0, 0, 10, 3),
        ("run", "open", 0, 0, 11, 2),
        ("walk", TABLE, 0, 0, 1, 3),
        ("--help", TABLE, 0, 0, 9, 3),
        ("--help", TABLE, 1, 1, 0, 1),
    ];
    for (word, script, read, write, tell, wanted) in table {
        let words = words_of(alloc, &["sctp-trace", word])?;
        let mut output = SlowWriter::new(alloc, 1, write);
        let mut faults = SlowWriter::new(alloc, 1, tell);
        let status = run_words(
            alloc,
            &words,
            &mut FromRead::new(SlowReader::new(script, 1, read)),
            &mut ToWrite::new(&mut output),
            &mut ToWrite::new(&mut faults),
        );
        assert_eq!(rt; status, wanted, "{word} {script:?} {read} {write} {tell}");
    }
    Ok(())
}

#[test]
fn where_memory_fails_the_status_is_3(rt: HostRuntime) -> Result<(), Fail> {
    // To be run with each allocation failing in turn: the writers allocate nothing.
    let alloc = rt.alloc();
    for (word, script, wanted) in [("run", TABLE, 0), ("run", "open", 2), ("walk", TABLE, 1)] {
        let Ok(words) = words_of(alloc, &["sctp-trace", word]) else {
            continue;
        };
        let mut output = [0; 256];
        let mut faults = [0; 1_024];
        let status = run_words(
            alloc,
            &words,
            &mut FromRead::new(script.as_bytes()),
            &mut ToWrite::new(&mut output.as_mut_slice()),
            &mut ToWrite::new(&mut faults.as_mut_slice()),
        );
        assert!(rt;
            status == wanted || status == 3,
            "{word} {script:?}: {status}"
        );
    }
    Ok(())
}
