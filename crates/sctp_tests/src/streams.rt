//! Tests of scripts over slow and failing readers and writers, and with failing allocations.

use crate::fakes::{SlowReader, SlowWriter, TABLE, TABLE_WRITTEN};
use sctp_trace::{FromRead, ScriptFault, Sink, Source, ToWrite, run_script};
use std::test::Fail;

#[test]
fn a_byte_at_a_time_is_the_same(rt: HostRuntime) -> Result<(), Fail> {
    for (read, write) in [(1, 4_096), (4_096, 1), (1, 1), (7, 3)] {
        let mut writer = SlowWriter::new(rt.alloc(), write, 0);
        let mut source = FromRead::new(SlowReader::new(TABLE, read, 0));
        let mut sink = ToWrite::new(&mut writer);
        let ended = run_script(rt.alloc(), &mut source, &mut sink);
        assert_eq!(rt; (source.failures(), sink.failures()), (0, 0));
        assert_eq!(rt; ended, Ok(()), "{read} {write}");
        assert_eq!(rt; writer.held(), TABLE_WRITTEN.as_bytes(), "{read} {write}");
    }
    Ok(())
}

#[test]
fn a_reader_that_fails_at_any_call_ends_the_script(rt: HostRuntime) -> Result<(), Fail> {
    // A call for each byte, and one that finds the end.
    for call in 1..=TABLE.len() + 1 {
        let mut writer = SlowWriter::new(rt.alloc(), 4_096, 0);
        let mut source = FromRead::new(SlowReader::new(TABLE, 1, call));
        let mut sink = ToWrite::new(&mut writer);
        let ended = run_script(rt.alloc(), &mut source, &mut sink);
        assert_eq!(rt; (source.failures(), sink.failures()), (1, 0));
        assert_eq!(rt; ended, Err(ScriptFault::Read), "call {call}");
        // The outcomes of the lines that were read with their line feeds, and no more.
        let read = &TABLE.as_bytes()[..call - 1];
        let lines = read.iter().filter(|byte| **byte == b'\n').count();
        let outcomes = TABLE_WRITTEN.lines().take(lines.saturating_sub(1));
        let length = outcomes.fold(
            0,
            |sum: usize, line| sum.saturating_add(line.len()).saturating_add(1),
        );
        assert!(rt; writer.held().len() == length, "call {call}");
        assert!(rt;
            TABLE_WRITTEN.as_bytes().starts_with(writer.held()),
            "call {call}"
        );
    }
    Ok(())
}

#[test]
fn a_writer_that_fails_at_any_call_ends_the_script(rt: HostRuntime) -> Result<(), Fail> {
    for call in 1..=TABLE_WRITTEN.len() {
        let mut writer = SlowWriter::new(rt.alloc(), 1, call);
        let mut source = FromRead::new(TABLE.as_bytes());
        let mut sink = ToWrite::new(&mut writer);
        let ended = run_script(rt.alloc(), &mut source, &mut sink);
        assert_eq!(rt; (source.failures(), sink.failures()), (0, 1));
        assert_eq!(rt; ended, Err(ScriptFault::Write), "call {call}");
        assert_eq!(rt;
            writer.held(),
            &TABLE_WRITTEN.as_bytes()[..call - 1],
            "call {call}"
        );
    }
    Ok(())
}

#[test]
fn a_writer_that_takes_nothing_failed(rt: HostRuntime) -> Result<(), Fail> {
    let mut writer = SlowWriter::new(rt.alloc(), 0, 0);
    let mut source = FromRead::new(TABLE.as_bytes());
    let ended = run_script(rt.alloc(), &mut source, &mut ToWrite::new(&mut writer));
    assert_eq!(rt; ended, Err(ScriptFault::Write));
    assert_eq!(rt; writer.held().len(), 0);
    Ok(())
}

#[test]
fn where_memory_fails_a_beginning_was_written(rt: HostRuntime) -> Result<(), Fail> {
    // To be run with each allocation failing in turn: the writer allocates nothing.
    let mut held = [0; 256];
    let mut source = FromRead::new(TABLE.as_bytes());
    let mut rest = held.as_mut_slice();
    let ended = run_script(rt.alloc(), &mut source, &mut ToWrite::new(&mut rest));
    let count = 256usize.saturating_sub(rest.len());
    match ended {
        Ok(()) => assert_eq!(rt; count, TABLE_WRITTEN.len()),
        Err(fault) => assert_eq!(rt; fault, ScriptFault::NoMemory),
    }
    assert!(rt; TABLE_WRITTEN.as_bytes().starts_with(&held[..count]));
    Ok(())
}
