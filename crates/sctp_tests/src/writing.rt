//! Tests of writing: slow and failing writers.

use crate::fakes::SlowWriter;
use sctp_text::{Failed, Sink, ToWrite, write_all};
use std::test::Fail;

#[test]
fn all_is_written_or_a_beginning_where_a_call_fails(rt: HostRuntime) -> Result<(), Fail> {
    let alloc = rt.alloc();
    let table: [(usize, usize, Result<(), Failed>, &str); 10] = [
        (1, 0, Ok(()), "hello"),
        (2, 0, Ok(()), "hello"),
        (9, 0, Ok(()), "hello"),
        (1, 1, Err(Failed), ""),
        (1, 2, Err(Failed), "h"),
        (1, 3, Err(Failed), "he"),
        (1, 4, Err(Failed), "hel"),
        (1, 5, Err(Failed), "hell"),
        (2, 3, Err(Failed), "hell"),
        // A writer that accepts nothing.
        (0, 0, Err(Failed), ""),
    ];
    for (step, fails_at, wanted, held) in table {
        let mut writer = SlowWriter::new(alloc, step, fails_at);
        let mut sink = ToWrite::new(&mut writer);
        let written = write_all(&mut sink, b"hello");
        assert_eq!(rt;
            sink.failures(),
            u64::from(wanted.is_err()),
            "{step} {fails_at}"
        );
        assert_eq!(rt; written, wanted, "{step} {fails_at}");
        assert_eq!(rt; writer.held(), held.as_bytes(), "{step} {fails_at}");
    }
    Ok(())
}

#[test]
fn nothing_is_written_without_a_call(rt: HostRuntime) {
    let mut writer = SlowWriter::new(rt.alloc(), 1, 1);
    let mut sink = ToWrite::new(&mut writer);
    assert_eq!(rt; write_all(&mut sink, b""), Ok(()));
    assert_eq!(rt; sink.failures(), 0);
}
