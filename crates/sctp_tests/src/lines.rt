//! Tests of line reading: slow and failing readers, and lines at the limits.

use crate::fakes::SlowReader;
use sctp_text::{FromRead, LineReader, NextLine, ReadFault, Source};
use std::alloc::Global;
use std::test::Fail;

/// What a reader of lines returns in turn, up to the end or a line that is too long, and how many calls failed.
fn answers<S: Source>(
    alloc: Global,
    mut reader: LineReader,
    source: &mut S,
) -> Result<(String, u64), Fail> {
    let mut told = String::new(alloc);
    for _ in 0..9 {
        if source.failures() == u64::MAX {
            break;
        }
        let answer = reader.next_line(source);
        told.push_str(format!(in alloc; "{answer:?} ")?.as_str())?;
        if let Ok(NextLine::End | NextLine::TooLong) = answer {
            break;
        }
    }
    Ok((told, source.failures()))
}

#[test]
fn lines_come_whole_whatever_a_call_gives(rt: HostRuntime) -> Result<(), Fail> {
    let alloc = rt.alloc();
    let table = [
        ("", "Ok(End) "),
        ("\n", "Ok(Ended([])) Ok(End) "),
        ("ab\n", "Ok(Ended([97, 98])) Ok(End) "),
        (
            "ab\n\nc",
            "Ok(Ended([97, 98])) Ok(Ended([])) Ok(Last([99])) Ok(End) ",
        ),
    ];
    for (text, wanted) in table {
        for step in [1, 2, 4_096] {
            let mut source = FromRead::new(SlowReader::new(text, step, 0));
            let (told, failures) = answers(alloc, LineReader::new(alloc), &mut source)?;
            assert_eq!(rt; told.as_str(), wanted, "{text:?} by {step}");
            assert_eq!(rt; failures, 0);
        }
    }
    Ok(())
}

#[test]
fn a_call_that_fails_in_mid_line_loses_nothing(rt: HostRuntime) -> Result<(), Fail> {
    let alloc = rt.alloc();
    let table = [
        (1, "Err(Failed) Ok(Ended([97, 98])) Ok(Last([99])) Ok(End) "),
        (2, "Err(Failed) Ok(Ended([97, 98])) Ok(Last([99])) Ok(End) "),
        (4, "Ok(Ended([97, 98])) Err(Failed) Ok(Last([99])) Ok(End) "),
        (5, "Ok(Ended([97, 98])) Err(Failed) Ok(Last([99])) Ok(End) "),
        (6, "Ok(Ended([97, 98])) Ok(Last([99])) Err(Failed) Ok(End) "),
    ];
    for (fails_at, wanted) in table {
        let mut source = FromRead::new(SlowReader::new("ab\nc", 1, fails_at));
        let (told, failures) = answers(alloc, LineReader::new(alloc), &mut source)?;
        assert_eq!(rt; told.as_str(), wanted, "at call {fails_at}");
        assert_eq!(rt; failures, 1);
    }
    Ok(())
}

/// The length of the first line and whether a line feed ended it; `None` if it is too long.
fn first_line<S: Source>(
    mut reader: LineReader,
    source: &mut S,
) -> Result<Option<(usize, bool)>, ReadFault> {
    if source.failures() == u64::MAX {
        return Err(ReadFault::Failed);
    }
    Ok(match reader.next_line(source)? {
        NextLine::Ended(line) => Some((line.len(), true)),
        NextLine::Last(line) => Some((line.len(), false)),
        NextLine::TooLong => None,
        NextLine::End => Some((0, false)),
    })
}

#[test]
fn a_line_has_140000_bytes_at_most(rt: HostRuntime) -> Result<(), Fail> {
    let alloc = rt.alloc();
    let table = [
        (140_000, "\n", Some((140_000, true))),
        (140_000, "", Some((140_000, false))),
        (140_001, "\n", None),
        (140_001, "", None),
    ];
    for (length, end, wanted) in table {
        let mut text = vec![in alloc; b'a'; length]?;
        text.extend_from_slice(end.as_bytes())?;
        let mut source = FromRead::new(text.as_slice());
        assert_eq!(rt;
            first_line(LineReader::new(alloc), &mut source),
            Ok(wanted),
            "{length} {end:?}"
        );
    }
    Ok(())
}
