//! Tests: bytes by hand (RFC 6525, 4), broken ones, and what is written beside them.

use crate::{
    MOST_STREAMS, OwnReset, Parameter, ResetResult, is_done, is_in_progress, put_reset,
    put_response, read_parameters,
};
use std::alloc::Global;
use std::test::Fail;

/// An Outgoing SSN Reset Request for one stream, with its padding, and a Re-configuration Response that says performed.
const BOTH: [u8; 32] = [
    0, 13, 0, 18, 0, 0, 0, 1, 0, 0, 0, 5, 0, 0, 0, 9, 0, 3, 0xff, 0xff, 0, 16, 0, 12, 0, 0, 0, 8,
    0, 0, 0, 1,
];

/// What a parameter says, as numbers: its type, 1 for a request of another kind, 0 for one that is skipped; then its fields.
fn note(parameter: &Parameter<'_>, notes: &mut Vec<u32>) -> Result<(), Fail> {
    match parameter {
        Parameter::Reset(request) => {
            notes.push(13)?;
            notes.push(request.number)?;
            notes.push(request.last)?;
            for stream in request.streams.iter() {
                notes.push(u32::from(stream))?;
            }
        }
        Parameter::Response { number, code } => {
            notes.extend_from_slice(&[16, *number, *code])?;
        }
        Parameter::OtherRequest { number } => notes.extend_from_slice(&[1, *number])?,
        Parameter::Skipped => notes.push(0)?,
    }
    Ok(())
}

/// What all parameters say, one after another; 99 if the bytes are no list of parameters.
fn notes_of(alloc: Global, value: &[u8]) -> Result<Vec<u32>, Fail> {
    let mut notes = Vec::new(alloc);
    match read_parameters(value) {
        Some(parameters) => {
            for parameter in parameters {
                note(&parameter, &mut notes)?;
            }
        }
        None => notes.push(99)?,
    }
    Ok(notes)
}

#[test]
fn parameters_are_read(rt: HostRuntime) -> Result<(), Fail> {
    let cases: [(&[u8], &[u32]); 18] = [
        (&BOTH, &[13, 1, 9, 3, 16, 8, 1]),
        // No stream; one, and an odd byte; a request and a response that are too short.
        (
            &[0, 13, 0, 16, 0, 0, 0, 1, 0, 0, 0, 5, 0, 0, 0, 9],
            &[13, 1, 9],
        ),
        (
            &[0, 13, 0, 19, 0, 0, 0, 1, 0, 0, 0, 5, 0, 0, 0, 9, 1, 2, 7],
            &[13, 1, 9, 258],
        ),
        (
            &[0, 13, 0, 17, 0, 0, 0, 1, 0, 0, 0, 5, 0, 0, 0, 9, 1],
            &[13, 1, 9],
        ),
        (&[0, 13, 0, 15, 0, 0, 0, 1, 0, 0, 0, 5, 0, 0, 0], &[0]),
        (&[0, 16, 0, 11, 0, 0, 0, 1, 0, 0, 0], &[0]),
        // A response with both TSNs.
        (
            &[0, 16, 0, 20, 0, 0, 0, 1, 0, 0, 0, 6, 0, 0, 0, 2, 0, 0, 0, 3],
            &[16, 1, 6],
        ),
        // Incoming SSN Reset, SSN/TSN Reset, Add Outgoing and Add Incoming Streams, and each too short.
        (&[0, 14, 0, 8, 0, 0, 0, 4], &[1, 4]),
        (&[0, 14, 0, 7, 0, 0, 0], &[0]),
        (&[0, 15, 0, 8, 0, 0, 0, 4], &[1, 4]),
        (&[0, 15, 0, 4], &[0]),
        (&[0, 17, 0, 12, 0, 0, 0, 4, 0, 1, 0, 0], &[1, 4]),
        (&[0, 17, 0, 11, 0, 0, 0, 4, 0, 1, 0], &[0]),
        (
            &[0, 18, 0, 12, 0xff, 0xff, 0xff, 0xff, 0, 1, 0, 0],
            &[1, 0xffff_ffff],
        ),
        (&[0, 18, 0, 8, 0, 0, 0, 4], &[0]),
        // Another type between two requests; the padding has any value, and the last one's may be missing.
        (
            &[
                0, 14, 0, 8, 0, 0, 0, 4, 0, 19, 0, 5, 7, 1, 2, 3, 0, 15, 0, 9, 0, 0, 0, 6, 1,
            ],
            &[1, 4, 0, 1, 6],
        ),
        (&[], &[]),
        // Padding that is cut off.
        (&[0, 15, 0, 9, 0, 0, 0, 6, 1, 0, 0], &[99]),
    ];
    for (value, notes) in cases {
        assert_eq!(rt; notes_of(rt.alloc(), value)?.as_slice(), notes);
    }
    Ok(())
}

#[test]
fn a_cut_list_or_a_short_length_is_no_list(rt: HostRuntime) -> Result<(), Fail> {
    let both: &[u8] = &BOTH;
    for cut in 0..32 {
        let notes: &[u32] = match cut {
            0 => &[],
            18 | 20 => &[13, 1, 9, 3],
            _ => &[99],
        };
        assert_eq!(rt;
            notes_of(rt.alloc(), &both[..cut])?.as_slice(),
            notes,
            "{cut} bytes"
        );
    }
    for length in 0..4 {
        let item: &[u8] = &[0, 14, 0, length, 0, 0, 0, 4];
        assert_eq!(rt;
            notes_of(rt.alloc(), item)?.as_slice(),
            [99].as_slice(),
            "length {length}"
        );
    }
    Ok(())
}

#[test]
fn parameters_are_written(rt: HostRuntime) -> Result<(), Fail> {
    let mut out = Vec::new(rt.alloc());
    let request = OwnReset {
        number: 1,
        last: 9,
        streams: &[3],
    };
    put_reset(&mut out, 5, &request)?;
    assert_eq!(rt; out.as_slice(), &BOTH[..18]);
    put_response(&mut out, 8, ResetResult::Performed)?;
    assert_eq!(rt; &out[..18], &BOTH[..18]);
    assert_eq!(rt; &out[18..20], [0, 0].as_slice());
    assert_eq!(rt; &out[20..], &BOTH[20..]);
    Ok(())
}

#[test]
fn a_request_lists_256_streams(rt: HostRuntime) -> Result<(), Fail> {
    let mut streams = Vec::new(rt.alloc());
    let mut wanted = Vec::new(rt.alloc());
    wanted.extend_from_slice(&[13, 0xffff_ffff, 0])?;
    for stream in 768..1_024 {
        streams.push(stream)?;
        wanted.push(u32::from(stream))?;
    }
    let streams: &[u16] = &streams;
    assert!(rt; streams.len() <= MOST_STREAMS);
    let request = OwnReset {
        number: 0xffff_ffff,
        last: 0,
        streams,
    };
    let mut out = Vec::new(rt.alloc());
    put_reset(&mut out, 0, &request)?;
    assert_eq!(rt; out.len(), 528);
    assert_eq!(rt; &out[..4], [0, 13, 2, 16].as_slice());
    assert_eq!(rt; &out[526..], [3, 0xff].as_slice());
    assert_eq!(rt; notes_of(rt.alloc(), &out)?.as_slice(), wanted.as_slice());
    Ok(())
}

#[test]
fn results_have_their_codes(rt: HostRuntime) {
    let cases = [
        (ResetResult::Performed, 1),
        (ResetResult::Denied, 2),
        (ResetResult::WrongStream, 3),
        (ResetResult::BadNumber, 5),
        (ResetResult::InProgress, 6),
    ];
    for (result, code) in cases {
        assert_eq!(rt; result.code(), code);
        assert_eq!(rt; is_done(code), code == 1);
        assert_eq!(rt; is_in_progress(code), code == 6);
    }
    assert!(rt; is_done(0) && !is_in_progress(0));
    assert!(rt; !is_done(4) && is_in_progress(4));
}

#[test]
fn a_list_of_streams_may_be_empty(rt: HostRuntime) {
    let none: &[u8] = &[0, 13, 0, 17, 0, 0, 0, 1, 0, 0, 0, 5, 0, 0, 0, 9, 1];
    for (value, is_empty) in [(none, true), (&BOTH[..18], false)] {
        let Some(mut parameters) = read_parameters(value) else {
            assert!(rt; false);
            return;
        };
        assert_eq!(rt; parameters.most_streams(), usize::from(!is_empty));
        match parameters.next() {
            Some(Parameter::Reset(request)) => {
                assert_eq!(rt; request.streams.is_empty(), is_empty);
            }
            _ => assert!(rt; false),
        }
    }
}
