//! Texts for C: what a result means, and the library's version.

ghost use Rattle.std.specs.Prelude.{◌≡◌, codes};
ghost use Rattle.sctp_c.specs.Names.{name_of, config_name, IsText};

use crate::buffers::put_text;
use crate::codes::{
    BAD_DRAW, BAD_RESERVED, BAD_STATE, EMPTY, MISUSE, NEEDS_ROOM, NO_CHANNEL, NO_MEMORY, NO_STREAM,
    NO_SUCH_STREAM, NOT_OPEN, NOTHING, OK, OUT_OF_RANGE, QUEUE_FULL, RESETTING, SPENT, TOO_LONG,
    USED, WRONG_HALF, ZERO_KEY,
};

/// What a result that is a fault of a configuration means.
fn config_name(code: u32) -> &'static [u8]
    ensures { result.now ≡ config_name code }
{
    match code {
        21 => b"a port is 0",
        22 => b"the packet limit isn't in 576 to 1,500",
        23 => b"the fragment isn't in 4 to 1,400, or with 32 bytes of headers doesn't fit a packet",
        24 => b"the receive buffer isn't in 65,536 to 16,777,216",
        25 => b"a number of streams isn't in 1 to 1,024",
        _ => b"no result of this library",
    }
}

/// What a result means, in a few words.
fn name_of(code: u32) -> &'static [u8]
    ensures { result.now ≡ name_of code }
{
    match code {
        OK => b"done",
        NO_SUCH_STREAM => b"the stream isn't below the number of streams agreed on",
        EMPTY => b"the message has no bytes",
        TOO_LONG => b"the message has more than 65,536 bytes, or the reason doesn't fit one packet",
        QUEUE_FULL => b"1,024 messages are queued: send again after the next SACK",
        SPENT => b"the TSNs or the tickets of this association are used up",
        NO_MEMORY => b"memory allocation failed",
        NOT_OPEN => b"the association isn't established",
        BAD_STATE => b"the call isn't allowed in this state",
        NOTHING => b"there is none",
        NEEDS_ROOM => b"the buffer is too small",
        MISUSE => b"the handle is empty, or, to make an endpoint, isn't",
        BAD_DRAW => b"a tag is 0",
        BAD_RESERVED => b"a reserved number isn't 0",
        RESETTING => b"the stream is being reset",
        NO_CHANNEL => b"there is no open channel on the stream",
        NO_STREAM => b"there is no such stream, or none is free",
        WRONG_HALF => b"the stream is one of the peer's",
        USED => b"there is a channel on the stream",
        OUT_OF_RANGE => b"more than 65,535 retransmissions or milliseconds",
        ZERO_KEY => b"the bytes of the key are all 0",
        _ => config_name(code),
    }
}

/// Writes what a result means to `text`, as bytes with a 0 after them, and returns how many they are without it. If `text` is too small, nothing
/// is written: 96 bytes are always enough.
#[unsafe(no_mangle)]
pub extern "C" fn sctp_endpoint_name(code: u32, text: &mut [u8]) -> usize
    ensures { IsText (name_of code) result text.old text.new }
{
    put_text(name_of(code), text)
}

/// Writes the version of the library to `text`, as `sctp_endpoint_name` does.
#[unsafe(no_mangle)]
pub extern "C" fn sctp_endpoint_version(text: &mut [u8]) -> usize
    ensures { IsText (codes "0.1.0") result text.old text.new }
{
    put_text(b"0.1.0", text)
}
