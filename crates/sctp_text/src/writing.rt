//! Writes all of some bytes by as many calls as it takes.

ghost use Rattle.std.specs.Prelude.{◌≡◌, ℕ, ◌+◌, ◌-◌, ◌^◌, ◌<◌, length, take, OnOk, OnErr};
ghost use Rattle.sctp_text.specs.Streams.{failed_calls};

use crate::source_sink::{Failed, Sink};

/// Writes all of the bytes, in as many calls as the sink needs.
///
/// # Errors
/// `Failed` if a call failed: a proper prefix of the bytes was written then.
pub fn write_all<W: Sink>(sink: &mut W, bytes: &[u8]) -> Result<(), Failed>
    requires { W.failures sink.old < 2 ^ 64 - 1 }
    ensures whole { OnOk result (W.Writes sink.old bytes.now sink.new) }
    ensures cut { OnErr result ((count : ℕ) × (count < length bytes.now) × W.Writes sink.old (take count bytes.now) sink.new) }
    ensures failed { W.failures sink.new ≡ W.failures sink.old + failed_calls result }
{
    let mut rest = bytes;
    while !rest.is_empty() {
        let count = sink.write(rest)?;
        rest = &rest[count..];
    }
    Ok(())
}
