//! HEARTBEAT, and HEARTBEAT ACK, which returns its information (RFC 9260, 3.3.5 and 3.3.6).
//!
//! | at | size | field |
//! |---|---|---|
//! | 0 | any | information, which isn't looked into |

ghost use Rattle.std.specs.Prelude.{◌↔◌, IsTrue};
ghost use Rattle.sctp_model.specs.wire.Chunk as meaning;
ghost use Rattle.sctp_wire.specs.Layouts.{Fits};

use crate::codes::LONGEST_VALUE;

/// Whether the length fits 16 bits.
pub(crate) fn heartbeat_fits(info: &[u8]) -> bool
    ensures heartbeat { IsTrue result ↔ Fits (meaning.Heartbeat info.now) }
    ensures heartbeat_ack { IsTrue result ↔ Fits (meaning.HeartbeatAck info.now) }
{
    info.len() <= LONGEST_VALUE
}
