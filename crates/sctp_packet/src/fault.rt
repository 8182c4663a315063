//! Why bytes aren't a packet.

use sctp_wire::WireFault;
use thiserror::Error;

/// Why bytes aren't a packet: the first check that fails, in this order.
#[derive(Clone, Copy, Debug, PartialEq, Eq, Error)]
pub enum PacketFault {
    /// There are fewer bytes than the 12 of the common header (RFC 9260, 3.1).
    #[error("a packet has 12 bytes at least")]
    Short,
    /// The checksum field isn't the CRC32c of the packet (RFC 9260, 6.8).
    #[error("the checksum is wrong")]
    Checksum,
    /// There is no chunk after the header.
    #[error("there is no chunk")]
    NoChunk,
    /// What follows the header isn't a list of chunks; the offset counts from the packet's first byte.
    #[error("{0}")]
    Wire(WireFault),
}
