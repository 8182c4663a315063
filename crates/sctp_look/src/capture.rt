//! Writes the packets of a run as a hex dump for `text2pcap`, each with its name, its direction and its time.

use crate::notes::{put_name, side_word};
use crate::recording::Recording;
use crate::row::{Arrow, Row};
use sctp_packet::read_packet;
use sctp_pair::Side;
use std::alloc::AllocError;

/// The number of bytes in a line.
const LINE: usize = 16;

/// Appends the packet that leaves in a row, or a third party's that arrives in it. Bytes that aren't a packet are left out.
///
/// # Errors
/// An allocation failed.
pub(crate) fn put_capture(run: &Recording, row: &Row, out: &mut String) -> Result<(), AllocError> {
    match &row.arrow {
        Some(Arrow::Leaves { packet } | Arrow::Crosses { packet }) => {
            out.push_str("# ")?;
            put_name(*packet, out)?;
            put_time(packet.side.other(), row.moment, out)?;
            put_bytes(run.bytes(*packet), out)
        }
        Some(Arrow::Strange { to, index }) if read_packet(run.strange(*index)).is_ok() => {
            let name = side_word(*to);
            write!(&mut *out, "# a stranger's, to {name}")?;
            put_time(*to, row.moment, out)?;
            put_bytes(run.strange(*index), out)
        }
        _ => Ok(()),
    }
}

/// Appends the direction of a packet, as B's host sees it, and its time in seconds.
fn put_time(to: Side, moment: u64, out: &mut String) -> Result<(), AllocError> {
    let way = match to {
        Side::A => "O",
        Side::B => "I",
    };
    let (seconds, rest) = (moment / 1_000, moment % 1_000);
    write!(out, "\n{way} {seconds}.{rest:03}\n")
}

/// Appends the bytes, sixteen in a line after their offset, and an empty line.
fn put_bytes(bytes: &[u8], out: &mut String) -> Result<(), AllocError> {
    let mut offset: usize = 0;
    for line in bytes.chunks(LINE) {
        write!(&mut *out, "{offset:06x}")?;
        for byte in line {
            let byte = *byte;
            write!(&mut *out, " {byte:02x}")?;
        }
        out.push_str("\n")?;
        offset = offset.saturating_add(LINE);
    }
    out.push_str("\n")
}
