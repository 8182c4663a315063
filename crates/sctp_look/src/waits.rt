//! How long a SACK was delayed: from the arrival of the first packet that it acknowledges (RFC 9260, 6.2).

use sctp_packet::read_packet;
use sctp_pair::Side;
use sctp_wire::Chunk;

/// Since when each endpoint of a pair owes a SACK, in milliseconds. Nothing is noted of an endpoint without delayed SACKs.
#[derive(Clone, Copy)]
pub(crate) struct Waits {
    noted_at_a: bool,
    noted_at_b: bool,
    at_a: Option<u64>,
    at_b: Option<u64>,
}

impl Waits {
    /// Neither endpoint owes a SACK. Each flag says whether that endpoint delays its SACKs.
    pub(crate) fn new(noted_at_a: bool, noted_at_b: bool) -> Waits {
        Waits {
            noted_at_a,
            noted_at_b,
            at_a: None,
            at_b: None,
        }
    }

    /// Notes that a packet has arrived at an endpoint and wasn't dropped.
    pub(crate) fn came(&mut self, to: Side, packet: &[u8], moment: u64) {
        if self.is_noted(to) && holds(packet, Sought::Acknowledged) {
            let since = self.since(to);
            *since = since.or(Some(moment));
        }
    }

    /// Notes that a packet leaves an endpoint. Returns how long a SACK in it was delayed, if it was.
    pub(crate) fn left(&mut self, from: Side, packet: &[u8], moment: u64) -> Option<u64> {
        if !holds(packet, Sought::Sack) {
            return None;
        }
        let since = self.since(from).take()?;
        if since < moment {
            Some(moment - since)
        } else {
            None
        }
    }

    /// Whether this endpoint delays its SACKs.
    fn is_noted(&self, side: Side) -> bool {
        match side {
            Side::A => self.noted_at_a,
            Side::B => self.noted_at_b,
        }
    }

    /// Since when this endpoint owes a SACK.
    fn since(&mut self, side: Side) -> &mut Option<u64> {
        match side {
            Side::A => &mut self.at_a,
            Side::B => &mut self.at_b,
        }
    }
}

/// The kinds of chunks that are looked for in a packet.
#[derive(Clone, Copy)]
enum Sought {
    /// DATA, I-DATA and FORWARDs: what a SACK acknowledges.
    Acknowledged,
    Sack,
}

/// Whether a packet has such a chunk.
fn holds(packet: &[u8], sought: Sought) -> bool {
    let Ok(packet) = read_packet(packet) else {
        return false;
    };
    for chunk in packet.chunks {
        if is_such(&chunk, sought) {
            return true;
        }
    }
    false
}

fn is_such(chunk: &Chunk<'_>, sought: Sought) -> bool {
    match sought {
        Sought::Acknowledged => matches!(
            chunk,
            Chunk::Data(_) | Chunk::IData(_) | Chunk::ForwardTsn(_) | Chunk::IForwardTsn(_)
        ),
        Sought::Sack => matches!(chunk, Chunk::Sack(_)),
    }
}
