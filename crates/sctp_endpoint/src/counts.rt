//! What an endpoint counts from its start on (RFC 9260, 3, 3.3.1, 3.3.4 and 8.4). It knows packets by their lengths and verdicts.

ghost use Rattle.std.specs.Prelude.{◌≡◌, ◌&&◌, not, length, Ok};
ghost use Rattle.sctp_endpoint.specs.Counted.{none_dropped, none_counted, dropped_meaning, tally_meaning, counts_meaning, with_packet, with_sack, with_sendings, with_arrival, with_reason, told_counts, heard_counts, aborted_counts};

use crate::after::Verdict;
use sctp_association::Sendings;
use sctp_terms::{AbortFault, Reason};

/// Packets that `Endpoint::handle_packet` dropped, by the reason of `Verdict::Dropped`. Each number is counted modulo 2^64.
#[derive(Clone, Copy, Debug, PartialEq, Eq)]
pub struct Dropped {
    /// Their bytes aren't a packet (RFC 9260, 3 and 6.8).
    pub fault: u64,
    /// Their ports aren't those of the association (RFC 9260, 8.4).
    pub ports: u64,
    /// Their verification tag is wrong (RFC 9260, 8.5).
    pub tag: u64,
    /// None of their chunks is handled in the endpoint's state.
    pub state: u64,
    /// Their cookie isn't valid (RFC 9260, 5.1.5).
    pub cookie: u64,
}

/// What an endpoint counted from its start on. Each number is counted modulo 2^64.
#[derive(Clone, Copy, Debug, PartialEq, Eq)]
pub struct Counts {
    /// Packets that it returned to be sent: by `poll_transmit`, as an answer of `handle_packet`, by `abort`.
    pub packets_out: u64,
    /// The bytes of these, from the common header on.
    pub bytes_out: u64,
    /// Packets that `handle_packet` was passed; not those at which an allocation failed.
    pub packets_in: u64,
    /// The bytes of these, from the common header on.
    pub bytes_in: u64,
    /// DATA and I-DATA chunks that were sent for the first time (RFC 9260, 6.1).
    pub first_sent: u64,
    /// DATA and I-DATA chunks that were retransmitted because the data timer expired (RFC 9260, 6.3.3).
    pub timer_retransmitted: u64,
    /// DATA and I-DATA chunks that were retransmitted because three SACKs reported them missing (RFC 9260, 7.2.4).
    pub fast_retransmitted: u64,
    /// Packets sent that have a SACK (RFC 9260, 3.3.4).
    pub sacks_out: u64,
    /// SACK chunks in the packets of which `handle_packet` returned `Verdict::Taken`.
    pub sacks_in: u64,
    /// Messages that were abandoned after they were sent, in part at least (RFC 3758, 3.5).
    pub abandoned: u64,
    /// Packets that were dropped.
    pub dropped: Dropped,
}

/// What an endpoint has counted.
#[derive(Clone, Copy)]
pub(crate) struct Tally {
    pub(crate) packets_out: u64,
    pub(crate) bytes_out: u64,
    pub(crate) packets_in: u64,
    pub(crate) bytes_in: u64,
    pub(crate) first_sent: u64,
    pub(crate) timer_retransmitted: u64,
    pub(crate) fast_retransmitted: u64,
    pub(crate) sacks_out: u64,
    pub(crate) sacks_in: u64,
    pub(crate) dropped: Dropped,
}

impl Dropped {
    /// None was dropped yet.
    fn none() -> Dropped
        ensures { dropped_meaning result ≡ none_dropped }
    {
        Dropped {
            fault: 0,
            ports: 0,
            tag: 0,
            state: 0,
            cookie: 0,
        }
    }

    /// One more was dropped, for this reason.
    #[inline(never)]
    fn count(&mut self, reason: Reason)
        ensures { dropped_meaning self.new ≡ with_reason reason (dropped_meaning self.old) }
    {
        match reason {
            Reason::Fault => self.fault = self.fault.wrapping_add(1),
            Reason::Ports => self.ports = self.ports.wrapping_add(1),
            Reason::Tag => self.tag = self.tag.wrapping_add(1),
            Reason::State => self.state = self.state.wrapping_add(1),
            Reason::Cookie => self.cookie = self.cookie.wrapping_add(1),
        }
    }
}

impl Tally {
    /// Nothing was counted yet.
    pub(crate) fn none() -> Tally
        ensures { tally_meaning result ≡ none_counted }
    {
        Tally {
            packets_out: 0,
            bytes_out: 0,
            packets_in: 0,
            bytes_in: 0,
            first_sent: 0,
            timer_retransmitted: 0,
            fast_retransmitted: 0,
            sacks_out: 0,
            sacks_in: 0,
            dropped: Dropped::none(),
        }
    }

    /// The numbers as they are returned, beside that of the messages that were abandoned.
    pub(crate) fn counts(self, abandoned: u64) -> Counts
        ensures counts { counts_meaning result ≡ tally_meaning self }
        ensures abandoned { result.abandoned ≡ abandoned }
    {
        Counts {
            packets_out: self.packets_out,
            bytes_out: self.bytes_out,
            packets_in: self.packets_in,
            bytes_in: self.bytes_in,
            first_sent: self.first_sent,
            timer_retransmitted: self.timer_retransmitted,
            fast_retransmitted: self.fast_retransmitted,
            sacks_out: self.sacks_out,
            sacks_in: self.sacks_in,
            abandoned,
            dropped: self.dropped,
        }
    }

    /// A packet is returned to be sent.
    #[inline(always)]
    pub(crate) fn send(&mut self, packet: &Vec<u8>)
        ensures { tally_meaning self.new ≡ with_packet (length packet.now.items) (tally_meaning self.old) }
    {
        self.packets_out = self.packets_out.wrapping_add(1);
        self.bytes_out = self.bytes_out.wrapping_add(packet.len() as u64);
    }

    /// A packet is returned, before which a SACK was due, or wasn't, and after which one is due, or isn't.
    #[inline(always)]
    pub(crate) fn acknowledge(&mut self, was_due: bool, is_due: bool)
        ensures { tally_meaning self.new ≡ with_sack (was_due && not is_due) (tally_meaning self.old) }
    {
        if was_due && !is_due {
            self.sacks_out = self.sacks_out.wrapping_add(1);
        }
    }

    /// A packet is returned with these chunks of user data.
    #[inline(always)]
    pub(crate) fn send_chunks(&mut self, sendings: Sendings)
        ensures { tally_meaning self.new ≡ with_sendings sendings (tally_meaning self.old) }
    {
        self.first_sent = self.first_sent.wrapping_add(sendings.first);
        self.timer_retransmitted = self.timer_retransmitted.wrapping_add(sendings.timed);
        self.fast_retransmitted = self.fast_retransmitted.wrapping_add(sendings.missed);
    }

    /// `abort` returned its packet, or an error.
    pub(crate) fn abort(&mut self, answer: &Result<Vec<u8>, AbortFault>)
        ensures { tally_meaning self.new ≡ aborted_counts answer.now (tally_meaning self.old) }
    {
        match answer {
            Ok(packet) => self.send(packet),
            Err(_) => {}
        }
    }

    /// A packet of so many bytes, with so many SACK chunks, was handled with this verdict.
    #[inline(always)]
    pub(crate) fn hear(&mut self, bytes: usize, sacks: u64, told: &Verdict)
        ensures { tally_meaning self.new ≡ heard_counts bytes sacks (Ok told.now) (tally_meaning self.old) }
    {
        self.arrive(bytes);
        self.tell(sacks, told);
    }

    /// A packet of so many bytes arrived.
    #[inline(always)]
    fn arrive(&mut self, bytes: usize)
        ensures { tally_meaning self.new ≡ with_arrival bytes (tally_meaning self.old) }
    {
        self.packets_in = self.packets_in.wrapping_add(1);
        self.bytes_in = self.bytes_in.wrapping_add(bytes as u64);
    }

    /// This is returned of a packet with so many SACK chunks.
    #[inline(always)]
    fn tell(&mut self, sacks: u64, told: &Verdict)
        ensures { tally_meaning self.new ≡ told_counts sacks told.now (tally_meaning self.old) }
    {
        match told {
            Verdict::Taken => self.sacks_in = self.sacks_in.wrapping_add(sacks),
            Verdict::Dropped(reason) => self.dropped.count(*reason),
            Verdict::Answer(packet) => self.send(packet),
        }
    }
}
