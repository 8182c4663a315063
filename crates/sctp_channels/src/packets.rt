//! Packets are received and sent.

ghost use Rattle.std.specs.Prelude.{◌≡◌, length, Option, IfOk};
ghost use Rattle.sctp_model.specs.wire.Packet as meaning;
ghost use Rattle.sctp_model.specs.end.Clock.{at_moment};
ghost use Rattle.sctp_model.specs.end.EndView.{EndView};
ghost use Rattle.sctp_endpoint.specs.Counted.{counted, sacks_read, heard_counts, CountsAfter};
ghost use Rattle.sctp_endpoint.specs.Handled.{IsRead, IsAnsweredWithin};
ghost use Rattle.sctp_endpoint.specs.Transmitted.{TellsFew};
ghost use Rattle.sctp_channels.specs.Settling.{settled_all};
ghost use Rattle.sctp_channels.specs.Streams.{Table};
ghost use Rattle.sctp_channels.specs.Packets.{Hears, StandNoted, Transmit};
ghost use Rattle.sctp_channels.specs.ChannelsStand.{ChannelsStand, endpoint_of};

use crate::channels::Channels;
use sctp_endpoint::{Draw, Sent, Verdict};
use sctp_values::NoMemory;

#[tactic(auto, unfolding(crate::specs::ChannelsStand::ChannelsStand, crate::specs::ChannelsStand::endpoint_of, crate::specs::ChannelsStand::table_of))]
impl Channels {
    /// Handles a received packet, as `Endpoint::handle_packet` does; then each reset of a stream by the peer is noted (RFC 6525, 5.2.2), also after an
    /// allocation failure, and streams that are closed without a channel that was reported are free. Afterwards call `next_event` until it returns None, and `poll_transmit`.
    ///
    /// # Errors
    /// `NoMemory` if an allocation failed: only the chunks before the one that needed it took effect, so the packet may be passed in again.
    pub fn handle_packet(&mut self, now: u64, bytes: &[u8], draw: Draw) -> Result<Verdict, NoMemory>
        ensures step { (v : EndView) (x : Table) (o : Option meaning.Packet) → ChannelsStand self.old v x → IsRead bytes.now o → Hears v x now draw o result self.new }
        ensures within { (v : EndView) (x : Table) → ChannelsStand self.old v x → IfOk result (λ verdict. IsAnsweredWithin v.configuration.limit verdict) }
        ensures counts { (v : EndView) (x : Table) (o : Option meaning.Packet) → ChannelsStand self.old v x → IsRead bytes.now o
            → counted (endpoint_of self.new) ≡ heard_counts (length bytes.now) (sacks_read o) result (counted (endpoint_of self.old)) }
    {
        self.is_calm = false;
        let heard = self.endpoint.handle_packet(now, bytes, draw);
        self.noted(heard)
    }

    /// Notes each reset of the peer that wasn't reported, frees streams that are closed without a channel, and returns what was said of the packet. `Taken` has a way of its own, so that nothing of a
    /// verdict has to be kept meanwhile.
    #[inline(always)]
    fn noted(&mut self, heard: Result<Verdict, NoMemory>) -> Result<Verdict, NoMemory>
        ensures same { result ≡ heard }
        ensures noted { (v : EndView) (x : Table) → ChannelsStand self.old v x → StandNoted v x self.new }
        ensures counts { counted (endpoint_of self.new) ≡ counted (endpoint_of self.old) }
    {
        match heard {
            Ok(Verdict::Taken) => {
                self.note_resets();
                self.sweep();
                Ok(Verdict::Taken)
            }
            heard => {
                self.note_resets();
                self.sweep();
                heard
            }
        }
    }

    /// The next packet to send at the time `now`, as `Endpoint::poll_transmit` returns it. What is due of the channels is queued before: each
    /// DATA_CHANNEL_ACK, and the reset of this side's half where the peer has closed a channel. What the endpoint refuses, as for a full queue, stays due.
    ///
    /// # Errors
    /// `NoMemory` if an allocation failed: of what was due, some may have been queued, and nothing else changed, not even the time.
    pub fn poll_transmit(&mut self, now: u64) -> Result<Option<Sent>, NoMemory>
        ensures step { (v : EndView) (x : Table) → ChannelsStand self.old v x → Transmit v x now result self.new }
        ensures few { (v : EndView) (x : Table) → ChannelsStand self.old v x → IfOk result (λ sent. TellsFew sent) }
        ensures counts { (v : EndView) (x : Table) → ChannelsStand self.old v x
            → CountsAfter (at_moment (settled_all v x).view now) result (endpoint_of self.new) (counted (endpoint_of self.old)) }
    {
        match self.settle() {
            Ok(()) => {
                self.is_calm = false;
                self.endpoint.poll_transmit(now)
            }
            Err(NoMemory) => Err(NoMemory),
        }
    }
}
