//! How much of what the user sent on a channel is buffered, and when that is little.

ghost use Rattle.std.specs.Prelude.{◌≡◌, length};
ghost use Rattle.sctp_model.specs.end.EndView.{EndView};
ghost use Rattle.sctp_endpoint.specs.Counted.{counted};
ghost use Rattle.sctp_channels.specs.Streams.{Table, first_from};
ghost use Rattle.sctp_channels.specs.Buffered.{buffered, is_low};
ghost use Rattle.sctp_channels.specs.Answers.{StandLooked, SetsThreshold};
ghost use Rattle.sctp_channels.specs.ChannelsStand.{ChannelsStand, endpoint_of};

use crate::channels::Channels;
use crate::fault::ThresholdFault;
use crate::threshold::Threshold;
use sctp_values::NoMemory;

/// The payload protocol identifiers of user data: text and binary data that aren't empty (RFC 8831, 8).
const USER_DATA: [u32; 2] = [51, 53];

#[tactic(auto, unfolding(crate::specs::ChannelsStand::ChannelsStand, crate::specs::ChannelsStand::endpoint_of, crate::specs::ChannelsStand::table_of))]
impl Channels {
    /// The bytes of user data queued on a stream: those of the messages that `send` accepted and of which no fragment was sent yet. A message leaves
    /// it as a whole, when its first fragment gets a TSN, or when it is abandoned. Messages of DCEP and empty contents count 0, and so does a stream
    /// that isn't there. On a stream without a channel nothing is queued, but what was still queued when the association ended. It is a number that is
    /// kept: no message is looked at.
    pub fn buffered_amount(&self, stream: u16) -> u64
        ensures { (v : EndView) (x : Table) → ChannelsStand self.now v x → result ≡ buffered v stream }
    {
        self.endpoint.queued_bytes_on(stream, &USER_DATA)
    }

    /// Sets the low threshold, in bytes, of the buffered amount of a channel. `Event::BufferedAmountLow` is reported once the amount is at most the
    /// threshold, if it was above it since this call or since the last such event: when the threshold is set, or when `send` has accepted a message.
    /// Without this call a channel has no such event; what was set ends with the channel. The first call allocates 8 bytes for each stream.
    ///
    /// # Errors
    /// `ThresholdFault::NoChannel` if there is no channel on the stream, or it is being closed; else `ThresholdFault::NoMemory` if the allocation
    /// failed. Nothing changed.
    pub fn set_buffered_amount_low_threshold(
        &mut self,
        stream: u16,
        bytes: u32,
    ) -> Result<(), ThresholdFault>
        ensures step { (v : EndView) (x : Table) → ChannelsStand self.old v x → SetsThreshold v x stream bytes result self.new }
        ensures counts { counted (endpoint_of self.new) ≡ counted (endpoint_of self.old) }
    {
        if !self.table.at(stream).state.may_send() {
            return Err(ThresholdFault::NoChannel);
        }
        match self.table.make_thresholds(self.alloc) {
            Ok(()) => {
                self.is_calm = false;
                let threshold = Threshold::of(bytes, self.buffered_amount(stream));
                self.table.set_threshold(stream, threshold);
                Ok(())
            }
            Err(NoMemory) => Err(ThresholdFault::NoMemory),
        }
    }

    /// Looks at the buffered amount of a stream: one above its threshold is noted.
    pub(crate) fn look(&mut self, stream: u16)
        ensures step { (v : EndView) (x : Table) → ChannelsStand self.old v x → StandLooked v stream x self.new }
        ensures counts { counted (endpoint_of self.new) ≡ counted (endpoint_of self.old) }
    {
        let threshold = self.table.threshold(stream);
        if threshold.is_waiting() {
            let amount = self.buffered_amount(stream);
            self.is_calm = false;
            self.table.set_threshold(stream, threshold.looked(amount));
        }
    }

    /// The lowest stream whose buffered amount is low.
    pub(crate) fn first_low(&self) -> Option<u16>
        ensures { (v : EndView) (x : Table) → ChannelsStand self.now v x → result ≡ first_from (is_low v x) 0 (length x.streams) }
    {
        for stream in self.table.busy.low..self.table.busy.high {
            if self.is_low(stream) {
                return Some(stream);
            }
        }
        None
    }

    /// The buffered amount of the stream is low.
    #[inline(never)]
    fn is_low(&self, stream: u16) -> bool
        ensures { (v : EndView) (x : Table) → ChannelsStand self.now v x → result ≡ is_low v x stream }
    {
        let threshold = self.table.threshold(stream);
        threshold.is_above && self.buffered_amount(stream) <= u64::from(threshold.bytes)
    }
}
