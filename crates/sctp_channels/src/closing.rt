//! Channels are closed by the reset of their streams (RFC 8831, 6.7).

ghost use Rattle.sctp_model.specs.end.EndView.{EndView};
ghost use Rattle.sctp_endpoint.specs.Counted.{counted};
ghost use Rattle.sctp_channels.specs.Streams.{Table};
ghost use Rattle.sctp_channels.specs.Events.{all_noted};
ghost use Rattle.sctp_channels.specs.Answers.{Closes};
ghost use Rattle.sctp_channels.specs.ChannelsStand.{ChannelsStand, endpoint_of};
ghost use Rattle.std.specs.Prelude.{◌≡◌};
ghost use Rattle.sctp_channels.specs.inner.Settles.{wants_memory, SettlesOne, SettlesAll, SettlesAs};
ghost use Rattle.sctp_model.specs.end.UserCalls.{send_answer, reset_call};
ghost use Rattle.sctp_channels.specs.Calling.{ack_call};
ghost use Rattle.sctp_channels.specs.Settling.{settled, acknowledged, reset_asked};

use crate::channels::Channels;
use crate::fault::CloseFault;
use crate::stream::{Due, State, Stream};
use sctp_endpoint::{Refused, ResetFault, SendFault};
use sctp_values::NoMemory;

#[tactic(auto, unfolding(crate::specs::ChannelsStand::ChannelsStand, crate::specs::ChannelsStand::endpoint_of, crate::specs::ChannelsStand::table_of))]
impl Channels {
    /// Closes a channel (RFC 8831, 6.7): nothing more may be sent on it; what was sent is still delivered, and then this side's half of the stream is reset.
    /// The peer resets its half in answer. What it sent before is still reported, and then `Event::Closed`.
    ///
    /// # Errors
    /// `CloseFault::NoChannel` if there is no channel on the stream, or it is being closed; else `CloseFault::Refused` if the endpoint doesn't reset the
    /// stream: without stream reset, or if the association isn't established, no channel can be closed. Nothing changed.
    pub fn close(&mut self, stream: u16) -> Result<(), CloseFault>
        ensures step { (v : EndView) (x : Table) → ChannelsStand self.old v x → Closes v x stream result self.new }
        ensures counts { counted (endpoint_of self.new) ≡ counted (endpoint_of self.old) }
    {
        let kept = self.table.at(stream);
        if !kept.state.may_send() {
            return Err(CloseFault::NoChannel);
        }
        self.is_calm = false;
        self.endpoint.reset(stream).map_err(CloseFault::Refused)?;
        self.table.set(
            stream,
            Stream {
                state: State::Closing,
                due: Due::Nothing,
                ..kept
            },
        );
        Ok(())
    }

    /// Passes to the endpoint what is due on all streams, the lowest first. Without a busy stream nothing is.
    ///
    /// # Errors
    /// `NoMemory` if an allocation failed: it is still due on that stream and those above.
    #[inline(always)]
    pub(crate) fn settle(&mut self) -> Result<(), NoMemory>
        ensures step { (v : EndView) (x : Table) → ChannelsStand self.old v x → SettlesAll v x result self.new }
        ensures counts { counted (endpoint_of self.new) ≡ counted (endpoint_of self.old) }
    {
        if self.table.busy.high == 0 {
            return Ok(());
        }
        self.settle_busy()
    }

    /// `settle`, with busy streams. A function of its own, so that packets cost little where no stream is busy.
    ///
    /// # Errors
    /// As `settle`.
    #[inline(never)]
    fn settle_busy(&mut self) -> Result<(), NoMemory>
        ensures step { (v : EndView) (x : Table) → ChannelsStand self.old v x → SettlesAll v x result self.new }
        ensures counts { counted (endpoint_of self.new) ≡ counted (endpoint_of self.old) }
    {
        for stream in self.table.busy.low..self.table.busy.high {
            match self.settle_one(stream) {
                Ok(()) => {}
                Err(NoMemory) => return Err(NoMemory),
            }
        }
        self.table.shorten();
        Ok(())
    }

    /// Passes to the endpoint what is due on a stream.
    ///
    /// # Errors
    /// `NoMemory` if an allocation failed: nothing changed.
    #[inline(never)]
    fn settle_one(&mut self, stream: u16) -> Result<(), NoMemory>
        ensures step { (v : EndView) (x : Table) → ChannelsStand self.old v x → SettlesOne v x stream result self.new }
        ensures counts { counted (endpoint_of self.new) ≡ counted (endpoint_of self.old) }
    {
        let kept = self.table.at(stream);
        match self.settle_due(stream, kept) {
            Ok(settled) => {
                self.is_calm = false;
                self.table.set(stream, settled);
                Ok(())
            }
            Err(NoMemory) => Err(NoMemory),
        }
    }

    /// Passes to the endpoint what is due on a stream, and returns the stream after that.
    ///
    /// # Errors
    /// `NoMemory` if an allocation failed: nothing changed.
    fn settle_due(&mut self, stream: u16, kept: Stream) -> Result<Stream, NoMemory>
        ensures step { (v : EndView) (x : Table) → ChannelsStand self.old v x → SettlesAs (settled v stream kept) v x result self.new }
        ensures counts { counted (endpoint_of self.new) ≡ counted (endpoint_of self.old) }
    {
        match kept.due {
            Due::Nothing => Ok(kept),
            Due::Acknowledgement => self.settle_ack(stream, kept),
            Due::Reset => self.settle_reset(stream, kept),
        }
    }

    /// Passes the ACK of a stream to the endpoint, and returns the stream after that.
    ///
    /// # Errors
    /// `NoMemory` if an allocation failed: nothing changed.
    fn settle_ack(&mut self, stream: u16, kept: Stream) -> Result<Stream, NoMemory>
        ensures step { (v : EndView) (x : Table) → ChannelsStand self.old v x → SettlesAs (acknowledged (send_answer v (ack_call stream)) v stream kept) v x result self.new }
        ensures counts { counted (endpoint_of self.new) ≡ counted (endpoint_of self.old) }
    {
        match self.queue_ack(stream) {
            Ok(_) => Ok(kept.without_due()),
            Err(why) => {
                if wants_memory(why) {
                    Err(NoMemory)
                } else {
                    Ok(kept)
                }
            }
        }
    }

    /// Passes the reset of this side's half of a stream to the endpoint, and returns the stream after that.
    ///
    /// # Errors
    /// `NoMemory` if an allocation failed: nothing changed.
    fn settle_reset(&mut self, stream: u16, kept: Stream) -> Result<Stream, NoMemory>
        ensures step { (v : EndView) (x : Table) → ChannelsStand self.old v x → SettlesAs (reset_asked (reset_call v stream) v stream kept) v x result self.new }
        ensures counts { counted (endpoint_of self.new) ≡ counted (endpoint_of self.old) }
    {
        self.is_calm = false;
        match self.endpoint.reset(stream) {
            Ok(()) | Err(ResetFault::NoSuchStream) => Ok(kept.without_due()),
            Err(ResetFault::State) => Ok(kept),
            Err(ResetFault::NoMemory) => Err(NoMemory),
        }
    }

    /// Notes each reset of the peer that wasn't reported (RFC 6525, 5.2.2). After most packets there is none.
    #[inline(always)]
    pub(crate) fn note_resets(&mut self)
        ensures step { (v : EndView) (x : Table) → ChannelsStand self.old v x → ChannelsStand self.new (all_noted v x).view (all_noted v x).table }
        ensures counts { counted (endpoint_of self.new) ≡ counted (endpoint_of self.old) }
    {
        if self.endpoint.has_reset() {
            self.note_each_reset();
        }
    }

    /// Notes each reset of the peer that wasn't reported.
    #[inline(never)]
    fn note_each_reset(&mut self)
        ensures step { (v : EndView) (x : Table) → ChannelsStand self.old v x → ChannelsStand self.new (all_noted v x).view (all_noted v x).table }
        ensures counts { counted (endpoint_of self.new) ≡ counted (endpoint_of self.old) }
    {
        let streams = self.endpoint.inbound();
        for done in 0..streams {
            self.is_calm = false;
            match self.endpoint.take_reset() {
                Some(reset) => {
                    let kept = self.table.at(reset.stream);
                    let kept = kept.reset_by_peer(reset.count);
                    self.table.set(reset.stream, kept);
                }
                None => return,
            }
        }
    }
}

/// An allocation failed.
fn wants_memory(why: Refused) -> bool
    ensures { result ≡ wants_memory why }
{
    matches!(why, Refused::Fault(SendFault::NoMemory))
}
