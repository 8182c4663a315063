//! Channels are opened (RFC 8832, 6; RFC 8831, 6.4).

ghost use Rattle.std.specs.Prelude.{◌≡◌, ◌≤◌, ◌&&◌, ℕ, Option, Ok};
ghost use Rattle.sctp_model.specs.end.EndView.{EndView};
ghost use Rattle.sctp_dcep.specs.Meanings.{reliability_meaning, opening_meaning};
ghost use Rattle.sctp_endpoint.specs.Counted.{counted};
ghost use Rattle.sctp_channels.specs.Streams.{Table, stream_at, is_own, is_free, first_from};
ghost use Rattle.sctp_channels.specs.inner.Sent.{SendsOn};
ghost use Rattle.sctp_channels.specs.Calling.{open_call, outgoing, both_ways, is_too_long, is_out_of_range, free_stream, own_stream, stream_for, open_choice, negotiated_choice};
ghost use Rattle.sctp_channels.specs.Answers.{Opens, OpensNegotiated};
ghost use Rattle.sctp_channels.specs.ChannelsStand.{ChannelsStand, endpoint_of};

use crate::channels::Channels;
use crate::fault::OpenFault;
use crate::stream::{State, parameter_of};
use sctp_dcep::{DCEP, Opening, Reliability, write_open};
use sctp_endpoint::{Refused, SendFault, Ticket};
use sctp_values::LONGEST_MESSAGE;

/// The bytes of a DATA_CHANNEL_OPEN before its texts (RFC 8832, 5.1).
const OPEN_FIELDS: usize = 12;
/// The most retransmissions, and the longest lifetime in milliseconds: some peers keep 16 bits of them.
const GREATEST_PARAMETER: u32 = 65_535;

#[tactic(auto, unfolding(crate::specs::ChannelsStand::ChannelsStand, crate::specs::ChannelsStand::endpoint_of, crate::specs::ChannelsStand::table_of))]
impl Channels {
    /// Opens a channel with these parameters, on this stream, or if None on the lowest that is free of this side's (RFC 8832, 6), and returns the stream.
    /// Its DATA_CHANNEL_OPEN is queued. Messages may be sent at once: in order until something was received from the peer. `Event::Opened` says that
    /// the channel is open at the peer, too. The priority is sent to the peer and has no other effect.
    ///
    /// # Errors
    /// The first `OpenFault` that applies. Nothing changed.
    pub fn open(&mut self, parameters: &Opening<'_>, stream: Option<u16>) -> Result<u16, OpenFault>
        ensures step { (v : EndView) (x : Table) → ChannelsStand self.old v x → Opens v x (opening_meaning parameters.now) stream result self.new }
        ensures counts { counted (endpoint_of self.new) ≡ counted (endpoint_of self.old) }
    {
        match self.open_choice(parameters, stream) {
            Ok(stream) => self.open_on(parameters, stream),
            Err(fault) => Err(fault),
        }
    }

    /// Opens a channel on this stream.
    ///
    /// # Errors
    /// `OpenFault::Refused`: nothing changed.
    fn open_on(&mut self, parameters: &Opening<'_>, stream: u16) -> Result<u16, OpenFault>
        ensures step { (v : EndView) (x : Table) (o : Option ℕ) → ChannelsStand self.old v x → open_choice v x (opening_meaning parameters.now) o ≡ Ok stream
            → Opens v x (opening_meaning parameters.now) o result self.new }
        ensures counts { counted (endpoint_of self.new) ≡ counted (endpoint_of self.old) }
    {
        match self.queue_open(parameters, stream) {
            Ok(_) => {
                let kept = self.table.at(stream).with_channel(
                    State::Connecting,
                    parameters.ordered,
                    parameters.reliability,
                );
                self.is_calm = false;
                self.table.set(stream, kept);
                Ok(stream)
            }
            Err(why) => Err(OpenFault::Refused(why)),
        }
    }

    /// Queues an OPEN.
    ///
    /// # Errors
    /// The endpoint refuses it, or an allocation failed: nothing changed.
    fn queue_open(&mut self, parameters: &Opening<'_>, stream: u16) -> Result<Ticket, Refused>
        ensures step { (v : EndView) (x : Table) → ChannelsStand self.old v x → SendsOn v x (open_call stream (opening_meaning parameters.now)) result self.new }
        ensures counts { counted (endpoint_of self.new) ≡ counted (endpoint_of self.old) }
    {
        let bytes = write_open(self.alloc, parameters).map_err(|_| Refused::Fault(
            SendFault::NoMemory,
        ))?;
        self.is_calm = false;
        self.endpoint.send(stream, true, DCEP, bytes, None)
    }

    /// Opens a channel that both applications agreed on, on a stream of either half: no message is sent for it, and it is open at once (RFC 8831, 6.4).
    ///
    /// # Errors
    /// The first `OpenFault` that applies, of `OutOfRange`, `NoStream` and `Used`. Nothing changed.
    pub fn open_negotiated(
        &mut self,
        stream: u16,
        ordered: bool,
        reliability: Reliability,
    ) -> Result<(), OpenFault>
        ensures step { (v : EndView) (x : Table) → ChannelsStand self.old v x → OpensNegotiated v x ordered (reliability_meaning reliability) stream result self.new }
        ensures counts { counted (endpoint_of self.new) ≡ counted (endpoint_of self.old) }
    {
        match self.negotiated_choice(stream, reliability) {
            Ok(_) => {
                let kept = self
                    .table
                    .at(stream)
                    .with_channel(State::Open, ordered, reliability);
                self.is_calm = false;
                self.table.set(stream, kept);
                Ok(())
            }
            Err(fault) => Err(fault),
        }
    }

    /// The stream for a negotiated channel with this reliability.
    ///
    /// # Errors
    /// The first reason why it isn't free for it.
    fn negotiated_choice(&self, stream: u16, reliability: Reliability) -> Result<u16, OpenFault>
        ensures { (v : EndView) (x : Table) → ChannelsStand self.now v x → result ≡ negotiated_choice v x (reliability_meaning reliability) stream }
    {
        if parameter_of(reliability) > GREATEST_PARAMETER {
            return Err(OpenFault::OutOfRange);
        }
        self.free_stream(stream)
    }

    /// The stream for a channel with these parameters.
    ///
    /// # Errors
    /// The first reason why there is none.
    fn open_choice(&self, parameters: &Opening<'_>, stream: Option<u16>) -> Result<u16, OpenFault>
        ensures { (v : EndView) (x : Table) → ChannelsStand self.now v x → result ≡ open_choice v x (opening_meaning parameters.now) stream }
    {
        if is_too_long(parameters) {
            return Err(OpenFault::TooLong);
        }
        if parameter_of(parameters.reliability) > GREATEST_PARAMETER {
            return Err(OpenFault::OutOfRange);
        }
        match stream {
            Some(stream) => self.own_stream(stream),
            None => self.lowest_free().ok_or(OpenFault::NoStream),
        }
    }

    /// The stream, if a channel may be opened on it by an OPEN.
    ///
    /// # Errors
    /// The first reason why not.
    fn own_stream(&self, stream: u16) -> Result<u16, OpenFault>
        ensures { (v : EndView) (x : Table) → ChannelsStand self.now v x → result ≡ own_stream v x stream }
    {
        if self.both_ways() <= usize::from(stream) {
            return Err(OpenFault::NoStream);
        }
        if !self.table.role.is_own(stream) {
            return Err(OpenFault::WrongHalf);
        }
        if !self.table.at(stream).is_free() {
            return Err(OpenFault::Used);
        }
        Ok(stream)
    }

    /// The stream, if a channel may be opened on it without an OPEN.
    ///
    /// # Errors
    /// The first reason why not.
    fn free_stream(&self, stream: u16) -> Result<u16, OpenFault>
        ensures { (v : EndView) (x : Table) → ChannelsStand self.now v x → result ≡ free_stream v x stream }
    {
        if self.both_ways() <= usize::from(stream) {
            return Err(OpenFault::NoStream);
        }
        if !self.table.at(stream).is_free() {
            return Err(OpenFault::Used);
        }
        Ok(stream)
    }

    /// The lowest stream that is free of those on which this side opens channels.
    fn lowest_free(&self) -> Option<u16>
        ensures { (v : EndView) (x : Table) → ChannelsStand self.now v x
            → result ≡ first_from (λ s. is_own x.role s && is_free (stream_at x s)) 0 (both_ways v x) }
    {
        for at in 0..self.both_ways() {
            let stream = at as u16;
            if self.is_own_free(stream) {
                return Some(stream);
            }
        }
        None
    }

    /// The stream is free, and one of those on which this side opens channels.
    fn is_own_free(&self, stream: u16) -> bool
        ensures { (v : EndView) (x : Table) → ChannelsStand self.now v x → result ≡ (is_own x.role stream && is_free (stream_at x stream)) }
    {
        self.table.role.is_own(stream) && self.table.at(stream).is_free()
    }

    /// So many streams go out.
    pub(crate) fn outgoing(&self) -> usize
        ensures count { (v : EndView) (x : Table) → ChannelsStand self.now v x → result ≡ outgoing v x }
        ensures few { result ≤ 65_535 }
    {
        usize::from(self.endpoint.outbound()).min(self.table.streams.len())
    }

    /// So many go both ways.
    fn both_ways(&self) -> usize
        ensures count { (v : EndView) (x : Table) → ChannelsStand self.now v x → result ≡ both_ways v x }
        ensures few { result ≤ 65_535 }
    {
        usize::from(self.endpoint.inbound()).min(self.outgoing())
    }
}

/// The OPEN would be longer than a message.
fn is_too_long(parameters: &Opening<'_>) -> bool
    ensures { result ≡ is_too_long (opening_meaning parameters.now) }
{
    let texts = parameters
        .label
        .len()
        .saturating_add(parameters.protocol.len());
    texts > LONGEST_MESSAGE - OPEN_FIELDS
}
