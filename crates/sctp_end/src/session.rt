//! The endpoint between two lines, and each call on it.

ghost use Rattle.std.specs.Prelude.{◌≡◌, ℕ, List, Option, Some, None, IfOk, MatchOption, slice_get};
ghost use Rattle.sctp_model.specs.wire.Packet.{Packet};
ghost use Rattle.sctp_model.specs.receiver.ReceiverView.{Handed};
ghost use Rattle.sctp_model.specs.end.EndView.{EndView};
ghost use Rattle.sctp_endpoint.specs.EndpointStands.{EndpointStands};
ghost use Rattle.sctp_endpoint.specs.Handled.{IsRead};
ghost use Rattle.sctp_end.specs.declared.call.Call.TheVariants as call;
ghost use Rattle.sctp_end.specs.Performing.{TellsMessage};
ghost use Rattle.sctp_end.specs.SessionStands.{Performed};

use crate::call::Call;
use crate::replies::abort_refused;
use crate::reply::{Refusal, Reply};
use sctp_endpoint::{
    ConnectFault, Draw, Endpoint, Sent, ShutdownFault, Ticket, Verdict, one_packet,
};
use sctp_text::Bytes;
use sctp_values::{Kind, NoMemory};
use std::alloc::Global;

/// The endpoint, the random values for packets that arrive, and the time in milliseconds.
#[derive(Drop)]
pub(crate) struct Session {
    pub(crate) alloc: Global,
    pub(crate) endpoint: Endpoint,
    pub(crate) draw: Draw,
    pub(crate) moment: u64,
}

impl Session {
    /// Makes a call and returns the answer.
    pub(crate) fn perform(&mut self, call: Call) -> Reply
        ensures { Performed self.old call result self.new }
    {
        match call {
            Call::Connect(draw) => self.connect(draw),
            Call::NewDraw(draw) => self.redraw(draw),
            Call::At(moment) => self.pass(moment),
            Call::Packet(bytes) => self.hear(&bytes),
            Call::Build => self.build(),
            Call::Send {
                stream,
                kind,
                payload_id,
                until,
                bytes,
            } => self.send(stream, kind, payload_id, until, bytes),
            Call::SendWithMaxRetransmits {
                stream,
                kind,
                payload_id,
                until,
                max_retransmits,
                bytes,
            } => self.send_with_max_retransmits(
                stream,
                kind,
                payload_id,
                until,
                max_retransmits,
                bytes,
            ),
            Call::Abandon { ticket } => self.abandon(ticket),
            Call::Acknowledged { ticket } => self.acknowledged(ticket),
            Call::Abandoned { ticket } => self.abandoned(ticket),
            Call::Take { stream } => self.take(stream),
            Call::Reset { stream } => self.reset(stream),
            Call::Resets => self.resets(),
            Call::Shutdown => self.shutdown(),
            Call::Abort(reason) => self.abort(&reason),
            Call::Next => Reply::Next(self.endpoint.next_moment()),
            Call::State => Reply::Stands {
                state: self.endpoint.state(),
                ended: self.endpoint.ended(),
            },
            Call::Held => Reply::Held(self.endpoint.held_bytes()),
            Call::Reassembly => Reply::Reassembly(self.endpoint.reassembly_bytes()),
            Call::Status => self.status(),
            Call::Path => self.path(),
            Call::Counts => Reply::Counts(self.endpoint.counts()),
        }
    }

    /// `connect`
    fn connect(&mut self, draw: Draw) -> Reply
        ensures { Performed self.old (call.Connect draw) result self.new }
    {
        match self.endpoint.connect(self.moment, draw) {
            Ok(()) => Reply::Done,
            Err(ConnectFault::State) => Reply::Refused(Refusal::NotIdle),
        }
    }

    /// `draw`
    fn redraw(&mut self, draw: Draw) -> Reply
        ensures { Performed self.old (call.NewDraw draw) result self.new }
    {
        self.draw = draw;
        Reply::Done
    }

    /// `at`
    fn pass(&mut self, moment: u64) -> Reply
        ensures { Performed self.old (call.At moment) result self.new }
    {
        self.moment = self.moment.max(moment);
        self.endpoint.on_moment(self.moment);
        Reply::Done
    }

    /// `packet`
    fn hear(&mut self, bytes: &Bytes) -> Reply
        ensures { Performed self.old (call.Packet bytes.now) result self.new }
    {
        let bytes = bytes.as_slice();
        // law: bytes are a packet or have a fault
        reads_or_faults(bytes);
        match self.endpoint.handle_packet(self.moment, bytes, self.draw) {
            Ok(Verdict::Taken) => Reply::Taken,
            Ok(Verdict::Dropped(reason)) => Reply::Dropped(reason),
            Ok(Verdict::Answer(packet)) => Reply::Answer(Bytes::new(packet)),
            Err(NoMemory) => Reply::NoMemory,
        }
    }

    /// `build`
    fn build(&mut self) -> Reply
        ensures { Performed self.old call.Build result self.new }
    {
        match self.endpoint.poll_transmit(self.moment) {
            Ok(Some(Sent { packet, .. })) => Reply::Sent(Bytes::new(packet)),
            Ok(None) => Reply::Quiet,
            Err(NoMemory) => Reply::NoMemory,
        }
    }

    /// `abandon`
    fn abandon(&mut self, ticket: u64) -> Reply
        ensures { Performed self.old (call.Abandon ticket) result self.new }
    {
        Reply::Fate(self.endpoint.abandon(Ticket(ticket)))
    }

    /// `acknowledged`
    fn acknowledged(&self, ticket: u64) -> Reply
        ensures { Performed self.now (call.Acknowledged ticket) result self.now }
    {
        Reply::Holds(self.endpoint.acknowledged(Ticket(ticket)))
    }

    /// `abandoned`
    fn abandoned(&self, ticket: u64) -> Reply
        ensures { Performed self.now (call.Abandoned ticket) result self.now }
    {
        Reply::Holds(self.endpoint.abandoned(Ticket(ticket)))
    }

    /// `take`: the message is copied before it is taken, so that it still waits if an allocation fails.
    fn take(&mut self, stream: u16) -> Reply
        ensures { Performed self.old (call.Take stream) result self.new }
    {
        match self.next_message(stream) {
            Ok(Some(reply)) => {
                let _taken = self.endpoint.take(stream);
                reply
            }
            Ok(None) => {
                // By the clause of `limit` its options are plain, so that to take nothing changes nothing.
                let _limit = self.endpoint.config().limit();
                Reply::Empty { stream }
            }
            Err(NoMemory) => Reply::NoMemory,
        }
    }

    /// The answer for the first message that waits on a stream. None if none does.
    ///
    /// # Errors
    /// Its bytes couldn't be allocated.
    fn next_message(&self, stream: u16) -> Result<Option<Reply>, NoMemory>
        ensures { (v : EndView) → EndpointStands self.now.endpoint v → IfOk result (λ o. MatchOption o
            (slice_get (v.receiver.waiting stream) 0 ≡ None) (λ r. (h : Handed) × (slice_get (v.receiver.waiting stream) 0 ≡ Some h) × TellsMessage stream h r)) }
    {
        let Some(message) = self.endpoint.waiting(stream, 0) else {
            return Ok(None);
        };
        let mut bytes = Vec::new(self.alloc);
        message.copy_to(&mut bytes)?;
        Ok(Some(Reply::Message {
            stream,
            kind: Kind::of_flag(!message.ordered),
            number: message.number,
            payload_id: message.payload_id,
            bytes: Bytes::new(bytes),
        }))
    }

    /// `shutdown`
    fn shutdown(&mut self) -> Reply
        ensures { Performed self.old call.Shutdown result self.new }
    {
        match self.endpoint.shutdown() {
            Ok(()) => Reply::Done,
            Err(ShutdownFault::NotOpen) => Reply::Refused(Refusal::NotOpen),
        }
    }

    /// `abort`
    fn abort(&mut self, reason: &Bytes) -> Reply
        ensures { Performed self.old (call.Abort reason.now) result self.new }
    {
        match self.endpoint.abort(reason.as_slice()) {
            Ok(packet) => Reply::Answer(Bytes::new(packet)),
            Err(why) => abort_refused(why),
        }
    }
}

// law
/// Bytes read as a packet or have a fault.
fn reads_or_faults(bytes: &[u8])
    ensures { (o : Option Packet) × IsRead bytes.now o }
{
    one_packet();
}
