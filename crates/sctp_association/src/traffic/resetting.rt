//! Stream reset at the sender and at the receiver, in either format (RFC 6525, 5).

ghost use Rattle.std.specs.Prelude.{◌≡◌, true, ℕ, ◌&&◌, nat_lt, is_some, if◌then◌else◌, [], map, Some, None, IfOk, OnOk, OnErr, MatchOption};
ghost use Rattle.sctp_model.specs.messages.Format.{Format};
ghost use Rattle.sctp_model.specs.sender.Outgoing.{is_resetting};
ghost use Rattle.sctp_model.specs.sender.Resetting.{resetting, may_ask, asked, retried, response_taken};
ghost use Rattle.sctp_model.specs.sender.SenderView.{SenderView};
ghost use Rattle.sctp_model.specs.receiver.ReceiverView.{ReceiverView, IsCumulative};
ghost use Rattle.sctp_model.specs.receiver.ResetTaken.{last_finished, with_answers, old_waiting, told_of};
ghost use Rattle.sctp_send.specs.ResetAnswers.{IsRequest, WasMade, resetting_streams};
ghost use Rattle.sctp_recv.specs.Requests.{all_requested, reset_there};
ghost use Rattle.sctp_recv.specs.Resets.{response_of};
ghost use Rattle.sctp_association.specs.TrafficStands.{TrafficStands};

use crate::traffic::Traffic;
use sctp_reconfig::Parameters;
use sctp_recv::{Reset, ResetResponse};
use sctp_send::{EarlierRequest, ResetRequest};
use sctp_values::NoMemory;

impl Traffic {
    /// Asks for the reset of an outgoing stream: it takes no further message until that is done (RFC 6525, 5.1).
    ///
    /// # Errors
    /// `NoMemory` if an allocation was refused; nothing changed then.
    pub(crate) fn reset(&mut self, stream: u16) -> Result<(), NoMemory>
        ensures step { (f : Format) (s : SenderView) (r : ReceiverView) → TrafficStands self.old f s r → OnOk result (TrafficStands self.new f (resetting s stream) r) }
        ensures refused { (f : Format) (s : SenderView) (r : ReceiverView) → TrafficStands self.old f s r → OnErr result (TrafficStands self.new f s r) }
    {
        match self {
            Traffic::Plain(directions) => directions.sender.reset(stream),
            Traffic::Interleaved(directions) => directions.sender.reset(stream),
        }
    }

    /// The number of outgoing streams.
    pub(crate) fn outbound(&self) -> u16
        ensures { (f : Format) (s : SenderView) (r : ReceiverView) → TrafficStands self.now f s r → result ≡ s.streams }
    {
        match self {
            Traffic::Plain(directions) => directions.sender.stream_count(),
            Traffic::Interleaved(directions) => directions.sender.stream_count(),
        }
    }

    /// The reset of this outgoing stream was asked for and has no answer yet.
    pub(crate) fn is_resetting(&self, stream: u16) -> bool
        ensures { (f : Format) (s : SenderView) (r : ReceiverView) → TrafficStands self.now f s r → result ≡ (nat_lt stream s.streams && is_resetting (s.resets.sending stream)) }
    {
        match self {
            Traffic::Plain(directions) => directions.sender.is_resetting(stream),
            Traffic::Interleaved(directions) => directions.sender.is_resetting(stream),
        }
    }

    /// How many of the outgoing streams below 1,024 wait for their reset.
    #[inline(always)]
    pub(crate) fn resetting_streams(&self) -> usize
        ensures { (f : Format) (s : SenderView) (r : ReceiverView) → TrafficStands self.now f s r → result ≡ resetting_streams s }
    {
        match self {
            Traffic::Plain(directions) => directions.sender.resetting_streams(),
            Traffic::Interleaved(directions) => directions.sender.resetting_streams(),
        }
    }

    /// A request to reset streams may be made: none waits for its response, and a stream is ready (RFC 6525, 5.1.1).
    #[inline(always)]
    pub(crate) fn may_ask(&self) -> bool
        ensures { (f : Format) (s : SenderView) (r : ReceiverView) → TrafficStands self.now f s r → result ≡ may_ask s }
    {
        match self {
            Traffic::Plain(directions) => directions.sender.may_ask(),
            Traffic::Interleaved(directions) => directions.sender.may_ask(),
        }
    }

    /// Makes a request to reset the streams that are ready, if it may be made (RFC 6525, 5.1.2). Returns the last one before it.
    ///
    /// # Errors
    /// `NoMemory` if an allocation was refused; nothing changed then.
    pub(crate) fn ask(&mut self) -> Result<EarlierRequest, NoMemory>
        ensures step { (f : Format) (s : SenderView) (r : ReceiverView) → TrafficStands self.old f s r → OnOk result (TrafficStands self.new f (if may_ask s then asked s else s) r) }
        ensures before { (f : Format) (s : SenderView) (r : ReceiverView) → TrafficStands self.old f s r → may_ask s ≡ true → IfOk result (λ before. WasMade before s) }
        ensures refused { (f : Format) (s : SenderView) (r : ReceiverView) → TrafficStands self.old f s r → OnErr result (TrafficStands self.new f s r) }
    {
        match self {
            Traffic::Plain(directions) => directions.sender.ask(),
            Traffic::Interleaved(directions) => directions.sender.ask(),
        }
    }

    /// Undoes `ask` that made a request, if the packet that would carry it isn't sent; `before` is what it returned.
    pub(crate) fn take_back_request(&mut self, before: EarlierRequest)
        ensures { (f : Format) (s : SenderView) (r : ReceiverView) → TrafficStands self.old f (asked s) r → may_ask s ≡ true → WasMade before s → TrafficStands self.new f s r }
    {
        match self {
            Traffic::Plain(directions) => directions.sender.take_back_request(before),
            Traffic::Interleaved(directions) => directions.sender.take_back_request(before),
        }
    }

    /// The request that waits is retransmitted: if it is in progress, it takes the next sequence number (RFC 6525, 5.2.7).
    pub(crate) fn retry_request(&mut self)
        ensures { (f : Format) (s : SenderView) (r : ReceiverView) → TrafficStands self.old f s r → TrafficStands self.new f (retried s) r }
    {
        match self {
            Traffic::Plain(directions) => directions.sender.retry_request(),
            Traffic::Interleaved(directions) => directions.sender.retry_request(),
        }
    }

    /// The request that waits for its response, if one does (RFC 6525, 4.1).
    pub(crate) fn request(&self) -> Option<ResetRequest<'_>>
        ensures { (f : Format) (s : SenderView) (r : ReceiverView) → TrafficStands self.now f s r
            → MatchOption result (s.resets.pending ≡ None) (λ request. IsRequest s request.number request.last request.streams.now) }
    {
        match self {
            Traffic::Plain(directions) => directions.sender.request(),
            Traffic::Interleaved(directions) => directions.sender.request(),
        }
    }

    /// Processes the peer's response to the request with this sequence number (RFC 6525, 5.2.7).
    pub(crate) fn on_response(&mut self, number: u32, code: u32)
        ensures { (f : Format) (s : SenderView) (r : ReceiverView) → TrafficStands self.old f s r → TrafficStands self.new f (response_taken s number code) r }
    {
        match self {
            Traffic::Plain(directions) => directions.sender.on_response(number, code),
            Traffic::Interleaved(directions) => directions.sender.on_response(number, code),
        }
    }

    /// Processes the requests among the parameters of a RE-CONFIG, one after another (RFC 6525, 5.2); `limit` is that of a packet, in bytes.
    ///
    /// # Errors
    /// `NoMemory` if an allocation was refused; nothing changed then.
    pub(crate) fn on_requests(
        &mut self,
        limit: u16,
        parameters: Parameters<'_>,
    ) -> Result<(), NoMemory>
        ensures step { (f : Format) (s : SenderView) (r : ReceiverView) → TrafficStands self.old f s r
            → OnOk result ((c : ℕ) × IsCumulative r c × TrafficStands self.new f s (all_requested limit c r parameters.entry)) }
        ensures refused { (f : Format) (s : SenderView) (r : ReceiverView) → TrafficStands self.old f s r → OnErr result (TrafficStands self.new f s r) }
    {
        match self {
            Traffic::Plain(directions) => directions.receiver.on_requests(limit, parameters),
            Traffic::Interleaved(directions) => directions.receiver.on_requests(limit, parameters),
        }
    }

    /// The responses that wait for a packet, first to last (RFC 6525, 4.4).
    #[inline(always)]
    pub(crate) fn answers(&self) -> &[ResetResponse]
        ensures { (f : Format) (s : SenderView) (r : ReceiverView) → TrafficStands self.now f s r → map response_of result.now ≡ r.resets.answers }
    {
        match self {
            Traffic::Plain(directions) => directions.receiver.answers(),
            Traffic::Interleaved(directions) => directions.receiver.answers(),
        }
    }

    /// The responses were sent: none waits.
    pub(crate) fn answers_sent(&mut self)
        ensures { (f : Format) (s : SenderView) (r : ReceiverView) → TrafficStands self.old f s r → TrafficStands self.new f s (with_answers r []) }
    {
        match self {
            Traffic::Plain(directions) => directions.receiver.answers_sent(),
            Traffic::Interleaved(directions) => directions.receiver.answers_sent(),
        }
    }

    /// The sequence number of the peer's last request that is finished; before the first, the number before its initial TSN (RFC 6525, 4.1).
    pub(crate) fn last_finished_request(&self) -> u32
        ensures { (f : Format) (s : SenderView) (r : ReceiverView) → TrafficStands self.now f s r → result ≡ last_finished r }
    {
        match self {
            Traffic::Plain(directions) => directions.receiver.last_finished_request(),
            Traffic::Interleaved(directions) => directions.receiver.last_finished_request(),
        }
    }

    /// Whether the peer reset a stream and that wasn't reported.
    #[inline(always)]
    pub(crate) fn has_reset(&self) -> bool
        ensures { (f : Format) (s : SenderView) (r : ReceiverView) → TrafficStands self.now f s r → result ≡ is_some (reset_there r) }
    {
        match self {
            Traffic::Plain(directions) => directions.receiver.has_reset(),
            Traffic::Interleaved(directions) => directions.receiver.has_reset(),
        }
    }

    /// Reports the lowest stream that the peer reset and that wasn't reported, if there is one.
    pub(crate) fn take_reset(&mut self) -> Option<Reset>
        ensures { (f : Format) (s : SenderView) (r : ReceiverView) → TrafficStands self.old f s r → MatchOption result
            ((reset_there r ≡ None) × TrafficStands self.new f s r)
            (λ told. (reset_there r ≡ Some told.stream) × (told.count ≡ old_waiting r told.stream) × TrafficStands self.new f s (told_of r told.stream)) }
    {
        match self {
            Traffic::Plain(directions) => directions.receiver.take_reset(),
            Traffic::Interleaved(directions) => directions.receiver.take_reset(),
        }
    }
}
