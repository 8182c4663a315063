//! The requests of the peer to reset its outgoing streams, and the responses to them (RFC 6525, 5.2).
//!
//! All requests of a RE-CONFIG act in one call, one after another: memory for what is known of the streams, for all responses that a packet has
//! space for, and for the streams that a request lists, is allocated first, and none if there is no request. A reset costs as much as its request lists, one that lists no
//! stream a few steps for each stream.

ghost use Rattle.std.specs.Prelude.{◌≡◌, ◌≤◌, ◌∷◌, ℕ, true, nat_le, map, MatchOption, None, Some, OnOk, OnErr, [], vec_capacity};
ghost use Rattle.std.specs.List.{list_any};
ghost use Rattle.sctp_model.specs.numbers.Serial.{tsn};
ghost use Rattle.sctp_model.specs.wire.Reconfig.{Performed, Denied};
ghost use Rattle.sctp_model.specs.messages.Format.{Format};
ghost use Rattle.sctp_model.specs.receiver.ReceiverView.{ReceiverView, IsCumulative};
ghost use Rattle.sctp_model.specs.receiver.ResetTaken.{reset_answer, answer_in_turn, denied, last_finished, with_answers, old_waiting, told_of};
ghost use Rattle.sctp_reconfig.specs.Reading.{ResetRequested, ListAtMost};
ghost use Rattle.sctp_reconfig.specs.Meanings.{request_meaning, parameter_meaning, result_meaning};
ghost use Rattle.sctp_recv.specs.Requests.{answered, all_requested, reset_there};
ghost use Rattle.sctp_recv.specs.Resets.{response_of, resets_of, KeepsResets};
ghost use Rattle.sctp_recv.specs.StandsFor.{StandsFor};
ghost use Rattle.sctp_recv.specs.inner.Restarting.{HasSpace};
ghost use Rattle.sctp_recv.specs.inner.Requesting.{ActsInTurn, StandsInPart, StandInPart};

use crate::parameters::first_request;
use crate::receiver::Receiver;
use crate::renumbering::restart_named;
use crate::resets::{Resets, make_resets};
use crate::restart::{Reset, ResetResponse};
use crate::stream::Stream;
use sctp_framing::Framing;
use sctp_reconfig::{Parameter, Parameters, ResetRequest, ResetResult, Streams};
use sctp_serial::{S32, Serial, tsn_of};
use sctp_values::NoMemory;

/// Whether a request lists a stream that doesn't exist.
fn names_other(count: usize, named: &Streams<'_>) -> bool
    ensures { result ≡ list_any (nat_le count) named.now }
{
    for stream in named.iter() {
        if usize::from(stream) >= count {
            return true;
        }
    }
    false
}

/// The result of a request in its turn: the first row of the table that applies. `cumulative` is the cumulative TSN.
fn result_of(count: usize, cumulative: u32, request: &ResetRequest<'_>) -> ResetResult
    ensures { (v : ReceiverView) (c : ℕ) → v.streams ≡ count → cumulative ≡ tsn v.initial c → result_meaning result ≡ reset_answer v c (request_meaning request.now) }
{
    if names_other(count, &request.streams) {
        return ResetResult::WrongStream;
    }
    if S32(cumulative).before(S32(request.last)) {
        return ResetResult::InProgress;
    }
    ResetResult::Performed
}

/// Whether a request is performed.
fn is_performed(answer: ResetResult) -> bool
    ensures performed { result ≡ true → result_meaning answer ≡ Performed }
    ensures all { result_meaning answer ≡ Performed → result ≡ true }
{
    matches!(answer, ResetResult::Performed)
}

/// What a request in its turn does, once its result is known: if it is performed, the numbers of its streams begin anew. What it says is noted.
fn act<F: Framing>(
    resets: &mut Resets,
    streams: &Vec<Stream<F>>,
    request: &ResetRequest<'_>,
    answer: ResetResult,
)
    ensures acts { ActsInTurn F.format streams.now resets.old resets.new (request_meaning request.now) (result_meaning answer) }
    ensures answers { resets.new.answers ≡ resets.old.answers }
    ensures room { vec_capacity resets.old.named ≤ vec_capacity resets.new.named }
{
    if is_performed(answer) {
        let again = resets.was_performed(request);
        restart_named(resets, streams, &request.streams, again);
    }
    resets.postpone(request, answer);
}

/// Handles a request to reset streams.
fn on_reset<F: Framing>(
    resets: &mut Resets,
    streams: &Vec<Stream<F>>,
    cumulative: u32,
    limit: u16,
    request: &ResetRequest<'_>,
)
    ensures stands { StandsInPart F.format streams.now cumulative limit resets.old resets.new (ResetRequested (request_meaning request.now)) }
    ensures space { HasSpace limit resets.old → HasSpace limit resets.new }
    ensures room { vec_capacity resets.old.named ≤ vec_capacity resets.new.named }
{
    let result = result_of(streams.len(), cumulative, request);
    if resets.is_in_turn(request.number) {
        act(resets, streams, request, result);
    }
    resets.answer(limit, request.number, result);
}

/// Handles a request of another kind, with this number: it is denied.
fn on_other(resets: &mut Resets, limit: u16, number: u32)
    ensures denied { (f : Format) (v : ReceiverView) → KeepsResets f (Some (resets_of resets.old)) v.initial v.streams v.taken v.resets → HasSpace limit resets.old
        → KeepsResets f (Some (resets_of resets.new)) v.initial v.streams v.taken (answered limit v number (answer_in_turn v number Denied) (denied v number)).resets }
    ensures space { HasSpace limit resets.old → HasSpace limit resets.new }
    ensures room { vec_capacity resets.old.named ≤ vec_capacity resets.new.named }
{
    if resets.is_in_turn(number) {
        resets.postpone_none(number);
    }
    resets.answer(limit, number, ResetResult::Denied);
}

/// Handles a parameter: a request to reset streams acts, any other request is denied, and all else is skipped.
fn on_parameter<F: Framing>(
    resets: &mut Resets,
    streams: &Vec<Stream<F>>,
    cumulative: u32,
    limit: u16,
    parameter: Parameter<'_>,
)
    ensures stands { StandsInPart F.format streams.now cumulative limit resets.old resets.new (parameter_meaning parameter.entry) }
    ensures space { HasSpace limit resets.old → HasSpace limit resets.new }
    ensures room { vec_capacity resets.old.named ≤ vec_capacity resets.new.named }
{
    match parameter {
        Parameter::Reset(request) => on_reset(resets, streams, cumulative, limit, &request),
        Parameter::OtherRequest { number } => on_other(resets, limit, number),
        Parameter::Response { number: _, code: _ } => {}
        Parameter::Skipped => {}
    }
}

/// Handles a parameter and those after it, one after another.
fn on_parameters<F: Framing>(
    resets: &mut Resets,
    streams: &Vec<Stream<F>>,
    cumulative: u32,
    limit: u16,
    first: Parameter<'_>,
    others: Parameters<'_>,
)
    ensures { StandInPart F.format streams.now cumulative limit resets.old resets.new (parameter_meaning first.entry ∷ others.entry) }
{
    on_parameter(resets, streams, cumulative, limit, first);
    for parameter in others {
        on_parameter(resets, streams, cumulative, limit, parameter);
    }
}

#[tactic(auto, unfolding(crate::specs::StandsFor::StandsFor))]
impl<F: Framing> Receiver<F> {
    /// Handles the requests among the parameters of a RE-CONFIG, one after another (RFC 6525, 5.2): an Outgoing SSN Reset Request is performed, is in progress or
    /// gets an error, any other request is denied, and responses and parameters of other types are skipped. Each response waits for a packet,
    /// if one of `limit` bytes has space for all that wait: else the peer retransmits its request.
    ///
    /// # Errors
    /// Allocation failed, and nothing changed.
    pub fn on_requests(&mut self, limit: u16, parameters: Parameters<'_>) -> Result<(), NoMemory>
        ensures step { (v : ReceiverView) → StandsFor F.format self.old v
            → OnOk result ((c : ℕ) × IsCumulative v c × StandsFor F.format self.new (all_requested limit c v parameters.entry)) }
        ensures refused { (v : ReceiverView) → StandsFor F.format self.old v → OnErr result (StandsFor F.format self.new v) }
    {
        let most = parameters.most_streams();
        let mut others = parameters;
        match first_request(&mut others) {
            Some(first) => self.on_all(limit, most, first, others),
            None => Ok(()),
        }
    }

    /// Handles a request and the parameters after it, of which none lists more than `most` streams.
    ///
    /// # Errors
    /// Allocation failed, and nothing changed.
    fn on_all(
        &mut self,
        limit: u16,
        most: usize,
        first: Parameter<'_>,
        others: Parameters<'_>,
    ) -> Result<(), NoMemory>
        ensures step { (v : ReceiverView) → StandsFor F.format self.old v → ListAtMost most (parameter_meaning first.entry ∷ others.entry)
            → OnOk result ((c : ℕ) × IsCumulative v c × StandsFor F.format self.new (all_requested limit c v (parameter_meaning first.entry ∷ others.entry))) }
        ensures refused { (v : ReceiverView) → StandsFor F.format self.old v → OnErr result (StandsFor F.format self.new v) }
    {
        let count = self.stream_count();
        make_resets(self.alloc, &mut self.resets, self.initial, count)?;
        let cumulative = tsn_of(self.initial, self.seen.cumulative());
        let Some(made) = &mut self.resets else {
            return Ok(());
        };
        let resets: &mut Resets = made;
        resets.reserve(limit, most)?;
        on_parameters(resets, &self.streams, cumulative, limit, first, others);
        Ok(())
    }

    /// The responses that wait for a packet, first to last: `sctp_reconfig::put_response` writes each.
    pub fn answers(&self) -> &[ResetResponse]
        ensures { (v : ReceiverView) → StandsFor F.format self.now v → map response_of result.now ≡ v.resets.answers }
    {
        match &self.resets {
            Some(resets) => &resets.answers,
            None => &[],
        }
    }

    /// Notes that the responses were sent: none waits.
    pub fn answers_sent(&mut self)
        ensures { (v : ReceiverView) → StandsFor F.format self.old v → StandsFor F.format self.new (with_answers v []) }
    {
        if let Some(resets) = &mut self.resets {
            resets.answers.truncate(0);
        }
    }

    /// The sequence number of the peer's last request that is finished: not of one in progress, which is expected again. Before the first, the number before
    /// its initial TSN (the Re-configuration Response Sequence Number of RFC 6525, 4.1).
    pub fn last_finished_request(&self) -> u32
        ensures { (v : ReceiverView) → StandsFor F.format self.now v → result ≡ last_finished v }
    {
        match &self.resets {
            Some(resets) => resets.last_finished(),
            None => tsn_of(self.initial, 0),
        }
    }

    /// Reports a reset of the peer: the lowest stream that was reset, if that wasn't reported since its last reset, and how many of its messages that wait were
    /// delivered before. None exactly if there is none.
    pub fn take_reset(&mut self) -> Option<Reset>
        ensures { (v : ReceiverView) → StandsFor F.format self.old v → MatchOption result
            ((reset_there v ≡ None) × StandsFor F.format self.new v)
            (λ r. (reset_there v ≡ Some r.stream) × (r.count ≡ old_waiting v r.stream) × StandsFor F.format self.new (told_of v r.stream)) }
    {
        match &mut self.resets {
            Some(resets) => resets.take_told(),
            None => None,
        }
    }
}
