//! The resets of the peer's streams (RFC 6525, 5.2). Nothing is allocated before the first request; then three numbers and a bit for each stream, and
//! space for the streams of the longest request.

ghost use Rattle.std.specs.Prelude.{◌≡◌, ◌≤◌, ℕ, ◌-◌, ◌/◌, List, map, replicate, Some, IsSome, IfOk, OnOk, vec_capacity};
ghost use Rattle.sctp_model.specs.messages.Format.{Format};
ghost use Rattle.sctp_model.specs.receiver.Incoming.{Incoming};
ghost use Rattle.sctp_model.specs.receiver.ReceiverView.{Handed, ReceiverView};
ghost use Rattle.sctp_model.specs.receiver.ResetTaken.{answer_in_turn};
ghost use Rattle.sctp_reconfig.specs.Meanings.{result_meaning};
ghost use Rattle.sctp_recv.specs.Requests.{answers_within, answered};
ghost use Rattle.sctp_recv.specs.Resets.{UNRESET, restart_at, restart_in, response_of, resets_of, resets_in, KeepsResets};
ghost use Rattle.sctp_recv.specs.inner.Restarting.{IsFresh, HasTaken, HasSpace, IsForgotten, TakesTold, noted};

use crate::postponed::Postponed;
use crate::ready::Ready;
use crate::restart::{Reset, ResetResponse, Restart};
use sctp_reconfig::ResetResult;
use sctp_serial::tsn_of;
use sctp_values::NoMemory;
use std::alloc::Global;

/// The bytes of a packet with a RE-CONFIG before its parameters: the common header and the chunk's (RFC 9260, 3; RFC 6525, 3.1).
const HEADERS: u16 = 16;
/// The bytes of a response.
const RESPONSE: u16 = 12;

/// What is known of the peer's resets once it made a request.
#[derive(Drop)]
pub(crate) struct Resets {
    /// The sequence number of its last request that was taken.
    pub(crate) last: u32,
    /// The result of that one.
    pub(crate) result: ResetResult,
    /// Each stream.
    pub(crate) streams: Vec<Restart>,
    /// The streams of which a reset wasn't reported to the user.
    pub(crate) told: Ready,
    /// That last request, if it was in progress.
    pub(crate) waited: Option<Postponed>,
    /// Its streams, as it lists them.
    pub(crate) named: Vec<u16>,
    /// The responses that wait for a packet.
    pub(crate) answers: Vec<ResetResponse>,
}

/// The number of responses of which a packet of `limit` bytes has space.
fn most_answers(limit: u16) -> usize
    ensures { result ≡ (limit - 16) / 12 }
{
    usize::from(limit.saturating_sub(HEADERS) / RESPONSE)
}

/// None of the messages of a stream is old any more. It returns how many were.
fn forget_old(streams: &mut Vec<Restart>, stream: u16) -> usize
    ensures count { result ≡ (restart_at streams.old.items stream).old }
    ensures forgotten { IsForgotten stream streams.old.items streams.new.items }
{
    let at = usize::from(stream);
    if at >= streams.len() {
        return 0;
    }
    let restart = streams[at];
    streams[at] = restart.reported();
    restart.old
}

/// So many streams of which nothing is known.
///
/// # Errors
/// Allocation failed.
fn fresh_restarts(alloc: Global, count: u16) -> Result<Vec<Restart>, NoMemory>
    ensures { IfOk result (λ streams. streams.items ≡ replicate count UNRESET) }
{
    let mut streams = Vec::with_capacity(alloc, usize::from(count)).map_err(|_| NoMemory)?;
    for _ in 0..count {
        streams.push(Restart::none()).map_err(|_| NoMemory)?;
    }
    Ok(streams)
}

impl Resets {
    /// Of so many streams nothing is known; `initial` is the peer's initial TSN.
    ///
    /// # Errors
    /// Allocation failed.
    fn new(alloc: Global, initial: u32, count: u16) -> Result<Resets, NoMemory>
        ensures { IfOk result (λ made. IsFresh initial count (resets_of made)) }
    {
        let streams = fresh_restarts(alloc, count)?;
        let told = Ready::new(alloc, count)?;
        Ok(Resets {
            last: tsn_of(initial, 0),
            result: ResetResult::BadNumber,
            streams,
            told,
            waited: None,
            named: Vec::new(alloc),
            answers: Vec::new(alloc),
        })
    }

    /// Reserves memory for as many responses as a packet of `limit` bytes has space for, and for `most` streams of a request.
    ///
    /// # Errors
    /// Allocation failed.
    pub(crate) fn reserve(&mut self, limit: u16, most: usize) -> Result<(), NoMemory>
        ensures same { resets_of self.new ≡ resets_of self.old }
        ensures space { OnOk result (HasSpace limit self.new) }
        ensures room { OnOk result (most ≤ vec_capacity self.new.named) }
    {
        let streams = most.saturating_sub(self.named.len());
        self.named.reserve(streams).map_err(|_| NoMemory)?;
        let more = most_answers(limit).saturating_sub(self.answers.len());
        self.answers.reserve(more).map_err(|_| NoMemory)
    }

    /// What is known of a stream.
    pub(crate) fn restart(&self, stream: u16) -> Restart
        ensures { result ≡ restart_at self.now.streams.items stream }
    {
        match self.streams.get(usize::from(stream)) {
            Some(restart) => *restart,
            None => Restart::none(),
        }
    }

    /// Counts off a message that was taken on a stream.
    fn count_off(&mut self, stream: u16)
        ensures { HasTaken stream (Some (resets_of self.old)) (Some (resets_of self.new)) }
    {
        let at = usize::from(stream);
        if at < self.streams.len() {
            let restart = self.streams[at];
            self.streams[at] = restart.taken();
        }
    }

    /// The lowest stream of which a reset wasn't reported: now it is.
    pub(crate) fn take_told(&mut self) -> Option<Reset>
        ensures { TakesTold (resets_of self.old) (resets_of self.new) result }
    {
        let stream = self.told.next(0)?;
        self.told.mark(stream, false);
        let count = forget_old(&mut self.streams, stream);
        Some(Reset { stream, count })
    }

    /// Appends a response to those that wait, if a packet of `limit` bytes has space for them all.
    fn join(&mut self, limit: u16, response: ResetResponse)
        ensures joined { HasSpace limit self.old → map response_of self.new.answers.items ≡ answers_within limit (map response_of self.old.answers.items) (response_of response) }
        ensures others { resets_of self.new ≡ record (resets_of self.old) { answers = map response_of self.new.answers.items } }
        ensures space { HasSpace limit self.old → HasSpace limit self.new }
        ensures named { self.new.named ≡ self.old.named }
    {
        if self.answers.len() < most_answers(limit) {
            let _ = self.answers.push(response);
        }
    }

    /// Notes a request with this number and this answer, if it is in its turn; its response waits for a packet.
    pub(crate) fn answer(&mut self, limit: u16, number: u32, answer: ResetResult)
        ensures answered { (f : Format) (v : ReceiverView) → KeepsResets f (Some (resets_of self.old)) v.initial v.streams v.taken v.resets → HasSpace limit self.old
            → KeepsResets f (Some (resets_of self.new)) v.initial v.streams v.taken
            (answered limit v number (answer_in_turn v number (result_meaning answer)) (noted v number (result_meaning answer))).resets }
        ensures space { HasSpace limit self.old → HasSpace limit self.new }
        ensures named { self.new.named ≡ self.old.named }
    {
        let result = self.note(number, answer);
        self.join(limit, ResetResponse { number, result });
    }
}

/// What is known of a stream.
#[inline(always)]
pub(crate) fn restart_of(resets: &Option<Box<Resets>>, stream: u16) -> Restart
    ensures { result ≡ restart_in (resets_in resets.now) stream }
{
    match resets {
        Some(resets) => resets.restart(stream),
        None => Restart::none(),
    }
}

/// Counts off a message that was taken on a stream.
pub(crate) fn count_off(resets: &mut Option<Box<Resets>>, stream: u16)
    ensures { HasTaken stream (resets_in resets.old) (resets_in resets.new) }
{
    if let Some(resets) = resets {
        resets.count_off(stream);
    }
}

/// Allocates what is known of resets, if nothing is.
///
/// # Errors
/// Allocation failed.
#[tactic(auto, using(crate::proofs::ResetLemmas::fresh_kept))]
pub(crate) fn make_resets(
    alloc: Global,
    resets: &mut Option<Box<Resets>>,
    initial: u32,
    count: u16,
) -> Result<(), NoMemory>
    ensures same { (f : Format) (taken : ℕ → List Handed) (r : Incoming) → KeepsResets f (resets_in resets.old) initial count taken r → KeepsResets f (resets_in resets.new) initial count taken r }
    ensures made { OnOk result (IsSome resets.new) }
{
    if resets.is_none() {
        *resets = Some(begin(alloc, initial, count)?);
    }
    Ok(())
}

/// Of so many streams nothing is known.
///
/// # Errors
/// Allocation failed.
fn begin(alloc: Global, initial: u32, count: u16) -> Result<Box<Resets>, NoMemory>
    ensures { IfOk result (λ made. IsFresh initial count (resets_of made.value)) }
{
    Box::new(alloc, Resets::new(alloc, initial, count)?).map_err(|_| NoMemory)
}
