//! The peer's last request, if it was in progress: its sender may retry it with the next sequence number before it learns that it was performed since
//! (RFC 6525, 5.2.7). It is the same if its last TSN and its list of streams are, in their order.

ghost use Rattle.std.specs.Prelude.{◌≡◌, ◌≤◌, ℕ, Some, length, vec_capacity};
ghost use Rattle.sctp_model.specs.messages.Format.{Format};
ghost use Rattle.sctp_model.specs.sender.Outgoing.{are_listed};
ghost use Rattle.sctp_model.specs.wire.Reconfig.{Denied};
ghost use Rattle.sctp_model.specs.receiver.ReceiverView.{ReceiverView};
ghost use Rattle.sctp_model.specs.receiver.ResetTaken.{other_meaning, is_in_progress, was_performed};
ghost use Rattle.sctp_reconfig.specs.Meanings.{request_meaning, result_meaning};
ghost use Rattle.sctp_recv.specs.Resets.{resets_of, KeepsResets};
ghost use Rattle.sctp_recv.specs.inner.Restarting.{done_by, postponed};

use crate::resets::Resets;
use sctp_reconfig::{ResetRequest, ResetResult, Streams};

/// A request that was in progress, without its streams.
#[derive(Clone, Copy)]
pub(crate) struct Postponed {
    /// The last TSN that its sender had assigned.
    pub(crate) last: u32,
    /// Whether it was performed since.
    pub(crate) done: bool,
}

/// Whether a request lists these streams, in their order.
fn is_list(known: &[u16], named: &Streams<'_>) -> bool
    ensures { result ≡ are_listed known.now named.now }
{
    let mut others = named.iter();
    for stream in known {
        match others.next() {
            Some(other) => {
                if other != *stream {
                    return false;
                }
            }
            None => return false,
        }
    }
    others.next().is_none()
}

/// Keeps the streams that a request lists, for which there is capacity.
fn list(known: &mut Vec<u16>, named: &Streams<'_>)
    ensures items { length named.now ≤ vec_capacity known.old → known.new.items ≡ named.now }
    ensures room { vec_capacity known.old ≤ vec_capacity known.new }
{
    known.clear();
    for stream in named.iter() {
        let _ = known.push(stream);
    }
}

impl Resets {
    /// Whether a request was performed before: in progress under one sequence number, performed when it arrived again, and now retried with another one.
    pub(crate) fn was_performed(&self, request: &ResetRequest<'_>) -> bool
        ensures { (f : Format) (v : ReceiverView) → KeepsResets f (Some (resets_of self.now)) v.initial v.streams v.taken v.resets
            → result ≡ was_performed v (request_meaning request.now) }
    {
        match self.waited {
            Some(waited) => {
                waited.done && waited.last == request.last && is_list(&self.named, &request.streams)
            }
            None => false,
        }
    }

    /// Whether a request with this result is performed now or was before.
    fn is_done(&self, request: &ResetRequest<'_>, answer: ResetResult) -> bool
        ensures { (f : Format) (v : ReceiverView) → KeepsResets f (Some (resets_of self.now)) v.initial v.streams v.taken v.resets
            → result ≡ done_by v (request_meaning request.now) (result_meaning answer) }
    {
        match answer {
            ResetResult::Performed => true,
            ResetResult::InProgress => self.was_performed(request),
            _ => false,
        }
    }

    /// Notes what a request in its turn says, with this result: of one that is in progress, and of one that was, and arrived again. There is capacity for
    /// its streams.
    pub(crate) fn postpone(&mut self, request: &ResetRequest<'_>, answer: ResetResult)
        ensures postponed { (f : Format) (v : ReceiverView) → KeepsResets f (Some (resets_of self.old)) v.initial v.streams v.taken v.resets
            → length request.now.streams ≤ vec_capacity self.old.named
            → KeepsResets f (Some (resets_of self.new)) v.initial v.streams v.taken (postponed v (request_meaning request.now) (result_meaning answer)).resets }
        ensures answers { self.new.answers ≡ self.old.answers }
        ensures room { vec_capacity self.old.named ≤ vec_capacity self.new.named }
    {
        if self.is_next(request.number) && !is_in_progress(answer) {
            self.waited = None;
            return;
        }
        let done = self.is_done(request, answer);
        list(&mut self.named, &request.streams);
        self.waited = Some(Postponed {
            last: request.last,
            done,
        });
    }

    /// The same of a request of another kind, which is denied: it lists no stream.
    pub(crate) fn postpone_none(&mut self, number: u32)
        ensures postponed { (f : Format) (v : ReceiverView) → KeepsResets f (Some (resets_of self.old)) v.initial v.streams v.taken v.resets
            → KeepsResets f (Some (resets_of self.new)) v.initial v.streams v.taken (postponed v (other_meaning number) Denied).resets }
        ensures answers { self.new.answers ≡ self.old.answers }
        ensures room { vec_capacity self.old.named ≤ vec_capacity self.new.named }
    {
        if self.is_next(number) {
            self.waited = None;
            return;
        }
        self.named.clear();
        self.waited = Some(Postponed {
            last: 0,
            done: false,
        });
    }
}

/// Whether a result says that the request is in progress.
fn is_in_progress(answer: ResetResult) -> bool
    ensures { result ≡ is_in_progress (result_meaning answer) }
{
    matches!(answer, ResetResult::InProgress)
}
