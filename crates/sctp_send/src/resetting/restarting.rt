//! What a response leaves of the table of resets (RFC 6525, 5.2.7).

ghost use Rattle.std.specs.Prelude.{◌≡◌, ℕ, ◌<◌, if◌then◌else◌, filter, Some, None, slice_get};
ghost use Rattle.std.specs.Vec.{vec_capacity};
ghost use Rattle.sctp_model.specs.messages.Format.{Lane};
ghost use Rattle.sctp_model.specs.sender.Outgoing as model;
ghost use Rattle.sctp_model.specs.sender.Outgoing.{Outgoing, lists};
ghost use Rattle.sctp_model.specs.sender.Resetting.{set_to};
ghost use Rattle.sctp_send.specs.ResetsKept.{AreResets, is_resetting_in};
ghost use Rattle.sctp_send.specs.inner.Resetting.{all_changed, begun_anew, restarted_by, number_from, refused_by};
ghost use Rattle.sctp_send.specs.PartsKept.{changed_at};

use crate::kept::resets::{OutgoingResets, ResetTable, Sending, StreamReset, is_resetting_at};
use crate::kept::track::Track;
use crate::resetting::table::set_sending;

impl OutgoingResets {
    /// The streams of the request that waits are reset: what these tracks count is 0 on the wire from now on.
    pub(crate) fn restart(&mut self, tracks: &[Track])
        ensures { (n : ℕ) (x : Outgoing) (q : model.Request) (count : Lane → ℕ) → AreResets n self.old x → x.pending ≡ Some q → ((l : Lane) → l.stream < n → number_from tracks.now l ≡ count l)
            → AreResets n self.new (record x { base = λ l. if lists q.streams l.stream then count l else x.base l; sending = set_to model.Sends q x.sending; pending = None }) }
    {
        if let Some(table) = &mut self.table {
            let table = &mut **table;
            if let Some(mut request) = table.last_made.take() {
                restart_all(table, tracks, &request.streams);
                unlist(table);
                request.numbering = None;
                table.last_made = Some(request);
            }
        }
    }

    /// The streams of the request that waits take no messages any more.
    pub(crate) fn refuse(&mut self)
        ensures { (n : ℕ) (x : Outgoing) (q : model.Request) → AreResets n self.old x → x.pending ≡ Some q
            → AreResets n self.new (record x { sending = set_to model.Refuses q x.sending; pending = None }) }
    {
        if let Some(table) = &mut self.table {
            let table = &mut **table;
            if let Some(mut request) = table.last_made.take() {
                refuse_all(table, &request.streams);
                unlist(table);
                request.numbering = None;
                table.last_made = Some(request);
            }
        }
    }
}

/// These streams are reset.
fn restart_all(table: &mut ResetTable, tracks: &[Track], request: &[u16])
    ensures same { table.new ≡ record table.old { streams = table.new.streams } }
    ensures streams { table.new.streams.items ≡ all_changed (restarted_by tracks.now) request.now table.old.streams.items }
{
    for at in 0..request.len() {
        restart_one(table, tracks, request[at]);
    }
}

/// A stream is reset.
fn restart_one(table: &mut ResetTable, tracks: &[Track], stream: u16)
    ensures same { table.new ≡ record table.old { streams = table.new.streams } }
    ensures streams { table.new.streams.items ≡ changed_at (restarted_by tracks.now stream) stream table.old.streams.items }
{
    let at = usize::from(stream);
    if at < table.streams.len() {
        table.streams[at] = begun_anew(tracks, stream);
    }
}

/// What is kept of a stream that is reset: what its track counts is 0 on the wire.
fn begun_anew(tracks: &[Track], stream: u16) -> StreamReset
    ensures { result ≡ begun_anew (slice_get tracks.now stream) }
{
    match tracks.get(usize::from(stream)) {
        Some(track) => StreamReset {
            ordered: track.ordered,
            unordered: track.unordered,
            sending: Sending::Sends,
        },
        None => StreamReset {
            ordered: 0,
            unordered: 0,
            sending: Sending::Sends,
        },
    }
}

/// These streams take no messages any more.
fn refuse_all(table: &mut ResetTable, request: &[u16])
    ensures same { table.new ≡ record table.old { streams = table.new.streams } }
    ensures streams { table.new.streams.items ≡ all_changed refused_by request.now table.old.streams.items }
{
    for at in 0..request.len() {
        set_sending(table, request[at], Sending::Refuses);
    }
}

/// The streams that don't wait for their reset any more leave the list of those that do.
fn unlist(table: &mut ResetTable)
    ensures same { table.new ≡ record table.old { resetting = table.new.resetting } }
    ensures listed { table.new.resetting.items ≡ filter (is_resetting_in table.old.streams.items) table.old.resetting.items }
    ensures capacity { vec_capacity table.new.resetting ≡ vec_capacity table.old.resetting }
{
    keep_waiting(&mut table.resetting, &table.streams);
}

/// Keeps of these streams those that wait for their reset.
fn keep_waiting(resetting: &mut Vec<u16>, streams: &[StreamReset])
    ensures items { resetting.new.items ≡ filter (is_resetting_in streams.now) resetting.old.items }
    ensures capacity { vec_capacity resetting.new ≡ vec_capacity resetting.old }
{
    resetting.retain(
        |stream: &u16| -> bool
            ensures { result ≡ is_resetting_in streams.entry.now stream.now }
        { is_resetting_at(streams, *stream) },
    );
}
