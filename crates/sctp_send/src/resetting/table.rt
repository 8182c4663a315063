//! The table of resets: made by the first reset, and changed by requests and their responses (RFC 6525, 5.1).

ghost use Rattle.std.specs.Prelude.{◌≡◌, ℕ, suc, ◌<◌, ◌≤◌, ◌&&◌, not, nat_lt, min, length, replicate, None, Some, IfOk, OnOk, IsSome};
ghost use Rattle.std.specs.List.{AllByRecursion};
ghost use Rattle.std.specs.Vec.{vec_capacity};
ghost use Rattle.sctp_model.specs.numbers.Limits.{STREAM_LIMIT, REQUEST_LIMIT};
ghost use Rattle.sctp_model.specs.numbers.Lists.{at};
ghost use Rattle.sctp_model.specs.sender.Outgoing as model;
ghost use Rattle.sctp_model.specs.sender.Outgoing.{Outgoing};
ghost use Rattle.sctp_send.specs.PartsKept.{changed_at};
ghost use Rattle.sctp_send.specs.ResetsKept.{AreResets, IsLastMade, is_resetting_in, made_under, numbering_meaning};
ghost use Rattle.sctp_send.specs.declared.kept.resets.Sending.TheVariants.{Sends as SendsNow, Resets as ResetsNow};
ghost use Rattle.sctp_send.specs.inner.Ordering.{before, AreInOrder};
ghost use Rattle.sctp_send.specs.inner.Resetting.{IsFresh, made_of, stream_as, waiting_of};

use crate::kept::request::{Numbering, Request};
use crate::kept::resets::{OutgoingResets, ResetTable, Sending, StreamReset, is_resetting_at};
use sctp_values::{NoMemory, STREAM_LIMIT};
use std::alloc::Global;

impl OutgoingResets {
    /// Makes the table of a number of streams, if there is none.
    ///
    /// # Errors
    /// `NoMemory`.
    pub(crate) fn make(&mut self, alloc: Global, streams: u16) -> Result<(), NoMemory>
        ensures same { (x : Outgoing) → AreResets streams self.old x → AreResets streams self.new x }
        ensures there { OnOk result (IsSome self.new.table) }
    {
        if self.table.is_none() {
            self.table = Some(fresh_table(alloc, streams)?);
        }
        Ok(())
    }

    /// A stream takes no further message, since its reset is asked for.
    pub(crate) fn shut(&mut self, stream: u16)
        ensures { (n : ℕ) (x : Outgoing) → IsSome self.old.table → AreResets n self.old x
            → AreResets n self.new (record x { sending = at x.sending stream model.Resets }) }
    {
        if let Some(table) = &mut self.table {
            let table = &mut **table;
            list_stream(table, stream);
            set_sending(table, stream, Sending::Resets);
        }
    }

    /// A request is made, for these streams, when this index was the last that was assigned. Returns the last one that was made before.
    pub(crate) fn ask(&mut self, last: u64, streams: Vec<u16>) -> Option<Request>
        ensures step { (n : ℕ) (x : Outgoing) → IsSome self.old.table → made_under self.old.table < REQUEST_LIMIT → AllByRecursion (λ s. s < n) streams.items → AreResets n self.old x
            → AreResets n self.new (record x { made = suc x.made; pending = Some (made_of (suc x.made) last streams.items); last_made = Some (made_of (suc x.made) last streams.items) }) }
        ensures before { (n : ℕ) (x : Outgoing) → AreResets n self.old x → IsLastMade n result x }
    {
        match &mut self.table {
            Some(table) => {
                let made = table.made.wrapping_add(1);
                let before = table.last_made.take();
                table.made = made;
                table.last_made = Some(Request {
                    first: made,
                    last,
                    streams,
                    numbering: Some(Numbering::First),
                });
                before
            }
            None => None,
        }
    }

    /// Notes an index of a stream.
    pub(crate) fn note(&mut self, stream: u16, index: u64)
        ensures { (n : ℕ) (x : Outgoing) → AreResets n self.old x → AreResets n self.new x }
    {
        if let Some(table) = &mut self.table {
            note_at(&mut **table, stream, index);
        }
    }

    /// The request that was made last is taken back, with its sequence number; this one was made before.
    pub(crate) fn take_back(&mut self, before: Option<Request>)
        ensures { (n : ℕ) (x : Outgoing) (q : model.Request) → x.pending ≡ None → IsLastMade n before x
            → AreResets n self.old (record x { made = suc x.made; pending = Some q; last_made = Some q }) → AreResets n self.new x }
    {
        if let Some(table) = &mut self.table {
            table.made = table.made.wrapping_sub(1);
            table.last_made = before;
        }
    }

    /// The request that waits has this number, and so many were used.
    pub(crate) fn renumber(&mut self, made: u32, numbering: Numbering)
        ensures { (n : ℕ) (x : Outgoing) (q : model.Request) → AreResets n self.old x → x.pending ≡ Some q
            → AreResets n self.new (record x { made = made; pending = Some (record q { numbering = numbering_meaning numbering }) }) }
    {
        if let Some(table) = &mut self.table {
            table.made = made;
            if let Some(request) = &mut table.last_made {
                request.numbering = Some(numbering);
            }
        }
    }
}

/// The table of streams of which none was reset.
///
/// # Errors
/// `NoMemory`.
fn fresh_table(alloc: Global, streams: u16) -> Result<Box<ResetTable>, NoMemory>
    ensures { IfOk result (λ table. IsFresh streams table.value) }
{
    let all_streams = fresh_streams(alloc, streams)?;
    let resetting = Vec::with_capacity(alloc, usize::from(streams.min(STREAM_LIMIT))).map_err(
        |_| NoMemory,
    )?;
    let hints = vec![in alloc; 0; usize::from(streams)].map_err(|_| NoMemory)?;
    let table = ResetTable {
        streams: all_streams,
        resetting,
        hints,
        made: 0,
        last_made: None,
    };
    Box::new(alloc, table).map_err(|_| NoMemory)
}

/// Streams of which none was reset.
///
/// # Errors
/// `NoMemory`.
fn fresh_streams(alloc: Global, streams: u16) -> Result<Vec<StreamReset>, NoMemory>
    ensures { IfOk result (λ made. made.items ≡ replicate streams (record { ordered = 0; unordered = 0; sending = SendsNow })) }
{
    let mut made = Vec::with_capacity(alloc, usize::from(streams)).map_err(|_| NoMemory)?;
    for _ in 0..streams {
        made.push(StreamReset {
            ordered: 0,
            unordered: 0,
            sending: Sending::Sends,
        })
        .map_err(|_| NoMemory)?;
    }
    Ok(made)
}

/// An index of a stream is noted.
fn note_at(table: &mut ResetTable, stream: u16, index: u64)
    ensures { table.new ≡ record table.old { hints = table.new.hints } }
{
    let at = usize::from(stream);
    if at < table.hints.len() {
        table.hints[at] = index;
    }
}

/// Whether a stream takes messages is changed.
pub(crate) fn set_sending(table: &mut ResetTable, stream: u16, sending: Sending)
    ensures same { table.new ≡ record table.old { streams = table.new.streams } }
    ensures streams { table.new.streams.items ≡ changed_at (stream_as sending) stream table.old.streams.items }
{
    let at = usize::from(stream);
    if at < table.streams.len() {
        table.streams[at].sending = sending;
    }
}

/// Lists a stream whose reset is asked for in its place among those that wait, if it may be listed and isn't yet.
fn list_stream(table: &mut ResetTable, stream: u16)
    ensures same { table.new ≡ record table.old { resetting = table.new.resetting } }
    ensures listed { min (length table.old.streams.items) STREAM_LIMIT ≤ vec_capacity table.old.resetting → table.old.resetting.items ≡ waiting_of table.old.streams.items
        → table.new.resetting.items ≡ waiting_of (changed_at (stream_as ResetsNow) stream table.old.streams.items) }
    ensures capacity { vec_capacity table.old.resetting ≤ vec_capacity table.new.resetting }
{
    if !is_unlisted(&table.streams, stream) {
        return;
    }
    let rank = rank_of(&table.resetting, stream);
    let _listed = table.resetting.insert(rank, stream);
}

/// Whether a stream may be listed and isn't yet.
fn is_unlisted(streams: &[StreamReset], stream: u16) -> bool
    ensures { result ≡ (nat_lt stream (min (length streams.now) STREAM_LIMIT) && not (is_resetting_in streams.now stream)) }
{
    stream < STREAM_LIMIT
        && usize::from(stream) < streams.len()
        && !is_resetting_at(streams, stream)
}

/// How many of the listed streams have lower numbers, by a binary search: they are listed by rising number.
fn rank_of(resetting: &[u16], stream: u16) -> usize
    ensures within { result ≤ length resetting.now }
    ensures rank { AreInOrder (λ s. s) 0 resetting.now → result ≡ before (λ s. s) stream resetting.now }
{
    resetting.partition_point(
        |one: &u16| -> bool
            ensures { result ≡ nat_lt one.now stream }
        { *one < stream },
    )
}
