//! The streams of all channels: made, read and changed.

ghost use Rattle.std.specs.Prelude.{◌≡◌, replicate, IfOk, OnErr};
ghost use Rattle.sctp_channels.specs.Streams.{is_own, no_threshold, fresh_table, stream_at, with_stream, threshold_at, with_threshold};
ghost use Rattle.sctp_channels.specs.Events.{one_on, with_left_over};
ghost use Rattle.sctp_channels.specs.Buffered.{with_thresholds};
ghost use Rattle.sctp_channels.specs.Meanings.{table_meaning};

use crate::span::Span;
use crate::stream::Stream;
use crate::table::{DtlsRole, Table};
use crate::threshold::Threshold;
use sctp_values::NoMemory;
use std::alloc::Global;

impl DtlsRole {
    /// This side opens channels on the stream.
    pub(crate) fn is_own(self, stream: u16) -> bool
        ensures { result ≡ is_own self stream }
    {
        match self {
            DtlsRole::Client => stream % 2 == 0,
            DtlsRole::Server => stream % 2 == 1,
        }
    }
}

impl Table {
    /// So many streams, without a channel.
    ///
    /// # Errors
    /// `NoMemory` if an allocation failed.
    pub(crate) fn new(alloc: Global, role: DtlsRole, count: u16) -> Result<Table, NoMemory>
        ensures { IfOk result (λ table. table_meaning table ≡ fresh_table role count) }
    {
        let mut streams = Vec::with_capacity(alloc, usize::from(count)).map_err(|_| NoMemory)?;
        for _ in 0..count {
            streams.push(Stream::unused()).map_err(|_| NoMemory)?;
        }
        Ok(Table {
            role,
            next: 0,
            streams,
            thresholds: Vec::new(alloc),
            busy: Span::empty(),
            used: Span::empty(),
        })
    }

    /// A stream. One that isn't there has no channel.
    pub(crate) fn at(&self, stream: u16) -> Stream
        ensures { result ≡ stream_at (table_meaning self.now) stream }
    {
        let at = usize::from(stream);
        if at < self.streams.len() {
            self.streams[at]
        } else {
            Stream::unused()
        }
    }

    /// Changes a stream, if it is there.
    pub(crate) fn set(&mut self, stream: u16, to: Stream)
        ensures { table_meaning self.new ≡ with_stream (table_meaning self.old) stream to }
    {
        let at = usize::from(stream);
        if at < self.streams.len() {
            self.streams[at] = to;
            self.busy = self.busy.with(stream, to.is_restless());
            self.used = self.used.with(stream, to.state.has_channel());
        }
    }

    /// The next message is looked for on the streams behind this one, from which one was taken.
    pub(crate) fn turn_past(&mut self, stream: u16)
        ensures { table_meaning self.new ≡ record (table_meaning self.old) { next = one_on stream } }
    {
        self.next = stream.wrapping_add(1);
    }

    /// The low threshold of a stream.
    pub(crate) fn threshold(&self, stream: u16) -> Threshold
        ensures { result ≡ threshold_at (table_meaning self.now) stream }
    {
        let at = usize::from(stream);
        if at < self.thresholds.len() {
            self.thresholds[at]
        } else {
            Threshold::none()
        }
    }

    /// Changes the low threshold of a stream, if there is one.
    pub(crate) fn set_threshold(&mut self, stream: u16, to: Threshold)
        ensures { table_meaning self.new ≡ with_threshold (table_meaning self.old) stream to }
    {
        let at = usize::from(stream);
        if at < self.thresholds.len() {
            self.thresholds[at] = to;
            self.busy = self.busy.with(stream, to.is_above);
        }
    }

    /// Makes a low threshold for each stream, unless they are there.
    ///
    /// # Errors
    /// `NoMemory` if an allocation failed: nothing changed.
    pub(crate) fn make_thresholds(&mut self, alloc: Global) -> Result<(), NoMemory>
        ensures made { IfOk result (λ _. table_meaning self.new ≡ with_thresholds (table_meaning self.old)) }
        ensures refused { OnErr result (table_meaning self.new ≡ table_meaning self.old) }
    {
        if self.thresholds.is_empty() {
            self.thresholds = no_thresholds(alloc, self.streams.len())?;
        }
        Ok(())
    }

    /// A stream is closed: a further reset by the peer is left of it, if there was one.
    pub(crate) fn leave(&mut self, stream: u16)
        ensures { table_meaning self.new ≡ with_left_over (table_meaning self.old) stream }
    {
        let kept = self.at(stream);
        self.set(stream, kept.left_over());
        self.set_threshold(stream, Threshold::none());
    }
}

/// So many low thresholds, none of them set.
///
/// # Errors
/// `NoMemory` if an allocation failed.
fn no_thresholds(alloc: Global, count: usize) -> Result<Vec<Threshold>, NoMemory>
    ensures { IfOk result (λ thresholds. thresholds.items ≡ replicate count no_threshold) }
{
    let mut thresholds = Vec::with_capacity(alloc, count).map_err(|_| NoMemory)?;
    for _ in 0..count {
        thresholds.push(Threshold::none()).map_err(|_| NoMemory)?;
    }
    Ok(thresholds)
}
