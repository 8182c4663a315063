//! The ranges of streams that calls look at are kept short.

ghost use Rattle.std.specs.Prelude.{◌≡◌, length};
ghost use Rattle.sctp_channels.specs.Streams.{stream_at, threshold_at, first_from};
ghost use Rattle.sctp_channels.specs.Streams as model;
ghost use Rattle.sctp_channels.specs.Events.{is_used};
ghost use Rattle.sctp_channels.specs.Meanings.{table_meaning};
ghost use Rattle.sctp_channels.specs.inner.Spans.{is_busy};

use crate::span::Span;
use crate::table::Table;

impl Table {
    /// The stream is being closed, something of it is due, or its amount was above its threshold.
    #[inline(never)]
    fn is_busy(&self, stream: u16) -> bool
        ensures { result ≡ is_busy (stream_at (table_meaning self.now) stream) (threshold_at (table_meaning self.now) stream) }
    {
        self.at(stream).is_restless() || self.threshold(stream).is_above
    }

    /// Leaves out of `busy` the streams at its ends that aren't. If none is left it ends at 0.
    pub(crate) fn shorten(&mut self)
        ensures { table_meaning self.new ≡ table_meaning self.old }
    {
        self.raise_low();
        self.lower_high();
        self.end_busy();
    }

    /// If `busy` has no stream it ends at 0.
    fn end_busy(&mut self)
        ensures { table_meaning self.new ≡ table_meaning self.old }
    {
        if self.busy.high <= self.busy.low {
            self.busy = Span::empty();
        }
    }

    /// Leaves out of `busy` its lowest streams that aren't.
    fn raise_low(&mut self)
        ensures { table_meaning self.new ≡ table_meaning self.old }
    {
        for _ in self.busy.low..self.busy.high {
            let low = self.busy.low;
            if self.busy.high <= low || self.is_busy(low) {
                return;
            }
            self.busy.low = low + 1;
        }
    }

    /// Leaves out of `busy` its highest streams that aren't.
    fn lower_high(&mut self)
        ensures { table_meaning self.new ≡ table_meaning self.old }
    {
        for _ in self.busy.low..self.busy.high {
            let high = self.busy.high;
            if high <= self.busy.low || self.is_busy(high - 1) {
                return;
            }
            self.busy.high = high - 1;
        }
    }

    /// The lowest stream with a channel. Those below it aren't looked at again.
    pub(crate) fn first_used(&mut self) -> Option<u16>
        ensures same { table_meaning self.new ≡ table_meaning self.old }
        ensures first { let x : model.Table = table_meaning self.old in result ≡ first_from (is_used x) 0 (length x.streams) }
    {
        for stream in self.used.low..self.used.high {
            if self.at(stream).state.has_channel() {
                self.used.low = stream;
                return Some(stream);
            }
        }
        self.used.low = self.used.high;
        None
    }
}
