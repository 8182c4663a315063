//! What is kept of all streams.

ghost use Rattle.std.specs.Prelude.{◌≤◌, length};
ghost use Rattle.sctp_channels.specs.inner.Spans.{Fits, AreBusyWithin, AreUsedWithin};

use crate::span::Span;
use crate::stream::Stream;
use crate::threshold::Threshold;

/// The role in the DTLS handshake: it says which streams this side opens channels on (RFC 8832, 6).
#[derive(Clone, Copy, Debug, PartialEq, Eq)]
pub enum DtlsRole {
    /// The client: streams with even numbers.
    Client,
    /// The server: streams with odd numbers.
    Server,
}

/// What is kept of all streams.
#[derive(Drop)]
pub(crate) struct Table {
    pub(crate) role: DtlsRole,
    /// The stream from which the next message is looked for.
    pub(crate) next: u16,
    pub(crate) streams: Vec<Stream>,
    /// The low threshold of each stream; none before the first is set.
    pub(crate) thresholds: Vec<Threshold>,
    /// Each stream that is being closed, of which something is due, or whose amount was above its threshold, is among these. Where there is none it
    /// mostly ends at 0, which is all that is looked at then.
    pub(crate) busy: Span,
    /// Each stream with a channel is among these.
    pub(crate) used: Span,
    ghost few: { length streams.items ≤ 65_535 },
    ghost no_more: { length thresholds.items ≤ length streams.items },
    ghost busy_fits: { Fits busy (length streams.items) },
    ghost used_fits: { Fits used (length streams.items) },
    ghost are_busy: { AreBusyWithin busy streams.items thresholds.items },
    ghost are_used: { AreUsedWithin used streams.items },
}
