//! A range of streams, so that calls needn't look at all of them.

ghost use Rattle.std.specs.Prelude.{◌≡◌, ◌≤◌, ◌<◌, ℕ, true};
ghost use Rattle.sctp_channels.specs.inner.Spans.{IsWithin, Fits};

/// Streams from `low` on, below `high`.
#[derive(Clone, Copy, Debug, PartialEq, Eq)]
pub(crate) struct Span {
    pub(crate) low: u16,
    pub(crate) high: u16,
}

impl Span {
    /// No stream.
    pub(crate) fn empty() -> Span
        ensures { (many : ℕ) → Fits result many }
    {
        Span { low: 0, high: 0 }
    }

    /// These streams, and if `joins` this one.
    pub(crate) fn with(self, stream: u16, joins: bool) -> Span
        requires { stream < 65_535 }
        ensures same { (i : ℕ) → IsWithin self i → IsWithin result i }
        ensures more { joins ≡ true → IsWithin result stream }
        ensures fits { (many : ℕ) → stream < many → Fits self many → Fits result many }
    {
        if !joins {
            return self;
        }
        if self.high <= self.low {
            return Span {
                low: stream,
                high: stream + 1,
            };
        }
        Span {
            low: self.low.min(stream),
            high: self.high.max(stream + 1),
        }
    }
}
