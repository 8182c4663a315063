//! The low threshold of a channel's buffered amount.

ghost use Rattle.std.specs.Prelude.{◌≡◌};
ghost use Rattle.sctp_channels.specs.Streams.{no_threshold};
ghost use Rattle.sctp_channels.specs.Buffered.{threshold_of, is_waiting, looked, told_low};

/// What is kept of the low threshold of one channel: 8 bytes.
#[derive(Clone, Copy, Debug, PartialEq, Eq)]
pub(crate) struct Threshold {
    /// The threshold in bytes.
    pub(crate) bytes: u32,
    /// It was set since the channel was opened.
    pub(crate) is_set: bool,
    /// The buffered amount was above it, and no event has told since that it isn't any more.
    pub(crate) is_above: bool,
}

impl Threshold {
    /// None was set.
    pub(crate) fn none() -> Threshold
        ensures { result ≡ no_threshold }
    {
        Threshold {
            bytes: 0,
            is_set: false,
            is_above: false,
        }
    }

    /// One that is set at this buffered amount.
    pub(crate) fn of(bytes: u32, amount: u64) -> Threshold
        ensures { result ≡ threshold_of bytes amount }
    {
        Threshold {
            bytes,
            is_set: true,
            is_above: u64::from(bytes) < amount,
        }
    }

    /// An amount above it would be noted.
    pub(crate) fn is_waiting(self) -> bool
        ensures { result ≡ is_waiting self }
    {
        self.is_set && !self.is_above
    }

    /// After a look at this buffered amount.
    pub(crate) fn looked(self, amount: u64) -> Threshold
        ensures { result ≡ looked amount self }
    {
        Threshold {
            is_above: self.is_above || self.is_set && u64::from(self.bytes) < amount,
            ..self
        }
    }

    /// After the event that the amount is low.
    pub(crate) fn told_low(self) -> Threshold
        ensures { result ≡ told_low self }
    {
        Threshold {
            is_above: false,
            ..self
        }
    }
}
