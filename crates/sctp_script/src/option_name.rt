//! The options of an endpoint, by name.

ghost use Rattle.std.specs.Prelude.{◌≡◌, MatchOption};
ghost use Rattle.sctp_script.specs.Options.{option_word, words_taken};

/// An option of a script's endpoint.
#[derive(Clone, Copy)]
pub enum OptionName {
    Limit,
    Fragment,
    Buffer,
    Streams,
    Mode,
    Delay,
    StandardClosing,
    FastRetransmit,
    CongestionControl,
    RtoMin,
    Reset,
}

impl OptionName {
    /// The option with this name.
    pub fn named(word: &[u8]) -> Option<OptionName>
        ensures { MatchOption result ((o : OptionName) → word.now ≡ option_word o → ⊥) (λ o. word.now ≡ option_word o) }
    {
        match word {
            b"limit" => Some(OptionName::Limit),
            b"fragment" => Some(OptionName::Fragment),
            b"buffer" => Some(OptionName::Buffer),
            b"streams" => Some(OptionName::Streams),
            b"mode" => Some(OptionName::Mode),
            b"delay" => Some(OptionName::Delay),
            b"standard-closing" => Some(OptionName::StandardClosing),
            b"fast-retransmit" => Some(OptionName::FastRetransmit),
            b"congestion-control" => Some(OptionName::CongestionControl),
            b"rto-min" => Some(OptionName::RtoMin),
            b"reset" => Some(OptionName::Reset),
            _ => None,
        }
    }

    /// The number of words after the option's name.
    pub fn arguments(self) -> usize
        ensures { result ≡ words_taken self }
    {
        match self {
            OptionName::Delay
            | OptionName::StandardClosing
            | OptionName::FastRetransmit
            | OptionName::CongestionControl
            | OptionName::Reset => 0,
            OptionName::Limit
            | OptionName::Fragment
            | OptionName::Buffer
            | OptionName::Mode
            | OptionName::RtoMin => 1,
            OptionName::Streams => 2,
        }
    }
}

/// Which endpoints a line of options is for.
#[derive(Clone, Copy)]
pub enum Ends {
    A,
    B,
    Both,
}

impl Ends {
    ghost use Rattle.std.specs.Prelude.{◌≡◌, MatchOption};
    ghost use Rattle.sctp_script.specs.Ends.{ends_word, has_a, has_b};

    /// The endpoints that a word names.
    pub fn named(word: &[u8]) -> Option<Ends>
        ensures { MatchOption result ((x : Ends) → word.now ≡ ends_word x → ⊥) (λ x. word.now ≡ ends_word x) }
    {
        match word {
            b"A" => Some(Ends::A),
            b"B" => Some(Ends::B),
            b"both" => Some(Ends::Both),
            _ => None,
        }
    }

    /// Whether A is one of them.
    pub fn has_a(self) -> bool
        ensures { result ≡ has_a self }
    {
        matches!(self, Ends::A | Ends::Both)
    }

    /// Whether B is one of them.
    pub fn has_b(self) -> bool
        ensures { result ≡ has_b self }
    {
        matches!(self, Ends::B | Ends::Both)
    }
}
