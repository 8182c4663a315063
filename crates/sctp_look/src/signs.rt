//! The signs and colours of a ladder.

/// The signs of a ladder, each one column wide.
pub(crate) struct Signs {
    /// A lifeline.
    pub(crate) line: &'static str,
    /// A lifeline from which a packet of A leaves.
    pub(crate) from_a: &'static str,
    /// A lifeline from which a packet of B leaves.
    pub(crate) from_b: &'static str,
    /// An arrow, and its heads.
    pub(crate) dash: &'static str,
    pub(crate) to_a: &'static str,
    pub(crate) to_b: &'static str,
    /// An arrow that continues in another row.
    pub(crate) gap: &'static str,
    /// An arrow that never arrives.
    pub(crate) lost: &'static str,
    /// Words that are cut.
    pub(crate) cut: &'static str,
}

/// The signs for terminals with Unicode.
pub(crate) static PLAIN: Signs = Signs {
    line: "│",
    from_a: "├",
    from_b: "┤",
    dash: "─",
    to_a: "◀",
    to_b: "▶",
    gap: "┄",
    lost: "✗",
    cut: "…",
};

/// The signs for terminals with ASCII only.
pub(crate) static ASCII: Signs = Signs {
    line: "|",
    from_a: "|",
    from_b: "|",
    dash: "-",
    to_a: "<",
    to_b: ">",
    gap: ".",
    lost: "x",
    cut: "~",
};

/// The meaning of a part of a ladder, which determines its colour.
#[derive(Clone, Copy)]
pub(crate) enum Tone {
    /// Normal.
    Quiet,
    /// A state that begins.
    State,
    /// Lost, dropped or refused.
    Loss,
    /// From a third party, or arriving again.
    Strange,
}

impl Tone {
    /// The sequence that begins the colour in a terminal, empty for none.
    pub(crate) fn begin(self) -> &'static str {
        match self {
            Tone::Quiet => "",
            Tone::State => "\x1b[32m",
            Tone::Loss => "\x1b[31m",
            Tone::Strange => "\x1b[33m",
        }
    }

    /// The sequence that ends the colour.
    pub(crate) fn end(self) -> &'static str {
        match self {
            Tone::Quiet => "",
            Tone::State | Tone::Loss | Tone::Strange => "\x1b[0m",
        }
    }
}
