//! Which extensions an endpoint asks for when it opens an association.

ghost use Rattle.std.specs.Prelude.{◌≡◌};
ghost use Rattle.sctp_terms.specs.Modes.{asked};

use crate::config::Config;

/// The format of user data, DATA or I-DATA, and whether messages may be abandoned (partial reliability).
#[derive(Clone, Copy, Debug, PartialEq, Eq)]
pub enum Mode {
    /// DATA chunks, no message is abandoned (RFC 9260, 3.3.1).
    Data,
    /// DATA chunks, and partial reliability (RFC 3758).
    PartialData,
    /// I-DATA chunks, no message is abandoned (RFC 8260, 2.1).
    IData,
    /// I-DATA chunks, and partial reliability (RFC 8260, 2.3).
    PartialIData,
}

impl Mode {
    /// This configuration, asking also for the extensions of this mode.
    pub fn asked(self, config: Config) -> Config
        ensures { result ≡ asked self config }
    {
        match self {
            Mode::Data => config,
            Mode::PartialData => config.with_partial(),
            Mode::IData => config.with_interleave(),
            Mode::PartialIData => config.with_interleave().with_partial(),
        }
    }
}
