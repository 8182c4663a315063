//! The configurations of a pair whose endpoints aren't alike.

ghost use Rattle.std.specs.Prelude.{◌≡◌, MatchOption};
ghost use Rattle.sctp_events.specs.Alike.{turned_round, AreAcross};

use crate::config::PairConfig;
use sctp_terms::Config;

/// The configurations of the two endpoints of a pair, A's and B's. The port of each is the port of the other's peer.
#[derive(Clone, Copy, Debug, PartialEq, Eq)]
pub struct TwoConfigs {
    a: Config,
    b: Config,
    ghost across: { AreAcross a b },
}

impl TwoConfigs {
    ghost use Rattle.std.specs.Prelude.{◌≡◌, MatchOption};
    ghost use Rattle.sctp_events.specs.Alike.{turned_round, AreAcross};

    /// These two configurations. None if a port isn't that of the other's peer.
    pub fn of(a: Config, b: Config) -> Option<TwoConfigs>
        ensures { MatchOption result (AreAcross a b → ⊥) (λ two. (two.a ≡ a) × (two.b ≡ b)) }
    {
        if b.own_port() == a.peer_port() && b.peer_port() == a.own_port() {
            Some(TwoConfigs { a, b })
        } else {
            None
        }
    }

    /// The configurations of a pair whose endpoints are alike.
    pub fn alike(config: PairConfig) -> TwoConfigs
        ensures { (result.a ≡ config.a) × (result.b ≡ turned_round config.a) }
    {
        TwoConfigs {
            a: config.caller(),
            b: config.listener(),
        }
    }

    /// The configuration of endpoint A, the caller.
    pub fn caller(&self) -> Config
        ensures { result ≡ self.now.a }
    {
        self.a
    }

    /// The configuration of endpoint B, the listener.
    pub fn listener(&self) -> Config
        ensures { result ≡ self.now.b }
    {
        self.b
    }
}
