//! How a chunk or a parameter of an unknown type is treated (RFC 9260, 3.2 and 3.2.1).

ghost use Rattle.std.specs.Prelude.{◌≡◌};
ghost use Rattle.sctp_model.specs.wire.Unknown.{chunk_rule, parameter_rule};
ghost use Rattle.sctp_wire.specs.RuleTree.{rule_meaning};

/// How an unknown type is treated.
#[derive(Clone, Copy, Debug, PartialEq, Eq)]
pub struct Rule {
    /// What follows it isn't processed: of a chunk the rest of the packet, of a parameter the rest of its chunk.
    pub stop: bool,
    /// It is reported to the peer.
    pub report: bool,
}

/// The rule of a chunk's type, by its two highest bits: 00 stop; 01 stop and report; 10 skip; 11 skip and report.
pub fn unknown_chunk(kind: u8) -> Rule
    ensures { rule_meaning result ≡ chunk_rule kind }
{
    Rule {
        stop: kind < 0x80,
        report: kind / 0x40 % 2 == 1,
    }
}

/// The rule of a parameter's type, by its two highest bits: 00 stop; 01 stop and report; 10 skip; 11 skip and
/// report.
pub fn unknown_parameter(kind: u16) -> Rule
    ensures { rule_meaning result ≡ parameter_rule kind }
{
    Rule {
        stop: kind < 0x8000,
        report: kind / 0x4000 % 2 == 1,
    }
}
