//! Whether two endpoints that are opened without packets agree.

ghost use Rattle.std.specs.Prelude.{◌≡◌, min};
ghost use Rattle.sctp_model.specs.world.World.{is_shared, are_alike};

use sctp_terms::Config;

/// Whether endpoints with these configurations agree if they are opened without packets: on as many streams each way, on the format, and on
/// partial reliability, the reset of streams and zero checksums (RFC 9260, 5.1.1).
pub(crate) fn are_alike(a: &Config, b: &Config) -> bool
    ensures { result ≡ are_alike a.now b.now }
{
    streams(b) == streams(a)
        && is_shared(b.interleave(), a.interleave())
        && is_shared(b.partial(), a.partial())
        && is_shared(b.reset(), a.reset())
        && share_checksums(b, a)
}

/// The number of streams each way of an endpoint that is opened without packets.
fn streams(config: &Config) -> u16
    ensures { result ≡ min config.now.outbound config.now.inbound }
{
    config.outbound().min(config.inbound())
}

/// Whether both accept packets with the checksum 0, or neither: no configuration asks for them.
fn share_checksums(a: &Config, b: &Config) -> bool
    ensures { result ≡ is_shared a.now.zero_checksum b.now.zero_checksum }
{
    // By the clause of `limit` the options of both are plain.
    let _limit = a.limit();
    let _other = b.limit();
    true
}

/// Whether both have an option, or neither.
fn is_shared(a: bool, b: bool) -> bool
    ensures { result ≡ is_shared a b }
{
    if a { b } else { !b }
}
