//! The flags of a chunk's header, a bit each (RFC 9260, 3.2).

ghost use Rattle.std.specs.Prelude.{◌≡◌};
ghost use Rattle.sctp_wire.specs.chunks.Flags.{flag, has_flag};

/// Whether a flag of a header is set.
pub(crate) fn is_set(flags: u8, bit: u8) -> bool
    ensures { result ≡ has_flag flags bit }
{
    flags & bit != 0
}

/// The bit of a flag if it is set, else 0.
pub(crate) fn flag(bit: u8, set: bool) -> u8
    ensures { result ≡ flag bit set }
{
    if set { bit } else { 0 }
}
