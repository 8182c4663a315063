//! SHUTDOWN: no more data is sent, and all TSNs up to one were received (RFC 9260, 3.3.8).
//!
//! | at | size | field |
//! |---|---|---|
//! | 0 | 4 | cumulative TSN |

ghost use Rattle.std.specs.Prelude.{◌≡◌, ◌↔◌, IsTrue};
ghost use Rattle.sctp_model.specs.wire.Chunk as meaning;
ghost use Rattle.sctp_wire.specs.Layouts.{Fits};
ghost use Rattle.sctp_wire.specs.chunks.Shutdown.{is_shutdown_value};

/// A SHUTDOWN always fits: its TSN has 32 bits.
pub(crate) fn shutdown_fits(cumulative: u32) -> bool
    ensures { IsTrue result ↔ Fits (meaning.Shutdown cumulative) }
{
    let _cumulative = cumulative;
    true
}

/// Whether a value is a TSN alone.
pub(crate) fn is_shutdown(value: &[u8]) -> bool
    ensures { result ≡ is_shutdown_value value.now }
{
    value.len() == 4
}
