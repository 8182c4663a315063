//! COOKIE ECHO: returns the listener's cookie (RFC 9260, 3.3.11).
//!
//! | at | size | field |
//! |---|---|---|
//! | 0 | any | cookie |

ghost use Rattle.std.specs.Prelude.{◌↔◌, IsTrue};
ghost use Rattle.sctp_model.specs.wire.Chunk as meaning;
ghost use Rattle.sctp_wire.specs.Layouts.{Fits};

use crate::codes::LONGEST_VALUE;

/// Whether the length fits 16 bits.
pub(crate) fn cookie_echo_fits(cookie: &[u8]) -> bool
    ensures { IsTrue result ↔ Fits (meaning.CookieEcho cookie.now) }
{
    cookie.len() <= LONGEST_VALUE
}
