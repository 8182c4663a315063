//! The test that asks a pace which user data is missed (RFC 9260, 7.2.4).

ghost use Rattle.std.specs.Prelude.{◌≡◌};

use sctp_congestion::Pacing;
use sctp_send::IndexTest;

/// An index passes if it has its third miss indication by this pace, unless it is acknowledged.
#[derive(Drop)]
pub(crate) struct Missed<'a> {
    pub(crate) pace: &'a Pacing,
}

impl<'a> IndexTest for Missed<'a> {
    ghost use Rattle.sctp_congestion.specs.PaceStands.{missed_at};

    ghost Says = { λ t i. missed_at t.pace.now i };

    #[inline(always)]
    fn passes(&self, index: u64) -> bool {
        self.pace.is_missed(index)
    }
}
