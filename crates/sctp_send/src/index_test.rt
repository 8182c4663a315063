//! Tests of indexes: which fragments are missed is what the caller says, index by index (RFC 9260, 7.2.4).

/// A test of indexes, which count TSNs from 1, the initial TSN.
pub trait IndexTest {
    ghost use Rattle.std.specs.Prelude.{◌≡◌, ℕ, Bool};

    // What it says of each index.
    ghost Says: { Self → ℕ → Bool };

    /// Whether an index passes.
    fn passes(&self, index: u64) -> bool
        ensures { result ≡ Says self.now index };
}

/// The test that each index passes.
pub(crate) struct EachIndex;

impl IndexTest for EachIndex {
    ghost use Rattle.std.specs.Prelude.{true};

    ghost Says = { λ t i. true };

    #[inline(always)]
    fn passes(&self, _index: u64) -> bool {
        true
    }
}
