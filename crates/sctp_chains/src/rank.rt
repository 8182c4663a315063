//! The position of a fragment in its lane, as one number.

ghost use Rattle.std.specs.Prelude.{◌≡◌};
ghost use Rattle.sctp_chains.specs.Cells.{rank_at};
ghost use Rattle.sctp_chains.specs.Links.{rank_in};

/// A rank as it is stored, in two halves: a 128-bit number would be aligned to 16 bytes.
#[derive(Clone, Copy)]
pub(crate) struct Rank {
    pub(crate) number: u64,
    pub(crate) place: u64,
}

impl Rank {
    /// A rank to be stored.
    pub(crate) fn of(rank: u128) -> Rank
        ensures { rank_in result ≡ rank }
    {
        Rank {
            number: (rank / 18_446_744_073_709_551_616) as u64,
            place: (rank % 18_446_744_073_709_551_616) as u64,
        }
    }

    /// The rank that is stored.
    pub(crate) fn value(self) -> u128
        ensures { result ≡ rank_in self }
    {
        u128::from(self.number) * 18_446_744_073_709_551_616 + u128::from(self.place)
    }
}

/// Of two fragments the one of the lower message number has the lower rank, and within a message the one at the lower place.
pub(crate) fn rank_at(number: Option<u64>, place: u64) -> u128
    ensures { result ≡ rank_at number place }
{
    let key = number.unwrap_or(0);
    u128::from(key) * 18_446_744_073_709_551_616 + u128::from(place)
}
