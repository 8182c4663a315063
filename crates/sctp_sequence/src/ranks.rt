//! The ranks of pairs, in rising order: those with one first number have ranks side by side.

ghost use Rattle.std.specs.Prelude.{◌≡◌, ◌+◌, ◌<◌, length, slice_index_or};
ghost use Rattle.std.specs.List.Sorted.{IsNonDecreasingBy};
ghost use Rattle.sctp_sequence.specs.Pairs.{IsRankFrom, first_of};

use crate::pairs::{Pair, Pairs, key_of};

impl Pairs {
    /// How many pairs there are.
    pub fn len(&self) -> usize
        ensures { result ≡ length self.now.items }
    {
        self.pairs.len()
    }

    /// The pair at a rank.
    pub fn get(&self, rank: usize) -> Pair
        requires { rank < length self.now.items }
        ensures { (p : Pair) → result ≡ slice_index_or self.now.items rank p }
    {
        self.pairs[rank]
    }

    /// How many pairs have a lower first number.
    pub fn rank_from(&self, first: u64) -> usize
        ensures { IsRankFrom first self.now.items result }
    {
        if self.pairs.is_empty() {
            return 0;
        }
        self.rank_of(key_of(Pair { first, second: 0 }))
    }

    /// How many pairs have this first number or a lower one.
    pub fn rank_above(&self, first: u64) -> usize
        ensures rank { IsRankFrom (first + 1) self.now.items result }
        ensures rising { IsNonDecreasingBy first_of self.now.items }
    {
        let len = self.pairs.len();
        match first.checked_add(1) {
            Some(next) => self.rank_from(next),
            None => len,
        }
    }
}
