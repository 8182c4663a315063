//! Pairs of numbers in rising order, so that one is found by binary search.

ghost use Rattle.std.specs.Prelude.{◌≡◌, ◌+◌, ◌^◌, ◌<◌, ◌≤◌, ◌∷◌, [], true, false, List, nat_lt, min, length, slice_index_or, OnOk, OnErr, IsOk};
ghost use Rattle.std.specs.List.{Contains};
ghost use Rattle.sctp_sequence.specs.Pairs.{AreSame, AreSmall, FirstFromAnswer, IsRank, key};
ghost use Rattle.sctp_sequence.specs.declared.pairs.Pair.{Pair};

use crate::giving_back::give_back;
use sctp_values::NoMemory;
use std::alloc::Global;
use std::collections::VecDeque;
use std::marker::Model;

/// Two numbers. A pair is lower than another if its first number is, or if that is the same and its second number is lower.
#[derive(Clone, Copy)]
pub struct Pair {
    /// By it pairs are found.
    pub first: u64,
    /// The other number.
    pub second: u64,
}

/// Pairs, found by their first numbers. One may be there several times.
#[derive(Drop)]
pub struct Pairs {
    pub(crate) pairs: VecDeque<Pair>,
}

impl Model for Pairs {
    ghost use Rattle.std.specs.VecDeque.{deque_capacity};
    ghost use Rattle.sctp_sequence.specs.Pairs.{PairsKept};

    ghost Value = { PairsKept };

    ghost use Rattle.sctp_sequence.specs.Pairs.{AreOrdered};

    ghost view = { λ s. record { items = s.pairs.items; capacity = deque_capacity s.pairs } };

    ghost invariant = { λ s. AreOrdered s.pairs.items };
}

impl Pairs {
    /// No pair. Nothing is allocated.
    pub fn new(alloc: Global) -> Pairs
        ensures { result.items ≡ [] }
    {
        Pairs {
            pairs: VecDeque::new(alloc),
        }
    }

    /// Allocates memory for this many further pairs.
    ///
    /// # Errors
    /// Allocation failed; the pairs are as they were.
    pub fn reserve(&mut self, more: usize) -> Result<(), NoMemory>
        ensures items { self.new.items ≡ self.old.items }
        ensures room { OnOk result (length self.new.items + more ≤ self.new.capacity) }
    {
        self.pairs.reserve(more).map_err(|_| NoMemory)
    }

    /// Allocates memory for this many further pairs, and for no more than them.
    ///
    /// # Errors
    /// Allocation failed; the pairs are as they were.
    pub fn reserve_exact(&mut self, more: usize) -> Result<(), NoMemory>
        ensures items { self.new.items ≡ self.old.items }
        ensures capacity { self.old.capacity ≤ self.new.capacity }
        ensures room { OnOk result (length self.new.items + more ≤ self.new.capacity) }
    {
        self.pairs.reserve_exact(more).map_err(|_| NoMemory)
    }

    /// For how many pairs there is memory.
    pub fn capacity(&self) -> usize
        ensures { result ≡ self.now.capacity }
    {
        self.pairs.capacity()
    }

    /// Gives memory back, but for this many pairs; all of it stays if a smaller block can't be allocated.
    pub fn shrink_to(&mut self, kept: usize)
        ensures items { self.new.items ≡ self.old.items }
        ensures capacity { min kept self.old.capacity ≤ self.new.capacity }
    {
        self.pairs.shrink_to(kept);
    }

    /// Removes all pairs. Their memory stays.
    pub fn clear(&mut self)
        ensures items { self.new.items ≡ [] }
        ensures capacity { self.new.capacity ≡ self.old.capacity }
    {
        self.pairs.clear();
    }

    /// Gives memory back if there is much of it and little is used.
    pub fn give_back(&mut self)
        ensures { self.new.items ≡ self.old.items }
    {
        give_back(&mut self.pairs);
    }

    /// Inserts a pair. It is not inlined, so that a caller's test before it stays small.
    ///
    /// # Errors
    /// Allocation failed; the pairs are as they were.
    #[inline(never)]
    pub fn insert(&mut self, pair: Pair) -> Result<(), NoMemory>
        ensures items { OnOk result (AreSame self.new.items (pair ∷ self.old.items)) }
        ensures unchanged { OnErr result (self.new.items ≡ self.old.items) }
        ensures memory { length self.old.items < self.old.capacity → IsOk result }
        ensures capacity { self.old.capacity ≤ self.new.capacity }
    {
        let rank = self.rank_of(key_of(pair));
        if rank == self.pairs.len() {
            return self.pairs.push_back(pair).map_err(|_| NoMemory);
        }
        self.pairs.insert(rank, pair).map_err(|_| NoMemory)
    }

    /// Inserts a pair for which there is memory. The last one is looked at before others, since most are inserted after it.
    #[inline(always)]
    pub fn insert_reserved(&mut self, pair: Pair)
        requires { length self.old.items < self.old.capacity }
        ensures items { AreSame self.new.items (pair ∷ self.old.items) }
        ensures capacity { self.old.capacity ≤ self.new.capacity }
    {
        if self.are_lower(key_of(pair)) {
            self.pairs.push_back_reserved(pair);
            return;
        }
        let _inserted = self.insert(pair);
    }

    /// All pairs are lower than what has this key.
    #[inline(always)]
    fn are_lower(&self, sought: u128) -> bool
        ensures { result ≡ true → IsRank sought self.now.items (length self.now.items) }
    {
        let len = self.pairs.len();
        if len == 0 || key_of(self.pairs[len - 1]) < sought {
            return true;
        }
        false
    }

    /// Removes a pair, and returns whether it was there. The first one is looked at before others, since it is the one mostly.
    #[inline(always)]
    pub fn remove(&mut self, pair: Pair) -> bool
        ensures gone { result ≡ true → AreSame self.old.items (pair ∷ self.new.items) }
        ensures unchanged { result ≡ false → self.new ≡ self.old }
        ensures there { (ps : List Pair) → AreSame self.old.items ps → Contains ps pair → result ≡ true }
        ensures capacity { self.new.capacity ≡ self.old.capacity }
    {
        if self.is_first(pair) {
            let _ = self.pairs.pop_front();
            return true;
        }
        self.remove_at_rank(pair)
    }

    /// The pair is the first one.
    #[inline(always)]
    fn is_first(&self, pair: Pair) -> bool
        ensures { result ≡ true → (0 < length self.now.items) × (slice_index_or self.now.items 0 pair ≡ pair) }
    {
        if self.pairs.len() == 0 {
            return false;
        }
        let first = self.pairs[0];
        first.first == pair.first && first.second == pair.second
    }

    /// Removes a pair at its rank, and returns whether it was there.
    #[inline(never)]
    fn remove_at_rank(&mut self, pair: Pair) -> bool
        ensures gone { result ≡ true → AreSame self.old.items (pair ∷ self.new.items) }
        ensures unchanged { result ≡ false → self.new ≡ self.old }
        ensures there { (ps : List Pair) → AreSame self.old.items ps → Contains ps pair → result ≡ true }
        ensures capacity { self.new.capacity ≡ self.old.capacity }
    {
        let rank = self.rank_of(key_of(pair));
        if rank >= self.pairs.len() || key_of(self.pairs[rank]) != key_of(pair) {
            return false;
        }
        if rank == 0 {
            let _ = self.pairs.pop_front();
        } else {
            let _ = self.pairs.remove(rank);
        }
        true
    }

    /// The lowest pair whose first number is this one or a higher one.
    #[inline(always)]
    pub fn first_from(&self, first: u64) -> Option<Pair>
        ensures { (ps : List Pair) → AreSame self.now.items ps → FirstFromAnswer first ps result }
    {
        let rank = self.rank_of(key_of(Pair { first, second: 0 }));
        if rank < self.pairs.len() {
            Some(self.pairs[rank])
        } else {
            None
        }
    }

    /// How many pairs are lower than what has this key.
    #[inline(always)]
    pub(crate) fn rank_of(&self, sought: u128) -> usize
        ensures { IsRank sought self.now.items result }
    {
        let len = self.pairs.len();
        if len == 0 || sought <= key_of(self.pairs[0]) {
            return 0;
        }
        if self.are_lower(sought) {
            return len;
        }
        self.rank_among(sought)
    }

    /// The rank by binary search. A function of its own, so that a rank at either end is found cheaply.
    #[inline(never)]
    fn rank_among(&self, sought: u128) -> usize
        ensures { IsRank sought self.now.items result }
    {
        self.pairs.partition_point(
            |one: &Pair| -> bool
                ensures { result ≡ nat_lt (key one.now) sought }
            { key_of(*one) < sought },
        )
    }
}

/// Where a pair is in the order.
pub(crate) fn key_of(pair: Pair) -> u128
    ensures exact { result ≡ key pair }
    ensures small { AreSmall pair }
{
    (u128::from(pair.first) << 64) + u128::from(pair.second)
}
