//! Which keys have values, both numbers: found by key, and by value.

ghost use Rattle.std.specs.Prelude.{◌≡◌, ℕ, ◌<◌, ◌≤◌, ◌∷◌, true, false, List, Option, None, Some, length, replicate, set, IfOk, is_some};
ghost use Rattle.sctp_sequence.specs.Pairs.{AreSame};
ghost use Rattle.sctp_sequence.specs.TwoWays.{value_of, is_complete, IsMapOf, FirstKeyAnswer, KeyWithAnswer};

use crate::pairs::{Pair, Pairs};
use sctp_values::NoMemory;
use std::alloc::Global;

/// Values of keys counted from 0, at most one of each. As soon as memory for a value is refused, the map is incomplete and stays so.
#[derive(Drop)]
pub struct TwoWayMap {
    // each value after its key
    by_key: Pairs,
    // each value before its key
    by_value: Pairs,
    // whether all are there
    is_complete: bool,
}

impl TwoWayMap {
    /// No value: with memory for this many, or an incomplete map, which allocates nothing.
    ///
    /// # Errors
    /// Allocation failed.
    pub fn new(alloc: Global, room: Option<u16>) -> Result<TwoWayMap, NoMemory>
        ensures map { (n : ℕ) → IfOk result (λ made. IsMapOf (replicate n None) made) }
        ensures complete { IfOk result (λ made. is_complete made ≡ is_some room) }
    {
        let mut by_key = Pairs::new(alloc);
        let mut by_value = Pairs::new(alloc);
        let more = match room {
            Some(more) => usize::from(more),
            None => 0,
        };
        by_key.reserve(more)?;
        by_value.reserve(more)?;
        Ok(TwoWayMap {
            by_key,
            by_value,
            is_complete: room.is_some(),
        })
    }

    /// Whether all values are there.
    pub fn is_complete(&self) -> bool
        ensures { result ≡ is_complete self.now }
    {
        self.is_complete
    }

    /// The first key from this one on that has a value, and the value, in a complete map.
    pub fn first_from(&self, key: u64) -> Option<Pair>
        requires { is_complete self.now ≡ true }
        ensures { (values : List (Option ℕ)) → IsMapOf values self.now → FirstKeyAnswer key values result }
    {
        self.by_key.first_from(key)
    }

    /// A key that has this value, in a complete map.
    pub fn key_with(&self, value: u64) -> Option<u64>
        requires { is_complete self.now ≡ true }
        ensures { (values : List (Option ℕ)) → IsMapOf values self.now → KeyWithAnswer value values result }
    {
        match self.by_value.first_from(value) {
            Some(pair) => {
                if pair.first == value {
                    Some(pair.second)
                } else {
                    None
                }
            }
            None => None,
        }
    }

    /// Whether all values are above this one, in a complete map.
    pub fn are_above(&self, value: u64) -> bool
        requires { is_complete self.now ≡ true }
        ensures above { (values : List (Option ℕ)) → IsMapOf values self.now → result ≡ true → (key other : ℕ) → value_of key values ≡ Some other → value < other }
        ensures below { (values : List (Option ℕ)) → IsMapOf values self.now → result ≡ false → (key : ℕ) × (other : ℕ) × (value_of key values ≡ Some other) × (other ≤ value) }
    {
        match self.by_value.first_from(0) {
            Some(pair) => value < pair.first,
            None => true,
        }
    }

    /// A key has this value in place of the one that it had, or none.
    pub fn change(&mut self, key: u64, before: Option<u64>, now: Option<u64>)
        ensures { (values : List (Option ℕ)) → key < length values → value_of key values ≡ before → IsMapOf values self.old → IsMapOf (set values key now) self.new }
    {
        if is_same(before, now) {
            return;
        }
        self.leave(key, before);
        self.enter(key, now);
    }

    /// A key has its value no more, if it had one.
    fn leave(&mut self, key: u64, before: Option<u64>)
        ensures { (values : List (Option ℕ)) → key < length values → value_of key values ≡ before → IsMapOf values self.old → IsMapOf (set values key None) self.new }
    {
        let Some(value) = before else {
            return;
        };
        let _ = self.by_key.remove(Pair {
            first: key,
            second: value,
        });
        let _ = self.by_value.remove(Pair {
            first: value,
            second: key,
        });
    }

    /// A key that had no value has one, or none.
    fn enter(&mut self, key: u64, now: Option<u64>)
        ensures { (values : List (Option ℕ)) → key < length values → value_of key values ≡ None → IsMapOf values self.old → IsMapOf (set values key now) self.new }
    {
        let Some(value) = now else {
            return;
        };
        let is_complete = add(&mut self.by_key, self.is_complete, key, value);
        self.is_complete = add(&mut self.by_value, is_complete, value, key);
    }
}

/// Inserts a pair, where all are there and there is memory for it: whether all are there still.
fn add(pairs: &mut Pairs, is_complete: bool, first: u64, second: u64) -> bool
    ensures kept { result ≡ true → is_complete ≡ true }
    ensures pairs { result ≡ true → AreSame pairs.new.items (record { first = first; second = second } ∷ pairs.old.items) }
{
    is_complete && pairs.insert(Pair { first, second }).is_ok()
}

/// Two values, if there are any, are the same.
fn is_same(one: Option<u64>, other: Option<u64>) -> bool
    ensures { result ≡ true → one ≡ other }
{
    match (one, other) {
        (Some(one), Some(other)) => one == other,
        (None, None) => true,
        (Some(_), None) | (None, Some(_)) => false,
    }
}
