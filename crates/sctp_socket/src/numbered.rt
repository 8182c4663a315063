//! Values under numbers that are never given again: associations by their numbers.

ghost use Rattle.std.specs.Prelude.{◌≡◌, ◌+◌, Some, None, IfOk, OnOk, OnErr, option_copied};
ghost use Rattle.sctp_socket.specs.Numbers.{AreGiven, HasNone, Keeps, Puts, next_of, value_of};

use sctp_values::NoMemory;
use std::alloc::Global;
use std::collections::BTreeMap;

/// Values under numbers from 1.
#[derive(Drop)]
pub struct Numbered<E: Drop> {
    pub(crate) values: BTreeMap<u64, E>,
    next: u64,
}

impl<E: Drop> Numbered<E> {
    /// No value.
    pub fn new(alloc: Global) -> Numbered<E>
        ensures empty { HasNone result }
        ensures next { next_of result ≡ 1 }
        ensures given { AreGiven result }
    {
        Numbered {
            values: BTreeMap::new(alloc),
            next: 1,
        }
    }

    /// The number that the next value gets.
    pub fn next(&self) -> u64
        ensures { result ≡ next_of self.now }
    {
        self.next
    }

    /// Keeps a value under the next number, which was never given before.
    ///
    /// # Errors
    /// An allocation failed, or the numbers are used up: nothing changed.
    pub fn insert(&mut self, value: E) -> Result<u64, NoMemory>
        ensures number { IfOk result (λ number. number ≡ next_of self.old) }
        ensures next { OnOk result (next_of self.new ≡ next_of self.old + 1) }
        ensures step { OnOk result (Puts (next_of self.old) (Some value) self.old self.new) }
        ensures anew { AreGiven self.old → IfOk result (λ number. value_of self.old number ≡ None) }
        ensures given { AreGiven self.old → AreGiven self.new }
        ensures refused { OnErr result (Keeps self.old self.new) }
        ensures stays { OnErr result (next_of self.new ≡ next_of self.old) }
    {
        let number = self.next;
        if number == u64::MAX {
            return Err(NoMemory);
        }
        if self.values.insert(number, value).is_err() {
            return Err(NoMemory);
        }
        self.next = number + 1;
        Ok(number)
    }

    /// The value with this number.
    pub fn get(&self, number: u64) -> Option<&E>
        ensures { option_copied result ≡ value_of self.now number }
    {
        self.values.get(&number)
    }

    /// Removes the value with this number; the number isn't given again.
    pub fn remove(&mut self, number: u64) -> Option<E>
        ensures answer { result ≡ value_of self.old number }
        ensures step { Puts number None self.old self.new }
        ensures next { next_of self.new ≡ next_of self.old }
        ensures given { AreGiven self.old → AreGiven self.new }
    {
        self.values.remove(&number)
    }
}
