//! A list of numbers in which the first one up to a bound is found by pages: a page all of whose numbers are above it is skipped at once.

ghost use Rattle.std.specs.Prelude.{◌≡◌, ℕ, ◌<◌, ◌≤◌, ◌++◌, ◌∷◌, [], drop, set, length, slice_index_or, OnOk, IfSome, IfNone};

use crate::giving_back::{give_back, is_roomy, kept_for};
use crate::pages::{PAGE, drop_first, drop_page, first_due, look_at, lower_page};
use sctp_values::NoMemory;
use std::alloc::Global;
use std::collections::VecDeque;
use std::marker::Model;

/// A list of numbers, in pages of 64.
#[derive(Drop)]
pub struct PagedNumbers {
    numbers: VecDeque<u64>,
    // of each page a number that is no more than its own
    leasts: Vec<u64>,
    // one that is no more than any of these
    lowest: u64,
}

impl Model for PagedNumbers {
    ghost use Rattle.std.specs.Prelude.{◌*◌, min};
    ghost use Rattle.std.specs.Vec.{vec_capacity};
    ghost use Rattle.std.specs.VecDeque.{deque_capacity};
    ghost use Rattle.sctp_sequence.specs.Pages.{NumbersKept};

    ghost Value = { NumbersKept };

    ghost use Rattle.sctp_sequence.specs.Pages.{ArePages};

    ghost view = { λ s. record { items = s.numbers.items; capacity = min (deque_capacity s.numbers) (64 * vec_capacity s.leasts) } };

    ghost invariant = { λ s. ArePages s.numbers.items s.leasts.items s.lowest };
}

impl PagedNumbers {
    /// No number. Nothing is allocated.
    pub fn new(alloc: Global) -> PagedNumbers
        ensures { result.items ≡ [] }
    {
        PagedNumbers {
            numbers: VecDeque::new(alloc),
            leasts: Vec::new(alloc),
            lowest: u64::MAX,
        }
    }

    /// How many numbers there are.
    pub fn len(&self) -> usize
        ensures { result ≡ length self.now.items }
    {
        self.numbers.len()
    }

    /// The number at a position.
    pub fn get(&self, at: usize) -> u64
        requires { at < length self.now.items }
        ensures { result ≡ slice_index_or self.now.items at result }
    {
        self.numbers[at]
    }

    /// Allocates memory for one more number.
    ///
    /// # Errors
    /// Allocation failed; the numbers are as they were.
    pub fn reserve(&mut self) -> Result<(), NoMemory>
        ensures items { self.new.items ≡ self.old.items }
        ensures room { OnOk result (length self.new.items < self.new.capacity) }
    {
        self.numbers.reserve(1).map_err(|_| NoMemory)?;
        if self.numbers.len() / PAGE >= self.leasts.capacity() && self.leasts.reserve(1).is_err() {
            return Err(NoMemory);
        }
        Ok(())
    }

    /// Appends a number, for which memory was reserved.
    #[inline(always)]
    pub fn push(&mut self, number: u64)
        requires { length self.old.items < self.old.capacity }
        ensures { self.new.items ≡ self.old.items ++ number ∷ [] }
    {
        let many = self.numbers.len();
        let page = many / PAGE;
        if many % PAGE == 0 {
            self.leasts.push_reserved(number);
            self.lowest = self.lowest.min(number);
        } else if number < self.leasts[page] {
            // Else the page's number is no more, and so that of all isn't.
            self.leasts[page] = number;
            self.lowest = self.lowest.min(number);
        }
        self.numbers.push_back_reserved(number);
    }

    /// Replaces the number at a position.
    pub fn set(&mut self, at: usize, number: u64)
        requires { at < length self.old.items }
        ensures { self.new.items ≡ set self.old.items at number }
    {
        lower_page(&mut self.leasts, at / PAGE, number);
        self.lowest = self.lowest.min(number);
        self.numbers[at] = number;
    }

    /// The first position from this one on of a number up to the bound.
    #[inline(always)]
    pub fn first_upto(&self, from: usize, bound: u64) -> Option<usize>
        ensures above { IfSome result (λ at. from ≤ at) }
        ensures within { IfSome result (λ at. at < length self.now.items) }
        ensures found { IfSome result (λ at. (d : ℕ) → slice_index_or self.now.items at d ≤ bound) }
        ensures before { IfSome result (λ at. (k d : ℕ) → from ≤ k → k < at → bound < slice_index_or self.now.items k d) }
        ensures none { IfNone result ((k d : ℕ) → from ≤ k → k < length self.now.items → bound < slice_index_or self.now.items k d) }
    {
        if bound < self.lowest {
            return None;
        }
        first_due(&self.numbers, &self.leasts, from, bound)
    }

    /// Looks at the pages again that a search up to the bound would look at, so that the next one skips those with no such number. No number
    /// changes.
    #[inline(always)]
    pub fn look_again(&mut self, bound: u64)
        ensures { self.new ≡ self.old }
    {
        if bound < self.lowest {
            return;
        }
        self.lowest = look_at(&self.numbers, &mut self.leasts, bound);
    }

    /// Less than an eighth of the memory is used, if it is for many numbers.
    #[inline(always)]
    pub fn is_roomy(&self) -> bool {
        is_roomy(self.numbers.capacity(), self.numbers.len())
    }

    /// Gives memory back if there is much of it and little is used.
    pub fn give_back(&mut self)
        ensures { self.new.items ≡ self.old.items }
    {
        give_back(&mut self.numbers);
        let pages = self.leasts.len();
        if is_roomy(self.leasts.capacity(), pages) {
            self.leasts.shrink_to(kept_for(pages));
        }
    }

    /// Removes the first page, 64 numbers.
    pub fn drop_page(&mut self)
        requires { 64 ≤ length self.old.items }
        ensures { self.new.items ≡ drop 64 self.old.items }
    {
        drop_first(&mut self.numbers, PAGE);
        drop_page(&mut self.leasts);
    }
}
