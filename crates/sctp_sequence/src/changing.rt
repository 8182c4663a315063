//! Inserting and replacing items.

ghost use Rattle.std.specs.Prelude.{◌≡◌, ◌<◌, ◌≤◌, ◌++◌, ◌∷◌, [], true, length, slice_index_or, slice_set, OnOk, OnErr, IsOk};
ghost use Rattle.std.specs.List.{insert};

use crate::blocks::find;
use crate::coming::{insert_halving_first, insert_later, reserve_block};
use crate::sequence::{BLOCK, Sequence};
use sctp_values::NoMemory;
use std::mem::replace;

impl<T: Drop> Sequence<T> {
    /// Allocates memory for one more item, wherever it is inserted.
    ///
    /// # Errors
    /// Allocation failed; the items are as they were.
    pub fn reserve(&mut self) -> Result<(), NoMemory>
        ensures items { self.new.items ≡ self.old.items }
        ensures room { OnOk result (self.new.room ≡ true) }
        ensures had { self.old.room ≡ true → IsOk result }
    {
        if self.rest.is_empty() && self.first.len() < BLOCK {
            return self.first.reserve(1).map_err(|_| NoMemory);
        }
        if self.count == usize::MAX {
            return Err(NoMemory);
        }
        let alloc = *self.first.allocator();
        reserve_block(&mut self.spare, alloc)?;
        self.rest.reserve(1).map_err(|_| NoMemory)?;
        self.starts.reserve(1).map_err(|_| NoMemory)
    }

    /// Inserts an item at a position, before the item that is there. Memory for it was reserved.
    pub fn insert_reserved(&mut self, at: usize, item: T)
        requires at { at ≤ length self.old.items }
        requires room { self.old.room ≡ true }
        ensures { self.new.items ≡ insert self.old.items at item }
    {
        self.count += 1;
        let before = self.first.len();
        if before <= at && !self.rest.is_empty() {
            return insert_later(
                &mut self.rest,
                &mut self.starts,
                &mut self.spare,
                at - before,
                item,
            );
        }
        if before < BLOCK {
            if at == before {
                return self.first.push_back_reserved(item);
            }
            let _ = self.first.insert(at, item);
            return;
        }
        insert_halving_first(
            &mut self.first,
            &mut self.rest,
            &mut self.starts,
            &mut self.spare,
            at,
            item,
        );
    }

    /// Inserts an item at a position, before the item that is there.
    ///
    /// # Errors
    /// Allocation failed; the items are as they were.
    pub fn insert(&mut self, at: usize, item: T) -> Result<(), NoMemory>
        requires { at ≤ length self.old.items }
        ensures items { OnOk result (self.new.items ≡ insert self.old.items at item) }
        ensures unchanged { OnErr result (self.new.items ≡ self.old.items) }
        ensures memory { self.old.room ≡ true → IsOk result }
    {
        self.reserve()?;
        self.insert_reserved(at, item);
        Ok(())
    }

    /// Appends an item at the end.
    ///
    /// # Errors
    /// Allocation failed; the items are as they were.
    pub fn push_back(&mut self, item: T) -> Result<(), NoMemory>
        ensures items { OnOk result (self.new.items ≡ self.old.items ++ item ∷ []) }
        ensures unchanged { OnErr result (self.new.items ≡ self.old.items) }
        ensures memory { self.old.room ≡ true → IsOk result }
    {
        self.reserve()?;
        let end = self.len();
        self.insert_reserved(end, item);
        Ok(())
    }

    /// Replaces the item at a position, and returns the old one.
    pub fn replace(&mut self, at: usize, item: T) -> T
        requires { at < length self.old.items }
        ensures value { result ≡ slice_index_or self.old.items at result }
        ensures items { self.new.items ≡ slice_set self.old.items at item }
        ensures room { self.new.room ≡ self.old.room }
    {
        let before = self.first.len();
        if at < before {
            return replace(&mut self.first[at], item);
        }
        let place = find(&self.rest, &self.starts, at - before);
        let block = &mut self.rest[place.block];
        replace(&mut block[place.offset], item)
    }
}
