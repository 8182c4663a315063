//! Removing items.

ghost use Rattle.std.specs.Prelude.{◌≡◌, ◌<◌, ◌≤◌, ◌↔◌, [], true, length, drop, slice_index_or, IfNone, IfSome, IsSome, OnSome};
ghost use Rattle.std.specs.List.{remove};

use crate::going::{move_up, remove_later};
use crate::sequence::Sequence;

/// An empty list that had memory for more blocks behind the first one gives it back.
const MANY: usize = 4;

/// It keeps memory for so many items then.
const FEW: usize = 32;

impl<T: Drop> Sequence<T> {
    /// Removes the item at a position, and returns it; None if there is none.
    pub fn remove(&mut self, at: usize) -> Option<T>
        ensures value { IfSome result (λ item. item ≡ slice_index_or self.old.items at item) }
        ensures items { OnSome result (self.new.items ≡ remove self.old.items at) }
        ensures unchanged { IfNone result (self.new.items ≡ self.old.items) }
        ensures variant { IsSome result ↔ (at < length self.old.items) }
        ensures room { self.old.room ≡ true → self.new.room ≡ true }
    {
        if self.count <= at {
            return None;
        }
        let before = self.first.len();
        self.count -= 1;
        if before <= at {
            return remove_later(&mut self.rest, &mut self.starts, at - before);
        }
        let item = self.first.remove(at);
        move_up(&mut self.first, &mut self.rest, &mut self.starts);
        item
    }

    /// Removes the first item, and returns it; None if there is none. It is inlined, since callers remove one after another.
    #[inline(always)]
    pub fn pop_front(&mut self) -> Option<T>
        ensures value { IfSome result (λ item. item ≡ slice_index_or self.old.items 0 item) }
        ensures rest { self.new.items ≡ drop 1 self.old.items }
        ensures variant { IsSome result ↔ (0 < length self.old.items) }
        ensures room { self.old.room ≡ true → self.new.room ≡ true }
    {
        let item = self.first.pop_front();
        if item.is_some() {
            self.count -= 1;
            move_up(&mut self.first, &mut self.rest, &mut self.starts);
        }
        item
    }

    /// Removes all items.
    pub fn clear(&mut self)
        ensures items { self.new.items ≡ [] }
        ensures room { self.old.room ≡ true → self.new.room ≡ true }
    {
        self.count = 0;
        self.first.clear();
        self.rest.clear();
        self.starts.clear();
    }

    /// Gives memory back that an empty list keeps, if it had many blocks: the first one stays, with memory for 32 items, or as it is if a smaller one can't
    /// be allocated. It is inlined, since callers ask after each item that is removed.
    #[inline(always)]
    pub fn give_back(&mut self)
        ensures { self.new.items ≡ self.old.items }
    {
        if self.count == 0 && self.rest.capacity() > MANY {
            self.shrink(FEW);
        }
    }

    /// Gives back all memory that an empty list keeps; of a list with items it gives back none.
    pub fn trim(&mut self)
        ensures { self.new.items ≡ self.old.items }
    {
        if self.count == 0 {
            self.shrink(0);
        }
    }

    /// Gives back the memory of an empty list, but for so many items.
    #[inline(never)]
    fn shrink(&mut self, kept: usize)
        requires { self.old.items ≡ [] }
        ensures { self.new.items ≡ self.old.items }
    {
        self.first.shrink_to(kept);
        self.rest.shrink_to_fit();
        self.starts.shrink_to_fit();
        self.spare = None;
    }
}
