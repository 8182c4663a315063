//! Removing an item from blocks; a block that becomes empty is dropped.

ghost use Rattle.std.specs.Prelude.{◌≡◌, ◌^◌, ◌<◌, ◌≤◌, ◌++◌, length, slice_index_or, IfSome, IsSome};
ghost use Rattle.std.specs.List.{remove, AllByRecursion};
ghost use Rattle.std.specs.Vec.{vec_len, vec_capacity};
ghost use Rattle.std.specs.VecDeque.{deque_len, deque_capacity};
ghost use Rattle.sctp_sequence.specs.Blocks.{joined, AreStarts, IsBlock};
ghost use Rattle.sctp_sequence.specs.declared.sequence.TheConstants.{BLOCK};

use crate::blocks::{find, lower, recount};
use std::collections::VecDeque;

/// If the first block is empty, the next becomes the first. It is inlined, since items are removed one after another and it mostly isn't.
#[inline(always)]
pub(crate) fn move_up<T: Drop>(
    first: &mut VecDeque<T>,
    rest: &mut Vec<VecDeque<T>>,
    starts: &mut Vec<usize>,
)
    requires blocks { AllByRecursion IsBlock rest.old.items }
    requires each { vec_len starts.old ≡ vec_len rest.old }
    requires starts { AreStarts (vec_len rest.old) starts.old.items rest.old.items }
    requires small { length (joined rest.old.items) < 2 ^ 64 }
    requires wide { 0 < vec_len rest.old → BLOCK ≤ deque_capacity first.old }
    ensures items { first.new.items ++ joined rest.new.items ≡ first.old.items ++ joined rest.old.items }
    ensures blocks { AllByRecursion IsBlock rest.new.items }
    ensures some { 0 < vec_len rest.new → 0 < deque_len first.new }
    ensures short { deque_len first.old ≤ BLOCK → deque_len first.new ≤ BLOCK }
    ensures wide { BLOCK ≤ deque_capacity first.old → BLOCK ≤ deque_capacity first.new }
    ensures alone { vec_len rest.old ≡ 0 → first.new ≡ first.old }
    ensures each { vec_len starts.new ≡ vec_len rest.new }
    ensures starts { AreStarts (vec_len rest.new) starts.new.items rest.new.items }
    ensures len { vec_len rest.new ≤ vec_len rest.old }
    ensures capacity { vec_capacity rest.new ≡ vec_capacity rest.old }
    ensures starts_capacity { vec_capacity starts.new ≡ vec_capacity starts.old }
{
    if first.is_empty() && !rest.is_empty() {
        *first = rest.remove(0);
        let _ = starts.pop();
        recount(rest, starts, 0, 0);
    }
}

/// Removes the item that has the position `at` among those of the blocks, and returns it.
pub(crate) fn remove_later<T: Drop>(
    rest: &mut Vec<VecDeque<T>>,
    starts: &mut Vec<usize>,
    at: usize,
) -> Option<T>
    requires at { at < length (joined rest.old.items) }
    requires blocks { AllByRecursion IsBlock rest.old.items }
    requires each { vec_len starts.old ≡ vec_len rest.old }
    requires starts { AreStarts (vec_len rest.old) starts.old.items rest.old.items }
    requires small { length (joined rest.old.items) < 2 ^ 64 }
    ensures there { IsSome result }
    ensures value { IfSome result (λ item. item ≡ slice_index_or (joined rest.old.items) at item) }
    ensures items { joined rest.new.items ≡ remove (joined rest.old.items) at }
    ensures blocks { AllByRecursion IsBlock rest.new.items }
    ensures each { vec_len starts.new ≡ vec_len rest.new }
    ensures starts { AreStarts (vec_len rest.new) starts.new.items rest.new.items }
    ensures len { vec_len rest.new ≤ vec_len rest.old }
    ensures capacity { vec_capacity rest.new ≡ vec_capacity rest.old }
    ensures starts_capacity { vec_capacity starts.new ≡ vec_capacity starts.old }
{
    let place = find(rest, starts, at);
    let block = &mut rest[place.block];
    let item = block.remove(place.offset);
    if block.is_empty() {
        let _ = rest.remove(place.block);
        let _ = starts.pop();
        recount(rest, starts, place.block, at - place.offset);
    } else {
        lower(starts, place.block + 1);
    }
    item
}
