//! Splitting a full block into two.

ghost use Rattle.std.specs.Prelude.{◌≡◌, ◌<◌, ◌≤◌, ◌++◌};
ghost use Rattle.std.specs.List.{insert};
ghost use Rattle.std.specs.VecDeque.{deque_len, deque_capacity};
ghost use Rattle.sctp_sequence.specs.Blocks.{IsBlock, IsSpare};
ghost use Rattle.sctp_sequence.specs.declared.sequence.TheConstants.{BLOCK};

use crate::sequence::BLOCK;
use std::collections::VecDeque;

/// Moves the later half of a full block to an empty one.
fn halve<T>(block: &mut VecDeque<T>, later: &mut VecDeque<T>)
    requires full { deque_len block.old ≡ BLOCK }
    requires wide { BLOCK ≤ deque_capacity block.old }
    requires spare { IsSpare later.old }
    ensures items { block.new.items ++ later.new.items ≡ block.old.items }
    ensures len { deque_len block.new ≡ 256 }
    ensures later_len { deque_len later.new ≡ 256 }
    ensures capacity { deque_capacity block.new ≡ deque_capacity block.old }
    ensures later_capacity { deque_capacity later.new ≡ deque_capacity later.old }
{
    for _ in 0..BLOCK / 2 {
        if let Some(item) = block.pop_back() {
            later.push_front_reserved(item);
        }
    }
}

/// Splits a full block and inserts an item into the half in which its position is. An item at the end is alone in the later block, so that a
/// list that grows at its end has full blocks.
pub(crate) fn insert_halving<T: Drop>(
    block: &mut VecDeque<T>,
    later: &mut VecDeque<T>,
    at: usize,
    item: T,
)
    requires full { deque_len block.old ≡ BLOCK }
    requires wide { BLOCK ≤ deque_capacity block.old }
    requires spare { IsSpare later.old }
    requires at { at ≤ BLOCK }
    ensures items { block.new.items ++ later.new.items ≡ insert block.old.items at item }
    ensures block { IsBlock block.new }
    ensures later { IsBlock later.new }
{
    if at == BLOCK {
        return later.push_back_reserved(item);
    }
    halve(block, later);
    if at <= block.len() {
        let _ = block.insert(at, item);
    } else {
        let _ = later.insert(at - block.len(), item);
    }
}
