//! Inserting an item into blocks; a full block is split for it.

ghost use Rattle.std.specs.Prelude.{◌≡◌, ◌<◌, ◌≤◌, ◌+◌, ◌^◌, ◌++◌, ◌&&◌, true, length, nat_lt, is_some, IfSome, IsSome, OnOk, IsOk, ◌==◌};
ghost use Rattle.std.specs.List.{insert, AllByRecursion};
ghost use Rattle.std.specs.Vec.{vec_len, vec_capacity};
ghost use Rattle.std.specs.VecDeque.{deque_len, deque_capacity};
ghost use Rattle.sctp_sequence.specs.Blocks.{joined, AreStarts, IsBlock, IsSpare};
ghost use Rattle.sctp_sequence.specs.declared.sequence.TheConstants.{BLOCK};

use crate::blocks::{find_for, raise, recount};
use crate::halving::insert_halving;
use crate::sequence::BLOCK;
use sctp_values::NoMemory;
use std::alloc::Global;
use std::collections::VecDeque;

/// Allocates a spare block, if there is none.
///
/// # Errors
/// Allocation failed.
pub(crate) fn reserve_block<T: Drop>(
    spare: &mut Option<VecDeque<T>>,
    alloc: Global,
) -> Result<(), NoMemory>
    requires { IfSome spare.old IsSpare }
    ensures spare { IfSome spare.new IsSpare }
    ensures there { OnOk result (IsSome spare.new) }
    ensures had { IsSome spare.old → IsOk result }
{
    if spare.is_none() {
        *spare = Some(VecDeque::with_capacity(alloc, BLOCK).map_err(|_| NoMemory)?);
    }
    Ok(())
}

/// Inserts an item into the list's first block, which is full: its later half becomes the first of the further blocks.
pub(crate) fn insert_halving_first<T: Drop>(
    first: &mut VecDeque<T>,
    rest: &mut Vec<VecDeque<T>>,
    starts: &mut Vec<usize>,
    spare: &mut Option<VecDeque<T>>,
    at: usize,
    item: T,
)
    requires at { at ≤ deque_len first.old }
    requires full { deque_len first.old ≡ BLOCK }
    requires blocks { AllByRecursion IsBlock rest.old.items }
    requires spare { IfSome spare.old IsSpare }
    requires there { IsSome spare.old }
    requires each { vec_len starts.old ≡ vec_len rest.old }
    requires room { vec_len rest.old < vec_capacity rest.old }
    requires starts_room { vec_len rest.old < vec_capacity starts.old }
    requires small { length (first.old.items ++ joined rest.old.items) + 1 < 2 ^ 64 }
    ensures items { first.new.items ++ joined rest.new.items ≡ insert first.old.items at item ++ joined rest.old.items }
    ensures first { IsBlock first.new }
    ensures blocks { AllByRecursion IsBlock rest.new.items }
    ensures each { vec_len starts.new ≡ vec_len rest.new }
    ensures starts { AreStarts (vec_len rest.new) starts.new.items rest.new.items }
    ensures spare { IfSome spare.new IsSpare }
{
    if let Some(mut later) = spare.take() {
        insert_halving(first, &mut later, at, item);
        let _ = rest.insert(0, later);
        starts.push_reserved(0);
        recount(rest, starts, 0, 0);
    }
}

/// Inserts an item into one of the further blocks; into the last one if it is appended at the end.
pub(crate) fn insert_later<T: Drop>(
    rest: &mut Vec<VecDeque<T>>,
    starts: &mut Vec<usize>,
    spare: &mut Option<VecDeque<T>>,
    at: usize,
    item: T,
)
    requires at { at ≤ length (joined rest.old.items) }
    requires some { 0 < vec_len rest.old }
    requires blocks { AllByRecursion IsBlock rest.old.items }
    requires each { vec_len starts.old ≡ vec_len rest.old }
    requires starts { AreStarts (vec_len rest.old) starts.old.items rest.old.items }
    requires spare { IfSome spare.old IsSpare }
    requires there { IsSome spare.old }
    requires room { vec_len rest.old < vec_capacity rest.old }
    requires starts_room { vec_len rest.old < vec_capacity starts.old }
    requires small { length (joined rest.old.items) + 1 < 2 ^ 64 }
    ensures items { joined rest.new.items ≡ insert (joined rest.old.items) at item }
    ensures blocks { AllByRecursion IsBlock rest.new.items }
    ensures each { vec_len starts.new ≡ vec_len rest.new }
    ensures starts { AreStarts (vec_len rest.new) starts.new.items rest.new.items }
    ensures spare { IfSome spare.new IsSpare }
{
    let place = find_for(rest, starts, at);
    let block = &mut rest[place.block];
    if block.len() < BLOCK {
        let _ = block.insert(place.offset, item);
        return raise(starts, place.block + 1);
    }
    if let Some(mut later) = spare.take() {
        insert_halving(block, &mut later, place.offset, item);
        let _ = rest.insert(place.block + 1, later);
        starts.push_reserved(0);
        recount(rest, starts, place.block, at - place.offset);
    }
}
