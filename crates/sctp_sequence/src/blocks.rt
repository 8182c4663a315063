//! The position of an item among blocks, and the number of items before each block. The list's first block isn't among these.

ghost use Rattle.std.specs.Prelude.{◌≡◌, ℕ, ◌+◌, ◌-◌, ◌^◌, ◌<◌, ◌≤◌, length, take, slice_index_or};
ghost use Rattle.std.specs.Vec.{vec_len, vec_capacity};
ghost use Rattle.std.specs.VecDeque.{deque_len};
ghost use Rattle.sctp_sequence.specs.Blocks.{joined, AreStarts};

use std::collections::VecDeque;

/// A block, by its index, and a position in it.
#[derive(Clone, Copy)]
pub(crate) struct Place {
    pub(crate) block: usize,
    pub(crate) offset: usize,
}

/// The block and the position in it of the item that has the position `at` among all of them.
pub(crate) fn find<T>(blocks: &Vec<VecDeque<T>>, starts: &Vec<usize>, at: usize) -> Place
    requires each { vec_len starts.now ≡ vec_len blocks.now }
    requires starts { AreStarts (vec_len blocks.now) starts.now.items blocks.now.items }
    requires at { at < length (joined blocks.now.items) }
    ensures block { result.block < vec_len blocks.now }
    ensures offset { (b : _) → result.offset < deque_len (slice_index_or blocks.now.items result.block b) }
    ensures place { at ≡ length (joined (take result.block blocks.now.items)) + result.offset }
{
    find_for(blocks, starts, at)
}

/// The block and the position in it at which an item is inserted so that it gets the position `at` among all of them; at the end that is
/// after the last item of the last block.
pub(crate) fn find_for<T>(blocks: &Vec<VecDeque<T>>, starts: &Vec<usize>, at: usize) -> Place
    requires each { vec_len starts.now ≡ vec_len blocks.now }
    requires starts { AreStarts (vec_len blocks.now) starts.now.items blocks.now.items }
    requires some { 0 < vec_len blocks.now }
    requires at { at ≤ length (joined blocks.now.items) }
    ensures block { result.block < vec_len blocks.now }
    ensures offset { (b : _) → result.offset ≤ deque_len (slice_index_or blocks.now.items result.block b) }
    ensures there { at < length (joined blocks.now.items) → (b : _) → result.offset < deque_len (slice_index_or blocks.now.items result.block b) }
    ensures place { at ≡ length (joined (take result.block blocks.now.items)) + result.offset }
{
    let mut low = 0;
    let mut high = blocks.len();
    while 1 < high - low {
        let middle = low + (high - low) / 2;
        if starts[middle] <= at {
            low = middle;
        } else {
            high = middle;
        }
    }
    Place {
        block: low,
        offset: at - starts[low],
    }
}

/// Adds 1 to the counts from this block on: an item was inserted into the block before it.
pub(crate) fn raise(starts: &mut [usize], from: usize)
    requires { (k d : ℕ) → k < length starts.old → slice_index_or starts.old k d < 2 ^ 64 - 1 }
    ensures len { length starts.new ≡ length starts.old }
    ensures before { (k d : ℕ) → k < from → slice_index_or starts.new k d ≡ slice_index_or starts.old k d }
    ensures later { (k d : ℕ) → from ≤ k → k < length starts.old → slice_index_or starts.new k d ≡ slice_index_or starts.old k d + 1 }
{
    for at in from..starts.len() {
        starts[at] += 1;
    }
}

/// Takes 1 from the counts from this block on: an item was removed from the block before it.
pub(crate) fn lower(starts: &mut [usize], from: usize)
    requires { (k d : ℕ) → from ≤ k → k < length starts.old → 0 < slice_index_or starts.old k d }
    ensures len { length starts.new ≡ length starts.old }
    ensures before { (k d : ℕ) → k < from → slice_index_or starts.new k d ≡ slice_index_or starts.old k d }
    ensures later { (k d : ℕ) → from ≤ k → k < length starts.old → slice_index_or starts.new k d + 1 ≡ slice_index_or starts.old k d }
{
    for at in from..starts.len() {
        starts[at] -= 1;
    }
}

/// Computes the counts from the block `from` on anew, after blocks were added or removed there; `before` items are before that block.
pub(crate) fn recount<T>(
    blocks: &Vec<VecDeque<T>>,
    starts: &mut Vec<usize>,
    from: usize,
    before: usize,
)
    requires each { vec_len starts.old ≡ vec_len blocks.now }
    requires small { length (joined blocks.now.items) < 2 ^ 64 }
    requires starts { AreStarts from starts.old.items blocks.now.items }
    requires before { before ≡ length (joined (take from blocks.now.items)) }
    ensures each { vec_len starts.new ≡ vec_len blocks.now }
    ensures starts { AreStarts (vec_len blocks.now) starts.new.items blocks.now.items }
    ensures capacity { vec_capacity starts.new ≡ vec_capacity starts.old }
{
    let mut count = before;
    for block in from..blocks.len() {
        starts[block] = count;
        count += blocks[block].len();
    }
}
