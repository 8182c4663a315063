//! The list in blocks, and its readers.

ghost use Rattle.std.specs.Prelude.{◌≡◌, ◌<◌, ◌==◌, [], length, slice_index_or};

use crate::blocks::find;
use std::alloc::Global;
use std::collections::VecDeque;
use std::marker::Model;

/// The most items of a block.
pub(crate) const BLOCK: usize = 512;

/// A list of items. The first block is empty only if there is no other; each further block has an item. `starts` has, for each further block,
/// the number of their items before it, so that a position is found by binary search.
#[derive(Debug, Drop)]
pub struct Sequence<T> {
    pub(crate) count: usize,
    pub(crate) first: VecDeque<T>,
    pub(crate) rest: Vec<VecDeque<T>>,
    pub(crate) starts: Vec<usize>,
    pub(crate) spare: Option<VecDeque<T>>,
}

impl<T> Model for Sequence<T> {
    ghost use Rattle.sctp_sequence.specs.Kept.{SequenceKept, sequence_code};

    ghost Value = { SequenceKept T };

    ghost coded = { sequence_code T.code };

    ghost use Rattle.sctp_sequence.specs.Blocks.{sequence_of, AreBlocks};

    ghost view = { λ s. sequence_of s.count s.first s.rest s.starts s.spare };

    ghost invariant = { λ s. AreBlocks s.count s.first s.rest s.starts s.spare };
}

impl<T> Sequence<T> {
    /// An empty list. Nothing is allocated.
    pub fn new(alloc: Global) -> Sequence<T>
        ensures { result.items ≡ [] }
    {
        Sequence {
            count: 0,
            first: VecDeque::new(alloc),
            rest: Vec::new(alloc),
            starts: Vec::new(alloc),
            spare: None,
        }
    }

    /// The number of items.
    pub fn len(&self) -> usize
        ensures { result ≡ length self.now.items }
    {
        self.count
    }

    /// Whether there is no item.
    pub fn is_empty(&self) -> bool
        ensures { result ≡ (length self.now.items == 0) }
    {
        self.count == 0
    }

    /// The item at a position.
    pub fn get(&self, at: usize) -> &T
        requires { at < length self.now.items }
        ensures { result.now ≡ slice_index_or self.now.items at result.now }
    {
        if at < self.first.len() {
            return &self.first[at];
        }
        let place = find(&self.rest, &self.starts, at - self.first.len());
        &self.rest[place.block][place.offset]
    }
}
