//! Containers that know nothing of SCTP: a list stored in blocks; pairs of numbers, found by the first one; a map between numbers that is
//! searched both ways; a list of numbers in which the first one up to a bound is found; and when memory is given back.
//!
//! # `Sequence`: a list in blocks
//!
//! An insertion or a removal in the middle moves the items of one block at most. A [`Sequence`] is used as a `VecDeque` is. As long as it is short
//! it has one block, which grows as a `VecDeque` does; from 512 items on it has several, each of at most 512, and a full one is split in halves
//! when an item is inserted into it, except at the end of the list.
//!
//! A caller sees the list of items and whether there is memory for one more (`specs/Kept`: `items`, `room`); no clause says that there are
//! blocks.
//!
//! | public function | what is promised |
//! |---|---|
//! | [`Sequence::new`] | no items, and no memory allocated |
//! | [`Sequence::len`], [`Sequence::is_empty`], [`Sequence::get`] | the number of items, and the item at a position |
//! | [`Sequence::insert`], [`Sequence::push_back`] | `items`: the item is before the one that was at the position, or at the end; `unchanged`: if allocation fails, the list is as it was; `memory`: that can't happen if there was memory for one more item |
//! | [`Sequence::reserve`] | allocates memory for one more item, changes no item, and doesn't fail if there was memory already |
//! | [`Sequence::insert_reserved`] | inserts as `insert` does, for a caller that has reserved; it can't fail |
//! | [`Sequence::replace`] | another item at a position, and the old one is returned |
//! | [`Sequence::get_mut`] | `writes_back` (`specs/Lending`): the item at the position is what was last written there, the others and the memory stay; `value`: what it is at first |
//! | [`Sequence::remove`], [`Sequence::pop_front`] | the item at a position, or the first one, is taken out; None if and only if there is none; memory for one more item stays |
//! | [`Sequence::clear`] | no items; memory for one more item stays |
//! | [`Sequence::give_back`], [`Sequence::trim`] | change no item; of an empty list memory is given back, by the first if it had many blocks, by the second all |
//! | [`Sequence::partition_point`] | `partitioned`: how many items at the front satisfy a predicate that none after them satisfies |
//!
//! ## Cost
//!
//! With one block it is a `VecDeque` and one comparison. With more, a position is found by binary search over the number of items before each
//! block; the partition point by binary search over the blocks' first items and then within one block. An insertion or removal moves items of
//! its block alone and adds 1 to, or takes 1 from, the counts of the blocks after it. If a block is added or removed, the counts from there on
//! are computed anew. A full block is split into an empty one that `reserve` has allocated, so no step has to be undone; an item appended at
//! the end begins a block of its own, so a list that grows at its end has full blocks. A block that becomes empty is dropped.
//!
//! ## Representation
//!
//! The items are those of the first block and then of each further one (`joined`, `specs/Blocks`). The invariant is `AreBlocks`: each further
//! block has an item, no block has more than 512, and each has capacity for 512 as soon as there are several, so that an insertion allocates
//! only to split. Kept beside them are the number of items and how many items are before each further block (`AreStarts`); capacity for one
//! count more is part of the memory for one more item.
//!
//! # `Pairs`, `TwoWayMap`, `PagedNumbers`
//!
//! | public function | what is promised |
//! |---|---|
//! | [`Pairs::new`], [`Pairs::reserve`], [`Pairs::insert`], [`Pairs::remove`] | `items`, `gone`: the pairs and one more, or one less, in any order (`AreSame`); `unchanged`, if allocation fails or the pair isn't there; `memory`: `insert` doesn't fail if there was memory for one more; memory stays (`capacity`) |
//! | [`Pairs::insert_reserved`], [`Pairs::reserve_exact`], [`Pairs::capacity`], [`Pairs::shrink_to`], [`Pairs::clear`] | inserts as `insert` does, for a caller that has reserved; memory for a number of pairs more, and for how many there is; all is given back but what a number of pairs take; no pair stays, and the memory does |
//! | [`Pairs::rank_from`], [`Pairs::rank_above`], [`Pairs::get`], [`Pairs::len`] | how many pairs in front have a first number below, or up to, a given one (`IsRankFrom`), with first numbers rising from rank to rank; the pair at a rank, and their number |
//! | [`Pairs::first_from`] | the lowest pair whose first number is a given one or a higher one; None if and only if there is none (`FirstFromAnswer`) |
//! | [`TwoWayMap::new`], [`TwoWayMap::change`] | the map of no value, complete if and only if memory was asked for; that of the values with another one, or none, at a key (`IsMapOf`) |
//! | [`TwoWayMap::first_from`], [`TwoWayMap::key_with`], [`TwoWayMap::are_above`] | of each list of values by key that a complete map is of: the first key from one on with a value (`FirstKeyAnswer`), a key with a given value (`KeyWithAnswer`), whether all values are above one |
//! | [`PagedNumbers::new`], [`PagedNumbers::len`], [`PagedNumbers::get`], [`PagedNumbers::reserve`], [`PagedNumbers::push`], [`PagedNumbers::set`], [`PagedNumbers::drop_page`] | the numbers, as of a `VecDeque` that has lost its first 64 |
//! | [`Pairs::give_back`], [`PagedNumbers::give_back`], [`give_back`] of a `VecDeque`, [`PagedNumbers::is_roomy`] | change no item; if there is memory for more than 128 and less than an eighth of it is used ([`is_roomy`]), all is given back but what twice as many items take, or 64 ([`kept_for`]) |
//! | [`PagedNumbers::first_upto`] | the first position from one on of a number up to a bound; None if and only if there is none. [`PagedNumbers::look_again`] changes nothing but what a search costs |
//!
//! Costs: a pair or a rank is found by binary search, the first and the last one by a comparison; a search among numbers is a comparison if the bound is
//! below all, else one for each page of 64 and one for each number of the pages that may have one; `look_again` makes the pages exact up to a bound.
//!
//! Pairs are in a deque, by rising first number and then second number (`AreOrdered`). A map is two of them, with the key first and with the value
//! first, and incomplete as soon as memory for a pair is refused. Each page has a number that is no more than its own, and so have all (`ArePages`).
//!
//! # What a body may still get away with
//!
//! `reserve`, and so `insert` and `push_back` without memory reserved, may answer [`NoMemory`] although there was some; `give_back` may give nothing
//! back. A map may become incomplete.
#![tactic(auto)]

mod blocks;
mod changing;
mod coming;
mod giving_back;
mod going;
mod halving;
mod lending;
mod paged_numbers;
mod pages;
mod pairs;
mod ranks;
mod removing;
mod searching;
mod sequence;
mod two_way_map;

pub use giving_back::{give_back, is_roomy, kept_for};
pub use paged_numbers::PagedNumbers;
pub use pairs::{Pair, Pairs};
pub use sctp_values::NoMemory;
pub use sequence::Sequence;
pub use two_way_map::TwoWayMap;
