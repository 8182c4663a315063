//! Memory of messages that the user returned, reused for the data of the next ones. It doesn't affect what is kept or delivered.
//!
//! Memory is kept message by message, the last one returned first to be used: at most as many as waited at once, as far as they were counted, since the
//! first one was returned, and only as long as their blocks have no more bytes together than are given (a receiver gives the size of its buffer). If of these
//! messages fewer than an eighth wait while twice as many are taken, half of the memory is freed; so a link that fills and drains its window keeps it. `trim`
//! frees all but that of as many as wait. A block is used for data that fits in it and fills at least half of it; one that isn't used is freed. Its bytes
//! are overwritten, which for a block of the same length is a copy and no more. Until a message is returned nothing is allocated for any, and one for which
//! allocation fails is freed.

ghost use Rattle.std.specs.Prelude.{◌≡◌, IfOk, OnOk};

use crate::whole::Fragments;
use sctp_values::NoMemory;
use std::alloc::Global;

/// The blocks of messages that were taken and returned. Until one is returned there are none, and nothing is allocated for any.
#[derive(Drop)]
pub struct Spare {
    /// The messages returned, the last one first to be used.
    messages: Vec<Fragments>,
    /// The bytes of their blocks.
    bytes: usize,
    /// Whether a message was ever returned.
    used: bool,
    /// How many messages wait.
    waiting: usize,
    /// The most that waited at once, since the first one was returned, or half of that: the blocks of no more are kept.
    most: usize,
    /// How many were taken in a row while fewer than an eighth of `most` waited.
    quiet: usize,
}

/// The blocks of so many messages are kept however few wait.
const FEW: usize = 1_024;

impl Spare {
    /// No blocks. Nothing is allocated.
    pub fn new(alloc: Global) -> Spare {
        Spare {
            messages: Vec::new(alloc),
            bytes: 0,
            used: false,
            waiting: 0,
            most: 0,
            quiet: 0,
        }
    }

    /// A copy of these bytes, in the block that was returned last if they fit and fill at least half of it. Else that block is freed, and a new
    /// one is allocated.
    ///
    /// # Errors
    /// Allocation failed.
    #[inline(always)]
    pub fn copy(&mut self, alloc: Global, bytes: &[u8]) -> Result<Vec<u8>, NoMemory>
        ensures { IfOk result (λ block. block.items ≡ bytes.now) }
    {
        if let Some(mut block) = self.block() {
            if suits(block.capacity(), bytes.len()) {
                refill(&mut block, bytes)?;
                return Ok(block);
            }
        }
        Vec::from_slice(alloc, bytes).map_err(|_| NoMemory)
    }

    /// Counts `more` messages that wait: the blocks of as many may be kept, once one was returned. If allocation fails, no more are kept than before.
    #[inline(always)]
    pub fn waits(&mut self, more: usize) {
        self.waiting = self.waiting.saturating_add(more);
        if self.used && self.waiting > self.most {
            self.make_room();
        }
    }

    /// Counts a message that waited and was taken. Of the blocks of many messages half are freed where few of them wait for long.
    #[inline(always)]
    pub fn taken(&mut self) {
        self.waiting = self.waiting.saturating_sub(1);
        if self.most > FEW {
            self.count_quiet();
        }
    }

    /// Counts a message that was taken, if fewer than an eighth wait of those whose blocks are kept. Of twice as many in a row half of the blocks are freed.
    #[inline(never)]
    fn count_quiet(&mut self) {
        if self.waiting >= self.most / 8 {
            self.quiet = 0;
            return;
        }
        self.quiet = self.quiet.saturating_add(1);
        if self.quiet / 2 >= self.most {
            self.halve();
        }
    }

    /// Frees the blocks of all messages but half as many as may be kept.
    #[inline(never)]
    fn halve(&mut self) {
        self.keep(self.most / 2);
    }

    /// Frees the blocks of all messages but of as many as wait, and keeps those of no more.
    pub fn trim(&mut self) {
        self.keep(self.most.min(self.waiting));
    }

    /// Frees the blocks of all messages but so many, and keeps those of no more.
    fn keep(&mut self, most: usize) {
        self.quiet = 0;
        self.most = most;
        for _ in most..self.messages.len() {
            if let Some(parts) = self.messages.pop() {
                self.bytes = self.bytes.saturating_sub(size_of(&parts));
                let_go(parts);
            }
        }
        self.messages.shrink_to(most);
    }

    /// Returns the blocks of a message that was taken. They are kept, unless those of as many are kept as waited at once, or all would have more bytes than
    /// `most_bytes`. Nothing is allocated.
    #[inline(always)]
    pub fn give_back(&mut self, parts: Fragments, most_bytes: u32) {
        self.used = true;
        let bytes = self.bytes.saturating_add(size_of(&parts));
        let most = self.most.min(self.messages.capacity());
        if bytes > most_bytes as usize || self.messages.len() >= most {
            return let_go(parts);
        }
        self.bytes = bytes;
        if !matches!(&parts, Fragments::One(_)) {
            return self.keep_turned(parts);
        }
        self.messages.push_reserved(parts);
    }

    /// Keeps the blocks of a message of several fragments. A function of its own, so that one of a single fragment isn't taken apart.
    #[inline(never)]
    fn keep_turned(&mut self, parts: Fragments) {
        if self.messages.len() >= self.messages.capacity() {
            return let_go(parts);
        }
        match parts {
            Fragments::One(one) => self.messages.push_reserved(Fragments::One(one)),
            Fragments::Many(blocks) => self.messages.push_reserved(in_turn(blocks)),
        }
    }

    /// Reserves memory for the blocks of as many messages as wait, if allocation succeeds.
    fn make_room(&mut self) {
        let more = self.waiting.saturating_sub(self.messages.len());
        if self.messages.reserve(more).is_ok() {
            self.most = self.waiting;
        }
    }

    /// Takes a block of the message that was returned last: that of its first fragment that is left.
    #[inline(always)]
    fn block(&mut self) -> Option<Vec<u8>> {
        let block = match self.messages.pop()? {
            Fragments::One([block]) => block,
            Fragments::Many(mut blocks) => {
                let block = blocks.pop()?;
                if !blocks.is_empty() {
                    self.messages.push_reserved(Fragments::Many(blocks));
                }
                block
            }
        };
        self.bytes = self.bytes.wrapping_sub(block.capacity());
        Some(block)
    }
}

/// Replaces the bytes of a block; it doesn't grow if there were as many.
///
/// # Errors
/// Allocation failed.
#[inline(always)]
fn refill(block: &mut Vec<u8>, bytes: &[u8]) -> Result<(), NoMemory>
    ensures { OnOk result (block.new.items ≡ bytes.now) }
{
    if bytes.len() <= block.len() {
        block.truncate(bytes.len());
        block.copy_from_slice(bytes);
        return Ok(());
    }
    block.clear();
    block.extend_from_slice(bytes).map_err(|_| NoMemory)
}

/// Whether `bytes` bytes fit a block with a capacity of `room`, and fill at least half of it: what they leave is no more. If they don't fit, what they
/// leave, modulo 2^64, is more.
fn suits(room: usize, bytes: usize) -> bool {
    room.wrapping_sub(bytes) <= bytes
}

/// The bytes of a message's blocks, 2^64 - 1 if there are more.
fn size_of(parts: &Fragments) -> usize {
    match parts {
        Fragments::One([block]) => block.capacity(),
        Fragments::Many(blocks) => size_of_blocks(blocks),
    }
}

/// The bytes of these blocks, 2^64 - 1 if there are more.
fn size_of_blocks(blocks: &[Vec<u8>]) -> usize {
    let mut sum: usize = 0;
    for block in blocks {
        sum = sum.saturating_add(block.capacity());
    }
    sum
}

/// A message's blocks in the order in which its first fragment's is used first.
#[inline(never)]
fn in_turn(mut blocks: Vec<Vec<u8>>) -> Fragments {
    blocks.reverse();
    Fragments::Many(blocks)
}

/// Frees a message's blocks. It is a function of its own so that a message that is kept pays nothing for it.
#[inline(never)]
fn let_go(parts: Fragments) {
    let _ = parts;
}
