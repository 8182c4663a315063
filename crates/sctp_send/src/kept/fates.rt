//! What became of each ticket: one by one, and of a block of tickets that ended alike for good once for all of them; and how many were abandoned.

ghost use Rattle.std.specs.Prelude.{◌≡◌, ℕ, ◌+◌, ◌%◌, ◌^◌, ◌<◌, ◌≤◌, ◌++◌, ◌∷◌, [], length, set, slice_index_or, OnOk, IfSome};
ghost use Rattle.sctp_send.specs.declared.kept.message.Fate.TheVariants.{Abandoned};

use crate::kept::blocks::{BLOCK, Block, block_of, drop_front, fate_in};
use crate::kept::message::Fate;
use sctp_values::NoMemory;
use std::alloc::Global;
use std::marker::Model;

/// After so many tickets more it is looked at again whether a block is over.
const AGAIN: usize = 256;

/// Memory for no more than so many fates is never given back.
const MANY: usize = 4_096;

/// Memory for at least so many is kept.
const FEW: usize = 256;

/// Fates by ticket, from 1 on.
#[derive(Drop)]
pub(crate) struct Fates {
    // those of the first tickets, of which nothing else is kept
    blocks: Vec<Block>,
    // how many tickets these are
    ended: usize,
    // one by one, those of blocks whose tickets didn't end alike
    mixed: Vec<Fate>,
    // one by one, those of the tickets behind
    recent: Vec<Fate>,
    // how often a ticket's message was abandoned, modulo 2^64
    abandoned: u64,
}

impl Model for Fates {
    ghost use Rattle.std.specs.Prelude.{◌+◌, ◌++◌};
    ghost use Rattle.std.specs.Vec.{vec_capacity};
    ghost use Rattle.sctp_send.specs.PartsKept.{FatesKept};

    ghost Value = { FatesKept };

    ghost use Rattle.sctp_send.specs.inner.FateBlocks.{fates_of, AreFates};

    ghost view = { λ w. record { items = fates_of w.mixed.items w.blocks.items ++ w.recent.items; ended = w.ended; abandoned = w.abandoned; capacity = w.ended + vec_capacity w.recent } };

    ghost invariant = { λ w. AreFates w.ended w.blocks.items w.mixed.items w.recent.items };
}

impl Fates {
    /// Those of no ticket.
    pub(crate) fn new(alloc: Global) -> Fates
        ensures items { result.items ≡ [] }
        ensures ended { result.ended ≡ 0 }
        ensures abandoned { result.abandoned ≡ 0 }
    {
        Fates {
            blocks: Vec::new(alloc),
            ended: 0,
            mixed: Vec::new(alloc),
            recent: Vec::new(alloc),
            abandoned: 0,
        }
    }

    /// How many tickets there are.
    pub(crate) fn len(&self) -> usize
        ensures len { result ≡ length self.now.items }
        ensures ended { self.now.ended ≤ length self.now.items }
    {
        self.ended + self.recent.len()
    }

    /// The fate of a ticket, counted from 0.
    pub(crate) fn get(&self, at: usize) -> Fate
        requires { at < length self.now.items }
        ensures { result ≡ slice_index_or self.now.items at result }
    {
        if at < self.ended {
            fate_in(&self.blocks, &self.mixed, at)
        } else {
            self.recent[at - self.ended]
        }
    }

    /// How often a ticket's message was abandoned, modulo 2^64.
    pub(crate) fn abandoned(&self) -> u64
        ensures { result ≡ self.now.abandoned }
    {
        self.abandoned
    }

    /// Takes room for a ticket more.
    ///
    /// # Errors
    /// `NoMemory`.
    pub(crate) fn reserve(&mut self) -> Result<(), NoMemory>
        ensures items { self.new.items ≡ self.old.items }
        ensures ended { self.new.ended ≡ self.old.ended }
        ensures abandoned { self.new.abandoned ≡ self.old.abandoned }
        ensures room { OnOk result (length self.new.items < self.new.capacity) }
    {
        if self.recent.len() < self.recent.capacity() {
            return Ok(());
        }
        match self.recent.reserve(1) {
            Ok(()) => Ok(()),
            Err(_) => Err(NoMemory),
        }
    }

    /// A ticket comes behind the others.
    pub(crate) fn push(&mut self, fate: Fate)
        requires room { length self.old.items < self.old.capacity }
        requires few { length self.old.items + 1 < 2 ^ 64 }
        ensures items { self.new.items ≡ self.old.items ++ fate ∷ [] }
        ensures ended { self.new.ended ≡ self.old.ended }
        ensures abandoned { self.new.abandoned ≡ self.old.abandoned }
    {
        self.recent.push_reserved(fate);
    }

    /// The fate of a ticket, counted from 0, is this from now on: that of one that is over stands. Abandoned messages aren't counted here (`give_up`).
    pub(crate) fn set(&mut self, at: usize, fate: Fate)
        ensures items { self.old.ended ≤ at → self.new.items ≡ set self.old.items at fate }
        ensures ended { self.new.ended ≡ self.old.ended }
        ensures abandoned { self.new.abandoned ≡ self.old.abandoned }
    {
        if at < self.ended {
            return;
        }
        let place = at - self.ended;
        if place < self.recent.len() {
            self.recent[place] = fate;
        }
    }

    /// The message with a ticket, counted from 0, is abandoned from now on, and counts for one more.
    pub(crate) fn give_up(&mut self, at: usize)
        ensures items { self.old.ended ≤ at → self.new.items ≡ set self.old.items at Abandoned }
        ensures ended { self.new.ended ≡ self.old.ended }
        ensures abandoned { self.new.abandoned ≡ (self.old.abandoned + 1) % 2 ^ 64 }
        ensures few { length self.new.items < 2 ^ 64 }
    {
        self.set(at, Fate::Abandoned);
        self.abandoned = self.abandoned.wrapping_add(1);
    }

    /// It is time to look whether there is a next block, and whether it is over.
    pub(crate) fn is_due(&self) -> bool {
        self.recent.len() % AGAIN == 0
    }

    /// How many blocks may be over.
    pub(crate) fn blocks_left(&self) -> usize {
        self.recent.len() / BLOCK
    }

    /// The last ticket of the next block that may be over.
    pub(crate) fn next_end(&self) -> Option<u64>
        ensures { IfSome result (λ last. last ≡ self.now.ended + 4096) }
    {
        if self.recent.len() < BLOCK {
            return None;
        }
        Some((self.ended + BLOCK) as u64)
    }

    /// Gives memory back of tickets that are over, if less than an eighth of it is used.
    pub(crate) fn give_back(&mut self)
        ensures items { self.new.items ≡ self.old.items }
        ensures ended { self.new.ended ≡ self.old.ended }
        ensures abandoned { self.new.abandoned ≡ self.old.abandoned }
    {
        let (room, used) = (self.recent.capacity(), self.recent.len());
        if room > MANY && used < room / 8 {
            self.recent.shrink_to(used.saturating_mul(2).max(FEW));
        }
    }

    /// The next block of tickets is over, if there is one, and memory for it.
    pub(crate) fn end_block(&mut self)
        ensures items { self.new.items ≡ self.old.items }
        ensures abandoned { self.new.abandoned ≡ self.old.abandoned }
        ensures within { self.new.ended ≤ self.old.ended + 4096 }
        ensures given { self.new.ended ≤ length self.new.items }
    {
        if self.recent.len() < BLOCK {
            return;
        }
        match self.blocks.reserve(1) {
            Ok(()) => {}
            Err(_) => return,
        }
        if let Some(block) = block_of(&self.recent, &mut self.mixed) {
            self.blocks.push_reserved(block);
            drop_front(&mut self.recent);
            self.ended += BLOCK;
        }
    }
}
