//! A chain: fragments that follow one another. Numbers of messages and formats are unknown here; a fragment has a rank. A chain has 80 bytes, and,
//! from its second fragment on, 24 more for each that it has capacity for.

ghost use Rattle.std.specs.Prelude.{◌≡◌, ◌&&◌, true, if◌then◌else◌, OnOk, OnErr};
ghost use Rattle.sctp_chains.specs.Links.{parts_in, chain_of, one_of, is_linked, one_if_whole, join, IsChain};
ghost use Rattle.sctp_chains.specs.inner.Filing.{HasRoom, HasJointRoom, IsOneOf};

use crate::parts::{Parts, put_before, put_behind};
use crate::rank::Rank;
use sctp_values::NoMemory;
use std::alloc::Global;
use std::mem::replace;

/// What the first chunk of a message says of it: its own index, and the payload protocol identifier.
#[derive(Clone, Copy)]
pub(crate) struct Head {
    pub(crate) index: u64,
    pub(crate) payload_id: u32,
}

/// Fragments of consecutive ranks. Only the first may begin a message, and only the last may end one. The order of the fields leaves no byte
/// between them unused: if every other chunk is lost, each that is received is a chain.
#[derive(Drop)]
pub(crate) struct Chain {
    pub(crate) first: Rank,
    /// The message's index, if the chain begins one.
    pub(crate) index: u64,
    /// The message's payload protocol identifier, if the chain begins one.
    pub(crate) payload_id: u32,
    pub(crate) begins: bool,
    pub(crate) ends: bool,
    pub(crate) parts: Parts,
}

/// One fragment, to be filed.
#[derive(Drop)]
pub(crate) struct Part {
    pub(crate) rank: u128,
    pub(crate) data: Vec<u8>,
    pub(crate) head: Option<Head>,
    pub(crate) end: bool,
}

impl Chain {
    /// The rank of its first fragment.
    pub(crate) fn first(&self) -> u128
        ensures { result ≡ (chain_of self.now).first }
    {
        self.first.value()
    }

    /// The rank of its last fragment.
    pub(crate) fn last(&self) -> u128
        ensures { result ≡ (chain_of self.now).last }
    {
        let behind = self.parts.len().saturating_sub(1);
        self.first().saturating_add(behind as u128)
    }

    /// What the chain says of a message, if it begins one.
    pub(crate) fn head(&self) -> Option<Head>
        ensures { result ≡ (chain_of self.now).head }
    {
        if !self.begins {
            return None;
        }
        Some(Head {
            index: self.index,
            payload_id: self.payload_id,
        })
    }

    /// Whether it continues a fragment: it begins right after it, in the same message.
    pub(crate) fn continues(&self, part: &Part) -> bool
        ensures { result ≡ is_linked (one_of part.now) (chain_of self.now) }
    {
        self.first().saturating_sub(part.rank) == 1 && (!part.end && !self.begins)
    }

    /// 1 if it is a complete message, else 0.
    pub(crate) fn whole(&self) -> usize
        ensures { result ≡ one_if_whole (chain_of self.now) }
    {
        one_if(self.ends, self.begins)
    }

    /// Appends a fragment.
    ///
    /// # Errors
    /// Allocation failed, and nothing changed.
    #[inline(always)]
    pub(crate) fn push_back(&mut self, part: Part) -> Result<(), NoMemory>
        ensures joined { IsChain (chain_of self.old) → is_linked (chain_of self.old) (one_of part) ≡ true → OnOk result (chain_of self.new ≡ join (chain_of self.old) (one_of part)) }
        ensures refused { OnErr result (chain_of self.new ≡ chain_of self.old) }
    {
        self.parts.push_back(part.data)?;
        self.ends = part.end;
        Ok(())
    }

    /// Prepends a fragment.
    ///
    /// # Errors
    /// Allocation failed, and nothing changed.
    pub(crate) fn push_front(&mut self, part: Part) -> Result<(), NoMemory>
        ensures joined { IsChain (chain_of self.old) → is_linked (one_of part) (chain_of self.old) ≡ true → OnOk result (chain_of self.new ≡ join (one_of part) (chain_of self.old)) }
        ensures refused { OnErr result (chain_of self.new ≡ chain_of self.old) }
    {
        self.parts.push_front(part.data)?;
        self.first = Rank::of(part.rank);
        self.begin(part.head);
        Ok(())
    }

    /// Reserves memory for a number of further fragments.
    ///
    /// # Errors
    /// Allocation failed.
    pub(crate) fn reserve(&mut self, more: usize) -> Result<(), NoMemory>
        ensures same { chain_of self.new ≡ chain_of self.old }
        ensures parts { parts_in self.new.parts ≡ parts_in self.old.parts }
        ensures room { OnOk result (HasRoom self.new.parts more) }
    {
        self.parts.reserve(more)
    }

    /// Appends a fragment, and another chain after that. The longer of the two has capacity for all of them.
    pub(crate) fn close_gap(&mut self, part: Part, right: Chain)
        requires { HasJointRoom self.old right }
        ensures { IsOneOf (chain_of self.old) (one_of part) (chain_of right) (chain_of self.new) }
    {
        if self.parts.len() < right.parts.len() {
            let left = replace(&mut self.parts, right.parts);
            put_before(&mut self.parts, part.data, left);
        } else {
            put_behind(&mut self.parts, part.data, right.parts);
        }
        self.ends = right.ends;
    }

    /// Sets what it says of a message.
    fn begin(&mut self, head: Option<Head>)
        ensures { chain_of self.new ≡ record (chain_of self.old) { head = head } }
    {
        self.begins = head.is_some();
        if let Some(said) = head {
            self.index = said.index;
            self.payload_id = said.payload_id;
        }
    }
}

impl Part {
    /// Whether it continues a chain: it follows its last fragment, in the same message.
    pub(crate) fn continues(&self, chain: &Chain) -> bool
        ensures { result ≡ is_linked (chain_of chain.now) (one_of self.now) }
    {
        self.rank.saturating_sub(chain.last()) == 1 && (!chain.ends && self.head.is_none())
    }
}

/// 1 if a chain both begins and ends a message, else 0.
pub(crate) fn one_if(ends: bool, begins: bool) -> usize
    ensures { result ≡ (if (ends && begins) then 1 else 0) }
{
    if ends && begins { 1 } else { 0 }
}

/// An empty chain: a placeholder in the list while a chain is taken out of it to be changed. Nothing is allocated.
pub(crate) fn nothing(alloc: Global) -> Chain {
    Chain {
        first: Rank::of(0),
        index: 0,
        payload_id: 0,
        begins: false,
        ends: false,
        parts: Parts::none(alloc),
    }
}

/// A chain of one fragment. Nothing is allocated.
pub(crate) fn alone(part: Part) -> Chain
    ensures { chain_of result ≡ one_of part }
{
    let mut chain = Chain {
        first: Rank::of(part.rank),
        index: 0,
        payload_id: 0,
        begins: false,
        ends: part.end,
        parts: Parts::One(part.data),
    };
    chain.begin(part.head);
    chain
}
