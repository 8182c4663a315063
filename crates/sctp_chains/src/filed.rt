//! The chains of a lane in their order, and how many of them may be complete messages.
//!
//! A search for complete messages looks at the chains within its bounds, and at none as long as no chain can be complete: those that became
//! complete are counted, at least as many as are. If one is, each chain is looked at once: of the first `passed` chains it is known
//! that none is complete, and a search begins after them. So the fragments of one message cost the same however many of its chains are kept,
//! also while later messages are complete and wait.

ghost use Rattle.std.specs.Prelude.{◌≡◌, ◌≤◌, ◌+◌, [], suc, length, map, MatchOption, IfSome, OnSome, OnOk, OnErr};
ghost use Rattle.sctp_chains.specs.Links.{chain_of, one_of, one_if_whole, whole_in, AreChains};
ghost use Rattle.sctp_chains.specs.inner.Filing.{Gains};
ghost use Rattle.sctp_chains.specs.inner.Finding.{AreOpen, IsFirstWhole};
ghost use Rattle.sctp_chains.specs.inner.LettingGo.{LetsGo, Removes};

use crate::chain::{Chain, Part};
use crate::filing::file;
use crate::letting_go::{drop_upto, remove};
use crate::search::{Found, Looked, at_front, first_whole};
use sctp_sequence::Sequence;
use sctp_values::NoMemory;
use std::alloc::Global;

/// Chains in rising order.
#[derive(Drop)]
pub(crate) struct Filed {
    pub(crate) chains: Sequence<Chain>,
    /// How many became complete messages and weren't taken out one by one: at least as many as are complete.
    pub(crate) whole: usize,
    /// How many at the front are known not to be complete, so that a search begins after them.
    pub(crate) passed: usize,
    ghost counted: { whole_in (map chain_of chains.items) ≤ whole },
    ghost known: { AreOpen passed (map chain_of chains.items) },
}

impl Filed {
    /// No chains.
    pub(crate) fn new(alloc: Global) -> Filed
        ensures { result.chains.items ≡ [] }
    {
        Filed {
            chains: Sequence::new(alloc),
            whole: 0,
            passed: 0,
        }
    }

    /// Gives back the memory for chains, if there is none.
    pub(crate) fn trim(&mut self)
        ensures { self.new.chains.items ≡ self.old.chains.items }
    {
        self.chains.trim();
    }

    /// Files a fragment.
    ///
    /// # Errors
    /// Allocation failed, and nothing changed.
    #[inline(always)]
    pub(crate) fn file(&mut self, alloc: Global, part: Part) -> Result<(), NoMemory>
        ensures few { OnOk result (length self.new.chains.items ≤ suc (length self.old.chains.items)) }
        ensures whole { OnOk result (self.new.whole ≤ suc self.old.whole) }
        ensures filed { OnOk result (Gains (one_of part) (map chain_of self.old.chains.items) (map chain_of self.new.chains.items)) }
        ensures refused { OnErr result (map chain_of self.new.chains.items ≡ map chain_of self.old.chains.items) }
    {
        let before = self.chains.len();
        let filed = file(alloc, &mut self.chains, part)?;
        let count = self.chains.len();
        self.whole = self.whole.saturating_add(filed.whole).min(count);
        self.passed = self.passed.saturating_sub(before.saturating_sub(count));
        if filed.whole > 0 {
            self.passed = self.passed.min(filed.at);
        }
        Ok(())
    }

    /// Removes the chain at a position. It is inlined, since one of its callers runs for each message.
    #[inline(always)]
    pub(crate) fn remove(&mut self, held: &mut u32, at: usize) -> Option<Chain>
        ensures fewer { OnSome result (suc (length self.new.chains.items) ≡ length self.old.chains.items) }
        ensures whole { IfSome result (λ c. self.new.whole + one_if_whole (chain_of c) ≡ self.old.whole) }
        ensures taken { MatchOption result (length self.old.chains.items ≤ at) (λ c. Removes at (map chain_of self.old.chains.items) (map chain_of self.new.chains.items) held.old held.new (chain_of c)) }
    {
        let chain = remove(&mut self.chains, held, at)?;
        self.whole = self.whole.saturating_sub(chain.whole());
        self.passed = self.passed.saturating_sub(1);
        Some(chain)
    }

    /// From a position on, drops all fragments of ranks up to this one. At most messages there is none: that test is inlined.
    #[inline(always)]
    pub(crate) fn drop_upto(&mut self, held: u32, at: usize, upto: u128) -> u32
        ensures fewer { length self.new.chains.items ≤ length self.old.chains.items }
        ensures whole { self.new.whole ≡ self.old.whole }
        ensures left { LetsGo upto at (map chain_of self.old.chains.items) (map chain_of self.new.chains.items) held result }
    {
        let before = self.chains.len();
        if at >= before {
            return held;
        }
        if self.chains.get(at).first() > upto {
            return held;
        }
        let left = drop_upto(&mut self.chains, held, at, upto);
        let gone = before.saturating_sub(self.chains.len());
        self.passed = self.passed.saturating_sub(gone);
        left
    }

    /// The first complete message that begins with one of these ranks. If no chain can be complete, none is looked at.
    #[inline(always)]
    pub(crate) fn first_whole(&self, from: u128, last: u128) -> Looked
        ensures found { AreChains (map chain_of self.now.chains.items) → IsFirstWhole (map chain_of self.now.chains.items) from last result.found }
        ensures passed { AreOpen result.passed (map chain_of self.now.chains.items) }
    {
        if self.whole == 0 {
            return Looked {
                found: None,
                passed: self.chains.len(),
            };
        }
        first_whole(&self.chains, self.passed, from, last)
    }

    /// The first complete message that begins with one of these ranks. If the first chain doesn't say which, they are searched, and which chains needn't
    /// be looked at again is recorded.
    #[inline(always)]
    pub(crate) fn find(&mut self, from: u128, last: u128) -> Option<Found>
        ensures same { self.new.chains.items ≡ self.old.chains.items }
        ensures whole { self.new.whole ≡ self.old.whole }
        ensures found { AreChains (map chain_of self.old.chains.items) → IsFirstWhole (map chain_of self.old.chains.items) from last result }
    {
        if let Some(found) = at_front(&self.chains, from, last) {
            return found;
        }
        let looked = self.first_whole(from, last);
        self.passed = looked.passed;
        looked.found
    }
}
