//! Dropping fragments: of a message that is taken, or those up to a rank. The bytes held are counted.
//!
//! Only the chains that are dropped are looked at, or, if all of them are, the last one alone: then no byte is held, and they are dropped at once.

ghost use Rattle.std.specs.Prelude.{◌≡◌, ℕ, ◌<◌, ◌≤◌, ◌+◌, ◌-◌, suc, length, map, take, MatchOption, IfNone, IfSome, OnSome};
ghost use Rattle.sctp_chains.specs.Links.{parts_in, chain_of, bytes_of, one_if_whole, whole_in};
ghost use Rattle.sctp_chains.specs.inner.Finding.{AreOpen};
ghost use Rattle.sctp_chains.specs.inner.LettingGo.{size_of_parts, LetsGo, Removes, Trims};

use crate::chain::{Chain, nothing};
use crate::ends::remove_at;
use crate::parts::Parts;
use crate::rank::Rank;
use sctp_sequence::Sequence;
use std::collections::VecDeque;

/// A number less the bytes of a part, 0 if the part has more.
fn less_one(held: u32, part: &Vec<u8>) -> u32
    ensures { result ≡ held - length part.now.items }
{
    match u32::try_from(part.len()) {
        Ok(bytes) => held.saturating_sub(bytes),
        Err(_) => 0,
    }
}

/// A number less the bytes of the first `count` of these parts, but not of all, 0 if they have more.
fn less(held: u32, parts: &Parts, count: usize) -> u32
    requires { count < length (parts_in parts.now) }
    ensures { result ≡ held - size_of_parts (map bytes_of (take count (parts_in parts.now))) }
{
    match parts {
        Parts::One(_) => held,
        Parts::Many(list) => less_listed(held, list, count),
    }
}

/// A number less the bytes of the first `count` parts of a list, 0 if they have more.
#[tactic(auto, using(crate::proofs::SizeLemmas::size_more))]
fn less_listed(held: u32, parts: &VecDeque<Vec<u8>>, count: usize) -> u32
    ensures { result ≡ held - size_of_parts (map bytes_of (take count parts.now.items)) }
{
    let mut left = held;
    for at in 0..count.min(parts.len()) {
        left = less_one(left, &parts[at]);
    }
    left
}

/// A number less the bytes of all of these parts, 0 if they have more.
fn less_all(held: u32, parts: &Parts) -> u32
    ensures { result ≡ held - size_of_parts (map bytes_of (parts_in parts.now)) }
{
    match parts {
        Parts::One(part) => less_one(held, part),
        Parts::Many(list) => less_listed(held, list, list.len()),
    }
}

/// Drops a chain; a number less the bytes of its parts, 0 if they have more.
fn forget(held: u32, chain: Chain) -> u32
    ensures { result ≡ held - size_of_parts (map bytes_of (parts_in chain.parts)) }
{
    less_all(held, &chain.parts)
}

/// Removes the chain at a position.
#[inline(always)]
pub(crate) fn remove(chains: &mut Sequence<Chain>, held: &mut u32, at: usize) -> Option<Chain>
    ensures fewer { OnSome result (suc (length chains.new.items) ≡ length chains.old.items) }
    ensures unchanged { IfNone result (map chain_of chains.new.items ≡ map chain_of chains.old.items) }
    ensures whole { IfSome result (λ c. whole_in (map chain_of chains.new.items) + one_if_whole (chain_of c) ≡ whole_in (map chain_of chains.old.items)) }
    ensures passed { OnSome result ((k : ℕ) → AreOpen k (map chain_of chains.old.items) → AreOpen (k - 1) (map chain_of chains.new.items)) }
    ensures taken { MatchOption result (length chains.old.items ≤ at) (λ c. Removes at (map chain_of chains.old.items) (map chain_of chains.new.items) held.old held.new (chain_of c)) }
{
    let chain = remove_at(chains, at)?;
    *held = less_all(*held, &chain.parts);
    Some(chain)
}

/// From a position on, drops all fragments of ranks up to this one: if no chain stays, all at once, and then no byte is held, and memory is given back.
pub(crate) fn drop_upto(chains: &mut Sequence<Chain>, held: u32, at: usize, upto: u128) -> u32
    ensures fewer { length chains.new.items ≤ length chains.old.items }
    ensures whole { whole_in (map chain_of chains.new.items) ≤ whole_in (map chain_of chains.old.items) }
    ensures passed { (k : ℕ) → AreOpen k (map chain_of chains.old.items) → AreOpen (k - (length chains.old.items - length chains.new.items)) (map chain_of chains.new.items) }
    ensures left { LetsGo upto at (map chain_of chains.old.items) (map chain_of chains.new.items) held result }
{
    let before = chains.len();
    if at == 0 && before > 0 && chains.get(before - 1).last() <= upto {
        chains.clear();
        chains.give_back();
        return 0;
    }
    drop_each(chains, held, at, upto)
}

/// From a position on, drops all fragments of ranks up to this one, one chain after another.
fn drop_each(chains: &mut Sequence<Chain>, held: u32, at: usize, upto: u128) -> u32
    ensures fewer { length chains.new.items ≤ length chains.old.items }
    ensures whole { whole_in (map chain_of chains.new.items) ≤ whole_in (map chain_of chains.old.items) }
    ensures passed { (k : ℕ) → AreOpen k (map chain_of chains.old.items) → AreOpen (k - (length chains.old.items - length chains.new.items)) (map chain_of chains.new.items) }
    ensures left { LetsGo upto at (map chain_of chains.old.items) (map chain_of chains.new.items) held result }
{
    let mut left = held;
    while at < chains.len() && chains.get(at).last() <= upto {
        if let Some(chain) = remove_at(chains, at) {
            left = forget(left, chain);
        }
    }
    if at < chains.len() && chains.get(at).first() <= upto {
        let blank = nothing(chains.get(at).parts.allocator());
        let mut chain = chains.replace(at, blank);
        left = trim(&mut chain, left, upto);
        let _ = chains.replace(at, chain);
    }
    left
}

/// Drops a chain's fragments of ranks up to this one, and keeps those after them.
fn trim(chain: &mut Chain, held: u32, upto: u128) -> u32
    ensures trimmed { Trims upto (chain_of chain.old) (chain_of chain.new) held result }
    ensures whole { one_if_whole (chain_of chain.new) ≤ one_if_whole (chain_of chain.old) }
{
    let last = chain.last();
    if last <= upto {
        return held;
    }
    let count = upto.saturating_sub(chain.first()).saturating_add(1);
    if count >= chain.parts.len() as u128 {
        return held;
    }
    let gone = count as usize;
    let left = less(held, &chain.parts, gone);
    chain.parts.drop_front(gone);
    let next = upto.saturating_add(1);
    chain.first = Rank::of(next);
    chain.begins = false;
    left
}
