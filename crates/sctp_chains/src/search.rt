//! Searching for complete messages among chains.

ghost use Rattle.std.specs.Prelude.{◌≡◌, ◌≤◌, ◌<◌, nat_lt, length, map, IfSome};
ghost use Rattle.sctp_chains.specs.Links.{chain_of, AreChains};
ghost use Rattle.sctp_chains.specs.inner.Finding.{IsStart, IsWholeHere, IsWholeWithRank, IsFirstWhole, IsStop, AreOpen};

use crate::chain::{Chain, Head};
use crate::filing::place;
use sctp_sequence::Sequence;

/// A chain that is a complete message: its position, and what its first chunk says.
#[derive(Clone, Copy)]
pub(crate) struct Found {
    pub(crate) at: usize,
    pub(crate) head: Head,
}

/// The result of a search.
#[derive(Clone, Copy)]
pub(crate) struct Looked {
    pub(crate) found: Option<Found>,
    /// How many chains at the front are known, after it, not to be complete messages.
    pub(crate) passed: usize,
}

/// How many chains begin below a rank: none as long as messages are taken from the front on, which needs no search.
fn start(chains: &Sequence<Chain>, rank: u128) -> usize
    ensures bound { result ≤ length chains.now.items }
    ensures place { AreChains (map chain_of chains.now.items) → IsStart rank (map chain_of chains.now.items) result }
{
    if chains.is_empty() {
        return 0;
    }
    if chains.get(0).first() >= rank {
        return 0;
    }
    chains.partition_point(
        |chain: &Chain| -> bool
            ensures { result ≡ nat_lt (chain_of chain.now).first rank }
        { chain.first() < rank },
    )
}

/// The complete message that the chain at a position is, if it is one.
fn whole_at(chains: &Sequence<Chain>, at: usize) -> Option<Found>
    requires { at < length chains.now.items }
    ensures { IsWholeHere (map chain_of chains.now.items) at result }
{
    let chain = chains.get(at);
    match chain.head() {
        Some(head) if chain.ends => Some(Found { at, head }),
        _ => None,
    }
}

/// The complete message that the fragment of a rank belongs to, if it is complete.
pub(crate) fn whole_with(chains: &Sequence<Chain>, rank: u128) -> Option<Found>
    ensures { AreChains (map chain_of chains.now.items) → IsWholeWithRank (map chain_of chains.now.items) rank result }
{
    let at = place(chains, rank);
    if at < chains.len() && chains.get(at).first() <= rank {
        return whole_at(chains, at);
    }
    None
}

/// The first complete message that begins with one of these ranks, or that there is none, if the first chain alone says which: it is the message, or it
/// begins past these ranks. So messages that are taken in their order, and one that waits for an earlier one, cost no search.
#[inline(always)]
pub(crate) fn at_front(chains: &Sequence<Chain>, from: u128, last: u128) -> Option<Option<Found>>
    ensures { AreChains (map chain_of chains.now.items) → IfSome result (IsFirstWhole (map chain_of chains.now.items) from last) }
{
    if chains.is_empty() {
        return None;
    }
    let first = chains.get(0).first();
    if first > last {
        return Some(None);
    }
    if first < from {
        return None;
    }
    match whole_at(chains, 0) {
        Some(found) => Some(Some(found)),
        None => None,
    }
}

/// The position of the first chain, from `from` on, that is a complete message or begins past a rank; the number of chains, if there is none.
#[inline(always)]
fn stop(chains: &Sequence<Chain>, from: usize, last: u128) -> usize
    ensures { IsStop last (map chain_of chains.now.items) from result }
{
    for at in from..chains.len() {
        let chain = chains.get(at);
        if chain.first() > last || chain.whole() == 1 {
            return at;
        }
    }
    chains.len()
}

/// The first complete message that begins with one of these ranks. Chains before the first rank, and the `passed` chains at the front, which are
/// known not to be complete, aren't looked at. It is inlined, since one of its callers runs for each message.
#[inline(always)]
pub(crate) fn first_whole(chains: &Sequence<Chain>, passed: usize, from: u128, last: u128) -> Looked
    ensures found { AreChains (map chain_of chains.now.items) → AreOpen passed (map chain_of chains.now.items)
        → IsFirstWhole (map chain_of chains.now.items) from last result.found }
    ensures passed { AreOpen passed (map chain_of chains.now.items) → AreOpen result.passed (map chain_of chains.now.items) }
{
    let begin = start(chains, from);
    let at = stop(chains, begin.max(passed), last);
    let found = if at < chains.len() && chains.get(at).first() <= last {
        whole_at(chains, at)
    } else {
        None
    };
    let passed = if begin <= passed { at } else { passed };
    Looked { found, passed }
}
