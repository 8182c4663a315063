//! Filing a fragment: it lengthens a chain, closes the gap between two, or is a chain of its own.
//!
//! A chunk that continues the last chain, as in a message received in order, costs no search (`file`), one that continues another chain a binary
//! search, whatever else is kept. One that fills a gap moves the parts of the shorter chain beside it; a chain that is new or removed moves the
//! shorter side of its block, 256 chains at most, and at either end of the list nothing. A chain that grows by a fragment is changed in its
//! position; one that is joined with another is taken out, with an empty one in its position meanwhile, and put back, also if allocation fails.

ghost use Rattle.std.specs.Prelude.{◌≡◌, ◌≤◌, ◌<◌, ◌+◌, suc, nat_lt, length, get_or, map, OnOk, OnErr, IfOk};
ghost use Rattle.sctp_chains.specs.Links.{chain_of, one_of, whole_in, AreChains};
ghost use Rattle.sctp_chains.specs.inner.Filing.{IsPlace, IsLinkBefore, IsLinkBehind, IsLonger, IsEarlier, IsJoined, IsWholeOfJoined, HasJointRoom, Gains, StaysOpen};

use crate::chain::{Chain, Part, alone, nothing};
use sctp_sequence::Sequence;
use sctp_values::NoMemory;
use std::alloc::Global;

/// How many chains are below a rank.
pub(crate) fn place(chains: &Sequence<Chain>, rank: u128) -> usize
    ensures bound { result ≤ length chains.now.items }
    ensures place { AreChains (map chain_of chains.now.items) → IsPlace rank (map chain_of chains.now.items) result }
{
    chains.partition_point(
        |chain: &Chain| -> bool
            ensures { result ≡ nat_lt (chain_of chain.now).last rank }
        { chain.last() < rank },
    )
}

/// The chain before a position, if the fragment continues it.
#[inline(always)]
fn linked_before(chains: &Sequence<Chain>, at: usize, part: &Part) -> Option<usize>
    ensures { at ≤ length chains.now.items → IsLinkBefore (map chain_of chains.now.items) at (one_of part.now) result }
{
    let before = at.checked_sub(1)?;
    if before < chains.len() && part.continues(chains.get(before)) {
        return Some(before);
    }
    None
}

/// The chain at a position, if it continues the fragment.
fn linked_behind(chains: &Sequence<Chain>, at: usize, part: &Part) -> Option<usize>
    ensures { IsLinkBehind (map chain_of chains.now.items) at (one_of part.now) result }
{
    if at < chains.len() && chains.get(at).continues(part) {
        return Some(at);
    }
    None
}

/// The chain that a fragment was filed in.
#[derive(Clone, Copy)]
pub(crate) struct FiledIn {
    /// Its position.
    pub(crate) at: usize,
    /// 1 if it is a complete message, else 0.
    pub(crate) whole: usize,
}

/// Files a fragment. One that continues the last chain, as all of a message received in order do, needs no search.
///
/// # Errors
/// Allocation failed, and nothing changed.
#[inline(always)]
pub(crate) fn file(
    alloc: Global,
    chains: &mut Sequence<Chain>,
    part: Part,
) -> Result<FiledIn, NoMemory>
    ensures few { OnOk result (length chains.new.items ≤ suc (length chains.old.items)) }
    ensures filed { OnOk result (Gains (one_of part) (map chain_of chains.old.items) (map chain_of chains.new.items)) }
    ensures one { IfOk result (λ f. f.whole ≤ 1) }
    ensures whole { IfOk result (λ f. whole_in (map chain_of chains.new.items) ≤ whole_in (map chain_of chains.old.items) + f.whole) }
    ensures passed { IfOk result (λ f. StaysOpen (map chain_of chains.old.items) (map chain_of chains.new.items) f.at f.whole) }
    ensures refused { OnErr result (map chain_of chains.new.items ≡ map chain_of chains.old.items) }
{
    let end = chains.len();
    if let Some(last) = linked_before(chains, end, &part) {
        let whole = lengthen(chains, last, part)?;
        return Ok(FiledIn { at: last, whole });
    }
    file_among(alloc, chains, part)
}

/// Appends a fragment to the chain at a position; returns 1 if that is then a complete message, else 0.
///
/// # Errors
/// Allocation failed, and nothing changed.
#[inline(always)]
fn lengthen(chains: &mut Sequence<Chain>, at: usize, part: Part) -> Result<usize, NoMemory>
    requires { at < length chains.old.items }
    ensures size { length chains.new.items ≡ length chains.old.items }
    ensures longer { IfOk result (λ n. IsLonger chains.old.items at part chains.new.items n) }
    ensures refused { OnErr result (map chain_of chains.new.items ≡ map chain_of chains.old.items) }
{
    let chain = chains.get_mut(at);
    chain.push_back(part)?;
    Ok(chain.whole())
}

/// Prepends a fragment to the chain at a position; returns 1 if that is then a complete message, else 0.
///
/// # Errors
/// Allocation failed, and nothing changed.
fn begin_earlier(chains: &mut Sequence<Chain>, at: usize, part: Part) -> Result<usize, NoMemory>
    requires { at < length chains.old.items }
    ensures size { length chains.new.items ≡ length chains.old.items }
    ensures earlier { IfOk result (λ n. IsEarlier chains.old.items at part chains.new.items n) }
    ensures refused { OnErr result (map chain_of chains.new.items ≡ map chain_of chains.old.items) }
{
    let chain = chains.get_mut(at);
    chain.push_front(part)?;
    Ok(chain.whole())
}

/// Files a fragment wherever it belongs.
///
/// # Errors
/// Allocation failed, and nothing changed.
#[inline(never)]
fn file_among(alloc: Global, chains: &mut Sequence<Chain>, part: Part) -> Result<FiledIn, NoMemory>
    ensures few { OnOk result (length chains.new.items ≤ suc (length chains.old.items)) }
    ensures filed { OnOk result (Gains (one_of part) (map chain_of chains.old.items) (map chain_of chains.new.items)) }
    ensures one { IfOk result (λ f. f.whole ≤ 1) }
    ensures whole { IfOk result (λ f. whole_in (map chain_of chains.new.items) ≤ whole_in (map chain_of chains.old.items) + f.whole) }
    ensures passed { IfOk result (λ f. StaysOpen (map chain_of chains.old.items) (map chain_of chains.new.items) f.at f.whole) }
    ensures refused { OnErr result (map chain_of chains.new.items ≡ map chain_of chains.old.items) }
{
    let at = place(chains, part.rank);
    match (
        linked_before(chains, at, &part),
        linked_behind(chains, at, &part),
    ) {
        (Some(left), Some(right)) => {
            let whole = join_all(alloc, chains, left, part, right)?;
            Ok(FiledIn { at: left, whole })
        }
        (Some(left), None) => {
            let whole = lengthen(chains, left, part)?;
            Ok(FiledIn { at: left, whole })
        }
        (None, Some(right)) => {
            let whole = begin_earlier(chains, right, part)?;
            Ok(FiledIn { at: right, whole })
        }
        (None, None) => {
            let chain = alone(part);
            let whole = chain.whole();
            chains.insert(at, chain)?;
            Ok(FiledIn { at, whole })
        }
    }
}

/// Reserves memory in the longer of two chains for the fragments of the shorter, and one more.
///
/// # Errors
/// Allocation failed.
fn make_joint_room(left: &mut Chain, right: &mut Chain) -> Result<(), NoMemory>
    ensures left { chain_of left.new ≡ chain_of left.old }
    ensures right { chain_of right.new ≡ chain_of right.old }
    ensures room { OnOk result (HasJointRoom left.new right.new) }
{
    let before = left.parts.len();
    let behind = right.parts.len();
    if before < behind {
        return right.reserve(before.saturating_add(1));
    }
    left.reserve(behind.saturating_add(1))
}

/// Makes one chain of a chain, a fragment after it, and the chain after that; returns 1 if that is a complete message, else 0.
///
/// # Errors
/// Allocation failed, and nothing changed.
fn join_all(
    alloc: Global,
    chains: &mut Sequence<Chain>,
    left: usize,
    part: Part,
    right: usize,
) -> Result<usize, NoMemory>
    requires order { left < right }
    requires within { right < length chains.old.items }
    ensures few { OnOk result (length chains.new.items ≤ suc (length chains.old.items)) }
    ensures joined { OnOk result (IsJoined (map chain_of chains.old.items) left (one_of part) right (map chain_of chains.new.items)) }
    ensures whole { IfOk result (λ w. IsWholeOfJoined (map chain_of chains.old.items) left (one_of part) right w) }
    ensures refused { OnErr result (map chain_of chains.new.items ≡ map chain_of chains.old.items) }
{
    let mut high = chains.replace(right, nothing(alloc));
    let mut low = chains.replace(left, nothing(alloc));
    if make_joint_room(&mut low, &mut high).is_err() {
        let _ = chains.replace(left, low);
        let _ = chains.replace(right, high);
        return Err(NoMemory);
    }
    low.close_gap(part, high);
    let whole = low.whole();
    let _ = chains.remove(right);
    let _ = chains.replace(left, low);
    Ok(whole)
}
