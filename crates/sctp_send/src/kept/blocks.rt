//! Blocks of tickets that are over: of one whose messages ended alike one fate is kept, and of another one for each ticket.

ghost use Rattle.std.specs.Prelude.{◌≡◌, ◌*◌, ◌<◌, ◌≤◌, true, length, take, drop, replicate, slice_index_or, IfSome, IfNone};
ghost use Rattle.sctp_send.specs.inner.FateBlocks.{fates_of, AreWithin, IsBlock};

use crate::kept::message::Fate;

/// How many tickets in a row are a block.
pub(crate) const BLOCK: usize = 4_096;

/// Fates of a block of tickets that are over.
#[derive(Clone, Copy)]
pub(crate) enum Block {
    /// All ended so.
    Alike(Fate),
    /// They ended one so, another so: the fates stand from this one on.
    Each(u32),
}

/// The fate of a ticket, counted from 0, of one of these blocks.
pub(crate) fn fate_in(blocks: &[Block], mixed: &[Fate], at: usize) -> Fate
    requires there { at < 4096 * length blocks.now }
    requires within { AreWithin mixed.now blocks.now }
    ensures { result ≡ slice_index_or (fates_of mixed.now blocks.now) at result }
{
    match blocks[at / BLOCK] {
        Block::Alike(fate) => fate,
        Block::Each(start) => mixed[start as usize + at % BLOCK],
    }
}

/// A block's fates go from the front.
pub(crate) fn drop_front(fates: &mut Vec<Fate>)
    requires { 4096 ≤ length fates.old.items }
    ensures { fates.new.items ≡ drop 4096 fates.old.items }
{
    fates.rotate_left(BLOCK);
    fates.truncate(fates.len() - BLOCK);
}

/// The block of the first fates, if there is memory for it; they stand behind others where they aren't alike.
pub(crate) fn block_of(recent: &[Fate], mixed: &mut Vec<Fate>) -> Option<Block>
    requires { 4096 ≤ length recent.now }
    ensures block { IfSome result (λ block. IsBlock block (take 4096 recent.now) mixed.old.items mixed.new.items) }
    ensures same { IfNone result (mixed.new.items ≡ mixed.old.items) }
{
    let fates = &recent[..BLOCK];
    let first = fates[0];
    if are_alike(fates, first) {
        return Some(Block::Alike(first));
    }
    let start = mixed.len();
    if start > u32::MAX as usize {
        return None;
    }
    match mixed.extend_from_slice(fates) {
        Ok(()) => Some(Block::Each(start as u32)),
        Err(_) => None,
    }
}

/// All fates are this one.
fn are_alike(fates: &[Fate], fate: Fate) -> bool
    ensures { result ≡ true → fates.now ≡ replicate (length fates.now) fate }
{
    for at in 0..fates.len() {
        if fates[at] != fate {
            return false;
        }
    }
    true
}
