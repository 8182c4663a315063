//! What a SACK takes back: it was sent, gap blocks of the last SACK acknowledged it, and this one doesn't (RFC 9260, 6.2.1, D iii). It is rare, so that a SACK
//! of which the runs of the last one say that it takes nothing back costs no more than they do.

ghost use Rattle.std.specs.Prelude.{◌≡◌, ℕ, ◌-◌, ◌<◌, ◌≤◌, ◌++◌, [], ◌∷◌, None, map, length, if◌then◌else◌, OnOk, IfOk};
ghost use Rattle.std.specs.List.{All};
ghost use Rattle.sctp_model.specs.sender.SenderView.{SenderView};
ghost use Rattle.sctp_model.specs.sender.SackTaken.{sack_fault, sack_after};
ghost use Rattle.sctp_wire.specs.ChunkTree.{sack_meaning};
ghost use Rattle.sctp_send.specs.OutstandingFields.{item_meaning};
ghost use Rattle.sctp_send.specs.SenderStands.{StandsFor};
ghost use Rattle.sctp_send.specs.FillAnswers.{AreRising};
ghost use Rattle.sctp_send.specs.PaceAnswers.{AreTakenBack};
ghost use Rattle.sctp_send.specs.inner.Acknowledging.{block_fault};
ghost use Rattle.sctp_send.specs.inner.Testing.{index_of, offsets_that};
ghost use Rattle.sctp_send.specs.inner.Weighing.{is_item_acked, passes_here, is_uncovered};

use crate::kept::entry::{Entry, Standing};
use crate::kept::outstanding::Outstanding;
use crate::sack::marking::index_at;
use crate::sack::waking::lie_in;
use crate::sender::Sender;
use sctp_framing::Framing;
use sctp_values::NoMemory;
use sctp_wire::{Blocks, Sack};

#[tactic(auto, unfolding(crate::specs::SenderStands::StandsFor))]
impl<F: Framing> Sender<F> {
    /// Lists what a SACK takes back that `on_sack` would accept; asked before `on_sack`. `back` is cleared, and gets the indexes, which count TSNs from 1,
    /// the initial TSN, by rising index. It returns one that none of them is above, 0 if there are none. If the last SACK had no gap blocks it costs two
    /// tests, and it takes memory only for indexes.
    ///
    /// # Errors
    /// `NoMemory` if an allocation was refused.
    #[inline(always)]
    pub fn list_taken_back(&self, sack: &Sack<'_>, back: &mut Vec<u64>) -> Result<u64, NoMemory>
        ensures back { (v : SenderView) → StandsFor F.format self.now v → sack_fault v (sack_meaning sack.now) ≡ None
            → OnOk result (AreTakenBack v (sack_after v (sack_meaning sack.now)) back.new.items) }
        ensures highest { (v : SenderView) → StandsFor F.format self.now v → sack_fault v (sack_meaning sack.now) ≡ None → IfOk result (λ highest. All (λ i. i ≤ highest) back.new.items) }
    {
        back.clear();
        if self.told.is_known && self.told.covered.is_empty() {
            return Ok(0);
        }
        self.list_uncovered(sack, back)
    }

    /// `list_taken_back`, if the last SACK had gap blocks. It is not inlined, so that the tests before it are small.
    ///
    /// # Errors
    /// As `list_taken_back`.
    #[inline(never)]
    fn list_uncovered(&self, sack: &Sack<'_>, back: &mut Vec<u64>) -> Result<u64, NoMemory>
        requires fresh { back.old.items ≡ [] }
        ensures back { (v : SenderView) → StandsFor F.format self.now v → sack_fault v (sack_meaning sack.now) ≡ None
            → OnOk result (AreTakenBack v (sack_after v (sack_meaning sack.now)) back.new.items) }
        ensures highest { (v : SenderView) → StandsFor F.format self.now v → sack_fault v (sack_meaning sack.now) ≡ None → IfOk result (λ highest. All (λ i. i ≤ highest) back.new.items) }
    {
        let Ok(passed) = self.passed_by_sack(sack) else {
            return Ok(0);
        };
        if self.told.is_known && lie_in(&self.told.covered, passed as usize, &sack.blocks) {
            return Ok(0);
        }
        let outstanding = &self.parts.outstanding;
        list_between(outstanding, self.told.cum, passed, &sack.blocks, back)?;
        Ok(highest(back))
    }
}

/// Adds the indexes of the entries that were sent, that a gap block of the last SACK acknowledges, and that a SACK whose cumulative TSN passes so many
/// entries, with these blocks, doesn't.
///
/// # Errors
/// `NoMemory`.
fn list_between(
    outstanding: &Outstanding,
    cum: u64,
    passed: u32,
    blocks: &Blocks<'_>,
    back: &mut Vec<u64>,
) -> Result<(), NoMemory>
    requires passed { passed ≤ length outstanding.now.items }
    requires blocks { block_fault (length outstanding.now.items - passed) blocks.now ≡ None }
    ensures { (size : ℕ) → OnOk result (back.new.items ≡ back.old.items ++ map (index_of cum) (offsets_that (is_uncovered (map (item_meaning size) outstanding.now.items) passed blocks.now) 0 (length outstanding.now.items))) }
{
    let passed = passed as usize;
    let mut at = passed;
    for block in blocks.iter() {
        let before = usize::from(block.start).saturating_sub(1);
        list_acked(outstanding, cum, at, passed + before, back)?;
        at = passed + usize::from(block.end);
    }
    list_acked(outstanding, cum, at, outstanding.len(), back)
}

/// Adds the indexes of the entries from one offset on, below another, that were sent, and that a gap block of the last SACK acknowledges.
///
/// # Errors
/// `NoMemory`.
fn list_acked(
    outstanding: &Outstanding,
    cum: u64,
    from: usize,
    to: usize,
    back: &mut Vec<u64>,
) -> Result<(), NoMemory>
    ensures { (size : ℕ) → OnOk result (back.new.items ≡ back.old.items ++ map (index_of cum) (offsets_that (passes_here is_item_acked (map (item_meaning size) outstanding.now.items)) from (to - from))) }
{
    for at in from..to.min(outstanding.len()) {
        note_acked(outstanding, cum, at, back)?;
    }
    Ok(())
}

/// Adds the index of the entry at an offset, if it was sent, and a gap block of the last SACK acknowledges it.
///
/// # Errors
/// `NoMemory`.
fn note_acked(
    outstanding: &Outstanding,
    cum: u64,
    at: usize,
    back: &mut Vec<u64>,
) -> Result<(), NoMemory>
    requires { at < length outstanding.now.items }
    ensures { (size : ℕ) → OnOk result (back.new.items ≡ back.old.items ++ map (index_of cum) (if passes_here is_item_acked (map (item_meaning size) outstanding.now.items) at then at ∷ [] else [])) }
{
    if !is_acked(outstanding.get(at)) {
        return Ok(());
    }
    match back.push(index_at(cum, at)) {
        Ok(()) => Ok(()),
        Err(_) => Err(NoMemory),
    }
}

/// An entry was sent, and a gap block of the last SACK acknowledges it.
fn is_acked(entry: &Entry) -> bool
    ensures { (size : ℕ) → result ≡ is_item_acked (item_meaning size entry.now) }
{
    entry.standing != Standing::Unsent && entry.covered
}

/// The last of some numbers that rise; 0 if there are none.
fn highest(list: &[u64]) -> u64
    ensures { (above : ℕ) → AreRising above list.now → All (λ i. i ≤ result) list.now }
{
    match list.last() {
        Some(index) => *index,
        None => 0,
    }
}
