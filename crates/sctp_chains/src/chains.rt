//! The kept chunks of one lane: of one stream, ordered or unordered.

ghost use Rattle.std.specs.Prelude.{◌≡◌, ◌≤◌, ℕ, suc, true, false, not, [], ◌∷◌, filter, Some, IfSome, IfOk, OnOk, OnErr, OnSome};
ghost use Rattle.sctp_model.specs.messages.Format.{Lane, Unordered, is_numbered};
ghost use Rattle.sctp_model.specs.messages.Framing.{lets_go};
ghost use Rattle.sctp_model.specs.numbers.Lists.{Has};
ghost use Rattle.sctp_model.specs.receiver.ReceiverView.{size_of_pieces};
ghost use Rattle.sctp_model.specs.receiver.PieceTaken.{is_repeated};
ghost use Rattle.sctp_wire.specs.ChunkTree.{piece_meaning};
ghost use Rattle.sctp_chains.specs.Cells.{Kept, cell_of, counted, IsOf, IsLowestIndex};
ghost use Rattle.sctp_chains.specs.StandsFor.{StandsFor, IsNew, chain_count, whole_count};
ghost use Rattle.sctp_chains.specs.WholeOf.{TakesLowest, TakesWith, AreAbove, IsResting, from_number};
ghost use Rattle.sctp_chains.specs.Links.{one_of, cells_in};

use crate::chain::{Head, Part};
use crate::filed::Filed;
use crate::filing::place;
use crate::rank::rank_at;
use crate::search::whole_with;
use crate::spare::Spare;
use crate::whole::{Fragments, Whole, whole_of};
use sctp_framing::Framing;
use sctp_values::{Kind, NoMemory, small_len};
use sctp_wire::Piece;
use std::alloc::Global;
use std::marker::PhantomData;

/// The kept chunks of one stream and kind, ordered or unordered, in one format of user data.
#[derive(Drop)]
pub struct Chains<F: Framing> {
    alloc: Global,
    pub(crate) filed: Filed,
    held: u32,
    framing: PhantomData<F>,
}

#[tactic(auto, unfolding(crate::specs::StandsFor::StandsFor, crate::specs::StandsFor::chain_count, crate::specs::StandsFor::whole_count))]
impl<F: Framing> Chains<F> {
    /// No chunks. Nothing is allocated.
    pub fn new(alloc: Global) -> Chains<F>
        ensures { (l : Lane) → StandsFor F.format result l [] }
    {
        Chains {
            alloc,
            filed: Filed::new(alloc),
            held: 0,
            framing: PhantomData,
        }
    }

    /// The data bytes of all chunks kept.
    pub fn held_bytes(&self) -> u32
        ensures { (l : Lane) (kept : Kept) → StandsFor F.format self.now l kept → result ≡ size_of_pieces kept }
    {
        self.held
    }

    /// An upper bound on the complete messages: no more than that can be taken out before another chunk is added.
    pub fn whole_count(&self) -> usize
        ensures { result ≡ whole_count self.now }
    {
        self.filed.whole
    }

    /// Whether no message can be taken from a number on, and no chunk be dropped below it, in a numbered lane, as far as known without a search.
    #[inline(always)]
    pub fn is_resting(&self, number: u64) -> bool
        ensures { (l : Lane) (kept : Kept) → StandsFor F.format self.now l kept → is_numbered F.format l.kind ≡ true → result ≡ true → IsResting F.format l kept number }
    {
        if self.filed.chains.is_empty() {
            return true;
        }
        self.filed.whole == 0 && rank_at(Some(number), 0) <= self.filed.chains.get(0).first()
    }

    /// The lowest index of the chunks kept, in a lane whose messages have no number; None if and only if no chunk is kept. It looks at the first chain alone.
    pub fn lowest_index(&self) -> Option<u64>
        ensures { (l : Lane) (kept : Kept) → StandsFor F.format self.now l kept → is_numbered F.format l.kind ≡ false → IsLowestIndex kept result }
    {
        if self.filed.chains.len() == 0 {
            return None;
        }
        Some((self.filed.chains.get(0).first() % 18_446_744_073_709_551_616) as u64)
    }

    /// Whether this fragment of this message is kept already under I-DATA; false under DATA, whose fragments are known by their TSNs.
    #[inline(always)]
    pub fn is_held(&self, piece: &Piece<'_>, number: Option<u64>) -> bool
        ensures { (i : ℕ) (l : Lane) (kept : Kept) → StandsFor F.format self.now l kept → IsOf F.format l (counted i (piece_meaning piece.now) number)
            → result ≡ is_repeated F.format kept (counted i (piece_meaning piece.now) number) }
    {
        if !F::is_numbered(Kind::Unordered) {
            return false;
        }
        if self.filed.chains.is_empty() {
            return false;
        }
        let rank = rank_at(number, F::place(0, piece.begin, piece.word));
        let at = place(&self.filed.chains, rank);
        at < self.filed.chains.len() && self.filed.chains.get(at).first() <= rank
    }

    /// Keeps a chunk, with this index and number in place of its wire values. Its data is copied, into a spare block if one fits.
    ///
    /// # Errors
    /// Allocation failed, and nothing changed.
    pub fn add(
        &mut self,
        spare: &mut Spare,
        piece: &Piece<'_>,
        index: u64,
        number: Option<u64>,
    ) -> Result<(), NoMemory>
        ensures kept { (l : Lane) (kept : Kept) → StandsFor F.format self.old l kept → IsNew F.format l kept (counted index (piece_meaning piece.now) number)
            → OnOk result (StandsFor F.format self.new l (counted index (piece_meaning piece.now) number ∷ kept)) }
        ensures refused { (l : Lane) (kept : Kept) → StandsFor F.format self.old l kept → OnErr result (StandsFor F.format self.new l kept) }
        ensures count { OnOk result (chain_count self.new ≤ suc (chain_count self.old)) }
        ensures whole { OnOk result (whole_count self.new ≤ suc (whole_count self.old)) }
    {
        let part = part_of::<F>(self.alloc, spare, piece, index, number)?;
        self.filed.file(self.alloc, part)?;
        self.held = self.held.saturating_add(small_len(piece.bytes.len()));
        Ok(())
    }

    /// The message that a chunk is by itself, if no chunk of its number or a lower one is kept: then it needn't be added.
    ///
    /// # Errors
    /// Allocation failed.
    #[inline(always)]
    pub fn alone(
        &self,
        spare: &mut Spare,
        piece: &Piece<'_>,
        index: u64,
        number: u64,
    ) -> Result<Option<Whole>, NoMemory>
        ensures { (l : Lane) (kept : Kept) → StandsFor F.format self.now l kept → IsNew F.format l kept (counted index (piece_meaning piece.now) (Some number))
            → is_numbered F.format l.kind ≡ true
            → IfOk result (λ found. IfSome found (λ m. TakesLowest F.format l (counted index (piece_meaning piece.now) (Some number) ∷ kept) number number (Some m) self.now)) }
    {
        if !piece.end || !F::begins(piece.begin, piece.word) || !self.is_above(number) {
            return Ok(None);
        }
        let data = spare.copy(self.alloc, piece.bytes)?;
        Ok(Some(Whole {
            first: index,
            number: Some(number),
            payload_id: F::payload(piece.begin, piece.word),
            parts: Fragments::One([data]),
        }))
    }

    /// Whether no chunk of this number or a lower one is kept.
    fn is_above(&self, number: u64) -> bool
        ensures { (l : Lane) (kept : Kept) → StandsFor F.format self.now l kept → is_numbered F.format l.kind ≡ true → result ≡ true → AreAbove number kept }
    {
        self.filed.chains.is_empty()
            || rank_at(Some(number), u64::MAX) < self.filed.chains.get(0).first()
    }

    /// Takes the complete message with the lowest number within these bounds, and drops all chunks up to its number. Of several with that
    /// number, which an honest peer never sends, it is the one that begins with the lowest index.
    pub fn take_lowest(&mut self, from: u64, last: u64) -> Option<Whole>
        ensures taken { (l : Lane) (kept : Kept) → StandsFor F.format self.old l kept → is_numbered F.format l.kind ≡ true
            → TakesLowest F.format l kept from last result self.new }
        ensures count { OnSome result (suc (chain_count self.new) ≤ chain_count self.old) }
        ensures whole { (l : Lane) (kept : Kept) → StandsFor F.format self.old l kept → OnSome result (suc (whole_count self.new) ≤ whole_count self.old) }
    {
        let lower = rank_at(Some(from), 0);
        let found = self.filed.find(lower, rank_at(Some(last), u64::MAX))?;
        let chain = self.filed.remove(&mut self.held, found.at)?;
        let number = (chain.first() / 18_446_744_073_709_551_616) as u64;
        let upto = rank_at(Some(number), u64::MAX);
        self.held = self.filed.drop_upto(self.held, 0, upto);
        Some(whole_of(chain, found.head, Some(number)))
    }

    /// Takes the complete message of this chunk, and drops what belongs to it: under I-DATA all chunks of its number.
    pub fn take_with(&mut self, piece: &Piece<'_>, index: u64, number: Option<u64>) -> Option<Whole>
        ensures taken { (l : Lane) (kept : Kept) → StandsFor F.format self.old l kept → Has kept (counted index (piece_meaning piece.now) number)
            → TakesWith F.format l kept (counted index (piece_meaning piece.now) number) result self.new }
        ensures count { OnSome result (suc (chain_count self.new) ≤ chain_count self.old) }
    {
        let place = F::place(index, piece.begin, piece.word);
        let found = whole_with(&self.filed.chains, rank_at(number, place))?;
        let chain = self.filed.remove(&mut self.held, found.at)?;
        let upto = if F::is_numbered(Kind::Unordered) {
            rank_at(number, u64::MAX)
        } else {
            chain.last()
        };
        self.held = self.filed.drop_upto(self.held, found.at, upto);
        Some(whole_of(chain, found.head, number))
    }

    /// Drops the chunks below a number, in a numbered lane.
    pub fn drop_below(&mut self, number: u64)
        ensures { (l : Lane) (kept : Kept) → StandsFor F.format self.old l kept → is_numbered F.format l.kind ≡ true
            → StandsFor F.format self.new l (from_number number kept) }
    {
        if let Some(last) = number.checked_sub(1) {
            let upto = rank_at(Some(last), u64::MAX);
            self.held = self.filed.drop_upto(self.held, 0, upto);
        }
    }

    /// Drops the unordered chunks that a FORWARD-TSN or I-FORWARD-TSN discards: those up to the index `jump` or, if they are numbered,
    /// those below `skip`, one past the largest number skipped.
    pub fn let_go(&mut self, jump: u64, skip: u64)
        ensures { (l : Lane) (kept : Kept) → StandsFor F.format self.old l kept → l.kind ≡ Unordered
            → StandsFor F.format self.new l (filter (λ x. not (lets_go F.format x.index x.number jump skip)) kept) }
    {
        if F::is_numbered(Kind::Unordered) {
            self.drop_below(skip);
        } else {
            self.held = self.filed.drop_upto(self.held, 0, rank_at(None, jump));
        }
    }
}

/// A chunk as a fragment to be filed, its data copied.
///
/// # Errors
/// Allocation failed.
fn part_of<F: Framing>(
    alloc: Global,
    spare: &mut Spare,
    piece: &Piece<'_>,
    index: u64,
    number: Option<u64>,
) -> Result<Part, NoMemory>
    ensures { IfOk result (λ p. cells_in (one_of p) ≡ cell_of F.format (counted index (piece_meaning piece.now) number) ∷ []) }
{
    let data = spare.copy(alloc, piece.bytes)?;
    let head = if F::begins(piece.begin, piece.word) {
        Some(Head {
            index,
            payload_id: F::payload(piece.begin, piece.word),
        })
    } else {
        None
    };
    Ok(Part {
        rank: rank_at(number, F::place(index, piece.begin, piece.word)),
        head,
        end: piece.end,
        data,
    })
}
