//! The state of a stream on which something was received.

ghost use Rattle.std.specs.Prelude.{◌≡◌, ℕ, ◌+◌, ◌^◌, ◌<◌, [], min, length, if◌then◌else◌};
ghost use Rattle.sctp_model.specs.messages.Format.{Lane};
ghost use Rattle.sctp_model.specs.receiver.ReceiverView.{size_of_pieces};
ghost use Rattle.sctp_model.specs.receiver.PieceTaken.{is_repeated};
ghost use Rattle.sctp_values.specs.Meanings.{kind_meaning};
ghost use Rattle.sctp_wire.specs.ChunkTree.{piece_meaning};
ghost use Rattle.sctp_chains.specs.Cells.{Kept, IsOf, counted};
ghost use Rattle.sctp_chains.specs.StandsFor as lane;
ghost use Rattle.sctp_recv.specs.Fields.{inbound_of};
ghost use Rattle.sctp_recv.specs.Filed.{lane_in};
ghost use Rattle.sctp_recv.specs.ReceiverKept.{FRESH, past_of, near_of, lowest_of};
ghost use Rattle.sctp_recv.specs.inner.Giving.{sized};

use crate::message::Message;
use sctp_chains::Chains;
use sctp_framing::Framing;
use sctp_values::Kind;
use sctp_wire::Piece;
use std::alloc::Global;
use std::collections::VecDeque;

/// The state of a stream on which something was received.
#[derive(Drop)]
pub(crate) struct Inbound<F: Framing> {
    /// The lowest ordered number neither delivered nor skipped.
    pub(crate) next: u64,
    /// The lowest unordered number not skipped.
    pub(crate) skip: u64,
    /// One past the largest number of an unordered chunk that was kept, 0 if there was none.
    pub(crate) past: u64,
    /// The messages that were delivered and wait for the user, first to last.
    pub(crate) waiting: VecDeque<Message>,
    /// The ordered chunks kept.
    pub(crate) ordered: Chains<F>,
    /// The unordered chunks kept.
    pub(crate) unordered: Chains<F>,
}

impl<F: Framing> Inbound<F> {
    /// A stream on which nothing was received. Nothing is allocated.
    pub(crate) fn fresh(alloc: Global) -> Inbound<F>
        ensures known { inbound_of result ≡ FRESH }
        ensures ordered { (l : Lane) → lane.StandsFor F.format result.ordered l [] }
        ensures unordered { (l : Lane) → lane.StandsFor F.format result.unordered l [] }
    {
        Inbound {
            next: 0,
            skip: 0,
            past: 0,
            waiting: VecDeque::new(alloc),
            ordered: Chains::new(alloc),
            unordered: Chains::new(alloc),
        }
    }

    /// One past the largest unordered number that was recorded or skipped, 0 if there was none.
    pub(crate) fn past_all(&self) -> u64
        ensures { result ≡ past_of (inbound_of self.now) }
    {
        self.skip.max(self.past)
    }

    /// The count near which a wire value is read: the next ordered number, or the largest unordered one that was recorded or skipped.
    pub(crate) fn near(&self, kind: Kind) -> u64
        ensures near { result ≡ near_of (inbound_of self.now) (kind_meaning kind) }
        // The lowest number that counts is a count.
        ensures lowest { lowest_of (inbound_of self.now) (kind_meaning kind) < 2 ^ 64 }
    {
        match kind {
            Kind::Ordered => self.lowest(kind),
            Kind::Unordered => self.past_all().saturating_sub(1),
        }
    }

    /// The count below which a number is too late.
    pub(crate) fn lowest(&self, kind: Kind) -> u64
        ensures { result ≡ lowest_of (inbound_of self.now) (kind_meaning kind) }
    {
        match kind {
            Kind::Ordered => self.next,
            Kind::Unordered => self.skip,
        }
    }

    /// Whether this fragment of this message is kept already; false under DATA, whose fragments are known by their TSNs.
    pub(crate) fn is_held(&self, piece: &Piece<'_>, number: Option<u64>) -> bool
        ensures { (i : ℕ) (l : Lane) (kept : Kept) → lane.StandsFor F.format (lane_in self.now piece.now.unordered) l kept
            → IsOf F.format l (counted i (piece_meaning piece.now) number) → result ≡ is_repeated F.format kept (counted i (piece_meaning piece.now) number) }
    {
        let unordered = piece.unordered;
        if unordered {
            return self.unordered.is_held(piece, number);
        }
        self.ordered.is_held(piece, number)
    }

    /// Whether a message waits.
    pub(crate) fn has_message(&self) -> bool
        ensures { min 1 (length (inbound_of self.now).waiting) ≡ (if result then 1 else 0) }
    {
        self.waiting.len() > 0
    }

    /// The data bytes of the chunks kept.
    pub(crate) fn kept_bytes(&self) -> u32
        ensures { (l k : Lane) (xs ys : Kept) → lane.StandsFor F.format self.now.ordered l xs → lane.StandsFor F.format self.now.unordered k ys
            → result ≡ sized (size_of_pieces xs + size_of_pieces ys) }
    {
        self.ordered
            .held_bytes()
            .saturating_add(self.unordered.held_bytes())
    }
}
