//! A stream, with or without state.

ghost use Rattle.std.specs.Prelude.{◌≡◌, ◌<◌, ◌^◌, ℕ, true, false, [], ◌∷◌, ◌&&◌, min, length, if◌then◌else◌, map, replicate, slice_get, None, Some, IfOk, OnOk, IsSome, MatchOption};
ghost use Rattle.sctp_model.specs.messages.Format.{Lane, is_numbered};
ghost use Rattle.sctp_model.specs.messages.Framing.{number_near};
ghost use Rattle.sctp_model.specs.receiver.PieceTaken.{is_repeated};
ghost use Rattle.sctp_values.specs.Meanings.{kind_meaning};
ghost use Rattle.sctp_wire.specs.ChunkTree.{piece_meaning};
ghost use Rattle.sctp_chains.specs.Cells.{Kept, IsOf, IsLowestIndex, counted};
ghost use Rattle.sctp_chains.specs.StandsFor as lane;
ghost use Rattle.sctp_recv.specs.Fields.{inbound_of, inside, stream_of};
ghost use Rattle.sctp_recv.specs.Filed.{Keeps, SameLanes, AreFiled};
ghost use Rattle.sctp_recv.specs.HandedOf.{handed_of};
ghost use Rattle.sctp_recv.specs.ReceiverKept.{FRESH, near_of, number_read, in_64, lowest_of, is_below_or_none};
ghost use Rattle.sctp_recv.specs.inner.Restarting.{restart_from};

use crate::inbound::Inbound;
use crate::message::Message;
use crate::restart::Restart;
use sctp_framing::Framing;
use sctp_values::{Kind, NoMemory};
use sctp_wire::Piece;
use std::alloc::Global;
use std::collections::VecDeque;

/// Memory for so many messages is given back when none waits. That for fewer stays until the user asks for it (`Receiver::trim`): what an allocator does at a
/// large block would be dear beside their own cost on a link that fills and drains its window each round trip.
const MANY: usize = 2_048;

/// Memory for so many stays then.
const FEW: usize = 64;

/// A stream. Until a chunk of it is kept or a FORWARD goes to it, it has no state, and is a null pointer: its numbers count from 0.
#[derive(Drop)]
pub(crate) struct Stream<F: Framing> {
    pub(crate) inbound: Option<Box<Inbound<F>>>,
}

impl<F: Framing> Stream<F> {
    /// The count near which a wire value is read.
    pub(crate) fn near(&self, kind: Kind) -> u64
        ensures near { result ≡ near_of (stream_of self.now) (kind_meaning kind) }
        // The lowest number that counts is a count.
        ensures lowest { lowest_of (stream_of self.now) (kind_meaning kind) < 2 ^ 64 }
    {
        match &self.inbound {
            Some(inbound) => inbound.near(kind),
            None => 0,
        }
    }

    /// The count below which a number is too late.
    fn lowest(&self, kind: Kind) -> u64
        ensures { result ≡ lowest_of (stream_of self.now) (kind_meaning kind) }
    {
        match &self.inbound {
            Some(inbound) => inbound.lowest(kind),
            None => 0,
        }
    }

    /// The number that a wire value is read as, if the stream wasn't reset.
    pub(crate) fn number(&self, kind: Kind, wire: u32) -> Option<u64>
        ensures number { result ≡ number_near F.format (kind_meaning kind) wire (near_of (stream_of self.now) (kind_meaning kind)) }
        ensures lowest { lowest_of (stream_of self.now) (kind_meaning kind) < 2 ^ 64 }
    {
        F::number_near(kind, wire, self.near(kind))
    }

    /// The number that a wire value is read as, if `base` is 0 on the wire: the largest stands for each that is no count below it.
    pub(crate) fn number_near(&self, kind: Kind, wire: u32, base: u64) -> Option<u64>
        ensures number { result ≡ in_64 (number_read F.format (kind_meaning kind) base wire (near_of (stream_of self.now) (kind_meaning kind))) }
        ensures lowest { lowest_of (stream_of self.now) (kind_meaning kind) < 2 ^ 64 }
    {
        match F::number_near(kind, wire, self.near(kind).saturating_sub(base)) {
            Some(number) => Some(base.saturating_add(number)),
            None => None,
        }
    }

    /// How its numbers begin anew, if it is reset now.
    pub(crate) fn restart(&self) -> Restart
        ensures { result ≡ restart_from (stream_of self.now) }
    {
        match &self.inbound {
            Some(inbound) => Restart {
                ordered: inbound.next,
                unordered: inbound.past_all(),
                old: inbound.waiting.len(),
            },
            None => Restart::none(),
        }
    }

    /// Whether a chunk is too late: its number is below those that count, or it has none although its kind is numbered.
    pub(crate) fn is_late(&self, kind: Kind, number: Option<u64>) -> bool
        ensures { result ≡ (is_numbered F.format (kind_meaning kind) && is_below_or_none (lowest_of (stream_of self.now) (kind_meaning kind)) number) }
    {
        F::is_numbered(kind)
            && match number {
                Some(number) => number < self.lowest(kind),
                None => true,
            }
    }

    /// Whether this fragment of this message is kept already; false under DATA, whose fragments are known by their TSNs.
    pub(crate) fn is_held(&self, piece: &Piece<'_>, number: Option<u64>) -> bool
        ensures { (i : ℕ) (l : Lane) (kept : Kept) → Keeps F.format (inside self.now) piece.now.unordered l kept
            → IsOf F.format l (counted i (piece_meaning piece.now) number) → result ≡ is_repeated F.format kept (counted i (piece_meaning piece.now) number) }
    {
        match &self.inbound {
            Some(inbound) => inbound.is_held(piece, number),
            None => false,
        }
    }

    /// The lowest index of the unordered chunks kept, if their messages have no number: None if and only if none is kept.
    pub(crate) fn lowest_unordered(&self) -> Option<u64>
        ensures { (l : Lane) (kept : Kept) → Keeps F.format (inside self.now) true l kept → is_numbered F.format l.kind ≡ false → IsLowestIndex kept result }
    {
        match &self.inbound {
            Some(inbound) => inbound.unordered.lowest_index(),
            None => None,
        }
    }

    /// The message that waits at a position, from 0.
    pub(crate) fn message(&self, place: usize) -> Option<&Message>
        ensures { MatchOption result (slice_get (stream_of self.now).waiting place ≡ None)
            (λ m. slice_get (stream_of self.now).waiting place ≡ Some (handed_of m.now)) }
    {
        match &self.inbound {
            Some(inbound) => inbound.waiting.get(place),
            None => None,
        }
    }

    /// Whether a message waits.
    pub(crate) fn has_message(&self) -> bool
        ensures { min 1 (length (stream_of self.now).waiting) ≡ (if result then 1 else 0) }
    {
        let Some(inbound) = &self.inbound else {
            return false;
        };
        inbound.has_message()
    }
}

/// A number of streams on which nothing was received.
///
/// # Errors
/// Allocation failed.
pub(crate) fn fresh_streams<F: Framing>(
    alloc: Global,
    count: u16,
) -> Result<Vec<Stream<F>>, NoMemory>
    ensures streams { IfOk result (λ streams. map stream_of streams.items ≡ replicate count FRESH) }
    ensures filed { IfOk result (λ streams. AreFiled F.format [] streams.items) }
{
    let mut streams = Vec::with_capacity(alloc, usize::from(count)).map_err(|_| NoMemory)?;
    for _ in 0..count {
        streams
            .push(Stream { inbound: None })
            .map_err(|_| NoMemory)?;
    }
    Ok(streams)
}

/// Allocates the state of a stream, if it has none.
///
/// # Errors
/// Allocation failed.
#[inline(always)]
pub(crate) fn make<F: Framing>(alloc: Global, stream: &mut Stream<F>) -> Result<(), NoMemory>
    ensures same { stream_of stream.new ≡ stream_of stream.old }
    ensures chunks { SameLanes F.format stream.old stream.new }
    ensures made { OnOk result (IsSome stream.new.inbound) }
{
    if stream.inbound.is_none() {
        stream.inbound = Some(begin(alloc)?);
    }
    Ok(())
}

/// The state of a stream on which nothing was received. It runs once for each stream, and `make` for each chunk.
///
/// # Errors
/// Allocation failed.
#[inline(never)]
fn begin<F: Framing>(alloc: Global) -> Result<Box<Inbound<F>>, NoMemory>
    ensures known { IfOk result (λ made. inbound_of made.value ≡ FRESH) }
    ensures ordered { IfOk result (λ made. (l : Lane) → lane.StandsFor F.format made.value.ordered l []) }
    ensures unordered { IfOk result (λ made. (l : Lane) → lane.StandsFor F.format made.value.unordered l []) }
{
    Box::new(alloc, Inbound::fresh(alloc)).map_err(|_| NoMemory)
}

/// Takes the first message that waits, if one does. If none waits then, memory is given back.
pub(crate) fn take_first<F: Framing>(stream: &mut Stream<F>) -> Option<Message>
    ensures first { MatchOption result
        (((stream_of stream.old).waiting ≡ []) × (stream_of stream.new ≡ stream_of stream.old))
        (λ m. stream_of stream.old
        ≡ record (stream_of stream.new) { waiting = handed_of m ∷ (stream_of stream.new).waiting }) }
    ensures chunks { SameLanes F.format stream.old stream.new }
{
    match &mut stream.inbound {
        Some(inbound) => {
            let waiting = &mut inbound.waiting;
            let first = waiting.pop_front();
            give_back(waiting);
            first
        }
        None => None,
    }
}

/// Gives memory back if it is for many messages, and none waits.
#[inline(always)]
fn give_back(waiting: &mut VecDeque<Message>)
    ensures { waiting.new.items ≡ waiting.old.items }
{
    if waiting.is_empty() && waiting.capacity() >= MANY {
        shrink(waiting);
    }
}

/// Keeps memory for a few messages; if that can't be allocated, all memory stays.
#[inline(never)]
fn shrink(waiting: &mut VecDeque<Message>)
    ensures { waiting.new.items ≡ waiting.old.items }
{
    waiting.shrink_to(FEW);
}
