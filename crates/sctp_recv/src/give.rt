//! Delivering: a chunk is kept, and messages that are then due wait for the user (RFC 9260, 6.6; RFC 3758, 3.6).

ghost use Rattle.std.specs.Prelude.{◌≡◌, ◌-◌, ◌^◌, ◌<◌, ◌++◌, [], ◌∷◌, ◌≤◌, ℕ, suc, true, Some, map, length, OnOk, OnErr, IfOk};
ghost use Rattle.std.specs.VecDeque.{deque_len, deque_capacity};
ghost use Rattle.sctp_model.specs.messages.Format.{ordered_lane, unordered_lane};
ghost use Rattle.sctp_model.specs.receiver.Reading.{lane_of};
ghost use Rattle.sctp_wire.specs.ChunkTree.{piece_meaning};
ghost use Rattle.sctp_chains.specs.Cells.{Kept};
ghost use Rattle.sctp_chains.specs.StandsFor as lane;
ghost use Rattle.sctp_chains.specs.StandsFor.{IsNew};
ghost use Rattle.sctp_chains.specs.Cells.{counted};
ghost use Rattle.sctp_recv.specs.Fields.{inbound_of};
ghost use Rattle.sctp_recv.specs.Filed.{lane_in};
ghost use Rattle.sctp_recv.specs.ReceiverKept.{or_past};
ghost use Rattle.sctp_recv.specs.HandedOf.{handed_of, message_bytes};
ghost use Rattle.sctp_recv.specs.inner.Giving.{sized, HasRoom, SameChunks, AreCounted, GivesDue, IsGivenSoFar, GivesNewest, GivesBy};

use crate::inbound::Inbound;
use crate::message::{Message, message_of};
use sctp_chains::Spare;
use sctp_framing::Framing;
use sctp_values::{Kind, NoMemory, small_len};
use sctp_wire::Piece;
use std::collections::VecDeque;

/// Appends a message to those that wait, if there is capacity. It returns its bytes, at most 2^32 - 1. It is inlined, since one of its callers
/// runs for each message.
#[inline(always)]
fn wait(waiting: &mut VecDeque<Message>, message: Message) -> u32
    ensures bytes { result ≡ sized (length (message_bytes message)) }
    ensures waits { deque_len waiting.old < deque_capacity waiting.old → map handed_of waiting.new.items ≡ map handed_of waiting.old.items ++ handed_of message ∷ [] }
    ensures len { deque_len waiting.new ≤ suc (deque_len waiting.old) }
    ensures room { deque_capacity waiting.old ≤ deque_capacity waiting.new }
{
    if waiting.len() < waiting.capacity() {
        return wait_reserved(waiting, message);
    }
    small_len(message.len())
}

/// Appends a message to those that wait, for which there is capacity, and returns its bytes.
#[inline(always)]
fn wait_reserved(waiting: &mut VecDeque<Message>, message: Message) -> u32
    requires room { deque_len waiting.old < deque_capacity waiting.old }
    ensures bytes { result ≡ sized (length (message_bytes message)) }
    ensures waits { map handed_of waiting.new.items ≡ map handed_of waiting.old.items ++ handed_of message ∷ [] }
    ensures len { deque_len waiting.new ≤ suc (deque_len waiting.old) }
    ensures room { deque_capacity waiting.old ≤ deque_capacity waiting.new }
{
    let bytes = small_len(message.len());
    waiting.push_back_reserved(message);
    bytes
}

/// A number of bytes held, less those of a message that is taken: 0 if it has more.
pub(crate) fn less(held: u32, message: &Message) -> u32
    ensures { result ≡ held - length (message_bytes message.now) }
{
    held.saturating_sub(small_len(message.len()))
}

/// One past a number.
fn number_after(number: Option<u64>) -> u64
    ensures { (n : ℕ) → number ≡ Some n → suc n < 2 ^ 64 → result ≡ suc n }
{
    match number {
        Some(number) => number.saturating_add(1),
        None => 0,
    }
}

/// Reserves memory for all messages that can be taken out of the ordered chunks, and for a number more.
///
/// # Errors
/// Allocation failed.
pub(crate) fn make_room<F: Framing>(inbound: &mut Inbound<F>, more: usize) -> Result<(), NoMemory>
    ensures same { inbound_of inbound.new ≡ inbound_of inbound.old }
    ensures chunks { SameChunks F.format inbound.old inbound.new }
    ensures room { OnOk result (HasRoom inbound.new more) }
{
    let most = inbound.ordered.whole_count().saturating_add(more);
    inbound.waiting.reserve(most).map_err(|_| NoMemory)
}

/// Reserves memory for one message.
///
/// # Errors
/// Allocation failed.
fn make_one(waiting: &mut VecDeque<Message>) -> Result<(), NoMemory>
    ensures same { map handed_of waiting.new.items ≡ map handed_of waiting.old.items }
    ensures room { OnOk result (deque_len waiting.new < deque_capacity waiting.new) }
{
    waiting.reserve(1).map_err(|_| NoMemory)
}

/// Delivers the complete messages from the next number on, all ordered numbers below `floor` being skipped; what is below the
/// next number then is dropped. It returns the bytes delivered.
#[inline(always)]
pub(crate) fn give_ordered<F: Framing>(inbound: &mut Inbound<F>, stream: u16, floor: u64) -> u32
    ensures { (kept : Kept) → lane.StandsFor F.format inbound.old.ordered (ordered_lane stream) kept → AreCounted kept → HasRoom inbound.old 0
        → GivesDue F.format stream floor kept inbound.old inbound.new result }
{
    give_on(inbound, stream, floor, 0)
}

/// Delivers as `give` does, and returns the bytes delivered and `before`. If nothing that is kept can be due, nothing is looked for. It is inlined,
/// since one of its callers runs for each message.
#[inline(always)]
fn give_on<F: Framing>(inbound: &mut Inbound<F>, stream: u16, floor: u64, before: u32) -> u32
    ensures { (start : _) (kept : Kept) → AreCounted kept → IsGivenSoFar F.format stream floor kept start inbound.old before
        → GivesDue F.format stream floor kept start inbound.new result }
{
    let next = inbound.next.max(floor);
    if inbound.ordered.is_resting(next) {
        inbound.next = next;
        return before;
    }
    give_kept(inbound, stream, floor, before)
}

/// Delivers as `give` does what is due of the ordered chunks kept, and returns the bytes delivered and `before`.
fn give_kept<F: Framing>(inbound: &mut Inbound<F>, stream: u16, floor: u64, before: u32) -> u32
    ensures { (start : _) (kept : Kept) → AreCounted kept → IsGivenSoFar F.format stream floor kept start inbound.old before
        → GivesDue F.format stream floor kept start inbound.new result }
{
    let mut given = before;
    while let Some(whole) = inbound
        .ordered
        .take_lowest(inbound.next, inbound.next.max(floor))
    {
        inbound.next = number_after(whole.number);
        let bytes = wait(
            &mut inbound.waiting,
            message_of(whole, stream, Kind::Ordered),
        );
        given = given.saturating_add(bytes);
    }
    inbound.next = inbound.next.max(floor);
    inbound.ordered.drop_below(inbound.next);
    given
}

/// The number past those up to `past` and another, if there is one.
fn past_after(past: u64, number: Option<u64>) -> u64
    ensures { ((n : ℕ) → number ≡ Some n → suc n < 2 ^ 64) → result ≡ or_past past number }
{
    match number {
        Some(number) => past.max(number.saturating_add(1)),
        None => past,
    }
}

/// Whether a number is the next one.
fn is_next(number: Option<u64>, next: u64) -> bool
    ensures { result ≡ true → number ≡ Some next }
{
    match number {
        Some(number) => number == next,
        None => false,
    }
}

/// Keeps an ordered chunk, and delivers what is then due: one that is the next message by itself is delivered first, and isn't filed. It returns the bytes delivered.
///
/// # Errors
/// Allocation failed, and nothing changed.
fn keep_ordered<F: Framing>(
    inbound: &mut Inbound<F>,
    spare: &mut Spare,
    piece: &Piece<'_>,
    index: u64,
    number: Option<u64>,
) -> Result<u32, NoMemory>
    ensures given { (kept : Kept) → lane.StandsFor F.format inbound.old.ordered (ordered_lane piece.now.stream) kept
        → IsNew F.format (ordered_lane piece.now.stream) kept (counted index (piece_meaning piece.now) number)
        → AreCounted (counted index (piece_meaning piece.now) number ∷ kept)
        → IfOk result (λ bytes. GivesDue F.format piece.now.stream inbound.old.next (counted index (piece_meaning piece.now) number ∷ kept) inbound.old inbound.new bytes) }
    ensures refused { OnErr result ((inbound_of inbound.new ≡ inbound_of inbound.old) × SameChunks F.format inbound.old inbound.new) }
{
    make_room(inbound, 1)?;
    let next = inbound.next;
    if is_next(number, next) {
        if let Some(whole) = inbound.ordered.alone(spare, piece, index, next)? {
            inbound.next = number_after(whole.number);
            let bytes = wait_reserved(
                &mut inbound.waiting,
                message_of(whole, piece.stream, Kind::Ordered),
            );
            return Ok(give_on(inbound, piece.stream, next, bytes));
        }
    }
    inbound.ordered.add(spare, piece, index, number)?;
    Ok(give_ordered(inbound, piece.stream, next))
}

/// Keeps an unordered chunk, and delivers its message, if it is complete. It returns the bytes delivered.
///
/// # Errors
/// Allocation failed, and nothing changed.
fn keep_unordered<F: Framing>(
    inbound: &mut Inbound<F>,
    spare: &mut Spare,
    piece: &Piece<'_>,
    index: u64,
    number: Option<u64>,
) -> Result<u32, NoMemory>
    ensures given { (kept : Kept) → lane.StandsFor F.format inbound.old.unordered (unordered_lane piece.now.stream) kept
        → IsNew F.format (unordered_lane piece.now.stream) kept (counted index (piece_meaning piece.now) number)
        → lane_of piece.now.stream piece.now.unordered ≡ unordered_lane piece.now.stream → ((n : ℕ) → number ≡ Some n → suc n < 2 ^ 64)
        → IfOk result (λ bytes. GivesNewest F.format piece.now.stream (counted index (piece_meaning piece.now) number) kept inbound.old inbound.new bytes) }
    ensures refused { OnErr result ((inbound_of inbound.new ≡ inbound_of inbound.old) × SameChunks F.format inbound.old inbound.new) }
{
    make_one(&mut inbound.waiting)?;
    inbound.unordered.add(spare, piece, index, number)?;
    inbound.past = past_after(inbound.past, number);
    match inbound.unordered.take_with(piece, index, number) {
        Some(whole) => Ok(wait_reserved(
            &mut inbound.waiting,
            message_of(whole, piece.stream, Kind::Unordered),
        )),
        None => Ok(0),
    }
}

/// Keeps a chunk, and delivers what is then due. It returns the bytes delivered.
///
/// # Errors
/// Allocation failed, and nothing changed.
pub(crate) fn keep_in<F: Framing>(
    inbound: &mut Inbound<F>,
    spare: &mut Spare,
    piece: &Piece<'_>,
    index: u64,
    number: Option<u64>,
) -> Result<u32, NoMemory>
    ensures given { (kept : Kept) → lane.StandsFor F.format (lane_in inbound.old piece.now.unordered) (lane_of piece.now.stream piece.now.unordered) kept
        → IsNew F.format (lane_of piece.now.stream piece.now.unordered) kept (counted index (piece_meaning piece.now) number)
        → AreCounted (counted index (piece_meaning piece.now) number ∷ kept)
        → IfOk result (λ bytes. GivesBy piece.now.unordered F.format piece.now.stream (counted index (piece_meaning piece.now) number) kept inbound.old inbound.new bytes) }
    ensures refused { OnErr result ((inbound_of inbound.new ≡ inbound_of inbound.old) × SameChunks F.format inbound.old inbound.new) }
{
    let unordered = piece.unordered;
    if unordered {
        return keep_unordered(inbound, spare, piece, index, number);
    }
    keep_ordered(inbound, spare, piece, index, number)
}
