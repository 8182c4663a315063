//! Where a message that waits stands: by its ticket among the others, and by its stream.

ghost use Rattle.std.specs.Prelude.{◌≡◌, ℕ, ◌<◌, ◌≤◌, ◌∷◌, true, nat_lt, map, length, slice_index_or, IfSome, IfNone, OnOk};
ghost use Rattle.std.specs.VecDeque.{deque_capacity, deque_len};
ghost use Rattle.sctp_send.specs.SenderFields.{queued_by};
ghost use Rattle.sctp_send.specs.inner.Newcomers.{FirstOnAnswer, IsFirstOn};
ghost use Rattle.sctp_send.specs.inner.Owning.{messages_of};
ghost use Rattle.sctp_send.specs.inner.Seating.{ticket_in, seat_of, AreLower, AreSeats, DoTicketsRise, IsPlaceOf, NextOnAnswer};
ghost use Rattle.sctp_sequence.specs.Pairs.{AreSame};
ghost use Rattle.sctp_sequence.specs.declared.pairs.Pair.{Pair};

use crate::kept::message::Message;
use crate::kept::waiting::Waiting;
use sctp_sequence::{Pair, Pairs};
use sctp_values::NoMemory;
use std::collections::VecDeque;
use std::sync::Arc;

/// A stream on which a message waits, and the place of the message that has waited longest on it.
#[derive(Clone, Copy)]
pub(crate) struct Found {
    pub(crate) stream: u16,
    pub(crate) place: usize,
}

/// A message by its stream and its ticket.
pub(crate) fn seat_of(message: &Arc<Message>) -> Pair
    ensures { result ≡ seat_of message.now }
{
    Pair {
        first: u64::from(message.stream),
        second: message.ticket,
    }
}

/// How many of the first messages have lower tickets, by halves, where tickets rise; else none.
#[inline(always)]
pub(crate) fn first_from(messages: &VecDeque<Waiting>, rises: bool, ticket: u64) -> usize
    requires { rises ≡ true → DoTicketsRise (messages_of messages.now.items) }
    ensures place { rises ≡ true → IsPlaceOf ticket result (messages_of messages.now.items) }
    ensures lower { AreLower ticket result (messages_of messages.now.items) }
    ensures within { result ≤ length messages.now.items }
{
    if !rises || messages.len() == 0 {
        return 0;
    }
    // The first one is asked for most often.
    if messages[0].message.ticket >= ticket {
        return 0;
    }
    first_by_halves(messages, ticket)
}

/// How many of the first messages have lower tickets, by a binary search, when tickets rise. A function of its own, since the first one is
/// asked for most often.
#[inline(never)]
fn first_by_halves(messages: &VecDeque<Waiting>, ticket: u64) -> usize
    requires { DoTicketsRise (messages_of messages.now.items) }
    ensures { IsPlaceOf ticket result (messages_of messages.now.items) }
{
    messages.partition_point(
        |waiting: &Waiting| -> bool
            ensures { result ≡ nat_lt (ticket_in waiting.now.message) ticket }
        { waiting.message.ticket < ticket },
    )
}

/// There is room for one message more.
///
/// # Errors
/// `NoMemory`.
#[inline(always)]
pub(crate) fn make_place(messages: &mut VecDeque<Waiting>) -> Result<(), NoMemory>
    ensures items { messages.new.items ≡ messages.old.items }
    ensures room { OnOk result (deque_len messages.new < deque_capacity messages.new) }
{
    if messages.len() < messages.capacity() {
        return Ok(());
    }
    grow(messages)
}

/// Takes memory for messages to come. A function of its own, so that the test before it stays small.
#[inline(never)]
fn grow(messages: &mut VecDeque<Waiting>) -> Result<(), NoMemory>
    ensures items { messages.new.items ≡ messages.old.items }
    ensures room { OnOk result (deque_len messages.new < deque_capacity messages.new) }
{
    messages.reserve(1).map_err(|_| NoMemory)
}

/// There is room for one seat more, where the seats are kept.
///
/// # Errors
/// `NoMemory`.
pub(crate) fn make_room(seats: &mut Pairs, is_seated: bool) -> Result<(), NoMemory>
    ensures items { seats.new.items ≡ seats.old.items }
    ensures room { OnOk result (is_seated ≡ true → length seats.new.items < seats.new.capacity) }
{
    if is_seated { seats.reserve(1) } else { Ok(()) }
}

/// A seat is taken, where the seats are kept.
#[inline(always)]
pub(crate) fn add_seat(seats: &mut Pairs, is_seated: bool, seat: Pair)
    requires { is_seated ≡ true → length seats.old.items < seats.old.capacity }
    ensures { is_seated ≡ true → AreSame seats.new.items (seat ∷ seats.old.items) }
{
    if is_seated {
        seats.insert_reserved(seat);
    }
}

/// The place of the message that has waited longest on a stream.
fn first_on(messages: &VecDeque<Waiting>, stream: u16) -> Option<usize>
    ensures first { (size : ℕ) → FirstOnAnswer stream (map (queued_by size) (messages_of messages.now.items)) result }
    ensures within { IfSome result (λ at. at < length messages.now.items) }
{
    for at in 0..messages.len() {
        let message = &messages[at].message;
        if message.stream == stream {
            return Some(at);
        }
    }
    None
}

/// The message in front of all is of a stream, which is below another.
#[inline(always)]
pub(crate) fn is_in_front(messages: &VecDeque<Waiting>, stream: u16, below: u16) -> bool
    ensures first { (size : ℕ) → result ≡ true → IsFirstOn stream 0 (map (queued_by size) (messages_of messages.now.items)) }
    ensures low { result ≡ true → stream < below }
    ensures within { result ≡ true → 0 < length messages.now.items }
{
    if messages.len() == 0 || stream >= below {
        return false;
    }
    let message = &messages[0].message;
    if message.stream == stream {
        return true;
    }
    false
}

/// The first stream from one on, below another, on which a message waits, and where, by the seats, when tickets rise.
pub(crate) fn next_by_seats(
    messages: &VecDeque<Waiting>,
    seats: &Pairs,
    from: u16,
    below: u16,
) -> Option<Found>
    requires rise { DoTicketsRise (messages_of messages.now.items) }
    requires seats { AreSeats (messages_of messages.now.items) seats.now.items }
    ensures next { (size : ℕ) → NextOnAnswer from below (map (queued_by size) (messages_of messages.now.items)) result }
    ensures within { IfSome result (λ found. found.place < length messages.now.items) }
{
    let Some(seat) = seats.first_from(u64::from(from)) else {
        return None;
    };
    if seat.first >= u64::from(below) {
        return None;
    }
    let place = first_from(messages, true, seat.second);
    Some(Found {
        stream: seat.first as u16,
        place,
    })
}

/// The first stream from one on, below another, on which a message waits, and where, by looking through all messages for each.
#[inline(never)]
pub(crate) fn next_by_looking(messages: &VecDeque<Waiting>, from: u16, below: u16) -> Option<Found>
    ensures next { (size : ℕ) → NextOnAnswer from below (map (queued_by size) (messages_of messages.now.items)) result }
    ensures within { IfSome result (λ found. found.place < length messages.now.items) }
{
    for stream in from..below {
        if let Some(place) = first_on(messages, stream) {
            return Some(Found { stream, place });
        }
    }
    None
}
