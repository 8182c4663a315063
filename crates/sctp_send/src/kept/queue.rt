//! The messages that wait for their numbers, the first to come in front, and what is counted of them.

ghost use Rattle.std.specs.Prelude.{◌≡◌, ℕ, ◌+◌, ◌<◌, ◌≤◌, ◌↔◌, ◌%◌, ◌^◌, ◌++◌, ◌∷◌, [], List, true, false, map, length, remove, slice_index_or, IsSome, OnSome, OnOk, OnErr, IfSome, IfNone};
ghost use Rattle.std.specs.List.{Contains};
ghost use Rattle.std.specs.VecDeque.{deque_len};
ghost use Rattle.sctp_model.specs.numbers.Limits.{LONGEST_MESSAGE};
ghost use Rattle.sctp_model.specs.sender.Queueing.{cut, owed_by_queue};
ghost use Rattle.sctp_model.specs.sender.Abandoning.{waits};
ghost use Rattle.sctp_send.specs.SenderFields.{queued_by};
ghost use Rattle.sctp_send.specs.Waiting.{waiting_bytes};
ghost use Rattle.sctp_send.specs.inner.Owning.{IsOwned};
ghost use Rattle.sctp_send.specs.inner.Seating.{seat_of, AreLower, NextOnAnswer};
ghost use Rattle.sctp_sequence.specs.Pairs.{AreSame};
ghost use Rattle.sctp_sequence.specs.declared.pairs.Pair.{Pair};

use crate::kept::message::{Message, bytes_of};
use crate::kept::pieces::owed;
use crate::kept::seats::{
    Found, add_seat, first_from, is_in_front, make_place, make_room, next_by_looking,
    next_by_seats, seat_of,
};
use crate::kept::user_data::{add_bytes, take_bytes};
use crate::kept::waiting::{Waiting, take_others};
use sctp_sequence::Pairs;
use sctp_values::NoMemory;
use std::alloc::Global;
use std::collections::VecDeque;
use std::marker::Model;
use std::sync::Arc;

/// The messages without a number, with counts of them.
#[derive(Drop)]
pub(crate) struct Queue {
    // the most bytes of a fragment
    pub(crate) size: u16,
    pub(crate) messages: VecDeque<Waiting>,
    // the TSNs that they may take, modulo 2^64
    pub(crate) owed: u64,
    // their bytes, modulo 2^64
    pub(crate) bytes: u64,
    // of each stream those of user data, modulo 2^32; 0 on streams above the last one here
    pub(crate) user_bytes: Vec<u32>,
    // tickets rise from the front on: so it is where `queue` gives them
    pub(crate) rises: bool,
    // that of the message that came last
    pub(crate) last: u64,
    // where streams take turns, each message by its stream and its ticket
    pub(crate) seats: Pairs,
    pub(crate) is_seated: bool,
}

impl Model for Queue {
    ghost use Rattle.sctp_send.specs.PartsKept.{QueueKept};

    ghost Value = { QueueKept };

    ghost use Rattle.sctp_send.specs.inner.Owning.{messages_of};
    ghost use Rattle.sctp_send.specs.inner.Seating.{IsQueueOf};

    ghost view = { λ w. record { size = w.size; items = messages_of w.messages.items } };

    ghost invariant = { λ w. IsQueueOf w.size w.messages.items w.owed w.rises w.last w.is_seated w.seats.items w.bytes w.user_bytes.items };
}

impl Queue {
    /// No message, of fragments with at most so many bytes; streams take turns, or don't.
    pub(crate) fn new(alloc: Global, size: u16, takes_turns: bool) -> Queue
        requires { 0 < size }
        ensures size { result.size ≡ size }
        ensures items { result.items ≡ [] }
    {
        let messages = VecDeque::new(alloc);
        let seats = Pairs::new(alloc);
        let user_bytes = Vec::new(alloc);
        Queue {
            size,
            messages,
            owed: 0,
            bytes: 0,
            user_bytes,
            rises: true,
            last: 0,
            seats,
            is_seated: takes_turns,
        }
    }

    /// How many messages wait.
    pub(crate) fn len(&self) -> usize
        ensures { result ≡ length self.now.items }
    {
        self.messages.len()
    }

    /// The message at a place.
    pub(crate) fn get(&self, at: usize) -> &Arc<Message>
        requires { at < length self.now.items }
        ensures { result.now ≡ slice_index_or self.now.items at result.now }
    {
        &self.messages[at].message
    }

    /// The TSNs that the messages may take, modulo 2^64.
    pub(crate) fn owed(&self) -> u64
        ensures { result ≡ owed_by_queue (map (queued_by self.now.size) self.now.items) % 2 ^ 64 }
    {
        self.owed
    }

    /// The bytes of the messages, modulo 2^64.
    pub(crate) fn bytes(&self) -> u64
        ensures { result ≡ waiting_bytes (map (queued_by self.now.size) self.now.items) % 2 ^ 64 }
    {
        self.bytes
    }

    /// A message of so many fragments waits behind the others, with the owners of these.
    ///
    /// # Errors
    /// `NoMemory`: it doesn't wait.
    #[inline(always)]
    pub(crate) fn push(
        &mut self,
        alloc: Global,
        message: Arc<Message>,
        fragments: usize,
    ) -> Result<(), NoMemory>
        requires all { fragments ≡ length (cut self.old.size message.value.bytes.items) }
        requires some { 0 < length message.value.bytes.items }
        requires short { length message.value.bytes.items ≤ LONGEST_MESSAGE }
        ensures size { self.new.size ≡ self.old.size }
        ensures items { OnOk result (self.new.items ≡ self.old.items ++ message ∷ []) }
        ensures unchanged { OnErr result (self.new.items ≡ self.old.items) }
    {
        let seat = seat_of(&message);
        let bytes = bytes_of(&message);
        let mut others = Vec::new(alloc);
        take_others(&mut others, &message, fragments - 1)?;
        make_room(&mut self.seats, self.is_seated)?;
        make_place(&mut self.messages)?;
        add_bytes(&mut self.user_bytes, &message)?;
        self.messages
            .push_back_reserved(Waiting { message, others });
        self.owed = self.owed.wrapping_add(owed(fragments));
        self.bytes = self.bytes.wrapping_add(bytes);
        self.rises = self.rises && self.last < seat.second;
        self.last = seat.second;
        add_seat(&mut self.seats, self.is_seated, seat);
        Ok(())
    }

    /// The message at a place waits no more, where there is one.
    #[inline(always)]
    pub(crate) fn remove(&mut self, place: usize) -> Option<Waiting>
        ensures some { place < length self.old.items → self.new ≡ record self.old { items = remove self.old.items place } }
        ensures message { IfSome result (λ w. (place < length self.old.items) × (w.message ≡ slice_index_or self.old.items place w.message)) }
        ensures owned { IfSome result (λ w. IsOwned self.old.size 0 w.message w.others.items) }
        ensures none { IfNone result ((length self.old.items ≤ place) × (self.new ≡ self.old)) }
    {
        let waiting = remove_at(&mut self.messages, place)?;
        let message: &Message = &waiting.message;
        let bytes: &[u8] = &message.bytes;
        let owed = owed(waiting.fragments());
        self.owed = self.owed.wrapping_sub(owed);
        self.bytes = self.bytes.wrapping_sub(bytes.len() as u64);
        take_bytes(&mut self.user_bytes, message);
        if self.is_seated {
            free_seat(&mut self.seats, &waiting.message);
        }
        Some(waiting)
    }

    /// How many of the first messages have lower tickets, where tickets rise; else none.
    pub(crate) fn first_from(&self, ticket: u64) -> usize
        ensures lower { AreLower ticket result self.now.items }
        ensures within { result ≤ length self.now.items }
    {
        first_from(&self.messages, self.rises, ticket)
    }

    /// All messages have tickets behind this one. It says nothing where tickets don't rise.
    pub(crate) fn is_past(&self, last: u64) -> bool
        ensures { (size t : ℕ) → result ≡ true → t ≤ last → waits t (map (queued_by size) self.now.items) ≡ false }
    {
        if self.messages.len() == 0 {
            return true;
        }
        if !self.rises {
            return false;
        }
        let message = &self.messages[0].message;
        if last < message.ticket {
            return true;
        }
        false
    }

    /// The first stream from one on, below another, on which a message waits, and the place of the message that has waited longest on it.
    #[inline(always)]
    pub(crate) fn next_on(&self, from: u16, below: u16) -> Option<Found>
        ensures next { (size : ℕ) → NextOnAnswer from below (map (queued_by size) self.now.items) result }
        ensures within { IfSome result (λ found. found.place < length self.now.items) }
    {
        if is_in_front(&self.messages, from, below) {
            return Some(Found {
                stream: from,
                place: 0,
            });
        }
        if self.rises && self.is_seated {
            return next_by_seats(&self.messages, &self.seats, from, below);
        }
        next_by_looking(&self.messages, from, below)
    }
}

/// The message at a place goes, where there is one. The first one moves no other.
#[inline(always)]
fn remove_at(messages: &mut VecDeque<Waiting>, place: usize) -> Option<Waiting>
    ensures value { IfSome result (λ w. w ≡ slice_index_or messages.old.items place w) }
    ensures items { OnSome result (messages.new.items ≡ remove messages.old.items place) }
    ensures variant { IsSome result ↔ (place < deque_len messages.old) }
    ensures unchanged { IfNone result (messages.new ≡ messages.old) }
{
    if place > 0 || messages.is_empty() {
        return remove_among(messages, place);
    }
    messages.pop_front()
}

/// Removes the message at a place other than the front. A function of its own, so that the first one is removed cheaply.
#[inline(never)]
fn remove_among(messages: &mut VecDeque<Waiting>, place: usize) -> Option<Waiting>
    ensures value { IfSome result (λ w. w ≡ slice_index_or messages.old.items place w) }
    ensures items { OnSome result (messages.new.items ≡ remove messages.old.items place) }
    ensures variant { IsSome result ↔ (place < deque_len messages.old) }
    ensures unchanged { IfNone result (messages.new ≡ messages.old) }
{
    messages.remove(place)
}

/// The seat of a message is free again. A function of its own, since most associations keep no seats.
#[inline(never)]
fn free_seat(seats: &mut Pairs, message: &Arc<Message>)
    ensures { (ps : List Pair) → AreSame seats.old.items ps → Contains ps (seat_of message.now) → AreSame seats.old.items (seat_of message.now ∷ seats.new.items) }
{
    let _was_there = seats.remove(seat_of(message));
}
