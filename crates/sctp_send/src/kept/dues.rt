//! The deadline from which on the lifetime of the message of each ticket may be over (RFC 3758, 3.5): of all messages, whether they are queued,
//! sent in part or outstanding, in one table by ticket.

ghost use Rattle.std.specs.Prelude.{◌≡◌, ℕ, ◌+◌, ◌^◌, ◌<◌, ◌≤◌, ◌⊎◌, [], true, false, drop, length, unwrap_or, OnOk, IfSome, IfNone};
ghost use Rattle.sctp_model.specs.numbers.Limits.{LAST_MOMENT};
ghost use Rattle.sctp_send.specs.inner.Dues.{due_at, IsPushed};

use crate::kept::message::moment_in;
use sctp_sequence::PagedNumbers;
use sctp_values::NoMemory;
use std::alloc::Global;
use std::marker::Model;

/// How many tickets are passed together.
const PAGE: usize = 64;

/// Of no more than so many tickets the moments aren't passed for the sake of memory.
const MANY: usize = 128;

/// The moments of the tickets behind those that are passed: before its own, no message has to be looked at.
///
/// As long as no message has a deadline, all tickets are passed as they are given.
#[derive(Drop)]
pub(crate) struct Dues {
    // so many of the first tickets are passed: none of them is ever late again
    passed: u64,
    // those of the tickets behind, one by one
    moments: PagedNumbers,
    // a message was found late and not to be abandoned as it stood, so that its ticket has the last moment
    asleep: bool,
}

impl Model for Dues {
    ghost use Rattle.std.specs.Prelude.{◌+◌, ◌-◌, ◌^◌, ◌<◌, min, length};
    ghost use Rattle.sctp_send.specs.PartsKept.{DuesKept};

    ghost Value = { DuesKept };

    ghost view = { λ w. record { passed = w.passed; moments = w.moments.items; asleep = w.asleep; capacity = min (2 ^ 64 - 1 - w.passed) w.moments.capacity } };

    ghost invariant = { λ w. w.passed + length w.moments.items < 2 ^ 64 };
}

impl Dues {
    /// Those of no ticket.
    pub(crate) fn new(alloc: Global) -> Dues
        ensures passed { result.passed ≡ 0 }
        ensures moments { result.moments ≡ [] }
        ensures asleep { result.asleep ≡ false }
    {
        Dues {
            passed: 0,
            moments: PagedNumbers::new(alloc),
            asleep: false,
        }
    }

    /// Takes room for a ticket more; there are fewer tickets than numbers.
    ///
    /// # Errors
    /// `NoMemory`.
    #[inline(always)]
    pub(crate) fn reserve(&mut self) -> Result<(), NoMemory>
        ensures passed { self.new.passed ≡ self.old.passed }
        ensures moments { self.new.moments ≡ self.old.moments }
        ensures asleep { self.new.asleep ≡ self.old.asleep }
        ensures room { OnOk result (length self.new.moments < self.new.capacity) }
    {
        if self.passed.saturating_add(self.moments.len() as u64) >= u64::MAX - 1 {
            return Err(NoMemory);
        }
        self.moments.reserve()
    }

    /// A ticket comes behind the others. Its moment is the one that its message has, or the last; where none behind has one, a ticket without a
    /// deadline is passed.
    #[inline(always)]
    pub(crate) fn push(&mut self, until: Option<u64>)
        requires { length self.old.moments < self.old.capacity }
        ensures pushed { IsPushed self.old.passed self.new.passed self.old.moments self.new.moments until }
        ensures small { unwrap_or until LAST_MOMENT < 2 ^ 64 }
        ensures asleep { self.new.asleep ≡ self.old.asleep }
    {
        if until.is_none() && self.moments.len() == 0 {
            self.passed += 1;
            return;
        }
        self.moments.push(moment_in(until));
    }

    /// The first ticket above the last one whose moment has come.
    #[inline(always)]
    pub(crate) fn next(&self, last: u64, now: u64) -> Option<u64>
        ensures above { IfSome result (λ ticket. last < ticket) }
        ensures given { IfSome result (λ ticket. ticket ≤ self.now.passed + length self.now.moments) }
        ensures before { IfSome result (λ ticket. (t : ℕ) → last < t → t < ticket → now < due_at self.now.passed self.now.moments t) }
        ensures none { IfNone result ((t : ℕ) → last < t → now < due_at self.now.passed self.now.moments t) }
    {
        let from = last.saturating_sub(self.passed) as usize;
        match self.moments.first_upto(from, now) {
            Some(at) => Some(self.passed + 1 + at as u64),
            None => None,
        }
    }

    /// The moment of a ticket is told anew: from then on its message may be abandoned, as it stands; or it may not.
    pub(crate) fn tell(&mut self, ticket: u64, until: Option<u64>)
        ensures passed { self.new.passed ≡ self.old.passed }
        ensures long { length self.new.moments ≡ length self.old.moments }
        ensures here { (now : ℕ) → now < due_at self.old.passed self.new.moments ticket → ((self.old.passed < ticket) × (now < unwrap_or until LAST_MOMENT)) ⊎ (now < due_at self.old.passed self.old.moments ticket) }
        ensures others { (t : ℕ) → (t ≡ ticket → ⊥) → due_at self.old.passed self.new.moments t ≡ due_at self.old.passed self.old.moments t }
        ensures asleep { self.new.asleep ≡ true }
    {
        self.asleep = true;
        if let Some(at) = self.index_of(ticket) {
            self.moments.set(at, moment_in(until));
        }
    }

    /// The moment of a ticket is no later than this one from now on.
    pub(crate) fn lower(&mut self, ticket: u64, moment: u64)
        ensures passed { self.new.passed ≡ self.old.passed }
        ensures long { length self.new.moments ≡ length self.old.moments }
        ensures each { (t now : ℕ) → now < due_at self.old.passed self.new.moments t → now < due_at self.old.passed self.old.moments t }
        ensures here { ticket ≤ self.old.passed + length self.old.moments → self.old.passed < ticket → due_at self.old.passed self.new.moments ticket ≤ moment }
        ensures asleep { self.new.asleep ≡ self.old.asleep }
    {
        if let Some(at) = self.index_of(ticket) {
            let least = moment.min(self.moments.get(at));
            self.moments.set(at, least);
        }
    }

    /// The index of the moment of a ticket, if it has one.
    fn index_of(&self, ticket: u64) -> Option<usize>
        ensures some { IfSome result (λ at. (at < length self.now.moments) × (ticket ≡ self.now.passed + 1 + at)) }
        ensures none { IfNone result ((ticket ≤ self.now.passed) ⊎ (self.now.passed + length self.now.moments < ticket)) }
    {
        let at = ticket.checked_sub(self.passed)?.checked_sub(1)? as usize;
        if at < self.moments.len() {
            return Some(at);
        }
        None
    }

    /// Moments that may have come are looked at anew. It changes none.
    #[inline(always)]
    pub(crate) fn look_again(&mut self, now: u64)
        ensures { self.new ≡ self.old }
    {
        self.moments.look_again(now);
    }

    /// Some moment doesn't count what is covered.
    pub(crate) fn is_asleep(&self) -> bool
        ensures { result ≡ self.now.asleep }
    {
        self.asleep
    }

    /// All moments count what is covered.
    pub(crate) fn awake(&mut self)
        ensures { self.new ≡ record self.old { asleep = false } }
    {
        self.asleep = false;
    }

    /// A page was begun, and it is time to look whether there is one before it, and whether that is passed.
    pub(crate) fn is_due(&self) -> bool {
        self.moments.len() % PAGE == 1
    }

    /// The last ticket of the first page, if there is one.
    pub(crate) fn first_page(&self) -> Option<u64>
        ensures { IfSome result (λ last. (last ≡ self.now.passed + 64) × (64 ≤ length self.now.moments)) }
    {
        if self.moments.len() >= PAGE {
            return Some(self.passed + PAGE as u64);
        }
        None
    }

    /// How many pages may be passed, if there is much memory of which little is needed once they are.
    pub(crate) fn pages_left(&self) -> usize {
        if self.moments.len() <= MANY {
            return 0;
        }
        self.moments.len() / PAGE
    }

    /// Gives memory back, if little of it is used.
    pub(crate) fn give_back(&mut self)
        ensures { self.new ≡ record self.old { capacity = self.new.capacity } }
    {
        self.moments.give_back();
    }

    /// The tickets of the first page are passed.
    pub(crate) fn pass_page(&mut self)
        requires { 64 ≤ length self.old.moments }
        ensures passed { self.new.passed ≡ self.old.passed + 64 }
        ensures moments { self.new.moments ≡ drop 64 self.old.moments }
        ensures asleep { self.new.asleep ≡ self.old.asleep }
    {
        self.moments.drop_page();
        self.passed += PAGE as u64;
    }
}
