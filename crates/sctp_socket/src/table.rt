//! The associations of a socket: by their numbers, and by their verification tags.

ghost use Rattle.std.specs.Prelude.{◌≡◌, ℕ, IfOk, OnErr, MatchOption, option_copied};
ghost use Rattle.std.specs.Bool.{Decides};
ghost use Rattle.sctp_socket.specs.Table.{Closed, Entered, Freed, HasNone, IsAdmitted, IsFor, IsSame, Opened, Unnoted, entry_of, next_of, serves_another};

use crate::numbered::Numbered;
use crate::peer::{Peer, Source};
use crate::tags::Tags;
use sctp_values::NoMemory;
use std::alloc::Global;

/// An association, with what a socket keeps of it.
#[derive(Drop)]
pub struct Entry<E: Drop> {
    /// Where its packets go, and are from.
    pub peer: Peer,
    /// Its verification tag: packets to this side carry it.
    pub own: u32,
    /// The time up to which its peer's cookies begin nothing, in milliseconds: at it the association was called, or the cookie made that began it.
    pub bar: u64,
    /// It isn't over for its user by a restart of the peer.
    pub current: bool,
    /// Its endpoint.
    pub end: E,
}

/// The associations of a socket.
#[derive(Drop)]
pub struct Table<E: Drop> {
    pub(crate) entries: Numbered<Entry<E>>,
    pub(crate) tags: Tags,
}

impl<E: Drop> Table<E> {
    /// No association.
    pub fn new(alloc: Global) -> Table<E>
        ensures none { HasNone result }
        ensures next { next_of result ≡ 1 }
    {
        Table {
            entries: Numbered::new(alloc),
            tags: Tags::new(alloc),
        }
    }

    /// The number that the next association gets.
    pub(crate) fn next(&self) -> u64
        ensures { result ≡ next_of self.now }
    {
        self.entries.next()
    }

    /// Adds an association under the next number, which is returned. None, and nothing changed, if its verification tag is already of one.
    ///
    /// # Errors
    /// `NoMemory` if an allocation failed, or the numbers are used up: nothing changed.
    pub fn open(&mut self, entry: Entry<E>) -> Result<Option<u64>, NoMemory>
        ensures step { IfOk result (λ number. Opened self.old entry number self.new) }
        ensures refused { OnErr result (IsSame self.old self.new) }
    {
        let number = self.entries.next();
        match self.tags.insert(entry.own, number) {
            Ok(true) => self.enter(entry),
            Ok(false) => Ok(None),
            Err(fault) => Err(fault),
        }
    }

    // Adds an association whose tag is already noted; if that fails the tag is free again.
    fn enter(&mut self, entry: Entry<E>) -> Result<Option<u64>, NoMemory>
        ensures step { IfOk result (λ number. Entered self.old entry number self.new) }
        ensures refused { OnErr result (Freed self.old entry.own self.new) }
    {
        let own = entry.own;
        match self.entries.insert(entry) {
            Ok(number) => Ok(Some(number)),
            Err(fault) => {
                self.tags.remove(own);
                Err(fault)
            }
        }
    }

    /// Removes the association with this number. The number isn't given again; the tag stays, so that no cookie begins another association under it, until it is freed.
    pub fn close(&mut self, number: u64) -> Option<Entry<E>>
        ensures answer { result ≡ entry_of self.old number }
        ensures step { Closed self.old number self.new }
    {
        self.entries.remove(number)
    }

    /// Frees the tag of an association that was removed, once its cookies are too old to open.
    pub fn free(&mut self, tag: u32)
        ensures { Unnoted self.old tag self.new }
    {
        self.tags.remove(tag);
    }

    /// Whether a tag is of an association, also of one that was removed, other than the one with this number, if there is one: then a cookie under it begins nothing.
    pub fn serves_another(&self, tag: u32, number: Option<u64>) -> bool
        ensures { result ≡ serves_another self.now tag number }
    {
        self.tags.serves_another(tag, number)
    }

    /// The association with this number.
    pub fn get(&self, number: u64) -> Option<&Entry<E>>
        ensures { option_copied result ≡ entry_of self.now number }
    {
        self.entries.get(number)
    }

    /// The number of the association that a packet with this verification tag is for, if it is from there: None if the tag is of none, or its peer is at another host.
    pub fn find(&self, tag: u32, from: &Peer, source: Source) -> Option<u64>
        ensures { MatchOption result ((n : ℕ) → IsFor self.now tag from.now source n → ⊥) (λ n. IsFor self.now tag from.now source n) }
    {
        match self.tags.number_of(tag) {
            None => None,
            Some(number) => self.admitted(number, from, source),
        }
    }

    // This number, if its association's peer admits packets from there.
    fn admitted(&self, number: u64, from: &Peer, source: Source) -> Option<u64>
        ensures { MatchOption result (IsAdmitted source from.now (entry_of self.now number) → ⊥) (λ n. (n ≡ number) × IsAdmitted source from.now (entry_of self.now number)) }
    {
        if self.admits(number, from, source) {
            Some(number)
        } else {
            None
        }
    }

    // Whether there is an association with this number whose peer admits packets from there.
    fn admits(&self, number: u64, from: &Peer, source: Source) -> bool
        ensures { Decides result (IsAdmitted source from.now (entry_of self.now number)) }
    {
        match self.entries.get(number) {
            None => false,
            Some(entry) => entry.current && entry.peer.admits(from, source),
        }
    }
}
