//! Miss indications, and Fast Recovery.

ghost use Rattle.std.specs.Prelude.{◌≡◌, ℕ, ◌<◌, ◌≤◌, suc, Bool, List, if◌then◌else◌, nat_lt, nat_le, ◌&&◌, is_some, IfSome, OnOk};
ghost use Rattle.sctp_model.specs.sender.SenderView.{SenderView};
ghost use Rattle.sctp_model.specs.end.Misses as model;
ghost use Rattle.sctp_model.specs.end.Misses.{Misses, fresh_misses, expired_misses, noticed, last_sent, recovery_at, recovery_begun, misses_sent, goes_again};
ghost use Rattle.sctp_model.specs.end.Pacing.{misses_heard};
ghost use Rattle.sctp_model.specs.sender.Filling.{Wish};
ghost use Rattle.sctp_congestion.specs.Went.{went_at, AreThose};
ghost use Rattle.sctp_congestion.specs.PaceStands.{MissesStand};
ghost use Rattle.sctp_congestion.specs.Highest.{AreHighest, AreTakenBack};

use crate::last_sendings::LastSendings;
use sctp_values::NoMemory;
use std::alloc::Global;
use std::marker::Model;

/// Which chunks have three miss indications, and whether Fast Recovery is on (RFC 9260, 7.2.4): no count for each chunk, but three numbers for all, and
/// for each when it was sent last: it is missed by what was sent for the first time after that.
///
/// All numbers are indexes, which count TSNs without wrapping from 1 on; 0 is none.
#[derive(Drop)]
pub(crate) struct MissIndications {
    /// The three largest of the highest indexes that acknowledgements newly acknowledged (HTNA).
    first: u64,
    second: u64,
    third: u64,
    /// The exit point of Fast Recovery, if that is on.
    exit: Option<u64>,
    went: LastSendings,
}

impl Model for MissIndications {
    ghost use Rattle.sctp_congestion.specs.PaceStands.{MissesKept};

    ghost Value = { MissesKept };

    ghost view = { λ m. record { first = m.first; second = m.second; third = m.third; exit = m.exit; went = m.went } };
}

/// The highest indexes of an acknowledgement, and the cumulative TSN's after it.
#[derive(Clone, Copy, Debug)]
pub struct Highest {
    /// The index of the cumulative TSN after it.
    pub cum: u64,
    /// The highest index that it newly acknowledges (HTNA; RFC 9260, 7.2.4); 0 if it acknowledges nothing new.
    pub newest: u64,
    /// What counts in its place in Fast Recovery: the highest index that it acknowledges, if it moved the cumulative TSN; else the same.
    pub newest_in_recovery: u64,
}

impl MissIndications {
    /// Before the first acknowledgement. Nothing is allocated.
    pub(crate) fn fresh(alloc: Global) -> MissIndications
        ensures { (cum : ℕ) → MissesStand cum result fresh_misses }
    {
        MissIndications {
            first: 0,
            second: 0,
            third: 0,
            exit: None,
            went: LastSendings::fresh(alloc),
        }
    }

    /// Whether Fast Recovery is on (RFC 9260, 7.2.4).
    pub(crate) fn is_recovering(&self) -> bool
        ensures { result ≡ is_some self.now.exit }
    {
        self.exit.is_some()
    }

    /// The index below which each has three miss indications by now that was sent once, unless it is acknowledged.
    pub(crate) fn third(&self) -> u64
        ensures { result ≡ self.now.third }
    {
        self.third
    }

    /// Whether an index has its third miss indication, unless it is acknowledged: three acknowledgements newly acknowledged what was sent after it.
    pub(crate) fn is_missed(&self, index: u64) -> bool
        ensures { result ≡ nat_lt (went_at self.now.went index) self.now.third }
    {
        self.went.of(index) < self.third
    }

    /// Each index that has its third miss indication is below this one.
    pub(crate) fn missed_end(&self) -> u64
        ensures { (cum from : ℕ) (m : Misses) → MissesStand cum self.now m → from ≤ suc cum → (i : ℕ) → cum < i
            → model.is_missed m i ≡ (nat_le from i && (nat_lt i result && nat_lt (went_at self.now.went i) self.now.third)) }
    {
        self.third.max(self.went.early_end())
    }

    /// Counts an acknowledgement whose highest index is `newest`: the three largest of these are kept.
    fn notice(&mut self, newest: u64)
        ensures { (cum : ℕ) (m : Misses) → MissesStand cum self.old m → MissesStand cum self.new (noticed newest m) }
    {
        let (first, second) = (self.first, self.second);
        self.first = newest.max(first);
        self.second = newest.min(first).max(second);
        self.third = newest.min(second).max(self.third);
    }

    /// Fast Recovery is over once the cumulative TSN, here by its index, has reached the exit point (RFC 9260, 7.2.4, step 6). What is kept of the indexes up
    /// to it is forgotten.
    fn pass(&mut self, cum: u64)
        ensures room { self.old.went.room ≤ self.new.went.room }
        ensures step { (before : ℕ) (m : Misses) → MissesStand before self.old m → before ≤ cum → MissesStand cum self.new (record m { exit = recovery_at cum m.exit }) }
    {
        self.exit = exit_after(self.exit, cum);
        self.went.pass(cum);
    }

    /// These indexes count as sent now, when `last` is the highest one that was sent.
    fn set_all(&mut self, indexes: &[u64], last: u64)
        ensures { (cum : ℕ) (m : Misses) (test : ℕ → Bool) → MissesStand cum self.old m → AreThose test cum (self.old.went.room) indexes.now
            → MissesStand cum self.new (record m { went = λ i. if test i then last else m.went i }) }
    {
        self.went.set_all(indexes, last);
    }

    /// Counts an acknowledgement that the sender has taken, which takes these indexes back; `last` is the highest one that was sent. Fast Recovery may be
    /// over by it (RFC 9260, 7.2.4).
    pub(crate) fn hear(&mut self, said: Highest, last: u64, back: &[u64])
        ensures { (cum : ℕ) (v u : SenderView) (m : Misses) → MissesStand cum self.old m → cum ≤ u.cum → AreHighest v u said
            → AreTakenBack v u (self.old.went.room) last back.now → MissesStand u.cum self.new (misses_heard v u m) }
    {
        self.pass(said.cum);
        self.set_all(back, last);
        self.notice(said.newest_if(self.is_recovering()));
    }

    /// `lost` is whether an index in flight has its third miss indication: then Fast Recovery begins, unless it is on, and its exit point is `highest`, the
    /// highest index that was sent (RFC 9260, 7.2.4, step 6); else `highest` is not read.
    pub(crate) fn begin_recovery(&mut self, lost: Option<u64>, highest: u64)
        ensures { (cum : ℕ) (u : SenderView) (m : Misses) → MissesStand cum self.old m → IfSome lost (λ i. highest ≡ last_sent u)
            → MissesStand cum self.new (recovery_begun u (is_some lost) m) }
    {
        if lost.is_some() && self.exit.is_none() {
            self.exit = Some(highest);
        }
    }

    /// The data timer expired: Fast Recovery is over. All is retransmitted, and what was sent before misses none of it.
    pub(crate) fn expire(&mut self)
        ensures { (cum : ℕ) (m : Misses) → MissesStand cum self.old m → MissesStand cum self.new (expired_misses m) }
    {
        self.exit = None;
    }

    /// Allocates memory for `resend` and `hear` of indexes up to this one.
    ///
    /// # Errors
    /// Allocation failed; nothing changed.
    pub(crate) fn reserve(&mut self, last: u64) -> Result<(), NoMemory>
        ensures same { (cum : ℕ) (m : Misses) → MissesStand cum self.old m → MissesStand cum self.new m }
        ensures room { OnOk result (last ≤ self.new.went.room) }
    {
        self.went.reserve(last)
    }

    /// These indexes were retransmitted in a packet before which `last` was the highest one that was sent.
    pub(crate) fn resend(&mut self, last: u64, again: &[u64])
        ensures { (cum : ℕ) (m : Misses) (ws : List Wish) → MissesStand cum self.old m → AreThose (goes_again ws) cum (self.old.went.room) again.now
            → MissesStand cum self.new (misses_sent last ws m) }
    {
        self.set_all(again, last);
    }

    /// Gives memory back, if nothing is kept.
    pub(crate) fn trim(&mut self)
        ensures { (cum : ℕ) (m : Misses) → MissesStand cum self.old m → MissesStand cum self.new m }
    {
        self.went.trim();
    }
}

impl Highest {
    /// The one that counts: in Fast Recovery another than outside.
    fn newest_if(self, recovers: bool) -> u64
        ensures { result ≡ (if recovers then self.newest_in_recovery else self.newest) }
    {
        if recovers {
            self.newest_in_recovery
        } else {
            self.newest
        }
    }
}

/// The exit point of Fast Recovery, if this cumulative TSN's index hasn't reached it.
fn exit_after(exit: Option<u64>, cum: u64) -> Option<u64>
    ensures { result ≡ recovery_at cum exit }
{
    match exit {
        Some(exit) if cum < exit => Some(exit),
        _ => None,
    }
}
