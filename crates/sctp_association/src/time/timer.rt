//! One retransmission timer, and its kind: each repeats one kind of packet until it is answered (RFC 9260, 5.1, 6.3 and 9.2). Pure arithmetic on
//! times in milliseconds: it doesn't know what a timer repeats.

ghost use Rattle.std.specs.Prelude.{◌≡◌, Bool, ◌<◌, ◌≤◌, ◌^◌, nat_lt, true};
ghost use Rattle.sctp_model.specs.end.EndView.{unused_timer};
ghost use Rattle.sctp_model.specs.numbers.Limits.{FIRST_WAIT, LONGEST_WAIT};
ghost use Rattle.sctp_model.specs.end.Clock.{running, stopped, expired_timer, is_over_at, renewed, renewed_expiry, restarted};
ghost use Rattle.sctp_association.specs.TimersMean.{timer_meaning, most_repeats, kept_if};
ghost use Rattle.sctp_association.specs.StartsMean.{started_if};
ghost use Rattle.sctp_association.specs.Weighing.{followed};

use sctp_values::{FIRST_WAIT, LONGEST_WAIT, OPENING_REPEATS, REPEATS};

/// A kind of timer.
#[derive(Clone, Copy)]
pub(crate) enum Alarm {
    /// T1-init: INIT, until the INIT ACK arrives (RFC 9260, 5.1, A).
    Init,
    /// T1-cookie: COOKIE ECHO, until the COOKIE ACK arrives (RFC 9260, 5.1, C).
    Cookie,
    /// The data timer: user data and FORWARD-TSN, until they are acknowledged (RFC 9260, 6.3; RFC 3758, 3.5).
    Fragments,
    /// T2-shutdown: SHUTDOWN, until the SHUTDOWN ACK arrives (RFC 9260, 9.2).
    Shutdown,
    /// T2-shutdown: SHUTDOWN ACK, until the SHUTDOWN COMPLETE arrives (RFC 9260, 9.2).
    ShutdownAck,
    /// A request to reset streams, until its response arrives (RFC 6525, 5.1.1).
    Reset,
}

/// A timer: its timeout (RTO) at its next start, in milliseconds; the number of expiries since an answer arrived; the time at which it expires, while
/// it runs.
#[derive(Clone, Copy)]
pub(crate) struct Timer {
    pub(crate) wait: u64,
    pub(crate) repeats: u32,
    pub(crate) expiry: Option<u64>,
}

impl Timer {
    /// A timer that never ran.
    pub(crate) fn unused() -> Timer
        ensures { timer_meaning result ≡ unused_timer FIRST_WAIT }
    {
        Timer {
            wait: FIRST_WAIT,
            repeats: 0,
            expiry: None,
        }
    }

    /// A timer that never ran, with this timeout, in milliseconds.
    pub(crate) fn waiting(wait: u64) -> Timer
        ensures { timer_meaning result ≡ unused_timer wait }
    {
        Timer {
            wait,
            repeats: 0,
            expiry: None,
        }
    }

    /// The timer, started at this time; one that runs already keeps its expiry (RFC 9260, 6.3.2).
    fn running(self, now: u64) -> Timer
        ensures { timer_meaning result ≡ running now (timer_meaning self) (timer_meaning self).expiry }
    {
        match self.expiry {
            Some(_) => self,
            None => Timer {
                expiry: Some(now.saturating_add(self.wait)),
                ..self
            },
        }
    }

    /// Starts the timer at this time if it is wanted and doesn't run.
    pub(crate) fn start_if(&mut self, wanted: bool, now: u64)
        ensures { timer_meaning self.new ≡ started_if wanted now (timer_meaning self.old) }
    {
        if !wanted {
            return;
        }
        *self = self.running(now);
    }

    /// The timer, stopped.
    pub(crate) fn stopped(self) -> Timer
        ensures { timer_meaning result ≡ stopped (timer_meaning self) }
    {
        Timer {
            expiry: None,
            ..self
        }
    }

    /// The timer, stopped unless it is wanted.
    pub(crate) fn kept_if(self, wanted: bool) -> Timer
        ensures { timer_meaning result ≡ kept_if wanted (timer_meaning self) }
    {
        if wanted {
            return self;
        }
        self.stopped()
    }

    /// The timer after an expiry: counted, stopped, with twice the timeout, at most 60 seconds (RFC 9260, 6.3.3).
    pub(crate) fn expired(self) -> Timer
        requires { self.repeats < 2 ^ 8 }
        ensures { timer_meaning result ≡ expired_timer LONGEST_WAIT (timer_meaning self) }
    {
        Timer {
            wait: self.wait.saturating_mul(2).min(LONGEST_WAIT),
            repeats: self.repeats + 1,
            expiry: None,
        }
    }

    /// The data timer after an acknowledgement at an endpoint with a pace, with this RTO in milliseconds: one that runs is restarted if `restarts`, one
    /// that doesn't is started if `flies`, that is, if data is in flight (RFC 9260, 6.3.2, R3 and R4; 7.2.4, step 4).
    pub(crate) fn followed(self, now: u64, rto: u64, restarts: bool, flies: bool) -> Timer
        ensures { timer_meaning result ≡ followed now rto restarts flies (timer_meaning self) }
    {
        let runs = match self.expiry {
            None => flies,
            Some(_) => restarts,
        };
        Timer {
            wait: rto,
            expiry: if runs {
                Some(now.saturating_add(rto))
            } else {
                self.expiry
            },
            ..self
        }
    }

    /// The data timer after a SACK at an endpoint with a pace: it stops unless it is wanted, counts its retransmissions anew, and is `followed`. A SACK that
    /// acknowledged something new by its cumulative TSN restarts it (`restarts`), so that no other expiry is to be computed (RFC 9260, 6.3.2).
    pub(crate) fn heard(
        self,
        wanted: bool,
        now: u64,
        rto: u64,
        restarts: bool,
        flies: bool,
    ) -> Timer
        ensures { (moved : Bool) → (moved ≡ true → restarts ≡ true)
            → timer_meaning result ≡ followed now rto restarts flies (renewed FIRST_WAIT now moved (kept_if wanted (timer_meaning self))) }
    {
        Timer {
            repeats: 0,
            ..self.kept_if(wanted).followed(now, rto, restarts, flies)
        }
    }

    /// It runs, and expires at this time or before.
    pub(crate) fn is_over(self, now: u64) -> bool
        ensures { result ≡ is_over_at now (timer_meaning self).expiry }
    {
        is_over_at(self.expiry, now)
    }

    /// Its packet may be repeated once more: the limit of retransmissions isn't reached.
    pub(crate) fn can_repeat(self, alarm: Alarm) -> bool
        ensures answer { result ≡ nat_lt self.repeats (most_repeats alarm) }
        ensures few { result ≡ true → self.repeats < 2 ^ 8 }
    {
        self.repeats < most_repeats(alarm)
    }

    /// The timer after an answer: its count is 0; if the answer acknowledged something new, timeout and expiry begin anew, too (RFC 9260, 6.3.2).
    pub(crate) fn renewed(self, now: u64, moved: bool) -> Timer
        ensures { timer_meaning result ≡ renewed FIRST_WAIT now moved (timer_meaning self) }
    {
        if !moved {
            return Timer { repeats: 0, ..self };
        }
        Timer {
            wait: FIRST_WAIT,
            repeats: 0,
            expiry: expiry_after(now, self.expiry),
        }
    }

    /// The timer, started again at this time with this timeout, in milliseconds, if it runs; its count is 0 (RFC 6525, 5.2.7).
    pub(crate) fn restarted(self, now: u64, wait: u64) -> Timer
        ensures { timer_meaning result ≡ restarted now wait (timer_meaning self) }
    {
        match self.expiry {
            Some(_) => {
                let next = now.saturating_add(wait);
                Timer {
                    wait,
                    repeats: 0,
                    expiry: Some(next),
                }
            }
            None => Timer::waiting(wait),
        }
    }
}

/// A time is set, and it is this one or before.
pub(crate) fn is_over_at(set: Option<u64>, now: u64) -> bool
    ensures { result ≡ is_over_at now set }
{
    match set {
        Some(moment) => moment <= now,
        None => false,
    }
}

/// The initial timeout from this time on, if a timer runs.
fn expiry_after(now: u64, expiry: Option<u64>) -> Option<u64>
    ensures { result ≡ renewed_expiry FIRST_WAIT now expiry }
{
    match expiry {
        Some(_) => Some(now.saturating_add(FIRST_WAIT)),
        None => None,
    }
}

/// How often a timer's packet is repeated before the association is given up (Max.Init.Retransmits and Association.Max.Retrans of RFC 9260, 16).
fn most_repeats(alarm: Alarm) -> u32
    ensures exact { result ≡ most_repeats alarm }
    ensures few { result ≤ 10 }
{
    match alarm {
        Alarm::Init | Alarm::Cookie => OPENING_REPEATS,
        Alarm::Fragments | Alarm::Shutdown | Alarm::ShutdownAck | Alarm::Reset => REPEATS,
    }
}
