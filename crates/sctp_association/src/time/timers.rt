//! The six timers of an endpoint: which start and stop together, and which expires first (RFC 9260, 6.3 and 9.2).

ghost use Rattle.std.specs.Prelude.{◌≡◌, Bool, true};
ghost use Rattle.sctp_model.specs.numbers.Limits.{FIRST_WAIT};
ghost use Rattle.sctp_model.specs.end.EndView as model;
ghost use Rattle.sctp_model.specs.end.EndView.{unused_timer};
ghost use Rattle.sctp_model.specs.end.Clock.{stopped, renewed, replaced};
ghost use Rattle.sctp_model.specs.end.Moments.{earlier, earliest, all_alarms};
ghost use Rattle.sctp_association.specs.TimersMean.{alarm_meaning, timer_meaning, timers_meaning, kept_if, open_timers, resting};
ghost use Rattle.sctp_association.specs.StartsMean.{starts_at, started_if, started_from};
ghost use Rattle.sctp_association.specs.PlainPacket.{fragments_alone};
ghost use Rattle.sctp_association.specs.Weighing.{followed};

use crate::time::starts::Starts;
use crate::time::timer::{Alarm, Timer};

/// The earlier of two times, if either is set.
pub(crate) fn earlier(one: Option<u64>, other: Option<u64>) -> Option<u64>
    ensures { result ≡ earlier one other }
{
    match one {
        None => other,
        Some(first) => match other {
            None => Some(first),
            Some(second) => Some(first.min(second)),
        },
    }
}

/// The six timers of an endpoint.
#[derive(Clone, Copy)]
pub(crate) struct Timers {
    init: Timer,
    cookie: Timer,
    fragments: Timer,
    shutdown: Timer,
    shutdown_ack: Timer,
    reset: Timer,
}

impl Timers {
    /// Timers that never ran.
    pub(crate) fn unused() -> Timers
        ensures { timers_meaning result ≡ (λ a. unused_timer FIRST_WAIT) }
    {
        Timers {
            init: Timer::unused(),
            cookie: Timer::unused(),
            fragments: Timer::unused(),
            shutdown: Timer::unused(),
            shutdown_ack: Timer::unused(),
            reset: Timer::unused(),
        }
    }

    /// The timer of this kind.
    pub(crate) fn get(self, alarm: Alarm) -> Timer
        ensures { timer_meaning result ≡ timers_meaning self (alarm_meaning alarm) }
    {
        match alarm {
            Alarm::Init => self.init,
            Alarm::Cookie => self.cookie,
            Alarm::Fragments => self.fragments,
            Alarm::Shutdown => self.shutdown,
            Alarm::ShutdownAck => self.shutdown_ack,
            Alarm::Reset => self.reset,
        }
    }

    /// Replaces the timer of this kind.
    pub(crate) fn put(&mut self, alarm: Alarm, timer: Timer)
        ensures { timers_meaning self.new ≡ replaced (alarm_meaning alarm) (timer_meaning timer) (timers_meaning self.old) }
    {
        match alarm {
            Alarm::Init => self.init = timer,
            Alarm::Cookie => self.cookie = timer,
            Alarm::Fragments => self.fragments = timer,
            Alarm::Shutdown => self.shutdown = timer,
            Alarm::ShutdownAck => self.shutdown_ack = timer,
            Alarm::Reset => self.reset = timer,
        }
    }

    /// Starts at this time those of these that don't run.
    pub(crate) fn start_all(&mut self, starts: Starts, now: u64)
        ensures { timers_meaning self.new ≡ started_from (starts_at starts) now (timers_meaning self.old) }
    {
        self.init.start_if(starts.init, now);
        self.cookie.start_if(starts.cookie, now);
        self.fragments.start_if(starts.fragments, now);
        self.shutdown.start_if(starts.shutdown, now);
        self.shutdown_ack.start_if(starts.shutdown_ack, now);
        self.reset.start_if(starts.reset, now);
    }

    /// Starts the data timer at this time if it is to start and doesn't run.
    pub(crate) fn start_fragments(&mut self, starts: bool, now: u64)
        ensures started { timers_meaning self.new ≡ started_from (starts_at (fragments_alone starts)) now (timers_meaning self.old) }
        ensures put { timers_meaning self.new ≡ replaced model.DataAlarm (started_if starts now (timers_meaning self.old model.DataAlarm)) (timers_meaning self.old) }
    {
        self.fragments.start_if(starts, now);
    }

    /// Sets the data timer's RTO at its next start, in milliseconds.
    pub(crate) fn set_data_rto(&mut self, rto: u64)
        ensures { timers_meaning self.new ≡ replaced model.DataAlarm (record (timers_meaning self.old model.DataAlarm) { wait = rto }) (timers_meaning self.old) }
    {
        self.put(
            Alarm::Fragments,
            Timer {
                wait: rto,
                ..self.fragments
            },
        );
    }

    /// The data timer after an acknowledgement at an endpoint with a pace, as `Timer::followed` says.
    pub(crate) fn follow(&mut self, now: u64, rto: u64, restarts: bool, flies: bool)
        ensures { timers_meaning self.new ≡ replaced model.DataAlarm (followed now rto restarts flies (timers_meaning self.old model.DataAlarm)) (timers_meaning self.old) }
    {
        let timer = self.fragments.followed(now, rto, restarts, flies);
        self.put(Alarm::Fragments, timer);
    }

    /// The data timer after a SACK at an endpoint with a pace, as `Timer::heard` says.
    pub(crate) fn follow_sack(
        &mut self,
        wanted: bool,
        now: u64,
        rto: u64,
        restarts: bool,
        flies: bool,
    )
        ensures { (moved : Bool) → (moved ≡ true → restarts ≡ true)
            → timers_meaning self.new ≡ replaced model.DataAlarm (followed now rto restarts flies (renewed FIRST_WAIT now moved (kept_if wanted (timers_meaning self.old model.DataAlarm)))) (timers_meaning self.old) }
    {
        let timer = self.fragments.heard(wanted, now, rto, restarts, flies);
        self.put(Alarm::Fragments, timer);
    }

    /// The data timer after a SACK, without a pace: it stops unless it is wanted, and counts its retransmissions anew; if something new was acknowledged, its
    /// timeout begins anew at this time, too; and it starts, if it doesn't run and user data is in flight, which an earlier SACK had acknowledged (RFC 9260,
    /// 6.3.2).
    #[inline(always)]
    pub(crate) fn count(&mut self, wanted: bool, moved: bool, flies: bool, now: u64)
        ensures { timers_meaning self.new ≡ replaced model.DataAlarm (started_if flies now (renewed FIRST_WAIT now moved (kept_if wanted (timers_meaning self.old model.DataAlarm)))) (timers_meaning self.old) }
    {
        let mut timer = self.fragments.kept_if(wanted).renewed(now, moved);
        timer.start_if(flies, now);
        self.put(Alarm::Fragments, timer);
    }

    /// Stops a timer.
    pub(crate) fn stop(&mut self, alarm: Alarm)
        ensures { timers_meaning self.new ≡ replaced (alarm_meaning alarm) (stopped (timers_meaning self.old (alarm_meaning alarm))) (timers_meaning self.old) }
    {
        self.put(alarm, self.get(alarm).stopped());
    }

    /// Stops a timer, unless it is wanted.
    pub(crate) fn stop_unless(&mut self, wanted: bool, alarm: Alarm)
        ensures { timers_meaning self.new ≡ replaced (alarm_meaning alarm) (kept_if wanted (timers_meaning self.old (alarm_meaning alarm))) (timers_meaning self.old) }
    {
        self.put(alarm, self.get(alarm).kept_if(wanted));
    }

    /// The timers of an open association: those of its opening stop, and those of its closing and of its requests to reset streams unless they are wanted.
    pub(crate) fn keep_open(&mut self, shutdown: bool, shutdown_ack: bool, reset: bool)
        ensures { timers_meaning self.new ≡ open_timers shutdown shutdown_ack reset (timers_meaning self.old) }
    {
        self.init = self.init.stopped();
        self.cookie = self.cookie.stopped();
        self.shutdown = self.shutdown.kept_if(shutdown);
        self.shutdown_ack = self.shutdown_ack.kept_if(shutdown_ack);
        self.reset = self.reset.kept_if(reset);
    }

    /// Stops them all.
    pub(crate) fn stop_all(&mut self)
        ensures { timers_meaning self.new ≡ resting (timers_meaning self.old) }
    {
        self.keep_open(false, false, false);
        self.stop(Alarm::Fragments);
    }

    /// The earliest expiry of a timer that runs.
    pub(crate) fn next_moment(self) -> Option<u64>
        ensures { result ≡ earliest (timers_meaning self) all_alarms }
    {
        let answered = earlier(self.shutdown_ack.expiry, self.reset.expiry);
        let closing = earlier(self.shutdown.expiry, answered);
        let open = earlier(self.fragments.expiry, closing);
        earlier(self.init.expiry, earlier(self.cookie.expiry, open))
    }
}
