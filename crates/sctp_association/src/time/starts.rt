//! The timers that start with a packet, once it is complete (RFC 9260, 6.3.2).

ghost use Rattle.std.specs.Prelude.{◌≡◌, false};
ghost use Rattle.sctp_association.specs.TimersMean.{alarm_meaning};
ghost use Rattle.sctp_association.specs.StartsMean.{starts_at, with_start};

use crate::time::timer::Alarm;

/// The timers that are to start.
#[derive(Clone, Copy)]
pub(crate) struct Starts {
    pub(crate) init: bool,
    pub(crate) cookie: bool,
    pub(crate) fragments: bool,
    pub(crate) shutdown: bool,
    pub(crate) shutdown_ack: bool,
    pub(crate) reset: bool,
}

impl Starts {
    /// None of them.
    pub(crate) fn none() -> Starts
        ensures { starts_at result ≡ (λ a. false) }
    {
        Starts {
            init: false,
            cookie: false,
            fragments: false,
            shutdown: false,
            shutdown_ack: false,
            reset: false,
        }
    }

    /// This one is to start, too.
    pub(crate) fn add(&mut self, alarm: Alarm)
        ensures { starts_at self.new ≡ with_start (alarm_meaning alarm) (starts_at self.old) }
    {
        match alarm {
            Alarm::Init => self.init = true,
            Alarm::Cookie => self.cookie = true,
            Alarm::Fragments => self.fragments = true,
            Alarm::Shutdown => self.shutdown = true,
            Alarm::ShutdownAck => self.shutdown_ack = true,
            Alarm::Reset => self.reset = true,
        }
    }
}
