//! What the time does to an endpoint: messages past their lifetime or at their limit of retransmissions are abandoned, then each timer that is due
//! expires once, and a delayed SACK is due (RFC 9260, 5.1, 6.2, 6.3.3 and 9.2; RFC 3758, 3.5; RFC 7496, 3.1). Nothing here allocates.

ghost use Rattle.std.specs.Prelude.{◌≡◌, true, option_map};
ghost use Rattle.sctp_model.specs.sender.SenderView.{SenderView};
ghost use Rattle.sctp_model.specs.sender.Readers.{point};
ghost use Rattle.sctp_model.specs.sender.Resetting.{retried};
ghost use Rattle.sctp_model.specs.end.EndView.{EndView};
ghost use Rattle.sctp_model.specs.end.EndView as model;
ghost use Rattle.sctp_model.specs.end.Clock.{at_moment, settled};
ghost use Rattle.sctp_model.specs.end.Pacing.{expired_pace};
ghost use Rattle.sctp_model.specs.end.Moments.{after_abandoning, due_again, ring, waited, is_data_due, given_up, passed, ticked, next_moment};
ghost use Rattle.sctp_association.specs.TimersMean.{alarm_meaning};
ghost use Rattle.sctp_association.specs.MachineStands.{MachineStands};

use crate::machine::Machine;
use crate::state::life::Life;
use crate::time::timer::{Alarm, is_over_at};
use crate::time::timers::earlier;
use sctp_terms::End;

#[tactic(auto, unfolding(crate::specs::MachineStands::MachineStands))]
impl Machine {
    /// Sets the clock to this time, in milliseconds; an earlier time than the latest one counts as the latest one. No timer expires.
    pub fn advance_clock(&mut self, now: u64)
        ensures { (v : EndView) → MachineStands self.old v → MachineStands self.new (at_moment v now) }
    {
        self.moment = self.moment.max(now);
    }

    /// Sets the clock to this time, in milliseconds: messages whose lifetime is over are abandoned and, if the data timer is due, those that may not be
    /// retransmitted again; then each timer that is due expires once, and a SACK that was delayed long enough is due. An expiry past the last
    /// retransmission closes the endpoint.
    pub fn on_moment(&mut self, now: u64)
        ensures { (v : EndView) → MachineStands self.old v → MachineStands self.new (ticked v now) }
    {
        self.advance_clock(now);
        if !self.has_association() {
            return;
        }
        self.pass();
    }

    /// What the time does at an endpoint with an association.
    fn pass(&mut self)
        ensures { (v : EndView) → MachineStands self.old v → MachineStands self.new (passed v) }
    {
        let before = self.point();
        self.give_up();
        self.when_abandoned(before);
        self.expire_timer(Alarm::Init);
        self.expire_timer(Alarm::Cookie);
        self.expire_timer(Alarm::Fragments);
        self.expire_timer(Alarm::Shutdown);
        self.expire_timer(Alarm::ShutdownAck);
        self.expire_timer(Alarm::Reset);
        self.wait_over();
    }

    /// What is past its time is abandoned and, if the data timer is due, what was retransmitted as often as it may be (RFC 3758, 3.5; RFC 7496, 3.1).
    fn give_up(&mut self)
        ensures { (v : EndView) → MachineStands self.old v → MachineStands self.new (record v { sender = given_up (is_data_due v) v.sender v.moment }) }
    {
        let is_due = self.timers.get(Alarm::Fragments).is_over(self.moment);
        self.expire();
        if is_due {
            self.wear();
        }
    }

    /// A SACK that was delayed long enough is due (RFC 9260, 6.2).
    fn wait_over(&mut self)
        ensures { (v : EndView) → MachineStands self.old v → MachineStands self.new (waited v) }
    {
        if !is_over_at(self.delayed, self.moment) {
            return;
        }
        self.due.owe_sack(true);
        self.delayed = None;
    }

    /// Call it after messages were abandoned: a FORWARD-TSN is due if the Advanced Peer Ack Point moved from this index (RFC 3758, 3.5).
    pub(crate) fn when_abandoned(&mut self, before: u64)
        ensures { (v : EndView) (s : SenderView) → MachineStands self.old (record v { sender = s }) → before ≡ point v.sender → MachineStands self.new (after_abandoning v s) }
    {
        let moved = self.point() != before;
        self.due.skip(moved);
        self.settle();
        self.advance_closing();
    }

    /// Stops the data timer if nothing is outstanding (RFC 9260, 6.3.2); a FORWARD-TSN is no longer due if it would skip nothing.
    pub(crate) fn settle(&mut self)
        ensures { (v : EndView) → MachineStands self.old v → MachineStands self.new (settled v) }
    {
        let wanted = self.unsettled();
        let past = self.is_point_past();
        self.timers.stop_unless(wanted, Alarm::Fragments);
        self.due.settle(past);
    }

    /// A timer that is due expires; once its packet was repeated as often as may be, the endpoint closes as timed out (RFC 9260, 8.1).
    fn expire_timer(&mut self, alarm: Alarm)
        ensures { (v : EndView) → MachineStands self.old v → MachineStands self.new (ring (alarm_meaning alarm) v) }
    {
        let timer = self.timers.get(alarm);
        if !timer.is_over(self.moment) {
            return;
        }
        if !timer.can_repeat(alarm) {
            self.close(End::TimedOut);
            return;
        }
        self.timers.put(alarm, timer.expired());
        self.resend(alarm);
    }

    /// The packet of the timer is due again (RFC 9260, 6.3.3).
    fn resend(&mut self, alarm: Alarm)
        ensures { (v : EndView) → MachineStands self.old v → MachineStands self.new (due_again (alarm_meaning alarm) v) }
    {
        match alarm {
            Alarm::Init => self.due.repeat_init(),
            Alarm::Cookie => self.due.repeat_echo(),
            Alarm::Fragments => self.repeat_fragments(),
            Alarm::Shutdown => self.due.owe_shutdown(),
            Alarm::ShutdownAck => self.due.owe_shutdown_ack(),
            Alarm::Reset => self.repeat_request(),
        }
    }

    /// All outstanding user data is due again, and a FORWARD-TSN if it skips something; before that the pace notes the expiry.
    fn repeat_fragments(&mut self)
        ensures { (v : EndView) → MachineStands self.old v → MachineStands self.new (due_again model.DataAlarm v) }
    {
        let past = self.is_point_past();
        self.due.owe_forward(past);
        self.expire_pace();
        self.repeat();
    }

    /// The request that waits is due again; if it is in progress, it takes the next sequence number (RFC 6525, 5.2.7).
    fn repeat_request(&mut self)
        ensures { (v : EndView) → MachineStands self.old v → MachineStands self.new (due_again model.ResetAlarm v) }
    {
        self.due.owe_request(true);
        self.retry_request();
    }

    /// The sender's request is retransmitted.
    fn retry_request(&mut self)
        ensures { (v : EndView) → MachineStands self.old v → MachineStands self.new (record v { sender = retried v.sender }) }
    {
        match &mut self.life {
            Life::Unjoined(_) => {}
            Life::Joined(association) => association.traffic.retry_request(),
        }
    }

    /// The data timer expired: nothing is timed, Fast Recovery is over, and the congestion window is one packet, unless all that is in flight probes a window
    /// without space (RFC 9260, 6.1, 6.3.3 and 7.2.3). Call it before anything is marked for retransmission.
    fn expire_pace(&mut self)
        ensures { (v : EndView) → MachineStands self.old v → MachineStands self.new (record v { pace = option_map (expired_pace v.sender) v.pace }) }
    {
        match &mut self.pace {
            None => {}
            Some(pace) => match &self.life {
                Life::Unjoined(_) => pace.expire(false),
                Life::Joined(association) => pace.expire(association.traffic.is_probe()),
            },
        }
    }

    /// The time of the next event, in milliseconds: the earliest expiry of a timer that runs, or of a delayed SACK. Lifetimes of messages aren't
    /// counted: wake up at the message's own deadline.
    pub fn next_moment(&self) -> Option<u64>
        ensures { (v : EndView) → MachineStands self.now v → result ≡ next_moment v }
    {
        earlier(self.timers.next_moment(), self.delayed)
    }
}
