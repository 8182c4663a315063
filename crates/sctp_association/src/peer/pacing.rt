//! What an acknowledgement does at an endpoint with a pace: misses are counted, what was missed three times is marked for retransmission, the round trip is
//! measured, the congestion window grows or shrinks, and the data timer follows (RFC 9260, 6.3.1, 6.3.2 and 7.2).

ghost use Rattle.std.specs.Prelude.{◌≡◌, None, Some, IfOk, OnOk, OnErr};
ghost use Rattle.sctp_model.specs.sender.SackTaken.{sack_fault, shutdown_fault, shutdown_after};
ghost use Rattle.sctp_model.specs.end.EndView.{EndView, format_of};
ghost use Rattle.sctp_model.specs.end.EndView as model;
ghost use Rattle.sctp_model.specs.end.Clock.{with_timer, paced};
ghost use Rattle.sctp_model.specs.end.Acting.{sack_heard, shutdown_counted};
ghost use Rattle.sctp_wire.specs.ChunkTree.{sack_meaning};
ghost use Rattle.sctp_send.specs.SenderAnswers.{reason_meaning};
ghost use Rattle.sctp_association.specs.MachineStands.{MachineStands};
ghost use Rattle.sctp_association.specs.Weighing.{AreBefore, TakesNoneBack};

use crate::machine::Machine;
use crate::peer::responding::{count_misses, make_room, respond, timed_by};
use crate::state::life::Life;
use crate::time::timer::Alarm;
use sctp_send::{SackFault, Weight};
use sctp_values::NoMemory;
use sctp_wire::Sack;

/// What an endpoint with a pace knows of an acknowledgement before its sender takes it.
#[derive(Clone, Copy)]
pub(crate) struct Before {
    /// What it does at the sender.
    pub(crate) weight: Weight,
    /// The bytes of chunks in flight before it.
    pub(crate) flight: u64,
    /// Something waits to be sent.
    pub(crate) waits: bool,
    /// The RTO of the data timer before it, in milliseconds.
    pub(crate) rto: u64,
}

#[tactic(auto, unfolding(crate::specs::MachineStands::MachineStands))]
impl Machine {
    /// `hear_sack` at an endpoint with a pace. It isn't inlined, so that all it calls is inlined once.
    ///
    /// # Errors
    /// `NoMemory` if it takes something back, and an allocation was refused; nothing changed then.
    #[inline(never)]
    pub(crate) fn hear_sack_paced(
        &mut self,
        sack: &Sack<'_>,
    ) -> Result<Result<(), SackFault>, NoMemory>
        ensures answer { (v : EndView) (t : model.Tags) (g : model.Stage) → MachineStands self.old v → v.phase ≡ model.Open t g
            → IfOk result (λ heard. reason_meaning heard ≡ sack_fault v.sender (sack_meaning sack.now)) }
        ensures step { (v : EndView) (t : model.Tags) (g : model.Stage) → MachineStands self.old v → v.phase ≡ model.Open t g
            → IfOk result (λ heard. OnOk heard (MachineStands self.new (sack_heard v (sack_meaning sack.now)))) }
        ensures refused { (v : EndView) (t : model.Tags) (g : model.Stage) → MachineStands self.old v → v.phase ≡ model.Open t g
            → IfOk result (λ heard. OnErr heard (MachineStands self.new v)) }
        ensures memory { (v : EndView) (t : model.Tags) (g : model.Stage) → MachineStands self.old v → v.phase ≡ model.Open t g
            → OnErr result (MachineStands self.new v) }
    {
        match &mut self.pace {
            None => Ok(self.count_sack(sack)),
            Some(pace) => match &mut self.life {
                Life::Unjoined(_) => Ok(Ok(())),
                Life::Joined(association) => {
                    let traffic = &mut association.traffic;
                    make_room(pace, traffic, sack)?;
                    let before = Before {
                        weight: traffic.weigh(sack, timed_by(pace)),
                        flight: traffic.chunk_flight(),
                        waits: traffic.has_more(),
                        rto: self.timers.get(Alarm::Fragments).wait,
                    };
                    match traffic.on_sack(sack) {
                        Ok(left) => {
                            self.due.owe_forward(left.past);
                            let now = self.moment;
                            count_misses(pace, traffic, before, traffic.indexes());
                            let reply = respond(pace, traffic, now, before);
                            let rto = pace.rto_after(&reply, self.config.rto_min(), before.rto);
                            let flies = 0 < traffic.in_flight();
                            let restarts = reply.restarts;
                            self.timers
                                .follow_sack(left.wanted, now, rto, restarts, flies);
                            Ok(Ok(()))
                        }
                        Err(fault) => Ok(Err(fault)),
                    }
                }
            },
        }
    }

    /// `hear_shutdown` at an endpoint with a pace.
    ///
    /// # Errors
    /// Its first fault; nothing changed then.
    #[inline(never)]
    pub(crate) fn hear_shutdown_paced(&mut self, tsn: u32) -> Result<(), SackFault>
        ensures answer { (v : EndView) (t : model.Tags) (g : model.Stage) → MachineStands self.old v → v.phase ≡ model.Open t g
            → reason_meaning result ≡ shutdown_fault v.sender tsn }
        ensures step { (v : EndView) (t : model.Tags) (g : model.Stage) → MachineStands self.old v → v.phase ≡ model.Open t g
            → OnOk result (MachineStands self.new (shutdown_counted v tsn)) }
        ensures refused { (v : EndView) (t : model.Tags) (g : model.Stage) → MachineStands self.old v → v.phase ≡ model.Open t g
            → OnErr result (MachineStands self.new v) }
    {
        let weighed = self.weigh_shutdown(tsn);
        match self.count_shutdown(tsn) {
            Ok(()) => {
                self.follow(weighed);
                Ok(())
            }
            Err(fault) => Err(fault),
        }
    }

    /// What is known of the cumulative TSN of a SHUTDOWN before the sender takes it; None without a pace.
    #[inline(always)]
    fn weigh_shutdown(&self, tsn: u32) -> Option<Before>
        ensures { (v : EndView) (t : model.Tags) (g : model.Stage) → MachineStands self.now v → v.phase ≡ model.Open t g → shutdown_fault v.sender tsn ≡ None
            → AreBefore (format_of v) v (shutdown_after v.sender tsn) result }
    {
        match &self.pace {
            None => None,
            Some(pace) => match &self.life {
                Life::Unjoined(_) => None,
                Life::Joined(association) => {
                    let traffic = &association.traffic;
                    Some(Before {
                        weight: traffic.weigh_shutdown(tsn, timed_by(pace)),
                        flight: traffic.chunk_flight(),
                        waits: traffic.has_more(),
                        rto: self.timers.get(Alarm::Fragments).wait,
                    })
                }
            },
        }
    }

    /// What follows from an acknowledgement that the sender has taken, and that takes nothing back, once the data timer is set as without a pace. Without one
    /// the data timer starts, if it doesn't run and user data is in flight (RFC 9260, 6.3.2, R4).
    #[inline(always)]
    pub(crate) fn follow(&mut self, before: Option<Before>)
        ensures { (v x : EndView) (t : model.Timer) (s : model.Tags) (g : model.Stage) → AreBefore (format_of x) v x.sender before → TakesNoneBack v.sender x.sender
            → x.pace ≡ v.pace → x.phase ≡ model.Open s g
            → MachineStands self.old (with_timer model.DataAlarm t x) → MachineStands self.new (paced v.sender (v.timers model.DataAlarm).wait t x) }
    {
        match before {
            None => self.start_flying(),
            Some(before) => self.follow_paced(before),
        }
    }

    /// The same at an endpoint with a pace.
    #[inline(always)]
    fn follow_paced(&mut self, before: Before)
        ensures { (v x : EndView) (t : model.Timer) (s : model.Tags) (g : model.Stage) → AreBefore (format_of x) v x.sender (Some before) → TakesNoneBack v.sender x.sender
            → x.pace ≡ v.pace → x.phase ≡ model.Open s g
            → MachineStands self.old (with_timer model.DataAlarm t x) → MachineStands self.new (paced v.sender (v.timers model.DataAlarm).wait t x) }
    {
        let now = self.moment;
        let rto_min = self.config.rto_min();
        match &mut self.pace {
            None => {}
            Some(pace) => match &mut self.life {
                Life::Unjoined(_) => {}
                Life::Joined(association) => {
                    let traffic = &mut association.traffic;
                    count_misses(pace, traffic, before, &[]);
                    let reply = respond(pace, traffic, now, before);
                    let rto = pace.rto_after(&reply, rto_min, before.rto);
                    let flies = 0 < traffic.in_flight();
                    self.timers.follow(now, rto, reply.restarts, flies);
                }
            },
        }
    }
}
