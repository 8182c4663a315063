//! Transitions between the states of an open association, and its closing (RFC 9260, 9.2).

ghost use Rattle.std.specs.Prelude.{◌≡◌};
ghost use Rattle.sctp_model.specs.end.EndView.{EndView};
ghost use Rattle.sctp_model.specs.end.EndView as model;
ghost use Rattle.sctp_model.specs.end.Clock.{turned, closed, timers_in};
ghost use Rattle.sctp_model.specs.end.Closing.{rested};
ghost use Rattle.sctp_terms.specs.Meanings.{end_meaning};
ghost use Rattle.sctp_association.specs.TimersMean.{timers_meaning};
ghost use Rattle.sctp_association.specs.StageMeans.{stage_meaning};
ghost use Rattle.sctp_association.specs.MachineStands.{MachineStands};

use crate::machine::Machine;
use crate::state::life::{Life, Progress, Unjoined};
use crate::state::stage::Stage;
use crate::time::timers::Timers;
use sctp_terms::End;

#[tactic(auto, unfolding(crate::specs::MachineStands::MachineStands))]
impl Machine {
    /// An open association enters this stage: chunks that only another state sends are no longer due, and its timers stop.
    pub fn turn(&mut self, stage: Stage)
        ensures { (v : EndView) (t : model.Tags) (g : model.Stage) → MachineStands self.old v → v.phase ≡ model.Open t g
            → MachineStands self.new (turned (model.Open t (stage_meaning stage)) v) }
    {
        self.due.turn(stage);
        turn_timers(&mut self.timers, stage);
        if let Life::Joined(association) = &mut self.life {
            association.progress = Progress::Open(stage);
        }
    }

    /// Closes the endpoint for good, for this reason: it sends nothing more and runs no timer.
    pub fn close(&mut self, why: End)
        ensures { (v : EndView) → MachineStands self.old v → MachineStands self.new (closed (end_meaning why) v) }
    {
        let alloc = self.alloc;
        self.due.clear(alloc);
        self.timers.stop_all();
        self.delayed = None;
        match &mut self.life {
            Life::Joined(association) => association.progress = Progress::Over(why),
            Life::Unjoined(unjoined) => *unjoined = Unjoined::Failed(why),
        }
    }

    /// Goes on with closing as soon as nothing is left to be acknowledged: SHUTDOWN-PENDING becomes SHUTDOWN-SENT, SHUTDOWN-RECEIVED becomes
    /// SHUTDOWN-ACK-SENT, and the chunk of that state is due (RFC 9260, 9.2).
    #[inline(always)]
    pub fn advance_closing(&mut self)
        ensures { (v : EndView) → MachineStands self.old v → MachineStands self.new (rested v) }
    {
        let Some(opened) = self.opened() else {
            return;
        };
        if opened.stage.is_established() {
            return;
        }
        self.advance_closing_in(opened.stage);
    }

    /// Goes on with closing in this stage, if nothing is left to be acknowledged.
    #[inline(never)]
    fn advance_closing_in(&mut self, stage: Stage)
        ensures { (v : EndView) (t : model.Tags) → MachineStands self.old v → v.phase ≡ model.Open t (stage_meaning stage) → MachineStands self.new (rested v) }
    {
        if !self.is_drained() {
            return;
        }
        match stage {
            Stage::ShutdownPending => {
                self.turn(Stage::ShutdownSent);
                self.due.owe_shutdown();
            }
            Stage::ShutdownReceived => {
                self.turn(Stage::ShutdownAckSent);
                self.due.owe_shutdown_ack();
            }
            _ => {}
        }
    }
}

/// The timers of an association that enters this stage: those of other states stop.
pub(crate) fn turn_timers(timers: &mut Timers, stage: Stage)
    ensures { (t : model.Tags) → timers_meaning timers.new ≡ timers_in (model.Open t (stage_meaning stage)) (timers_meaning timers.old) }
{
    timers.keep_open(
        stage.is_shutdown_sent(),
        stage.is_shutdown_ack_sent(),
        stage.is_established(),
    );
}
