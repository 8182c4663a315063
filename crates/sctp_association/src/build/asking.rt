//! A request to reset streams is made before the packet that carries it, and taken back if that packet can't be built (RFC 6525, 5.1).

ghost use Rattle.std.specs.Prelude.{◌≡◌, ℕ, Option, true, if◌then◌else◌, is_some, IfOk, IfSome, OnOk, OnErr};
ghost use Rattle.sctp_model.specs.sender.Resetting.{may_ask, asked};
ghost use Rattle.sctp_model.specs.messages.Format.{Format};
ghost use Rattle.sctp_model.specs.end.Pacing.{Pace};
ghost use Rattle.sctp_model.specs.end.EndView.{EndView, ResetAlarm, waits_of};
ghost use Rattle.sctp_model.specs.end.Clock.{is_home};
ghost use Rattle.sctp_model.specs.end.Reconfiguring.{asking_now, asking_wait, request_wait};
ghost use Rattle.sctp_send.specs.ResetAnswers.{WasMade};
ghost use Rattle.sctp_congestion.specs.PaceStands.{PacesStand};
ghost use Rattle.sctp_association.specs.Asks.{asks, WasBefore};
ghost use Rattle.sctp_association.specs.PhaseMeans.{phase_in};
ghost use Rattle.sctp_association.specs.MachineStands.{MachineStands};

use crate::machine::Machine;
use crate::state::life::{Association, Life, Progress};
use crate::time::timer::{Alarm, Timer};
use sctp_congestion::Pacing;
use sctp_send::EarlierRequest;
use sctp_terms::Config;
use sctp_values::{FIRST_WAIT, NoMemory};

/// What a request to reset streams replaced, by which it is taken back: whether one was due, its timer, and the last request before.
#[derive(Drop)]
pub(crate) struct Asked {
    pub(crate) was_due: bool,
    pub(crate) timer: Timer,
    pub(crate) request: EarlierRequest,
}

impl Association {
    /// It is established: here alone requests to reset streams are made (RFC 6525, 5.1).
    fn is_established(&self) -> bool
        ensures { result ≡ is_home ResetAlarm (phase_in self.now.tags self.now.progress) }
    {
        match &self.progress {
            Progress::Open(stage) => stage.is_established(),
            Progress::Echoing(_) => false,
            Progress::Over(_) => false,
        }
    }
}

#[tactic(auto, unfolding(crate::specs::MachineStands::MachineStands))]
impl Machine {
    /// A request to reset streams is to be made: that was agreed on, the association is established, and its sender may ask (RFC 6525, 5.1.1).
    pub(crate) fn asks(&self) -> bool
        ensures { (v : EndView) → MachineStands self.now v → result ≡ asks v }
    {
        match &self.life {
            Life::Unjoined(_) => false,
            Life::Joined(association) => {
                if !association.terms.reset {
                    return false;
                }
                if !association.is_established() {
                    return false;
                }
                association.traffic.may_ask()
            }
        }
    }

    /// Makes a request to reset streams, if one is to be made: then it is due, and its timer is that of a new one. Returns what that replaced.
    ///
    /// # Errors
    /// `NoMemory` if an allocation was refused; nothing changed then.
    pub(crate) fn ask(&mut self) -> Result<Option<Asked>, NoMemory>
        ensures asked { (v : EndView) → MachineStands self.old v → IfOk result (λ asked. (is_some asked ≡ asks v) × MachineStands self.new (asking_now (is_some asked) v)) }
        ensures before { (v : EndView) → MachineStands self.old v → IfOk result (λ asked. IfSome asked (λ before. WasBefore before v)) }
        ensures memory { (v : EndView) → MachineStands self.old v → OnErr result (MachineStands self.new v) }
    {
        if !self.asks() {
            return Ok(None);
        }
        let was_due = self.due.request;
        let timer = self.timers.get(Alarm::Reset);
        let request = self.ask_sender()?;
        let wait = self.asking_wait();
        self.due.owe_request(true);
        self.timers.put(Alarm::Reset, Timer::waiting(wait));
        Ok(Some(Asked {
            was_due,
            timer,
            request,
        }))
    }

    /// The sender makes a request to reset streams, if it may. Returns the last one before it.
    ///
    /// # Errors
    /// `NoMemory` if an allocation was refused; nothing changed then.
    fn ask_sender(&mut self) -> Result<EarlierRequest, NoMemory>
        ensures step { (v : EndView) → MachineStands self.old v → OnOk result (MachineStands self.new (record v { sender = if may_ask v.sender then asked v.sender else v.sender })) }
        ensures before { (v : EndView) → MachineStands self.old v → may_ask v.sender ≡ true → IfOk result (λ before. WasMade before v.sender) }
        ensures memory { (v : EndView) → MachineStands self.old v → OnErr result (MachineStands self.new v) }
    {
        match &mut self.life {
            Life::Unjoined(_) => Ok(EarlierRequest::none()),
            Life::Joined(association) => association.traffic.ask(),
        }
    }

    /// Undoes `ask`, if it made a request.
    pub(crate) fn take_back(&mut self, asked: Option<Asked>)
        ensures { (v : EndView) → MachineStands self.old (asking_now (is_some asked) v) → is_some asked ≡ asks v → IfSome asked (λ before. WasBefore before v) → MachineStands self.new v }
    {
        match asked {
            None => {}
            Some(asked) => {
                self.due.owe_request(asked.was_due);
                self.timers.put(Alarm::Reset, asked.timer);
                self.take_back_request(asked.request);
            }
        }
    }

    /// The sender takes its request to reset streams back; `before` was its last one before that.
    fn take_back_request(&mut self, before: EarlierRequest)
        ensures { (v : EndView) → MachineStands self.old (record v { sender = asked v.sender }) → may_ask v.sender ≡ true → WasMade before v.sender → MachineStands self.new v }
    {
        match &mut self.life {
            Life::Unjoined(_) => {}
            Life::Joined(association) => association.traffic.take_back_request(before),
        }
    }

    /// The timeout of a request's timer, in milliseconds: the RTO, if round trips are measured (RFC 6525, 5.1.1; RFC 9260, 6.3.1).
    pub(crate) fn asking_wait(&self) -> u64
        ensures { (v : EndView) → MachineStands self.now v → result ≡ asking_wait v }
    {
        request_wait(&self.config, &self.pace)
    }
}

/// The same, of an endpoint with this configuration and this pace.
fn request_wait(config: &Config, pace: &Option<Pacing>) -> u64
    ensures { (f : Format) (cum : ℕ) (o : Option Pace) → PacesStand f cum pace.now o → result ≡ request_wait (waits_of config.now) o }
{
    // By the clause of `limit` its options are plain.
    let _limit = config.limit();
    match pace {
        Some(pace) => pace.trips().rto(config.rto_min()),
        None => FIRST_WAIT,
    }
}
