//! RE-CONFIG (RFC 6525): the requests of the peer act at the receiver, its responses at the sender. These are two halves of an endpoint, so all requests of
//! a chunk act first, which alone may need memory, and then all of its responses.

ghost use Rattle.std.specs.Prelude.{◌≡◌, ℕ, true, false, is_some, OnOk, OnErr, MatchOption};
ghost use Rattle.std.specs.List.{list_any};
ghost use Rattle.sctp_model.specs.wire.Typed.{typed_in};
ghost use Rattle.sctp_model.specs.messages.Format.{Format};
ghost use Rattle.sctp_model.specs.sender.SenderView.{SenderView};
ghost use Rattle.sctp_model.specs.sender.Resetting.{is_open_number, response_taken};
ghost use Rattle.sctp_model.specs.receiver.ReceiverView.{ReceiverView, IsCumulative};
ghost use Rattle.sctp_model.specs.end.EndView.{EndView};
ghost use Rattle.sctp_model.specs.end.Closing.{hears, takes_data};
ghost use Rattle.sctp_model.specs.end.Reconfiguring.{takes_reconfig, parameters_heard, in_progress, asking_on, response_heard};
ghost use Rattle.sctp_reconfig.specs.Meanings.{parameter_meaning};
ghost use Rattle.sctp_association.specs.Reconfigured.{is_request, parameters_in, requests_heard, responded, responses_heard};
ghost use Rattle.sctp_recv.specs.Requests.{all_requested};
ghost use Rattle.sctp_association.specs.TrafficStands.{TrafficStands};
ghost use Rattle.sctp_association.specs.MachineStands.{MachineStands};

use crate::machine::Machine;
use crate::state::life::Life;
use crate::time::timer::{Alarm, Timer};
use crate::traffic::Traffic;
use sctp_reconfig::{
    Parameter, Parameters, RECONFIG, codes_are_the_definitions, parameters_act, read_parameters,
};
use sctp_values::NoMemory;

#[tactic(auto, unfolding(crate::specs::MachineStands::MachineStands))]
impl Machine {
    /// A chunk of this type is a RE-CONFIG to this endpoint: it has agreed on stream reset, and still takes user data (RFC 6525, 5.2).
    pub fn takes_reconfig(&self, kind: u8) -> bool
        ensures { (v : EndView) → MachineStands self.now v → result ≡ takes_reconfig v kind }
    {
        codes_are_the_definitions();
        kind == RECONFIG && (self.resets() && self.takes_data())
    }

    /// The association is open, and still takes user data (RFC 9260, 6.2 and 9.2).
    fn takes_data(&self) -> bool
        ensures { (v : EndView) → MachineStands self.now v → result ≡ hears takes_data v.phase }
    {
        match self.opened() {
            Some(opened) => opened.stage.takes_data(),
            None => false,
        }
    }

    /// Processes a RE-CONFIG with this value, at an endpoint that takes it: its parameters act one after the other (RFC 6525, 5.2).
    ///
    /// # Errors
    /// `NoMemory` if an allocation was refused; nothing changed then.
    pub fn hear_reconfig(&mut self, value: &[u8]) -> Result<(), NoMemory>
        ensures step { (v : EndView) (kind : ℕ) → MachineStands self.old v → takes_reconfig v kind ≡ true
            → OnOk result ((c : ℕ) × IsCumulative v.receiver c × MachineStands self.new (parameters_heard c v (typed_in value.now))) }
        ensures refused { (v : EndView) → MachineStands self.old v → OnErr result (MachineStands self.new v) }
    {
        parameters_act();
        self.hear_requests(value)?;
        match read_parameters(value) {
            Some(parameters) => {
                self.hear_responses(parameters);
                Ok(())
            }
            None => Ok(()),
        }
    }

    /// The requests of a RE-CONFIG act at the receiver (RFC 6525, 5.2.2).
    ///
    /// # Errors
    /// `NoMemory` if an allocation was refused; nothing changed then.
    fn hear_requests(&mut self, value: &[u8]) -> Result<(), NoMemory>
        ensures step { (v : EndView) → MachineStands self.old v → v.terms.reset ≡ true
            → OnOk result ((c : ℕ) × IsCumulative v.receiver c × MachineStands self.new (requests_heard c v (parameters_in value.now))) }
        ensures refused { (v : EndView) → MachineStands self.old v → OnErr result (MachineStands self.new v) }
    {
        let limit = self.config.limit();
        match &mut self.life {
            Life::Unjoined(_) => Ok(()),
            Life::Joined(association) => take_requests(&mut association.traffic, limit, value),
        }
    }

    /// The responses among these parameters act at the sender, one after another.
    fn hear_responses(&mut self, parameters: Parameters<'_>)
        ensures { (v : EndView) → MachineStands self.old v → MachineStands self.new (responses_heard v parameters.entry) }
    {
        for parameter in parameters {
            self.hear_parameter(parameter);
        }
    }

    /// A response acts; all else is passed over.
    fn hear_parameter(&mut self, parameter: Parameter<'_>)
        ensures { (v : EndView) → MachineStands self.old v → MachineStands self.new (responded v (parameter_meaning parameter.entry)) }
    {
        match parameter {
            Parameter::Response { number, code } => self.hear_response(number, code),
            Parameter::Reset(_) => {}
            Parameter::OtherRequest { number: _ } => {}
            Parameter::Skipped => {}
        }
    }

    /// A response to the request with this sequence number (RFC 6525, 5.2.7).
    fn hear_response(&mut self, number: u32, code: u32)
        ensures { (v : EndView) → MachineStands self.old v → MachineStands self.new (response_heard v number code) }
    {
        let answered = self.is_asked(number);
        self.respond(number, code);
        self.restart(answered);
        self.ask_on();
    }

    /// After a response to the request that waits its timer, if it runs, starts again as that of a new one (RFC 6525, 5.2.7).
    fn restart(&mut self, answered: bool)
        ensures { (v : EndView) → MachineStands self.old v → MachineStands self.new (in_progress answered v) }
    {
        if answered {
            let wait = self.asking_wait();
            let timer = self.timers.get(Alarm::Reset).restarted(self.moment, wait);
            self.timers.put(Alarm::Reset, timer);
        }
    }

    /// If no request waits for its response, none is due, and its timer is as one that never ran (RFC 9260, 8.1).
    fn ask_on(&mut self)
        ensures { (v : EndView) → MachineStands self.old v → MachineStands self.new (asking_on v) }
    {
        if self.has_asked() {
            return;
        }
        self.due.owe_request(false);
        self.timers.put(Alarm::Reset, Timer::unused());
    }

    /// A request with this sequence number waits for its response.
    fn is_asked(&self, number: u32) -> bool
        ensures { (v : EndView) → MachineStands self.now v → result ≡ is_open_number v.sender number }
    {
        match &self.life {
            Life::Unjoined(_) => false,
            Life::Joined(association) => is_request_of(&association.traffic, number),
        }
    }

    /// A request waits for its response.
    fn has_asked(&self) -> bool
        ensures { (v : EndView) → MachineStands self.now v → result ≡ is_some v.sender.resets.pending }
    {
        match &self.life {
            Life::Unjoined(_) => false,
            Life::Joined(association) => association.traffic.request().is_some(),
        }
    }

    /// The sender takes a response.
    fn respond(&mut self, number: u32, code: u32)
        ensures { (v : EndView) → MachineStands self.old v → MachineStands self.new (record v { sender = response_taken v.sender number code }) }
    {
        match &mut self.life {
            Life::Unjoined(_) => {}
            Life::Joined(association) => association.traffic.on_response(number, code),
        }
    }
}

/// The request that waits has this sequence number.
fn is_request_of(traffic: &Traffic, number: u32) -> bool
    ensures { (f : Format) (s : SenderView) (r : ReceiverView) → TrafficStands traffic.now f s r → result ≡ is_open_number s number }
{
    match traffic.request() {
        Some(request) => number == request.number,
        None => false,
    }
}

/// The requests of a RE-CONFIG with this value act; where it has none, nothing is allocated.
///
/// # Errors
/// `NoMemory` if an allocation was refused; nothing changed then.
fn take_requests(traffic: &mut Traffic, limit: u16, value: &[u8]) -> Result<(), NoMemory>
    ensures step { (f : Format) (s : SenderView) (r : ReceiverView) → TrafficStands traffic.old f s r
        → OnOk result ((c : ℕ) × IsCumulative r c × TrafficStands traffic.new f s (all_requested limit c r (parameters_in value.now))) }
    ensures refused { (f : Format) (s : SenderView) (r : ReceiverView) → TrafficStands traffic.old f s r → OnErr result (TrafficStands traffic.new f s r) }
{
    match requests_in(value) {
        Some(parameters) => traffic.on_requests(limit, parameters),
        None => {
            let _cumulative = traffic.cumulative();
            Ok(())
        }
    }
}

/// The parameters of a RE-CONFIG with this value, if one of them is a request.
fn requests_in(value: &[u8]) -> Option<Parameters<'_>>
    ensures { MatchOption result (list_any is_request (parameters_in value.now) ≡ false) (λ items. parameters_in value.now ≡ items) }
{
    match read_parameters(value) {
        None => None,
        Some(parameters) => {
            if has_request(parameters) {
                read_parameters(value)
            } else {
                None
            }
        }
    }
}

/// One of these parameters is a request.
fn has_request(parameters: Parameters<'_>) -> bool
    ensures { result ≡ list_any is_request parameters.entry }
{
    for parameter in parameters {
        if is_request(&parameter) {
            return true;
        }
    }
    false
}

/// The parameter is a request.
fn is_request(parameter: &Parameter<'_>) -> bool
    ensures { result ≡ is_request (parameter_meaning parameter.now) }
{
    matches!(
        parameter,
        Parameter::Reset(_) | Parameter::OtherRequest { number: _ }
    )
}
