//! The user resets outgoing streams, and reads which streams the peer reset (RFC 6525, 5.1 and 5.2).

ghost use Rattle.std.specs.Prelude.{◌≡◌, ◌&&◌, nat_lt, true, is_some, OnOk, OnErr};
ghost use Rattle.sctp_model.specs.sender.Outgoing.{is_resetting};
ghost use Rattle.sctp_model.specs.sender.Resetting.{resetting};
ghost use Rattle.sctp_model.specs.end.EndView.{EndView};
ghost use Rattle.sctp_model.specs.end.UserCalls.{is_established, reset_there};
ghost use Rattle.sctp_model.specs.end.Closing.{hears};
ghost use Rattle.sctp_send.specs.ResetAnswers.{resetting_streams};
ghost use Rattle.sctp_association.specs.MachineStands.{MachineStands};
ghost use Rattle.sctp_association.specs.ResetAnswers.{ResetAnswers, reset_view, ToldAnswers, told_view};

use crate::machine::Machine;
use crate::state::life::Life;
use sctp_recv::Reset;
use sctp_terms::ResetFault;
use sctp_values::NoMemory;

#[tactic(auto, unfolding(crate::specs::MachineStands::MachineStands))]
impl Machine {
    /// Asks for the reset of an outgoing stream: from this call on it takes no further message, and once all that was sent on it is acknowledged the peer
    /// is asked to reset it. It changes nothing if the stream is being reset, and may be asked for again if the peer refused (RFC 6525, 5.1).
    ///
    /// # Errors
    /// The first of these that holds: `State` if the association isn't established or stream reset wasn't agreed on, `NoSuchStream`, `NoMemory` if an
    /// allocation was refused. Nothing changed then.
    pub fn reset(&mut self, stream: u16) -> Result<(), ResetFault>
        ensures answer { (v : EndView) → MachineStands self.old v → ResetAnswers v stream result }
        ensures step { (v : EndView) → MachineStands self.old v → MachineStands self.new (reset_view v stream result) }
    {
        if !self.may_reset() {
            return Err(ResetFault::State);
        }
        if self.outgoing() <= stream {
            return Err(ResetFault::NoSuchStream);
        }
        match self.begin_reset(stream) {
            Ok(()) => Ok(()),
            Err(_) => Err(ResetFault::NoMemory),
        }
    }

    /// The association is established, and both endpoints agreed on stream reset.
    fn may_reset(&self) -> bool
        ensures { (v : EndView) → MachineStands self.now v → result ≡ (v.terms.reset && hears is_established v.phase) }
    {
        self.resets() && self.is_established()
    }

    /// Streams may be reset, as both endpoints agreed (RFC 6525).
    #[inline(always)]
    pub(crate) fn resets(&self) -> bool
        ensures { (v : EndView) → MachineStands self.now v → result ≡ v.terms.reset }
    {
        match &self.life {
            Life::Unjoined(_) => false,
            Life::Joined(association) => association.terms.reset,
        }
    }

    /// The association is established.
    pub(crate) fn is_established(&self) -> bool
        ensures { (v : EndView) → MachineStands self.now v → result ≡ hears is_established v.phase }
    {
        match self.opened() {
            Some(opened) => opened.stage.is_established(),
            None => false,
        }
    }

    /// The number of streams that its sender sends on; 0 before an association.
    fn outgoing(&self) -> u16
        ensures { (v : EndView) → MachineStands self.now v → result ≡ v.sender.streams }
    {
        match &self.life {
            Life::Unjoined(_) => 0,
            Life::Joined(association) => association.traffic.outbound(),
        }
    }

    /// The sender begins the reset of a stream.
    ///
    /// # Errors
    /// `NoMemory` if an allocation was refused; nothing changed then.
    fn begin_reset(&mut self, stream: u16) -> Result<(), NoMemory>
        ensures step { (v : EndView) → MachineStands self.old v → v.terms.reset ≡ true
            → OnOk result (MachineStands self.new (record v { sender = resetting v.sender stream })) }
        ensures refused { (v : EndView) → MachineStands self.old v → OnErr result (MachineStands self.new v) }
    {
        match &mut self.life {
            Life::Unjoined(_) => Ok(()),
            Life::Joined(association) => association.traffic.reset(stream),
        }
    }

    /// The reset of this outgoing stream was asked for and has no answer yet: it takes no message meanwhile. False if there is no such stream, as before
    /// an association.
    pub fn is_resetting(&self, stream: u16) -> bool
        ensures { (v : EndView) → MachineStands self.now v → result ≡ (nat_lt stream v.sender.streams && is_resetting (v.sender.resets.sending stream)) }
    {
        match &self.life {
            Life::Unjoined(_) => false,
            Life::Joined(association) => association.traffic.is_resetting(stream),
        }
    }

    /// How many of the outgoing streams below 1,024 wait for their reset; 0 before an association.
    pub fn resetting_streams(&self) -> usize
        ensures { (v : EndView) → MachineStands self.now v → result ≡ resetting_streams v.sender }
    {
        match &self.life {
            Life::Unjoined(_) => 0,
            Life::Joined(association) => association.traffic.resetting_streams(),
        }
    }

    /// Whether the peer reset a stream and that wasn't reported.
    #[inline(always)]
    pub fn has_reset(&self) -> bool
        ensures { (v : EndView) → MachineStands self.now v → result ≡ is_some (reset_there v) }
    {
        match &self.life {
            Life::Unjoined(_) => false,
            Life::Joined(association) => association.traffic.has_reset(),
        }
    }

    /// Reports a reset of the peer: the lowest stream that it reset and that wasn't reported since, and how many of the messages that wait there were
    /// delivered before it. None exactly if there is none. It doesn't allocate (RFC 6525, 5.2.2).
    pub fn take_reset(&mut self) -> Option<Reset>
        ensures answer { (v : EndView) → MachineStands self.old v → ToldAnswers v result }
        ensures step { (v : EndView) → MachineStands self.old v → MachineStands self.new (told_view v result) }
    {
        match &mut self.life {
            Life::Unjoined(_) => None,
            Life::Joined(association) => association.traffic.take_reset(),
        }
    }
}
