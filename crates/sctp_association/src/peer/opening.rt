//! Opening an association (RFC 9260, 5.1 and 5.2.4): the caller that waits for an INIT ACK or for a COOKIE ACK, the listener that reads cookies, and
//! an endpoint without an association.

ghost use Rattle.std.specs.Prelude.{◌≡◌, true, false, ◌≤◌, ◌<◌, ◌+◌, ◌^◌, length, List, ℕ, Some, None, MatchOption, MatchResult, IfOk, OnErr};
ghost use Rattle.sctp_model.specs.end.EndView.{EndView};
ghost use Rattle.sctp_model.specs.end.EndView as model;
ghost use Rattle.sctp_model.specs.end.Sealing.{Sealing};
ghost use Rattle.sctp_model.specs.end.Clock.{turned, closed};
ghost use Rattle.sctp_model.specs.end.Closing.{with_due};
ghost use Rattle.sctp_model.specs.end.Options.{value_of};
ghost use Rattle.sctp_model.specs.end.PeerFaults.{packet_to, abort_for};
ghost use Rattle.sctp_model.specs.end.Opening.{is_calling, is_echoing, acknowledged_echo, cookie_read, seal_in, ack_fault};
ghost use Rattle.sctp_model.specs.end.Acting.{may_report};
ghost use Rattle.sctp_model.specs.end.Arriving.{is_answer};
ghost use Rattle.sctp_model.specs.end.Strays.{body_among, chunks_verdict, listens};
ghost use Rattle.sctp_wire.specs.ChunkTree.{init_meaning};
ghost use Rattle.sctp_packet.specs.PacketBytes.{WritesPacket};
ghost use Rattle.sctp_cookie.specs.Seals.{IsUnder};
ghost use Rattle.sctp_opening.specs.AckFaults.{cause_of};
ghost use Rattle.sctp_opening.specs.Cookies.{reading_meaning};
ghost use Rattle.sctp_opening.specs.Outside.{IsOutside};
ghost use Rattle.sctp_opening.specs.Told.{IsTold, IsToldWithin};
ghost use Rattle.sctp_association.specs.MachineStands.{MachineStands};
ghost use Rattle.sctp_association.specs.PhaseMeans.{is_listening};

use crate::machine::Machine;
use crate::state::closing::turn_timers;
use crate::state::life::{Life, Progress, Role, Unjoined};
use crate::state::stage::Stage;
use crate::time::timer::Alarm;
use sctp_cookie::Key;
use sctp_opening::{AckFault, CookieReading, Outside, Stray, ack_abort, cookie_of, read_cookie};
use sctp_terms::{Draw, End};
use sctp_wire::codes::STATE_COOKIE;
use sctp_wire::{Chunks, Init, NoMemory};

#[tactic(auto, unfolding(crate::specs::MachineStands::MachineStands))]
impl Machine {
    // ---- the caller

    /// The random values (tag, initial TSN) of a caller that waits for an INIT ACK (RFC 9260, 4: COOKIE-WAIT).
    pub fn calling(&self) -> Option<Draw>
        ensures { (v : EndView) → MachineStands self.now v → MatchOption result (is_calling v.phase ≡ false) (λ d. v.phase ≡ model.Calling d) }
    {
        match &self.life {
            Life::Unjoined(unjoined) => unjoined.calling(),
            Life::Joined(_) => None,
        }
    }

    /// It is a caller that waits for the COOKIE ACK (RFC 9260, 4: COOKIE-ECHOED).
    pub fn is_echoing(&self) -> bool
        ensures { (v : EndView) → MachineStands self.now v → result ≡ is_echoing v.phase }
    {
        match &self.life {
            Life::Unjoined(_) => false,
            Life::Joined(association) => matches!(association.progress, Progress::Echoing(_)),
        }
    }

    /// Unrecognized chunks and parameters may be reported to the peer: not by a caller that has no peer yet (RFC 9260, 3.2).
    pub fn may_report(&self) -> bool
        ensures { (v : EndView) → MachineStands self.now v → result ≡ may_report v.phase }
    {
        match &self.life {
            Life::Unjoined(unjoined) => !matches!(unjoined, Unjoined::Calling(_)),
            Life::Joined(_) => true,
        }
    }

    /// The cookie of an INIT ACK, which a COOKIE ECHO returns: it fits one packet (RFC 9260, 5.1.2).
    ///
    /// # Errors
    /// Why the INIT ACK is refused; `refuse_ack` answers it.
    pub fn cookie_in<'a>(&self, offer: &Init<'a>) -> Result<&'a [u8], AckFault>
        ensures answer { (v : EndView) → MachineStands self.now v → MatchResult result
            (λ cookie. (value_of STATE_COOKIE offer.now.parameters ≡ Some cookie.now) × (ack_fault v (init_meaning offer.now) (Some cookie.now) ≡ None))
            (λ fault. ack_fault v (init_meaning offer.now) (value_of STATE_COOKIE offer.now.parameters) ≡ Some (cause_of fault)) }
        ensures small { IfOk result (λ cookie. 4 + length cookie.now < 2 ^ 16) }
    {
        // By the clause of `limit` what fits a packet has a length of 16 bits.
        let _limit = self.config.limit();
        cookie_of(&self.config, offer)
    }

    /// Closes the endpoint. The packet is an ABORT that reports the fault to the sender of the INIT ACK, under its initiate tag (RFC 9260, 5.1.2 and
    /// 3.3.10).
    ///
    /// # Errors
    /// `NoMemory` if an allocation was refused; nothing changed then.
    pub fn refuse_ack(&mut self, tag: u32, fault: AckFault) -> Result<Vec<u8>, NoMemory>
        ensures step { (v : EndView) → MachineStands self.old v → IfOk result (λ packet. WritesPacket packet.items (packet_to v.configuration tag (abort_for (cause_of fault)))
            × MachineStands self.new (closed model.AbortedHere v)) }
        ensures within { (v : EndView) → MachineStands self.old v → IfOk result (λ packet. length packet.items ≤ v.configuration.limit) }
        ensures refused { (v : EndView) → MachineStands self.old v → OnErr result (MachineStands self.new v) }
    {
        let packet = ack_abort(self.alloc, &self.config, tag, fault)?;
        self.close(End::AbortedHere);
        Ok(packet)
    }

    /// A COOKIE ACK arrived: the caller's association is established (RFC 9260, 5.1, E). With a pace it measures the round trip of the COOKIE ECHO.
    pub fn establish(&mut self)
        ensures { (v : EndView) (t : model.Tags) (xs : List ℕ) → MachineStands self.old v → v.phase ≡ model.Echoing t xs
            → MachineStands self.new (acknowledged_echo t v) }
    {
        let cookie = self.timers.get(Alarm::Cookie);
        let trip = cookie.trip(self.moment);
        self.enter_established();
        self.measure(trip, cookie.wait);
    }

    /// The caller's association enters ESTABLISHED.
    fn enter_established(&mut self)
        ensures { (v : EndView) (t : model.Tags) (xs : List ℕ) → MachineStands self.old v → v.phase ≡ model.Echoing t xs
            → MachineStands self.new (turned (model.Open t model.Established) v) }
    {
        self.due.turn(Stage::Established);
        turn_timers(&mut self.timers, Stage::Established);
        if let Life::Joined(association) = &mut self.life {
            association.progress = Progress::Open(Stage::Established);
        }
    }

    // ---- the listener

    /// A COOKIE ACK is due (RFC 9260, 5.1, D and 5.2.4).
    pub fn acknowledge_cookie(&mut self)
        ensures { (v : EndView) → MachineStands self.old v → MachineStands self.new (with_due (record v.due { cookie_ack = true }) v) }
    {
        self.due.acknowledge_cookie();
    }

    /// What a listener reads in a cookie that was received under this verification tag (RFC 9260, 5.1.5); None at an endpoint that doesn't listen.
    pub fn read_cookie(&self, tag: u32, cookie: &[u8]) -> Option<CookieReading>
        ensures { (v : EndView) → MachineStands self.now v → MatchOption result (seal_in v.role ≡ None)
            (λ r. (s : Sealing) × (seal_in v.role ≡ Some s) × (reading_meaning r ≡ cookie_read s v tag cookie.now)) }
    {
        match self.key() {
            Some(key) => Some(read_cookie(&key, &self.config, self.moment, tag, cookie)),
            None => None,
        }
    }

    /// The key of a listener's cookies, also once it has an association.
    fn key(&self) -> Option<Key>
        ensures { (v : EndView) → MachineStands self.now v → MatchOption result (seal_in v.role ≡ None)
            (λ key. (s : Sealing) × (seal_in v.role ≡ Some s) × IsUnder key s) }
    {
        match &self.role {
            Role::Caller => None,
            Role::Listener(key) => Some(*key),
            Role::Paired => None,
        }
    }

    /// It listens, and had no association yet (RFC 9260, 4: LISTEN).
    fn is_listening(&self) -> bool
        ensures { (v : EndView) → MachineStands self.now v → result ≡ is_listening v.phase }
    {
        match &self.life {
            Life::Unjoined(unjoined) => matches!(unjoined, Unjoined::Listening),
            Life::Joined(_) => false,
        }
    }

    // ---- without an association

    /// Judges a packet of these chunks, under this verification tag, if there is no association: nothing of it is kept. An INIT ACK has these random
    /// values as its tag and initial TSN (RFC 9260, 5.1 and 8.4).
    ///
    /// # Errors
    /// `NoMemory` if an allocation was refused: only if the packet is answered.
    pub fn hear_outside(&self, draw: Draw, tag: u32, chunks: &Chunks<'_>) -> Result<Stray, NoMemory>
        ensures answer { (v : EndView) → MachineStands self.now v
            → IfOk result (λ told. IsTold told (body_among v tag chunks.now) (chunks_verdict v draw tag chunks.now)) }
        ensures within { (v : EndView) → MachineStands self.now v → IfOk result (λ told. IsToldWithin v.configuration.limit told) }
        ensures memory { (v : EndView) → MachineStands self.now v → OnErr result (is_answer (chunks_verdict v draw tag chunks.now) ≡ true) }
    {
        self.outside(draw).hear(self.alloc, tag, chunks)
    }

    /// Configuration, clock and key, by which such packets are judged.
    fn outside(&self, draw: Draw) -> Outside
        ensures answers { (v : EndView) → MachineStands self.now v → IsOutside result v }
        ensures drawn { result.draw ≡ draw }
    {
        Outside {
            config: self.config,
            moment: self.moment,
            key: self.listening_key(),
            draw,
        }
    }

    /// The key of its cookies, while it listens.
    fn listening_key(&self) -> Option<Key>
        ensures { (v : EndView) → MachineStands self.now v → MatchOption result (listens v ≡ None)
            (λ key. (s : Sealing) × (listens v ≡ Some s) × IsUnder key s) }
    {
        if !self.is_listening() {
            return None;
        }
        self.key()
    }
}
