//! The next packet of an endpoint (RFC 9260, 5.1, 6.10 and 9.2): first all its chunks are put in, which alone may allocate; then the state of the
//! endpoint changes as these chunks say.

pub mod asking;
pub mod filling;
pub mod pacing;
pub mod packing;
pub mod plain;
pub mod putting;
pub mod reconfiguring;
pub mod replying;
pub mod sendings;

ghost use Rattle.std.specs.Prelude.{◌≡◌, ℕ, Option, false, IfOk, OnErr};
ghost use Rattle.sctp_model.specs.messages.Format.{Format};
ghost use Rattle.sctp_model.specs.sender.SenderView.{SenderView};
ghost use Rattle.sctp_model.specs.receiver.ReceiverView.{ReceiverView};
ghost use Rattle.sctp_model.specs.end.EndView.{EndView, format_of};
ghost use Rattle.sctp_model.specs.end.EndView as model;
ghost use Rattle.sctp_model.specs.end.Clock.{at_moment};
ghost use Rattle.sctp_model.specs.end.Pacing.{Pace};
ghost use Rattle.sctp_congestion.specs.PaceStands.{PacesStand};
ghost use Rattle.sctp_association.specs.PhaseMeans.{phase_in, phase_unjoined};
ghost use Rattle.sctp_association.specs.Asks.{asks};
ghost use Rattle.sctp_association.specs.DueStands.{DueStands};
ghost use Rattle.sctp_association.specs.TrafficStands.{TrafficStands};
ghost use Rattle.sctp_association.specs.MachineStands.{MachineStands};
ghost use Rattle.sctp_association.specs.Drafted.{IsEmpty, IsPacked, IsWhole, IsPartOf};
ghost use Rattle.sctp_association.specs.BuildAnswers.{BuildAnswer};

use crate::build::filling::fill_behind;
use crate::build::packing::Packing;
use crate::build::plain::apart;
use crate::build::putting::{put_echoing, put_open};
use crate::build::sendings::{Filled, Sendings, filled_none};
use crate::machine::Machine;
use crate::state::carried::EchoedCookie;
use crate::state::due::Due;
use crate::state::life::{Association, Life, Progress, Unjoined};
use crate::time::timer::Alarm;
use crate::traffic::Traffic;
use sctp_congestion::Pacing;
use sctp_opening::put_init;
use sctp_terms::{Config, Draw};
use sctp_values::{NoMemory, Ticket};
use std::alloc::Global;

/// A packet to send; the tickets of the messages that were assigned their TSNs with it, by their first TSN; and how many of its DATA and I-DATA chunks
/// were sent first and again (RFC 9260, 6.1, 6.3.3 and 7.2.4).
#[derive(Drop)]
pub struct Built {
    pub packet: Vec<u8>,
    pub tickets: Vec<Ticket>,
    pub sendings: Sendings,
}

#[tactic(auto, unfolding(crate::specs::MachineStands::MachineStands))]
impl Machine {
    /// The next packet at this time, in milliseconds: the chunks that are due, in the order of filling, and then user data. None exactly if nothing
    /// is to be sent.
    ///
    /// # Errors
    /// `NoMemory` if an allocation was refused; nothing changed then, not even the clock.
    #[inline(always)]
    pub fn build(&mut self, now: u64) -> Result<Option<Built>, NoMemory>
        ensures built { (v : EndView) → MachineStands self.old v → IfOk result (λ built. BuildAnswer (at_moment v now) built self.new) }
        ensures memory { (v : EndView) → MachineStands self.old v → OnErr result (MachineStands self.new v) }
    {
        let moment = self.moment.max(now);
        if self.is_plain() {
            return self.build_plain(moment);
        }
        apart(self.build_any(moment))
    }

    /// The next packet at this time, which isn't before the latest one, whatever chunks are due.
    ///
    /// # Errors
    /// `NoMemory` if an allocation was refused; nothing changed then.
    #[inline(never)]
    fn build_any(&mut self, moment: u64) -> Result<Option<Built>, NoMemory>
        ensures built { (v : EndView) → MachineStands self.old v → IfOk result (λ built. BuildAnswer (record v { moment = moment }) built self.new) }
        ensures memory { (v : EndView) → MachineStands self.old v → OnErr result (MachineStands self.new v) }
    {
        let asked = self.ask()?;
        match self.build_asked(moment) {
            Ok(built) => Ok(built),
            Err(failed) => {
                self.take_back(asked);
                Err(failed)
            }
        }
    }

    /// The next packet at this time, which isn't before the latest one, of an endpoint that makes no request to reset streams any more.
    ///
    /// # Errors
    /// `NoMemory` if an allocation was refused; nothing changed then.
    fn build_asked(&mut self, moment: u64) -> Result<Option<Built>, NoMemory>
        ensures built { (v : EndView) → MachineStands self.old v → asks v ≡ false → IfOk result (λ built. BuildAnswer (record v { moment = moment }) built self.new) }
        ensures memory { (v : EndView) → MachineStands self.old v → OnErr result (MachineStands self.new v) }
    {
        self.keep_forward();
        let mut packing = self.packing();
        let filled = self.pack(moment, &mut packing)?;
        Ok(self.sent(moment, packing, filled))
    }

    /// Puts all chunks of the next packet in, by the state of the endpoint, at this time in milliseconds. Of the endpoint only the sender and the pace
    /// change.
    ///
    /// # Errors
    /// `NoMemory` if an allocation was refused.
    fn pack(&mut self, moment: u64, packing: &mut Packing) -> Result<Filled, NoMemory>
        ensures packed { (v : EndView) → MachineStands self.old v → asks v ≡ false → IsEmpty (record v { moment = moment }) packing.old
            → IfOk result (λ filled. (s : SenderView) × (o : Option Pace) × IsPacked (record v { moment = moment }) s o packing.new filled
            × MachineStands self.new (record v { sender = s; pace = o })) }
        ensures memory { (v : EndView) → MachineStands self.old v → OnErr result (MachineStands self.new v) }
    {
        let alloc = self.alloc;
        match &mut self.life {
            Life::Unjoined(unjoined) => { pack_unjoined(alloc, &self.config, *unjoined, packing) }
            Life::Joined(association) => {
                let pace = &mut self.pace;
                pack_joined(
                    alloc,
                    &self.config,
                    association,
                    &self.due,
                    pace,
                    moment,
                    packing,
                )
            }
        }
    }
}

/// What an endpoint sends before an association: its INIT, while it calls.
fn pack_unjoined(
    alloc: Global,
    config: &Config,
    unjoined: Unjoined,
    packing: &mut Packing,
) -> Result<Filled, NoMemory>
    ensures { (e : EndView) → e.configuration ≡ config.now → e.phase ≡ phase_unjoined unjoined → IsEmpty e packing.old
        → IfOk result (λ filled. IsPacked e e.sender e.pace packing.new filled) }
{
    match unjoined {
        Unjoined::Idle => Ok(filled_none(alloc)),
        Unjoined::Listening => Ok(filled_none(alloc)),
        Unjoined::Calling(draw) => pack_init(alloc, config, draw, packing),
        Unjoined::Failed(_) => Ok(filled_none(alloc)),
    }
}

/// INIT, if it is due, alone in its packet (RFC 9260, 5.1, A).
fn pack_init(
    alloc: Global,
    config: &Config,
    draw: Draw,
    packing: &mut Packing,
) -> Result<Filled, NoMemory>
    ensures { (e : EndView) → e.configuration ≡ config.now → e.phase ≡ model.Calling draw → IsEmpty e packing.old
        → IfOk result (λ filled. IsPacked e e.sender e.pace packing.new filled) }
{
    // By the clause of `limit` its packet has space for it.
    let _limit = config.limit();
    if !packing.marks.init {
        return Ok(filled_none(alloc));
    }
    if !put_init(alloc, config, draw, &mut packing.writer)? {
        return Ok(filled_none(alloc));
    }
    packing.marks.init = false;
    packing.marks.starts.add(Alarm::Init);
    Ok(filled_none(alloc))
}

/// What an association sends, by its progress; once it is over, nothing.
fn pack_joined(
    alloc: Global,
    config: &Config,
    association: &mut Association,
    due: &Due,
    pace: &mut Option<Pacing>,
    moment: u64,
    packing: &mut Packing,
) -> Result<Filled, NoMemory>
    ensures packed { (e : EndView) → phase_in association.old.tags association.old.progress ≡ e.phase → IsPartOf config.now association.old.traffic due.now e
        → PacesStand (format_of e) e.sender.cum pace.old e.pace → moment ≡ e.moment → IsEmpty e packing.old
        → IfOk result (IsWhole e association.new.traffic pace.new packing.new) }
    ensures memory { (f : Format) (s : SenderView) (r : ReceiverView) → TrafficStands association.old.traffic f s r → OnErr result (TrafficStands association.new.traffic f s r) }
    ensures kept { association.new ≡ record association.old { traffic = association.new.traffic } }
    ensures unchanged { (f : Format) (cum : ℕ) (o : Option Pace) → PacesStand f cum pace.old o → OnErr result (PacesStand f cum pace.new o) }
{
    match &association.progress {
        Progress::Echoing(cookie) => pack_echoing(alloc, cookie, due, packing),
        Progress::Open(_) => {
            let traffic = &mut association.traffic;
            pack_open(alloc, config, traffic, due, pace, moment, packing)
        }
        Progress::Over(_) => Ok(filled_none(alloc)),
    }
}

/// COOKIE ECHO, and the ERROR after it (RFC 9260, 5.1, C).
fn pack_echoing(
    alloc: Global,
    cookie: &EchoedCookie,
    due: &Due,
    packing: &mut Packing,
) -> Result<Filled, NoMemory>
    ensures { (e : EndView) (t : model.Tags) → e.phase ≡ model.Echoing t cookie.now.bytes.items → DueStands due.now e.due → IsEmpty e packing.old
        → IfOk result (λ filled. IsPacked e e.sender e.pace packing.new filled) }
{
    let _room = put_echoing(cookie, due, packing)?;
    Ok(filled_none(alloc))
}

/// The chunks that are due while the association is open, and user data in what is left after them (RFC 9260, 6.1 and 6.10).
fn pack_open(
    alloc: Global,
    config: &Config,
    traffic: &mut Traffic,
    due: &Due,
    pace: &mut Option<Pacing>,
    moment: u64,
    packing: &mut Packing,
) -> Result<Filled, NoMemory>
    ensures packed { (e : EndView) (t : model.Tags) (g : model.Stage) → e.phase ≡ model.Open t g → IsPartOf config.now traffic.old due.now e
        → PacesStand (format_of e) e.sender.cum pace.old e.pace → moment ≡ e.moment → IsEmpty e packing.old
        → IfOk result (IsWhole e traffic.new pace.new packing.new) }
    ensures memory { (f : Format) (s : SenderView) (r : ReceiverView) → TrafficStands traffic.old f s r → OnErr result (TrafficStands traffic.new f s r) }
    ensures unchanged { (f : Format) (cum : ℕ) (o : Option Pace) → PacesStand f cum pace.old o → OnErr result (PacesStand f cum pace.new o) }
{
    if !put_open(alloc, config, traffic, due, packing)? {
        return Ok(filled_none(alloc));
    }
    fill_behind(alloc, traffic, pace, moment, packing)
}
