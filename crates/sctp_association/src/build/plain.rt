//! The fast path of most packets: while the association is open and nothing is due but a SACK, no other chunk that may be due is looked at (RFC 9260,
//! 6.1, 6.2 and 6.10). SACK and user data go in by the same functions as in any other packet.

ghost use Rattle.std.specs.Prelude.{◌≡◌, ◌≤◌, ℕ, Option, [], true, false, length, IfOk, OnErr, IfSome, MatchOption};
ghost use Rattle.sctp_model.specs.messages.Format.{Format};
ghost use Rattle.sctp_model.specs.sender.SenderView.{SenderView};
ghost use Rattle.sctp_model.specs.receiver.ReceiverView.{ReceiverView};
ghost use Rattle.sctp_model.specs.wire.Packet.{size_of_packet};
ghost use Rattle.sctp_model.specs.end.EndView.{EndView, format_of};
ghost use Rattle.sctp_model.specs.end.EndView as model;
ghost use Rattle.sctp_model.specs.end.Pacing.{Pace};
ghost use Rattle.sctp_congestion.specs.PaceStands.{PacesStand};
ghost use Rattle.sctp_packet.specs.Draft.{packet_of};
ghost use Rattle.sctp_packet.specs.PacketBytes.{WritesPacket};
ghost use Rattle.sctp_association.specs.DueStands.{DueStands};
ghost use Rattle.sctp_association.specs.TrafficStands.{TrafficStands};
ghost use Rattle.sctp_association.specs.MachineStands.{MachineStands};
ghost use Rattle.sctp_association.specs.Drafted.{drafted, IsEmpty, IsPacked, IsWhole};
ghost use Rattle.sctp_association.specs.BuildAnswers.{BuildAnswer};
ghost use Rattle.sctp_association.specs.PlainPacket.{IsPlain, IsCalm, plain_marks};
ghost use Rattle.sctp_association.specs.declared.state.due.Due as kept;

use crate::build::Built;
use crate::build::pacing::fill_by;
use crate::build::putting::put_due_sack;
use crate::build::sendings::{Filled, filled_none};
use crate::machine::Machine;
use crate::state::due::Due;
use crate::state::life::Life;
use crate::traffic::Traffic;
use sctp_congestion::Pacing;
use sctp_packet::PacketWriter;
use sctp_values::NoMemory;
use std::alloc::Global;

/// What a packet of the fast path changes.
#[derive(Drop)]
pub(crate) struct Plain {
    /// The SACK is still due.
    pub(crate) sack: bool,
    /// User data went out.
    pub(crate) fragments: bool,
    /// The tickets of the messages that were assigned their TSNs with it, by their first TSN, and how many chunks were sent first and again.
    pub(crate) filled: Filled,
}

impl Due {
    /// Of the chunks of an open association nothing is due but a SACK at most.
    pub(crate) fn is_plain(&self) -> bool
        ensures { (d : model.Due) → DueStands self.now d → result ≡ true → IsPlain self.now d }
    {
        if self.cookie_ack {
            return false;
        }
        if self.forward {
            return false;
        }
        if self.request {
            return false;
        }
        if self.shutdown {
            return false;
        }
        if self.shutdown_ack {
            return false;
        }
        match &self.heartbeat {
            Some(_) => false,
            None => self.causes.bytes.is_empty(),
        }
    }
}

#[tactic(auto, unfolding(crate::specs::MachineStands::MachineStands))]
impl Machine {
    /// The association is open, and nothing is due but a SACK at most.
    #[inline(always)]
    pub(crate) fn is_plain(&self) -> bool
        ensures { (v : EndView) → MachineStands self.now v → result ≡ true
            → (t : model.Tags) × (g : model.Stage) × (v.phase ≡ model.Open t g) × IsPlain self.now.due v.due × IsCalm v }
    {
        match self.opened() {
            Some(_) => {
                if !self.due.is_plain() {
                    return false;
                }
                self.is_calm()
            }
            None => false,
        }
    }

    /// No response to a request to reset streams waits, and no request is to be made. Without stream reset that costs one test, and three while no
    /// stream waits for its reset.
    #[inline(always)]
    fn is_calm(&self) -> bool
        ensures { (v : EndView) → MachineStands self.now v → result ≡ true → IsCalm v }
    {
        match &self.life {
            Life::Unjoined(_) => false,
            Life::Joined(association) => {
                if !association.terms.reset {
                    return true;
                }
                if !association.traffic.answers().is_empty() {
                    return false;
                }
                // without a stream that waits for its reset none is ready
                if association.traffic.resetting_streams() == 0 {
                    return true;
                }
                !self.asks()
            }
        }
    }

    /// The next packet at this time, of an endpoint that `is_plain`.
    ///
    /// # Errors
    /// `NoMemory` if an allocation was refused; nothing changed then, not even the clock.
    #[inline(always)]
    pub(crate) fn build_plain(&mut self, moment: u64) -> Result<Option<Built>, NoMemory>
        ensures built { (v : EndView) (t : model.Tags) (g : model.Stage) → MachineStands self.old v → v.phase ≡ model.Open t g → IsPlain self.old.due v.due → IsCalm v
            → IfOk result (λ built. BuildAnswer (record v { moment = moment }) built self.new) }
        ensures memory { (v : EndView) → MachineStands self.old v → OnErr result (MachineStands self.new v) }
    {
        let mut writer = self.empty_packet();
        let plain = self.pack_plain(moment, &mut writer)?;
        Ok(self.sent_plain(moment, writer, plain))
    }

    /// Puts the SACK in, if it is due, and user data, at this time in milliseconds. Of the endpoint only the sender and the pace change.
    ///
    /// # Errors
    /// `NoMemory` if an allocation was refused.
    #[inline(always)]
    fn pack_plain(&mut self, moment: u64, writer: &mut PacketWriter) -> Result<Plain, NoMemory>
        ensures packed { (v : EndView) (t : model.Tags) (g : model.Stage) → MachineStands self.old v → v.phase ≡ model.Open t g → IsPlain self.old.due v.due → IsCalm v
            → IsEmpty (record v { moment = moment }) (record { writer = writer.old; marks = plain_marks self.old.due self.old.due.sack false })
            → IfOk result (λ p. (s : SenderView) × (o : Option Pace)
            × IsPacked (record v { moment = moment }) s o (record { writer = writer.new; marks = plain_marks self.old.due p.sack p.fragments }) p.filled
            × MachineStands self.new (record v { sender = s; pace = o })) }
        ensures memory { (v : EndView) → MachineStands self.old v → OnErr result (MachineStands self.new v) }
        ensures kept { self.new ≡ record self.old { life = self.new.life; pace = self.new.pace } }
    {
        let alloc = self.alloc;
        let sack = self.due.sack;
        match &mut self.life {
            Life::Unjoined(_) => Ok(Plain {
                sack,
                fragments: false,
                filled: filled_none(alloc),
            }),
            Life::Joined(association) => {
                let traffic = &mut association.traffic;
                put_plain(alloc, traffic, &mut self.pace, moment, sack, writer)
            }
        }
    }

    /// The packet goes out, if it has a chunk: the SACK is due as `plain` says, and the data timer starts if user data went out.
    #[inline(always)]
    fn sent_plain(&mut self, moment: u64, writer: PacketWriter, plain: Plain) -> Option<Built>
        ensures stands { (v : EndView) → MachineStands self.old v
            → MachineStands self.new (drafted (plain_marks self.old.due plain.sack plain.fragments) (record v { moment = moment })) }
        ensures packet { MatchOption result (writer.chunks ≡ []) (λ b. WritesPacket b.packet.items (packet_of writer)) }
        ensures size { IfSome result (λ b. length b.packet.items ≡ size_of_packet writer.chunks) }
        ensures within { IfSome result (λ b. length b.packet.items ≤ writer.limit) }
        ensures tickets { IfSome result (λ b. b.tickets ≡ plain.filled.tickets) }
        ensures sendings { IfSome result (λ b. b.sendings ≡ plain.filled.sendings) }
    {
        self.moment = moment;
        self.when_sack_sent(self.due.sack, plain.sack);
        self.timers.start_fragments(plain.fragments, moment);
        self.due.owe_sack(plain.sack);
        self.finished(writer, plain.filled)
    }
}

/// The same. What was returned through memory is apart from what is returned of a packet of the fast path, which so stays in registers.
#[inline(always)]
pub(crate) fn apart(built: Result<Option<Built>, NoMemory>) -> Result<Option<Built>, NoMemory>
    ensures { result ≡ built }
{
    match built {
        Ok(Some(built)) => Ok(Some(built)),
        Ok(None) => Ok(None),
        Err(failed) => Err(failed),
    }
}

/// Puts the SACK in, if it is due, and user data in what is left after it, as far as the pace allows, at this time in milliseconds.
///
/// # Errors
/// `NoMemory` if an allocation was refused; nothing of the traffic and of the pace changed then.
#[inline(always)]
fn put_plain(
    alloc: Global,
    traffic: &mut Traffic,
    pace: &mut Option<Pacing>,
    moment: u64,
    sack: bool,
    writer: &mut PacketWriter,
) -> Result<Plain, NoMemory>
    ensures packed { (e : EndView) (t : model.Tags) (g : model.Stage) (d : kept.Due) → e.phase ≡ model.Open t g → PacesStand (format_of e) e.sender.cum pace.old e.pace → moment ≡ e.moment → IsPlain d e.due → IsCalm e
        → TrafficStands traffic.old (format_of e) e.sender e.receiver → IsEmpty e (record { writer = writer.old; marks = plain_marks d sack false })
        → IfOk result (λ p. IsWhole e traffic.new pace.new (record { writer = writer.new; marks = plain_marks d p.sack p.fragments }) p.filled) }
    ensures memory { (f : Format) (s : SenderView) (r : ReceiverView) → TrafficStands traffic.old f s r → OnErr result (TrafficStands traffic.new f s r) }
    ensures unchanged { (f : Format) (cum : ℕ) (o : Option Pace) → PacesStand f cum pace.old o → OnErr result (PacesStand f cum pace.new o) }
{
    if !put_due_sack(traffic, sack, writer)? {
        return Ok(Plain {
            sack,
            fragments: false,
            filled: filled_none(alloc),
        });
    }
    let fragments = fill_by(alloc, traffic, pace, moment, writer)?;
    Ok(Plain {
        sack: false,
        fragments: fragments.some,
        filled: fragments.filled,
    })
}
