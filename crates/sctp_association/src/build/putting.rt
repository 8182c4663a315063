//! The chunks that are due go into a packet one after the other, in the order of filling; the first that doesn't fit ends the packet
//! (RFC 9260, 6.10). Each function returns false exactly if its chunk is due and doesn't fit.

ghost use Rattle.std.specs.Prelude.{◌≡◌, [], ◌∷◌, IfOk};
ghost use Rattle.sctp_model.specs.messages.Format.{Format};
ghost use Rattle.sctp_model.specs.sender.SenderView.{SenderView};
ghost use Rattle.sctp_model.specs.receiver.ReceiverView.{ReceiverView};
ghost use Rattle.sctp_model.specs.end.EndView.{EndView, Echoing, format_of};
ghost use Rattle.sctp_model.specs.end.EndView as model;
ghost use Rattle.sctp_model.specs.end.Building.{SackSlot, ForwardSlot, ShutdownSlot, ShutdownAckSlot, EchoSlot, open_slots, echoing_slots};
ghost use Rattle.sctp_association.specs.DueStands.{DueStands};
ghost use Rattle.sctp_association.specs.TrafficStands.{TrafficStands};
ghost use Rattle.sctp_association.specs.Drafted.{PutsSack, PutsAt, IsOf, IsPartOf};
ghost use Rattle.sctp_association.specs.PlainPacket.{still_due};
ghost use Rattle.sctp_association.specs.declared.build.packing.Marks as marks;

use crate::build::packing::Packing;
use crate::build::reconfiguring::put_reconfigs;
use crate::build::replying::{put_answers, put_error};
use crate::state::carried::EchoedCookie;
use crate::state::due::Due;
use crate::time::timer::Alarm;
use crate::traffic::Traffic;
use sctp_packet::PacketWriter;
use sctp_terms::Config;
use sctp_values::NoMemory;
use sctp_wire::Chunk;
use std::alloc::Global;

/// The chunks that are due while the association is open.
///
/// # Errors
/// `NoMemory` if an allocation was refused.
pub(crate) fn put_open(
    alloc: Global,
    config: &Config,
    traffic: &Traffic,
    due: &Due,
    packing: &mut Packing,
) -> Result<bool, NoMemory>
    ensures { (e : EndView) → IsPartOf config.now traffic.now due.now e → IsOf e packing.old → IfOk result (λ room. PutsAt open_slots e packing.old packing.new room) }
{
    if !put_answers(due, packing)? {
        return Ok(false);
    }
    if !put_sack(traffic, packing)? {
        return Ok(false);
    }
    if !put_forward(config, traffic, packing)? {
        return Ok(false);
    }
    if !put_reconfigs(alloc, traffic, packing)? {
        return Ok(false);
    }
    if !put_shutdown(traffic, packing)? {
        return Ok(false);
    }
    put_shutdown_ack(packing)
}

/// The chunks that are due in COOKIE-ECHOED.
///
/// # Errors
/// `NoMemory` if an allocation was refused.
pub(crate) fn put_echoing(
    cookie: &EchoedCookie,
    due: &Due,
    packing: &mut Packing,
) -> Result<bool, NoMemory>
    ensures { (e : EndView) (t : model.Tags) → e.phase ≡ Echoing t cookie.now.bytes.items → DueStands due.now e.due → IsOf e packing.old
        → IfOk result (λ room. PutsAt echoing_slots e packing.old packing.new room) }
{
    if !put_echo(cookie, packing)? {
        return Ok(false);
    }
    put_error(due, packing)
}

/// COOKIE ECHO (RFC 9260, 5.1, C).
fn put_echo(cookie: &EchoedCookie, packing: &mut Packing) -> Result<bool, NoMemory>
    ensures { (e : EndView) (t : model.Tags) → e.phase ≡ Echoing t cookie.now.bytes.items → IsOf e packing.old
        → IfOk result (λ room. PutsAt (EchoSlot ∷ []) e packing.old packing.new room) }
{
    if !packing.marks.cookie_echo {
        return Ok(true);
    }
    let chunk = Chunk::CookieEcho {
        cookie: &cookie.bytes,
    };
    if !packing.writer.try_chunk(&chunk)? {
        return Ok(false);
    }
    packing.marks.cookie_echo = false;
    packing.marks.starts.add(Alarm::Cookie);
    Ok(true)
}

/// SACK (RFC 9260, 6.2).
fn put_sack(traffic: &Traffic, packing: &mut Packing) -> Result<bool, NoMemory>
    ensures { (e : EndView) → TrafficStands traffic.now (format_of e) e.sender e.receiver → IsOf e packing.old
        → IfOk result (λ room. PutsAt (SackSlot ∷ []) e packing.old packing.new room) }
{
    if !put_due_sack(traffic, packing.marks.sack, &mut packing.writer)? {
        return Ok(false);
    }
    packing.marks.sack = false;
    Ok(true)
}

/// Puts the SACK into a packet if it is due. False if it doesn't fit: it is due still.
///
/// # Errors
/// `NoMemory` if an allocation was refused.
#[inline(always)]
pub(crate) fn put_due_sack(
    traffic: &Traffic,
    sack: bool,
    writer: &mut PacketWriter,
) -> Result<bool, NoMemory>
    ensures { (e : EndView) (m : marks.Marks) → TrafficStands traffic.now (format_of e) e.sender e.receiver
        → IsOf e (record { writer = writer.old; marks = record m { sack = sack } })
        → IfOk result (λ room. PutsAt (SackSlot ∷ []) e (record { writer = writer.old; marks = record m { sack = sack } })
        (record { writer = writer.new; marks = record m { sack = still_due room sack } }) room) }
{
    if !sack {
        return Ok(true);
    }
    if !put_told(traffic, writer)? {
        return Ok(false);
    }
    Ok(true)
}

/// Puts what the SACK tells at this point into a packet. False if it doesn't fit.
///
/// # Errors
/// `NoMemory` if an allocation was refused.
#[inline(always)]
fn put_told(traffic: &Traffic, writer: &mut PacketWriter) -> Result<bool, NoMemory>
    ensures { (f : Format) (s : SenderView) (r : ReceiverView) → TrafficStands traffic.now f s r → IfOk result (λ put. PutsSack r writer.old writer.new put) }
{
    match traffic.plain_sack() {
        Some(plain) => writer.try_sack(plain.cumulative, plain.rwnd),
        None => put_lists(traffic, writer),
    }
}

/// The same by a SACK's lists.
///
/// # Errors
/// `NoMemory` if an allocation was refused.
#[inline(never)]
fn put_lists(traffic: &Traffic, writer: &mut PacketWriter) -> Result<bool, NoMemory>
    ensures { (f : Format) (s : SenderView) (r : ReceiverView) → TrafficStands traffic.now f s r → IfOk result (λ put. PutsSack r writer.old writer.new put) }
{
    let lists = traffic.sack()?;
    writer.try_chunk(&Chunk::Sack(lists.view()))
}

/// FORWARD-TSN or I-FORWARD-TSN, if it skips something, up to the TSN whose entries fit one packet (RFC 3758, 3.5; RFC 8260, 2.3.1).
fn put_forward(config: &Config, traffic: &Traffic, packing: &mut Packing) -> Result<bool, NoMemory>
    ensures { (e : EndView) → config.now ≡ e.configuration → TrafficStands traffic.now (format_of e) e.sender e.receiver → IsOf e packing.old
        → IfOk result (λ room. PutsAt (ForwardSlot ∷ []) e packing.old packing.new room) }
{
    if !packing.marks.forward {
        return Ok(true);
    }
    if !traffic.is_point_past() {
        return Ok(true);
    }
    if !traffic.put_forward(&mut packing.writer, config.limit())? {
        return Ok(false);
    }
    packing.marks.forward = false;
    packing.marks.starts.add(Alarm::Fragments);
    Ok(true)
}

/// SHUTDOWN (RFC 9260, 9.2).
fn put_shutdown(traffic: &Traffic, packing: &mut Packing) -> Result<bool, NoMemory>
    ensures { (e : EndView) → TrafficStands traffic.now (format_of e) e.sender e.receiver → IsOf e packing.old
        → IfOk result (λ room. PutsAt (ShutdownSlot ∷ []) e packing.old packing.new room) }
{
    if !packing.marks.shutdown {
        return Ok(true);
    }
    let cumulative = traffic.cumulative();
    if !packing.writer.try_chunk(&Chunk::Shutdown { cumulative })? {
        return Ok(false);
    }
    packing.marks.shutdown = false;
    packing.marks.starts.add(Alarm::Shutdown);
    Ok(true)
}

/// SHUTDOWN ACK (RFC 9260, 9.2).
fn put_shutdown_ack(packing: &mut Packing) -> Result<bool, NoMemory>
    ensures { (e : EndView) → IsOf e packing.old
        → IfOk result (λ room. PutsAt (ShutdownAckSlot ∷ []) e packing.old packing.new room) }
{
    if !packing.marks.shutdown_ack {
        return Ok(true);
    }
    if !packing.writer.try_chunk(&Chunk::ShutdownAck)? {
        return Ok(false);
    }
    packing.marks.shutdown_ack = false;
    packing.marks.starts.add(Alarm::ShutdownAck);
    Ok(true)
}
