//! What a chunk does, by its type, and the chunks of a packet in order (RFC 9260, 3.2 and 6.10).

ghost use Rattle.std.specs.Prelude.{◌≡◌, ℕ, ◌∷◌, List, Ok, OnOk, IfOk, OnErr};
ghost use Rattle.sctp_model.specs.wire.Chunk.{ChunkMeaning};
ghost use Rattle.sctp_model.specs.end.EndView.{EndView};
ghost use Rattle.sctp_model.specs.end.Acting.{Acts};
ghost use Rattle.sctp_wire.specs.ChunkTree.{chunk_meaning};
ghost use Rattle.sctp_association.specs.MachineStands.{MachineStands};
ghost use Rattle.sctp_endpoint.specs.Left.{Left};
ghost use Rattle.sctp_endpoint.specs.inner.Acted.{HasTag, told_by, with_verdict, ActsOne, ActsAll};
ghost use Rattle.sctp_endpoint.specs.declared.after.Verdict.TheVariants.{Taken};
ghost use Rattle.sctp_endpoint.specs.inner.SacksHeard.{after_chunk, after_chunks};

use crate::after::{After, Notes, Verdict};
use crate::closing::{on_abort, on_complete, on_error, on_shutdown_ack};
use crate::forwards::on_forward;
use crate::noting::{act_piece, act_sack, note};
use crate::opening::{on_cookie_ack, on_cookie_echo, on_init_ack};
use crate::pieces::on_piece;
use crate::sacks::on_sack;
use crate::shutdowns::on_shutdown;
use crate::small::{on_heartbeat, on_heartbeat_ack, on_unknown};
use sctp_association::Machine;
use sctp_terms::Reason;
use sctp_values::NoMemory;
use sctp_wire::{Chunk, Chunks};

/// What one chunk does, by its type. `tag` is the verification tag of its packet.
///
/// # Errors
/// `NoMemory` if an allocation failed; nothing changed then.
#[inline(always)]
fn act(machine: &mut Machine, tag: u32, chunk: &Chunk<'_>) -> Result<After, NoMemory>
    ensures step { (v : EndView) → MachineStands machine.old v → IfOk result (λ a. Left a v (Acts v tag (chunk_meaning chunk.now)) machine.new) }
    ensures refused { (v : EndView) → MachineStands machine.old v → OnErr result (MachineStands machine.new v) }
    ensures tagged { OnErr result (HasTag (chunk_meaning chunk.now)) }
{
    match chunk {
        Chunk::Data(piece) => on_piece(machine, false, piece),
        Chunk::IData(piece) => on_piece(machine, true, piece),
        Chunk::Init(_) => Ok(After::PassedOver),
        Chunk::InitAck(ack) => on_init_ack(machine, ack),
        Chunk::Sack(sack) => on_sack(machine, sack),
        Chunk::Heartbeat { info } => on_heartbeat(machine, info),
        Chunk::HeartbeatAck { info } => Ok(on_heartbeat_ack(machine, info)),
        Chunk::Abort { .. } => Ok(on_abort(machine)),
        Chunk::Shutdown { cumulative } => on_shutdown(machine, *cumulative),
        Chunk::ShutdownAck => on_shutdown_ack(machine),
        Chunk::Error { causes } => Ok(on_error(machine, causes)),
        Chunk::CookieEcho { cookie } => Ok(on_cookie_echo(machine, tag, cookie)),
        Chunk::CookieAck => Ok(on_cookie_ack(machine)),
        Chunk::ShutdownComplete { .. } => Ok(on_complete(machine)),
        Chunk::ForwardTsn(forward) => on_forward(machine, false, forward),
        Chunk::IForwardTsn(forward) => on_forward(machine, true, forward),
        Chunk::Unknown { kind, flags, value } => on_unknown(machine, *kind, *flags, value),
    }
}

/// Counts a chunk if it is a SACK, modulo 2^64.
#[inline(always)]
fn count_sack(chunk: &Chunk<'_>, sacks: &mut u64)
    ensures { sacks.new ≡ after_chunk (chunk_meaning chunk.now) sacks.old }
{
    match chunk {
        Chunk::Sack(_) => *sacks = sacks.wrapping_add(1),
        _ => {}
    }
}

/// Counts the SACKs among chunks, modulo 2^64.
#[inline(never)]
fn count_sacks(chunks: Chunks<'_>, sacks: &mut u64)
    ensures { sacks.new ≡ after_chunks chunks.entry sacks.old }
{
    for chunk in chunks {
        count_sack(&chunk, sacks);
    }
}

/// A chunk acts, and what it left is noted. True if the packet ends with it; `told` is then what is returned of it.
///
/// # Errors
/// `NoMemory` if an allocation failed; nothing changed then.
#[inline(never)]
fn act_noted(
    machine: &mut Machine,
    tag: u32,
    notes: &mut Notes,
    told: &mut Verdict,
    chunk: &Chunk<'_>,
) -> Result<bool, NoMemory>
    ensures { (v : EndView) → MachineStands machine.old v → ActsOne tag v notes.old (chunk_meaning chunk.now) (told_by result told.new) machine.new notes.new }
{
    let after = act(machine, tag, chunk)?;
    Ok(note(machine, notes, told, after))
}

/// The first chunk, whatever its type, is taken off and acts, and what it left is noted; a SACK is counted. True if the packet ends with it.
///
/// # Errors
/// `NoMemory` if an allocation failed; nothing changed but that the chunk is taken off, and counted.
#[inline(never)]
fn act_any(
    machine: &mut Machine,
    tag: u32,
    notes: &mut Notes,
    told: &mut Verdict,
    chunks: &mut Chunks<'_>,
    sacks: &mut u64,
) -> Result<bool, NoMemory>
    ensures taken { (m : ChunkMeaning) (ms : List ChunkMeaning) → chunks.old ≡ m ∷ ms → chunks.new ≡ ms }
    ensures step { (v : EndView) (m : ChunkMeaning) (ms : List ChunkMeaning) → chunks.old ≡ m ∷ ms
        → MachineStands machine.old v → ActsOne tag v notes.old m (told_by result told.new) machine.new notes.new }
    ensures sacks { (m : ChunkMeaning) (ms : List ChunkMeaning) → chunks.old ≡ m ∷ ms → sacks.new ≡ after_chunk m sacks.old }
{
    match &chunks.next() {
        Some(chunk) => {
            count_sack(chunk, sacks);
            act_noted(machine, tag, notes, told, chunk)
        }
        None => Ok(false),
    }
}

/// The first chunk is taken off and acts, and what it left is noted; a SACK is counted. True if the packet ends with it. Most are DATA, SACK
/// or I-DATA, which are read from the bytes directly, without a `Chunk` between.
///
/// # Errors
/// `NoMemory` if an allocation failed; nothing changed but that the chunk is taken off, and counted.
#[inline(always)]
fn act_next(
    machine: &mut Machine,
    tag: u32,
    notes: &mut Notes,
    told: &mut Verdict,
    chunks: &mut Chunks<'_>,
    sacks: &mut u64,
) -> Result<bool, NoMemory>
    ensures taken { (m : ChunkMeaning) (ms : List ChunkMeaning) → chunks.old ≡ m ∷ ms → chunks.new ≡ ms }
    ensures step { (v : EndView) (m : ChunkMeaning) (ms : List ChunkMeaning) → chunks.old ≡ m ∷ ms
        → MachineStands machine.old v → ActsOne tag v notes.old m (told_by result told.new) machine.new notes.new }
    ensures sacks { (m : ChunkMeaning) (ms : List ChunkMeaning) → chunks.old ≡ m ∷ ms → sacks.new ≡ after_chunk m sacks.old }
{
    if let Some(piece) = chunks.next_data() {
        return act_piece(machine, false, notes, told, &piece);
    }
    if let Some(sack) = chunks.next_sack() {
        *sacks = sacks.wrapping_add(1);
        return act_sack(machine, notes, told, &sack);
    }
    if let Some(piece) = chunks.next_i_data() {
        return act_piece(machine, true, notes, told, &piece);
    }
    act_any(machine, tag, notes, told, chunks, sacks)
}

/// The chunks of a packet act in order, each on what the one before it left, and are noted. Its SACKs are counted modulo 2^64, also those after a
/// chunk that ends the packet. The verdict, `Taken` so far, is written only if it is another one.
///
/// # Errors
/// `NoMemory` if an allocation failed: the chunks before the failing one have acted.
#[inline(always)]
pub(crate) fn act_all(
    machine: &mut Machine,
    tag: u32,
    notes: &mut Notes,
    chunks: Chunks<'_>,
    sacks: &mut u64,
    told: &mut Verdict,
) -> Result<(), NoMemory>
    requires { told.old ≡ Taken }
    ensures step { (v : EndView) → MachineStands machine.old v → ActsAll tag v notes.old chunks.entry (with_verdict result told.new) machine.new notes.new }
    ensures sacks { OnOk result (sacks.new ≡ after_chunks chunks.entry sacks.old) }
{
    let mut rest = chunks;
    let mut said = Verdict::Taken;
    while !rest.is_empty() {
        if act_next(machine, tag, notes, &mut said, &mut rest, sacks)? {
            count_sacks(rest, sacks);
            *told = said;
            return Ok(());
        }
    }
    if notes.listed {
        return Ok(());
    }
    *told = Verdict::Dropped(Reason::State);
    Ok(())
}
