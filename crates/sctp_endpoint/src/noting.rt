//! What a chunk left is noted for the end of its packet, and user data and a SACK act (RFC 9260, 6.2, 6.2.1 and 6.10).

ghost use Rattle.std.specs.Prelude.{◌≡◌, ℕ, Ok};
ghost use Rattle.sctp_model.specs.wire.Chunk.{ChunkMeaning};
ghost use Rattle.sctp_model.specs.wire.Chunk as meaning;
ghost use Rattle.sctp_model.specs.messages.Framing.{data_chunk};
ghost use Rattle.sctp_model.specs.end.EndView.{EndView, format_for};
ghost use Rattle.sctp_model.specs.end.Acting.{Acts};
ghost use Rattle.sctp_wire.specs.ChunkTree.{piece_meaning, sack_meaning};
ghost use Rattle.sctp_association.specs.MachineStands.{MachineStands};
ghost use Rattle.sctp_endpoint.specs.Left.{Left};
ghost use Rattle.sctp_endpoint.specs.inner.Acted.{told_by, ActsOne};

use crate::after::{After, Notes, Verdict};
use crate::pieces::{asks_at_once, is_expected, on_piece};
use crate::sacks::{counts, on_sack};
use sctp_association::Machine;
use sctp_values::NoMemory;
use sctp_wire::{Piece, Sack};

/// Notes what a chunk left for the end of its packet; an endpoint with nothing outstanding then goes on with closing at once. True if the packet ends
/// with the chunk; `told` is then what is returned of it.
#[inline(always)]
pub(crate) fn note(
    machine: &mut Machine,
    notes: &mut Notes,
    told: &mut Verdict,
    after: After,
) -> bool
    ensures { (tag : ℕ) (v : EndView) (m : ChunkMeaning) → Left after v (Acts v tag m) machine.old
        → ActsOne tag v notes.old m (told_by (Ok result) told.new) machine.new notes.new }
{
    match after {
        After::GoesOn => {
            machine.advance_closing();
            notes.listed = true;
            false
        }
        After::Acknowledges { is_data, at_once } => {
            machine.advance_closing();
            notes.acknowledge(is_data, at_once);
            false
        }
        After::PassedOver => false,
        After::Ends => {
            *told = Verdict::Taken;
            true
        }
        After::Replies(packet) => {
            *told = Verdict::Answer(packet);
            true
        }
        After::Drops(reason) => {
            *told = Verdict::Dropped(reason);
            true
        }
    }
}

/// A DATA or an I-DATA chunk acts, and what it left is noted. True if the packet ends with it; `told` is then what is returned of it. Most are taken by the
/// receiver of an established association, and leave nothing to return.
///
/// # Errors
/// `NoMemory` if an allocation failed; nothing changed then.
#[inline(always)]
pub(crate) fn act_piece(
    machine: &mut Machine,
    interleaved: bool,
    notes: &mut Notes,
    told: &mut Verdict,
    piece: &Piece<'_>,
) -> Result<bool, NoMemory>
    ensures { (tag : ℕ) (v : EndView) → MachineStands machine.old v
        → ActsOne tag v notes.old (data_chunk (format_for interleaved) (piece_meaning piece.now)) (told_by result told.new) machine.new notes.new }
{
    if !is_expected(machine, interleaved, piece) {
        return act_unexpected(machine, interleaved, notes, told, piece);
    }
    let answer = machine.hear_piece(piece)?;
    notes.acknowledge(true, asks_at_once(piece.immediate, answer));
    Ok(false)
}

/// The same, whatever the state of the association and the chunk.
///
/// # Errors
/// `NoMemory` if an allocation failed; nothing changed then.
#[inline(never)]
fn act_unexpected(
    machine: &mut Machine,
    interleaved: bool,
    notes: &mut Notes,
    told: &mut Verdict,
    piece: &Piece<'_>,
) -> Result<bool, NoMemory>
    ensures { (tag : ℕ) (v : EndView) → MachineStands machine.old v
        → ActsOne tag v notes.old (data_chunk (format_for interleaved) (piece_meaning piece.now)) (told_by result told.new) machine.new notes.new }
{
    let after = on_piece(machine, interleaved, piece)?;
    Ok(note(machine, notes, told, after))
}

/// A SACK acts, and what it left is noted. True if the packet ends with it; `told` is then what is returned of it. Most count, and leave nothing to return.
///
/// # Errors
/// `NoMemory` if an allocation failed; nothing changed then.
#[inline(always)]
pub(crate) fn act_sack(
    machine: &mut Machine,
    notes: &mut Notes,
    told: &mut Verdict,
    sack: &Sack<'_>,
) -> Result<bool, NoMemory>
    ensures { (tag : ℕ) (v : EndView) → MachineStands machine.old v
        → ActsOne tag v notes.old (meaning.Sack (sack_meaning sack.now)) (told_by result told.new) machine.new notes.new }
{
    if !counts(machine, sack)? {
        return act_uncounted(machine, notes, told, sack);
    }
    machine.advance_closing();
    notes.listed = true;
    Ok(false)
}

/// The same, whatever the state of the association and the SACK.
///
/// # Errors
/// `NoMemory` if an allocation failed; nothing changed then.
#[inline(never)]
fn act_uncounted(
    machine: &mut Machine,
    notes: &mut Notes,
    told: &mut Verdict,
    sack: &Sack<'_>,
) -> Result<bool, NoMemory>
    ensures { (tag : ℕ) (v : EndView) → MachineStands machine.old v
        → ActsOne tag v notes.old (meaning.Sack (sack_meaning sack.now)) (told_by result told.new) machine.new notes.new }
{
    let after = on_sack(machine, sack)?;
    Ok(note(machine, notes, told, after))
}
