//! What a DATA or an I-DATA chunk does (RFC 9260, 6.2; RFC 8260, 2.1).

ghost use Rattle.std.specs.Prelude.{◌≡◌, true, IfOk, OnErr};
ghost use Rattle.sctp_model.specs.numbers.Numbers.{u32_bytes};
ghost use Rattle.sctp_model.specs.end.EndView.{EndView, Established, format_for};
ghost use Rattle.sctp_model.specs.wire.Chunk.{PieceMeaning};
ghost use Rattle.sctp_model.specs.end.Acting.{PieceActs, asks_at_once};
ghost use Rattle.sctp_wire.specs.ChunkTree.{piece_meaning};
ghost use Rattle.sctp_recv.specs.AnswerOf.{answer_of};
ghost use Rattle.sctp_association.specs.StageMeans.{stage_meaning};
ghost use Rattle.sctp_association.specs.MachineStands.{MachineStands};
ghost use Rattle.sctp_endpoint.specs.Left.{Left};
ghost use Rattle.sctp_endpoint.specs.inner.Expected.{IsExpected};

use crate::after::After;
use sctp_association::{Machine, Stage};
use sctp_recv::Answer;
use sctp_values::NoMemory;
use sctp_wire::Piece;
use sctp_wire::codes::{NO_USER_DATA, PROTOCOL_VIOLATION};

/// The association is established.
#[inline(always)]
pub(crate) fn is_established(stage: Stage) -> bool
    ensures { result ≡ true → stage_meaning stage ≡ Established }
{
    matches!(stage, Stage::Established)
}

/// True only for a chunk with user data, of the format that is used, at an established association.
#[inline(always)]
pub(crate) fn is_expected(machine: &Machine, interleaved: bool, piece: &Piece<'_>) -> bool
    ensures { (v : EndView) → MachineStands machine.now v → result ≡ true → IsExpected (format_for interleaved) v (piece_meaning piece.now) }
{
    let Some(opened) = machine.opened() else {
        return false;
    };
    if !is_established(opened.stage) {
        return false;
    }
    if piece.bytes.is_empty() {
        return false;
    }
    machine.is_interleaved() == interleaved
}

/// A DATA or I-DATA chunk is received. One without user data, or of the format that isn't used, aborts the association.
///
/// # Errors
/// `NoMemory` if an allocation failed; nothing changed then.
#[inline(always)]
pub(crate) fn on_piece(
    machine: &mut Machine,
    interleaved: bool,
    piece: &Piece<'_>,
) -> Result<After, NoMemory>
    ensures step { (v : EndView) → MachineStands machine.old v → IfOk result (λ a. Left a v (PieceActs (format_for interleaved) v (piece_meaning piece.now)) machine.new) }
    ensures refused { (v : EndView) → MachineStands machine.old v → OnErr result (MachineStands machine.new v) }
{
    let Some(opened) = machine.opened() else {
        return Ok(After::PassedOver);
    };
    if !opened.stage.takes_data() {
        return Ok(After::PassedOver);
    }
    let peer = opened.tags.peer;
    if piece.bytes.is_empty() {
        let tsn = tsn_value(piece.tsn);
        return Ok(After::Replies(machine.abort_with(peer, NO_USER_DATA, &tsn)?));
    }
    if machine.is_interleaved() != interleaved {
        return Ok(After::Replies(machine.abort_with(peer, PROTOCOL_VIOLATION, &[])?));
    }
    let answer = machine.hear_piece(piece)?;
    Ok(After::Acknowledges {
        is_data: true,
        at_once: asks_at_once(piece.immediate, answer),
    })
}

/// A chunk is to be acknowledged at once if it wasn't kept, or has the I bit (RFC 9260, 6.2).
pub(crate) fn asks_at_once(immediate: bool, answer: Answer) -> bool
    ensures { (p : PieceMeaning) → p.immediate ≡ immediate → result ≡ asks_at_once p (answer_of answer) }
{
    match answer {
        Answer::Taken => immediate,
        _ => true,
    }
}

/// The value of the cause No User Data: the chunk's TSN (RFC 9260, 3.3.10.9).
#[tactic(auto, unfolding(sctp_model::specs::numbers::Numbers::u32_bytes))]
fn tsn_value(tsn: u32) -> [u8; 4]
    ensures { result ≡ u32_bytes tsn }
{
    tsn.to_be_bytes()
}
