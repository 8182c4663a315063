//! A packet at an endpoint without an association: a valid cookie begins one; of everything else no state is kept (RFC 9260, 5.1 and 8.4).

ghost use Rattle.std.specs.Prelude.{IfOk, OnErr};
ghost use Rattle.sctp_model.specs.end.EndView.{EndView};
ghost use Rattle.sctp_association.specs.MachineStands.{MachineStands};
ghost use Rattle.sctp_endpoint.specs.Straying.{StrayLeft, StrayWants, IsUntaken};

use crate::after::{Strayed, Verdict};
use sctp_association::Machine;
use sctp_opening::Stray;
use sctp_terms::Draw;
use sctp_values::NoMemory;
use sctp_wire::Chunks;

/// Handles a packet of these chunks, with this verification tag, at an endpoint without an association. An INIT is answered with the random values `draw`.
///
/// # Errors
/// `NoMemory` if an allocation failed; nothing changed then. Only an answer needs memory, and an association that begins.
pub(crate) fn on_stray(
    machine: &mut Machine,
    draw: Draw,
    tag: u32,
    chunks: &Chunks<'_>,
) -> Result<Strayed, NoMemory>
    ensures step { (v : EndView) → MachineStands machine.old v → IfOk result (λ s. StrayLeft s v draw tag chunks.now machine.new) }
    ensures refused { (v : EndView) → MachineStands machine.old v → OnErr result (MachineStands machine.new v) }
    ensures memory { (v : EndView) → MachineStands machine.old v → OnErr result (StrayWants v draw tag chunks.now) }
    ensures untaken { IfOk result IsUntaken }
{
    match machine.hear_outside(draw, tag, chunks)? {
        Stray::Begins(content) => {
            machine.begin(&content)?;
            Ok(Strayed::Begun)
        }
        Stray::Dropped(reason) => Ok(Strayed::Told(Verdict::Dropped(reason))),
        Stray::Answered(packet) => Ok(Strayed::Told(Verdict::Answer(packet))),
    }
}
