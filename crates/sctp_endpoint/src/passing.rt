//! Which packets are for this endpoint: ports and verification tags (RFC 9260, 8.5 and 8.5.1).

ghost use Rattle.std.specs.Prelude.{◌≡◌, ◌&&◌, ◌==◌};
ghost use Rattle.sctp_model.specs.end.EndView.{EndView};
ghost use Rattle.sctp_model.specs.end.Passing.{passes_chunks};
ghost use Rattle.sctp_association.specs.MachineStands.{MachineStands};

use sctp_association::Machine;
use sctp_wire::Chunks;

/// Whether a packet is from the peer's port to this endpoint's (RFC 9260, 3.1).
pub(crate) fn has_ports(machine: &Machine, destination: u16, source: u16) -> bool
    ensures { (v : EndView) → MachineStands machine.now v
        → result ≡ ((destination == v.configuration.own_port) && (source == v.configuration.peer_port)) }
{
    let config = machine.config();
    destination == config.own_port() && source == config.peer_port()
}

/// Whether a packet of these chunks has the right verification tag, which depends on its first chunk: the sender of an INIT knows no tag yet, and an
/// ABORT or a SHUTDOWN COMPLETE with the T bit has the tag of the packet that it answers (RFC 9260, 8.5.1).
#[inline(always)]
pub(crate) fn passes(machine: &Machine, tag: u32, chunks: &Chunks<'_>) -> bool
    ensures { (v : EndView) → MachineStands machine.now v → result ≡ passes_chunks v.phase tag chunks.now }
{
    if chunks.starts_with_init() {
        return tag == 0;
    }
    machine.passes_tag(chunks.starts_reflected(), tag)
}
