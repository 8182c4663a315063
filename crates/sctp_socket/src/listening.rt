//! A listener that is made for a packet, answers it and is dropped (RFC 9260, 5.1 and 8.4).

ghost use Rattle.std.specs.Prelude.{◌≡◌, true, IfOk, OnErr};
ghost use Rattle.sctp_model.specs.end.Arriving.{is_answer};
ghost use Rattle.sctp_model.specs.end.EndView.{Listening};
ghost use Rattle.sctp_model.specs.end.Passing.{has_ports, passes};
ghost use Rattle.sctp_model.specs.end.Sealing.{Sealing};
ghost use Rattle.sctp_model.specs.end.Strays.{body_among, chunks_verdict};
ghost use Rattle.sctp_packet.specs.PacketTree.{packet_meaning};
ghost use Rattle.sctp_cookie.specs.Seals.{IsUnder};
ghost use Rattle.sctp_opening.specs.Told.{IsTold, IsToldWithin};
ghost use Rattle.sctp_socket.specs.Routing.{listener_there};
ghost use Rattle.sctp_socket.specs.Places.{place_meaning};
ghost use Rattle.sctp_socket.specs.Unkept.{Leaves};

use crate::routing::Place;
use sctp_opening::{Outside, Stray};
use sctp_packet::Packet;
use sctp_terms::{Draw, Reason};
use sctp_values::NoMemory;
use sctp_wire::Chunks;
use std::alloc::Global;

impl Place {
    /// What a listener does with this packet that is made for it, with these random values: it answers or drops it, or says that its cookie is valid, and which content that has.
    /// In each case nothing is kept of the packet.
    ///
    /// # Errors
    /// `NoMemory` if an allocation failed, which can happen only if the packet is to be answered.
    pub fn hear(&self, alloc: Global, draw: Draw, packet: &Packet<'_>) -> Result<Stray, NoMemory>
        ensures step { (s : Sealing) → IsUnder self.now.key s
            → IfOk result (λ told. Leaves (listener_there (place_meaning s self.now)) draw (packet_meaning packet.now) told) }
        ensures within { IfOk result (λ told. IsToldWithin self.now.config.limit told) }
        ensures memory { (s : Sealing) → IsUnder self.now.key s
            → OnErr result (is_answer (chunks_verdict (listener_there (place_meaning s self.now)) draw packet.now.tag packet.now.chunks) ≡ true) }
    {
        if !self.has_ports(packet) {
            return Ok(Stray::Dropped(Reason::Ports));
        }
        if !passes(packet) {
            return Ok(Stray::Dropped(Reason::Tag));
        }
        self.listen(alloc, draw, packet.tag, &packet.chunks)
    }

    /// Whether the packet is from the port of the place's peer to the socket's.
    fn has_ports(&self, packet: &Packet<'_>) -> bool
        ensures { result ≡ has_ports self.now.config (packet_meaning packet.now) }
    {
        packet.destination == self.config.own_port() && packet.source == self.config.peer_port()
    }

    /// The same of the chunks of a packet with this verification tag, whose ports and tag are right.
    fn listen(
        &self,
        alloc: Global,
        draw: Draw,
        tag: u32,
        chunks: &Chunks<'_>,
    ) -> Result<Stray, NoMemory>
        ensures answer { (s : Sealing) → IsUnder self.now.key s → IfOk result (λ told. IsTold told (body_among (listener_there (place_meaning s self.now)) tag chunks.now)
            (chunks_verdict (listener_there (place_meaning s self.now)) draw tag chunks.now)) }
        ensures within { IfOk result (λ told. IsToldWithin self.now.config.limit told) }
        ensures memory { (s : Sealing) → IsUnder self.now.key s
            → OnErr result (is_answer (chunks_verdict (listener_there (place_meaning s self.now)) draw tag chunks.now) ≡ true) }
    {
        let listener = Outside {
            config: self.config,
            moment: self.moment,
            key: Some(self.key),
            draw,
        };
        listener.hear(alloc, tag, chunks)
    }
}

/// Whether a listener looks into the packet: one of an INIT must have no verification tag (RFC 9260, 8.5.1).
fn passes(packet: &Packet<'_>) -> bool
    ensures { result ≡ passes Listening (packet_meaning packet.now) }
{
    if packet.chunks.starts_with_init() {
        return packet.tag == 0;
    }
    true
}
