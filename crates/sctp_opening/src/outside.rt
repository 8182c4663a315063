//! A packet that arrives at an endpoint without an association: its first chunk decides, and no state is kept of it (RFC 9260, 5.1, 5.1.3 and 8.4).
//!
//! | first chunk | the endpoint listens | the endpoint is closed |
//! |---|---|---|
//! | any, with an ABORT among the chunks | dropped | dropped |
//! | INIT with initiate tag 0 | dropped | dropped |
//! | INIT | INIT ACK; ABORT if it has no stream | ABORT |
//! | COOKIE ECHO | an association begins; ERROR if the cookie is stale; else dropped | ABORT |
//! | SHUTDOWN ACK | SHUTDOWN COMPLETE | SHUTDOWN COMPLETE |
//! | SHUTDOWN COMPLETE, COOKIE ACK, INIT ACK, ERROR, an unknown type | dropped | dropped |
//! | any other | ABORT | ABORT |

ghost use Rattle.std.specs.Prelude.{◌≡◌, true, None, IfOk, OnErr};
ghost use Rattle.sctp_model.specs.wire.Chunk.{ShutdownAck};
ghost use Rattle.sctp_model.specs.end.Arriving.{is_answer};
ghost use Rattle.sctp_model.specs.end.EndView as meaning;
ghost use Rattle.sctp_model.specs.end.EndView.{EndView};
ghost use Rattle.sctp_model.specs.end.Strays.{body_among, body_in, chunks_verdict, first_verdict, holds_abort, listens, refused};
ghost use Rattle.sctp_wire.specs.ChunkTree.{chunk_meaning};
ghost use Rattle.sctp_opening.specs.Outside.{IsOutside};
ghost use Rattle.sctp_opening.specs.Told.{IsTold, IsToldWithin};

use crate::packets::{bare_abort, lone_packet};
use sctp_cookie::{CookieContent, Key};
use sctp_terms::{Config, Draw, Reason};
use sctp_wire::{Chunk, Chunks, NoMemory};
use std::alloc::Global;

/// An endpoint without an association: what its replies are made from.
#[derive(Clone, Copy)]
pub struct Outside {
    /// Its configuration.
    pub config: Config,
    /// The latest time that it knows, in milliseconds.
    pub moment: u64,
    /// The key of its cookies if it listens.
    pub key: Option<Key>,
    /// Fresh random values: its verification tag and its initial TSN in the association that an INIT asks for.
    pub draw: Draw,
}

/// What is done with a packet at an endpoint without an association.
#[derive(Drop)]
pub enum Stray {
    /// Its first chunk has a valid cookie: an association begins with this content, and the chunks after it are handled there.
    Begins(CookieContent),
    /// It is dropped.
    Dropped(Reason),
    /// It is answered by this packet, to be sent at once.
    Answered(Vec<u8>),
}

impl Outside {
    /// Handles a packet of these chunks with this verification tag. It changes nothing: no state is kept of the packet.
    ///
    /// # Errors
    /// `NoMemory` if an allocation failed, which can happen only if the packet is to be answered.
    pub fn hear(&self, alloc: Global, tag: u32, chunks: &Chunks<'_>) -> Result<Stray, NoMemory>
        ensures answer { (e : EndView) → IsOutside self.now e
            → IfOk result (λ told. IsTold told (body_among e tag chunks.now) (chunks_verdict e self.now.draw tag chunks.now)) }
        ensures within { IfOk result (λ told. IsToldWithin self.now.config.limit told) }
        ensures memory { (e : EndView) → IsOutside self.now e → OnErr result (is_answer (chunks_verdict e self.now.draw tag chunks.now) ≡ true) }
    {
        if holds_abort(chunks.again()) {
            return Ok(Stray::Dropped(Reason::State));
        }
        match chunks.again().next() {
            Some(chunk) => self.hear_first(alloc, tag, &chunk),
            None => Ok(Stray::Dropped(Reason::State)),
        }
    }

    /// Handles a packet without an ABORT by its first chunk.
    fn hear_first(&self, alloc: Global, tag: u32, chunk: &Chunk<'_>) -> Result<Stray, NoMemory>
        ensures answer { (e : EndView) → IsOutside self.now e
            → IfOk result (λ told. IsTold told (body_in (listens e) e tag (chunk_meaning chunk.now)) (first_verdict e self.now.draw tag (chunk_meaning chunk.now))) }
        ensures within { IfOk result (λ told. IsToldWithin self.now.config.limit told) }
        ensures memory { (e : EndView) → IsOutside self.now e → OnErr result (is_answer (first_verdict e self.now.draw tag (chunk_meaning chunk.now)) ≡ true) }
    {
        match chunk {
            Chunk::Init(offer) => self.hear_init(alloc, offer),
            Chunk::CookieEcho { cookie } => self.hear_cookie(alloc, tag, cookie),
            Chunk::ShutdownAck => self.complete(alloc, tag),
            Chunk::ShutdownComplete { .. } => Ok(Stray::Dropped(Reason::State)),
            Chunk::CookieAck => Ok(Stray::Dropped(Reason::State)),
            Chunk::InitAck(_) => Ok(Stray::Dropped(Reason::State)),
            Chunk::Error { .. } => Ok(Stray::Dropped(Reason::State)),
            Chunk::Unknown { .. } => Ok(Stray::Dropped(Reason::State)),
            Chunk::Abort { .. } => Ok(Stray::Dropped(Reason::State)),
            Chunk::Data(_) => self.refuse(alloc, tag),
            Chunk::IData(_) => self.refuse(alloc, tag),
            Chunk::Sack(_) => self.refuse(alloc, tag),
            Chunk::Heartbeat { .. } => self.refuse(alloc, tag),
            Chunk::HeartbeatAck { .. } => self.refuse(alloc, tag),
            Chunk::Shutdown { .. } => self.refuse(alloc, tag),
            Chunk::ForwardTsn(_) => self.refuse(alloc, tag),
            Chunk::IForwardTsn(_) => self.refuse(alloc, tag),
        }
    }

    /// An ABORT with the T bit and the packet's own verification tag (RFC 9260, 8.4, rule 8).
    pub(crate) fn refuse(&self, alloc: Global, tag: u32) -> Result<Stray, NoMemory>
        ensures answer { (e : EndView) → IsOutside self.now e → IfOk result (λ told. IsTold told None (refused e tag)) }
        ensures within { IfOk result (λ told. IsToldWithin self.now.config.limit told) }
    {
        Ok(Stray::Answered(bare_abort(alloc, &self.config, tag, true)?))
    }

    /// A SHUTDOWN COMPLETE with the T bit and the packet's own verification tag (RFC 9260, 8.4, rule 5).
    fn complete(&self, alloc: Global, tag: u32) -> Result<Stray, NoMemory>
        ensures answer { (e : EndView) (d : meaning.Draw) → IsOutside self.now e → IfOk result (λ told. IsTold told None (first_verdict e d tag ShutdownAck)) }
        ensures within { IfOk result (λ told. IsToldWithin self.now.config.limit told) }
    {
        // Its contract bounds the limit, so the chunk fits a packet.
        let _limit = self.config.limit();
        let chunk = Chunk::ShutdownComplete { reflected: true };
        Ok(Stray::Answered(lone_packet(alloc, &self.config, tag, &chunk)?))
    }
}

/// Whether one of the chunks is an ABORT: a packet with an ABORT is never answered (RFC 9260, 8.4, rule 2).
fn holds_abort(chunks: Chunks<'_>) -> bool
    ensures { result ≡ holds_abort chunks.entry }
{
    for chunk in chunks {
        if let Chunk::Abort { .. } = chunk {
            return true;
        }
    }
    false
}
