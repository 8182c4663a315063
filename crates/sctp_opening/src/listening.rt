//! A listener: it answers an INIT without keeping state, and the cookie of a COOKIE ECHO begins an association (RFC 9260, 5.1, 5.1.3 and 5.1.5).

ghost use Rattle.std.specs.Prelude.{◌≡◌, ℕ, ◌+◌, ◌≤◌, true, length, Some, None, IfOk, OnErr};
ghost use Rattle.sctp_model.specs.wire.Chunk as meaning;
ghost use Rattle.sctp_model.specs.wire.Chunk.{CookieEcho, InitAck};
ghost use Rattle.sctp_model.specs.end.Arriving.{is_answer};
ghost use Rattle.sctp_model.specs.end.EndView.{EndView};
ghost use Rattle.sctp_model.specs.end.Opening.{body_for, init_ack, introduction};
ghost use Rattle.sctp_model.specs.end.Sealing.{Sealing};
ghost use Rattle.sctp_model.specs.end.Strays.{body_in, first_verdict, init_verdict, listens};
ghost use Rattle.sctp_wire.specs.ChunkTree.{init_meaning};
ghost use Rattle.sctp_cookie.specs.CookieTree.{content_meaning};
ghost use Rattle.sctp_cookie.specs.Seals.{IsUnder};
ghost use Rattle.sctp_opening.specs.Cookies.{IsAt};
ghost use Rattle.sctp_opening.specs.Room.{size_alone};
ghost use Rattle.sctp_opening.specs.Outside.{IsOutside};
ghost use Rattle.sctp_opening.specs.Told.{IsAnswer, IsTold, IsToldWithin};
ghost use Rattle.sctp_opening.specs.inner.Fitting.{IsList};

use crate::cookies::{CookieReading, read_cookie};
use crate::options::{
    agreed_interleave, agreed_partial, agreed_reset, has_no_stream, introduction, put_options,
};
use crate::outside::{Outside, Stray};
use crate::packets::{abort_packet, bare_abort, lone_packet, room_behind, stale_cookie_packet};
use crate::parameters::put_reports;
use sctp_cookie::{CookieBody, CookieContent, Key, seal_content};
use sctp_terms::Reason;
use sctp_wire::codes::{INVALID_PARAMETER, STATE_COOKIE};
use sctp_wire::{Chunk, Init, NoMemory, put_parameter};
use std::alloc::Global;

impl Outside {
    /// Handles a packet whose first chunk is an INIT.
    pub(crate) fn hear_init(&self, alloc: Global, offer: &Init<'_>) -> Result<Stray, NoMemory>
        ensures answer { (e : EndView) (tag : ℕ) → IsOutside self.now e
            → IfOk result (λ told. IsTold told None (first_verdict e self.now.draw tag (meaning.Init (init_meaning offer.now)))) }
        ensures within { IfOk result (λ told. IsToldWithin self.now.config.limit told) }
        ensures memory { (e : EndView) (tag : ℕ) → IsOutside self.now e
            → OnErr result (is_answer (first_verdict e self.now.draw tag (meaning.Init (init_meaning offer.now))) ≡ true) }
    {
        if offer.tag == 0 {
            return Ok(Stray::Dropped(Reason::Tag));
        }
        match &self.key {
            Some(key) => Ok(Stray::Answered(self.answer_init(alloc, key, offer)?)),
            None => Ok(Stray::Answered(bare_abort(alloc, &self.config, offer.tag, false)?)),
        }
    }

    /// Handles a packet with this verification tag whose first chunk is a COOKIE ECHO.
    pub(crate) fn hear_cookie(
        &self,
        alloc: Global,
        tag: u32,
        cookie: &[u8],
    ) -> Result<Stray, NoMemory>
        ensures answer { (e : EndView) → IsOutside self.now e
            → IfOk result (λ told. IsTold told (body_in (listens e) e tag (CookieEcho cookie.now)) (first_verdict e self.now.draw tag (CookieEcho cookie.now))) }
        ensures within { IfOk result (λ told. IsToldWithin self.now.config.limit told) }
        ensures memory { (e : EndView) → IsOutside self.now e
            → OnErr result (is_answer (first_verdict e self.now.draw tag (CookieEcho cookie.now)) ≡ true) }
    {
        let Some(key) = &self.key else {
            return self.refuse(alloc, tag);
        };
        match read_cookie(key, &self.config, self.moment, tag, cookie) {
            CookieReading::Opens(content) => Ok(Stray::Begins(content)),
            CookieReading::Late {
                content,
                microseconds,
            } => {
                let tag = content.body.caller_tag;
                let told = stale_cookie_packet(alloc, &self.config, tag, microseconds)?;
                Ok(Stray::Answered(told))
            }
            CookieReading::Strange => Ok(Stray::Dropped(Reason::Cookie)),
        }
    }

    /// A listener's reply to an INIT whose initiate tag isn't 0: an INIT ACK, or an ABORT if the INIT has no outbound or no inbound stream.
    fn answer_init(&self, alloc: Global, key: &Key, offer: &Init<'_>) -> Result<Vec<u8>, NoMemory>
        ensures answer { (s : Sealing) (e : EndView) → IsUnder key.now s → IsAt self.now.config self.now.moment e
            → IfOk result (λ packet. IsAnswer packet.items (init_verdict (Some s) e self.now.draw (init_meaning offer.now))) }
        ensures within { IfOk result (λ packet. length packet.items ≤ self.now.config.limit) }
    {
        // Its contract bounds the limit, so the cause fits a packet, and the parameters' length its field.
        let _limit = self.config.limit();
        if has_no_stream(offer) {
            return abort_packet(alloc, &self.config, offer.tag, INVALID_PARAMETER, &[]);
        }
        let list = self.ack_parameters(alloc, key, offer)?;
        let chunk = Chunk::InitAck(introduction(&self.config, self.draw, &list));
        lone_packet(alloc, &self.config, offer.tag, &chunk)
    }

    /// The parameters of an INIT ACK: the cookie, this endpoint's extensions, and as many Unrecognized Parameters as fit (RFC 9260, 3.2.2 and 3.3.3).
    fn ack_parameters(
        &self,
        alloc: Global,
        key: &Key,
        offer: &Init<'_>,
    ) -> Result<Vec<u8>, NoMemory>
        ensures exact { (s : Sealing) (e : EndView) → IsUnder key.now s → IsAt self.now.config self.now.moment e
            → IfOk result (λ list. InitAck (introduction self.now.config self.now.draw list.items) ≡ init_ack s e self.now.draw (init_meaning offer.now)) }
        ensures list { IfOk result (λ list. IsList list.items) }
        ensures room { IfOk result (λ list. size_alone (20 + length list.items) ≤ self.now.config.limit) }
    {
        // Its contract says that the endpoint isn't strict: it says all that it is configured for.
        let _limit = self.config.limit();
        let cookie = seal_content(key, &self.cookie_content(offer));
        let mut list = Vec::new(alloc);
        put_parameter(STATE_COOKIE, &cookie, &mut list)?;
        put_options(&self.config, &mut list)?;
        put_reports(
            alloc,
            &offer.parameters,
            room_behind(&self.config, 20),
            &mut list,
        )?;
        Ok(list)
    }

    /// The cookie's content: the state that a listener would have to keep of an INIT and of its INIT ACK (RFC 9260, 5.1.3).
    fn cookie_content(&self, offer: &Init<'_>) -> CookieContent
        ensures { (e : EndView) → IsAt self.now.config self.now.moment e → content_meaning result ≡ body_for e self.now.draw (init_meaning offer.now) }
    {
        // Its contract says that no endpoint is configured for zero checksums.
        let _limit = self.config.limit();
        let body = CookieBody {
            made: self.moment,
            listener_port: self.config.own_port(),
            caller_port: self.config.peer_port(),
            listener_tag: self.draw.tag(),
            caller_tag: offer.tag,
            listener_tsn: self.draw.tsn(),
            caller_tsn: offer.tsn,
            caller_rwnd: offer.rwnd,
            streams_to_caller: self.config.outbound().min(offer.inbound),
            streams_from_caller: offer.outbound.min(self.config.inbound()),
            partial_reliability: agreed_partial(&self.config, &offer.parameters),
            interleaving: agreed_interleave(&self.config, &offer.parameters),
        };
        CookieContent {
            body,
            reset: agreed_reset(&self.config, &offer.parameters),
            zero_checksum: false,
        }
    }
}
