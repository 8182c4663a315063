//! What both endpoints of an association have negotiated.

ghost use Rattle.std.specs.Prelude.{◌≡◌};
ghost use Rattle.sctp_model.specs.end.Opening.{terms_of_ack, terms_of_body, terms_alike};
ghost use Rattle.sctp_wire.specs.ChunkTree.{init_meaning};
ghost use Rattle.sctp_cookie.specs.CookieTree.{content_meaning};
ghost use Rattle.sctp_opening.specs.Terms.{terms_meaning};

use crate::options::{agreed_interleave, agreed_partial, agreed_reset};
use sctp_cookie::CookieContent;
use sctp_terms::{Config, Draw};
use sctp_wire::Init;

/// The initial TSNs, the number of streams each way, and the extensions in use (RFC 9260, 5.1.1; RFC 8260, 2.2.1; RFC 3758, 3.1;
/// RFC 6525, 5.1; RFC 9653, 5).
#[derive(Clone, Copy, Debug, PartialEq, Eq)]
pub struct Terms {
    /// This endpoint's initial TSN.
    pub own_tsn: u32,
    /// Its peer's initial TSN.
    pub peer_tsn: u32,
    /// The number of streams that this endpoint sends on: any number of 16 bits if a cookie says so.
    pub outbound: u16,
    /// The number of streams that it receives on.
    pub inbound: u16,
    /// User data is sent as I-DATA (RFC 8260).
    pub interleave: bool,
    /// Messages may be abandoned once sent (RFC 3758).
    pub partial: bool,
    /// Streams may be reset (RFC 6525).
    pub reset: bool,
    /// Packets may have the checksum 0 (RFC 9653).
    pub zero_checksum: bool,
}

impl Terms {
    /// The terms of a caller whose INIT had the random values `draw`, by the INIT ACK that answers it. Each way has the lesser of the number of
    /// streams its sender asks for and the number its receiver allows (RFC 9260, 5.1.1).
    pub fn of_init_ack(config: &Config, draw: Draw, offer: &Init<'_>) -> Terms
        ensures { terms_meaning result ≡ terms_of_ack config.now draw (init_meaning offer.now) }
    {
        // Its contract says that no endpoint is configured for zero checksums.
        let _limit = config.limit();
        Terms {
            own_tsn: draw.tsn(),
            peer_tsn: offer.tsn,
            outbound: config.outbound().min(offer.inbound),
            inbound: offer.outbound.min(config.inbound()),
            interleave: agreed_interleave(config, &offer.parameters),
            partial: agreed_partial(config, &offer.parameters),
            reset: agreed_reset(config, &offer.parameters),
            zero_checksum: false,
        }
    }

    /// The terms of a listener, as its cookie has them: any numbers, also no stream (RFC 9260, 5.1.3).
    pub fn of_cookie(content: &CookieContent) -> Terms
        ensures { terms_meaning result ≡ terms_of_body (content_meaning content.now) }
    {
        let body = &content.body;
        Terms {
            own_tsn: body.listener_tsn,
            peer_tsn: body.caller_tsn,
            outbound: body.streams_to_caller,
            inbound: body.streams_from_caller,
            interleave: body.interleaving,
            partial: body.partial_reliability,
            reset: content.reset,
            zero_checksum: content.zero_checksum,
        }
    }

    /// The terms of an endpoint that is established without packets: its own random values, its peer's, and a peer with the same configuration.
    pub fn alike(config: &Config, own: Draw, peer: Draw) -> Terms
        ensures { terms_meaning result ≡ terms_alike config.now own peer }
    {
        // Its contract says that no endpoint is configured for zero checksums.
        let _limit = config.limit();
        let streams = config.outbound().min(config.inbound());
        Terms {
            own_tsn: own.tsn(),
            peer_tsn: peer.tsn(),
            outbound: streams,
            inbound: streams,
            interleave: config.interleave(),
            partial: config.partial(),
            reset: config.reset(),
            zero_checksum: false,
        }
    }
}
