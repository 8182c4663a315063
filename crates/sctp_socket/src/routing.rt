//! Who gets a packet: the endpoint of an association, a listener that is made for it, or nobody (RFC 9260, 5.2, 8.4 and 8.5).

ghost use Rattle.std.specs.Prelude.{◌≡◌};
ghost use Rattle.sctp_model.specs.end.Opening.{cookie_read};
ghost use Rattle.sctp_model.specs.end.Sealing.{Sealing};
ghost use Rattle.sctp_cookie.specs.Seals.{IsUnder};
ghost use Rattle.sctp_wire.specs.ChunkTree.{chunk_meaning};
ghost use Rattle.sctp_socket.specs.Routing.{are_found_by_peer, draw_of, is_found_by_peer, is_known, route_of, route_of_ack, route_of_echo, route_of_others, route_of_reply, routed, listener_there};
ghost use Rattle.sctp_socket.specs.Places.{place_meaning, route_meaning};
ghost use Rattle.sctp_opening.specs.Cookies.{reading_meaning};

use crate::meeting::{Reply, Standing, reply_to};
use sctp_cookie::Key;
use sctp_opening::{CookieReading, read_cookie};
use sctp_terms::{Config, Draw};
use sctp_wire::{Chunk, Chunks};

/// Who gets a packet.
#[derive(Clone, Copy)]
pub enum Route {
    /// It is dropped.
    Nobody,
    /// The endpoint of the association.
    ToEnd,
    /// A listener that is made for it, with these random values. Unless a cookie opens there nothing is kept of the packet.
    ToListener(Draw),
}

/// What a packet of one peer is routed by.
#[derive(Clone, Copy)]
pub struct Place {
    /// The configuration of a listener for this peer.
    pub config: Config,
    /// The key of the peer's cookies.
    pub key: Key,
    /// What the socket has with the peer.
    pub standing: Standing,
    /// The time up to which cookies of the peer begin nothing, in milliseconds.
    pub bar: Option<u64>,
    /// The current time in milliseconds.
    pub moment: u64,
    /// Fresh random values.
    pub draw: Draw,
}

/// Whether the association of a packet is found by the peer that sent it: one of an INIT, of a COOKIE ECHO, and of what shows the peer's verification tag (the T bit). That
/// of all others is found by its own verification tag.
pub fn is_found_by_peer(chunks: &Chunks<'_>) -> bool
    ensures { result ≡ are_found_by_peer chunks.now }
{
    match chunks.again().next() {
        None => false,
        Some(chunk) => first_by_peer(&chunk),
    }
}

/// The same by the first chunk.
fn first_by_peer(chunk: &Chunk<'_>) -> bool
    ensures { result ≡ is_found_by_peer (chunk_meaning chunk.now) }
{
    match chunk {
        Chunk::Init(_) => true,
        Chunk::CookieEcho { .. } => true,
        Chunk::Abort { reflected, .. } => *reflected,
        Chunk::ShutdownComplete { reflected } => *reflected,
        _ => false,
    }
}

impl Place {
    /// Who gets a packet of these chunks with this verification tag.
    pub fn route(&self, tag: u32, chunks: &Chunks<'_>) -> Route
        ensures { (s : Sealing) → IsUnder self.now.key s → route_meaning result ≡ routed (place_meaning s self.now) tag chunks.now }
    {
        match chunks.again().next() {
            None => Route::Nobody,
            Some(chunk) => self.route_first(tag, &chunk),
        }
    }

    /// The same by the first chunk.
    fn route_first(&self, tag: u32, chunk: &Chunk<'_>) -> Route
        ensures { (s : Sealing) → IsUnder self.now.key s → route_meaning result ≡ route_of (place_meaning s self.now) tag (chunk_meaning chunk.now) }
    {
        match chunk {
            Chunk::Init(offer) => self.route_init(reply_to(
                self.standing,
                self.bar,
                self.moment,
                offer.tag,
            )),
            Chunk::CookieEcho { cookie } => self.route_cookie(tag, cookie),
            Chunk::InitAck(_) => self.route_ack(),
            _ => self.route_other(),
        }
    }

    /// An INIT that is answered so.
    fn route_init(&self, reply: Reply) -> Route
        ensures { route_meaning result ≡ route_of_reply self.now.standing self.now.draw reply }
    {
        match reply {
            Reply::Silent => Route::Nobody,
            Reply::UnderOwn => Route::ToListener(self.own_draw()),
            Reply::UnderFresh => Route::ToListener(self.draw),
        }
    }

    /// The random values of a call, else fresh ones.
    fn own_draw(&self) -> Draw
        ensures { result ≡ draw_of self.now.draw self.now.standing }
    {
        match self.standing {
            Standing::Called { own } => own,
            _ => self.draw,
        }
    }

    /// A COOKIE ECHO with this cookie.
    fn route_cookie(&self, tag: u32, cookie: &[u8]) -> Route
        ensures { (s : Sealing) → IsUnder self.now.key s
            → route_meaning result ≡ route_of_echo self.now.standing self.now.draw (cookie_read s (listener_there (place_meaning s self.now)) tag cookie.now) }
    {
        let reading = read_cookie(&self.key, &self.config, self.moment, tag, cookie);
        self.route_echo(&reading)
    }

    /// The same, by what a listener reads in its cookie.
    fn route_echo(&self, cookie: &CookieReading) -> Route
        ensures { route_meaning result ≡ route_of_echo self.now.standing self.now.draw (reading_meaning cookie.now) }
    {
        if self.knows(cookie) {
            Route::ToEnd
        } else {
            Route::ToListener(self.draw)
        }
    }

    /// Whether the cookie is that of the association that is open.
    fn knows(&self, cookie: &CookieReading) -> bool
        ensures { result ≡ is_known self.now.standing (reading_meaning cookie.now) }
    {
        match self.standing {
            Standing::Joined { own, peer } => cookie.is_of(own, peer),
            _ => false,
        }
    }

    /// An INIT ACK.
    fn route_ack(&self) -> Route
        ensures { route_meaning result ≡ route_of_ack self.now.standing self.now.draw }
    {
        match self.standing {
            Standing::Apart => Route::ToListener(self.draw),
            Standing::Called { .. } => Route::ToEnd,
            Standing::Echoed { .. } => Route::Nobody,
            Standing::Joined { .. } => Route::Nobody,
        }
    }

    /// What needs an association.
    fn route_other(&self) -> Route
        ensures { route_meaning result ≡ route_of_others self.now.standing self.now.draw }
    {
        match self.standing {
            Standing::Apart => Route::ToListener(self.draw),
            _ => Route::ToEnd,
        }
    }
}
