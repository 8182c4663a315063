//! A listener reads the State Cookie of a COOKIE ECHO (RFC 9260, 5.1.5 and 5.2.4).

ghost use Rattle.std.specs.Prelude.{◌≡◌, Ok};
ghost use Rattle.sctp_model.specs.end.EndView.{EndView};
ghost use Rattle.sctp_model.specs.end.Opening.{cookie_read, has_tags, is_ours};
ghost use Rattle.sctp_model.specs.end.Sealing.{Sealing};
ghost use Rattle.sctp_cookie.specs.CookieBody.{body_of};
ghost use Rattle.sctp_cookie.specs.CookieTree.{body_meaning};
ghost use Rattle.sctp_cookie.specs.Opens.{open_answer};
ghost use Rattle.sctp_cookie.specs.Seals.{IsUnder, options_of};
ghost use Rattle.sctp_opening.specs.Cookies.{IsAt, IsLate, TellsStaleness, ports_in, reading_meaning};

use sctp_cookie::{
    CookieBody, CookieContent, CookieFault, CookieOptions, Key, Ports, cookies_are_read,
    cookies_are_sealed, open_content,
};
use sctp_terms::Config;

/// What the cookie of a COOKIE ECHO is to a listener.
#[derive(Clone, Copy, Debug, PartialEq, Eq)]
pub enum CookieReading {
    /// It is valid: made under this key, for these ports and this tag, and not older than its lifetime.
    Opens(CookieContent),
    /// It would be valid, but it is older than its lifetime, by this number of microseconds, or by more than 32 bits hold (RFC 9260, 3.3.10.3).
    Late {
        content: CookieContent,
        microseconds: u32,
    },
    /// It was made under another key, or for other ports or another tag, or it is no cookie at all.
    Strange,
}

impl CookieReading {
    /// Whether it is the cookie of the association with these tags, whatever its age: packets to this endpoint carry `own`, packets from it
    /// `peer` (RFC 9260, 5.2.4).
    pub fn is_of(&self, own: u32, peer: u32) -> bool
        ensures { result ≡ is_ours (record { own = own; peer = peer }) (reading_meaning self.now) }
    {
        match self {
            CookieReading::Opens(content) => is_between(&content.body, own, peer),
            CookieReading::Late { content, .. } => is_between(&content.body, own, peer),
            CookieReading::Strange => false,
        }
    }
}

/// Whether a cookie is for these tags: packets to its listener carry `own`, packets from it `peer`.
fn is_between(body: &CookieBody, own: u32, peer: u32) -> bool
    ensures { result ≡ has_tags (record { own = own; peer = peer }) (body_meaning body.now) }
{
    body.listener_tag == own && body.caller_tag == peer
}

/// Reads the cookie of a COOKIE ECHO that arrived under the verification tag `tag` at the time `now`, in milliseconds, at an endpoint with this key
/// and this configuration (RFC 9260, 5.1.5). It takes no memory.
pub fn read_cookie(key: &Key, config: &Config, now: u64, tag: u32, cookie: &[u8]) -> CookieReading
    ensures read { (s : Sealing) (e : EndView) → IsUnder key.now s → IsAt config.now now e
        → reading_meaning result ≡ cookie_read s e tag cookie.now }
    ensures late { TellsStaleness now result }
{
    cookies_are_read();
    cookies_are_sealed();
    let ports = ports_of(config);
    let taken = options_of(config);
    match open_content(key, cookie, now, ports, tag, taken) {
        Ok(content) => CookieReading::Opens(content),
        Err(CookieFault::Stale(microseconds)) => {
            late(key, cookie, ports, tag, taken, microseconds)
        }
        Err(CookieFault::Form) => CookieReading::Strange,
        Err(CookieFault::Mac) => CookieReading::Strange,
        Err(CookieFault::Ports) => CookieReading::Strange,
        Err(CookieFault::Tag) => CookieReading::Strange,
    }
}

/// A cookie older than its lifetime, with the body that it would have had.
fn late(
    key: &Key,
    cookie: &[u8],
    ports: Ports,
    tag: u32,
    taken: CookieOptions,
    microseconds: u32,
) -> CookieReading
    requires { open_answer taken key.now cookie.now 0 ports tag ≡ Ok (body_of cookie.now) }
    ensures { IsLate (body_of cookie.now) microseconds result }
{
    match open_content(key, cookie, 0, ports, tag, taken) {
        Ok(content) => CookieReading::Late {
            content,
            microseconds,
        },
        Err(_) => unreachable!(),
    }
}

/// The options that a listener is set up with, of those that its cookies may say.
fn options_of(config: &Config) -> CookieOptions
    ensures { result ≡ options_of config.now }
{
    // Its contract says that no endpoint is configured for zero checksums.
    let _limit = config.limit();
    CookieOptions {
        reset: config.reset(),
        zero_checksum: false,
    }
}

/// The ports of packets to a listener.
fn ports_of(config: &Config) -> Ports
    ensures { result ≡ ports_in config.now }
{
    Ports {
        listener: config.own_port(),
        caller: config.peer_port(),
    }
}
