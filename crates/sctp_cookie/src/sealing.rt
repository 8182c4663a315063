//! Cookies: a body and its MAC, made by [`seal`] and checked by [`open`].

ghost use Rattle.std.specs.Prelude.{◌≡◌, ◌+◌, ◌≤◌, ℕ, Bool, true, false, Result, Some, None, Ok, length, nat_lt, if◌then◌else◌};
ghost use Rattle.std.specs.Str.{bytes_eq};
ghost use Rattle.sctp_model.specs.numbers.Limits.{COOKIE_LIFE};
ghost use Rattle.sctp_model.specs.end.Sealing.{Body, IsInRange};
ghost use Rattle.sctp_model.specs.end.Opening.{age, staleness};
ghost use Rattle.sctp_cookie.specs.declared.body.CookieOptions.{CookieOptions};
ghost use Rattle.sctp_cookie.specs.declared.sealing.CookieFault.{CookieFault};
ghost use Rattle.sctp_cookie.specs.CookieBody.{body_of, no_options};
ghost use Rattle.sctp_cookie.specs.CookieTree.{body_meaning, content_meaning, content_opened, opened_meaning};
ghost use Rattle.sctp_cookie.specs.Opens.{Opened, has_mac, is_made, open_answer, ports_of, sealed};

use crate::body::{
    BODY_LENGTH, COOKIE_LENGTH, CookieBody, CookieContent, CookieOptions, Ports, body_bytes,
    read_body,
};
use crate::hmac::{Key, hmac_sha256};
use sctp_values::COOKIE_LIFE;
use thiserror::Error;

/// Why a cookie isn't valid: the first check that fails, in this order.
#[derive(Clone, Copy, Debug, PartialEq, Eq, Error)]
pub enum CookieFault {
    /// These aren't 72 bytes of the layout: the options say one that isn't in it, or that the listener
    /// isn't set up with, or a byte that must be zero isn't.
    #[error("these bytes don't have the layout of a cookie")]
    Form,
    /// The last 32 bytes aren't the MAC of the first 40 under the key.
    #[error("the cookie's MAC is wrong")]
    Mac,
    /// The packet's ports aren't those of the INIT.
    #[error("the cookie is for other ports")]
    Ports,
    /// The packet's verification tag isn't the listener's tag.
    #[error("the cookie is for another verification tag")]
    Tag,
    /// The cookie's lifetime ended this many microseconds ago, 2^32 - 1 if there are more: the
    /// measure of staleness of the Stale Cookie cause (RFC 9260, 3.3.10.3). The body of such a
    /// cookie is what [`open`] returns at time 0.
    #[error("the cookie expired {0} microseconds ago")]
    Stale(u32),
}

/// The cookie of `body` under `key`: the body's 40 bytes and their MAC (RFC 9260, 5.1.3).
pub fn seal(key: &Key, body: &CookieBody) -> [u8; COOKIE_LENGTH]
    ensures sealed { result ≡ sealed key.now (body_meaning body.now) }

    // It opens to this body until its lifetime ends, at every listener.
    ensures opens { (taken : CookieOptions) (now : ℕ) → now ≤ body.now.made + COOKIE_LIFE
        → open_answer taken key.now result now (ports_of (body_meaning body.now)) body.now.listener_tag ≡ Ok (body_meaning body.now) }

    // No other body has this sealing.
    ensures one { (other : Body) → IsInRange other → result ≡ sealed key.now other → other ≡ body_meaning body.now }
{
    let content = CookieContent {
        body: *body,
        reset: false,
        zero_checksum: false,
    };
    seal_content(key, &content)
}

/// The cookie of a listener with stream reset or zero checksums: the content's 40 bytes under `key` and
/// their MAC (RFC 9260, 5.1.3). For a content without them these are the bytes of [`seal`].
pub fn seal_content(key: &Key, content: &CookieContent) -> [u8; COOKIE_LENGTH]
    ensures sealed { result ≡ sealed key.now (content_meaning content.now) }

    // It opens to this content until its lifetime ends, at a listener with the options that the
    // content says.
    ensures opens { (taken : CookieOptions) (now : ℕ) → is_made taken (content_meaning content.now) ≡ true → now ≤ content.now.body.made + COOKIE_LIFE
        → open_answer taken key.now result now (ports_of (content_meaning content.now)) content.now.body.listener_tag ≡ Ok (content_meaning content.now) }

    // No other content has this sealing.
    ensures one { (other : Body) → IsInRange other → result ≡ sealed key.now other → other ≡ content_meaning content.now }
{
    let body = body_bytes(*content);
    let mut cookie = [0; COOKIE_LENGTH];
    cookie[..BODY_LENGTH].copy_from_slice(&body);
    cookie[BODY_LENGTH..].copy_from_slice(&hmac_sha256(key.as_bytes(), &body));
    cookie
}

/// The body of a cookie that was received in a COOKIE ECHO (RFC 9260, 5.1.5) at the time `now`, in
/// milliseconds of the clock by which it was made, in a packet between `ports` with the
/// verification tag `tag`. The packet's source is the caller's port and its destination the
/// listener's, which is set up without stream reset and zero checksums.
///
/// # Errors
///
/// The first of the checks of [`CookieFault`] that fails, in its order.
pub fn open(
    key: &Key,
    bytes: &[u8],
    now: u64,
    ports: Ports,
    tag: u32,
) -> Result<CookieBody, CookieFault>
    // The first check that fails, or the body.
    ensures answer { opened_meaning result ≡ open_answer no_options key.now bytes.now now ports tag }

    // It opens if the bytes are a body of the layout and its MAC, and the packet and the time
    // are right; each fault is returned if its check fails and those before it pass.
    ensures meaning { Opened no_options key.now bytes.now now ports tag (opened_meaning result) }

    // There is no other answer with that meaning.
    ensures only { (outcome : Result Body CookieFault) → Opened no_options key.now bytes.now now ports tag outcome
        → opened_meaning result ≡ outcome }

    // A stale cookie's body is what is returned at time 0.
    ensures stale { (microseconds : ℕ) → result ≡ Err (CookieFault.Stale microseconds)
        → open_answer no_options key.now bytes.now 0 ports tag ≡ Ok (body_of bytes.now) }
{
    let taken = CookieOptions {
        reset: false,
        zero_checksum: false,
    };
    let content = open_content(key, bytes, now, ports, tag, taken)?;
    Ok(content.body)
}

/// The content of a cookie, as [`open`] has it, at a listener that is set up with the options
/// `taken`.
///
/// # Errors
///
/// The first of the checks of [`CookieFault`] that fails, in its order.
pub fn open_content(
    key: &Key,
    bytes: &[u8],
    now: u64,
    ports: Ports,
    tag: u32,
    taken: CookieOptions,
) -> Result<CookieContent, CookieFault>
    // The first check that fails, or the content.
    ensures answer { content_opened result ≡ open_answer taken key.now bytes.now now ports tag }

    // It opens if the bytes are a body of the layout and its MAC, and the packet and the time
    // are right; each fault is returned if its check fails and those before it pass.
    ensures meaning { Opened taken key.now bytes.now now ports tag (content_opened result) }

    // There is no other answer with that meaning.
    ensures only { (outcome : Result Body CookieFault) → Opened taken key.now bytes.now now ports tag outcome
        → content_opened result ≡ outcome }

    // A stale cookie's content is what is returned at time 0.
    ensures stale { (microseconds : ℕ) → result ≡ Err (CookieFault.Stale microseconds)
        → open_answer taken key.now bytes.now 0 ports tag ≡ Ok (body_of bytes.now) }
{
    checked_content(key, bytes, now, ports, tag, taken)
}

// The checks of `open`, in their order.
#[tactic(auto, unfolding(crate::specs::CookieBody::has_form, crate::specs::Opens::has_ports, crate::specs::Opens::open_answer))]
fn checked_content(
    key: &Key,
    bytes: &[u8],
    now: u64,
    ports: Ports,
    tag: u32,
    taken: CookieOptions,
) -> Result<CookieContent, CookieFault>
    ensures { content_opened result ≡ open_answer taken key.now bytes.now now ports tag }
{
    let Some(content) = read_body(bytes, taken) else {
        return Err(CookieFault::Form);
    };
    let body = content.body;
    if !has_mac(key, bytes) {
        return Err(CookieFault::Mac);
    }
    if ports_of(&body) != ports {
        return Err(CookieFault::Ports);
    }
    if body.listener_tag != tag {
        return Err(CookieFault::Tag);
    }
    if let Some(microseconds) = staleness(now, &body) {
        return Err(CookieFault::Stale(microseconds));
    }
    Ok(content)
}

// Whether the last 32 bytes of a cookie are the MAC of the first 40.
#[tactic(auto, unfolding(crate::specs::Opens::has_mac))]
fn has_mac(key: &Key, bytes: &[u8]) -> bool
    requires { length bytes.now ≡ 72 }
    ensures { result ≡ has_mac key.now bytes.now }
{
    let (body, mac) = bytes.split_at(BODY_LENGTH);
    same_bytes(&hmac_sha256(key.as_bytes(), body), mac)
}

// Whether two lists of one length are equal. No step depends on where they differ, so that the
// time taken doesn't show an attacker how much of a MAC is right.
fn same_bytes(left: &[u8], right: &[u8]) -> bool
    requires { length left.now ≡ length right.now }
    ensures { result ≡ bytes_eq left.now right.now }
{
    let mut difference = 0;
    for (one, other) in left.iter().zip(right) {
        difference |= one ^ other;
    }
    difference == 0
}

// The ports that a body names.
fn ports_of(body: &CookieBody) -> Ports
    ensures { result ≡ ports_of (body_meaning body.now) }
{
    Ports {
        listener: body.listener_port,
        caller: body.caller_port,
    }
}

// For how many microseconds a body's lifetime has been over, if it is.
fn staleness(now: u64, body: &CookieBody) -> Option<u32>
    ensures { result ≡ (if nat_lt COOKIE_LIFE (age now (body_meaning body.now)) then Some (staleness now (body_meaning body.now)) else None) }
{
    let age = now.saturating_sub(body.made);
    if age <= COOKIE_LIFE {
        return None;
    }
    let microseconds = (age - COOKIE_LIFE).saturating_mul(1_000);
    Some(u32::try_from(microseconds).unwrap_or(u32::MAX))
}
