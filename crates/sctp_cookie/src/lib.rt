//! The state cookie of an SCTP listener (RFC 9260, 5.1.3).
//!
//! A listener answers an INIT and keeps no state: all that it must remember is sent in a cookie of
//! 72 bytes, a [`CookieBody`] and its MAC under the listener's [`Key`], and returned in the
//! caller's COOKIE ECHO. [`seal`] makes the cookie and [`open`] checks and reads it. The MAC is HMAC
//! with SHA-256 (RFC 2104). Nothing here allocates memory, and no fault says that allocation failed.
//!
//! ```rust
//! use sctp_cookie::{Key, Ports, open, seal};
//!
//! let key = Key::new([7; 32]);
//! let cookie = seal(&key, &body);
//! let ports = Ports { listener: body.listener_port, caller: body.caller_port };
//! let opened = open(&key, &cookie, body.made + 1_000, ports, body.listener_tag);
//! assert_eq!(rt; opened, Ok(body));
//! ```
//!
//! | call | clause | what is promised |
//! |---|---|---|
//! | [`hmac_sha256`] | the only one | HMAC of RFC 2104 over `sha2`'s function on lists, for a key and a text of any length |
//! | [`Key::new`] | the only one | the key with these bytes: clauses see a `Key` as the list of its bytes |
//! | [`seal`] | `sealed` | the body's 40 bytes, then their MAC |
//! | | `opens` | it opens, to this body, at any time up to 60,000 ms after it was made, between the body's ports and with its listener's tag, at every listener |
//! | | `one` | a body in range with this sealing under this key is this body |
//! | [`open`] | `answer` | the result is `open_answer` at a listener without stream reset and zero checksums: the first check that fails, or the body |
//! | | `meaning` | the result is the one that the layout gives (`Opened`): Ok if the bytes are the body's bytes and their MAC, the ports and the tag are the body's and the age is at most 60,000 ms; Form if no body without these options has this layout; Mac if one has, and the bytes aren't its cookie; Ports, Tag and Stale if they are its cookie and the checks before pass |
//! | | `only` | each answer that the layout gives is this result; so there is exactly one, and each fault is returned if and only if its condition holds |
//! | | `stale` | if the answer is Stale, the same call at time 0 returns the body in the bytes |
//! | [`seal_content`], [`open_content`] | the same clauses | the same for a [`CookieContent`], at a listener with the given [`CookieOptions`]; one without stream reset, or without zero checksums, opens no content that says so |
//! | [`cookies_are_sealed`] (law) | the only one | for any key and body: the cookie has 72 bytes, the form of a cookie and the right MAC, and contains the body if its numbers are in range |
//! | [`keys_have_seals`] (law) | `some` | every key has a seal in the sense of the state machine (`IsUnder`) |
//! | | `exact` | under each such seal those bytes open that are the key's cookie of a body in range, no others |
//! | [`cookies_are_read`] (law) | the only one | under every seal of a key a listener reads in bytes what `open_answer` says of them, with the options that it is set up with, at its time, between its ports and under the packet's tag |
//! | [`cookie_has_its_size`] (law) | the only one | the 72 bytes are those of the state machine |
//! | `Debug` of [`Key`] | `debug_output` | it prints `Key(..)`, whatever the key is |
//!
//! The layout has a bit for stream reset (RFC 6525) and one for zero checksums (RFC 9653), which a [`CookieContent`] says and no [`CookieBody`]:
//! [`open`] is for listeners without them, to which a cookie that says one of them has the wrong form.
//!
//! The definitions: `specs/Hmac`, `specs/CookieTree` (what a body and an answer mean in the state machine), `specs/CookieBody` (the layout
//! as a printer, `body_bytes`, beside the reader, `body_of`), `specs/Opens` (the answer, once computed and once in the words of the layout),
//! `specs/Seals` (the seals of a key). `proofs/BodyRoundTrip` ties the reader to the printer; `proofs/Opening` shows that the computed answer
//! and the answer in words are one.
//!
//! Not claimed: that an attacker can't make a MAC (the strength of SHA-256 and the secrecy of the key are premises), and anything about
//! time. The two MACs are compared without an early exit, so that the source takes the same steps wherever they differ; no clause says so,
//! and a compiler may change it. Nor do contracts cover the faults' messages.
#![tactic(auto)]

mod body;
mod hmac;
mod laws;
mod sealing;

pub use body::{COOKIE_LENGTH, CookieBody, CookieContent, CookieOptions, Ports};
pub use hmac::{Key, hmac_sha256};
pub use laws::{cookie_has_its_size, cookies_are_read, cookies_are_sealed, keys_have_seals};
pub use sealing::{CookieFault, open, open_content, seal, seal_content};
