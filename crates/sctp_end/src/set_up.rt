//! Sets up the endpoint by the words with which the program is started.

ghost use Rattle.std.specs.Prelude.{◌≡◌, ℕ, List, [], ◌∷◌, map, string_bytes, IfSome, MatchOption};
ghost use Rattle.sctp_model.specs.end.EndView.{Configuration, EndView, Caller, Listener, Idle, Listening, fresh_end};
ghost use Rattle.sctp_model.specs.end.Sealing.{Sealing};
ghost use Rattle.sctp_cookie.specs.Seals.{IsUnder};
ghost use Rattle.sctp_endpoint.specs.EndpointStands.{EndpointStands};
ghost use Rattle.sctp_endpoint.specs.Counted.{counted, none_counted};
ghost use Rattle.sctp_end.specs.SetUpWords.{Settles, Configures, IsKey, SetsUp};
ghost use Rattle.sctp_end.specs.inner.SettingUp.{role_word, HasNoOptions, SetsListener};

use crate::options::{read_rto_min, split_options, split_rto_min, with_options};
use sctp_cookie::keys_have_seals;
use sctp_endpoint::{Config, Endpoint, Key};
use sctp_text::words_say_one_value;
use sctp_words::{read_mode, read_u16, read_u32};
use std::alloc::Global;

/// The number of words after the options: `PORT PEER`.
const PORTS: usize = 2;
/// The length of a key in bytes.
const KEY_LENGTH: usize = 32;
/// The number of hexadecimal digits of a key.
const KEY_DIGITS: usize = 64;

/// How the endpoint begins (RFC 9260, 5.1).
#[derive(Clone, Copy)]
enum Role {
    /// It calls its peer.
    Caller,
    /// It waits for a peer.
    Listener,
}

/// The endpoint that these words set up. The first word is the program's own name; then `caller` or `listener`, the configuration, and a
/// listener's key. None if the words are wrong. Nothing is allocated.
pub(crate) fn end_of(alloc: Global, words: &[String]) -> Option<Endpoint>
    ensures exact { MatchOption result
        ((v : EndView) → SetsUp (map string_bytes words.now) v → ⊥)
        (λ end. (v : EndView) × SetsUp (map string_bytes words.now) v × EndpointStands end v) }
    ensures counts { IfSome result (λ end. counted end ≡ none_counted) }
{
    let [_, role, rest @ ..] = words else {
        return None;
    };
    match role_named(role.as_bytes()) {
        Some(Role::Caller) => caller_of(alloc, rest),
        Some(Role::Listener) => listener_of(alloc, rest),
        None => None,
    }
}

/// The role that a word names.
fn role_named(word: &[u8]) -> Option<Role>
    ensures { MatchOption result ((r : Role) → word.now ≡ role_word r → ⊥) (λ r. word.now ≡ role_word r) }
{
    match word {
        b"caller" => Some(Role::Caller),
        b"listener" => Some(Role::Listener),
        _ => None,
    }
}

/// A caller with this configuration.
fn caller_of(alloc: Global, words: &[String]) -> Option<Endpoint>
    ensures exact { MatchOption result
        ((c : Configuration) → Configures (map string_bytes words.now) c → ⊥)
        (λ end. (c : Configuration) × Configures (map string_bytes words.now) c × EndpointStands end (fresh_end c Caller Idle)) }
    ensures counts { IfSome result (λ end. counted end ≡ none_counted) }
{
    let config = read_config(words)?;
    Some(Endpoint::caller(alloc, config))
}

/// A listener with this configuration and, as the last word, its key.
fn listener_of(alloc: Global, words: &[String]) -> Option<Endpoint>
    ensures exact { MatchOption result
        ((c : Configuration) (key : List ℕ) → SetsListener (map string_bytes words.now) c key → ⊥)
        (λ end. (c : Configuration) × (key : List ℕ) × (seal : Sealing) × SetsListener (map string_bytes words.now) c key × IsUnder key seal
        × EndpointStands end (fresh_end c (Listener seal) Listening)) }
    ensures counts { IfSome result (λ end. counted end ≡ none_counted) }
{
    // law: the key has a seal
    keys_have_seals();
    let [settings @ .., last] = words else {
        return None;
    };
    let Some(config) = read_config(settings) else {
        return None;
    };
    match read_key(last.as_bytes()) {
        Some(key) => Some(Endpoint::listener(alloc, config, key)),
        None => None,
    }
}

/// Reads a configuration: sizes, mode, options and ports.
fn read_config(words: &[String]) -> Option<Config>
    ensures { MatchOption result
        ((c : Configuration) → Configures (map string_bytes words.now) c → ⊥)
        (λ config. Configures (map string_bytes words.now) config) }
{
    let [limit, fragment, buffer, streams, mode, rest @ ..] = words else {
        return None;
    };
    let (options, rest) = split_options(rest);
    let (rto_min, rest) = split_rto_min(rest);
    if rest.len() > PORTS {
        return None;
    }
    let [own_port, peer_port, ..] = rest else {
        return None;
    };
    let Some(rto_min) = read_rto_min(rto_min) else {
        return None;
    };
    match config_of(
        limit.as_bytes(),
        fragment.as_bytes(),
        buffer.as_bytes(),
        streams.as_bytes(),
        mode.as_bytes(),
        own_port.as_bytes(),
        peer_port.as_bytes(),
    ) {
        Some(config) => Some(with_options(config, options, rto_min)),
        None => None,
    }
}

/// Reads a configuration without options from its seven words.
fn config_of(
    limit: &[u8],
    fragment: &[u8],
    buffer: &[u8],
    streams: &[u8],
    mode: &[u8],
    own_port: &[u8],
    peer_port: &[u8],
) -> Option<Config>
    ensures exact { let words = limit.now ∷ fragment.now ∷ buffer.now ∷ streams.now ∷ mode.now ∷ own_port.now ∷ peer_port.now ∷ [] in MatchOption result
        ((c : Configuration) → Settles words c → ⊥) (λ config. Settles words config) }
    // No option is set yet.
    ensures plain { IfSome result (λ config. HasNoOptions config) }
{
    // law: a word spells at most one number
    words_say_one_value();
    let limit = read_u16(limit)?;
    let fragment = read_u16(fragment)?;
    let buffer = read_u32(buffer)?;
    let streams = read_u16(streams)?;
    let mode = read_mode(mode)?;
    let own_port = read_u16(own_port)?;
    let peer_port = read_u16(peer_port)?;
    match Config::new(
        own_port, peer_port, limit, fragment, buffer, streams, streams,
    ) {
        Ok(config) => Some(mode.asked(config)),
        Err(_) => None,
    }
}

/// Reads a key in lower-case hexadecimal digits. Upper-case digits decode as well, so the key is encoded again and compared. Nothing is
/// allocated.
fn read_key(word: &[u8]) -> Option<Key>
    ensures { MatchOption result ((key : List ℕ) → IsKey word.now key → ⊥) (λ key. IsKey word.now key) }
{
    let mut key = [0; KEY_LENGTH];
    let Ok(()) = hex::decode_to_slice(word, &mut key) else {
        return None;
    };
    let mut digits = [0; KEY_DIGITS];
    let Ok(()) = hex::encode_to_slice(&key, &mut digits) else {
        return None;
    };
    if digits.as_slice() == word {
        Some(Key::new(key))
    } else {
        None
    }
}
