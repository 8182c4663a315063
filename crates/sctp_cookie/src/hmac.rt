//! HMAC with SHA-256 (RFC 2104), and the listener's key.

ghost use Rattle.std.specs.Prelude.{◌≡◌, ◌≤◌, ◌-◌, ◌++◌, List, ℕ, bit_xor, map, length, replicate};
ghost use Rattle.sha2.specs.Sha256.{sha256};
ghost use Rattle.sctp_cookie.specs.Hmac.{block_key, hmac};

use sha2::{Digest, Sha256};
use std::fmt;
use std::marker::Model;

/// The bytes in one block of SHA-256 (RFC 2104, 2: B).
const BLOCK_LENGTH: usize = 64;

/// The byte that the key of the inner digest is xored with (RFC 2104, 2).
const INNER_PAD: u8 = 0x36;

/// The byte that the key of the outer digest is xored with (RFC 2104, 2).
const OUTER_PAD: u8 = 0x5c;

/// A listener's secret key, 32 bytes. A clause sees it as the list of its bytes.
#[derive(Clone, Copy)]
pub struct Key {
    bytes: [u8; 32],
}

impl Model for Key {
    ghost Value = { List ℕ };

    ghost view = { λ k. k.bytes };

    ghost inverse = { λ bytes. record { bytes = bytes } };
}

/// Prints no byte of the key.
impl fmt::Debug for Key {
    ghost use Rattle.std.specs.Prelude.{Some, codes};

    ghost debug_output = { λ _. Some (codes "Key(..)") };

    fn fmt<W: fmt::Write>(&self, f: &mut fmt::Formatter<W>) -> fmt::Result {
        write!(f, "Key(..)")
    }
}

impl Key {
    /// The key with these bytes, which must be generated at random and kept secret
    /// (RFC 2104, 3).
    pub fn new(bytes: [u8; 32]) -> Self
        ensures { result ≡ bytes }
    {
        Key { bytes }
    }

    // The bytes of the key.
    pub(crate) fn as_bytes(&self) -> &[u8]
        ensures { result.now ≡ self.now }
    {
        self.bytes.as_slice()
    }
}

/// The message authentication code of `text` under `key`: HMAC with SHA-256 (RFC 2104, 2). A key
/// may have any length; for one longer than a block its digest is used.
pub fn hmac_sha256(key: &[u8], text: &[u8]) -> [u8; 32]
    ensures { result ≡ hmac key.now text.now }
{
    let block = block_key(key);
    let inner = digest_of_two(&xored(&block, INNER_PAD), text);
    digest_of_two(&xored(&block, OUTER_PAD), &inner)
}

// The key as one block: a long key's digest, or the key itself, followed by zeros.
fn block_key(key: &[u8]) -> [u8; 64]
    ensures { result ≡ block_key key.now }
{
    if key.len() > BLOCK_LENGTH {
        zero_filled(&Sha256::digest(key))
    } else {
        zero_filled(key)
    }
}

// A block of these bytes followed by zeros.
fn zero_filled(bytes: &[u8]) -> [u8; 64]
    requires { length bytes.now ≤ 64 }
    ensures { result ≡ bytes.now ++ replicate (64 - length bytes.now) 0 }
{
    let mut block = [0; BLOCK_LENGTH];
    block[..bytes.len()].copy_from_slice(bytes);
    block
}

// Each byte of the block xored with the pad.
fn xored(block: &[u8; 64], pad: u8) -> [u8; 64]
    ensures { result ≡ map (λ byte. bit_xor byte pad) block.now }
{
    let mut bytes = *block;
    for byte in bytes.iter_mut() {
        *byte ^= pad;
    }
    bytes
}

// The digest of two byte strings, one after the other.
fn digest_of_two(first: &[u8], second: &[u8]) -> [u8; 32]
    ensures { result ≡ sha256 (first.now ++ second.now) }
{
    let mut hasher = Sha256::new();
    hasher.update(first);
    hasher.update(second);
    hasher.finalize()
}
