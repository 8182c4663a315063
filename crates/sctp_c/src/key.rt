//! Keys that C passes in, and keys derived from another (RFC 9260, 5.1.3; RFC 2104).

ghost use Rattle.std.specs.Prelude.{◌≡◌, [], ◌∷◌, true, false};
ghost use Rattle.sctp_cookie.specs.Hmac.{hmac};
ghost use Rattle.sctp_c.specs.Asked.{is_zeroed, is_zero_key};

use crate::codes::{BAD_RESERVED, OK, ZERO_KEY};
use crate::config::is_zeroed;
use crate::crossing::SctpKey;
use sctp_cookie::hmac_sha256;

/// The bytes of a key that nobody has set.
const ZEROS: [u8; 32] = [0; 32];

/// Whether the bytes of a key are all 0.
pub(crate) fn is_zero(key: &SctpKey) -> bool
    ensures { result ≡ is_zero_key key.now.bytes }
{
    key.bytes.as_slice() == ZEROS.as_slice()
}

/// Derives a key from a master key and bytes that name what it is for, as a peer's address: HMAC with SHA-256 of the bytes under the master key. Equal
/// bytes give equal keys.
#[unsafe(no_mangle)]
pub extern "C" fn sctp_endpoint_key_derived(
    master: &SctpKey,
    bytes: &[u8],
    key: &mut SctpKey,
) -> u32
    ensures unzeroed { is_zeroed master.now.reserved ≡ false → result ≡ BAD_RESERVED }
    ensures zero { is_zeroed master.now.reserved ≡ true → is_zero_key master.now.bytes ≡ true → result ≡ ZERO_KEY }
    ensures derived { is_zeroed master.now.reserved ≡ true → is_zero_key master.now.bytes ≡ false
        → (result ≡ OK) × (key.new.bytes ≡ hmac master.now.bytes bytes.now) × (key.new.reserved ≡ 0 ∷ 0 ∷ 0 ∷ 0 ∷ []) }
    ensures untold { ((result ≡ OK) → ⊥) → key.new ≡ key.old }
{
    if !is_zeroed(&master.reserved) {
        return BAD_RESERVED;
    }
    if is_zero(master) {
        return ZERO_KEY;
    }
    *key = SctpKey {
        bytes: hmac_sha256(&master.bytes, bytes),
        reserved: [0; 4],
    };
    OK
}
