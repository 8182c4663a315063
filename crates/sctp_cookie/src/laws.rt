//! Laws: theorems about all keys, bodies and bytes, as the contracts of functions that do nothing.

ghost use Rattle.std.specs.Prelude.{◌≡◌, ℕ, List};
ghost use Rattle.sctp_model.specs.end.EndView.{EndView};
ghost use Rattle.sctp_model.specs.end.Sealing.{Body, Sealing, COOKIE_SIZE};
ghost use Rattle.sctp_cookie.specs.declared.body.TheConstants.{COOKIE_LENGTH};
ghost use Rattle.sctp_cookie.specs.Seals.{IsReadAsOpened, IsSealedWell, IsUnder, OpensTheSealed};

/// For any key and body, what `seal` makes has the size and the form of a cookie, the right MAC, and the body.
pub fn cookies_are_sealed()
    ensures { (key : List ℕ) (body : Body) → IsSealedWell key body }
{}

/// Every key has a seal in the sense of the state machine's listener; and under it those bytes open that are sealed with the key, no others
/// (RFC 9260, 5.1.3).
pub fn keys_have_seals()
    ensures some { (key : List ℕ) → (s : Sealing) × IsUnder key s }
    ensures exact { (key : List ℕ) (s : Sealing) → IsUnder key s → OpensTheSealed key s }
{}

/// The state machine's listener reads in a cookie what `open` answers under its key, at its time, between its ports and under the packet's tag
/// (RFC 9260, 5.1.5).
pub fn cookies_are_read()
    ensures { (key bytes : List ℕ) (tag : ℕ) (s : Sealing) (e : EndView) → IsUnder key s → IsReadAsOpened key bytes tag s e }
{}

/// A cookie has the size that the definitions say.
pub fn cookie_has_its_size()
    ensures { COOKIE_LENGTH ≡ COOKIE_SIZE }
{}
