//! The premises of the promise, in the words of a key.

ghost use Rattle.sctp_pair.specs.Unforged.{PremisesAreTheKeys, WhatIsReadHasByteCookies};

use sctp_cookie::keys_have_seals;

// law
/// If a listener seals its cookies with a key, the premises FRESH and UNFORGED are that no third party's packet carries a tag that an
/// endpoint generates in the run, has an INIT that proposes one, or has a COOKIE ECHO with a cookie that the key seals. A packet that was
/// read from bytes has cookies of bytes, of which this is said (RFC 9260, 5.1.3 and 5.3.1).
pub fn premises_are_the_keys()
    ensures premises { PremisesAreTheKeys }
    ensures bytes { WhatIsReadHasByteCookies }
{
    // law: a key opens what it has sealed, and nothing else
    keys_have_seals();
}
