//! What a socket does with an INIT and with a COOKIE ECHO, by what it has with their peer (RFC 9260, 5.2.1 to 5.2.4).

ghost use Rattle.std.specs.Prelude.{◌≡◌, Option};
ghost use Rattle.sctp_cookie.specs.CookieTree.{content_meaning};
ghost use Rattle.sctp_socket.specs.Meeting.{is_barred, meets as meets_by, meets_from, reply as reply_by, reply_from};

use sctp_cookie::CookieContent;
use sctp_terms::Draw;

/// What a socket has with one peer.
#[derive(Clone, Copy)]
pub enum Standing {
    /// No association, or one that is over.
    Apart,
    /// It has called, and waits for an INIT ACK.
    Called {
        /// Its random values.
        own: Draw,
    },
    /// It has echoed a cookie, and waits for a COOKIE ACK.
    Echoed {
        /// Its initiate tag.
        own: u32,
        /// That of the INIT ACK.
        peer: u32,
    },
    /// The association is open.
    Joined {
        /// This side's tag.
        own: u32,
        /// The peer's.
        peer: u32,
    },
}

/// How an INIT is answered.
#[derive(Clone, Copy)]
pub enum Reply {
    /// Not at all.
    Silent,
    /// With the tag and the TSN of its own call (RFC 9260, 5.2.1).
    UnderOwn,
    /// With fresh random values (RFC 9260, 5.1 and 5.2.2).
    UnderFresh,
}

/// What a cookie does that opens.
#[derive(Clone, Copy)]
pub enum Meeting {
    /// Nothing.
    Ignored,
    /// It begins an association, in the place of the one that there is.
    Begins,
    /// The call is given up, and begun again with fresh random values.
    CallsAgain,
}

/// Whether a cookie made at this time begins nothing any more.
fn is_barred(bar: Option<u64>, made: u64) -> bool
    ensures { result ≡ is_barred bar made }
{
    match bar {
        None => false,
        Some(bar) => made <= bar,
    }
}

/// How an INIT with this initiate tag is answered at the time `now`.
pub fn reply_to(standing: Standing, bar: Option<u64>, now: u64, tag: u32) -> Reply
    ensures { result ≡ reply_by standing bar now tag }
{
    if is_barred(bar, now) {
        return Reply::Silent;
    }
    match standing {
        Standing::Apart => Reply::UnderFresh,
        Standing::Called { .. } => Reply::UnderOwn,
        Standing::Echoed { peer, .. } => {
            if tag == peer {
                Reply::Silent
            } else {
                Reply::UnderFresh
            }
        }
        Standing::Joined { .. } => Reply::UnderFresh,
    }
}

/// What a cookie does that opens; `served` says whether its listener's tag is that of another association of the socket, also of one that is over.
pub fn meets(standing: Standing, bar: Option<u64>, served: bool, cookie: &CookieContent) -> Meeting
    ensures { result ≡ meets_by standing bar served (content_meaning cookie.now) }
{
    if is_barred(bar, cookie.body.made) || served {
        return Meeting::Ignored;
    }
    meets_under(standing, cookie.body.listener_tag, cookie.body.caller_tag)
}

/// The same of a cookie that isn't barred, by its tags.
fn meets_under(standing: Standing, listener: u32, caller: u32) -> Meeting
    ensures { result ≡ meets_from standing listener caller }
{
    match standing {
        Standing::Apart => Meeting::Begins,
        Standing::Called { own } => {
            if listener == own.tag() {
                Meeting::Begins
            } else {
                Meeting::Ignored
            }
        }
        Standing::Echoed { own, peer } => {
            if caller == peer {
                if own < caller {
                    Meeting::Begins
                } else {
                    Meeting::Ignored
                }
            } else if listener == own {
                Meeting::CallsAgain
            } else {
                Meeting::Begins
            }
        }
        Standing::Joined { own, peer } => {
            if listener != own {
                Meeting::Begins
            } else if caller == peer {
                Meeting::Ignored
            } else {
                Meeting::CallsAgain
            }
        }
    }
}
