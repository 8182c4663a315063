//! What is kept of the last request to reset streams, and which number it has while it waits for its response (RFC 6525, 5.1.2 and 5.2.7).

ghost use Rattle.std.specs.Prelude.{◌≡◌, ◌==◌, if◌then◌else◌, is_some, Some, None, MatchOption};
ghost use Rattle.sctp_model.specs.sender.Outgoing as model;
ghost use Rattle.sctp_send.specs.inner.Resetting.{takes_next_in};
ghost use Rattle.sctp_send.specs.ResetsKept.{numbering_meaning, pending_meaning, request_meaning};

/// Which sequence number a request has that waits for its response (RFC 6525, 5.2.7).
#[derive(Clone, Copy)]
pub(crate) enum Numbering {
    /// The one with which it was sent first.
    First,
    /// One under which it is in progress: retransmitted by its timer, it takes the next one.
    Next,
    /// One after a number under which it was in progress.
    Later,
}

/// A request: how many sequence numbers were used with its first sending, the last index assigned then, and its streams; and which number it has, while it
/// waits for its response.
#[derive(Drop)]
pub(crate) struct Request {
    pub(crate) first: u32,
    pub(crate) last: u64,
    pub(crate) streams: Vec<u16>,
    pub(crate) numbering: Option<Numbering>,
}

/// The last request that was made, if it waits for its response.
pub(crate) fn open_request(made: &Option<Request>) -> Option<&Request>
    ensures { MatchOption result (pending_meaning made.now ≡ None) (λ request. pending_meaning made.now ≡ Some (request_meaning request.now)) }
{
    match made {
        Some(request) => {
            if request.numbering.is_none() {
                return None;
            }
            Some(request)
        }
        None => None,
    }
}

/// Whether it does.
pub(crate) fn waits(made: &Option<Request>) -> bool
    ensures { result ≡ is_some (pending_meaning made.now) }
{
    match made {
        Some(request) => request.numbering.is_some(),
        None => false,
    }
}

/// Whether it does, and is to take the next sequence number.
pub(crate) fn takes_next(made: &Option<Request>) -> bool
    ensures { result ≡ takes_next_in (pending_meaning made.now) }
{
    match made {
        Some(request) => matches!(request.numbering, Some(Numbering::Next)),
        None => false,
    }
}

/// Which number of a request this one is, if it isn't in progress under it; `first` is that of its first sending.
pub(crate) fn numbering_from(first: u32, number: u32) -> Numbering
    ensures { numbering_meaning result ≡ (if number == first then model.FirstNumber else model.LaterNumber) }
{
    if number == first {
        Numbering::First
    } else {
        Numbering::Later
    }
}
