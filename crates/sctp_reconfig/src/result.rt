//! The result of a request, in a Re-configuration Response (RFC 6525, 4.4).

ghost use Rattle.std.specs.Prelude.{◌≡◌};
ghost use Rattle.sctp_model.specs.wire.Reconfig.{result_code, is_done_code, is_progress_code};
ghost use Rattle.sctp_reconfig.specs.Meanings.{result_meaning};

/// How a request of the peer ended, as it is answered (RFC 6525, 4.4).
#[derive(Clone, Copy, Debug, PartialEq, Eq)]
pub enum ResetResult {
    /// Success: it was performed.
    Performed,
    /// It is denied.
    Denied,
    /// Error: one of its streams doesn't exist.
    WrongStream,
    /// Error: its sequence number isn't the next one.
    BadNumber,
    /// In progress: not all up to its last assigned TSN has arrived, and it is to be retried.
    InProgress,
}

impl ResetResult {
    /// Its code in a response (RFC 6525, 4.4): 1, 2, 3, 5 or 6.
    pub fn code(self) -> u32
        ensures { result ≡ result_code (result_meaning self) }
    {
        match self {
            ResetResult::Performed => 1,
            ResetResult::Denied => 2,
            ResetResult::WrongStream => 3,
            ResetResult::BadNumber => 5,
            ResetResult::InProgress => 6,
        }
    }
}

/// Whether a response's result is a success: nothing to do, or performed (0 or 1; RFC 6525, 4.4).
pub fn is_done(code: u32) -> bool
    ensures { result ≡ is_done_code code }
{
    matches!(code, 0 | 1)
}

/// Whether a response's result is that a request is in progress, and this one is to be retried (4: another one is in progress; 6: this one is; RFC 6525, 4.4
/// and 5.2.7).
pub fn is_in_progress(code: u32) -> bool
    ensures { result ≡ is_progress_code code }
{
    matches!(code, 4 | 6)
}
