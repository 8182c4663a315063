//! The sequence numbers of the peer's requests (RFC 6525, 5.2.1).

ghost use Rattle.std.specs.Prelude.{◌≡◌, ℕ, Some};
ghost use Rattle.sctp_model.specs.messages.Format.{Format};
ghost use Rattle.sctp_model.specs.receiver.ReceiverView.{ReceiverView};
ghost use Rattle.sctp_model.specs.receiver.ResetTaken.{is_next, is_in_turn, last_finished, answer_in_turn};
ghost use Rattle.sctp_reconfig.specs.Meanings.{result_meaning};
ghost use Rattle.sctp_recv.specs.Resets.{resets_of, KeepsResets};
ghost use Rattle.sctp_recv.specs.inner.Restarting.{noted};

use crate::resets::Resets;
use sctp_reconfig::ResetResult;

impl Resets {
    /// Whether a request with this number is the next one.
    pub(crate) fn is_next(&self, number: u32) -> bool
        ensures { (f : Format) (v : ReceiverView) → KeepsResets f (Some (resets_of self.now)) v.initial v.streams v.taken v.resets → result ≡ is_next v number }
    {
        number == self.last.wrapping_add(1)
    }

    /// Whether a request with this number is in its turn: it is the next one, or the last one again, if that was in progress.
    pub(crate) fn is_in_turn(&self, number: u32) -> bool
        ensures { (f : Format) (v : ReceiverView) → KeepsResets f (Some (resets_of self.now)) v.initial v.streams v.taken v.resets → result ≡ is_in_turn v number }
    {
        self.is_next(number)
            || (number == self.last && matches!(self.result, ResetResult::InProgress))
    }

    /// The number of the last request that is finished: one in progress is expected again, under its number.
    pub(crate) fn last_finished(&self) -> u32
        ensures { (f : Format) (v : ReceiverView) → KeepsResets f (Some (resets_of self.now)) v.initial v.streams v.taken v.resets → result ≡ last_finished v }
    {
        match self.result {
            ResetResult::InProgress => self.last.wrapping_sub(1),
            _ => self.last,
        }
    }

    /// Notes a request with this number and this answer, if it is in its turn. It returns the answer that it gets.
    pub(crate) fn note(&mut self, number: u32, answer: ResetResult) -> ResetResult
        ensures answer { (f : Format) (v : ReceiverView) → KeepsResets f (Some (resets_of self.old)) v.initial v.streams v.taken v.resets
            → result_meaning result ≡ answer_in_turn v number (result_meaning answer) }
        ensures noted { (f : Format) (v : ReceiverView) → KeepsResets f (Some (resets_of self.old)) v.initial v.streams v.taken v.resets
            → KeepsResets f (Some (resets_of self.new)) v.initial v.streams v.taken (noted v number (result_meaning answer)).resets }
        ensures answers { self.new.answers ≡ self.old.answers }
        ensures named { self.new.named ≡ self.old.named }
    {
        if self.is_in_turn(number) {
            self.last = number;
            self.result = answer;
            return answer;
        }
        if number == self.last {
            return self.result;
        }
        ResetResult::BadNumber
    }
}
