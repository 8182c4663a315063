//! Streams are free again once they are closed (RFC 8831, 6.7).

ghost use Rattle.std.specs.Prelude.{◌≡◌, ℕ, List};
ghost use Rattle.sctp_model.specs.end.EndView.{EndView};
ghost use Rattle.sctp_endpoint.specs.Counted.{counted};
ghost use Rattle.sctp_channels.specs.Streams.{Table};
ghost use Rattle.sctp_channels.specs.Settling.{is_gone};
ghost use Rattle.sctp_channels.specs.Events.{with_left_over, swept_at, swept, freed_by};
ghost use Rattle.sctp_channels.specs.inner.SaidMeans.{told_meaning};
ghost use Rattle.sctp_channels.specs.ChannelsStand.{ChannelsStand, endpoint_of};

use crate::channels::Channels;
use crate::coming::Told;
use crate::stream::{Due, State};

#[tactic(auto, unfolding(crate::specs::ChannelsStand::ChannelsStand, crate::specs::ChannelsStand::endpoint_of, crate::specs::ChannelsStand::table_of))]
impl Channels {
    /// Frees each stream that is closed without a channel that was reported. Without a busy stream there is none.
    #[inline(always)]
    pub(crate) fn sweep(&mut self)
        ensures step { (v : EndView) (x : Table) → ChannelsStand self.old v x → ChannelsStand self.new v (swept v x) }
        ensures counts { counted (endpoint_of self.new) ≡ counted (endpoint_of self.old) }
    {
        if self.table.busy.high == 0 {
            return;
        }
        self.sweep_busy();
    }

    /// `sweep`, with busy streams. A function of its own, so that packets cost little where no stream is busy.
    #[inline(never)]
    fn sweep_busy(&mut self)
        ensures step { (v : EndView) (x : Table) → ChannelsStand self.old v x → ChannelsStand self.new v (swept v x) }
        ensures counts { counted (endpoint_of self.new) ≡ counted (endpoint_of self.old) }
    {
        for stream in self.table.busy.low..self.table.busy.high {
            self.sweep_one(stream);
        }
    }

    /// Frees a stream if it is closed without a channel that was reported.
    #[inline(never)]
    fn sweep_one(&mut self, stream: u16)
        ensures step { (v : EndView) (x : Table) → ChannelsStand self.old v x → ChannelsStand self.new v (swept_at v x stream) }
        ensures counts { counted (endpoint_of self.new) ≡ counted (endpoint_of self.old) }
    {
        if self.is_gone(stream) {
            self.leave(stream);
        }
    }

    /// A message of the stream was taken, and this is reported of it. If it is ignored, and was the last before the peer's reset, the stream may be free by that.
    pub(crate) fn free_behind(&mut self, stream: u16, told: &Told)
        ensures step { (v : EndView) (x : Table) (bytes : List ℕ) → ChannelsStand self.old v x → ChannelsStand self.new v (freed_by (told_meaning bytes told.now) stream v x) }
        ensures counts { counted (endpoint_of self.new) ≡ counted (endpoint_of self.old) }
    {
        if let Told::Ignored(_) = told {
            self.sweep_one(stream);
        }
    }

    /// The stream is closed without a channel that was reported: both halves were reset (RFC 8831, 6.7).
    #[inline(never)]
    fn is_gone(&self, stream: u16) -> bool
        ensures { (v : EndView) (x : Table) → ChannelsStand self.now v x → result ≡ is_gone v x stream }
    {
        let kept = self.table.at(stream);
        matches!(kept.state, State::Silent)
            && kept.is_drained()
            && !matches!(kept.due, Due::Reset)
            && !self.endpoint.is_resetting(stream)
    }

    /// A stream is closed: it is free, or the peer has reset it again.
    #[inline(never)]
    pub(crate) fn leave(&mut self, stream: u16)
        ensures step { (v : EndView) (x : Table) → ChannelsStand self.old v x → ChannelsStand self.new v (with_left_over x stream) }
        ensures counts { counted (endpoint_of self.new) ≡ counted (endpoint_of self.old) }
    {
        self.is_calm = false;
        self.table.leave(stream);
    }
}
