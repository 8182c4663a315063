//! What a handle holds: channels, and the event that waits.

ghost use Rattle.std.specs.Prelude.{◌≡◌, IfOk, OnErr};
ghost use Rattle.sctp_model.specs.end.EndView.{EndView};
ghost use Rattle.sctp_channels.specs.Streams.{Table};
ghost use Rattle.sctp_channels.specs.ChannelsStand.{ChannelsStand};
ghost use Rattle.sctp_channels.specs.Telling.{Tells};
ghost use Rattle.sctp_c.specs.channels.Events.{rest_of};
ghost use Rattle.sctp_c.specs.channels.Holds.{next_of};

use sctp_channels::{Channels, Event};
use sctp_values::NoMemory;

/// Channels, and an event of theirs that C hasn't got: it didn't fit C's buffer.
#[derive(Drop)]
pub struct Held {
    pub(crate) channels: Channels,
    pub(crate) waiting: Option<Event>,
}

impl Held {
    /// Takes the event that waits, or else the channels' next one.
    ///
    /// # Errors
    /// `NoMemory` if an allocation failed: nothing changed.
    pub(crate) fn next(&mut self) -> Result<Option<Event>, NoMemory>
        ensures told { (v : EndView) (x : Table) → ChannelsStand self.old.channels v x → IfOk result (λ event. Tells (next_of self.old.waiting v x) event self.new.channels) }
        ensures refused { (v : EndView) (x : Table) → ChannelsStand self.old.channels v x → OnErr result (ChannelsStand self.new.channels v x) }
        ensures waits { self.new.waiting ≡ rest_of result self.old.waiting }
    {
        match &self.waiting {
            None => self.channels.next_event(),
            Some(_) => Ok(self.waiting.take()),
        }
    }
}
