//! What the accepted messages may still take: TSNs, and memory for the entries of these, which is taken as a message is accepted.

ghost use Rattle.std.specs.Prelude.{◌≡◌, ◌+◌, ◌<◌, ◌≤◌, length, OnOk};
ghost use Rattle.sctp_model.specs.sender.SenderView.{SenderView};
ghost use Rattle.sctp_model.specs.sender.Queueing.{owed_by_queue, owed_by_parts, promised};
ghost use Rattle.sctp_send.specs.SenderStands.{StandsFor};

use crate::kept::dues::Dues;
use crate::kept::fates::Fates;
use crate::kept::outstanding::Outstanding;
use crate::sender::Sender;
use sctp_framing::Framing;
use sctp_values::NoMemory;

#[tactic(auto, unfolding(crate::specs::SenderStands::StandsFor))]
impl<F: Framing> Sender<F> {
    /// The TSNs assigned, and those that the accepted messages may still take.
    pub(crate) fn promised(&self) -> u64
        ensures { (v : SenderView) → StandsFor F.format self.now v → result ≡ promised v }
    {
        self.told
            .cum
            .wrapping_add(self.parts.outstanding.len() as u64)
            .wrapping_add(self.owed_by_accepted())
    }

    /// The TSNs that the accepted messages may still take: there is room for an entry of each.
    pub(crate) fn owed_by_accepted(&self) -> u64
        ensures { (v : SenderView) → StandsFor F.format self.now v → result ≡ owed_by_queue v.queue + owed_by_parts v }
    {
        self.parts
            .queue
            .owed()
            .wrapping_add(self.parts.streams.owed())
    }
}

/// Takes room for a ticket more, and for so many entries beside those that there are.
#[inline(always)]
pub(crate) fn reserve_message(
    fates: &mut Fates,
    dues: &mut Dues,
    outstanding: &mut Outstanding,
    entries: usize,
) -> Result<(), NoMemory>
    ensures items { fates.new.items ≡ fates.old.items }
    ensures ended { fates.new.ended ≡ fates.old.ended }
    ensures abandoned { fates.new.abandoned ≡ fates.old.abandoned }
    ensures passed { dues.new.passed ≡ dues.old.passed }
    ensures moments { dues.new.moments ≡ dues.old.moments }
    ensures asleep { dues.new.asleep ≡ dues.old.asleep }
    ensures room { OnOk result (length fates.new.items < fates.new.capacity) }
    ensures moment { OnOk result (length dues.new.moments < dues.new.capacity) }
    ensures size { outstanding.new.size ≡ outstanding.old.size }
    ensures header { outstanding.new.header ≡ outstanding.old.header }
    ensures entries { outstanding.new.items ≡ outstanding.old.items }
    ensures wider { outstanding.old.capacity ≤ outstanding.new.capacity }
    ensures fits { OnOk result (length outstanding.new.items + entries ≤ outstanding.new.capacity) }
{
    fates.reserve()?;
    dues.reserve()?;
    outstanding.reserve(entries)
}
