//! The space of the retransmissions that a packet takes (RFC 9260, 7.2.4, step 3).

ghost use Rattle.std.specs.Prelude.{◌≡◌, ◌≤◌, ◌<◌, ◌++◌, false, None, map, take, length, OnOk};
ghost use Rattle.sctp_send.specs.OutstandingFields.{item_meaning};
ghost use Rattle.sctp_send.specs.inner.Wishing.{first_offset, is_item_marked};
ghost use Rattle.sctp_send.specs.inner.Testing.{index_of};
ghost use Rattle.sctp_send.specs.inner.Weighing.{item_room, repeats_from, repeats_room};

use crate::kept::entry::Entry;
use crate::kept::outstanding::Outstanding;
use crate::kept::pieces::bytes_of;
use crate::kept::wishes::is_repeat;
use crate::sack::marking::index_at;
use sctp_framing::Framing;
use sctp_values::NoMemory;
use sctp_wire::padded;

impl Outstanding {
    /// The space that the entries marked for retransmission take in a packet with so much space, one after the other, as long as they fit.
    pub(crate) fn room_of_repeats<F: Framing>(&self, room: u16) -> u16
        ensures count { result ≡ repeats_room F.format room (map (item_meaning self.now.size) self.now.items) }
        ensures bound { result ≤ room }
    {
        let size = self.size;
        let mut left = room;
        for at in self.first_repeat()..self.len() {
            let entry = self.get(at);
            if is_repeat(entry) {
                let taken = room_of::<F>(entry, size);
                if taken > usize::from(left) {
                    return room - left;
                }
                left -= taken as u16;
            }
        }
        room - left
    }

    /// Adds to a list the indexes of these entries.
    ///
    /// # Errors
    /// `NoMemory`, only if there is one.
    #[inline(always)]
    pub(crate) fn list_repeats<F: Framing>(
        &self,
        cum: u64,
        room: usize,
        list: &mut Vec<u64>,
    ) -> Result<(), NoMemory>
        ensures { OnOk result (list.new.items ≡ list.old.items ++ map (index_of cum) (repeats_from F.format room 0 (map (item_meaning self.now.size) self.now.items))) }
    {
        if !self.may_repeat() {
            return Ok(());
        }
        self.list_marked::<F>(cum, room, list)
    }

    /// `list_repeats`, by a walk. It is not inlined, so that the test before it is small.
    ///
    /// # Errors
    /// As `list_repeats`.
    #[inline(never)]
    fn list_marked<F: Framing>(
        &self,
        cum: u64,
        room: usize,
        list: &mut Vec<u64>,
    ) -> Result<(), NoMemory>
        ensures { OnOk result (list.new.items ≡ list.old.items ++ map (index_of cum) (repeats_from F.format room 0 (map (item_meaning self.now.size) self.now.items))) }
    {
        let size = self.size;
        let mut left = room;
        for at in self.first_repeat()..self.len() {
            let entry = self.get(at);
            if is_repeat(entry) {
                let taken = room_of::<F>(entry, size);
                if taken > left {
                    return Ok(());
                }
                left -= taken;
                if list.push(index_at(cum, at)).is_err() {
                    return Err(NoMemory);
                }
            }
        }
        Ok(())
    }

    /// False only if no entry is marked for retransmission. It asks the cursor alone.
    #[inline(always)]
    pub(crate) fn may_repeat(&self) -> bool
        ensures { result ≡ false → first_offset is_item_marked (map (item_meaning self.now.size) self.now.items) ≡ None }
    {
        self.first_repeat() < self.len()
    }

    /// An offset before which no entry is marked for retransmission.
    pub(crate) fn first_repeat(&self) -> usize
        ensures none { first_offset is_item_marked (take result (map (item_meaning self.now.size) self.now.items)) ≡ None }
        ensures within { result ≤ length self.now.items }
    {
        self.counts.marked
    }
}

/// The space that an entry's chunk takes.
fn room_of<F: Framing>(entry: &Entry, size: u16) -> usize
    requires { 0 < size }
    ensures { result ≡ item_room F.format (item_meaning size entry.now) }
{
    padded(F::header() + bytes_of(&entry.message, entry.content, size).len())
}
