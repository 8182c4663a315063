//! A cookie that opens: it does nothing, begins an association, or has a call begun again (RFC 9260, 5.2.1 to 5.2.4).

ghost use Rattle.std.specs.Prelude.{◌≡◌, false, Some, IsSome};
ghost use Rattle.sctp_model.specs.wire.Packet as meaning;
ghost use Rattle.sctp_model.specs.end.Sealing.{Sealing};
ghost use Rattle.sctp_cookie.specs.CookieTree.{content_meaning};
ghost use Rattle.sctp_cookie.specs.Seals.{IsUnder};
ghost use Rattle.sctp_packet.specs.PacketBytes.{ReadsPacket};
ghost use Rattle.sctp_socket.specs.Meeting.{meets as meets_by};
ghost use Rattle.sctp_socket.specs.Hearing.{BeginsBy, Meets, Settles, SettlesAnew, SettlesThere, place_in, retired_in, succeeds};
ghost use Rattle.sctp_socket.specs.Places.{place_meaning};
ghost use Rattle.sctp_socket.specs.SocketView.{Slot, SocketView, is_taken, slot_at, standing_of};
ghost use Rattle.sctp_socket.specs.SocketStands.{IsSlot, SocketStands};

use crate::calling::calling_entry;
use crate::ends::SocketEnd;
use crate::heard::Heard;
use crate::meeting::{Meeting, Standing, meets};
use crate::peer::Peer;
use crate::routing::Place;
use crate::socket::Socket;
use crate::table::Entry;
use sctp_cookie::CookieContent;
use sctp_endpoint::Verdict;
use sctp_terms::Reason;
use sctp_values::NoMemory;

// The number of the call whose place an association takes, if there is one.
fn succeeds(standing: Standing, found: Option<u64>) -> Option<u64>
    ensures { result ≡ succeeds standing found }
{
    match standing {
        Standing::Apart => None,
        Standing::Called { .. } | Standing::Echoed { .. } => found,
        Standing::Joined { .. } => None,
    }
}

#[tactic(auto, unfolding(crate::specs::SocketStands::SocketStands))]
impl<E: SocketEnd + Drop> Socket<E> {
    // A cookie that opens, with this content.
    pub(crate) fn meet(
        &mut self,
        content: &CookieContent,
        place: &Place,
        found: Option<u64>,
        from: &Peer,
        bytes: &[u8],
    ) -> Result<Heard, NoMemory>
        ensures { (v : SocketView) (s : Sealing) (p : meaning.Packet) → SocketStands E.Stands self.old v → ReadsPacket bytes.now p → IsUnder place.now.key s
            → place_meaning s place.now ≡ place_in v s found from.now place.now.draw
            → (w : SocketView) × Meets (meets_by place.now.standing place.now.bar (is_taken v (content_meaning content.now).listener.tag found) (content_meaning content.now)) v
            (place_meaning s place.now) found from.now (content_meaning content.now) place.now.draw p result w × SocketStands E.Stands self.new w }
    {
        let served = self.table.serves_another(content.body.listener_tag, found);
        match meets(place.standing, place.bar, served, content) {
            Meeting::Ignored => Ok(Heard::Nobody(Verdict::Dropped(Reason::Cookie))),
            Meeting::Begins => self.begin(content, place, found, from, bytes),
            Meeting::CallsAgain => {
                let entry = calling_entry(self.alloc, place.config, *from, self.moment, place.draw);
                self.settle(place.standing, found, entry, Verdict::Taken)
            }
        }
    }

    // A cookie with this content begins an association: a listener handles the packet.
    fn begin(
        &mut self,
        content: &CookieContent,
        place: &Place,
        found: Option<u64>,
        from: &Peer,
        bytes: &[u8],
    ) -> Result<Heard, NoMemory>
        ensures { (v : SocketView) (s : Sealing) (p : meaning.Packet) → SocketStands E.Stands self.old v → ReadsPacket bytes.now p → IsUnder place.now.key s
            → place_meaning s place.now ≡ place_in v s found from.now place.now.draw
            → (w : SocketView) × BeginsBy v (place_meaning s place.now) found from.now (content_meaning content.now) place.now.draw p result w × SocketStands E.Stands self.new w }
    {
        let mut end = E::listener(self.alloc, place.config, place.key);
        match end.handle_packet(self.moment, bytes, place.draw) {
            Err(fault) => Err(fault),
            Ok(verdict) => {
                let entry = Entry {
                    peer: *from,
                    own: content.body.listener_tag,
                    bar: content.body.made,
                    current: true,
                    end,
                };
                self.settle(place.standing, found, entry, verdict)
            }
        }
    }

    // An association begins with a peer of which there is this.
    fn settle(
        &mut self,
        standing: Standing,
        found: Option<u64>,
        entry: Entry<E>,
        verdict: Verdict,
    ) -> Result<Heard, NoMemory>
        ensures { (v : SocketView) (x : Slot) → SocketStands E.Stands self.old v → IsSlot E.Stands entry x → standing ≡ standing_of (slot_at v found)
            → (w : SocketView) × Settles v standing found x verdict result w × SocketStands E.Stands self.new w }
    {
        let there = succeeds(standing, found);
        if self.table.serves_another(entry.own, there) {
            return Ok(Heard::Nobody(Verdict::Dropped(Reason::Cookie)));
        }
        match there {
            None => self.settle_anew(found, entry, verdict),
            Some(number) => self.settle_there(number, entry, verdict),
        }
    }

    // It begins under the next number.
    fn settle_anew(
        &mut self,
        found: Option<u64>,
        entry: Entry<E>,
        verdict: Verdict,
    ) -> Result<Heard, NoMemory>
        ensures { (v : SocketView) (x : Slot) → SocketStands E.Stands self.old v → IsSlot E.Stands entry x
            → (w : SocketView) × SettlesAnew v found x verdict result w × SocketStands E.Stands self.new w }
    {
        if self.room == 0 {
            return Ok(Heard::Full);
        }
        match self.enter(entry) {
            Err(fault) => Err(fault),
            Ok(number) => {
                self.retire(found);
                Ok(Heard::Of(number, verdict))
            }
        }
    }

    // What there was with its peer is over for its user.
    fn retire(&mut self, found: Option<u64>)
        ensures { (v : SocketView) → SocketStands E.Stands self.old v → SocketStands E.Stands self.new (retired_in found v) }
    {
        if let Some(number) = found {
            self.table.retire(number);
        }
    }

    // It takes the place of the call with this number.
    fn settle_there(
        &mut self,
        number: u64,
        entry: Entry<E>,
        verdict: Verdict,
    ) -> Result<Heard, NoMemory>
        ensures { (v : SocketView) (x : Slot) → SocketStands E.Stands self.old v → IsSlot E.Stands entry x → IsSome (v.slots number) → is_taken v x.own (Some number) ≡ false
            → (w : SocketView) × SettlesThere v number x verdict result w × SocketStands E.Stands self.new w }
    {
        match self.table.succeed(number, entry) {
            Err(fault) => Err(fault),
            Ok(()) => Ok(Heard::Of(number, verdict)),
        }
    }
}
