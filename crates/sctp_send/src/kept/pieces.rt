//! The fragments of a message, their bytes and chunks (RFC 9260, 3.3.1 and 6.9; RFC 8260, 2.1).

ghost use Rattle.std.specs.Prelude.{◌≡◌, ℕ, ◌<◌, ◌≤◌, ◌%◌, ◌^◌, ◌∷◌, [], length, Option, Some, true};
ghost use Rattle.sctp_model.specs.messages.Format.{Lane};
ghost use Rattle.sctp_model.specs.messages.Plan.{Message as Said, Entry};
ghost use Rattle.sctp_model.specs.numbers.Limits.{GREATEST_FRAGMENT};
ghost use Rattle.sctp_model.specs.numbers.Serial as serial;
ghost use Rattle.sctp_model.specs.sender.Entries.{entry_fragment, bytes_in};
ghost use Rattle.sctp_model.specs.sender.Queueing.{cut, owed_for};
ghost use Rattle.sctp_packet.specs.Draft.{Draft, room_in, has_room, with_chunks};
ghost use Rattle.sctp_send.specs.OutstandingFields.{message_meaning, entry_meaning, no_base};
ghost use Rattle.sctp_send.specs.inner.Stocking.{fragment_chunk, said_chunk, FitsInto};

use crate::kept::entry::Content;
use crate::kept::message::Message;
use sctp_framing::Framing;
use sctp_packet::PacketWriter;
use sctp_wire::{Piece, padded};

/// How many fragments of this size so many bytes make. Where they fit into one, nothing is divided for that.
#[inline(always)]
pub(crate) fn fragments_of(size: u16, bytes: &[u8]) -> usize
    requires { 0 < size }
    ensures { result ≡ length (cut size bytes.now) }
{
    let most = usize::from(size);
    if bytes.len() <= most {
        return bytes.len().min(1);
    }
    bytes.len().div_ceil(most)
}

/// How many fragments of this size the bytes of a message make, of which there is one at least.
#[inline(always)]
pub(crate) fn fragments_in(size: u16, bytes: &[u8]) -> usize
    requires size { 0 < size }
    requires some { 0 < length bytes.now }
    ensures { result ≡ length (cut size bytes.now) }
{
    let most = usize::from(size);
    if bytes.len() <= most {
        return 1;
    }
    bytes.len().div_ceil(most)
}

/// What a message owes with so many unassigned fragments: their TSNs, and one for an end mark.
pub(crate) fn owed(count: usize) -> u64
    ensures { result ≡ owed_for count % 2 ^ 64 }
{
    if count == 0 {
        0
    } else {
        (count as u64).wrapping_add(1)
    }
}

/// The bytes of a fragment: a range of its message's. An end mark has none.
pub(crate) fn bytes_of(message: &Message, content: Content, size: u16) -> &[u8]
    requires { 0 < size }
    ensures { (l : Lane) (n : ℕ) → result.now ≡ bytes_in (entry_meaning l n content) (Some (message_meaning size message.now)) }
{
    let bytes = message.bytes.as_slice();
    match content {
        Content::Fragment(fragment) => {
            let from = (fragment as usize * usize::from(size)).min(bytes.len());
            let to = (from + usize::from(size)).min(bytes.len());
            &bytes[from..to]
        }
        Content::EndMark => &bytes[0..0],
    }
}

/// Which fragment of its message it is; an end mark counts as the first.
fn fragment_of(content: Content) -> u32
    ensures { (l : Lane) (n : ℕ) → result ≡ entry_fragment (entry_meaning l n content) }
{
    match content {
        Content::Fragment(fragment) => fragment,
        Content::EndMark => 0,
    }
}

/// The stream of a message.
fn stream_of(message: &Message) -> u16
    ensures { result ≡ message.now.stream }
{
    message.stream
}

/// The payload id of a message.
fn payload_of(message: &Message) -> u32
    ensures { result ≡ message.now.payload_id }
{
    message.payload_id
}

/// A chunk with so many bytes of data fits a packet with so many bytes left.
#[inline(always)]
pub(crate) fn fits<F: Framing>(bytes: usize, room: usize) -> bool
    requires { bytes < 2 ^ 63 }
    ensures { (p : Draft) (base : Lane → ℕ) (initial i : ℕ) (e : Entry) (m : Option Said) → room ≡ room_in p → bytes ≡ length (bytes_in e m) → result ≡ has_room p (said_chunk F.format base initial i e m) }
{
    padded(F::header() + bytes) <= room
}

/// Puts the chunk of a fragment, which fits, into a packet. `number` is its message's number since the last reset of its stream.
#[inline(always)]
pub(crate) fn put_fragment<F: Framing>(
    message: &Message,
    number: u64,
    content: Content,
    size: u16,
    tsn: u32,
    packet: &mut PacketWriter,
)
    requires some { 0 < size }
    requires short { size ≤ GREATEST_FRAGMENT }
    requires reserved { packet.old.space ≡ true }
    requires fits { FitsInto F.format packet.old size message.now content }
    ensures after { (initial i : ℕ) → tsn ≡ serial.tsn initial i → packet.new ≡ with_chunks packet.old (fragment_chunk F.format no_base size initial i message.now number content ∷ []) }
    ensures reserved { packet.new.space ≡ true }
{
    let bytes = bytes_of(message, content, size);
    let fragment = fragment_of(content);
    let stream = stream_of(message);
    let payload_id = payload_of(message);
    let kind = message.kind;
    let piece = Piece {
        immediate: false,
        unordered: kind.flag(),
        begin: fragment == 0,
        end: fragment as usize + 1 == fragments_of(size, &message.bytes),
        tsn,
        stream,
        number: F::wire_number(kind, number),
        word: F::wire_word(payload_id, fragment),
        bytes,
    };
    packet.put_piece(&piece, F::takes_turns());
}
