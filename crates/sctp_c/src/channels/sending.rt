//! Messages that C sends on channels (RFC 8831, 6.6).

ghost use Rattle.std.specs.Prelude.{◌≡◌, None};
ghost use Rattle.sctp_model.specs.end.EndView.{EndView};
ghost use Rattle.sctp_dcep.specs.Meanings.{content_meaning};
ghost use Rattle.sctp_channels.specs.Streams.{Table};
ghost use Rattle.sctp_c.specs.channels.Asked.{content_asked};
ghost use Rattle.sctp_c.specs.channels.Holds.{HoldsChannels, waiting_in};
ghost use Rattle.sctp_c.specs.channels.Told.{SendTold, SendsFor};

use crate::channels::codes::message_code;
use crate::channels::handle::SctpChannels;
use crate::codes::{MISUSE, OK};
use sctp_channels::{Content, SendFault};
use sctp_endpoint::Ticket;

/// The content of these bytes.
fn content_of(text: bool, bytes: &[u8]) -> Content<'_>
    ensures { content_meaning result ≡ content_asked text bytes.now }
{
    if text {
        Content::Text(bytes)
    } else {
        Content::Binary(bytes)
    }
}

/// Writes the ticket of an accepted message.
fn tell_send(answer: Result<Ticket, SendFault>, ticket: &mut u64) -> u32
    ensures told { SendTold answer result ticket.new }
    ensures untold { ((result ≡ OK) → ⊥) → ticket.new ≡ ticket.old }
{
    match answer {
        Ok(given) => {
            *ticket = given.0;
            OK
        }
        Err(why) => message_code(why),
    }
}

/// Sends a message on a channel, text or binary: its bytes are copied. Its ticket is written to `ticket`.
#[unsafe(no_mangle)]
pub extern "C" fn sctp_channels_send(
    channels: &mut SctpChannels,
    now: u64,
    stream: u16,
    text: bool,
    bytes: &[u8],
    ticket: &mut u64,
) -> u32
    ensures misuse { channels.old.slot.held ≡ None → (result ≡ MISUSE) × (channels.new.slot.held ≡ None) }
    ensures untold { ((result ≡ OK) → ⊥) → ticket.new ≡ ticket.old }
    ensures did { (v : EndView) (x : Table) → HoldsChannels channels.old.slot.held v x
        → SendsFor v x now stream (content_asked text bytes.now) channels.new.slot.held result ticket.new }
    ensures waits { waiting_in channels.new.slot.held ≡ waiting_in channels.old.slot.held }
{
    if !channels.is_full() {
        return MISUSE;
    }
    let held = channels.slot.lend();
    let answer = held.channels.send(now, stream, content_of(text, bytes));
    tell_send(answer, ticket)
}
