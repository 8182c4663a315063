//! Bytes, tickets and texts are copied to C's buffers.

ghost use Rattle.std.specs.Prelude.{◌≤◌, length};
ghost use Rattle.sctp_c.specs.Names.{IsText};
ghost use Rattle.sctp_c.specs.Told.{IsPut, AreTold};

use sctp_endpoint::Ticket;

/// Copies bytes to the beginning of a buffer, if it has space for all.
pub(crate) fn put_bytes(bytes: &[u8], buffer: &mut [u8]) -> usize
    ensures { length bytes.now ≤ length buffer.old → IsPut bytes.now result buffer.old buffer.new }
{
    if bytes.len() <= buffer.len() {
        buffer[..bytes.len()].copy_from_slice(bytes);
    }
    bytes.len()
}

/// `put_bytes` for an answer, which most packets don't have: a function of its own, so that a packet without one does nothing for it.
#[inline(never)]
pub(crate) fn put_answer(bytes: &[u8], buffer: &mut [u8]) -> usize
    ensures { length bytes.now ≤ length buffer.old → IsPut bytes.now result buffer.old buffer.new }
{
    put_bytes(bytes, buffer)
}

/// Copies tickets to the beginning of a buffer, as many as it has space for.
#[inline(never)]
fn put_all(tickets: &[Ticket], buffer: &mut [u64]) -> u64
    ensures { AreTold tickets.now result buffer.old buffer.new }
{
    let count = tickets.len().min(buffer.len());
    for place in 0..count {
        buffer[place] = tickets[place].0;
    }
    tickets.len() as u64
}

/// Copies tickets to the beginning of a buffer, as many as it has space for. Most packets carry the first fragment of one message or of none,
/// which takes no loop.
pub(crate) fn put_tickets(tickets: &[Ticket], buffer: &mut [u64]) -> u64
    ensures { AreTold tickets.now result buffer.old buffer.new }
{
    match tickets {
        [] => 0,
        [ticket] => {
            if let Some(first) = buffer.first_mut() {
                *first = ticket.0;
            }
            1
        }
        _ => put_all(tickets, buffer),
    }
}

/// Copies a text and a 0 after it to the beginning of a buffer, if it has space for both. The result is how many bytes the text has.
#[tactic(auto, using(crate::proofs::BufferLemmas::put_zero))]
pub(crate) fn put_text(text: &[u8], buffer: &mut [u8]) -> usize
    ensures { IsText text.now result buffer.old buffer.new }
{
    if text.len() < buffer.len() {
        buffer[..text.len()].copy_from_slice(text);
        buffer[text.len()] = 0;
    }
    text.len()
}
