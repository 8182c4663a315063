//! Writes a line of tickets.

ghost use Rattle.std.specs.Prelude.{◌≡◌, ℕ, List, [], ◌∷◌, ◌++◌, map, decimal, OnOk, OnErr};
ghost use Rattle.sctp_events.specs.Events.{side_meaning};
ghost use Rattle.sctp_script.specs.OutcomeText.{side_word};
ghost use Rattle.sctp_script.specs.ReportText.{ticket_number};
ghost use Rattle.sctp_text.specs.SpacedWords.{each_behind_space, line_of};

use crate::side_word::side_name;
use sctp_events::Side;
use sctp_text::{LINE_FEED, SPACE, put_decimal};
use sctp_values::{NoMemory, Ticket};

/// Appends a line of a word, an endpoint and tickets; nothing if an allocation fails.
pub(crate) fn put_tickets(
    first: &[u8],
    side: Side,
    tickets: &[Ticket],
    out: &mut Vec<u8>,
) -> Result<(), NoMemory>
    ensures put { OnOk result (out.new.items ≡ out.old.items
        ++ line_of (first.now ∷ side_word (side_meaning side) ∷ map decimal (map ticket_number tickets.now))) }
    ensures refused { OnErr result (out.new.items ≡ out.old.items) }
{
    let before = out.len();
    let put = append_line(first, side, tickets, out);
    if put.is_err() {
        out.truncate(before);
    }
    put
}

/// Appends a line of a word, an endpoint and tickets; a prefix of it if an allocation fails.
fn append_line(
    first: &[u8],
    side: Side,
    tickets: &[Ticket],
    out: &mut Vec<u8>,
) -> Result<(), NoMemory>
    ensures put { OnOk result (out.new.items ≡ out.old.items
        ++ line_of (first.now ∷ side_word (side_meaning side) ∷ map decimal (map ticket_number tickets.now))) }
    ensures part { (part : List ℕ) × (out.new.items ≡ out.old.items ++ part) }
{
    append(first, out)?;
    append(&[SPACE], out)?;
    append(side_name(side), out)?;
    append_tickets(tickets, out)?;
    append(&[LINE_FEED], out)
}

/// Appends each ticket after a space; a prefix of this if an allocation fails.
fn append_tickets(tickets: &[Ticket], out: &mut Vec<u8>) -> Result<(), NoMemory>
    ensures put { OnOk result (out.new.items ≡ out.old.items ++ each_behind_space (map decimal (map ticket_number tickets.now))) }
    ensures part { (part : List ℕ) × (out.new.items ≡ out.old.items ++ part) }
{
    for ticket in tickets {
        append(&[SPACE], out)?;
        append_number(ticket.0, out)?;
    }
    Ok(())
}

/// Appends a number in decimal; nothing if an allocation fails.
fn append_number(number: u64, out: &mut Vec<u8>) -> Result<(), NoMemory>
    ensures put { OnOk result (out.new.items ≡ out.old.items ++ decimal number) }
    ensures refused { OnErr result (out.new.items ≡ out.old.items) }
{
    put_decimal(number, out).map_err(|_| NoMemory)
}

/// Appends bytes; nothing if an allocation fails.
fn append(bytes: &[u8], out: &mut Vec<u8>) -> Result<(), NoMemory>
    ensures put { OnOk result (out.new.items ≡ out.old.items ++ bytes.now) }
    ensures refused { OnErr result (out.new.items ≡ out.old.items) }
{
    out.extend_from_slice(bytes).map_err(|_| NoMemory)
}
