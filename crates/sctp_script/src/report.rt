//! Writes the lines of a pair's report.

ghost use Rattle.std.specs.Prelude.{◌≡◌, ◌++◌, map, option_map, OnOk, OnErr};
ghost use Rattle.sctp_terms.specs.Meanings.{state_meaning, end_meaning};
ghost use Rattle.sctp_events.specs.Events.{side_meaning};
ghost use Rattle.sctp_script.specs.ReportText.{ticket_number, end_line, numbered_line, abandoned_line, handed_line, count_line};

use crate::side_word::side_name;
use crate::ticket_line::put_tickets;
use sctp_events::Side;
use sctp_terms::{End, State};
use sctp_text::Word;
use sctp_values::{NoMemory, Ticket};
use sctp_words::{end_word, put_line, state_word};

/// Appends `end X STATE WHY`: an endpoint's state, and how its association ended, `-` if it hasn't.
///
/// # Errors
/// `NoMemory` if `out` can't grow; it is unchanged then.
pub fn put_end(
    side: Side,
    state: State,
    ended: Option<End>,
    out: &mut Vec<u8>,
) -> Result<(), NoMemory>
    ensures put { OnOk result (out.new.items ≡ out.old.items
        ++ end_line (side_meaning side) (state_meaning state) (option_map end_meaning ended)) }
    ensures refused { OnErr result (out.new.items ≡ out.old.items) }
{
    let words = [
        Word::Text(side_name(side)),
        state_word(state),
        end_word(ended),
    ];
    put_line(b"end", &words, &[], out)
}

/// Appends `numbered X` and the tickets of the messages that were given TSNs; nothing if there are none.
///
/// # Errors
/// `NoMemory` if `out` can't grow; it is unchanged then.
pub fn put_numbered(side: Side, tickets: &[Ticket], out: &mut Vec<u8>) -> Result<(), NoMemory>
    ensures put { OnOk result (out.new.items ≡ out.old.items ++ numbered_line (side_meaning side) (map ticket_number tickets.now)) }
    ensures refused { OnErr result (out.new.items ≡ out.old.items) }
{
    if tickets.is_empty() {
        return Ok(());
    }
    put_tickets(b"numbered", side, tickets, out)
}

/// Appends `abandoned X` and the tickets of the messages that were abandoned; nothing if there are none.
///
/// # Errors
/// `NoMemory` if `out` can't grow; it is unchanged then.
pub fn put_abandoned(side: Side, tickets: &[Ticket], out: &mut Vec<u8>) -> Result<(), NoMemory>
    ensures put { OnOk result (out.new.items ≡ out.old.items ++ abandoned_line (side_meaning side) (map ticket_number tickets.now)) }
    ensures refused { OnErr result (out.new.items ≡ out.old.items) }
{
    if tickets.is_empty() {
        return Ok(());
    }
    put_tickets(b"abandoned", side, tickets, out)
}

/// Appends `handed X STREAM o` and the numbers of the ordered messages delivered on a stream; nothing if there are none.
///
/// # Errors
/// `NoMemory` if `out` can't grow; it is unchanged then.
pub fn put_handed(
    side: Side,
    stream: u16,
    numbers: &[u64],
    out: &mut Vec<u8>,
) -> Result<(), NoMemory>
    ensures put { OnOk result (out.new.items ≡ out.old.items ++ handed_line (side_meaning side) stream numbers.now) }
    ensures refused { OnErr result (out.new.items ≡ out.old.items) }
{
    if numbers.is_empty() {
        return Ok(());
    }
    let words = [
        Word::Text(side_name(side)),
        Word::Number(u64::from(stream)),
        Word::Text(b"o"),
    ];
    put_line(b"handed", &words, numbers, out)
}

/// Appends `handed X STREAM u COUNT`: how many unordered messages were delivered on a stream; nothing if there are none.
///
/// # Errors
/// `NoMemory` if `out` can't grow; it is unchanged then.
pub fn put_count(side: Side, stream: u16, count: u64, out: &mut Vec<u8>) -> Result<(), NoMemory>
    ensures put { OnOk result (out.new.items ≡ out.old.items ++ count_line (side_meaning side) stream count) }
    ensures refused { OnErr result (out.new.items ≡ out.old.items) }
{
    if count == 0 {
        return Ok(());
    }
    let words = [
        Word::Text(side_name(side)),
        Word::Number(u64::from(stream)),
        Word::Text(b"u"),
        Word::Number(count),
    ];
    put_line(b"handed", &words, &[], out)
}
