//! Writes the line of what was counted.

ghost use Rattle.std.specs.Prelude.{◌≡◌, ◌++◌, OnOk, OnErr};
ghost use Rattle.sctp_end.specs.CountsText.{counts_words};
ghost use Rattle.sctp_text.specs.SpacedWords.{line_of};

use sctp_endpoint::Counts;
use sctp_text::Word;
use sctp_values::NoMemory;
use sctp_words::put_line;

/// Appends `counts` with its words; nothing if an allocation fails.
pub(crate) fn put_counts(counts: &Counts, out: &mut Vec<u8>) -> Result<(), NoMemory>
    ensures put { OnOk result (out.new.items ≡ out.old.items ++ line_of (counts_words counts.now)) }
    ensures refused { OnErr result (out.new.items ≡ out.old.items) }
{
    let words = [
        Word::Number(counts.packets_out),
        Word::Number(counts.bytes_out),
        Word::Number(counts.packets_in),
        Word::Number(counts.bytes_in),
        Word::Number(counts.first_sent),
        Word::Number(counts.timer_retransmitted),
        Word::Number(counts.fast_retransmitted),
        Word::Number(counts.sacks_out),
        Word::Number(counts.sacks_in),
        Word::Number(counts.abandoned),
        Word::Number(counts.dropped.fault),
        Word::Number(counts.dropped.ports),
        Word::Number(counts.dropped.tag),
        Word::Number(counts.dropped.state),
        Word::Number(counts.dropped.cookie),
    ];
    put_line(b"counts", &words, &[], out)
}
