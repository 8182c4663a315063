//! Reads the words of a line that are more than a number, one function a field.

ghost use Rattle.std.specs.Prelude.{◌≡◌, ◌↔◌, ℕ, List, Option, IsTrue, IfOk, MatchOption};
ghost use Rattle.sctp_model.specs.messages.Format as format;
ghost use Rattle.sctp_values.specs.Meanings.{kind_meaning};
ghost use Rattle.sctp_text.specs.Numerals.{IsHex};
ghost use Rattle.sctp_words.specs.Fields.{IsNumber, IsTag, IsUntil, IsTimeBefore, IsUntilLimit, kind_word, mode_word, delay_word, standard_closing_word, fast_retransmit_word, congestion_control_word, rto_min_word, reset_word};

use crate::numbers::{read_u16, read_u32, read_u64};
use sctp_terms::{Draw, Mode};
use sctp_text::{Bytes, read_hex};
use sctp_values::{Kind, NoMemory};
use std::alloc::Global;

/// What a limit of retransmissions begins with in a word, `x`.
pub const LIMIT_MARK: u8 = 120;

// law
/// A limit of retransmissions follows byte 120, `x`, as in the pages on formats.
pub fn limits_follow_an_x()
    ensures { LIMIT_MARK ≡ 120 }
{}

/// Reads random values: a verification tag, not 0, and an initial TSN. None if a word isn't its value.
pub fn read_draw(tag: &[u8], tsn: &[u8]) -> Option<Draw>
    ensures { MatchOption result
        ((t n : ℕ) → IsTag tag.now t → IsNumber 32 tsn.now n → ⊥)
        (λ draw. IsTag tag.now draw.tag × IsNumber 32 tsn.now draw.tsn) }
{
    let tag = read_u32(tag)?;
    let tsn = read_u32(tsn)?;
    Draw::new(tag, tsn)
}

/// Reads bytes in hexadecimal: two lower-case digits each, `-` for none. None if the word is neither.
///
/// # Errors
/// `NoMemory` if no memory could be allocated for the bytes.
pub fn read_bytes(alloc: Global, word: &[u8]) -> Result<Option<Bytes>, NoMemory>
    ensures { IfOk result (λ found. MatchOption found
        ((bytes : List ℕ) → IsHex word.now bytes → ⊥) (λ bytes. IsHex word.now bytes)) }
{
    read_hex(alloc, word).map_err(|_| NoMemory)
}

/// Reads whether a message is delivered in order: `o` for ordered, `u` for unordered (RFC 9260, 6.6). None for another word.
pub fn read_kind(word: &[u8]) -> Option<Kind>
    ensures { MatchOption result ((k : format.Kind) → word.now ≡ kind_word k → ⊥) (λ k. word.now ≡ kind_word (kind_meaning k)) }
{
    match word {
        b"o" => Some(Kind::Ordered),
        b"u" => Some(Kind::Unordered),
        _ => None,
    }
}

/// Reads the end of a message's lifetime: a time in milliseconds, or `-` for no limit. None for another word.
pub fn read_until(word: &[u8]) -> Option<Option<u64>>
    ensures { MatchOption result ((t : Option ℕ) → IsUntil word.now t → ⊥) (λ t. IsUntil word.now t) }
{
    if word == b"-".as_slice() {
        return Some(None);
    }
    Some(Some(read_u64(word)?))
}

/// Reads the end of a message's lifetime and how often each fragment of it may be retransmitted (RFC 7496, 3.1), 0 to 65,535: `TxN` for a time T
/// in milliseconds and a limit N, `xN` for a limit alone, and without a limit as `read_until`. None for another word.
pub fn read_until_limit(word: &[u8]) -> Option<(Option<u64>, Option<u16>)>
    ensures { MatchOption result
        ((until limit : Option ℕ) → IsUntilLimit word.now until limit → ⊥)
        (λ found. IsUntilLimit word.now found.0 found.1) }
{
    match word.iter().position(|&byte| byte == LIMIT_MARK) {
        Some(at) => {
            let until = read_time_before(&word[..at])?;
            let limit = read_u16(&word[at + 1..])?;
            Some((until, Some(limit)))
        }
        None => {
            let until = read_until(word)?;
            Some((until, None))
        }
    }
}

/// Reads the end of a lifetime before a limit of retransmissions: nothing for none. None for another word.
fn read_time_before(time: &[u8]) -> Option<Option<u64>>
    ensures { MatchOption result ((until : Option ℕ) → IsTimeBefore time.now until → ⊥) (λ until. IsTimeBefore time.now until) }
{
    if time.is_empty() {
        return Some(None);
    }
    Some(Some(read_u64(time)?))
}

/// Reads a mode: `data`, `data-pr`, `idata` or `idata-pr`. None for another word.
pub fn read_mode(word: &[u8]) -> Option<Mode>
    ensures { MatchOption result ((m : Mode) → word.now ≡ mode_word m → ⊥) (λ m. word.now ≡ mode_word m) }
{
    match word {
        b"data" => Some(Mode::Data),
        b"data-pr" => Some(Mode::PartialData),
        b"idata" => Some(Mode::IData),
        b"idata-pr" => Some(Mode::PartialIData),
        _ => None,
    }
}

/// Whether the word is `delay`: SACKs may be delayed for a second packet (RFC 9260, 6.2).
pub fn is_delay(word: &[u8]) -> bool
    ensures { IsTrue result ↔ word.now ≡ delay_word }
{
    word == b"delay".as_slice()
}

/// Whether the word is `standard-closing`: an association is closed by the RFC's timers (RFC 9260, 9.2).
pub fn is_standard_closing(word: &[u8]) -> bool
    ensures { IsTrue result ↔ word.now ≡ standard_closing_word }
{
    word == b"standard-closing".as_slice()
}

/// Whether the word is `fast-retransmit`: what has three miss indications is retransmitted at once (RFC 9260, 7.2.4).
pub fn is_fast_retransmit(word: &[u8]) -> bool
    ensures { IsTrue result ↔ word.now ≡ fast_retransmit_word }
{
    word == b"fast-retransmit".as_slice()
}

/// Whether the word is `congestion-control`: a congestion window limits what is in flight (RFC 9260, 7.2).
pub fn is_congestion_control(word: &[u8]) -> bool
    ensures { IsTrue result ↔ word.now ≡ congestion_control_word }
{
    word == b"congestion-control".as_slice()
}

/// Whether the word is `rto-min`, before RTO.Min in milliseconds (RFC 9260, 6.3.1).
pub fn is_rto_min(word: &[u8]) -> bool
    ensures { IsTrue result ↔ word.now ≡ rto_min_word }
{
    word == b"rto-min".as_slice()
}

/// Whether the word is `reset`: streams can be reset, if the peer asks for it too (RFC 6525).
pub fn is_reset(word: &[u8]) -> bool
    ensures { IsTrue result ↔ word.now ≡ reset_word }
{
    word == b"reset".as_slice()
}
