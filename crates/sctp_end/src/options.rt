//! The options that may be after MODE.

ghost use Rattle.std.specs.Prelude.{◌≡◌, ℕ, false, ◌||◌, map, option_map, string_bytes, MatchOption};
ghost use Rattle.sctp_end.specs.SetUpWords.{SaysLeast, with_options};
ghost use Rattle.sctp_end.specs.inner.SettingUp.{IsSplit, AreSplit, IsLeastSplit, HasNoOptions};
ghost use Rattle.sctp_words.specs.Fields.{delay_word, standard_closing_word, fast_retransmit_word, congestion_control_word, reset_word};

use sctp_endpoint::Config;
use sctp_words::{
    is_congestion_control, is_delay, is_fast_retransmit, is_reset, is_rto_min, is_standard_closing,
    read_u32,
};

/// RTO.Min in milliseconds, if it is left out (RFC 9260, 16).
const RTO_MIN: u32 = 1_000;

/// Of the options that are one word, whether each is there.
#[derive(Clone, Copy)]
pub(crate) struct Options {
    /// `delay`
    pub(crate) delay: bool,
    /// `standard-closing`
    pub(crate) standard_closing: bool,
    /// `fast-retransmit`
    pub(crate) fast_retransmit: bool,
    /// `congestion-control`
    pub(crate) congestion_control: bool,
    /// `reset`
    pub(crate) reset: bool,
}

/// Which options of one word these words begin with, and the words after them.
pub(crate) fn split_options(words: &[String]) -> (Options, &[String])
    ensures { AreSplit (map string_bytes words.now) result.0 (map string_bytes result.1.now) }
{
    let (delay, rest) = split_delay(words);
    let (standard_closing, rest) = split_standard_closing(rest);
    let (fast_retransmit, rest) = split_fast_retransmit(rest);
    let (congestion_control, rest) = split_congestion_control(rest);
    let (reset, rest) = split_reset(rest);
    let options = Options {
        delay,
        standard_closing,
        fast_retransmit,
        congestion_control,
        reset,
    };
    (options, rest)
}

/// Whether the first of these words is `delay`, and the words after it; else all of them.
fn split_delay(words: &[String]) -> (bool, &[String])
    ensures { IsSplit delay_word (map string_bytes words.now) result.0 (map string_bytes result.1.now) }
{
    match words {
        [first, rest @ ..] if is_delay(first.as_bytes()) => (true, rest),
        _ => (false, words),
    }
}

/// Whether the first of these words is `standard-closing`, and the words after it; else all of them.
fn split_standard_closing(words: &[String]) -> (bool, &[String])
    ensures { IsSplit standard_closing_word (map string_bytes words.now) result.0 (map string_bytes result.1.now) }
{
    match words {
        [first, rest @ ..] if is_standard_closing(first.as_bytes()) => (true, rest),
        _ => (false, words),
    }
}

/// Whether the first of these words is `fast-retransmit`, and the words after it; else all of them.
fn split_fast_retransmit(words: &[String]) -> (bool, &[String])
    ensures { IsSplit fast_retransmit_word (map string_bytes words.now) result.0 (map string_bytes result.1.now) }
{
    match words {
        [first, rest @ ..] if is_fast_retransmit(first.as_bytes()) => (true, rest),
        _ => (false, words),
    }
}

/// Whether the first of these words is `congestion-control`, and the words after it; else all of them.
fn split_congestion_control(words: &[String]) -> (bool, &[String])
    ensures { IsSplit congestion_control_word (map string_bytes words.now) result.0 (map string_bytes result.1.now) }
{
    match words {
        [first, rest @ ..] if is_congestion_control(first.as_bytes()) => (true, rest),
        _ => (false, words),
    }
}

/// Whether the first of these words is `reset`, and the words after it; else all of them.
fn split_reset(words: &[String]) -> (bool, &[String])
    ensures { IsSplit reset_word (map string_bytes words.now) result.0 (map string_bytes result.1.now) }
{
    match words {
        [first, rest @ ..] if is_reset(first.as_bytes()) => (true, rest),
        _ => (false, words),
    }
}

/// The word after `rto-min`, if that is the first of these words, and the words after both; else all of them.
pub(crate) fn split_rto_min(words: &[String]) -> (Option<&[u8]>, &[String])
    ensures { IsLeastSplit (map string_bytes words.now) (option_map (λ w. w.now) result.0) (map string_bytes result.1.now) }
{
    match words {
        [first, number, rest @ ..] if is_rto_min(first.as_bytes()) => (
            Some(number.as_bytes()),
            rest,
        ),
        _ => (None, words),
    }
}

/// RTO.Min in milliseconds by its word, and 1,000 without one. None if the word isn't a number of 32 bits.
pub(crate) fn read_rto_min(word: Option<&[u8]>) -> Option<u32>
    ensures { MatchOption result
        ((n : ℕ) → SaysLeast (option_map (λ w. w.now) word.entry) n → ⊥) (λ n. SaysLeast (option_map (λ w. w.now) word.entry) n) }
{
    match word {
        Some(word) => read_u32(word),
        None => Some(RTO_MIN),
    }
}

/// The configuration with these options, and RTO.Min in milliseconds.
pub(crate) fn with_options(config: Config, options: Options, rto_min: u32) -> Config
    requires plain { HasNoOptions config }
    ensures { result
        ≡ with_options options.delay options.standard_closing options.fast_retransmit options.congestion_control options.reset rto_min config }
{
    let config = with_closing(config, options.delay, options.standard_closing);
    let config = with_pace(config, options.fast_retransmit, options.congestion_control);
    let config = with_resets(config, options.reset);
    config.with_rto_min(rto_min)
}

/// The configuration that asks for the reset of streams, or doesn't.
fn with_resets(config: Config, reset: bool) -> Config
    requires { config.reset ≡ false }
    ensures { result ≡ record config { reset = reset } }
{
    if reset { config.with_reset() } else { config }
}

/// The configuration that delays its SACKs so, and that closes so.
fn with_closing(config: Config, delay: bool, standard_closing: bool) -> Config
    requires plain { HasNoOptions config }
    ensures { result ≡ record config { delay = delay; standard_closing = standard_closing } }
{
    let config = if delay { config.with_delay() } else { config };
    if standard_closing {
        config.with_standard_closing()
    } else {
        config
    }
}

/// The configuration with fast retransmission, or with congestion control, which brings it.
fn with_pace(config: Config, fast_retransmit: bool, congestion_control: bool) -> Config
    requires fast { config.fast_retransmit ≡ false }
    requires control { config.congestion_control ≡ false }
    ensures { result ≡ record config { fast_retransmit = congestion_control || fast_retransmit; congestion_control = congestion_control } }
{
    if congestion_control {
        return config.with_congestion_control();
    }
    if fast_retransmit {
        config.with_fast_retransmit()
    } else {
        config
    }
}
