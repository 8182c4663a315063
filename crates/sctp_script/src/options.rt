//! Reads a line of options.

ghost use Rattle.std.specs.Prelude.{◌≡◌, ◌≤◌, ◌<◌, ◌↔◌, ◌++◌, Bool, true, List, ℕ, length, drop, IsTrue, MatchOption, MatchResult};
ghost use Rattle.sctp_model.specs.end.EndView.{Configuration};
ghost use Rattle.sctp_script.specs.Options.{words_taken};
ghost use Rattle.sctp_script.specs.OptionLines.{GivenOption, AreOptions, Sets, Leave, options_word, IsOptionsLine, LeaveAt};
ghost use Rattle.sctp_script.specs.declared.option_name.Ends as ends;
ghost use Rattle.sctp_script.specs.OptionsAnswer.{FindsOptions, RefusesOptions};

use crate::option_name::{Ends, OptionName};
use sctp_events::TwoConfigs;
use sctp_terms::{Config, Settings};
use sctp_text::{LONGEST_LINE, Words, words_say_one_value};
use sctp_words::{LineFault, read_mode, read_u16, read_u32};

/// Reads a line of options, given without its line feed, which may follow the `pair` line: what it leaves of both configurations. None if the
/// line isn't one of options.
///
/// # Errors
/// `BadValue` if a word isn't a value of its field, or if a configuration that the options leave has a fault.
pub fn read_options(line: &[u8], before: TwoConfigs) -> Result<Option<TwoConfigs>, LineFault>
    ensures { MatchResult result (λ found. FindsOptions line.now before.a before.b found) (λ fault. RefusesOptions line.now before.a before.b fault) }
{
    let Some(named) = read_ends(line) else {
        return Ok(None);
    };
    let Some(a) = left_at(named.has_a(), line, before.caller()) else {
        return Err(LineFault::BadValue);
    };
    let Some(b) = left_at(named.has_b(), line, before.listener()) else {
        return Err(LineFault::BadValue);
    };
    Ok(TwoConfigs::of(a, b))
}

/// What a line of options leaves of an endpoint's configuration, where `named` says whether it is for that endpoint. None if a word isn't a value
/// of its field, or if that configuration has a fault.
fn left_at(named: bool, line: &[u8], config: Config) -> Option<Config>
    requires { (x : ends.Ends) × (gs : List GivenOption) × IsOptionsLine line.now x gs }
    ensures { (x : ends.Ends) (gs : List GivenOption) → IsOptionsLine line.now x gs → MatchOption result
        ((c : Configuration) → LeaveAt named gs config c → ⊥)
        (λ c. LeaveAt named gs config c) }
{
    if named {
        left_by(option_words(line), config)
    } else {
        Some(config)
    }
}

/// The words of a line of options after its first two.
fn option_words(line: &[u8]) -> Words<'_>
    requires { (x : ends.Ends) × (gs : List GivenOption) × IsOptionsLine line.now x gs }
    ensures { (x : ends.Ends) (gs : List GivenOption) → IsOptionsLine line.now x gs → AreOptions result gs }
{
    let mut words = Words::of(line);
    let _options = words.next_word();
    let _ends = words.next_word();
    words
}

/// Whether a word begins a line of options.
fn is_options(word: &[u8]) -> bool
    ensures { IsTrue result ↔ word.now ≡ options_word }
{
    word == b"options".as_slice()
}

/// The endpoints that a line of options is for. None if the line isn't one of options.
fn read_ends(line: &[u8]) -> Option<Ends>
    ensures { MatchOption result
        ((x : ends.Ends) (gs : List GivenOption) → IsOptionsLine line.now x gs → ⊥)
        (λ x. (gs : List GivenOption) × IsOptionsLine line.now x gs) }
{
    if line.len() > LONGEST_LINE {
        return None;
    }
    let mut words = Words::of(line);
    if !is_options(words.next_word()) {
        return None;
    }
    if words.count() < 2 {
        return None;
    }
    let named = Ends::named(words.next_word())?;
    if are_options(words) {
        Some(named)
    } else {
        None
    }
}

/// Whether words are options, each with its number of words.
fn are_options(mut words: Words<'_>) -> bool
    ensures { IsTrue result ↔ ((gs : List GivenOption) × AreOptions words.entry gs) }
{
    let mut left = words.count();
    while left > 0 {
        let Some(option) = OptionName::named(words.next_word()) else {
            return false;
        };
        let taken = option.arguments();
        left -= 1;
        if left < taken {
            return false;
        }
        pass(&mut words, taken);
        left -= taken;
    }
    true
}

/// Takes so many words.
fn pass(words: &mut Words<'_>, count: usize)
    requires { count ≤ length words.old }
    ensures { (args : List (List ℕ)) × (words.old ≡ args ++ words.new) × (length args ≡ count) }
{
    for _ in 0..count {
        let _word = words.next_word();
    }
}

/// The configuration that options leave. None if a word isn't a value of its field, or if it has a fault.
fn left_by(words: Words<'_>, config: Config) -> Option<Config>
    requires { (gs : List GivenOption) × AreOptions words gs }
    ensures { (gs : List GivenOption) → AreOptions words.entry gs → MatchOption result
        ((c : Configuration) → LeaveAt true gs config c → ⊥)
        (λ c. LeaveAt true gs config c) }
{
    // law: these words spell no other values
    words_say_one_value();
    let settings = all_set(words, Settings::of(&config))?;
    settings.checked()
}

/// The values that options leave. None if a word isn't a value of its field.
fn all_set(mut words: Words<'_>, settings: Settings) -> Option<Settings>
    requires { (gs : List GivenOption) × AreOptions words gs }
    ensures { (gs : List GivenOption) → AreOptions words.entry gs → MatchOption result
        ((c : Configuration) → Leave gs settings c → ⊥)
        (λ c. Leave gs settings c) }
{
    // law: these words spell no other values
    words_say_one_value();
    let mut left_so_far = settings;
    let mut left = words.count();
    while left > 0 {
        let Some(option) = OptionName::named(words.next_word()) else {
            unreachable!()
        };
        left -= 1 + option.arguments();
        left_so_far = set(option, &mut words, left_so_far)?;
    }
    Some(left_so_far)
}

/// Sets an option to what the next words say. None if one isn't a value of its field; all of them are taken in any case.
fn set(option: OptionName, words: &mut Words<'_>, settings: Settings) -> Option<Settings>
    requires { words_taken option ≤ length words.old }
    ensures { (args : List (List ℕ)) × (words.old ≡ args ++ words.new) × (length args ≡ words_taken option)
        × MatchOption result ((c : Configuration) → Sets option args settings c → ⊥) (λ c. Sets option args settings c) }
{
    match option {
        OptionName::Limit => Some(settings.with_limit(read_u16(words.next_word())?)),
        OptionName::Fragment => Some(settings.with_fragment(read_u16(words.next_word())?)),
        OptionName::Buffer => Some(settings.with_buffer(read_u32(words.next_word())?)),
        OptionName::Streams => {
            let outbound = words.next_word();
            let inbound = words.next_word();
            Some(settings.with_streams(read_u16(outbound)?, read_u16(inbound)?))
        }
        OptionName::Mode => Some(settings.with_mode(read_mode(words.next_word())?)),
        OptionName::Delay => Some(settings.with_delay()),
        OptionName::StandardClosing => Some(settings.with_standard_closing()),
        OptionName::FastRetransmit => Some(settings.with_fast_retransmit()),
        OptionName::CongestionControl => Some(settings.with_congestion_control()),
        OptionName::RtoMin => Some(settings.with_rto_min(read_u32(words.next_word())?)),
        OptionName::Reset => Some(settings.with_reset()),
    }
}
