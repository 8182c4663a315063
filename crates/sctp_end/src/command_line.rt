//! The command line of `sctp-end`: sets up an endpoint by the program's words and answers the lines of the input.

ghost use Rattle.std.specs.Prelude.{◌≡◌, ℕ, ◌+◌, ◌-◌, ◌^◌, ◌<◌, ◌≤◌, List, map, string_bytes};
ghost use Rattle.sctp_model.specs.end.EndView.{EndView};
ghost use Rattle.sctp_endpoint.specs.Counted.{counted, none_counted};
ghost use Rattle.sctp_endpoint.specs.EndpointStands.{EndpointStands};
ghost use Rattle.sctp_end.specs.ExitStatus.{Runs, TellsForms, Ends};
ghost use Rattle.sctp_end.specs.SetUpWords.{SetsUp, first_standing};

use crate::run::run_lines;
use crate::session::Session;
use crate::set_up::end_of;
use sctp_endpoint::{Draw, Endpoint};
use sctp_text::{Sink, Source, write_all};
use std::alloc::Global;

/// The usage text.
pub const USAGE: &str = "usage:
  sctp-end caller LIMIT FRAGMENT BUFFER STREAMS MODE [OPTIONS] PORT PEER        an end that calls; lines on standard input, answers on standard output
  sctp-end listener LIMIT FRAGMENT BUFFER STREAMS MODE [OPTIONS] PORT PEER KEY  an end that listens
OPTIONS, in this order: [delay] [standard-closing] [fast-retransmit] [congestion-control] [reset] [rto-min MS]
";
/// The exit status if the input was answered to its end.
pub const DONE: u8 = 0;
/// The exit status of wrong words.
pub const WRONG_WORDS: u8 = 1;
/// The exit status if reading, writing or an allocation failed.
pub const FAILED: u8 = 3;

// law
/// The exit statuses are the numbers in `docs/FORMATS.md`.
pub fn exit_statuses()
    ensures done { DONE ≡ 0 }
    ensures wrong_words { WRONG_WORDS ≡ 1 }
    ensures failed { FAILED ≡ 3 }
{}

/// Sets up an endpoint by the words, answers the lines of the input, each before the next one is read, and returns the exit status. The first
/// word is the program's own name. The status is
/// - 0 if the input was answered to its end,
/// - 1 if the words are wrong, or the sizes, streams or ports out of range: the usage text is written to `faults`,
/// - 3 if reading, writing (to `faults` too) or an allocation failed, or the input has more than 2^40 bytes: a prefix of the answers has been
///   written. Nothing is allocated before the first line is read.
pub fn run_words<R: Source, W: Sink, F: Sink>(
    alloc: Global,
    words: &[String],
    input: &mut R,
    output: &mut W,
    faults: &mut F,
) -> u8
    requires reads { R.failures input.old < 2 ^ 64 - 1 }
    requires writes { W.failures output.old < 2 ^ 64 - 1 }
    requires tells { F.failures faults.old < 2 ^ 64 - 1 }
    ensures ends { (read written said : List ℕ) × R.Reads input.old read input.new × W.Writes output.old written output.new
        × F.Writes faults.old said faults.new × Ends (R.IsAtEnd input.new) (map string_bytes words.now) result read written said }
    // Wrong words have status 1, or 3 if the usage text couldn't be written.
    ensures wrong { ((v : EndView) → SetsUp (map string_bytes words.now) v → ⊥) → result ≡ FAILED → F.failures faults.new ≡ F.failures faults.old + 1 }
    // Only the last call of a stream can fail, and then the status says so.
    ensures well { result < FAILED → (R.failures input.new ≡ R.failures input.old) × (W.failures output.new ≡ W.failures output.old)
        × (F.failures faults.new ≡ F.failures faults.old) }
    ensures once { R.failures input.new + W.failures output.new + F.failures faults.new
        ≤ R.failures input.old + W.failures output.old + F.failures faults.old + 1 }
{
    match end_of(alloc, words) {
        Some(endpoint) => run(alloc, endpoint, input, output),
        None => refuse(faults),
    }
}

/// Answers the lines of the input.
fn run<R: Source, W: Sink>(alloc: Global, endpoint: Endpoint, input: &mut R, output: &mut W) -> u8
    requires reads { R.failures input.old < 2 ^ 64 - 1 }
    requires writes { W.failures output.old < 2 ^ 64 - 1 }
    ensures runs { (v : EndView) → EndpointStands endpoint v → counted endpoint ≡ none_counted
        → (read written : List ℕ) × R.Reads input.old read input.new × W.Writes output.old written output.new
        × Runs (R.IsAtEnd input.new) (first_standing v) result read written }
    ensures well { result < FAILED → (R.failures input.new ≡ R.failures input.old) × (W.failures output.new ≡ W.failures output.old) }
    ensures once { R.failures input.new + W.failures output.new ≤ R.failures input.old + W.failures output.old + 1 }
{
    let Some(draw) = Draw::new(1, 1) else {
        drop(endpoint);
        return FAILED;
    };
    let mut session = Session {
        alloc,
        endpoint,
        draw,
        moment: 0,
    };
    let ended = run_lines(&mut session, input, output);
    drop(session);
    match ended {
        Ok(()) => DONE,
        Err(_) => FAILED,
    }
}

/// Writes the usage text to standard error.
fn refuse<F: Sink>(faults: &mut F) -> u8
    requires { F.failures faults.old < 2 ^ 64 - 1 }
    ensures tells { (said : List ℕ) × F.Writes faults.old said faults.new × TellsForms result said }
    ensures failed { result ≡ FAILED → F.failures faults.new ≡ F.failures faults.old + 1 }
    ensures well { result < FAILED → F.failures faults.new ≡ F.failures faults.old }
    ensures once { F.failures faults.new ≤ F.failures faults.old + 1 }
{
    match write_all(faults, USAGE.as_bytes()) {
        Ok(()) => WRONG_WORDS,
        Err(_) => FAILED,
    }
}
