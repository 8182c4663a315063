//! The command line of `sctp-look`: draws what its words ask for and returns the exit status.

ghost use Rattle.std.specs.Prelude.{◌≡◌, ◌-◌, ◌^◌, ◌<◌};

use crate::drawing::draw;
use crate::fault::LookFault;
use crate::request::{Request, request_of};
use crate::script::Reading;
use sctp_text::{Sink, Source, write_all};
use std::alloc::Global;

/// The usage text.
pub const USAGE: &str = "usage: the script is read from standard input
  sctp-look [--ascii] [--color] [--width N]  draws its run as a ladder, at most N columns wide, 60 at least
  sctp-look svg                              draws its run as SVG
  sctp-look hex                              its packets as a hex dump: text2pcap -D -t %s.%f -i 132
";
/// The exit status of a script that was drawn to its end.
pub const DONE: u8 = 0;
/// The exit status of wrong words.
pub const WRONG_WORDS: u8 = 1;
/// The exit status of a script with a faulty line.
pub const REFUSED: u8 = 2;
/// The exit status if reading, writing or an allocation failed.
pub const FAILED: u8 = 3;

// law
/// The exit statuses are the numbers in `docs/FORMATS.md`.
pub fn exit_statuses()
    ensures done { DONE ≡ 0 }
    ensures wrong_words { WRONG_WORDS ≡ 1 }
    ensures refused { REFUSED ≡ 2 }
    ensures failed { FAILED ≡ 3 }
{}

/// Reads a script from `input`, draws its run to `output` as the words ask, and returns the exit status. The first word is the program's own
/// name. The status is
/// - 0 if the script was run to its end and drawn,
/// - 1 if the words are wrong: the usage text is written to `faults`,
/// - 2 if a line of the script has a fault: what is before that line is drawn, and `line N: K` is written to `faults`, the line counted from 1
///   and the kind of its fault,
/// - 3 if reading, writing (to `faults` too) or an allocation failed.
pub fn run_words<R: Source, W: Sink, F: Sink>(
    alloc: Global,
    words: &[String],
    input: &mut R,
    output: &mut W,
    faults: &mut F,
) -> u8
    requires reads { R.failures input.old < 2 ^ 64 - 1 }
    requires writes { W.failures output.old < 2 ^ 64 - 1 }
    requires tells { F.failures faults.old < 2 ^ 64 - 1 }
{
    let Some(request) = request_of(words) else {
        return say(faults, USAGE, WRONG_WORDS);
    };
    match look(alloc, &request, input, output) {
        Ok(()) => DONE,
        Err(LookFault::Line(number, fault)) => {
            match format!(in alloc; "line {number}: {}\n", fault.kind()) {
                Ok(text) => say(faults, text.as_str(), REFUSED),
                Err(_) => FAILED,
            }
        }
        Err(LookFault::Read | LookFault::Write | LookFault::NoMemory) => FAILED,
    }
}

/// Reads a script and draws its run, up to the first line with a fault.
fn look<R: Source, W: Sink>(
    alloc: Global,
    request: &Request,
    input: &mut R,
    output: &mut W,
) -> Result<(), LookFault>
    requires reads { R.failures input.old < 2 ^ 64 - 1 }
    requires writes { W.failures output.old < 2 ^ 64 - 1 }
{
    let mut reading = Reading::new(alloc);
    let ended = read_and_draw(&mut reading, request, input, output);
    drop(reading);
    ended
}

/// Reads a script into `reading`, from which nothing was read yet, and draws its run.
fn read_and_draw<R: Source, W: Sink>(
    reading: &mut Reading,
    request: &Request,
    input: &mut R,
    output: &mut W,
) -> Result<(), LookFault>
    requires reads { R.failures input.old < 2 ^ 64 - 1 }
    requires writes { W.failures output.old < 2 ^ 64 - 1 }
{
    let ended = reading.read(input);
    if matches!(ended, Ok(()) | Err(LookFault::Line(..))) {
        if let Some(run) = reading.run() {
            draw(request, run, output)?;
        }
    }
    ended
}

/// Writes a text to standard error. Returns the given status, or `FAILED`.
fn say<F: Sink>(faults: &mut F, text: &str, status: u8) -> u8
    requires { F.failures faults.old < 2 ^ 64 - 1 }
{
    match write_all(faults, text.as_bytes()) {
        Ok(()) => status,
        Err(_) => FAILED,
    }
}
