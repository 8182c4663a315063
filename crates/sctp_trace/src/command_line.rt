//! The command line of `sctp-trace`: does what its words ask for and returns the exit status.

ghost use Rattle.std.specs.Prelude.{◌≡◌, ◌≢◌, ℕ, ◌⊎◌, ◌+◌, ◌-◌, ◌^◌, ◌<◌, ◌≤◌, List, [], map, string_bytes, IfOk};
ghost use Rattle.sctp_print.specs.PrintedText.{IsPacketTextOf, IsChunksTextOf};
ghost use Rattle.sctp_trace.specs.ExitStatus.{Begins, Runs, Acts, Prints, status_of, words_text, Says, Ends};
ghost use Rattle.sctp_trace.specs.inner.Asked.{form_meaning};

use crate::form::{Form, form_of};
use crate::script::{ScriptFault, run_script};
use clap::error::ErrorKind;
use sctp_print::{print_chunks, print_packet};
use sctp_text::{Sink, Source, write_all};
use std::alloc::{AllocError, Global};

/// The usage text.
pub const USAGE: &str = "usage:
  sctp-trace run         runs the script on standard input; outcomes and report go to standard output
  sctp-trace packet HEX  prints the packet that HEX says, a line for its header and one for each chunk
  sctp-trace chunks HEX  prints the chunks that HEX says, a line each
";
/// The exit status if a script was run to its end, or a packet or chunks were read.
pub const DONE: u8 = 0;
/// The exit status of wrong words.
pub const WRONG_WORDS: u8 = 1;
/// The exit status of a script with a faulty line, and of a packet or chunks that can't be read.
pub const REFUSED: u8 = 2;
/// The exit status if reading, writing or an allocation failed.
pub const FAILED: u8 = 3;

// law
/// The exit statuses are the numbers in `docs/FORMATS.md`.
pub fn exit_statuses()
    ensures done { DONE ≡ 0 }
    ensures wrong_words { WRONG_WORDS ≡ 1 }
    ensures refused { REFUSED ≡ 2 }
    ensures failed { FAILED ≡ 3 }
{}

/// Does what the words ask for and returns the exit status. The first word is the program's own name.
///
/// `run` reads a script from `input` and writes its outcomes and its report to `output`. `packet HEX` and `chunks HEX` write the lines of
/// the packet, or of the chunks, that HEX spells in hexadecimal to `output`. The status is
/// - 0 if the script was run to its end, or the packet or chunks were read,
/// - 1 if the words are wrong or ask for help: what is wrong with them and the usage text are written to `faults`,
/// - 2 if a line of the script has a fault: `line N: K` is written to `faults`, the line counted from 1 and the kind of its fault; or if HEX,
///   the packet or the chunks have one: the line of that fault is written to `output`,
/// - 3 if reading, writing (to `faults` too) or an allocation failed.
pub fn run_words<R: Source, W: Sink, F: Sink>(
    alloc: Global,
    words: &[String],
    input: &mut R,
    output: &mut W,
    faults: &mut F,
) -> u8
    requires reads { R.failures input.old < 2 ^ 64 - 1 }
    requires writes { W.failures output.old < 2 ^ 64 - 1 }
    requires tells { F.failures faults.old < 2 ^ 64 - 1 }
    ensures ends { (read written said : List ℕ) × R.Reads input.old read input.new × W.Writes output.old written output.new
        × F.Writes faults.old said faults.new
        × Ends (R.IsAtEnd input.new) (map string_bytes words.now) result read written said }
    // Only the last call of a stream can fail, and then the status says so.
    ensures well { result < FAILED → (R.failures input.new ≡ R.failures input.old) × (W.failures output.new ≡ W.failures output.old)
        × (F.failures faults.new ≡ F.failures faults.old) }
    ensures once { R.failures input.new + W.failures output.new + F.failures faults.new
        ≤ R.failures input.old + W.failures output.old + F.failures faults.old + 1 }
{
    match form_of(alloc, words) {
        Ok(form) => act(alloc, form, input, output, faults),
        Err(error) => refuse(alloc, error.kind(), faults),
    }
}

/// Does what a form asks for.
fn act<R: Source, W: Sink, F: Sink>(
    alloc: Global,
    form: Form<'_>,
    input: &mut R,
    output: &mut W,
    faults: &mut F,
) -> u8
    requires reads { R.failures input.old < 2 ^ 64 - 1 }
    requires writes { W.failures output.old < 2 ^ 64 - 1 }
    requires tells { F.failures faults.old < 2 ^ 64 - 1 }
    ensures acts { (read written said : List ℕ) × R.Reads input.old read input.new × W.Writes output.old written output.new
        × F.Writes faults.old said faults.new × Acts (R.IsAtEnd input.new) (form_meaning form.entry) result read written said }
    ensures well { result < FAILED → (R.failures input.new ≡ R.failures input.old) × (W.failures output.new ≡ W.failures output.old)
        × (F.failures faults.new ≡ F.failures faults.old) }
    ensures once { R.failures input.new + W.failures output.new + F.failures faults.new
        ≤ R.failures input.old + W.failures output.old + F.failures faults.old + 1 }
{
    match form {
        Form::Run => run(alloc, input, output, faults),
        Form::Packet(text) => print_packet_of(alloc, text, output),
        Form::Chunks(text) => print_chunks_of(alloc, text, output),
    }
}

/// Prints the packet that the text spells, or its fault.
fn print_packet_of<W: Sink>(alloc: Global, text: &str, output: &mut W) -> u8
    requires { W.failures output.old < 2 ^ 64 - 1 }
    ensures prints { (written : List ℕ) × W.Writes output.old written output.new × Prints (IsPacketTextOf text.now) result written }
    ensures well { result < FAILED → W.failures output.new ≡ W.failures output.old }
    ensures once { W.failures output.new ≤ W.failures output.old + 1 }
{
    let mut lines = Vec::new(alloc);
    match print_packet(alloc, text, &mut lines) {
        Ok(was_read) => put(output, &lines, status_of(was_read)),
        Err(_) => FAILED,
    }
}

/// Prints the chunks that the text spells, or their fault.
fn print_chunks_of<W: Sink>(alloc: Global, text: &str, output: &mut W) -> u8
    requires { W.failures output.old < 2 ^ 64 - 1 }
    ensures prints { (written : List ℕ) × W.Writes output.old written output.new × Prints (IsChunksTextOf text.now) result written }
    ensures well { result < FAILED → W.failures output.new ≡ W.failures output.old }
    ensures once { W.failures output.new ≤ W.failures output.old + 1 }
{
    let mut lines = Vec::new(alloc);
    match print_chunks(alloc, text, &mut lines) {
        Ok(was_read) => put(output, &lines, status_of(was_read)),
        Err(_) => FAILED,
    }
}

/// The exit status for bytes that could be read, or not.
fn status_of(was_read: bool) -> u8
    ensures { result ≡ status_of was_read }
{
    if was_read { DONE } else { REFUSED }
}

/// Writes lines to the output. Returns the given status, or `FAILED`.
fn put<W: Sink>(output: &mut W, lines: &[u8], status: u8) -> u8
    requires { W.failures output.old < 2 ^ 64 - 1 }
    ensures { ((result ≡ status) × W.Writes output.old lines.now output.new × (W.failures output.new ≡ W.failures output.old))
        ⊎ ((result ≡ FAILED) × ((written : List ℕ) × W.Writes output.old written output.new × Begins written lines.now)
        × (W.failures output.new ≡ W.failures output.old + 1)) }
{
    match write_all(output, lines) {
        Ok(()) => status,
        Err(_) => FAILED,
    }
}

/// Runs a script and reports the line that has a fault.
fn run<R: Source, W: Sink, F: Sink>(
    alloc: Global,
    input: &mut R,
    output: &mut W,
    faults: &mut F,
) -> u8
    requires reads { R.failures input.old < 2 ^ 64 - 1 }
    requires writes { W.failures output.old < 2 ^ 64 - 1 }
    requires tells { F.failures faults.old < 2 ^ 64 - 1 }
    ensures runs { (read written said : List ℕ) × R.Reads input.old read input.new × W.Writes output.old written output.new
        × F.Writes faults.old said faults.new × Runs (R.IsAtEnd input.new) result read written said }
    ensures well { result < FAILED → (R.failures input.new ≡ R.failures input.old) × (W.failures output.new ≡ W.failures output.old)
        × (F.failures faults.new ≡ F.failures faults.old) }
    ensures once { R.failures input.new + W.failures output.new + F.failures faults.new
        ≤ R.failures input.old + W.failures output.old + F.failures faults.old + 1 }
{
    match run_script(alloc, input, output) {
        Ok(()) => DONE,
        Err(ScriptFault::Line(number, fault)) => {
            match format!(in alloc; "line {number}: {}\n", fault.kind()) {
                Ok(text) => say(faults, text.as_str(), REFUSED),
                Err(_) => FAILED,
            }
        }
        Err(ScriptFault::Read | ScriptFault::Write | ScriptFault::NoMemory) => FAILED,
    }
}

/// Reports wrong words with the usage text; nothing if an allocation fails.
fn refuse<F: Sink>(alloc: Global, kind: ErrorKind, faults: &mut F) -> u8
    requires { F.failures faults.old < 2 ^ 64 - 1 }
    ensures says { (said : List ℕ) × F.Writes faults.old said faults.new
        × (((kind ≢ ErrorKind.OutOfMemory) × Says kind result said) ⊎ ((result ≡ FAILED) × (said ≡ []))) }
    ensures well { result < FAILED → F.failures faults.new ≡ F.failures faults.old }
    ensures once { F.failures faults.new ≤ F.failures faults.old + 1 }
{
    if matches!(kind, ErrorKind::OutOfMemory) {
        return FAILED;
    }
    match words_text(alloc, kind) {
        Ok(text) => say(faults, text.as_str(), WRONG_WORDS),
        Err(_) => FAILED,
    }
}

/// The report of wrong words: what is wrong, by its kind, and the usage text. For a request for help it is the usage text alone.
fn words_text(alloc: Global, kind: ErrorKind) -> Result<String, AllocError>
    ensures { IfOk result (λ text. string_bytes text ≡ words_text kind) }
{
    match kind.as_str() {
        Some(reason) => format!(in alloc; "sctp-trace: {reason}\n{USAGE}"),
        None => String::from_str(alloc, USAGE),
    }
}

/// Writes a text to standard error. Returns the given status, or `FAILED`.
fn say<F: Sink>(faults: &mut F, text: &str, status: u8) -> u8
    requires { F.failures faults.old < 2 ^ 64 - 1 }
    ensures { ((result ≡ status) × F.Writes faults.old text.now faults.new × (F.failures faults.new ≡ F.failures faults.old))
        ⊎ ((result ≡ FAILED) × ((said : List ℕ) × F.Writes faults.old said faults.new × Begins said text.now)
        × (F.failures faults.new ≡ F.failures faults.old + 1)) }
{
    match write_all(faults, text.as_bytes()) {
        Ok(()) => status,
        Err(_) => FAILED,
    }
}
