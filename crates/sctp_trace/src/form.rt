//! Reads the program's words by clap.

ghost use Rattle.std.specs.Prelude.{◌≡◌, map, string_bytes, IfOk};
ghost use Rattle.clap.specs.Words.{FailsBy, HasMatchesOf, app_of, fault_of};
ghost use Rattle.sctp_trace.specs.Forms.{commands, form_of, with_hex};
ghost use Rattle.sctp_trace.specs.inner.Asked.{form_meaning};

use clap::{Arg, ArgMatches, Command, Error};
use std::alloc::{AllocError, Global};

/// What the program's words ask for: to run a script, or to print a packet or chunks given in hexadecimal.
#[derive(Clone, Copy)]
pub(crate) enum Form<'a> {
    Run,
    Packet(&'a str),
    Chunks(&'a str),
}

/// Reads the words: the subcommand and the value of HEX.
pub(crate) fn form_of(alloc: Global, words: &[String]) -> Result<Form<'_>, Error>
    ensures fails { FailsBy (fault_of commands (map string_bytes words.now)) result }
    ensures form { IfOk result (λ form. form_meaning form ≡ form_of (map string_bytes words.now)) }
{
    let matches = match parse(alloc, words) {
        Ok(matches) => matches,
        Err(error) => return Err(error),
    };
    if let Some(packet) = matches.subcommand_matches("packet") {
        return Ok(Form::Packet(packet.get_str("HEX").unwrap_or("")));
    }
    if let Some(chunks) = matches.subcommand_matches("chunks") {
        return Ok(Form::Chunks(chunks.get_str("HEX").unwrap_or("")));
    }
    Ok(Form::Run)
}

/// Parses the words by clap.
fn parse(alloc: Global, words: &[String]) -> Result<ArgMatches<'_>, Error>
    ensures fails { FailsBy (fault_of commands (map string_bytes words.now)) result }
    ensures matches { IfOk result (HasMatchesOf commands (map string_bytes words.now)) }
{
    let program = program(alloc)?;
    program.try_get_matches_from(words)
}

/// The program for clap: one of the subcommands `run`, `packet` and `chunks` is required, the last two with HEX.
fn program<'a>(alloc: Global) -> Result<Command<'a>, AllocError>
    ensures { IfOk result (λ program. app_of program ≡ commands) }
{
    let run = Command::new(alloc, "run");
    let bare = Command::new(alloc, "sctp-trace").subcommand_required(true);
    let running = bare.subcommand(run)?;
    // Each place that drops a command is proved: it is dropped by name, and at no `?`.
    let packet = match with_hex(alloc, "packet") {
        Ok(packet) => packet,
        Err(error) => {
            drop(running);
            return Err(error);
        }
    };
    let printing = running.subcommand(packet)?;
    match with_hex(alloc, "chunks") {
        Ok(chunks) => {
            let program = printing.subcommand(chunks)?;
            Ok(program)
        }
        Err(error) => {
            drop(printing);
            Err(error)
        }
    }
}

/// A subcommand with the argument HEX.
fn with_hex<'a>(alloc: Global, name: &'a str) -> Result<Command<'a>, AllocError>
    ensures { IfOk result (λ command. (app_of command).top ≡ with_hex name.now) }
{
    let hex = Arg::new(alloc, "HEX").required(true);
    let command = Command::new(alloc, name).arg(hex)?;
    Ok(command)
}
