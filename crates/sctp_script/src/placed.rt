//! Reads a line at its place in a script.

ghost use Rattle.std.specs.Prelude.{Bool, true, false, MatchResult};
ghost use Rattle.sctp_script.specs.Places as places;
ghost use Rattle.sctp_script.specs.PlacedAnswer.{place_meaning, FindsAt, RefusesAt};
ghost use Rattle.sctp_script.specs.inner.PlainAnswer.{FindsPlain, RefusesPlain, FindsUnlimited, RefusesUnlimited, FindsPaired, RefusesPaired};

use crate::further_line::read_further_line;
use crate::limited_send::read_limited_send;
use crate::line::{Acting, read_line};
use crate::options::read_options;
use sctp_events::{Event, PairConfig, TwoConfigs};
use sctp_values::NoMemory;
use sctp_words::LineError;
use std::alloc::Global;

/// What the lines before a line say of the endpoints of the pair. Nothing was said before the `pair` line: that is the default.
#[derive(Clone, Copy, Debug, Default, PartialEq, Eq)]
pub struct Preamble {
    /// The configurations of the endpoints, until a line asks something of them.
    pub fresh: Option<TwoConfigs>,
    /// Whether a line of options was read.
    pub with_options: bool,
}

/// Where a line is in a script.
#[derive(Clone, Copy, Debug, PartialEq, Eq)]
pub enum Place {
    /// Before the `pair` line.
    Unpaired,
    /// After the `pair` line: its endpoints have these configurations, and no line has asked anything of them. Lines of options may be here;
    /// `with_options` says whether one was.
    Behind {
        configs: TwoConfigs,
        with_options: bool,
    },
    /// After a line that has asked something of the pair, in a script with a line of options or in one without.
    Acted {
        with_options: bool,
    },
}

impl Place {
    ghost use Rattle.std.specs.Prelude.{◌≡◌};
    ghost use Rattle.sctp_script.specs.PlacedAnswer.{place_meaning, place_at};

    /// The place of a line. `paired` says whether a `pair` line was read before, and `preamble` what was said of the endpoints.
    pub fn of(paired: bool, preamble: Preamble) -> Place
        ensures { place_meaning result ≡ place_at paired preamble }
    {
        if !paired {
            return Place::Unpaired;
        }
        let with_options = preamble.with_options;
        match preamble.fresh {
            Some(configs) => Place::Behind {
                configs,
                with_options,
            },
            None => Place::Acted { with_options },
        }
    }
}

/// What a line asks for at its place.
#[derive(Debug, PartialEq, Drop)]
pub enum Placed {
    /// `pair`: a new pair with this configuration.
    Pair(PairConfig),
    /// `options`: the endpoints have these configurations.
    Options(TwoConfigs),
    /// Any other command: this event.
    Event(Event),
}

/// Reads a line at its place, given without its line feed. None for an empty line or a comment.
///
/// # Errors
/// The line's fault, or `NoMemory` if no memory could be allocated for the bytes of a word.
pub fn read_line_at(alloc: Global, line: &[u8], place: Place) -> Result<Option<Placed>, LineError>
    ensures { MatchResult result (λ found. FindsAt (place_meaning place) line.now found) (λ error. RefusesAt (place_meaning place) line.now error) }
{
    match place {
        Place::Unpaired => read_plain(alloc, line, false),
        Place::Behind {
            configs,
            with_options,
        } => read_behind(alloc, line, configs, with_options),
        Place::Acted { with_options } => read_paired(alloc, line, with_options),
    }
}

/// Reads a line directly after the pair.
///
/// # Errors
/// As `read_line_at`.
fn read_behind(
    alloc: Global,
    line: &[u8],
    configs: TwoConfigs,
    with_options: bool,
) -> Result<Option<Placed>, LineError>
    ensures { let place = places.Behind with_options configs.a configs.b in
        MatchResult result (λ found. FindsAt place line.now found) (λ error. RefusesAt place line.now error) }
{
    match read_options(line, configs) {
        Ok(Some(after)) => Ok(Some(Placed::Options(after))),
        Ok(None) => read_paired(alloc, line, with_options),
        Err(fault) => Err(LineError::Fault(fault)),
    }
}

/// Reads a line after the `pair` line that isn't one of options. In a script with a line of options it may give a limit of retransmissions, or be
/// about resets of streams.
///
/// # Errors
/// As `read_line`.
fn read_paired(alloc: Global, line: &[u8], with_options: bool) -> Result<Option<Placed>, LineError>
    ensures { MatchResult result (λ found. FindsPaired with_options line.now found) (λ error. RefusesPaired with_options line.now error) }
{
    if !with_options {
        return read_plain(alloc, line, true);
    }
    match read_limited_send(alloc, line) {
        Ok(Some(event)) => Ok(Some(Placed::Event(event))),
        Ok(None) => read_unlimited(alloc, line),
        Err(NoMemory) => Err(LineError::NoMemory),
    }
}

/// Reads a line, in a script with a line of options, that is neither one of options nor a `send` with a limit of retransmissions.
///
/// # Errors
/// As `read_line`.
fn read_unlimited(alloc: Global, line: &[u8]) -> Result<Option<Placed>, LineError>
    ensures { MatchResult result (λ found. FindsUnlimited line.now found) (λ error. RefusesUnlimited line.now error) }
{
    match read_further_line(line) {
        Ok(Some(event)) => Ok(Some(Placed::Event(event))),
        Ok(None) => read_plain(alloc, line, true),
        Err(fault) => Err(LineError::Fault(fault)),
    }
}

/// Reads a line that isn't one of options.
///
/// # Errors
/// As `read_line`.
fn read_plain(alloc: Global, line: &[u8], paired: bool) -> Result<Option<Placed>, LineError>
    ensures { MatchResult result (λ found. FindsPlain paired line.now found) (λ error. RefusesPlain paired line.now error) }
{
    match read_line(alloc, line, paired) {
        Ok(None) => Ok(None),
        Ok(Some(Acting::Pair(config))) => Ok(Some(Placed::Pair(config))),
        Ok(Some(Acting::Event(event))) => Ok(Some(Placed::Event(event))),
        Err(error) => Err(error),
    }
}
