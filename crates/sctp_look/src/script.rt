//! Reads a script line by line and makes each line's event before the next line is read.

ghost use Rattle.std.specs.Prelude.{◌≡◌, true, ◌-◌, ◌^◌, ◌<◌, ◌≤◌, IfOk, OnOk};
ghost use Rattle.sctp_text.specs.declared.limits.TheConstants.{LONGEST_TEXT};

use crate::fault::LookFault;
use crate::recording::Recording;
use sctp_pair::TwoConfigs;
use sctp_script::{Place, Placed, Preamble, read_line_at};
use sctp_text::{LineReader, NextLine, ReadFault, Source};
use sctp_words::{LineError, LineFault};
use std::alloc::Global;

/// The state of reading a script: the recorded pair, once there is one, what was said of its endpoints, and the number of the
/// next line.
#[derive(Drop)]
pub(crate) struct Reading {
    alloc: Global,
    lines: LineReader,
    run: Option<Recording>,
    preamble: Preamble,
    number: u64,
}

impl Reading {
    /// Before the first line.
    pub(crate) fn new(alloc: Global) -> Reading {
        Reading {
            alloc,
            lines: LineReader::new(alloc),
            run: None,
            preamble: Preamble::default(),
            number: 1,
        }
    }

    /// The recording, if there is a pair.
    pub(crate) fn run(&self) -> Option<&Recording> {
        self.run.as_ref()
    }

    /// Reads all lines.
    ///
    /// # Errors
    /// `Line` at the first line with a fault: the lines before it have taken effect. A script in which no line acts has one at line 1. `Read`
    /// if a call of the reader failed, `NoMemory` if an allocation did.
    pub(crate) fn read<R: Source>(&mut self, input: &mut R) -> Result<(), LookFault>
        requires { R.failures input.old < 2 ^ 64 - 1 }
    {
        for _ in 0..u64::MAX {
            if !self.read_next(input)? {
                break;
            }
        }
        match self.run {
            Some(_) => Ok(()),
            None => Err(LookFault::Line(1, LineFault::PairOrder)),
        }
    }

    /// Reads the next line and makes its event. Returns whether the input may go on.
    fn read_next<R: Source>(&mut self, input: &mut R) -> Result<bool, LookFault>
        requires { R.failures input.old < 2 ^ 64 - 1 }
        ensures well { OnOk result (R.failures input.new ≡ R.failures input.old) }
    {
        match self.lines.next_line(input) {
            Ok(NextLine::Ended(line)) => {
                self.happen(&line)?;
                self.number = self.number.saturating_add(1);
                Ok(true)
            }
            Ok(NextLine::Last(line)) => {
                self.happen(&line)?;
                Ok(false)
            }
            Ok(NextLine::TooLong) => Err(LookFault::Line(self.number, LineFault::TooLong)),
            Ok(NextLine::End) => Ok(false),
            Err(ReadFault::Failed) => Err(LookFault::Read),
            Err(ReadFault::NoMemory) => Err(LookFault::NoMemory),
        }
    }

    /// Shows the first states of both endpoints, if there is a pair.
    fn begin(&mut self) -> Result<(), LookFault> {
        if let Some(run) = &mut self.run {
            run.begin()?;
        }
        Ok(())
    }

    /// Makes the event of a line.
    fn happen(&mut self, line: &[u8]) -> Result<(), LookFault> {
        let place = Place::of(self.run.is_some(), self.preamble);
        match read_line_at(self.alloc, line, place) {
            Ok(None) => Ok(()),
            Ok(Some(Placed::Pair(config))) => self.set_up(&TwoConfigs::alike(config), false),
            Ok(Some(Placed::Options(configs))) => self.set_up(&configs, true),
            Ok(Some(Placed::Event(event))) => {
                self.preamble.fresh = None;
                match &mut self.run {
                    Some(run) => {
                        run.record(&event)?;
                        Ok(())
                    }
                    None => Ok(()),
                }
            }
            Err(LineError::Fault(fault)) => Err(LookFault::Line(self.number, fault)),
            Err(LineError::NoMemory) => Err(LookFault::NoMemory),
        }
    }

    /// Makes the pair with these configurations, in place of the one that is there.
    fn set_up(&mut self, configs: &TwoConfigs, with_options: bool) -> Result<(), LookFault> {
        let run = Recording::new(self.alloc, *configs)?;
        drop(self.run.replace(run));
        self.preamble = Preamble {
            fresh: Some(*configs),
            with_options,
        };
        self.begin()
    }
}
