//! Memory for the runs of a SACK: it is allocated with that for the first entry, so that a sender that had no message has none and a SACK allocates
//! nothing.

ghost use Rattle.std.specs.Prelude.{◌≡◌};

use crate::kept::entry::{CoveredRun, RUNS};
use crate::kept::outstanding::Outstanding;
use sctp_values::NoMemory;
use std::mem;

impl Outstanding {
    /// Room for the runs of SACKs to come, where there is none for entries yet.
    ///
    /// # Errors
    /// `NoMemory`.
    pub(crate) fn reserve_runs(&mut self) -> Result<(), NoMemory>
        ensures { self.new ≡ self.old }
    {
        if self.room > 0 {
            return Ok(());
        }
        self.covered.reserve(RUNS).map_err(|_| NoMemory)?;
        self.spare.reserve(RUNS).map_err(|_| NoMemory)
    }

    /// The room goes to two lists that have none.
    pub(crate) fn lend_runs(&mut self, covered: &mut Vec<CoveredRun>, spare: &mut Vec<CoveredRun>)
        ensures same { self.new ≡ self.old }
        ensures covered { covered.new.items ≡ covered.old.items }
    {
        if covered.is_empty() && covered.capacity() == 0 {
            self.covered.clear();
            mem::swap(&mut self.covered, covered);
            mem::swap(&mut self.spare, spare);
        }
    }
}
