//! Counts of packets by their verdicts.

use crate::told::Told;
use std::io::{Result, Write};

/// Counts of packets.
#[derive(Clone, Copy, Default)]
pub struct Tally {
    tried: u32,
    taken: u32,
    answered: u32,
    /// By reason, 1 to 5.
    dropped: [u32; 5],
    /// How many verdicts differ from the rules', and after how many packets without effect the endpoint's snapshot had changed.
    differing: u32,
    changed: u32,
}

impl Tally {
    /// Counts a verdict.
    pub fn count(&mut self, told: Told) {
        add(&mut self.tried, 1);
        match told {
            Told::Taken => add(&mut self.taken, 1),
            Told::Answered => add(&mut self.answered, 1),
            Told::Dropped(reason) => self.count_dropped(reason),
        }
    }

    /// Counts a packet that was dropped for this reason.
    fn count_dropped(&mut self, reason: u8) {
        let place = usize::from(reason.saturating_sub(1));
        if let Some(count) = self.dropped.get_mut(place) {
            add(count, 1);
        }
    }

    /// Counts a packet whose verdict differs from the rules'. Returns the count.
    pub fn differs(&mut self) -> u32 {
        add(&mut self.differing, 1);
        self.differing
    }

    /// Counts a packet that has changed an endpoint and shouldn't have. Returns the count.
    pub fn changes(&mut self) -> u32 {
        add(&mut self.changed, 1);
        self.changed
    }

    /// Adds the counts of another one.
    pub fn add(&mut self, other: &Tally) {
        add(&mut self.tried, other.tried);
        add(&mut self.taken, other.taken);
        add(&mut self.answered, other.answered);
        for (count, more) in self.dropped.iter_mut().zip(other.dropped) {
            add(count, more);
        }
        add(&mut self.differing, other.differing);
        add(&mut self.changed, other.changed);
    }

    /// Writes the counts after this name.
    pub fn write<W: Write>(&self, name: &str, out: &mut W) -> Result<()> {
        write!(out, "{name}")?;
        for (before, count) in self.counts() {
            write!(out, "{before}{count}")?;
        }
        writeln!(out, " changed")
    }

    /// Each count, and the words before it.
    fn counts(&self) -> [(&'static str, u32); 10] {
        let [fault, ports, tag, state, cookie] = self.dropped;
        [
            (": ", self.tried),
            (" tried; dropped: ", fault),
            (" fault, ", ports),
            (" ports, ", tag),
            (" tag, ", state),
            (" state, ", cookie),
            (" cookie; ", self.answered),
            (" answered, ", self.taken),
            (" taken; ", self.differing),
            (" differ, ", self.changed),
        ]
    }
}

/// Adds to a count.
fn add(count: &mut u32, more: u32) {
    *count = count.saturating_add(more);
}
