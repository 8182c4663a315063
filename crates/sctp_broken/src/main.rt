//! Broken packets: every packet of three scripts, cut at every length, with every bit flipped, with every length and every type of its
//! chunk. The verdict on each is compared with a plain table of the rules, and the endpoint's state afterwards with its state before.
//!
//! It prints a line for each packet: how many were tried, their verdicts, how many differ from the table, and how many have changed an
//! endpoint that they may not change; those that differ are shown. The last line has the sums.
#![tactic(auto)]

mod acknowledging;
mod acts;
mod bases;
mod bench;
mod checksum;
mod ends;
mod reading;
mod scripts;
mod seen;
mod step;
mod taker;
mod tally;
mod told;
mod wanted;

use crate::bases::{Base, closing_packets, opened_packets};
use crate::bench::Bench;
use crate::checksum::Checksum;
use crate::tally::Tally;
use anyhow::Result;

fn main(rt: HostRuntime) -> Result<()> {
    let sums = Checksum::new();
    let mut sum = Tally::default();
    run_all(&rt, &closing_packets(), &sums, &mut sum)?;
    run_all(&rt, &opened_packets(), &sums, &mut sum)?;
    sum.write("all", &mut rt.stdout())?;
    Ok(())
}

/// Tries each of these packets, broken in every way.
fn run_all(rt: &HostRuntime, bases: &[Base], sums: &Checksum, sum: &mut Tally) -> Result<()> {
    for base in bases {
        let tally = run_one(rt, base, sums)?;
        sum.add(&tally);
    }
    Ok(())
}

/// Tries a packet, broken in every way.
fn run_one(rt: &HostRuntime, base: &Base, sums: &Checksum) -> Result<Tally> {
    let mut bench = Bench::new(rt.alloc(), base, sums, rt.stdout())?;
    bench.run()
}
