//! The libraries in use: two endpoints that exchange a message, chunks read and written again, items of lists, a pair under a script's events,
//! a cookie sealed and opened.
#![tactic(auto)]

mod lists;
mod talk;

use anyhow::Result;
use sctp_cookie::{CookieBody, Key, Ports, open, seal};
use sctp_trace::{Event, Mode, Pair, PairConfig, Side};
use sctp_wire::{read_chunks, write_chunk};
use std::alloc::Global;
use talk::talk;

/// A DATA chunk with TSN 1, the message `Hi` on stream 0, and its padding.
const HI: [u8; 20] = [
    0, 3, 0, 18, 0, 0, 0, 1, 0, 0, 0, 0, 0, 0, 0, 0, 0x48, 0x69, 0, 0,
];

fn main(rt: HostRuntime) -> Result<()> {
    println!(rt; "{}", talk(rt.alloc())?.as_str())?;
    let copy = copied(rt.alloc(), &HI)?;
    println!(rt;
        "read and written again: {}",
        copy.as_slice() == HI.as_slice()
    )?;
    println!(rt;
        "items are written one by one: {}",
        lists::are_written(rt.alloc())?
    )?;
    println!(rt; "{}", built(rt.alloc())?.as_str())?;
    println!(rt; "the cookie opens: {}", opens())?;
    Ok(())
}

/// Reads the chunks of these bytes and writes them again, one after another.
fn copied(alloc: Global, bytes: &[u8]) -> Result<Vec<u8>> {
    let mut out = Vec::new(alloc);
    // An iterator over borrowed chunks, or the first fault with its offset.
    for chunk in read_chunks(bytes)? {
        if chunk.fits() {
            write_chunk(&chunk, &mut out)?;
        }
    }
    Ok(out)
}

/// Asks two endpoints without an association for a packet.
fn built(alloc: Global) -> Result<String> {
    let config = PairConfig::new(1_500, 1_400, 65_536, 1, Mode::Data)?;
    let mut pair = Pair::new(alloc, config)?;
    let told = both_build(alloc, &mut pair);
    drop(pair);
    told
}

/// Asks both endpoints of a pair for a packet, A first.
fn both_build(alloc: Global, pair: &mut Pair) -> Result<String> {
    let first = Event::Build { side: Side::A };
    let outcomes = pair.run(&[first, Event::Build { side: Side::B }])?;
    Ok(format!(in alloc; "{:?}", outcomes.as_slice())?)
}

/// Whether a cookie is valid one second after it was made.
fn opens() -> bool {
    let key = Key::new([7; 32]);
    let body = CookieBody {
        made: 5_000,
        listener_port: 5_001,
        caller_port: 5_000,
        listener_tag: 9,
        caller_tag: 7,
        listener_tsn: 500,
        caller_tsn: 100,
        caller_rwnd: 65_536,
        streams_to_caller: 1,
        streams_from_caller: 1,
        partial_reliability: false,
        interleaving: false,
    };
    let ports = Ports {
        listener: 5_001,
        caller: 5_000,
    };
    open(&key, &seal(&key, &body), 6_000, ports, 9) == Ok(body)
}
