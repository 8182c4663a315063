//! Two endpoints as an event loop drives them: packets in, time, packets out, and the messages of their users.

use anyhow::{Result, anyhow};
use sctp_endpoint::{Config, Draw, Endpoint, Key, Verdict};
use std::alloc::Global;

/// The most packets that `exchange` passes on before it gives up.
const ROUNDS: u32 = 100;

/// A caller opens an association with a listener, sends `Hi` on stream 0 and closes it. Returns the bytes that the listener's user received,
/// and how the association ended for both.
pub fn talk(alloc: Global) -> Result<String> {
    let (of_caller, of_listener) = (config(5_000, 5_001)?, config(5_001, 5_000)?);
    let mut caller = Endpoint::caller(alloc, of_caller);
    let mut listener = Endpoint::listener(alloc, of_listener, Key::new([7; 32]));
    let told = say_hi(alloc, &mut caller, &mut listener);
    // Each place that drops an endpoint is proved: they are dropped here alone, and at no `?`.
    drop(caller);
    drop(listener);
    told
}

/// Opens the association, sends `Hi` and closes it, between these two endpoints.
fn say_hi(alloc: Global, caller: &mut Endpoint, listener: &mut Endpoint) -> Result<String> {
    // Use random numbers for tags and TSNs; these are examples.
    caller.connect(0, draw(7, 100)?)?;
    exchange(caller, listener, 0)?;
    let hi = Vec::from_slice(alloc, b"Hi")?;
    caller.send(0, true, 0, hi, None)?;
    exchange(caller, listener, 10)?;
    let bytes = taken(alloc, listener)?;
    caller.shutdown()?;
    exchange(caller, listener, 20)?;
    Ok(format!(in alloc;
        "{:?} was taken; {:?}, {:?}",
        bytes.as_slice(),
        caller.ended(),
        listener.ended()
    )?)
}

/// The configuration of an endpoint: its port and its peer's, packets of 1,500 bytes, fragments of 1,400, a buffer of 64 KiB, a stream each way.
fn config(own_port: u16, peer_port: u16) -> Result<Config> {
    Ok(Config::new(own_port, peer_port, 1_500, 1_400, 65_536, 1, 1)?)
}

/// The random values of an endpoint: a verification tag, not 0, and an initial TSN.
fn draw(tag: u32, tsn: u32) -> Result<Draw> {
    Draw::new(tag, tsn).ok_or_else(|| anyhow!("the tag 0 is no tag"))
}

/// Passes packets between the endpoints until neither has one to send, at one time in milliseconds. Between two such times a user sleeps until a
/// packet arrives, or until the earlier of the two `next_moment`s, and then calls `on_moment`.
fn exchange(caller: &mut Endpoint, listener: &mut Endpoint, now: u64) -> Result<()> {
    caller.on_moment(now);
    listener.on_moment(now);
    for _ in 0..ROUNDS {
        let went = carry(caller, listener, now)?;
        let came = carry(listener, caller, now)?;
        if !went && !came {
            break;
        }
    }
    Ok(())
}

/// Passes the next packet of `from` to `to`, and the answer back, if there is one; then returns the packet's buffer for reuse. False if there was
/// no packet.
fn carry(from: &mut Endpoint, to: &mut Endpoint, now: u64) -> Result<bool> {
    let Some(sent) = from.poll_transmit(now)? else {
        return Ok(false);
    };
    match to.handle_packet(now, &sent.packet, draw(9, 500)?)? {
        Verdict::Answer(reply) => {
            from.handle_packet(now, &reply, draw(11, 700)?)?;
        }
        Verdict::Taken | Verdict::Dropped(_) => {}
    }
    from.recycle(sent.packet);
    Ok(true)
}

/// Takes the message that waits on stream 0, if there is one, copies its bytes and returns its buffers for reuse.
fn taken(alloc: Global, end: &mut Endpoint) -> Result<Vec<u8>> {
    let mut bytes = Vec::new(alloc);
    if let Some(message) = end.take(0) {
        message.copy_to(&mut bytes)?;
        end.give_back(message);
    }
    Ok(bytes)
}
