//! How a side is made.

use crate::side::Side;
use crate::words::{Words, unreadable};
use anyhow::{Result, anyhow};
use sctp_channels::{Channels, DtlsRole};
use sctp_endpoint::{Config, ConfigFault, Draw, Endpoint, Key};
use std::alloc::Global;

/// What both sides know of each other: ports and random values, those of A before those of B.
const PORTS: [u16; 2] = [5_000, 5_001];
/// Verification tags.
const TAGS: [u32; 2] = [7, 8];
/// Initial TSNs, one shortly before the last.
const TSNS: [u32; 2] = [4_294_967_200, 1_000];

/// How an endpoint begins.
#[derive(Clone, Copy)]
enum Beginning {
    /// Established, without packets.
    Opened,
    Caller,
    Listener,
}

/// The random values of this side.
pub fn draw_of(is_a: bool) -> Result<Draw> {
    let (tag, tsn) = if is_a {
        (TAGS[0], TSNS[0])
    } else {
        (TAGS[1], TSNS[1])
    };
    Draw::new(tag, tsn).ok_or_else(|| anyhow!("the tag 0 is no tag"))
}

/// A new side: KIND LIMIT FRAGMENT BUFFER OUTBOUND INBOUND OPTION .., or the fault of its configuration.
pub fn make_side(
    alloc: Global,
    is_a: bool,
    words: &mut Words<'_>,
) -> Result<Result<Side, ConfigFault>> {
    let kind = words.word()?;
    let config = match config_of(is_a, words)? {
        Ok(config) => config,
        Err(fault) => return Ok(Err(fault)),
    };
    let (config, beginning) = with_options(config, words.rest())?;
    let endpoint = begun(alloc, is_a, config, beginning)?;
    Ok(Ok(over(alloc, kind, endpoint)?))
}

/// What is over the endpoint.
fn over(alloc: Global, kind: &str, endpoint: Endpoint) -> Result<Side> {
    match kind {
        "client" => Ok(Side::Channels(Channels::new(alloc, endpoint, DtlsRole::Client)?)),
        "server" => Ok(Side::Channels(Channels::new(alloc, endpoint, DtlsRole::Server)?)),
        _ => Ok(Side::Bare(endpoint)),
    }
}

/// The endpoint, as it begins.
fn begun(alloc: Global, is_a: bool, config: Config, beginning: Beginning) -> Result<Endpoint> {
    match beginning {
        Beginning::Opened => Ok(Endpoint::opened(alloc, config, draw_of(is_a)?, draw_of(!is_a)?)?),
        Beginning::Caller => Ok(Endpoint::caller(alloc, config)),
        Beginning::Listener => Ok(Endpoint::listener(alloc, config, Key::new([0; 32]))),
    }
}

/// LIMIT FRAGMENT BUFFER OUTBOUND INBOUND
fn config_of(is_a: bool, words: &mut Words<'_>) -> Result<Result<Config, ConfigFault>> {
    let limit = words.number()?;
    let fragment = words.number()?;
    let buffer = words.number()?;
    let outbound = words.number()?;
    let inbound = words.number()?;
    let (own, peer) = if is_a {
        (PORTS[0], PORTS[1])
    } else {
        (PORTS[1], PORTS[0])
    };
    Ok(Config::new(own, peer, limit, fragment, buffer, outbound, inbound))
}

/// The options of a configuration, and how its endpoint begins.
fn with_options(config: Config, options: &str) -> Result<(Config, Beginning)> {
    let mut config = config;
    let mut beginning = Beginning::Opened;
    for word in options.split(' ') {
        match word {
            "" => {}
            "caller" => beginning = Beginning::Caller,
            "listener" => beginning = Beginning::Listener,
            _ => config = with_option(config, word)?,
        }
    }
    Ok((config, beginning))
}

/// An option of a configuration.
fn with_option(config: Config, word: &str) -> Result<Config> {
    Ok(match word {
        "pr" => config.with_partial(),
        "i-data" => config.with_interleave(),
        "reset" => config.with_reset(),
        "delay" => config.with_delay(),
        "fast-retransmit" => config.with_fast_retransmit(),
        "congestion-control" => config.with_congestion_control(),
        _ => return Err(unreadable()),
    })
}
