//! The calls of MACs and cookies and their answers.

use crate::parts::bytes_of;
use anyhow::Result;
use sctp_cookie::{CookieBody, CookieFault, Key, Ports, hmac_sha256, open, seal};
use std::alloc::Global;
use std::fmt::Write;

/// The MAC of a text under a key.
pub fn mac(alloc: Global, key: &str, text: &str, out: &mut String) -> Result<()> {
    if let (Some(key), Some(text)) = (bytes_of(alloc, key)?, bytes_of(alloc, text)?) {
        write!(out, "{}", hex::encode(alloc, hmac_sha256(&key, &text))?)?;
    }
    Ok(())
}

/// The key of 32 bytes that these digits spell.
fn key_of(alloc: Global, digits: &str) -> Result<Option<Key>> {
    let Some(given) = bytes_of(alloc, digits)? else {
        return Ok(None);
    };
    let mut bytes = [0; 32];
    if given.len() != bytes.len() {
        return Ok(None);
    }
    for (byte, one) in bytes.iter_mut().zip(given.iter()) {
        *byte = *one;
    }
    Ok(Some(Key::new(bytes)))
}

/// The cookie of a body under a key.
pub fn sealed(alloc: Global, key: &str, body: &CookieBody, out: &mut String) -> Result<()> {
    if let Some(key) = key_of(alloc, key)? {
        write!(out, "{}", hex::encode(alloc, seal(&key, body))?)?;
    }
    Ok(())
}

/// Opens a cookie that arrives at a time, between ports, with a tag: its body, or why it isn't valid.
pub fn opened(
    alloc: Global,
    key: &str,
    cookie: &str,
    now: u64,
    ports: Ports,
    tag: u32,
    out: &mut String,
) -> Result<()> {
    let (Some(key), Some(bytes)) = (key_of(alloc, key)?, bytes_of(alloc, cookie)?) else {
        return Ok(());
    };
    show_opened(&open(&key, &bytes, now, ports, tag), out)
}

/// The body of a cookie, or why it isn't valid.
fn show_opened(opened: &Result<CookieBody, CookieFault>, out: &mut String) -> Result<()> {
    match opened {
        Ok(body) => show(body, out)?,
        Err(CookieFault::Form) => write!(out, "form")?,
        Err(CookieFault::Mac) => write!(out, "mac")?,
        Err(CookieFault::Ports) => write!(out, "ports")?,
        Err(CookieFault::Tag) => write!(out, "tag")?,
        Err(CookieFault::Stale(time)) => write!(out, "stale {time}")?,
    }
    Ok(())
}

/// The fields of a cookie, in the order of its layout.
fn show(body: &CookieBody, out: &mut String) -> Result<()> {
    let (listener, caller) = (body.listener_port, body.caller_port);
    write!(out, "{} {listener} {caller}", body.made)?;
    write!(out, " {} {}", body.listener_tag, body.caller_tag)?;
    write!(out, " {} {}", body.listener_tsn, body.caller_tsn)?;
    write!(out, " {} {}", body.caller_rwnd, body.streams_to_caller)?;
    let options = match (body.partial_reliability, body.interleaving) {
        (true, true) => "pr i-data",
        (true, false) => "pr -",
        (false, true) => "- i-data",
        (false, false) => "- -",
    };
    write!(out, " {} {options}", body.streams_from_caller)?;
    Ok(())
}
