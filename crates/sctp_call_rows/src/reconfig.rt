//! Requests to reset streams and their responses: shown, and carried between a sender and a receiver (RFC 6525, 4.1 and 4.4).

use crate::shown::show_bytes;
use anyhow::Result;
use sctp_framing::Framing;
use sctp_reconfig::{MOST_STREAMS, OwnReset, Parameter, put_reset, put_response, read_parameters};
use sctp_recv::Receiver;
use sctp_send::Sender;
use sctp_values::GREATEST_PACKET;
use std::alloc::Global;
use std::fmt::Write;

/// The most streams shown of a request.
const SHOWN_STREAMS: usize = 8;

/// The request that waits for its response, or none; of many streams the first ones.
pub fn show_request<F: Framing>(sender: &Sender<F>, out: &mut String) -> Result<()> {
    let Some(request) = sender.request() else {
        return Ok(write!(out, "none")?);
    };
    write!(out, "request {} {}", request.number, request.last)?;
    for stream in request.streams.iter().take(SHOWN_STREAMS) {
        write!(out, " {stream}")?;
    }
    if request.streams.len() > SHOWN_STREAMS {
        write!(out, " ..{}", request.streams.len())?;
    }
    Ok(())
}

/// The responses that wait for a packet, or none.
pub fn show_responses<F: Framing>(receiver: &Receiver<F>, out: &mut String) -> Result<()> {
    let mut gap = "";
    for response in receiver.answers() {
        write!(out, "{gap}{}:{}", response.number, response.result.code())?;
        gap = " ";
    }
    if receiver.answers().is_empty() {
        write!(out, "none")?;
    }
    Ok(())
}

/// The value of a RE-CONFIG arrives at a receiver; its responses are for packets of a limit.
pub fn reconfig<F: Framing>(
    receiver: &mut Receiver<F>,
    limit: u16,
    value: &[u8],
    out: &mut String,
) -> Result<()> {
    let Some(parameters) = read_parameters(value) else {
        return Ok(write!(out, "no list")?);
    };
    receiver.on_requests(limit, parameters)?;
    show_responses(receiver, out)
}

/// The sender's request arrives at the receiver.
pub fn carry_request<F: Framing>(
    alloc: Global,
    sender: &Sender<F>,
    receiver: &mut Receiver<F>,
    out: &mut String,
) -> Result<()> {
    let mut value = Vec::new(alloc);
    match sender.request() {
        Some(request) if request.streams.len() <= MOST_STREAMS => {
            let own = OwnReset {
                number: request.number,
                last: request.last,
                streams: request.streams,
            };
            put_reset(&mut value, 0, &own)?;
        }
        _ => return Ok(write!(out, "nothing")?),
    }
    show_bytes(alloc, &value, out)?;
    write!(out, " ")?;
    reconfig(receiver, GREATEST_PACKET, &value, out)
}

/// The receiver's responses are sent, and arrive at the sender.
pub fn carry_responses<F: Framing>(
    alloc: Global,
    sender: &mut Sender<F>,
    receiver: &mut Receiver<F>,
    out: &mut String,
) -> Result<()> {
    let mut value = Vec::new(alloc);
    for response in receiver.answers() {
        put_response(&mut value, response.number, response.result)?;
    }
    if value.is_empty() {
        return Ok(write!(out, "nothing")?);
    }
    receiver.answers_sent();
    show_bytes(alloc, &value, out)?;
    write!(out, " ")?;
    on_responses(sender, &value);
    show_request(sender, out)
}

/// The responses in the value of a RE-CONFIG arrive at a sender.
fn on_responses<F: Framing>(sender: &mut Sender<F>, value: &[u8]) {
    let Some(parameters) = read_parameters(value) else {
        return;
    };
    for parameter in parameters {
        if let Parameter::Response { number, code } = parameter {
            sender.on_response(number, code);
        }
    }
}
