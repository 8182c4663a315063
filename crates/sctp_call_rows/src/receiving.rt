//! The calls of a receiver and their answers.

use crate::shown::show_start;
use anyhow::Result;
use sctp_framing::Framing;
use sctp_packet::{crc32c, read_packet};
use sctp_recv::{Answer, ForwardAnswer, Message, Receiver};
use sctp_values::WINDOW;
use sctp_wire::{Chunk, Forward, Piece, SkipForm, Skips};
use std::alloc::Global;
use std::fmt::Write;

/// A DATA or I-DATA chunk arrives.
pub fn data<F: Framing>(
    receiver: &mut Receiver<F>,
    tsn: u32,
    stream: u16,
    flags: &str,
    number: u32,
    word: u32,
    bytes: &[u8],
    out: &mut String,
) -> Result<()> {
    let answer = receiver.on_data(&Piece {
        immediate: flags.contains('I'),
        unordered: flags.contains('U'),
        begin: flags.contains('B'),
        end: flags.contains('E'),
        tsn,
        stream,
        number,
        word,
        bytes,
    })?;
    Ok(write!(out, "{}", data_answer(answer))?)
}

/// The answer to a DATA or I-DATA chunk.
fn data_answer(answer: Answer) -> &'static str {
    match answer {
        Answer::Duplicate => "duplicate",
        Answer::Ahead => "ahead",
        Answer::NoSuchStream => "no such stream",
        Answer::Passed => "passed",
        Answer::NoRoom => "no room",
        Answer::Taken => "taken",
    }
}

/// A number of whole ordered messages of one byte arrive, their TSNs rising by a step and their numbers by one; under DATA a number has 16
/// bits.
pub fn rise<F: Framing>(
    receiver: &mut Receiver<F>,
    count: u32,
    tsn: u32,
    step: u32,
    stream: u16,
    number: u32,
    out: &mut String,
) -> Result<()> {
    let mask = match F::skip_form() {
        SkipForm::Narrow => 0xffff,
        SkipForm::Wide => 0xffff_ffff,
    };
    let mut taken = 0u32;
    for k in 0..count {
        let answer = receiver.on_data(&Piece {
            immediate: false,
            unordered: false,
            begin: true,
            end: true,
            tsn: tsn.wrapping_add(k.wrapping_mul(step)),
            stream,
            number: number.wrapping_add(k) & mask,
            word: 0,
            bytes: b"a",
        })?;
        if answer == Answer::Taken {
            taken = taken.saturating_add(1);
        }
    }
    Ok(write!(out, "taken {taken}")?)
}

/// A number of FORWARDs without entries arrive, the first up to this TSN and each other one 32,767 further.
pub fn leap<F: Framing>(
    receiver: &mut Receiver<F>,
    count: u32,
    tsn: u32,
    out: &mut String,
) -> Result<()> {
    let mut moved = 0u32;
    for k in 0..count {
        let answer = receiver.on_forward(&Forward {
            cumulative: tsn.wrapping_add(k.wrapping_mul(WINDOW)),
            skips: Skips::new(F::skip_form(), &[]),
        })?;
        if answer == ForwardAnswer::Moved {
            moved = moved.saturating_add(1);
        }
    }
    Ok(write!(out, "moved {moved}")?)
}

/// A FORWARD with these entries arrives.
pub fn skip<F: Framing>(
    receiver: &mut Receiver<F>,
    cumulative: u32,
    skips: &[u8],
    out: &mut String,
) -> Result<()> {
    let form = F::skip_form();
    if skips.len() % form.size() == 0 {
        let answer = receiver.on_forward(&Forward {
            cumulative,
            skips: Skips::new(form, skips),
        })?;
        write!(out, "{}", forward_answer(answer))?;
    }
    Ok(())
}

/// The answer to a FORWARD.
fn forward_answer(answer: ForwardAnswer) -> &'static str {
    match answer {
        ForwardAnswer::OutOfDate => "out of date",
        ForwardAnswer::Bad => "bad",
        ForwardAnswer::Moved => "moved",
    }
}

/// The answers to a packet's chunks; equal ones in a row are shown once.
#[derive(Drop)]
struct Answers {
    last: &'static str,
    times: usize,
}

impl Answers {
    /// Takes the next answer, and shows the one before it if they differ.
    fn next(&mut self, answer: &'static str, out: &mut String) -> Result<()> {
        if self.times > 0 && self.last != answer {
            self.tell(out)?;
            write!(out, ", ")?;
            self.times = 0;
        }
        self.last = answer;
        self.times = self.times.saturating_add(1);
        Ok(())
    }

    /// Shows the last answer.
    fn tell(&self, out: &mut String) -> Result<()> {
        write!(out, "{}", self.last)?;
        if self.times > 1 {
            write!(out, " x{}", self.times)?;
        }
        Ok(())
    }
}

/// A packet arrives.
pub fn carry<F: Framing>(
    receiver: &mut Receiver<F>,
    packet: Option<&[u8]>,
    out: &mut String,
) -> Result<()> {
    let Some(packet) = packet else {
        return Ok(write!(out, "nothing")?);
    };
    let mut answers = Answers { last: "", times: 0 };
    for chunk in read_packet(packet)?.chunks {
        let answer = match chunk {
            Chunk::Data(piece) | Chunk::IData(piece) => data_answer(receiver.on_data(&piece)?),
            Chunk::ForwardTsn(forward) | Chunk::IForwardTsn(forward) => {
                forward_answer(receiver.on_forward(&forward)?)
            }
            _ => "another chunk",
        };
        answers.next(answer, out)?;
    }
    answers.tell(out)
}

/// The message taken, or none.
pub fn taken(alloc: Global, message: Option<Message>, out: &mut String) -> Result<()> {
    match message {
        Some(message) => {
            let shown = show_message(alloc, &message, out);
            drop(message);
            shown
        }
        None => Ok(write!(out, "nothing")?),
    }
}

/// A stream with a message, or none.
pub fn readable(stream: Option<u16>, out: &mut String) -> Result<()> {
    match stream {
        Some(stream) => Ok(write!(out, "stream {stream}")?),
        None => Ok(write!(out, "nothing")?),
    }
}

/// A message's fields, and its bytes.
fn show_message(alloc: Global, message: &Message, out: &mut String) -> Result<()> {
    let kind = if message.ordered { 'o' } else { 'u' };
    write!(out, "stream {} {kind} number ", message.stream)?;
    match message.number {
        Some(number) => write!(out, "{number}")?,
        None => write!(out, "-")?,
    }
    write!(out, " payload {}", message.payload_id)?;
    write!(
        out,
        " parts {} size {}: ",
        message.parts().len(),
        message.len()
    )?;
    let mut bytes = Vec::new(alloc);
    message.copy_to(&mut bytes)?;
    show_start(alloc, &bytes, out)?;
    Ok(write!(out, " {:08x}", crc32c(&bytes))?)
}

/// The receiver gives memory back that it doesn't use.
pub fn trim<F: Framing>(receiver: &mut Receiver<F>, out: &mut String) -> Result<()> {
    receiver.trim();
    Ok(write!(out, "ok")?)
}

/// The readers of a receiver.
pub fn receiving<F: Framing>(receiver: &Receiver<F>, out: &mut String) -> Result<()> {
    write!(out, "cumulative {}", receiver.cumulative())?;
    write!(
        out,
        " held {} runs {}",
        receiver.held_bytes(),
        receiver.run_count()
    )?;
    Ok(())
}
