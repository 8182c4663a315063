//! The lines of faults.

ghost use Rattle.std.specs.Prelude.{◌≡◌, ◌++◌, OnOk, OnErr};
ghost use Rattle.sctp_wire.specs.FaultTree.{offset_of};
ghost use Rattle.sctp_print.specs.PrintedText.{fault_number, wire_fault_line, packet_fault_line, hex_fault_line};

use sctp_packet::PacketFault;
use sctp_text::{Word, put_line};
use sctp_wire::WireFault;
use std::alloc::AllocError;

/// Appends the line of a packet's fault.
///
/// # Errors
/// `AllocError` if `out` can't grow; it is unchanged then.
pub(crate) fn put_packet_fault(fault: PacketFault, out: &mut Vec<u8>) -> Result<(), AllocError>
    ensures put { OnOk result (out.new.items ≡ out.old.items ++ packet_fault_line fault) }
    ensures refused { OnErr result (out.new.items ≡ out.old.items) }
{
    match fault {
        PacketFault::Short => put_line(b"fault", &[Word::Text(b"1")], &[], out),
        PacketFault::Checksum => put_line(b"fault", &[Word::Text(b"2")], &[], out),
        PacketFault::NoChunk => put_line(b"fault", &[Word::Text(b"4")], &[], out),
        PacketFault::Wire(fault) => put_wire_fault(fault, out),
    }
}

/// Appends the line of a fault of chunks.
///
/// # Errors
/// `AllocError` if `out` can't grow; it is unchanged then.
pub(crate) fn put_wire_fault(fault: WireFault, out: &mut Vec<u8>) -> Result<(), AllocError>
    ensures put { OnOk result (out.new.items ≡ out.old.items ++ wire_fault_line fault) }
    ensures refused { OnErr result (out.new.items ≡ out.old.items) }
{
    let (number, offset) = parts_of(fault);
    let words = [
        Word::Text(b"3"),
        Word::Number(number),
        Word::Text(b"at"),
        Word::Number(offset as u64),
    ];
    put_line(b"fault", &words, &[], out)
}

/// The fault's number, and the offset of its chunk.
fn parts_of(fault: WireFault) -> (u64, usize)
    ensures number { result.0 ≡ fault_number fault }
    ensures offset { result.1 ≡ offset_of fault }
{
    match fault {
        WireFault::Cut { offset } => (1, offset),
        WireFault::LengthTooSmall { offset } => (2, offset),
        WireFault::PaddingMissing { offset } => (3, offset),
        WireFault::ChunkBody { offset } => (4, offset),
        WireFault::ParameterLength { offset } => (5, offset),
        WireFault::NotAlone { offset } => (6, offset),
    }
}

/// Appends the line of text that doesn't spell bytes.
///
/// # Errors
/// `AllocError` if `out` can't grow; it is unchanged then.
pub(crate) fn put_hex_fault(out: &mut Vec<u8>) -> Result<(), AllocError>
    ensures put { OnOk result (out.new.items ≡ out.old.items ++ hex_fault_line) }
    ensures refused { OnErr result (out.new.items ≡ out.old.items) }
{
    put_line(b"fault", &[Word::Text(b"hex")], &[], out)
}
