//! What is reported to the peer in an ERROR: causes that are collected for the next one, as many as a packet holds (RFC 9260, 3.3.10). All memory is
//! allocated before anything changes.

ghost use Rattle.std.specs.Prelude.{◌≡◌, ℕ, ◌+◌, ◌<◌, ◌≤◌, ◌^◌, ◌∷◌, [], ◌++◌, List, length, true, vec_len, vec_capacity, IsOk, IfOk, OnOk, OnErr};
ghost use Rattle.sctp_model.specs.numbers.Numbers.{u16_bytes, AreBytes};
ghost use Rattle.sctp_model.specs.wire.Chunk.{padded};
ghost use Rattle.sctp_model.specs.wire.Typed.{Typed, WritesTyped, AreAsWritten, are_typed};
ghost use Rattle.sctp_model.specs.end.EndView.{EndView};
ghost use Rattle.sctp_model.specs.end.Reports.{item, causes_with, with_causes};
ghost use Rattle.sctp_model.specs.end.Acting.{unknown_item};
ghost use Rattle.sctp_association.specs.MachineStands.{MachineStands};

use crate::machine::Machine;
use crate::state::carried::WaitingCauses;
use sctp_opening::room_behind;
use sctp_terms::Config;
use sctp_values::NoMemory;
use sctp_wire::codes::{INVALID_STREAM, UNRECOGNIZED_CHUNK};
use sctp_wire::{padded, put_cause};
use std::alloc::Global;

/// The space of a short cause, in bytes: the padding before it, its code and length, and four bytes of value.
const SHORT_CAUSE: usize = 11;

impl WaitingCauses {
    ghost use Rattle.std.specs.Prelude.{◌≡◌, ◌+◌, ◌<◌, ◌≤◌, ◌∷◌, [], ◌++◌, length, true, vec_capacity, IsOk, OnOk, OnErr};
    ghost use Rattle.sctp_model.specs.wire.Chunk.{padded, Error};
    ghost use Rattle.sctp_model.specs.wire.Typed.{Typed, WritesTyped};
    ghost use Rattle.sctp_model.specs.end.EndView.{EndView};
    ghost use Rattle.sctp_model.specs.end.Reports.{item, written, fits_alone, causes_with};

    /// Makes space for one more short cause.
    ///
    /// # Errors
    /// `NoMemory` if an allocation was refused; nothing changed then.
    #[inline(always)]
    pub(crate) fn make_room(&mut self) -> Result<(), NoMemory>
        ensures same { self.new.bytes.items ≡ self.old.bytes.items }
        ensures room { OnOk result (length self.new.bytes.items + 11 ≤ vec_capacity self.new.bytes) }
    {
        if self.bytes.len() + SHORT_CAUSE <= self.bytes.capacity() {
            return Ok(());
        }
        self.grow()
    }

    /// The part of `make_room` that allocates, apart so that the test before it stays small.
    ///
    /// # Errors
    /// `NoMemory` if an allocation was refused; nothing changed then.
    #[inline(never)]
    fn grow(&mut self) -> Result<(), NoMemory>
        ensures same { self.new.bytes.items ≡ self.old.bytes.items }
        ensures room { OnOk result (length self.new.bytes.items + 11 ≤ vec_capacity self.new.bytes) }
    {
        self.bytes.reserve(SHORT_CAUSE).map_err(|_| NoMemory)
    }

    /// The ERROR still fits a packet with one more cause, whose value has `size` bytes.
    pub(crate) fn has_room(&self, config: &Config, size: usize) -> bool
        ensures exact { (e : EndView) (x : Typed) → e.configuration ≡ config.now → WritesTyped self.now.bytes.items e.due.causes → length x.value ≡ size
            → result ≡ fits_alone e (Error (written (e.due.causes ++ x ∷ []))) }
        ensures few { result ≡ true → padded (length self.now.bytes.items) + 4 + size < 1500 }
    {
        let room = room_behind(config, 4);
        let used = padded(self.bytes.len()) + 4;
        if used > room {
            return false;
        }
        size <= room - used
    }

    /// Adds a cause to the next ERROR, unless the ERROR would be longer than the packet limit.
    ///
    /// # Errors
    /// `NoMemory` if an allocation was refused; nothing changed then.
    pub(crate) fn report(
        &mut self,
        config: &Config,
        cause: u16,
        value: &[u8],
    ) -> Result<(), NoMemory>
        ensures step { (e : EndView) → e.configuration ≡ config.now → WritesTyped self.old.bytes.items e.due.causes
            → OnOk result (WritesTyped self.new.bytes.items (causes_with e (item cause value.now))) }
        ensures refused { OnErr result (self.new.bytes.items ≡ self.old.bytes.items) }
        // A short cause that has its space doesn't allocate.
        ensures memory { length value.now ≤ 4 → length self.old.bytes.items + 11 ≤ vec_capacity self.old.bytes → IsOk result }
    {
        if !self.has_room(config, value.len()) {
            return Ok(());
        }
        put_short(cause, value, &mut self.bytes)
    }
}

/// Appends a cause to causes that stay short enough for one chunk with it.
///
/// # Errors
/// `NoMemory` if an allocation was refused; the causes are then as before.
fn put_short(cause: u16, value: &[u8], causes: &mut Vec<u8>) -> Result<(), NoMemory>
    requires { padded (length causes.old.items) + 4 + length value.now < 1500 }
    ensures writes { (xs : List Typed) → WritesTyped causes.old.items xs → OnOk result (WritesTyped causes.new.items (xs ++ item cause value.now ∷ [])) }
    ensures listed { AreAsWritten causes.old.items → are_typed causes.new.items ≡ true }
    ensures plain { AreAsWritten causes.old.items → AreAsWritten causes.new.items }
    ensures short { 4 + length causes.new.items < 2 ^ 16 }
    ensures refused { OnErr result (causes.new.items ≡ causes.old.items) }
    ensures memory { padded (vec_len causes.old) + 4 + length value.now ≤ vec_capacity causes.old → IsOk result }
{
    are_bytes(causes);
    put_cause(cause, value, causes)
}

// law
/// Each element of a slice of bytes is below 256.
fn are_bytes(bytes: &[u8])
    ensures { AreBytes bytes.now }
{
    let _ = bytes;
}

#[tactic(auto, unfolding(crate::specs::MachineStands::MachineStands))]
impl Machine {
    /// Reports an invalid stream (RFC 9260, 3.3.10.1). There is space for the cause.
    #[inline(never)]
    pub(crate) fn report_stream(&mut self, stream: u16)
        requires { length self.old.due.causes.bytes.items + 11 ≤ vec_capacity self.old.due.causes.bytes }
        ensures { (v : EndView) → MachineStands self.old v → MachineStands self.new (with_causes (causes_with v (item INVALID_STREAM (u16_bytes stream ++ 0 ∷ 0 ∷ []))) v) }
    {
        let value = stream_value(stream);
        if self
            .due
            .causes
            .report(&self.config, INVALID_STREAM, &value)
            .is_err()
        {
            unreachable!()
        }
    }

    /// Reports a chunk of an unrecognized type, with header and value, if the ERROR with it fits a packet (RFC 9260, 3.2 and 3.3.10.6).
    ///
    /// # Errors
    /// `NoMemory` if an allocation was refused; nothing changed then.
    pub fn report_chunk(&mut self, kind: u8, flags: u8, value: &[u8]) -> Result<(), NoMemory>
        ensures step { (v : EndView) → MachineStands self.old v → OnOk result (MachineStands self.new (with_causes (causes_with v (unknown_item kind flags value.now)) v)) }
        ensures refused { (v : EndView) → MachineStands self.old v → OnErr result (MachineStands self.new v) }
    {
        if !self.due.causes.has_room(&self.config, 4 + value.len()) {
            return Ok(());
        }
        let chunk = chunk_bytes(self.alloc, kind, flags, value)?;
        self.due
            .causes
            .report(&self.config, UNRECOGNIZED_CHUNK, &chunk)
    }
}

/// The value of the cause Invalid Stream Identifier: the stream, and two reserved bytes (RFC 9260, 3.3.10.1).
#[tactic(auto, unfolding(sctp_model::specs::numbers::Numbers::u16_bytes))]
fn stream_value(stream: u16) -> [u8; 4]
    ensures { result ≡ u16_bytes stream ++ 0 ∷ 0 ∷ [] }
{
    [(stream / 256 % 256) as u8, (stream % 256) as u8, 0, 0]
}

/// The bytes of a chunk in a packet, without padding (RFC 9260, 3.2).
///
/// # Errors
/// `NoMemory` if an allocation was refused.
#[tactic(auto, unfolding(sctp_model::specs::numbers::Numbers::u16_bytes))]
fn chunk_bytes(alloc: Global, kind: u8, flags: u8, value: &[u8]) -> Result<Vec<u8>, NoMemory>
    requires { 4 + length value.now < 2 ^ 16 }
    ensures { IfOk result (λ bytes. bytes.items ≡ kind ∷ flags ∷ (u16_bytes (4 + length value.now) ++ value.now)) }
{
    let size = 4 + value.len();
    let mut bytes = Vec::new(alloc);
    bytes.reserve(size).map_err(|_| NoMemory)?;
    bytes
        .extend_from_slice(&[kind, flags, (size / 256 % 256) as u8, (size % 256) as u8])
        .map_err(|_| NoMemory)?;
    bytes.extend_from_slice(value).map_err(|_| NoMemory)?;
    Ok(bytes)
}
