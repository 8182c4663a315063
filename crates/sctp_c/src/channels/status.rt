//! The status of an association with channels, and what was counted.

ghost use Rattle.std.specs.Prelude.{◌≡◌, None};
ghost use Rattle.sctp_model.specs.end.EndView.{EndView};
ghost use Rattle.sctp_channels.specs.Streams.{Table};
ghost use Rattle.sctp_c.specs.Status.{IsStatus, IsWithin};
ghost use Rattle.sctp_c.specs.Path.{IsPath};
ghost use Rattle.sctp_c.specs.Counts.{IsCounts};
ghost use Rattle.sctp_c.specs.channels.Holds.{HoldsChannels, counted_of};

use crate::channels::handle::SctpChannels;
use crate::codes::{MISUSE, OK};
use crate::counts::{SctpCounts, counts_of};
use crate::path::{SctpPath, path_of};
use crate::status::{SctpStatus, status_of};

/// Writes the status of the endpoint below the channels.
#[unsafe(no_mangle)]
pub extern "C" fn sctp_channels_status(channels: &mut SctpChannels, status: &mut SctpStatus) -> u32
    ensures misuse { channels.old.slot.held ≡ None → result ≡ MISUSE }
    ensures untold { ((result ≡ OK) → ⊥) → status.new ≡ status.old }
    ensures answer { (v : EndView) (x : Table) → HoldsChannels channels.old.slot.held v x → (result ≡ OK) × IsStatus status.new v }
    ensures within { (v : EndView) (x : Table) → HoldsChannels channels.old.slot.held v x → IsWithin status.new v }
    ensures kept { channels.new.slot.held ≡ channels.old.slot.held }
{
    if !channels.is_full() {
        return MISUSE;
    }
    let held = channels.slot.lend();
    *status = status_of(held.channels.endpoint());
    OK
}

/// Writes what the endpoint below the channels knows of the path to its peer.
#[unsafe(no_mangle)]
pub extern "C" fn sctp_channels_path(channels: &mut SctpChannels, path: &mut SctpPath) -> u32
    ensures misuse { channels.old.slot.held ≡ None → result ≡ MISUSE }
    ensures untold { ((result ≡ OK) → ⊥) → path.new ≡ path.old }
    ensures answer { (v : EndView) (x : Table) → HoldsChannels channels.old.slot.held v x → (result ≡ OK) × IsPath path.new v }
    ensures kept { channels.new.slot.held ≡ channels.old.slot.held }
{
    if !channels.is_full() {
        return MISUSE;
    }
    let held = channels.slot.lend();
    *path = path_of(held.channels.endpoint());
    OK
}

/// Writes what the endpoint below the channels counted from its start on.
#[unsafe(no_mangle)]
pub extern "C" fn sctp_channels_counts(channels: &mut SctpChannels, counts: &mut SctpCounts) -> u32
    ensures misuse { channels.old.slot.held ≡ None → result ≡ MISUSE }
    ensures untold { ((result ≡ OK) → ⊥) → counts.new ≡ counts.old }
    ensures answer { (v : EndView) (x : Table) → HoldsChannels channels.old.slot.held v x
        → (result ≡ OK) × IsCounts counts.new v (counted_of channels.old.slot.held) }
    ensures kept { channels.new.slot.held ≡ channels.old.slot.held }
{
    if !channels.is_full() {
        return MISUSE;
    }
    let held = channels.slot.lend();
    *counts = counts_of(held.channels.endpoint());
    OK
}
