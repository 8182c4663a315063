//! The numbers of streams begin anew (RFC 6525, 5.2.2).

ghost use Rattle.std.specs.Prelude.{◌≡◌, ◌<◌, ◌≤◌, ◌^◌, ◌*◌, ℕ, Bool, true, List, length, map, vec_capacity};
ghost use Rattle.sctp_model.specs.receiver.ReceiverView.{ReceiverView};
ghost use Rattle.sctp_model.specs.receiver.ResetTaken.{names};
ghost use Rattle.sctp_recv.specs.Fields.{stream_of};
ghost use Rattle.sctp_recv.specs.Resets.{resets_of, AreAll};
ghost use Rattle.sctp_recv.specs.inner.Bits.{bit_in};
ghost use Rattle.sctp_recv.specs.inner.Restarting.{told_by, AreRestarted};
ghost use Rattle.sctp_recv.specs.inner.Requesting.{is_same, AreLow};

use crate::ready::Ready;
use crate::resets::Resets;
use crate::stream::Stream;
use sctp_framing::Framing;
use sctp_reconfig::Streams;

/// That a stream was reset is to be reported, unless it was by the same request before.
fn report(told: &mut Ready, stream: u16, again: bool)
    ensures size { length told.new.words.items ≡ length told.old.words.items }
    ensures here { stream < length told.old.words.items * 64 → bit_in told.new.words.items stream ≡ told_by again (bit_in told.old.words.items stream) }
    ensures others { (q : ℕ) → (q ≡ stream → ⊥) → bit_in told.new.words.items q ≡ bit_in told.old.words.items q }
{
    if !again {
        told.mark(stream, true);
    }
}

/// The numbers of a stream begin anew, and that is to be reported, unless they did by the same request before.
fn restart_on<F: Framing>(resets: &mut Resets, streams: &Vec<Stream<F>>, stream: u16, again: bool)
    ensures restarts { AreAll (length streams.now.items) (resets_of resets.old) → stream < length streams.now.items
        → AreRestarted again (map stream_of streams.now.items) (is_same stream) (resets_of resets.old) (resets_of resets.new) }
    ensures answers { resets.new.answers ≡ resets.old.answers }
    ensures named { resets.new.named ≡ resets.old.named }
{
    let at = usize::from(stream);
    if at < streams.len() && at < resets.streams.len() {
        resets.streams[at] = resets.streams[at].renumbered(streams[at].restart(), again);
        report(&mut resets.told, stream, again);
    }
}

/// The numbers of all streams begin anew.
fn restart_all<F: Framing>(resets: &mut Resets, streams: &Vec<Stream<F>>, again: bool)
    ensures restarts { AreAll (length streams.now.items) (resets_of resets.old) → length streams.now.items < 2 ^ 16
        → AreRestarted again (map stream_of streams.now.items) (λ s. true) (resets_of resets.old) (resets_of resets.new) }
    ensures answers { resets.new.answers ≡ resets.old.answers }
    ensures named { resets.new.named ≡ resets.old.named }
{
    let count = u16::try_from(streams.len()).unwrap_or(u16::MAX);
    for stream in 0..count {
        restart_on(resets, streams, stream, again);
    }
}

/// The numbers of the streams that a request lists begin anew, of all if it lists none. If the request was performed before, nothing is to be reported.
pub(crate) fn restart_named<F: Framing>(
    resets: &mut Resets,
    streams: &Vec<Stream<F>>,
    named: &Streams<'_>,
    again: bool,
)
    ensures restarts { (v : ReceiverView) → AreAll (length streams.now.items) (resets_of resets.old) → length streams.now.items < 2 ^ 16 → AreLow (length streams.now.items) named.now
        → AreRestarted again (map stream_of streams.now.items) (names v named.now) (resets_of resets.old) (resets_of resets.new) }
    ensures answers { resets.new.answers ≡ resets.old.answers }
    ensures named { resets.new.named ≡ resets.old.named }
{
    if named.is_empty() {
        restart_all(resets, streams, again);
        return;
    }
    for stream in named.iter() {
        restart_on(resets, streams, stream, again);
    }
}
