//! Handling a FORWARD-TSN or I-FORWARD-TSN (a FORWARD): its sender skips all that is missing up to a TSN, and names the messages skipped
//! (RFC 3758, 3.6; RFC 8260, 2.3). Its entries are sorted by stream; the streams that it may change are found (`touched_by`); memory is reserved
//! there. These three may fail. Then, stream by stream, numbers are passed, unordered chunks discarded, and due messages delivered. It costs
//! each such stream times its entries, under DATA also twice the height of the tree of `lows.rt`; other streams aren't looked at.

ghost use Rattle.std.specs.Prelude.{◌≡◌, ℕ, true, false, List, map, length, Some, IfOk, OnOk, OnErr};
ghost use Rattle.std.specs.List.Sorted.{IsNonDecreasing, IsPermutation};
ghost use Rattle.sctp_model.specs.receiver.ReceiverView.{ReceiverView, IsCumulative};
ghost use Rattle.sctp_model.specs.receiver.Receiving.{GivesAll};
ghost use Rattle.sctp_model.specs.receiver.ForwardTaken.{Moved, ForwardTaken, forward_answer, forwarded, names_other_stream};
ghost use Rattle.sctp_model.specs.wire.Chunk.{ForwardMeaning, SkipMeaning};
ghost use Rattle.sctp_model.specs.messages.Format.{ordered_lane, unordered_lane};
ghost use Rattle.sctp_wire.specs.ChunkTree.{skip_meaning, forward_meaning};
ghost use Rattle.sctp_chains.specs.Cells.{Kept};
ghost use Rattle.sctp_chains.specs.StandsFor as lane;
ghost use Rattle.sctp_recv.specs.AnswerOf.{forward_answer_of};
ghost use Rattle.sctp_recv.specs.Fields.{inside, inbound_of, stream_of};
ghost use Rattle.sctp_recv.specs.Resets.{restart_in, resets_in};
ghost use Rattle.sctp_recv.specs.Filed.{Keeps, SameLanes, AreFiled};
ghost use Rattle.sctp_recv.specs.StandsFor.{Stands, AreFindable, StandsFor};
ghost use Rattle.sctp_recv.specs.inner.Bits.{AreShown, IsShown};
ghost use Rattle.sctp_recv.specs.inner.Forwarding.{AreByStream, AreCounts, HasRoomOn, HaveRoom, AreQuiet, PassesOn, AreToPass, ArePassed};
ghost use Rattle.sctp_recv.specs.inner.Giving.{HasRoom, AreCounted};
ghost use Rattle.sctp_recv.specs.inner.Rows.{IsAbove};

use crate::answer::{TsnPlace, place_of_tsn};
use crate::entries::{
    all_count, by_stream, lowest_after, names_other_stream, of_stream, touched_by,
};
use crate::give::{give_ordered, make_room};
use crate::inbound::Inbound;
use crate::places::Lows;
use crate::ready::{Ready, show};
use crate::receiver::Receiver;
use crate::resets::{Resets, restart_of};
use crate::restart::Restart;
use crate::stream::{Stream, make};
use sctp_framing::Framing;
use sctp_values::{Kind, NoMemory};
use sctp_wire::{Forward, Skip, Skips};
use std::alloc::Global;

/// What was done with a FORWARD-TSN or I-FORWARD-TSN.
#[derive(Clone, Copy, Debug, PartialEq, Eq)]
pub enum ForwardAnswer {
    /// Its TSN is the cumulative TSN, or before it: nothing was done.
    OutOfDate,
    /// Its TSN is too far ahead, or it names a stream that doesn't exist: nothing was done.
    Bad,
    /// The cumulative TSN moved, and the messages that were then due were delivered.
    Moved,
}

/// Reserves memory on a stream for the messages that may be delivered.
///
/// # Errors
/// Allocation failed.
fn make_room_on<F: Framing>(alloc: Global, stream: &mut Stream<F>) -> Result<(), NoMemory>
    ensures same { stream_of stream.new ≡ stream_of stream.old }
    ensures chunks { SameLanes F.format stream.old stream.new }
    ensures room { OnOk result (HasRoomOn (inside stream.new)) }
{
    make(alloc, stream)?;
    match &mut stream.inbound {
        Some(inbound) => make_room(inbound, 0),
        None => Ok(()),
    }
}

/// Reserves memory on each of these streams for the messages that may be delivered.
///
/// # Errors
/// Allocation failed.
fn make_rooms<F: Framing>(
    alloc: Global,
    streams: &mut Vec<Stream<F>>,
    touched: &[u16],
) -> Result<(), NoMemory>
    ensures same { map stream_of streams.new.items ≡ map stream_of streams.old.items }
    ensures filed { (kept : Kept) → AreFiled F.format kept streams.old.items → AreFiled F.format kept streams.new.items }
    ensures room { OnOk result (HaveRoom touched.now (length touched.now) streams.new.items) }
{
    for at in 0..touched.len() {
        let place = usize::from(touched[at]);
        if place < streams.len() {
            make_room_on(alloc, &mut streams[place])?;
        }
    }
    Ok(())
}

/// Passes the numbers that a FORWARD skips on a stream by its entries for it, discards the unordered chunks that belong to them, and delivers
/// what is then due. It returns how many bytes are held then, of `held` before.
fn pass_in<F: Framing>(
    inbound: &mut Inbound<F>,
    stream: u16,
    restart: Restart,
    entries: &[Skip],
    jump: u64,
    held: u32,
) -> u32
    ensures { (os us : Kept) → lane.StandsFor F.format inbound.old.ordered (ordered_lane stream) os → lane.StandsFor F.format inbound.old.unordered (unordered_lane stream) us
        → AreCounted os → HasRoom inbound.old 0 → AreCounts F.format restart stream (inbound_of inbound.old) (map skip_meaning entries.now)
        → PassesOn F.format restart stream jump (map skip_meaning entries.now) os us (Some inbound.old) (Some inbound.new) held result }
{
    let next = inbound.next;
    let floor = lowest_after::<F>(entries, stream, Kind::Ordered, restart.ordered, next, next);
    let near = inbound.near(Kind::Unordered);
    let skip = inbound.skip;
    let base = restart.unordered;
    inbound.skip = lowest_after::<F>(entries, stream, Kind::Unordered, base, near, skip);
    let before = inbound.kept_bytes();
    inbound.unordered.let_go(jump, inbound.skip);
    let given = give_ordered(inbound, stream, floor);
    held.saturating_sub(before)
        .saturating_add(inbound.kept_bytes())
        .saturating_add(given)
}

/// Handles a FORWARD on a stream, as `pass_in` does, if it has state.
fn pass_on<F: Framing>(
    known: &mut Stream<F>,
    stream: u16,
    restart: Restart,
    entries: &[Skip],
    jump: u64,
    held: u32,
) -> u32
    ensures { (os us : Kept) → Keeps F.format (inside known.old) false (ordered_lane stream) os → Keeps F.format (inside known.old) true (unordered_lane stream) us
        → AreCounted os → HasRoomOn (inside known.old) → AreCounts F.format restart stream (stream_of known.old) (map skip_meaning entries.now)
        → PassesOn F.format restart stream jump (map skip_meaning entries.now) os us (inside known.old) (inside known.new) held result }
{
    match &mut known.inbound {
        Some(inbound) => pass_in(inbound, stream, restart, entries, jump, held),
        None => held,
    }
}

/// Handles a FORWARD on each of these streams, in rising order, each by its own entries; and notes where messages wait then.
fn pass_on_all<F: Framing>(
    streams: &mut Vec<Stream<F>>,
    ready: &mut Ready,
    resets: &Option<Box<Resets>>,
    touched: &[u16],
    entries: &[Skip],
    jump: u64,
    held: u32,
) -> u32
    ensures count { length streams.new.items ≡ length streams.old.items }
    ensures shown { AreShown ready.old.words.items (map stream_of streams.old.items) → AreShown ready.new.words.items (map stream_of streams.new.items) }
    ensures passed { (v r : ReceiverView) (xs : List SkipMeaning) → AreByStream entries.now → IsPermutation xs (map skip_meaning entries.now)
        → AreToPass F.format (restart_in (resets_in resets.now)) jump xs v r streams.old.items held → HaveRoom touched.now (length touched.now) streams.old.items
        → IsNonDecreasing touched.now → AreQuiet F.format (restart_in (resets_in resets.now)) jump xs v touched.now streams.old.items
        → (t : ReceiverView) × GivesAll F.format (length streams.old.items) r t × ArePassed F.format t streams.new.items result }
{
    let mut left = held;
    let mut next: usize = 0;
    for at in 0..touched.len() {
        let stream = touched[at];
        let place = usize::from(stream);
        if next <= place && place < streams.len() {
            let own = of_stream(entries, stream);
            let restart = restart_of(resets, stream);
            left = pass_on(&mut streams[place], stream, restart, own, jump, left);
            show(ready, streams, stream);
            next = place + 1;
        }
    }
    left
}

/// Notes for each of these streams the lowest index of the unordered chunks that stay there, if their messages have no number.
fn note_lowest<F: Framing>(lows: &mut Lows, streams: &Vec<Stream<F>>, touched: &[u16])
    ensures { (v : ReceiverView) → AreFiled F.format v.kept streams.now.items → AreFindable F.format v lows.old → AreFindable F.format v lows.new }
{
    if F::is_numbered(Kind::Unordered) {
        return;
    }
    for at in 0..touched.len() {
        let stream = touched[at];
        let place = usize::from(stream);
        if place < streams.len() {
            let lowest = streams[place].lowest_unordered();
            lows.set(stream, lowest.unwrap_or(u64::MAX));
        }
    }
}

#[tactic(auto, unfolding(crate::specs::StandsFor::StandsFor))]
impl<F: Framing> Receiver<F> {
    /// Handles a FORWARD-TSN or I-FORWARD-TSN: its TSN and its numbers are passed, and the messages that are then due are delivered.
    ///
    /// # Errors
    /// Allocation failed, and nothing changed.
    pub fn on_forward(&mut self, forward: &Forward<'_>) -> Result<ForwardAnswer, NoMemory>
        ensures step { (v : ReceiverView) → StandsFor F.format self.old v
            → IfOk result (λ a. (t : ReceiverView) × ForwardTaken F.format v (forward_meaning forward.now) (forward_answer_of a) t × StandsFor F.format self.new t) }
        ensures refused { (v : ReceiverView) → StandsFor F.format self.old v → OnErr result (StandsFor F.format self.new v) }
        ensures memory { (v : ReceiverView) → StandsFor F.format self.old v
            → OnErr result ((c : ℕ) × IsCumulative v c × (forward_answer v c (forward_meaning forward.now) ≡ Moved)) }
    {
        let index = match place_of_tsn(self.initial, self.seen.cumulative(), forward.cumulative) {
            TsnPlace::Behind => return Ok(ForwardAnswer::OutOfDate),
            TsnPlace::Ahead => return Ok(ForwardAnswer::Bad),
            TsnPlace::At(index) => index,
        };
        if names_other_stream(self.streams.len(), &forward.skips) {
            return Ok(ForwardAnswer::Bad);
        }
        self.pass_to(index, &forward.skips)?;
        Ok(ForwardAnswer::Moved)
    }

    /// Passes all up to an index, and of each stream and kind the numbers that are skipped; then delivers what is due.
    ///
    /// # Errors
    /// Allocation failed, or a number is no count below the largest; nothing changed.
    fn pass_to(&mut self, index: u64, skips: &Skips<'_>) -> Result<(), NoMemory>
        ensures passed { (v : ReceiverView) → StandsFor F.format self.old v → (x : ForwardMeaning) → x.skips ≡ skips.now.skips
            → IsAbove self.old.initial self.old.seen.kept.cumulative x.cumulative index → names_other_stream (length self.old.streams.items) x.skips ≡ false
            → OnOk result ((t : ReceiverView) × GivesAll F.format v.streams (forwarded F.format v self.old.seen.kept.cumulative x) t × (Stands F.format self.new t × AreFindable F.format t self.new.lows) × IsShown self.new.ready.words.items t.waiting t.streams) }
        ensures refused { (v : ReceiverView) → StandsFor F.format self.old v → OnErr result (StandsFor F.format self.new v) }
    {
        let entries = by_stream(self.alloc, skips)?;
        let touched = touched_by(self.alloc, &self.lows, index, skips)?;
        make_rooms(self.alloc, &mut self.streams, &touched)?;
        if !all_count(&self.streams, &self.resets, &entries) {
            return Err(NoMemory);
        }
        self.held = pass_on_all(
            &mut self.streams,
            &mut self.ready,
            &self.resets,
            &touched,
            &entries,
            index,
            self.held,
        );
        note_lowest(&mut self.lows, &self.streams, &touched);
        self.seen.jump(index);
        Ok(())
    }
}
