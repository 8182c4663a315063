//! Handling a DATA or I-DATA chunk: the first row of the table that applies is its answer, and is carried out (RFC 9260, 6.2 and 6.6;
//! RFC 8260, 2.2).
//!
//! The chunks kept are filed: each stream has two `Chains` of `sctp_chains`, for its ordered and its unordered chunks, and a chunk costs a binary
//! search among those. A message's data isn't copied when it is delivered. What allocates is done first, and if it fails only capacity
//! (and a bound of `lows.rt`) has changed: for an index that isn't the next one; for the messages that may be delivered, for an ordered chunk
//! one more than there are complete ones; for the chunk itself; and on a stream's first chunk for its state (`stream.rt`). Capacity that
//! isn't used stays with the stream, unless it is for thousands of messages, and none waits.
//!
//! From an ordered chunk's stream the message of the next number is taken, and so on until one isn't complete (`give.rt`). A chunk that is the next message
//! by itself isn't kept first: it is delivered, and what follows it is looked for only if something kept may be due. Of an unordered chunk the
//! message is taken that it belongs to. Under I-DATA a stream knows near which count its unordered MIDs are read by two numbers, the
//! lowest not skipped and the largest kept.

ghost use Rattle.std.specs.Prelude.{◌≡◌, ◌-◌, ◌^◌, ◌<◌, ◌≤◌, Some, length, ℕ, true, false, ◌&&◌, IfOk, OnOk, OnErr};
ghost use Rattle.sctp_model.specs.numbers.Serial.{COUNTS};
ghost use Rattle.sctp_model.specs.messages.Format.{Unordered, is_numbered};
ghost use Rattle.sctp_model.specs.receiver.ReceiverView.{ReceiverView, IsCumulative};
ghost use Rattle.sctp_model.specs.receiver.Receiving.{TakesPiece};
ghost use Rattle.sctp_model.specs.receiver.Reading.{index_at, piece_at};
ghost use Rattle.sctp_model.specs.receiver.PieceTaken.{PieceTaken, answer_to};
ghost use Rattle.sctp_values.specs.Meanings.{kind_meaning};
ghost use Rattle.sctp_wire.specs.ChunkTree.{piece_meaning};
ghost use Rattle.sctp_recv.specs.AnswerOf.{answer_of, NeedsMemory};
ghost use Rattle.sctp_recv.specs.Fields.{stream_of};
ghost use Rattle.sctp_recv.specs.KeptOf.{kept_of};
ghost use Rattle.sctp_recv.specs.Lows.{IsMarked};
ghost use Rattle.sctp_recv.specs.ReceiverKept.{IsCount, in_64, lowest_of};
ghost use Rattle.sctp_recv.specs.Resets.{resets_in};
ghost use Rattle.sctp_recv.specs.StandsFor.{Stands, StandsFor};
ghost use Rattle.sctp_recv.specs.inner.Bits.{IsShown};
ghost use Rattle.sctp_recv.specs.inner.Rows.{number_at, IsRowOf, IsByRoom, IsWanted};

use crate::answer::{Answer, Row, TsnPlace, place_of_tsn};
use crate::give::keep_in;
use crate::inbound::Inbound;
use crate::places::Lows;
use crate::ready::show_change;
use crate::receiver::Receiver;
use crate::resets::Resets;
use crate::restart::{Uncounted, is_largest};
use crate::stream::{Stream, make};
use sctp_framing::Framing;
use sctp_values::{Kind, NoMemory};
use sctp_wire::Piece;

/// Lowers the bound of a stream for a part of an unordered message with this index. Under I-DATA nothing is noted: an entry of an I-FORWARD-TSN
/// names each stream of which unordered messages are discarded.
fn note<F: Framing>(lows: &mut Lows, piece: &Piece<'_>, index: u64)
    ensures count { lows.new.count ≡ lows.old.count }
    ensures more { (s i : ℕ) → IsMarked lows.old s i → IsMarked lows.new s i }
    ensures marked { is_numbered F.format Unordered ≡ false → piece.now.unordered ≡ true → (piece.now.begin && piece.now.end) ≡ false → piece.now.stream < lows.old.count
        → IsMarked lows.new piece.now.stream index }
{
    if F::is_numbered(Kind::Unordered) || !piece.unordered || (piece.begin && piece.end) {
        return;
    }
    lows.lower(piece.stream, index);
}

/// The number of a chunk of this stream. Nothing is asked of resets before the peer's first request.
///
/// # Errors
/// It is no count below the largest.
#[inline(always)]
fn number_of<F: Framing>(
    known: &Stream<F>,
    resets: &Option<Box<Resets>>,
    kind: Kind,
    piece: &Piece<'_>,
) -> Result<Option<u64>, Uncounted>
    ensures number { IfOk result (λ n. (n ≡ number_at F.format (resets_in resets.now) piece.now.stream (stream_of known.now) (kind_meaning kind) piece.now.number) × IsCount n) }
    ensures beyond { OnErr result (in_64 (number_at F.format (resets_in resets.now) piece.now.stream (stream_of known.now) (kind_meaning kind) piece.now.number) ≡ Some (COUNTS - 1)) }
    ensures lowest { lowest_of (stream_of known.now) (kind_meaning kind) < 2 ^ 64 }
{
    match resets {
        None => Ok(known.number(kind, piece.number)),
        Some(resets) => {
            let base = resets.restart(piece.stream).base(kind);
            let number = known.number_near(kind, piece.number, base);
            if is_largest(number) {
                return Err(Uncounted);
            }
            Ok(number)
        }
    }
}

#[tactic(auto, unfolding(crate::specs::StandsFor::StandsFor))]
impl<F: Framing> Receiver<F> {
    /// Handles a DATA or I-DATA chunk: the first row of the table that applies is its answer, and is carried out.
    ///
    /// # Errors
    /// Allocation failed, or after a reset the number of a chunk to be kept is no count below the largest; nothing changed.
    pub fn on_data(&mut self, piece: &Piece<'_>) -> Result<Answer, NoMemory>
        ensures step { (v : ReceiverView) → StandsFor F.format self.old v
            → IfOk result (λ a. (t : ReceiverView) × PieceTaken F.format v (piece_meaning piece.now) (answer_of a) t × StandsFor F.format self.new t) }
        ensures refused { (v : ReceiverView) → StandsFor F.format self.old v → OnErr result (StandsFor F.format self.new v) }
        ensures memory { (v : ReceiverView) → StandsFor F.format self.old v
            → OnErr result ((c : ℕ) × IsCumulative v c × NeedsMemory v c (index_at v c piece.now.tsn) (answer_to F.format v c (piece_meaning piece.now))) }
    {
        match self.row_of(piece) {
            Row::Duplicate => {
                self.duplicates.note(piece.tsn)?;
                Ok(Answer::Duplicate)
            }
            Row::Ahead => Ok(Answer::Ahead),
            Row::NoSuchStream { index } => {
                self.seen.add(index)?;
                Ok(Answer::NoSuchStream)
            }
            Row::Passed { index } => {
                self.seen.add(index)?;
                Ok(Answer::Passed)
            }
            Row::NoRoom => Ok(Answer::NoRoom),
            Row::Uncounted => Err(NoMemory),
            Row::Taken { index, number } => {
                note::<F>(&mut self.lows, piece, index);
                self.keep(piece, index, number)?;
                Ok(Answer::Taken)
            }
        }
    }

    /// The row of a chunk that is wanted, but whose number is no count below the largest.
    fn row_by_room(&self, piece: &Piece<'_>) -> Row
        ensures { self.now.held ≤ self.now.buffer → IsByRoom (kept_of self.now) (length (piece_meaning piece.now).bytes) result }
    {
        let room = self.buffer.saturating_sub(self.held) as usize;
        if room < piece.bytes.len() {
            return Row::NoRoom;
        }
        Row::Uncounted
    }

    /// The first row of the table that applies to a chunk.
    fn row_of(&self, piece: &Piece<'_>) -> Row
        ensures { (v : ReceiverView) → StandsFor F.format self.now v → IsRowOf F.format (kept_of self.now) v (piece_meaning piece.now) result }
    {
        let _word = piece.word;
        let index = match place_of_tsn(self.initial, self.seen.cumulative(), piece.tsn) {
            TsnPlace::Behind => return Row::Duplicate,
            TsnPlace::Ahead => return Row::Ahead,
            TsnPlace::At(index) => index,
        };
        if self.seen.is_reached(index) {
            return Row::Duplicate;
        }
        let stream = usize::from(piece.stream);
        if stream >= self.streams.len() {
            return Row::NoSuchStream { index };
        }
        let known = &self.streams[stream];
        let kind = Kind::of_flag(piece.unordered);
        let number = match number_of(known, &self.resets, kind, piece) {
            Err(Uncounted) => return self.row_by_room(piece),
            Ok(number) => number,
        };
        if known.is_late(kind, number) || known.is_held(piece, number) {
            return Row::Passed { index };
        }
        if piece.bytes.len() > self.buffer.saturating_sub(self.held) as usize {
            return Row::NoRoom;
        }
        Row::Taken { index, number }
    }

    /// Keeps a chunk whose answer is Taken, and delivers the messages that are then due.
    ///
    /// # Errors
    /// Allocation failed, and nothing changed.
    fn keep(&mut self, piece: &Piece<'_>, index: u64, number: Option<u64>) -> Result<(), NoMemory>
        ensures kept { (v : ReceiverView) → StandsFor F.format self.old v → IsWanted F.format (kept_of self.old) v (piece_meaning piece.now) index number
            → OnOk result ((t : ReceiverView) × TakesPiece F.format v (piece_at F.format v self.old.seen.kept.cumulative (piece_meaning piece.now)) t × Stands F.format self.new t × IsShown self.new.ready.words.items t.waiting t.streams) }
        ensures lows { self.new.lows ≡ self.old.lows }
        ensures refused { (v : ReceiverView) → StandsFor F.format self.old v → OnErr result (StandsFor F.format self.new v) }
    {
        let stream = usize::from(piece.stream);
        if stream >= self.streams.len() {
            return Ok(());
        }
        self.seen.reserve(index)?;
        make(self.alloc, &mut self.streams[stream])?;
        let Some(made) = &mut self.streams[stream].inbound else {
            return Ok(());
        };
        let inbound: &mut Inbound<F> = made;
        let before = inbound.kept_bytes();
        let waited = inbound.waiting.len();
        let had_message = inbound.has_message();
        let given = keep_in(inbound, &mut self.spare, piece, index, number)?;
        let more = inbound.waiting.len().saturating_sub(waited);
        let has_message = inbound.has_message();
        self.held = self
            .held
            .saturating_sub(before)
            .saturating_add(inbound.kept_bytes())
            .saturating_add(given);
        self.spare.waits(more);
        let _ = self.seen.add(index);
        show_change(
            &mut self.ready,
            &self.streams,
            piece.stream,
            had_message,
            has_message,
        );
        Ok(())
    }
}
