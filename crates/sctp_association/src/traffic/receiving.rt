//! The receiver of an association, in either format (RFC 9260, 6.2; RFC 3758, 3.6; RFC 8260, 2.2.3).

ghost use Rattle.std.specs.Prelude.{◌≡◌, ℕ, ◌≤◌, Some, None, option_map, slice_get, IfOk, OnErr, MatchOption};
ghost use Rattle.sctp_model.specs.numbers.Limits.{BLOCK_LIMIT};
ghost use Rattle.sctp_model.specs.numbers.Serial.{tsn};
ghost use Rattle.sctp_model.specs.wire.Chunk.{Sack};
ghost use Rattle.sctp_model.specs.messages.Format.{Format};
ghost use Rattle.sctp_model.specs.sender.SenderView.{SenderView};
ghost use Rattle.sctp_model.specs.receiver.ReceiverView.{ReceiverView, IsCumulative, held_bytes, size_of_pieces};
ghost use Rattle.sctp_model.specs.receiver.PieceTaken.{PieceTaken};
ghost use Rattle.sctp_model.specs.receiver.ForwardTaken.{ForwardTaken};
ghost use Rattle.sctp_model.specs.receiver.SackMade.{IsSack, sack_sent, TakeLeaves};
ghost use Rattle.sctp_model.specs.end.Arriving.{TellsGap};
ghost use Rattle.sctp_wire.specs.ChunkTree.{piece_meaning, forward_meaning};
ghost use Rattle.sctp_wire.specs.Layouts.{Fits};
ghost use Rattle.sctp_recv.specs.AnswerOf.{answer_of, forward_answer_of};
ghost use Rattle.sctp_recv.specs.SackOf.{lists_meaning, plain_meaning, TellsLists};
ghost use Rattle.sctp_recv.specs.HandedOf.{handed_of};
ghost use Rattle.sctp_association.specs.TrafficStands.{TrafficStands};

use crate::traffic::Traffic;
use sctp_recv::{Answer, ForwardAnswer, Message, PlainSack, SackLists};
use sctp_values::NoMemory;
use sctp_wire::{Forward, Piece};

impl Traffic {
    /// Processes a DATA or I-DATA chunk (RFC 9260, 6.2; RFC 8260, 2.2.3).
    ///
    /// # Errors
    /// `NoMemory` if an allocation was refused; nothing changed then.
    pub(crate) fn on_data(&mut self, piece: &Piece<'_>) -> Result<Answer, NoMemory>
        ensures step { (f : Format) (s : SenderView) (r : ReceiverView) → TrafficStands self.old f s r → IfOk result (λ a. (t : ReceiverView) × PieceTaken f r (piece_meaning piece.now) (answer_of a) t × TrafficStands self.new f s t) }
        ensures refused { (f : Format) (s : SenderView) (r : ReceiverView) → TrafficStands self.old f s r → OnErr result (TrafficStands self.new f s r) }
    {
        match self {
            Traffic::Plain(directions) => directions.receiver.on_data(piece),
            Traffic::Interleaved(directions) => directions.receiver.on_data(piece),
        }
    }

    /// Processes a FORWARD-TSN or I-FORWARD-TSN (RFC 3758, 3.6; RFC 8260, 2.3.1).
    ///
    /// # Errors
    /// `NoMemory` if an allocation was refused; nothing changed then.
    pub(crate) fn on_forward(&mut self, forward: &Forward<'_>) -> Result<ForwardAnswer, NoMemory>
        ensures step { (f : Format) (s : SenderView) (r : ReceiverView) → TrafficStands self.old f s r → IfOk result (λ a. (t : ReceiverView) × ForwardTaken f r (forward_meaning forward.now) (forward_answer_of a) t × TrafficStands self.new f s t) }
        ensures refused { (f : Format) (s : SenderView) (r : ReceiverView) → TrafficStands self.old f s r → OnErr result (TrafficStands self.new f s r) }
    {
        match self {
            Traffic::Plain(directions) => directions.receiver.on_forward(forward),
            Traffic::Interleaved(directions) => directions.receiver.on_forward(forward),
        }
    }

    /// The contents of a SACK at this point (RFC 9260, 3.3.4). Nothing changes.
    ///
    /// # Errors
    /// `NoMemory` if an allocation was refused.
    #[inline(always)]
    pub(crate) fn sack(&self) -> Result<SackLists, NoMemory>
        ensures sack { (f : Format) (s : SenderView) (r : ReceiverView) → TrafficStands self.now f s r → IfOk result (λ l. IsSack BLOCK_LIMIT r (lists_meaning l)) }
        ensures fits { IfOk result (λ l. Fits (Sack (lists_meaning l))) }
    {
        match self {
            Traffic::Plain(directions) => directions.receiver.sack(),
            Traffic::Interleaved(directions) => directions.receiver.sack(),
        }
    }

    /// The contents of a SACK at this point, if it has no lists: None if and only if it has. Nothing changes.
    #[inline(always)]
    pub(crate) fn plain_sack(&self) -> Option<PlainSack>
        ensures { (f : Format) (s : SenderView) (r : ReceiverView) → TrafficStands self.now f s r → MatchOption result (TellsLists r) (λ p. IsSack BLOCK_LIMIT r (plain_meaning p)) }
    {
        match self {
            Traffic::Plain(directions) => directions.receiver.plain_sack(),
            Traffic::Interleaved(directions) => directions.receiver.plain_sack(),
        }
    }

    /// A SACK was sent: the duplicates that it reported are forgotten.
    pub(crate) fn sack_sent(&mut self)
        ensures { (f : Format) (s : SenderView) (r : ReceiverView) → TrafficStands self.old f s r → TrafficStands self.new f s (sack_sent r) }
    {
        match self {
            Traffic::Plain(directions) => directions.receiver.sack_sent(),
            Traffic::Interleaved(directions) => directions.receiver.sack_sent(),
        }
    }

    /// The cumulative TSN, up to which all was received or skipped (RFC 9260, 6.2).
    pub(crate) fn cumulative(&self) -> u32
        ensures { (f : Format) (s : SenderView) (r : ReceiverView) → TrafficStands self.now f s r → (c : ℕ) × IsCumulative r c × (result ≡ tsn r.initial c) }
    {
        match self {
            Traffic::Plain(directions) => directions.receiver.cumulative(),
            Traffic::Interleaved(directions) => directions.receiver.cumulative(),
        }
    }

    /// A TSN above the cumulative one was received: one below it is missing (RFC 9260, 6.2).
    pub(crate) fn has_gap(&self) -> bool
        ensures { (f : Format) (s : SenderView) (r : ReceiverView) → TrafficStands self.now f s r → TellsGap result r }
    {
        match self {
            Traffic::Plain(directions) => directions.receiver.has_gap(),
            Traffic::Interleaved(directions) => directions.receiver.has_gap(),
        }
    }

    /// The bytes of user data that was received and isn't taken yet.
    pub(crate) fn held_bytes(&self) -> u32
        ensures held { (f : Format) (s : SenderView) (r : ReceiverView) → TrafficStands self.now f s r → result ≡ held_bytes r }
        ensures bound { (f : Format) (s : SenderView) (r : ReceiverView) → TrafficStands self.now f s r → result ≤ r.buffer }
    {
        match self {
            Traffic::Plain(directions) => directions.receiver.held_bytes(),
            Traffic::Interleaved(directions) => directions.receiver.held_bytes(),
        }
    }

    /// Of the bytes held, those of messages that can't be delivered yet.
    pub(crate) fn reassembly_bytes(&self) -> u32
        ensures { (f : Format) (s : SenderView) (r : ReceiverView) → TrafficStands self.now f s r → result ≡ size_of_pieces r.kept }
    {
        match self {
            Traffic::Plain(directions) => directions.receiver.reassembly_bytes(),
            Traffic::Interleaved(directions) => directions.receiver.reassembly_bytes(),
        }
    }

    /// How many streams come into this end.
    pub(crate) fn inbound(&self) -> u16
        ensures { (f : Format) (s : SenderView) (r : ReceiverView) → TrafficStands self.now f s r → result ≡ r.streams }
    {
        match self {
            Traffic::Plain(directions) => directions.receiver.stream_count(),
            Traffic::Interleaved(directions) => directions.receiver.stream_count(),
        }
    }

    /// The message at this place, from 0, of those that wait to be taken on a stream.
    pub(crate) fn waiting(&self, stream: u16, place: usize) -> Option<&Message>
        ensures { (f : Format) (s : SenderView) (r : ReceiverView) → TrafficStands self.now f s r → MatchOption result (slice_get (r.waiting stream) place ≡ None) (λ m. slice_get (r.waiting stream) place ≡ Some (handed_of m.now)) }
    {
        match self {
            Traffic::Plain(directions) => directions.receiver.waiting(stream, place),
            Traffic::Interleaved(directions) => directions.receiver.waiting(stream, place),
        }
    }

    /// Takes the next message of a stream (RFC 9260, 11.1.6).
    #[inline(always)]
    pub(crate) fn take(&mut self, stream: u16) -> Option<Message>
        ensures { (f : Format) (s : SenderView) (r : ReceiverView) → TrafficStands self.old f s r → (t : ReceiverView) × TakeLeaves r stream (option_map handed_of result) t × TrafficStands self.new f s t }
    {
        match self {
            Traffic::Plain(directions) => directions.receiver.take(stream),
            Traffic::Interleaved(directions) => directions.receiver.take(stream),
        }
    }

    /// Hands back a message that was taken: no view of the receiver changes.
    #[inline(always)]
    pub(crate) fn give_back(&mut self, message: Message)
        ensures { (f : Format) (s : SenderView) (r : ReceiverView) → TrafficStands self.old f s r → TrafficStands self.new f s r }
    {
        match self {
            Traffic::Plain(directions) => directions.receiver.give_back(message),
            Traffic::Interleaved(directions) => directions.receiver.give_back(message),
        }
    }

    /// Gives back memory of the receiver that isn't used: no view of it changes.
    pub(crate) fn trim_receiver(&mut self)
        ensures { (f : Format) (s : SenderView) (r : ReceiverView) → TrafficStands self.old f s r → TrafficStands self.new f s r }
    {
        match self {
            Traffic::Plain(directions) => directions.receiver.trim(),
            Traffic::Interleaved(directions) => directions.receiver.trim(),
        }
    }
}
