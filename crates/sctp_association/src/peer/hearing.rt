//! What an open association receives: user data, FORWARD-TSN, and acknowledgements (RFC 9260, 6.2 and 6.2.1; RFC 3758, 3.6). All memory is allocated
//! before anything changes.

ghost use Rattle.std.specs.Prelude.{◌≡◌, ℕ, ◌+◌, ◌≤◌, nat_lt, false, length, vec_capacity, IfOk, OnOk, OnErr};
ghost use Rattle.sctp_model.specs.wire.Chunk.{PieceMeaning};
ghost use Rattle.sctp_model.specs.receiver.ReceiverView.{ReceiverView};
ghost use Rattle.sctp_model.specs.receiver.PieceTaken.{PieceTaken};
ghost use Rattle.sctp_model.specs.receiver.ForwardTaken.{ForwardTaken};
ghost use Rattle.sctp_model.specs.sender.SackTaken.{sack_fault, sack_after, shutdown_fault, shutdown_after};
ghost use Rattle.sctp_model.specs.sender.Entries.{in_flight};
ghost use Rattle.sctp_model.specs.end.EndView.{EndView, format_of};
ghost use Rattle.sctp_model.specs.end.EndView as model;
ghost use Rattle.sctp_model.specs.end.Clock.{renewed, with_timer};
ghost use Rattle.sctp_model.specs.end.Reports.{with_causes};
ghost use Rattle.sctp_model.specs.end.Acting.{piece_causes, is_refused, sack_heard, shut_timer, shutdown_counted};
ghost use Rattle.sctp_wire.specs.ChunkTree.{piece_meaning, forward_meaning, sack_meaning};
ghost use Rattle.sctp_recv.specs.AnswerOf.{answer_of, forward_answer_of};
ghost use Rattle.sctp_send.specs.SenderAnswers.{reason_meaning};
ghost use Rattle.sctp_association.specs.TimersMean.{alarm_meaning};
ghost use Rattle.sctp_association.specs.StartsMean.{started_if};
ghost use Rattle.sctp_association.specs.MachineStands.{MachineStands};
ghost use Rattle.sctp_association.specs.SackLeaves.{fault_of, IsLeft, sack_counted};
ghost use Rattle.sctp_association.specs.Acknowledges.{shut_timer_of, shut_rests};

use crate::machine::Machine;
use crate::state::life::Life;
use crate::time::timer::Alarm;
use crate::traffic::acknowledging::Acknowledged;
use sctp_recv::{Answer, ForwardAnswer, resets_stay};
use sctp_send::SackFault;
use sctp_values::NoMemory;
use sctp_wire::{Forward, Piece, Sack};

#[tactic(auto, unfolding(crate::specs::MachineStands::MachineStands))]
impl Machine {
    /// Processes a DATA chunk, or an I-DATA chunk under interleaving; an invalid stream is reported in an ERROR (RFC 9260, 6.2 and 6.5).
    ///
    /// # Errors
    /// `NoMemory` if an allocation was refused; nothing changed then.
    #[inline(always)]
    pub fn hear_piece(&mut self, piece: &Piece<'_>) -> Result<Answer, NoMemory>
        ensures step { (v : EndView) (t : model.Tags) (g : model.Stage) → MachineStands self.old v → v.phase ≡ model.Open t g
            → IfOk result (λ a. (r : ReceiverView) × PieceTaken (format_of v) v.receiver (piece_meaning piece.now) (answer_of a) r
            × MachineStands self.new (with_causes (piece_causes v (piece_meaning piece.now) (answer_of a)) (record v { receiver = r }))) }
        // However its peer numbers fragments, it goes on.
        ensures lenient { (v : EndView) (c : ℕ) → MachineStands self.old v → is_refused v c (piece_meaning piece.now) ≡ false }
        ensures refused { (v : EndView) → MachineStands self.old v → OnErr result (MachineStands self.new v) }
    {
        let answer = self.take_piece(piece)?;
        self.report_answer(answer, piece.stream);
        Ok(answer)
    }

    /// The receiver takes user data, once there is space for the cause that may follow.
    ///
    /// # Errors
    /// `NoMemory` if an allocation was refused; nothing changed then.
    #[inline(always)]
    fn take_piece(&mut self, piece: &Piece<'_>) -> Result<Answer, NoMemory>
        ensures step { (v : EndView) (t : model.Tags) (g : model.Stage) → MachineStands self.old v → v.phase ≡ model.Open t g
            → IfOk result (λ a. (r : ReceiverView) × PieceTaken (format_of v) v.receiver (piece_meaning piece.now) (answer_of a) r
            × MachineStands self.new (record v { receiver = r })) }
        ensures refused { (v : EndView) → MachineStands self.old v → OnErr result (MachineStands self.new v) }
        ensures room { OnOk result (length self.new.due.causes.bytes.items + 11 ≤ vec_capacity self.new.due.causes.bytes) }
    {
        self.due.causes.make_room()?;
        resets_stay();
        match &mut self.life {
            Life::Unjoined(_) => Ok(Answer::Ahead),
            Life::Joined(association) => association.traffic.on_data(piece),
        }
    }

    /// Reports the stream if the receiver's answer is that it is invalid. There is space for the cause.
    fn report_answer(&mut self, answer: Answer, stream: u16)
        requires { length self.old.due.causes.bytes.items + 11 ≤ vec_capacity self.old.due.causes.bytes }
        ensures { (v : EndView) (p : PieceMeaning) → p.stream ≡ stream → MachineStands self.old v → MachineStands self.new (with_causes (piece_causes v p (answer_of answer)) v) }
    {
        match answer {
            Answer::NoSuchStream => self.report_stream(stream),
            _ => {}
        }
    }

    /// Processes a FORWARD-TSN, or an I-FORWARD-TSN under interleaving (RFC 3758, 3.6; RFC 8260, 2.3.1).
    ///
    /// # Errors
    /// `NoMemory` if an allocation was refused; nothing changed then.
    pub fn hear_forward(&mut self, forward: &Forward<'_>) -> Result<ForwardAnswer, NoMemory>
        ensures step { (v : EndView) (t : model.Tags) (g : model.Stage) → MachineStands self.old v → v.phase ≡ model.Open t g
            → IfOk result (λ a. (r : ReceiverView) × ForwardTaken (format_of v) v.receiver (forward_meaning forward.now) (forward_answer_of a) r
            × MachineStands self.new (record v { receiver = r })) }
        ensures refused { (v : EndView) → MachineStands self.old v → OnErr result (MachineStands self.new v) }
    {
        resets_stay();
        match &mut self.life {
            Life::Unjoined(_) => Ok(ForwardAnswer::OutOfDate),
            Life::Joined(association) => association.traffic.on_forward(forward),
        }
    }

    /// Processes a SACK: what it acknowledges is acknowledged, a FORWARD-TSN is due if it skips something, and the data timer counts its
    /// retransmissions anew; an endpoint with a pace acts on the round trip and the misses that it reports (RFC 9260, 6.2.1, 6.3 and 7.2; RFC 3758,
    /// 3.5). Its first fault is returned; nothing changed then. It allocates only at an endpoint with a pace, if it takes back what an earlier one
    /// acknowledged.
    ///
    /// # Errors
    /// `NoMemory` if an allocation was refused; nothing changed then.
    #[inline(always)]
    pub fn hear_sack(&mut self, sack: &Sack<'_>) -> Result<Result<(), SackFault>, NoMemory>
        ensures answer { (v : EndView) (t : model.Tags) (g : model.Stage) → MachineStands self.old v → v.phase ≡ model.Open t g
            → IfOk result (λ heard. reason_meaning heard ≡ sack_fault v.sender (sack_meaning sack.now)) }
        ensures step { (v : EndView) (t : model.Tags) (g : model.Stage) → MachineStands self.old v → v.phase ≡ model.Open t g
            → IfOk result (λ heard. OnOk heard (MachineStands self.new (sack_heard v (sack_meaning sack.now)))) }
        ensures refused { (v : EndView) (t : model.Tags) (g : model.Stage) → MachineStands self.old v → v.phase ≡ model.Open t g
            → IfOk result (λ heard. OnErr heard (MachineStands self.new v)) }
        ensures memory { (v : EndView) (t : model.Tags) (g : model.Stage) → MachineStands self.old v → v.phase ≡ model.Open t g
            → OnErr result (MachineStands self.new v) }
    {
        if self.pace.is_some() {
            return self.hear_sack_paced(sack);
        }
        Ok(self.count_sack(sack))
    }

    /// What a SACK does at an endpoint without a pace.
    ///
    /// # Errors
    /// Its first fault; nothing changed then.
    #[inline(always)]
    pub(crate) fn count_sack(&mut self, sack: &Sack<'_>) -> Result<(), SackFault>
        ensures answer { (v : EndView) (t : model.Tags) (g : model.Stage) → MachineStands self.old v → v.phase ≡ model.Open t g
            → reason_meaning result ≡ sack_fault v.sender (sack_meaning sack.now) }
        ensures step { (v : EndView) (t : model.Tags) (g : model.Stage) → MachineStands self.old v → v.phase ≡ model.Open t g
            → OnOk result (MachineStands self.new (sack_counted v (sack_meaning sack.now))) }
        ensures refused { (v : EndView) (t : model.Tags) (g : model.Stage) → MachineStands self.old v → v.phase ≡ model.Open t g
            → OnErr result (MachineStands self.new v) }
    {
        match self.take_sack(sack) {
            Ok(left) => {
                self.due.owe_forward(left.past);
                self.timers
                    .count(left.wanted, left.moved, left.flies, self.moment);
                Ok(())
            }
            Err(fault) => Err(fault),
        }
    }

    /// The sender takes a SACK.
    ///
    /// # Errors
    /// Its first fault; nothing changed then.
    #[inline(always)]
    fn take_sack(&mut self, sack: &Sack<'_>) -> Result<Acknowledged, SackFault>
        ensures answer { (v : EndView) (t : model.Tags) (g : model.Stage) → MachineStands self.old v → v.phase ≡ model.Open t g
            → fault_of result ≡ sack_fault v.sender (sack_meaning sack.now) }
        ensures step { (v : EndView) (t : model.Tags) (g : model.Stage) → MachineStands self.old v → v.phase ≡ model.Open t g
            → MachineStands self.new (record v { sender = sack_after v.sender (sack_meaning sack.now) }) }
        ensures left { (v : EndView) (t : model.Tags) (g : model.Stage) → MachineStands self.old v → v.phase ≡ model.Open t g
            → IfOk result (IsLeft v.sender (sack_after v.sender (sack_meaning sack.now))) }
    {
        match &mut self.life {
            Life::Unjoined(_) => Ok(Acknowledged {
                moved: false,
                wanted: false,
                past: false,
                flies: false,
            }),
            Life::Joined(association) => association.traffic.on_sack(sack),
        }
    }

    /// A timer counts its retransmissions anew; if something new was acknowledged, its timeout begins anew, too (RFC 9260, 6.3.2 and 9.2).
    pub(crate) fn renew(&mut self, alarm: Alarm, moved: bool)
        ensures { (v : EndView) → MachineStands self.old v
            → MachineStands self.new (with_timer (alarm_meaning alarm) (renewed v.configuration.first_wait v.moment moved (v.timers (alarm_meaning alarm))) v) }
    {
        let timer = self.timers.get(alarm);
        self.timers.put(alarm, timer.renewed(self.moment, moved));
    }

    /// Processes the cumulative TSN of a SHUTDOWN, which acknowledges; with standard closing one that acknowledges something new restarts the data
    /// timer as a SACK does, and an endpoint with a pace acts on it as on a SACK; else a data timer that doesn't run starts if user data is in flight (RFC
    /// 9260, 6.3, 7.2 and 9.2). It doesn't allocate.
    ///
    /// # Errors
    /// Its first fault; nothing changed then.
    pub fn hear_shutdown(&mut self, tsn: u32) -> Result<(), SackFault>
        ensures answer { (v : EndView) (t : model.Tags) (g : model.Stage) → MachineStands self.old v → v.phase ≡ model.Open t g
            → reason_meaning result ≡ shutdown_fault v.sender tsn }
        ensures step { (v : EndView) (t : model.Tags) (g : model.Stage) → MachineStands self.old v → v.phase ≡ model.Open t g
            → OnOk result (MachineStands self.new (shutdown_counted v tsn)) }
        ensures refused { (v : EndView) (t : model.Tags) (g : model.Stage) → MachineStands self.old v → v.phase ≡ model.Open t g
            → OnErr result (MachineStands self.new v) }
    {
        if self.pace.is_some() {
            return self.hear_shutdown_paced(tsn);
        }
        match self.count_shutdown(tsn) {
            Ok(()) => {
                self.start_flying();
                Ok(())
            }
            Err(fault) => Err(fault),
        }
    }

    /// Starts the data timer, if it doesn't run and user data is in flight (RFC 9260, 6.3.2, R4).
    pub(crate) fn start_flying(&mut self)
        ensures { (v : EndView) → MachineStands self.old v
            → MachineStands self.new (with_timer model.DataAlarm (started_if (nat_lt 0 (in_flight v.sender)) v.moment (v.timers model.DataAlarm)) v) }
    {
        let flies = 0 < self.in_flight();
        self.timers.start_fragments(flies, self.moment);
    }

    /// What the cumulative TSN of a SHUTDOWN does beside the pace.
    ///
    /// # Errors
    /// Its first fault; nothing changed then.
    #[inline(never)]
    pub(crate) fn count_shutdown(&mut self, tsn: u32) -> Result<(), SackFault>
        ensures answer { (v : EndView) (t : model.Tags) (g : model.Stage) → MachineStands self.old v → v.phase ≡ model.Open t g
            → reason_meaning result ≡ shutdown_fault v.sender tsn }
        ensures step { (v : EndView) (t : model.Tags) (g : model.Stage) → MachineStands self.old v → v.phase ≡ model.Open t g
            → OnOk result (MachineStands self.new (with_timer model.DataAlarm (shut_timer_of v tsn) (shut_rests v tsn))) }
        ensures refused { (v : EndView) (t : model.Tags) (g : model.Stage) → MachineStands self.old v → v.phase ≡ model.Open t g
            → OnErr result (MachineStands self.new v) }
    {
        let before = self.cum();
        match self.take_shutdown(tsn) {
            Ok(()) => {
                self.settle();
                self.renew_shut(before < self.cum());
                Ok(())
            }
            Err(fault) => Err(fault),
        }
    }

    /// With standard closing a SHUTDOWN that acknowledged something new restarts the data timer (RFC 9260, 6.3.2 and 9.2).
    fn renew_shut(&mut self, moved: bool)
        ensures { (v : EndView) → MachineStands self.old v
            → MachineStands self.new (with_timer model.DataAlarm (shut_timer v.configuration.standard_closing moved v.configuration.first_wait v.moment (v.timers model.DataAlarm)) v) }
    {
        if self.config.standard_closing() && moved {
            self.renew(Alarm::Fragments, true);
        }
    }

    /// The sender takes the cumulative TSN of a SHUTDOWN.
    ///
    /// # Errors
    /// Its first fault; nothing changed then.
    fn take_shutdown(&mut self, tsn: u32) -> Result<(), SackFault>
        ensures answer { (v : EndView) (t : model.Tags) (g : model.Stage) → MachineStands self.old v → v.phase ≡ model.Open t g
            → reason_meaning result ≡ shutdown_fault v.sender tsn }
        ensures step { (v : EndView) (t : model.Tags) (g : model.Stage) → MachineStands self.old v → v.phase ≡ model.Open t g
            → MachineStands self.new (record v { sender = shutdown_after v.sender tsn }) }
    {
        match &mut self.life {
            Life::Unjoined(_) => Ok(()),
            Life::Joined(association) => association.traffic.on_shutdown(tsn),
        }
    }
}
