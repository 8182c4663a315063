//! What a SACK does at the sender, and what it leaves there, and what a SHUTDOWN does, in either format (RFC 9260, 6.2.1, 6.3.2 and 9.2; RFC 3758, 3.5).

ghost use Rattle.std.specs.Prelude.{◌≡◌, IfOk};
ghost use Rattle.sctp_model.specs.messages.Format.{Format};
ghost use Rattle.sctp_model.specs.sender.SenderView.{SenderView};
ghost use Rattle.sctp_model.specs.receiver.ReceiverView.{ReceiverView};
ghost use Rattle.sctp_model.specs.sender.SackTaken.{sack_fault, sack_after, shutdown_fault, shutdown_after};
ghost use Rattle.sctp_wire.specs.ChunkTree.{sack_meaning};
ghost use Rattle.sctp_send.specs.SenderStands.{StandsFor};
ghost use Rattle.sctp_send.specs.SenderAnswers.{reason_meaning};
ghost use Rattle.sctp_association.specs.TrafficStands.{TrafficStands, indexes_of};
ghost use Rattle.sctp_association.specs.SackLeaves.{fault_of, IsLeft};

use crate::traffic::Traffic;
use sctp_framing::Framing;
use sctp_send::{SackFault, Sender};
use sctp_wire::Sack;

/// What a SACK that was processed leaves at the sender.
#[derive(Clone, Copy)]
pub(crate) struct Acknowledged {
    /// It acknowledged something new by its cumulative TSN.
    pub(crate) moved: bool,
    /// The data timer is wanted (RFC 9260, 6.3.2).
    pub(crate) wanted: bool,
    /// A FORWARD-TSN would skip something (RFC 3758, 3.5).
    pub(crate) past: bool,
    /// User data is in flight.
    pub(crate) flies: bool,
}

impl Traffic {
    /// Processes a SACK (RFC 9260, 6.2.1).
    ///
    /// # Errors
    /// Its first fault; nothing changed.
    #[inline(always)]
    pub(crate) fn on_sack(&mut self, sack: &Sack<'_>) -> Result<Acknowledged, SackFault>
        ensures answer { (f : Format) (s : SenderView) (r : ReceiverView) → TrafficStands self.old f s r → fault_of result ≡ sack_fault s (sack_meaning sack.now) }
        ensures step { (f : Format) (s : SenderView) (r : ReceiverView) → TrafficStands self.old f s r → TrafficStands self.new f (sack_after s (sack_meaning sack.now)) r }
        ensures left { (f : Format) (s : SenderView) (r : ReceiverView) → TrafficStands self.old f s r → IfOk result (IsLeft s (sack_after s (sack_meaning sack.now))) }
        ensures kept { indexes_of self.new ≡ indexes_of self.old }
    {
        match self {
            Traffic::Plain(directions) => take_sack(&mut directions.sender, sack),
            Traffic::Interleaved(directions) => take_sack(&mut directions.sender, sack),
        }
    }

    /// Processes the cumulative TSN of a SHUTDOWN (RFC 9260, 9.2).
    ///
    /// # Errors
    /// Its first fault; nothing changed.
    pub(crate) fn on_shutdown(&mut self, tsn: u32) -> Result<(), SackFault>
        ensures answer { (f : Format) (s : SenderView) (r : ReceiverView) → TrafficStands self.old f s r → reason_meaning result ≡ shutdown_fault s tsn }
        ensures step { (f : Format) (s : SenderView) (r : ReceiverView) → TrafficStands self.old f s r → TrafficStands self.new f (shutdown_after s tsn) r }
    {
        match self {
            Traffic::Plain(directions) => directions.sender.on_shutdown(tsn),
            Traffic::Interleaved(directions) => directions.sender.on_shutdown(tsn),
        }
    }
}

/// `Sender::on_sack`, and what it leaves.
///
/// # Errors
/// Its first fault; nothing changed.
#[inline(always)]
fn take_sack<F: Framing>(sender: &mut Sender<F>, sack: &Sack<'_>) -> Result<Acknowledged, SackFault>
    ensures answer { (s : SenderView) → StandsFor F.format sender.old s → fault_of result ≡ sack_fault s (sack_meaning sack.now) }
    ensures step { (s : SenderView) → StandsFor F.format sender.old s → StandsFor F.format sender.new (sack_after s (sack_meaning sack.now)) }
    ensures left { (s : SenderView) → StandsFor F.format sender.old s → IfOk result (IsLeft s (sack_after s (sack_meaning sack.now))) }
{
    let before = sender.cum();
    match sender.on_sack(sack) {
        Ok(()) => {
            let cum = sender.cum();
            Ok(Acknowledged {
                moved: before < cum,
                wanted: sender.unsettled(),
                past: cum < sender.point(),
                flies: 0 < sender.in_flight(),
            })
        }
        Err(fault) => Err(fault),
    }
}
