//! Sender and receiver of an association, in the format that both endpoints agreed on: DATA, or I-DATA. Nothing above names a format.

pub mod acknowledging;
pub mod buffers;
pub mod missed;
pub mod pacing;
pub mod parts;
pub mod receiving;
pub mod resetting;
pub mod sending;

ghost use Rattle.std.specs.Prelude.{◌≡◌, ◌<◌, ◌≤◌, true, false, Some, None, IfOk, MatchOption, slice_get};
ghost use Rattle.sctp_model.specs.messages.Format.{Format};
ghost use Rattle.sctp_model.specs.sender.SenderView.{SenderView, fresh_sender};
ghost use Rattle.sctp_model.specs.receiver.ReceiverView.{ReceiverView, fresh_receiver};
ghost use Rattle.sctp_model.specs.end.EndView.{format_for};
ghost use Rattle.sctp_send.specs.SenderStands.{plain_limits};
ghost use Rattle.sctp_association.specs.TrafficStands.{DirectionsStand, TrafficStands};

use sctp_framing::{DataFraming, Framing, IDataFraming};
use sctp_opening::Terms;
use sctp_recv::Receiver;
use sctp_send::Sender;
use sctp_values::NoMemory;
use std::alloc::Global;

/// Sender and receiver of one format.
#[derive(Drop)]
pub(crate) struct Directions<F: Framing> {
    pub(crate) sender: Sender<F>,
    pub(crate) receiver: Receiver<F>,
    /// The indexes that the last packet retransmitted, or that the last SACK took back: a list that is kept, so that none is allocated for each.
    pub(crate) indexes: Vec<u64>,
}

/// Sender and receiver, in the format that both endpoints agreed on: DATA, or I-DATA (RFC 8260, 2.2.1).
#[derive(Drop)]
pub(crate) enum Traffic {
    Plain(Directions<DataFraming>),
    Interleaved(Directions<IDataFraming>),
}

/// The configured sizes, in bytes: of a fragment, and of the receive buffer.
#[derive(Clone, Copy)]
pub(crate) struct Sizes {
    pub(crate) fragment: u16,
    pub(crate) buffer: u32,
}

impl Traffic {
    /// A new sender and a new receiver, on these terms. `peer_rwnd` is the window that the peer advertised, in bytes.
    ///
    /// # Errors
    /// `NoMemory` if an allocation was refused.
    pub(crate) fn begun(
        alloc: Global,
        terms: Terms,
        sizes: Sizes,
        peer_rwnd: u32,
    ) -> Result<Traffic, NoMemory>
        requires some { 0 < sizes.fragment }
        requires short { sizes.fragment ≤ 1400 }
        ensures { IfOk result (λ t. TrafficStands t (format_for terms.interleave) (fresh_sender terms.own_tsn terms.outbound sizes.fragment peer_rwnd terms.partial plain_limits)
            (fresh_receiver terms.peer_tsn terms.inbound sizes.buffer 0)) }
    {
        if terms.interleave {
            return Ok(Traffic::Interleaved(begun_in(alloc, terms, sizes, peer_rwnd)?));
        }
        Ok(Traffic::Plain(begun_in(alloc, terms, sizes, peer_rwnd)?))
    }

    /// I-DATA is in use (RFC 8260, 2.2.1).
    pub(crate) fn is_interleaved(&self) -> bool
        ensures { (f : Format) (s : SenderView) (r : ReceiverView) → TrafficStands self.now f s r → f ≡ format_for result }
    {
        matches!(self, Traffic::Interleaved(_))
    }
}

/// A new sender and a new receiver of one format.
///
/// # Errors
/// `NoMemory` if an allocation was refused.
fn begun_in<F: Framing>(
    alloc: Global,
    terms: Terms,
    sizes: Sizes,
    peer_rwnd: u32,
) -> Result<Directions<F>, NoMemory>
    requires some { 0 < sizes.fragment }
    requires short { sizes.fragment ≤ 1400 }
    ensures { IfOk result (λ d. DirectionsStand F.format d (fresh_sender terms.own_tsn terms.outbound sizes.fragment peer_rwnd terms.partial plain_limits)
        (fresh_receiver terms.peer_tsn terms.inbound sizes.buffer 0)) }
{
    let sender = Sender::new(
        alloc,
        terms.own_tsn,
        terms.outbound,
        sizes.fragment,
        peer_rwnd,
        terms.partial,
    )?;
    let receiver = Receiver::new(alloc, terms.peer_tsn, terms.inbound, sizes.buffer)?;
    Ok(Directions {
        sender,
        receiver,
        indexes: Vec::new(alloc),
    })
}
