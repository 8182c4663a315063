//! The sender: its parts, its view, and how it begins.

ghost use Rattle.std.specs.Prelude.{◌≡◌, ℕ, ◌<◌, ◌≤◌};
ghost use Rattle.std.specs.Prelude.{IfOk};
ghost use Rattle.sctp_model.specs.numbers.Limits.{GREATEST_FRAGMENT};
ghost use Rattle.sctp_model.specs.sender.SenderView.{SenderView, fresh_sender};
ghost use Rattle.sctp_send.specs.SenderStands.{StandsFor, plain_limits};

use crate::kept::dues::Dues;
use crate::kept::fates::Fates;
use crate::kept::outstanding::Outstanding;
use crate::kept::queue::Queue;
use crate::kept::resets::OutgoingResets;
use crate::kept::shells::MOST_SHELLS;
use crate::kept::streams::Streams;
use crate::stock::Stock;
use crate::told::Told;
use sctp_framing::Framing;
use sctp_values::NoMemory;
use std::alloc::Global;
use std::marker::{Model, PhantomData};

/// The sending half of an endpoint, over DATA or I-DATA: the queue, the chunks that have a TSN, and what the peer acknowledged.
#[derive(Drop)]
pub struct Sender<F: Framing> {
    pub(crate) told: Told,
    pub(crate) parts: Stock,
    pub(crate) format: PhantomData<F>,
}

impl<F: Framing> Model for Sender<F> {
    ghost use Rattle.std.specs.Prelude.{map};
    ghost use Rattle.sctp_model.specs.sender.Words.{when};
    ghost use Rattle.sctp_send.specs.SenderKept.{Kept};

    ghost Value = { Kept };

    ghost use Rattle.sctp_send.specs.OutstandingFields.{item_meaning};
    ghost use Rattle.sctp_send.specs.SenderFields.{track_meaning, queued_by};
    ghost use Rattle.sctp_send.specs.inner.Entering.{IsSized};

    ghost view = { λ s. record {
      initial = s.told.initial;
      streams = s.told.streams;
      fragment = s.told.fragment;
      partial = s.told.partial;
      cum = s.told.cum;
      rwnd = s.told.rwnd;
      turn = s.parts.turn;
      items = map (item_meaning s.told.fragment) s.parts.outstanding.items;
      queue = map (queued_by s.told.fragment) s.parts.queue.items;
      tracks = map (track_meaning s.told.fragment) s.parts.streams.items;
      fates = s.told.fates.items;
      ended = s.told.fates.ended;
      abandoned = s.told.fates.abandoned;
      runs = when s.told.is_known s.told.covered.items;
      capacity = s.parts.outstanding.capacity;
      passed = s.told.dues.passed;
      moments = s.told.dues.moments;
      asleep = s.told.dues.asleep;
      before = s.told.before;
      forward = s.told.forward;
      resets = s.told.resets;
    } };

    ghost invariant = { λ s. IsSized F.format s.told.fragment s.parts };
}

#[tactic(auto, unfolding(crate::specs::SenderStands::StandsFor))]
impl<F: Framing> Sender<F> {
    /// A sender with an empty queue. `initial_tsn` is its first TSN, `streams` its number of outgoing streams, `fragment` the most bytes of a
    /// fragment, 1 to 1,400 (RFC 9260, 6.9), `peer_rwnd` the window that the peer advertised, in bytes (RFC 9260, 3.3.2), and `partial` whether
    /// both endpoints support partial reliability (RFC 3758, 3.3), so that messages with a TSN may be abandoned.
    ///
    /// # Errors
    /// `NoMemory` if an allocation fails.
    pub fn new(
        alloc: Global,
        initial_tsn: u32,
        streams: u16,
        fragment: u16,
        peer_rwnd: u32,
        partial: bool,
    ) -> Result<Sender<F>, NoMemory>
        requires some { 0 < fragment }
        requires short { fragment ≤ GREATEST_FRAGMENT }
        ensures { IfOk result (λ sender. StandsFor F.format sender (fresh_sender initial_tsn streams fragment peer_rwnd partial plain_limits)) }
    {
        let all_streams = Streams::new(alloc, streams, fragment, F::takes_turns())?;
        let mut shells = Vec::new(alloc);
        shells.reserve(MOST_SHELLS).map_err(|_| NoMemory)?;
        Ok(Sender {
            told: Told {
                alloc,
                initial: initial_tsn,
                streams,
                fragment,
                partial,
                cum: 0,
                before: 0,
                rwnd: peer_rwnd,
                fates: Fates::new(alloc),
                dues: Dues::new(alloc),
                covered: Vec::new(alloc),
                is_known: true,
                spare: Vec::new(alloc),
                forward: None,
                resets: OutgoingResets::none(),
                shells,
            },
            parts: Stock {
                // what is outstanding, by offset from CUM + 1
                outstanding: Outstanding::new(alloc, fragment, F::header() as u16),
                queue: Queue::new(alloc, fragment, F::takes_turns()),
                streams: all_streams,
                turn: 0,
                tickets: Vec::new(alloc),
            },
            format: PhantomData,
        })
    }
}
