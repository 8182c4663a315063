//! Records the events of a pair as rows.

use crate::lives::Lives;
use crate::row::{Arrow, Call, Deed, Packet, Row, Taken};
use crate::rows::Rows;
use crate::waits::Waits;
use sctp_pair::{Event, Outcome, Pair, Side, Ticket, TwoConfigs};
use std::alloc::{AllocError, Global};

/// A pair and the rows of its events.
#[derive(Drop)]
pub(crate) struct Recording {
    alloc: Global,
    pair: Pair,
    rows: Rows,
    lives: Lives,
    waits: Waits,
    /// The packets of third parties, first to last.
    strange: Vec<Vec<u8>>,
}

impl Recording {
    /// A new pair without rows.
    ///
    /// # Errors
    /// An allocation failed.
    pub(crate) fn new(alloc: Global, configs: TwoConfigs) -> Result<Recording, AllocError> {
        let pair = Pair::of_two(alloc, configs).map_err(|_| AllocError)?;
        Ok(Recording {
            alloc,
            pair,
            rows: Rows::new(alloc),
            lives: Lives::new(alloc),
            waits: Waits::new(configs.caller().delay(), configs.listener().delay()),
            strange: Vec::new(alloc),
        })
    }

    /// Adds the first row, with the states of both endpoints.
    ///
    /// # Errors
    /// An allocation failed.
    pub(crate) fn begin(&mut self) -> Result<(), AllocError> {
        self.rows.push(&self.pair, Side::A, None, None, None)
    }

    /// The allocator.
    pub(crate) fn alloc(&self) -> Global {
        self.alloc
    }

    /// The rows.
    pub(crate) fn rows(&self) -> &[Row] {
        self.rows.as_slice()
    }

    /// What became of the packets.
    pub(crate) fn lives(&self) -> &Lives {
        &self.lives
    }

    /// The bytes of a packet, none if there is no such packet.
    pub(crate) fn bytes(&self, packet: Packet) -> &[u8] {
        packet.bytes(&self.pair)
    }

    /// A third party's packet by its number, none if there is no such number.
    pub(crate) fn strange(&self, index: usize) -> &[u8] {
        match self.strange.get(index) {
            Some(bytes) => bytes.as_slice(),
            None => &[],
        }
    }

    /// Makes an event and shows it. A `draw` isn't shown.
    ///
    /// # Errors
    /// An allocation failed.
    pub(crate) fn record(&mut self, event: &Event) -> Result<(), AllocError> {
        let Ok(outcome) = self.pair.step(event) else {
            return Err(AllocError);
        };
        match event {
            Event::Drawing { .. } => Ok(()),
            Event::At { moment } => self.wait(*moment),
            Event::Later { side, moment } => {
                self.show(*side, Some(Deed::Later { moment: *moment }), None)
            }
            Event::Moment { side } => self.show(*side, Some(Deed::Moment), None),
            Event::Open { .. } => self.call(Side::A, Call::Open, &outcome),
            Event::Connect { .. } => self.call(Side::A, Call::Connect, &outcome),
            Event::Build { side } => self.build(*side, &outcome),
            Event::Deliver { side, number } => self.deliver(*side, *number, &outcome),
            Event::Foreign { side, bytes } => self.meet(*side, bytes, &outcome),
            Event::Send { .. } | Event::SendWithMaxRetransmits { .. } => {
                self.send(event, &outcome)
            }
            Event::Abandon { side, ticket } => self.abandon(*side, *ticket, &outcome),
            Event::Take { side, stream } => self.take(*side, *stream, &outcome),
            Event::Reset { side, stream } => {
                self.call(*side, Call::Reset { stream: *stream }, &outcome)
            }
            Event::WasReset { side } => self.tell_reset(*side, &outcome),
            Event::Shutdown { side } => self.call(*side, Call::Shutdown, &outcome),
            Event::Abort { side, .. } => self.abort(*side, &outcome),
        }
    }

    /// Shows the time, at both endpoints.
    fn wait(&mut self, moment: u64) -> Result<(), AllocError> {
        let deed = Some(Deed::At { moment });
        self.rows.push(&self.pair, Side::A, deed, deed, None)
    }

    /// Shows a call of an endpoint's user.
    fn call(&mut self, side: Side, call: Call, outcome: &Outcome) -> Result<(), AllocError> {
        self.show(side, Some(Deed::of_call(call, outcome)), None)
    }

    /// Shows that an endpoint's user sends a message.
    fn send(&mut self, event: &Event, outcome: &Outcome) -> Result<(), AllocError> {
        match Call::of_send(event, outcome) {
            Some((side, call)) => self.call(side, call, outcome),
            None => Ok(()),
        }
    }

    /// Shows that an endpoint's user abandons a message.
    fn abandon(&mut self, side: Side, ticket: Ticket, outcome: &Outcome) -> Result<(), AllocError> {
        let deed = match outcome {
            Outcome::Fate { fate } => Some(Deed::Abandoned {
                ticket: ticket.0,
                fate: *fate,
            }),
            _ => None,
        };
        self.show(side, deed, None)
    }

    /// Shows that an endpoint's user takes a message.
    fn take(&mut self, side: Side, stream: u16, outcome: &Outcome) -> Result<(), AllocError> {
        let message = match outcome {
            Outcome::Message { message } => Some(Taken {
                ordered: message.ordered,
                number: message.number,
                length: message.len(),
            }),
            _ => None,
        };
        self.show(side, Some(Deed::Taken { stream, message }), None)
    }

    /// Shows which stream an endpoint's user is told that the peer has reset.
    fn tell_reset(&mut self, side: Side, outcome: &Outcome) -> Result<(), AllocError> {
        let there = match outcome {
            Outcome::ResetThere { stream, count } => Some((*stream, *count)),
            _ => None,
        };
        self.show(side, Some(Deed::Resets { there }), None)
    }

    /// Shows that a packet of an endpoint leaves, or that it has none.
    fn build(&mut self, side: Side, outcome: &Outcome) -> Result<(), AllocError> {
        match outcome {
            Outcome::Sent { number, .. } => {
                let packet = Packet {
                    side,
                    number: *number,
                };
                let bytes = packet.bytes(&self.pair);
                let wait = self.waits.left(side, bytes, self.pair.clock(side));
                self.leave(side, *number, wait.map(|wait| Deed::Waited { wait }))
            }
            _ => self.show(side, Some(Deed::Quiet), None),
        }
    }

    /// Shows that a packet arrives at the other endpoint.
    fn deliver(&mut self, side: Side, number: u32, outcome: &Outcome) -> Result<(), AllocError> {
        let number = number as usize;
        let packet = Packet { side, number };
        if matches!(outcome, Outcome::Absent) {
            return self.show(side, Some(Deed::Absent { packet }), None);
        }
        let time = self.lives.count(packet);
        let to = side.other();
        let deed = Deed::of_drop(outcome);
        if deed.is_none() {
            let bytes = packet.bytes(&self.pair);
            self.waits.came(to, bytes, self.pair.clock(to));
        }
        if self.rows.has_just_left(packet) {
            self.rows.join(&self.pair, packet, deed);
        } else {
            self.show(to, deed, Some(Arrow::Comes { packet, time }))?;
        }
        self.answer(to, outcome)
    }

    /// Shows that a third party's packet arrives at an endpoint.
    fn meet(&mut self, to: Side, bytes: &[u8], outcome: &Outcome) -> Result<(), AllocError> {
        if Deed::of_drop(outcome).is_none() {
            self.waits.came(to, bytes, self.pair.clock(to));
        }
        let bytes = Vec::from_slice(self.alloc, bytes)?;
        let index = self.strange.len();
        self.strange.push(bytes)?;
        self.show(
            to,
            Deed::of_drop(outcome),
            Some(Arrow::Strange { to, index }),
        )?;
        self.answer(to, outcome)
    }

    /// Shows that an endpoint's user aborts the association, and that its packet leaves.
    fn abort(&mut self, side: Side, outcome: &Outcome) -> Result<(), AllocError> {
        let deed = Deed::of_call(Call::Abort, outcome);
        match outcome {
            Outcome::Answer { number, .. } => self.leave(side, *number, Some(deed)),
            _ => self.show(side, Some(deed), None),
        }
    }

    /// Shows the packet with which an endpoint answers, if there is one.
    fn answer(&mut self, side: Side, outcome: &Outcome) -> Result<(), AllocError> {
        match outcome {
            Outcome::Answer { number, .. } => self.leave(side, *number, None),
            _ => Ok(()),
        }
    }

    /// Shows that a packet of an endpoint leaves.
    fn leave(&mut self, side: Side, number: usize, deed: Option<Deed>) -> Result<(), AllocError> {
        self.lives.begin(side, self.rows.len())?;
        let packet = Packet { side, number };
        self.show(side, deed, Some(Arrow::Leaves { packet }))
    }

    /// Adds a row for what an endpoint did.
    fn show(
        &mut self,
        side: Side,
        deed: Option<Deed>,
        arrow: Option<Arrow>,
    ) -> Result<(), AllocError> {
        self.rows.push_at(&self.pair, side, deed, arrow)
    }
}
