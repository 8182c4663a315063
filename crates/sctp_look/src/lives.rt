//! What becomes of the packets of both endpoints.

use crate::row::{Life, Packet};
use sctp_pair::Side;
use std::alloc::{AllocError, Global};

/// What becomes of all packets that left, those of each endpoint first to last.
#[derive(Drop)]
pub(crate) struct Lives {
    from_a: Vec<Life>,
    from_b: Vec<Life>,
}

impl Lives {
    /// No packet.
    pub(crate) fn new(alloc: Global) -> Lives {
        Lives {
            from_a: Vec::new(alloc),
            from_b: Vec::new(alloc),
        }
    }

    /// Those of an endpoint's packets.
    pub(crate) fn of(&self, side: Side) -> &[Life] {
        match side {
            Side::A => &self.from_a,
            Side::B => &self.from_b,
        }
    }

    /// What becomes of a packet. None if there is no such packet.
    pub(crate) fn get(&self, packet: Packet) -> Option<Life> {
        self.of(packet.side)
            .get(packet.number.checked_sub(1)?)
            .copied()
    }

    /// Notes that an endpoint's next packet leaves in a row.
    ///
    /// # Errors
    /// An allocation failed.
    pub(crate) fn begin(&mut self, side: Side, left: usize) -> Result<(), AllocError> {
        self.of_mut(side).push(Life { left, comings: 0 })?;
        Ok(())
    }

    /// Counts the arrival of a packet. Returns how often it has arrived, 0 if there is no such packet.
    pub(crate) fn count(&mut self, packet: Packet) -> u32 {
        let Some(index) = packet.number.checked_sub(1) else {
            return 0;
        };
        match self.of_mut(packet.side).get_mut(index) {
            Some(life) => {
                life.comings = life.comings.saturating_add(1);
                life.comings
            }
            None => 0,
        }
    }

    /// Those of an endpoint's packets, to be changed.
    fn of_mut(&mut self, side: Side) -> &mut Vec<Life> {
        match side {
            Side::A => &mut self.from_a,
            Side::B => &mut self.from_b,
        }
    }
}
