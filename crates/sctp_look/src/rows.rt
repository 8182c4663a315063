//! Collects the rows of a picture, event by event.

use crate::row::{Arrow, Deed, Note, Packet, Row, Standing};
use sctp_pair::{Pair, Side};
use std::alloc::{AllocError, Global};

/// The rows, and the states of both endpoints as last shown.
#[derive(Drop)]
pub(crate) struct Rows {
    rows: Vec<Row>,
    shown_a: Option<Standing>,
    shown_b: Option<Standing>,
}

impl Rows {
    /// No row.
    pub(crate) fn new(alloc: Global) -> Rows {
        Rows {
            rows: Vec::new(alloc),
            shown_a: None,
            shown_b: None,
        }
    }

    /// The rows.
    pub(crate) fn as_slice(&self) -> &[Row] {
        &self.rows
    }

    /// The number of rows.
    pub(crate) fn len(&self) -> usize {
        self.rows.len()
    }

    /// Appends a row: the time of this endpoint's clock, what both endpoints did, their states if these are new, and what goes between them.
    ///
    /// # Errors
    /// An allocation failed.
    pub(crate) fn push(
        &mut self,
        pair: &Pair,
        by: Side,
        at_a: Option<Deed>,
        at_b: Option<Deed>,
        arrow: Option<Arrow>,
    ) -> Result<(), AllocError> {
        let moment = pair.clock(by);
        let begins = self.rows.last().is_none_or(|row| row.moment != moment);
        let row = Row {
            moment,
            begins,
            at_a: self.note(pair, Side::A, at_a),
            at_b: self.note(pair, Side::B, at_b),
            arrow,
        };
        self.rows.push(row)?;
        Ok(())
    }

    /// Appends a row in which one endpoint did something, at the time of its clock.
    ///
    /// # Errors
    /// An allocation failed.
    pub(crate) fn push_at(
        &mut self,
        pair: &Pair,
        side: Side,
        deed: Option<Deed>,
        arrow: Option<Arrow>,
    ) -> Result<(), AllocError> {
        match side {
            Side::A => self.push(pair, side, deed, None, arrow),
            Side::B => self.push(pair, side, None, deed, arrow),
        }
    }

    /// Whether the last row shows this packet leaving.
    pub(crate) fn has_just_left(&self, packet: Packet) -> bool {
        match self.rows.last().and_then(|row| row.arrow) {
            Some(Arrow::Leaves { packet: last }) => last == packet,
            _ => false,
        }
    }

    /// Shows that the packet that leaves in the last row arrives in the same row.
    pub(crate) fn join(&mut self, pair: &Pair, packet: Packet, deed: Option<Deed>) {
        let to = packet.side.other();
        let note = self.note(pair, to, deed);
        if let Some(row) = self.rows.last_mut() {
            row.arrow = Some(Arrow::Crosses { packet });
            match to {
                Side::A => row.at_a = note,
                Side::B => row.at_b = note,
            }
        }
    }

    /// What an endpoint did, and its state if that isn't the one last shown.
    fn note(&mut self, pair: &Pair, side: Side, deed: Option<Deed>) -> Note {
        let end = pair.end(side);
        let standing = Standing {
            state: end.state(),
            ended: end.ended(),
        };
        let shown = match side {
            Side::A => &mut self.shown_a,
            Side::B => &mut self.shown_b,
        };
        let begun = if *shown == Some(standing) {
            None
        } else {
            Some(standing)
        };
        *shown = Some(standing);
        Note { deed, begun }
    }
}
