//! The foot of a ladder: the packets that never arrived.

use crate::notes::put_name;
use crate::recording::Recording;
use crate::row::Packet;
use crate::style::Style;
use sctp_pair::Side;
use std::alloc::AllocError;

/// Appends the packets that never arrived, those of A first; nothing if all did. No line is wider than the ladder.
///
/// # Errors
/// An allocation failed.
pub(crate) fn put_foot(style: &Style, run: &Recording, out: &mut String) -> Result<(), AllocError> {
    let mut line = Line {
        width: style.width(),
        column: 0,
        begun: false,
    };
    line.put_lost(run, Side::A, out)?;
    line.put_lost(run, Side::B, out)?;
    if line.begun {
        out.push_str("\n")?;
    }
    Ok(())
}

/// What precedes the packets that never arrived, in their first line and in further ones.
const NEVER: &str = "          never came: ";

const BELOW: &str = "                      ";

/// A line of packets that never arrived.
#[derive(Drop)]
struct Line {
    width: usize,
    /// The number of columns used.
    column: usize,
    /// Whether it is not the first packet.
    begun: bool,
}

impl Line {
    /// Appends the packets of an endpoint that never arrived.
    fn put_lost(
        &mut self,
        run: &Recording,
        side: Side,
        out: &mut String,
    ) -> Result<(), AllocError> {
        for (index, life) in run.lives().of(side).iter().enumerate() {
            if life.comings == 0 {
                let mut name = String::new(run.alloc());
                let number = index.saturating_add(1);
                put_name(Packet { side, number }, &mut name)?;
                self.put(name.as_str(), out)?;
            }
        }
        Ok(())
    }

    /// Appends a packet.
    fn put(&mut self, name: &str, out: &mut String) -> Result<(), AllocError> {
        let next = self.column.saturating_add(name.len()).saturating_add(3);
        if !self.begun {
            out.push_str(NEVER)?;
            self.column = NEVER.len();
        } else if next > self.width {
            out.push_str(",\n")?;
            out.push_str(BELOW)?;
            self.column = BELOW.len();
        } else {
            out.push_str(", ")?;
            self.column = self.column.saturating_add(2);
        }
        self.begun = true;
        self.column = self.column.saturating_add(name.len());
        out.push_str(name)
    }
}
