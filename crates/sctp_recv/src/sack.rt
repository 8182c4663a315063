//! A SACK that owns its lists, and one without lists.

ghost use Rattle.std.specs.Prelude.{◌≡◌, ◌%◌, length};

use sctp_wire::{Blocks, Sack, Tsns};

/// The contents of a SACK, with lists of its own (RFC 9260, 3.3.4).
#[derive(Drop)]
pub struct SackLists {
    pub(crate) cumulative: u32,
    pub(crate) rwnd: u32,
    pub(crate) blocks: Vec<u8>,
    pub(crate) duplicates: Vec<u8>,
    ghost whole_blocks: { length blocks.items % 4 ≡ 0 },
    ghost whole_duplicates: { length duplicates.items % 4 ≡ 0 },
}

/// The contents of a SACK that has neither gap ack blocks nor duplicates.
#[derive(Clone, Copy)]
pub struct PlainSack {
    pub cumulative: u32,
    pub rwnd: u32,
}

impl SackLists {
    ghost use Rattle.std.specs.Prelude.{◌≡◌};
    ghost use Rattle.sctp_wire.specs.ChunkTree.{sack_meaning};
    ghost use Rattle.sctp_recv.specs.SackOf.{lists_meaning};

    /// The SACK chunk, which borrows these lists.
    pub fn view(&self) -> Sack<'_>
        ensures { sack_meaning result ≡ lists_meaning self.now }
    {
        Sack {
            cumulative: self.cumulative,
            rwnd: self.rwnd,
            blocks: Blocks::new(&self.blocks),
            duplicates: Tsns::new(&self.duplicates),
        }
    }
}
