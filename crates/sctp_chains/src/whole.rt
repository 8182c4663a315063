//! A message whose fragments have all been received.

ghost use Rattle.std.specs.Prelude.{◌≡◌};
ghost use Rattle.sctp_chains.specs.Links.{parts_in, chain_of};
ghost use Rattle.sctp_chains.specs.Fragments.{fragments_in};
ghost use Rattle.sctp_chains.specs.WholeOf.{IsWholeOf};

use crate::chain::{Chain, Head};
use crate::parts::Parts;

/// The data of a message's fragments. That of a single one is here itself, without a list.
#[derive(Debug, PartialEq, Drop)]
pub enum Fragments {
    /// The data of a single fragment.
    One([Vec<u8>; 1]),
    /// The data of several, first to last.
    Many(Vec<Vec<u8>>),
}

impl Fragments {
    /// The data of each, first to last.
    #[inline(always)]
    pub fn all(&self) -> &[Vec<u8>]
        ensures { result.now ≡ fragments_in self.now }
    {
        match self {
            Fragments::One(one) => one,
            Fragments::Many(more) => more,
        }
    }
}

/// A complete message that was taken out, its fragments as they were recorded.
#[derive(Debug, Drop)]
pub struct Whole {
    /// The index of its first chunk.
    pub first: u64,
    /// Its number in its lane; None for an unordered message under DATA.
    pub number: Option<u64>,
    /// The payload protocol identifier.
    pub payload_id: u32,
    /// The data of its fragments, first to last.
    pub parts: Fragments,
}

/// The parts of a chain as those of a message.
#[inline(always)]
fn fragments_of(parts: Parts) -> Fragments
    ensures { fragments_in result ≡ parts_in parts }
{
    match parts {
        Parts::One(part) => Fragments::One([part]),
        Parts::Many(list) => Fragments::Many(list.into_vec()),
    }
}

/// A chain as the complete message that it is.
#[inline(always)]
pub(crate) fn whole_of(chain: Chain, head: Head, number: Option<u64>) -> Whole
    ensures { IsWholeOf (chain_of chain) head number result }
{
    Whole {
        first: head.index,
        number,
        payload_id: head.payload_id,
        parts: fragments_of(chain.parts),
    }
}
