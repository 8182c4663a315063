//! Borrowing an item mutably.

ghost use Rattle.std.specs.Prelude.{◌≡◌, ◌<◌, length, slice_index_or};
ghost use Rattle.std.specs.Borrow.{sem};

use crate::blocks::find;
use crate::sequence::Sequence;

impl<T> Sequence<T> {
    ghost use Rattle.sctp_sequence.specs.Lending.{LendsItem};

    /// The item at a position, to be changed there.
    #[inline(always)]
    pub fn get_mut(&mut self, at: usize) -> &mut T
        requires { at < length self.old.items }
        ensures* writes_back { sem 𝓛 (LendsItem T.row self.entry at result) }
        ensures value { result.now ≡ slice_index_or self.old.items at result.now }
    {
        let before = self.first.len();
        if at < before {
            return &mut self.first[at];
        }
        let place = find(&self.rest, &self.starts, at - before);
        &mut self.rest[place.block][place.offset]
    }
}
