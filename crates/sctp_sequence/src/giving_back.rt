//! When memory is given back: if it is for many items, and less than an eighth of it is used.

ghost use Rattle.std.specs.Prelude.{◌≡◌, ◌≤◌};

use std::collections::VecDeque;

/// Memory for no more than so many items is never given back: a list that is filled and emptied again and again would pay for that.
const MANY: usize = 128;

/// Memory for at least so many is kept.
const FEW: usize = 64;

/// Of the memory for `room` items less than an eighth is used.
#[inline(always)]
pub fn is_roomy(room: usize, items: usize) -> bool {
    room > MANY && items < room / 8
}

/// For how many items memory is kept then: as many as are there, and as many again.
pub fn kept_for(items: usize) -> usize
    ensures { items ≤ result }
{
    items.saturating_mul(2).max(FEW)
}

/// Gives memory back, if it is for many items, and less than an eighth of it is used; all of it stays if a smaller block can't be allocated.
pub fn give_back<T>(items: &mut VecDeque<T>)
    ensures { items.new.items ≡ items.old.items }
{
    if is_roomy(items.capacity(), items.len()) {
        let kept = kept_for(items.len());
        items.shrink_to(kept);
    }
}
