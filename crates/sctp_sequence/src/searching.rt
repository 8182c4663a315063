//! Searching a list that is partitioned by a predicate.

ghost use Rattle.std.specs.Prelude.{◌≡◌, ◌≤◌, Bool, true, false, length};
ghost use Rattle.std.specs.Fn.{ComputesKey};
ghost use Rattle.std.specs.List.Sorted.{IsPartitionedBy, IsPartitionPoint};

use crate::sequence::Sequence;

impl<T> Sequence<T> {
    /// How many items at the front satisfy the predicate, if none after them satisfies it.
    pub fn partition_point<P: FnMut(&T) -> bool>(&self, mut pred: P) -> usize
        requires { P.IsAlwaysCallable pred }
        ensures bound { result ≤ length self.now.items }
        ensures partitioned { (p : T → Bool) → ComputesKey P.FnMut p pred → IsPartitionedBy p self.now.items → IsPartitionPoint (λ y. p y ≡ true) (λ y. p y ≡ false) self.now.items result }
    {
        // No sum below is greater.
        let _count = self.len();
        let mut low = 0;
        let mut high = self.rest.len();
        while low < high {
            let middle = low + (high - low) / 2;
            if pred(&self.rest[middle][0]) {
                low = middle + 1;
            } else {
                high = middle;
            }
        }
        if low == 0 {
            return self.first.partition_point(pred);
        }
        let before = self.first.len() + self.starts[low - 1];
        before + self.rest[low - 1].partition_point(pred)
    }
}
