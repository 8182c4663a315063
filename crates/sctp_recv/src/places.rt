//! A number for each stream, in a tree of minima: the streams whose numbers are at most a limit are found without looking at the others.

ghost use Rattle.std.specs.Prelude.{◌≡◌, ◌+◌, ◌<◌, ◌≤◌, ℕ, Bool, List, length, OnOk};
ghost use Rattle.std.specs.List.{Contains};
ghost use Rattle.sctp_recv.specs.inner.Places.{low_at, IsTree, place_under};

use sctp_values::NoMemory;

/// For each stream a number, at most the index of each unordered chunk that is kept there. They are at the positions from `count` on, and at each
/// position p before it, but for 0, is the lesser of those at 2p and 2p + 1. The list has its final length from the beginning.
#[derive(Drop)]
pub(crate) struct Lows {
    pub(crate) count: u16,
    pub(crate) places: Vec<u64>,
    ghost size: { length places.items ≡ count + count },
    ghost tree: { IsTree places.items },
}

/// Sets a number at a position of the later half, and at each position above it the lesser of the two below.
pub(crate) fn put(places: &mut Vec<u64>, at: usize, low: u64)
    ensures size { length places.new.items ≡ length places.old.items }
    ensures tree { length places.old.items ≤ at + at → IsTree places.old.items → IsTree places.new.items }
    ensures here { at < length places.old.items → length places.old.items ≤ at + at → low_at places.new.items at ≡ low }
    ensures others { (q : ℕ) → length places.old.items ≤ q + q → (q ≡ at → ⊥) → low_at places.new.items q ≡ low_at places.old.items q }
{
    if at >= places.len() {
        return;
    }
    places[at] = low;
    let mut place = at;
    while place > 1 {
        place /= 2;
        let below = place * 2;
        if below + 1 < places.len() {
            places[place] = places[below].min(places[below + 1]);
        }
    }
}

/// Appends the streams whose numbers are below the position `at` of the tree and are at most `most`.
///
/// # Errors
/// Allocation failed.
pub(crate) fn gather(
    places: &[u64],
    count: u16,
    at: usize,
    most: u64,
    streams: &mut Vec<u16>,
) -> Result<(), NoMemory>
    ensures more { (s : ℕ) → Contains streams.old.items s → Contains streams.new.items s }
    ensures found { OnOk result ((path : List Bool) (s : ℕ) → IsTree places.now → length places.now ≡ count + count → 0 < at → place_under at path ≡ count + s → s < count
        → low_at places.now (count + s) ≤ most → Contains streams.new.items s) }
{
    if at == 0 || at >= places.len() || places[at] > most {
        return Ok(());
    }
    let first = usize::from(count);
    if at >= first {
        if let Ok(stream) = u16::try_from(at - first) {
            streams.push(stream).map_err(|_| NoMemory)?;
        }
        return Ok(());
    }
    gather(places, count, at * 2, most, streams)?;
    gather(places, count, at * 2 + 1, most, streams)
}
