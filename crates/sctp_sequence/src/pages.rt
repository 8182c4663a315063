//! Searching numbers in pages of 64.

ghost use Rattle.std.specs.Prelude.{◌≡◌, ℕ, ◌<◌, ◌≤◌, drop, length, slice_index_or, IfSome, IfNone};
ghost use Rattle.std.specs.Vec.{vec_capacity};
ghost use Rattle.std.specs.VecDeque.{deque_capacity};
ghost use Rattle.sctp_sequence.specs.Pages.{AreLeast, IsLeast};

use std::collections::VecDeque;

/// How many numbers in a row are a page.
pub(crate) const PAGE: usize = 64;

/// A page's number is no more than this one from now on.
pub(crate) fn lower_page(leasts: &mut Vec<u64>, at: usize, number: u64)
    ensures long { length leasts.new.items ≡ length leasts.old.items }
    ensures each { (k d : ℕ) → slice_index_or leasts.new.items k d ≤ slice_index_or leasts.old.items k d }
    ensures above { (m k d : ℕ) → m ≤ number → m ≤ slice_index_or leasts.old.items k d → m ≤ slice_index_or leasts.new.items k d }
    ensures here { (d : ℕ) → at < length leasts.new.items → slice_index_or leasts.new.items at d ≤ number }
    ensures capacity { vec_capacity leasts.new ≡ vec_capacity leasts.old }
{
    if at < leasts.len() {
        leasts[at] = leasts[at].min(number);
    }
}

/// The first position from one on, before another, of a number up to the bound; or that other.
fn first_in(numbers: &[u64], from: usize, end: usize, bound: u64) -> usize
    requires within { end ≤ length numbers.now }
    ensures within { result ≤ end }
    ensures above { result < end → from ≤ result }
    ensures found { (d : ℕ) → result < end → slice_index_or numbers.now result d ≤ bound }
    ensures before { (k d : ℕ) → from ≤ k → k < result → bound < slice_index_or numbers.now k d }
{
    for at in from..end {
        if numbers[at] <= bound {
            return at;
        }
    }
    end
}

/// The same of a deque, whose numbers are in two slices.
#[inline(never)]
fn first_between(numbers: &VecDeque<u64>, from: usize, end: usize, bound: u64) -> Option<usize>
    requires within { end ≤ length numbers.now.items }
    ensures some { IfSome result (λ at. from ≤ at) }
    ensures within { IfSome result (λ at. at < end) }
    ensures found { IfSome result (λ at. (d : ℕ) → slice_index_or numbers.now.items at d ≤ bound) }
    ensures before { IfSome result (λ at. (k d : ℕ) → from ≤ k → k < at → bound < slice_index_or numbers.now.items k d) }
    ensures none { IfNone result ((k d : ℕ) → from ≤ k → k < end → bound < slice_index_or numbers.now.items k d) }
{
    let (front, back) = numbers.as_slices();
    let many = front.len();
    let in_front = end.min(many);
    let at = first_in(front, from, in_front, bound);
    if at < in_front {
        return Some(at);
    }
    let behind = end.saturating_sub(many);
    let at = first_in(back, from.saturating_sub(many), behind, bound);
    if at < behind {
        return Some(many + at);
    }
    None
}

/// The first position from one on of a number up to the bound.
#[inline(never)]
pub(crate) fn first_due(
    numbers: &VecDeque<u64>,
    leasts: &[u64],
    from: usize,
    bound: u64,
) -> Option<usize>
    requires { AreLeast numbers.now.items leasts.now }
    ensures some { IfSome result (λ at. from ≤ at) }
    ensures within { IfSome result (λ at. at < length numbers.now.items) }
    ensures found { IfSome result (λ at. (d : ℕ) → slice_index_or numbers.now.items at d ≤ bound) }
    ensures before { IfSome result (λ at. (k d : ℕ) → from ≤ k → k < at → bound < slice_index_or numbers.now.items k d) }
    ensures none { IfNone result ((k d : ℕ) → from ≤ k → k < length numbers.now.items → bound < slice_index_or numbers.now.items k d) }
{
    for page in from / PAGE..leasts.len() {
        if leasts[page] <= bound {
            let start = page * PAGE;
            let end = numbers.len().min(start + PAGE);
            if let Some(at) = first_between(numbers, from.max(start), end, bound) {
                return Some(at);
            }
        }
    }
    None
}

/// A number that is no more than those at positions from one on, before another.
fn least_in(numbers: &[u64], from: usize, end: usize) -> u64
    requires within { end ≤ length numbers.now }
    ensures { (k d : ℕ) → from ≤ k → k < end → result ≤ slice_index_or numbers.now k d }
{
    let mut least = u64::MAX;
    for at in from..end {
        least = least.min(numbers[at]);
    }
    least
}

/// The same of a deque.
#[inline(never)]
fn least_of(numbers: &VecDeque<u64>, from: usize, end: usize) -> u64
    requires within { end ≤ length numbers.now.items }
    ensures { (k d : ℕ) → from ≤ k → k < end → result ≤ slice_index_or numbers.now.items k d }
{
    let (front, back) = numbers.as_slices();
    let many = front.len();
    let least = least_in(front, from, end.min(many));
    least.min(least_in(back, from.saturating_sub(many), end.saturating_sub(many)))
}

/// Each page whose number is up to the bound gets its least one. It answers the least of all pages.
#[inline(never)]
pub(crate) fn look_at(numbers: &VecDeque<u64>, leasts: &mut [u64], bound: u64) -> u64
    requires { AreLeast numbers.now.items leasts.old }
    ensures least { AreLeast numbers.now.items leasts.new }
    ensures lowest { IsLeast result leasts.new }
{
    let mut lowest = u64::MAX;
    for page in 0..leasts.len() {
        let mut least = leasts[page];
        if least <= bound {
            let start = page * PAGE;
            least = least_of(numbers, start, numbers.len().min(start + PAGE));
            leasts[page] = least;
        }
        lowest = lowest.min(least);
    }
    lowest
}

/// So many of the first numbers go.
pub(crate) fn drop_first(numbers: &mut VecDeque<u64>, many: usize)
    ensures items { numbers.new.items ≡ drop many numbers.old.items }
    ensures capacity { deque_capacity numbers.new ≡ deque_capacity numbers.old }
{
    for _ in 0..many {
        let _gone = numbers.pop_front();
    }
}

/// The first page's number goes, if there is one.
pub(crate) fn drop_page(leasts: &mut Vec<u64>)
    ensures items { leasts.new.items ≡ drop 1 leasts.old.items }
    ensures capacity { vec_capacity leasts.new ≡ vec_capacity leasts.old }
{
    if !leasts.is_empty() {
        let _gone = leasts.remove(0);
    }
}
