//! Tests of lists in blocks: many items are inserted between others, found, replaced and removed.

use sctp_sequence::Sequence;
use std::alloc::Global;
use std::test::Fail;

/// The even numbers below `2 * half`, and then each odd one inserted between them.
fn numbers(alloc: Global, half: usize) -> Result<Sequence<usize>, Fail> {
    let mut items = Sequence::new(alloc);
    for n in 0..half {
        items.push_back(n.wrapping_mul(2))?;
    }
    for n in 0..half {
        let number = n.wrapping_mul(2).wrapping_add(1);
        items.insert(number.min(items.len()), number)?;
    }
    Ok(items)
}

/// Whether the items are an arithmetic progression with this first item and this step.
fn count_up(items: &Sequence<usize>, first: usize, step: usize) -> bool {
    let mut next = first;
    for at in 0..items.len() {
        if *items.get(at) != next {
            return false;
        }
        next = next.wrapping_add(step);
    }
    true
}

#[test]
fn items_come_amid_others_and_are_found(rt: HostRuntime) -> Result<(), Fail> {
    for half in [0, 1, 255, 256, 257, 1_800] {
        let mut items = numbers(rt.alloc(), half)?;
        assert_eq!(rt; items.len(), half.wrapping_mul(2));
        assert!(rt; count_up(&items, 0, 1));
        for bound in [0, 1, 256, 511, 512, 513, 1_280, 2_000] {
            let found = items.partition_point(|number: &usize| *number < bound);
            assert_eq!(rt; found, bound.min(items.len()), "{half} below {bound}");
        }
        items.reserve()?;
        assert!(rt; count_up(&items, 0, 1));
    }
    Ok(())
}

#[test]
fn items_go_and_are_replaced(rt: HostRuntime) -> Result<(), Fail> {
    for half in [1, 255, 256, 257, 1_800] {
        let mut items = numbers(rt.alloc(), half)?;
        for at in 0..half {
            assert_eq!(rt; items.remove(at), Some(at.wrapping_mul(2)));
        }
        assert!(rt; count_up(&items, 1, 2));
        assert_eq!(rt; items.remove(half), None);
        if !items.is_empty() {
            let last = items.len() - 1;
            assert_eq!(rt;
                items.replace(last, 7),
                last.wrapping_mul(2).wrapping_add(1)
            );
            assert_eq!(rt; *items.get(last), 7);
        }
        for n in 1..half {
            assert_eq!(rt; items.pop_front(), Some(n.wrapping_mul(2) - 1));
        }
        assert_eq!(rt; items.pop_front(), Some(7));
        assert_eq!(rt; items.pop_front(), None);
        assert!(rt; items.is_empty());
    }
    Ok(())
}

/// A pseudo-random place below a bound.
fn scattered(n: usize, bound: usize) -> usize {
    if bound == 0 {
        return 0;
    }
    n.wrapping_mul(7_919) % bound
}

/// Whether both have the same items in the same order.
fn are_same(items: &Sequence<usize>, plain: &Vec<usize>) -> bool {
    if items.len() != plain.len() {
        return false;
    }
    for at in 0..items.len() {
        if *items.get(at) != plain[at] {
            return false;
        }
    }
    true
}

#[test]
fn items_come_and_go_as_in_a_plain_list(rt: HostRuntime) -> Result<(), Fail> {
    let mut items = Sequence::new(rt.alloc());
    let mut plain = Vec::new(rt.alloc());
    for n in 0..4_000 {
        let at = scattered(n, plain.len());
        items.insert(at.min(items.len()), n)?;
        plain.insert(at.min(plain.len()), n)?;
        if n % 3 == 2 {
            let at = scattered(n, plain.len());
            if at < plain.len() {
                assert_eq!(rt; items.remove(at), Some(plain.remove(at)));
            }
        }
        assert!(rt; n % 64 != 0 || are_same(&items, &plain));
    }
    for n in 0..2_000 {
        // Blocks between others become empty.
        let at = 600;
        if at < plain.len() {
            assert_eq!(rt; items.remove(at), Some(plain.remove(at)));
        }
        assert!(rt; n % 64 != 0 || are_same(&items, &plain));
    }
    for _ in 0..plain.len() {
        if !plain.is_empty() {
            assert_eq!(rt; items.pop_front(), Some(plain.remove(0)));
        }
        assert!(rt; are_same(&items, &plain));
    }
    assert!(rt; items.is_empty());
    Ok(())
}

#[test]
fn all_items_go_at_once(rt: HostRuntime) -> Result<(), Fail> {
    for half in [0, 1, 256, 257, 1_800] {
        let mut items = numbers(rt.alloc(), half)?;
        items.clear();
        assert!(rt; items.is_empty());
        assert_eq!(rt; items.pop_front(), None);
        items.push_back(7)?;
        assert_eq!(rt; items.len(), 1);
        assert_eq!(rt; items.pop_front(), Some(7));
    }
    Ok(())
}
