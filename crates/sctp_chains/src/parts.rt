//! The data of a chain's fragments. A list is allocated for the second one only, so that a message of one fragment costs none. The parts of two chains,
//! and one between them, are joined in one list: the shorter is moved to the longer.

ghost use Rattle.std.specs.Prelude.{◌≡◌, ◌≤◌, ◌<◌, ◌+◌, ◌++◌, [], ◌∷◌, length, drop, IfOk, OnOk, OnErr};
ghost use Rattle.std.specs.VecDeque.{deque_len, deque_capacity};
ghost use Rattle.sctp_chains.specs.Links.{parts_in};
ghost use Rattle.sctp_chains.specs.inner.Filing.{HasRoom};

use sctp_values::NoMemory;
use std::alloc::Global;
use std::collections::VecDeque;
use std::mem::replace;

/// The data of a chain's fragments, first to last.
#[derive(Drop)]
pub(crate) enum Parts {
    /// That of a single one.
    One(Vec<u8>),
    /// A list of any number.
    Many(VecDeque<Vec<u8>>),
}

impl Parts {
    /// None. Nothing is allocated.
    pub(crate) fn none(alloc: Global) -> Parts
        ensures { parts_in result ≡ [] }
    {
        Parts::Many(VecDeque::new(alloc))
    }

    /// How many there are.
    pub(crate) fn len(&self) -> usize
        ensures { result ≡ length (parts_in self.now) }
    {
        match self {
            Parts::One(_) => 1,
            Parts::Many(list) => list.len(),
        }
    }

    /// The allocator.
    pub(crate) fn allocator(&self) -> Global {
        match self {
            Parts::One(part) => *part.allocator(),
            Parts::Many(list) => *list.allocator(),
        }
    }

    /// Makes a list of them, with capacity for a number of further ones.
    ///
    /// # Errors
    /// Allocation failed, and nothing changed.
    #[inline(always)]
    pub(crate) fn reserve(&mut self, more: usize) -> Result<(), NoMemory>
        ensures same { parts_in self.new ≡ parts_in self.old }
        ensures room { OnOk result (HasRoom self.new more) }
    {
        let list = match self {
            Parts::Many(list) => return list.reserve(more).map_err(|_| NoMemory),
            Parts::One(part) => listed(part, more)?,
        };
        *self = Parts::Many(list);
        Ok(())
    }

    /// Appends one.
    ///
    /// # Errors
    /// Allocation failed, and nothing changed.
    #[inline(always)]
    pub(crate) fn push_back(&mut self, part: Vec<u8>) -> Result<(), NoMemory>
        ensures put { OnOk result (parts_in self.new ≡ parts_in self.old ++ part ∷ []) }
        ensures refused { OnErr result (parts_in self.new ≡ parts_in self.old) }
    {
        self.reserve(1)?;
        let Parts::Many(list) = self else {
            return Err(NoMemory);
        };
        list.push_back_reserved(part);
        Ok(())
    }

    /// Prepends one.
    ///
    /// # Errors
    /// Allocation failed, and nothing changed.
    pub(crate) fn push_front(&mut self, part: Vec<u8>) -> Result<(), NoMemory>
        ensures put { OnOk result (parts_in self.new ≡ part ∷ parts_in self.old) }
        ensures refused { OnErr result (parts_in self.new ≡ parts_in self.old) }
    {
        self.reserve(1)?;
        let Parts::Many(list) = self else {
            return Err(NoMemory);
        };
        list.push_front_reserved(part);
        Ok(())
    }

    /// Drops a number of them at the front, fewer than there are.
    pub(crate) fn drop_front(&mut self, count: usize)
        requires { count < length (parts_in self.old) }
        ensures { parts_in self.new ≡ drop count (parts_in self.old) }
    {
        if let Parts::Many(list) = self {
            drop_front_of(list, count);
        }
    }
}

/// A list of one part, with capacity for a number of further ones.
///
/// # Errors
/// Allocation failed, and the part is where it was.
fn listed(part: &mut Vec<u8>, more: usize) -> Result<VecDeque<Vec<u8>>, NoMemory>
    ensures list { IfOk result (λ list. list.items ≡ part.old ∷ []) }
    ensures room { IfOk result (λ list. deque_len list + more ≤ deque_capacity list) }
    ensures refused { OnErr result (part.new ≡ part.old) }
{
    let alloc = *part.allocator();
    let count = more.checked_add(1).ok_or(NoMemory)?;
    let mut list = VecDeque::with_capacity(alloc, count).map_err(|_| NoMemory)?;
    list.push_back_reserved(replace(part, Vec::new(alloc)));
    Ok(list)
}

/// Drops a number of parts at the front of a list.
fn drop_front_of(list: &mut VecDeque<Vec<u8>>, count: usize)
    requires { count < length list.old.items }
    ensures { list.new.items ≡ drop count list.old.items }
{
    let stay = list.len() - count;
    list.rotate_left(count);
    list.truncate(stay);
}

/// Appends a part to these, and `behind` after that. There is capacity for them.
pub(crate) fn put_behind(parts: &mut Parts, between: Vec<u8>, behind: Parts)
    requires { HasRoom parts.old (length (parts_in behind) + 1) }
    ensures { parts_in parts.new ≡ parts_in parts.old ++ between ∷ parts_in behind }
{
    let list = match parts {
        // Only a list has capacity.
        Parts::One(_) => return,
        Parts::Many(list) => list,
    };
    list.push_back_reserved(between);
    match behind {
        Parts::One(part) => list.push_back_reserved(part),
        Parts::Many(mut others) => {
            let _ = list.append(&mut others);
        }
    }
}

/// Prepends a part to these, and `before` before that. There is capacity for them.
pub(crate) fn put_before(parts: &mut Parts, between: Vec<u8>, before: Parts)
    requires { HasRoom parts.old (length (parts_in before) + 1) }
    ensures { parts_in parts.new ≡ parts_in before ++ between ∷ parts_in parts.old }
{
    let list = match parts {
        // Only a list has capacity.
        Parts::One(_) => return,
        Parts::Many(list) => list,
    };
    list.push_front_reserved(between);
    match before {
        Parts::One(part) => list.push_front_reserved(part),
        Parts::Many(others) => put_all_before(list, others),
    }
}

/// Prepends all of a list to another, which has capacity for them.
fn put_all_before(list: &mut VecDeque<Vec<u8>>, mut before: VecDeque<Vec<u8>>)
    requires { deque_len list.old + deque_len before ≤ deque_capacity list.old }
    ensures { list.new.items ≡ before.items ++ list.old.items }
{
    while let Some(part) = before.pop_back() {
        list.push_front_reserved(part);
    }
}
