//! Duplicate TSNs, until a SACK reports them (RFC 9260, 3.3.4 and 6.2).

ghost use Rattle.std.specs.Prelude.{◌≡◌, ◌≤◌, ◌<◌, ◌%◌, [], ◌∷◌, ◌++◌, nat_lt, length, take, OnOk, OnErr};
ghost use Rattle.std.specs.List.{AllByRecursion};
ghost use Rattle.sctp_model.specs.numbers.Limits.{DUPLICATE_LIMIT};
ghost use Rattle.sctp_wire.specs.Items.{words_in, IsWord};

use sctp_values::{DUPLICATE_LIMIT, NoMemory};
use sctp_wire::put_word;
use std::alloc::Global;

/// The first duplicate TSNs since a SACK was sent, as many as a SACK reports.
#[derive(Drop)]
pub(crate) struct Duplicates {
    pub(crate) tsns: Vec<u32>,
    ghost few: { length tsns.items ≤ DUPLICATE_LIMIT },
}

impl Duplicates {
    /// No duplicates.
    pub(crate) fn new(alloc: Global) -> Duplicates
        ensures { result.tsns.items ≡ [] }
    {
        Duplicates {
            tsns: Vec::new(alloc),
        }
    }

    /// Notes a duplicate TSN, if it is among the first of them.
    ///
    /// # Errors
    /// Allocation failed, and nothing changed.
    pub(crate) fn note(&mut self, tsn: u32) -> Result<(), NoMemory>
        ensures noted { OnOk result (self.new.tsns.items ≡ take DUPLICATE_LIMIT (self.old.tsns.items ++ tsn ∷ [])) }
        ensures refused { OnErr result (self.new.tsns.items ≡ self.old.tsns.items) }
        ensures memory { OnErr result (length self.old.tsns.items < DUPLICATE_LIMIT) }
    {
        if self.tsns.len() < DUPLICATE_LIMIT {
            self.tsns.push(tsn).map_err(|_| NoMemory)?;
        }
        Ok(())
    }

    /// Whether there is one.
    #[inline(always)]
    pub(crate) fn has_some(&self) -> bool
        ensures { result ≡ nat_lt 0 (length self.now.tsns.items) }
    {
        !self.tsns.is_empty()
    }

    /// Keeps the first ones, and drops the rest.
    pub(crate) fn truncate(&mut self, count: usize)
        ensures { self.new.tsns.items ≡ take count self.old.tsns.items }
    {
        self.tsns.truncate(count);
    }

    /// Appends them to an empty list of a SACK.
    ///
    /// # Errors
    /// Allocation failed.
    pub(crate) fn put(&self, list: &mut Vec<u8>) -> Result<(), NoMemory>
        requires { list.old.items ≡ [] }
        ensures words { OnOk result (words_in list.new.items ≡ self.now.tsns.items) }
        ensures in_range { OnOk result (AllByRecursion IsWord (words_in list.new.items)) }
        ensures few { OnOk result (length (words_in list.new.items) ≤ DUPLICATE_LIMIT) }
        ensures whole { length list.new.items % 4 ≡ 0 }
    {
        for tsn in &self.tsns {
            put_word(*tsn, list)?;
        }
        Ok(())
    }
}
