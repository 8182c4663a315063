//! Which association each verification tag of this side is of.

ghost use Rattle.std.specs.Prelude.{◌≡◌, true, false, None, Some, IfOk, OnErr};
ghost use Rattle.sctp_socket.specs.Tags.{HasNone, Keeps, Puts, is_free, number_of, serves_another};

use sctp_values::NoMemory;
use std::alloc::Global;
use std::collections::BTreeMap;

/// The verification tags of this side (RFC 9260, 5.3.1 and 8.5), each with the number of the association that it is of, also of one that is over and whose cookies may still
/// arrive. None is of two associations.
#[derive(Drop)]
pub struct Tags {
    numbers: BTreeMap<u32, u64>,
}

impl Tags {
    /// No tag.
    pub fn new(alloc: Global) -> Tags
        ensures { HasNone result }
    {
        Tags {
            numbers: BTreeMap::new(alloc),
        }
    }

    /// Adds the tag of the association with this number. False, and nothing changed, if the tag is already of an association.
    ///
    /// # Errors
    /// `NoMemory` if an allocation failed, which can happen only for a tag that is free: nothing changed.
    pub fn insert(&mut self, tag: u32, number: u64) -> Result<bool, NoMemory>
        ensures answer { IfOk result (λ added. added ≡ is_free self.old tag) }
        ensures added { IfOk result (λ added. added ≡ true → Puts tag (Some number) self.old self.new) }
        ensures taken { IfOk result (λ added. added ≡ false → Keeps self.old self.new) }
        ensures refused { OnErr result (Keeps self.old self.new) }
        ensures memory { OnErr result (is_free self.old tag ≡ true) }
    {
        if self.numbers.contains_key(&tag) {
            return Ok(false);
        }
        match self.numbers.insert(tag, number) {
            Ok(_) => Ok(true),
            Err(_) => Err(NoMemory),
        }
    }

    /// The number of the association that a tag is of.
    pub fn number_of(&self, tag: u32) -> Option<u64>
        ensures { result ≡ number_of self.now tag }
    {
        self.numbers.get(&tag).copied()
    }

    /// Whether a tag is of an association other than the one with this number, if there is one: then a cookie under it begins nothing.
    pub fn serves_another(&self, tag: u32, number: Option<u64>) -> bool
        ensures { result ≡ serves_another self.now tag number }
    {
        match (self.number_of(tag), number) {
            (None, _) => false,
            (Some(_), None) => true,
            (Some(found), Some(number)) => found != number,
        }
    }

    /// Removes a tag once its cookies are too old to open.
    pub fn remove(&mut self, tag: u32)
        ensures { Puts tag None self.old self.new }
    {
        let _ = self.numbers.remove(&tag);
    }
}
