//! The trait of serial numbers, with its laws.

/// A serial number: the wire value of a count, which is the count modulo a power of two.
///
/// The contracts name `bits`, its width, and `wire`, its value as a number.
pub trait Serial: Copy {
    ghost use Rattle.std.specs.Prelude.{◌≡◌, ℕ, ◌<◌, ◌^◌, Option, Some};
    ghost use Rattle.sctp_model.specs.numbers.Serial.{COUNTS, wire_value, ahead, before, near, IsWithinHalf, IsNear, IsNearAnswer};

    // The width in bits.
    ghost bits: { ℕ };

    // The value as a number.
    ghost wire: { Self → ℕ };

    /// The wire value of a count: the count modulo 2^16 or 2^32 (RFC 9260, 2.6).
    fn of_count(count: u64) -> Self
        ensures { wire result ≡ wire_value bits count };

    /// How far the other value is ahead of this one: the number of increments, modulo the space, that lead to it (RFC 1982, 3.2).
    fn ahead(self, other: Self) -> u32
        ensures { result ≡ ahead bits (wire self) (wire other) };

    /// Whether this value is less than the other in serial number arithmetic: the other is ahead of it by less than half the space
    /// (RFC 1982, 3.2).
    ///
    /// Of two values that are half the space apart neither is before the other.
    fn before(self, other: Self) -> bool
        ensures { result ≡ before bits (wire self) (wire other) };

    /// The count that has this wire value and differs from the reference by less than half the space.
    ///
    /// None if there is no such count: at exactly half the space, and if it would be below 0 or above the largest count.
    fn near(self, reference: u64) -> Option<u64>
        ensures answer { IsNearAnswer bits (wire self) reference result }
        ensures exact { result ≡ near bits (wire self) reference };

    // What `near` answers is a count with the wire value given, less than half the space from the reference,
    // and it answers None exactly where there is no such count.
    ghost near_answers: { (value reference : ℕ) → value < 2 ^ bits → reference < COUNTS
        → IsNearAnswer bits value reference (near bits value reference) };

    // At most one count is near a reference.
    ghost near_is_one: { (value reference m n : ℕ) → IsNear bits value reference m → IsNear bits value reference n → m ≡ n };

    // The wire value of a count reads as that count at each reference less than half the space from it.
    ghost near_finds: { (count reference : ℕ) → count < COUNTS → reference < COUNTS → IsWithinHalf bits count reference
        → near bits (wire_value bits count) reference ≡ Some count };
}
