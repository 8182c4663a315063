//! The two widths of serial numbers: SSNs have 16 bits (RFC 9260, 3.3.1), TSNs and MIDs 32 (RFC 9260, 3.3.1; RFC 8260, 2.1).

ghost use Rattle.std.specs.Prelude.{◌≡◌, ◌+◌, ◌-◌, nat_lt, nat_le, ◌&&◌, if◌then◌else◌, Some, None};
ghost use Rattle.sctp_model.specs.numbers.Serial.{as_count};

use crate::counts::Serial;

/// A serial number of 16 bits: an SSN.
#[derive(Clone, Copy, Debug, PartialEq, Eq)]
pub struct S16(pub u16);

/// A serial number of 32 bits: a TSN or a MID.
#[derive(Clone, Copy, Debug, PartialEq, Eq)]
pub struct S32(pub u32);

impl S16 {
    /// Half the number of wire values.
    const HALF: u32 = 32_768;
}

impl S32 {
    /// Half the number of wire values.
    const HALF: u32 = 2_147_483_648;
}

impl Serial for S16 {
    ghost use Rattle.sctp_model.proofs.NearLaws.{near_answers_16, near_is_one_16, near_finds_16};

    ghost bits = { 16 };

    ghost wire = { λ s. s.0 };

    ghost near_answers = { near_answers_16 };

    ghost near_is_one = { near_is_one_16 };

    ghost near_finds = { near_finds_16 };

    fn of_count(count: u64) -> Self {
        S16((count % 65_536) as u16)
    }

    fn ahead(self, other: Self) -> u32 {
        u32::from(other.0.wrapping_sub(self.0))
    }

    fn before(self, other: Self) -> bool {
        let ahead = self.ahead(other);
        ahead != 0 && ahead < S16::HALF
    }

    fn near(self, reference: u64) -> Option<u64> {
        let known = S16::of_count(reference);
        count_near(reference, known.ahead(self), self.ahead(known), S16::HALF)
    }
}

impl Serial for S32 {
    ghost use Rattle.sctp_model.proofs.NearLaws.{near_answers_32, near_is_one_32, near_finds_32};

    ghost bits = { 32 };

    ghost wire = { λ s. s.0 };

    ghost near_answers = { near_answers_32 };

    ghost near_is_one = { near_is_one_32 };

    ghost near_finds = { near_finds_32 };

    fn of_count(count: u64) -> Self {
        S32((count % 4_294_967_296) as u32)
    }

    fn ahead(self, other: Self) -> u32 {
        other.0.wrapping_sub(self.0)
    }

    fn before(self, other: Self) -> bool {
        let ahead = self.ahead(other);
        ahead != 0 && ahead < S32::HALF
    }

    fn near(self, reference: u64) -> Option<u64> {
        let known = S32::of_count(reference);
        count_near(reference, known.ahead(self), self.ahead(known), S32::HALF)
    }
}

/// The count that is `ahead` above the reference, if that is less than `half`; else the one `behind` below it, if that is less than `half`.
fn count_near(reference: u64, ahead: u32, behind: u32, half: u32) -> Option<u64>
    ensures { result ≡ (if nat_lt ahead half then as_count (reference + ahead)
        else if nat_lt behind half && nat_le behind reference then Some (reference - behind) else None) }
{
    if ahead < half {
        reference.checked_add(u64::from(ahead))
    } else if behind < half {
        reference.checked_sub(u64::from(behind))
    } else {
        None
    }
}
