//! The leading digits of a number of any length.

ghost use Rattle.std.specs.Prelude.{◌≡◌, ℕ, ◌+◌, ◌*◌, ◌^◌, ◌<◌, ◌≤◌, min};
ghost use Rattle.lexical_number.specs.Number.{number, number_after};
ghost use Rattle.lexical_number.specs.Leading.{Leads};

use lexical_base::digit::char_to_digit;

/// The leading digits of a number, without the lowest `dropped`, of which some are not 0 if `more` is true.
#[derive(Debug, Clone, Copy, PartialEq, Eq)]
pub struct Leading {
    /// The number that the leading digits represent. It is below `2 ^ 96`, if the radix is at most 36.
    pub digits: u128,
    /// Whether some digit that was dropped is not 0.
    pub more: bool,
    /// The number of digits that were dropped.
    pub dropped: u128,
}

impl Leading {
    /// The leading digits of 0.
    pub const ZERO: Leading = Leading {
        digits: 0,
        more: false,
        dropped: 0,
    };

    /// Returns all digits of a number as its leading digits.
    #[must_use]
    #[tactic(auto, using(crate::proofs::LeadingLemmas::leads_all))]
    pub const fn whole(number: u64) -> Leading
        ensures leads { (radix : ℕ) → 1 ≤ radix → Leads radix number result.digits result.more result.dropped }
        ensures dropped { result.dropped ≡ 0 }
    {
        Leading {
            digits: number as u128,
            ..Leading::ZERO
        }
    }
}

// Returns the leading digits after one more digit.
#[inline(always)]
const fn push(leading: Leading, radix: u32, digit: u32) -> Leading
    requires digit { digit < radix }
    requires small { leading.digits ≤ 2 ^ 90 * radix }
    requires room { leading.dropped < 2 ^ 70 }
    ensures value { (n : ℕ) → Leads radix n leading.digits leading.more leading.dropped
        → Leads radix (n * radix + digit) result.digits result.more result.dropped }
    ensures small { result.digits ≤ 2 ^ 90 * radix }
    ensures dropped { result.dropped ≤ leading.dropped + 1 }
{
    if leading.digits < 1 << 90 {
        let digits = leading.digits * radix as u128 + digit as u128;
        return Leading { digits, ..leading };
    }
    Leading {
        more: leading.more | (digit != 0),
        dropped: leading.dropped + 1,
        ..leading
    }
}

/// Returns the leading digits after those of `bytes`. Other bytes are skipped.
#[must_use]
pub const fn push_all(leading: Leading, radix: u32, bytes: &[u8]) -> Leading
    requires small { leading.digits ≤ 2 ^ 90 * radix }
    requires room { leading.dropped ≤ 2 ^ 65 }
    ensures value { (n : ℕ) → Leads radix n leading.digits leading.more leading.dropped
        → Leads radix (number_after radix n bytes.now) result.digits result.more result.dropped }
    ensures small { result.digits ≤ 2 ^ 90 * radix }
    ensures dropped { result.dropped < leading.dropped + 2 ^ 64 }
{
    let mut leading = leading;
    let mut index = 0;
    while index < bytes.len() {
        if let Some(digit) = char_to_digit(bytes[index], radix) {
            leading = push(leading, radix, digit);
        }
        index += 1;
    }
    leading
}

/// Returns the number that the digits among `bytes` represent in `radix`, or `2 ^ 90` if that is less.
#[must_use]
#[tactic(auto, using(crate::proofs::LeadingLemmas::digits_le, crate::proofs::LeadingLemmas::few, crate::proofs::LeadingLemmas::starts))]
pub const fn saturating(bytes: &[u8], radix: u32) -> u128
    ensures { result ≡ min (number radix bytes.now) (2 ^ 90) }
{
    let digits = push_all(Leading::ZERO, radix, bytes).digits;
    if digits < 1 << 90 { digits } else { 1 << 90 }
}
