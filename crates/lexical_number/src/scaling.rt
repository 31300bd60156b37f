//! The float nearest to digits with an exponent, if both are in radixes that are powers of two.

ghost use Rattle.std.specs.Prelude.{◌≡◌, ℕ, ◌+◌, ◌*◌, ◌^◌, ◌<◌, ◌≤◌, min, IfSome, is_some, if◌then◌else◌};
ghost use Rattle.core.specs.Dec2flt.Rounding.{IsNearestBits};
ghost use Rattle.lexical_number.specs.Float.{format_of, is_power_of_two, raised_up, raised_down};
ghost use Rattle.lexical_number.specs.Leading.{Leads};
ghost use Rattle.lexical_number.specs.Number.{places};

use crate::binary::{infinity, nearest_bits, nearest_to_word};
use crate::leading::Leading;

/// Returns the number of bits of a digit of `radix`, if `radix` is a power of two up to 32.
#[must_use]
#[inline(always)]
pub const fn bits_of(radix: u32) -> Option<u32>
    ensures some { IfSome result (λ bits. (radix ≡ 2 ^ bits) × (1 ≤ bits) × (bits ≤ 5)) }
    ensures power { is_power_of_two radix ≡ is_some result }
{
    match radix {
        2 => Some(1),
        4 => Some(2),
        8 => Some(3),
        16 => Some(4),
        32 => Some(5),
        _ => None,
    }
}

/// Returns the bits of the float nearest to a number by its leading digits, over the radix to the power of `places`, times
/// a power of two with `bits` bits to the exponent `exponent`, or `2 ^ 90` or more.
#[must_use]
#[tactic(auto, using(crate::proofs::LeadingLemmas::many))]
pub const fn raised_bits(
    double: bool,
    leading: Leading,
    radix_bits: u32,
    places: u64,
    negative: bool,
    exponent: u128,
    base_bits: u32,
) -> u64
    requires radix { (1 ≤ radix_bits) × (radix_bits ≤ 5) }
    requires base { (1 ≤ base_bits) × (base_bits ≤ 5) }
    requires leading { (n : ℕ) × Leads (2 ^ radix_bits) n leading.digits leading.more leading.dropped }
    requires dropped { leading.dropped ≤ 2 ^ 65 }
    requires exponent { exponent ≤ 2 ^ 90 }
    ensures { (n e : ℕ) → Leads (2 ^ radix_bits) n leading.digits leading.more leading.dropped
        → exponent ≡ min e (2 ^ 90)
        → IsNearestBits (format_of double) (n * raised_up negative (2 ^ base_bits) e)
        ((2 ^ radix_bits) ^ places * raised_down negative (2 ^ base_bits) e) result }
{
    if leading.digits == 0 {
        return 0;
    }
    if exponent == 1 << 90 {
        return if negative { 0 } else { infinity(double) };
    }
    let (up, down) = scales(
        leading.dropped * radix_bits as u128,
        places as u128 * radix_bits as u128,
        negative,
        exponent * base_bits as u128,
    );
    nearest_bits(double, leading.digits, leading.more, up, down)
}

/// Returns the bits of the float nearest to `digits` over the radix to the power of `places`, times a power of two with `bits`
/// bits to the exponent.
#[must_use]
#[inline(always)]
pub const fn raised_word(
    double: bool,
    digits: u64,
    radix_bits: u32,
    places: u64,
    negative: bool,
    exponent: u64,
    base_bits: u32,
) -> u64
    requires radix { (1 ≤ radix_bits) × (radix_bits ≤ 5) }
    requires base { (1 ≤ base_bits) × (base_bits ≤ 5) }
    ensures { IsNearestBits (format_of double) (digits * raised_up negative (2 ^ base_bits) exponent)
        ((2 ^ radix_bits) ^ places * raised_down negative (2 ^ base_bits) exponent) result }
{
    if digits == 0 || places >= 1 << 56 || exponent >= 1 << 56 {
        let leading = Leading::whole(digits);
        let exponent = exponent as u128;
        return raised_bits(
            double, leading, radix_bits, places, negative, exponent, base_bits,
        );
    }
    let (up, down) = scales(
        0,
        places as u128 * radix_bits as u128,
        negative,
        exponent as u128 * base_bits as u128,
    );
    let zeros = digits.leading_zeros() as u64;
    nearest_to_word(
        double,
        digits << zeros,
        false,
        up as u64,
        down as u64 + zeros,
    )
}

// Returns the exponents above and below the line of a fraction.
#[inline(always)]
pub(crate) const fn scales(up: u128, down: u128, negative: bool, exponent: u128) -> (u128, u128)
    requires { (up < 2 ^ 70) × (down < 2 ^ 70) × (exponent ≤ 2 ^ 93) }
    ensures up { result.0 ≡ up + (if negative then 0 else exponent) }
    ensures down { result.1 ≡ down + (if negative then exponent else 0) }
{
    if negative {
        (up, down + exponent)
    } else {
        (up + exponent, down)
    }
}
