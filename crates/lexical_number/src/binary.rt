//! The float nearest to a whole number times a power of two.

ghost use Rattle.std.specs.Prelude.{◌≡◌, ℕ, true, ◌+◌, ◌*◌, ◌/◌, ◌^◌, ◌<◌, ◌≤◌, min};
ghost use Rattle.std.specs.Float.Ieee.{prec, low, hid, ones};
ghost use Rattle.core.specs.Dec2flt.Rounding.{scaled_bits, IsNearestBits, IsSignificand, IsCut};
ghost use Rattle.lexical_number.specs.Float.{format_of};
ghost use Rattle.lexical_number.specs.Leading.{IsCutTo};

#[inline(always)]
const fn precision(double: bool) -> u64
    ensures value { result ≡ prec (format_of double) }
    ensures range { (24 ≤ result) × (result ≤ 53) }
{
    if double { 53 } else { 24 }
}

#[inline(always)]
const fn lowest(double: bool) -> u64
    ensures { result ≡ low (format_of double) }
{
    if double { 1074 } else { 149 }
}

#[inline(always)]
const fn hidden(double: bool) -> u64
    ensures value { result ≡ hid (format_of double) }
    ensures small { result ≤ 2 ^ 52 }
{
    if double { 1 << 52 } else { 1 << 23 }
}

/// Returns the bits of infinity.
#[must_use]
#[inline(always)]
pub const fn infinity(double: bool) -> u64
    ensures value { result ≡ ones (format_of double) * hid (format_of double) }
{
    if double { 0x7ff << 52 } else { 0xff << 23 }
}

// Returns the bits of `significand * 2 ^ exponent` least floats, or those of infinity.
#[inline(always)]
const fn scaled_bits(double: bool, significand: u64, exponent: u64) -> u64
    requires { significand ≤ 2 ^ 53 }
    ensures { result ≡ scaled_bits (format_of double) significand exponent }
{
    if exponent >= 2047 {
        return infinity(double);
    }
    let bits = exponent * hidden(double) + significand;
    let infinity = infinity(double);
    if bits < infinity { bits } else { infinity }
}

// Returns what is kept of a word without the lower `dropped` bits, what is cut off, and half of the lowest kept bit.
#[inline(always)]
const fn cut(word: u64, dropped: u64) -> (u64, u64, u64)
    requires { (0 < dropped) × (dropped ≤ 64) }
    ensures { IsCut word dropped result.0 result.1 result.2 }
{
    let half = 1 << (dropped - 1);
    (word >> (dropped - 1) >> 1, word & (half + (half - 1)), half)
}

// Returns the bits of the float nearest to a number of which `word` counts units of `2 ^ exponent / 2 ^ dropped` least
// floats.
#[inline(always)]
const fn settle(double: bool, word: u64, more: bool, dropped: u64, exponent: u64) -> u64
    requires dropped { 2 ≤ dropped }
    requires kept { IsSignificand (format_of double) (word / 2 ^ dropped) exponent }
    ensures { (num den : ℕ) → 0 < den → IsCutTo (num * 2 ^ low (format_of double) * 2 ^ dropped) word more (den * 2 ^ exponent)
        → IsNearestBits (format_of double) num den result }
{
    if dropped > 64 {
        return 0;
    }
    let (kept, rest, half) = cut(word, dropped);
    let rounds_up = (rest > half) | ((rest == half) & (more | (kept % 2 == 1)));
    scaled_bits(double, kept + rounds_up as u64, exponent)
}

// Returns how many bits to drop, and the exponent.
#[inline(always)]
const fn dropped(least: u64, above: u64, below: u64) -> (u64, u64)
    requires { (least ≤ 64) × (above < 2 ^ 62) × (below < 2 ^ 62) }
    ensures places { above + result.0 ≡ below + result.1 }
    ensures least { least ≤ result.0 }
    ensures normal { 0 < result.1 → result.0 ≡ least }
{
    if above + least >= below {
        (least, above + least - below)
    } else {
        (below - above, 0)
    }
}

// Returns the bits of the float nearest to `word * 2 ^ up / 2 ^ down`, or to a number that is above this, if `more` is
// true, and below the same with `word + 1`.
#[inline(always)]
pub(crate) const fn nearest_to_word(double: bool, word: u64, more: bool, up: u64, down: u64) -> u64
    requires top { 2 ^ 55 ≤ word }
    requires scale { (up < 2 ^ 61) × (down < 2 ^ 61) }
    ensures { (num den : ℕ) → 0 < den → IsCutTo (num * 2 ^ down) word more (den * 2 ^ up) → IsNearestBits (format_of double) num den result }
{
    let least = 64 - word.leading_zeros() as u64 - precision(double);
    let (dropped, exponent) = dropped(least, up + lowest(double), down);
    settle(double, word, more, dropped, exponent)
}

// Returns the leading 56 bits of a number, whether some of the others are not 0, and by how many bits the number was
// shifted before 72 were dropped.
#[inline(always)]
const fn leading_word(digits: u128, more: bool) -> (u64, bool, u64)
    requires digits { 0 < digits }
    requires more { more ≡ true → 2 ^ 55 ≤ digits }
    ensures top { 2 ^ 55 ≤ result.0 }
    ensures value { (n unit : ℕ) → 0 < unit → IsCutTo n digits more unit → IsCutTo (n * 2 ^ result.2) result.0 result.1 (unit * 2 ^ 72) }
    ensures range { result.2 < 128 }
{
    let zeros = digits.leading_zeros() as u64;
    let lifted = digits << zeros;
    (
        (lifted >> 72) as u64,
        more | (lifted % (1 << 72) != 0),
        zeros,
    )
}

#[inline(always)]
const fn least(x: u128, y: u128) -> u128
    ensures { result ≡ min x y }
{
    if x < y { x } else { y }
}

/// Returns the bits of the float nearest to `digits * 2 ^ up / 2 ^ down`, or to a number that is above this, if `more` is
/// true, and below the same with `digits + 1`.
#[must_use]
pub(crate) const fn nearest_bits(
    double: bool,
    digits: u128,
    more: bool,
    up: u128,
    down: u128,
) -> u64
    requires more { more ≡ true → 2 ^ 55 ≤ digits }
    requires scale { (up < 2 ^ 120) × (down < 2 ^ 120) }
    ensures { (num den : ℕ) → 0 < den → IsCutTo (num * 2 ^ down) digits more (den * 2 ^ up) → IsNearestBits (format_of double) num den result }
{
    if digits == 0 {
        return 0;
    }
    let (word, more, zeros) = leading_word(digits, more);
    let (up, down) = (up + 72, down + zeros as u128);
    if down + 2000 < up {
        return infinity(double);
    }
    if up + 2000 < down {
        return 0;
    }
    let both = least(up, down);
    nearest_to_word(double, word, more, (up - both) as u64, (down - both) as u64)
}
