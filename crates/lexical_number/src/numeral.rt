//! Numbers with a sign, by their value or by their digits.

ghost use Rattle.std.specs.Prelude.{◌≡◌, ◌+◌, ◌-◌, ◌%◌, ◌^◌, ◌≤◌, if◌then◌else◌};
ghost use Rattle.std.specs.Option.{SomeIff};
ghost use Rattle.lexical_number.specs.Number.{number};
ghost use Rattle.lexical_number.specs.Numeral.{Fits, size_of, value_of, with_sign};

use crate::small::add_all;
use lexical_base::digit::char_to_digit;

/// A number without a sign.
#[derive(Debug, Clone, Copy, PartialEq, Eq, Hash)]
pub enum Magnitude<'a> {
    /// The number itself.
    Word(u64),
    /// The number that the digits among bytes represent in a radix, with the highest one first. Letters of both cases are
    /// digits. Other bytes are skipped.
    Digits(&'a [u8], u32),
}

/// A number with a sign.
#[derive(Debug, Clone, Copy, PartialEq, Eq, Hash)]
pub struct Numeral<'a> {
    /// Whether the sign is `-`.
    pub negative: bool,
    /// The number without its sign.
    pub magnitude: Magnitude<'a>,
}

// Returns the number that the digits among `$bytes` represent in `$radix`, or `None` if it is above `$most`.
macro_rules! size {
    ($bytes:ident, $radix:ident, $type:ident, $most:ident) => {{
        let mut size: $type = 0;
        let mut index = 0;
        while index < $bytes.len() {
            if let Some(digit) = char_to_digit($bytes[index], $radix) {
                let Some(shifted) = size.checked_mul($radix as $type) else {
                    return None;
                };
                match shifted.checked_add(digit as $type) {
                    Some(longer) if longer <= $most => size = longer,
                    _ => return None,
                }
            }
            index += 1;
        }
        Some(size)
    }};
}

#[tactic(auto, using(crate::proofs::DigitLemmas::too_large))]
const fn size(bytes: &[u8], radix: u32, most: u64) -> Option<u64>
    ensures { SomeIff result (number radix bytes.now ≤ most) (number radix bytes.now) }
{
    size!(bytes, radix, u64, most)
}

#[tactic(auto, using(crate::proofs::DigitLemmas::too_large))]
const fn wide_size(bytes: &[u8], radix: u32, most: u128) -> Option<u128>
    ensures { SomeIff result (number radix bytes.now ≤ most) (number radix bytes.now) }
{
    size!(bytes, radix, u128, most)
}

impl Numeral<'_> {
    /// Returns the number without its sign, or `None` if the value is not between `-least` and `largest`.
    ///
    /// Of digits, it looks at no byte behind the first by which the number is too large.
    #[must_use]
    #[inline(always)]
    pub const fn size(&self, least: u64, largest: u64) -> Option<u64>
        ensures { SomeIff result (Fits least largest self.now) (size_of self.now) }
    {
        let most = if self.negative { least } else { largest };
        match self.magnitude {
            Magnitude::Word(word) if word <= most => Some(word),
            Magnitude::Word(_) => None,
            Magnitude::Digits(bytes, radix) => size(bytes, radix, most),
        }
    }

    /// Returns the number without its sign, as [`size`][Self::size] does, with 128 bits.
    #[must_use]
    #[inline(always)]
    pub const fn wide_size(&self, least: u128, largest: u128) -> Option<u128>
        ensures { SomeIff result (Fits least largest self.now) (size_of self.now) }
    {
        let most = if self.negative { least } else { largest };
        match self.magnitude {
            Magnitude::Word(word) if word as u128 <= most => Some(word as u128),
            Magnitude::Word(_) => None,
            Magnitude::Digits(bytes, radix) => wide_size(bytes, radix, most),
        }
    }

    /// Returns the number without its sign, modulo `2 ^ 64`.
    #[must_use]
    pub const fn low_bits(&self) -> u64
        ensures { result ≡ size_of self.now % 2 ^ 64 }
    {
        match self.magnitude {
            Magnitude::Word(word) => word,
            Magnitude::Digits(bytes, radix) => add_all(0, bytes, radix),
        }
    }

    /// Returns the value, or `None` if it is not a `u64`.
    #[must_use]
    #[inline(always)]
    pub const fn as_u64(&self) -> Option<u64>
        ensures { SomeIff result (Fits 0 (2 ^ 64 - 1) self.now) (size_of self.now) }
    {
        self.size(0, u64::MAX)
    }

    /// Returns the value, or `None` if it is not an `i64`.
    #[must_use]
    #[inline(always)]
    pub const fn as_i64(&self) -> Option<i64>
        ensures { SomeIff result (Fits (2 ^ 63) (2 ^ 63 - 1) self.now) (value_of self.now) }
    {
        match self.size(1 << 63, i64::MAX as u64) {
            Some(size) => Some(signed(self.negative, size)),
            None => None,
        }
    }

    /// Returns the value, or `None` if it is not a `u128`.
    #[must_use]
    #[inline(always)]
    pub const fn as_u128(&self) -> Option<u128>
        ensures { SomeIff result (Fits 0 (2 ^ 128 - 1) self.now) (size_of self.now) }
    {
        self.wide_size(0, u128::MAX)
    }

    /// Returns the value, or `None` if it is not an `i128`.
    #[must_use]
    #[inline(always)]
    pub const fn as_i128(&self) -> Option<i128>
        ensures { SomeIff result (Fits (2 ^ 127) (2 ^ 127 - 1) self.now) (value_of self.now) }
    {
        match self.wide_size(1 << 127, i128::MAX as u128) {
            Some(size) if self.negative => Some(0i128.wrapping_sub_unsigned(size)),
            Some(size) => Some(size as i128),
            None => None,
        }
    }
}

// Returns `size` with its sign.
#[inline(always)]
pub(crate) const fn signed(negative: bool, size: u64) -> i64
    requires { size ≤ (if negative then 2 ^ 63 else 2 ^ 63 - 1) }
    ensures { result ≡ with_sign negative size }
{
    if negative {
        0i64.wrapping_sub_unsigned(size)
    } else {
        size as i64
    }
}
