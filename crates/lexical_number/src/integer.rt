//! Integer types, and the values of theirs that digits with a sign represent.

ghost use Rattle.std.specs.Prelude.{◌≡◌, ◌<◌, option_map, true};
ghost use Rattle.std.specs.Option.{SomeIff};
ghost use Rattle.lexical_number.specs.Numeral.{Fits, Range, signed, unsigned, value_of, with_sign};

use crate::numeral::{Numeral, signed};

/// An integer type.
pub trait Integer: Copy {
    // The integers that the values of this type are.
    ghost range: { Range Self };

    /// Returns the value of `numeral`, or `None` if it is not a value of this type.
    fn from_numeral(numeral: &Numeral) -> Option<Self>
        ensures { SomeIff (option_map range.value result) (Fits range.least range.largest numeral.now) (value_of numeral.now) };

    /// Returns whether the value is below 0, and the value without its sign.
    fn sign_and_size(self) -> (bool, u128)
        ensures value { with_sign result.0 result.1 ≡ range.value self }
        ensures zero { result.0 ≡ true → 0 < result.1 };
}

// Returns whether a value is below 0, and the value without its sign.
const fn split(value: i128) -> (bool, u128)
    ensures value { with_sign result.0 result.1 ≡ value }
    ensures zero { result.0 ≡ true → 0 < result.1 }
{
    (value < 0, value.unsigned_abs())
}

// Returns the value of a numeral as a value of a type that has no sign.
macro_rules! unsigned {
    ($numeral:ident as $type:ident) => {
        match $numeral.size(0, $type::MAX as u64) {
            Some(size) => Some(size as $type),
            None => None,
        }
    };
}

// Returns the value of a numeral as a value of a type that has a sign.
macro_rules! signed {
    ($numeral:ident as $type:ident) => {
        match $numeral.size(1 << ($type::BITS - 1), $type::MAX as u64) {
            Some(size) => Some(signed($numeral.negative, size) as $type),
            None => None,
        }
    };
}

impl Integer for u8 {
    ghost range = { unsigned 8 };

    #[inline(always)]
    fn from_numeral(numeral: &Numeral) -> Option<u8> {
        unsigned!(numeral as u8)
    }

    fn sign_and_size(self) -> (bool, u128) {
        (false, self as u128)
    }
}

impl Integer for u16 {
    ghost range = { unsigned 16 };

    #[inline(always)]
    fn from_numeral(numeral: &Numeral) -> Option<u16> {
        unsigned!(numeral as u16)
    }

    fn sign_and_size(self) -> (bool, u128) {
        (false, self as u128)
    }
}

impl Integer for u32 {
    ghost range = { unsigned 32 };

    #[inline(always)]
    fn from_numeral(numeral: &Numeral) -> Option<u32> {
        unsigned!(numeral as u32)
    }

    fn sign_and_size(self) -> (bool, u128) {
        (false, self as u128)
    }
}

impl Integer for u64 {
    ghost range = { unsigned 64 };

    #[inline(always)]
    fn from_numeral(numeral: &Numeral) -> Option<u64> {
        numeral.size(0, u64::MAX)
    }

    fn sign_and_size(self) -> (bool, u128) {
        (false, self as u128)
    }
}

impl Integer for usize {
    ghost range = { unsigned 64 };

    #[inline(always)]
    fn from_numeral(numeral: &Numeral) -> Option<usize> {
        unsigned!(numeral as usize)
    }

    fn sign_and_size(self) -> (bool, u128) {
        (false, self as u128)
    }
}

impl Integer for u128 {
    ghost range = { unsigned 128 };

    #[inline(always)]
    fn from_numeral(numeral: &Numeral) -> Option<u128> {
        numeral.as_u128()
    }

    fn sign_and_size(self) -> (bool, u128) {
        (false, self)
    }
}

impl Integer for i8 {
    ghost range = { signed 8 };

    #[inline(always)]
    fn from_numeral(numeral: &Numeral) -> Option<i8> {
        signed!(numeral as i8)
    }

    fn sign_and_size(self) -> (bool, u128) {
        split(self as i128)
    }
}

impl Integer for i16 {
    ghost range = { signed 16 };

    #[inline(always)]
    fn from_numeral(numeral: &Numeral) -> Option<i16> {
        signed!(numeral as i16)
    }

    fn sign_and_size(self) -> (bool, u128) {
        split(self as i128)
    }
}

impl Integer for i32 {
    ghost range = { signed 32 };

    #[inline(always)]
    fn from_numeral(numeral: &Numeral) -> Option<i32> {
        signed!(numeral as i32)
    }

    fn sign_and_size(self) -> (bool, u128) {
        split(self as i128)
    }
}

impl Integer for i64 {
    ghost range = { signed 64 };

    #[inline(always)]
    fn from_numeral(numeral: &Numeral) -> Option<i64> {
        numeral.as_i64()
    }

    fn sign_and_size(self) -> (bool, u128) {
        split(self as i128)
    }
}

impl Integer for isize {
    ghost range = { signed 64 };

    #[inline(always)]
    fn from_numeral(numeral: &Numeral) -> Option<isize> {
        signed!(numeral as isize)
    }

    fn sign_and_size(self) -> (bool, u128) {
        split(self as i128)
    }
}

impl Integer for i128 {
    ghost range = { signed 128 };

    #[inline(always)]
    fn from_numeral(numeral: &Numeral) -> Option<i128> {
        numeral.as_i128()
    }

    fn sign_and_size(self) -> (bool, u128) {
        split(self)
    }
}
