//! The layout of a format word, and the functions that read its flags and bytes and check its rules.
//!
//! A format word is a `u128`. Its lower 64 bits hold the flags in two runs, which start at bit 0 and at bit 32. Its
//! upper 64 bits hold six bytes: the digit separator, base prefix, base suffix, mantissa radix, exponent base and
//! exponent radix. A *field* is a flag or one of these bytes. The other bits are *reserved*: they belong to no field. A
//! word is *lawful* if it satisfies every [`Rule`]. The reserved bits of a lawful word are 0. The setters of
//! [`NumberFormatBuilder`][lexical_builder::format_builder::NumberFormatBuilder] have an example of each flag's effect.
#![tactic(auto, using(crate::proofs::ByteParts::byte_by_mask))]

ghost use Rattle.std.specs.Prelude.{◌≡◌, ◌/◌, ◌%◌, ◌^◌, ◌≤ℤ◌, ◌<ℤ◌, pos, unsigned_abs};
ghost use Rattle.lexical_flags.specs.Layout as layout;
ghost use Rattle.lexical_flags.specs.Record.{raw, effective, effective_exponent_base, effective_exponent_radix};
ghost use Rattle.lexical_flags.specs.Common.{common};
ghost use Rattle.lexical_flags.specs.Rules.{IsRadix, Lawful};

mod checks;
mod options;
mod parts;
mod rule;

#[doc(no_inline)]
pub use crate::format_flags::checks::{
    check, format_error_impl, is_clean, is_digit_of_either_radix, is_separator_allowed,
    is_valid_base_prefix, is_valid_base_suffix, is_valid_digit_separator, is_valid_exponent_flags,
    is_valid_punctuation, is_valid_radix, radix_error_impl, roles_disjoint,
};
#[doc(no_inline)]
pub use crate::format_flags::options::{is_valid_options_punctuation, options_error};
#[doc(no_inline)]
pub use crate::format_flags::parts::Part;
#[doc(no_inline)]
pub use crate::format_flags::rule::{RULES, Rule};

// FLAGS OTHER THAN DIGIT SEPARATOR FLAGS

/// The flag that requires digits before the decimal point.
pub const REQUIRED_INTEGER_DIGITS: u128 = 0x1;

/// The flag that requires digits after a decimal point.
pub const REQUIRED_FRACTION_DIGITS: u128 = 0x2;

/// The flag that requires digits after an exponent character.
pub const REQUIRED_EXPONENT_DIGITS: u128 = 0x4;

/// The flag that requires a digit in the mantissa of a float.
pub const REQUIRED_MANTISSA_DIGITS: u128 = 0x8;

/// The mask of all flags that require digits.
pub const REQUIRED_DIGITS: u128 = 0xF;

/// The flag that forbids a `+` before an integer or a float.
pub const NO_POSITIVE_MANTISSA_SIGN: u128 = 0x10;

/// The flag that requires a sign before an integer or a float.
pub const REQUIRED_MANTISSA_SIGN: u128 = 0x20;

/// The flag that forbids an exponent in a float.
pub const NO_EXPONENT_NOTATION: u128 = 0x40;

/// The flag that forbids a `+` in the exponent.
pub const NO_POSITIVE_EXPONENT_SIGN: u128 = 0x80;

/// The flag that requires a sign in the exponent.
pub const REQUIRED_EXPONENT_SIGN: u128 = 0x100;

/// The flag that requires a decimal point before an exponent.
pub const NO_EXPONENT_WITHOUT_FRACTION: u128 = 0x200;

/// The flag that forbids all special values.
pub const NO_SPECIAL: u128 = 0x400;

/// The flag that makes special values case-sensitive.
pub const CASE_SENSITIVE_SPECIAL: u128 = 0x800;

/// The flag that forbids leading zeros in an integer.
pub const NO_INTEGER_LEADING_ZEROS: u128 = 0x1000;

/// The flag that forbids leading zeros in a float.
pub const NO_FLOAT_LEADING_ZEROS: u128 = 0x2000;

/// The flag that requires an exponent in a float.
pub const REQUIRED_EXPONENT_NOTATION: u128 = 0x4000;

/// The flag that makes the exponent character case-sensitive.
pub const CASE_SENSITIVE_EXPONENT: u128 = 0x8000;

/// The flag that makes the base prefix case-sensitive.
pub const CASE_SENSITIVE_BASE_PREFIX: u128 = 0x1_0000;

/// The flag that makes the base suffix case-sensitive.
pub const CASE_SENSITIVE_BASE_SUFFIX: u128 = 0x2_0000;

// DIGIT SEPARATOR FLAGS

/// The flag that allows a digit separator between integer digits.
pub const INTEGER_INTERNAL_DIGIT_SEPARATOR: u128 = 0x1_0000_0000;

/// The flag that allows a digit separator between fraction digits.
pub const FRACTION_INTERNAL_DIGIT_SEPARATOR: u128 = 0x2_0000_0000;

/// The flag that allows a digit separator between exponent digits.
pub const EXPONENT_INTERNAL_DIGIT_SEPARATOR: u128 = 0x4_0000_0000;

/// The flag that allows a digit separator before the integer digits.
pub const INTEGER_LEADING_DIGIT_SEPARATOR: u128 = 0x8_0000_0000;

/// The flag that allows a digit separator before the fraction digits.
pub const FRACTION_LEADING_DIGIT_SEPARATOR: u128 = 0x10_0000_0000;

/// The flag that allows a digit separator before the exponent digits.
pub const EXPONENT_LEADING_DIGIT_SEPARATOR: u128 = 0x20_0000_0000;

/// The flag that allows a digit separator after the integer digits.
pub const INTEGER_TRAILING_DIGIT_SEPARATOR: u128 = 0x40_0000_0000;

/// The flag that allows a digit separator after the fraction digits.
pub const FRACTION_TRAILING_DIGIT_SEPARATOR: u128 = 0x80_0000_0000;

/// The flag that allows a digit separator after the exponent digits.
pub const EXPONENT_TRAILING_DIGIT_SEPARATOR: u128 = 0x100_0000_0000;

/// The flag that allows consecutive digit separators in the integer part.
pub const INTEGER_CONSECUTIVE_DIGIT_SEPARATOR: u128 = 0x200_0000_0000;

/// The flag that allows consecutive digit separators in the fraction.
pub const FRACTION_CONSECUTIVE_DIGIT_SEPARATOR: u128 = 0x400_0000_0000;

/// The flag that allows consecutive digit separators in the exponent.
pub const EXPONENT_CONSECUTIVE_DIGIT_SEPARATOR: u128 = 0x800_0000_0000;

/// The mask of all flags that allow a digit separator between digits.
pub const INTERNAL_DIGIT_SEPARATOR: u128 = 0x7_0000_0000;

/// The mask of all flags that allow a digit separator before digits.
pub const LEADING_DIGIT_SEPARATOR: u128 = 0x38_0000_0000;

/// The mask of all flags that allow a digit separator after digits.
pub const TRAILING_DIGIT_SEPARATOR: u128 = 0x1C0_0000_0000;

/// The mask of all flags that allow consecutive digit separators.
pub const CONSECUTIVE_DIGIT_SEPARATOR: u128 = 0xE00_0000_0000;

/// The flag that allows digit separators in special values.
pub const SPECIAL_DIGIT_SEPARATOR: u128 = 0x1000_0000_0000;

// BYTES

/// The index of the lowest bit of the digit separator byte.
pub const DIGIT_SEPARATOR_SHIFT: i32 = 64;

/// The mask of the [digit separator][lexical_builder::format_builder::NumberFormatBuilder::digit_separator].
pub const DIGIT_SEPARATOR: u128 = 0x00000000_000000FF_00000000_00000000;

/// The index of the lowest bit of the base prefix byte.
pub const BASE_PREFIX_SHIFT: i32 = 88;

/// The mask of the [base prefix][lexical_builder::format_builder::NumberFormatBuilder::base_prefix].
pub const BASE_PREFIX: u128 = 0x00000000_FF000000_00000000_00000000;

/// The index of the lowest bit of the base suffix byte.
pub const BASE_SUFFIX_SHIFT: i32 = 96;

/// The mask of the [base suffix][lexical_builder::format_builder::NumberFormatBuilder::base_suffix].
pub const BASE_SUFFIX: u128 = 0x000000FF_00000000_00000000_00000000;

/// The index of the lowest bit of the mantissa radix byte.
pub const MANTISSA_RADIX_SHIFT: i32 = 104;

/// The mask of the [mantissa radix][lexical_builder::format_builder::NumberFormatBuilder::mantissa_radix].
pub const MANTISSA_RADIX: u128 = 0x0000FF00_00000000_00000000_00000000;

/// Another name for [`MANTISSA_RADIX_SHIFT`].
pub const RADIX_SHIFT: i32 = 104;

/// Another name for [`MANTISSA_RADIX`].
pub const RADIX: u128 = 0x0000FF00_00000000_00000000_00000000;

/// The index of the lowest bit of the exponent base byte.
pub const EXPONENT_BASE_SHIFT: i32 = 112;

/// The mask of the [exponent base][lexical_builder::format_builder::NumberFormatBuilder::exponent_base].
pub const EXPONENT_BASE: u128 = 0x00FF0000_00000000_00000000_00000000;

/// The index of the lowest bit of the exponent radix byte.
pub const EXPONENT_RADIX_SHIFT: i32 = 120;

/// The mask of the [exponent radix][lexical_builder::format_builder::NumberFormatBuilder::exponent_radix].
pub const EXPONENT_RADIX: u128 = 0xFF000000_00000000_00000000_00000000;

/// The mask of the mantissa radix and the exponent radix, but not of the exponent base.
pub const RADIX_MASK: u128 = 0xFF00FF00_00000000_00000000_00000000;

// FLAG MASKS

/// The mask of all flags.
pub const FLAG_MASK: u128 = 0x1FFF_0003_FFFF;

/// The mask of the flags for exponents, leading zeros of floats, digit separators and required digits, except
/// [`CASE_SENSITIVE_EXPONENT`] and [`SPECIAL_DIGIT_SEPARATOR`].
pub const INTERFACE_FLAG_MASK: u128 = 0xFFF_0000_63CF;

/// The mask of all flags that allow digit separators, including the flag that allows them in special values.
pub const DIGIT_SEPARATOR_FLAG_MASK: u128 = 0x1FFF_0000_0000;

/// The mask of all flags that affect exponents, except [`CASE_SENSITIVE_EXPONENT`].
pub const EXPONENT_FLAG_MASK: u128 = 0x924_0000_43C4;

/// The mask of all flags that allow digit separators in the integer part.
pub const INTEGER_DIGIT_SEPARATOR_FLAG_MASK: u128 = 0x249_0000_0000;

/// The mask of all flags that allow digit separators in the fraction.
pub const FRACTION_DIGIT_SEPARATOR_FLAG_MASK: u128 = 0x492_0000_0000;

/// The mask of all flags that allow digit separators in the exponent.
pub const EXPONENT_DIGIT_SEPARATOR_FLAG_MASK: u128 = 0x924_0000_0000;

// The mask of the reserved bits: all bits except the flags, the digit separator, and the bits from the lowest bit of
// the base prefix up.
const RESERVED_MASK: u128 = !(FLAG_MASK | DIGIT_SEPARATOR | !0 << BASE_PREFIX_SHIFT);

// EXTRACTORS

/// Returns the digit separator of `format`, or 0 if it is absent. The result does not depend on whether a flag
/// allows a digit separator.
#[must_use]
pub const fn digit_separator(format: u128) -> u8
    ensures { result ≡ (raw format).byte layout.digit_separator }
{
    ((format & DIGIT_SEPARATOR) >> DIGIT_SEPARATOR_SHIFT) as u8
}

/// Returns the base prefix of `format`, or 0 if it is absent.
#[must_use]
pub const fn base_prefix(format: u128) -> u8
    ensures { result ≡ (raw format).byte layout.base_prefix }
{
    ((format & BASE_PREFIX) >> BASE_PREFIX_SHIFT) as u8
}

/// Returns the base suffix of `format`, or 0 if it is absent.
#[must_use]
pub const fn base_suffix(format: u128) -> u8
    ensures { result ≡ (raw format).byte layout.base_suffix }
{
    ((format & BASE_SUFFIX) >> BASE_SUFFIX_SHIFT) as u8
}

/// Returns the mantissa radix of `format`. The result is at most 255. If `format` is [lawful][Rule], the
/// result is between 2 and 36.
#[must_use]
#[tactic(auto, using(crate::proofs::ByteParts::byte_by_mask), unfolding(crate::specs::Rules::Lawful))]
pub const fn mantissa_radix(format: u128) -> u32
    ensures value { result ≡ (raw format).byte layout.mantissa_radix }
    ensures lawful { Lawful format → IsRadix result }
{
    ((format & MANTISSA_RADIX) >> MANTISSA_RADIX_SHIFT) as u32
}

/// Returns the exponent base of `format`, or the mantissa radix if the exponent base is 0. If `format` is
/// [lawful][Rule], the result is between 2 and 36.
#[must_use]
#[tactic(auto, using(crate::proofs::CommonLemmas::common_base), unfolding(crate::specs::Rules::Lawful))]
pub const fn exponent_base(format: u128) -> u32
    ensures value { result ≡ effective_exponent_base (raw format) }
    ensures lawful { Lawful format → IsRadix result }
{
    radix_from_flags(format, EXPONENT_BASE, EXPONENT_BASE_SHIFT)
}

/// Returns the exponent radix of `format`, or the mantissa radix if the exponent radix is 0. If `format` is
/// [lawful][Rule], the result is between 2 and 36.
#[must_use]
#[tactic(auto, using(crate::proofs::CommonLemmas::common_radix), unfolding(crate::specs::Rules::Lawful))]
pub const fn exponent_radix(format: u128) -> u32
    ensures value { result ≡ effective_exponent_radix (raw format) }
    ensures lawful { Lawful format → IsRadix result }
{
    radix_from_flags(format, EXPONENT_RADIX, EXPONENT_RADIX_SHIFT)
}

/// Returns the exponent base that `format` stores, or 0 if it is absent.
#[must_use]
pub const fn raw_exponent_base(format: u128) -> u8
    ensures { result ≡ (raw format).byte layout.exponent_base }
{
    ((format & EXPONENT_BASE) >> EXPONENT_BASE_SHIFT) as u8
}

/// Returns the exponent radix that `format` stores, or 0 if it is absent.
#[must_use]
pub const fn raw_exponent_radix(format: u128) -> u8
    ensures { result ≡ (raw format).byte layout.exponent_radix }
{
    ((format & EXPONENT_RADIX) >> EXPONENT_RADIX_SHIFT) as u8
}

/// Returns the low 32 bits of `(format & mask) >> shift`, or the mantissa radix if they are 0.
///
/// If `mask` and `shift` belong to one of the six bytes, such as `EXPONENT_BASE` and `EXPONENT_BASE_SHIFT`, the
/// result is that byte, or the mantissa radix if that byte is 0. `shift` must be between 0 and 127.
///
/// # Panics
///
/// If `shift` is not in this range, panics if overflow checks are enabled, and otherwise returns an unspecified result.
#[must_use]
#[tactic(auto, using(crate::proofs::ByteParts::byte_by_mask, crate::proofs::CommonLemmas::common_part))]
pub const fn radix_from_flags(format: u128, mask: u128, shift: i32) -> u32
    requires from { pos 0 ≤ℤ shift }
    requires below { shift <ℤ pos 128 }
    ensures { result ≡ effective (common format mask / 2 ^ unsigned_abs shift % 2 ^ 32) ((raw format).byte layout.mantissa_radix) }
{
    let own = (((format & mask) >> shift) & 0xFFFF_FFFF) as u32;
    if own == 0 {
        mantissa_radix(format)
    } else {
        own
    }
}

/// Returns `byte`, or `mantissa_radix` if `byte` is 0. Unlike [`radix_from_flags`], this needs no branch: both numbers
/// are read before one is chosen. They are 64 bits wide, like the upper half of a word, since a choice between narrower
/// numbers is slower.
#[doc(hidden)]
#[must_use]
#[inline]
pub const fn byte_or_radix(byte: u64, mantissa_radix: u64) -> u64
    ensures { result ≡ effective byte mantissa_radix }
{
    if byte == 0 { mantissa_radix } else { byte }
}
