//! The standard format, lawful formats, the view of a format word, two functions that check a word, and all items of `format_flags` and
//! `format_builder`.

ghost use Rattle.std.specs.Prelude.{◌≡◌, ◌↔◌, IsTrue};
ghost use Rattle.lexical_flags.specs.Rules.{Lawful, IsErrorOf};

#[doc(no_inline)]
pub use crate::feature_format::{NumberFormat, Role, Separators};
#[doc(no_inline)]
pub use crate::lawful::{Format, FormatError};
use lexical_base::error::Error;
#[doc(no_inline)]
pub use lexical_builder::format_builder::{NonZeroU8, NumberFormatBuilder, OptionU8};
#[doc(no_inline)]
pub use lexical_flags::format_flags::{
    BASE_PREFIX, BASE_PREFIX_SHIFT, BASE_SUFFIX, BASE_SUFFIX_SHIFT, CASE_SENSITIVE_BASE_PREFIX,
    CASE_SENSITIVE_BASE_SUFFIX, CASE_SENSITIVE_EXPONENT, CASE_SENSITIVE_SPECIAL,
    CONSECUTIVE_DIGIT_SEPARATOR, DIGIT_SEPARATOR, DIGIT_SEPARATOR_FLAG_MASK, DIGIT_SEPARATOR_SHIFT,
    EXPONENT_BASE, EXPONENT_BASE_SHIFT, EXPONENT_CONSECUTIVE_DIGIT_SEPARATOR,
    EXPONENT_DIGIT_SEPARATOR_FLAG_MASK, EXPONENT_FLAG_MASK, EXPONENT_INTERNAL_DIGIT_SEPARATOR,
    EXPONENT_LEADING_DIGIT_SEPARATOR, EXPONENT_RADIX, EXPONENT_RADIX_SHIFT,
    EXPONENT_TRAILING_DIGIT_SEPARATOR, FLAG_MASK, FRACTION_CONSECUTIVE_DIGIT_SEPARATOR,
    FRACTION_DIGIT_SEPARATOR_FLAG_MASK, FRACTION_INTERNAL_DIGIT_SEPARATOR,
    FRACTION_LEADING_DIGIT_SEPARATOR, FRACTION_TRAILING_DIGIT_SEPARATOR,
    INTEGER_CONSECUTIVE_DIGIT_SEPARATOR, INTEGER_DIGIT_SEPARATOR_FLAG_MASK,
    INTEGER_INTERNAL_DIGIT_SEPARATOR, INTEGER_LEADING_DIGIT_SEPARATOR,
    INTEGER_TRAILING_DIGIT_SEPARATOR, INTERFACE_FLAG_MASK, INTERNAL_DIGIT_SEPARATOR,
    LEADING_DIGIT_SEPARATOR, MANTISSA_RADIX, MANTISSA_RADIX_SHIFT, NO_EXPONENT_NOTATION,
    NO_EXPONENT_WITHOUT_FRACTION, NO_FLOAT_LEADING_ZEROS, NO_INTEGER_LEADING_ZEROS,
    NO_POSITIVE_EXPONENT_SIGN, NO_POSITIVE_MANTISSA_SIGN, NO_SPECIAL, Part, RADIX, RADIX_MASK,
    RADIX_SHIFT, REQUIRED_DIGITS, REQUIRED_EXPONENT_DIGITS, REQUIRED_EXPONENT_NOTATION,
    REQUIRED_EXPONENT_SIGN, REQUIRED_FRACTION_DIGITS, REQUIRED_INTEGER_DIGITS,
    REQUIRED_MANTISSA_DIGITS, REQUIRED_MANTISSA_SIGN, RULES, Rule, SPECIAL_DIGIT_SEPARATOR,
    TRAILING_DIGIT_SEPARATOR, base_prefix, base_suffix, byte_or_radix, check, digit_separator,
    exponent_base, exponent_radix, format_error_impl, is_clean, is_digit_of_either_radix,
    is_separator_allowed, is_valid_base_prefix, is_valid_base_suffix, is_valid_digit_separator,
    is_valid_exponent_flags, is_valid_options_punctuation, is_valid_punctuation, is_valid_radix,
    mantissa_radix, options_error, radix_error_impl, radix_from_flags, raw_exponent_base,
    raw_exponent_radix, roles_disjoint,
};

/// The standard format, which is the format word of a new builder.
///
/// The mantissa radix is 10. Digits are required in the mantissa and in an exponent. The exponent base and the exponent
/// radix are absent, so the mantissa radix is used in their place.
pub const STANDARD: u128 = 0x00000A00_00000000_00000000_0000000C;

/// Returns whether `format` is lawful, as [`NumberFormat::is_valid`] does.
#[must_use]
pub const fn format_is_valid(format: u128) -> bool
    ensures { IsTrue result ↔ Lawful format }
{
    NumberFormat::new(format).is_valid()
}

/// Returns the error of the first rule that `format` breaks, or `Success`, as [`NumberFormat::error`]
/// does.
#[must_use]
pub const fn format_error(format: u128) -> Error
    ensures first { IsErrorOf format result }
    ensures lawful { (result ≡ Error.Success) ↔ Lawful format }
    ensures unique { (other : Error) → IsErrorOf format other → other ≡ result }
{
    NumberFormat::new(format).error()
}
