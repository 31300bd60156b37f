//! The type [`Error`], which represents parse errors, format errors and option errors.
//!
//! A parser or a checker returns an [`Error`], which is [`Error::Success`] if nothing is wrong.

ghost use Rattle.std.specs.Prelude.{◌≡◌, ◌↔◌, ◌<◌, ◌+◌, length, IsTrue, IsSome, IfSome, Some};
ghost use Rattle.std.specs.Option.{option_copied};
ghost use Rattle.lexical_base.specs.Outcomes.{rank_of, index_of, IsAt, class_of, start_of_class, description_of, printed_text};
ghost use Rattle.lexical_base.specs.declared.error.Error.TheVariants as errors;

use crate::short_text::ShortText;
use std::fmt;

mod traits;

/// The outcome of parsing or checking: one of 48 errors, or [`Error::Success`].
///
/// A [parse error][Class::Parse] holds the index of the offending byte, counted from 0. The other variants hold no
/// data.
///
/// The *rank* of a variant is its index in the list of variants, from 0 to 48. Values are ordered by rank, then by the
/// index that they hold. This order is total, and only identical values compare as equal. Each of the 49 `is_` methods
/// tests for a different variant, so exactly one of them returns `true`.
///
/// ```
/// use peltzivar::{Error, Format};
///
/// assert_eq!(Format::new(0).unwrap_err().code(), Error::InvalidMantissaRadix);
/// assert_eq!(Error::InvalidDigit(3).index(), Some(&3));
/// assert_eq!(Error::InvalidDigit(3).to_string(), "lexical parse error: 'invalid digit found' at index 3");
/// ```
#[derive(Clone, Copy, Debug)]
pub enum Error {
    // Parse errors. Each holds the index of the offending byte.
    /// The number is greater than the largest value of its type.
    Overflow(usize),
    /// The number is less than the smallest value of its type.
    Underflow(usize),
    /// The byte at this index is not a digit, but a digit is required there.
    InvalidDigit(usize),
    /// The input is empty.
    Empty(usize),
    /// The number has no significant digits, but the format requires at least one.
    EmptyMantissa(usize),
    /// No digit follows the exponent character.
    EmptyExponent(usize),
    /// The digit that the format requires before the decimal point is missing.
    EmptyInteger(usize),
    /// The digit that the format requires after the decimal point is missing.
    EmptyFraction(usize),
    /// A `+` precedes the significant digits, but the format forbids it.
    InvalidPositiveMantissaSign(usize),
    /// No sign precedes the significant digits, but the format requires one.
    MissingMantissaSign(usize),
    /// The number has an exponent, but the format forbids exponents.
    InvalidExponent(usize),
    /// The exponent has a `+` sign, but the format forbids it.
    InvalidPositiveExponentSign(usize),
    /// The exponent has no sign, but the format requires one.
    MissingExponentSign(usize),
    /// The number has an exponent but no fraction, and the format forbids this.
    ExponentWithoutFraction(usize),
    /// The number has a leading zero, but the format forbids leading zeros.
    InvalidLeadingZeros(usize),
    /// The number has no exponent, but the format requires one.
    MissingExponent(usize),
    /// The integer has no sign, but the format requires one.
    MissingSign(usize),
    /// The integer has a `+` sign, but the format forbids it.
    InvalidPositiveSign(usize),
    /// The integer has a `-` sign, but its type is unsigned.
    InvalidNegativeSign(usize),

    // Format errors.
    /// The mantissa radix is not between 2 and 36.
    InvalidMantissaRadix,
    /// The exponent base is not between 2 and 36.
    InvalidExponentBase,
    /// The exponent radix is not between 2 and 36.
    InvalidExponentRadix,
    /// The digit separator is a digit, a sign, or a byte that [`is_valid_ascii`][crate::ascii::is_valid_ascii] rejects.
    InvalidDigitSeparator,
    /// The decimal point is a digit, a sign, or a byte that [`is_valid_ascii`][crate::ascii::is_valid_ascii] rejects.
    InvalidDecimalPoint,
    /// The exponent character is a digit, a sign, or a byte that [`is_valid_ascii`][crate::ascii::is_valid_ascii]
    /// rejects.
    InvalidExponentSymbol,
    /// The base prefix is a digit, a sign, or a byte that [`is_valid_ascii`][crate::ascii::is_valid_ascii] rejects.
    InvalidBasePrefix,
    /// The base suffix is a digit, a sign, or a byte that [`is_valid_ascii`][crate::ascii::is_valid_ascii] rejects.
    InvalidBaseSuffix,
    /// Two of the following match the same byte: the digit separator, the base prefix, the base suffix, the exponent
    /// character and the decimal point. A base prefix, base suffix or exponent character that is a letter matches both
    /// cases of that letter unless a flag makes it case-sensitive.
    InvalidPunctuation,
    /// An exponent is both required and forbidden.
    InvalidExponentFlags,
    /// A sign is required before the mantissa, but `+` is forbidden there.
    InvalidMantissaSign,
    /// A sign is required in the exponent, but `+` is forbidden there.
    InvalidExponentSign,
    /// A flag for special values (NaN and infinity) is set, but special values are forbidden.
    InvalidSpecial,
    /// Consecutive digit separators are allowed in the integer part, but no digit separator is allowed
    /// between, before or after its digits.
    InvalidConsecutiveIntegerDigitSeparator,
    /// Consecutive digit separators are allowed in the fraction, but no digit separator is allowed
    /// between, before or after its digits.
    InvalidConsecutiveFractionDigitSeparator,
    /// Consecutive digit separators are allowed in the exponent, but no digit separator is allowed
    /// between, before or after its digits.
    InvalidConsecutiveExponentDigitSeparator,
    /// A reserved bit is set. The reserved bits of a format hold neither a flag nor a byte.
    InvalidFlags,

    // Option errors.
    /// The NaN string does not start with `n`.
    InvalidNanString,
    /// The NaN string is too long.
    NanStringTooLong,
    /// The short spelling of infinity does not start with `i`.
    InvalidInfString,
    /// The short spelling of infinity is too long.
    InfStringTooLong,
    /// The long spelling of infinity does not start with `i`.
    InvalidInfinityString,
    /// The long spelling of infinity is too long.
    InfinityStringTooLong,
    /// The long spelling of infinity is shorter than the short spelling.
    InfinityStringTooShort,
    /// Two mutually exclusive algorithms for parsing floats are requested.
    InvalidFloatParseAlgorithm,
    /// The radix is not supported.
    InvalidRadix,
    /// The minimum number of digits is greater than the maximum.
    InvalidFloatPrecision,
    /// The writer option `negative_exponent_break` is greater than 0.
    InvalidNegativeExponentBreak,
    /// The writer option `positive_exponent_break` is less than 0.
    InvalidPositiveExponentBreak,

    // No error.
    /// No error was found.
    Success,
}

/// The class of an [`Error`].
#[derive(Clone, Copy, Debug, PartialEq, Eq, PartialOrd, Ord, Hash)]
pub enum Class {
    /// An error in the text that a parser reads.
    Parse,
    /// An error in a number format.
    Format,
    /// An error in the options of a parser or a writer.
    Options,
    /// The class of [`Error::Success`], which is not an error.
    Success,
}

// Calls `$rows!` with `$args`, a row for each parse error, and a row for each other variant. A row has the variant, its
// rank and its description.
macro_rules! with_outcomes {
    ($rows:ident $args:tt) => {
        $rows! {
            $args
            {
                Overflow 0 "'numeric overflow occurred'";
                Underflow 1 "'numeric underflow occurred'";
                InvalidDigit 2 "'invalid digit found'";
                Empty 3 "'the string to parse was empty'";
                EmptyMantissa 4 "'no significant digits found'";
                EmptyExponent 5 "'exponent notation found without an exponent'";
                EmptyInteger 6 "'invalid float with no integer digits'";
                EmptyFraction 7 "'invalid float with no fraction digits'";
                InvalidPositiveMantissaSign 8 "'invalid `+` sign before significant digits'";
                MissingMantissaSign 9 "'missing required `+/-` sign for significant digits'";
                InvalidExponent 10 "'exponent found but not allowed'";
                InvalidPositiveExponentSign 11 "'invalid `+` sign in exponent'";
                MissingExponentSign 12 "'missing required `+/-` sign for exponent'";
                ExponentWithoutFraction 13 "'invalid float containing exponent without fraction'";
                InvalidLeadingZeros 14 "'invalid number with leading zeros before digits'";
                MissingExponent 15 "'missing required exponent'";
                MissingSign 16 "'missing required `+/-` sign for integer'";
                InvalidPositiveSign 17 "'invalid `+` sign for an integer was found'";
                InvalidNegativeSign 18 "'invalid `-` sign for an unsigned type was found'";
            }
            {
                InvalidMantissaRadix 19 "'invalid radix for mantissa digits'";
                InvalidExponentBase 20 "'invalid exponent base'";
                InvalidExponentRadix 21 "'invalid radix for exponent digits'";
                InvalidDigitSeparator 22 "'invalid digit separator: must be ASCII and not a digit or a `+/-` sign'";
                InvalidDecimalPoint 23 "'invalid decimal point: must be ASCII and not a digit or a `+/-` sign'";
                InvalidExponentSymbol 24 "'invalid exponent symbol: must be ASCII and not a digit or a `+/-` sign'";
                InvalidBasePrefix 25 "'invalid base prefix character'";
                InvalidBaseSuffix 26 "'invalid base suffix character'";
                InvalidPunctuation 27 "'invalid punctuation: multiple characters overlap'";
                InvalidExponentFlags 28 "'exponent flags set while disabling exponent notation'";
                InvalidMantissaSign 29 "'disabled the `+` sign while requiring a sign for significant digits'";
                InvalidExponentSign 30 "'disabled the `+` sign while requiring a sign for exponent digits'";
                InvalidSpecial 31 "'special flags set while disabling special floats'";
                InvalidConsecutiveIntegerDigitSeparator 32 "'enabled consecutive digit separators in the integer without setting a valid location'";
                InvalidConsecutiveFractionDigitSeparator 33 "'enabled consecutive digit separators in the fraction without setting a valid location'";
                InvalidConsecutiveExponentDigitSeparator 34 "'enabled consecutive digit separators in the exponent without setting a valid location'";
                InvalidFlags 35 "'invalid flags enabled without the format feature'";
                InvalidNanString 36 "'NaN string must started with `n`'";
                NanStringTooLong 37 "'NaN string is too long'";
                InvalidInfString 38 "'short infinity string must started with `i`'";
                InfStringTooLong 39 "'short infinity string is too long'";
                InvalidInfinityString 40 "'long infinity string must started with `i`'";
                InfinityStringTooLong 41 "'long infinity string is too long'";
                InfinityStringTooShort 42 "'long infinity string is too short'";
                InvalidFloatParseAlgorithm 43 "'invalid combination of float parse algorithms'";
                InvalidRadix 44 "'invalid radix for significant digits'";
                InvalidFloatPrecision 45 "'invalid float precision: min digits is larger than max digits'";
                InvalidNegativeExponentBreak 46 "'invalid negative exponent break: value is above 0'";
                InvalidPositiveExponentBreak 47 "'invalid positive exponent break: value is below 0'";
                Success 48 "'not actually an error'";
            }
        }
    };
}

impl Error {
    /// Returns the description of this [`Error`], in single quotes and without the index.
    ///
    /// See [`Error::index`] for the index, and `Display` for the whole text.
    #[must_use]
    #[inline]
    pub const fn description(&self) -> &'static str
        ensures text { result.now ≡ description_of self.now }
        ensures short { length result.now < 128 }
    {
        macro_rules! descriptions {
            (($error:ident)
                { $($Parse:ident $parse:literal $parsing:literal;)* } { $($Other:ident $rank:literal $text:literal;)* }) => {
                match $error {
                    $(Error::$Parse(_) => $parsing,)*
                    $(Error::$Other => $text,)*
                }
            };
        }
        with_outcomes!(descriptions(self))
    }

    /// Returns the index of the offending byte if this is a parse error, and `None` otherwise.
    #[must_use]
    pub const fn index(&self) -> Option<&usize>
        ensures value { option_copied result ≡ index_of self.now }
        ensures held { IsSome result ↔ (rank_of self.now < 19) }
    {
        macro_rules! indexes {
            (($error:ident) { $($Parse:ident $rank:literal $text:literal;)* } $others:tt) => {
                match $error {
                    $(Error::$Parse(index) => Some(index),)*
                    _ => None,
                }
            };
        }
        with_outcomes!(indexes(self))
    }

    /// Returns whether this is [`Error::Overflow`], whatever its index.
    #[must_use]
    pub const fn is_overflow(&self) -> bool
        ensures { IsTrue result ↔ (rank_of self.now ≡ rank_of (errors.Overflow 0)) }
    {
        matches!(self, Error::Overflow(_))
    }

    /// Returns whether this is [`Error::Underflow`], whatever its index.
    #[must_use]
    pub const fn is_underflow(&self) -> bool
        ensures { IsTrue result ↔ (rank_of self.now ≡ rank_of (errors.Underflow 0)) }
    {
        matches!(self, Error::Underflow(_))
    }

    /// Returns whether this is [`Error::InvalidDigit`], whatever its index.
    #[must_use]
    pub const fn is_invalid_digit(&self) -> bool
        ensures { IsTrue result ↔ (rank_of self.now ≡ rank_of (errors.InvalidDigit 0)) }
    {
        matches!(self, Error::InvalidDigit(_))
    }

    /// Returns whether this is [`Error::Empty`], whatever its index.
    #[must_use]
    pub const fn is_empty(&self) -> bool
        ensures { IsTrue result ↔ (rank_of self.now ≡ rank_of (errors.Empty 0)) }
    {
        matches!(self, Error::Empty(_))
    }

    /// Returns whether this is [`Error::EmptyMantissa`], whatever its index.
    #[must_use]
    pub const fn is_empty_mantissa(&self) -> bool
        ensures { IsTrue result ↔ (rank_of self.now ≡ rank_of (errors.EmptyMantissa 0)) }
    {
        matches!(self, Error::EmptyMantissa(_))
    }

    /// Returns whether this is [`Error::EmptyExponent`], whatever its index.
    #[must_use]
    pub const fn is_empty_exponent(&self) -> bool
        ensures { IsTrue result ↔ (rank_of self.now ≡ rank_of (errors.EmptyExponent 0)) }
    {
        matches!(self, Error::EmptyExponent(_))
    }

    /// Returns whether this is [`Error::EmptyInteger`], whatever its index.
    #[must_use]
    pub const fn is_empty_integer(&self) -> bool
        ensures { IsTrue result ↔ (rank_of self.now ≡ rank_of (errors.EmptyInteger 0)) }
    {
        matches!(self, Error::EmptyInteger(_))
    }

    /// Returns whether this is [`Error::EmptyFraction`], whatever its index.
    #[must_use]
    pub const fn is_empty_fraction(&self) -> bool
        ensures { IsTrue result ↔ (rank_of self.now ≡ rank_of (errors.EmptyFraction 0)) }
    {
        matches!(self, Error::EmptyFraction(_))
    }

    /// Returns whether this is [`Error::InvalidPositiveMantissaSign`], whatever its index.
    #[must_use]
    pub const fn is_invalid_positive_mantissa_sign(&self) -> bool
        ensures { IsTrue result ↔ (rank_of self.now ≡ rank_of (errors.InvalidPositiveMantissaSign 0)) }
    {
        matches!(self, Error::InvalidPositiveMantissaSign(_))
    }

    /// Returns whether this is [`Error::MissingMantissaSign`], whatever its index.
    #[must_use]
    pub const fn is_missing_mantissa_sign(&self) -> bool
        ensures { IsTrue result ↔ (rank_of self.now ≡ rank_of (errors.MissingMantissaSign 0)) }
    {
        matches!(self, Error::MissingMantissaSign(_))
    }

    /// Returns whether this is [`Error::InvalidExponent`], whatever its index.
    #[must_use]
    pub const fn is_invalid_exponent(&self) -> bool
        ensures { IsTrue result ↔ (rank_of self.now ≡ rank_of (errors.InvalidExponent 0)) }
    {
        matches!(self, Error::InvalidExponent(_))
    }

    /// Returns whether this is [`Error::InvalidPositiveExponentSign`], whatever its index.
    #[must_use]
    pub const fn is_invalid_positive_exponent_sign(&self) -> bool
        ensures { IsTrue result ↔ (rank_of self.now ≡ rank_of (errors.InvalidPositiveExponentSign 0)) }
    {
        matches!(self, Error::InvalidPositiveExponentSign(_))
    }

    /// Returns whether this is [`Error::MissingExponentSign`], whatever its index.
    #[must_use]
    pub const fn is_missing_exponent_sign(&self) -> bool
        ensures { IsTrue result ↔ (rank_of self.now ≡ rank_of (errors.MissingExponentSign 0)) }
    {
        matches!(self, Error::MissingExponentSign(_))
    }

    /// Returns whether this is [`Error::ExponentWithoutFraction`], whatever its index.
    #[must_use]
    pub const fn is_exponent_without_fraction(&self) -> bool
        ensures { IsTrue result ↔ (rank_of self.now ≡ rank_of (errors.ExponentWithoutFraction 0)) }
    {
        matches!(self, Error::ExponentWithoutFraction(_))
    }

    /// Returns whether this is [`Error::InvalidLeadingZeros`], whatever its index.
    #[must_use]
    pub const fn is_invalid_leading_zeros(&self) -> bool
        ensures { IsTrue result ↔ (rank_of self.now ≡ rank_of (errors.InvalidLeadingZeros 0)) }
    {
        matches!(self, Error::InvalidLeadingZeros(_))
    }

    /// Returns whether this is [`Error::MissingExponent`], whatever its index.
    #[must_use]
    pub const fn is_missing_exponent(&self) -> bool
        ensures { IsTrue result ↔ (rank_of self.now ≡ rank_of (errors.MissingExponent 0)) }
    {
        matches!(self, Error::MissingExponent(_))
    }

    /// Returns whether this is [`Error::MissingSign`], whatever its index.
    #[must_use]
    pub const fn is_missing_sign(&self) -> bool
        ensures { IsTrue result ↔ (rank_of self.now ≡ rank_of (errors.MissingSign 0)) }
    {
        matches!(self, Error::MissingSign(_))
    }

    /// Returns whether this is [`Error::InvalidPositiveSign`], whatever its index.
    #[must_use]
    pub const fn is_invalid_positive_sign(&self) -> bool
        ensures { IsTrue result ↔ (rank_of self.now ≡ rank_of (errors.InvalidPositiveSign 0)) }
    {
        matches!(self, Error::InvalidPositiveSign(_))
    }

    /// Returns whether this is [`Error::InvalidNegativeSign`], whatever its index.
    #[must_use]
    pub const fn is_invalid_negative_sign(&self) -> bool
        ensures { IsTrue result ↔ (rank_of self.now ≡ rank_of (errors.InvalidNegativeSign 0)) }
    {
        matches!(self, Error::InvalidNegativeSign(_))
    }

    /// Returns whether this is [`Error::InvalidMantissaRadix`].
    #[must_use]
    pub const fn is_invalid_mantissa_radix(&self) -> bool
        ensures { IsTrue result ↔ (rank_of self.now ≡ rank_of errors.InvalidMantissaRadix) }
    {
        matches!(self, Error::InvalidMantissaRadix)
    }

    /// Returns whether this is [`Error::InvalidExponentBase`].
    #[must_use]
    pub const fn is_invalid_exponent_base(&self) -> bool
        ensures { IsTrue result ↔ (rank_of self.now ≡ rank_of errors.InvalidExponentBase) }
    {
        matches!(self, Error::InvalidExponentBase)
    }

    /// Returns whether this is [`Error::InvalidExponentRadix`].
    #[must_use]
    pub const fn is_invalid_exponent_radix(&self) -> bool
        ensures { IsTrue result ↔ (rank_of self.now ≡ rank_of errors.InvalidExponentRadix) }
    {
        matches!(self, Error::InvalidExponentRadix)
    }

    /// Returns whether this is [`Error::InvalidDigitSeparator`].
    #[must_use]
    pub const fn is_invalid_digit_separator(&self) -> bool
        ensures { IsTrue result ↔ (rank_of self.now ≡ rank_of errors.InvalidDigitSeparator) }
    {
        matches!(self, Error::InvalidDigitSeparator)
    }

    /// Returns whether this is [`Error::InvalidDecimalPoint`].
    #[must_use]
    pub const fn is_invalid_decimal_point(&self) -> bool
        ensures { IsTrue result ↔ (rank_of self.now ≡ rank_of errors.InvalidDecimalPoint) }
    {
        matches!(self, Error::InvalidDecimalPoint)
    }

    /// Returns whether this is [`Error::InvalidExponentSymbol`].
    #[must_use]
    pub const fn is_invalid_exponent_symbol(&self) -> bool
        ensures { IsTrue result ↔ (rank_of self.now ≡ rank_of errors.InvalidExponentSymbol) }
    {
        matches!(self, Error::InvalidExponentSymbol)
    }

    /// Returns whether this is [`Error::InvalidBasePrefix`].
    #[must_use]
    pub const fn is_invalid_base_prefix(&self) -> bool
        ensures { IsTrue result ↔ (rank_of self.now ≡ rank_of errors.InvalidBasePrefix) }
    {
        matches!(self, Error::InvalidBasePrefix)
    }

    /// Returns whether this is [`Error::InvalidBaseSuffix`].
    #[must_use]
    pub const fn is_invalid_base_suffix(&self) -> bool
        ensures { IsTrue result ↔ (rank_of self.now ≡ rank_of errors.InvalidBaseSuffix) }
    {
        matches!(self, Error::InvalidBaseSuffix)
    }

    /// Returns whether this is [`Error::InvalidPunctuation`].
    #[must_use]
    pub const fn is_invalid_punctuation(&self) -> bool
        ensures { IsTrue result ↔ (rank_of self.now ≡ rank_of errors.InvalidPunctuation) }
    {
        matches!(self, Error::InvalidPunctuation)
    }

    /// Returns whether this is [`Error::InvalidExponentFlags`].
    #[must_use]
    pub const fn is_invalid_exponent_flags(&self) -> bool
        ensures { IsTrue result ↔ (rank_of self.now ≡ rank_of errors.InvalidExponentFlags) }
    {
        matches!(self, Error::InvalidExponentFlags)
    }

    /// Returns whether this is [`Error::InvalidMantissaSign`].
    #[must_use]
    pub const fn is_invalid_mantissa_sign(&self) -> bool
        ensures { IsTrue result ↔ (rank_of self.now ≡ rank_of errors.InvalidMantissaSign) }
    {
        matches!(self, Error::InvalidMantissaSign)
    }

    /// Returns whether this is [`Error::InvalidExponentSign`].
    #[must_use]
    pub const fn is_invalid_exponent_sign(&self) -> bool
        ensures { IsTrue result ↔ (rank_of self.now ≡ rank_of errors.InvalidExponentSign) }
    {
        matches!(self, Error::InvalidExponentSign)
    }

    /// Returns whether this is [`Error::InvalidSpecial`].
    #[must_use]
    pub const fn is_invalid_special(&self) -> bool
        ensures { IsTrue result ↔ (rank_of self.now ≡ rank_of errors.InvalidSpecial) }
    {
        matches!(self, Error::InvalidSpecial)
    }

    /// Returns whether this is [`Error::InvalidConsecutiveIntegerDigitSeparator`].
    #[must_use]
    pub const fn is_invalid_consecutive_integer_digit_separator(&self) -> bool
        ensures { IsTrue result ↔ (rank_of self.now ≡ rank_of errors.InvalidConsecutiveIntegerDigitSeparator) }
    {
        matches!(self, Error::InvalidConsecutiveIntegerDigitSeparator)
    }

    /// Returns whether this is [`Error::InvalidConsecutiveFractionDigitSeparator`].
    #[must_use]
    pub const fn is_invalid_consecutive_fraction_digit_separator(&self) -> bool
        ensures { IsTrue result ↔ (rank_of self.now ≡ rank_of errors.InvalidConsecutiveFractionDigitSeparator) }
    {
        matches!(self, Error::InvalidConsecutiveFractionDigitSeparator)
    }

    /// Returns whether this is [`Error::InvalidConsecutiveExponentDigitSeparator`].
    #[must_use]
    pub const fn is_invalid_consecutive_exponent_digit_separator(&self) -> bool
        ensures { IsTrue result ↔ (rank_of self.now ≡ rank_of errors.InvalidConsecutiveExponentDigitSeparator) }
    {
        matches!(self, Error::InvalidConsecutiveExponentDigitSeparator)
    }

    /// Returns whether this is [`Error::InvalidFlags`].
    #[must_use]
    pub const fn is_invalid_flags(&self) -> bool
        ensures { IsTrue result ↔ (rank_of self.now ≡ rank_of errors.InvalidFlags) }
    {
        matches!(self, Error::InvalidFlags)
    }

    /// Returns whether this is [`Error::InvalidNanString`].
    #[must_use]
    pub const fn is_invalid_nan_string(&self) -> bool
        ensures { IsTrue result ↔ (rank_of self.now ≡ rank_of errors.InvalidNanString) }
    {
        matches!(self, Error::InvalidNanString)
    }

    /// Returns whether this is [`Error::NanStringTooLong`].
    #[must_use]
    pub const fn is_nan_string_too_long(&self) -> bool
        ensures { IsTrue result ↔ (rank_of self.now ≡ rank_of errors.NanStringTooLong) }
    {
        matches!(self, Error::NanStringTooLong)
    }

    /// Returns whether this is [`Error::InvalidInfString`].
    #[must_use]
    pub const fn is_invalid_inf_string(&self) -> bool
        ensures { IsTrue result ↔ (rank_of self.now ≡ rank_of errors.InvalidInfString) }
    {
        matches!(self, Error::InvalidInfString)
    }

    /// Returns whether this is [`Error::InfStringTooLong`].
    #[must_use]
    pub const fn is_inf_string_too_long(&self) -> bool
        ensures { IsTrue result ↔ (rank_of self.now ≡ rank_of errors.InfStringTooLong) }
    {
        matches!(self, Error::InfStringTooLong)
    }

    /// Returns whether this is [`Error::InvalidInfinityString`].
    #[must_use]
    pub const fn is_invalid_infinity_string(&self) -> bool
        ensures { IsTrue result ↔ (rank_of self.now ≡ rank_of errors.InvalidInfinityString) }
    {
        matches!(self, Error::InvalidInfinityString)
    }

    /// Returns whether this is [`Error::InfinityStringTooLong`].
    #[must_use]
    pub const fn is_infinity_string_too_long(&self) -> bool
        ensures { IsTrue result ↔ (rank_of self.now ≡ rank_of errors.InfinityStringTooLong) }
    {
        matches!(self, Error::InfinityStringTooLong)
    }

    /// Returns whether this is [`Error::InfinityStringTooShort`].
    #[must_use]
    pub const fn is_infinity_string_too_short(&self) -> bool
        ensures { IsTrue result ↔ (rank_of self.now ≡ rank_of errors.InfinityStringTooShort) }
    {
        matches!(self, Error::InfinityStringTooShort)
    }

    /// Returns whether this is [`Error::InvalidFloatParseAlgorithm`].
    #[must_use]
    pub const fn is_invalid_float_parse_algorithm(&self) -> bool
        ensures { IsTrue result ↔ (rank_of self.now ≡ rank_of errors.InvalidFloatParseAlgorithm) }
    {
        matches!(self, Error::InvalidFloatParseAlgorithm)
    }

    /// Returns whether this is [`Error::InvalidRadix`].
    #[must_use]
    pub const fn is_invalid_radix(&self) -> bool
        ensures { IsTrue result ↔ (rank_of self.now ≡ rank_of errors.InvalidRadix) }
    {
        matches!(self, Error::InvalidRadix)
    }

    /// Returns whether this is [`Error::InvalidFloatPrecision`].
    #[must_use]
    pub const fn is_invalid_float_precision(&self) -> bool
        ensures { IsTrue result ↔ (rank_of self.now ≡ rank_of errors.InvalidFloatPrecision) }
    {
        matches!(self, Error::InvalidFloatPrecision)
    }

    /// Returns whether this is [`Error::InvalidNegativeExponentBreak`].
    #[must_use]
    pub const fn is_invalid_negative_exponent_break(&self) -> bool
        ensures { IsTrue result ↔ (rank_of self.now ≡ rank_of errors.InvalidNegativeExponentBreak) }
    {
        matches!(self, Error::InvalidNegativeExponentBreak)
    }

    /// Returns whether this is [`Error::InvalidPositiveExponentBreak`].
    #[must_use]
    pub const fn is_invalid_positive_exponent_break(&self) -> bool
        ensures { IsTrue result ↔ (rank_of self.now ≡ rank_of errors.InvalidPositiveExponentBreak) }
    {
        matches!(self, Error::InvalidPositiveExponentBreak)
    }

    /// Returns whether this is [`Error::Success`].
    #[must_use]
    pub const fn is_success(&self) -> bool
        ensures rank { IsTrue result ↔ (rank_of self.now ≡ rank_of errors.Success) }
        ensures same { IsTrue result ↔ (self.now ≡ Error.Success) }
    {
        matches!(self, Error::Success)
    }

    /// Returns the rank of the variant: its index in the list of the 49 variants, from 0 to 48.
    #[must_use]
    #[doc(hidden)]
    pub const fn rank(&self) -> u8
        ensures value { result ≡ rank_of self.now }
        ensures last { result < 49 }
    {
        macro_rules! ranks {
            (($error:ident)
                { $($Parse:ident $parse:literal $parsing:literal;)* } { $($Other:ident $rank:literal $text:literal;)* }) => {
                match $error {
                    $(Error::$Parse(_) => $parse,)*
                    $(Error::$Other => $rank,)*
                }
            };
        }
        with_outcomes!(ranks(self))
    }

    /// Returns the [`Error`] whose [rank][Error::rank] is `rank`, or `None` if `rank` is 49 or more.
    ///
    /// If it is a parse error, it holds `index`. Otherwise, `index` is ignored.
    #[must_use]
    #[doc(hidden)]
    pub const fn from_rank(rank: u8, index: usize) -> Option<Error>
        ensures defined { IsSome result ↔ (rank < 49) }
        ensures rank { IfSome result (λ error. rank_of error ≡ rank) }
        ensures index { IfSome result (IsAt index) }
        ensures round_trip { (error : Error) → rank_of error ≡ rank → IsAt index error → result ≡ Some error }
    {
        macro_rules! errors {
            (($own:ident, $index:ident)
                { $($Parse:ident $parse:literal $parsing:literal;)* } { $($Other:ident $rank:literal $text:literal;)* }) => {
                match $own {
                    $($parse => Some(Error::$Parse($index)),)*
                    $($rank => Some(Error::$Other),)*
                    _ => None,
                }
            };
        }
        with_outcomes!(errors(rank, index))
    }

    /// Returns the class of this [`Error`].
    #[must_use]
    pub const fn class(&self) -> Class
        ensures { result ≡ class_of self.now }
    {
        match self.rank() {
            0..=18 => Class::Parse,
            19..=35 => Class::Format,
            36..=47 => Class::Options,
            _ => Class::Success,
        }
    }

    /// Returns the text that `Display` prints.
    #[doc(hidden)]
    #[must_use]
    pub const fn text(&self) -> ShortText
        ensures { result ≡ printed_text self.now }
    {
        let text = ShortText::of(self.class().start()).and(self.description());
        match self.index() {
            Some(index) => text.and(" at index ").decimal(*index),
            None => text,
        }
    }
}

impl Class {
    // Returns the text that `Display` prints before the description.
    const fn start(self) -> &'static str
        ensures { result.now ≡ start_of_class self }
    {
        match self {
            Class::Parse => "lexical parse error: ",
            Class::Format => "lexical number format error: ",
            Class::Options => "lexical options error: ",
            Class::Success => "",
        }
    }
}

/// Writes the class and the description, and the index if this is a parse error. For [`Error::Success`], writes only
/// the description.
///
/// All options of the formatter, such as the width, are ignored. Returns an error if the formatter returns one.
impl fmt::Display for Error {
    ghost output = { λ error. Some (printed_text error) };

    ghost styled_output = { λ error spec. Some (printed_text error) };

    fn fmt<W: fmt::Write>(&self, f: &mut fmt::Formatter<W>) -> fmt::Result {
        f.write_str(self.text().as_str())
    }
}
