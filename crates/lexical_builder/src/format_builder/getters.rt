//! The getters of a builder.

ghost use Rattle.std.specs.Prelude.{◌≡◌};
ghost use Rattle.lexical_flags.specs.Layout as layout;
ghost use Rattle.lexical_builder.specs.OptionByte.{option_of_byte};

use super::{
    BASE_PREFIX, BASE_SUFFIX, DIGIT_SEPARATOR, EXPONENT_BASE, EXPONENT_RADIX, MANTISSA_RADIX,
    NonZeroU8, NumberFormatBuilder, OptionU8,
};
use lexical_flags::format_flags as flags;

impl NumberFormatBuilder {
    // GETTERS

    /// Returns the [digit separator][Self::digit_separator], or `None` if it is absent.
    #[must_use]
    pub const fn get_digit_separator(&self) -> OptionU8
        ensures { result ≡ option_of_byte (self.now.byte layout.digit_separator) }
    {
        NonZeroU8::new(self.bytes[DIGIT_SEPARATOR])
    }

    /// Returns the [mantissa radix][Self::mantissa_radix].
    #[must_use]
    pub const fn get_mantissa_radix(&self) -> u8
        ensures { result ≡ self.now.byte layout.mantissa_radix }
    {
        self.bytes[MANTISSA_RADIX]
    }

    /// Returns the [exponent base][Self::exponent_base], or `None` if it is absent. In that case, the mantissa radix is
    /// used in its place.
    #[must_use]
    pub const fn get_exponent_base(&self) -> OptionU8
        ensures { result ≡ option_of_byte (self.now.byte layout.exponent_base) }
    {
        NonZeroU8::new(self.bytes[EXPONENT_BASE])
    }

    /// Returns the [exponent radix][Self::exponent_radix], or `None` if it is absent. In that case, the mantissa radix
    /// is used in its place.
    #[must_use]
    pub const fn get_exponent_radix(&self) -> OptionU8
        ensures { result ≡ option_of_byte (self.now.byte layout.exponent_radix) }
    {
        NonZeroU8::new(self.bytes[EXPONENT_RADIX])
    }

    /// Returns the [base prefix][Self::base_prefix], or `None` if it is absent.
    #[must_use]
    pub const fn get_base_prefix(&self) -> OptionU8
        ensures { result ≡ option_of_byte (self.now.byte layout.base_prefix) }
    {
        NonZeroU8::new(self.bytes[BASE_PREFIX])
    }

    /// Returns the [base suffix][Self::base_suffix], or `None` if it is absent.
    #[must_use]
    pub const fn get_base_suffix(&self) -> OptionU8
        ensures { result ≡ option_of_byte (self.now.byte layout.base_suffix) }
    {
        NonZeroU8::new(self.bytes[BASE_SUFFIX])
    }

    /// Returns the flag that [`Self::required_integer_digits`] sets.
    #[must_use]
    pub const fn get_required_integer_digits(&self) -> bool
        ensures { result ≡ self.now.flag layout.required_integer_digits }
    {
        self.has_flag(flags::REQUIRED_INTEGER_DIGITS)
    }

    /// Returns the flag that [`Self::required_fraction_digits`] sets.
    #[must_use]
    pub const fn get_required_fraction_digits(&self) -> bool
        ensures { result ≡ self.now.flag layout.required_fraction_digits }
    {
        self.has_flag(flags::REQUIRED_FRACTION_DIGITS)
    }

    /// Returns the flag that [`Self::required_exponent_digits`] sets.
    #[must_use]
    pub const fn get_required_exponent_digits(&self) -> bool
        ensures { result ≡ self.now.flag layout.required_exponent_digits }
    {
        self.has_flag(flags::REQUIRED_EXPONENT_DIGITS)
    }

    /// Returns the flag that [`Self::required_mantissa_digits`] sets.
    #[must_use]
    pub const fn get_required_mantissa_digits(&self) -> bool
        ensures { result ≡ self.now.flag layout.required_mantissa_digits }
    {
        self.has_flag(flags::REQUIRED_MANTISSA_DIGITS)
    }

    /// Returns the flag that [`Self::no_positive_mantissa_sign`] sets.
    #[must_use]
    pub const fn get_no_positive_mantissa_sign(&self) -> bool
        ensures { result ≡ self.now.flag layout.no_positive_mantissa_sign }
    {
        self.has_flag(flags::NO_POSITIVE_MANTISSA_SIGN)
    }

    /// Returns the flag that [`Self::required_mantissa_sign`] sets.
    #[must_use]
    pub const fn get_required_mantissa_sign(&self) -> bool
        ensures { result ≡ self.now.flag layout.required_mantissa_sign }
    {
        self.has_flag(flags::REQUIRED_MANTISSA_SIGN)
    }

    /// Returns the flag that [`Self::no_exponent_notation`] sets.
    #[must_use]
    pub const fn get_no_exponent_notation(&self) -> bool
        ensures { result ≡ self.now.flag layout.no_exponent_notation }
    {
        self.has_flag(flags::NO_EXPONENT_NOTATION)
    }

    /// Returns the flag that [`Self::no_positive_exponent_sign`] sets.
    #[must_use]
    pub const fn get_no_positive_exponent_sign(&self) -> bool
        ensures { result ≡ self.now.flag layout.no_positive_exponent_sign }
    {
        self.has_flag(flags::NO_POSITIVE_EXPONENT_SIGN)
    }

    /// Returns the flag that [`Self::required_exponent_sign`] sets.
    #[must_use]
    pub const fn get_required_exponent_sign(&self) -> bool
        ensures { result ≡ self.now.flag layout.required_exponent_sign }
    {
        self.has_flag(flags::REQUIRED_EXPONENT_SIGN)
    }

    /// Returns the flag that [`Self::no_exponent_without_fraction`] sets.
    #[must_use]
    pub const fn get_no_exponent_without_fraction(&self) -> bool
        ensures { result ≡ self.now.flag layout.no_exponent_without_fraction }
    {
        self.has_flag(flags::NO_EXPONENT_WITHOUT_FRACTION)
    }

    /// Returns the flag that [`Self::no_special`] sets.
    #[must_use]
    pub const fn get_no_special(&self) -> bool
        ensures { result ≡ self.now.flag layout.no_special }
    {
        self.has_flag(flags::NO_SPECIAL)
    }

    /// Returns the flag that [`Self::case_sensitive_special`] sets.
    #[must_use]
    pub const fn get_case_sensitive_special(&self) -> bool
        ensures { result ≡ self.now.flag layout.case_sensitive_special }
    {
        self.has_flag(flags::CASE_SENSITIVE_SPECIAL)
    }

    /// Returns the flag that [`Self::no_integer_leading_zeros`] sets.
    #[must_use]
    pub const fn get_no_integer_leading_zeros(&self) -> bool
        ensures { result ≡ self.now.flag layout.no_integer_leading_zeros }
    {
        self.has_flag(flags::NO_INTEGER_LEADING_ZEROS)
    }

    /// Returns the flag that [`Self::no_float_leading_zeros`] sets.
    #[must_use]
    pub const fn get_no_float_leading_zeros(&self) -> bool
        ensures { result ≡ self.now.flag layout.no_float_leading_zeros }
    {
        self.has_flag(flags::NO_FLOAT_LEADING_ZEROS)
    }

    /// Returns the flag that [`Self::required_exponent_notation`] sets.
    #[must_use]
    pub const fn get_required_exponent_notation(&self) -> bool
        ensures { result ≡ self.now.flag layout.required_exponent_notation }
    {
        self.has_flag(flags::REQUIRED_EXPONENT_NOTATION)
    }

    /// Returns the flag that [`Self::case_sensitive_exponent`] sets.
    #[must_use]
    pub const fn get_case_sensitive_exponent(&self) -> bool
        ensures { result ≡ self.now.flag layout.case_sensitive_exponent }
    {
        self.has_flag(flags::CASE_SENSITIVE_EXPONENT)
    }

    /// Returns the flag that [`Self::case_sensitive_base_prefix`] sets.
    #[must_use]
    pub const fn get_case_sensitive_base_prefix(&self) -> bool
        ensures { result ≡ self.now.flag layout.case_sensitive_base_prefix }
    {
        self.has_flag(flags::CASE_SENSITIVE_BASE_PREFIX)
    }

    /// Returns the flag that [`Self::case_sensitive_base_suffix`] sets.
    #[must_use]
    pub const fn get_case_sensitive_base_suffix(&self) -> bool
        ensures { result ≡ self.now.flag layout.case_sensitive_base_suffix }
    {
        self.has_flag(flags::CASE_SENSITIVE_BASE_SUFFIX)
    }

    /// Returns the flag that [`Self::integer_internal_digit_separator`] sets.
    #[must_use]
    pub const fn get_integer_internal_digit_separator(&self) -> bool
        ensures { result ≡ self.now.flag layout.integer_internal_digit_separator }
    {
        self.has_flag(flags::INTEGER_INTERNAL_DIGIT_SEPARATOR)
    }

    /// Returns the flag that [`Self::fraction_internal_digit_separator`] sets.
    #[must_use]
    pub const fn get_fraction_internal_digit_separator(&self) -> bool
        ensures { result ≡ self.now.flag layout.fraction_internal_digit_separator }
    {
        self.has_flag(flags::FRACTION_INTERNAL_DIGIT_SEPARATOR)
    }

    /// Returns the flag that [`Self::exponent_internal_digit_separator`] sets.
    #[must_use]
    pub const fn get_exponent_internal_digit_separator(&self) -> bool
        ensures { result ≡ self.now.flag layout.exponent_internal_digit_separator }
    {
        self.has_flag(flags::EXPONENT_INTERNAL_DIGIT_SEPARATOR)
    }

    /// Returns the flag that [`Self::integer_leading_digit_separator`] sets.
    #[must_use]
    pub const fn get_integer_leading_digit_separator(&self) -> bool
        ensures { result ≡ self.now.flag layout.integer_leading_digit_separator }
    {
        self.has_flag(flags::INTEGER_LEADING_DIGIT_SEPARATOR)
    }

    /// Returns the flag that [`Self::fraction_leading_digit_separator`] sets.
    #[must_use]
    pub const fn get_fraction_leading_digit_separator(&self) -> bool
        ensures { result ≡ self.now.flag layout.fraction_leading_digit_separator }
    {
        self.has_flag(flags::FRACTION_LEADING_DIGIT_SEPARATOR)
    }

    /// Returns the flag that [`Self::exponent_leading_digit_separator`] sets.
    #[must_use]
    pub const fn get_exponent_leading_digit_separator(&self) -> bool
        ensures { result ≡ self.now.flag layout.exponent_leading_digit_separator }
    {
        self.has_flag(flags::EXPONENT_LEADING_DIGIT_SEPARATOR)
    }

    /// Returns the flag that [`Self::integer_trailing_digit_separator`] sets.
    #[must_use]
    pub const fn get_integer_trailing_digit_separator(&self) -> bool
        ensures { result ≡ self.now.flag layout.integer_trailing_digit_separator }
    {
        self.has_flag(flags::INTEGER_TRAILING_DIGIT_SEPARATOR)
    }

    /// Returns the flag that [`Self::fraction_trailing_digit_separator`] sets.
    #[must_use]
    pub const fn get_fraction_trailing_digit_separator(&self) -> bool
        ensures { result ≡ self.now.flag layout.fraction_trailing_digit_separator }
    {
        self.has_flag(flags::FRACTION_TRAILING_DIGIT_SEPARATOR)
    }

    /// Returns the flag that [`Self::exponent_trailing_digit_separator`] sets.
    #[must_use]
    pub const fn get_exponent_trailing_digit_separator(&self) -> bool
        ensures { result ≡ self.now.flag layout.exponent_trailing_digit_separator }
    {
        self.has_flag(flags::EXPONENT_TRAILING_DIGIT_SEPARATOR)
    }

    /// Returns the flag that [`Self::integer_consecutive_digit_separator`] sets.
    #[must_use]
    pub const fn get_integer_consecutive_digit_separator(&self) -> bool
        ensures { result ≡ self.now.flag layout.integer_consecutive_digit_separator }
    {
        self.has_flag(flags::INTEGER_CONSECUTIVE_DIGIT_SEPARATOR)
    }

    /// Returns the flag that [`Self::fraction_consecutive_digit_separator`] sets.
    #[must_use]
    pub const fn get_fraction_consecutive_digit_separator(&self) -> bool
        ensures { result ≡ self.now.flag layout.fraction_consecutive_digit_separator }
    {
        self.has_flag(flags::FRACTION_CONSECUTIVE_DIGIT_SEPARATOR)
    }

    /// Returns the flag that [`Self::exponent_consecutive_digit_separator`] sets.
    #[must_use]
    pub const fn get_exponent_consecutive_digit_separator(&self) -> bool
        ensures { result ≡ self.now.flag layout.exponent_consecutive_digit_separator }
    {
        self.has_flag(flags::EXPONENT_CONSECUTIVE_DIGIT_SEPARATOR)
    }

    /// Returns the flag that [`Self::special_digit_separator`] sets.
    #[must_use]
    pub const fn get_special_digit_separator(&self) -> bool
        ensures { result ≡ self.now.flag layout.special_digit_separator }
    {
        self.has_flag(flags::SPECIAL_DIGIT_SEPARATOR)
    }
}
