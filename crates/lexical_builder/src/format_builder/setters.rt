//! The setters of a builder. Each takes the builder and returns it with one or more fields changed.
#![tactic(auto, unfolding(crate::specs::Writes::after))]

ghost use Rattle.std.specs.Prelude.{◌≡◌, [], ◌∷◌};
ghost use Rattle.lexical_flags.specs.Layout as layout;
ghost use Rattle.lexical_builder.specs.OptionByte.{byte_of_option};
ghost use Rattle.lexical_builder.specs.Writes.{after, write_flag, write_flags, write_byte};

use super::{
    BASE_PREFIX, BASE_SUFFIX, DIGIT_SEPARATOR, EXPONENT_BASE, EXPONENT_RADIX, MANTISSA_RADIX,
    NumberFormatBuilder, OptionU8, byte_or_zero,
};
use lexical_flags::format_flags as flags;

impl NumberFormatBuilder {
    // SETTERS

    /// Sets the digit separator: the byte that separates groups of digits, such as the `_` in `1_000`.
    ///
    /// The digit separator flags define where the digit separator is allowed. If none of these flags is set, the digit
    /// separator is not packed into the word. This is not an error: the builder's `notes` report it. In a lawful format,
    /// it is punctuation: a byte that `is_valid_ascii` accepts and that is neither a sign nor a digit in the mantissa
    /// radix or the exponent radix.
    ///
    /// ```
    /// use core::num::NonZeroU8;
    /// use peltzivar::{literal::Syntax, NumberFormatBuilder};
    ///
    /// let builder = NumberFormatBuilder::new().digit_separator(NonZeroU8::new(b'_')).integer_internal_digit_separator(true);
    /// assert_eq!(Syntax::integers(builder.build_format_or_panic()).parse::<u32>("1_000"), Ok(1000));
    /// ```
    pub const fn digit_separator(self, character: OptionU8) -> Self
        ensures { result ≡ after self (write_byte layout.digit_separator (byte_of_option character) ∷ []) }
    {
        self.with_byte(DIGIT_SEPARATOR, byte_or_zero(character))
    }

    /// Sets the mantissa radix. This method is the same as [`mantissa_radix`][Self::mantissa_radix].
    pub const fn radix(self, radix: u8) -> Self
        ensures { result ≡ after self (write_byte layout.mantissa_radix radix ∷ []) }
    {
        self.mantissa_radix(radix)
    }

    /// Sets the mantissa radix: the radix of the integer and fraction digits.
    ///
    /// It is also used in place of an absent exponent base or exponent radix. In a lawful format, the mantissa radix is
    /// between 2 and 36.
    ///
    /// ```
    /// use peltzivar::{literal::Syntax, NumberFormatBuilder};
    ///
    /// let octal = Syntax::integers(NumberFormatBuilder::new().mantissa_radix(8).build_format_or_panic());
    /// assert_eq!(octal.parse::<u32>("755"), Ok(0o755));
    /// assert_eq!(octal.read("789").unwrap_err().to_string(), "unexpected character '8'");
    /// ```
    pub const fn mantissa_radix(self, radix: u8) -> Self
        ensures { result ≡ after self (write_byte layout.mantissa_radix radix ∷ []) }
    {
        self.with_byte(MANTISSA_RADIX, radix)
    }

    /// Sets the exponent base: the base that is raised to the exponent, such as the 2 in 1 × 2^3.
    ///
    /// `None` means the mantissa radix. In a lawful format, the base is between 2 and 36. If it is 2 and the exponent
    /// character is `p`, then `1p3` means 1 × 2^3.
    ///
    /// ```
    /// use core::num::NonZeroU8;
    /// use peltzivar::{literal::Syntax, NumberFormatBuilder};
    ///
    /// let format = NumberFormatBuilder::new().mantissa_radix(16).exponent_base(NonZeroU8::new(2)).build_format_or_panic();
    /// assert_eq!(Syntax::new_or_panic(format, b'p', b'.').parse::<f64>("1.8p3"), Ok(12.0)); // 1.5 × 2^3
    /// ```
    pub const fn exponent_base(self, base: OptionU8) -> Self
        ensures { result ≡ after self (write_byte layout.exponent_base (byte_of_option base) ∷ []) }
    {
        self.with_byte(EXPONENT_BASE, byte_or_zero(base))
    }

    /// Sets the exponent radix: the radix of the exponent digits.
    ///
    /// `None` means the mantissa radix. In a lawful format, the radix is between 2 and 36.
    ///
    /// ```
    /// use core::num::NonZeroU8;
    /// use peltzivar::{literal::Syntax, NumberFormatBuilder};
    ///
    /// let binary = NumberFormatBuilder::new().mantissa_radix(2).exponent_radix(NonZeroU8::new(10));
    /// let syntax = Syntax::new_or_panic(binary.build_format_or_panic(), b'e', b'.');
    /// assert_eq!(syntax.parse::<f64>("1e10"), Ok(1024.0)); // not 2^2
    /// ```
    pub const fn exponent_radix(self, radix: OptionU8) -> Self
        ensures { result ≡ after self (write_byte layout.exponent_radix (byte_of_option radix) ∷ []) }
    {
        self.with_byte(EXPONENT_RADIX, byte_or_zero(radix))
    }

    /// Sets the base prefix: the byte that may follow a leading zero to indicate the radix, such as the `x` in `0x1F`.
    ///
    /// In a lawful format, it is punctuation: a byte that `is_valid_ascii` accepts and that is neither a sign nor a
    /// digit in the mantissa radix or the exponent radix.
    ///
    /// ```
    /// use core::num::NonZeroU8;
    /// use peltzivar::{literal::Syntax, NumberFormatBuilder};
    ///
    /// let builder = NumberFormatBuilder::new().mantissa_radix(16).base_prefix(NonZeroU8::new(b'x'));
    /// let syntax = Syntax::integers(builder.build_format_or_panic());
    /// assert_eq!([syntax.parse("0x1F"), syntax.parse("0X1F"), syntax.parse("1F")], [Ok(31); 3]); // it may be absent
    /// ```
    pub const fn base_prefix(self, base_prefix: OptionU8) -> Self
        ensures { result ≡ after self (write_byte layout.base_prefix (byte_of_option base_prefix) ∷ []) }
    {
        self.with_byte(BASE_PREFIX, byte_or_zero(base_prefix))
    }

    /// Sets the base suffix: the byte that may follow the digits to indicate the radix, such as the `h` in `1Fh`.
    ///
    /// In a lawful format, it is punctuation: a byte that `is_valid_ascii` accepts and that is neither a sign nor a
    /// digit in the mantissa radix or the exponent radix.
    ///
    /// ```
    /// use core::num::NonZeroU8;
    /// use peltzivar::{literal::Syntax, NumberFormatBuilder};
    ///
    /// let builder = NumberFormatBuilder::new().mantissa_radix(16).base_suffix(NonZeroU8::new(b'h'));
    /// assert_eq!(Syntax::integers(builder.build_format_or_panic()).parse::<u8>("1Fh"), Ok(31));
    /// ```
    pub const fn base_suffix(self, base_suffix: OptionU8) -> Self
        ensures { result ≡ after self (write_byte layout.base_suffix (byte_of_option base_suffix) ∷ []) }
    {
        self.with_byte(BASE_SUFFIX, byte_or_zero(base_suffix))
    }

    /// Sets whether the format requires digits before the decimal point. If so, a parser rejects `.5`.
    pub const fn required_integer_digits(self, flag: bool) -> Self
        ensures { result ≡ after self (write_flag layout.required_integer_digits flag ∷ []) }
    {
        self.with_flags(flags::REQUIRED_INTEGER_DIGITS, flag)
    }

    /// Sets whether the format requires digits after a decimal point. If so, a parser rejects `1.` but accepts `1`.
    pub const fn required_fraction_digits(self, flag: bool) -> Self
        ensures { result ≡ after self (write_flag layout.required_fraction_digits flag ∷ []) }
    {
        self.with_flags(flags::REQUIRED_FRACTION_DIGITS, flag)
    }

    /// Sets whether the format requires digits after an exponent character. If so, a parser rejects `1e`. The default
    /// is `true`.
    pub const fn required_exponent_digits(self, flag: bool) -> Self
        ensures { result ≡ after self (write_flag layout.required_exponent_digits flag ∷ []) }
    {
        self.with_flags(flags::REQUIRED_EXPONENT_DIGITS, flag)
    }

    /// Sets whether the format requires a digit in the mantissa of a float. If so, a parser rejects `.`. Otherwise, `.`
    /// is parsed as 0. An empty string is always rejected. The default is `true`.
    ///
    /// ```
    /// use peltzivar::{literal::Syntax, NumberFormatBuilder};
    ///
    /// let format = NumberFormatBuilder::new().required_mantissa_digits(false).build_format_or_panic();
    /// let syntax = Syntax::new_or_panic(format, b'e', b'.');
    /// assert_eq!(syntax.parse::<f64>("."), Ok(0.0));
    /// assert!(syntax.read("").is_err());
    /// ```
    pub const fn required_mantissa_digits(self, flag: bool) -> Self
        ensures { result ≡ after self (write_flag layout.required_mantissa_digits flag ∷ []) }
    {
        self.with_flags(flags::REQUIRED_MANTISSA_DIGITS, flag)
    }

    /// Sets or clears all flags that require digits. An integer parser always requires a digit.
    ///
    /// ```
    /// use peltzivar::{literal::Syntax, NumberFormatBuilder};
    ///
    /// let format = NumberFormatBuilder::new().required_digits(true).build_format_or_panic();
    /// let syntax = Syntax::new_or_panic(format, b'e', b'.');
    /// assert!(["1", "1.5", "1e5"].iter().all(|text| syntax.read(text).is_ok()));
    /// assert!([".5", "1.", "1e", "."].iter().all(|text| syntax.read(text).is_err()));
    /// ```
    pub const fn required_digits(self, flag: bool) -> Self
        ensures { result ≡ after self (write_flags layout.required_digits flag) }
    {
        self.with_flags(flags::REQUIRED_DIGITS, flag)
    }

    /// Sets whether the format forbids a `+` before an integer or a float. If so, a parser rejects `+1` but accepts
    /// `-1`.
    pub const fn no_positive_mantissa_sign(self, flag: bool) -> Self
        ensures { result ≡ after self (write_flag layout.no_positive_mantissa_sign flag ∷ []) }
    {
        self.with_flags(flags::NO_POSITIVE_MANTISSA_SIGN, flag)
    }

    /// Sets whether the format requires a sign before an integer or a float. If so, a parser rejects `1`, and a writer
    /// writes `+1`.
    ///
    /// ```
    /// use peltzivar::literal::{Style, Syntax};
    ///
    /// let format = peltzivar::NumberFormatBuilder::new().required_mantissa_sign(true).build_format_or_panic();
    /// let syntax = Syntax::integers(format);
    /// assert_eq!(syntax.read("1").unwrap_err().to_string(), "expected a sign");
    /// assert_eq!(syntax.format_integer(1, Style::PLAIN).unwrap().to_string(), "+1");
    /// ```
    pub const fn required_mantissa_sign(self, flag: bool) -> Self
        ensures { result ≡ after self (write_flag layout.required_mantissa_sign flag ∷ []) }
    {
        self.with_flags(flags::REQUIRED_MANTISSA_SIGN, flag)
    }

    /// Sets whether the format forbids an exponent in a float. If so, a parser rejects `1e5`, and a writer writes out
    /// all digits.
    ///
    /// ```
    /// use peltzivar::literal::{Style, Syntax};
    ///
    /// let format = peltzivar::NumberFormatBuilder::new().no_exponent_notation(true).build_format_or_panic();
    /// let syntax = Syntax::new_or_panic(format, b'e', b'.');
    /// assert!(syntax.read("1e5").is_err());
    /// assert_eq!(syntax.format_float(1e-7, Style::PLAIN).unwrap().to_string(), "0.0000001");
    /// ```
    pub const fn no_exponent_notation(self, flag: bool) -> Self
        ensures { result ≡ after self (write_flag layout.no_exponent_notation flag ∷ []) }
    {
        self.with_flags(flags::NO_EXPONENT_NOTATION, flag)
    }

    /// Sets whether the format forbids a `+` in the exponent. If so, a parser rejects `1e+5` but accepts `1e5` and
    /// `1e-5`.
    pub const fn no_positive_exponent_sign(self, flag: bool) -> Self
        ensures { result ≡ after self (write_flag layout.no_positive_exponent_sign flag ∷ []) }
    {
        self.with_flags(flags::NO_POSITIVE_EXPONENT_SIGN, flag)
    }

    /// Sets whether the format requires a sign in the exponent. If so, a parser rejects `1e5`, and a writer writes
    /// `1e+5`.
    pub const fn required_exponent_sign(self, flag: bool) -> Self
        ensures { result ≡ after self (write_flag layout.required_exponent_sign flag ∷ []) }
    {
        self.with_flags(flags::REQUIRED_EXPONENT_SIGN, flag)
    }

    /// Sets whether the format requires a decimal point before an exponent. If so, a parser rejects `1e5` but accepts
    /// `1.0e5`. No digit is required after that decimal point.
    ///
    /// ```
    /// use peltzivar::{literal::Syntax, NumberFormatBuilder};
    ///
    /// let format = NumberFormatBuilder::new().no_exponent_without_fraction(true).build_format_or_panic();
    /// let syntax = Syntax::new_or_panic(format, b'e', b'.');
    /// assert!(syntax.read("1e5").is_err() && syntax.read("1.e5").is_ok() && syntax.read("1.0e5").is_ok());
    /// ```
    pub const fn no_exponent_without_fraction(self, flag: bool) -> Self
        ensures { result ≡ after self (write_flag layout.no_exponent_without_fraction flag ∷ []) }
    {
        self.with_flags(flags::NO_EXPONENT_WITHOUT_FRACTION, flag)
    }

    /// Sets whether the format forbids all special values. If so, a parser rejects `NaN` and `inf`.
    ///
    /// ```
    /// use peltzivar::literal::{Specials, Syntax};
    /// use peltzivar::NumberFormatBuilder;
    ///
    /// let specials = Specials { nan: Some(b"NaN"), ..Specials::default() };
    /// let read = |flag| specials.read(&Syntax::integers(NumberFormatBuilder::new().no_special(flag).build_format_or_panic()), "nan");
    /// assert!(read(false).is_some() && read(true).is_none());
    /// ```
    pub const fn no_special(self, flag: bool) -> Self
        ensures { result ≡ after self (write_flag layout.no_special flag ∷ []) }
    {
        self.with_flags(flags::NO_SPECIAL, flag)
    }

    /// Sets whether special values are case-sensitive. If so, a parser rejects `nan` when the spelling of NaN is `NaN`.
    /// Otherwise, it accepts any case.
    pub const fn case_sensitive_special(self, flag: bool) -> Self
        ensures { result ≡ after self (write_flag layout.case_sensitive_special flag ∷ []) }
    {
        self.with_flags(flags::CASE_SENSITIVE_SPECIAL, flag)
    }

    /// Sets whether the format forbids leading zeros in an integer. If so, a parser rejects the integer `01` but
    /// accepts `0`.
    pub const fn no_integer_leading_zeros(self, flag: bool) -> Self
        ensures { result ≡ after self (write_flag layout.no_integer_leading_zeros flag ∷ []) }
    {
        self.with_flags(flags::NO_INTEGER_LEADING_ZEROS, flag)
    }

    /// Sets whether the format forbids leading zeros in a float. If so, a parser rejects `01.0` but accepts `0.1`. It
    /// also rejects `01` as a float.
    ///
    /// ```
    /// use peltzivar::{literal::Syntax, NumberFormatBuilder};
    ///
    /// // As in JSON, for integers and floats.
    /// let builder = NumberFormatBuilder::new().no_integer_leading_zeros(true).no_float_leading_zeros(true);
    /// let syntax = Syntax::new_or_panic(builder.build_format_or_panic(), b'e', b'.');
    /// assert!(["0", "0.1", "1e01"].iter().all(|text| syntax.read(text).is_ok()));
    /// assert!(["01", "00.1", "01e1"].iter().all(|text| syntax.read(text).is_err()));
    /// ```
    pub const fn no_float_leading_zeros(self, flag: bool) -> Self
        ensures { result ≡ after self (write_flag layout.no_float_leading_zeros flag ∷ []) }
    {
        self.with_flags(flags::NO_FLOAT_LEADING_ZEROS, flag)
    }

    /// Sets whether the format requires an exponent in a float. If so, a parser rejects `1.0`, and a writer writes
    /// every float with an exponent.
    pub const fn required_exponent_notation(self, flag: bool) -> Self
        ensures { result ≡ after self (write_flag layout.required_exponent_notation flag ∷ []) }
    {
        self.with_flags(flags::REQUIRED_EXPONENT_NOTATION, flag)
    }

    /// Sets whether the exponent character is case-sensitive. If so, a parser rejects `1E5` when the exponent character
    /// is `e`. Otherwise, it accepts both cases.
    ///
    /// ```
    /// use peltzivar::{literal::Syntax, NumberFormatBuilder};
    ///
    /// let format = NumberFormatBuilder::new().case_sensitive_exponent(true).build_format_or_panic();
    /// let syntax = Syntax::new_or_panic(format, b'e', b'.');
    /// assert!(syntax.read("1e5").is_ok() && syntax.read("1E5").is_err());
    /// ```
    pub const fn case_sensitive_exponent(self, flag: bool) -> Self
        ensures { result ≡ after self (write_flag layout.case_sensitive_exponent flag ∷ []) }
    {
        self.with_flags(flags::CASE_SENSITIVE_EXPONENT, flag)
    }

    /// Sets whether the base prefix is case-sensitive. If so, a parser rejects `0X1F` when the base prefix is `x`.
    /// Otherwise, it accepts both cases.
    pub const fn case_sensitive_base_prefix(self, flag: bool) -> Self
        ensures { result ≡ after self (write_flag layout.case_sensitive_base_prefix flag ∷ []) }
    {
        self.with_flags(flags::CASE_SENSITIVE_BASE_PREFIX, flag)
    }

    /// Sets whether the base suffix is case-sensitive. If so, a parser rejects `1FH` when the base suffix is `h`.
    /// Otherwise, it accepts both cases.
    pub const fn case_sensitive_base_suffix(self, flag: bool) -> Self
        ensures { result ≡ after self (write_flag layout.case_sensitive_base_suffix flag ∷ []) }
    {
        self.with_flags(flags::CASE_SENSITIVE_BASE_SUFFIX, flag)
    }

    /// Sets whether the format allows a digit separator between integer digits. If so, a parser accepts `1_2`.
    pub const fn integer_internal_digit_separator(self, flag: bool) -> Self
        ensures { result ≡ after self (write_flag layout.integer_internal_digit_separator flag ∷ []) }
    {
        self.with_flags(flags::INTEGER_INTERNAL_DIGIT_SEPARATOR, flag)
    }

    /// Sets whether the format allows a digit separator between fraction digits. If so, a parser accepts `0.1_2`.
    pub const fn fraction_internal_digit_separator(self, flag: bool) -> Self
        ensures { result ≡ after self (write_flag layout.fraction_internal_digit_separator flag ∷ []) }
    {
        self.with_flags(flags::FRACTION_INTERNAL_DIGIT_SEPARATOR, flag)
    }

    /// Sets whether the format allows a digit separator between exponent digits. If so, a parser accepts `1e1_2`.
    pub const fn exponent_internal_digit_separator(self, flag: bool) -> Self
        ensures { result ≡ after self (write_flag layout.exponent_internal_digit_separator flag ∷ []) }
    {
        self.with_flags(flags::EXPONENT_INTERNAL_DIGIT_SEPARATOR, flag)
    }

    /// Sets or clears all flags that allow a digit separator between digits.
    ///
    /// ```
    /// use core::num::NonZeroU8;
    /// use peltzivar::{literal::Syntax, NumberFormatBuilder};
    ///
    /// let builder = NumberFormatBuilder::new().digit_separator(NonZeroU8::new(b'_')).internal_digit_separator(true);
    /// let syntax = Syntax::new_or_panic(builder.build_format_or_panic(), b'e', b'.');
    /// assert!(syntax.read("1_000.000_1e1_0").is_ok());
    /// assert!(["_1", "1_", "1__0", "1_.0"].iter().all(|text| syntax.read(text).is_err()));
    /// ```
    pub const fn internal_digit_separator(self, flag: bool) -> Self
        ensures { result ≡ after self (write_flags layout.internal_digit_separator flag) }
    {
        self.with_flags(flags::INTERNAL_DIGIT_SEPARATOR, flag)
    }

    /// Sets whether the format allows a digit separator before the integer digits. If so, a parser accepts `_12`.
    pub const fn integer_leading_digit_separator(self, flag: bool) -> Self
        ensures { result ≡ after self (write_flag layout.integer_leading_digit_separator flag ∷ []) }
    {
        self.with_flags(flags::INTEGER_LEADING_DIGIT_SEPARATOR, flag)
    }

    /// Sets whether the format allows a digit separator before the fraction digits. If so, a parser accepts `0._12`.
    pub const fn fraction_leading_digit_separator(self, flag: bool) -> Self
        ensures { result ≡ after self (write_flag layout.fraction_leading_digit_separator flag ∷ []) }
    {
        self.with_flags(flags::FRACTION_LEADING_DIGIT_SEPARATOR, flag)
    }

    /// Sets whether the format allows a digit separator before the exponent digits. If so, a parser accepts `1e_12`.
    pub const fn exponent_leading_digit_separator(self, flag: bool) -> Self
        ensures { result ≡ after self (write_flag layout.exponent_leading_digit_separator flag ∷ []) }
    {
        self.with_flags(flags::EXPONENT_LEADING_DIGIT_SEPARATOR, flag)
    }

    /// Sets or clears all flags that allow a digit separator before digits.
    pub const fn leading_digit_separator(self, flag: bool) -> Self
        ensures { result ≡ after self (write_flags layout.leading_digit_separator flag) }
    {
        self.with_flags(flags::LEADING_DIGIT_SEPARATOR, flag)
    }

    /// Sets whether the format allows a digit separator after the integer digits. If so, a parser accepts `12_`.
    pub const fn integer_trailing_digit_separator(self, flag: bool) -> Self
        ensures { result ≡ after self (write_flag layout.integer_trailing_digit_separator flag ∷ []) }
    {
        self.with_flags(flags::INTEGER_TRAILING_DIGIT_SEPARATOR, flag)
    }

    /// Sets whether the format allows a digit separator after the fraction digits. If so, a parser accepts `0.12_`.
    pub const fn fraction_trailing_digit_separator(self, flag: bool) -> Self
        ensures { result ≡ after self (write_flag layout.fraction_trailing_digit_separator flag ∷ []) }
    {
        self.with_flags(flags::FRACTION_TRAILING_DIGIT_SEPARATOR, flag)
    }

    /// Sets whether the format allows a digit separator after the exponent digits. If so, a parser accepts `1e12_`.
    pub const fn exponent_trailing_digit_separator(self, flag: bool) -> Self
        ensures { result ≡ after self (write_flag layout.exponent_trailing_digit_separator flag ∷ []) }
    {
        self.with_flags(flags::EXPONENT_TRAILING_DIGIT_SEPARATOR, flag)
    }

    /// Sets or clears all flags that allow a digit separator after digits.
    pub const fn trailing_digit_separator(self, flag: bool) -> Self
        ensures { result ≡ after self (write_flags layout.trailing_digit_separator flag) }
    {
        self.with_flags(flags::TRAILING_DIGIT_SEPARATOR, flag)
    }

    /// Sets whether the format allows consecutive digit separators in the integer part. If so, a parser accepts several
    /// separators in a row wherever it accepts a single one: `1__2`, `__12`, `12__`. In a lawful format, this flag is
    /// set only if the internal, leading or trailing separator flag of the integer part is set too.
    pub const fn integer_consecutive_digit_separator(self, flag: bool) -> Self
        ensures { result ≡ after self (write_flag layout.integer_consecutive_digit_separator flag ∷ []) }
    {
        self.with_flags(flags::INTEGER_CONSECUTIVE_DIGIT_SEPARATOR, flag)
    }

    /// Sets whether the format allows consecutive digit separators in the fraction. If so, a parser accepts several
    /// separators in a row wherever it accepts a single one: `0.1__2`, `0.__12`, `0.12__`. In a lawful format, this
    /// flag is set only if the internal, leading or trailing separator flag of the fraction is set too.
    pub const fn fraction_consecutive_digit_separator(self, flag: bool) -> Self
        ensures { result ≡ after self (write_flag layout.fraction_consecutive_digit_separator flag ∷ []) }
    {
        self.with_flags(flags::FRACTION_CONSECUTIVE_DIGIT_SEPARATOR, flag)
    }

    /// Sets whether the format allows consecutive digit separators in the exponent. If so, a parser accepts several
    /// separators in a row wherever it accepts a single one: `1e1__2`, `1e__12`, `1e12__`. In a lawful format, this
    /// flag is set only if the internal, leading or trailing separator flag of the exponent is set too.
    pub const fn exponent_consecutive_digit_separator(self, flag: bool) -> Self
        ensures { result ≡ after self (write_flag layout.exponent_consecutive_digit_separator flag ∷ []) }
    {
        self.with_flags(flags::EXPONENT_CONSECUTIVE_DIGIT_SEPARATOR, flag)
    }

    /// Sets or clears all flags that allow consecutive digit separators.
    pub const fn consecutive_digit_separator(self, flag: bool) -> Self
        ensures { result ≡ after self (write_flags layout.consecutive_digit_separator flag) }
    {
        self.with_flags(flags::CONSECUTIVE_DIGIT_SEPARATOR, flag)
    }

    /// Sets whether the format allows digit separators in special values. If so, a parser accepts `N__a_N_` as `NaN`.
    /// Digit separators can be before, between and after the letters, and can be consecutive.
    pub const fn special_digit_separator(self, flag: bool) -> Self
        ensures { result ≡ after self (write_flag layout.special_digit_separator flag ∷ []) }
    {
        self.with_flags(flags::SPECIAL_DIGIT_SEPARATOR, flag)
    }

    /// Sets or clears all flags that allow digit separators, including the flag that allows them in special values.
    ///
    /// ```
    /// use core::num::NonZeroU8;
    /// use peltzivar::{literal::Syntax, NumberFormatBuilder};
    ///
    /// let builder = NumberFormatBuilder::new().digit_separator(NonZeroU8::new(b'_')).digit_separator_flags(true);
    /// let syntax = Syntax::new_or_panic(builder.build_format_or_panic(), b'e', b'.');
    /// assert_eq!(syntax.parse::<f64>("_1__0_._5_e_1_"), Ok(105.0));
    /// ```
    pub const fn digit_separator_flags(self, flag: bool) -> Self
        ensures { result ≡ after self (write_flags layout.digit_separator_flags flag) }
    {
        self.with_flags(flags::DIGIT_SEPARATOR_FLAG_MASK, flag)
    }

    /// Sets or clears all flags that allow digit separators in the integer part.
    pub const fn integer_digit_separator_flags(self, flag: bool) -> Self
        ensures { result ≡ after self (write_flags layout.integer_digit_separator_flags flag) }
    {
        self.with_flags(flags::INTEGER_DIGIT_SEPARATOR_FLAG_MASK, flag)
    }

    /// Sets or clears all flags that allow digit separators in the fraction.
    pub const fn fraction_digit_separator_flags(self, flag: bool) -> Self
        ensures { result ≡ after self (write_flags layout.fraction_digit_separator_flags flag) }
    {
        self.with_flags(flags::FRACTION_DIGIT_SEPARATOR_FLAG_MASK, flag)
    }

    /// Sets or clears all flags that allow digit separators in the exponent.
    pub const fn exponent_digit_separator_flags(self, flag: bool) -> Self
        ensures { result ≡ after self (write_flags layout.exponent_digit_separator_flags flag) }
    {
        self.with_flags(flags::EXPONENT_DIGIT_SEPARATOR_FLAG_MASK, flag)
    }
}
