//! Lawful formats, and the error that explains why a word, a text or options are rejected.

ghost use Rattle.std.specs.Prelude.{◌≡◌, IfErr};
ghost use Rattle.std.specs.Result.{OkIff};
ghost use Rattle.lexical_flags.specs.Options.{OptionsFit, IsOptionsError};
ghost use Rattle.lexical_flags.specs.Record.{raw, fill};
ghost use Rattle.lexical_flags.specs.Rules.{Lawful, IsErrorOf};
ghost use Rattle.lexical_util.specs.NormalForm.{normal_form_of, IsNormal};
ghost use Rattle.lexical_util.specs.declared.lawful.Rejected.TheVariants as rejected;

use crate::edits::normal_form;
use crate::feature_format::NumberFormat;
use crate::format::STANDARD;
use lexical_base::error::Error;
use lexical_builder::format_builder::NumberFormatBuilder;
use lexical_flags::format_flags::{check, options_error};
use std::marker::Model;

/// A lawful format, which is a format word that breaks no [rule][lexical_flags::format_flags::Rule]. A function that
/// parses, writes or checks numbers can take a `Format` as an argument.
///
/// Formats are compared and hashed by their words. To find out whether two formats are equivalent, compare their
/// [normal forms][Self::normal_form].
///
/// ```
/// use peltzivar::{Error, Format};
///
/// fn digits(text: &str, format: Format) -> usize {
///     text.bytes().filter(|byte| format.mantissa_digit(*byte).is_some()).count()
/// }
/// assert_eq!(digits("12fg", Format::default()), 2);
/// assert_eq!(Format::new(0).map_err(|error| error.code()), Err(Error::InvalidMantissaRadix));
/// ```
///
/// # Proved of the source
///
/// The word of every `Format` is lawful. So everything that is proved for lawful words holds for it:
///
/// - The mantissa radix, the exponent base and the exponent radix are between 2 and 36.
/// - The digit separator, the base prefix and the base suffix are absent or
///   [punctuation][lexical_flags::format_flags::Rule]. No byte plays two of these roles: digit, sign, separator, prefix,
///   suffix.
/// - If [`check_options`][Self::check_options] accepts an exponent character and a decimal point, each of them plays
///   only one role too. For every format, it accepts at least one such pair.
/// - No two flags contradict each other, and all reserved bits are 0.
#[derive(Clone, Copy, PartialEq, Eq, PartialOrd, Ord, Hash)]
pub struct Format {
    word: u128,
}

impl Model for Format {
    ghost use Rattle.std.specs.Prelude.{ℕ};

    ghost Value = { ℕ };

    ghost use Rattle.lexical_flags.specs.Rules.{Lawful};

    ghost view = { λ format. format.word };

    ghost invariant = { λ format. Lawful format.word };

    ghost inverse = { λ word. record { word = word } };
}

impl Default for Format {
    ghost use Rattle.std.specs.Prelude.{◌≡◌};
    ghost use Rattle.lexical_util.specs.declared.format.TheConstants.{STANDARD};

    ghost is_default = { λ format. format ≡ STANDARD };

    /// Returns the [standard format][STANDARD].
    #[tactic(auto, unfolding(crate::specs::Unfoldable::on_literals))]
    fn default() -> Self
        ensures { result ≡ STANDARD }
    {
        Format { word: STANDARD }
    }
}

impl Format {
    /// Returns `word` as a format if it is lawful.
    ///
    /// ```
    /// use peltzivar::Format;
    ///
    /// // A word that was read from a file.
    /// assert!(Format::new(0x00000A00_00000000_00000000_0000000C).is_ok());
    /// let error = Format::new(0x0A0A1000_6200005F_00000000_0000000C).unwrap_err();
    /// assert_eq!(error.to_string(), "the base prefix 'b' is a digit in radix 16");
    /// ```
    ///
    /// # Errors
    ///
    /// If the word is not lawful, returns an error with the reasons.
    pub const fn new(word: u128) -> Result<Self, FormatError>
        ensures lawful { OkIff result (Lawful word) word }
        ensures error { IfErr result (λ error. IsErrorOf word error.code) }
        ensures rejected { IfErr result (λ error. error.rejected ≡ rejected.Word word) }
    {
        match NumberFormat::new(word).check() {
            Ok(format) => Ok(format),
            Err(code) => Err(FormatError::new(code, Rejected::Word(word))),
        }
    }

    // Returns a lawful word as a format.
    #[doc(hidden)]
    #[must_use]
    #[inline(always)]
    pub const fn of_lawful(word: u128) -> Self
        requires { Lawful word }
        ensures { result ≡ word }
    {
        Format { word }
    }

    /// Returns the format word.
    #[must_use]
    #[inline]
    pub const fn word(&self) -> u128
        ensures word { result ≡ self.now }
        ensures lawful { Lawful self.now }
    {
        self.word
    }

    /// Returns the view of the format word.
    #[must_use]
    #[inline]
    pub const fn view(&self) -> NumberFormat
        ensures word { result ≡ self.now }
        ensures lawful { Lawful self.now }
    {
        NumberFormat::new(self.word)
    }

    /// Returns the format's [normal form][normal_form]: the canonical word among all equivalent words. The normal form
    /// is lawful too.
    ///
    /// ```
    /// use peltzivar::Format;
    ///
    /// let [short, long] = ["0xA0000000000000000000000000C", "0xA0A0A0000000000000000000000000C"].map(|it| it.parse::<Format>().unwrap());
    /// assert!(short != long && short.normal_form() == long.normal_form());
    /// ```
    #[must_use]
    pub const fn normal_form(&self) -> Self
        ensures word { result ≡ normal_form_of self.now }
        ensures normal { IsNormal result }
    {
        Format {
            word: normal_form(self.word),
        }
    }

    /// Checks the exponent character and the decimal point of a parser or writer that will use the format. `Syntax::new`
    /// of `lexical_literal` (in plain Rust, `literal::Syntax::new`) accepts more: it checks the normal form, in which a
    /// digit separator that no flag allows is absent.
    ///
    /// ```
    /// use peltzivar::{Error, Format};
    ///
    /// let format = Format::default();
    /// assert!(format.check_options(b'e', b',').is_ok());
    /// assert_eq!(format.check_options(b'e', b'e').unwrap_err().code(), Error::InvalidPunctuation);
    /// ```
    ///
    /// # Errors
    ///
    /// The [code][FormatError::code] of the error is [`Error::InvalidExponentSymbol`] if the exponent character is a
    /// sign, a digit, or a byte that is not [allowed ASCII]. It is [`Error::InvalidDecimalPoint`] if the decimal point
    /// is one of these. It is [`Error::InvalidPunctuation`] if one byte would play two roles.
    ///
    /// [allowed ASCII]: lexical_base::ascii::is_valid_ascii
    pub const fn check_options(&self, exponent: u8, decimal_point: u8) -> Result<(), FormatError>
        ensures accepted { OkIff result (OptionsFit self.now exponent decimal_point) tt }
        ensures error { IfErr result (λ error. IsOptionsError self.now exponent decimal_point error.code) }
        ensures rejected { IfErr result (λ error. error.rejected ≡ rejected.Options self.now exponent decimal_point) }
    {
        match options_error(self.word, exponent, decimal_point) {
            Error::Success => Ok(()),
            code => Err(FormatError::new(
                code,
                Rejected::Options(self.word, exponent, decimal_point),
            )),
        }
    }

    /// Returns a builder with the fields of the format. An absent exponent base or exponent radix becomes the mantissa
    /// radix.
    pub const fn rebuild(&self) -> NumberFormatBuilder
        ensures { result ≡ fill (raw self.now) }
    {
        self.view().rebuild()
    }
}

impl NumberFormat {
    /// Returns the word as a [`Format`] if it is lawful. [`Format::new`] has an error with the reasons.
    ///
    /// # Errors
    ///
    /// If the word is not lawful, returns the error of the first rule that it breaks.
    pub const fn check(&self) -> Result<Format, Error>
        ensures lawful { OkIff result (Lawful self.now) self.now }
        ensures error { IfErr result (IsErrorOf self.now) }
    {
        match check(self.word()) {
            Ok(word) => Ok(Format { word }),
            Err(error) => Err(error),
        }
    }
}

/// Why a word is not a [`Format`], why a text is not one, or why a format does not accept options.
#[derive(Clone, Copy, PartialEq, Eq)]
pub struct FormatError {
    code: Error,
    pub(crate) rejected: Rejected,
}

// What is rejected. Plain Rust finds the reasons with it, and also rejects texts.
#[derive(Clone, Copy, PartialEq, Eq, Hash)]
pub(crate) enum Rejected {
    // A text that is not a word.
    Text,
    // A text of options, of which one is missing or is not a byte.
    Bytes,
    // A word that is not lawful.
    Word(u128),
    // A word that is lawful, with an exponent character and a decimal point that do not fit it.
    Options(u128, u8, u8),
}

impl FormatError {
    // Returns the error of what is rejected.
    pub(crate) const fn new(code: Error, rejected: Rejected) -> Self
        ensures { result ≡ record { code = code; rejected = rejected } }
    {
        FormatError { code, rejected }
    }

    /// Returns the error as `lexical-util` has it. It is the error of the first [rule][crate::Rule] that the word
    /// breaks, the parse error of the text, or the error of the options. It is never [`Error::Success`].
    #[must_use]
    pub const fn code(&self) -> Error
        ensures { result ≡ self.now.code }
    {
        self.code
    }
}
