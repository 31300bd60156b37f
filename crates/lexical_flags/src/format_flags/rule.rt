//! The type [`Rule`], whose values are the rules for format words.

ghost use Rattle.std.specs.Prelude.{◌≡◌, ◌↔◌, IsTrue};
ghost use Rattle.lexical_flags.specs.Additions.RuleFields.{mask_read};
ghost use Rattle.lexical_flags.specs.Rules.{Holds, error_of};

use crate::format_flags::checks::*;
use crate::format_flags::*;
use lexical_base::error::Error;

/// A rule that a format word satisfies or breaks. A word that breaks no rule is *lawful*.
///
/// The variants are in the order in which the rules are checked. The name of each variant states the condition that the
/// rule imposes. A byte of 0 is *absent*. *Punctuation* is any byte that
/// [`is_valid_ascii`][lexical_base::ascii::is_valid_ascii] accepts, except signs (`+` and `-`) and
/// [digits][is_digit_of_either_radix] of the format. To explain why a word breaks a rule, print a
/// [`Reason`][lexical_util::reasons::Reason].
#[derive(Debug, Clone, Copy, PartialEq, Eq, Hash, PartialOrd, Ord)]
pub enum Rule {
    /// The mantissa radix is between 2 and 36.
    MantissaRadixInRange,
    /// The exponent base, or the mantissa radix if the exponent base is 0, is between 2 and 36.
    ExponentBaseInRange,
    /// The exponent radix, or the mantissa radix if the exponent radix is 0, is between 2 and 36.
    ExponentRadixInRange,
    /// The digit separator is absent or punctuation.
    DigitSeparatorIsPunctuation,
    /// The base prefix is absent or punctuation.
    BasePrefixIsPunctuation,
    /// The base suffix is absent or punctuation.
    BaseSuffixIsPunctuation,
    /// The digit separator, the base prefix and the base suffix all differ (see [`is_valid_punctuation`]).
    PunctuationDiffers,
    /// Exponents are required only if they are allowed.
    ExponentFlagsAgree,
    /// A sign is required before the mantissa only if `+` is allowed there.
    MantissaSignFlagsAgree,
    /// A sign is required in the exponent only if `+` is allowed there.
    ExponentSignFlagsAgree,
    /// Special values (NaN and infinity) are case-sensitive only if they are allowed.
    SpecialCaseFlagsAgree,
    /// Digit separators are allowed in special values (NaN and infinity) only if special values are allowed.
    SpecialSeparatorFlagsAgree,
    /// Consecutive digit separators are allowed in the integer part only if a digit separator is allowed
    /// between, before or after its digits.
    IntegerConsecutiveIsAllowed,
    /// Consecutive digit separators are allowed in the fraction only if a digit separator is allowed between, before
    /// or after its digits.
    FractionConsecutiveIsAllowed,
    /// Consecutive digit separators are allowed in the exponent only if a digit separator is allowed between, before
    /// or after its digits.
    ExponentConsecutiveIsAllowed,
    /// All reserved bits, which hold neither a flag nor a byte, are 0.
    ReservedBitsAreZero,
}

/// All rules, in the order in which they are checked.
pub const RULES: [Rule; 16] = [
    Rule::MantissaRadixInRange,
    Rule::ExponentBaseInRange,
    Rule::ExponentRadixInRange,
    Rule::DigitSeparatorIsPunctuation,
    Rule::BasePrefixIsPunctuation,
    Rule::BaseSuffixIsPunctuation,
    Rule::PunctuationDiffers,
    Rule::ExponentFlagsAgree,
    Rule::MantissaSignFlagsAgree,
    Rule::ExponentSignFlagsAgree,
    Rule::SpecialCaseFlagsAgree,
    Rule::SpecialSeparatorFlagsAgree,
    Rule::IntegerConsecutiveIsAllowed,
    Rule::FractionConsecutiveIsAllowed,
    Rule::ExponentConsecutiveIsAllowed,
    Rule::ReservedBitsAreZero,
];

// The mask of the two fields that determine which characters are digits.
const DIGIT_RADIXES: u128 = MANTISSA_RADIX | EXPONENT_RADIX;

impl Rule {
    /// Returns the error of a word whose first broken rule is this one.
    #[must_use]
    pub const fn error(self) -> Error
        ensures { result ≡ error_of self }
    {
        match self {
            Rule::MantissaRadixInRange => Error::InvalidMantissaRadix,
            Rule::ExponentBaseInRange => Error::InvalidExponentBase,
            Rule::ExponentRadixInRange => Error::InvalidExponentRadix,
            Rule::DigitSeparatorIsPunctuation => Error::InvalidDigitSeparator,
            Rule::BasePrefixIsPunctuation => Error::InvalidBasePrefix,
            Rule::BaseSuffixIsPunctuation => Error::InvalidBaseSuffix,
            Rule::PunctuationDiffers => Error::InvalidPunctuation,
            Rule::ExponentFlagsAgree => Error::InvalidExponentFlags,
            Rule::MantissaSignFlagsAgree => Error::InvalidMantissaSign,
            Rule::ExponentSignFlagsAgree => Error::InvalidExponentSign,
            Rule::SpecialCaseFlagsAgree | Rule::SpecialSeparatorFlagsAgree => Error::InvalidSpecial,
            Rule::IntegerConsecutiveIsAllowed => Error::InvalidConsecutiveIntegerDigitSeparator,
            Rule::FractionConsecutiveIsAllowed => Error::InvalidConsecutiveFractionDigitSeparator,
            Rule::ExponentConsecutiveIsAllowed => Error::InvalidConsecutiveExponentDigitSeparator,
            Rule::ReservedBitsAreZero => Error::InvalidFlags,
        }
    }

    /// Returns whether `format` satisfies this rule.
    #[must_use]
    #[tactic(auto, unfolding(crate::specs::Rules::Holds))]
    pub const fn is_kept(self, format: u128) -> bool
        ensures { IsTrue result ↔ Holds self format }
    {
        match self {
            Rule::MantissaRadixInRange => is_valid_mantissa_radix(format),
            Rule::ExponentBaseInRange => is_valid_exponent_base(format),
            Rule::ExponentRadixInRange => is_valid_exponent_radix(format),
            Rule::DigitSeparatorIsPunctuation => is_valid_digit_separator(format),
            Rule::BasePrefixIsPunctuation => is_valid_base_prefix(format),
            Rule::BaseSuffixIsPunctuation => is_valid_base_suffix(format),
            Rule::PunctuationDiffers => is_valid_punctuation(format),
            Rule::ExponentFlagsAgree => is_valid_exponent_flags(format),
            Rule::MantissaSignFlagsAgree => is_valid_mantissa_sign_flags(format),
            Rule::ExponentSignFlagsAgree => is_valid_exponent_sign_flags(format),
            Rule::SpecialCaseFlagsAgree => is_valid_special_case_flags(format),
            Rule::SpecialSeparatorFlagsAgree => is_valid_special_separator_flags(format),
            Rule::IntegerConsecutiveIsAllowed => is_valid_integer_consecutive_flags(format),
            Rule::FractionConsecutiveIsAllowed => is_valid_fraction_consecutive_flags(format),
            Rule::ExponentConsecutiveIsAllowed => is_valid_exponent_consecutive_flags(format),
            Rule::ReservedBitsAreZero => is_clean(format),
        }
    }

    /// Returns the mask of the bits that this rule reads. For [`Rule::ReservedBitsAreZero`], these are the reserved
    /// bits. For every other rule, they are the bits of the fields on which the rule depends. Two words that have the
    /// same values in these bits either both satisfy the rule or both break it.
    #[must_use]
    pub const fn mask(self) -> u128
        ensures { result ≡ mask_read self }
    {
        match self {
            Rule::MantissaRadixInRange => MANTISSA_RADIX,
            Rule::ExponentBaseInRange => EXPONENT_BASE | MANTISSA_RADIX,
            Rule::ExponentRadixInRange => DIGIT_RADIXES,
            Rule::DigitSeparatorIsPunctuation => DIGIT_SEPARATOR | DIGIT_RADIXES,
            Rule::BasePrefixIsPunctuation => BASE_PREFIX | DIGIT_RADIXES,
            Rule::BaseSuffixIsPunctuation => BASE_SUFFIX | DIGIT_RADIXES,
            Rule::PunctuationDiffers => {
                DIGIT_SEPARATOR
                    | BASE_PREFIX
                    | BASE_SUFFIX
                    | CASE_SENSITIVE_BASE_PREFIX
                    | CASE_SENSITIVE_BASE_SUFFIX
            }
            Rule::ExponentFlagsAgree => NO_EXPONENT_NOTATION | REQUIRED_EXPONENT_NOTATION,
            Rule::MantissaSignFlagsAgree => NO_POSITIVE_MANTISSA_SIGN | REQUIRED_MANTISSA_SIGN,
            Rule::ExponentSignFlagsAgree => NO_POSITIVE_EXPONENT_SIGN | REQUIRED_EXPONENT_SIGN,
            Rule::SpecialCaseFlagsAgree => NO_SPECIAL | CASE_SENSITIVE_SPECIAL,
            Rule::SpecialSeparatorFlagsAgree => NO_SPECIAL | SPECIAL_DIGIT_SEPARATOR,
            Rule::IntegerConsecutiveIsAllowed => INTEGER_DIGIT_SEPARATOR_FLAG_MASK,
            Rule::FractionConsecutiveIsAllowed => FRACTION_DIGIT_SEPARATOR_FLAG_MASK,
            Rule::ExponentConsecutiveIsAllowed => EXPONENT_DIGIT_SEPARATOR_FLAG_MASK,
            Rule::ReservedBitsAreZero => RESERVED_MASK,
        }
    }
}
