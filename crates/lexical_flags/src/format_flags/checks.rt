//! Functions that test the rules, and functions that return the error of the first rule that a word breaks.
//!
//! A word that breaks no rule is *lawful*. `NumberFormat` and `lexical-util` call such a word *valid*.
#![tactic(auto, using(crate::proofs::FlagBits::flag_tests), unfolding(crate::specs::Rules::Holds, crate::specs::Rules::IsPunctuation))]

ghost use Rattle.std.specs.Prelude.{◌≡◌, ◌≢◌, ◌↔◌, [], ◌∷◌, Err, IfErr, IsTrue, bit_or, max};
ghost use Rattle.std.specs.Result.{OkIff};
ghost use Rattle.lexical_base.specs.Ascii.{letters};
ghost use Rattle.lexical_flags.specs.Layout as layout;
ghost use Rattle.lexical_flags.specs.Layout.{IsClean};
ghost use Rattle.lexical_flags.specs.Record.{effective, raw, separator_allowed};
ghost use Rattle.lexical_flags.specs.Roles.{Disjoint, cased, other_case, digits};
ghost use Rattle.lexical_flags.specs.Rules.{IsRadix, IsAbsentOrPunctuation, IsPunctuation, Holds, IsFirstError, IsErrorOf, Lawful, radix_rules};
ghost use Rattle.lexical_flags.specs.Rules.{punctuation_rules, flag_rules};
ghost use Rattle.lexical_flags.specs.declared.format_flags.rule.Rule.TheVariants as rules;

use crate::format_flags::*;
use lexical_base::ascii::is_valid_letter;
use lexical_base::digit::char_is_digit;
use lexical_base::error::Error;
use lexical_base::laws::digit_facts;

// BYTES

// The limit of a byte that is punctuation, or absent, in all radixes.
const ALL: u16 = 256;

// The limit of a byte that is punctuation in no radix: a sign, or a byte that is not allowed ASCII.
const NO: u16 = 0;

// The limit of each byte, at the index that equals the byte. The byte is absent or punctuation in the radixes below its
// limit, and in no other. A digit character is a digit in the radixes above its value, so its limit is its value plus 1.
#[rattlefmt::skip]
const LIMITS: [u16; 256] = [
    ALL, NO, NO, NO, NO, NO, NO, NO, NO, ALL, ALL, ALL, ALL, ALL, NO, NO, // 0x00
    NO, NO, NO, NO, NO, NO, NO, NO, NO, NO, NO, NO, NO, NO, NO, NO, // 0x10
    ALL, ALL, ALL, ALL, ALL, ALL, ALL, ALL, ALL, ALL, ALL, NO, ALL, NO, ALL, ALL, // 0x20
    1, 2, 3, 4, 5, 6, 7, 8, 9, 10, ALL, ALL, ALL, ALL, ALL, ALL, // 0x30
    ALL, 11, 12, 13, 14, 15, 16, 17, 18, 19, 20, 21, 22, 23, 24, 25, // 0x40
    26, 27, 28, 29, 30, 31, 32, 33, 34, 35, 36, ALL, ALL, ALL, ALL, ALL, // 0x50
    ALL, 11, 12, 13, 14, 15, 16, 17, 18, 19, 20, 21, 22, 23, 24, 25, // 0x60
    26, 27, 28, 29, 30, 31, 32, 33, 34, 35, 36, ALL, ALL, ALL, ALL, NO, // 0x70
    NO, NO, NO, NO, NO, NO, NO, NO, NO, NO, NO, NO, NO, NO, NO, NO, // 0x80
    NO, NO, NO, NO, NO, NO, NO, NO, NO, NO, NO, NO, NO, NO, NO, NO, // 0x90
    NO, NO, NO, NO, NO, NO, NO, NO, NO, NO, NO, NO, NO, NO, NO, NO, // 0xA0
    NO, NO, NO, NO, NO, NO, NO, NO, NO, NO, NO, NO, NO, NO, NO, NO, // 0xB0
    NO, NO, NO, NO, NO, NO, NO, NO, NO, NO, NO, NO, NO, NO, NO, NO, // 0xC0
    NO, NO, NO, NO, NO, NO, NO, NO, NO, NO, NO, NO, NO, NO, NO, NO, // 0xD0
    NO, NO, NO, NO, NO, NO, NO, NO, NO, NO, NO, NO, NO, NO, NO, NO, // 0xE0
    NO, NO, NO, NO, NO, NO, NO, NO, NO, NO, NO, NO, NO, NO, NO, NO, // 0xF0
];

// Returns the larger of two radixes. A `const fn` cannot call `max`, which is a trait method.
#[inline]
const fn larger(a: u32, b: u32) -> u32
    ensures { result ≡ max a b }
{
    if a < b { b } else { a }
}

/// Returns whether `byte` is a digit in the mantissa radix or the exponent radix of `format`, that is, in the larger of
/// the two. To read a digit of the mantissa or of the exponent, use `NumberFormat::mantissa_digit` or
/// `NumberFormat::exponent_digit`.
///
/// The case of a letter does not matter: in radix 16, both `f` and `F` are digits. If the exponent radix is 0, the
/// mantissa radix replaces it. The exponent base does not affect the result. `format` need not be [lawful][Rule].
#[must_use]
#[inline]
pub const fn is_digit_of_either_radix(format: u128, byte: u8) -> bool
    ensures { IsTrue result ↔ IsTrue (digits (raw format) byte) }
{
    digit_facts();
    char_is_digit(byte, larger(mantissa_radix(format), exponent_radix(format)))
}

// Returns whether `byte` is absent, that is, 0, or punctuation in the word `format`.
#[inline]
#[tactic(auto, using(crate::proofs::PunctuationBytes::free_below_limit))]
const fn is_absent_or_punctuation(format: u128, byte: u8) -> bool
    ensures { IsTrue result ↔ IsAbsentOrPunctuation (raw format) byte }
{
    let radix = larger(mantissa_radix(format), raw_exponent_radix(format) as u32);
    radix < LIMITS[byte as usize] as u32
}

// Returns whether `byte` is punctuation in the word `format`: allowed ASCII that is neither a digit nor a sign.
#[inline]
pub(crate) const fn is_punctuation(format: u128, byte: u8) -> bool
    ensures { IsTrue result ↔ IsPunctuation (raw format) byte }
{
    byte != 0 && is_absent_or_punctuation(format, byte)
}

// Returns whether two bytes are the two cases of one letter.
#[inline]
#[tactic(auto, using(crate::proofs::CaseLemmas::flipped))]
const fn is_case_pair(a: u8, b: u8) -> bool
    ensures { IsTrue result ↔ (IsTrue (letters a) × (b ≡ other_case a)) }
{
    a ^ 0x20 == b && is_valid_letter(a)
}

/// Returns whether no byte plays both the role of `a` and the role of `b`, such as the base prefix and the base suffix.
/// If a role is not case-sensitive and its byte is a letter, both cases of the letter play the role. If the byte is 0,
/// which means absent, no byte plays it. `lexical-util` has no such function.
#[must_use]
#[inline]
#[tactic(auto, using(crate::proofs::CaseLemmas::same_clash, crate::proofs::CaseLemmas::differ_apart, crate::proofs::CaseLemmas::cases_apart))]
pub const fn roles_disjoint(a: u8, a_case_sensitive: bool, b: u8, b_case_sensitive: bool) -> bool
    ensures { IsTrue result ↔ Disjoint (cased a_case_sensitive a) (cased b_case_sensitive b) }
{
    a == 0 || (a != b && (!is_case_pair(a, b) || (a_case_sensitive & b_case_sensitive)))
}

// Returns the same result as `roles_disjoint`, but with a single comparison if the two bytes differ in a
// bit other than 0x20, as most pairs of bytes do.
#[inline]
#[tactic(auto, using(crate::proofs::CaseLemmas::other_bits_apart))]
pub(crate) const fn roles_disjoint_fast(
    a: u8,
    a_case_sensitive: bool,
    b: u8,
    b_case_sensitive: bool,
) -> bool
    ensures { IsTrue result ↔ Disjoint (cased a_case_sensitive a) (cased b_case_sensitive b) }
{
    (a | 0x20) != (b | 0x20) || roles_disjoint(a, a_case_sensitive, b, b_case_sensitive)
}

// Returns whether `b` is not absent and the two bytes agree in all bits except 0x20. If the result is `false`, the
// roles of the bytes are disjoint, whether or not they are case-sensitive.
#[inline]
const fn may_clash(a: u8, b: u8) -> bool
    ensures { IsTrue result ↔ ((b ≢ 0) × (bit_or a 32 ≡ bit_or b 32)) }
{
    (b != 0) & (a | 0x20 == b | 0x20)
}

// Returns whether the base prefix is case-sensitive.
#[inline]
pub(crate) const fn prefix_is_case_sensitive(format: u128) -> bool
    ensures { result ≡ (raw format).flag layout.case_sensitive_base_prefix }
{
    format & CASE_SENSITIVE_BASE_PREFIX != 0
}

// Returns whether the base suffix is case-sensitive.
#[inline]
pub(crate) const fn suffix_is_case_sensitive(format: u128) -> bool
    ensures { result ≡ (raw format).flag layout.case_sensitive_base_suffix }
{
    format & CASE_SENSITIVE_BASE_SUFFIX != 0
}

// RADIXES

/// Returns whether `radix` is between 2 and 36, inclusive.
#[must_use]
#[inline]
pub const fn is_valid_radix(radix: u32) -> bool
    ensures { IsTrue result ↔ IsRadix radix }
{
    radix >= 2 && radix <= 36
}

// Returns whether the mantissa radix is between 2 and 36.
#[inline]
pub(crate) const fn is_valid_mantissa_radix(format: u128) -> bool
    ensures { IsTrue result ↔ Holds rules.MantissaRadixInRange format }
{
    is_valid_radix(mantissa_radix(format))
}

// Returns whether the exponent base, or the mantissa radix if the exponent base is 0, is between 2 and 36.
#[inline]
pub(crate) const fn is_valid_exponent_base(format: u128) -> bool
    ensures { IsTrue result ↔ Holds rules.ExponentBaseInRange format }
{
    is_valid_radix(exponent_base(format))
}

// Returns whether the exponent radix, or the mantissa radix if the exponent radix is 0, is between 2 and 36.
#[inline]
pub(crate) const fn is_valid_exponent_radix(format: u128) -> bool
    ensures { IsTrue result ↔ Holds rules.ExponentRadixInRange format }
{
    is_valid_radix(exponent_radix(format))
}

// PUNCTUATION

/// Returns whether the digit separator of `format` is absent or punctuation.
///
/// A byte of 0 is *absent*. *Punctuation* is any byte that [`is_valid_ascii`][lexical_base::ascii::is_valid_ascii]
/// accepts, except signs (`+` and `-`) and [digits][is_digit_of_either_radix] of `format`.
///
/// The flags do not affect the result: a digit is rejected even if no flag allows a separator, and 0 is accepted even
/// if a flag allows one.
#[must_use]
#[inline]
pub const fn is_valid_digit_separator(format: u128) -> bool
    ensures { IsTrue result ↔ Holds rules.DigitSeparatorIsPunctuation format }
{
    is_absent_or_punctuation(format, digit_separator(format))
}

/// Returns whether the base prefix of `format` is absent or punctuation.
///
/// A byte of 0 is *absent*. *Punctuation* is any byte that [`is_valid_ascii`][lexical_base::ascii::is_valid_ascii]
/// accepts, except signs (`+` and `-`) and [digits][is_digit_of_either_radix] of `format`.
#[must_use]
#[inline]
pub const fn is_valid_base_prefix(format: u128) -> bool
    ensures { IsTrue result ↔ Holds rules.BasePrefixIsPunctuation format }
{
    is_absent_or_punctuation(format, base_prefix(format))
}

/// Returns whether the base suffix of `format` is absent or punctuation.
///
/// A byte of 0 is *absent*. *Punctuation* is any byte that [`is_valid_ascii`][lexical_base::ascii::is_valid_ascii]
/// accepts, except signs (`+` and `-`) and [digits][is_digit_of_either_radix] of `format`.
#[must_use]
#[inline]
pub const fn is_valid_base_suffix(format: u128) -> bool
    ensures { IsTrue result ↔ Holds rules.BaseSuffixIsPunctuation format }
{
    is_absent_or_punctuation(format, base_suffix(format))
}

/// Returns whether the digit separator, the base prefix and the base suffix of `format` all differ.
///
/// A byte of 0 is absent, and is not compared. A base prefix that is a letter matches both cases of that letter unless
/// `CASE_SENSITIVE_BASE_PREFIX` is set. Likewise, a base suffix that is a letter matches both cases unless
/// `CASE_SENSITIVE_BASE_SUFFIX` is set. So the prefix `h` and the suffix `H` count as different only if both flags
/// are set. The digit separator is always case-sensitive. `lexical-util` compares the raw bytes, so it accepts the
/// prefix `h` with the suffix `H` regardless of the flags.
#[must_use]
#[inline]
pub const fn is_valid_punctuation(format: u128) -> bool
    ensures { IsTrue result ↔ Holds rules.PunctuationDiffers format }
{
    let separator = digit_separator(format);
    let prefix = base_prefix(format);
    let suffix = base_suffix(format);
    let prefix_case = prefix_is_case_sensitive(format);
    let suffix_case = suffix_is_case_sensitive(format);
    let is_near = may_clash(separator, prefix)
        | may_clash(separator, suffix)
        | may_clash(prefix, suffix);
    !is_near
        || (roles_disjoint(separator, true, prefix, prefix_case)
            && roles_disjoint(separator, true, suffix, suffix_case)
            && roles_disjoint(prefix, prefix_case, suffix, suffix_case))
}

// FLAGS

/// Returns `false` if both `NO_EXPONENT_NOTATION` and `REQUIRED_EXPONENT_NOTATION` are set in
/// `format`, and `true` otherwise.
#[must_use]
#[inline]
pub const fn is_valid_exponent_flags(format: u128) -> bool
    ensures { IsTrue result ↔ Holds rules.ExponentFlagsAgree format }
{
    format & NO_EXPONENT_NOTATION == 0 || format & REQUIRED_EXPONENT_NOTATION == 0
}

// Returns `false` if both NO_POSITIVE_MANTISSA_SIGN and REQUIRED_MANTISSA_SIGN are set, and `true` otherwise.
#[inline]
pub(crate) const fn is_valid_mantissa_sign_flags(format: u128) -> bool
    ensures { IsTrue result ↔ Holds rules.MantissaSignFlagsAgree format }
{
    format & NO_POSITIVE_MANTISSA_SIGN == 0 || format & REQUIRED_MANTISSA_SIGN == 0
}

// Returns `false` if both NO_POSITIVE_EXPONENT_SIGN and REQUIRED_EXPONENT_SIGN are set, and `true` otherwise.
#[inline]
pub(crate) const fn is_valid_exponent_sign_flags(format: u128) -> bool
    ensures { IsTrue result ↔ Holds rules.ExponentSignFlagsAgree format }
{
    format & NO_POSITIVE_EXPONENT_SIGN == 0 || format & REQUIRED_EXPONENT_SIGN == 0
}

// Returns `false` if both NO_SPECIAL and CASE_SENSITIVE_SPECIAL are set, and `true` otherwise.
#[inline]
pub(crate) const fn is_valid_special_case_flags(format: u128) -> bool
    ensures { IsTrue result ↔ Holds rules.SpecialCaseFlagsAgree format }
{
    format & NO_SPECIAL == 0 || format & CASE_SENSITIVE_SPECIAL == 0
}

// Returns `false` if both NO_SPECIAL and SPECIAL_DIGIT_SEPARATOR are set, and `true` otherwise.
#[inline]
pub(crate) const fn is_valid_special_separator_flags(format: u128) -> bool
    ensures { IsTrue result ↔ Holds rules.SpecialSeparatorFlagsAgree format }
{
    format & NO_SPECIAL == 0 || format & SPECIAL_DIGIT_SEPARATOR == 0
}

// Returns `false` if INTEGER_CONSECUTIVE_DIGIT_SEPARATOR is the only separator flag of the integer that is set, and
// `true` otherwise.
#[inline]
pub(crate) const fn is_valid_integer_consecutive_flags(format: u128) -> bool
    ensures { IsTrue result ↔ Holds rules.IntegerConsecutiveIsAllowed format }
{
    format & INTEGER_DIGIT_SEPARATOR_FLAG_MASK != INTEGER_CONSECUTIVE_DIGIT_SEPARATOR
}

// Returns `false` if FRACTION_CONSECUTIVE_DIGIT_SEPARATOR is the only separator flag of the fraction that is set, and
// `true` otherwise.
#[inline]
pub(crate) const fn is_valid_fraction_consecutive_flags(format: u128) -> bool
    ensures { IsTrue result ↔ Holds rules.FractionConsecutiveIsAllowed format }
{
    format & FRACTION_DIGIT_SEPARATOR_FLAG_MASK != FRACTION_CONSECUTIVE_DIGIT_SEPARATOR
}

// Returns `false` if EXPONENT_CONSECUTIVE_DIGIT_SEPARATOR is the only separator flag of the exponent that is set, and
// `true` otherwise.
#[inline]
pub(crate) const fn is_valid_exponent_consecutive_flags(format: u128) -> bool
    ensures { IsTrue result ↔ Holds rules.ExponentConsecutiveIsAllowed format }
{
    format & EXPONENT_DIGIT_SEPARATOR_FLAG_MASK != EXPONENT_CONSECUTIVE_DIGIT_SEPARATOR
}

/// Returns whether all reserved bits of `format` are 0. The reserved bits hold neither a flag nor a byte.
#[must_use]
#[inline]
#[tactic(auto, using(crate::proofs::ReservedBits::reserved_bits))]
pub const fn is_clean(format: u128) -> bool
    ensures { IsTrue result ↔ IsClean format }
{
    format & RESERVED_MASK == 0
}

/// Returns whether any flag of `format` allows a digit separator, in a number or in a special value (NaN or infinity).
#[must_use]
#[inline]
pub const fn is_separator_allowed(format: u128) -> bool
    ensures { result ≡ separator_allowed (raw format) }
{
    format & DIGIT_SEPARATOR_FLAG_MASK != 0
}

// THE FIRST BROKEN RULE

// Returns the error of the first broken punctuation rule, or `Success`.
#[inline]
#[tactic(auto)]
const fn first_broken_punctuation(format: u128) -> Error
    ensures { IsFirstError punctuation_rules format result }
{
    if !is_valid_digit_separator(format) {
        Error::InvalidDigitSeparator
    } else if !is_valid_base_prefix(format) {
        Error::InvalidBasePrefix
    } else if !is_valid_base_suffix(format) {
        Error::InvalidBaseSuffix
    } else if !is_valid_punctuation(format) {
        Error::InvalidPunctuation
    } else {
        Error::Success
    }
}

// Returns whether no flag rule is broken. All flag rules are tested without a branch.
#[inline]
#[tactic(auto)]
const fn flags_agree(format: u128) -> bool
    ensures { IsTrue result ↔ IsFirstError flag_rules format Error.Success }
{
    is_valid_exponent_flags(format)
        & is_valid_mantissa_sign_flags(format)
        & is_valid_exponent_sign_flags(format)
        & is_valid_special_case_flags(format)
        & is_valid_special_separator_flags(format)
        & is_valid_integer_consecutive_flags(format)
        & is_valid_fraction_consecutive_flags(format)
        & is_valid_exponent_consecutive_flags(format)
}

// Returns the error of the first broken flag rule, or `Success`.
#[inline]
#[tactic(auto)]
const fn first_broken_flags(format: u128) -> Error
    ensures { IsFirstError flag_rules format result }
{
    if flags_agree(format) {
        Error::Success
    } else if !is_valid_exponent_flags(format) {
        Error::InvalidExponentFlags
    } else if !is_valid_mantissa_sign_flags(format) {
        Error::InvalidMantissaSign
    } else if !is_valid_exponent_sign_flags(format) {
        Error::InvalidExponentSign
    } else if !is_valid_special_case_flags(format) || !is_valid_special_separator_flags(format) {
        Error::InvalidSpecial
    } else if !is_valid_integer_consecutive_flags(format) {
        Error::InvalidConsecutiveIntegerDigitSeparator
    } else if !is_valid_fraction_consecutive_flags(format) {
        Error::InvalidConsecutiveFractionDigitSeparator
    } else if !is_valid_exponent_consecutive_flags(format) {
        Error::InvalidConsecutiveExponentDigitSeparator
    } else {
        Error::Success
    }
}

// Returns `InvalidFlags` if a reserved bit is set, and `Success` otherwise.
#[inline]
#[tactic(auto, unfolding(crate::specs::Rules::Holds))]
const fn first_broken_reserved(format: u128) -> Error
    ensures { IsFirstError (rules.ReservedBitsAreZero ∷ []) format result }
{
    if is_clean(format) {
        Error::Success
    } else {
        Error::InvalidFlags
    }
}

// Returns the error of the first broken rule, or `Success`. The other clauses of `format_error_impl` follow from the
// clause of this function.
#[tactic(auto, unfolding(crate::specs::Rules::IsErrorOf))]
const fn first_broken(format: u128) -> Error
    ensures { IsErrorOf format result }
{
    match radix_error_impl(format) {
        Error::Success => {}
        error => return error,
    }
    match first_broken_punctuation(format) {
        Error::Success => {}
        error => return error,
    }
    match first_broken_flags(format) {
        Error::Success => {}
        error => return error,
    }
    first_broken_reserved(format)
}

/// Returns the error of the first radix of `format` that is not between 2 and 36, or `Success`.
///
/// The radixes are tested in this order: the mantissa radix, the exponent base, the exponent radix. If the exponent
/// base or the exponent radix is 0, the mantissa radix is tested instead.
#[must_use]
#[inline]
#[tactic(auto)]
pub const fn radix_error_impl(format: u128) -> Error
    ensures first { IsFirstError radix_rules format result }
    ensures unique { (other : Error) → IsFirstError radix_rules format other → other ≡ result }
{
    if !is_valid_mantissa_radix(format) {
        Error::InvalidMantissaRadix
    } else if !is_valid_exponent_base(format) {
        Error::InvalidExponentBase
    } else if !is_valid_exponent_radix(format) {
        Error::InvalidExponentRadix
    } else {
        Error::Success
    }
}

/// Returns the error of the first rule that `format` breaks, or `Success` if it is lawful, that is, if it
/// breaks no rule.
///
/// The rules are checked in this order. Each rule is followed by its error:
///
/// 1. The mantissa radix is between 2 and 36: `InvalidMantissaRadix`.
/// 2. The exponent base, or the mantissa radix if the exponent base is 0, is between 2 and 36: `InvalidExponentBase`.
/// 3. The exponent radix, or the mantissa radix if the exponent radix is 0, is between 2 and 36:
///    `InvalidExponentRadix`.
/// 4. The digit separator is valid ([`is_valid_digit_separator`]): `InvalidDigitSeparator`.
/// 5. The base prefix is valid ([`is_valid_base_prefix`]): `InvalidBasePrefix`.
/// 6. The base suffix is valid ([`is_valid_base_suffix`]): `InvalidBaseSuffix`.
/// 7. The digit separator, the base prefix and the base suffix all differ ([`is_valid_punctuation`]):
///    `InvalidPunctuation`.
/// 8. [`NO_EXPONENT_NOTATION`] and [`REQUIRED_EXPONENT_NOTATION`] are not both set: `InvalidExponentFlags`.
/// 9. [`NO_POSITIVE_MANTISSA_SIGN`] and [`REQUIRED_MANTISSA_SIGN`] are not both set: `InvalidMantissaSign`.
/// 10. [`NO_POSITIVE_EXPONENT_SIGN`] and [`REQUIRED_EXPONENT_SIGN`] are not both set: `InvalidExponentSign`.
/// 11. [`NO_SPECIAL`] and [`CASE_SENSITIVE_SPECIAL`] are not both set: `InvalidSpecial`.
/// 12. [`NO_SPECIAL`] and [`SPECIAL_DIGIT_SEPARATOR`] are not both set: `InvalidSpecial`.
/// 13. [`INTEGER_CONSECUTIVE_DIGIT_SEPARATOR`] is set only if an internal, leading or trailing separator flag of the
///     integer part is set: `InvalidConsecutiveIntegerDigitSeparator`.
/// 14. [`FRACTION_CONSECUTIVE_DIGIT_SEPARATOR`] is set only if an internal, leading or trailing separator flag of the
///     fraction is set: `InvalidConsecutiveFractionDigitSeparator`.
/// 15. [`EXPONENT_CONSECUTIVE_DIGIT_SEPARATOR`] is set only if an internal, leading or trailing separator flag of the
///     exponent is set: `InvalidConsecutiveExponentDigitSeparator`.
/// 16. All reserved bits are 0: `InvalidFlags`.
///
/// `lexical-util` compares raw bytes in the seventh rule, and has no rule for reserved bits.
#[must_use]
#[tactic(auto, using(crate::proofs::RuleLemmas::success_lawful, crate::proofs::RuleLemmas::one_error, crate::proofs::RuleLemmas::not_flags))]
pub const fn format_error_impl(format: u128) -> Error
    ensures first { IsErrorOf format result }
    ensures lawful { (result ≡ Error.Success) ↔ Lawful format }
    ensures unique { (other : Error) → IsErrorOf format other → other ≡ result }

    // If all reserved bits are 0, the error is not `InvalidFlags`.
    ensures clean { IsClean format → result ≢ Error.InvalidFlags }
{
    first_broken(format)
}

/// Returns `format` if it is lawful. This function can be used with `?`: `let format = check(format)?;`.
///
/// # Errors
///
/// If `format` is not lawful, returns the error of the first rule that it breaks, as [`format_error_impl`] does. This
/// error is never `Success`.
#[inline]
pub const fn check(format: u128) -> Result<u128, Error>
    ensures lawful { OkIff result (Lawful format) format }
    ensures error { IfErr result (IsErrorOf format) }
    ensures not_success { result ≢ Err Error.Success }
    ensures clean { IsClean format → result ≢ Err Error.InvalidFlags }
{
    match format_error_impl(format) {
        Error::Success => Ok(format),
        error => Err(error),
    }
}
