//! Tests of an exponent character and a decimal point, which the options of a parser or a writer choose.
#![tactic(auto, using(crate::proofs::FlagBits::flag_tests), unfolding(crate::specs::Rules::IsPunctuation))]

ghost use Rattle.std.specs.Prelude.{◌≡◌, ◌↔◌, IsTrue};
ghost use Rattle.std.specs.List.{AllByRecursion};
ghost use Rattle.lexical_flags.specs.Layout as layout;
ghost use Rattle.lexical_flags.specs.Options.{OptionsFit, IsOptionsError, OptionsHaveOneRole, SomeOptionsHaveOneRole};
ghost use Rattle.lexical_flags.specs.Record.{raw};
ghost use Rattle.lexical_flags.specs.Roles.{Disjoint, cased, format_roles};
ghost use Rattle.lexical_flags.specs.Rules.{Lawful};

use crate::format_flags::checks::*;
use crate::format_flags::*;
use lexical_base::error::Error;

// Returns whether the exponent character is case-sensitive.
#[inline]
const fn exponent_is_case_sensitive(format: u128) -> bool
    ensures { result ≡ (raw format).flag layout.case_sensitive_exponent }
{
    format & CASE_SENSITIVE_EXPONENT != 0
}

// Returns whether the role of `byte` is disjoint from the roles of the digit separator, the base prefix and the base
// suffix.
#[inline]
const fn is_disjoint_from_format_roles(format: u128, byte: u8, case_sensitive: bool) -> bool
    ensures { IsTrue result ↔ AllByRecursion (Disjoint (cased case_sensitive byte)) (format_roles (raw format)) }
{
    let prefix_case = prefix_is_case_sensitive(format);
    let suffix_case = suffix_is_case_sensitive(format);
    roles_disjoint_fast(byte, case_sensitive, digit_separator(format), true)
        && roles_disjoint_fast(byte, case_sensitive, base_prefix(format), prefix_case)
        && roles_disjoint_fast(byte, case_sensitive, base_suffix(format), suffix_case)
}

/// Returns whether numbers in `format` can have the exponent character `exponent` and the decimal point
/// `decimal_point`.
///
/// Each must be a byte that [`is_valid_ascii`][lexical_base::ascii::is_valid_ascii] accepts and that is neither a sign
/// (`+` or `-`) nor a [digit][is_digit_of_either_radix] of `format`. So neither may be 0. The two must differ from each
/// other, and from the digit separator, the base prefix and the base suffix. If the exponent character is a letter, it
/// matches both cases of that letter unless `CASE_SENSITIVE_EXPONENT` is set. The base prefix and the base suffix are
/// compared as in [`is_valid_punctuation`]. The decimal point is always case-sensitive. Every [lawful][Rule] format
/// accepts at least one pair. With such a pair, no byte has two meanings in a number. `lexical-util` compares the raw
/// bytes, so a letter matches only its own case there. Of a lawful word, `Syntax::new` of `lexical_literal` (in plain
/// Rust, `literal::Syntax::new`) accepts more: it checks the normal form, in which a digit separator that no flag
/// allows is absent.
///
/// ```
/// use peltzivar::format::{is_valid_options_punctuation, STANDARD};
///
/// assert!(is_valid_options_punctuation(STANDARD, b'e', b'.'));
/// assert!(!is_valid_options_punctuation(STANDARD, b'5', b'.')); // a digit
/// assert!(!is_valid_options_punctuation(STANDARD, b'.', b'.')); // one byte for both
/// ```
///
/// # Proved of the source
///
/// - For a lawful format, the result is true if and only if both bytes are allowed ASCII, and no byte plays two roles.
/// - Each lawful format accepts at least one pair of bytes.
#[must_use]
#[inline]
#[tactic(auto, using(crate::proofs::OptionLemmas::accepted_roles, crate::proofs::OptionLemmas::some_from_lawful))]
pub const fn is_valid_options_punctuation(format: u128, exponent: u8, decimal_point: u8) -> bool
    ensures accepted { IsTrue result ↔ OptionsFit format exponent decimal_point }
    // In a lawful format, the options are accepted if and only if they are allowed ASCII and no byte plays two roles.
    ensures roles { Lawful format → (IsTrue result ↔ OptionsHaveOneRole format exponent decimal_point) }
    ensures exists { Lawful format → SomeOptionsHaveOneRole format }
{
    let exponent_case = exponent_is_case_sensitive(format);
    roles_disjoint_fast(exponent, exponent_case, decimal_point, true)
        && is_punctuation(format, decimal_point)
        && is_punctuation(format, exponent)
        && is_disjoint_from_format_roles(format, decimal_point, true)
        && is_disjoint_from_format_roles(format, exponent, exponent_case)
}

/// Returns the error that explains why [`is_valid_options_punctuation`] rejects an exponent character and a decimal
/// point, or `Success` if it accepts them.
///
/// 1. If the exponent character is a digit, a sign, or a byte that
///    [`is_valid_ascii`][lexical_base::ascii::is_valid_ascii] rejects, the result is `InvalidExponentSymbol`.
/// 2. Otherwise, if the decimal point is a digit, a sign, or a byte that
///    [`is_valid_ascii`][lexical_base::ascii::is_valid_ascii] rejects, the result is `InvalidDecimalPoint`.
/// 3. Otherwise, if the two match the same byte, or if either matches the same byte as the digit separator, the base
///    prefix or the base suffix, the result is `InvalidPunctuation`. [`is_valid_options_punctuation`] describes which
///    letters match both cases.
///
/// Of a lawful word, `Syntax::new` of `lexical_literal` (in plain Rust, `literal::Syntax::new`) accepts more: it checks
/// the normal form, in which a digit separator that no flag allows is absent.
#[must_use]
#[tactic(auto, using(crate::proofs::OptionLemmas::options_success, crate::proofs::OptionLemmas::one_options_error))]
pub const fn options_error(format: u128, exponent: u8, decimal_point: u8) -> Error
    ensures first { IsOptionsError format exponent decimal_point result }
    ensures accepted { (result ≡ Error.Success) ↔ OptionsFit format exponent decimal_point }
    ensures unique { (other : Error) → IsOptionsError format exponent decimal_point other → other ≡ result }
{
    first_options_error(format, exponent, decimal_point)
}

// Returns the error of the first condition that the options do not satisfy, or `Success`.
#[inline]
const fn first_options_error(format: u128, exponent: u8, decimal_point: u8) -> Error
    ensures { IsOptionsError format exponent decimal_point result }
{
    if !is_punctuation(format, exponent) {
        Error::InvalidExponentSymbol
    } else if !is_punctuation(format, decimal_point) {
        Error::InvalidDecimalPoint
    } else if !is_valid_options_punctuation(format, exponent, decimal_point) {
        Error::InvalidPunctuation
    } else {
        Error::Success
    }
}
