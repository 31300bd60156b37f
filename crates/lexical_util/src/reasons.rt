//! The reasons why a format word breaks rules or does not accept options, and notes on fields that have no effect on any
//! number.

ghost use Rattle.std.specs.Prelude.{◌≡◌, ◌↔◌, option_map};
ghost use Rattle.std.specs.Bool.{then_some};
ghost use Rattle.lexical_flags.specs.Options.{OptionsFit};
ghost use Rattle.lexical_flags.specs.Record.{raw};
ghost use Rattle.lexical_flags.specs.Rules.{Holds, Lawful};
ghost use Rattle.lexical_flags.specs.declared.format_flags.rule.Rule.{Rule};
ghost use Rattle.lexical_util.specs.Additions.Reasons.{reasons_of, options_reasons_of, EachReason, NoReason, Breaks, case_flag, is_cased, unset_flag};
ghost use Rattle.lexical_util.specs.Additions.Reasons.{if_present, out_of_range, digit_radixes, not_punctuation, clash, both_set, needs_position};
ghost use Rattle.lexical_util.specs.Additions.Reasons.{reserved_bits, followers, reason_of, named};

use crate::edits::FlagSetter;
use crate::feature_format::NumberFormat;
use lexical_base::ascii::is_valid_ascii;
use lexical_base::digit::char_is_digit;
use lexical_base::laws::digit_facts;
use lexical_flags::format_flags as flags;
use lexical_flags::format_flags::{
    Part, Rule, raw_exponent_base, raw_exponent_radix, roles_disjoint,
};

mod mask;
mod note;
mod sentences;

pub use note::{MAX_NOTES, Note, notes, notes_beside_reasons, notes_of_fields};

/// The number of slots in the array that [`reasons`] returns.
pub const MAX_REASONS: usize = 18;

/// The number of slots in the array that [`options_reasons`] returns.
pub const MAX_OPTIONS_REASONS: usize = 9;

/// A byte of a format word, or a character that options choose.
#[derive(Debug, Clone, Copy, PartialEq, Eq, Hash)]
pub enum Byte {
    /// The digit separator.
    DigitSeparator,
    /// The base prefix.
    BasePrefix,
    /// The base suffix.
    BaseSuffix,
    /// The mantissa radix.
    MantissaRadix,
    /// The exponent base.
    ExponentBase,
    /// The exponent radix.
    ExponentRadix,
    /// The exponent character, which options choose.
    ExponentCharacter,
    /// The decimal point, which options choose.
    DecimalPoint,
}

/// The radixes of a format word in which a byte is a digit, with their values. An absent exponent radix follows the
/// mantissa radix, so it is not listed.
#[derive(Debug, Clone, Copy, PartialEq, Eq, Hash)]
pub enum Radixes {
    /// The byte is a digit only in the mantissa radix.
    Mantissa(u8),
    /// The byte is a digit only in the exponent radix.
    Exponent(u8),
    /// The byte is a digit in both radixes.
    Both {
        /// The mantissa radix.
        mantissa: u8,
        /// The exponent radix.
        exponent: u8,
    },
}

/// A byte that a reason or a note names, with its value.
#[derive(Debug, Clone, Copy, PartialEq, Eq, Hash)]
pub struct NamedByte {
    /// Which byte this is.
    pub name: Byte,
    /// The value of the byte.
    pub value: u8,
}

/// The cause of a [`Reason`]: the fields that are to blame, with their values.
#[derive(Debug, Clone, Copy, PartialEq, Eq, Hash)]
pub enum Cause {
    /// The mantissa radix, or an exponent base or exponent radix that is present, is not between 2 and 36.
    OutOfRange(NamedByte),
    /// A byte is not an allowed ASCII byte. The bytes from 9 to 13 and from 32 to 126 are allowed.
    NotText(NamedByte),
    /// A byte is a sign: `+` or `-`.
    IsSign(NamedByte),
    /// A byte is a digit in these radixes.
    IsDigit(NamedByte, Radixes),
    /// Two bytes are the same.
    Same(NamedByte, NamedByte),
    /// Two bytes are the two cases of one letter, and not both are case-sensitive.
    DifferInCase {
        /// The first byte.
        first: NamedByte,
        /// The flag that makes the first byte case-sensitive, if it is not set.
        first_flag: Option<FlagSetter>,
        /// The second byte.
        second: NamedByte,
        /// The flag that makes the second byte case-sensitive, if it is not set.
        second_flag: Option<FlagSetter>,
    },
    /// Two flags are both set, but they contradict each other.
    BothSet(FlagSetter, FlagSetter),
    /// A flag allows consecutive digit separators in a part of the number, but no flag allows internal, leading or
    /// trailing ones in that part.
    NeedsPosition(Part),
    /// These reserved bits are set, although they hold no field.
    ReservedBits(u128),
}

/// A reason why a format word breaks one or more rules, or why it does not accept an exponent character and a decimal
/// point. A reason *blames* the bits on which it depends (see [`mask`][Self::mask]).
#[derive(Debug, Clone, Copy, PartialEq, Eq, Hash)]
pub struct Reason {
    // The first rule that a word breaks because of this reason.
    rule: Option<Rule>,
    // The rules of absent exponent bytes that the word breaks too.
    followers: (Option<Rule>, Option<Rule>),
    cause: Cause,
    // The bits that the reason blames.
    mask: u128,
}

/// Returns the reasons why a format word breaks rules. Each possible reason has its own slot, which is `None` if the
/// word does not have this reason. The slots are sorted by the rule that [`Reason::rule`] returns for each reason. All
/// slots are `None` if and only if the word is lawful.
///
/// A byte that is present but not [punctuation][Rule] has one reason: it is outside allowed ASCII, a sign, or a digit.
/// An absent exponent base or exponent radix is never a reason itself, since the mantissa radix is used in its place.
/// [`Reason::breaks`] returns whether a word breaks a rule because of a reason, and [`Reason::mask`] returns the bits
/// that a reason blames.
#[must_use]
pub const fn reasons(format: u128) -> [Option<Reason>; MAX_REASONS]
    ensures slots { result ≡ reasons_of format }
    ensures lawful { Lawful format ↔ NoReason result }

    // The word breaks a rule if and only if it breaks the rule because of one of the reasons.
    ensures rules { (rule : Rule) → Holds rule format ↔ EachReason (λ r. Breaks r rule → ⊥) result }
{
    let separator = named(Byte::DigitSeparator, flags::digit_separator(format));
    let prefix = named(Byte::BasePrefix, flags::base_prefix(format));
    let suffix = named(Byte::BaseSuffix, flags::base_suffix(format));
    let mantissa = named(Byte::MantissaRadix, flags::mantissa_radix(format) as u8);
    let base = named(Byte::ExponentBase, raw_exponent_base(format));
    let radix = named(Byte::ExponentRadix, raw_exponent_radix(format));
    macro_rules! slots {
        ($($Rule:ident $cause:expr;)*) => {
            [$(reason_for(format, Some(Rule::$Rule), $cause),)*]
        };
    }
    slots! {
        MantissaRadixInRange out_of_range(mantissa);
        ExponentBaseInRange if_present(base, out_of_range(base));
        ExponentRadixInRange if_present(radix, out_of_range(radix));
        DigitSeparatorIsPunctuation if_present(separator, not_punctuation(format, separator));
        BasePrefixIsPunctuation if_present(prefix, not_punctuation(format, prefix));
        BaseSuffixIsPunctuation if_present(suffix, not_punctuation(format, suffix));
        PunctuationDiffers clash(format, separator, prefix);
        PunctuationDiffers clash(format, separator, suffix);
        PunctuationDiffers clash(format, prefix, suffix);
        ExponentFlagsAgree both_set(format, FlagSetter::NoExponentNotation, FlagSetter::RequiredExponentNotation);
        MantissaSignFlagsAgree both_set(format, FlagSetter::NoPositiveMantissaSign, FlagSetter::RequiredMantissaSign);
        ExponentSignFlagsAgree both_set(format, FlagSetter::NoPositiveExponentSign, FlagSetter::RequiredExponentSign);
        SpecialCaseFlagsAgree both_set(format, FlagSetter::NoSpecial, FlagSetter::CaseSensitiveSpecial);
        SpecialSeparatorFlagsAgree both_set(format, FlagSetter::NoSpecial, FlagSetter::SpecialDigitSeparator);
        IntegerConsecutiveIsAllowed needs_position(format, Part::Integer);
        FractionConsecutiveIsAllowed needs_position(format, Part::Fraction);
        ExponentConsecutiveIsAllowed needs_position(format, Part::Exponent);
        ReservedBitsAreZero reserved_bits(format);
    }
}

/// Returns the reasons why numbers in `format` cannot have the exponent character `exponent` and the decimal point
/// `decimal_point`. Each possible reason has its own slot, which is `None` if it does not apply. All slots are `None` if
/// and only if [`is_valid_options_punctuation`][flags::is_valid_options_punctuation] accepts the two.
///
/// For such a reason, [`Reason::rule`] returns `None`, and [`Reason::mask`] has only bits of the format word. Of a
/// lawful word, `Syntax::new` of `lexical_literal` (in plain Rust, `literal::Syntax::new`) accepts more: it checks the
/// normal form, in which a digit separator that no flag allows is absent.
#[must_use]
pub const fn options_reasons(
    format: u128,
    exponent: u8,
    decimal_point: u8,
) -> [Option<Reason>; MAX_OPTIONS_REASONS]
    ensures slots { result ≡ options_reasons_of format exponent decimal_point }
    ensures accepted { OptionsFit format exponent decimal_point ↔ NoReason result }
{
    let exponent = named(Byte::ExponentCharacter, exponent);
    let point = named(Byte::DecimalPoint, decimal_point);
    let separator = named(Byte::DigitSeparator, flags::digit_separator(format));
    let prefix = named(Byte::BasePrefix, flags::base_prefix(format));
    let suffix = named(Byte::BaseSuffix, flags::base_suffix(format));
    [
        reason_for(format, None, not_punctuation(format, exponent)),
        reason_for(format, None, not_punctuation(format, point)),
        reason_for(format, None, clash(format, exponent, point)),
        reason_for(format, None, clash(format, exponent, separator)),
        reason_for(format, None, clash(format, exponent, prefix)),
        reason_for(format, None, clash(format, exponent, suffix)),
        reason_for(format, None, clash(format, point, separator)),
        reason_for(format, None, clash(format, point, prefix)),
        reason_for(format, None, clash(format, point, suffix)),
    ]
}

// Returns the reason for a cause, if there is one: why a word breaks `rule`, or why it does not accept options if `rule`
// is `None`.
#[inline(always)]
const fn reason_for(format: u128, rule: Option<Rule>, cause: Option<Cause>) -> Option<Reason>
    ensures { result ≡ option_map (reason_of (raw format) rule) cause }
{
    match cause {
        Some(cause) => Some(Reason {
            rule,
            followers: followers(format, rule),
            cause,
            mask: cause.mask(format),
        }),
        None => None,
    }
}

// Returns the rules that a word also breaks if it breaks `rule`: those of absent exponent bytes.
#[inline(always)]
const fn followers(format: u128, rule: Option<Rule>) -> (Option<Rule>, Option<Rule>)
    ensures { result ≡ followers (raw format) rule }
{
    match rule {
        Some(Rule::MantissaRadixInRange) => (
            some_if(raw_exponent_base(format) == 0, Rule::ExponentBaseInRange),
            some_if(raw_exponent_radix(format) == 0, Rule::ExponentRadixInRange),
        ),
        _ => (None, None),
    }
}

// Returns a byte with its value.
#[inline(always)]
const fn named(name: Byte, value: u8) -> NamedByte
    ensures { result ≡ named name value }
{
    NamedByte { name, value }
}

// Returns the flag that makes a byte case-sensitive, if there is one.
#[inline(always)]
const fn case_flag(name: Byte) -> Option<FlagSetter>
    ensures { result ≡ case_flag name }
{
    match name {
        Byte::BasePrefix => Some(FlagSetter::CaseSensitiveBasePrefix),
        Byte::BaseSuffix => Some(FlagSetter::CaseSensitiveBaseSuffix),
        Byte::ExponentCharacter => Some(FlagSetter::CaseSensitiveExponent),
        _ => None,
    }
}

// Returns whether a byte matches only itself. Otherwise, a letter matches both cases.
#[inline(always)]
#[tactic(auto, unfolding(crate::specs::Groups::any_flag))]
const fn is_cased(format: u128, name: Byte) -> bool
    ensures { result ≡ is_cased (raw format) name }
{
    match case_flag(name) {
        Some(flag) => flag.is_set(format),
        None => true,
    }
}

// Returns the case flag of a byte if it has one that is not set.
#[inline(always)]
const fn unset_flag(format: u128, name: Byte) -> Option<FlagSetter>
    ensures { result ≡ unset_flag (raw format) name }
{
    if is_cased(format, name) {
        None
    } else {
        case_flag(name)
    }
}

// Returns a cause if the byte is present.
#[inline(always)]
const fn if_present(byte: NamedByte, cause: Option<Cause>) -> Option<Cause>
    ensures { result ≡ if_present byte cause }
{
    if byte.value == 0 { None } else { cause }
}

// Returns the cause for a radix that is not between 2 and 36, if it is not.
#[inline(always)]
const fn out_of_range(byte: NamedByte) -> Option<Cause>
    ensures { result ≡ out_of_range byte }
{
    let is_valid = flags::is_valid_radix(byte.value as u32);
    some_if(!is_valid, Cause::OutOfRange(byte))
}

// Returns the cause for a byte that is not punctuation, if it is not.
const fn not_punctuation(format: u128, byte: NamedByte) -> Option<Cause>
    ensures { result ≡ not_punctuation (raw format) byte }
{
    if !is_valid_ascii(byte.value) {
        Some(Cause::NotText(byte))
    } else if (byte.value == b'+') | (byte.value == b'-') {
        Some(Cause::IsSign(byte))
    } else {
        match digit_radixes(format, byte.value) {
            Some(radixes) => Some(Cause::IsDigit(byte, radixes)),
            None => None,
        }
    }
}

// Returns the radixes in which a byte is a digit, if there are any.
const fn digit_radixes(format: u128, byte: u8) -> Option<Radixes>
    ensures { result ≡ digit_radixes (raw format) byte }
{
    digit_facts();
    let mantissa = flags::mantissa_radix(format);
    let exponent = raw_exponent_radix(format);
    match (
        char_is_digit(byte, mantissa),
        char_is_digit(byte, exponent as u32),
    ) {
        (true, true) => Some(Radixes::Both {
            mantissa: mantissa as u8,
            exponent,
        }),
        (true, false) => Some(Radixes::Mantissa(mantissa as u8)),
        (false, true) => Some(Radixes::Exponent(exponent)),
        (false, false) => None,
    }
}

// Returns the cause for two bytes that match the same byte, if they do.
#[inline(always)]
#[tactic(auto, unfolding(lexical_flags::specs::Roles::Disjoint))]
const fn clash(format: u128, first: NamedByte, second: NamedByte) -> Option<Cause>
    ensures { result ≡ clash (raw format) first second }
{
    if roles_disjoint(
        first.value,
        is_cased(format, first.name),
        second.value,
        is_cased(format, second.name),
    ) {
        None
    } else if second.value == first.value {
        Some(Cause::Same(first, second))
    } else {
        Some(Cause::DifferInCase {
            first,
            first_flag: unset_flag(format, first.name),
            second,
            second_flag: unset_flag(format, second.name),
        })
    }
}

// Returns the cause for two flags that are both set, if they are.
#[inline(always)]
#[tactic(auto, unfolding(crate::specs::Groups::any_flag))]
const fn both_set(format: u128, first: FlagSetter, second: FlagSetter) -> Option<Cause>
    ensures { result ≡ both_set (raw format) first second }
{
    some_if(
        first.is_set(format) & second.is_set(format),
        Cause::BothSet(first, second),
    )
}

// Returns the cause for consecutive digit separators in a part that has no position for one, if there is none.
#[inline(always)]
const fn needs_position(format: u128, part: Part) -> Option<Cause>
    ensures { result ≡ needs_position (raw format) part }
{
    let allowed = NumberFormat::new(format).separators(part);
    let is_lonely = allowed.consecutive & !(allowed.internal | allowed.leading | allowed.trailing);
    some_if(is_lonely, Cause::NeedsPosition(part))
}

// Returns the cause for reserved bits that are set, if any.
#[inline(always)]
const fn reserved_bits(format: u128) -> Option<Cause>
    ensures { result ≡ reserved_bits format }
{
    let bits = format & Rule::ReservedBitsAreZero.mask();
    some_if(bits != 0, Cause::ReservedBits(bits))
}

// Returns `Some(value)` if `condition` is true, and `None` if it is false.
const fn some_if<T: Copy>(condition: bool, value: T) -> Option<T>
    ensures { result ≡ then_some condition value }
{
    if condition { Some(value) } else { None }
}
