//! Edits, which are setter calls stored as values, and the normal form of a format word.

ghost use Rattle.std.specs.Prelude.{◌≡◌, ◌≢◌, ℕ, IfErr, IfOk, ◌<◌, ◌^◌, ◌↔◌, IsTrue, List, All};
ghost use Rattle.std.specs.Result.{OkIff};
ghost use Rattle.lexical_base.specs.declared.error.Error.{Error};
ghost use Rattle.lexical_flags.specs.Layout.{Flag, IsClean};
ghost use Rattle.lexical_flags.specs.Record.{raw, fill, trim, SeparatorAllowedOrAbsent};
ghost use Rattle.lexical_flags.specs.Rules.{Lawful, IsErrorOf};
ghost use Rattle.lexical_builder.specs.Writes.{Write, IsLegal, write_flags, after, SameWrites};
ghost use Rattle.lexical_util.specs.Edits.{flags_of, writes_of, all_writes, edited};
ghost use Rattle.lexical_util.specs.NormalForm.{normal_form_of, SameFormat, IsNormal};
ghost use Rattle.lexical_util.specs.Groups.{any_flag, bits_of};

use lexical_base::error::Error;
use lexical_builder::format_builder::NumberFormatBuilder;
use lexical_flags::format_flags::check;
use lexical_flags::laws::rule_facts;

mod listing;
mod setters;
mod settings;

pub use listing::{edits_of, is_built};
pub(crate) use setters::mask_of;
pub use setters::{
    ALL_SETTERS, ArgumentKind, Edit, FIELD_COUNT, FLAG_COUNT, FlagSetter, SETTERS, Setter,
    field_edits_of,
};
pub(crate) use settings::{Fault, likeness, nearest};
pub use settings::{EditError, EditErrorKind, byte_from_decimal};

/// Calls the setter of `edit` on `builder`, and returns the new builder.
///
/// ```
/// use peltzivar::{edits::apply, Edit, NumberFormatBuilder};
///
/// let builder = apply(NumberFormatBuilder::new(), Edit::MantissaRadix(16));
/// assert_eq!(builder.get_mantissa_radix(), 16);
/// ```
#[inline(always)]
pub const fn apply(builder: NumberFormatBuilder, edit: Edit) -> NumberFormatBuilder
    ensures fields { result ≡ after builder (writes_of edit) }
    ensures legal { All IsLegal (writes_of edit) }
{
    match edit {
        Edit::Flag(setter, flag) => apply_flag(builder, setter, flag),
        Edit::DigitSeparator(byte) => builder.digit_separator(byte),
        Edit::BasePrefix(byte) => builder.base_prefix(byte),
        Edit::BaseSuffix(byte) => builder.base_suffix(byte),
        Edit::MantissaRadix(radix) => builder.mantissa_radix(radix),
        Edit::Radix(radix) => builder.radix(radix),
        Edit::ExponentBase(base) => builder.exponent_base(base),
        Edit::ExponentRadix(radix) => builder.exponent_radix(radix),
    }
}

// Calls a flag setter or a group setter with `flag`.
#[inline(always)]
const fn apply_flag(
    builder: NumberFormatBuilder,
    setter: FlagSetter,
    flag: bool,
) -> NumberFormatBuilder
    ensures { result ≡ after builder (write_flags (flags_of setter) flag) }
{
    builder.with_flags(mask_of(setter) as u128, flag)
}

/// Applies `edits` in order to `builder`, and returns the new builder.
///
/// To build a new format, apply the edits to a new builder, and call
/// [`build_strict`][NumberFormatBuilder::build_strict]. The mantissa radix is used in place of an exponent base or
/// exponent radix that no edit sets.
///
/// ```
/// use peltzivar::{edits::apply_all, Edit, FlagSetter, NumberFormatBuilder};
///
/// let edits = [Edit::MantissaRadix(16), Edit::Flag(FlagSetter::NoExponentNotation, true)];
/// let builder = apply_all(NumberFormatBuilder::new(), &edits);
/// assert_eq!(builder, NumberFormatBuilder::new().mantissa_radix(16).no_exponent_notation(true));
/// ```
#[inline(always)]
#[tactic(auto, using(crate::proofs::EditLemmas::applied_all))]
pub const fn apply_all(mut builder: NumberFormatBuilder, edits: &[Edit]) -> NumberFormatBuilder
    ensures fields { result ≡ after builder (all_writes edits.now) }
    ensures legal { All IsLegal (all_writes edits.now) }
{
    let mut index = 0;
    while index < edits.len() {
        builder = apply(builder, edits[index]);
        index += 1;
    }
    builder
}

/// Applies `edits` in order to a format word, which need not be [lawful][lexical_flags::format_flags::Rule], and
/// returns the new word.
///
/// Use this function to change a finished format. An edit of the mantissa radix changes neither the exponent base nor
/// the exponent radix. If either is absent, it is first set to the old mantissa radix. To build a new format, use
/// [`apply_all`].
///
/// The new word is computed in four steps:
///
/// 1. The fields of `format` are read.
/// 2. An exponent base or exponent radix of 0 is set to the mantissa radix.
/// 3. Each edit is applied. If several edits set the same field, the last one wins. An exponent base or exponent radix
///    that an edit sets to `None` stays 0.
/// 4. The digit separator is set to 0 if no flag allows one, and the fields are packed. The reserved bits, which hold
///    no field, are 0 in the new word.
///
/// Pass all edits in one call. If you split them between two calls, the result can be a different word. The first call
/// drops a digit separator if no flag allows one yet. The second call sets an exponent base or exponent radix to the
/// mantissa radix if the first call set it to `None`.
///
/// ```
/// use peltzivar::edits::{edit_word, Edit, FlagSetter};
/// use peltzivar::format::STANDARD;
///
/// // The exponent base and the exponent radix stay 10. They are now stored in the word.
/// let edits = [Edit::MantissaRadix(16), Edit::Flag(FlagSetter::NoSpecial, true)];
/// assert_eq!(edit_word(STANDARD, &edits), 0x0A0A1000_00000000_00000000_0000040C);
/// ```
///
/// # Proved of the source
///
/// - The result has the fields of the four steps, and is the only word with these fields and without reserved bits.
/// - Only the last write to each field matters. So edits of different fields can be in any order, and a group edit is
///   equivalent to the edits of its flags.
#[must_use]
#[inline]
pub const fn edit_word(format: u128, edits: &[Edit]) -> u128
    ensures word { result ≡ edited format (all_writes edits.now) }
    ensures fields { raw result ≡ trim (after (fill (raw format)) (all_writes edits.now)) }
    ensures clean { IsClean result }

    // No other word with clear reserved bits has these fields.
    ensures unique { (other : ℕ) → other < 2 ^ 128 → IsClean other
        → raw other ≡ trim (after (fill (raw format)) (all_writes edits.now)) → other ≡ result }

    // Only the last write to each field matters. So a group edit is equivalent to the edits of its flags in any order. By
    // `order` of the law `write_facts`, edits of different fields can be in any order.
    ensures same_writes { (writes : List Write) → All IsLegal writes
        → SameWrites writes (all_writes edits.now) → edited format writes ≡ result }

    ensures legal { All IsLegal (all_writes edits.now) }
{
    apply_all(NumberFormatBuilder::rebuild(format), edits).build_unchecked()
}

/// Returns the normal form of a format word, whether or not the word is [lawful][lexical_flags::format_flags::Rule].
/// The normal form is the canonical word among all equivalent words.
///
/// In the normal form, an exponent base or exponent radix of 0 is set to the mantissa radix. The digit separator is 0
/// if no flag allows one, and the reserved bits, which hold no field, are 0. All other fields are unchanged. Two words
/// are equivalent if they have the same normal form.
///
/// ```
/// use peltzivar::edits::normal_form;
///
/// // The exponent base and the exponent radix of both are 10.
/// const SHORT: u128 = 0x00000A00_00000000_00000000_0000000C;
/// assert_eq!(normal_form(SHORT), normal_form(0x0A0A0A00_00000000_00000000_0000000C));
/// ```
///
/// # Proved of the source
///
/// - The normal form of the result is the result itself. It is equivalent to `format`.
/// - The normal form of a lawful word is lawful. If no separator is dropped and no reserved bit, it has the same error.
/// - If no separator is dropped, all edits turn `format` and the result into the same word.
#[must_use]
pub const fn normal_form(format: u128) -> u128
    ensures word { result ≡ normal_form_of format }
    ensures fields { raw result ≡ trim (fill (raw format)) }
    ensures clean { IsClean result }

    // No other word with clear reserved bits has these fields.
    ensures unique { (other : ℕ) → other < 2 ^ 128 → IsClean other
        → raw other ≡ trim (fill (raw format)) → other ≡ result }

    // The normal form of the result is the result itself.
    ensures idempotent { normal_form_of result ≡ result }
    ensures unchanged { (result ≡ format) ↔ IsNormal format }

    // The word and its normal form are equivalent. Their effective fields are equal, except for a separator that no
    // flag allows. For each list of flags, both have the same bits.
    ensures same { SameFormat (raw format) (raw result) }
    ensures groups { (fs : List Flag) → any_flag format fs ≡ any_flag result fs }
    ensures flags { (fs : List Flag) → bits_of format fs ≡ bits_of result fs }

    // The normal form of a lawful word is lawful. Both words have the same error if neither a reserved bit nor a
    // separator is dropped.
    ensures lawful { Lawful format → Lawful result }
    ensures error { IsClean format → SeparatorAllowedOrAbsent (raw format)
        → (error : Error) → IsErrorOf format error ↔ IsErrorOf result error }

    // If no separator is dropped, the same writes turn both words into the same word.
    ensures edits { SeparatorAllowedOrAbsent (raw format) → (writes : List Write) → All IsLegal writes
        → edited result writes ≡ edited format writes }
    ensures normal { IsNormal result }
{
    rule_facts();
    NumberFormatBuilder::rebuild(format).build_unchecked()
}

/// Returns the [normal form][normal_form] of `format` if that form is [lawful][lexical_flags::format_flags::Rule].
///
/// Use this function for stored words that `lexical-util` built, or that this crate built before its rules changed. Set
/// reserved bits and a digit separator that no flag allows are not errors, since the normal form drops them.
///
/// # Errors
///
/// If the normal form is not lawful, returns the error of the first rule that it breaks. The error is never `Success`
/// or `InvalidFlags`.
///
/// ```
/// use peltzivar::{edits::migrate, error::Error};
///
/// // Bit 31 is reserved and is cleared. The exponent base and the exponent radix become 10.
/// // Flags 4 and 5 cannot both be set.
/// assert_eq!(migrate(0x00000A00_00000000_00000000_8000000C), Ok(0x0A0A0A00_00000000_00000000_0000000C));
/// assert_eq!(migrate(0x00000A00_00000000_00000000_0000003C), Err(Error::InvalidMantissaSign));
/// ```
pub const fn migrate(format: u128) -> Result<u128, Error>
    ensures lawful { OkIff result (Lawful (normal_form_of format)) (normal_form_of format) }
    ensures fields { IfOk result (λ word. raw word ≡ trim (fill (raw format))) }
    ensures normal { IfOk result IsNormal }
    ensures same { IfOk result (λ word. SameFormat (raw format) (raw word)) }
    ensures error { IfErr result (IsErrorOf (normal_form_of format)) }
    ensures not_success { result ≢ Err Error.Success }
    ensures not_flags { result ≢ Err Error.InvalidFlags }
{
    let word = normal_form(format);
    match check(word) {
        Ok(_) => Ok(word),
        Err(error) => Err(error),
    }
}

/// Returns whether two words are equivalent, that is, whether they have the same [normal form][normal_form].
///
/// ```
/// use peltzivar::{edits::same_format, NumberFormatBuilder};
///
/// let unused = NumberFormatBuilder::new().digit_separator(std::num::NonZero::new(b'_'));
/// assert!(same_format(unused.build_unchecked(), NumberFormatBuilder::new().build_unchecked()));
/// ```
#[must_use]
pub const fn same_format(a: u128, b: u128) -> bool
    ensures normal_forms { IsTrue result ↔ (normal_form_of a ≡ normal_form_of b) }
    ensures fields { IsTrue result ↔ SameFormat (raw a) (raw b) }
{
    normal_form(a) == normal_form(b)
}
