//! Builds number formats field by field.

ghost use Rattle.std.specs.Prelude.{◌≡◌, ◌≢◌, ◌↔◌, ◌<◌, ◌%◌, ◌^◌, ◌==◌, ℕ, [], ◌∷◌, IfErr, IfOk, length, sum_by, if◌then◌else◌};
ghost use Rattle.std.specs.Result.{OkIff};
ghost use Rattle.lexical_flags.specs.Layout as layout;
ghost use Rattle.lexical_flags.specs.Layout.{Flag, IsClean, bit, part};
ghost use Rattle.lexical_flags.specs.Record.{Record, HasBytes, raw, fill, trim, pack, separator_allowed};
ghost use Rattle.lexical_flags.specs.Rules.{IsErrorOf, IsRadix, Lawful};
ghost use Rattle.lexical_builder.specs.OptionByte.{byte_of_option};
ghost use Rattle.lexical_builder.specs.BuilderBits.{builder_bit, byte_index};
ghost use Rattle.lexical_builder.specs.Private.{flags_in, byte_at};
ghost use Rattle.lexical_builder.specs.Writes.{new_record, radix_record, after, flags_with, write_flags, write_byte};

use lexical_base::error::Error;
use lexical_flags::format_flags as flags;
use lexical_flags::format_flags::check;
use lexical_flags::laws::rule_facts;
use std::marker::Model;

mod getters;
mod non_zero;
mod setters;

pub use non_zero::NonZeroU8;

// The bit at which the digit separator flags of a builder start. In a format word, they start at bit 32.
const FIRST_SEPARATOR: u32 = u128::count_ones(flags::FLAG_MASK % (1 << 32));

// The mask of the flags below the digit separator flags. Their bits in a builder are the same as in a format word.
const LOW_FLAGS: u32 = (1 << FIRST_SEPARATOR) - 1;

// The flags that are set in a new builder. They have the same bits in a format word.
const NEW_FLAGS: u128 = flags::REQUIRED_EXPONENT_DIGITS | flags::REQUIRED_MANTISSA_DIGITS;

// The word whose mantissa radix, exponent base and exponent radix are 1, and whose other bits are 0.
const ONE_IN_EACH_RADIX: u128 = 1 << flags::MANTISSA_RADIX_SHIFT
    | 1 << flags::EXPONENT_BASE_SHIFT
    | 1 << flags::EXPONENT_RADIX_SHIFT;

// The index of each byte in a builder.
const DIGIT_SEPARATOR: usize = 0;

const BASE_PREFIX: usize = 1;

const BASE_SUFFIX: usize = 2;

const MANTISSA_RADIX: usize = 3;

const EXPONENT_BASE: usize = 4;

const EXPONENT_RADIX: usize = 5;

// The lowest bit of each byte in the upper half of a format word. The digit separator starts at bit 0.
const PREFIX_SHIFT: i32 = flags::BASE_PREFIX_SHIFT - 64;

const SUFFIX_SHIFT: i32 = flags::BASE_SUFFIX_SHIFT - 64;

const MANTISSA_SHIFT: i32 = flags::MANTISSA_RADIX_SHIFT - 64;

const BASE_SHIFT: i32 = flags::EXPONENT_BASE_SHIFT - 64;

const RADIX_SHIFT: i32 = flags::EXPONENT_RADIX_SHIFT - 64;

/// A byte that may be absent.
pub type OptionU8 = Option<NonZeroU8>;

/// A builder for number formats. It sets the fields of a format one by one, and packs them into a `u128`, the *format
/// word*.
///
/// A builder has flags, the mantissa radix, and five bytes that may be absent: the digit separator, the base prefix,
/// the base suffix, the exponent base and the exponent radix. Each setter takes the builder, sets one field or all
/// flags of one group, and returns the builder. It leaves every other field as it is. Setters of different fields can
/// therefore be called in any order. If several calls set the same field, the last one wins.
///
/// ```
/// use peltzivar::format_builder::{NonZeroU8, NumberFormatBuilder};
///
/// let grouped = NumberFormatBuilder::new().digit_separator(NonZeroU8::new(b'_')).internal_digit_separator(true);
/// assert_eq!(grouped.build_strict(), Ok(0x00000A00_0000005F_00000007_0000000C));
/// ```
#[derive(Drop)]
pub struct NumberFormatBuilder {
    flags: u32,
    // An absent byte is 0.
    bytes: [u8; 6],
}

impl Model for NumberFormatBuilder {
    ghost use Rattle.lexical_flags.specs.Record.{Record};
    ghost use Rattle.lexical_builder.specs.RecordCode.{record_code};

    ghost Value = { Record };

    ghost coded = { record_code };

    ghost use Rattle.lexical_builder.specs.BuilderBits.{builder_record};
    ghost use Rattle.lexical_builder.specs.Private.{HasClearTop};

    ghost view = { builder_record };

    ghost invariant = { HasClearTop };
}

impl Default for NumberFormatBuilder {
    ghost use Rattle.std.specs.Prelude.{◌≡◌};
    ghost use Rattle.lexical_builder.specs.Writes.{new_record};

    ghost is_default = { λ builder. builder ≡ new_record };

    fn default() -> Self {
        Self::new()
    }
}

#[tactic(auto, unfolding(lexical_flags::specs::Literals::on_literals))]
impl NumberFormatBuilder {
    // CONSTRUCTORS

    /// Returns a builder in which every field has its default value.
    ///
    /// The mantissa radix is 10. The digit separator, the base prefix, the base suffix, the exponent base and the
    /// exponent radix are absent. The flags `required_exponent_digits` and `required_mantissa_digits` are true, and all
    /// other flags are false.
    ///
    /// ```
    /// use peltzivar::{format::STANDARD, NumberFormatBuilder};
    ///
    /// assert_eq!(NumberFormatBuilder::new().build_strict(), Ok(STANDARD));
    /// ```
    #[tactic(auto, using(crate::proofs::WriteLemmas::new_parts), unfolding(lexical_flags::specs::Literals::on_literals))]
    pub const fn new() -> Self
        ensures fields { result ≡ new_record }
        ensures packed { pack result ≡ 0x00000A00_00000000_00000000_0000000C }
        ensures lawful { Lawful (pack result) }
    {
        NumberFormatBuilder {
            flags: NEW_FLAGS as u32,
            bytes: [0, 0, 0, 10, 0, 0],
        }
    }

    /// Returns the format word for binary numbers, which is [`from_radix(2)`][Self::from_radix].
    #[must_use]
    pub const fn binary() -> u128
        ensures word { result ≡ 0x02020200_00000000_00000000_0000000C }
        ensures lawful { Lawful result }
    {
        Self::from_radix(2)
    }

    /// Returns the format word for octal numbers, which is [`from_radix(8)`][Self::from_radix].
    #[must_use]
    pub const fn octal() -> u128
        ensures word { result ≡ 0x08080800_00000000_00000000_0000000C }
        ensures lawful { Lawful result }
    {
        Self::from_radix(8)
    }

    /// Returns the format word for decimal numbers, which is [`from_radix(10)`][Self::from_radix].
    #[must_use]
    pub const fn decimal() -> u128
        ensures word { result ≡ 0x0A0A0A00_00000000_00000000_0000000C }
        ensures lawful { Lawful result }
    {
        Self::from_radix(10)
    }

    /// Returns the format word for hexadecimal numbers, which is [`from_radix(16)`][Self::from_radix].
    ///
    /// ```
    /// use peltzivar::{literal::Syntax, Format, NumberFormatBuilder};
    ///
    /// const HEXADECIMAL: u128 = NumberFormatBuilder::hexadecimal();
    /// assert_eq!(Syntax::integers(Format::of::<HEXADECIMAL>()).parse::<u16>("c0de"), Ok(0xC0DE));
    /// ```
    #[must_use]
    pub const fn hexadecimal() -> u128
        ensures word { result ≡ 0x10101000_00000000_00000000_0000000C }
        ensures lawful { Lawful result }
    {
        Self::from_radix(16)
    }

    /// Returns the format word of a new builder whose mantissa radix, exponent base and exponent radix are set to
    /// `radix`.
    ///
    /// The radix is not checked. The word is [lawful][flags::Rule] if and only if `radix` is between 2 and 36.
    ///
    /// ```
    /// use peltzivar::{FormatView, NumberFormatBuilder};
    ///
    /// const TERNARY: u128 = NumberFormatBuilder::from_radix(3);
    /// assert_eq!(FormatView::new(TERNARY).exponent_radix(), 3);
    /// ```
    #[must_use]
    #[tactic(auto, unfolding(lexical_flags::specs::Record::word_of))]
    pub const fn from_radix(radix: u8) -> u128
        ensures word { result ≡ pack (radix_record radix) }
        ensures lawful { Lawful result ↔ IsRadix radix }
    {
        rule_facts();
        NEW_FLAGS + (radix as u128) * ONE_IN_EACH_RADIX
    }
}

impl NumberFormatBuilder {
    // BUILDERS

    /// Packs the fields into a format word without checking whether the word is [lawful][flags::Rule].
    ///
    /// If no flag allows digit separators in numbers or special values, the digit separator is dropped: its byte in the
    /// word is 0. All other fields are packed as they are.
    ///
    /// ```
    /// use peltzivar::{Error, FormatView, NumberFormatBuilder};
    ///
    /// let word = NumberFormatBuilder::new().mantissa_radix(99).build_unchecked();
    /// assert_eq!(FormatView::new(word).error(), Error::InvalidMantissaRadix);
    /// ```
    #[must_use]
    pub const fn build_unchecked(&self) -> u128
        ensures word { result ≡ pack self.now }
        ensures fields { raw result ≡ trim self.now }
        ensures clean { IsClean result }
        ensures bytes { HasBytes self.now }

        // Two builders pack into the same word if and only if they have the same fields. A separator that no flag
        // allows is ignored.
        ensures alike { (s : Record) → HasBytes s → (pack s ≡ result) ↔ (trim s ≡ trim self.now) }
    {
        let [
            separator,
            prefix,
            suffix,
            radix,
            exponent_base,
            exponent_radix,
        ] = self.bytes;
        let flags = word_flags(self.flags);
        let upper = (prefix as u64) << PREFIX_SHIFT
            | (suffix as u64) << SUFFIX_SHIFT
            | (radix as u64) << MANTISSA_SHIFT
            | (kept_separator(flags, separator) as u64)
            | (exponent_base as u64) << BASE_SHIFT
            | (exponent_radix as u64) << RADIX_SHIFT;
        flags | (upper as u128) << 64
    }

    /// Packs the fields into a format word, and returns the word if it is [lawful][flags::Rule].
    ///
    /// In `lexical-util`, this method panics instead of returning an error. Call [`build_or_panic`][Self::build_or_panic]
    /// in constants, where a `Result` cannot be unwrapped.
    ///
    /// ```
    /// use peltzivar::{Error, NumberFormatBuilder};
    ///
    /// let build = |radix| NumberFormatBuilder::new().mantissa_radix(radix).build_strict();
    /// assert_eq!(build(8), Ok(0x00000800_00000000_00000000_0000000C));
    /// assert_eq!(build(37), Err(Error::InvalidMantissaRadix));
    /// ```
    ///
    /// # Errors
    ///
    /// If the word is not lawful, returns the error of the first rule that the word breaks.
    ///
    /// # Proved of the source
    ///
    /// - The result is `Ok` if and only if the packed word is lawful.
    /// - A returned word has the fields of the builder, without a separator that no flag allows.
    /// - The error is that of the first broken rule. It is never `Success`, nor `InvalidFlags`.
    pub const fn build_strict(&self) -> Result<u128, Error>
        ensures lawful { OkIff result (Lawful (pack self.now)) (pack self.now) }
        ensures fields { IfOk result (λ word. raw word ≡ trim self.now) }
        ensures error { IfErr result (IsErrorOf (pack self.now)) }
        ensures not_success { result ≢ Err Error.Success }

        // A packed word has no reserved bit set.
        ensures not_flags { result ≢ Err Error.InvalidFlags }
    {
        check(self.build_unchecked())
    }

    /// Packs the fields into a format word, as [`build_unchecked`][Self::build_unchecked] does. In `lexical-util`,
    /// `build` is deprecated.
    #[must_use]
    pub const fn build(&self) -> u128
        ensures { result ≡ pack self.now }
    {
        self.build_unchecked()
    }

    /// Returns a builder with exactly the fields of a format word.
    ///
    /// An exponent base or exponent radix of 0 stays absent, so a later change to the mantissa radix affects it too. To
    /// set it to the mantissa radix instead, call [`rebuild`][Self::rebuild]. The digit separator is kept even if no
    /// flag allows one. The reserved bits, which hold no field, are dropped.
    ///
    /// ```
    /// use peltzivar::format_builder::NumberFormatBuilder;
    ///
    /// // The mantissa radix is 16. The exponent base and the exponent radix are absent.
    /// let hexadecimal = 0x00001000_00000000_00000000_0000000C;
    /// let octal = NumberFormatBuilder::from_word(hexadecimal).mantissa_radix(8).build_unchecked();
    /// assert_eq!(octal, 0x00000800_00000000_00000000_0000000C);
    /// ```
    ///
    /// ```
    /// use peltzivar::{format::STANDARD, NumberFormatBuilder};
    ///
    /// let word = NumberFormatBuilder::from_word(STANDARD).no_exponent_notation(true).build_strict()?;
    /// # Ok::<(), peltzivar::Error>(())
    /// ```
    #[tactic(auto, using(crate::proofs::BuilderFlags::moved_fields))]
    pub const fn from_word(word: u128) -> Self
        ensures { result ≡ raw word }
    {
        let upper = (word >> 64) as u64;
        NumberFormatBuilder {
            flags: builder_flags(word),
            bytes: [
                (upper % 256) as u8,
                ((upper >> PREFIX_SHIFT) % 256) as u8,
                ((upper >> SUFFIX_SHIFT) % 256) as u8,
                ((upper >> MANTISSA_SHIFT) % 256) as u8,
                ((upper >> BASE_SHIFT) % 256) as u8,
                (upper >> RADIX_SHIFT) as u8,
            ],
        }
    }

    /// Returns a builder with the fields of a format word. An exponent base or exponent radix of 0 is set to the
    /// mantissa radix.
    ///
    /// The exponent base and the exponent radix are therefore not affected by later changes to the mantissa radix. If
    /// the mantissa radix is 0 too, an exponent base or exponent radix of 0 stays 0. The digit separator is kept even
    /// if no flag allows one. The reserved bits, which hold no field, are dropped.
    ///
    /// ```
    /// use peltzivar::{FormatView, NumberFormatBuilder};
    ///
    /// let word = 0x10 << 104; // the mantissa radix 16 alone
    /// assert_eq!(NumberFormatBuilder::rebuild(word).get_exponent_base().map(u8::from), Some(16));
    /// ```
    #[tactic(auto, using(crate::proofs::BuilderFlags::moved_fields))]
    pub const fn rebuild(format: u128) -> Self
        ensures { result ≡ fill (raw format) }
    {
        let high = (format >> 64) as u64;
        let radix = (high >> MANTISSA_SHIFT) % 256;
        let exponent_radix = flags::byte_or_radix(high >> RADIX_SHIFT, radix);
        let exponent_base = flags::byte_or_radix((high >> BASE_SHIFT) % 256, radix);
        NumberFormatBuilder {
            flags: builder_flags(format),
            bytes: [
                (high % 256) as u8,
                ((high >> PREFIX_SHIFT) % 256) as u8,
                ((high >> SUFFIX_SHIFT) % 256) as u8,
                radix as u8,
                exponent_base as u8,
                exponent_radix as u8,
            ],
        }
    }

    // FLAGS BY THEIR MASKS

    /// Sets every flag in `mask` to `value`. A flag is in `mask` if its bit in a format word is 1 in `mask`. The other
    /// bits of `mask` have no effect.
    #[doc(hidden)]
    pub const fn with_flags(mut self, mask: u128, value: bool) -> Self
        ensures { result ≡ after self (write_flags (flags_with mask) value) }
    {
        self.flags = replace_bits(self.flags, builder_flags(mask), value);
        self
    }

    // Returns whether the flag with this mask is set.
    #[tactic(auto, using(crate::proofs::BuilderFlags::masked_flag))]
    const fn has_flag(&self, mask: u128) -> bool
        ensures { (f : Flag) → 2 ^ bit f ≡ mask → result ≡ self.now.flag f }
    {
        self.flags & builder_flags(mask) != 0
    }

    // Sets the byte at `index`.
    #[tactic(auto, unfolding(crate::specs::Writes::after))]
    const fn with_byte(mut self, index: usize, value: u8) -> Self
        requires below { index < 6 }
        requires byte { byte_index (byte_at index) ≡ index }
        ensures { result ≡ after self (write_byte (byte_at index) value ∷ []) }
    {
        self.bytes[index] = value;
        self
    }
}

// Returns the flags of a format word, each at its bit in a builder.
#[tactic(auto, using(crate::proofs::BuilderFlags::builder_blocks))]
const fn builder_flags(format: u128) -> u32
    ensures { result ≡ flags_in format }
{
    let low = (format & (LOW_FLAGS as u128)) as u32;
    let separators = ((format & flags::DIGIT_SEPARATOR_FLAG_MASK) >> 32) as u32;
    low | separators << FIRST_SEPARATOR
}

// Returns the flags of a builder, each at its bit in a format word.
#[tactic(auto, using(crate::proofs::BuilderFlags::word_blocks, crate::proofs::BuilderFlags::flags_as_blocks))]
const fn word_flags(flags: u32) -> u128
    requires { flags < 2 ^ length layout.flags }
    ensures { result ≡ sum_by (λ f. if part flags (builder_bit f) 1 == 1 then 2 ^ bit f else 0) layout.flags }
{
    (flags & LOW_FLAGS) as u128
        | ((flags as u128) << (32 - FIRST_SEPARATOR)) & flags::DIGIT_SEPARATOR_FLAG_MASK
}

// Returns `bits` with all bits in `mask` set to `value`.
#[tactic(auto, using(crate::proofs::BuilderFlags::replaced))]
const fn replace_bits(bits: u32, mask: u32, value: bool) -> u32
    ensures each { (i : ℕ) → i < 32 → (part result i 1 == 1)
        ≡ (if part mask i 1 == 1 then value else (part bits i 1 == 1)) }
    ensures below { (n : ℕ) → bits < 2 ^ n → mask < 2 ^ n → result < 2 ^ n }
{
    (bits & !mask) | bits_if(value, mask)
}

// Returns `bits` if the condition is true, and 0 otherwise.
const fn bits_if(condition: bool, bits: u32) -> u32
    ensures { result ≡ (if condition then bits else 0) }
{
    if condition { bits } else { 0 }
}

// Returns the digit separator, or 0 if none of `flags`, the flags of a format word, allows one.
const fn kept_separator(flags: u128, separator: u8) -> u8
    ensures { result ≡ (if separator_allowed (raw flags) then separator else 0) }
{
    if flags::is_separator_allowed(flags) {
        separator
    } else {
        0
    }
}

// Returns the byte, or 0 if it is absent.
const fn byte_or_zero(byte: OptionU8) -> u8
    ensures { result ≡ byte_of_option byte }
{
    match byte {
        Some(byte) => byte.get(),
        None => 0,
    }
}
