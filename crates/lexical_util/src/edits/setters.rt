//! Setters and their calls as values.

ghost use Rattle.std.specs.Prelude.{◌≡◌, ◌↔◌, Bool, Some, None, MatchOption, IsTrue, min, if◌then◌else◌};
ghost use Rattle.std.specs.Bool.{IsFalse};
ghost use Rattle.lexical_flags.specs.Record.{raw};
ghost use Rattle.lexical_builder.specs.Writes.{flags_with};
ghost use Rattle.lexical_util.specs.Edits.{flags_of, writes_of};
ghost use Rattle.lexical_util.specs.Groups.{any_flag};
ghost use Rattle.lexical_util.specs.Additions.EditMasks.{argument_byte, mask_of_setter, mask_of_edit};
ghost use Rattle.lexical_util.specs.Additions.FieldEdits.{field_edits};
ghost use Rattle.lexical_util.specs.Additions.Settings.{name_of, setter_of, kind_of, takes_flag, IsCall, IsNoName};
ghost use Rattle.lexical_util.specs.declared.edits.setters.Edit.TheVariants as edits;

use crate::feature_format::NumberFormat;
use lexical_builder::format_builder::{NonZeroU8, OptionU8};
use lexical_flags::format_flags as flags;
use lexical_flags::format_flags::FLAG_MASK;

// Calls `$rows!` with `$args`, a row for each flag, and a row for each flag group. A row has the variant of
// `FlagSetter`, the name of the setter, and the mask that the setter writes. The getter and the setter that belong to a
// flag have the same name.
#[doc(hidden)]
#[macro_export]
macro_rules! with_setters {
    ($rows:ident $args:tt) => {
        $rows! {
            $args
            {
                RequiredIntegerDigits required_integer_digits REQUIRED_INTEGER_DIGITS;
                RequiredFractionDigits required_fraction_digits REQUIRED_FRACTION_DIGITS;
                RequiredExponentDigits required_exponent_digits REQUIRED_EXPONENT_DIGITS;
                RequiredMantissaDigits required_mantissa_digits REQUIRED_MANTISSA_DIGITS;
                NoPositiveMantissaSign no_positive_mantissa_sign NO_POSITIVE_MANTISSA_SIGN;
                RequiredMantissaSign required_mantissa_sign REQUIRED_MANTISSA_SIGN;
                NoExponentNotation no_exponent_notation NO_EXPONENT_NOTATION;
                NoPositiveExponentSign no_positive_exponent_sign NO_POSITIVE_EXPONENT_SIGN;
                RequiredExponentSign required_exponent_sign REQUIRED_EXPONENT_SIGN;
                NoExponentWithoutFraction no_exponent_without_fraction NO_EXPONENT_WITHOUT_FRACTION;
                NoSpecial no_special NO_SPECIAL;
                CaseSensitiveSpecial case_sensitive_special CASE_SENSITIVE_SPECIAL;
                NoIntegerLeadingZeros no_integer_leading_zeros NO_INTEGER_LEADING_ZEROS;
                NoFloatLeadingZeros no_float_leading_zeros NO_FLOAT_LEADING_ZEROS;
                RequiredExponentNotation required_exponent_notation REQUIRED_EXPONENT_NOTATION;
                CaseSensitiveExponent case_sensitive_exponent CASE_SENSITIVE_EXPONENT;
                CaseSensitiveBasePrefix case_sensitive_base_prefix CASE_SENSITIVE_BASE_PREFIX;
                CaseSensitiveBaseSuffix case_sensitive_base_suffix CASE_SENSITIVE_BASE_SUFFIX;
                IntegerInternalDigitSeparator integer_internal_digit_separator INTEGER_INTERNAL_DIGIT_SEPARATOR;
                FractionInternalDigitSeparator fraction_internal_digit_separator FRACTION_INTERNAL_DIGIT_SEPARATOR;
                ExponentInternalDigitSeparator exponent_internal_digit_separator EXPONENT_INTERNAL_DIGIT_SEPARATOR;
                IntegerLeadingDigitSeparator integer_leading_digit_separator INTEGER_LEADING_DIGIT_SEPARATOR;
                FractionLeadingDigitSeparator fraction_leading_digit_separator FRACTION_LEADING_DIGIT_SEPARATOR;
                ExponentLeadingDigitSeparator exponent_leading_digit_separator EXPONENT_LEADING_DIGIT_SEPARATOR;
                IntegerTrailingDigitSeparator integer_trailing_digit_separator INTEGER_TRAILING_DIGIT_SEPARATOR;
                FractionTrailingDigitSeparator fraction_trailing_digit_separator FRACTION_TRAILING_DIGIT_SEPARATOR;
                ExponentTrailingDigitSeparator exponent_trailing_digit_separator EXPONENT_TRAILING_DIGIT_SEPARATOR;
                IntegerConsecutiveDigitSeparator integer_consecutive_digit_separator INTEGER_CONSECUTIVE_DIGIT_SEPARATOR;
                FractionConsecutiveDigitSeparator fraction_consecutive_digit_separator FRACTION_CONSECUTIVE_DIGIT_SEPARATOR;
                ExponentConsecutiveDigitSeparator exponent_consecutive_digit_separator EXPONENT_CONSECUTIVE_DIGIT_SEPARATOR;
                SpecialDigitSeparator special_digit_separator SPECIAL_DIGIT_SEPARATOR;
            }
            {
                RequiredDigits required_digits REQUIRED_DIGITS;
                InternalDigitSeparator internal_digit_separator INTERNAL_DIGIT_SEPARATOR;
                LeadingDigitSeparator leading_digit_separator LEADING_DIGIT_SEPARATOR;
                TrailingDigitSeparator trailing_digit_separator TRAILING_DIGIT_SEPARATOR;
                ConsecutiveDigitSeparator consecutive_digit_separator CONSECUTIVE_DIGIT_SEPARATOR;
                DigitSeparatorFlags digit_separator_flags DIGIT_SEPARATOR_FLAG_MASK;
                IntegerDigitSeparatorFlags integer_digit_separator_flags INTEGER_DIGIT_SEPARATOR_FLAG_MASK;
                FractionDigitSeparatorFlags fraction_digit_separator_flags FRACTION_DIGIT_SEPARATOR_FLAG_MASK;
                ExponentDigitSeparatorFlags exponent_digit_separator_flags EXPONENT_DIGIT_SEPARATOR_FLAG_MASK;
            }
        }
    };
}

/// A setter of [`NumberFormatBuilder`][lexical_builder::format_builder::NumberFormatBuilder] that takes a `bool`. It
/// sets one flag, or all flags of one of the nine flag groups. A variant has the name of its setter,
/// whose documentation has an example.
#[derive(Debug, Clone, Copy, PartialEq, Eq, Hash, PartialOrd, Ord)]
pub enum FlagSetter {
    /// Sets whether the format requires digits before the decimal point.
    RequiredIntegerDigits,
    /// Sets whether the format requires digits after a decimal point.
    RequiredFractionDigits,
    /// Sets whether the format requires digits after an exponent character.
    RequiredExponentDigits,
    /// Sets whether the format requires a digit in the mantissa of a float.
    RequiredMantissaDigits,
    /// Sets whether the format forbids a `+` before an integer or a float.
    NoPositiveMantissaSign,
    /// Sets whether the format requires a sign before an integer or a float.
    RequiredMantissaSign,
    /// Sets whether the format forbids an exponent in a float.
    NoExponentNotation,
    /// Sets whether the format forbids a `+` in the exponent.
    NoPositiveExponentSign,
    /// Sets whether the format requires a sign in the exponent.
    RequiredExponentSign,
    /// Sets whether the format requires a decimal point before an exponent.
    NoExponentWithoutFraction,
    /// Sets whether the format forbids all special values.
    NoSpecial,
    /// Sets whether special values are case-sensitive.
    CaseSensitiveSpecial,
    /// Sets whether the format forbids leading zeros in an integer.
    NoIntegerLeadingZeros,
    /// Sets whether the format forbids leading zeros in a float.
    NoFloatLeadingZeros,
    /// Sets whether the format requires an exponent in a float.
    RequiredExponentNotation,
    /// Sets whether the exponent character is case-sensitive.
    CaseSensitiveExponent,
    /// Sets whether the base prefix is case-sensitive.
    CaseSensitiveBasePrefix,
    /// Sets whether the base suffix is case-sensitive.
    CaseSensitiveBaseSuffix,
    /// Sets whether the format allows a digit separator between integer digits.
    IntegerInternalDigitSeparator,
    /// Sets whether the format allows a digit separator between fraction digits.
    FractionInternalDigitSeparator,
    /// Sets whether the format allows a digit separator between exponent digits.
    ExponentInternalDigitSeparator,
    /// Sets whether the format allows a digit separator before the integer digits.
    IntegerLeadingDigitSeparator,
    /// Sets whether the format allows a digit separator before the fraction digits.
    FractionLeadingDigitSeparator,
    /// Sets whether the format allows a digit separator before the exponent digits.
    ExponentLeadingDigitSeparator,
    /// Sets whether the format allows a digit separator after the integer digits.
    IntegerTrailingDigitSeparator,
    /// Sets whether the format allows a digit separator after the fraction digits.
    FractionTrailingDigitSeparator,
    /// Sets whether the format allows a digit separator after the exponent digits.
    ExponentTrailingDigitSeparator,
    /// Sets whether the format allows consecutive digit separators in the integer part.
    IntegerConsecutiveDigitSeparator,
    /// Sets whether the format allows consecutive digit separators in the fraction.
    FractionConsecutiveDigitSeparator,
    /// Sets whether the format allows consecutive digit separators in the exponent.
    ExponentConsecutiveDigitSeparator,
    /// Sets whether the format allows digit separators in special values.
    SpecialDigitSeparator,
    /// Sets or clears all flags that require digits.
    RequiredDigits,
    /// Sets or clears all flags that allow a digit separator between digits.
    InternalDigitSeparator,
    /// Sets or clears all flags that allow a digit separator before digits.
    LeadingDigitSeparator,
    /// Sets or clears all flags that allow a digit separator after digits.
    TrailingDigitSeparator,
    /// Sets or clears all flags that allow consecutive digit separators.
    ConsecutiveDigitSeparator,
    /// Sets or clears all flags that allow digit separators, including the flag that allows them in special values.
    DigitSeparatorFlags,
    /// Sets or clears all flags that allow digit separators in the integer part.
    IntegerDigitSeparatorFlags,
    /// Sets or clears all flags that allow digit separators in the fraction.
    FractionDigitSeparatorFlags,
    /// Sets or clears all flags that allow digit separators in the exponent.
    ExponentDigitSeparatorFlags,
}

/// A setter of [`NumberFormatBuilder`][lexical_builder::format_builder::NumberFormatBuilder]. An [`Edit`] is a setter
/// with its argument.
#[derive(Debug, Clone, Copy, PartialEq, Eq, Hash, PartialOrd, Ord)]
pub enum Setter {
    /// A setter that takes a `bool`.
    Flag(FlagSetter),
    /// Sets the digit separator.
    DigitSeparator,
    /// Sets the base prefix.
    BasePrefix,
    /// Sets the base suffix.
    BaseSuffix,
    /// Sets the mantissa radix.
    MantissaRadix,
    /// Sets the mantissa radix. The setter `radix` is another name for the setter `mantissa_radix`.
    Radix,
    /// Sets the exponent base.
    ExponentBase,
    /// Sets the exponent radix.
    ExponentRadix,
}

/// The kind of argument that a setter takes.
#[derive(Debug, Clone, Copy, PartialEq, Eq, Hash)]
pub enum ArgumentKind {
    /// The setter takes a `bool`.
    Flag,
    /// The setter takes a byte that is a character, and that may be absent.
    OptionalCharacter,
    /// The setter takes a byte that is a number, and that cannot be absent.
    Number,
    /// The setter takes a byte that is a number, and that may be absent.
    OptionalNumber,
}

/// A call to a setter of [`NumberFormatBuilder`][lexical_builder::format_builder::NumberFormatBuilder], stored as a
/// value. An edit holds the setter and its argument.
///
/// ```
/// use peltzivar::{Edit, FlagSetter, NumberFormatBuilder};
///
/// let edits = [Edit::MantissaRadix(16), Edit::Flag(FlagSetter::RequiredDigits, true)];
/// let builder = edits.iter().collect::<NumberFormatBuilder>();
/// assert_eq!(builder, NumberFormatBuilder::new().mantissa_radix(16).required_digits(true));
/// assert_eq!(edits.map(|edit| edit.to_string()), ["mantissa_radix=16", "required_digits=true"]);
/// ```
#[derive(Debug, Clone, Copy, PartialEq, Eq, Hash, PartialOrd, Ord)]
pub enum Edit {
    /// Sets a flag, or every flag of a group, to the given value.
    Flag(FlagSetter, bool),
    /// Sets the digit separator. `None` means that the format has no digit separator.
    DigitSeparator(OptionU8),
    /// Sets the base prefix. `None` means that the format has no base prefix.
    BasePrefix(OptionU8),
    /// Sets the base suffix. `None` means that the format has no base suffix.
    BaseSuffix(OptionU8),
    /// Sets the mantissa radix. Any number from 0 to 255 is accepted, but in a lawful word, the mantissa radix is
    /// between 2 and 36.
    MantissaRadix(u8),
    /// Sets the mantissa radix, as [`MantissaRadix`][Self::MantissaRadix] does. The setter `radix` is another name for
    /// the setter `mantissa_radix`.
    Radix(u8),
    /// Sets the exponent base. `None` means that the mantissa radix is used in its place.
    ExponentBase(OptionU8),
    /// Sets the exponent radix. `None` means that the mantissa radix is used in its place.
    ExponentRadix(OptionU8),
}

// Makes an array of all flag and group setters: first the flags, then the groups.
macro_rules! variants {
    (() { $($Flag:ident $flag:ident $FLAG:ident;)* } { $($Group:ident $group:ident $GROUP:ident;)* }) => {
        [$(FlagSetter::$Flag,)* $(FlagSetter::$Group,)*]
    };
}

/// The number of flags in a format word.
pub const FLAG_COUNT: usize = u128::count_ones(FLAG_MASK) as usize;

/// The number of fields in a format word: all flags and six bytes.
pub const FIELD_COUNT: usize = FLAG_COUNT + 6;

/// All setters that take a `bool`, in the order of the variants of [`FlagSetter`]: first the flag setters, then the
/// nine group setters.
#[doc(hidden)]
pub const SETTERS: [FlagSetter; FLAG_COUNT + 9] = with_setters!(variants());

// Makes an array of all setters: the flag setters, the group setters, then the byte setters.
macro_rules! all_setters {
    (() { $($Flag:ident $flag:ident $FLAG:ident;)* } { $($Group:ident $group:ident $GROUP:ident;)* }) => {
        [
            $(Setter::Flag(FlagSetter::$Flag),)*
            $(Setter::Flag(FlagSetter::$Group),)*
            Setter::DigitSeparator,
            Setter::BasePrefix,
            Setter::BaseSuffix,
            Setter::MantissaRadix,
            Setter::Radix,
            Setter::ExponentBase,
            Setter::ExponentRadix,
        ]
    };
}

/// All setters: first those in [`SETTERS`], in the same order, then the seven byte setters.
#[doc(hidden)]
pub const ALL_SETTERS: [Setter; SETTERS.len() + 7] = with_setters!(all_setters());

// Returns the mask of the flags that a setter writes. The mask is a `u64`, since all flags are in the lower 64 bits of
// a word, and the compiler makes lookup tables only for numbers of at most 64 bits.
pub(crate) const fn mask_of(setter: FlagSetter) -> u64
    ensures flags { flags_with result ≡ flags_of setter }
    ensures mask { result ≡ mask_of_setter setter }
    ensures edit { (flag : Bool) → mask_of_edit (edits.Flag setter flag) ≡ result }
{
    macro_rules! masks {
        (($setter:ident)
            { $($Flag:ident $flag:ident $FLAG:ident;)* } { $($Group:ident $group:ident $GROUP:ident;)* }) => {
            match $setter {
                $(FlagSetter::$Flag => flags::$FLAG as u64,)*
                $(FlagSetter::$Group => flags::$GROUP as u64,)*
            }
        };
    }
    with_setters!(masks(setter))
}

impl FlagSetter {
    /// Returns the name of the setter, which is the name of the variant in snake case.
    #[must_use]
    #[tactic(auto, unfolding(crate::specs::Additions::Settings::name_of))]
    pub const fn name(self) -> &'static str
        ensures { result.now ≡ name_of (Setter.Flag self) }
    {
        macro_rules! names {
            (($setter:ident)
                { $($Flag:ident $flag:ident $FLAG:ident;)* } { $($Group:ident $group:ident $GROUP:ident;)* }) => {
                match $setter {
                    $(FlagSetter::$Flag => stringify!($flag),)*
                    $(FlagSetter::$Group => stringify!($group),)*
                }
            };
        }
        with_setters!(names(self))
    }

    /// Returns whether the flag of this setter is set in `format`. For a group setter, returns whether any flag of the
    /// group is set.
    #[must_use]
    #[tactic(auto, using(crate::proofs::ViewLemmas::any_by_mask, crate::proofs::ViewLemmas::flags_ascend))]
    pub const fn is_set(self, format: u128) -> bool
        ensures { result ≡ any_flag format (flags_of self) }
    {
        format & mask_of(self) as u128 != 0
    }
}

// Returns a setter with the given name, or `None` if there is none.
#[tactic(auto, unfolding(crate::specs::Additions::Settings::name_of))]
fn named(name: &str) -> Option<Setter>
    ensures { MatchOption result (IsNoName name.now) (λ setter. name.now ≡ name_of setter) }
{
    macro_rules! setters {
        (($name:ident)
            { $($Flag:ident $flag:ident $FLAG:ident;)* } { $($Group:ident $group:ident $GROUP:ident;)* }) => {
            match $name {
                $(stringify!($flag) => Some(Setter::Flag(FlagSetter::$Flag)),)*
                $(stringify!($group) => Some(Setter::Flag(FlagSetter::$Group)),)*
                "digit_separator" => Some(Setter::DigitSeparator),
                "base_prefix" => Some(Setter::BasePrefix),
                "base_suffix" => Some(Setter::BaseSuffix),
                "mantissa_radix" => Some(Setter::MantissaRadix),
                "radix" => Some(Setter::Radix),
                "exponent_base" => Some(Setter::ExponentBase),
                "exponent_radix" => Some(Setter::ExponentRadix),
                _ => None,
            }
        };
    }
    with_setters!(setters(name))
}

impl Setter {
    /// Returns the setter with the given name, or `None` if there is no such setter.
    ///
    /// ```
    /// use peltzivar::Setter;
    ///
    /// let setter = Setter::from_name("mantissa_radix").unwrap();
    /// assert_eq!(setter.with_byte(16).unwrap().to_string(), "mantissa_radix=16");
    /// ```
    #[must_use]
    pub fn from_name(name: &str) -> Option<Setter>
        ensures { (setter : Setter) → (result ≡ Some setter) ↔ (name_of setter ≡ name.now) }
    {
        named(name)
    }

    /// Returns the name of the setter.
    #[must_use]
    #[tactic(auto, unfolding(crate::specs::Additions::Settings::name_of))]
    pub const fn name(self) -> &'static str
        ensures { result.now ≡ name_of self }
    {
        match self {
            Setter::Flag(setter) => setter.name(),
            Setter::DigitSeparator => "digit_separator",
            Setter::BasePrefix => "base_prefix",
            Setter::BaseSuffix => "base_suffix",
            Setter::MantissaRadix => "mantissa_radix",
            Setter::Radix => "radix",
            Setter::ExponentBase => "exponent_base",
            Setter::ExponentRadix => "exponent_radix",
        }
    }

    /// Returns the kind of argument that the setter takes.
    #[must_use]
    pub const fn kind(self) -> ArgumentKind
        ensures { result ≡ kind_of self }
    {
        match self {
            Setter::Flag(_) => ArgumentKind::Flag,
            Setter::DigitSeparator | Setter::BasePrefix | Setter::BaseSuffix => {
                ArgumentKind::OptionalCharacter
            }
            Setter::MantissaRadix | Setter::Radix => ArgumentKind::Number,
            Setter::ExponentBase | Setter::ExponentRadix => ArgumentKind::OptionalNumber,
        }
    }

    /// Returns the mask of the bits that the setter writes in a format word.
    #[must_use]
    pub const fn mask(self) -> u128
        ensures { (edit : Edit) → setter_of edit ≡ self → mask_of_edit edit ≡ result }
    {
        self.with_argument(0).mask()
    }

    /// Returns the edit that calls the setter with `flag`, or `None` if the setter takes a byte.
    #[must_use]
    pub const fn with_flag(self, flag: bool) -> Option<Edit>
        ensures flag { (setter : FlagSetter) → self ≡ Setter.Flag setter → result ≡ Some (edits.Flag setter flag) }
        ensures byte { IsFalse (takes_flag self) → result ≡ None }
    {
        match self {
            Setter::Flag(setter) => Some(Edit::Flag(setter, flag)),
            _ => None,
        }
    }

    /// Returns the edit that calls the setter with `byte`, or `None` if the setter takes a flag. If the byte may be
    /// absent, 0 means absent.
    #[must_use]
    pub const fn with_byte(self, byte: u8) -> Option<Edit>
        ensures byte { IsFalse (takes_flag self) → MatchOption result ⊥ (IsCall self byte) }
        ensures flag { IsTrue (takes_flag self) → result ≡ None }

        // Edits that call the same setter with the same argument make the same writes.
        ensures writes { (edit made : Edit) → result ≡ Some made → IsCall self byte edit → writes_of edit ≡ writes_of made }
    {
        match self {
            Setter::Flag(_) => None,
            _ => Some(self.with_argument(byte)),
        }
    }

    // Returns the edit that calls the setter with the argument that `byte` represents. For a flag, any byte except 0
    // means `true`.
    pub(crate) const fn with_argument(self, byte: u8) -> Edit
        ensures setter { setter_of result ≡ self }
        ensures argument { argument_byte result ≡ (if takes_flag self then min byte 1 else byte) }

        // Edits that call the same setter with the same argument make the same writes.
        ensures writes { (edit : Edit) → setter_of edit ≡ self → argument_byte edit ≡ argument_byte result
            → writes_of edit ≡ writes_of result }
    {
        match self {
            Setter::Flag(setter) => Edit::Flag(setter, byte != 0),
            Setter::DigitSeparator => Edit::DigitSeparator(NonZeroU8::new(byte)),
            Setter::BasePrefix => Edit::BasePrefix(NonZeroU8::new(byte)),
            Setter::BaseSuffix => Edit::BaseSuffix(NonZeroU8::new(byte)),
            Setter::MantissaRadix => Edit::MantissaRadix(byte),
            Setter::Radix => Edit::Radix(byte),
            Setter::ExponentBase => Edit::ExponentBase(NonZeroU8::new(byte)),
            Setter::ExponentRadix => Edit::ExponentRadix(NonZeroU8::new(byte)),
        }
    }
}

impl Edit {
    /// Returns the setter that the edit calls.
    #[must_use]
    pub const fn setter(self) -> Setter
        ensures { result ≡ setter_of self }
    {
        match self {
            Edit::Flag(setter, _) => Setter::Flag(setter),
            Edit::DigitSeparator(_) => Setter::DigitSeparator,
            Edit::BasePrefix(_) => Setter::BasePrefix,
            Edit::BaseSuffix(_) => Setter::BaseSuffix,
            Edit::MantissaRadix(_) => Setter::MantissaRadix,
            Edit::Radix(_) => Setter::Radix,
            Edit::ExponentBase(_) => Setter::ExponentBase,
            Edit::ExponentRadix(_) => Setter::ExponentRadix,
        }
    }

    /// Returns the name of the setter that the edit calls.
    #[must_use]
    pub const fn name(self) -> &'static str
        ensures { result.now ≡ name_of (setter_of self) }
    {
        self.setter().name()
    }

    /// Returns the argument of the edit as a byte. This is 1 for `true`, 0 for `false` or an absent byte, and otherwise
    /// the byte itself.
    #[must_use]
    pub const fn argument_byte(self) -> u8
        ensures { result ≡ argument_byte self }
    {
        match self {
            Edit::Flag(_, flag) => flag as u8,
            Edit::MantissaRadix(byte) | Edit::Radix(byte) => byte,
            Edit::DigitSeparator(byte)
            | Edit::BasePrefix(byte)
            | Edit::BaseSuffix(byte)
            | Edit::ExponentBase(byte)
            | Edit::ExponentRadix(byte) => match byte {
                Some(byte) => byte.get(),
                None => 0,
            },
        }
    }

    /// Returns the mask of the bits that the edit writes in a format word.
    #[must_use]
    pub const fn mask(self) -> u128
        ensures { result ≡ mask_of_edit self }
    {
        match self {
            Edit::Flag(setter, _) => mask_of(setter) as u128,
            Edit::DigitSeparator(_) => flags::DIGIT_SEPARATOR,
            Edit::BasePrefix(_) => flags::BASE_PREFIX,
            Edit::BaseSuffix(_) => flags::BASE_SUFFIX,
            Edit::MantissaRadix(_) | Edit::Radix(_) => flags::MANTISSA_RADIX,
            Edit::ExponentBase(_) => flags::EXPONENT_BASE,
            Edit::ExponentRadix(_) => flags::EXPONENT_RADIX,
        }
    }
}

/// Returns one edit for each field. The edit sets the field to its value in `format`. The edits are in the order of the
/// bits that they write.
#[must_use]
#[doc(hidden)]
pub const fn field_edits_of(format: u128) -> [Edit; FIELD_COUNT]
    ensures { result ≡ field_edits (raw format) }
{
    macro_rules! edits_of_fields {
        (($view:ident, $format:ident)
            { $($Flag:ident $flag:ident $FLAG:ident;)* } $groups:tt) => {
            [
                $(Edit::Flag(FlagSetter::$Flag, $view.$flag()),)*
                Edit::DigitSeparator(NonZeroU8::new(flags::digit_separator($format))),
                Edit::BasePrefix(NonZeroU8::new(flags::base_prefix($format))),
                Edit::BaseSuffix(NonZeroU8::new(flags::base_suffix($format))),
                Edit::MantissaRadix($view.mantissa_radix() as u8),
                Edit::ExponentBase(NonZeroU8::new(flags::raw_exponent_base($format))),
                Edit::ExponentRadix(NonZeroU8::new(flags::raw_exponent_radix($format))),
            ]
        };
    }
    let view = NumberFormat::new(format);
    with_setters!(edits_of_fields(view, format))
}
