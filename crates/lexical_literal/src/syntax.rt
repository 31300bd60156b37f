//! A lawful format with the bytes that a format does not define.

ghost use Rattle.std.specs.Prelude.{false, ◌≡◌, ◌^◌, IsTrue, if◌then◌else◌, length, not, IfErr, Some, None};
ghost use Rattle.std.specs.List.{find, list_any};
ghost use Rattle.lexical_util.specs.Record.{SeparatorAllowedOrAbsent, raw};
ghost use Rattle.std.specs.Result.{OkIff};
ghost use Rattle.lexical_util.specs.NormalForm.{IsNormal, normal_form_of};
ghost use Rattle.lexical_util.specs.Layout as layout;
ghost use Rattle.lexical_util.specs.Layout.{Flag, bit};
ghost use Rattle.lexical_util.specs.Rules.{Lawful};
ghost use Rattle.lexical_util.specs.Options.{OptionsFit, IsOptionsError};
ghost use Rattle.lexical_util.specs.declared.lawful.Rejected.TheVariants as rejected;
ghost use Rattle.lexical_literal.specs.Additions.Fields.{flag_of, options_if};
ghost use Rattle.lexical_literal.specs.Additions.Scan.{HasSizes, IsDecimal, IsReady, IsUsual, are_usual, is_usual};
ghost use Rattle.lexical_literal.specs.Additions.GroupSize.{has_sizes, steps_of};
ghost use Rattle.lexical_literal.specs.declared.syntax.Condition.{Condition};
ghost use Rattle.lexical_literal.specs.declared.syntax.Condition.TheVariants as conditions;
ghost use Rattle.lexical_literal.specs.declared.syntax.Options.{Options};
ghost use Rattle.lexical_literal.specs.Notation.{all_conditions, has, is_same, kept, lacks_options, no_conditions, notation_of, number_of, IsOnlyRole};
ghost use Rattle.lexical_literal.specs.Syntax.{IsSyntax, contradiction, fault, limits, missing};

use crate::step::role_at;
use lexical_util::format::{Format, FormatError, NumberFormat, Part, Role};
use lexical_util::format_flags::{
    BASE_PREFIX_SHIFT, BASE_SUFFIX_SHIFT, DIGIT_SEPARATOR_SHIFT, EXPONENT_BASE_SHIFT,
    EXPONENT_RADIX_SHIFT, INTEGER_INTERNAL_DIGIT_SEPARATOR, MANTISSA_RADIX_SHIFT,
    NO_FLOAT_LEADING_ZEROS, NO_INTEGER_LEADING_ZEROS, REQUIRED_EXPONENT_NOTATION,
    REQUIRED_MANTISSA_SIGN, base_prefix, base_suffix, digit_separator, exponent_base,
    exponent_radix, is_separator_allowed, mantissa_radix,
};
use lexical_util::laws::flags::role_facts;
use std::marker::Model;

/// The bytes of numbers that a format does not define.
#[derive(Debug, Clone, Copy, PartialEq, Eq, PartialOrd, Ord, Hash)]
pub struct Options {
    /// The exponent character.
    pub exponent: u8,
    /// The decimal point.
    pub point: u8,
}

/// What a syntax can require of its literals beside what the flags of its format require. A condition has a number if
/// [`limits`][Self::limits] has two.
#[derive(Debug, Clone, Copy, PartialEq, Eq, PartialOrd, Ord, Hash)]
pub enum Condition {
    /// A literal has the base prefix.
    BasePrefix,
    /// A literal has the base suffix.
    BaseSuffix,
    /// The sign of a literal is not `-`. The sign of its exponent may be.
    NegativeSign,
    /// The integer of a literal has no digit separators, or has them between groups of as many digits as the number says,
    /// counted from the right.
    IntegerGroupSize,
    /// The groups of the integer before the last have as many digits as the number says, and the first may have fewer. The
    /// last has as many as [`IntegerGroupSize`][Self::IntegerGroupSize] says.
    HigherGroupSize,
    /// Behind its sign, a literal begins with the digit 0, which may be that of its base prefix.
    LeadingZero,
    /// Behind its sign, a literal begins with a digit that is not a letter, which may be the 0 of its base prefix.
    DecimalFirstDigit,
}

/// All conditions, in the order in which they are checked and printed.
pub const CONDITIONS: [Condition; 7] = [
    Condition::BasePrefix,
    Condition::BaseSuffix,
    Condition::NegativeSign,
    Condition::IntegerGroupSize,
    Condition::HigherGroupSize,
    Condition::LeadingZero,
    Condition::DecimalFirstDigit,
];

impl Condition {
    /// Returns the least and the greatest number that the condition can have. Both are 1 if it has no number.
    #[must_use]
    pub const fn limits(self) -> (u8, u8)
        ensures { result ≡ limits self }
    {
        match self {
            Condition::IntegerGroupSize | Condition::HigherGroupSize => (2, 8),
            _ => (1, 1),
        }
    }
}

/// The conditions of a syntax: for each [`Condition`], its number, which is 1 if it has none, or 0 if the syntax does not have
/// the condition.
///
/// ```
/// use peltzivar::literal::{Conditions, Language};
///
/// // Numbers of a German file, as they are read there, without groups, and without a sign.
/// let syntax = Language::CSV_DE.forms()[0].syntax();
/// let conditions = syntax.conditions().integer_group_size(None).no_negative_mantissa_sign(true);
/// let syntax = syntax.with_conditions(conditions)?;
/// assert!(syntax.read("12.34").is_ok() && syntax.read("-1").is_err());
/// assert!(conditions.has(peltzivar::literal::Condition::NegativeSign) && !Conditions::NONE.no_negative_mantissa_sign(true).is_none());
/// # Ok::<(), peltzivar::literal::ConditionsError>(())
/// ```
#[derive(Debug, Clone, Copy, PartialEq, Eq, PartialOrd, Ord, Hash)]
pub struct Conditions {
    pub(crate) numbers: [u8; CONDITIONS.len()],
}

impl Conditions {
    /// No conditions.
    pub const NONE: Conditions = Conditions {
        numbers: [0; CONDITIONS.len()],
    };

    /// Returns the number of `condition`, or 0 if it is not one of them.
    #[must_use]
    pub const fn number(self, condition: Condition) -> u8
        ensures { result ≡ number_of self condition }
    {
        self.numbers[condition as usize]
    }

    /// Returns whether `condition` is one of them.
    #[must_use]
    pub const fn has(self, condition: Condition) -> bool
        ensures { result ≡ has self condition }
    {
        self.numbers[condition as usize] != 0
    }

    /// Returns the same conditions with another number of `condition`, or without it if `number` is 0.
    #[must_use]
    pub const fn with(self, condition: Condition, number: u8) -> Conditions
        ensures all { length result.numbers ≡ length all_conditions }
        ensures each { (d : Condition) → number_of result d ≡ (if is_same condition d then number else number_of self d) }
    {
        let mut numbers = self.numbers;
        numbers[condition as usize] = number;
        Conditions { numbers }
    }

    /// Returns whether there are no conditions.
    #[must_use]
    pub const fn is_none(self) -> bool
        ensures { result ≡ not (list_any (has self) all_conditions) }
    {
        matches!(self.first(), None)
    }

    // Returns whether there are no conditions but `NegativeSign`, of which the number is the third.
    #[inline(always)]
    const fn are_usual(self) -> bool
        ensures { result ≡ are_usual self }
    {
        matches!(self.numbers, [0, 0, _, 0, 0, 0, 0])
    }

    // Returns the first of the conditions, in the order in which they are checked.
    #[tactic(auto, using(std::proofs::lemmas::List::drop_all))]
    pub(crate) const fn first(self) -> Option<Condition>
        ensures { result ≡ find (has self) all_conditions }
    {
        let mut index = 0;
        while index < CONDITIONS.len() {
            if self.has(CONDITIONS[index]) {
                return Some(CONDITIONS[index]);
            }
            index += 1;
        }
        None
    }

    // Returns `condition`, if it is one of them, and no others.
    pub(crate) const fn only(self, condition: Condition) -> Conditions
        ensures { result ≡ kept (is_same condition) (number_of self) }
    {
        Conditions::NONE.with(condition, self.number(condition))
    }
}

/// Why a syntax cannot have a condition. A lawful format that requires a sign allows `+`, so it can forbid `-`.
#[derive(Debug, Clone, Copy, PartialEq, Eq, Hash)]
pub struct ConditionsError {
    /// The condition.
    pub condition: Condition,
    /// What is wrong with it.
    pub kind: ConditionsErrorKind,
}

/// The kind of a [`ConditionsError`]: the number of the condition is not one that it can have, or neither the format nor the
/// other conditions have what the condition needs.
#[derive(Debug, Clone, Copy, PartialEq, Eq, Hash)]
pub enum ConditionsErrorKind {
    /// The number is not within the limits of the condition.
    Number,
    /// The format has no base prefix.
    NoBasePrefix,
    /// The format has no base suffix.
    NoBaseSuffix,
    /// No flag allows a separator between digits of the integer.
    NoInternalSeparator,
    /// The format has no digit separator.
    NoSeparator,
    /// `integer_group_size` is not one of the conditions.
    NoIntegerGroupSize,
    /// A flag forbids leading zeros, and the condition may need one.
    NoLeadingZeros,
}

// What reading asks of a format with any options and conditions: its radixes, its bytes and its flags. A byte that is absent is 0, and
// so is a separator that no flag allows. Without an exponent character and a decimal point, literals are integers alone.
#[derive(Debug, Clone, Copy, PartialEq, Eq, PartialOrd, Ord, Hash)]
pub struct Grammar {
    pub exponent_radix: u8,
    pub exponent_base: u8,
    pub radix: u8,
    pub suffix: u8,
    pub prefix: u8,
    pub separator: u8,
    pub flags: u64,
    pub exponent: u8,
    pub point: u8,
    pub conditions: Conditions,
}

impl Model for Grammar {
    ghost use Rattle.lexical_literal.specs.Worded.{Worded};

    ghost Value = { Worded };

    ghost use Rattle.lexical_literal.specs.Additions.Fields.{AreFields, fields_of, fields_same, worded};

    ghost view = { worded };

    ghost invariant = { AreFields };

    ghost inverse = { fields_of };

    ghost inverse_ok = { fields_same };
}

// Returns the separator of a format, or 0 if no flag allows one.
#[inline(always)]
const fn used_separator(word: u128) -> u8
    ensures { SeparatorAllowedOrAbsent (raw word) → result ≡ (raw word).byte layout.digit_separator }
{
    if is_separator_allowed(word) {
        digit_separator(word)
    } else {
        0
    }
}

// The lowest bits of bytes in the upper half of a word, in which that of the separator is 0.
const PREFIX_SHIFT: i32 = BASE_PREFIX_SHIFT - DIGIT_SEPARATOR_SHIFT;

const SUFFIX_SHIFT: i32 = BASE_SUFFIX_SHIFT - DIGIT_SEPARATOR_SHIFT;

pub(crate) const RADIX_SHIFT: i32 = MANTISSA_RADIX_SHIFT - DIGIT_SEPARATOR_SHIFT;

pub(crate) const BASE_SHIFT: i32 = EXPONENT_BASE_SHIFT - DIGIT_SEPARATOR_SHIFT;

pub(crate) const EXPONENT_SHIFT: i32 = EXPONENT_RADIX_SHIFT - DIGIT_SEPARATOR_SHIFT;

#[doc(hidden)]
impl Grammar {
    // Returns the grammar of a format, with an exponent character and a decimal point, or 0 for both.
    pub const fn new(word: u128, exponent: u8, point: u8) -> Grammar
        requires lawful { Lawful word }
        requires normal { IsNormal word }
        requires options { point ≡ 0 → exponent ≡ 0 }
        ensures { result ≡ record {
          word = word;
          options = options_if exponent point;
          conditions = no_conditions;
        } }
    {
        Grammar {
            exponent_radix: exponent_radix(word) as u8,
            exponent_base: exponent_base(word) as u8,
            radix: mantissa_radix(word) as u8,
            suffix: base_suffix(word),
            prefix: base_prefix(word),
            separator: used_separator(word),
            flags: (word % (1 << 64)) as u64,
            exponent,
            point,
            conditions: Conditions::NONE,
        }
    }

    // Returns the word of the format.
    #[inline(always)]
    pub const fn word(self) -> u128
        ensures { result ≡ self.word }
    {
        let affixes = self.separator as u64
            + ((self.prefix as u64) << PREFIX_SHIFT)
            + ((self.suffix as u64) << SUFFIX_SHIFT);
        let radixes = ((self.radix as u64) << RADIX_SHIFT)
            + ((self.exponent_base as u64) << BASE_SHIFT)
            + ((self.exponent_radix as u64) << EXPONENT_SHIFT);
        self.flags as u128 + (((affixes + radixes) as u128) << DIGIT_SEPARATOR_SHIFT)
    }

    // Returns a view of the format.
    #[inline(always)]
    pub const fn view(self) -> NumberFormat
        ensures { result ≡ self.word }
    {
        NumberFormat::new(self.word())
    }

    // Returns whether the flag `mask` is set.
    #[tactic(auto, using(crate::proofs::FieldLemmas::has_is))]
    #[inline(always)]
    pub const fn has(self, mask: u128) -> bool
        requires { 2 ^ bit (flag_of mask) ≡ mask }
        ensures { result ≡ (raw self.word).flag (flag_of mask) }
    {
        self.flags & mask as u64 != 0
    }

    // Returns the flags.
    #[tactic(auto, using(crate::proofs::FieldLemmas::flag_is))]
    #[inline(always)]
    pub(crate) const fn all_flags(self) -> u128
        ensures { (f : Flag) → (raw result).flag f ≡ (raw self.word).flag f }
    {
        self.flags as u128
    }

    // Returns the conditions.
    #[inline(always)]
    pub const fn conditions(self) -> Conditions
        ensures { result ≡ self.conditions }
    {
        self.conditions
    }

    // Returns whether literals are integers alone.
    #[inline(always)]
    pub const fn integers_only(self) -> bool
        ensures { result ≡ lacks_options self.options }
    {
        self.point == 0
    }

    // Returns whether all digits and the base are decimal, neither a sign nor an exponent is required, there is no base prefix, and
    // there are no conditions but `NegativeSign`.
    const fn is_usual(self) -> bool
        ensures { result ≡ is_usual self }
    {
        let radixes = (self.radix == 10)
            & ((self.exponent_base == 10) & (self.exponent_radix == 10));
        let required = self.has(REQUIRED_MANTISSA_SIGN) | self.has(REQUIRED_EXPONENT_NOTATION);
        radixes & (self.prefix == 0) & !required & self.conditions.are_usual()
    }

    // Returns the syntax, if the grammar is that of one.
    pub const fn syntax(self) -> Syntax
        requires { IsSyntax self }
        ensures { result ≡ self }
    {
        Syntax {
            grammar: self,
            usual: self.is_usual(),
        }
    }
}

/// Decides which texts are literals, and reads and writes these: a lawful format, with an exponent character and a decimal
/// point that fit it, or without both, and conditions. Without both, literals are integers.
///
/// Syntaxes are ordered by the words of their formats, then by the options, and then by the conditions. Integers alone
/// come first.
///
/// ```
/// use peltzivar::{literal::Syntax, NumberFormatBuilder};
///
/// const FORMAT: NumberFormatBuilder = NumberFormatBuilder::new().required_digits(true).no_positive_mantissa_sign(true);
/// const SYNTAX: Syntax = Syntax::new_or_panic(FORMAT.build_format_or_panic(), b'e', b',');
/// assert_eq!(SYNTAX.parse::<f64>("-12,5"), Ok(-12.5));
/// assert_eq!(SYNTAX.read("12.5").unwrap_err().to_string(), "unexpected character '.'");
/// ```
#[derive(Clone, Copy, PartialEq, Eq, PartialOrd, Ord, Hash)]
pub struct Syntax {
    grammar: Grammar,
    // Whether the grammar is a usual one.
    usual: bool,
}

impl Model for Syntax {
    ghost use Rattle.lexical_literal.specs.Worded.{Worded};

    ghost Value = { Worded };

    ghost use Rattle.std.specs.Prelude.{◌≡◌};
    ghost use Rattle.std.proofs.Common.{sym};
    ghost use Rattle.lexical_literal.specs.Additions.Scan.{is_usual};
    ghost use Rattle.lexical_literal.specs.Syntax.{IsSyntax};

    ghost view = { λ syntax. syntax.grammar };

    ghost invariant = { λ syntax. IsSyntax syntax.grammar × (syntax.usual ≡ is_usual syntax.grammar) };

    ghost inverse = { λ g. record { grammar = g; usual = is_usual g } };

    ghost inverse_ok = { λ syntax h i. record { grammar = syntax.grammar; usual = sym h.1 i } };
}

impl Syntax {
    /// Returns the syntax of a format with an exponent character and a decimal point.
    ///
    /// Equivalent formats have the same syntax. The options are checked against the [normal form][Format::normal_form],
    /// in which a separator that no flag allows is absent. So they may be such a separator, which
    /// [`check_options`][Format::check_options] refuses.
    ///
    /// A builder drops such a separator, and the format has no note on it. The builder's fields have it: in plain Rust,
    /// `Syntax::of` makes the syntax of a builder, and returns the notes on its fields, too.
    ///
    /// ```
    /// use peltzivar::{literal::Syntax, FormatError, NumberFormatBuilder};
    ///
    /// let format = NumberFormatBuilder::new().mantissa_radix(16).build_format()?;
    /// let error = Syntax::new(format, b'e', b'.').unwrap_err();
    /// assert_eq!(error.to_string(), "the exponent character 'e' is a digit in the mantissa radix 16 and the exponent radix 16");
    /// assert!(Syntax::new(format, b'p', b'.')?.read("1F.8p1").is_ok());
    /// # Ok::<(), FormatError>(())
    /// ```
    ///
    /// # Errors
    ///
    /// If the options do not fit the normal form, returns an error with the reasons.
    #[tactic(auto, unfolding(crate::specs::Syntax::fault))]
    pub const fn new(format: Format, exponent: u8, point: u8) -> Result<Syntax, FormatError>
        ensures accepted { OkIff result (OptionsFit (normal_form_of format) exponent point) (record {
          word = normal_form_of format;
          options = Some (record { exponent = exponent; point = point });
          conditions = no_conditions;
        }) }
        ensures error { IfErr result (λ error. IsOptionsError (normal_form_of format) exponent point error.code) }
        ensures rejected { IfErr result (λ error.
            error.rejected ≡ rejected.Options (normal_form_of format) exponent point) }
    {
        let normal = format.normal_form();
        match normal.check_options(exponent, point) {
            Ok(()) => Ok(Grammar::new(normal.word(), exponent, point).syntax()),
            Err(error) => Err(error),
        }
    }

    /// Returns the syntax of the integers of a format. Equivalent formats have the same syntax.
    #[must_use]
    #[tactic(auto, unfolding(crate::specs::Syntax::fault))]
    pub const fn integers(format: Format) -> Syntax
        ensures { result ≡ record { word = normal_form_of format; options = None; conditions = no_conditions } }
    {
        Grammar::new(format.normal_form().word(), 0, 0).syntax()
    }

    /// Returns the same syntax with `conditions`, and no others.
    ///
    /// ```
    /// use peltzivar::literal::{Conditions, ConditionsError, Syntax};
    /// use peltzivar::Format;
    ///
    /// let syntax = Syntax::integers(Format::default());
    /// let unsigned = syntax.with_conditions(Conditions::NONE.no_negative_mantissa_sign(true))?;
    /// assert_eq!(unsigned.read("-1").unwrap_err().to_string(), "unexpected minus sign");
    /// let error = syntax.with_conditions(Conditions::NONE.required_base_prefix(true)).unwrap_err();
    /// assert_eq!(error.to_string(), "required_base_prefix is set, and the format has no base prefix");
    /// # Ok::<(), ConditionsError>(())
    /// ```
    ///
    /// # Errors
    ///
    /// If the format contradicts the conditions, returns the error of the first that it contradicts.
    pub const fn with_conditions(self, conditions: Conditions) -> Result<Syntax, ConditionsError>
        ensures accepted { OkIff result (contradiction (raw self.word) conditions ≡ None) (record self { conditions = conditions }) }
        ensures error { IfErr result (λ error. contradiction (raw self.word) conditions ≡ Some error) }
    {
        let grammar = self.grammar;
        match contradiction(self.grammar(), conditions) {
            None => Ok(Grammar {
                conditions,
                ..grammar
            }
            .syntax()),
            Some(error) => Err(error),
        }
    }

    /// Returns the format, which is in [normal form][Format::normal_form].
    #[must_use]
    #[inline(always)]
    pub const fn format(&self) -> Format
        ensures word { result ≡ self.now.word }
        ensures lawful { IsSyntax self.now }
    {
        let grammar = self.grammar;
        Format::of_lawful(grammar.word())
    }

    /// Returns the exponent character and the decimal point, or `None` if literals are integers.
    #[must_use]
    pub const fn options(&self) -> Option<Options>
        ensures { result ≡ self.now.options }
    {
        let grammar = self.grammar;
        if grammar.integers_only() {
            None
        } else {
            Some(Options {
                exponent: grammar.exponent,
                point: grammar.point,
            })
        }
    }

    /// Returns the conditions.
    #[must_use]
    pub const fn conditions(&self) -> Conditions
        ensures { result ≡ self.now.conditions }
    {
        let grammar = self.grammar;
        grammar.conditions
    }

    /// Returns the only role of `byte`, or `None` if it plays no role.
    ///
    /// ```
    /// use peltzivar::{literal::Language, Role};
    ///
    /// let syntax = Language::CSV_DE.forms()[0].syntax();
    /// assert_eq!((syntax.role_of(b'.'), syntax.role_of(b',')), (Some(Role::Separator), Some(Role::Point)));
    /// ```
    #[must_use]
    pub const fn role_of(&self, byte: u8) -> Option<Role>
        ensures { IsOnlyRole (notation_of self.now) byte result }
    {
        let grammar = self.grammar();
        match role_at(grammar, Part::Integer, byte) {
            None => role_at(grammar, Part::Exponent, byte),
            role => role,
        }
    }

    // Returns whether all digits are decimal, no base prefix is read, and the syntax is a usual one.
    #[inline(always)]
    #[doc(hidden)]
    pub const fn is_decimal(&self) -> bool
        ensures radix { IsTrue result → IsDecimal (raw self.now.word) }
        ensures usual { IsTrue result → IsUsual self.now }
    {
        self.usual
    }

    // Returns what reading asks of the format, the options and the conditions.
    #[inline(always)]
    #[doc(hidden)]
    pub const fn grammar(&self) -> Grammar
        ensures value { result ≡ self.now }
        ensures syntax { IsSyntax self.now }
        ensures ready { IsReady (steps_of self.now) }
        ensures sizes { HasSizes (notation_of self.now) }
    {
        role_facts();
        self.grammar
    }
}

// Returns whether a condition is on groups.
#[inline(always)]
pub(crate) const fn has_sizes(grammar: Grammar) -> bool
    ensures { result ≡ has_sizes (notation_of grammar) }
{
    grammar.conditions.has(Condition::IntegerGroupSize)
}

// The flags that a usual syntax does not have.
const REQUIRED: u64 = (REQUIRED_MANTISSA_SIGN | REQUIRED_EXPONENT_NOTATION) as u64;

impl Syntax {
    // Returns the grammar of a usual syntax, of which the compiler then knows the radixes, the prefix, two flags and the conditions.
    #[inline(always)]
    pub(crate) const fn usual_grammar(&self) -> Grammar
        requires { IsUsual self.now }
        ensures value { result ≡ self.now }
        ensures ready { IsReady (steps_of self.now) }
        ensures sizes { HasSizes (notation_of self.now) }
    {
        role_facts();
        let grammar = self.grammar;
        Grammar {
            radix: 10,
            exponent_base: 10,
            exponent_radix: 10,
            prefix: 0,
            flags: grammar.flags - (grammar.flags & REQUIRED),
            conditions: grammar.conditions.only(Condition::NegativeSign),
            ..grammar
        }
    }
}

// Returns the error of the first of `conditions` that the format of `grammar` contradicts.
const fn contradiction(grammar: Grammar, conditions: Conditions) -> Option<ConditionsError>
    ensures { result ≡ contradiction (raw grammar.word) conditions }
{
    let mut index = 0;
    while index < CONDITIONS.len() {
        let error = fault(grammar, conditions, CONDITIONS[index]);
        if let Some(_) = error {
            return error;
        }
        index += 1;
    }
    None
}

// Returns what is wrong with `condition` as one of `conditions`, in the format of `grammar`.
#[tactic(auto, unfolding(crate::specs::Syntax::fault))]
pub(crate) const fn fault(
    grammar: Grammar,
    conditions: Conditions,
    condition: Condition,
) -> Option<ConditionsError>
    ensures { result ≡ fault (raw grammar.word) conditions condition }
{
    let number = conditions.number(condition);
    let (least, most) = condition.limits();
    let kind = if number == 0 {
        None
    } else if number < least || most < number {
        Some(ConditionsErrorKind::Number)
    } else {
        missing(grammar, conditions, condition)
    };
    match kind {
        None => None,
        Some(kind) => Some(ConditionsError { condition, kind }),
    }
}

// Returns what a condition needs and neither the format of `grammar` nor `conditions` have.
const fn missing(
    grammar: Grammar,
    conditions: Conditions,
    condition: Condition,
) -> Option<ConditionsErrorKind>
    ensures { result ≡ missing (raw grammar.word) conditions condition }
{
    let (prefix, suffix, separator) = (grammar.prefix, grammar.suffix, grammar.separator);
    match condition {
        Condition::BasePrefix if prefix == 0 => Some(ConditionsErrorKind::NoBasePrefix),
        Condition::BaseSuffix if suffix == 0 => Some(ConditionsErrorKind::NoBaseSuffix),
        Condition::IntegerGroupSize if !grammar.has(INTEGER_INTERNAL_DIGIT_SEPARATOR) => {
            Some(ConditionsErrorKind::NoInternalSeparator)
        }
        Condition::IntegerGroupSize if separator == 0 => Some(ConditionsErrorKind::NoSeparator),
        Condition::HigherGroupSize if !conditions.has(Condition::IntegerGroupSize) => Some(
            ConditionsErrorKind::NoIntegerGroupSize,
        ),
        Condition::LeadingZero | Condition::DecimalFirstDigit
            if grammar.has(NO_INTEGER_LEADING_ZEROS) || grammar.has(NO_FLOAT_LEADING_ZEROS) => Some(
            ConditionsErrorKind::NoLeadingZeros,
        ),
        _ => None,
    }
}
