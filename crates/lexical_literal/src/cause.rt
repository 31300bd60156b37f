//! Why a text is not a literal.

ghost use Rattle.std.specs.Prelude.{◌≡◌, ◌<◌, ◌^◌, Some, if◌then◌else◌, ◌&&◌, ℕ, not};
ghost use Rattle.lexical_util.specs.Layout.{Flag, bit};
ghost use Rattle.lexical_util.specs.Record.{raw};
ghost use Rattle.lexical_literal.specs.Additions.Causes.{is_at_gap, lets, place_of};
ghost use Rattle.lexical_literal.specs.Additions.Explained.{alone, blame, cases, group_at, mask_of, refusal_of, requirements, separators, unmet};
ghost use Rattle.lexical_literal.specs.Additions.Explained.{zeros};
ghost use Rattle.lexical_literal.specs.Additions.GroupSize.{goes, group_allows, role_next, unsized, with_rules};
ghost use Rattle.lexical_literal.specs.Additions.Step.{part_of, role_at};
ghost use Rattle.lexical_literal.specs.Cause.{adding, bare, binds, case_set, first_unmet};
ghost use Rattle.lexical_literal.specs.Notation.{has, kept, notation_of, number_of};

use crate::group_size::{Group, follows, has_size};
use crate::step::{
    CONSECUTIVE, Summary, has_digit, has_place, is_complete, is_exponent_character, is_prefix,
    is_suffix, needs_exponent, other_case, part_of, role_at, step_as,
};
use crate::syntax::{Condition, Conditions, Grammar};
use lexical_util::error::Error;
use lexical_util::format as masks;
use lexical_util::format::{Part, Role};
use std::marker::Model;

/// Where a digit separator is.
#[derive(Debug, Clone, Copy, PartialEq, Eq, Hash)]
pub enum Place {
    /// Before the digits of its part.
    BeforeDigits,
    /// After a digit of its part, between digits or behind them.
    AfterDigit,
    /// After another digit separator.
    Consecutive,
}

/// The kind of a [`ReadError`]: the cause, without the flags and conditions that are to blame. Another cause may follow when this one is
/// mended.
#[derive(Debug, Clone, Copy, PartialEq, Eq, Hash)]
pub enum ReadErrorKind {
    /// Flags are set, or the syntax has conditions, whose requirements the text does not satisfy.
    Requirement,
    /// A digit separator is not allowed in this part at this place.
    Separator(Part, Place),
    /// A letter has the wrong case.
    Case,
    /// A byte cannot follow the bytes before it.
    Byte,
    /// Digits of this part are missing.
    Missing(Part),
}

// Where reading stopped: what has been read, the byte that cannot follow, or `None` if bytes are missing, the bytes that follow it in
// its character, or 0 for each that does not, and whether a separator is before the last group of digits. What spans and errors are
// made of: the number of bytes that are right, and the indexes at which the exponent, the integer digits, the last separators and,
// where groups have sizes, the last group of digits begin.
#[derive(Debug, Clone, Copy, PartialEq, Eq, Hash)]
pub struct Spot {
    pub(crate) grammar: Grammar,
    pub(crate) read: Summary,
    pub(crate) byte: Option<u8>,
    pub(crate) tail: [u8; 3],
    pub(crate) size: usize,
    pub(crate) exponent: usize,
    pub(crate) first: usize,
    pub(crate) run: usize,
    pub(crate) group: usize,
    pub(crate) separated: bool,
}

// What an error answers. `tail` has the bytes that follow `byte` in its character, or 0 for each that does not.
#[derive(Clone, Copy)]
pub struct Refusal {
    pub(crate) valid_up_to: usize,
    pub(crate) byte: Option<u8>,
    pub(crate) tail: [u8; 3],
    pub(crate) kind: ReadErrorKind,
    pub(crate) mask: u128,
    pub(crate) conditions: Conditions,
    pub(crate) start: usize,
    pub(crate) end: usize,
    pub(crate) code: Error,
}

/// Why a text is not a literal, and where. If a byte cannot follow, the error is that of the byte, as in `1e;`. To say
/// what is missing before it, read the front of the text that ends at [`valid_up_to`][Self::valid_up_to]. If this front
/// is not a literal either, its error says it.
///
/// An error holds where reading stopped. Each call but `valid_up_to` and `byte` finds the cause anew. `==` compares the
/// syntax, the index at which reading stopped, the character there, and a summary of what has been read, but not the bytes
/// before it. Equal errors have equal answers. Errors of two syntaxes differ, even if their answers are the same.
#[derive(Debug, Clone, Copy, PartialEq, Eq, Hash)]
pub struct ReadError {
    pub(crate) spot: Spot,
}

impl Model for ReadError {
    ghost use Rattle.lexical_literal.specs.Cause.{Explained};

    ghost Value = { Explained };

    ghost use Rattle.std.specs.Prelude.{◌<◌, ◌^◌};
    ghost use Rattle.lexical_literal.specs.Additions.Explained.{explained};

    ghost view = { λ error. explained error.spot };

    ghost invariant = { λ error. error.spot.size < 2 ^ 63 };

    ghost inverse = { λ error. record { spot = error.spot } };
}

impl ReadError {
    /// Returns the length of the longest front of the text that some literal begins with: the index of the first byte that
    /// cannot follow the bytes before it, or the length of the text if bytes are missing. Then `byte` is `None` and, outside
    /// Rattle, `is_incomplete` is `true`.
    #[must_use]
    pub const fn valid_up_to(&self) -> usize
        ensures { result ≡ self.now.refusal.valid_up_to }
    {
        self.spot.size
    }

    /// Returns the byte that cannot follow, or `None` if bytes are missing.
    #[must_use]
    pub const fn byte(&self) -> Option<u8>
        ensures { result ≡ self.now.refusal.byte }
    {
        self.spot.byte
    }

    /// Returns the kind.
    #[must_use]
    pub const fn kind(&self) -> ReadErrorKind
        ensures { result ≡ self.now.refusal.kind }
    {
        self.explain().kind
    }

    /// Returns the mask of the flags in a format word that are to blame. It is 0 for a wrong byte, for missing digits, and
    /// where conditions alone are to blame.
    #[must_use]
    pub const fn mask(&self) -> u128
        ensures { result ≡ self.now.refusal.mask }
    {
        self.explain().mask
    }

    /// Returns the conditions of the syntax that are to blame for a requirement: those that refuse the text alone.
    #[must_use]
    pub const fn conditions(&self) -> Conditions
        ensures { result ≡ self.now.refusal.conditions }
    {
        self.explain().conditions
    }

    /// Returns the first index and the end of the bytes to show. They may be none.
    #[must_use]
    pub const fn span(&self) -> (usize, usize)
        ensures { result ≡ (self.now.refusal.start, self.now.refusal.end) }
    {
        let Refusal { start, end, .. } = self.explain();
        (start, end)
    }

    /// Returns the error that `lexical-util` has for the cause.
    #[must_use]
    pub const fn code(&self) -> Error
        ensures { result ≡ self.now.refusal.code }
    {
        self.explain().code
    }

    // Returns all answers. It finds the cause once.
    pub(crate) const fn explain(&self) -> Refusal
        ensures { result ≡ self.now.refusal }
    {
        self.spot.refusal()
    }
}

// Returns the first of the conditions `unmet` if no flag of `mask` is to blame.
pub(crate) const fn first_unmet(mask: u128, unmet: Conditions) -> Option<Condition>
    ensures { result ≡ first_unmet mask unmet }
{
    if mask == 0 { unmet.first() } else { None }
}

// The flags that require something of the parts of a literal.
const REQUIREMENTS: u128 = masks::REQUIRED_DIGITS
    | masks::NO_POSITIVE_MANTISSA_SIGN
    | masks::REQUIRED_MANTISSA_SIGN
    | masks::NO_EXPONENT_NOTATION
    | masks::NO_POSITIVE_EXPONENT_SIGN
    | masks::REQUIRED_EXPONENT_SIGN
    | masks::NO_EXPONENT_WITHOUT_FRACTION
    | masks::NO_INTEGER_LEADING_ZEROS
    | masks::NO_FLOAT_LEADING_ZEROS
    | masks::REQUIRED_EXPONENT_NOTATION;

// The flags of `REQUIREMENTS` that bind where each literal has an exponent, and none is an integer.
const FLOAT_REQUIREMENTS: u128 = REQUIREMENTS & !masks::NO_INTEGER_LEADING_ZEROS;

// The flags on leading zeros.
const ZEROS: u128 = masks::NO_INTEGER_LEADING_ZEROS | masks::NO_FLOAT_LEADING_ZEROS;

// The flags that allow a digit separator in a number.
const SEPARATORS: u128 = masks::DIGIT_SEPARATOR_FLAG_MASK & !masks::SPECIAL_DIGIT_SEPARATOR;

// A kind of error, and the flags that are to blame.
#[derive(Clone, Copy)]
struct Blame {
    kind: ReadErrorKind,
    mask: u128,
}

impl Spot {
    // Returns the last group of digits.
    const fn last_group(&self) -> Group
        ensures { result ≡ group_at self.now }
    {
        Group {
            part: part_of(self.read.stage),
            separated: self.separated,
            digits: self.size.saturating_sub(self.group),
        }
    }

    // Returns the answers of a text with which no literal goes on.
    const fn refusal(&self) -> Refusal
        requires { self.now.size < 2 ^ 63 }
        ensures { result ≡ refusal_of (notation_of self.now.grammar) self.now }
    {
        let Spot {
            byte,
            tail,
            size,
            ..
        } = *self;
        let Blame { kind, mask } = self.blame();
        let conditions = self.unmet();
        let number = mask.trailing_zeros();
        let unmet = first_unmet(mask, conditions);
        let (start, end, code) = self.shown(kind, number, unmet);
        Refusal {
            valid_up_to: size,
            byte,
            tail,
            kind,
            mask,
            conditions,
            start,
            end,
            code,
        }
    }

    // Returns whether the text could go on if the flags of the format were those of `word`, with other conditions.
    const fn allows(&self, word: u128, conditions: Conditions) -> bool
        ensures { result ≡ goes (with_rules (notation_of self.now.grammar) (raw word).flag (has conditions)) self.now.read (group_at self.now) self.now.byte }
    {
        let grammar = self.grammar;
        let other = Grammar {
            flags: (word % (1 << 64)) as u64,
            separator: 0,
            conditions,
            ..grammar
        };
        self.goes_on(other) && self.group_goes_on(other)
    }

    // Returns whether the text could go on by the steps of `other`.
    const fn goes_on(&self, other: Grammar) -> bool
        requires { other.options ≡ self.now.grammar.options }
        ensures { result ≡ lets (unsized (with_rules (notation_of self.now.grammar) (raw other.word).flag (has other.conditions))) self.now.read self.now.byte }
    {
        match self.byte {
            None => is_complete(other, self.read),
            Some(byte) => match role_at(self.grammar, part_of(self.read.stage), byte) {
                None => false,
                Some(role) => matches!(step_as(other, self.read, byte, role), Some(_)),
            },
        }
    }

    // Returns whether the text could go on behind the last group of digits, with the conditions of `other`.
    const fn group_goes_on(&self, other: Grammar) -> bool
        ensures { result ≡ group_allows (with_rules (notation_of self.now.grammar) (raw other.word).flag (has other.conditions)) (group_at self.now)
            (role_next (notation_of self.now.grammar) (group_at self.now).part self.now.byte) }
    {
        let group = self.last_group();
        let role = match self.byte {
            None => None,
            Some(byte) => role_at(self.grammar, group.part, byte),
        };
        !has_size(other, group.part) || follows(self.grammar, group, role)
    }

    // Returns the word without the flags that require something.
    #[tactic(auto, using(crate::proofs::CauseLemmas::bare_flags))]
    const fn bare(&self) -> u128
        ensures { (f : Flag) → (raw result).flag f ≡ (bare (notation_of self.now.grammar)).flag f }
    {
        self.grammar.all_flags() & !REQUIREMENTS
    }

    // Returns whether the text could go on without requirements.
    const fn goes_on_bare(&self) -> bool
        ensures { result ≡ goes (bare (notation_of self.now.grammar)) self.now.read (group_at self.now) self.now.byte }
    {
        self.allows(self.bare(), Conditions::NONE)
    }

    // Returns whether the text could go on with the flag that has the number `number`, and no other requirement.
    const fn is_permitted(&self, number: u32) -> bool
        requires { number < 45 }
        ensures { (f : Flag) → bit f ≡ number → result ≡ goes (adding f (bare (notation_of self.now.grammar))) self.now.read (group_at self.now) self.now.byte }
    {
        self.allows((1 << number) | self.bare(), Conditions::NONE)
    }

    // Returns those of `flags` each of which, as the only requirement, refuses what cannot follow.
    const fn refusing(&self, flags: u128) -> u128
        ensures { result ≡ mask_of (λ f. (raw flags).flag f
            && not (goes (adding f (bare (notation_of self.now.grammar))) self.now.read (group_at self.now) self.now.byte)) }
    {
        let mut mask = flags;
        let mut number = 0;
        while number < 45 {
            let is_out = mask & (1 << number) != 0 && self.is_permitted(number);
            mask &= !flag_if(is_out, 1 << number);
            number += 1;
        }
        mask & masks::FLAG_MASK
    }

    // Returns the flags that are set and require something.
    #[tactic(auto, using(crate::proofs::CauseLemmas::flag_and, crate::proofs::CauseLemmas::float_mask, crate::proofs::CauseLemmas::requirement_mask))]
    const fn binding(&self) -> u128
        ensures { (f : Flag) → (raw result).flag f ≡ binds (notation_of self.now.grammar) f }
    {
        let grammar = self.grammar;
        let flags = grammar.all_flags();
        if needs_exponent(grammar) {
            flags & FLOAT_REQUIREMENTS
        } else {
            flags & REQUIREMENTS
        }
    }

    // Returns the flags that refuse alone.
    const fn alone(&self) -> u128
        ensures { result ≡ mask_of (alone (notation_of self.now.grammar) self.now.read (group_at self.now) self.now.byte) }
    {
        self.refusing(self.binding())
    }

    // Returns the flags on leading zeros that require something.
    #[tactic(auto, using(crate::proofs::CauseLemmas::flag_and, crate::proofs::CauseLemmas::masked_by, crate::proofs::CauseLemmas::zeros_mask))]
    const fn zeros(&self) -> u128
        ensures { result ≡ mask_of (zeros (notation_of self.now.grammar)) }
    {
        self.binding() & ZEROS
    }

    // Returns the flags to blame for a requirement: those that refuse alone, or else those on leading zeros.
    const fn requirements(&self) -> u128
        ensures { result ≡ requirements (notation_of self.now.grammar) self.now.read (group_at self.now) self.now.byte }
    {
        let alone = self.alone();
        if alone == 0 && self.unmet().is_none() {
            self.zeros()
        } else {
            alone
        }
    }

    // Returns the conditions to blame for a requirement: those that refuse alone.
    const fn unmet(&self) -> Conditions
        ensures { result ≡ kept (unmet (notation_of self.now.grammar) self.now.read (group_at self.now) self.now.byte) (number_of self.now.grammar.conditions) }
    {
        Conditions {
            numbers: [
                self.unmet_number(Condition::BasePrefix),
                self.unmet_number(Condition::BaseSuffix),
                self.unmet_number(Condition::NegativeSign),
                self.unmet_number(Condition::IntegerGroupSize),
                self.unmet_number(Condition::HigherGroupSize),
                self.unmet_number(Condition::LeadingZero),
                self.unmet_number(Condition::DecimalFirstDigit),
            ],
        }
    }

    // Returns the number of `condition` if it alone refuses what cannot follow, and 0 otherwise.
    const fn unmet_number(&self, condition: Condition) -> u8
        ensures { result ≡ (if unmet (notation_of self.now.grammar) self.now.read (group_at self.now) self.now.byte condition
            then number_of self.now.grammar.conditions condition else 0) }
    {
        let grammar = self.grammar;
        if self.is_unmet(condition) {
            grammar.conditions().number(condition)
        } else {
            0
        }
    }

    // Returns whether the syntax has a condition that alone refuses what cannot follow.
    #[inline(always)]
    const fn is_unmet(&self, condition: Condition) -> bool
        ensures { result ≡ unmet (notation_of self.now.grammar) self.now.read (group_at self.now) self.now.byte condition }
    {
        let grammar = self.grammar;
        let conditions = grammar.conditions();
        conditions.has(condition)
            && self.goes_on_bare()
            && !self.allows(self.bare(), conditions.only(condition))
    }

    // Returns the flags each of which would allow a separator that is not allowed.
    #[tactic(auto, using(crate::proofs::CauseLemmas::no_mask))]
    const fn separators(&self) -> u128
        ensures { result ≡ mask_of (separators (notation_of self.now.grammar) self.now.read (group_at self.now) self.now.byte) }
    {
        if self.is_at_gap() {
            SEPARATORS & !self.refusing(SEPARATORS)
        } else {
            0
        }
    }

    // Returns whether what cannot follow is a separator, or follows one.
    const fn is_at_gap(&self) -> bool
        ensures { result ≡ is_at_gap (notation_of self.now.grammar) self.now.read self.now.byte }
    {
        match self.byte {
            None => self.read.gap,
            Some(byte) => {
                let role = role_at(self.grammar, part_of(self.read.stage), byte);
                self.read.gap || matches!(role, Some(Role::Separator))
            }
        }
    }

    // Returns where a separator is not allowed, before or after `byte`.
    const fn place(&self, byte: u8) -> Place
        ensures { result ≡ place_of (notation_of self.now.grammar) (part_of self.now.read.stage) self.now.read.stage self.now.read.gap
            (role_at (notation_of self.now.grammar) (part_of self.now.read.stage) byte) }
    {
        let role = role_at(self.grammar, part_of(self.read.stage), byte);
        let is_consecutive = self.read.gap
            && !has_place(self.grammar, part_of(self.read.stage), CONSECUTIVE);
        if is_consecutive && matches!(role, Some(Role::Separator)) {
            Place::Consecutive
        } else if has_digit(self.read.stage) {
            Place::AfterDigit
        } else {
            Place::BeforeDigits
        }
    }

    // Returns the flags by which the case of `byte` counts, if its other case may be next.
    const fn case_flags(&self, byte: u8) -> u128
        ensures { result ≡ mask_of (cases (notation_of self.now.grammar) self.now.read (group_at self.now) byte) }
    {
        let other = other_case(byte);
        let spot = Spot {
            byte: Some(other),
            ..*self
        };
        if spot.goes_on_bare() {
            case_mask(self.grammar, other)
        } else {
            0
        }
    }

    // Returns the kind, and the flags that are to blame.
    const fn blame(&self) -> Blame
        ensures { result ≡ blame (notation_of self.now.grammar) self.now.read (group_at self.now) self.now.byte }
    {
        if self.goes_on_bare() {
            return Blame {
                kind: ReadErrorKind::Requirement,
                mask: self.requirements(),
            };
        }
        let Some(byte) = self.byte else {
            return Blame {
                kind: ReadErrorKind::Missing(part_of(self.read.stage)),
                mask: 0,
            };
        };
        let separators = self.separators();
        if separators != 0 {
            return Blame {
                kind: ReadErrorKind::Separator(part_of(self.read.stage), self.place(byte)),
                mask: separators,
            };
        }
        let mask = self.case_flags(byte);
        let kind = if mask == 0 {
            ReadErrorKind::Byte
        } else {
            ReadErrorKind::Case
        };
        Blame { kind, mask }
    }
}

// Returns `flag` if `is_set` is true, and 0 otherwise.
const fn flag_if(is_set: bool, flag: u128) -> u128
    ensures { result ≡ (if is_set then flag else 0) }
{
    if is_set { flag } else { 0 }
}

// Returns the flags by which the case of `byte` counts.
const fn case_mask(grammar: Grammar, byte: u8) -> u128
    ensures { result ≡ mask_of (λ f. case_set f (notation_of grammar) byte) }
{
    flag_if(
        is_exponent_character(grammar, byte),
        masks::CASE_SENSITIVE_EXPONENT,
    ) | flag_if(is_prefix(grammar, byte), masks::CASE_SENSITIVE_BASE_PREFIX)
        | flag_if(is_suffix(grammar, byte), masks::CASE_SENSITIVE_BASE_SUFFIX)
}
