//! A step of reading: what has been read of a number, changed by one byte.

ghost use Rattle.std.specs.Prelude.{◌≡◌, ◌<◌, ◌==◌, ◌&&◌, IfSome, IsNone, None, Some, false, not, nat_lt};
ghost use Rattle.lexical_util.specs.Digits.{byte_value};
ghost use Rattle.lexical_util.specs.Record.{raw};
ghost use Rattle.lexical_util.specs.Roles.{cased, other_case, signs};
ghost use Rattle.lexical_literal.specs.Notation.{has, radix_of, point_of, exponent_character_of};
ghost use Rattle.lexical_literal.specs.Run.{is_place};
ghost use Rattle.lexical_util.specs.Layout.{separators_in};
ghost use Rattle.lexical_literal.specs.Additions.GroupSize.{steps_of};
ghost use Rattle.lexical_literal.specs.declared.syntax.Condition.TheVariants as conditions;
ghost use Rattle.lexical_literal.specs.Additions.Step.{after_point, digits_of, part_of, role_at, piece_number, piece_of, has_digit, may_follow, admits};
ghost use Rattle.lexical_literal.specs.Additions.Step.{forbids_plus, awaits_integer, is_negative, is_signed, lacks_prefix, is_run};
ghost use Rattle.lexical_literal.specs.Additions.Step.{leads, leads_to_prefix, needs_exponent, continues, digits_suffice, ends, is_complete, move_by, step, takes, after};

use crate::group_size::has_size;
use crate::syntax::{Condition, Conditions, Grammar};
use lexical_base::digit::char_to_digit;
use lexical_util::format::{Part, Role};
use lexical_util::format_flags::{
    CASE_SENSITIVE_BASE_PREFIX, CASE_SENSITIVE_BASE_SUFFIX, CASE_SENSITIVE_EXPONENT,
    NO_EXPONENT_NOTATION, NO_EXPONENT_WITHOUT_FRACTION, NO_FLOAT_LEADING_ZEROS,
    NO_INTEGER_LEADING_ZEROS, NO_POSITIVE_EXPONENT_SIGN, NO_POSITIVE_MANTISSA_SIGN,
    REQUIRED_EXPONENT_DIGITS, REQUIRED_EXPONENT_NOTATION, REQUIRED_EXPONENT_SIGN,
    REQUIRED_FRACTION_DIGITS, REQUIRED_INTEGER_DIGITS, REQUIRED_MANTISSA_DIGITS,
    REQUIRED_MANTISSA_SIGN,
};

// A part of a literal.
#[derive(Clone, Copy)]
pub enum Piece {
    Sign,
    Prefix,
    Integer,
    Point,
    Fraction,
    ExponentCharacter,
    ExponentSign,
    Exponent,
    Suffix,
}

// What has been read of the part that a digit belongs to.
#[derive(Debug, Clone, Copy, PartialEq, Eq, Hash)]
pub enum Stage {
    Start, // Nothing of the number.
    Empty, // A sign or separators, and no digits of the integer.
    Bare, // The digit 0, and no separators.
    Zero, // The digit 0, and separators.
    Led, // A leading zero, and more digits.
    Integer, // Digits of the integer without a leading zero.
    Prefixed, // The base prefix, and no digits of the integer.
    Lone, // No digits of the fraction, after no digits of the integer.
    Point, // No digits of the fraction, after digits of the integer.
    Fraction, // Digits of the fraction.
    Mark, // Nothing since the exponent character.
    Signed, // A sign or separators, and no digits of the exponent.
    Exponent, // Digits of the exponent.
}

// What has been read of a number.
#[derive(Debug, Clone, Copy, PartialEq, Eq, Hash)]
pub struct Summary {
    pub(crate) stage: Stage,
    pub(crate) gap: bool, // Whether the last byte is a separator.
    pub(crate) ended: bool, // Whether the suffix has been read.
}

// The summary before any byte.
pub(crate) const START: Summary = Summary {
    stage: Stage::Start,
    gap: false,
    ended: false,
};

// Returns the part that a digit belongs to.
#[inline(always)]
pub(crate) const fn part_of(stage: Stage) -> Part
    ensures { result ≡ part_of stage }
{
    match stage {
        Stage::Lone | Stage::Point | Stage::Fraction => Part::Fraction,
        Stage::Mark | Stage::Signed | Stage::Exponent => Part::Exponent,
        _ => Part::Integer,
    }
}

// Returns the stage of digits of `part` without a leading zero.
#[inline(always)]
pub(crate) const fn digits_of(part: Part) -> Stage
    ensures { result ≡ digits_of part }
{
    match part {
        Part::Integer => Stage::Integer,
        Part::Fraction => Stage::Fraction,
        Part::Exponent => Stage::Exponent,
    }
}

// Returns whether `byte` is a digit of `part`.
#[inline(always)]
pub const fn is_digit(grammar: Grammar, part: Part, byte: u8) -> bool
    ensures { result ≡ nat_lt (byte_value byte) (radix_of (raw grammar.word) part) }
{
    matches!(char_to_digit(byte, radix_of(grammar, part)), Some(_))
}

// Returns the radix of the digits of `part`.
#[inline(always)]
pub(crate) const fn radix_of(grammar: Grammar, part: Part) -> u32
    ensures { result ≡ radix_of (raw grammar.word) part }
{
    match part {
        Part::Exponent => grammar.exponent_radix as u32,
        _ => grammar.radix as u32,
    }
}

// Returns whether `byte` is the separator. Most bytes are another one than it.
#[tactic(auto, unfolding(lexical_util::specs::Unfoldable::cased))]
#[inline(always)]
pub const fn is_separator(grammar: Grammar, byte: u8) -> bool
    ensures { result ≡ (steps_of grammar).separator byte }
{
    byte == grammar.separator && byte != 0
}

// Returns whether `byte` is the base prefix.
#[tactic(auto, using(crate::proofs::FieldLemmas::prefix_is))]
#[inline(always)]
pub const fn is_prefix(grammar: Grammar, byte: u8) -> bool
    ensures { result ≡ (steps_of grammar).prefix byte }
{
    is_own(
        grammar.prefix,
        grammar.has(CASE_SENSITIVE_BASE_PREFIX),
        byte,
    )
}

// Returns whether `byte` is the base suffix.
#[tactic(auto, using(crate::proofs::FieldLemmas::suffix_is))]
#[inline(always)]
pub(crate) const fn is_suffix(grammar: Grammar, byte: u8) -> bool
    ensures { result ≡ (steps_of grammar).suffix byte }
{
    is_own(
        grammar.suffix,
        grammar.has(CASE_SENSITIVE_BASE_SUFFIX),
        byte,
    )
}

// Returns whether `byte` is `own` or, if `case_sensitive` is false, the same letter in the other case. `own` is 0 if it is absent.
#[tactic(auto, unfolding(lexical_util::specs::Unfoldable::cased))]
#[inline(always)]
const fn is_own(own: u8, case_sensitive: bool, byte: u8) -> bool
    ensures { result ≡ cased case_sensitive own byte }
{
    own != 0 && (byte == own || !case_sensitive && byte.eq_ignore_ascii_case(&own))
}

// The flags that allow a separator between digits of the integer, before them, behind them, and several, by their numbers. Those of the
// fraction and of the exponent follow.
pub(crate) const INTERNAL: u32 = 32;

const LEADING: u32 = 35;

const TRAILING: u32 = 38;

pub(crate) const CONSECUTIVE: u32 = 41;

// Returns whether a separator may be at a place in `part`.
#[inline(always)]
pub(crate) const fn has_place(grammar: Grammar, part: Part, place: u32) -> bool
    requires { place < 42 }
    ensures internal { place ≡ 32 → result ≡ (raw grammar.word).flag (separators_in part).internal }
    ensures leading { place ≡ 35 → result ≡ (raw grammar.word).flag (separators_in part).leading }
    ensures trailing { place ≡ 38 → result ≡ (raw grammar.word).flag (separators_in part).trailing }
    ensures consecutive { place ≡ 41 → result ≡ (raw grammar.word).flag (separators_in part).consecutive }
{
    (grammar.flags >> (place + part as u32)) & 1 != 0
}

// Returns whether a plus sign may be before the digits of `part`.
#[inline(always)]
pub(crate) const fn allows_plus(grammar: Grammar, part: Part) -> bool
    ensures { result ≡ not (forbids_plus (steps_of grammar) part) }
{
    match part {
        Part::Exponent => !grammar.has(NO_POSITIVE_EXPONENT_SIGN),
        _ => !grammar.has(NO_POSITIVE_MANTISSA_SIGN),
    }
}

// Returns whether a minus sign may be before the digits of `part`.
#[inline(always)]
pub(crate) const fn allows_minus(grammar: Grammar, part: Part) -> bool
    ensures { result ≡ not (has grammar.conditions conditions.NegativeSign && is_negative part false Role.Sign) }
{
    matches!(part, Part::Exponent) || !grammar.conditions().has(Condition::NegativeSign)
}

// Returns whether `byte` is the decimal point.
#[tactic(auto, unfolding(lexical_util::specs::Unfoldable::cased))]
#[inline(always)]
pub const fn is_point(grammar: Grammar, byte: u8) -> bool
    ensures { result ≡ point_of grammar.options byte }
{
    byte == grammar.point && byte != 0
}

// Returns the other case of a letter, or the byte itself if it is not a letter.
pub const fn other_case(byte: u8) -> u8
    ensures { result ≡ other_case byte }
{
    match byte {
        b'A'..=b'Z' => byte + 32,
        b'a'..=b'z' => byte - 32,
        _ => byte,
    }
}

// Returns whether `byte` is the exponent character.
#[tactic(auto, using(crate::proofs::FieldLemmas::exponent_is))]
#[inline(always)]
pub(crate) const fn is_exponent_character(grammar: Grammar, byte: u8) -> bool
    ensures { result ≡ exponent_character_of (raw grammar.word) grammar.options byte }
{
    is_own(grammar.exponent, grammar.has(CASE_SENSITIVE_EXPONENT), byte)
}

// Returns the piece that a byte with the role `role` belongs to, after a front that ends in `part`.
#[inline(always)]
pub(crate) const fn piece_of(part: Part, role: Role) -> Piece
    ensures { result ≡ piece_of part role }
{
    match (role, part) {
        (Role::Digit | Role::Separator, Part::Integer) => Piece::Integer,
        (Role::Digit | Role::Separator, Part::Fraction) => Piece::Fraction,
        (Role::Digit | Role::Separator, Part::Exponent) => Piece::Exponent,
        (Role::Sign, Part::Exponent) => Piece::ExponentSign,
        (Role::Sign, _) => Piece::Sign,
        (Role::Prefix, _) => Piece::Prefix,
        (Role::Point, _) => Piece::Point,
        (Role::Exponent, _) => Piece::ExponentCharacter,
        (Role::Suffix, _) => Piece::Suffix,
    }
}

// Returns the place of a piece in a list of lengths.
#[inline(always)]
pub(crate) const fn piece_number(piece: Piece) -> usize
    ensures value { result ≡ piece_number piece }
    ensures small { result < 9 }
{
    piece as usize
}

// Returns whether the integer has no digits, and a zero is a leading one.
#[inline(always)]
pub(crate) const fn awaits_integer(stage: Stage) -> bool
    ensures { result ≡ awaits_integer stage }
{
    matches!(stage, Stage::Start | Stage::Empty)
}

// Returns whether the part has a digit.
#[inline(always)]
pub(crate) const fn has_digit(stage: Stage) -> bool
    ensures { result ≡ has_digit stage }
{
    matches!(
        stage,
        Stage::Bare | Stage::Zero | Stage::Led | Stage::Integer | Stage::Fraction | Stage::Exponent
    )
}

// Returns whether another digit changes no stage, and may follow.
#[inline(always)]
pub(crate) const fn is_run(stage: Stage) -> bool
    ensures { result ≡ is_run stage }
{
    matches!(
        stage,
        Stage::Led | Stage::Integer | Stage::Fraction | Stage::Exponent
    )
}

// Returns whether a separator may be at a place in `part` with digits before it, or not, and after it, or not.
#[inline(always)]
const fn is_place(grammar: Grammar, part: Part, before: bool, after: bool) -> bool
    ensures { result ≡ is_place (steps_of grammar) part before after }
{
    match (before, after) {
        (true, true) => has_place(grammar, part, INTERNAL),
        (false, true) => has_place(grammar, part, LEADING) && !has_size(grammar, part),
        (true, false) => has_place(grammar, part, TRAILING) && !has_size(grammar, part),
        (false, false) => false,
    }
}

// Returns whether several separators may follow one another in `part`.
const fn allows_consecutive(grammar: Grammar, part: Part) -> bool
    ensures { result ≡ (steps_of grammar).flag (separators_in part).consecutive }
{
    has_place(grammar, part, CONSECUTIVE) && !has_size(grammar, part)
}

// Returns whether an exponent is required.
#[inline(always)]
pub(crate) const fn needs_exponent(grammar: Grammar) -> bool
    ensures { result ≡ needs_exponent (steps_of grammar) }
{
    grammar.has(REQUIRED_EXPONENT_NOTATION) && !grammar.integers_only()
}

// Returns whether another digit may follow: after a zero, only if some literal has a leading zero.
#[inline(always)]
pub(crate) const fn may_follow(grammar: Grammar, stage: Stage) -> bool
    ensures { result ≡ may_follow (steps_of grammar) stage }
{
    !matches!(stage, Stage::Bare | Stage::Zero)
        || (!grammar.integers_only() && !grammar.has(NO_FLOAT_LEADING_ZEROS))
        || (!grammar.has(NO_INTEGER_LEADING_ZEROS) && !needs_exponent(grammar))
}

// Returns whether `part` has a sign, or needs none.
#[inline(always)]
pub(crate) const fn is_signed(grammar: Grammar, part: Part, stage: Stage) -> bool
    ensures { result ≡ is_signed (steps_of grammar) part stage }
{
    let needs_sign = match part {
        Part::Exponent => grammar.has(REQUIRED_EXPONENT_SIGN),
        _ => grammar.has(REQUIRED_MANTISSA_SIGN),
    };
    !matches!(stage, Stage::Start | Stage::Mark) || !needs_sign
}

// Returns whether `part` has the digits that flags require.
#[inline(always)]
const fn digits_suffice(grammar: Grammar, part: Part, stage: Stage) -> bool
    ensures { result ≡ digits_suffice (steps_of grammar) part stage }
{
    let digit = has_digit(stage);
    match part {
        Part::Integer => !grammar.has(REQUIRED_INTEGER_DIGITS) || digit,
        Part::Fraction => {
            (!grammar.has(REQUIRED_FRACTION_DIGITS) || digit)
                && (!grammar.has(REQUIRED_MANTISSA_DIGITS) || !matches!(stage, Stage::Lone))
        }
        Part::Exponent => !grammar.has(REQUIRED_EXPONENT_DIGITS) || digit,
    }
}

// Returns whether a byte with the role `role` may follow `part`.
#[inline(always)]
const fn continues(grammar: Grammar, part: Part, stage: Stage, role: Role) -> bool
    ensures { result ≡ continues (steps_of grammar) part stage role }
{
    let digit = has_digit(stage);
    let led = matches!(stage, Stage::Led);
    match (part, role) {
        (Part::Integer, Role::Point) => !grammar.has(NO_FLOAT_LEADING_ZEROS) || !led,
        (Part::Integer, Role::Exponent) => {
            !grammar.has(NO_EXPONENT_NOTATION)
                && (!grammar.has(NO_FLOAT_LEADING_ZEROS) || !led)
                && (!grammar.has(REQUIRED_MANTISSA_DIGITS) || digit)
                && !grammar.has(NO_EXPONENT_WITHOUT_FRACTION)
        }
        (Part::Integer, Role::Suffix) => {
            !needs_exponent(grammar) && digit && (!grammar.has(NO_INTEGER_LEADING_ZEROS) || !led)
        }
        (Part::Fraction, Role::Exponent) => !grammar.has(NO_EXPONENT_NOTATION),
        (Part::Fraction, Role::Suffix) => !needs_exponent(grammar),
        (Part::Exponent, Role::Suffix) => true,
        _ => false,
    }
}

// Returns whether the part that is read may end before a byte with the role `role`.
#[inline(always)]
const fn ends_before(grammar: Grammar, read: Summary, role: Role) -> bool
    ensures { result ≡ (ends (steps_of grammar) (part_of read.stage) read.stage read.gap && continues (steps_of grammar) (part_of read.stage) read.stage role) }
{
    let Summary { stage, gap, .. } = read;
    let part = part_of(stage);
    is_signed(grammar, part, stage)
        && (!gap || is_place(grammar, part, has_digit(stage), false))
        && digits_suffice(grammar, part, stage)
        && continues(grammar, part, stage, role)
}

// Returns whether what has been read is a literal.
#[inline(always)]
pub(crate) const fn is_complete(grammar: Grammar, read: Summary) -> bool
    ensures { result ≡ is_complete (steps_of grammar) read }
{
    (read.ended || ends_before(grammar, read, Role::Suffix))
        && !(grammar.conditions().has(Condition::BasePrefix) && lacks_prefix(read.stage))
        && (!grammar.conditions().has(Condition::BaseSuffix) || read.ended)
}

// Returns whether the base prefix may still follow, or what is left of it.
#[inline(always)]
const fn lacks_prefix(stage: Stage) -> bool
    ensures { result ≡ lacks_prefix stage }
{
    matches!(stage, Stage::Start | Stage::Empty | Stage::Bare)
}

// Returns whether a byte with the role `role`, the digit 0 if `zero` is true, is the sign before a base prefix, or one of its
// own bytes.
#[inline(always)]
const fn leads_to_prefix(stage: Stage, zero: bool, role: Role) -> bool
    ensures { result ≡ leads_to_prefix stage zero role }
{
    match (stage, role) {
        (Stage::Bare, role) => matches!(role, Role::Prefix),
        (_, Role::Sign) => true,
        (_, Role::Digit) => zero,
        _ => false,
    }
}

// Returns whether a byte with the role `role`, which is a plus sign if `plus` is true, is a minus sign of the mantissa.
#[inline(always)]
const fn is_negative(part: Part, plus: bool, role: Role) -> bool
    ensures { result ≡ is_negative part plus role }
{
    matches!(role, Role::Sign) && !matches!(part, Part::Exponent) && !plus
}

// Returns whether a byte with the role `role` is a sign, or a digit that fits if `fits` is true.
#[inline(always)]
const fn leads(fits: bool, role: Role) -> bool
    ensures { result ≡ leads fits role }
{
    match role {
        Role::Sign => true,
        Role::Digit => fits,
        _ => false,
    }
}

// Returns whether the conditions let `byte` follow, which has the role `role`.
#[inline(always)]
pub(crate) const fn admits(conditions: Conditions, read: Summary, byte: u8, role: Role) -> bool
    ensures { result ≡ admits (has conditions) read byte role }
{
    conditions.is_none() || some_admit(conditions, read, byte, role)
}

// Returns whether the conditions, if there are any, let `byte` follow, which has the role `role`. It is not inlined, so that steps
// without conditions take no longer.
#[cold]
const fn some_admit(conditions: Conditions, read: Summary, byte: u8, role: Role) -> bool
    ensures { result ≡ admits (has conditions) read byte role }
{
    let zero = byte == b'0';
    let needs_prefix = conditions.has(Condition::BasePrefix) && lacks_prefix(read.stage);
    let first = awaits_integer(read.stage);
    let needs_zero = conditions.has(Condition::LeadingZero) && first;
    let needs_decimal = conditions.has(Condition::DecimalFirstDigit) && first;
    (!needs_prefix || leads_to_prefix(read.stage, zero, role))
        && !(conditions.has(Condition::NegativeSign)
            && is_negative(part_of(read.stage), byte == b'+', role))
        && (!needs_zero || leads(zero, role))
        && (!needs_decimal || leads(byte <= b'9', role))
}

// Returns whether some literal goes on with a byte that has the role `role`, and is a plus sign if `plus` is true.
#[inline(always)]
pub(crate) const fn takes(grammar: Grammar, read: Summary, plus: bool, role: Role) -> bool
    ensures { result ≡ takes (steps_of grammar) read plus role }
{
    let Summary { stage, .. } = read;
    let part = part_of(stage);
    let digit = has_digit(stage);
    match role {
        Role::Digit => {
            is_signed(grammar, part, stage)
                && (!read.gap || is_place(grammar, part, digit, true))
                && may_follow(grammar, stage)
        }
        Role::Separator => {
            is_signed(grammar, part, stage)
                && (!read.gap || allows_consecutive(grammar, part))
                && ((is_place(grammar, part, digit, true) && may_follow(grammar, stage))
                    || is_place(grammar, part, digit, false))
        }
        Role::Sign => {
            matches!(stage, Stage::Start | Stage::Mark) && (!plus || allows_plus(grammar, part))
        }
        Role::Prefix => matches!(stage, Stage::Bare),
        _ => ends_before(grammar, read, role),
    }
}

// Returns the stage behind a decimal point.
#[inline(always)]
pub(crate) const fn after_point(integer: Stage) -> Stage
    ensures { result ≡ after_point (has_digit integer) }
{
    if has_digit(integer) {
        Stage::Point
    } else {
        Stage::Lone
    }
}

// Returns the summary after a byte that has the role `role`, and is the digit 0 if `zero` is true.
#[inline(always)]
pub(crate) const fn after(read: Summary, zero: bool, role: Role) -> Summary
    ensures { result ≡ after read zero role }
{
    let stage = match (role, read.stage) {
        (Role::Digit, Stage::Start | Stage::Empty) if zero && read.gap => Stage::Zero,
        (Role::Digit, Stage::Start | Stage::Empty) if zero => Stage::Bare,
        (Role::Digit, Stage::Bare | Stage::Zero | Stage::Led) => Stage::Led,
        (Role::Digit, stage) => digits_of(part_of(stage)),
        (Role::Separator | Role::Sign, Stage::Start) => Stage::Empty,
        (Role::Separator | Role::Sign, Stage::Mark) => Stage::Signed,
        (Role::Separator | Role::Sign, Stage::Bare) => Stage::Zero,
        (Role::Separator | Role::Sign | Role::Suffix, stage) => stage,
        (Role::Prefix, _) => Stage::Prefixed,
        (Role::Point, stage) => after_point(stage),
        (Role::Exponent, _) => Stage::Mark,
    };
    let gap = match role {
        Role::Separator => true,
        Role::Sign | Role::Suffix => read.gap,
        _ => false,
    };
    Summary {
        stage,
        gap,
        ended: read.ended || matches!(role, Role::Suffix),
    }
}

// Returns the role of `byte` after a front that ends in `part`, where digits are those of the radix of `part`.
#[inline(always)]
pub const fn role_at(grammar: Grammar, part: Part, byte: u8) -> Option<Role>
    ensures { result ≡ role_at (steps_of grammar) part byte }
{
    if is_digit(grammar, part, byte) {
        Some(Role::Digit)
    } else if is_separator(grammar, byte) {
        Some(Role::Separator)
    } else if is_point(grammar, byte) {
        Some(Role::Point)
    } else if is_exponent_character(grammar, byte) {
        Some(Role::Exponent)
    } else if is_suffix(grammar, byte) {
        Some(Role::Suffix)
    } else if matches!(byte, b'+' | b'-') {
        Some(Role::Sign)
    } else if is_prefix(grammar, byte) {
        Some(Role::Prefix)
    } else {
        None
    }
}

// Returns the role of `byte`, and what it makes of what has been read, or `None` if no literal begins so.
#[inline(always)]
pub(crate) const fn step(grammar: Grammar, read: Summary, byte: u8) -> Option<(Role, Summary)>
    ensures none { IsNone result → step (steps_of grammar) read byte ≡ None }
    ensures some { IfSome result (λ next. (role_at (steps_of grammar) (part_of read.stage) byte ≡ Some next.0)
        × (step (steps_of grammar) read byte ≡ Some next.1)) }
{
    let Some(role) = role_at(grammar, part_of(read.stage), byte) else {
        return None;
    };
    match step_as(grammar, read, byte, role) {
        None => None,
        Some(read) => Some((role, read)),
    }
}

// Returns what `byte` makes of what has been read if it has the role `role`, or `None` if no literal begins so.
#[inline(always)]
pub(crate) const fn step_as(
    grammar: Grammar,
    read: Summary,
    byte: u8,
    role: Role,
) -> Option<Summary>
    ensures { result ≡ move_by (has grammar.conditions) (steps_of grammar) read byte (Some role) }
{
    if !read.ended
        && takes(grammar, read, byte == b'+', role)
        && admits(grammar.conditions(), read, byte, role)
    {
        Some(after(read, byte == b'0', role))
    } else {
        None
    }
}
