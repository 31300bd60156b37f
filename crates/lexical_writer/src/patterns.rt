//! The groups in which digits are written.

ghost use Rattle.std.specs.Prelude.{◌≡◌};
ghost use Rattle.lexical_util.specs.Record.{raw};
ghost use Rattle.lexical_writer.specs.Digits.{no_groups};
ghost use Rattle.lexical_writer.specs.Layout.{either, group_size, integer_pattern, pattern_of};

use crate::layout::{Grouping, Style};
use crate::run::Pattern;
use lexical_literal::syntax::{Condition, Conditions};
use lexical_util::format::{NumberFormat, digit_separator};

// Returns the pattern of an integer.
#[inline]
pub(crate) const fn integer_pattern(
    format: NumberFormat,
    conditions: Conditions,
    style: Style,
) -> Pattern
    ensures { result ≡ integer_pattern (raw format) conditions style }
{
    let last = group_size(conditions.number(Condition::IntegerGroupSize), style.group);
    let higher = either(conditions.number(Condition::HigherGroupSize), last);
    let allowed = format.integer_internal_digit_separator();
    pattern_of(format, allowed, last, higher, style.lowercase)
}

// Returns the pattern of digits in groups, unless there are none, or the format does not allow them.
const fn pattern_of(
    format: NumberFormat,
    allowed: bool,
    last: usize,
    higher: usize,
    lowercase: bool,
) -> Pattern
    ensures { result ≡ pattern_of (raw format) allowed last higher lowercase }
{
    let separator = digit_separator(format.word());
    if last == 0 || !allowed || separator == 0 {
        return no_groups(lowercase);
    }
    Pattern {
        last,
        higher,
        separator,
        lowercase,
    }
}

// Returns the pattern of digits without separators.
pub(crate) const fn no_groups(lowercase: bool) -> Pattern
    ensures { result ≡ no_groups lowercase }
{
    Pattern {
        last: 0,
        higher: 0,
        separator: 0,
        lowercase,
    }
}

// Returns how many digits a group has, where a condition requires `size` digits, or 0 for digits without groups.
const fn group_size(size: u8, group: Grouping) -> usize
    ensures { result ≡ group_size size group }
{
    match group {
        Grouping::AsSyntax => size as usize,
        Grouping::None | Grouping::Of(0) => 0,
        Grouping::Of(other) => either(size, other),
    }
}

// Returns the size that a condition requires, or `other` if it requires none.
const fn either(size: u8, other: usize) -> usize
    ensures { result ≡ either size other }
{
    if size == 0 { other } else { size as usize }
}
