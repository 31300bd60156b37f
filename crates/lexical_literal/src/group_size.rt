//! Sizes of digit groups: how many digits are between the separators of an integer, and which bytes may follow.

ghost use Rattle.std.specs.Prelude.{◌≡◌, ◌<◌, ◌≤◌, ◌^◌, Some, length, take};
ghost use Rattle.lexical_literal.specs.Additions.GroupSize.{first_group, group_allows, follows, group_after, grow, grown, has_size, most};
ghost use Rattle.lexical_literal.specs.Groups.{higher, is_grouped};
ghost use Rattle.lexical_literal.specs.Notation.{notation_of};

use crate::step::{is_separator, role_at};
use crate::syntax::{Condition, Grammar, has_sizes};
use lexical_util::format::{Part, Role};

// The group of digits that is being read: its part, whether a separator is before it, and the number of its digits.
#[derive(Debug, Clone, Copy, PartialEq, Eq, Hash)]
pub struct Group {
    pub(crate) part: Part,
    pub(crate) separated: bool,
    pub(crate) digits: usize,
}

// The group before any byte.
pub(crate) const FIRST: Group = Group {
    part: Part::Integer,
    separated: false,
    digits: 0,
};

// Returns whether the condition on groups is on those of `part`.
pub(crate) const fn has_size(grammar: Grammar, part: Part) -> bool
    ensures { result ≡ has_size (notation_of grammar) part }
{
    matches!(part, Part::Integer) && has_sizes(grammar)
}

// Returns the number of a condition.
const fn size(grammar: Grammar, condition: Condition) -> usize
    ensures { result ≡ (notation_of grammar).number condition }
{
    grammar.conditions().number(condition) as usize
}

// Returns the number of digits of a group before the last one.
const fn higher(grammar: Grammar) -> usize
    ensures { result ≡ higher (notation_of grammar) }
{
    match size(grammar, Condition::HigherGroupSize) {
        0 => size(grammar, Condition::IntegerGroupSize),
        higher => higher,
    }
}

// Returns the number of digits that a group behind a separator has at most.
const fn most(grammar: Grammar) -> usize
    ensures { result ≡ most (notation_of grammar) }
{
    let (higher, last) = (higher(grammar), size(grammar, Condition::IntegerGroupSize));
    if higher < last { last } else { higher }
}

// Returns whether a byte with the role `role` may follow `group`, of an integer whose groups have sizes. If it has no role, or none
// follows, the integer ends.
pub(crate) const fn follows(grammar: Grammar, group: Group, role: Option<Role>) -> bool
    ensures { result ≡ follows (notation_of grammar) group role }
{
    let Group {
        separated,
        digits,
        ..
    } = group;
    match role {
        Some(Role::Digit) => !separated || digits < most(grammar),
        Some(Role::Separator) if separated => digits == higher(grammar),
        Some(Role::Separator) => 0 < digits && digits <= higher(grammar),
        _ => !separated || digits == size(grammar, Condition::IntegerGroupSize),
    }
}

// Returns whether a byte with the role `role` may follow `group`.
pub(crate) const fn group_allows(grammar: Grammar, group: Group, role: Option<Role>) -> bool
    ensures { result ≡ group_allows (notation_of grammar) group role }
{
    !has_size(grammar, group.part) || follows(grammar, group, role)
}

// Returns the group after a byte with the role `role`.
const fn grown(group: Group, role: Option<Role>) -> Group
    requires { group.digits < 2 ^ 63 }
    ensures { result ≡ grown group role }
{
    let part = match role {
        Some(Role::Point) => Part::Fraction,
        Some(Role::Exponent) => Part::Exponent,
        _ => group.part,
    };
    match role {
        Some(Role::Digit) => Group {
            digits: group.digits + 1,
            ..group
        },
        _ => Group {
            part,
            separated: matches!(role, Some(Role::Separator)),
            digits: 0,
        },
    }
}

// Returns the group after a byte with the role `role`, or `None` if it may not follow. Without sizes, it stays the same.
#[inline(always)]
pub(crate) const fn grow(grammar: Grammar, group: Group, role: Option<Role>) -> Option<Group>
    requires { group.digits < 2 ^ 63 }
    ensures { result ≡ grow (notation_of grammar) group role }
{
    if !has_sizes(grammar) {
        Some(group)
    } else if group_allows(grammar, group, role) {
        Some(grown(group, role))
    } else {
        None
    }
}

// Returns whether `run`, of an integer, has no separators, or has them between groups of the right sizes.
#[tactic(auto, using(crate::proofs::GroupLemmas::counts_first, crate::proofs::GroupLemmas::counts_end))]
#[inline(always)]
pub(crate) const fn is_grouped(grammar: Grammar, run: &[u8]) -> bool
    ensures { result ≡ is_grouped (notation_of grammar) run.now }
{
    let mut group = FIRST;
    let mut rest = run;
    while let [byte, more @ ..] = rest {
        if !is_separator(grammar, *byte) {
            group = grown(group, Some(Role::Digit));
        } else if follows(grammar, group, Some(Role::Separator)) {
            group = grown(group, Some(Role::Separator));
        } else {
            return false;
        }
        rest = more;
    }
    follows(grammar, group, None)
}

// Returns the group after the first `size` bytes of `text`, or `None` if one of them may not follow.
#[tactic(auto, using(crate::proofs::SizeLemmas::group_none, crate::proofs::SizeLemmas::group_step))]
#[cold]
pub(crate) const fn group_after(grammar: Grammar, text: &[u8], size: usize) -> Option<Group>
    requires { size ≤ length text.now }
    ensures { result ≡ group_after (notation_of grammar) (Some first_group) (take size text.now) }
{
    let mut group = FIRST;
    let mut index = 0;
    while index < size {
        let role = role_at(grammar, group.part, text[index]);
        let Some(next) = grow(grammar, group, role) else {
            return None;
        };
        group = next;
        index += 1;
    }
    Some(group)
}
