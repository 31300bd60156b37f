//! What excludes that a text is a literal of a form: its first bytes, or a byte that plays no role in the form.

ghost use Rattle.std.specs.Prelude.{◌≡◌, ◌+◌, ◌<◌, ◌≤◌, ◌==◌, ◌&&◌, ◌∷◌, Bool, IfSome, IsTrue, [], false, length, not};
ghost use Rattle.std.specs.List.{list_any};
ghost use Rattle.lexical_forms.specs.Additions.Forms.{AreFalse, IsExcluded, IsSilent, IsStranger};
ghost use Rattle.lexical_forms.specs.Additions.Forms.{LetsEnd, NoFrontPast, PlaysNoRole, ends_at, is_end};
ghost use Rattle.lexical_forms.specs.Forms.{is_other_prefix, reach, sign_size};
ghost use Rattle.lexical_literal.specs.Cause.{is_in};
ghost use Rattle.lexical_forms.specs.Additions.Token.{has_prefix};
ghost use Rattle.lexical_literal.specs.Additions.Stop.{IsWithin};
ghost use Rattle.lexical_literal.specs.Front.{NoFront};
ghost use Rattle.lexical_util.specs.Roles.{cased, other_case};
ghost use Rattle.lexical_literal.specs.Notation.{notation_of};
ghost use Rattle.lexical_literal.specs.declared.syntax.Condition.TheVariants as conditions;

use crate::form::Form;
use crate::opening::Opening;
use crate::suffix::more_of;
use lexical_literal::step::{is_digit, is_prefix, other_case, role_at};
use lexical_literal::stop::byte_at;
use lexical_literal::syntax::{Condition, Grammar};
use lexical_util::format::Part;

// Returns how far the syntax goes in `text` at most if this is known at once, and `text` is not a literal: the zero or the prefix that is
// required is not there, or a byte plays no role, of the first two behind the sign, or the one at `reach`, which is behind them.
#[inline(always)]
pub(crate) const fn excludes(grammar: Grammar, text: &[u8], reach: usize) -> Option<usize>
    ensures { IfSome result (IsExcluded (notation_of grammar) text.now) }
{
    let sign = sign_size(text);
    if sign < text.len()
        && text[sign] != b'0'
        && (grammar.conditions().has(Condition::BasePrefix)
            || grammar.conditions().has(Condition::LeadingZero)
            || is_silent(grammar, text[sign]))
    {
        Some(sign)
    } else if sign + 1 < text.len() && is_excluded_second(grammar, text[sign + 1]) {
        Some(sign + 1)
    } else if sign + 1 < reach && reach < text.len() && is_stranger(grammar, text[reach]) {
        Some(reach)
    } else {
        None
    }
}

// Returns whether `byte` is not the letter of a required prefix, in either case, or, where none is required, plays no role.
#[inline(always)]
const fn is_excluded_second(grammar: Grammar, byte: u8) -> bool
    ensures letter { IsTrue result → IsTrue ((notation_of grammar).condition conditions.BasePrefix) → AreFalse (notation_of grammar).prefix byte }
    ensures silent { IsTrue result → (notation_of grammar).condition conditions.BasePrefix ≡ false → IsSilent (notation_of grammar) byte }
{
    if grammar.conditions().has(Condition::BasePrefix) {
        is_apart(grammar.prefix, byte, other_case(byte))
    } else {
        is_silent(grammar, byte)
    }
}

// Returns whether `byte` plays no role, and its other case neither. Bytes up to `9` are said to play one: most are digits, and a prefix
// begins with a zero.
#[inline(always)]
const fn is_silent(grammar: Grammar, byte: u8) -> bool
    ensures { IsTrue result → IsSilent (notation_of grammar) byte }
{
    if byte <= b'9' || !is_stranger(grammar, byte) {
        return false;
    }
    is_apart(grammar.prefix, byte, other_case(byte))
}

// Returns whether `byte` plays no role behind the base prefix, and its other case neither.
#[inline(always)]
const fn is_stranger(grammar: Grammar, byte: u8) -> bool
    ensures { IsTrue result → IsStranger (notation_of grammar) byte }
{
    let other = other_case(byte);
    if is_digit(grammar, Part::Integer, byte)
        || is_digit(grammar, Part::Exponent, byte)
        || byte == b'+'
        || byte == b'-'
        || !is_apart(grammar.separator, byte, other)
        || !is_apart(grammar.suffix, byte, other)
        || !is_apart(grammar.exponent, byte, other)
    {
        return false;
    }
    is_apart(grammar.point, byte, other)
}

// Returns whether `byte` is not `own`, and its other case neither.
#[inline(always)]
#[tactic(auto, using(crate::proofs::StrangerLemmas::cased_apart))]
const fn is_apart(own: u8, byte: u8, other: u8) -> bool
    requires { other ≡ other_case byte }
    ensures { IsTrue result → (counts : Bool) → AreFalse (cased counts own) byte }
{
    own != byte && own != other
}

// Returns how far the syntax goes where `size` bytes are right: 1 more if the base prefix in its other case is behind a sign, if any, and a zero.
#[inline(always)]
pub(crate) const fn reach(grammar: Grammar, text: &[u8], size: usize) -> usize
    requires { size ≤ length text.now }
    ensures { result ≡ reach (notation_of grammar) text.now size }
{
    if size == sign_size(text) + 1
        && text[size - 1] == b'0'
        && has_other_prefix(grammar, byte_at(text, size))
    {
        size + 1
    } else {
        size
    }
}

// Returns whether `byte` is the base prefix in its other case alone.
const fn has_other_prefix(grammar: Grammar, byte: Option<u8>) -> bool
    ensures { result ≡ is_in (is_other_prefix (notation_of grammar)) byte }
{
    matches!(byte, Some(byte) if !is_prefix(grammar, byte) && is_prefix(grammar, other_case(byte)))
}

// Returns the length of the sign with which `text` begins.
#[inline(always)]
pub(crate) const fn sign_size(text: &[u8]) -> usize
    ensures size { result ≡ sign_size text.now }
    ensures small { result ≤ 1 }
{
    match text {
        [b'+' | b'-', ..] => 1,
        _ => 0,
    }
}

// Returns whether no front of `text` with more than `size` bytes is a literal: there is not the prefix that is required, or the text ends
// behind them, or a byte follows that plays no role. If they are more than a sign, no literal begins with more.
#[inline(always)]
#[tactic(auto, using(crate::proofs::LeadingLemmas::no_front_past, crate::proofs::LeadingLemmas::within_more))]
pub(crate) const fn lacks_longer(grammar: Grammar, text: &[u8], size: usize) -> bool
    ensures front { IsTrue result → NoFrontPast (notation_of grammar) text.now size }
    ensures past { IsTrue result → sign_size text.now < size → IsWithin (notation_of grammar) text.now size }
{
    has_no_prefix(grammar, text) || is_over(grammar, text, size)
}

// Returns whether the text ends behind the first `size` bytes, or a byte follows that plays no role.
#[inline(always)]
pub(crate) const fn is_over(grammar: Grammar, text: &[u8], size: usize) -> bool
    ensures { IsTrue result → IsWithin (notation_of grammar) text.now size }
{
    match byte_at(text, size) {
        None => true,
        Some(byte) => has_no_role(grammar, byte),
    }
}

// Returns whether `byte` plays no role, and is not the zero of a prefix.
#[inline(always)]
#[tactic(auto, using(crate::proofs::ExcludeLemmas::plays_none))]
const fn has_no_role(grammar: Grammar, byte: u8) -> bool
    ensures { IsTrue result → PlaysNoRole (notation_of grammar) byte }
{
    byte != b'0'
        && matches!(role_at(grammar, Part::Integer, byte), None)
        && !is_digit(grammar, Part::Exponent, byte)
}

// Returns whether there is not the base prefix that is required.
#[inline(always)]
const fn has_no_prefix(grammar: Grammar, text: &[u8]) -> bool
    ensures none { IsTrue result → NoFront (notation_of grammar) text.now }
    ensures within { IsTrue result → IsWithin (notation_of grammar) text.now (sign_size text.now + 1) }
{
    grammar.conditions().has(Condition::BasePrefix) && !has_prefix(grammar, text, sign_size(text))
}

// Returns whether a zero and a base prefix are at `index`.
#[inline(always)]
const fn has_prefix(grammar: Grammar, text: &[u8], index: usize) -> bool
    requires { index ≤ length text.now }
    ensures { result ≡ has_prefix (notation_of grammar) text.now index }
{
    index + 1 < text.len() && text[index] == b'0' && is_prefix(grammar, text[index + 1])
}

// Returns whether `text` ends behind the first `size` bytes, or a byte follows that ends a number.
#[inline(always)]
pub(crate) const fn ends_at(text: &[u8], size: usize) -> bool
    ensures { result ≡ ends_at text.now size }
{
    match byte_at(text, size) {
        None => true,
        Some(byte) => is_end(byte),
    }
}

// Returns whether `byte` ends a number unless a form goes on with it: white space, operators, and what closes or separates.
#[inline(always)]
const fn is_end(byte: u8) -> bool
    ensures { result ≡ is_end byte }
{
    matches!(
        byte,
        9 | 10 | 13 | b' ' | b')' | b'*' | b',' | b'/' | b';' | b'=' | b']' | b'}'
    )
}

// Returns whether the form goes on with no byte that ends a number. Such bytes are neither digits nor signs.
pub(crate) const fn lets_end(form: &Form) -> bool
    ensures { IsTrue result → LetsEnd form.now }
{
    let it = form.syntax.grammar();
    let ends = any_end(it.separator, it.prefix, it.suffix, it.exponent);
    !(ends || is_end(it.point) || has_end(&form.opening) || have_end(more_of(form.suffixes)))
}

// Returns whether an opening that is not empty has a byte that ends a number.
const fn has_end(opening: &Opening) -> bool
    ensures { result ≡ (not (opening.now.size == 0) && list_any is_end opening.now.bytes) }
{
    let [a, b, c, d, e, f, g, h] = opening.bytes;
    opening.size != 0 && (any_end(a, b, c, d) || any_end(e, f, g, h))
}

// Returns whether one of four bytes ends a number.
const fn any_end(a: u8, b: u8, c: u8, d: u8) -> bool
    ensures { result ≡ list_any is_end (a ∷ b ∷ c ∷ d ∷ []) }
{
    is_end(a) || is_end(b) || is_end(c) || is_end(d)
}

// Returns whether one of `bytes` ends a number.
const fn have_end(bytes: &[u8]) -> bool
    ensures { result ≡ list_any is_end bytes.now }
{
    match bytes {
        [] => false,
        [byte, rest @ ..] => is_end(*byte) || have_end(rest),
    }
}

// Returns whether a zero and a letter are behind the sign.
#[inline(always)]
pub(crate) const fn has_letter_behind_zero(text: &[u8]) -> bool {
    let sign = sign_size(text);
    sign + 1 < text.len() && text[sign] == b'0' && text[sign + 1] > b'9'
}
