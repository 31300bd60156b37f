//! Literals that were read, their parts, and the numbers that their digits represent.

ghost use Rattle.std.specs.Prelude.{◌≡◌, ◌≤◌, ◌++◌, ◌%◌, ◌^◌, [], ℕ, IfSome, IsFalse, IsSome, List, length, take};
ghost use Rattle.lexical_literal.specs.Additions.Literal.{AreSums, IsCut, IsSum, cut, given, summed_in};
ghost use Rattle.lexical_literal.specs.Additions.Step.{HasLengths, cuts_of};
ghost use Rattle.lexical_literal.specs.Read.{exact};
ghost use Rattle.lexical_literal.specs.Literal.{Literal as Parted, Reads, is_float, is_minus, text_of};
ghost use Rattle.lexical_literal.specs.Notation.{Notation, notation_of};
ghost use Rattle.lexical_literal.specs.Parts.{literal_of};
ghost use Rattle.lexical_literal.specs.Read.{exponent, mantissa};
ghost use Rattle.lexical_literal.specs.Syntax.{IsSyntax};
ghost use Rattle.lexical_literal.specs.declared.syntax.Grammar.{Grammar};
ghost use Rattle.lexical_number.specs.Number.{number, places};
ghost use Rattle.lexical_number.specs.Small.{IsShort, IsSmall};
ghost use Rattle.lexical_util.specs.Layout as layout;
ghost use Rattle.lexical_util.specs.Record.{bytes_of, effective, raw};
ghost use Rattle.lexical_util.specs.Rules.{IsRadix};

use crate::kind::Kind;
use crate::step::radix_of;
use crate::syntax::{Grammar, Syntax};
use lexical_number::small::{add_all, count, fits, is_small};
use lexical_util::format::{NumberFormat, Part};
use std::marker::Model;

/// The parts of a literal, in the order of the text. An absent part has no bytes.
#[derive(Debug, Clone, Copy, PartialEq, Eq, Hash)]
pub struct Parts<'a> {
    /// The sign, `+` or `-`.
    pub sign: &'a [u8],
    /// The base prefix, with the zero before it.
    pub prefix: &'a [u8],
    /// The integer digits, with their separators.
    pub integer: &'a [u8],
    /// The decimal point.
    pub point: &'a [u8],
    /// The fraction digits, with their separators.
    pub fraction: &'a [u8],
    /// The exponent character.
    pub exponent_character: &'a [u8],
    /// The sign of the exponent, `+` or `-`.
    pub exponent_sign: &'a [u8],
    /// The exponent digits, with their separators.
    pub exponent: &'a [u8],
    /// The base suffix.
    pub suffix: &'a [u8],
}

// The number of digits, and the number that they represent, modulo `2 ^ 64`.
#[derive(Clone, Copy)]
#[doc(hidden)]
pub struct Sum {
    pub(crate) digits: usize,
    pub(crate) value: u64,
}

// The sums of the digits of a literal: of those of the integer and the fraction together, and of those of the exponent. There are
// `places` digits of the fraction.
#[derive(Clone, Copy)]
#[doc(hidden)]
pub struct Sums {
    pub(crate) mantissa: Sum,
    pub(crate) places: usize,
    pub(crate) exponent: Sum,
}

// The sum of no digits.
pub(crate) const NOTHING: Sum = Sum {
    digits: 0,
    value: 0,
};

/// A text that was read as a literal: its parts, and the numbers that its digits represent.
#[derive(Drop)]
pub struct Literal<'a> {
    text: &'a [u8],
    counts: [usize; 9],
    word: u128,
    // The numbers of the mantissa and the exponent, if there are few digits. Two `Option`s would have 14 bytes more.
    mantissa: u64,
    exponent: u64,
    has_mantissa: bool,
    has_exponent: bool,
    places: usize,
    // The number of bytes of the opening before the literal, from which its spans count.
    pub(crate) opened: u8,
    kind: Kind,
}

impl<'a> Model for Literal<'a> {
    ghost use Rattle.lexical_literal.specs.Read.{Read};

    ghost Value = { Read };

    ghost use Rattle.lexical_literal.specs.Additions.Literal.{IsMade, cut, given};
    ghost use Rattle.lexical_literal.specs.Additions.Step.{HasLengths, cuts_of};

    ghost view = { λ it. record { format = it.word; literal = cut it.text.now (cuts_of it.counts); kind = it.kind; opened = it.opened } };

    ghost invariant = { λ it. IsMade it.word it.text.now (cuts_of it.counts) (given it.has_mantissa it.mantissa) it.places
        (given it.has_exponent it.exponent) };
}

impl<'a> Literal<'a> {
    /// Returns the format by which the literal was read.
    #[must_use]
    #[inline(always)]
    pub const fn format(&self) -> NumberFormat
        ensures { result ≡ self.now.format }
    {
        NumberFormat::new(self.word)
    }

    /// Returns the kind, which decides what the literal is worth.
    #[must_use]
    #[inline(always)]
    pub const fn kind(&self) -> Kind
        ensures { result ≡ self.now.kind }
    {
        self.kind
    }

    /// Returns the same literal with another kind. A [`Syntax`] reads literals of the kind [`Kind::EXACT`].
    #[must_use]
    #[inline(always)]
    pub const fn with_kind(self, kind: Kind) -> Literal<'a>
        ensures format { result.format ≡ self.entry.format }
        ensures literal { result.literal ≡ self.entry.literal }
        ensures kind { result.kind ≡ kind }
        ensures opened { result.opened ≡ self.entry.opened }
    {
        Literal { kind, ..self }
    }

    // Returns the same literal behind an opening of `opened` bytes.
    #[doc(hidden)]
    #[must_use]
    #[inline(always)]
    pub const fn behind(self, opened: u8) -> Literal<'a>
        ensures format { result.format ≡ self.entry.format }
        ensures literal { result.literal ≡ self.entry.literal }
        ensures kind { result.kind ≡ self.entry.kind }
        ensures opened { result.opened ≡ opened }
    {
        Literal { opened, ..self }
    }

    /// Returns the parts.
    #[must_use]
    #[inline(always)]
    pub fn cut(&self) -> Parts<'a>
        ensures parts { literal_of result ≡ self.now.literal }
        // They are those of a literal of a syntax with this format.
        ensures literal { (g : Grammar) × IsSyntax g × (g.word ≡ self.now.format) × (text : List ℕ) × Reads (notation_of g) self.now.literal text }
    {
        parts_of(self.text, self.counts)
    }

    /// Returns whether the sign is `-`.
    #[must_use]
    #[inline(always)]
    #[tactic(auto, using(crate::proofs::MadeLemmas::minus))]
    pub const fn is_negative(&self) -> bool
        ensures { result ≡ is_minus self.now.literal.sign }
    {
        self.counts[0] != 0 && is_minus(self.text)
    }

    /// Returns whether the literal is a float: whether it has a decimal point or an exponent character.
    #[must_use]
    #[inline(always)]
    pub const fn is_float(&self) -> bool
        ensures value { result ≡ is_float self.now.literal }
        ensures fraction { IsFalse result → self.now.literal.fraction ≡ [] }
        ensures exponent { IsFalse result → self.now.literal.exponent ≡ [] }
    {
        self.counts[3] != 0 || self.counts[5] != 0
    }

    /// Returns whether the sign of the exponent is `-`.
    #[must_use]
    #[inline(always)]
    #[tactic(auto, using(crate::proofs::MadeLemmas::minus))]
    pub fn has_negative_exponent(&self) -> bool
        ensures { result ≡ is_minus self.now.literal.exponent_sign }
    {
        let [
            sign,
            prefix,
            integer,
            point,
            fraction,
            character,
            exponent_sign,
            ..
        ] = self.counts;
        exponent_sign != 0
            && is_minus(
                self.text
                    .split_at(sign + prefix + integer + point + fraction + character)
                    .1,
            )
    }

    /// Returns the number that the digits of the integer and the fraction represent together, if they are so few behind their
    /// leading zeros that each number of so many digits is below `2 ^ 64`: 19 in radix 10, and 16 in radix 16.
    #[must_use]
    #[inline(always)]
    pub const fn mantissa(&self) -> Option<u64>
        ensures some { IsShort (bytes_of self.now.format layout.mantissa_radix) (mantissa (bytes_of self.now.format) self.now.literal)
            → IsSome result }
        ensures value { IfSome result (λ m. m ≡ mantissa (bytes_of self.now.format) self.now.literal) }
    {
        given(self.has_mantissa, self.mantissa)
    }

    /// Returns the number of digits of the fraction.
    #[must_use]
    #[inline(always)]
    pub const fn places(&self) -> usize
        ensures { result ≡ places (bytes_of self.now.format layout.mantissa_radix) self.now.literal.fraction }
    {
        self.places
    }

    /// Returns the number that the digits of the exponent represent, if they are so few, as [`mantissa`][Self::mantissa] does.
    #[must_use]
    #[inline(always)]
    pub const fn scale(&self) -> Option<u64>
        ensures some { IsShort (effective (bytes_of self.now.format layout.exponent_radix) (bytes_of self.now.format layout.mantissa_radix))
            (exponent (bytes_of self.now.format) self.now.literal) → IsSome result }
        ensures value { IfSome result (λ e. e ≡ exponent (bytes_of self.now.format) self.now.literal) }
    {
        given(self.has_exponent, self.exponent)
    }
}

#[doc(hidden)]
impl Grammar {
    // Returns the literal `text` of a kind, of which the parts have the lengths `counts`, and the digits these sums.
    #[inline(always)]
    pub fn literal<'a>(
        self,
        text: &'a [u8],
        counts: [usize; 9],
        sums: Sums,
        kind: Kind,
    ) -> Literal<'a>
        requires syntax { IsSyntax self }
        requires cut { IsCut (notation_of self) text.now (cuts_of counts) }
        requires sums { AreSums (raw self.word) (cut text.now (cuts_of counts)) sums }
        ensures { result ≡ record { format = self.word; literal = cut text.now (cuts_of counts); kind = kind; opened = 0 } }
    {
        let Sums {
            mantissa,
            places,
            exponent,
        } = sums;
        Literal {
            text,
            counts,
            word: self.word(),
            mantissa: mantissa.value,
            exponent: exponent.value,
            has_mantissa: are_few(
                radix_of(self, Part::Integer),
                text,
                counts,
                Part::Integer,
                mantissa,
            ),
            has_exponent: are_few(
                radix_of(self, Part::Exponent),
                text,
                counts,
                Part::Exponent,
                exponent,
            ),
            places,
            opened: 0,
            kind,
        }
    }
}

#[doc(hidden)]
impl Syntax {
    // Returns the literal `text`, of which the parts have the lengths `counts`.
    #[cold]
    pub fn summed<'a>(&self, text: &'a [u8], counts: [usize; 9]) -> Literal<'a>
        requires { IsCut (notation_of self.now) text.now (cuts_of counts) }
        ensures { result ≡ record { format = self.now.word; literal = cut text.now (cuts_of counts); kind = exact; opened = 0 } }
    {
        let grammar = self.grammar();
        let sums = sums_of(
            radix_of(grammar, Part::Integer),
            radix_of(grammar, Part::Exponent),
            &parts_of(text, counts),
        );
        grammar.literal(text, counts, sums, Kind::EXACT)
    }
}

// Returns `number` if `has` is true.
#[inline(always)]
const fn given(has: bool, number: u64) -> Option<u64>
    ensures { result ≡ given has number }
{
    if has { Some(number) } else { None }
}

// Returns whether a sign is a minus sign.
#[inline(always)]
const fn is_minus(sign: &[u8]) -> bool
    ensures { result ≡ is_minus sign.now }
{
    matches!(sign, [b'-', ..])
}

// Splits off the first `size` bytes.
#[inline(always)]
fn split_front<'a>(text: &'a [u8], size: usize) -> (&'a [u8], &'a [u8])
    requires { (x : List ℕ) × (rest : List ℕ) × (text.now ≡ x ++ rest) × (length x ≡ size) }
    ensures { (x rest : List ℕ) → text.now ≡ x ++ rest → length x ≡ size
        → (result.0.now ≡ x) × (result.1.now ≡ rest) }
{
    text.split_at(size)
}

// Returns the parts of `text`, which have the lengths `counts`.
#[inline(always)]
fn parts_of<'a>(text: &'a [u8], counts: [usize; 9]) -> Parts<'a>
    requires { (l : Parted) × (text.now ≡ text_of l) × HasLengths l (cuts_of counts) }
    ensures { (l : Parted) → text.now ≡ text_of l → HasLengths l (cuts_of counts) → literal_of result ≡ l }
{
    let (sign, after_sign) = split_front(text, counts[0]);
    let (prefix, after_prefix) = split_front(after_sign, counts[1]);
    let (integer, after_integer) = split_front(after_prefix, counts[2]);
    let (point, after_point) = split_front(after_integer, counts[3]);
    let (fraction, after_fraction) = split_front(after_point, counts[4]);
    let (exponent_character, after_character) = split_front(after_fraction, counts[5]);
    let (exponent_sign, after_exponent_sign) = split_front(after_character, counts[6]);
    let (exponent, suffix) = split_front(after_exponent_sign, counts[7]);
    Parts {
        sign,
        prefix,
        integer,
        point,
        fraction,
        exponent_character,
        exponent_sign,
        exponent,
        suffix,
    }
}

// Returns the sums of the digits of `parts`.
fn sums_of(radix: u32, exponent_radix: u32, parts: &Parts) -> Sums
    ensures mantissa { IsSum radix (parts.now.integer.now ++ parts.now.fraction.now) result.mantissa }
    ensures places { result.places ≡ places radix parts.now.fraction.now }
    ensures exponent { IsSum exponent_radix parts.now.exponent.now result.exponent }
{
    let places = count(parts.fraction, radix);
    Sums {
        mantissa: Sum {
            digits: count(parts.integer, radix) + places,
            value: add_all(add_all(0, parts.integer, radix), parts.fraction, radix),
        },
        places,
        exponent: Sum {
            digits: count(parts.exponent, exponent_radix),
            value: add_all(0, parts.exponent, exponent_radix),
        },
    }
}

// Returns whether the digits of the exponent, or else of the integer and the fraction together, are so few behind their leading zeros that
// their sum is the number.
#[inline(always)]
fn are_few(radix: u32, text: &[u8], counts: [usize; 9], part: Part, sum: Sum) -> bool
    requires radix { IsRadix radix }
    requires cut { (m : Notation) × IsCut m text.now (cuts_of counts) }
    requires sum { IsSum radix (summed_in part (cut text.now (cuts_of counts))) sum }
    ensures { IsSmall radix (number radix (summed_in part (cut text.now (cuts_of counts)))) (given result sum.value) }
{
    if fits(radix, sum.digits) {
        return true;
    }
    let parts = parts_of(text, counts);
    match part {
        Part::Exponent => is_small(radix, parts.exponent, &[], sum.digits),
        _ => is_small(radix, parts.integer, parts.fraction, sum.digits),
    }
}
