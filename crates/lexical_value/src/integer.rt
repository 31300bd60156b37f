//! The value of a literal as a value of an integer type.

ghost use Rattle.std.specs.Prelude.{◌≡◌, ◌↔◌, ◌-◌, ◌%◌, ◌^◌, ◌<◌, ◌≤◌, ℕ, if◌then◌else◌, [], IfSome, IsFalse, IsNone, IsTrue, MatchResult, Some};
ghost use Rattle.std.specs.Prelude.{MatchOption, false, option_map, true};
ghost use Rattle.std.specs.Option.{IsSome};
ghost use Rattle.lexical_util.specs.Record.{bytes_of};
ghost use Rattle.lexical_literal.specs.Literal.{is_float, is_minus};
ghost use Rattle.lexical_number.specs.Numeral.{size_of};
ghost use Rattle.lexical_number.specs.declared.numeral.Numeral.{Numeral};
ghost use Rattle.lexical_value.specs.Integer.{integer_size};
ghost use Rattle.lexical_value.specs.Kind.{IsNotWorth, IsWorth, integer_worth, is_exact, width, worth, wrapped};
ghost use Rattle.lexical_value.specs.Private.{is_word};
ghost use Rattle.lexical_value.specs.declared.integer.ValueErrorKind.TheVariants as kinds;

use lexical_literal::kind::IntegerKind;
use lexical_literal::literal::Literal;
use lexical_number::integer::Integer;
use lexical_number::numeral::{Magnitude, Numeral};

/// Why a number has no value in a type.
#[derive(Debug, Clone, Copy, PartialEq, Eq, Hash)]
pub enum ValueErrorKind {
    /// The type is an integer type, and the literal has a decimal point or an exponent, even if its value is whole.
    Float,
    /// The value is above the largest value of the type.
    TooLarge,
    /// The value is below the least value of the type.
    TooSmall,
    /// The value is 0, and the type has each integer but 0.
    Zero,
    /// The type is a float type, and the value, which is not 0, is so near to it that it is rounded to 0, which is an error by its kind.
    Vanishes,
    /// The type is a float type, or a float is to be scaled, and the mantissa radix and the exponent base of the format are
    /// neither both 10 nor both powers of two.
    UnsupportedRadix,
    /// The type is an integer type, and the number is NaN or infinity, which no literal is.
    Special,
    /// The value times a power of ten, which is to be an integer, is not whole.
    NotWhole,
    /// The value times a power of ten is to be an integer of 128 bits, and the number has too many digits: more than 27, or 90 bits.
    TooLong,
}

impl ValueErrorKind {
    // Returns the error of a value that is out of range.
    pub(crate) const fn out_of_range(negative: bool) -> ValueErrorKind
        ensures { result ≡ (if negative then kinds.TooSmall else kinds.TooLarge) }
    {
        if negative {
            ValueErrorKind::TooSmall
        } else {
            ValueErrorKind::TooLarge
        }
    }
}

/// Returns the value of a literal by its kind as a value of an integer type. The value of `-0` is 0.
///
/// # Errors
///
/// If the literal has a decimal point or an exponent, if it is too large for its kind, or if its value is not in the range of
/// the type, returns which.
#[inline(always)]
pub fn to_integer<T: Integer>(literal: &Literal) -> Result<T, ValueErrorKind>
    ensures { MatchResult result (λ value. IsWorth literal.now.kind.integers (bytes_of literal.now.format) literal.now.literal (T.range.value value))
        (IsNotWorth literal.now.kind.integers T.range.least T.range.largest (bytes_of literal.now.format) literal.now.literal) }
{
    match own_numeral(literal) {
        Err(error) => Err(error),
        Ok(numeral) => match T::from_numeral(&numeral) {
            Some(value) => Ok(value),
            None => Err(ValueErrorKind::out_of_range(numeral.negative)),
        },
    }
}

/// Returns the sign and the number of what an integer is worth by its kind, or why it is worth none.
///
/// # Errors
///
/// If the literal has a decimal point or an exponent, or if it is too large for its kind, returns which.
#[inline(always)]
pub fn own_numeral<'a>(literal: &Literal<'a>) -> Result<Numeral<'a>, ValueErrorKind>
    ensures { MatchResult result (λ own. IsFalse (is_float literal.now.literal)
        × (integer_worth literal.now.kind.integers (bytes_of literal.now.format) literal.now.literal ≡ Some (own.negative, size_of own)))
        (λ error. (least largest : ℕ) → IsNotWorth literal.now.kind.integers least largest (bytes_of literal.now.format) literal.now.literal error) }
{
    let Some(numeral) = integer_numeral(literal) else {
        return Err(ValueErrorKind::Float);
    };
    let kind = literal.kind().integers();
    if keeps(kind, &numeral) {
        return Ok(numeral);
    }
    match fewer(kind, &numeral) {
        Some(own) => Ok(own),
        None => Err(ValueErrorKind::out_of_range(numeral.negative)),
    }
}

/// Returns the sign and the number of a literal, or `None` if it has a decimal point or an exponent.
#[inline(always)]
pub fn integer_numeral<'a>(literal: &Literal<'a>) -> Option<Numeral<'a>>
    ensures float { IsTrue (is_float literal.now.literal) ↔ IsNone result }
    ensures negative { IfSome result (λ numeral. numeral.negative ≡ is_minus literal.now.literal.sign) }
    ensures size { IfSome result (λ numeral. size_of numeral ≡ integer_size (bytes_of literal.now.format) literal.now.literal) }
    ensures exponent { IfSome result (λ numeral. literal.now.literal.exponent ≡ []) }
    ensures fraction { IfSome result (λ numeral. literal.now.literal.fraction ≡ []) }
{
    if literal.is_float() {
        return None;
    }
    let magnitude = match literal.mantissa() {
        Some(size) => Magnitude::Word(size),
        None => Magnitude::Digits(literal.cut().integer, literal.format().mantissa_radix()),
    };
    Some(Numeral {
        negative: literal.is_negative(),
        magnitude,
    })
}

// Returns whether integers are the number that their digits represent.
#[inline(always)]
pub(crate) const fn is_exact(kind: IntegerKind) -> bool
    ensures { result ≡ is_exact kind }
{
    matches!(kind, IntegerKind::Exact)
}

// Returns whether an integer is known to be worth the number that its digits represent: one of fewer bits, and with a sign that its kind has.
#[inline(always)]
#[tactic(auto, using(crate::proofs::KindLemmas::modulo_keeps, crate::proofs::KindLemmas::signed_keeps, crate::proofs::KindLemmas::unsigned_keeps, crate::proofs::KindLemmas::wraps_keeps))]
pub(crate) const fn keeps(kind: IntegerKind, numeral: &Numeral) -> bool
    ensures { IsTrue result → worth kind numeral.now.negative (size_of numeral.now) ≡ Some (numeral.now.negative, size_of numeral.now) }
{
    let bits = match kind {
        IntegerKind::Exact => return true,
        IntegerKind::Signed(bits) => bits,
        IntegerKind::Unsigned(_) if numeral.negative => return false,
        IntegerKind::Unsigned(bits) => bits,
        IntegerKind::Wraps(bits) => bits,
        IntegerKind::WrapsModulo(bits) => bits,
    };
    match numeral.magnitude {
        Magnitude::Word(size) => size < half(bits),
        Magnitude::Digits(_, _) => false,
    }
}

// Returns what an integer is worth by its kind, or `None` if it is too large.
#[cold]
#[inline(never)]
#[tactic(auto, using(crate::proofs::KindLemmas::lowest_bits, crate::proofs::KindLemmas::lowest_worth))]
pub(crate) const fn fewer<'a>(kind: IntegerKind, numeral: &Numeral<'a>) -> Option<Numeral<'a>>
    ensures worth { option_map (λ (own : Numeral). (own.negative, size_of own)) result ≡ worth kind numeral.now.negative (size_of numeral.now) }
    // By digits, it is the number itself.
    ensures digits { IfSome result (λ own. is_word own.magnitude ≡ false
        → (own.negative ≡ numeral.now.negative) × (size_of own ≡ size_of numeral.now)) }
{
    if let Some(most) = limit(kind, numeral.negative) {
        let Some(_) = numeral.wide_size(most, most) else {
            return None;
        };
    }
    match kind {
        IntegerKind::Exact | IntegerKind::Signed(_) | IntegerKind::Unsigned(_) => Some(*numeral),
        IntegerKind::Wraps(bits) | IntegerKind::WrapsModulo(bits) => {
            Some(wrapped(bits, numeral.negative, lowest(bits, numeral.low_bits())))
        }
    }
}

// Returns the largest number that is worth something by a kind, with the sign `-` or without, or `None` if each number is.
pub(crate) const fn limit(kind: IntegerKind, negative: bool) -> Option<u128>
    ensures { (n : ℕ) → MatchOption result (IsSome (worth kind negative n)) (λ most. IsSome (worth kind negative n) ↔ (n ≤ most)) }
{
    match kind {
        IntegerKind::Exact | IntegerKind::WrapsModulo(_) => None,
        IntegerKind::Signed(bits) => {
            let width = if bits < 128 { bits } else { 128 };
            let least = 1 << width.saturating_sub(1);
            Some(if negative { least } else { least - 1 })
        }
        IntegerKind::Unsigned(_) if negative => Some(0),
        IntegerKind::Unsigned(bits) if bits < 128 => Some((1 << bits) - 1),
        IntegerKind::Unsigned(_) => Some(u128::MAX),
        IntegerKind::Wraps(bits) => Some(power(bits) - 1),
    }
}

// Returns `2 ^ bits`. No kind by which numbers wrap has more than 64 bits.
const fn power(bits: u8) -> u128
    ensures value { result ≡ 2 ^ width bits }
    ensures within { result ≤ 2 ^ 64 }
{
    let width = if bits < 64 { bits } else { 64 };
    1 << width
}

// Returns `2 ^ (bits - 1)`.
const fn half(bits: u8) -> u64
    ensures value { result ≡ 2 ^ (width bits - 1) }
    ensures some { 1 ≤ result }
{
    let width = if bits < 64 { bits } else { 64 };
    1 << width.saturating_sub(1)
}

// Returns the number of the lowest `bits` bits of `number`.
const fn lowest(bits: u8, number: u64) -> u64
    ensures { result ≡ number % 2 ^ width bits }
{
    (number as u128 % power(bits)) as u64
}

// Returns an integer of so many bits, one of which is its sign.
const fn wrapped<'a>(bits: u8, negative: bool, size: u64) -> Numeral<'a>
    requires { size < 2 ^ width bits }
    ensures worth { (result.negative, size_of result) ≡ wrapped (width bits) negative size }
    ensures word { is_word result.magnitude ≡ true }
{
    let half = half(bits);
    let most = if negative { half } else { half - 1 };
    if size <= most {
        Numeral {
            negative,
            magnitude: Magnitude::Word(size),
        }
    } else {
        Numeral {
            negative: !negative,
            magnitude: Magnitude::Word((power(bits) - size as u128) as u64),
        }
    }
}
