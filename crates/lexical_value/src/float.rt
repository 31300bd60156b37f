//! The value of a literal as a value of a float type.

ghost use Rattle.std.specs.Prelude.{ℕ, ◌≡◌, ◌↔◌, ◌≤◌, ◌^◌, ◌==◌, ◌||◌, false, min, not, true, Err, IfErr, IfOk, Ok, IfSome, IsNone};
ghost use Rattle.std.specs.Prelude.{IsOk, IsSome, IsTrue, MatchOption};
ghost use Rattle.std.specs.Float.{Float as Value, Format, NotNan, binary32, float_is_infinite};
ghost use Rattle.std.specs.Float.Ieee.{round};
ghost use Rattle.core.specs.Dec2flt.Rounding.{IsNearestBits};
ghost use Rattle.lexical_util.specs.Layout as layout;
ghost use Rattle.lexical_util.specs.Record.{bytes_of, effective_exponent_base, raw};
ghost use Rattle.lexical_literal.specs.Literal.{is_float, is_minus};
ghost use Rattle.lexical_literal.specs.Read.{exponent, mantissa};
ghost use Rattle.lexical_number.specs.Float.{format_of, is_zero};
ghost use Rattle.lexical_number.specs.Leading.{Leads};
ghost use Rattle.lexical_value.specs.Float.{is_binary, is_decimal, nearest};
ghost use Rattle.lexical_value.specs.Kind.{float_worth, format_by, is_exact, within};
ghost use Rattle.lexical_value.specs.Value.{denominator, numerator};
ghost use Rattle.lexical_value.specs.declared.integer.ValueErrorKind.TheVariants as kinds;

use crate::integer::{ValueErrorKind, fewer, integer_numeral, is_exact, keeps};
use lexical_literal::kind::{FloatKind, FloatLimits, Kind};
use lexical_literal::literal::Literal;
use lexical_number::decimal::{decimal_to_float, digits_to_float};
use lexical_number::float::Float;
use lexical_number::leading::{Leading, push_all, saturating};
use lexical_number::numeral::Magnitude;
use lexical_number::scaling::{bits_of, raised_bits, raised_word};
use lexical_util::format::NumberFormat;

/// Returns the value of a literal by its kind as a value of a float type: rounded once to the nearest float, or to the even one
/// if two are as near. Unless its kind has limits, the value is infinite if it is that large. Its sign is that of the literal, also
/// for 0.
///
/// # Errors
///
/// If the mantissa radix and the exponent base are neither both 10 nor both powers of two, of any literal, or if a number is too
/// large for its kind, or vanishes.
#[inline(always)]
pub fn to_float<F: Float>(literal: &Literal) -> Result<F, ValueErrorKind>
    ensures value { IfOk result (λ value. float_worth literal.now.kind (format_of F.DOUBLE) (bytes_of literal.now.format) literal.now.literal
        ≡ Ok (F.value value)) }
    ensures error { IfErr result (λ error. float_worth literal.now.kind (format_of F.DOUBLE) (bytes_of literal.now.format) literal.now.literal ≡ Err error) }
    ensures no_nan { IfOk result (λ value. NotNan (F.value value)) }
{
    let Some(kind) = nearest_kind(literal) else {
        return whole_float(literal);
    };
    match float_of_kind::<F>(kind.floats(), literal) {
        Ok(value) => match beyond(kind.limits(), value.is_infinite(), value.is_zero(), literal) {
            None => Ok(value),
            Some(error) => Err(error),
        },
        Err(error) => Err(error),
    }
}

// Returns a kind by which a literal is worth the float that it is by its own, and by which it is the nearest one within limits, or `None`
// if it is an integer that may be worth another number than its digits represent.
#[inline(always)]
fn nearest_kind(literal: &Literal) -> Option<Kind>
    ensures some { IfSome result (λ kind. (f : Format) → float_worth kind f (bytes_of literal.now.format) literal.now.literal
        ≡ float_worth literal.now.kind f (bytes_of literal.now.format) literal.now.literal) }
    ensures plain { IfSome result (λ kind. (is_exact kind.integers || is_float literal.now.literal) ≡ true) }
    ensures none { IsNone result → is_exact literal.now.kind.integers ≡ false }
    ensures integer { IsNone result → is_float literal.now.literal ≡ false }
{
    let kind = literal.kind();
    let integers = kind.integers();
    if is_exact(integers) {
        return Some(kind);
    }
    match integer_numeral(literal) {
        None => Some(kind),
        Some(numeral) if keeps(integers, &numeral) => Some(Kind::EXACT),
        Some(_) => None,
    }
}

// Returns the nearest float, or the nearest `f32` if floats are single.
#[inline(always)]
fn float_of_kind<F: Float>(kind: FloatKind, literal: &Literal) -> Result<F, ValueErrorKind>
    ensures supported { IsTrue (is_decimal (bytes_of literal.now.format) || is_binary (bytes_of literal.now.format)) ↔ IsOk result }
    ensures error { IfErr result (λ error. error ≡ kinds.UnsupportedRadix) }
    ensures value { IfOk result (λ value. F.value value ≡ nearest (format_by kind (format_of F.DOUBLE)) (bytes_of literal.now.format) literal.now.literal) }
    ensures no_nan { IfOk result (λ value. NotNan (F.value value)) }
{
    match kind {
        FloatKind::Nearest => nearest_float(literal),
        FloatKind::Single => match nearest_single(literal) {
            Ok(single) => Ok(F::from_single(single)),
            Err(error) => Err(error),
        },
    }
}

// Returns why a literal has no float by these limits, if its nearest one is infinite or 0.
#[inline(always)]
pub(crate) fn beyond(
    limits: FloatLimits,
    infinite: bool,
    zero: bool,
    literal: &Literal,
) -> Option<ValueErrorKind>
    requires { IsTrue (is_decimal (bytes_of literal.now.format) || is_binary (bytes_of literal.now.format)) }
    ensures { (x : Value) → infinite ≡ float_is_infinite x → zero ≡ is_zero x
        → MatchOption result (within limits (is_minus literal.now.literal.sign) (mantissa (bytes_of literal.now.format) literal.now.literal) x ≡ Ok x)
        (λ error. within limits (is_minus literal.now.literal.sign) (mantissa (bytes_of literal.now.format) literal.now.literal) x ≡ Err error) }
{
    match limits {
        FloatLimits::None => None,
        _ if infinite => Some(ValueErrorKind::out_of_range(literal.is_negative())),
        FloatLimits::Both if zero && has_digits(literal) => Some(ValueErrorKind::Vanishes),
        _ => None,
    }
}

// Returns whether a digit of the mantissa is not 0.
#[cold]
fn has_digits(literal: &Literal) -> bool
    requires { IsTrue (is_decimal (bytes_of literal.now.format) || is_binary (bytes_of literal.now.format)) }
    ensures { result ≡ not (mantissa (bytes_of literal.now.format) literal.now.literal == 0) }
{
    leading_of(literal, literal.format().mantissa_radix()).digits != 0
}

// Returns the nearest `f32`, in one copy.
#[cold]
#[inline(never)]
fn nearest_single(literal: &Literal) -> Result<f32, ValueErrorKind>
    ensures supported { IsTrue (is_decimal (bytes_of literal.now.format) || is_binary (bytes_of literal.now.format)) ↔ IsOk result }
    ensures error { IfErr result (λ error. error ≡ kinds.UnsupportedRadix) }
    ensures value { IfOk result (λ value. value ≡ nearest binary32 (bytes_of literal.now.format) literal.now.literal) }
    ensures no_nan { IfOk result (λ value. NotNan value) }
{
    nearest_float(literal)
}

// Returns the float nearest to what an integer of a kind that is not exact is worth.
#[cold]
#[tactic(auto, using(crate::proofs::FloatLemmas::not_nan, crate::proofs::KindLemmas::kept_float))]
fn whole_float<F: Float>(literal: &Literal) -> Result<F, ValueErrorKind>
    requires kind { is_exact literal.now.kind.integers ≡ false }
    requires integer { is_float literal.now.literal ≡ false }
    ensures value { IfOk result (λ value. float_worth literal.now.kind (format_of F.DOUBLE) (bytes_of literal.now.format) literal.now.literal
        ≡ Ok (F.value value)) }
    ensures error { IfErr result (λ error. float_worth literal.now.kind (format_of F.DOUBLE) (bytes_of literal.now.format) literal.now.literal ≡ Err error) }
    ensures no_nan { IfOk result (λ value. NotNan (F.value value)) }
{
    if !supports_floats(literal.format()) {
        return Err(ValueErrorKind::UnsupportedRadix);
    }
    let Some(numeral) = integer_numeral(literal) else {
        unreachable!()
    };
    match fewer(literal.kind().integers(), &numeral) {
        Some(own) => match own.magnitude {
            Magnitude::Word(size) => Ok(signed(digits_to_float(size, 0, false, 0), own.negative)),
            Magnitude::Digits(_, _) => nearest_float(literal),
        },
        None => Err(ValueErrorKind::out_of_range(numeral.negative)),
    }
}

/// Returns the float nearest to the number that a literal represents, whatever its kind is, or to the even one if two are as near.
///
/// # Errors
///
/// If the mantissa radix and the exponent base are neither both 10 nor both powers of two.
#[inline(always)]
#[tactic(auto, using(crate::proofs::FloatLemmas::not_nan))]
pub fn nearest_float<F: Float>(literal: &Literal) -> Result<F, ValueErrorKind>
    ensures supported { IsTrue (is_decimal (bytes_of literal.now.format) || is_binary (bytes_of literal.now.format)) ↔ IsOk result }
    ensures error { IfErr result (λ kind. kind ≡ kinds.UnsupportedRadix) }
    ensures value { IfOk result (λ value. F.value value ≡ nearest (format_of F.DOUBLE) (bytes_of literal.now.format) literal.now.literal) }
    ensures no_nan { IfOk result (λ value. NotNan (F.value value)) }
{
    let size = if has_decimal_floats(literal.format()) {
        decimal_size(literal)
    } else if let Some(bits) = binary_size(F::DOUBLE, literal) {
        F::from_magnitude(bits)
    } else {
        return Err(ValueErrorKind::UnsupportedRadix);
    };
    Ok(signed(size, literal.is_negative()))
}

/// Returns a float, or the same with the sign `-` if `negative` is true.
#[must_use]
#[inline(always)]
pub fn signed<F: Float>(size: F, negative: bool) -> F
    ensures { (num den : ℕ) → F.value size ≡ round (format_of F.DOUBLE) false num den
        → F.value result ≡ round (format_of F.DOUBLE) negative num den }
{
    if negative { size.negated() } else { size }
}

/// Returns whether a literal of `format` has a value of a float type: whether the mantissa radix and the exponent base are
/// both 10 or both powers of two.
#[must_use]
pub const fn supports_floats(format: NumberFormat) -> bool
    ensures { result ≡ (is_decimal (bytes_of format) || is_binary (bytes_of format)) }
{
    let radixes = (
        bits_of(format.mantissa_radix()),
        bits_of(format.exponent_base()),
    );
    has_decimal_floats(format) || matches!(radixes, (Some(_), Some(_)))
}

// Returns whether floats of `format` are decimal.
#[inline(always)]
pub(crate) const fn has_decimal_floats(format: NumberFormat) -> bool
    ensures { result ≡ is_decimal (bytes_of format) }
{
    format.mantissa_radix() == 10 && format.exponent_base() == 10
}

// Returns the number that the exponent digits of a literal represent, or `2 ^ 90` if that is less.
#[inline(always)]
pub(crate) fn exponent_of(literal: &Literal) -> u128
    ensures { result ≡ min (exponent (bytes_of literal.now.format) literal.now.literal) (2 ^ 90) }
{
    match literal.scale() {
        Some(exponent) => exponent as u128,
        None => saturating(literal.cut().exponent, literal.format().exponent_radix()),
    }
}

// Returns the float nearest to a decimal literal, without its sign.
#[inline(always)]
fn decimal_size<F: Float>(literal: &Literal) -> F
    requires { IsTrue (is_decimal (bytes_of literal.now.format)) }
    ensures { F.value result ≡ round (format_of F.DOUBLE) false (numerator (bytes_of literal.now.format) literal.now.literal)
        (denominator (bytes_of literal.now.format) literal.now.literal) }
{
    let negative = literal.has_negative_exponent();
    if let (Some(mantissa), Some(exponent)) = (literal.mantissa(), literal.scale()) {
        return digits_to_float(mantissa, literal.places() as u64, negative, exponent);
    }
    let parts = literal.cut();
    decimal_to_float(
        parts.integer,
        parts.fraction,
        negative,
        exponent_of(literal),
    )
}

// Returns the bits of the float nearest to a literal, without its sign, or `None` if a radix is not a power of two.
pub(crate) fn binary_size(double: bool, literal: &Literal) -> Option<u64>
    ensures some { IsTrue (is_binary (bytes_of literal.now.format)) ↔ IsSome result }
    ensures value { IfSome result (λ bits. IsNearestBits (format_of double) (numerator (bytes_of literal.now.format) literal.now.literal)
        (denominator (bytes_of literal.now.format) literal.now.literal) bits) }
{
    let format = literal.format();
    let Some(radix_bits) = bits_of(format.mantissa_radix()) else {
        return None;
    };
    let Some(base_bits) = bits_of(format.exponent_base()) else {
        return None;
    };
    let places = literal.places() as u64;
    let negative = literal.has_negative_exponent();
    if let (Some(mantissa), Some(exponent)) = (literal.mantissa(), literal.scale()) {
        return Some(raised_word(
            double, mantissa, radix_bits, places, negative, exponent, base_bits,
        ));
    }
    Some(long_binary_size(double, literal, radix_bits, base_bits))
}

// Returns what `binary_size` returns, of a literal whose mantissa or exponent has many digits.
#[cold]
#[tactic(auto, using(crate::proofs::FloatLemmas::by_bits, crate::proofs::FloatLemmas::of_value))]
fn long_binary_size(double: bool, literal: &Literal, radix_bits: u32, base_bits: u32) -> u64
    requires radix { (1 ≤ radix_bits) × (radix_bits ≤ 5) × ((raw literal.now.format).byte layout.mantissa_radix ≡ 2 ^ radix_bits) }
    requires base { (1 ≤ base_bits) × (base_bits ≤ 5) × (effective_exponent_base (raw literal.now.format) ≡ 2 ^ base_bits) }
    ensures { IsNearestBits (format_of double) (numerator (bytes_of literal.now.format) literal.now.literal)
        (denominator (bytes_of literal.now.format) literal.now.literal) result }
{
    let leading = leading_of(literal, literal.format().mantissa_radix());
    let places = literal.places() as u64;
    let negative = literal.has_negative_exponent();
    let exponent = exponent_of(literal);
    raised_bits(
        double, leading, radix_bits, places, negative, exponent, base_bits,
    )
}

// Returns the leading digits of the mantissa, all of them if it is known.
#[tactic(auto, using(lexical_number::proofs::LeadingLemmas::starts))]
pub(crate) fn leading_of(literal: &Literal, radix: u32) -> Leading
    requires some { 1 ≤ radix }
    requires radix { radix ≡ (raw literal.now.format).byte layout.mantissa_radix }
    ensures leads { Leads radix (mantissa (bytes_of literal.now.format) literal.now.literal) result.digits result.more result.dropped }
    ensures dropped { result.dropped ≤ 2 ^ 65 }
{
    match literal.mantissa() {
        Some(size) => Leading::whole(size),
        None => {
            let parts = literal.cut();
            let integer = push_all(Leading::ZERO, radix, parts.integer);
            push_all(integer, radix, parts.fraction)
        }
    }
}
