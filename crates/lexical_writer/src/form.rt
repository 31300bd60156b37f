//! How the digits of a float are written.

ghost use Rattle.std.specs.Prelude.{◌≡◌, ◌+◌, ◌-◌, ◌*◌, ◌/◌, ◌%◌, ◌^◌, ◌<◌, ◌≤◌, ◌++◌, ◌⊎◌, ℕ, suc, true, is_some, length, length as count, None, nat_lt};
ghost use Rattle.std.specs.Prelude.{if◌then◌else◌, option_map, unwrap_or};
ghost use Rattle.std.specs.Int.Digits.{digits_of, number_from_digits};
ghost use Rattle.lexical_util.specs.Layout as layout;
ghost use Rattle.lexical_util.specs.Record.{effective_exponent_base, raw};
ghost use Rattle.lexical_literal.specs.Literal.{is_present};
ghost use Rattle.lexical_number.specs.Float.{raised_down, raised_up};
ghost use Rattle.lexical_number.specs.Number.{number, places as digit_count};
ghost use Rattle.lexical_writer.specs.Digits.{size_of, values_of};
ghost use Rattle.lexical_writer.specs.Amount.{IsShape, decimals_in, is_shown, is_wanted};
ghost use Rattle.lexical_writer.specs.Layout.{given_fraction};
ghost use Rattle.lexical_writer.specs.declared.run.Source.TheVariants as sources;

use crate::float_digits::split;
use crate::layout::{
    Amount, ExponentStyle, Power, Style, allows_exponent, is_whole, needs_exponent,
};
use crate::run::Source;
use lexical_literal::syntax::Syntax;
use lexical_number::shortest::Decimal;

// How the digits of a number are written: with zeros behind them, with a point before the last of all these digits, and with an
// exponent, whether its sign is `-` and its size, if there is one.
#[derive(Debug, Clone, Copy)]
pub(crate) struct Shape {
    pub(crate) after: usize,
    pub(crate) places: usize,
    pub(crate) exponent: Option<(bool, u64)>,
}

// Returns a fraction, if it has digits, of which there are as many as `places`.
#[inline(always)]
pub(crate) const fn fraction_in<'a>(places: u128, fraction: Source<'a>) -> Option<Source<'a>>
    ensures values { (radix : ℕ) → length (values_of radix fraction.entry) ≡ places
        → values_of radix (unwrap_or result (sources.Number 0)) ≡ values_of radix fraction.entry }
    ensures some { is_some result ≡ nat_lt 0 places }
{
    if places > 0 { Some(fraction) } else { None }
}

// Returns the exponent of a shape.
#[inline(always)]
const fn power_in(exponent: Option<(bool, u64)>) -> Option<Power<'static>>
    ensures { (radix : ℕ) → option_map (λ p. (p.negative, size_of radix p.source)) result ≡ exponent }
{
    match exponent {
        Some((negative, size)) => Some(Power {
            negative,
            source: Source::Number(size as u128),
        }),
        None => None,
    }
}

// Returns digits in a shape, as a number that is to be written.
#[inline(always)]
pub(crate) fn amount_in<'a>(negative: bool, digits: &'a [u8], shape: Shape) -> Amount<'a>
    ensures sign { result.negative ≡ negative }
    ensures number { (radix : ℕ) → 2 ≤ radix → digit_count radix digits.entry.now ≡ length digits.entry.now
        → number_from_digits radix (values_of radix result.integer ++ values_of radix (given_fraction result))
        ≡ number radix digits.entry.now * radix ^ shape.after }
    ensures places { (radix : ℕ) → digit_count radix digits.entry.now ≡ length digits.entry.now
        → length (values_of radix (given_fraction result)) ≡ shape.places }
    ensures some { is_some result.fraction ≡ nat_lt 0 shape.places }
    ensures integer { (radix : ℕ) → 2 ≤ radix → digit_count radix digits.entry.now ≡ length digits.entry.now
        → is_present (values_of radix result.integer) ≡ true }
    ensures power { (radix : ℕ) → option_map (λ p. (p.negative, size_of radix p.source)) result.exponent ≡ shape.exponent }
{
    let (integer, fraction) = split(digits, shape.after, shape.places);
    Amount {
        negative,
        integer,
        fraction: fraction_in(shape.places as u128, fraction),
        exponent: power_in(shape.exponent),
    }
}

// Returns to how many digits behind the point a float is rounded in a syntax.
#[inline(always)]
pub(crate) fn decimals_in(syntax: &Syntax, style: Style) -> Option<u8>
    ensures { result ≡ decimals_in syntax.now style.decimals }
{
    if is_whole(syntax) || syntax.format().view().mantissa_radix() != 10 {
        None
    } else {
        style.decimals
    }
}

// Returns whether an exponent is written by a wish, of a float that is far from 1 or not.
#[inline(always)]
const fn is_wanted(wish: ExponentStyle, far: bool) -> bool
    ensures { result ≡ is_wanted wish far }
{
    match wish {
        ExponentStyle::AsNumber => far,
        ExponentStyle::Never => false,
        ExponentStyle::Always => true,
    }
}

// Returns whether a float that is far from 1 or not has an exponent.
#[inline(always)]
pub(crate) fn is_shown(syntax: &Syntax, style: Style, far: bool) -> bool
    ensures { result ≡ is_shown syntax.now style far }
{
    let plain = decimals_in(syntax, style).is_none();
    allows_exponent(syntax)
        && ((plain && needs_exponent(syntax)) || is_wanted(style.exponent, plain && far))
}

// A number without its sign: `number` times `base` to the power of `power - zero`. Its first digit in this base is that of the power
// `top - zero`. A digit of its radix has `width` digits of the base, and its exponent base is the base to the power of `step`. Proofs
// alone read the base.
#[allow(dead_code)]
#[derive(Debug, Clone, Copy)]
pub(crate) struct Powers {
    pub(crate) number: u64,
    pub(crate) base: u64,
    pub(crate) power: u64,
    pub(crate) top: u64,
    pub(crate) zero: u64,
    pub(crate) width: u64,
    pub(crate) step: u64,
    ghost limits: { (power < 4000) × (top < 4064) × (zero ≤ 1200) },
    ghost bases: { (2 ≤ base) × (1 ≤ width) × (width ≤ 5) × (1 ≤ step) × (step ≤ 5) × (zero / step * step ≡ zero) },
    ghost first: { 0 < number → (base ^ top ≤ number * base ^ power) × (number * base ^ power < base ^ suc top) },
    ghost last: { 0 < number → 0 < number % base },
    ghost none: { number ≡ 0 → (power ≡ zero) × (top ≡ zero) },
}

impl Powers {
    // Returns by how many digits of the base the number is moved, and its shape, over a power of the base, with an exponent and at
    // least so many digits behind the point.
    #[inline(always)]
    fn over(&self, low: u64, least: u64, exponent: Option<(bool, u64)>) -> (u64, Shape)
        requires { (least ≤ 1) × (low ≤ 4069) × (self.now.number ≡ 0 → low ≤ self.now.zero) }
        ensures moved { result.0 < self.now.width }
        ensures exact { self.now.number * self.now.base ^ result.0 * (self.now.base ^ self.now.width) ^ result.1.after * self.now.base ^ low
            ≡ self.now.number * self.now.base ^ self.now.power * (self.now.base ^ self.now.width) ^ result.1.places }
        ensures last { (result.1.places ≡ least) ⊎ ((least ≤ result.1.places) × (0 < self.now.number * self.now.base ^ result.0
            * (self.now.base ^ self.now.width) ^ result.1.after % self.now.base ^ self.now.width)) }
        ensures exponent { result.1.exponent ≡ exponent }
    {
        let places = low
            .saturating_sub(self.power)
            .div_ceil(self.width)
            .max(least);
        let up = self.power + self.width * places - low;
        let shape = Shape {
            after: (up / self.width) as usize,
            places: places as usize,
            exponent,
        };
        (up % self.width, shape)
    }

    // Returns by how many digits of the base the number is moved, and its shape. It is far from 1 if it is below the radix to the power
    // of -4, or at least that to the power of 16.
    #[inline(always)]
    pub(crate) fn shape(&self, syntax: &Syntax, style: Style) -> (u64, Shape)
        requires radix { (raw syntax.now.word).byte layout.mantissa_radix ≡ self.now.base ^ self.now.width }
        requires base { effective_exponent_base (raw syntax.now.word) ≡ self.now.base ^ self.now.step }
        requires plain { decimals_in syntax.now style.decimals ≡ None }
        ensures moved { result.0 < self.now.width }
        ensures shape { IsShape syntax.now style (self.now.number * self.now.base ^ self.now.power) (self.now.base ^ self.now.zero) result.1.exponent
            result.1.places (self.now.number * self.now.base ^ result.0 * (raw syntax.now.word).byte layout.mantissa_radix ^ result.1.after) }
    {
        let Powers {
            top,
            zero,
            step,
            ..
        } = *self;
        let far = (top + 4 * self.width < zero) | (top >= zero + 16 * self.width);
        if !is_shown(syntax, style, far) {
            return self.over(zero, !is_whole(syntax) as u64, None);
        }
        let (exponent, none) = (top / step, zero / step);
        let power = Some((exponent < none, exponent.abs_diff(none)));
        self.over(exponent * step, 0, power)
    }
}

// Returns an exponent of ten, plus 400.
#[inline(always)]
const fn raised(decimal: Decimal) -> u64
    requires { decimal.exponent ≤ 340 }
    ensures { result ≡ (if decimal.negative then 400 - decimal.exponent else 400 + decimal.exponent) }
{
    if decimal.negative {
        400 - decimal.exponent
    } else {
        400 + decimal.exponent
    }
}

// Returns a decimal number of so many digits.
#[inline(always)]
pub(crate) const fn decimal_powers(length: usize, decimal: Decimal) -> Powers
    requires length { length ≡ count (digits_of 10 decimal.digits) }
    requires limits { (length ≤ 64) × (decimal.exponent ≤ 340) }
    requires last { ((decimal.digits ≡ 0) × (decimal.exponent ≡ 0)) ⊎ (0 < decimal.digits % 10) }
    ensures bases { (result.base ≡ 10) × (result.width ≡ 1) × (result.step ≡ 1) }
    ensures number { result.number ≡ decimal.digits }
    ensures value { result.number * result.base ^ result.power * raised_down decimal.negative 10 decimal.exponent
        ≡ decimal.digits * raised_up decimal.negative 10 decimal.exponent * result.base ^ result.zero }
{
    let power = raised(decimal);
    Powers {
        number: decimal.digits,
        base: 10,
        power,
        top: power + length.saturating_sub(1) as u64,
        zero: 400,
        width: 1,
        step: 1,
    }
}
