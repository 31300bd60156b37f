//! The value of a literal, as an amount without an exponent.

ghost use Rattle.std.specs.Prelude.{◌≡◌, ◌≤◌, ◌<◌, ◌-◌, ◌/◌, ◌%◌, ◌^◌, if◌then◌else◌, nat_le, true, false, Ok, Err, IfOk};
ghost use Rattle.lexical_util.specs.Record.{raw};
ghost use Rattle.lexical_literal.specs.Literal.{Literal as Parted, is_float, is_minus};
ghost use Rattle.lexical_literal.specs.Notation.{lacks_options};
ghost use Rattle.lexical_literal.specs.Parts.{literal_of};
ghost use Rattle.lexical_literal.specs.Syntax.{IsSyntax};
ghost use Rattle.lexical_writer.specs.Conversion.{IsByValue, IsFewest, IsUnits, SameFraction, by_units, most_places};
ghost use Rattle.lexical_writer.specs.Layout.{HasNumber};
ghost use Rattle.lexical_writer.specs.declared.units.Units.TheVariants as found;

use crate::layout::{Amount, WriteError, is_whole};
use crate::literal::is_minus;
use crate::run::Source;
use lexical_literal::literal::{Literal, Parts};
use lexical_literal::syntax::Syntax;
use lexical_number::numeral::{Magnitude, Numeral};
use lexical_value::integer::ValueErrorKind;
use lexical_value::scaled::to_scaled;

// What is known of the value of a float, times a power of ten.
#[derive(Debug, Clone, Copy)]
pub(crate) enum Units {
    // It is this number, apart from its sign.
    Whole(u128),
    // It is not whole.
    Broken,
    // Nothing is known.
    Unknown,
}

// Returns what is known of the value of a float times `10 ^ places`.
fn units_at(literal: &Literal, places: u8) -> Units
    requires { is_float literal.now.literal ≡ true }
    ensures { IsUnits (raw literal.now.format) literal.now.literal places result }
{
    match to_scaled(literal, places, u128::MAX, u128::MAX) {
        Ok((_, units)) => Units::Whole(units),
        Err(ValueErrorKind::NotWhole) => Units::Broken,
        Err(_) => Units::Unknown,
    }
}

// Returns the fewest digits behind a decimal point with which a float may be whole, and what is known with these.
fn fewest(literal: &Literal, most: u8) -> (u16, Units)
    requires { is_float literal.now.literal ≡ true }
    ensures { IsFewest (raw literal.now.format) literal.now.literal most result.0 result.1 }
{
    let mut places = 0;
    while places <= most as u16 {
        match units_at(literal, places as u8) {
            Units::Broken => places += 1,
            other => return (places, other),
        }
    }
    (places, Units::Broken)
}

// Returns what is before and behind the point of a number of units of the last of so many digits behind it.
#[tactic(auto, using(crate::proofs::DecimalLemmas::ten))]
fn split(units: u128, places: u16) -> (u128, u128)
    ensures integer { result.0 ≡ units / 10 ^ places }
    ensures fraction { result.1 ≡ units % 10 ^ places }
{
    match 10_u128.checked_pow(places as u32) {
        Some(unit) => (units / unit, units % unit),
        None => (0, units),
    }
}

// Returns a float by what is known of it, or why it is not written.
fn amount_of(
    negative: bool,
    integers: bool,
    places: u16,
    it: Units,
) -> Result<Amount<'static>, WriteError>
    ensures { result ≡ by_units negative integers places it }
{
    let units = match it {
        Units::Whole(units) => units,
        Units::Broken if integers => return Err(WriteError::Fraction),
        _ => return Err(WriteError::Radix),
    };
    let (integer, fraction) = split(units, places);
    Ok(Amount {
        negative,
        integer: Source::Number(integer),
        fraction: if integers {
            None
        } else {
            Some(Source::Least(fraction, places as usize))
        },
        exponent: None,
    })
}

// Returns how many digits of a value are behind the point at most.
fn most_places(syntax: &Syntax) -> u8
    ensures { result ≡ most_places syntax.now }
{
    if is_whole(syntax) || syntax.format().view().mantissa_radix() != 10 {
        0
    } else {
        255
    }
}

// Returns the value of a literal with these parts as an amount of `syntax`, or why it is not written.
#[cold]
pub(crate) fn by_value(
    literal: &Literal,
    parts: &Parts,
    syntax: &Syntax,
) -> Result<Amount<'static>, WriteError>
    requires { literal_of parts.now ≡ literal.now.literal }
    ensures parts { IsByValue (raw literal.now.format) parts.now syntax.now result }
    ensures value { IfOk result (λ amount. (l : Parted) → IsSyntax syntax.now → HasNumber syntax.now amount l
        → SameFraction (raw literal.now.format) (literal_of parts.now) (raw syntax.now.word) l) }
{
    let negative = is_minus(parts.sign);
    if literal.is_float() {
        let (places, it) = fewest(literal, most_places(syntax));
        return amount_of(negative, is_whole(syntax), places, it);
    }
    let numeral = Numeral {
        negative: false,
        magnitude: Magnitude::Digits(parts.integer, literal.format().mantissa_radix()),
    };
    match numeral.as_u128() {
        Some(size) => Ok(Amount::of_size(negative, size)),
        None => Err(WriteError::Radix),
    }
}
