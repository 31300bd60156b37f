//! Literals are written as literals of another syntax: by their own digits, or else by their value.

ghost use Rattle.std.specs.Prelude.{◌≡◌, false, true, IfOk};
ghost use Rattle.lexical_util.specs.Record.{raw};
ghost use Rattle.lexical_literal.specs.Literal.{Literal as Parted, Reads, text_of, is_minus};
ghost use Rattle.lexical_literal.specs.Notation.{notation_of};
ghost use Rattle.lexical_literal.specs.Parts.{literal_of};
ghost use Rattle.lexical_literal.specs.Syntax.{IsSyntax};
ghost use Rattle.lexical_writer.specs.Conversion.{IsAmountOf, IsWritten, SameFraction, has_point, has_power, is_unwanted, keeps, keeps_power, own_amount};
ghost use Rattle.lexical_writer.specs.Layout.{HasNumber, literal_of as written};

use crate::layout::{
    Amount, ExponentStyle, Layout, Power, Style, WriteError, allows_exponent, is_whole,
    needs_exponent,
};
use crate::run::Source;
use crate::units::by_value;
use lexical_literal::literal::{Literal, Parts};
use lexical_literal::syntax::Syntax;
use lexical_util::format::NumberFormat;

/// Returns how a literal is written as a literal of `syntax`: the number that it represents, whatever its kind is.
///
/// # Errors
///
/// If the literal cannot be written, returns why.
pub fn format_literal<'a>(
    literal: &Literal<'a>,
    syntax: &Syntax,
    style: Style,
) -> Result<Layout<'a>, WriteError>
    // What is written is a literal, with the value of the literal that was given.
    ensures literal { IfOk result (λ layout. Reads (notation_of syntax.now) (written layout) (text_of (written layout))) }
    ensures value { IfOk result (λ layout.
        SameFraction (raw literal.now.format) literal.now.literal (raw syntax.now.word) (written layout)) }
    ensures parts { IsWritten literal.now syntax.now style result }
{
    let parts = literal.cut();
    let amount = amount_of(literal, &parts, syntax, style)?;
    amount.lay_out(syntax, style)
}

// Returns what is written of a literal with these parts, or why nothing is.
fn amount_of<'a>(
    literal: &Literal<'a>,
    parts: &Parts<'a>,
    syntax: &Syntax,
    style: Style,
) -> Result<Amount<'a>, WriteError>
    requires { literal_of parts.now ≡ literal.now.literal }
    ensures parts { IsAmountOf (raw literal.now.format) parts.now syntax.now style result }
    ensures value { IfOk result (λ amount. (l : Parted) → IsSyntax syntax.now → HasNumber syntax.now amount l
        → SameFraction (raw literal.now.format) (literal_of parts.now) (raw syntax.now.word) l) }
{
    if !keeps(literal.format(), parts, syntax) {
        return by_value(literal, parts, syntax);
    }
    if !is_unwanted(parts, syntax, style) {
        return Ok(own_amount(parts));
    }
    match by_value(literal, parts, syntax) {
        Ok(amount) => Ok(amount),
        Err(_) => Ok(own_amount(parts)),
    }
}

// Returns whether a literal of `format` with these parts can be written by its own digits.
fn keeps(format: NumberFormat, parts: &Parts, syntax: &Syntax) -> bool
    ensures { result ≡ keeps (raw format) parts.now syntax.now }
{
    keeps_power(format, parts, syntax)
        && format.mantissa_radix() == syntax.format().view().mantissa_radix()
        && !(has_point(parts) && is_whole(syntax))
}

// Returns whether literals of `syntax` can have the exponent of such a literal, if it has one.
fn keeps_power(format: NumberFormat, parts: &Parts, syntax: &Syntax) -> bool
    ensures { result ≡ keeps_power (raw format) parts.now syntax.now }
{
    if !has_power(parts) {
        return true;
    }
    let to = syntax.format().view();
    allows_exponent(syntax)
        && format.exponent_base() == to.exponent_base()
        && format.exponent_radix() == to.exponent_radix()
}

// Returns whether a literal has an exponent that is not to be written.
fn is_unwanted(parts: &Parts, syntax: &Syntax, style: Style) -> bool
    ensures { result ≡ is_unwanted syntax.now style parts.now }
{
    has_power(parts) && !needs_exponent(syntax) && matches!(style.exponent, ExponentStyle::Never)
}

// Returns the digits and the exponent of a literal.
fn own_amount<'a>(parts: &Parts<'a>) -> Amount<'a>
    ensures { result ≡ own_amount parts.now }
{
    Amount {
        negative: is_minus(parts.sign),
        integer: Source::Bytes(parts.integer),
        fraction: if has_point(parts) {
            Some(Source::Bytes(parts.fraction))
        } else {
            None
        },
        exponent: if has_power(parts) {
            Some(Power {
                negative: is_minus(parts.exponent_sign),
                source: Source::Bytes(parts.exponent),
            })
        } else {
            None
        },
    }
}

// Returns whether a literal has a fraction.
fn has_point(parts: &Parts) -> bool
    ensures { result ≡ has_point parts.now }
{
    !parts.point.is_empty() || !parts.fraction.is_empty()
}

// Returns whether a literal has an exponent.
fn has_power(parts: &Parts) -> bool
    ensures { result ≡ has_power parts.now }
{
    !parts.exponent_character.is_empty() || !parts.exponent.is_empty()
}

// Returns whether a sign is a minus sign.
pub(crate) const fn is_minus(sign: &[u8]) -> bool
    ensures { result ≡ is_minus sign.now }
{
    matches!(sign, [b'-', ..])
}
