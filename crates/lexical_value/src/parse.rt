//! Texts that are read and converted at once.

ghost use Rattle.std.specs.Prelude.{IfOk};
ghost use Rattle.std.specs.Float.{NotNan};
ghost use Rattle.lexical_number.specs.Float.{format_of};
ghost use Rattle.lexical_value.specs.Parsed.{IsParsed, IsParsedFloat};

use crate::float::to_float;
use crate::integer::{ValueErrorKind, to_integer};
use lexical_literal::cause::ReadError;
use lexical_literal::syntax::Syntax;
use lexical_number::float::Float;
use lexical_number::integer::Integer;

/// Why a text has no value in a type.
#[derive(Debug, Clone, Copy, PartialEq, Eq)]
pub enum ParseError {
    /// The text is not a literal.
    Read(ReadError),
    /// The text is a literal, and has no value in the type.
    Value(ValueErrorKind),
}

/// Returns the value of the literal `text` as a value of an integer type. The value of `-0` is 0.
///
/// # Errors
///
/// If `text` is not a literal, or if it has no value in the type, returns why.
#[tactic(auto, using(crate::proofs::KindLemmas::exact_error))]
pub fn parse_integer<T: Integer>(syntax: &Syntax, text: &[u8]) -> Result<T, ParseError>
    ensures { IsParsed T.range syntax.now text.now result }
{
    match syntax.read(text) {
        Ok(literal) => match to_integer(&literal) {
            Ok(value) => Ok(value),
            Err(kind) => Err(ParseError::Value(kind)),
        },
        Err(error) => Err(ParseError::Read(error)),
    }
}

/// Returns the value of the literal `text` as a value of a float type, as [`to_float`] does.
///
/// # Errors
///
/// If `text` is not a literal, or if literals have no value in a float type, returns why.
#[tactic(auto, using(crate::proofs::KindLemmas::exact_float, crate::proofs::KindLemmas::exact_radix))]
pub fn parse_float<F: Float>(syntax: &Syntax, text: &[u8]) -> Result<F, ParseError>
    ensures value { IsParsedFloat (format_of F.DOUBLE) F.value syntax.now text.now result }
    ensures no_nan { IfOk result (λ value. NotNan (F.value value)) }
{
    match syntax.read(text) {
        Ok(literal) => match to_float(&literal) {
            Ok(value) => Ok(value),
            Err(kind) => Err(ParseError::Value(kind)),
        },
        Err(error) => Err(ParseError::Read(error)),
    }
}
