//! Formats of your own: constants that are proved to be lawful.
//!
//! Each format has a constant and a law. The law is a function that does nothing. Its contract states that the format
//! is lawful. After a call to the law, you can pass the constant where a lawful format is required. Nothing is tested
//! at run time.

ghost use Rattle.std.specs.Prelude.{◌≡◌, ◌↔◌, [], ◌∷◌, IsTrue, None, true, false};
ghost use Rattle.lexical_util.specs.Layout as layout;
ghost use Rattle.lexical_util.specs.Record.{raw};
ghost use Rattle.lexical_util.specs.Rules.{Lawful};
ghost use Rattle.lexical_util.specs.Options.{OptionsFit};
ghost use Rattle.lexical_util.specs.Writes.{write_byte, write_flags};
ghost use Rattle.lexical_util.specs.Edits.{edited};
ghost use Rattle.lexical_util.specs.NormalForm.{normal_form_of};
ghost use Rattle.lexical_literal.specs.Literal.{Literal, Reads};
ghost use Rattle.lexical_literal.specs.Notation.{no_conditions, notation_of};
ghost use Rattle.lexical_number.specs.Numeral.{unsigned};
ghost use Rattle.lexical_value.specs.Parsed.{IsParsed};

use lexical_literal::syntax::Syntax;
use lexical_util::format::Format;
use lexical_value::parse::{ParseError, parse_integer};

/// The format of decimal numbers with `_` between digits, such as `1_000.000_1e1_0`.
pub const DECIMAL: u128 = 0x0A0A0A00_0000005F_00000007_0000000C;

/// The format of octal numbers with the suffix `o` or `O`, such as `17o`.
pub const OCTAL: u128 = 0x0808086F_00000000_00000000_0000000C;

/// The decimal point of both formats.
pub const POINT: u8 = b'.';

/// The exponent character of both formats.
pub const EXPONENT: u8 = b'e';

/// States how [`DECIMAL`] is built, which fields it has, that it is lawful, and which options fit it.
#[tactic(auto, unfolding(lexical_util::specs::Unfoldable::on_literals))]
pub fn decimal_facts()
    // The constant is the format of decimal numbers after two setter calls.
    ensures word { edited 0x0A0A0A00_00000000_00000000_0000000C
        (write_byte layout.digit_separator 0x5F ∷ write_flags layout.internal_digit_separator true) ≡ DECIMAL }
    ensures separator { (raw DECIMAL).byte layout.digit_separator ≡ 0x5F }
    ensures radix { (raw DECIMAL).byte layout.mantissa_radix ≡ 10 }
    ensures between_digits { (raw DECIMAL).flag layout.integer_internal_digit_separator ≡ true }
    ensures after_digits { (raw DECIMAL).flag layout.integer_trailing_digit_separator ≡ false }
    ensures lawful { Lawful DECIMAL }
    ensures normal { normal_form_of DECIMAL ≡ DECIMAL }
    ensures options { OptionsFit DECIMAL EXPONENT POINT }
{}

/// States how [`OCTAL`] is built, which fields it has, that it is lawful, and which options fit it.
#[tactic(auto, unfolding(lexical_util::specs::Unfoldable::on_literals))]
pub fn octal_facts()
    ensures word { edited 0x08080800_00000000_00000000_0000000C (write_byte layout.base_suffix 0x6F ∷ []) ≡ OCTAL }
    ensures suffix { (raw OCTAL).byte layout.base_suffix ≡ 0x6F }
    ensures radix { (raw OCTAL).byte layout.mantissa_radix ≡ 8 }
    ensures both_cases { (raw OCTAL).flag layout.case_sensitive_base_suffix ≡ false }
    ensures no_separator { (raw OCTAL).byte layout.digit_separator ≡ 0 }
    ensures lawful { Lawful OCTAL }
    ensures options { OptionsFit OCTAL EXPONENT POINT }
{}

/// Returns the syntax of the integers of [`DECIMAL`].
pub fn decimal() -> Syntax
    ensures { result ≡ record { word = DECIMAL; options = None; conditions = no_conditions } }
{
    decimal_facts();
    match Format::new(DECIMAL) {
        Ok(format) => Syntax::integers(format),
        Err(_) => unreachable!(),
    }
}

/// Returns whether `text` is a literal of `syntax`.
pub fn is_literal(syntax: &Syntax, text: &[u8]) -> bool
    ensures { IsTrue result ↔ ((l : Literal) × Reads (notation_of syntax.now) l text.now) }
{
    match syntax.read(text) {
        Ok(_) => true,
        Err(_) => false,
    }
}

/// Returns the value of the integer `text` in the format [`DECIMAL`]. It may have `_` between digits, as in `1_000`.
///
/// # Errors
///
/// If `text` is not such an integer, or if its value is not a `u64`, returns why.
pub fn read_decimal(text: &[u8]) -> Result<u64, ParseError>
    ensures { IsParsed (unsigned 64) (record { word = DECIMAL; options = None; conditions = no_conditions }) text.now result }
{
    parse_integer(&decimal(), text)
}
