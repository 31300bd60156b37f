//! Each generic call at a concrete type, with values from outside, and clones, which only Rattle returns in a `Result`.
//! The tests of plain Rust have the other values, of std and of tables.

use callers::formats::read_decimal;
use lexical_forms::form::Form;
use lexical_forms::list::Forms;
use lexical_literal::syntax::Syntax;
use lexical_util::edits::{Edit, FlagSetter};
use lexical_util::error::Error;
use lexical_util::format::{Format, NonZeroU8, NumberFormat};
use lexical_value::float::to_float;
use lexical_value::integer::ValueErrorKind;
use lexical_value::parse::{ParseError, parse_float, parse_integer};
use lexical_writer::choice::choose;
use lexical_writer::float::format_float;
use lexical_writer::float_digits::FloatDigits;
use lexical_writer::integer::format_integer;
use lexical_writer::layout::{Layout, Style, WriteError};
use lexical_writer::literal::format_literal;
use std::test::Fail;

// Returns the syntax of numbers with `_` between digits and several in a row: decimal, or hexadecimal with the exponent base 2.
fn syntax_of(word: u128) -> Result<Syntax, Fail> {
    let format = Format::new(word).ok().ok_or("a format")?;
    Ok(Syntax::new(format, b'^', b'.').ok().ok_or("a syntax")?)
}

const DECIMAL: u128 = 0x0A0A0A00_0000005F_00000201_0000000C;

const HEXADECIMAL: u128 = 0x0A021000_0000005F_00000201_0000000C;

#[test]
fn literals_have_values(rt: HostRuntime) -> Result<(), Fail> {
    let (decimal, hexadecimal) = (syntax_of(DECIMAL)?, syntax_of(HEXADECIMAL)?);
    assert!(rt; matches!(parse_integer::<i8>(&hexadecimal, b"-8_0"), Ok(i8::MIN)));
    let large = parse_integer::<u128>(&decimal, b"18446744073709551616");
    assert!(rt; matches!(large, Ok(0x1_0000_0000_0000_0000)));
    let above = parse_integer::<i64>(&decimal, b"9223372036854775808");
    assert!(rt; matches!(above, Err(ParseError::Value(ValueErrorKind::TooLarge))));
    assert!(rt; matches!(read_decimal(b"1_000"), Ok(1000)));
    assert!(rt; matches!(read_decimal(b"1.5"), Err(ParseError::Read(_))));
    let text = b"9007199254740993.00001";
    let Ok(literal) = decimal.read(text) else {
        return Err("a literal".into());
    };
    assert!(rt;
        matches!(to_float::<f64>(&literal), Ok(value) if value.to_bits() == 0x4340_0000_0000_0001)
    );
    assert!(rt;
        matches!(parse_float::<f32>(&decimal, text), Ok(value) if value.to_bits() == 0x5A00_0000)
    );
    Ok(())
}

// Returns whether a layout is that of a text.
fn is_written(layout: Result<Layout, WriteError>, text: &[u8]) -> bool {
    let mut buffer = [0u8; 32];
    let Ok(layout) = layout else {
        return false;
    };
    let length = layout.write(&mut buffer);
    buffer.get(..length) == Some(text)
}

#[test]
fn numbers_are_written(rt: HostRuntime) -> Result<(), Fail> {
    let (decimal, hexadecimal) = (syntax_of(DECIMAL)?, syntax_of(HEXADECIMAL)?);
    let Ok(literal) = hexadecimal.read(b"0.2") else {
        return Err("a literal".into());
    };
    let mut shortest = FloatDigits::new();
    let mut buffer = [0u8; 32];
    let integer = format_integer(&decimal, -1234567i64, Style::PLAIN)
        .ok()
        .ok_or("an integer")?;
    let length = integer.write(&mut buffer);
    assert!(rt; buffer.get(..length) == Some(b"-1234567"));
    assert!(rt; is_written(format_literal(&literal, &decimal, Style::PLAIN), b"0.125"));
    assert!(rt;
        is_written(
            format_float(&decimal, -0.3f64, Style::PLAIN, &mut shortest),
            b"-0.3"
        )
    );
    let forms = [Form::new("", decimal), Form::new("", hexadecimal)];
    let forms = Forms::new(&forms).ok_or("a list")?;
    let chosen = choose(&forms, &literal, Style::PLAIN, &mut buffer)
        .ok()
        .ok_or("a form")?;
    // The first form reads `0.2` as another number, and writes it itself.
    assert!(rt; chosen.form == 0 && buffer.get(..chosen.length) == Some(b"0.125"));
    Ok(())
}

// Returns whether a clone is equal to the value.
fn is_its_clone<T: Clone + PartialEq + Drop>(value: T) -> bool {
    matches!(value.clone(), Ok(clone) if clone == value)
}

#[test]
fn clone_returns_an_equal_value(rt: HostRuntime) {
    assert!(rt; is_its_clone(FlagSetter::NoSpecial) && is_its_clone(Edit::Radix(16)));
    assert!(rt; is_its_clone(Error::Overflow(4)) && is_its_clone(Error::Success));
    assert!(rt; matches!(NonZeroU8::new(95), Some(byte) if is_its_clone(byte)));
    assert!(rt; matches!(NumberFormat::new(12).clone(), Ok(view) if view.flags() == 12));
}
