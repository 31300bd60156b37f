//! Parses and prints format words as text: `0x` followed by hexadecimal digits.

ghost use Rattle.std.specs.Prelude.{◌≡◌, ℕ, List, Ok, slice_get};
ghost use Rattle.std.specs.List.{prefix_len};
ghost use Rattle.std.specs.Option.{SomeIff};
ghost use Rattle.std.specs.Result.{result_ok};
ghost use Rattle.lexical_util.specs.Additions.WordText.{IsWordText, IsPrintedForm, hex, printed, first_misfit, misfit_error, parsed_word, word_from_text};
ghost use Rattle.lexical_util.specs.Additions.Numeral.{is_digit_of_radix};

use crate::numeral::read_numeral;
use lexical_base::digit::{char_is_digit, digit_to_char};
use lexical_base::error::Error;

/// Parses `text` as a format word: `0x` followed by 1 to 32 hexadecimal digits of either case.
///
/// # Errors
///
/// The error holds the index of the first unexpected byte. It is [`Error::Overflow`] if this byte is a 33rd digit, and
/// [`Error::InvalidDigit`] if it is any other byte. If no byte is unexpected but the text ends before the first digit,
/// the error is [`Error::Empty`] with the length of the text.
///
/// ```
/// use peltzivar::error::Error;
/// use peltzivar::word_text::parse_word;
///
/// assert_eq!(parse_word("0x12ab"), Ok(0x12AB));
/// assert_eq!(parse_word("0x12 4"), Err(Error::InvalidDigit(4)));
/// assert_eq!(parse_word("12"), Err(Error::InvalidDigit(0)));
/// assert_eq!(parse_word("0x"), Err(Error::Empty(2)));
/// ```
pub fn parse_word(text: &str) -> Result<u128, Error>
    ensures result { result ≡ parsed_word text.now }
    ensures word { result_ok result ≡ word_from_text text.now }
{
    let text = text.as_bytes();
    if let Some(word) = read_word(text) {
        return Ok(word);
    }
    Err(misfit_error(text, first_misfit(text)))
}

/// Returns `word` as text: `0x` followed by 32 uppercase hexadecimal digits. [`parse_word`] parses this text into the
/// same word.
#[must_use]
pub fn word_text(word: u128) -> [u8; 34]
    ensures text { result ≡ printed word }
    ensures form { IsPrintedForm result }
    ensures value { hex result ≡ word }
    ensures read_back { IsWordText result }
    ensures parsed { parsed_word result ≡ Ok word }

    // No other text of this form has the value `word`.
    ensures unique { (text : List ℕ) → IsPrintedForm text → hex text ≡ word → text ≡ result }
{
    let mut text = [b'0'; 34];
    text[1] = b'x';
    let mut rest = word;
    for count in 0..32usize {
        text[33 - count] = digit_to_char((rest % 16) as u32);
        rest /= 16;
    }
    text
}

// Parses a text as a format word, or returns `None` if it is not the text of a word.
fn read_word(text: &[u8]) -> Option<u128>
    ensures { SomeIff result (IsWordText text.now) (hex text.now) }
{
    match text {
        [b'0', b'x', digits @ ..] => read_numeral(digits, 16, 32),
        _ => None,
    }
}

// Returns the index of the first byte that does not fit the text of a word, or the length if all bytes fit.
fn first_misfit(text: &[u8]) -> usize
    ensures { result ≡ first_misfit text.now }
{
    match text {
        [b'0', b'x', digits @ ..] => 2 + leading_digits(digits).min(32),
        [b'0', ..] => 1,
        _ => 0,
    }
}

// Returns the number of hexadecimal digits before the first byte that is not one.
fn leading_digits(digits: &[u8]) -> usize
    ensures { result ≡ prefix_len (is_digit_of_radix 16) digits.now }
{
    digits
        .iter()
        .take_while(|byte| char_is_digit(**byte, 16))
        .count()
}

// Returns the error of a text in which the first byte that does not fit is at `index`, or that ends there.
fn misfit_error(text: &[u8], index: usize) -> Error
    ensures { result ≡ misfit_error index (slice_get text.now index) }
{
    match text.get(index) {
        None => Error::Empty(index),
        Some(byte) if index == 34 && char_is_digit(*byte, 16) => Error::Overflow(index),
        Some(_) => Error::InvalidDigit(index),
    }
}
