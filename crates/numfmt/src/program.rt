//! The program as a function of its arguments and a writer.

ghost use Rattle.std.specs.Prelude.{◌≤◌};

use crate::answer::{Answer, Refusal};
use crate::word::read_word;
use lexical_util::edits::{Edit, byte_from_decimal, edit_word, migrate, same_format};
use lexical_util::format::{STANDARD, format_error};
use lexical_util::format_flags::is_valid_options_punctuation;
use std::io::Write;

// The maximum number of edits in one command.
const MAX_EDITS: usize = 64;

/// Runs the command in `args`, the program's arguments without its name, and returns the exit status: 0 for success or
/// a positive answer, 1 for a negative answer, 2 if the arguments are refused, and 3 if writing to `out` or flushing it
/// fails.
///
/// All text is written to `out`, which is flushed at the end. After a write or a flush fails, nothing more is written.
pub fn run<W: Write>(args: &[String], out: &mut W) -> u8
    ensures { result ≤ 3 }
{
    let answer = match answer(args) {
        Ok(answer) => answer,
        Err(refusal) => Answer::Refused(refusal),
    };
    match answer.print(out) {
        Ok(()) => answer.status(),
        Err(_) => 3,
    }
}

// Returns the answer to the command, or the first reason to refuse the arguments. The reasons are tested in this order:
// an unknown command, a wrong number of arguments, too many edits, and then invalid arguments, from left to right.
fn answer(args: &[String]) -> Result<Answer, Refusal> {
    let [command, args @ ..] = args else {
        return Ok(Answer::Fields(STANDARD));
    };
    Ok(match command.as_str() {
        "show" => Answer::Fields(only_word(args)?),
        "edit" => Answer::Word(edited_word(args)?),
        "check" => Answer::Outcome(format_error(only_word(args)?)),
        "same" => Answer::Sameness(are_same(args)?),
        "options" => Answer::Acceptance(are_options(args)?),
        "migrate" => match migrate(only_word(args)?) {
            Ok(word) => Answer::Word(word),
            Err(error) => Answer::Outcome(error),
        },
        "source" => Answer::Source(only_word(args)?),
        "explain" => Answer::Explanation(only_word(args)?),
        _ => return Err(Refusal::UnknownCommand),
    })
}

// Parses WORD.
fn only_word(args: &[String]) -> Result<u128, Refusal> {
    match args {
        [word] => parse_word(word),
        _ => Err(Refusal::WrongNumberOfArguments),
    }
}

// Returns the word after the edits in WORD NAME=VALUE ..
fn edited_word(args: &[String]) -> Result<u128, Refusal> {
    let [word, settings @ ..] = args else {
        return Err(Refusal::WrongNumberOfArguments);
    };
    if settings.len() > MAX_EDITS {
        return Err(Refusal::TooManyEdits);
    }
    let word = parse_word(word)?;
    let mut edits = [Edit::Radix(0); MAX_EDITS];
    for (i, setting) in settings.iter().enumerate() {
        edits[i] = parse_edit(setting)?;
    }
    Ok(edit_word(word, &edits[..settings.len()]))
}

// Returns whether the two words in A B are equivalent.
fn are_same(args: &[String]) -> Result<bool, Refusal> {
    match args {
        [a, b] => Ok(same_format(parse_word(a)?, parse_word(b)?)),
        _ => Err(Refusal::WrongNumberOfArguments),
    }
}

// Returns whether the two bytes in WORD E P can be the exponent character and the decimal point of the word.
fn are_options(args: &[String]) -> Result<bool, Refusal> {
    let [word, exponent, point] = args else {
        return Err(Refusal::WrongNumberOfArguments);
    };
    let word = parse_word(word)?;
    let exponent = parse_byte(exponent)?;
    let point = parse_byte(point)?;
    Ok(is_valid_options_punctuation(word, exponent, point))
}

fn parse_word(text: &String) -> Result<u128, Refusal> {
    read_word(text.as_str()).ok_or(Refusal::BadWord)
}

fn parse_byte(text: &String) -> Result<u8, Refusal> {
    byte_from_decimal(text.as_str()).ok_or(Refusal::BadByte)
}

// Parses NAME=VALUE. A byte has only its decimal form here, and no white space is skipped, unlike in a setting of the
// library.
fn parse_edit(text: &String) -> Result<Edit, Refusal> {
    let Some((name, value)) = text.as_str().split_once('=') else {
        return Err(Refusal::BadEdit);
    };
    let is_bare = |text: &str| text
        .bytes()
        .all(|it| matches!(it, b'0'..=b'9' | b'a'..=b'z' | b'_'));
    match Edit::from_setting(name, value) {
        Ok(edit) if is_bare(name) && is_bare(value) && !value.starts_with("0x") => Ok(edit),
        _ => Err(Refusal::BadEdit),
    }
}
