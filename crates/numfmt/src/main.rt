//! `numfmt` shows, edits, compares, checks, explains and migrates number formats, and writes them as Rust code.
//!
//! A number format is a format word, a `u128`. A WORD is written as `0x` and 1 to 32 hexadecimal digits.
//!
//! | Command | Prints |
//! |---|---|
//! | (no command) | the fields of the standard format |
//! | `show WORD` | the fields of the word |
//! | `edit WORD NAME=VALUE ..` | the word after the edits; without edits, its normal form |
//! | `check WORD` | the error of the first rule that the word breaks, or success |
//! | `same A B` | whether the two words are equivalent: `same` or `different` |
//! | `options WORD E P` | whether E can be the exponent character and P the decimal point: `accepted` or `refused` |
//! | `migrate WORD` | the normal form of an old word, or the error of the normal form |
//! | `source WORD` | a builder expression that sets the word's fields in the fewest single-field setter calls |
//! | `explain WORD` | each reason why the word breaks rules, with its errors and fields; then the notes |
//!
//! The exit status is 0 on success, 1 if the answer is no, and 2 if the arguments are refused (one line states the
//! reason). It is 3 if a write fails or the arguments cannot be read (nothing more is printed).
#![tactic(auto)]

mod answer;
mod program;
#[cfg(test)]
mod tests;
mod word;

use program::run;
use std::env;
use std::process::ExitCode;

fn main(rt: HostRuntime) -> ExitCode {
    // An argument that is not UTF-8 is an error.
    let Ok(args) = env::args(&rt) else {
        return ExitCode::from(3);
    };
    // So is want of memory for the arguments.
    let Ok(args) = args.skip(1).collect::<Vec<String>>(rt.alloc()) else {
        return ExitCode::from(3);
    };
    ExitCode::from(run(args.as_slice(), &mut rt.stdout()))
}
