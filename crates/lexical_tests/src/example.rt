//! A caller that makes a word. It depends only on `lexical_util`.

use lexical_util::edits::{Edit, edit_word};
use lexical_util::error::Error;
use lexical_util::format::{NonZeroU8, NumberFormatBuilder, check};

/// Returns the format of numbers such as `0x00_ff`, or the error of the first rule that it breaks.
fn hexadecimal() -> Result<u128, Error> {
    let grouped = NumberFormatBuilder::new()
        .digit_separator(NonZeroU8::new(b'_'))
        .internal_digit_separator(true)
        .build_strict()?;
    let edits = [Edit::Radix(16), Edit::BasePrefix(NonZeroU8::new(b'x'))];
    check(edit_word(grouped, &edits))
}

#[test]
fn a_word_is_built_edited_and_checked(rt: HostRuntime) {
    assert!(rt; hexadecimal() == Ok(0x0A0A1000_7800005F_00000007_0000000C));
}
