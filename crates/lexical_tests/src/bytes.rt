//! Bytes: their digits in a radix, the characters of digits, and slices of which each byte passes.

use lexical_util::ascii::{is_valid_ascii, is_valid_ascii_slice, is_valid_letter_slice};
use lexical_util::digit::{
    char_to_digit, char_to_digit_const, char_to_valid_digit_const, digit_to_char,
    digit_to_char_const,
};

#[test]
#[rattlefmt::skip]
fn digits_are_read_and_written(rt: HostRuntime) {
    for (c, radix, digit) in &[
        (b'A', 16, Some(10)), (b'9', 9, None), (b'!', 255, None), (b'!', 256, Some(255)),
        (b'z', 36, Some(35)), (b'z', 35, None), (b'0', 0, None), (b'/', 10, None),
    ] {
        let read = [char_to_digit(*c, *radix), char_to_digit_const(*c, *radix)];
        assert_eq!(rt; read, [*digit; 2], "{c} in {radix}");
    }
    // These two do not test that it is a digit of the radix.
    for (c, radix, value) in &[(b'/', 10, 255), (b'A', 10, 17), (b'A', 11, 10)] {
        assert_eq!(rt; char_to_valid_digit_const(*c, *radix), *value, "{c} in {radix}");
    }
    for (digit, radix, c) in &[(11, 36, b'B'), (11, 10, b';'), (9, 36, b'9')] {
        assert!(rt; *digit < 36);
        assert_eq!(rt; digit_to_char_const(*digit, *radix), *c, "{digit} in {radix}");
    }
    assert_eq!(rt; [digit_to_char(11), digit_to_char(35)], [b'B', b'Z']);
}

#[test]
fn a_slice_passes_if_each_byte_does(rt: HostRuntime) {
    assert!(rt; b"\x09\x0D\x20\x7E".iter().all(|it| is_valid_ascii(*it)));
    assert!(rt; !b"\x08\x0E\x1F\x7F\x80".iter().any(|it| is_valid_ascii(*it)));
    assert!(rt; is_valid_ascii_slice(b"") && !is_valid_ascii_slice(b" 09a\x1b"));
    assert!(rt; !is_valid_ascii_slice(b"AAAAAAAAAAAAAAAAAAAAAAAAAAAAAAAAA\x7f"));
    assert!(rt; is_valid_letter_slice(b"aZAz"));
    let mut bytes = [b'A'; 97];
    for length in &[0, 1, 31, 32, 33, 63, 64, 65, 97] {
        assert!(rt; *length <= 97);
        let slice = &mut bytes[..*length];
        let passes = is_valid_ascii_slice(slice) && is_valid_letter_slice(slice);
        assert!(rt; passes, "{length}");
        for index in 0..slice.len() {
            slice[index] = 0x7F;
            let passes = is_valid_ascii_slice(slice) || is_valid_letter_slice(slice);
            assert!(rt; !passes, "{index} of {length}");
            slice[index] = b'A';
        }
    }
}
