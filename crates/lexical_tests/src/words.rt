//! Words: how builders pack them, what is read from them, the first rule that each of them breaks, and edits.

use lexical_util::edits::{
    Edit, FlagSetter, apply_all, edit_word, edits_of, is_built, migrate, normal_form, same_format,
};
use lexical_util::error::Error;
use lexical_util::format::{
    EXPONENT_BASE, FLAG_MASK, NonZeroU8, NumberFormat, NumberFormatBuilder as Builder, STANDARD,
    format_error, format_error_impl, is_valid_digit_separator, is_valid_options_punctuation,
    radix_from_flags,
};

const DECIMAL: u128 = 0x0A0A0A00_00000000_00000000_0000000C;

// The bits of all fields.
const FIELDS: u128 = 0xFFFFFFFF_FF0000FF_00001FFF_0003FFFF;

#[test]
#[allow(deprecated)]
#[rattlefmt::skip]
fn only_lawful_words_pass_the_strict_build(rt: HostRuntime) {
    let byte = |it| NonZeroU8::new(it);
    for (builder, word, error) in &[
        (Builder::new().radix(16), 0x00001000_00000000_00000000_0000000C, Error::Success),
        (Builder::new().digit_separator(byte(95)), 0x00000A00_00000000_00000000_0000000C, Error::Success),
        (Builder::new().digit_separator(byte(95)).special_digit_separator(true), 0x00000A00_0000005F_00001000_0000000C, Error::Success),
        (Builder::new().digit_separator(byte(95)).exponent_digit_separator_flags(true), 0x00000A00_0000005F_00000924_0000000C, Error::Success),
        (Builder::new().required_digits(true).required_exponent_digits(false), 0x00000A00_00000000_00000000_0000000B, Error::Success),
        (Builder::new().required_exponent_digits(false).required_digits(true), 0x00000A00_00000000_00000000_0000000F, Error::Success),
        (Builder::new().radix(2).digit_separator(byte(b'5')).digit_separator_flags(true), 0x00000200_00000035_00001FFF_0000000C, Error::Success),
        (Builder::new().radix(2).digit_separator(byte(b'5')).digit_separator_flags(true).exponent_base(byte(10)),
            0x000A0200_00000035_00001FFF_0000000C, Error::Success),
        (Builder::new().base_prefix(byte(b'h')).base_suffix(byte(b'H')), 0x00000A48_68000000_00000000_0000000C, Error::InvalidPunctuation),
        (Builder::new().base_prefix(byte(b'h')).base_suffix(byte(b'h')), 0x00000A68_68000000_00000000_0000000C, Error::InvalidPunctuation),
        (Builder::new().integer_consecutive_digit_separator(true),
            0x00000A00_00000000_00000200_0000000C, Error::InvalidConsecutiveIntegerDigitSeparator),
        (Builder::new().integer_consecutive_digit_separator(true).no_special(true).case_sensitive_special(true),
            0x00000A00_00000000_00000200_00000C0C, Error::InvalidSpecial),
        (Builder::new().no_exponent_notation(true).no_special(true), 0x00000A00_00000000_00000000_0000044C, Error::Success),
        // A rebuilt builder has exponent bytes, so its exponent radix stays 10.
        (Builder::rebuild(0x00000A00_00000065_00001FFF_0000000C).radix(16), 0x0A0A1000_00000065_00001FFF_0000000C, Error::InvalidDigitSeparator),
        (NumberFormat::default().rebuild(), DECIMAL, Error::Success), (NumberFormat::builder(), STANDARD, Error::Success),
    ] {
        assert_eq!(rt; [builder.build_unchecked(), builder.build()], [*word; 2]);
        assert_eq!(rt; builder.build_strict(), if *error == Error::Success { Ok(*word) } else { Err(*error) }, "{word:#034X}");
    }
    // A builder keeps a separator that it does not pack.
    assert!(rt; Builder::new().digit_separator(byte(95)).get_digit_separator() == byte(95));
}

#[test]
#[rattlefmt::skip]
fn the_fields_of_a_word_are_read(rt: HostRuntime) {
    for (word, radixes) in &[
        (DECIMAL, [10; 4]), (0x0A000A00_00000000_00000000_0000000C, [10; 4]), (0x0A0A1000_00000000_00000000_0000000C, [16, 16, 10, 10]),
        (0x00001000_00000000_00000000_0000000C, [16; 4]),
    ] {
        let view = NumberFormat::new(*word);
        assert_eq!(rt; [view.radix(), view.mantissa_radix(), view.exponent_base(), view.exponent_radix()], *radixes);
    }
    for (radix, powers) in &[(15, [50625, 2562890625]), (16, [65536, 0]), (36, [1679616, 3611361280]), (255, [4228250625, 3357276161])] {
        let view = NumberFormat::new(*radix << 104);
        assert_eq!(rt; [view.radix4(), view.radix8()], *powers);
    }
    let view = NumberFormat::new(0x00000A00_00000000_00000200_0000000C);
    assert!(rt; view.consecutive_digit_separator() && !view.internal_digit_separator() && !view.has_digit_separator());
    assert!(rt; NumberFormat::new(0x0A0A0A00_00000000_00000000_00000004).required_digits());
    let view = NumberFormat::new(0xFFFFFFFF_FFFFFFFF_FFFFFFFF_FFFFFFFF);
    let flags = [view.flags(), view.interface_flags(), view.exponent_flags(), view.digit_separator_flags()];
    assert_eq!(rt; flags, [0x1FFF_0003_FFFF, 0xFFF_0000_63CF, 0x924_0000_43C4, 0x1FFF_0000_0000]);
    // The bits of a mask, shifted and cut to 32, or the radix if these are 0.
    let radix = |mask, shift| radix_from_flags(DECIMAL, mask, shift);
    assert_eq!(rt; [radix(EXPONENT_BASE, 112), radix(EXPONENT_BASE, 0), radix(FLAG_MASK, 0)], [10, 10, 12]);
}

#[test]
#[rattlefmt::skip]
fn the_first_broken_rule_decides_the_error(rt: HostRuntime) {
    for (word, error) in &[
        (0xFFFFFF00_0000007E_00000001_0000000C, Error::InvalidMantissaRadix), (0x0A010A00_00000000_00000000_0000000C, Error::InvalidExponentBase),
        (0x250A0A00_00000000_00000000_0000000C, Error::InvalidExponentRadix), (0x00000A00_0000002B_00000000_0000000C, Error::InvalidDigitSeparator),
        (0x10000A00_00000061_00000000_0000000C, Error::InvalidDigitSeparator), (0x00000A00_2D000000_00000000_0000000C, Error::InvalidBasePrefix),
        (0x0A001000_62000000_00000000_0000000C, Error::InvalidBasePrefix), (0x00000A7F_00000000_00000000_0000000C, Error::InvalidBaseSuffix),
        // One letter in both cases: the flags of the prefix and of the suffix decide.
        (0x00000A48_68000000_00000000_0001000C, Error::InvalidPunctuation), (0x00000A48_68000000_00000000_0002000C, Error::InvalidPunctuation),
        (0x00000A48_68000000_00000000_0003000C, Error::Success), (0x00000A00_78000058_00000000_0001000C, Error::Success),
        (0x00000A00_00000000_00000000_0000404C, Error::InvalidExponentFlags), (0x00000A00_00000000_00000000_00004C4C, Error::InvalidExponentFlags),
        (0x00000A00_00000000_00000000_0000003C, Error::InvalidMantissaSign), (0x00000A00_00000000_00000000_0000018C, Error::InvalidExponentSign),
        (0x00000A00_00000000_00000000_00000C0C, Error::InvalidSpecial), (0x00000A00_00000000_00001000_0000040C, Error::InvalidSpecial),
        (0x00000A00_00000000_00000400_0000000C, Error::InvalidConsecutiveFractionDigitSeparator),
        (0x00000A00_00000000_00000800_0000000C, Error::InvalidConsecutiveExponentDigitSeparator),
    ] {
        assert_eq!(rt; [format_error_impl(*word), format_error(*word), NumberFormat::new(*word).error()], [*error; 3], "{word:#034X}");
    }
    // A radix is packed without a test.
    for (packed, word, error) in &[
        (STANDARD, 0x00000A00_00000000_00000000_0000000C, Error::Success), (Builder::decimal(), DECIMAL, Error::Success),
        (Builder::binary(), 0x02020200_00000000_00000000_0000000C, Error::Success),
        (Builder::octal(), 0x08080800_00000000_00000000_0000000C, Error::Success),
        (Builder::hexadecimal(), 0x10101000_00000000_00000000_0000000C, Error::Success),
        (Builder::from_radix(32), 0x20202000_00000000_00000000_0000000C, Error::Success), (Builder::from_radix(0), 0xC, Error::InvalidMantissaRadix),
        (Builder::from_radix(37), 0x25252500_00000000_00000000_0000000C, Error::InvalidMantissaRadix),
    ] {
        assert_eq!(rt; (*packed, format_error(*packed)), (*word, *error));
    }
}

#[test]
#[rattlefmt::skip]
fn each_byte_has_one_role(rt: HostRuntime) {
    for (word, is_valid) in &[
        (0x00000A00_00000065_00001FFF_0000000C, true), (0x0A0A1000_00000065_00001FFF_0000000C, false),
        (0xFFFFFF00_0000007E_00000001_0000000C, true), (0xFFFFFF00_000000FF_00000001_0000000C, false),
    ] {
        assert_eq!(rt; is_valid_digit_separator(*word), *is_valid, "{word:#034X}");
    }
    for (word, exponent, point, is_valid) in &[
        (DECIMAL, b'e', b'.', true), (Builder::hexadecimal(), b'e', b'.', false), (Builder::hexadecimal(), b'^', b'.', true),
        (DECIMAL, b'e', b'e', false), (DECIMAL, 0, b'.', false),
        // A separator that no flag allows has its role, too.
        (0x0A0A0A00_0000005F_00000000_0000000C, b'_', b'.', false), (0x0A0A0A00_0000005F_00000000_0000000C, b'e', b'.', true),
        (0x00000A00_45000000_00000000_0000000C, b'e', b'.', false), (0x00000A00_45000000_00000000_0001800C, b'e', b'.', true),
        (DECIMAL, b'e', b'E', false), (0x0A0A0A00_00000000_00000000_0000800C, b'e', b'E', true),
    ] {
        assert_eq!(rt; is_valid_options_punctuation(*word, *exponent, *point), *is_valid, "{word:#034X} {exponent} {point}");
    }
}

#[test]
#[rattlefmt::skip]
fn a_word_is_filled_then_edited_and_then_loses_an_unused_separator(rt: HostRuntime) {
    let unused = 0x0A0A0A00_0000005F_00000000_0000000C;
    let allowed = |flag| Edit::Flag(FlagSetter::DigitSeparatorFlags, flag);
    let rows: [(u128, &[Edit], u128); 7] = [
        (STANDARD, &[Edit::Radix(16)], 0x0A0A1000_00000000_00000000_0000000C),
        (DECIMAL, &[Edit::ExponentBase(None)], 0x0A000A00_00000000_00000000_0000000C),
        (unused, &[Edit::Flag(FlagSetter::IntegerInternalDigitSeparator, true)], 0x0A0A0A00_0000005F_00000001_0000000C),
        (normal_form(unused), &[Edit::Flag(FlagSetter::IntegerInternalDigitSeparator, true)], 0x0A0A0A00_00000000_00000001_0000000C),
        (DECIMAL, &[Edit::DigitSeparator(NonZeroU8::new(95)), allowed(true), allowed(false)], DECIMAL),
        (DECIMAL, &[Edit::Flag(FlagSetter::RequiredDigits, false), Edit::Flag(FlagSetter::RequiredExponentDigits, true)],
            0x0A0A0A00_00000000_00000000_00000004),
        // A mantissa radix of 0 fills nothing.
        (0xC, &[Edit::MantissaRadix(8)], 0x00000800_00000000_00000000_0000000C),
    ];
    for (word, edits, edited) in &rows {
        assert_eq!(rt; edit_word(*word, edits), *edited);
    }
    let (mut radixes, mut groups) = ([Edit::MantissaRadix(0); 10_000], [allowed(false); 10_000]);
    for index in 0..10_000 {
        radixes[index] = Edit::MantissaRadix((index % 256) as u8);
        groups[index] = allowed(index % 2 == 1);
    }
    assert_eq!(rt; edit_word(STANDARD, &radixes), 0x0A0A0F00_00000000_00000000_0000000C);
    assert_eq!(rt; edit_word(STANDARD, &groups), 0x0A0A0A00_00000000_00001FFF_0000000C);
    assert_eq!(rt; edit_word(STANDARD, &groups[..9_999]), DECIMAL);
}

#[test]
#[rattlefmt::skip]
fn an_old_word_becomes_its_normal_form_if_that_is_lawful(rt: HostRuntime) {
    let (radix, punctuation, consecutive) = (Error::InvalidMantissaRadix, Error::InvalidPunctuation, Error::InvalidConsecutiveIntegerDigitSeparator);
    for (word, error, normal, normal_error) in &[
        (STANDARD, Error::Success, DECIMAL, Error::Success), (0, radix, 0, radix),
        (0xFFFFFFFF_FFFFFFFF_FFFFFFFF_FFFFFFFF, radix, FIELDS, radix), (0x0A0A0A00_0000005F_00000000_0000000C, Error::Success, DECIMAL, Error::Success),
        (0x0A0A0A00_00000035_00000000_0000000C, Error::InvalidDigitSeparator, DECIMAL, Error::Success),
        (0x00000A00_00000000_00000000_8000000C, Error::InvalidFlags, DECIMAL, Error::Success),
        (0x0A0A0000_00000000_00000000_0000000C, radix, 0x0A0A0000_00000000_00000000_0000000C, radix),
        (0x0A0A0100_00000000_00000000_0000000C, radix, 0x0A0A0100_00000000_00000000_0000000C, radix),
        (0x0AFF0A00_00000000_00000000_0000000C, Error::InvalidExponentBase, 0x0AFF0A00_00000000_00000000_0000000C, Error::InvalidExponentBase),
        (0x00000A00_00000000_00001FFF_0000000C, Error::Success, 0x0A0A0A00_00000000_00001FFF_0000000C, Error::Success),
        (0x00000A00_78000078_00000000_0000000C, punctuation, 0x0A0A0A00_78000000_00000000_0000000C, Error::Success),
        (0x00000A00_78000058_00000000_0000000C, punctuation, 0x0A0A0A00_78000000_00000000_0000000C, Error::Success),
        (0x00000A48_68000000_00000000_0000000C, punctuation, 0x0A0A0A48_68000000_00000000_0000000C, punctuation),
        (0x24242424_24000024_00000000_0000000C, punctuation, 0x24242424_24000000_00000000_0000000C, punctuation),
        (0x00000A00_00000000_00000200_8000000C, consecutive, 0x0A0A0A00_00000000_00000200_0000000C, consecutive),
    ] {
        assert_eq!(rt; (format_error(*word), normal_form(*word), format_error(*normal)), (*error, *normal, *normal_error));
        assert_eq!(rt; migrate(*word), if *normal_error == Error::Success { Ok(*normal) } else { Err(*normal_error) }, "{word:#034X}");
        assert!(rt; same_format(*word, *normal), "{word:#034X}");
    }
    // Each reserved bit is refused, and is lost in the normal form.
    for bit in 0..128_u32 {
        assert!(rt; bit < 128);
        let word = DECIMAL | 1 << bit & !FIELDS;
        let error = if word == DECIMAL { Error::Success } else { Error::InvalidFlags };
        assert_eq!(rt; (format_error(word), normal_form(word)), (error, DECIMAL), "{bit}");
    }
}

#[test]
#[rattlefmt::skip]
fn the_edits_of_a_word_build_it_if_a_builder_can(rt: HostRuntime) {
    for (word, built, number) in &[
        (STANDARD, STANDARD, 0), (DECIMAL, DECIMAL, 2), (0, 0, 3), (0x00000A00_00000000_00000000_8000000C, STANDARD, 0),
        (0x0A0A0A00_0000005F_00000000_0000000C, DECIMAL, 3), (0xFFFFFFFF_FFFFFFFF_FFFFFFFF_FFFFFFFF, FIELDS, 35),
    ] {
        let (edits, count) = edits_of(*word);
        assert!(rt; count == *number, "{word:#034X}");
        let needed = apply_all(Builder::new(), &edits[..count]).build_unchecked();
        let all = apply_all(Builder::new(), &edits).build_unchecked();
        assert!(rt; [needed, all] == [*built; 2], "{word:#034X}");
        assert!(rt; is_built(*word) == (word == built), "{word:#034X}");
    }
    let (edits, _) = edits_of(0);
    assert!(rt; edits[0] == Edit::Flag(FlagSetter::RequiredExponentDigits, false));
}
