//! The 49 outcomes: their texts, and their order.

use lexical_util::error::Error;
use std::test::Fail;

// The outcomes in their order, parse errors with index 7, and their descriptions.
#[rattlefmt::skip]
const OUTCOMES: [(Error, &str); 49] = [
    (Error::Overflow(7), "'numeric overflow occurred'"), (Error::Underflow(7), "'numeric underflow occurred'"),
    (Error::InvalidDigit(7), "'invalid digit found'"), (Error::Empty(7), "'the string to parse was empty'"),
    (Error::EmptyMantissa(7), "'no significant digits found'"), (Error::EmptyExponent(7), "'exponent notation found without an exponent'"),
    (Error::EmptyInteger(7), "'invalid float with no integer digits'"), (Error::EmptyFraction(7), "'invalid float with no fraction digits'"),
    (Error::InvalidPositiveMantissaSign(7), "'invalid `+` sign before significant digits'"),
    (Error::MissingMantissaSign(7), "'missing required `+/-` sign for significant digits'"), (Error::InvalidExponent(7), "'exponent found but not allowed'"),
    (Error::InvalidPositiveExponentSign(7), "'invalid `+` sign in exponent'"), (Error::MissingExponentSign(7), "'missing required `+/-` sign for exponent'"),
    (Error::ExponentWithoutFraction(7), "'invalid float containing exponent without fraction'"),
    (Error::InvalidLeadingZeros(7), "'invalid number with leading zeros before digits'"), (Error::MissingExponent(7), "'missing required exponent'"),
    (Error::MissingSign(7), "'missing required `+/-` sign for integer'"), (Error::InvalidPositiveSign(7), "'invalid `+` sign for an integer was found'"),
    (Error::InvalidNegativeSign(7), "'invalid `-` sign for an unsigned type was found'"),
    (Error::InvalidMantissaRadix, "'invalid radix for mantissa digits'"), (Error::InvalidExponentBase, "'invalid exponent base'"),
    (Error::InvalidExponentRadix, "'invalid radix for exponent digits'"),
    (Error::InvalidDigitSeparator, "'invalid digit separator: must be ASCII and not a digit or a `+/-` sign'"),
    (Error::InvalidDecimalPoint, "'invalid decimal point: must be ASCII and not a digit or a `+/-` sign'"),
    (Error::InvalidExponentSymbol, "'invalid exponent symbol: must be ASCII and not a digit or a `+/-` sign'"),
    (Error::InvalidBasePrefix, "'invalid base prefix character'"), (Error::InvalidBaseSuffix, "'invalid base suffix character'"),
    (Error::InvalidPunctuation, "'invalid punctuation: multiple characters overlap'"),
    (Error::InvalidExponentFlags, "'exponent flags set while disabling exponent notation'"),
    (Error::InvalidMantissaSign, "'disabled the `+` sign while requiring a sign for significant digits'"),
    (Error::InvalidExponentSign, "'disabled the `+` sign while requiring a sign for exponent digits'"),
    (Error::InvalidSpecial, "'special flags set while disabling special floats'"),
    (Error::InvalidConsecutiveIntegerDigitSeparator, "'enabled consecutive digit separators in the integer without setting a valid location'"),
    (Error::InvalidConsecutiveFractionDigitSeparator, "'enabled consecutive digit separators in the fraction without setting a valid location'"),
    (Error::InvalidConsecutiveExponentDigitSeparator, "'enabled consecutive digit separators in the exponent without setting a valid location'"),
    (Error::InvalidFlags, "'invalid flags enabled without the format feature'"),
    (Error::InvalidNanString, "'NaN string must started with `n`'"), (Error::NanStringTooLong, "'NaN string is too long'"),
    (Error::InvalidInfString, "'short infinity string must started with `i`'"), (Error::InfStringTooLong, "'short infinity string is too long'"),
    (Error::InvalidInfinityString, "'long infinity string must started with `i`'"), (Error::InfinityStringTooLong, "'long infinity string is too long'"),
    (Error::InfinityStringTooShort, "'long infinity string is too short'"),
    (Error::InvalidFloatParseAlgorithm, "'invalid combination of float parse algorithms'"), (Error::InvalidRadix, "'invalid radix for significant digits'"),
    (Error::InvalidFloatPrecision, "'invalid float precision: min digits is larger than max digits'"),
    (Error::InvalidNegativeExponentBreak, "'invalid negative exponent break: value is above 0'"),
    (Error::InvalidPositiveExponentBreak, "'invalid positive exponent break: value is below 0'"),
    (Error::Success, "'not actually an error'"),
];

#[test]
fn each_outcome_has_its_text_and_its_place(rt: HostRuntime) -> Result<(), Fail> {
    for (rank, (error, description)) in OUTCOMES.iter().enumerate() {
        let (class, index, at) = match rank {
            0..=18 => ("lexical parse error: ", Some(7), " at index 7"),
            19..=35 => ("lexical number format error: ", None, ""),
            36..=47 => ("lexical options error: ", None, ""),
            _ => ("", None, ""),
        };
        let text = format!(in rt.alloc(); "{class}{description}{at}")?;
        assert_eq!(rt; format!(in rt.alloc(); "{error}")?, text);
        // No width and no fill changes it.
        let padded = format!(in rt.alloc(); "{error:80}{error:*^80}{error:080}{error:é>80}")?;
        assert_eq!(rt; padded, format!(in rt.alloc(); "{text}{text}{text}{text}")?);
        assert_eq!(rt; error.description(), *description);
        assert!(rt; error.index().copied() == index, "{error}");
        let is_after = OUTCOMES[..rank].iter().all(|(less, _)| less < error);
        assert!(rt; is_after, "{error}");
    }
    let (digit, sign) = (Error::InvalidDigit(3), Error::MissingSign(0));
    let printed = format!(in rt.alloc(); "{digit}; {sign}")?;
    let digit = "lexical parse error: 'invalid digit found' at index 3";
    let sign = "lexical parse error: 'missing required `+/-` sign for integer' at index 0";
    assert_eq!(rt; printed, format!(in rt.alloc(); "{digit}; {sign}")?);
    assert_eq!(rt; Error::Overflow(4).index(), Some(&4));
    let largest = Error::InvalidNegativeSign(18446744073709551615);
    assert!(rt; largest < Error::InvalidMantissaRadix && Error::Overflow(5) < Error::Underflow(0));
    assert!(rt; Error::Overflow(4) < Error::Overflow(5));
    Ok(())
}
