//! Runs of digits are written.

ghost use Rattle.std.specs.Prelude.{◌≡◌, ◌++◌, ◌∷◌, [], true, false, ◌-◌, ◌<◌, ◌≤◌, ◌/◌, ◌%◌, ◌^◌, ℕ, List, Some, length, map, option_to_list, replicate};
ghost use Rattle.std.specs.Prelude.{slice_get};
ghost use Rattle.lexical_util.specs.Digits.{digit_characters};
ghost use Rattle.std.specs.Int.Digits.{digits_of};
ghost use Rattle.lexical_number.specs.Number.{digits_in, number, places};
ghost use Rattle.lexical_util.specs.Rules.{IsRadix};
ghost use Rattle.lexical_writer.specs.Digits.{at_least, begins_decimal, character, ends_group, grouped, grouped_front, only_if, run_digits};
ghost use Rattle.lexical_writer.specs.Digits.{run_text, separated, size_of, values_of};
ghost use Rattle.lexical_writer.specs.declared.run.Source.TheVariants as sources;

use crate::run::{Padded, Pattern, Run, Source};
use crate::sink::Sink;
use lexical_base::digit::{char_to_digit, digit_to_char, digit_to_char_const};
use lexical_number::small::count;

// Returns what follows the zeros that the digits among bytes begin with.
pub(crate) fn without_zeros(bytes: &[u8], radix: u32) -> &[u8]
    requires { IsRadix radix }
    ensures { digits_in radix result.now ≡ digits_of radix (number radix bytes.now) }
{
    for (index, byte) in bytes.iter().enumerate() {
        if let Some(1..) = char_to_digit(*byte, radix) {
            return &bytes[index..];
        }
    }
    &[]
}

// Returns a number without its last digit, and this digit.
#[inline(always)]
fn split_last(number: u128, radix: u32) -> (u128, u32)
    requires { IsRadix radix }
    ensures rest { result.0 ≡ number / radix }
    ensures digit { result.1 ≡ number % radix }
{
    let base = radix as u128;
    if number > u64::MAX as u128 {
        return (number / base, (number % base) as u32);
    }
    let short = number as u64;
    (
        (short / radix as u64) as u128,
        (short % radix as u64) as u32,
    )
}

// Writes the digits of a number to the end of a buffer, and returns them.
#[tactic(auto, using(crate::proofs::DigitLemmas::shorter))]
pub(crate) fn characters(buffer: &mut [u8], number: u128, radix: u32) -> &[u8]
    requires radix { IsRadix radix }
    requires room { number < 2 ^ length buffer.old }
    ensures { result.now ≡ map (character false) (digits_of radix number) }
{
    let mut left = number;
    let mut start = buffer.len();
    while left > 0 {
        let (rest, digit) = split_last(left, radix);
        start -= 1;
        buffer[start] = digit_to_char(digit);
        left = rest;
    }
    &buffer[start..]
}

// The characters of the two digits of the numbers below 100.
const TENS: [u8; 100] =
    *b"0000000000111111111122222222223333333333444444444455555555556666666666777777777788888888889999999999";

const ONES: [u8; 100] =
    *b"0123456789012345678901234567890123456789012345678901234567890123456789012345678901234567890123456789";

// Returns the characters of the two digits of a number.
#[inline(always)]
const fn two_characters(pair: usize) -> (u8, u8)
    requires { pair < 100 }
    ensures tens { slice_get digit_characters (pair / 10) ≡ Some result.0 }
    ensures ones { slice_get digit_characters (pair % 10) ≡ Some result.1 }
{
    (TENS[pair], ONES[pair])
}

// Writes the decimal digits of a number to the end of a buffer, and returns them. Two at a time take less time.
#[inline(always)]
#[tactic(auto, using(crate::proofs::DigitLemmas::shorter, crate::proofs::DigitLemmas::two_shorter))]
pub(crate) fn decimals(buffer: &mut [u8], number: u64) -> &[u8]
    requires { 20 ≤ length buffer.old }
    ensures { result.now ≡ map (character false) (digits_of 10 number) }
{
    let mut left = number;
    let mut start = buffer.len();
    while left >= 10 {
        let (tens, ones) = two_characters((left % 100) as usize);
        buffer[start - 1] = ones;
        buffer[start - 2] = tens;
        start -= 2;
        left /= 100;
    }
    if left > 0 {
        start -= 1;
        buffer[start] = digit_to_char_const(left as u32, 10);
    }
    &buffer[start..]
}

// Returns whether a group ends where `left` digits are left.
#[inline(always)]
const fn ends_group(pattern: Pattern, left: u128) -> bool
    ensures { result ≡ ends_group pattern left }
{
    let Pattern { last, higher, .. } = pattern;
    if left > usize::MAX as u128 {
        return higher > 0 && (left - last as u128) % higher as u128 == 0;
    }
    // Division takes less time.
    let left = left as usize;
    left > 0 && higher > 0 && last <= left && (left - last) % higher == 0
}

// Returns `byte` if `condition` is true.
#[inline(always)]
pub(crate) const fn only_if(condition: bool, byte: u8) -> Option<u8>
    ensures { result ≡ only_if condition byte }
{
    if condition { Some(byte) } else { None }
}

// Writes a byte, if there is one.
#[inline(always)]
pub(crate) fn put_if_any<S: Sink>(sink: &mut S, byte: Option<u8>)
    ensures { (start : S) → (text : List ℕ) → S.has start sink.old text
        → S.has start sink.new (text ++ option_to_list byte) }
{
    if let Some(byte) = byte {
        sink.put(byte);
    }
}

// Returns the character of a digit.
#[inline(always)]
const fn character(digit: u32, lowercase: bool) -> u8
    requires { digit < 36 }
    ensures { result ≡ character lowercase digit }
{
    let uppercase = digit_to_char(digit);
    if lowercase {
        uppercase.to_ascii_lowercase()
    } else {
        uppercase
    }
}

// Writes a digit and, where a group ends, a separator. Behind the digit, `left` more are to be written.
#[inline(always)]
fn put_digit<S: Sink>(sink: &mut S, digit: u32, left: u128, run: &Run)
    requires { digit < 36 }
    ensures { (start : S) → (text : List ℕ) → S.has start sink.old text
        → S.has start sink.new (text ++ character run.now.pattern.lowercase digit ∷ separated run.now.pattern left) }
{
    sink.put(character(digit, run.pattern.lowercase));
    put_if_any(
        sink,
        only_if(ends_group(run.pattern, left), run.pattern.separator),
    );
}

// Writes the digits among bytes in groups, which are the first of `count` digits, and returns how many are left.
fn put_digits<S: Sink>(sink: &mut S, bytes: &[u8], count: u128, run: &Run) -> u128
    requires { places run.now.radix bytes.now ≤ count }
    ensures left { result ≡ count - places run.now.radix bytes.now }
    ensures text { (start : S) → (text : List ℕ) → S.has start sink.old text
        → S.has start sink.new (text ++ grouped_front run.now.pattern count (digits_in run.now.radix bytes.now)) }
{
    let mut left = count;
    for byte in bytes {
        if let Some(digit) = char_to_digit(*byte, run.radix) {
            left -= 1;
            put_digit(sink, digit, left, run);
        }
    }
    left
}

// Writes zeros in groups, which are the first of `count` digits, and returns how many are left.
fn put_zeros<S: Sink>(sink: &mut S, zeros: u128, count: u128, run: &Run) -> u128
    requires { zeros ≤ count }
    ensures left { result ≡ count - zeros }
    ensures text { (start : S) → (text : List ℕ) → S.has start sink.old text
        → S.has start sink.new (text ++ grouped_front run.now.pattern count (replicate zeros 0)) }
{
    let mut left = count;
    let end = count - zeros;
    while left > end {
        left -= 1;
        put_digit(sink, 0, left, run);
    }
    left
}

// Writes digits in groups, and zeros before them if there are fewer than the run has at least.
fn put_padded<S: Sink>(sink: &mut S, padded: &Padded, run: &Run)
    ensures { (start : S) → (text : List ℕ) → S.has start sink.old text
        → S.has start sink.new (text ++ grouped run.now.pattern (at_least run.now.least (values_of run.now.radix (sources.Padded padded.now)))) }
{
    let count = padded.count(run.radix);
    let missing = run.least.saturating_sub(count);
    let zeros = missing + padded.before as u128;
    let left = put_zeros(sink, zeros, missing + count, run);
    let left = put_digits(sink, padded.digits, left, run);
    put_zeros(sink, padded.after as u128, left, run);
}

// Returns whether all bytes are uppercase digits.
fn are_characters(bytes: &[u8], radix: u32) -> bool
    requires { IsRadix radix }
    ensures { result ≡ true → bytes.now ≡ map (character false) (digits_in radix bytes.now) }
{
    for byte in bytes {
        let Some(digit) = char_to_digit(*byte, radix) else {
            return false;
        };
        if digit_to_char(digit) != *byte {
            return false;
        }
    }
    true
}

// Writes uppercase digits as `put_padded` does.
#[tactic(auto, using(crate::proofs::DigitLemmas::plain_text))]
fn put_characters<S: Sink>(sink: &mut S, bytes: &[u8], run: &Run)
    requires { bytes.now ≡ map (character false) (digits_in run.now.radix bytes.now) }
    ensures { (start : S) → (text : List ℕ) → S.has start sink.old text
        → S.has start sink.new (text ++ grouped run.now.pattern (at_least run.now.least (digits_in run.now.radix bytes.now))) }
{
    if run.pattern.higher == 0 && !run.pattern.lowercase && run.least <= bytes.len() as u128 {
        sink.put_all(bytes);
    } else {
        put_padded(sink, &Padded::of(bytes), run);
    }
}

// Writes the digits of a number as `put_padded` does.
#[tactic(auto, using(crate::proofs::DigitLemmas::read_back))]
fn put_number<S: Sink>(sink: &mut S, number: u128, run: &Run)
    ensures { (start : S) → (text : List ℕ) → S.has start sink.old text
        → S.has start sink.new (text ++ grouped run.now.pattern (at_least run.now.least (digits_of run.now.radix number))) }
{
    if run.radix == 10 && number <= u64::MAX as u128 {
        put_characters(sink, decimals(&mut [0; 20], number as u64), run);
    } else {
        put_characters(sink, characters(&mut [0; 128], number, run.radix), run);
    }
}

// Writes the digits of a number as `put_padded` does, with zeros before them if there are fewer than `least`.
#[cold]
#[tactic(auto, using(crate::proofs::DigitLemmas::least_of))]
fn put_least<S: Sink>(sink: &mut S, number: u128, least: usize, run: &Run)
    ensures { (start : S) → (text : List ℕ) → S.has start sink.old text
        → S.has start sink.new (text ++ grouped run.now.pattern (at_least run.now.least (at_least least (digits_of run.now.radix number)))) }
{
    let run = Run {
        source: run.source,
        radix: run.radix,
        least: run.least.max(least as u128),
        pattern: run.pattern,
    };
    put_number(sink, number, &run);
}

// Returns whether the first of the digits among bytes is decimal.
fn begins_decimal(bytes: &[u8], radix: u32) -> bool
    requires { IsRadix radix }
    ensures { result ≡ begins_decimal (digits_in radix bytes.now) }
{
    for byte in bytes {
        if let Some(digit) = char_to_digit(*byte, radix) {
            return digit < 10;
        }
    }
    false
}

impl<'a> Padded<'a> {
    // Returns whether the first digit is decimal.
    fn begins_decimal(&self, radix: u32) -> bool
        requires { IsRadix radix }
        ensures { result ≡ begins_decimal (values_of radix (sources.Padded self.now)) }
    {
        if self.before > 0 {
            true
        } else if count(self.digits, radix) > 0 {
            begins_decimal(self.digits, radix)
        } else {
            self.after > 0
        }
    }

    // Returns the digits among bytes, without zeros around them.
    #[inline(always)]
    pub(crate) const fn of(bytes: &'a [u8]) -> Padded<'a>
        ensures { (radix : ℕ) → values_of radix (sources.Padded result) ≡ digits_in radix bytes.entry.now }
    {
        Padded {
            before: 0,
            digits: bytes,
            after: 0,
        }
    }

    // Returns the number of digits.
    pub(crate) fn count(&self, radix: u32) -> u128
        ensures count { result ≡ length (values_of radix (sources.Padded self.now)) }
        ensures small { result < 2 ^ 67 }
    {
        self.before as u128 + count(self.digits, radix) as u128 + self.after as u128
    }

    // Returns the digits without the zeros that they begin with.
    pub(crate) fn lean(&self, radix: u32) -> Padded<'a>
        requires { IsRadix radix }
        ensures { values_of radix (sources.Padded result) ≡ digits_of radix (size_of radix (sources.Padded self.now)) }
    {
        let digits = without_zeros(self.digits, radix);
        let some = count(digits, radix) > 0;
        Padded {
            before: 0,
            digits,
            after: if some { self.after } else { 0 },
        }
    }
}

impl Source<'_> {
    // Returns the number of digits.
    pub(crate) fn count(&self, radix: u32) -> u128
        requires { IsRadix radix }
        ensures count { result ≡ length (values_of radix self.now) }
        ensures small { result < 2 ^ 67 }
    {
        match self {
            Source::Bytes(bytes) => count(bytes, radix) as u128,
            Source::Number(number) => characters(&mut [0; 128], *number, radix).len() as u128,
            Source::Least(number, least) => {
                (characters(&mut [0; 128], *number, radix).len() as u128).max(*least as u128)
            }
            Source::Padded(padded) => padded.count(radix),
        }
    }

    // Returns whether the first digit is decimal.
    #[tactic(auto, using(crate::proofs::DigitLemmas::read_back, crate::proofs::DigitLemmas::as_many, crate::proofs::DigitLemmas::enough))]
    pub(crate) fn begins_decimal(&self, radix: u32) -> bool
        requires { IsRadix radix }
        ensures { result ≡ begins_decimal (values_of radix self.now) }
    {
        match self {
            Source::Bytes(bytes) => begins_decimal(bytes, radix),
            Source::Number(number) => begins_decimal(
                characters(&mut [0; 128], *number, radix),
                radix,
            ),
            Source::Least(number, least) => characters(&mut [0; 128], *number, radix).len() < *least
                || begins_decimal(characters(&mut [0; 128], *number, radix), radix),
            Source::Padded(padded) => padded.begins_decimal(radix),
        }
    }
}

impl Run<'_> {
    // Writes the digits.
    #[inline(always)]
    pub(crate) fn put<S: Sink>(&self, sink: &mut S)
        ensures { (start : S) → (text : List ℕ) → S.has start sink.old text
            → S.has start sink.new (text ++ run_text self.now) }
    {
        match self.source {
            Source::Number(0) if self.least == 0 => (),
            Source::Bytes(bytes) => {
                if are_characters(bytes, self.radix) {
                    put_characters(sink, bytes, self);
                } else {
                    put_padded(sink, &Padded::of(bytes), self);
                }
            }
            Source::Number(number) => put_number(sink, number, self),
            Source::Least(number, least) => put_least(sink, number, least, self),
            Source::Padded(padded) => put_padded(sink, &padded, self),
        }
    }
}
