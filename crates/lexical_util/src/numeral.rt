//! Parses numbers that are written in a given radix.

ghost use Rattle.std.specs.Prelude.{◌≤◌, IsTrue};
ghost use Rattle.std.specs.Option.{SomeIff};
ghost use Rattle.lexical_base.specs.Digits.{numeral};
ghost use Rattle.lexical_util.specs.Additions.Numeral.{is_numeral};

use lexical_base::digit::char_to_digit;

/// Parses `digits` as a number in `radix`. Returns `None` unless `digits` consists of 1 to `most` digits in this radix.
/// The radix must be at most 16, and `most` must be at most 32, so that the number fits in a `u128`.
#[must_use]
#[tactic(auto, using(crate::proofs::NumeralLemmas::reading))]
pub fn read_numeral(digits: &[u8], radix: u32, most: usize) -> Option<u128>
    requires radix { radix ≤ 16 }
    requires most { most ≤ 32 }
    ensures { SomeIff result (IsTrue (is_numeral radix most digits.now)) (numeral radix digits.now) }
{
    if digits.is_empty() || digits.len() > most {
        return None;
    }
    let mut number = 0;
    for digit in digits {
        let value = char_to_digit(*digit, radix)?;
        number = number * radix as u128 + value as u128;
    }
    Some(number)
}
