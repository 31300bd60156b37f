//! The smallest complete caller: a function that tests whether text consists only of digits.

ghost use Rattle.std.specs.Prelude.{◌↔◌, IsTrue, is_some};
ghost use Rattle.std.specs.List.{AllPass};
ghost use Rattle.lexical_util.specs.Digits.{digit_of};
ghost use Rattle.lexical_util.specs.Layout as layout;
ghost use Rattle.lexical_util.specs.Record.{raw};

use lexical_util::format::NumberFormat;

/// Returns whether every byte of `text` is a digit in the mantissa radix of `format`, which may be any word. If `text`
/// is empty, the result is `true`.
pub fn has_digits_alone(format: u128, text: &[u8]) -> bool
    ensures { IsTrue result
        ↔ AllPass (λ byte. is_some (digit_of byte ((raw format).byte layout.mantissa_radix))) text.now }
{
    let format = NumberFormat::new(format);
    text.iter()
        .all(|byte| format.mantissa_digit(*byte).is_some())
}
