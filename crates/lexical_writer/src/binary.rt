//! Floats as odd numbers times powers of two.

ghost use Rattle.std.specs.Prelude.{◌≡◌, suc, ◌*◌, ◌/◌, ◌%◌, ◌^◌, ◌<◌, ◌≤◌, true};
ghost use Rattle.std.specs.Float.Ieee.{hid, ones};
ghost use Rattle.lexical_number.specs.Float.{format_of, is_power_of_two};
ghost use Rattle.lexical_number.specs.Shortest.{HasSize};

use crate::form::Powers;
use lexical_number::shortest::units_of;

// What is added to the exponent of a power of two. Each number of bits of a digit divides it.
const RAISED: u64 = 1200;

// Returns the float with these bits as an odd number, or 0, times two to the power of what is returned, less 1200.
fn odd_of(double: bool, size: u64) -> (u64, u64)
    requires { size < ones (format_of double) * hid (format_of double) }
    ensures size { HasSize (format_of double) size (result.0 * 2 ^ result.1) (2 ^ 1200) }
    ensures odd { 0 < result.0 → result.0 % 2 ≡ 1 }
    ensures zero { result.0 ≡ 0 → result.1 ≡ 1200 }
    ensures limits { (result.0 < 2 ^ 53) × (result.1 < 4000) }
{
    let units = units_of(double, size);
    if units.size == 0 {
        return (0, RAISED);
    }
    let zeros = units.size.trailing_zeros() as u64 % 64;
    (units.size >> zeros, units.scale + zeros + RAISED - 1074)
}

// Returns the number of bits of a digit of a radix that is a power of two.
const fn bits_in(radix: u32) -> u64
    requires { is_power_of_two radix ≡ true }
    ensures { (radix ≡ 2 ^ result) × (1 ≤ result) × (result ≤ 5) × (1200 / result * result ≡ 1200) }
{
    match radix {
        2 => 1,
        4 => 2,
        8 => 3,
        16 => 4,
        _ => 5,
    }
}

// Returns the exponent of two of the first bit of a number times two to a power, or 1200 for the number 0.
fn top_of(number: u64, power: u64) -> u64
    requires { (number < 2 ^ 53) × (power < 4000) }
    ensures first { 0 < number → (2 ^ result ≤ number * 2 ^ power) × (number * 2 ^ power < 2 ^ suc result) }
    ensures limit { result < 4064 }
    ensures zero { number ≡ 0 → result ≡ 1200 }
{
    if number == 0 {
        RAISED
    } else {
        power + (63 - number.leading_zeros() as u64 % 64)
    }
}

// Returns the float with these bits in a radix and with an exponent base that are powers of two.
pub(crate) fn binary_powers(double: bool, size: u64, radix: u32, base: u32) -> Powers
    requires size { size < ones (format_of double) * hid (format_of double) }
    requires radixes { (is_power_of_two radix ≡ true) × (is_power_of_two base ≡ true) }
    ensures size { HasSize (format_of double) size (result.number * result.base ^ result.power) (result.base ^ result.zero) }
    ensures limit { result.number < 2 ^ 53 }
    ensures bases { (result.base ≡ 2) × (radix ≡ 2 ^ result.width) × (base ≡ 2 ^ result.step) }
{
    let (number, power) = odd_of(double, size);
    Powers {
        number,
        base: 2,
        power,
        top: top_of(number, power),
        zero: RAISED,
        width: bits_in(radix),
        step: bits_in(base),
    }
}
