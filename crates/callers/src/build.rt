//! Callers of a builder: a word whose radix is an argument, and a word without its digit separator.

ghost use Rattle.std.specs.Prelude.{◌≡◌, ◌≤◌, true};
ghost use Rattle.lexical_util.specs.Digits.{byte_value};
ghost use Rattle.lexical_util.specs.Layout as layout;
ghost use Rattle.lexical_util.specs.Record.{raw, set_byte};
ghost use Rattle.lexical_util.specs.Rules.{Lawful, Holds};

use lexical_util::format::{NumberFormatBuilder, Rule};
use lexical_util::laws::flags::rule_facts;
use lexical_util::laws::{builder_facts, change_facts, write_facts};

/// The format of decimal numbers with `_` between integer digits. Its exponent bytes are absent, so they follow the
/// mantissa radix.
pub const GROUPED: u128 = 0x00000A00_0000005F_00000001_0000000C;

/// States that [`GROUPED`] is lawful, and that none of its bytes is a digit of any radix.
#[tactic(auto, unfolding(lexical_util::specs::Unfoldable::on_literals))]
pub fn grouped_facts()
    ensures lawful { Lawful GROUPED }
    ensures separator { byte_value ((raw GROUPED).byte layout.digit_separator) ≡ 255 }
    ensures prefix { byte_value ((raw GROUPED).byte layout.base_prefix) ≡ 255 }
    ensures suffix { byte_value ((raw GROUPED).byte layout.base_suffix) ≡ 255 }
{}

/// Returns the format of numbers in `radix` with `_` between integer digits.
pub fn grouped(radix: u8) -> u128
    ensures radix { (raw result).byte layout.mantissa_radix ≡ radix }
    ensures separator { (raw result).byte layout.digit_separator ≡ 0x5F }
    ensures between_digits { (raw result).flag layout.integer_internal_digit_separator ≡ true }
    ensures lawful { 2 ≤ radix → radix ≤ 16 → Lawful result }
{
    write_facts();
    builder_facts();
    change_facts();
    grouped_facts();
    NumberFormatBuilder::from_word(GROUPED)
        .mantissa_radix(radix)
        .build_unchecked()
}

/// Returns `format`, which may be any word, without its digit separator.
pub fn plain(format: u128) -> u128
    ensures fields { raw result ≡ set_byte (raw format) layout.digit_separator 0 }

    // Each rule that the format satisfies still holds, so a lawful format stays lawful.
    ensures rules { (rule : Rule) → Holds rule format → Holds rule result }
    ensures lawful { Lawful format → Lawful result }
{
    change_facts();
    rule_facts();
    NumberFormatBuilder::from_word(format)
        .digit_separator(None)
        .build_unchecked()
}
