//! Theorems on writes to the fields of a builder. Each is a clause of a function with an empty body.

ghost use Rattle.std.specs.Prelude.{◌≡◌, ◌≤◌, ◌==◌, ℕ, List, [], ◌∷◌, ◌++◌, ◌⊎◌, None, IsTrue, IsFalse, unwrap_or};
ghost use Rattle.lexical_base.specs.Digits.{byte_value};
ghost use Rattle.lexical_flags.specs.Layout as layout;
ghost use Rattle.lexical_flags.specs.Layout.{Flag, Byte, shift};
ghost use Rattle.lexical_flags.specs.Record.{Record, HasBytes, raw, pack, set_byte, separator_allowed};
ghost use Rattle.lexical_flags.specs.Rules.{IsRadix, Holds, Lawful};
ghost use Rattle.lexical_flags.specs.declared.format_flags.rule.Rule.{Rule};
ghost use Rattle.lexical_builder.specs.Writes.{Write, write_byte, after, last_flag, last_byte};

use lexical_flags::laws::rule_facts;

/// States the fields of a record after writes, that an empty list of writes changes nothing, that applying two lists in
/// turn is equivalent to applying both as one list, that a field that no write writes keeps its value, and that writes of
/// different fields can be in any order.
#[tactic(auto, unfolding(crate::specs::Writes::after))]
pub fn write_facts()
    ensures flag { (r : Record) → (writes : List Write) → (f : Flag)
        → (after r writes).flag f ≡ unwrap_or (last_flag writes f) (r.flag f) }
    ensures byte { (r : Record) → (writes : List Write) → (b : Byte)
        → (after r writes).byte b ≡ unwrap_or (last_byte writes b) (r.byte b) }
    ensures none { (r : Record) → after r [] ≡ r }
    ensures append { (r : Record) → (first second : List Write)
        → after (after r first) second ≡ after r (first ++ second) }
    ensures kept_flag { (r : Record) → (writes : List Write) → (f : Flag) → last_flag writes f ≡ None
        → (after r writes).flag f ≡ r.flag f }
    ensures kept_byte { (r : Record) → (writes : List Write) → (b : Byte) → last_byte writes b ≡ None
        → (after r writes).byte b ≡ r.byte b }

    // If no field is written by both lists, they have the same effect in either order.
    ensures order { (r : Record) → (first second : List Write)
        → ((f : Flag) → (last_flag first f ≡ None) ⊎ (last_flag second f ≡ None))
        → ((b : Byte) → (last_byte first b ≡ None) ⊎ (last_byte second b ≡ None))
        → after r (first ++ second) ≡ after r (second ++ first) }
{}

/// States the fields of the word that a builder packs one by one: they are the fields of the builder.
pub fn builder_facts()
    ensures flag { (r : Record) → HasBytes r → (f : Flag) → (raw (pack r)).flag f ≡ r.flag f }
    ensures byte { (r : Record) → HasBytes r → (b : Byte) → IsFalse (shift b == shift layout.digit_separator)
        → (raw (pack r)).byte b ≡ r.byte b }

    // The digit separator is kept only if a flag of the record allows one.
    ensures digit_separator { (r : Record) → HasBytes r → IsTrue (separator_allowed r)
        → (raw (pack r)).byte layout.digit_separator ≡ r.byte layout.digit_separator }
{}

/// States that a lawful word stays lawful with another mantissa radix, which fields a word has without its digit separator,
/// and that it then breaks no further rule.
pub fn change_facts()
    // No byte of the word may be a digit of the new radix. An absent exponent byte follows the new radix.
    ensures radix { (word radix : ℕ) → Lawful word → IsRadix radix
        → radix ≤ byte_value ((raw word).byte layout.digit_separator)
        → radix ≤ byte_value ((raw word).byte layout.base_prefix)
        → radix ≤ byte_value ((raw word).byte layout.base_suffix)
        → Lawful (pack (after (raw word) (write_byte layout.mantissa_radix radix ∷ []))) }
    ensures no_separator_fields { (word bare : ℕ)
        → bare ≡ pack (after (raw word) (write_byte layout.digit_separator 0 ∷ []))
        → raw bare ≡ set_byte (raw word) layout.digit_separator 0 }
    ensures no_separator { (word : ℕ) → (rule : Rule) → Holds rule word
        → Holds rule (pack (after (raw word) (write_byte layout.digit_separator 0 ∷ []))) }
{
    rule_facts();
}
