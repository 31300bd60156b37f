//! Laws: public functions that do nothing, whose clauses are theorems. To use a law, call it.

ghost use Rattle.std.specs.Prelude.{◌≡◌, ◌↔◌, ◌<◌, ℕ, List, All, IsTrue, unwrap_or};
ghost use Rattle.lexical_base.specs.Digits.{byte_value};
ghost use Rattle.lexical_flags.specs.Layout as layout;
ghost use Rattle.lexical_flags.specs.Layout.{Flag};
ghost use Rattle.lexical_flags.specs.Record.{raw, separator_allowed, effective_exponent_base, effective_exponent_radix};
ghost use Rattle.lexical_flags.specs.Options.{OptionsFit};
ghost use Rattle.lexical_flags.specs.Roles.{digits, used_separator};
ghost use Rattle.lexical_flags.specs.Rules.{Lawful};
ghost use Rattle.lexical_builder.specs.Writes.{Write, IsLegal, last_flag, last_byte};
ghost use Rattle.lexical_util.specs.Additions.ByteRoles.{role_set, first_role, IsOnlyRole};
ghost use Rattle.lexical_util.specs.Edits.{edited};
ghost use Rattle.lexical_util.specs.NormalForm.{normal_form_of, SameFormat};
ghost use Rattle.lexical_util.specs.declared.feature_format.roles.Role.{Role};

pub mod examples;

pub use lexical_base::laws as base;
pub use lexical_builder::laws::{builder_facts, change_facts, write_facts};
pub use lexical_flags::laws as flags;

/// States when two words have the same normal form, and when a normal form is lawful.
#[inline(always)]
pub const fn normal_form_facts()
    // A word is equivalent to its normal form. Two words have the same normal form if and only if they are equivalent.
    ensures same { (word : ℕ) → SameFormat (raw word) (raw (normal_form_of word)) }
    ensures equal { (a b : ℕ) → (normal_form_of a ≡ normal_form_of b) ↔ SameFormat (raw a) (raw b) }

    // The normal form of a word is lawful if any equivalent word is lawful.
    ensures lawful_same { (word other : ℕ) → SameFormat (raw word) (raw other) → Lawful other
        → Lawful (normal_form_of word) }
{
    flags::rule_facts();
}

/// States the fields of an edited word one by one. A field that is written has the last value written to it. Any other
/// field keeps its value, but an absent exponent byte becomes the mantissa radix of the word before the edits.
pub fn edit_facts()
    ensures flag { (word : ℕ) → (writes : List Write) → All IsLegal writes → (f : Flag)
        → (raw (edited word writes)).flag f ≡ unwrap_or (last_flag writes f) ((raw word).flag f) }
    ensures base_prefix { (word : ℕ) → (writes : List Write) → All IsLegal writes
        → (raw (edited word writes)).byte layout.base_prefix
        ≡ unwrap_or (last_byte writes layout.base_prefix) ((raw word).byte layout.base_prefix) }
    ensures base_suffix { (word : ℕ) → (writes : List Write) → All IsLegal writes
        → (raw (edited word writes)).byte layout.base_suffix
        ≡ unwrap_or (last_byte writes layout.base_suffix) ((raw word).byte layout.base_suffix) }
    ensures mantissa_radix { (word : ℕ) → (writes : List Write) → All IsLegal writes
        → (raw (edited word writes)).byte layout.mantissa_radix
        ≡ unwrap_or (last_byte writes layout.mantissa_radix) ((raw word).byte layout.mantissa_radix) }
    ensures exponent_base { (word : ℕ) → (writes : List Write) → All IsLegal writes
        → (raw (edited word writes)).byte layout.exponent_base
        ≡ unwrap_or (last_byte writes layout.exponent_base) (effective_exponent_base (raw word)) }
    ensures exponent_radix { (word : ℕ) → (writes : List Write) → All IsLegal writes
        → (raw (edited word writes)).byte layout.exponent_radix
        ≡ unwrap_or (last_byte writes layout.exponent_radix) (effective_exponent_radix (raw word)) }

    // The digit separator is kept only if a flag of the edited word allows one.
    ensures digit_separator { (word : ℕ) → (writes : List Write) → All IsLegal writes
        → IsTrue (separator_allowed (raw (edited word writes)))
        → (raw (edited word writes)).byte layout.digit_separator
        ≡ unwrap_or (last_byte writes layout.digit_separator) ((raw word).byte layout.digit_separator) }
{}

/// States that no byte plays two roles in the numbers of a lawful format.
#[inline(always)]
pub const fn byte_facts()
    // A byte with a value below either radix of a lawful format is a digit.
    ensures mantissa_digit { (word byte : ℕ) → Lawful word
        → byte_value byte < (raw word).byte layout.mantissa_radix → IsTrue (digits (raw word) byte) }
    ensures exponent_digit { (word byte : ℕ) → Lawful word
        → byte_value byte < effective_exponent_radix (raw word) → IsTrue (digits (raw word) byte) }

    // In a lawful format, no byte is both a digit and a separator that some flag allows.
    ensures separator { (word byte : ℕ) → Lawful word → IsTrue (digits (raw word) byte)
        → IsTrue (used_separator (raw word) byte) → ⊥ }

    // With options that fit, two roles that the same byte plays are equal, and the first role of a byte is its only one.
    ensures one { (word exponent_byte point_byte : ℕ) → Lawful word → OptionsFit word exponent_byte point_byte
        → (byte : ℕ) → (a b : Role) → IsTrue (role_set (raw word) exponent_byte point_byte a byte)
        → IsTrue (role_set (raw word) exponent_byte point_byte b byte) → a ≡ b }
    ensures only { (word exponent_byte point_byte : ℕ) → Lawful word → OptionsFit word exponent_byte point_byte
        → (byte : ℕ) → IsOnlyRole (raw word) exponent_byte point_byte byte
        (first_role (raw word) exponent_byte point_byte byte) }
{
    flags::role_facts();
}
