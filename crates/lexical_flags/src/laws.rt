//! Theorems on the layout, the rules and the roles of bytes. Each is a clause of a function with an empty body.

ghost use Rattle.std.specs.Prelude.{◌≡◌, ℕ, ◌*◌, ◌/◌, ◌^◌, ◌<◌, ◌↔◌, [], ◌∷◌, length, map, pos, bit_or, IsTrue, bit_and};
ghost use Rattle.lexical_base.specs.declared.error.Error.{Error};
ghost use Rattle.lexical_base.specs.Ascii.{ByteSet};
ghost use Rattle.lexical_flags.specs.Layout as layout;
ghost use Rattle.lexical_flags.specs.Layout.{Flag, Byte, bit, shift, IsClean};
ghost use Rattle.lexical_flags.specs.Record.{raw, fill, trim, SeparatorAllowedOrAbsent};
ghost use Rattle.lexical_flags.specs.Pairs.{ArePairwise};
ghost use Rattle.lexical_flags.specs.Roles.{Disjoint, AreDisjoint, five_roles};
ghost use Rattle.lexical_flags.specs.Rules.{Holds, Lawful, IsErrorOf};
ghost use Rattle.lexical_flags.specs.Additions.RuleFields.{mask_read};
ghost use Rattle.lexical_flags.specs.declared.format_flags.rule.Rule.{Rule};
ghost use Rattle.lexical_flags.specs.Options.{OptionsFit, OptionsHaveOneRole};
ghost use Rattle.lexical_flags.specs.Constants.{flag_constant, byte_constant, byte_shift, doublings, ShareNoBit};
ghost use Rattle.lexical_flags.specs.Additions.Masks.{interface_flags, exponent_flags, mask_of};

use crate::format_flags::*;

pub mod examples;

/// States the value of every constant of `format_flags`, and how the constants are related.
pub fn layout_facts()
    // Each flag is a power of two. Within the lower flags, and within the digit separator flags, each is twice the
    // one before it.
    ensures flag { (f : Flag) → flag_constant f ≡ 2 ^ bit f }
    ensures base_flags { map flag_constant layout.base_flags ≡ doublings 1 (length layout.base_flags) }
    ensures separator_flags { map flag_constant layout.digit_separator_flags
        ≡ doublings (2 ^ 32) (length layout.digit_separator_flags) }

    // Each byte occupies the eight bits from its shift up.
    ensures shift { (b : Byte) → byte_shift b ≡ pos (shift b) }
    ensures mask { (b : Byte) → byte_constant b ≡ 255 * 2 ^ shift b }
    ensures shifted_mask { (b : Byte) → byte_constant b / 2 ^ shift b ≡ 255 }
    ensures masks_share_no_bit { ArePairwise ShareNoBit (map byte_constant layout.bytes) }
    ensures masks_share_no_flag { (b : Byte) → ShareNoBit (byte_constant b) FLAG_MASK }
    ensures radix { RADIX ≡ MANTISSA_RADIX }
    ensures radix_shift { RADIX_SHIFT ≡ MANTISSA_RADIX_SHIFT }
    ensures radix_mask { RADIX_MASK ≡ bit_or MANTISSA_RADIX EXPONENT_RADIX }

    // Flags with the same bit are the same flag. Bytes with the same shift are the same byte.
    ensures bit_is_injective { (f g : Flag) → bit f ≡ bit g → f ≡ g }
    ensures shift_is_injective { (b d : Byte) → shift b ≡ shift d → b ≡ d }

    // Each flag mask is the sum of its flags.
    ensures required_digits { REQUIRED_DIGITS ≡ mask_of layout.required_digits }
    ensures internal { INTERNAL_DIGIT_SEPARATOR ≡ mask_of layout.internal_digit_separator }
    ensures leading { LEADING_DIGIT_SEPARATOR ≡ mask_of layout.leading_digit_separator }
    ensures trailing { TRAILING_DIGIT_SEPARATOR ≡ mask_of layout.trailing_digit_separator }
    ensures consecutive { CONSECUTIVE_DIGIT_SEPARATOR ≡ mask_of layout.consecutive_digit_separator }
    ensures flags { FLAG_MASK ≡ mask_of layout.flags }
    ensures interface { INTERFACE_FLAG_MASK ≡ mask_of interface_flags }
    ensures separators { DIGIT_SEPARATOR_FLAG_MASK ≡ mask_of layout.digit_separator_flags }
    ensures exponents { EXPONENT_FLAG_MASK ≡ mask_of exponent_flags }
    ensures integer { INTEGER_DIGIT_SEPARATOR_FLAG_MASK ≡ mask_of layout.integer_digit_separator_flags }
    ensures fraction { FRACTION_DIGIT_SEPARATOR_FLAG_MASK ≡ mask_of layout.fraction_digit_separator_flags }
    ensures exponent { EXPONENT_DIGIT_SEPARATOR_FLAG_MASK ≡ mask_of layout.exponent_digit_separator_flags }

    // The masks of the separator flags of the integer, the fraction, the exponent and special values share no bit.
    // Together, they have the bits of all digit separator flags.
    ensures separators_share_no_bit { ArePairwise ShareNoBit (INTEGER_DIGIT_SEPARATOR_FLAG_MASK
        ∷ FRACTION_DIGIT_SEPARATOR_FLAG_MASK ∷ EXPONENT_DIGIT_SEPARATOR_FLAG_MASK ∷ SPECIAL_DIGIT_SEPARATOR ∷ []) }
    ensures separators_together { bit_or INTEGER_DIGIT_SEPARATOR_FLAG_MASK (bit_or FRACTION_DIGIT_SEPARATOR_FLAG_MASK
        (bit_or EXPONENT_DIGIT_SEPARATOR_FLAG_MASK SPECIAL_DIGIT_SEPARATOR)) ≡ DIGIT_SEPARATOR_FLAG_MASK }
{}

/// States how the error of a word and of its normal form are related, which bits decide whether a word satisfies a
/// rule, that a word is lawful if and only if it satisfies every rule, and that it has at most one error.
#[tactic(auto, using(crate::proofs::NormalRules::rule_laws))]
#[inline(always)]
pub const fn rule_facts()
    // If `word` is lawful, then so is `normal`, the clean word whose fields are the filled and trimmed fields of
    // `word`. If `word` is clean and trimming drops no separator, both words have the same error.
    ensures kept_lawful { (word normal : ℕ) → IsClean normal → raw normal ≡ trim (fill (raw word))
        → Lawful word → Lawful normal }
    ensures same_error { (word normal : ℕ) → IsClean normal → raw normal ≡ trim (fill (raw word))
        → IsClean word → SeparatorAllowedOrAbsent (raw word)
        → (error : Error) → IsErrorOf word error ↔ IsErrorOf normal error }

    // A word is lawful if and only if it satisfies every rule.
    ensures lawful { (word : ℕ) → Lawful word ↔ ((rule : Rule) → Holds rule word) }

    // If two words agree in the bits that a rule reads, and one of them satisfies the rule, so does the other.
    ensures depends { (rule : Rule) → (v w : ℕ) → bit_and v (mask_read rule) ≡ bit_and w (mask_read rule)
        → Holds rule v → Holds rule w }

    // A word has at most one error.
    ensures one_error { (word : ℕ) → (error other : Error) → IsErrorOf word error → IsErrorOf word other
        → error ≡ other }
{}

/// States when two sets of bytes are disjoint, and that no byte plays two roles in a lawful format, also with accepted
/// options.
#[inline(always)]
pub const fn role_facts()
    // Two sets are disjoint if and only if no byte is in both.
    ensures disjoint { (A B : ByteSet)
        → Disjoint A B ↔ ((byte : ℕ) → byte < 256 → IsTrue (A byte) → IsTrue (B byte) → ⊥) }

    // In a lawful format, no byte plays two of the roles digit, sign, separator, prefix and suffix.
    ensures five { (word : ℕ) → Lawful word → AreDisjoint (five_roles (raw word)) }

    // In a lawful format with accepted options, each byte plays at most one role.
    ensures lawful { (word exponent_byte point_byte : ℕ) → Lawful word → OptionsFit word exponent_byte point_byte
        → OptionsHaveOneRole word exponent_byte point_byte }
{}
