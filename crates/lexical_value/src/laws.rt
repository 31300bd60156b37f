//! Theorems on the values of literals. Each is a clause of a function with an empty body.

ghost use Rattle.std.specs.Prelude.{◌≡◌, ◌≤◌, ◌+◌, ◌-◌, ◌*◌, ◌%◌, ◌^◌, ◌⊎◌, ℕ, Bool, IsFalse, List, if◌then◌else◌, not};
ghost use Rattle.lexical_util.specs.NormalForm.{normal_form_of};
ghost use Rattle.lexical_util.specs.Record.{bytes_of};
ghost use Rattle.lexical_literal.specs.Literal.{Literal, Reads, is_float};
ghost use Rattle.lexical_literal.specs.Notation.{notation_of};
ghost use Rattle.lexical_literal.specs.Syntax.{IsSyntax};
ghost use Rattle.lexical_literal.specs.declared.syntax.Grammar.{Grammar};
ghost use Rattle.lexical_value.specs.Integer.{integer_size};
ghost use Rattle.lexical_value.specs.Kind.{wrapped};
ghost use Rattle.lexical_value.specs.Value.{SameDigits, SameValue, denominator, numerator};

use lexical_util::laws::{byte_facts, normal_form_facts};

/// States on what the value of a literal does not depend, and what the value of an integer is.
pub fn value_facts()
    // Equivalent words give a literal the same value. The words may be any.
    ensures same_word { (a b : ℕ) → normal_form_of a ≡ normal_form_of b → (l : Literal)
        → SameValue (bytes_of a) l (bytes_of b) l }

    // Two literals with the same digits have the same value, whatever their separators, prefixes and suffixes are.
    ensures same_digits { (g : Grammar) → IsSyntax g → (l k : Literal) → SameDigits (notation_of g) l k
        → SameValue (bytes_of g.word) l (bytes_of g.word) k }

    // Without a decimal point and an exponent, the value is the number that the integer digits represent.
    ensures numerator { (g : Grammar) → (l : Literal) → (text : List ℕ) → Reads (notation_of g) l text
        → IsFalse (is_float l) → numerator (bytes_of g.word) l ≡ integer_size (bytes_of g.word) l }
    ensures denominator { (g : Grammar) → (l : Literal) → (text : List ℕ) → Reads (notation_of g) l text
        → IsFalse (is_float l) → denominator (bytes_of g.word) l ≡ 1 }

    // A number that wraps is worth one that differs from it by a multiple of `2 ^ bits`, and that has so many bits with its sign.
    ensures wraps { (bits : ℕ) → (negative : Bool) → (n : ℕ) → 1 ≤ bits → let w : Bool × ℕ = wrapped bits negative (n % 2 ^ bits) in
        (((k : ℕ) × (w.0 ≡ negative) × (n ≡ w.1 + k * 2 ^ bits)) ⊎ ((k : ℕ) × (w.0 ≡ not negative) × (n + w.1 ≡ k * 2 ^ bits)))
        × (w.1 ≤ (if w.0 then 2 ^ (bits - 1) else 2 ^ (bits - 1) - 1)) }
{
    normal_form_facts();
    byte_facts();
}
