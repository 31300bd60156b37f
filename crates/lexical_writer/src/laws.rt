//! Theorems on numbers that are not written. Each is a clause of a function with an empty body.

ghost use Rattle.std.specs.Prelude.{◌≡◌, ℕ, List, false, true};
ghost use Rattle.lexical_util.specs.Record.{bytes_of};
ghost use Rattle.lexical_literal.specs.Literal.{Literal, Reads, is_minus};
ghost use Rattle.lexical_literal.specs.Notation.{has, lacks_options, notation_of};
ghost use Rattle.lexical_literal.specs.declared.syntax.Condition.TheVariants as conditions;
ghost use Rattle.lexical_literal.specs.declared.syntax.Grammar.{Grammar};
ghost use Rattle.lexical_value.specs.Value.{denominator};

/// States which literals there are not, where the error is `Negative` or `Fraction`.
pub fn refusal_facts()
    // No literal has the sign `-` where it is forbidden.
    ensures negative { (g : Grammar) → (l : Literal) → (text : List ℕ) → has g.conditions conditions.NegativeSign ≡ true
        → Reads (notation_of g) l text → is_minus l.sign ≡ false }

    // Where literals are integers, the value of each is whole.
    ensures fraction { (g : Grammar) → (l : Literal) → (text : List ℕ) → lacks_options g.options ≡ true
        → Reads (notation_of g) l text → denominator (bytes_of g.word) l ≡ 1 }
{}
