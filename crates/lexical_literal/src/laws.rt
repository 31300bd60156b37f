//! Theorems on literals. Each is a clause of a function with an empty body.

ghost use Rattle.std.specs.Prelude.{◌≡◌, ◌≢◌, ◌≤◌, ◌↔◌, ◌&&◌, ◌||◌, ◌∷◌, [], ℕ, Bool, IsFalse, IsTrue, List, Option, length, not};
ghost use Rattle.lexical_util.specs.Layout as layout;
ghost use Rattle.lexical_util.specs.Layout.{Flag};
ghost use Rattle.lexical_util.specs.NormalForm.{normal_form_of};
ghost use Rattle.lexical_util.specs.declared.format_flags.Part.{Part};
ghost use Rattle.lexical_literal.specs.Cause.{IsCause, IsRefusal, SameBlame};
ghost use Rattle.lexical_literal.specs.Front.{IsFront};
ghost use Rattle.lexical_literal.specs.Literal.{Literal, Reads, condition, requirement};
ghost use Rattle.lexical_literal.specs.Notation.{Notation, has, notation_of};
ghost use Rattle.lexical_literal.specs.Readings.{AllIn, PartsHaveRoles, refuses_first};
ghost use Rattle.lexical_literal.specs.Syntax.{IsSyntax};
ghost use Rattle.lexical_literal.specs.declared.cause.ReadErrorKind.{ReadErrorKind};
ghost use Rattle.lexical_literal.specs.declared.cause.Refusal.{Refusal};
ghost use Rattle.lexical_literal.specs.declared.syntax.Condition.{Condition};
ghost use Rattle.lexical_literal.specs.declared.syntax.Condition.TheVariants as conditions;
ghost use Rattle.lexical_literal.specs.declared.syntax.Conditions.{Conditions};
ghost use Rattle.lexical_literal.specs.declared.syntax.Grammar.{Grammar};
ghost use Rattle.lexical_literal.specs.declared.syntax.Options.{Options};

pub mod examples;

use lexical_util::format::Part;
use lexical_util::laws::flags::role_facts;
use lexical_util::laws::normal_form_facts;

/// States what is true of every literal of a syntax, and which texts that writers make are literals.
#[tactic(auto, using(crate::proofs::OneCauseLemmas::one_cause, crate::proofs::OneCauseLemmas::one_refusal, crate::proofs::SpanLemmas::span_within))]
pub fn literal_facts()
    // No text has two readings.
    ensures one_reading { (g : Grammar) → IsSyntax g → (l k : Literal) → (text : List ℕ)
        → Reads (notation_of g) l text → Reads (notation_of g) k text → l ≡ k }

    // A syntax has a literal.
    ensures some { (g : Grammar) → IsSyntax g → IsFront (notation_of g) [] }

    // Equivalent words have the same literals. The words and the options may be any.
    ensures same_literals { (a b : ℕ) → normal_form_of a ≡ normal_form_of b → (options : Option Options)
        → (conditions : Conditions) → (l : Literal) → (text : List ℕ)
        → Reads (notation_of (record { word = a; options = options; conditions = conditions })) l text
        → Reads (notation_of (record { word = b; options = options; conditions = conditions })) l text }

    // Each byte of a literal has the role of its part, or is the zero of a prefix. Digits are those of the radix of
    // their own part.
    ensures roles { (g : Grammar) → (l : Literal) → (text : List ℕ) → Reads (notation_of g) l text
        → PartsHaveRoles (notation_of g) l }

    // A refusal has one cause, and the same flags are to blame.
    ensures one_cause { (m : Notation) → (front : List ℕ) → (next : Option ℕ) → (kind other : ReadErrorKind) → (a b : Flag → Bool)
        → IsCause m front next kind a → IsCause m front next other b → SameBlame kind other a b }

    // A text has one refusal: each answer of its error is determined.
    ensures one_refusal { (m : Notation) → (text : List ℕ) → (a b : Refusal) → IsRefusal m text a → IsRefusal m text b → a ≡ b }

    // The bytes to show for a text that is refused are bytes of the text.
    ensures span { (g : Grammar) → (text : List ℕ) → (error : Refusal) → IsRefusal (notation_of g) text error
        → (error.start ≤ error.end) × (error.end ≤ length text) }

    // A literal is as each flag that is set requires.
    ensures requirements { (g : Grammar) → (l : Literal) → (text : List ℕ) → Reads (notation_of g) l text
        → (f : Flag) → IsTrue ((notation_of g).flag f) → IsTrue (requirement f (notation_of g) l) }

    // The parts of a literal are as each condition requires.
    ensures conditions { (g : Grammar) → (l : Literal) → (text : List ℕ) → Reads (notation_of g) l text
        → (c : Condition) → IsTrue (has g.conditions c) → IsTrue (condition c (notation_of g) l) }

    // Mantissa digits that do not begin with 0 are a literal if and only if no flag requires a sign or an exponent, and no
    // condition a prefix, a suffix or another first digit.
    ensures digits { (g : Grammar) → IsSyntax g → (first : ℕ) → (digits : List ℕ) → first ≢ 48
        → AllIn ((notation_of g).digit Part.Integer) (first ∷ digits)
        → ((l : Literal) × Reads (notation_of g) l (first ∷ digits))
        ↔ IsFalse ((has g.conditions conditions.BasePrefix || (has g.conditions conditions.BaseSuffix || refuses_first (has g.conditions) first))
        || ((notation_of g).flag layout.required_mantissa_sign
        || ((notation_of g).flag layout.required_exponent_notation && not (notation_of g).integers_only))) }

    // After a minus sign, they are a literal if and only if no flag requires an exponent, and no condition refuses the sign
    // or requires a prefix, a suffix or another first digit.
    ensures negative { (g : Grammar) → IsSyntax g → (first : ℕ) → (digits : List ℕ) → first ≢ 48
        → AllIn ((notation_of g).digit Part.Integer) (first ∷ digits)
        → ((l : Literal) × Reads (notation_of g) l (45 ∷ first ∷ digits))
        ↔ IsFalse ((has g.conditions conditions.BasePrefix || (has g.conditions conditions.BaseSuffix || refuses_first (has g.conditions) first))
        || (has g.conditions conditions.NegativeSign
        || ((notation_of g).flag layout.required_exponent_notation && not (notation_of g).integers_only))) }
{
    role_facts();
    normal_form_facts();
}
