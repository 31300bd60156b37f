//! Texts with two readings, in formats that are not lawful or with options that do not fit, and parts and causes for
//! which predicates do not hold.

ghost use Rattle.std.specs.Prelude.{◌≡◌, Some, codes, false, true};
ghost use Rattle.lexical_literal.specs.Cause.{SameBlame};
ghost use Rattle.lexical_literal.specs.Literal.{Literal};
ghost use Rattle.lexical_literal.specs.Notation.{Notation, no_conditions, notation_of};
ghost use Rattle.lexical_literal.specs.Readings.{HasTwoReadings, PartsHaveRoles};
ghost use Rattle.lexical_literal.specs.declared.cause.ReadErrorKind.TheVariants as causes;

/// States texts that have two readings because a byte plays two roles.
#[tactic(auto, unfolding(lexical_util::specs::Unfoldable::on_literals))]
pub fn two_readings()
    // The separator and the suffix are `h`: in `1h`, it is either. The options fit, but the word breaks a rule.
    ensures suffix { HasTwoReadings (notation_of (record {
      word = 0x00000A68000000680000004000000000;
      options = Some (record { exponent = 101; point = 46 });
      conditions = no_conditions;
    })) (codes "1h") }

    // The separator and the prefix are `x`: in `0x1`, it is either. The options fit, but the word breaks a rule.
    ensures prefix { HasTwoReadings (notation_of (record {
      word = 0x00000A00780000780000000100000000;
      options = Some (record { exponent = 101; point = 46 });
      conditions = no_conditions;
    })) (codes "0x1") }

    // The exponent character and the decimal point are `.`: in `1.`, it is either. The word is lawful.
    ensures point { HasTwoReadings (notation_of (record {
      word = 0x00000A00000000000000000000000000;
      options = Some (record { exponent = 46; point = 46 });
      conditions = no_conditions;
    })) (codes "1.") }

    // The exponent character is the digit `0`: in `10`, it is either. The word is lawful.
    ensures digit { HasTwoReadings (notation_of (record {
      word = 0x00000A00000000000000000000000000;
      options = Some (record { exponent = 48; point = 46 });
      conditions = no_conditions;
    })) (codes "10") }

    // The exponent character is the suffix `h`: in `1h`, it is either. The word is lawful.
    ensures exponent { HasTwoReadings (notation_of (record {
      word = 0x00000A68000000000000000000000000;
      options = Some (record { exponent = 104; point = 46 });
      conditions = no_conditions;
    })) (codes "1h") }

    // The exponent character is the sign `+`: in `+1`, it is either. The word is lawful.
    ensures sign { HasTwoReadings (notation_of (record {
      word = 0x00000A00000000000000000000000000;
      options = Some (record { exponent = 43; point = 46 });
      conditions = no_conditions;
    })) (codes "+1") }
{}

/// States parts and causes for which `PartsHaveRoles` and `SameBlame` do not hold.
pub fn counterexamples()
    // The byte `x` is not a sign.
    ensures sign { (m : Notation) → (l : Literal) → l.sign ≡ codes "x" → PartsHaveRoles m l → ⊥ }
    ensures kinds { SameBlame causes.Byte causes.Case (λ f. false) (λ f. false) → ⊥ }
    ensures flags { SameBlame causes.Case causes.Case (λ f. true) (λ f. false) → ⊥ }
{}
