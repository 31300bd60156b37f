//! Two examples of each predicate that public clauses use only as a premise or only as a conclusion: one that holds, and
//! one that does not.
#![tactic(auto, unfolding(crate::specs::Literals::on_literals))]

ghost use Rattle.std.specs.Prelude.{[], ◌∷◌};
ghost use Rattle.lexical_flags.specs.Constants.{ShareNoBit};
ghost use Rattle.lexical_flags.specs.Options.{SomeOptionsHaveOneRole};
ghost use Rattle.lexical_flags.specs.Pairs.{ArePairwise};
ghost use Rattle.lexical_flags.specs.Record.{raw, SeparatorAllowedOrAbsent};

/// Gives examples of masks that share a bit, and of masks that do not.
pub fn mask_examples()
    ensures no_bit { ShareNoBit 0x55 0xAA }
    ensures common { ShareNoBit 1 3 → ⊥ }

    // In a list, each mask is compared with every later mask.
    ensures list { ArePairwise ShareNoBit (1 ∷ 2 ∷ 4 ∷ []) }
    ensures first_and_third { ArePairwise ShareNoBit (1 ∷ 2 ∷ 5 ∷ []) → ⊥ }
{}

/// Gives an example of a separator that flag 44 allows, and an example of one that no flag allows.
pub fn built_examples()
    ensures allowed { SeparatorAllowedOrAbsent (raw 0x00000A00_0000005F_00001000_0000000C) }
    ensures not_allowed { SeparatorAllowedOrAbsent (raw 0x00000A00_0000005F_00000000_0000000C) → ⊥ }
{}

/// States that a word without a prefix or suffix has options with which no byte plays two roles. A word whose prefix and
/// suffix are both `h` has none, since `h` plays two roles with any options.
pub fn options_examples()
    ensures some { SomeOptionsHaveOneRole 0x0A0A0A00_00000000_00000000_0000000C }
    ensures none { SomeOptionsHaveOneRole 0x00000A68_68000000_00000000_0000000C → ⊥ }
{}
