//! Two examples of each predicate that public clauses use only as a premise or only as a conclusion: one that holds, and
//! one that does not.

ghost use Rattle.std.specs.Prelude.{[], ◌∷◌, true, Some};
ghost use Rattle.lexical_flags.specs.Layout as layout;
ghost use Rattle.lexical_flags.specs.Record.{raw};
ghost use Rattle.lexical_builder.specs.Writes.{write_flag, write_byte, SameWrites};
ghost use Rattle.lexical_util.specs.Additions.ByteRoles.{IsOnlyRole};
ghost use Rattle.lexical_util.specs.Listing.{IsEditOf};
ghost use Rattle.lexical_util.specs.declared.edits.setters.Edit.TheVariants as edits;
ghost use Rattle.lexical_util.specs.declared.edits.setters.FlagSetter.TheVariants as setters;
ghost use Rattle.lexical_util.specs.declared.feature_format.roles.Role.TheVariants as roles;

use crate::laws::byte_facts;

/// States that two lists of writes give each field the same last value, and that two other lists do not.
pub fn write_examples()
    // The order of writes to different fields does not matter.
    ensures order { SameWrites
        (write_flag layout.no_special true ∷ write_byte layout.mantissa_radix 16 ∷ [])
        (write_byte layout.mantissa_radix 16 ∷ write_flag layout.no_special true ∷ []) }

    // The order of writes to the same field matters.
    ensures other_last { SameWrites
        (write_byte layout.mantissa_radix 8 ∷ write_byte layout.mantissa_radix 16 ∷ [])
        (write_byte layout.mantissa_radix 16 ∷ write_byte layout.mantissa_radix 8 ∷ []) → ⊥ }
{}

/// States that an edit of a flag makes a single write, and that an edit of a group does not.
pub fn edit_examples()
    ensures flag { IsEditOf (write_flag layout.required_integer_digits true)
        (edits.Flag setters.RequiredIntegerDigits true) }
    ensures group { IsEditOf (write_flag layout.required_integer_digits true)
        (edits.Flag setters.RequiredDigits true) → ⊥ }
{}

/// States that `+` is a sign, and not a digit, in decimal numbers with the exponent character `e` and the decimal point
/// `.`.
pub fn role_examples()
    ensures sign { IsOnlyRole (raw 0x0A0A0A00_00000000_00000000_0000000C) 0x65 0x2E 0x2B (Some roles.Sign) }
    ensures other_role { IsOnlyRole
        (raw 0x0A0A0A00_00000000_00000000_0000000C) 0x65 0x2E 0x2B (Some roles.Digit) → ⊥ }
{
    byte_facts();
}
