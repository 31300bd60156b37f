//! Theorems on digits. Each is a clause of a function with an empty body.

ghost use Rattle.std.specs.Prelude.{◌≡◌, ◌↔◌, ◌⊎◌, ℕ, ◌<◌, max, IsSome, IsTrue, ◌||◌};
ghost use Rattle.lexical_base.specs.Digits.{byte_value, digit_of, digits_of};

/// States which values bytes have, and which bytes are digits of a radix or of at least one of two radixes.
#[tactic(auto, using(crate::proofs::ValueLemmas::digit_laws))]
#[inline(always)]
pub const fn digit_facts()
    // The value of a byte is either below 36 or 255.
    ensures values { (byte : ℕ) → byte < 256 → (byte_value byte < 36) ⊎ (byte_value byte ≡ 255) }
    // A byte is in the set of the digits of a radix if and only if `digit_of` returns its value.
    ensures digits { (byte radix : ℕ) → byte < 256 → radix < 256 → IsSome (digit_of byte radix) ↔ IsTrue (digits_of radix byte) }
    // A byte is a digit of the larger of two radixes if and only if it is a digit of at least one of them.
    ensures larger { (byte first second : ℕ) → byte < 256 → first < 256 → second < 256 →
        IsSome (digit_of byte (max first second)) ↔ IsTrue (digits_of first byte || digits_of second byte) }
{}
