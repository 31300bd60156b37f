//! A function and a law of your own on the roles of bytes.

ghost use Rattle.std.specs.Prelude.{◌≡◌, ◌≢◌, ℕ, IsTrue, is_some, not, position};
ghost use Rattle.lexical_util.specs.Additions.ByteRoles.{first_role, role_set};
ghost use Rattle.lexical_util.specs.Options.{OptionsFit};
ghost use Rattle.lexical_util.specs.Record.{raw};
ghost use Rattle.lexical_util.specs.Rules.{Lawful};
ghost use Rattle.lexical_util.specs.declared.feature_format.roles.Role.{Role};

use lexical_util::format::NumberFormat;
use lexical_util::laws::byte_facts;

/// States that two bytes that play different roles in numbers of `format` with these options differ. Nothing is tested
/// at run time.
pub fn apart(format: u128, exponent: u8, decimal_point: u8)
    requires lawful { Lawful format }
    requires fit { OptionsFit format exponent decimal_point }
    ensures { (a b : ℕ) → (role other : Role) → role ≢ other
        → IsTrue (role_set (raw format) exponent decimal_point role a)
        → IsTrue (role_set (raw format) exponent decimal_point other b) → a ≢ b }
{
    byte_facts();
}

/// Returns the index of the first byte of `text` that plays no role in numbers of `format` with these options, or `None`
/// if each byte plays one. A tokenizer can end a number there.
pub fn other_byte(format: u128, exponent: u8, decimal_point: u8, text: &[u8]) -> Option<usize>
    ensures { result ≡ position
        (λ byte. not (is_some (first_role (raw format) exponent decimal_point byte))) text.now }
{
    let view = NumberFormat::new(format);
    text.iter().position(|byte| view.role_of(exponent, decimal_point, *byte).is_none())
}
