//! Callers of `edits`: the fields that an edit writes and keeps, the order of edits, and the setters that set several
//! flags.

ghost use Rattle.std.specs.Prelude.{◌≡◌, ◌≢◌, ◌⊎◌, ◌∷◌, [], None, true, length, nat_lt};
ghost use Rattle.lexical_util.specs.Edits.{all_writes, edited, flags_of, writes_of};
ghost use Rattle.lexical_util.specs.Layout as layout;
ghost use Rattle.lexical_util.specs.Layout.{Byte, Flag, bit};
ghost use Rattle.lexical_util.specs.Record.{raw};
ghost use Rattle.lexical_util.specs.Writes.{last_byte, last_flag};

use lexical_util::edits::{Edit, FlagSetter, edit_word};
use lexical_util::format::NonZeroU8;
use lexical_util::laws::{edit_facts, write_facts};
use lexical_util::with_setters;

/// Returns `format`, which may be any word, with the base prefix `prefix`, of which the case matters.
pub fn with_prefix(format: u128, prefix: NonZeroU8) -> u128
    ensures prefix { (raw result).byte layout.base_prefix ≡ prefix }
    ensures suffix { (raw result).byte layout.base_suffix ≡ (raw format).byte layout.base_suffix }
    ensures sensitive { (raw result).flag layout.case_sensitive_base_prefix ≡ true }
    ensures other_flags { (f : Flag) → bit f ≢ bit layout.case_sensitive_base_prefix
        → (raw result).flag f ≡ (raw format).flag f }
{
    edit_facts();
    write_facts();
    let case_matters = Edit::Flag(FlagSetter::CaseSensitiveBasePrefix, true);
    edit_word(format, &[Edit::BasePrefix(Some(prefix)), case_matters])
}

/// Returns `format`, which may be any word, after two edits that write different fields. Their order does not matter.
pub fn edit_both(format: u128, first: Edit, second: Edit) -> u128
    requires flags { (f : Flag) → (last_flag (writes_of first) f ≡ None) ⊎ (last_flag (writes_of second) f ≡ None) }
    requires bytes { (b : Byte) → (last_byte (writes_of first) b ≡ None) ⊎ (last_byte (writes_of second) b ≡ None) }
    ensures order { result ≡ edited format (all_writes (first ∷ second ∷ [])) }
    ensures other_order { result ≡ edited format (all_writes (second ∷ first ∷ [])) }
{
    write_facts();
    edit_word(format, &[first, second])
}

/// Returns whether `setter` sets several flags. No arm is `_`: the rows of `with_setters` are all variants.
pub const fn sets_several(setter: FlagSetter) -> bool
    ensures { result ≡ nat_lt 1 (length (flags_of setter)) }
{
    macro_rules! arms {
        (($setter:ident)
            { $($Flag:ident $flag:ident $FLAG:ident;)* } { $($Group:ident $group:ident $GROUP:ident;)* }) => {
            match $setter {
                $(FlagSetter::$Flag => false,)*
                $(FlagSetter::$Group => true,)*
            }
        };
    }
    with_setters!(arms(setter))
}
