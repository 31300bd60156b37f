//! Getters for the bytes of a format word that may be absent. In plain Rust, an absent byte is `None`.
#![tactic(auto)]

ghost use Rattle.std.specs.Prelude.{◌≡◌};
ghost use Rattle.lexical_flags.specs.Layout as layout;
ghost use Rattle.lexical_flags.specs.Record.{raw};

use super::NumberFormat;
use lexical_flags::format_flags as flags;

impl NumberFormat {
    /// Returns the [digit separator][super::NumberFormatBuilder::digit_separator], or 0 if it is absent. The byte is
    /// returned even if no flag allows digit separators.
    pub const fn digit_separator(&self) -> u8
        ensures { result ≡ (raw self.now).byte layout.digit_separator }
    {
        flags::digit_separator(self.format)
    }

    /// Returns the [base prefix][super::NumberFormatBuilder::base_prefix], or 0 if it is absent.
    pub const fn base_prefix(&self) -> u8
        ensures { result ≡ (raw self.now).byte layout.base_prefix }
    {
        flags::base_prefix(self.format)
    }

    /// Returns the [base suffix][super::NumberFormatBuilder::base_suffix], or 0 if it is absent.
    pub const fn base_suffix(&self) -> u8
        ensures { result ≡ (raw self.now).byte layout.base_suffix }
    {
        flags::base_suffix(self.format)
    }
}
