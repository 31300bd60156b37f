//! A view that reads the fields of a format word and checks the word.
#![tactic(auto, using(crate::proofs::ViewLemmas::masks_and_powers))]

ghost use Rattle.std.specs.Prelude.{◌≡◌, ◌≢◌, ℕ, ◌↔◌, ◌%◌, ◌^◌, IsTrue};
ghost use Rattle.lexical_flags.specs.Layout as layout;
ghost use Rattle.lexical_flags.specs.Record.{raw, fill, effective_exponent_base, effective_exponent_radix};
ghost use Rattle.lexical_flags.specs.Rules.{IsRadix, Lawful, IsErrorOf, IsFirstError, radix_rules};
ghost use Rattle.lexical_builder.specs.Writes.{new_record};

use crate::format::STANDARD;
use lexical_base::error::Error;
use lexical_builder::format_builder::NumberFormatBuilder;
use lexical_flags::format_flags as flags;
use lexical_flags::format_flags::{format_error_impl, radix_error_impl};
use std::marker::Model;

// Is true if any bit of the mask is set in the word of the view.
macro_rules! has_any {
    ($view:ident, $MASK:ident) => {
        $view.format & flags::$MASK != 0
    };
}

mod bytes;
mod getters;
mod roles;

pub use crate::feature_format::roles::{Role, Separators};

/// A view of a format word. It reads the fields of the word, and checks the word.
///
/// Every method works on any word, whether or not the word is [lawful][flags::Rule]. The word may be known only at run
/// time. Getters of fields have the names of the setters of [`NumberFormatBuilder`], which have examples.
///
/// ```
/// use peltzivar::FormatView;
///
/// let view = FormatView::new(0x0A0A1000_6200005F_00000000_0000000C);
/// assert_eq!((view.mantissa_radix(), view.base_prefix().map(u8::from)), (16, Some(b'b')));
/// assert!(!view.is_valid() && view.error().is_invalid_base_prefix());
/// ```
#[derive(Clone, Copy)]
pub struct NumberFormat {
    format: u128,
}

impl Model for NumberFormat {
    ghost Value = { ℕ };

    ghost view = { λ view. view.format };

    ghost inverse = { λ format. record { format = format } };
}

impl Default for NumberFormat {
    ghost use Rattle.std.specs.Prelude.{◌≡◌};
    ghost use Rattle.lexical_flags.specs.Record.{pack};
    ghost use Rattle.lexical_flags.specs.Rules.{Lawful};
    ghost use Rattle.lexical_builder.specs.Writes.{new_record};
    ghost use Rattle.lexical_util.specs.NormalForm.{normal_form_of};
    ghost use Rattle.lexical_util.specs.declared.format.TheConstants.{STANDARD};

    ghost is_default = { λ view. view ≡ STANDARD };

    /// Returns the view of the [standard format][STANDARD], which is the format word of a new builder.
    #[tactic(auto, unfolding(crate::specs::Unfoldable::on_literals))]
    fn default() -> Self
        ensures standard { result ≡ STANDARD }
        ensures packed { result ≡ pack new_record }
        ensures lawful { Lawful result }

        // The normal form of the standard format is the format of decimal numbers.
        ensures normal { normal_form_of result ≡ 0x0A0A0A00_00000000_00000000_0000000C }
    {
        NumberFormat { format: STANDARD }
    }
}

impl NumberFormat {
    // CONSTRUCTORS

    /// Returns a view of `format`, which may be any word.
    #[must_use]
    pub const fn new(format: u128) -> Self
        ensures { result ≡ format }
    {
        NumberFormat { format }
    }

    /// Returns the format word.
    #[must_use]
    pub const fn word(&self) -> u128
        ensures { result ≡ self.now }
    {
        self.format
    }

    // CHECKS

    /// Returns whether the word is lawful, that is, whether it satisfies all the rules that [`error`][Self::error]
    /// checks.
    #[must_use]
    pub const fn is_valid(&self) -> bool
        ensures { IsTrue result ↔ Lawful self.now }
    {
        self.error().is_success()
    }

    /// Returns the error of the first rule that the word breaks, in the order of the variants of [`Rule`][flags::Rule], or
    /// `Success` if the word is lawful.
    ///
    /// # Proved of the source
    ///
    /// - The result is `Success` if and only if the word satisfies every rule.
    /// - No other error is that of the first broken rule.
    #[must_use]
    pub const fn error(&self) -> Error
        ensures first { IsErrorOf self.now result }
        ensures lawful { (result ≡ Error.Success) ↔ Lawful self.now }
        ensures unique { (other : Error) → IsErrorOf self.now other → other ≡ result }
    {
        format_error_impl(self.format)
    }

    /// Returns whether the mantissa radix, the exponent base and the exponent radix are all between 2 and 36. An
    /// exponent base or exponent radix of 0 means the mantissa radix.
    #[must_use]
    pub const fn is_valid_radix(&self) -> bool
        ensures { IsTrue result ↔ IsFirstError radix_rules self.now Error.Success }
    {
        self.error_radix().is_success()
    }

    /// Checks, in this order, whether the mantissa radix, the exponent base and the exponent radix are between 2 and
    /// 36. Returns the error of the first one that is not, or `Success`.
    #[must_use]
    pub const fn error_radix(&self) -> Error
        ensures first { IsFirstError radix_rules self.now result }
        ensures unique { (other : Error) → IsFirstError radix_rules self.now other → other ≡ result }
    {
        radix_error_impl(self.format)
    }

    // BYTES

    /// Returns whether the digit separator byte is not 0.
    #[must_use]
    pub const fn has_digit_separator(&self) -> bool
        ensures { IsTrue result ↔ ((raw self.now).byte layout.digit_separator ≢ 0) }
    {
        has_any!(self, DIGIT_SEPARATOR)
    }

    /// Returns whether the base prefix byte is not 0.
    #[must_use]
    pub const fn has_base_prefix(&self) -> bool
        ensures { IsTrue result ↔ ((raw self.now).byte layout.base_prefix ≢ 0) }
    {
        has_any!(self, BASE_PREFIX)
    }

    /// Returns whether the base suffix byte is not 0.
    #[must_use]
    pub const fn has_base_suffix(&self) -> bool
        ensures { IsTrue result ↔ ((raw self.now).byte layout.base_suffix ≢ 0) }
    {
        has_any!(self, BASE_SUFFIX)
    }

    // RADIXES

    /// Returns the [mantissa radix][NumberFormatBuilder::mantissa_radix], a number from 0 to 255. In a
    /// [lawful][flags::Rule] word, it is between 2 and 36.
    #[must_use]
    pub const fn mantissa_radix(&self) -> u32
        ensures value { result ≡ (raw self.now).byte layout.mantissa_radix }
        ensures lawful { Lawful self.now → IsRadix result }
    {
        flags::mantissa_radix(self.format)
    }

    /// Returns the mantissa radix, as [`mantissa_radix`][Self::mantissa_radix] does.
    #[must_use]
    pub const fn radix(&self) -> u32
        ensures value { result ≡ (raw self.now).byte layout.mantissa_radix }
        ensures lawful { Lawful self.now → IsRadix result }
    {
        self.mantissa_radix()
    }

    /// Returns the square of the mantissa radix.
    #[must_use]
    pub const fn radix2(&self) -> u32
        ensures { result ≡ (raw self.now).byte layout.mantissa_radix ^ 2 }
    {
        let radix = self.mantissa_radix();
        radix * radix
    }

    /// Returns the fourth power of the mantissa radix.
    #[must_use]
    pub const fn radix4(&self) -> u32
        ensures { result ≡ (raw self.now).byte layout.mantissa_radix ^ 4 }
    {
        let square = self.radix2();
        square * square
    }

    /// Returns the eighth power of the mantissa radix modulo 2^32. The result is exact up to radix 15, and it is 0 for
    /// radix 16.
    #[must_use]
    pub const fn radix8(&self) -> u32
        ensures { result ≡ (raw self.now).byte layout.mantissa_radix ^ 8 % 2 ^ 32 }
    {
        let fourth = self.radix4();
        fourth.wrapping_mul(fourth)
    }

    /// Returns the [exponent base][NumberFormatBuilder::exponent_base], or the mantissa radix if the exponent base byte
    /// is 0. In a [lawful][flags::Rule] word, the result is between 2 and 36.
    #[must_use]
    pub const fn exponent_base(&self) -> u32
        ensures value { result ≡ effective_exponent_base (raw self.now) }
        ensures lawful { Lawful self.now → IsRadix result }
    {
        flags::exponent_base(self.format)
    }

    /// Returns the [exponent radix][NumberFormatBuilder::exponent_radix], or the mantissa radix if the exponent radix
    /// byte is 0. In a [lawful][flags::Rule] word, the result is between 2 and 36.
    #[must_use]
    pub const fn exponent_radix(&self) -> u32
        ensures value { result ≡ effective_exponent_radix (raw self.now) }
        ensures lawful { Lawful self.now → IsRadix result }
    {
        flags::exponent_radix(self.format)
    }

    // BUILDERS

    /// Returns a new builder, which does not depend on any word.
    pub const fn builder() -> NumberFormatBuilder
        ensures { result ≡ new_record }
    {
        NumberFormatBuilder::new()
    }

    /// Returns a builder with the fields of the word. An exponent base or exponent radix of 0 becomes the mantissa
    /// radix.
    pub const fn rebuild(&self) -> NumberFormatBuilder
        ensures { result ≡ fill (raw self.now) }
    {
        NumberFormatBuilder::rebuild(self.format)
    }
}
