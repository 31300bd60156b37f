//! Integers are written.

ghost use Rattle.std.specs.Prelude.{◌≡◌, ◌++◌, ℕ, List, false, true, Some, IfErr, IfOk};
ghost use Rattle.lexical_util.specs.Record.{bytes_of, raw};
ghost use Rattle.lexical_literal.specs.Literal.{Reads, is_float, text_of};
ghost use Rattle.lexical_literal.specs.Notation.{notation_of};
ghost use Rattle.lexical_literal.specs.Syntax.{IsSyntax};
ghost use Rattle.lexical_value.specs.Integer.{IsInteger};
ghost use Rattle.lexical_writer.specs.Buffer.{IsIn, IsTaken};
ghost use Rattle.lexical_writer.specs.Layout.{HasNumber, HasValue, integer_literal, laid_out, literal_of, number_of_size, plain_text, refusal, whole};
ghost use Rattle.lexical_writer.specs.Layout.{needs_exponent, whole_refusal};

use crate::digits::put_if_any;
use crate::layout::{Amount, Layout, Style, WriteError, needs_exponent, sign_of};
use crate::patterns::{integer_pattern, no_groups};
use crate::run::{Run, Source};
use crate::sink::{Sink, Window};
use lexical_literal::syntax::{Condition, Syntax};
use lexical_number::integer::Integer;
use lexical_util::format::{base_prefix, base_suffix};
use lexical_util::laws::byte_facts;

/// An integer, by its sign and its size, that is written as a literal of a syntax in a style.
#[derive(Clone, Copy)]
pub struct WrittenInteger {
    pub(crate) negative: bool,
    pub(crate) size: u128,
    pub(crate) syntax: Syntax,
    pub(crate) style: Style,
}

/// Returns how the value of an integer is written as a literal of `syntax`.
///
/// # Errors
///
/// [`WriteError::Negative`] if the value is below 0 and no literal has the sign `-`.
#[inline(always)]
pub fn format_integer<T: Integer>(
    syntax: &Syntax,
    value: T,
    style: Style,
) -> Result<WrittenInteger, WriteError>
    // What is written is a literal, and its value is that of the integer.
    ensures literal { IfOk result (λ it. Reads (notation_of syntax.now) (integer_literal it) (text_of (integer_literal it))) }
    ensures value { IfOk result (λ it. HasValue (raw syntax.now.word) (integer_literal it) (T.range.value value)) }
    // It has neither a decimal point nor an exponent, unless each literal has one.
    ensures integer { needs_exponent syntax.now ≡ false
        → IfOk result (λ it. IsInteger (bytes_of syntax.now.word) (integer_literal it) (T.range.value value)) }
    ensures parts { IfOk result (λ it. integer_literal it ≡ laid_out syntax.now style (whole (T.range.value value))) }
    // Each integer can be written, unless it is below 0 and no literal is.
    ensures error { IfErr result (λ error. whole_refusal syntax.now (T.range.value value) ≡ Some error) }
{
    let (negative, size) = value.sign_and_size();
    WrittenInteger::of_size(negative, size, syntax, style)
}

impl WrittenInteger {
    // Returns how an integer with a sign and a size is written as a literal of `syntax`, unless its sign is refused.
    #[inline(always)]
    pub(crate) fn of_size(
        negative: bool,
        size: u128,
        syntax: &Syntax,
        style: Style,
    ) -> Result<WrittenInteger, WriteError>
        ensures written { IfOk result (λ it. Reads (notation_of syntax.now) (integer_literal it) (text_of (integer_literal it))
            × HasNumber syntax.now (number_of_size negative size) (integer_literal it)) }
        ensures parts { IfOk result (λ it. integer_literal it ≡ laid_out syntax.now style (number_of_size negative size)) }
        ensures error { IfErr result (λ error. refusal syntax.now (number_of_size negative size) ≡ Some error) }
        ensures lawful { IsSyntax syntax.now }
    {
        byte_facts();
        match Amount::of_size(negative, size).refusal(syntax) {
            Some(refusal) => Err(refusal),
            None => Ok(WrittenInteger {
                negative,
                size,
                syntax: *syntax,
                style,
            }),
        }
    }

    // Returns the number.
    #[inline(always)]
    const fn amount(&self) -> Amount<'static>
        ensures { result ≡ number_of_size self.now.negative self.now.size }
    {
        Amount::of_size(self.negative, self.size)
    }

    // Returns whether there is a decimal point or an exponent.
    #[tactic(auto, using(crate::proofs::LiteralLemmas::float_if))]
    pub(crate) fn is_float(&self) -> bool
        ensures { result ≡ is_float (integer_literal self.now) }
    {
        let amount = self.amount();
        amount.has_point(&self.syntax) | amount.has_exponent(&self.syntax)
    }

    /// Returns the parts of the literal.
    pub fn lay_out(&self) -> Layout<'static>
        ensures { literal_of result ≡ integer_literal self.now }
    {
        self.amount().parts(&self.syntax, self.style)
    }

    /// Writes the text to the beginning of a buffer, as far as it has room, and returns its length, as [`Layout::write`] does.
    pub fn write(&self, buffer: &mut [u8]) -> usize
        ensures { IsTaken (text_of (integer_literal self.now)) buffer.old buffer.new result }
    {
        let mut window = Window {
            bytes: buffer,
            length: 0,
        };
        self.fill(&mut window);
        window.length
    }

    // Writes the text to a buffer.
    #[inline(always)]
    fn fill(&self, window: &mut Window)
        requires { window.old.length ≡ 0 }
        ensures { IsIn window.old window.new (text_of (integer_literal self.now)) }
    {
        self.put(window);
    }

    // Writes the text.
    #[inline(always)]
    pub(crate) fn put<S: Sink>(&self, sink: &mut S)
        ensures { (start : S) → (text : List ℕ) → S.has start sink.old text
            → S.has start sink.new (text ++ text_of (integer_literal self.now)) }
    {
        if self.is_plain() {
            self.put_plain(sink);
        } else {
            self.lay_out().put(sink);
        }
    }

    // Writes a sign, if there is one, and decimal digits.
    #[inline(always)]
    fn put_plain<S: Sink>(&self, sink: &mut S)
        ensures { (start : S) → (text : List ℕ) → S.has start sink.old text → S.has start sink.new (text ++ plain_text self.now) }
    {
        let required = self.syntax.format().view().required_mantissa_sign();
        put_if_any(sink, sign_of(self.negative, required));
        let digits = Run {
            source: Source::Number(self.size),
            radix: 10,
            least: 1,
            pattern: no_groups(self.style.lowercase),
        };
        digits.put(sink);
    }

    // Returns whether the text is known to have only decimal digits, without zeros before them, behind a sign if it has one.
    #[inline(always)]
    fn is_plain(&self) -> bool
        ensures { result ≡ true → text_of (integer_literal self.now) ≡ plain_text self.now }
    {
        let format = self.syntax.format().view();
        let conditions = self.syntax.conditions();
        let leads = conditions.has(Condition::LeadingZero)
            | conditions.has(Condition::DecimalFirstDigit)
            | (self.style.min_digits > 1);
        let exponent = needs_exponent(&self.syntax);
        (format.mantissa_radix() == 10)
            & (base_prefix(format.word()) == 0)
            & (base_suffix(format.word()) == 0)
            & (integer_pattern(format, conditions, self.style).last == 0)
            & !leads
            & !exponent
    }
}
