//! A list of forms writes numbers: in the first form whose text the list reads as the number.

ghost use Rattle.std.specs.Prelude.{◌==◌, ◌≡◌, ◌≤◌, ◌<◌, ◌-◌, ◌^◌, ◌⊎◌, ◌||◌, ◌++◌, if◌then◌else◌, not, Bool, true, false};
ghost use Rattle.std.specs.Prelude.{ℕ, ◌+◌, Err, List, IfErr, IfOk, IfSome, IsFalse, None, Ok, Option, Result, Some};
ghost use Rattle.std.specs.Prelude.{[], unwrap_or, from_bits, is_some, length, slice_get, take, ℤ};
ghost use Rattle.std.specs.Float.{Float as Value, float_is_infinite};
ghost use Rattle.lexical_util.specs.Record.{bytes_of};
ghost use Rattle.lexical_literal.specs.Read.{exact, Read};
ghost use Rattle.lexical_literal.specs.Literal.{Literal as Parts, Reads, is_float, text_of};
ghost use Rattle.lexical_literal.specs.Notation.{lacks_options, notation_of};
ghost use Rattle.lexical_number.specs.Float.{format_of, is_zero};
ghost use Rattle.lexical_literal.specs.declared.kind.FloatLimits.TheVariants as bounds;
ghost use Rattle.lexical_literal.specs.declared.syntax.Grammar.{Grammar};
ghost use Rattle.lexical_number.specs.Numeral.{magnitude_size, with_sign};
ghost use Rattle.lexical_value.specs.Kind.{float_worth, integer_worth, is_exact, width, within, worth};
ghost use Rattle.lexical_literal.specs.declared.kind.FloatKind.TheVariants as floats;
ghost use Rattle.lexical_writer.specs.Buffer.{IsTaken};
ghost use Rattle.lexical_forms.specs.Forms.{IsFirst, NoForm};
ghost use Rattle.lexical_forms.specs.declared.form.Form.{Form as Asked};
ghost use Rattle.lexical_writer.specs.Layout.{integer_literal, laid_out, literal_of as written, number_of_size};
ghost use Rattle.lexical_writer.specs.Choice.{ArePassed, IsChosen, IsFound, IsMisread, IsNoToken, IsPassedOver, IsReadElse, IsReadWith, IsReal};
ghost use Rattle.lexical_writer.specs.Choice.{IsRefused, IsSearched, IsStopped, IsWhole, IsWrittenBy, Task, bytes_of_word};
ghost use Rattle.lexical_writer.specs.Choice.{has_worth, is_asked, is_own, is_short, steps, text_by, unasked, ways, whole_of, words_of};
ghost use Rattle.lexical_writer.specs.Private.{IsPut};
ghost use Rattle.lexical_writer.specs.declared.layout.WriteError.{WriteError as Reason};
ghost use Rattle.lexical_writer.specs.declared.layout.WriteError.TheVariants as errors;
ghost use Rattle.lexical_writer.specs.declared.layout.Style.{Style as Wishes};

use crate::float::{format_float, is_integer};
use crate::float_digits::FloatDigits;
use crate::integer::WrittenInteger;
use crate::layout::{Layout, Style, WriteError, is_whole};
use crate::literal::format_literal;
use lexical_forms::form::Form;
use lexical_forms::list::{Forms, Number};
use lexical_literal::kind::{FloatKind, FloatLimits, IntegerKind, Kind};
use lexical_literal::laws::literal_facts;
use lexical_literal::literal::Literal;
use lexical_literal::syntax::Syntax;
use lexical_number::float::Float;
use lexical_number::integer::Integer;
use lexical_number::numeral::Magnitude;
use lexical_value::float::{supports_floats, to_float};
use lexical_value::integer::own_numeral;

/// Which forms of a list a number asks first.
#[derive(Clone, Copy)]
pub struct Own {
    /// The radix of these forms.
    pub radix: u32,
    /// Whether the number is an integer. If it is none, they have floats.
    pub integer: bool,
    /// Whether the number is a float that is rounded. They alone write it.
    pub rounded: bool,
}

/// A number that a list of forms is asked to write.
pub trait Writable {
    // What a list is asked to write in a style.
    ghost task: { Self → Wishes → Task };

    /// Returns which forms are asked first.
    fn own(&self, style: Style) -> Own
        ensures { result ≡ (task self.now style).own };

    /// Writes the number as a literal of `syntax` to the beginning of a buffer, as far as it has room, and returns the length of
    /// the text, and whether it has a decimal point or an exponent.
    ///
    /// # Errors
    ///
    /// If no literal has the number, returns why.
    fn write(
        &self,
        syntax: &Syntax,
        style: Style,
        buffer: &mut [u8],
    ) -> Result<(usize, bool), WriteError>
        ensures text { IfOk result (λ it. (l : Parts) × Reads (notation_of syntax.now) l (text_of l)
            × (task self.now style).writes syntax.now (Ok l) × IsTaken (text_of l) buffer.old buffer.new it.0 × (it.1 ≡ is_float l)) }
        ensures room { length buffer.new ≡ length buffer.old }
        ensures error { IfErr result (λ error. (task self.now style).writes syntax.now (Err error)) };

    /// Returns whether a literal of a syntax and a kind, with a decimal point or an exponent or without, is the number if it is
    /// written for it in a style.
    fn is_plain(&self, syntax: &Syntax, kind: Kind, style: Style, float: bool) -> bool
        ensures plain { result ≡ true → (read : Read) → read.kind ≡ kind → read.format ≡ syntax.now.word → is_float read.literal ≡ float
            → (task self.now style).writes syntax.now (Ok read.literal) → (task self.now style).is syntax.now read.literal read }
        ensures kept { result ≡ false → (read : Read) → read.kind ≡ kind → read.format ≡ syntax.now.word → is_float read.literal ≡ float
            → (task self.now style).keeps true read → (task self.now style).keeps false read };

    /// Returns whether a literal is worth the number in a style, of which `own` is what its form alone reads.
    fn is_read_as(&self, style: Style, own: &Literal, literal: &Literal) -> bool
        ensures same { result ≡ true → own.now.kind ≡ exact → (g : Grammar) → own.now.format ≡ g.word
            → (task self.now style).writes g (Ok own.now.literal) → (task self.now style).is g own.now.literal literal.now }
        ensures kept { result ≡ false → (task self.now style).keeps false literal.now → ⊥ };

    /// Returns whether a literal is worth the number in a style, whatever is written for it. A number that is rounded is not.
    fn is_worth(&self, style: Style, literal: &Literal) -> bool
        ensures worth { result ≡ true → (g : Grammar) → (l : Parts) → (task self.now style).is g l literal.now }
        ensures kept { result ≡ false → (task self.now style).keeps false literal.now → ⊥ };
}

/// The value of an integer type, by its sign and its size.
#[derive(Clone, Copy)]
pub struct Whole {
    negative: bool,
    size: u128,
}

impl Whole {
    /// Returns the value.
    #[inline(always)]
    pub fn of<T: Integer>(value: T) -> Whole
        ensures { with_sign result.negative result.size ≡ T.range.value value }
    {
        let (negative, size) = value.sign_and_size();
        Whole { negative, size }
    }
}

impl Writable for Whole {
    ghost use Rattle.std.specs.Prelude.{◌≡◌, MatchResult, Some, false, true};
    ghost use Rattle.lexical_util.specs.Record.{raw};
    ghost use Rattle.lexical_number.specs.Numeral.{with_sign};
    ghost use Rattle.lexical_literal.specs.Literal.{is_minus};
    ghost use Rattle.lexical_value.specs.Integer.{integer_size};
    ghost use Rattle.lexical_writer.specs.Choice.{IsWhole, whole_of};
    ghost use Rattle.lexical_writer.specs.Layout.{laid_out, number_of_size, refusal};

    ghost task = { λ number style. record {
      own = record { radix = 10; integer = true; rounded = false };
      writes = λ g result. MatchResult result (λ l. (l ≡ laid_out g style (number_of_size number.negative number.size))
          × (with_sign number.negative number.size ≡ with_sign (is_minus l.sign) (integer_size (raw g.word).byte l)))
          (λ error. refusal g (number_of_size number.negative number.size) ≡ Some error);
      is = λ g l read. IsWhole (with_sign number.negative number.size) read;
      keeps = λ own read. whole_of read ≡ Some (number.negative, number.size);
    } };

    fn own(&self, _: Style) -> Own {
        Own {
            radix: 10,
            integer: true,
            rounded: false,
        }
    }

    fn write(
        &self,
        syntax: &Syntax,
        style: Style,
        buffer: &mut [u8],
    ) -> Result<(usize, bool), WriteError> {
        let integer = WrittenInteger::of_size(self.negative, self.size, syntax, style)?;
        Ok((integer.write(buffer), integer.is_float()))
    }

    fn is_plain(&self, _syntax: &Syntax, kind: Kind, _: Style, float: bool) -> bool {
        !float && is_kept(kind.integers(), self.negative, self.size)
    }

    fn is_read_as(&self, _: Style, _: &Literal, literal: &Literal) -> bool {
        is_worth(literal, self.negative, self.size)
    }

    fn is_worth(&self, _: Style, literal: &Literal) -> bool {
        is_worth(literal, self.negative, self.size)
    }
}

/// The value of a float type.
#[derive(Clone, Copy)]
pub struct Real<F> {
    /// The value.
    pub value: F,
}

impl<F: Float> Writable for Real<F> {
    ghost use Rattle.std.specs.Prelude.{◌≡◌, MatchResult, None, Some, false, is_some, true};
    ghost use Rattle.lexical_number.specs.Float.{format_of};
    ghost use Rattle.lexical_util.specs.Record.{raw};
    ghost use Rattle.lexical_value.specs.Float.{nearest};
    ghost use Rattle.lexical_writer.specs.Amount.{IsFloatOf, float_error};
    ghost use Rattle.lexical_writer.specs.Choice.{IsAmount, IsKept};

    ghost task = { λ number style. record {
      own = record { radix = 10; integer = false; rounded = is_some style.decimals };
      writes = λ g result. MatchResult result (λ l. IsFloatOf (format_of F.DOUBLE) (F.value number.value) g style l
          × (style.decimals ≡ None → F.value number.value ≡ nearest (format_of F.DOUBLE) (raw g.word).byte l))
          (λ error. float_error g (F.value number.value) ≡ Some error);
      is = IsAmount (format_of F.DOUBLE) (F.value number.value) style.decimals;
      keeps = λ own read. (own ≡ true) × IsKept (F.value number.value) style.decimals read;
    } };

    fn own(&self, style: Style) -> Own {
        Own {
            radix: 10,
            integer: false,
            rounded: style.decimals.is_some(),
        }
    }

    #[tactic(auto, using(crate::proofs::AmountLemmas::none_in))]
    fn write(
        &self,
        syntax: &Syntax,
        style: Style,
        buffer: &mut [u8],
    ) -> Result<(usize, bool), WriteError> {
        let mut digits = FloatDigits::new();
        Ok(put(
            &format_float(syntax, self.value, style, &mut digits)?,
            buffer,
        ))
    }

    fn is_plain(&self, syntax: &Syntax, kind: Kind, style: Style, float: bool) -> bool {
        if !supports_floats(syntax.format().view()) {
            return false;
        }
        is_nearest(kind, float) && is_within(self.value, style.decimals, kind.limits())
    }

    fn is_read_as(&self, _: Style, own: &Literal, literal: &Literal) -> bool {
        is_same::<F>(own, literal)
    }

    fn is_worth(&self, style: Style, literal: &Literal) -> bool {
        style.decimals.is_none() && is_float::<F>(literal, self.value)
    }
}

// Returns what a literal is worth as a float, if it is one. Programs have one copy of this for a type.
#[inline(never)]
fn float_of<F: Float>(literal: &Literal) -> Option<F>
    ensures { IfSome result (λ value. float_worth literal.now.kind (format_of F.DOUBLE) (bytes_of literal.now.format) literal.now.literal
        ≡ Ok (F.value value)) }
{
    match to_float::<F>(literal) {
        Ok(value) => Some(value),
        Err(_) => None,
    }
}

// Returns the bits of what a literal is worth as a float, if it is one.
fn bits_in<F: Float>(literal: &Literal) -> Option<u64>
    ensures { IfSome result (λ bits. float_worth literal.now.kind (format_of F.DOUBLE) (bytes_of literal.now.format) literal.now.literal
        ≡ Ok (from_bits (format_of F.DOUBLE) bits)) }
{
    float_of::<F>(literal)?.bits()
}

// Returns whether a literal is worth a float, with the same bits.
fn is_float<F: Float>(literal: &Literal, value: F) -> bool
    ensures { result ≡ true → float_worth literal.now.kind (format_of F.DOUBLE) (bytes_of literal.now.format) literal.now.literal
        ≡ Ok (F.value value) }
{
    match (bits_in::<F>(literal), value.bits()) {
        (Some(bits), Some(own)) => bits == own,
        _ => false,
    }
}

// Returns whether two literals are worth the same float.
fn is_same<F: Float>(own: &Literal, literal: &Literal) -> bool
    ensures { result ≡ true → (value : Value) × IsReal (format_of F.DOUBLE) value own.now × IsReal (format_of F.DOUBLE) value literal.now }
{
    match (bits_in::<F>(own), bits_in::<F>(literal)) {
        (Some(own), Some(bits)) => own == bits,
        _ => false,
    }
}

impl Writable for Literal<'_> {
    ghost use Rattle.std.specs.Prelude.{◌≡◌, Err, MatchResult, None, false, not};
    ghost use Rattle.lexical_literal.specs.Literal.{is_float};
    ghost use Rattle.lexical_util.specs.Layout as layout;
    ghost use Rattle.lexical_util.specs.Record.{raw};
    ghost use Rattle.lexical_writer.specs.Choice.{IsKeptNumber, IsSameNumber};
    ghost use Rattle.lexical_writer.specs.Conversion.{IsWrittenAs, SameFraction};

    ghost task = { λ number style. record {
      own = record {
        radix = (raw number.format).byte layout.mantissa_radix;
        integer = not (is_float number.literal);
        rounded = false;
      };
      writes = λ g result. MatchResult result (λ l. IsWrittenAs number g style (Ok l)
          × SameFraction (raw number.format) number.literal (raw g.word) l) (λ error. IsWrittenAs number g style (Err error));
      is = λ g l. IsSameNumber number;
      keeps = IsKeptNumber number;
    } };

    fn own(&self, _: Style) -> Own {
        Own {
            radix: self.format().mantissa_radix(),
            integer: !self.is_float(),
            rounded: false,
        }
    }

    fn write(
        &self,
        syntax: &Syntax,
        style: Style,
        buffer: &mut [u8],
    ) -> Result<(usize, bool), WriteError> {
        Ok(put(&format_literal(self, syntax, style)?, buffer))
    }

    fn is_plain(&self, _syntax: &Syntax, kind: Kind, _: Style, float: bool) -> bool {
        is_exact(self.kind()) && is_exact(kind) && (self.is_float() || !float)
    }

    fn is_read_as(&self, style: Style, _: &Literal, literal: &Literal) -> bool {
        self.is_worth(style, literal)
    }

    fn is_worth(&self, _: Style, literal: &Literal) -> bool {
        if is_same_whole(self, literal) {
            return true;
        }
        self.is_float() && is_same::<f64>(self, literal)
    }
}

// Returns whether two literals are worth the same integer.
fn is_same_whole(own: &Literal, literal: &Literal) -> bool
    ensures same { result ≡ true → (z : ℤ) × IsWhole z own.now × IsWhole z literal.now }
    ensures kept { result ≡ false → (w : Bool × ℕ) → w.1 < 2 ^ 128 → whole_of own.now ≡ Some w → whole_of literal.now ≡ Some w → ⊥ }
{
    match whole_worth(own) {
        Some((negative, size)) => is_worth(literal, negative, size),
        None => is_same_integer(own, literal),
    }
}

// Returns whether two literals are worth the same integer, by the same digits.
fn is_same_integer(own: &Literal, literal: &Literal) -> bool
    ensures { result ≡ true → (z : ℤ) × IsWhole z own.now × IsWhole z literal.now }
{
    let (Ok(own), Ok(numeral)) = (own_numeral(own), own_numeral(literal)) else {
        return false;
    };
    match (own.magnitude, numeral.magnitude) {
        (Magnitude::Digits(bytes, radix), Magnitude::Digits(digits, base)) => own.negative
            == numeral.negative
            && radix == base
            && bytes == digits,
        _ => false,
    }
}

// Writes a literal to the beginning of a buffer, as far as it has room, and returns the length of the text, and whether it has a
// decimal point or an exponent.
fn put(layout: &Layout, buffer: &mut [u8]) -> (usize, bool)
    ensures text { IsTaken (text_of (written layout.now)) buffer.old buffer.new result.0 }
    ensures float { result.1 ≡ is_float (written layout.now) }
{
    let float = layout.point.is_some() | layout.exponent_character.is_some();
    (layout.write(buffer), float)
}

// Returns whether literals of a kind, with a decimal point or an exponent or without, are worth the nearest float.
const fn is_nearest(kind: Kind, float: bool) -> bool
    ensures near { result ≡ true → kind.floats ≡ floats.Nearest }
    ensures plain { result ≡ true → (is_exact kind.integers || float) ≡ true }
    ensures kept { result ≡ false → kind.floats ≡ floats.Nearest → (is_exact kind.integers || float) ≡ true → ⊥ }
{
    match (kind.floats(), kind.integers()) {
        (FloatKind::Nearest, IntegerKind::Exact) => true,
        (FloatKind::Nearest, _) => float,
        (FloatKind::Single, _) => false,
    }
}

// Returns whether the float that is nearest to what is written for a float is known to be within limits. Without a number of decimals, it is
// the same float.
fn is_within<F: Float>(value: F, decimals: Option<u8>, limits: FloatLimits) -> bool
    ensures near { result ≡ true → (negative : Bool) → (n : ℕ) → (near : Value) → (decimals ≡ None → F.value value ≡ near)
        → within limits negative n near ≡ Ok near }
    ensures kept { result ≡ false → (limits ≡ bounds.None)
        ⊎ ((decimals ≡ None) × (float_is_infinite (F.value value) ≡ false) × (is_zero (F.value value) ≡ false)) → ⊥ }
{
    match limits {
        FloatLimits::None => true,
        FloatLimits::Largest => decimals.is_none() && !value.is_infinite(),
        FloatLimits::Both => decimals.is_none() && !value.is_infinite() && !value.is_zero(),
    }
}

// Returns whether an integer of this sign and size is known to be worth itself by a kind: one that has fewer bits than the kind is.
#[tactic(auto, using(lexical_value::proofs::KindLemmas::signed_keeps, lexical_value::proofs::KindLemmas::unsigned_keeps))]
const fn is_kept(kind: IntegerKind, negative: bool, size: u128) -> bool
    ensures { result ≡ true → worth kind negative size ≡ Some (negative, size) }
{
    match kind {
        IntegerKind::Exact => true,
        IntegerKind::Signed(bits) => is_low(bits, size),
        IntegerKind::Unsigned(_) if negative => false,
        IntegerKind::Unsigned(bits) => is_low(bits, size),
        IntegerKind::Wraps(_) | IntegerKind::WrapsModulo(_) => false,
    }
}

// Returns whether a number has fewer than `bits` bits. No kind has more than 64.
const fn is_low(bits: u8, size: u128) -> bool
    ensures { result ≡ true → size < 2 ^ (width bits - 1) }
{
    let width = if bits < 64 { bits } else { 64 };
    size < 1 << width.saturating_sub(1)
}

// Returns whether a literal is worth an integer: as an integer, or as a float that is exactly this integer.
#[inline(never)]
fn is_worth(literal: &Literal, negative: bool, size: u128) -> bool
    ensures worth { result ≡ true → IsWhole (with_sign negative size) literal.now }
    ensures kept { result ≡ false → whole_of literal.now ≡ Some (negative, size) → ⊥ }
{
    if literal.is_float() {
        return match float_of::<f64>(literal) {
            Some(value) => is_integer(value, negative, size),
            None => false,
        };
    }
    match whole_worth(literal) {
        Some((sign, own)) => sign == negative && own == size,
        None => false,
    }
}

// Returns the sign and the size of what an integer literal is worth, if it has at most 128 bits.
fn whole_worth(literal: &Literal) -> Option<(bool, u128)>
    ensures none { result ≡ None → (w : Bool × ℕ) → w.1 < 2 ^ 128 → whole_of literal.now ≡ Some w → ⊥ }
    ensures some { IfSome result (λ own. IsFalse (is_float literal.now.literal)
        × (integer_worth literal.now.kind.integers (bytes_of literal.now.format) literal.now.literal ≡ Some own)) }
{
    match own_numeral(literal) {
        Ok(numeral) => match numeral.wide_size(u128::MAX, u128::MAX) {
            Some(size) => Some((numeral.negative, size)),
            None => None,
        },
        Err(_) => None,
    }
}

// Returns whether literals of a kind are the number that their digits represent.
const fn is_exact(kind: Kind) -> bool
    ensures exact { result ≡ true → kind ≡ exact }
    ensures kept { kind ≡ exact → result ≡ true }
{
    matches!(
        (kind.integers(), kind.floats(), kind.limits()),
        (IntegerKind::Exact, FloatKind::Nearest, FloatLimits::None)
    )
}

// The longest text that is read back.
pub(crate) const LONGEST: usize = 4096;

/// How a list writes a number.
#[derive(Clone, Copy)]
pub struct Chosen {
    /// The index of the form.
    pub form: usize,
    /// The word behind the literal, if there is one.
    pub word: Option<&'static &'static [u8]>,
    /// The length of the text, with the word.
    pub length: usize,
}

/// Writes a number by the first form whose text the list reads as this number, to the beginning of a buffer. The number's own forms
/// are asked first: those of its radix which, if it is no integer, have floats. No other form writes a float that is rounded. A form
/// writes an integer with the first of its [words][Suffixes::written] with which its token is the number, if it does not without one.
///
/// # Errors
///
/// If there is no such form, returns the error of the form that is asked first. It is [`WriteError::ReadBack`] if the text is read as
/// another number, and [`WriteError::TooLarge`] if it is too large for its kind. If no form is asked, it is
/// [`WriteError::Fraction`] of a float that is rounded, and else `ReadBack`. If a text does not fit the buffer, the search ends with
/// [`WriteError::Buffer`].
pub fn choose<N: Writable>(
    forms: &Forms,
    number: &N,
    style: Style,
    buffer: &mut [u8],
) -> Result<Chosen, WriteError>
    ensures length { IfOk result (λ it. it.length ≤ length buffer.new) }
    // The text is what a form that is asked writes, and the list reads it as the number. Each form that is asked before is passed over.
    ensures text { IfOk result (λ it. IsFound (IsPassedOver (N.task number.now style) (length buffer.old) forms.now)
        (λ at form. (at ≡ it.form) × IsChosen (N.task number.now style) (length buffer.old) forms.now at form (bytes_of_word it.word)
        (take it.length buffer.new)) (N.task number.now style).own forms.now.forms) }
    // The error is that of a text that is too long, which ends the search, or else that of the form that is asked first.
    ensures error { IfErr result (λ error. IsFound (IsPassedOver (N.task number.now style) (length buffer.old) forms.now)
        (λ at form. IsStopped (N.task number.now style) (length buffer.old) forms.now at form error) (N.task number.now style).own forms.now.forms
        ⊎ ((first : Option Reason) × IsSearched (IsPassedOver (N.task number.now style) (length buffer.old) forms.now)
        (is_asked (N.task number.now style).own) forms.now.forms (steps (N.task number.now style).own) 0 first
        × (error ≡ unwrap_or first (unasked (N.task number.now style).own)))) }
{
    let list = forms.as_slice();
    let own = number.own(style);
    let end = steps(own);
    let mut error = None;
    let mut step = 0;
    while step < end {
        let mut index = 0;
        while index < list.len() {
            let it = &list[index];
            if is_asked(own, step, it) {
                match write_form(forms, index, it, number, style, buffer) {
                    Ok(chosen) => return Ok(chosen),
                    Err(other) if is_short(other) => return Err(other),
                    Err(other) => error = Some(error.unwrap_or(other)),
                }
            }
            index += 1;
        }
        step += 1;
    }
    Err(error.unwrap_or(unasked(own)))
}

// Returns how many steps there are: in the first one, a number's own forms are asked, and in the second one the others.
const fn steps(own: Own) -> u8
    ensures { result ≡ steps own }
{
    if own.rounded { 1 } else { 2 }
}

// Returns the error if no form is asked.
const fn unasked(own: Own) -> WriteError
    ensures { result ≡ unasked own }
{
    if own.rounded {
        WriteError::Fraction
    } else {
        WriteError::ReadBack
    }
}

// Returns whether a form is asked in a step.
#[inline(always)]
fn is_asked(own: Own, step: u8, form: &Form) -> bool
    ensures { result ≡ is_asked own step form.now }
{
    let here = is_own(own, &form.syntax());
    (if step == 0 { here } else { !here }) & !form.is_only_read()
}

// Returns whether a form with a syntax is one of a number's own.
#[inline(always)]
fn is_own(own: Own, syntax: &Syntax) -> bool
    ensures { result ≡ is_own own syntax.now }
{
    (syntax.format().view().mantissa_radix() == own.radix) & (own.integer | !is_whole(syntax))
}

/// Returns how the first form of a list writes an integer, if this form is asked first, and its text is known to be read back.
#[inline(always)]
pub fn lay_out_first(forms: &Forms, number: &Whole, style: Style) -> Option<WrittenInteger>
    ensures back { IfSome result (λ it.
        IsReadWith forms.now None (text_of (integer_literal it)) (IsWhole (with_sign number.now.negative number.now.size))) }
    ensures first { IfSome result (λ it. (form : Asked) × (slice_get forms.now.forms 0 ≡ Some form) × (form.only_read ≡ false)
        × (is_own (record { radix = 10; integer = true; rounded = false }) form.syntax ≡ true)
        × (integer_literal it ≡ laid_out form.syntax style (number_of_size number.now.negative number.now.size))) }
{
    let form = &forms.as_slice()[0];
    let syntax = form.syntax();
    if form.is_only_read() || form.has_opening() || !is_own(number.own(style), &syntax) {
        return None;
    }
    let Ok(integer) = WrittenInteger::of_size(number.negative, number.size, &syntax, style) else {
        return None;
    };
    if integer.is_float() || !number.is_plain(&syntax, form.kind(), style, false) {
        return None;
    }
    Some(integer)
}

// Writes a number by one form, without a word or else, if it is an integer, with the first of the form's words that makes its token this
// integer, or returns why the form is not used.
fn write_form<N: Writable>(
    forms: &Forms,
    index: usize,
    form: &Form,
    number: &N,
    style: Style,
    buffer: &mut [u8],
) -> Result<Chosen, WriteError>
    requires { slice_get forms.now.forms index ≡ Some form.now }
    ensures length { IfOk result (λ it. it.length ≤ length buffer.new) }
    ensures room { length buffer.new ≡ length buffer.old }
    ensures form { IfOk result (λ it. it.form ≡ index) }
    ensures text { IfOk result (λ it. IsChosen (N.task number.now style) (length buffer.old) forms.now index form.now (bytes_of_word it.word)
        (take it.length buffer.new)) }
    ensures passed { IfErr result (λ error. is_short error ≡ false
        → IsPassedOver (N.task number.now style) (length buffer.old) forms.now index form.now error) }
    ensures stopped { IfErr result (λ error. is_short error ≡ true
        → IsStopped (N.task number.now style) (length buffer.old) forms.now index form.now error) }
{
    let error = match write_by(forms, index, form, number, style, None, buffer) {
        Ok(length) => return Ok(Chosen {
            form: index,
            word: None,
            length,
        }),
        Err(error) => error,
    };
    if is_short(error) {
        return Err(error);
    }
    let words = words_in(number.own(style).integer, form);
    for word in words {
        match write_by(forms, index, form, number, style, Some(word), buffer) {
            Ok(length) => return Ok(Chosen {
                form: index,
                word: Some(word),
                length,
            }),
            Err(other) if is_short(other) => return Err(other),
            Err(_) => {}
        }
    }
    Err(error)
}

// Returns the words with which a form writes a number.
#[cold]
const fn words_in(integer: bool, form: &Form) -> &'static [&'static [u8]]
    ensures { result.now ≡ (if integer then words_of form.now.suffixes else []) }
{
    match form.suffixes() {
        Some(suffixes) if integer => suffixes.written(),
        _ => &[],
    }
}

// Writes a number by one form with its opening, and a word behind it if there is one, and returns the length of the text, or
// why it is not used.
fn write_by<N: Writable>(
    forms: &Forms,
    index: usize,
    form: &Form,
    number: &N,
    style: Style,
    word: Option<&'static &'static [u8]>,
    buffer: &mut [u8],
) -> Result<usize, WriteError>
    requires { slice_get forms.now.forms index ≡ Some form.now }
    ensures length { IfOk result (λ size. size ≤ length buffer.new) }
    ensures room { length buffer.new ≡ length buffer.old }
    ensures text { IfOk result (λ size. IsWrittenBy (N.task number.now style) forms.now form.now (bytes_of_word word.entry) (take size buffer.new)) }
    ensures error { IfErr result (IsRefused (N.task number.now style) (length buffer.old) forms.now index form.now (bytes_of_word word.entry)) }
{
    let (end, float) = put_text(form, number, style, word, buffer)?;
    // A text that is longer than a `usize` has the size `usize::MAX`.
    if end == usize::MAX || end > buffer.len() {
        return Err(WriteError::Buffer(end));
    }
    let text = &buffer[..end];
    match word {
        None => read_alone(forms, index, form, number, style, float, text)?,
        Some(word) => read_token(forms, number, style, word, text)?,
    }
    Ok(end)
}

// Writes a number by one form with its opening, and a word behind it if there is one, to the beginning of a buffer, as far as
// it has room, and returns the length of the text, and whether the literal has a decimal point or an exponent, or why there is none.
fn put_text<N: Writable>(
    form: &Form,
    number: &N,
    style: Style,
    word: Option<&'static &'static [u8]>,
    buffer: &mut [u8],
) -> Result<(usize, bool), WriteError>
    ensures room { length buffer.new ≡ length buffer.old }
    ensures text { IfOk result (λ it. (l : Parts) × Reads (notation_of form.now.syntax) l (text_of l)
        × (N.task number.now style).writes form.now.syntax (Ok l) × (it.1 ≡ is_float l)
        × IsPut (text_by form.now (bytes_of_word word.entry) l) buffer.new it.0) }
    ensures error { IfErr result (λ error. (N.task number.now style).writes form.now.syntax (Err error)) }
{
    let opening = form.opening();
    let start = put_at(buffer, 0, opening.as_bytes());
    let (end, float) = put_number(&form.syntax(), number, style, start, buffer)?;
    let word: &[u8] = match word {
        Some(word) => word,
        None => &[],
    };
    Ok((put_at(buffer, end, word), float))
}

// Writes a number as a literal of a syntax to a buffer from an index on, as far as it has room, and returns the index behind it,
// and whether it has a decimal point or an exponent, or why there is none.
fn put_number<N: Writable>(
    syntax: &Syntax,
    number: &N,
    style: Style,
    start: usize,
    buffer: &mut [u8],
) -> Result<(usize, bool), WriteError>
    ensures room { length buffer.new ≡ length buffer.old }
    ensures text { (front : List ℕ) → start < 2 ^ 64 - 1 → IsPut front buffer.old start
        → IfOk result (λ it. (l : Parts) × Reads (notation_of syntax.now) l (text_of l) × (N.task number.now style).writes syntax.now (Ok l)
        × (it.1 ≡ is_float l) × IsPut (front ++ text_of l) buffer.new it.0) }
    ensures error { IfErr result (λ error. (N.task number.now style).writes syntax.now (Err error)) }
{
    let least = start.min(buffer.len());
    let (size, float) = number.write(syntax, style, &mut buffer[least..])?;
    Ok((start.saturating_add(size), float))
}

// Writes bytes to a buffer from an index on, as far as it has room, and returns the index behind them.
#[inline(always)]
fn put_at(buffer: &mut [u8], index: usize, bytes: &[u8]) -> usize
    ensures room { length buffer.new ≡ length buffer.old }
    ensures text { (front : List ℕ) → IsPut front buffer.old index → IsPut (front ++ bytes.now) buffer.new result }
{
    let end = index.saturating_add(bytes.len());
    if end <= buffer.len() {
        buffer[index..end].copy_from_slice(bytes);
    }
    end
}

// Returns nothing if all of a text is a token with this suffix, which is the number, or why it is not used.
fn read_token<N: Writable>(
    forms: &Forms,
    number: &N,
    style: Style,
    word: &[u8],
    text: &[u8],
) -> Result<(), WriteError>
    ensures value { (g : Grammar) → (l : Parts) → IfOk result (λ _. IsReadWith forms.now (Some word.now) text.now ((N.task number.now style).is g l)) }
    ensures error { IfErr result (IsNoToken (N.task number.now style).keeps forms.now word.now text.now) }
{
    let Ok(token) = forms.token(text) else {
        return Err(WriteError::ReadBack);
    };
    if !token.rest.is_empty() {
        return Err(WriteError::ReadBack);
    }
    let same = token.suffix == word;
    if !same {
        return Err(WriteError::ReadBack);
    }
    if number.is_worth(style, &token.literal) {
        return Ok(());
    }
    Err(WriteError::ReadBack)
}

// Returns whether a text needs a longer buffer.
const fn is_short(error: WriteError) -> bool
    ensures { result ≡ is_short error }
{
    matches!(error, WriteError::Buffer(_))
}

// Returns nothing if the list reads a text, which is written for a number by one form without a word, as the number, or why it is not
// used.
#[inline(always)]
fn read_alone<N: Writable>(
    forms: &Forms,
    index: usize,
    form: &Form,
    number: &N,
    style: Style,
    float: bool,
    text: &[u8],
) -> Result<(), WriteError>
    requires form { slice_get forms.now.forms index ≡ Some form.now }
    requires written { (l : Parts) × Reads (notation_of form.now.syntax) l (text_of l) × (N.task number.now style).writes form.now.syntax (Ok l)
        × (float ≡ is_float l) × (text.now ≡ text_by form.now None l) }
    ensures value { IfOk result (λ _. IsWrittenBy (N.task number.now style) forms.now form.now None text.now) }
    ensures error { IfErr result (IsMisread (N.task number.now style) forms.now index form.now None text.now) }
{
    if !form.has_opening() {
        return match read_written(forms, index, form, number, style, float, text) {
            Ok(()) => Ok(()),
            Err(error) => Err(error),
        };
    }
    let Some((_, literal)) = read_literal(forms, text) else {
        return Err(WriteError::ReadBack);
    };
    if number.is_worth(style, &literal) {
        return Ok(());
    }
    Err(mismatch(&literal))
}

// Returns nothing if the list reads a text, which is a literal of one form without an opening, as the number, or why it is not used.
#[inline(always)]
fn read_written<N: Writable>(
    forms: &Forms,
    index: usize,
    form: &Form,
    number: &N,
    style: Style,
    float: bool,
    text: &[u8],
) -> Result<(), WriteError>
    requires form { slice_get forms.now.forms index ≡ Some form.now }
    requires unopened { form.now.opening.size ≡ 0 }
    requires written { (l : Parts) × Reads (notation_of form.now.syntax) l text.now × (N.task number.now style).writes form.now.syntax (Ok l)
        × (float ≡ is_float l) }
    ensures value { IfOk result (λ _. (l : Parts) × (N.task number.now style).writes form.now.syntax (Ok l) × (text.now ≡ text_of l)
        × IsReadWith forms.now None text.now ((N.task number.now style).is form.now.syntax l)) }
    ensures error { IfErr result (IsReadElse (N.task number.now style).keeps forms.now.forms index text.now) }
{
    let syntax = form.syntax();
    let plain = number.is_plain(&syntax, form.kind(), style, float);
    // A list reads what the first form reads as this form does.
    if plain && index == 0 {
        return Ok(());
    }
    literal_facts();
    let Some((form, literal)) = read_literal(forms, text) else {
        return Err(WriteError::ReadBack);
    };
    if plain & (form == index) {
        return Ok(());
    }
    let Some(own) = own_literal(&syntax, text) else {
        return Err(WriteError::ReadBack);
    };
    if number.is_read_as(style, &own, &literal) {
        return Ok(());
    }
    Err(mismatch(&literal))
}

// Returns why a text is not used that is read as this literal.
fn mismatch(literal: &Literal) -> WriteError
    ensures { result ≡ (if has_worth literal.now then errors.ReadBack else errors.TooLarge) }
{
    if has_worth(literal) {
        WriteError::ReadBack
    } else {
        WriteError::TooLarge
    }
}

// Returns whether a literal is worth an integer or, with a decimal point or an exponent, an `f64`, or if its radix has no floats.
fn has_worth(literal: &Literal) -> bool
    ensures { result ≡ has_worth literal.now }
{
    if literal.is_float() {
        !supports_floats(literal.format()) || to_float::<f64>(literal).is_ok()
    } else {
        own_numeral(literal).is_ok()
    }
}

// Returns the literal of a syntax that a text is, by the calls that lists share.
fn own_literal<'a>(syntax: &Syntax, text: &'a [u8]) -> Option<Literal<'a>>
    ensures some { IfSome result (λ own. (own.kind ≡ exact) × (own.format ≡ syntax.now.word) × Reads (notation_of syntax.now) own.literal text.now) }
    ensures none { result ≡ None → (l : Parts) → Reads (notation_of syntax.now) l text.now → ⊥ }
{
    let alone = [Form::new("", *syntax)];
    let list = Forms::new(&alone)?;
    match read_literal(&list, text) {
        Some((_, literal)) => Some(literal),
        None => None,
    }
}

// Returns the index of the form of a list that a text is a literal of, and the literal, or `None` if there is none.
#[inline(always)]
fn read_literal<'t>(forms: &Forms, text: &'t [u8]) -> Option<(usize, Literal<'t>)>
    ensures some { IfSome result (λ it. IsFirst forms.now.forms text.now it.0 it.1) }
    ensures none { result ≡ None → NoForm forms.now.forms text.now }
{
    match forms.read(text) {
        Ok(Number::Literal { literal, form }) => Some((form, literal)),
        Ok(Number::Special(_)) => None,
        Err(_) => None,
    }
}
