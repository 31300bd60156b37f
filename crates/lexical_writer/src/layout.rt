//! Numbers are laid out as literals.

ghost use Rattle.std.specs.Prelude.{◌≡◌, false, ◌++◌, ◌&&◌, nat_lt, [], ℕ, IfOk, List, length};
ghost use Rattle.std.specs.Int.Digits.{digits_of};
ghost use Rattle.lexical_util.specs.Record.{effective_exponent_radix, raw};
ghost use Rattle.lexical_util.specs.Rules.{IsRadix, Lawful};
ghost use Rattle.lexical_literal.specs.Literal.{Reads, is_present, text_of};
ghost use Rattle.lexical_literal.specs.Notation.{has, lacks_options, notation_of};
ghost use Rattle.lexical_literal.specs.Syntax.{IsSyntax};
ghost use Rattle.lexical_literal.specs.declared.syntax.Condition.TheVariants as conditions;
ghost use Rattle.lexical_writer.specs.Digits.{at_least, grouped, no_groups, only_if, run_text, size_of, values_of};
ghost use Rattle.lexical_writer.specs.Layout.{HasNumber, IsLaidOut, allows_exponent, base_byte, first_error, fraction_text};
ghost use Rattle.lexical_writer.specs.Layout.{has_exponent, has_point, integer_pattern, integer_text, laid_out};
ghost use Rattle.lexical_writer.specs.Layout.{least_digits, led_digits, literal_of, needs_exponent, number_of_size, one_if, refusal, sign_of};
ghost use Rattle.lexical_writer.specs.Buffer.{IsIn, IsTaken};

use crate::digits::{only_if, put_if_any, without_zeros};
use crate::patterns::{integer_pattern, no_groups};
use crate::run::{Run, Source};
use crate::sink::{Sink, Window};
use lexical_literal::syntax::{Condition, Conditions, Options, Syntax};
use lexical_util::format::{NumberFormat, base_prefix, base_suffix};
use lexical_util::laws::byte_facts;

/// How many digits a group has. Where the format does not allow separators between digits, there are no groups.
#[derive(Debug, Clone, Copy, PartialEq, Eq, Hash)]
pub enum Grouping {
    /// As many as a condition of the syntax says. Without such a condition, there are no groups.
    AsSyntax,
    /// There are no groups.
    None,
    /// As many as this number, or as a condition of the syntax says, if it has one. For 0, there are no groups.
    Of(usize),
}

/// Whether a number is written with an exponent where the syntax leaves a choice.
#[derive(Debug, Clone, Copy, PartialEq, Eq, Hash)]
pub enum ExponentStyle {
    /// If it has one: a literal keeps its exponent, and an integer has none.
    AsNumber,
    /// With none. A literal is written by its value, if it is known.
    Never,
    /// With one. A number without an exponent has the exponent 0.
    Always,
}

/// How numbers are written where a syntax leaves a choice. Each field is a wish: what the syntax forbids is not done, and what
/// it requires is.
///
/// ```
/// use peltzivar::literal::{Language, Style, WriteError};
///
/// let syntax = Language::RUST.forms().as_slice().iter().find(|form| form.name() == "hexadecimal").unwrap().syntax();
/// let style = Style::PLAIN.group(4).min_digits(8).lowercase();
/// assert_eq!(syntax.format_integer(0xC0FFEE, style)?.to_string(), "0x00c0_ffee");
/// # Ok::<(), WriteError>(())
/// ```
#[derive(Debug, Clone, Copy, PartialEq, Eq, Hash)]
pub struct Style {
    /// How many digits a group of the integer has, counted from the right. A group of the fraction has as many as a condition says,
    /// unless there are no groups.
    pub group: Grouping,
    /// Whether the base prefix and the base suffix are written, if the format has them.
    pub base: bool,
    /// Whether digits that are letters are in lowercase.
    pub lowercase: bool,
    /// How many digits the integer has at least. Zeros are added where the format allows leading zeros.
    pub min_digits: u8,
    /// Whether there is an exponent.
    pub exponent: ExponentStyle,
    /// How many digits the fraction of a float has in decimal floats, to which it is rounded. For `None`, as many as its value needs.
    pub decimals: Option<u8>,
}

impl Style {
    /// The style that makes no wish: groups where a condition of the syntax has a size, the base prefix and the base suffix if
    /// the format has them, uppercase digits, no zeros that are not required, and the exponent that the number has.
    pub const PLAIN: Style = Style {
        group: Grouping::AsSyntax,
        base: true,
        lowercase: false,
        min_digits: 0,
        exponent: ExponentStyle::AsNumber,
        decimals: None,
    };
}

/// Why a number cannot be written as a literal of a syntax: no literal has its sign and its value, or the writer has a limit.
#[derive(Debug, Clone, Copy, PartialEq, Eq, Hash)]
pub enum WriteError {
    /// The number is NaN or infinity, which no literal is. No spelling is read back as this value.
    Special,
    /// The literal, or the one that a list of forms reads, is too large for its kind, and so has no value.
    TooLarge,
    /// The number is below 0, or -0, and no literal has the sign `-`.
    Negative,
    /// The number is not whole, and the literals of the syntax are integers.
    Fraction,
    /// A limit: the literal has another radix or another exponent base, or no literal has its exponent, and its value is not
    /// known to be a number with 27 digits in this radix and without an exponent, or an integer with 128 bits.
    Radix,
    /// A limit: the buffer is too short for the text, which has this number of bytes.
    Buffer(usize),
    /// A list of forms reads the text as another number, or not at all.
    ReadBack,
}

/// The exponent of a number.
#[derive(Debug, Clone, Copy, PartialEq, Eq)]
pub struct Power<'a> {
    /// Whether the sign is `-`.
    pub negative: bool,
    /// The digits, in the exponent radix of the syntax.
    pub source: Source<'a>,
}

/// A number that is to be written, by its digits.
#[derive(Debug, Clone, Copy, PartialEq, Eq)]
pub struct Amount<'a> {
    /// Whether the sign is `-`.
    pub negative: bool,
    /// The integer digits, in the mantissa radix of the syntax.
    pub integer: Source<'a>,
    /// The fraction digits, or `None` for a number without a decimal point.
    pub fraction: Option<Source<'a>>,
    /// The exponent, or `None` for a number without one.
    pub exponent: Option<Power<'a>>,
}

/// The parts of a literal that is to be written.
#[derive(Debug, Clone, Copy)]
pub struct Layout<'a> {
    pub(crate) sign: Option<u8>,
    pub(crate) prefix: Option<u8>,
    pub(crate) integer: Run<'a>,
    pub(crate) point: Option<u8>,
    pub(crate) fraction: Run<'a>,
    pub(crate) exponent_character: Option<u8>,
    pub(crate) exponent_sign: Option<u8>,
    pub(crate) exponent: Run<'a>,
    pub(crate) suffix: Option<u8>,
}

impl Layout<'_> {
    /// Writes the text to the beginning of a buffer, and returns its length, or `usize::MAX` if that is less. If the
    /// buffer is shorter than the text, its content is unspecified. Bytes behind the text are not changed.
    pub fn write(&self, buffer: &mut [u8]) -> usize
        ensures { IsTaken (text_of (literal_of self.now)) buffer.old buffer.new result }
    {
        let mut window = Window {
            bytes: buffer,
            length: 0,
        };
        self.fill(&mut window);
        window.length
    }

    // Writes the text to a buffer.
    fn fill(&self, window: &mut Window)
        requires { window.old.length ≡ 0 }
        ensures { IsIn window.old window.new (text_of (literal_of self.now)) }
    {
        self.put(window);
    }

    // Writes the text.
    pub(crate) fn put<S: Sink>(&self, sink: &mut S)
        ensures { (start : S) → (text : List ℕ) → S.has start sink.old text
            → S.has start sink.new (text ++ text_of (literal_of self.now)) }
    {
        put_if_any(sink, self.sign);
        put_if_any(sink, only_if(self.prefix.is_some(), b'0'));
        put_if_any(sink, self.prefix);
        self.integer.put(sink);
        put_if_any(sink, self.point);
        self.fraction.put(sink);
        put_if_any(sink, self.exponent_character);
        put_if_any(sink, self.exponent_sign);
        self.exponent.put(sink);
        put_if_any(sink, self.suffix);
    }
}

// Returns the sign of a number, if it has one.
pub(crate) const fn sign_of(negative: bool, required: bool) -> Option<u8>
    ensures { result ≡ sign_of negative required }
{
    if negative {
        Some(b'-')
    } else {
        only_if(required, b'+')
    }
}

// Returns `byte` if `condition` is true, unless it is absent.
const fn base_byte(condition: bool, byte: u8) -> Option<u8>
    ensures { result ≡ base_byte condition byte }
{
    only_if(condition && byte != 0, byte)
}

// Returns 1 if `condition` is true, and 0 otherwise.
const fn one_if(condition: bool) -> u128
    ensures { result ≡ one_if condition }
{
    condition as u128
}

// Returns the digits of a source without the zeros that they begin with.
#[inline]
fn lean<'a>(source: Source<'a>, radix: u32) -> Source<'a>
    requires { IsRadix radix }
    ensures { values_of radix result ≡ digits_of radix (size_of radix source.entry) }
{
    match source {
        Source::Bytes(bytes) => Source::Bytes(without_zeros(bytes, radix)),
        Source::Number(number) | Source::Least(number, _) => Source::Number(number),
        Source::Padded(padded) => Source::Padded(padded.lean(radix)),
    }
}

impl Amount<'_> {
    // Returns a number without a fraction and an exponent.
    pub(crate) const fn of_size(negative: bool, size: u128) -> Amount<'static>
        ensures { result ≡ number_of_size negative size }
    {
        Amount {
            negative,
            integer: Source::Number(size),
            fraction: None,
            exponent: None,
        }
    }
}

impl<'a> Amount<'a> {
    /// Returns how the number is written as a literal of `syntax`.
    ///
    /// # Errors
    ///
    /// If no literal has this form, returns why.
    #[inline]
    pub fn lay_out(&self, syntax: &Syntax, style: Style) -> Result<Layout<'a>, WriteError>
        ensures parts { IsLaidOut syntax.now style self.now result }
        ensures literal { IfOk result (λ layout. Reads (notation_of syntax.now) (literal_of layout) (text_of (literal_of layout))) }
        ensures number { IfOk result (λ layout. HasNumber syntax.now self.now (literal_of layout)) }
        ensures lawful { IsSyntax syntax.now }
    {
        byte_facts();
        match self.refusal(syntax) {
            Some(refusal) => Err(refusal),
            None => Ok(self.parts(syntax, style)),
        }
    }

    // Returns the parts of the literal, if the number can be written. Programs have one copy of this.
    #[inline(never)]
    pub(crate) fn parts(&self, syntax: &Syntax, style: Style) -> Layout<'a>
        ensures { literal_of result ≡ laid_out syntax.now style self.now }
    {
        let format = syntax.format().view();
        let conditions = syntax.conditions();
        let options = syntax.options().unwrap_or(Options {
            exponent: 0,
            point: 0,
        });
        let power = self.exponent.unwrap_or(Power {
            negative: false,
            source: Source::Number(0),
        });
        let exponent = self.has_exponent(syntax);
        let point = self.has_point(syntax);
        let prefix = base_byte(
            style.base | conditions.has(Condition::BasePrefix),
            base_prefix(format.word()),
        );
        let float = point | exponent;
        Layout {
            sign: sign_of(self.negative, format.required_mantissa_sign()),
            prefix,
            integer: self.integer_run(format, conditions, style, prefix.is_some(), float),
            point: only_if(point, options.point),
            fraction: self.fraction_run(format, style, point),
            exponent_character: only_if(exponent, options.exponent),
            exponent_sign: sign_of(power.negative, exponent & format.required_exponent_sign()),
            exponent: exponent_run(power.source, format, style, exponent),
            suffix: base_byte(
                style.base | conditions.has(Condition::BaseSuffix),
                base_suffix(format.word()),
            ),
        }
    }

    // Returns whether there is an exponent character.
    #[inline]
    pub(crate) fn has_exponent(&self, syntax: &Syntax) -> bool
        ensures { result ≡ has_exponent syntax.now self.now }
    {
        self.exponent.is_some() || needs_exponent(syntax)
    }

    // Returns whether there is a decimal point.
    #[inline]
    pub(crate) fn has_point(&self, syntax: &Syntax) -> bool
        ensures { result ≡ has_point syntax.now self.now }
    {
        self.fraction.is_some()
            || self.has_exponent(syntax) && syntax.format().view().no_exponent_without_fraction()
    }

    // Returns the integer, behind a base prefix or not, of a float or not.
    #[inline(always)]
    fn integer_run(
        &self,
        format: NumberFormat,
        conditions: Conditions,
        style: Style,
        prefix: bool,
        float: bool,
    ) -> Run<'a>
        requires { Lawful format }
        ensures { run_text result ≡ integer_text (raw format) conditions style prefix float self.now }
    {
        let radix = format.mantissa_radix();
        Run {
            source: lean(self.integer, radix),
            radix,
            least: self.least_digits(format, conditions, style, prefix, float),
            pattern: integer_pattern(format, conditions, style),
        }
    }

    // Returns the fraction, which has a digit behind a point.
    #[inline]
    fn fraction_run(&self, format: NumberFormat, style: Style, point: bool) -> Run<'a>
        requires { Lawful format }
        ensures { run_text result ≡ fraction_text (raw format) style point self.now }
    {
        Run {
            source: self.fraction.unwrap_or(Source::Number(0)),
            radix: format.mantissa_radix(),
            least: one_if(point),
            pattern: no_groups(style.lowercase),
        }
    }

    // Returns why the number cannot be written, if it cannot.
    #[inline(always)]
    pub(crate) fn refusal(&self, syntax: &Syntax) -> Option<WriteError>
        ensures refusal { result ≡ refusal syntax.now self.now }
        ensures lawful { IsSyntax syntax.now }
    {
        let integers = is_whole(syntax);
        let no_exponent = integers | syntax.format().view().no_exponent_notation();
        first_error(
            self.negative & forbids_minus(syntax),
            integers & self.fraction.is_some(),
            no_exponent & self.exponent.is_some(),
            WriteError::Radix,
        )
    }

    // Returns how many integer digits there are with the zero that the conditions require before them, or 1 if they require
    // none.
    #[inline]
    fn led_digits(&self, radix: u32, conditions: Conditions, prefix: bool) -> u128
        requires { IsRadix radix }
        ensures { result ≡ led_digits conditions prefix (digits_of radix (size_of radix self.now.integer)) }
    {
        if prefix
            || !(conditions.has(Condition::LeadingZero)
                || conditions.has(Condition::DecimalFirstDigit))
        {
            1
        } else {
            self.count_led(radix, conditions)
        }
    }

    // Returns the same where there is no prefix.
    #[cold]
    fn count_led(&self, radix: u32, conditions: Conditions) -> u128
        requires { IsRadix radix }
        ensures { result ≡ led_digits conditions false (digits_of radix (size_of radix self.now.integer)) }
    {
        let digits = lean(self.integer, radix);
        let needs_zero = conditions.has(Condition::LeadingZero);
        let needs_decimal = conditions.has(Condition::DecimalFirstDigit);
        if needs_zero || (needs_decimal && !digits.begins_decimal(radix)) {
            digits.count(radix) + 1
        } else {
            1
        }
    }

    // Returns how many integer digits are written at least, behind a base prefix or not, of a float or not.
    #[inline]
    fn least_digits(
        &self,
        format: NumberFormat,
        conditions: Conditions,
        style: Style,
        prefix: bool,
        float: bool,
    ) -> u128
        requires { Lawful format }
        ensures { result ≡ least_digits (raw format) conditions style prefix float self.now }
    {
        let radix = format.mantissa_radix();
        let least = self.led_digits(radix, conditions, prefix);
        let forbidden = if float {
            format.no_float_leading_zeros()
        } else {
            format.no_integer_leading_zeros()
        };
        if forbidden {
            return least;
        }
        least.max(style.min_digits as u128)
    }
}

// Returns the digits of the exponent, which are required or not.
#[inline]
fn exponent_run<'a>(
    source: Source<'a>,
    format: NumberFormat,
    style: Style,
    exponent: bool,
) -> Run<'a>
    requires { Lawful format }
    ensures { run_text result ≡ grouped (no_groups style.lowercase)
        (at_least (one_if exponent) (digits_of (effective_exponent_radix (raw format)) (size_of (effective_exponent_radix (raw format)) source.entry))) }
{
    let radix = format.exponent_radix();
    Run {
        source: lean(source, radix),
        radix,
        least: one_if(exponent),
        pattern: no_groups(style.lowercase),
    }
}

// Returns whether no literal has the sign `-`.
#[inline]
pub(crate) fn forbids_minus(syntax: &Syntax) -> bool
    ensures { result ≡ has syntax.now.conditions conditions.NegativeSign }
{
    syntax.conditions().has(Condition::NegativeSign)
}

// Returns whether literals are integers.
#[inline]
pub(crate) fn is_whole(syntax: &Syntax) -> bool
    ensures { result ≡ lacks_options syntax.now.options }
{
    syntax.options().is_none()
}

// Returns whether each literal has an exponent.
#[inline]
pub(crate) fn needs_exponent(syntax: &Syntax) -> bool
    ensures { result ≡ needs_exponent syntax.now }
{
    syntax.format().view().required_exponent_notation() && syntax.options().is_some()
}

// Returns whether a literal can have an exponent.
#[inline]
pub(crate) fn allows_exponent(syntax: &Syntax) -> bool
    ensures { result ≡ allows_exponent syntax.now }
{
    syntax.options().is_some() && !syntax.format().view().no_exponent_notation()
}

// Returns the error of the first that is refused: of a sign, of a fraction, or `error`.
#[inline(always)]
pub(crate) const fn first_error(
    sign: bool,
    fraction: bool,
    last: bool,
    error: WriteError,
) -> Option<WriteError>
    ensures { result ≡ first_error sign fraction last error }
{
    if sign {
        Some(WriteError::Negative)
    } else if fraction {
        Some(WriteError::Fraction)
    } else if last {
        Some(error)
    } else {
        None
    }
}
