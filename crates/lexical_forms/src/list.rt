//! Numbers that have several forms, such as `10`, `0x1F` and `0b1`.

ghost use Rattle.std.specs.Prelude.{ℕ, ◌≡◌, ◌<◌, ◌+◌, IfSome, IsSomeAnd, IsTrue, None, Some, SomeIff, false, if◌then◌else◌, length};
ghost use Rattle.std.specs.Prelude.{slice_get};
ghost use Rattle.std.specs.List.{AllByRecursion};
ghost use Rattle.lexical_forms.specs.Additions.Forms.{ArePassed, IsFoundForm, IsFoundFrontForm, IsLed, IsLongestPast, IsPast, IsRefusedAt, Leads, LetsEnd};
ghost use Rattle.lexical_forms.specs.Additions.Token.{IsNarrow};
ghost use Rattle.lexical_forms.specs.Forms.{IsFormError, IsFrontByForms, IsReadByForms, NoForm, Reaches, special_by};
ghost use Rattle.lexical_forms.specs.declared.list.PointsBack.TheVariants as points;

use crate::exclude::{has_letter_behind_zero, lets_end, sign_size};
use crate::form::Form;
use crate::opening::Opening;
use crate::specials::{Special, Specials};
use crate::suffix::is_wide;
use crate::token::Token;
use lexical_literal::cause::ReadError;
use lexical_literal::literal::Literal;
use lexical_literal::stop::{Found, Stopped};
use std::marker::Model;

// What a point at the end of a number is given back to: nothing, another point or a word, or a letter.
#[derive(Clone, Copy)]
pub(crate) enum PointsBack {
    Never,
    ToWords,
    ToLetters,
}

/// How numbers end in the middle of source text: forms that need a suffix, which no call but [`Forms::token`] takes, words that may
/// follow a number directly, and whether a point at the end of a number may belong to what follows.
#[derive(Clone, Copy)]
pub struct Tokens {
    pub(crate) forms: &'static [Form],
    pub(crate) following: &'static [&'static [u8]],
    pub(crate) gives_points_back: PointsBack,
    pub(crate) any_word_follows: bool,
}

impl Tokens {
    /// Returns the rules with `forms` that need a suffix, such as `08f` in Java, and with words that may follow a number
    /// directly, such as `else` in `1else` in Python.
    #[must_use]
    pub const fn new(forms: &'static [Form], following: &'static [&'static [u8]]) -> Tokens
        ensures forms { result.forms ≡ forms.entry }
        ensures following { result.following ≡ following.entry }
        ensures points { result.gives_points_back ≡ points.Never }
        ensures words { result.any_word_follows ≡ false }
    {
        Tokens {
            forms,
            following,
            gives_points_back: PointsBack::Never,
            any_word_follows: false,
        }
    }

    /// Sets whether a point at the end of a number belongs to what follows if that is another point or a word, as in `1..2` and
    /// `1.max(2)`.
    #[must_use]
    pub const fn gives_points_back(self, gives: bool) -> Tokens
        ensures { result ≡ record self { gives_points_back = (if gives then points.ToWords else points.Never) } }
    {
        let gives_points_back = if gives {
            PointsBack::ToWords
        } else {
            PointsBack::Never
        };
        Tokens {
            gives_points_back,
            ..self
        }
    }

    /// Sets that a point at the end of a number belongs to what follows if that is a letter, as in `1.eq.2` of Fortran, but not if
    /// it is another point or `_`, as in `1..eq.2` and `1._8`.
    #[must_use]
    pub const fn gives_points_to_letters(self) -> Tokens
        ensures { result ≡ record self { gives_points_back = points.ToLetters } }
    {
        Tokens {
            gives_points_back: PointsBack::ToLetters,
            ..self
        }
    }

    /// Sets whether any word that does not begin with a digit may follow a number directly that does not end in its decimal point, as in `2x`, a
    /// product in Julia.
    #[must_use]
    pub const fn any_word_follows(self, follows: bool) -> Tokens
        ensures { result ≡ record self { any_word_follows = follows } }
    {
        Tokens {
            any_word_follows: follows,
            ..self
        }
    }

    /// Returns the forms that need a suffix.
    #[must_use]
    pub const fn forms(&self) -> &'static [Form]
        ensures { result ≡ self.now.forms }
    {
        self.forms
    }

    /// Returns the words that may follow a number directly.
    #[must_use]
    pub const fn following(&self) -> &'static [&'static [u8]]
        ensures { result ≡ self.now.following }
    {
        self.following
    }
}

/// The forms of numbers, at least one, the spellings of NaN and infinity, and how tokens are read. The first form of which a text
/// is a literal decides what number it is.
#[derive(Drop)]
pub struct Forms<'a> {
    pub(crate) forms: &'a [Form],
    specials: Specials<'a>,
    pub(crate) tokens: Option<&'a Tokens>,
    // Whether words behind a form may have other bytes than those of any word.
    pub(crate) wide: bool,
    // Whether no form, of the list or of the tokens, goes on with a byte that ends a number.
    pub(crate) ends: bool,
}

impl<'a> Model for Forms<'a> {
    ghost use Rattle.std.specs.Prelude.{◌≡◌, ◌<◌, IsTrue, false, length};
    ghost use Rattle.lexical_forms.specs.Additions.Forms.{LetEnd};
    ghost use Rattle.lexical_forms.specs.Additions.Token.{IsNarrow};
    ghost use Rattle.lexical_forms.specs.FormList.{FormList};

    ghost Value = { FormList };

    ghost view = { λ it. record { forms = it.forms.now; specials = it.specials; tokens = it.tokens } };

    ghost invariant = { λ it. (0 < length it.forms.now) × (it.wide ≡ false → IsNarrow it.forms.now)
        × (IsTrue it.ends → LetEnd it.forms.now it.tokens) };
}

/// A number that has one of several forms.
///
/// ```
/// use peltzivar::literal::{Language, Number};
///
/// let described = |text| match Language::TOML.read(text) {
///     Ok(Number::Literal { literal, .. }) => format!("{literal} in radix {}", literal.radix(peltzivar::Part::Integer)),
///     Ok(Number::Special(special)) => format!("{special}, which is special"),
///     Err(error) => error.to_string(),
/// };
/// assert_eq!(described("0xFF"), "0xFF in radix 16");
/// assert_eq!(described("-inf"), "-inf, which is special");
/// ```
#[derive(Drop)]
pub enum Number<'a> {
    /// A literal.
    Literal {
        /// The literal.
        literal: Literal<'a>,
        /// The index of its form.
        form: usize,
    },
    /// NaN or infinity.
    Special(Special),
}

// The form whose error is that of a text, of those that have been asked, where it stops, and how far it goes: up to there, or behind the byte
// there if this is its base prefix in the other case.
#[derive(Clone, Copy)]
pub(crate) struct Furthest {
    pub(crate) form: usize,
    pub(crate) stop: Stopped,
    pub(crate) reach: usize,
}

/// Why a text is not a number of any form: the error of the first form that goes furthest in the text. A base prefix in its
/// other case counts as one byte more.
///
/// ```
/// use peltzivar::literal::Language;
///
/// let (language, text) = (Language::C, "0x1G");
/// let error = language.read(text).unwrap_err();
/// assert_eq!((language.forms()[error.form].name(), &text[error.span()]), ("hexadecimal", "G"));
/// assert_eq!(error.to_string(), "unexpected character 'G'");
/// ```
#[derive(Debug, Clone, Copy, PartialEq, Eq, Hash)]
pub struct FormError {
    /// The index of the form.
    pub form: usize,
    /// The name of the form.
    pub name: &'static str,
    // The number of bytes of the opening, or of those that are right where it is not there.
    pub(crate) opened: usize,
    // Why what is behind the opening is not a literal of the syntax, or that the opening is not there.
    pub(crate) error: Result<ReadError, Unopened>,
}

// An opening that is not there, the byte that differs, or `None` if the text ends, and what follows it in its character.
#[derive(Debug, Clone, Copy, PartialEq, Eq, Hash)]
pub struct Unopened {
    pub(crate) opening: Opening,
    pub(crate) byte: Option<u8>,
    pub(crate) tail: [u8; 3],
}

impl<'a> Forms<'a> {
    /// Returns the list of `forms` without special values, or `None` if there are no forms.
    #[must_use]
    pub const fn new(forms: &'a [Form]) -> Option<Forms<'a>>
        ensures { SomeIff result (0 < length forms.now) (record {
          forms = forms.now;
          specials = record { nan = None; inf = None; infinity = None };
          tokens = None;
        }) }
    {
        if forms.len() == 0 {
            return None;
        }
        let specials = Specials {
            nan: None,
            inf: None,
            infinity: None,
        };
        Some(Forms {
            forms,
            specials,
            tokens: None,
            wide: are_wide(forms),
            ends: let_end(forms),
        })
    }

    /// Returns the same forms with these special values. The format of the first form decides what flags say of them.
    ///
    /// ```
    /// use peltzivar::literal::{Form, Forms, Specials, Syntax};
    /// use peltzivar::Format;
    ///
    /// let forms = [Form::new("", Syntax::new_or_panic(Format::default(), b'e', b'.'))];
    /// let list = Forms::new_or_panic(&forms).with_specials(Specials { nan: Some(b"NA"), ..Specials::default() });
    /// assert!(list.parse::<f64>("NA").unwrap().is_nan());
    /// ```
    #[must_use]
    pub const fn with_specials(self, specials: Specials<'a>) -> Forms<'a>
        ensures { result ≡ record self.entry { specials = specials.entry } }
    {
        Forms { specials, ..self }
    }

    /// Returns the same forms with rules for tokens, without which there are none.
    #[must_use]
    pub const fn with_tokens(self, tokens: &'a Tokens) -> Forms<'a>
        ensures { result ≡ record self.entry { tokens = Some tokens.entry } }
    {
        let ends = self.ends && let_end(tokens.forms);
        Forms {
            tokens: Some(tokens),
            ends,
            ..self
        }
    }

    /// Returns the forms.
    #[must_use]
    pub const fn as_slice(&self) -> &'a [Form]
        ensures list { result.now ≡ self.now.forms }
        ensures some { 0 < length self.now.forms }
    {
        self.forms
    }

    /// Returns the spellings of special values.
    #[must_use]
    pub const fn specials(&self) -> Specials<'a>
        ensures { result ≡ self.now.specials }
    {
        self.specials
    }

    /// Returns the rules for tokens, if there are any.
    #[must_use]
    pub const fn tokens(&self) -> Option<&'a Tokens>
        ensures { result ≡ self.now.tokens }
    {
        self.tokens
    }

    /// Returns the number that `text` is: a literal of the first form of which it is one, or otherwise a special value.
    ///
    /// # Errors
    ///
    /// If `text` is neither, returns the error of the first form for which most of it is right, where a base prefix in its other
    /// case counts as one byte more. So `0b12` has the error of the binary form.
    pub fn read<'t>(&self, text: &'t [u8]) -> Result<Number<'t>, FormError>
        ensures { IsReadByForms self.now text.now result }
    {
        self.read_behind(text, None)
    }

    // Returns what `read` returns, where the first form stops at `stop`, if it has been asked.
    #[inline(never)]
    pub(crate) fn read_behind<'t>(
        &self,
        text: &'t [u8],
        stop: Option<Stopped>,
    ) -> Result<Number<'t>, FormError>
        requires { IfSome stop (λ stop. IsSomeAnd (slice_get self.now.forms 0) (IsRefusedAt text.now stop)) }
        ensures { IsReadByForms self.now text.now result }
    {
        match self.find_literal(text, stop) {
            Ok((form, literal)) => Ok(Number::Literal { literal, form }),
            Err(furthest) => match self.special(text) {
                Some(special) => Ok(Number::Special(special)),
                None => Err(self.error_at(text, furthest)),
            },
        }
    }

    /// Returns the longest literal of any form that `text` begins with, of the first form if several have it, and the rest
    /// of `text`, which may be anything. It does not find special values.
    ///
    /// # Errors
    ///
    /// If `text` does not begin with a literal, returns why it is not one.
    pub fn read_prefix<'t>(&self, text: &'t [u8]) -> Result<(Number<'t>, &'t [u8]), FormError>
        ensures { IsFrontByForms self.now text.now result }
    {
        if !self.may_end(text) {
            return self.read_front(text);
        }
        let begun = self.first(text);
        match self.ended(text, begun) {
            None => self.read_front(text),
            Some(candidate) => {
                let it = &self.forms[0];
                let Token { literal, rest, .. } = it.made(text, 0, candidate);
                Ok((Number::Literal { literal, form: 0 }, rest))
            }
        }
    }

    // Returns the same by all forms.
    #[inline(never)]
    fn read_front<'t>(&self, text: &'t [u8]) -> Result<(Number<'t>, &'t [u8]), FormError>
        ensures { IsFrontByForms self.now text.now result }
    {
        match self.find_front(text) {
            Ok((form, found)) => {
                let Found { size, counts } = found;
                let it = &self.as_slice()[form];
                let (front, rest) = text.split_at(size);
                let (_, inside) = front.split_at(it.opening.size());
                let literal = it.syntax.summed(inside, counts);
                let literal = literal.with_kind(it.kind).behind(it.opening.size);
                Ok((Number::Literal { literal, form }, rest))
            }
            Err(error) => Err(error),
        }
    }

    // Returns the special value that `text` is, if it is one.
    pub(crate) fn special(&self, text: &[u8]) -> Option<Special>
        ensures { result ≡ special_by self.now text.now }
    {
        self.specials.read(&self.forms[0].syntax, text)
    }

    // Returns the index of the first form of which `text` is a literal, and the literal, or the form whose error is that of the list, where
    // the first form stops at `stop`, if it has been asked. Each form is asked once, but if one that is passed over may go further, all are
    // asked again.
    #[inline(always)]
    pub(crate) fn find_literal<'t>(
        &self,
        text: &'t [u8],
        stop: Option<Stopped>,
    ) -> Result<(usize, Literal<'t>), Furthest>
        requires { IfSome stop (λ stop. IsSomeAnd (slice_get self.now.forms 0) (IsRefusedAt text.now stop)) }
        ensures { IsFoundForm self.now.forms text.now result }
    {
        let mut furthest = None;
        let mut bound = 0;
        let mut form = 0;
        if let Some(stop) = stop {
            furthest = Some(self.reached(text, 0, stop));
            form = 1;
        }
        while form < self.forms.len() {
            let it = &self.forms[form];
            let reach = match furthest {
                None => 0,
                Some(best) => best.reach,
            };
            match it.begins(text, reach) {
                Err(size) => bound = if bound < size { size } else { bound },
                Ok(inside) => match it.read(text, inside) {
                    Ok(literal) => return Ok((form, literal)),
                    Err(stop) => furthest = Some(self.further(text, furthest, form, stop)),
                },
            }
            form += 1;
        }
        match furthest {
            Some(best) if is_past(best, bound) => Err(best),
            None if bound == 0 => Err(self.at_once(text)),
            _ => Err(self.furthest(text)),
        }
    }

    // Returns the first form, where none goes beyond the beginning of `text`, which is no literal.
    #[inline(always)]
    fn at_once(&self, text: &[u8]) -> Furthest
        requires none { NoForm self.now.forms text.now }
        requires passed { ArePassed self.now.forms text.now (length self.now.forms) 1 }
        ensures { Leads self.now.forms text.now (length self.now.forms) 0 result }
    {
        match self.forms[0].beginning(text) {
            None => self.furthest(text),
            Some(stop) => Furthest {
                form: 0,
                stop,
                reach: 0,
            },
        }
    }

    // Returns the form whose error is that of the list, where `text` is no literal.
    #[cold]
    #[inline(never)]
    fn furthest(&self, text: &[u8]) -> Furthest
        requires { NoForm self.now.forms text.now }
        ensures { Leads self.now.forms text.now (length self.now.forms) 0 result }
    {
        let first = self.forms[0].stop(text);
        let mut furthest = self.reached(text, 0, first);
        let mut form = 1;
        while form < self.forms.len() {
            let it = &self.forms[form];
            if !it.is_behind(text, furthest.reach) {
                let stop = it.stop(text);
                furthest = self.further(text, Some(furthest), form, stop);
            }
            form += 1;
        }
        furthest
    }

    // Returns which of two forms has the error of the list: the one that goes further, the first of equals.
    #[inline(always)]
    fn further(
        &self,
        text: &[u8],
        furthest: Option<Furthest>,
        form: usize,
        stop: Stopped,
    ) -> Furthest
        requires { IsSomeAnd (slice_get self.now.forms form) (IsRefusedAt text.now stop) }
        ensures { (limit : ℕ) → IsLed self.now.forms text.now form limit furthest → Leads self.now.forms text.now (form + 1) limit result }
    {
        let Some(best) = furthest else {
            return self.reached(text, form, stop);
        };
        if stop.size < best.reach {
            return best;
        }
        let other = self.reached(text, form, stop);
        if best.reach < other.reach {
            other
        } else {
            best
        }
    }

    // Returns how far the form with the index `form` goes, which stops at `stop`.
    #[inline(always)]
    #[tactic(auto, using(crate::proofs::FormLemmas::at_index, crate::proofs::FormLemmas::form_at, crate::proofs::FormLemmas::inside_of))]
    fn reached(&self, text: &[u8], form: usize, stop: Stopped) -> Furthest
        requires { IsSomeAnd (slice_get self.now.forms form) (IsRefusedAt text.now stop) }
        ensures form { result.form ≡ form }
        ensures here { IsSomeAnd (slice_get self.now.forms form) (IsRefusedAt text.now result.stop) }
        ensures reach { IsSomeAnd (slice_get self.now.forms form) (λ g. Reaches text.now g result.reach) }
    {
        self.as_slice()[form].reached(text, form, stop)
    }

    // Returns the longest front of `text` that is a literal of a form, with the index of the form, the first of equals, or
    // why there is none. Forms that end behind the zero, as a decimal one does in `0x1F`, are asked if no other goes on.
    #[inline(always)]
    #[tactic(auto, using(crate::proofs::FormLemmas::front_is, crate::proofs::FormLemmas::no_front, crate::proofs::BehindLemmas::none_whole))]
    fn find_front(&self, text: &[u8]) -> Result<(usize, Found), FormError>
        ensures { IsFoundFrontForm self.now.forms text.now result }
    {
        if has_letter_behind_zero(text) {
            if let Some((form, found)) = self.longest_past(text, sign_size(text) + 1) {
                return Ok((form, found));
            }
        }
        match self.longest_past(text, 0) {
            Some((form, found)) => Ok((form, found)),
            None => Err(self.error_at(text, self.furthest(text))),
        }
    }

    // Returns the longest front of `text` with more than `size` bytes that is a literal of a form, with the index of the form, the first
    // of equals, if there is one.
    #[inline(never)]
    fn longest_past(&self, text: &[u8], size: usize) -> Option<(usize, Found)>
        ensures { IsLongestPast self.now.forms text.now size result }
    {
        let mut reached = size;
        let mut longest = None;
        let mut form = 0;
        while form < self.forms.len() {
            let it = &self.forms[form];
            if let Some(found) = it.front_past(text, reached) {
                reached = found.size;
                longest = Some((form, found));
            }
            form += 1;
        }
        longest
    }

    // Returns why `text` is not a literal of the form that goes furthest.
    #[inline(always)]
    pub(crate) fn error_at(&self, text: &[u8], furthest: Furthest) -> FormError
        requires { Leads self.now.forms text.now (length self.now.forms) 0 furthest }
        ensures { IsFormError self.now.forms text.now result }
    {
        let Furthest { form, stop, .. } = furthest;
        self.as_slice()[form].form_error(text, form, stop)
    }
}

// Returns whether words behind one of the forms may have other bytes than those of any word.
const fn are_wide(forms: &[Form]) -> bool
    ensures { result ≡ false → IsNarrow forms.now }
{
    match forms {
        [] => false,
        [form, rest @ ..] => is_wide(form.suffixes) || are_wide(rest),
    }
}

// Returns whether none of the forms goes on with a byte that ends a number.
const fn let_end(forms: &[Form]) -> bool
    ensures { IsTrue result → AllByRecursion LetsEnd forms.now }
{
    match forms {
        [] => true,
        [form, rest @ ..] => lets_end(form) && let_end(rest),
    }
}

// Returns whether no form that goes up to `bound` at most can go further than the best, or be before it and go as far.
#[inline(always)]
const fn is_past(best: Furthest, bound: usize) -> bool
    ensures { IsTrue result → IsPast best bound }
{
    bound < best.reach || (best.form == 0 && bound == best.reach)
}
