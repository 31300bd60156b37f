//! Special values: the texts that are NaN or infinity.

ghost use Rattle.std.specs.Prelude.{ℕ, ◌≡◌, ◌==◌, IsTrue, List, None};
ghost use Rattle.lexical_literal.specs.Notation.{Notation, notation_of};
ghost use Rattle.lexical_forms.specs.Specials.{allows, means_nan, is_negative, is_read_back, is_spelled, is_value, letter_of, matches, signed, special_behind};
ghost use Rattle.lexical_forms.specs.Specials.{special_of, spelling_of, text_of_special, written_sign};
ghost use Rattle.lexical_forms.specs.Additions.Forms.{special_separator};
ghost use Rattle.lexical_util.specs.Layout as layout;
ghost use Rattle.lexical_util.specs.Record.{raw};

use lexical_literal::step;
use lexical_literal::syntax::{Condition, Grammar, Syntax};
use lexical_util::format_flags::{
    CASE_SENSITIVE_SPECIAL, NO_POSITIVE_MANTISSA_SIGN, NO_SPECIAL, REQUIRED_MANTISSA_SIGN,
    SPECIAL_DIGIT_SEPARATOR,
};

/// The spellings of special values. A spelling that is absent or empty matches no text.
///
/// ```
/// use peltzivar::literal::{Sign, Specials, Spelling, Syntax};
///
/// const SPECIALS: Specials = Specials { nan: Some(b"NaN"), inf: Some(b"inf"), infinity: None };
/// let special = SPECIALS.read(&Syntax::integers(peltzivar::Format::default()), "-INF").unwrap();
/// assert_eq!((special.sign, special.spelling), (Some(Sign::Minus), Spelling::Inf));
/// assert_eq!(special.to_f64(), f64::NEG_INFINITY);
/// ```
#[derive(Debug, Clone, Copy, PartialEq, Eq, Hash, Default)]
pub struct Specials<'a> {
    /// The spelling of NaN, such as `NaN`.
    pub nan: Option<&'a [u8]>,
    /// The short spelling of infinity, such as `inf`.
    pub inf: Option<&'a [u8]>,
    /// The long spelling of infinity, such as `infinity`.
    pub infinity: Option<&'a [u8]>,
}

/// A spelling of [`Specials`].
#[derive(Debug, Clone, Copy, PartialEq, Eq, Hash)]
pub enum Spelling {
    /// The spelling of NaN.
    Nan,
    /// The short spelling of infinity.
    Inf,
    /// The long spelling of infinity.
    Infinity,
}

/// The sign of a special value.
#[derive(Debug, Clone, Copy, PartialEq, Eq, Hash)]
pub enum Sign {
    /// The sign `+`.
    Plus,
    /// The sign `-`.
    Minus,
}

/// A special value: its sign, if it has one, and its spelling.
#[derive(Debug, Clone, Copy, PartialEq, Eq, Hash)]
pub struct Special {
    /// The sign, or `None` if the text has none.
    pub sign: Option<Sign>,
    /// The spelling that the text has.
    pub spelling: Spelling,
}

/// The text of a special value.
#[derive(Debug, Clone, Copy, PartialEq, Eq)]
pub struct SpecialText<'a> {
    /// The sign, if the text has one.
    pub sign: Option<Sign>,
    /// The spelling behind the sign.
    pub word: &'a [u8],
}

impl<'a> Specials<'a> {
    /// Returns the special value that `text` is, or `None` if `text` is not a special value. If several spellings
    /// match, the first in the order NaN, inf, infinity is returned.
    ///
    /// A special value is an optional sign, and then one of the spellings. A first byte `+` or `-` is always this sign, so
    /// the spelling `+oo` matches `++oo`, and not `+oo`. The flags of the format decide the rest:
    ///
    /// - With `no_special`, no text is a special value.
    /// - With `no_positive_mantissa_sign`, the sign is not `+`. With `required_mantissa_sign`, there is a sign. With the
    ///   condition `no_negative_mantissa_sign`, the sign is not `-`. Other conditions do not matter.
    /// - The case of ASCII letters does not matter, unless `case_sensitive_special` is set.
    /// - With `special_digit_separator`, digit separators may be anywhere behind the sign: a text matches if what is
    ///   left of it, when some separators are left out, is the spelling. So a separator can also be a letter of the
    ///   spelling. If it is `i`, then `inf` and `iINF` match the spelling `inf`, and `nf` does not.
    ///
    /// A text can be both a literal and a special value, such as `inf` in radix 36.
    #[must_use]
    pub const fn read(&self, syntax: &Syntax, text: &[u8]) -> Option<Special>
        ensures { result ≡ special_of (notation_of syntax.now) self.now text.now }
    {
        let (sign, rest) = split_sign(text);
        self.behind(syntax.grammar(), sign, rest)
    }

    /// Returns the text of a special value, or `None` if no spelling is read back as this value in `syntax`.
    ///
    /// NaN and infinity are written as the first of their spellings that [`read`][Self::read] reads back, in the order inf,
    /// infinity. The sign `-` is written, and `+` where a sign is required. So another spelling of infinity than that of
    /// `special` may be written, and no sign for `+`.
    #[must_use]
    pub const fn spell(&self, syntax: &Syntax, special: Special) -> Option<SpecialText<'a>>
        ensures { result ≡ text_of_special (notation_of syntax.now) self.now special }
    {
        let sign = written_sign(syntax, special);
        let (first, second) = match special.spelling {
            Spelling::Nan => (self.nan, None),
            Spelling::Inf | Spelling::Infinity => (self.inf, self.infinity),
        };
        if let Some(word) = first {
            if self.is_read_back(syntax, special, word) {
                return Some(SpecialText { sign, word });
            }
        }
        if let Some(word) = second {
            if self.is_read_back(syntax, special, word) {
                return Some(SpecialText { sign, word });
            }
        }
        None
    }

    // Returns whether a spelling, with the sign of a special value, is read as this value.
    const fn is_read_back(&self, syntax: &Syntax, special: Special, word: &'a [u8]) -> bool
        ensures { result ≡ is_read_back (notation_of syntax.now) self.now special word.entry }
    {
        let sign = written_sign(syntax, special);
        is_value(special, self.read_signed(syntax, sign, word))
    }

    // Returns the special value that a word is behind a sign.
    const fn read_signed(&self, syntax: &Syntax, sign: Option<Sign>, word: &[u8]) -> Option<Special>
        ensures { result ≡ special_of (notation_of syntax.now) self.now (signed sign word.now) }
    {
        match sign {
            None => self.read(syntax, word),
            Some(_) => self.behind(syntax.grammar(), sign, word),
        }
    }

    // Returns the special value that a word is behind a sign, if there is one.
    const fn behind(&self, grammar: Grammar, sign: Option<Sign>, word: &[u8]) -> Option<Special>
        ensures { result ≡ special_behind (notation_of grammar) self.now sign word.now }
    {
        if !allows(grammar, sign) {
            return None;
        }
        match self.spelling(grammar, word) {
            Some(spelling) => Some(Special { sign, spelling }),
            None => None,
        }
    }

    // Returns the first spelling that `text` matches.
    const fn spelling(&self, grammar: Grammar, text: &[u8]) -> Option<Spelling>
        ensures { result ≡ spelling_of (notation_of grammar) self.now text.now }
    {
        if matches(grammar, self.nan, text) {
            Some(Spelling::Nan)
        } else if matches(grammar, self.inf, text) {
            Some(Spelling::Inf)
        } else if matches(grammar, self.infinity, text) {
            Some(Spelling::Infinity)
        } else {
            None
        }
    }
}

// Returns the sign with which a special value is written.
const fn written_sign(syntax: &Syntax, special: Special) -> Option<Sign>
    ensures { result ≡ written_sign (notation_of syntax.now) special }
{
    if is_negative(special.sign) {
        Some(Sign::Minus)
    } else if syntax.grammar().has(REQUIRED_MANTISSA_SIGN) {
        Some(Sign::Plus)
    } else {
        None
    }
}

// Returns whether a sign is `-`.
const fn is_negative(sign: Option<Sign>) -> bool
    ensures { result ≡ is_negative sign }
{
    matches!(sign, Some(Sign::Minus))
}

// Returns whether a spelling is that of NaN.
const fn means_nan(spelling: Spelling) -> bool
    ensures { result ≡ means_nan spelling }
{
    matches!(spelling, Spelling::Nan)
}

// Returns whether `back` is the value of `special`.
const fn is_value(special: Special, back: Option<Special>) -> bool
    ensures { result ≡ is_value special back }
{
    match back {
        None => false,
        Some(back) => {
            means_nan(special.spelling) == means_nan(back.spelling)
                && is_negative(special.sign) == is_negative(back.sign)
        }
    }
}

// Returns the sign with which `text` begins, and what follows it.
const fn split_sign(text: &[u8]) -> (Option<Sign>, &[u8])
    ensures { (m : Notation) (specials : Specials) → special_of m specials text.now ≡ special_behind m specials result.0 result.1.now }
{
    match text {
        [b'+', rest @ ..] => (Some(Sign::Plus), rest),
        [b'-', rest @ ..] => (Some(Sign::Minus), rest),
        _ => (None, text),
    }
}

// Returns whether the format and the conditions allow special values with this sign.
const fn allows(grammar: Grammar, sign: Option<Sign>) -> bool
    ensures { result ≡ allows (notation_of grammar) sign }
{
    !grammar.has(NO_SPECIAL)
        && match sign {
            None => !grammar.has(REQUIRED_MANTISSA_SIGN),
            Some(Sign::Plus) => !grammar.has(NO_POSITIVE_MANTISSA_SIGN),
            Some(Sign::Minus) => !grammar.conditions().has(Condition::NegativeSign),
        }
}

// Returns whether there is a spelling `word` that is not empty, and `text` is spelled as it.
const fn matches(grammar: Grammar, word: Option<&[u8]>, text: &[u8]) -> bool
    ensures { result ≡ matches (notation_of grammar) word.entry text.now }
{
    match word {
        Some(word) => !matches!(word, []) && is_spelled(grammar, word, text),
        None => false,
    }
}

// Returns whether `text` is spelled as `word`.
//
// A separator that can be the next letter of `word` is taken for it at first. If a later byte does not fit then, but is
// this letter in its other case, it takes the place of the separator, which is left out.
#[tactic(auto, using(crate::proofs::SpecialLemmas::none_taken, crate::proofs::SpecialLemmas::fails))]
const fn is_spelled(grammar: Grammar, word: &[u8], text: &[u8]) -> bool
    ensures { result ≡ is_spelled (notation_of grammar) word.now text.now }
{
    let separator = separator_of(grammar);
    let mut letters = 0;
    // The number of separators that were taken for a letter, with no other letter behind them.
    let mut taken = 0_usize;
    let mut index = 0;
    while index < text.len() {
        let byte = text[index];
        if letters < word.len() && is_letter(grammar, word[letters], byte) {
            letters += 1;
            if is_separator(grammar, byte) {
                taken += 1;
            } else if !is_letter(grammar, separator, byte) {
                taken = 0;
            }
        } else if !is_separator(grammar, byte) {
            if taken == 0 || !is_letter(grammar, separator, byte) {
                return false;
            }
            taken -= 1;
        }
        index += 1;
    }
    letters == word.len()
}

// Returns the digit separator, or 0 if there is none.
#[inline(always)]
const fn separator_of(grammar: Grammar) -> u8
    ensures { result ≡ (raw grammar.word).byte layout.digit_separator }
{
    grammar.separator
}

// Returns whether `byte` is a digit separator that a special value may have.
const fn is_separator(grammar: Grammar, byte: u8) -> bool
    ensures { result ≡ special_separator (notation_of grammar) byte }
{
    grammar.has(SPECIAL_DIGIT_SEPARATOR) && step::is_separator(grammar, byte)
}

// Returns whether `byte` is `letter`, letter case aside unless special values are case-sensitive.
const fn is_letter(grammar: Grammar, letter: u8, byte: u8) -> bool
    ensures { result ≡ (letter_of (notation_of grammar) letter == letter_of (notation_of grammar) byte) }
{
    if grammar.has(CASE_SENSITIVE_SPECIAL) {
        letter == byte
    } else {
        letter.eq_ignore_ascii_case(&byte)
    }
}
