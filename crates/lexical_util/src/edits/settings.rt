//! Settings, which are edits written as text: `NAME=VALUE`.

ghost use Rattle.std.specs.Prelude.{◌≡◌, ◌≢◌, ◌≤◌, ◌<◌, length, Option, MatchOption};
ghost use Rattle.std.specs.List.{position_or_len, before_first, after_first};
ghost use Rattle.lexical_util.specs.Additions.Settings.{name_of, byte_of_digits, byte_of_number, byte_of_character, byte_of_value, no_equals, unknown_name};
ghost use Rattle.lexical_util.specs.Additions.Settings.{bad_value, is_equals, trimmed, IsParsed, IsSetting};

use crate::edits::{ALL_SETTERS, ArgumentKind, Edit, Setter};
use crate::numeral::read_numeral;
use std::fmt;

/// The error for a string that is not a setting. A setting has the form `NAME=VALUE`, where `NAME` is the name of a
/// setter and `VALUE` is a value that the setter takes.
///
/// The error message never repeats any part of the string, since the string may come from an untrusted file. If the
/// name is unknown, it suggests the setter with the most similar name.
#[derive(Debug, Clone, Copy, PartialEq, Eq, Hash)]
pub struct EditError(pub(crate) Fault);

// What is wrong with a string that is not a setting. `UnknownName` has the setter that the message suggests, and
// `BadValue` the one that does not take the value.
#[derive(Debug, Clone, Copy, PartialEq, Eq, Hash)]
pub(crate) enum Fault {
    NoEquals,
    UnknownName(Option<Setter>),
    BadValue(Setter),
}

/// What is wrong with a string that is not a setting.
#[derive(Debug, Clone, Copy, PartialEq, Eq, Hash)]
pub enum EditErrorKind {
    /// The string has no `=`.
    NoEquals,
    /// No setter has the name.
    UnknownName,
    /// The setter does not take the value.
    BadValue,
}

impl EditError {
    /// Returns what is wrong.
    #[must_use]
    pub const fn kind(&self) -> EditErrorKind
        ensures no_equals { self.now ≡ no_equals → result ≡ EditErrorKind.NoEquals }
        ensures unknown_name { (nearest : Option Setter) → self.now ≡ unknown_name nearest
            → result ≡ EditErrorKind.UnknownName }
        ensures bad_value { (setter : Setter) → self.now ≡ bad_value setter → result ≡ EditErrorKind.BadValue }
    {
        match self.0 {
            Fault::NoEquals => EditErrorKind::NoEquals,
            Fault::UnknownName(_) => EditErrorKind::UnknownName,
            Fault::BadValue(_) => EditErrorKind::BadValue,
        }
    }

    /// Returns the name of the setter that does not take the value. Returns `None` for any other kind of error.
    #[must_use]
    pub const fn name(&self) -> Option<&'static str>
        ensures { MatchOption result ((setter : Setter) → self.now ≢ bad_value setter)
            (λ name. (setter : Setter) → self.now ≡ bad_value setter → name.now ≡ name_of setter) }
    {
        match self.0 {
            Fault::NoEquals | Fault::UnknownName(_) => None,
            Fault::BadValue(setter) => Some(setter.name()),
        }
    }
}

/// Prints the error message, such as ``no_special takes `true` or `false` `` or `unknown setting name`.
impl fmt::Display for EditError {
    fn fmt<W: fmt::Write>(&self, f: &mut fmt::Formatter<W>) -> fmt::Result {
        match self.0 {
            Fault::NoEquals => f.write_str("expected NAME=VALUE"),
            Fault::UnknownName(None) => f.write_str("unknown setting name"),
            Fault::UnknownName(Some(it)) => write!(
                f,
                "unknown setting name; did you mean `{}`?",
                it.name()
            ),
            Fault::BadValue(setter) => write!(f, "{} takes {}", setter.name(), taken(setter)),
        }
    }
}

// Returns the words that state which values the setter takes.
const fn taken(setter: Setter) -> &'static str {
    match setter.kind() {
        ArgumentKind::Flag => "`true` or `false`",
        ArgumentKind::OptionalCharacter =>
            "a character such as '_', a number from 0 to 255, or `none`",
        ArgumentKind::Number => "a number, 2 to 36 in a lawful format",
        ArgumentKind::OptionalNumber => "a number, 2 to 36 in a lawful format, or `none`",
    }
}

impl Setter {
    /// Parses `value` as the argument of the setter, and returns the edit that calls the setter with it.
    ///
    /// - A flag setter or group setter takes `true` or `false`.
    /// - Every byte setter takes a number from 0 to 255: one to three decimal digits, or `0x` followed by one or two
    ///   hexadecimal digits. All except `mantissa_radix` and `radix` also take `none`, which is the same as 0.
    /// - `digit_separator`, `base_prefix` and `base_suffix` also take a character in single quotes, such as `'_'`, that
    ///   is ASCII and not a control character.
    ///
    /// White space at both ends is skipped, as by [`trim_ascii`][str::trim_ascii].
    ///
    /// # Errors
    ///
    /// Returns an [`EditError`] if the setter does not take the value.
    pub fn parse(self, value: &str) -> Result<Edit, EditError>
        ensures { IsParsed self (trimmed value.now) result }
    {
        self.parse_exact(value.trim_ascii())
    }

    // Parses `value` as [`Setter::parse`] does, but skips nothing.
    fn parse_exact(self, value: &str) -> Result<Edit, EditError>
        ensures { IsParsed self value.now result }
    {
        match self.kind().parse(value) {
            Some(byte) => Ok(self.with_argument(byte)),
            None => Err(EditError(Fault::BadValue(self))),
        }
    }
}

impl ArgumentKind {
    // Parses `value` as an argument of this kind, as a byte. Nothing is skipped.
    pub(crate) fn parse(self, value: &str) -> Option<u8>
        ensures { result ≡ byte_of_value self value.now }
    {
        match (self, value) {
            (ArgumentKind::Flag, "true") => Some(1),
            (ArgumentKind::Flag, "false") => Some(0),
            (ArgumentKind::Flag, _) => None,
            (ArgumentKind::OptionalCharacter | ArgumentKind::OptionalNumber, "none") => Some(0),
            (ArgumentKind::OptionalCharacter, value) => byte_from_character(value),
            (_, value) => byte_from_number(value),
        }
    }
}

// Returns the setter whose name is most like `name`, if they have at least half of their pairs of letters in common. A
// separator of thousands is the digit separator, and the base is the radix. The decimal point and the exponent
// character have no setter.
pub(crate) fn nearest(name: &str) -> Option<Setter> {
    let alike = |setter: &Setter| likeness(name.as_bytes(), setter.name());
    let setters = ALL_SETTERS.into_iter().filter(|it| alike(it) >= 50);
    match name {
        _ if name.starts_with("thousand") => Some(Setter::DigitSeparator),
        _ if name.starts_with("decimal") || name == "exponent" => None,
        "base" => Some(Setter::Radix),
        _ => setters.max_by_key(alike),
    }
}

// Returns how much of two names are pairs of adjacent letters that they have in common, in percent.
pub(crate) fn likeness(name: &[u8], other: &str) -> usize {
    let is_shared = |pair: &&[u8]| name.windows(2).any(|it| it.eq_ignore_ascii_case(pair));
    let shared = other.as_bytes().windows(2).filter(is_shared).count();
    let all = name.len().saturating_add(other.len()).saturating_sub(2);
    shared.saturating_mul(200) / all.max(1)
}

impl Edit {
    /// Parses `value` as the argument of the setter `name`, as [`Setter::parse`] does. White space at both ends of the
    /// name is skipped, too.
    ///
    /// ```
    /// use peltzivar::{Edit, EditErrorKind};
    ///
    /// assert_eq!(Edit::from_setting("mantissa_radix", "16"), Ok(Edit::MantissaRadix(16)));
    /// let error = Edit::from_setting("mantissa_radix", "true").unwrap_err();
    /// assert_eq!((error.kind(), error.name()), (EditErrorKind::BadValue, Some("mantissa_radix")));
    /// ```
    ///
    /// # Errors
    ///
    /// Returns an [`EditError`] if no setter has the name, or if the setter does not take the value.
    pub fn from_setting(name: &str, value: &str) -> Result<Edit, EditError>
        ensures { IsSetting (trimmed name.now) (trimmed value.now) result }
    {
        let name = name.trim_ascii();
        match Setter::from_name(name) {
            Some(setter) => setter.parse(value),
            None => Err(EditError(Fault::UnknownName(nearest(name)))),
        }
    }

    /// Parses `text` as `NAME=VALUE`, split at the first `=`. The name and the value are parsed as in
    /// [`Edit::from_setting`].
    ///
    /// # Errors
    ///
    /// Returns an [`EditError`] if `text` has no `=`, if no setter has the name, or if the setter does not take the
    /// value.
    #[doc(hidden)]
    pub fn from_text(text: &str) -> Result<Edit, EditError>
        ensures setting { position_or_len is_equals text.now < length text.now
            → IsSetting (trimmed (before_first is_equals text.now)) (trimmed (after_first is_equals text.now)) result }
        ensures no_equals { position_or_len is_equals text.now ≡ length text.now → result ≡ Err no_equals }
    {
        match text.split_once('=') {
            Some((name, value)) => Edit::from_setting(name, value),
            None => Err(EditError(Fault::NoEquals)),
        }
    }
}

/// Prints the edit as `NAME=VALUE`, such as `mantissa_radix=16`, `no_special=true` or `digit_separator=none`.
/// In plain Rust, [`FromStr`][core::str::FromStr] parses this text into the same edit.
impl fmt::Display for Edit {
    fn fmt<W: fmt::Write>(&self, f: &mut fmt::Formatter<W>) -> fmt::Result {
        f.write_str(self.name())?;
        match (self.setter().kind(), self.argument_byte()) {
            (ArgumentKind::Flag, byte) => f.write_str(if byte != 0 { "=true" } else { "=false" }),
            (ArgumentKind::Number, byte) | (_, byte @ 1..) => write!(f, "={byte}"),
            (_, 0) => f.write_str("=none"),
        }
    }
}

// Parses a byte: a character in single quotes, or a number.
fn byte_from_character(text: &str) -> Option<u8>
    ensures { result ≡ byte_of_character text.now }
{
    match text.as_bytes() {
        [b'\'', byte @ b' '..=b'~', b'\''] => Some(*byte),
        _ => byte_from_number(text),
    }
}

// Parses a number: `0x` followed by hexadecimal digits, or decimal digits.
fn byte_from_number(text: &str) -> Option<u8>
    ensures { result ≡ byte_of_number text.now }
{
    match text.as_bytes() {
        [b'0', b'x', digits @ ..] => byte_from_digits(digits, 16, 2),
        digits => byte_from_digits(digits, 10, 3),
    }
}

/// Parses one to three decimal digits as a number of at most 255. Returns `None` for any other string.
#[must_use]
#[doc(hidden)]
pub fn byte_from_decimal(text: &str) -> Option<u8>
    ensures { result ≡ byte_of_digits 10 3 text.now }
{
    byte_from_digits(text.as_bytes(), 10, 3)
}

// Parses one to `most` digits in `radix` as a number of at most 255.
fn byte_from_digits(digits: &[u8], radix: u32, most: usize) -> Option<u8>
    requires radix { radix ≤ 16 }
    requires most { most ≤ 32 }
    ensures { result ≡ byte_of_digits radix most digits.now }
{
    u8::try_from(read_numeral(digits, radix, most)?).ok()
}
