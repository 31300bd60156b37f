//! A form of numbers.

ghost use Rattle.std.specs.Prelude.{◌≡◌, ◌==◌, None, Some, false, not};
ghost use Rattle.lexical_literal.specs.Read.{exact};

use crate::opening::Opening;
use crate::suffix::Suffixes;
use lexical_literal::kind::Kind;
use lexical_literal::syntax::Syntax;

/// A form of numbers: its name, such as `hexadecimal`, its opening and syntax, the suffixes of its tokens, and its kind.
#[derive(Clone, Copy)]
pub struct Form {
    pub(crate) name: &'static str,
    pub(crate) opening: Opening,
    pub(crate) syntax: Syntax,
    pub(crate) suffixes: Option<&'static Suffixes>,
    pub(crate) kind: Kind,
    pub(crate) only_read: bool,
}

impl Form {
    /// Returns the form with a name, which may be empty, and a syntax, without an opening and suffixes, of the kind
    /// [`Kind::EXACT`].
    #[must_use]
    pub const fn new(name: &'static str, syntax: Syntax) -> Form
        ensures name { result.name.now ≡ name.now }
        ensures opening { result.opening.size ≡ 0 }
        ensures syntax { result.syntax ≡ syntax }
        ensures suffixes { result.suffixes ≡ None }
        ensures kind { result.kind ≡ exact }
        ensures only_read { result.only_read ≡ false }
    {
        Form {
            name,
            opening: Opening::NONE,
            syntax,
            suffixes: None,
            kind: Kind::EXACT,
            only_read: false,
        }
    }

    /// Returns the same form with an opening before each of its literals.
    #[must_use]
    pub const fn with_opening(&self, opening: Opening) -> Form
        ensures { result ≡ record self.now { opening = opening } }
    {
        Form {
            name: self.name,
            opening,
            syntax: self.syntax,
            suffixes: self.suffixes,
            kind: self.kind,
            only_read: self.only_read,
        }
    }

    /// Returns the same form with the suffixes that its tokens may have.
    #[must_use]
    pub const fn with_suffixes(&self, suffixes: &'static Suffixes) -> Form
        ensures suffixes { result.suffixes ≡ Some suffixes.entry }
        ensures name { result.name ≡ self.now.name }
        ensures opening { result.opening ≡ self.now.opening }
        ensures syntax { result.syntax ≡ self.now.syntax }
        ensures others { (result.kind ≡ self.now.kind) × (result.only_read ≡ self.now.only_read) }
    {
        Form {
            name: self.name,
            opening: self.opening,
            syntax: self.syntax,
            suffixes: Some(suffixes),
            kind: self.kind,
            only_read: self.only_read,
        }
    }

    /// Returns the same form with another kind, which its literals have.
    #[must_use]
    pub const fn with_kind(&self, kind: Kind) -> Form
        ensures { result ≡ record self.now { kind = kind } }
    {
        Form {
            name: self.name,
            opening: self.opening,
            syntax: self.syntax,
            suffixes: self.suffixes,
            kind,
            only_read: self.only_read,
        }
    }

    /// Sets whether lists only read the form, and write numbers in others.
    #[must_use]
    pub const fn only_read(&self, only: bool) -> Form
        ensures { result ≡ record self.now { only_read = only } }
    {
        Form {
            name: self.name,
            opening: self.opening,
            syntax: self.syntax,
            suffixes: self.suffixes,
            kind: self.kind,
            only_read: only,
        }
    }

    /// Returns the opening, which is empty if there is none.
    #[must_use]
    pub const fn opening(&self) -> Opening
        ensures { result ≡ self.now.opening }
    {
        self.opening
    }

    /// Returns the kind.
    #[must_use]
    pub const fn kind(&self) -> Kind
        ensures { result ≡ self.now.kind }
    {
        self.kind
    }

    /// Returns the suffixes, if there are any.
    #[must_use]
    pub const fn suffixes(&self) -> Option<&'static Suffixes>
        ensures { result ≡ self.now.suffixes }
    {
        self.suffixes
    }

    /// Returns whether lists only read the form.
    #[must_use]
    pub const fn is_only_read(&self) -> bool
        ensures { result ≡ self.now.only_read }
    {
        self.only_read
    }

    /// Returns the name.
    #[must_use]
    pub const fn name(&self) -> &'static str
        ensures { result.now ≡ self.now.name.now }
    {
        self.name
    }

    /// Returns the syntax.
    #[must_use]
    pub const fn syntax(&self) -> Syntax
        ensures { result ≡ self.now.syntax }
    {
        self.syntax
    }

    /// Returns whether there is an opening.
    #[must_use]
    #[inline(always)]
    pub const fn has_opening(&self) -> bool
        ensures { result ≡ not (self.now.opening.size == 0) }
    {
        !self.opening.is_empty()
    }
}
