//! Calls that read literals.

ghost use Rattle.lexical_literal.specs.Additions.Stop.{IsUnderway};
ghost use Rattle.lexical_literal.specs.declared.group_size.Group.{Group};
ghost use Rattle.lexical_literal.specs.Notation.{notation_of};
ghost use Rattle.lexical_literal.specs.Parts.{IsRead, IsReadPrefix};

use crate::cause::ReadError;
use crate::kind::Kind;
use crate::literal::Literal;
use crate::stop::{Found, Stopped, front_of};
use crate::syntax::Syntax;

/// A leading piece of a text that is a literal.
#[derive(Drop)]
pub struct Front<'a> {
    /// The literal.
    pub literal: Literal<'a>,
    /// The number of bytes of the literal.
    pub size: usize,
}

impl Syntax {
    /// Returns `text` as a literal.
    ///
    /// # Errors
    ///
    /// If `text` is not a literal, returns why, and how far it is right.
    pub fn read<'a>(&self, text: &'a [u8]) -> Result<Literal<'a>, ReadError>
        ensures { IsRead self.now text.now result }
    {
        let begun = self.begin(self.is_decimal(), text, false);
        if begun.covers(self, text) {
            Ok(
                self.grammar()
                    .literal(text, begun.counts, begun.sums, Kind::EXACT),
            )
        } else if begun.refused {
            begun.at.refuse(self, text)
        } else {
            self.read_slowly(text, begun.at)
        }
    }

    // Returns what `read` returns, where `at` has been read.
    #[inline(never)]
    fn read_slowly<'a>(&self, text: &'a [u8], at: Stopped) -> Result<Literal<'a>, ReadError>
        requires { (group : Group) × IsUnderway (notation_of self.now) text.now at group }
        ensures { IsRead self.now text.now result }
    {
        let stop = at.go_on(self, text);
        match stop.lengths(self, text) {
            Some(counts) => Ok(self.summed(text, counts)),
            None => stop.refuse(self, text),
        }
    }

    /// Returns the longest front of `text` that is a literal. What follows it may be anything. No byte behind the first
    /// character that no literal can have is looked at.
    ///
    /// # Errors
    ///
    /// If no front of `text` is a literal, returns the error of [`read`][Self::read].
    pub fn read_prefix<'a>(&self, text: &'a [u8]) -> Result<Front<'a>, ReadError>
        ensures { IsReadPrefix self.now text.now result }
    {
        let (stop, found) = self.front(text);
        match found {
            None => stop.refuse(self, text),
            Some(found) => {
                let Found { size, counts } = found;
                let literal = self.summed(front_of(text, size), counts);
                Ok(Front { literal, size })
            }
        }
    }
}
