//! Where reading a text stops, and whether that is a literal: what has begun, and what has stopped.

ghost use Rattle.std.specs.Prelude.{◌≡◌, ◌+◌, ◌<◌, ◌≤◌, ◌^◌, IfSome, Some, IsErrAnd, IsNone, IsTrue, None, ℕ, List, [], false, get_or, true};
ghost use Rattle.std.specs.Prelude.{length, slice_get, take, IfErr, IfOk, IsErr};
ghost use Rattle.std.specs.Option.{ForSome};
ghost use Rattle.lexical_literal.specs.Additions.Explained.{refusal_of, tail_byte};
ghost use Rattle.lexical_literal.specs.Additions.Stop.{HasBegun, IsCountedFront, IsFronted, IsLongest, IsMeasured, IsStopped, IsUnderway, IsWithin};
ghost use Rattle.lexical_literal.specs.Additions.GroupSize.{goes};
ghost use Rattle.lexical_literal.specs.Additions.Step.{HasLengths, count, cuts_of, part_of, role_at};
ghost use Rattle.lexical_literal.specs.Cause.{IsRefusal, tail_of, tail_size};
ghost use Rattle.lexical_literal.specs.Front.{NoLiteral};
ghost use Rattle.lexical_literal.specs.Literal.{Literal, Reads};
ghost use Rattle.lexical_literal.specs.Notation.{notation_of};
ghost use Rattle.lexical_literal.specs.declared.cause.Refusal.{Refusal};
ghost use Rattle.lexical_literal.specs.declared.group_size.Group.{Group};

use crate::cause::{ReadError, Spot};
use crate::group_size::{FIRST, Group, group_after, group_allows, grow};
use crate::literal::Sums;
use crate::span::spot;
use crate::step::{
    Piece, START, Summary, allows_minus, allows_plus, is_complete, part_of, piece_number, piece_of,
    step,
};
use crate::syntax::{Grammar, Syntax, has_sizes};
use lexical_util::format::{Part, Role};

// What has been read of a text part after part. If `complete` is true, it is a literal, its parts have the lengths `counts`, and its
// digits the sums. If `refused` is true, the byte that follows is refused.
#[derive(Clone, Copy)]
pub struct Begun {
    pub at: Stopped,
    pub counts: [usize; 9],
    pub sums: Sums,
    pub complete: bool,
    pub refused: bool,
}

// Where reading a text has stopped, part after part or for good: the number of bytes that have been read, and their summary.
#[derive(Clone, Copy)]
pub struct Stopped {
    pub size: usize,
    pub(crate) read: Summary,
}

// Where no byte has been read.
#[doc(hidden)]
pub const BEGIN: Stopped = Stopped {
    size: 0,
    read: START,
};

// A leading piece of a text that is a literal: the number of its bytes, and the lengths of its parts.
#[derive(Clone, Copy)]
#[doc(hidden)]
pub struct Found {
    pub size: usize,
    pub counts: [usize; 9],
}

#[doc(hidden)]
impl Begun {
    // Returns where reading `text` stops.
    #[inline(always)]
    pub const fn stop(self, syntax: &Syntax, text: &[u8]) -> Stopped
        requires { HasBegun (notation_of syntax.now) text.now self }
        ensures { IsStopped (notation_of syntax.now) text.now result }
    {
        if self.refused {
            self.at
        } else {
            self.at.go_on(syntax, text)
        }
    }

    // Returns the lengths of the parts of `text`, or where reading stops if it is not a literal.
    #[inline(always)]
    pub fn lengths(self, syntax: &Syntax, text: &[u8]) -> Result<[usize; 9], Stopped>
        requires { HasBegun (notation_of syntax.now) text.now self }
        ensures some { IfOk result (IsMeasured (notation_of syntax.now) text.now) }
        ensures stop { IfErr result (IsStopped (notation_of syntax.now) text.now) }
        ensures none { IsErr result → NoLiteral (notation_of syntax.now) text.now }
    {
        if self.refused {
            Err(self.at)
        } else {
            self.at.all_lengths(syntax, text)
        }
    }
}

#[doc(hidden)]
impl Stopped {
    // Returns what has been read with another number of bytes, which are counted from the beginning of another text.
    #[inline(always)]
    pub const fn at(self, size: usize) -> Stopped
        ensures { result ≡ record self { size = size } }
    {
        Stopped { size, ..self }
    }

    // Goes on, and returns the lengths of the parts of `text`, or where reading stops if it is not a literal.
    #[inline(never)]
    fn all_lengths(self, syntax: &Syntax, text: &[u8]) -> Result<[usize; 9], Stopped>
        requires { (group : Group) × IsUnderway (notation_of syntax.now) text.now self group }
        ensures some { IfOk result (IsMeasured (notation_of syntax.now) text.now) }
        ensures stop { IfErr result (IsStopped (notation_of syntax.now) text.now) }
        ensures none { IsErr result → NoLiteral (notation_of syntax.now) text.now }
    {
        let stop = self.go_on(syntax, text);
        match stop.lengths(syntax, text) {
            Some(counts) => Ok(counts),
            None => Err(stop),
        }
    }

    // Returns where reading `text` stops for good.
    #[inline(always)]
    pub(crate) const fn go_on(self, syntax: &Syntax, text: &[u8]) -> Stopped
        requires { (group : Group) × IsUnderway (notation_of syntax.now) text.now self group }
        ensures { IsStopped (notation_of syntax.now) text.now result }
    {
        let group = self.group(syntax, text);
        match self.step(syntax, text, group) {
            None => self,
            Some((_, next, group)) => next.walk(syntax, text, group),
        }
    }

    // Returns where reading `text` stops for good, step by step.
    #[cold]
    pub(crate) const fn walk(self, syntax: &Syntax, text: &[u8], group: Group) -> Stopped
        requires { IsUnderway (notation_of syntax.now) text.now self group }
        ensures { IsStopped (notation_of syntax.now) text.now result }
    {
        let mut stop = self;
        let mut last = group;
        while let Some((_, next, group)) = stop.step(syntax, text, last) {
            stop = next;
            last = group;
        }
        stop
    }

    // Returns the role of the byte that follows, and what has been read with it, or `None` if reading stops here.
    #[inline(always)]
    const fn step(
        self,
        syntax: &Syntax,
        text: &[u8],
        group: Group,
    ) -> Option<(Role, Stopped, Group)>
        requires { IsUnderway (notation_of syntax.now) text.now self group }
        ensures next { IfSome result (λ next. (role_at (notation_of syntax.now) (part_of self.read.stage) (get_or text.now self.size 0) ≡ Some next.0)
            × IsUnderway (notation_of syntax.now) text.now next.1 next.2 × (next.1.size ≡ self.size + 1)) }
        ensures stop { IsNone result → IsStopped (notation_of syntax.now) text.now self }
    {
        let grammar = syntax.grammar();
        let Stopped { size, read } = self;
        if size == text.len() {
            return None;
        }
        let Some((role, read)) = step(grammar, read, text[size]) else {
            return None;
        };
        let Some(group) = grow(grammar, group, Some(role)) else {
            return None;
        };
        let size = size + 1;
        Some((role, Stopped { size, read }, group))
    }

    // Returns the last group of the bytes that have been read.
    #[tactic(auto, using(crate::proofs::SizeLemmas::all_end))]
    #[inline(always)]
    const fn group(self, syntax: &Syntax, text: &[u8]) -> Group
        requires { (group : Group) × IsUnderway (notation_of syntax.now) text.now self group }
        ensures { IsUnderway (notation_of syntax.now) text.now self result }
    {
        let grammar = syntax.grammar();
        if has_sizes(grammar) {
            match group_after(grammar, text, self.size) {
                Some(group) => group,
                None => FIRST,
            }
        } else {
            FIRST
        }
    }

    // Returns the lengths of the parts of `text`, if it is a literal.
    #[inline(always)]
    pub const fn lengths(self, syntax: &Syntax, text: &[u8]) -> Option<[usize; 9]>
        requires { IsStopped (notation_of syntax.now) text.now self }
        ensures some { IfSome result (IsMeasured (notation_of syntax.now) text.now) }
        ensures none { IsNone result → NoLiteral (notation_of syntax.now) text.now }
    {
        let group = self.group(syntax, text);
        if self.size == text.len() && self.may_end(syntax.grammar(), group) {
            Some(syntax.lengths(text))
        } else {
            None
        }
    }

    // Returns whether what has been read, with the last group `group`, is a literal.
    #[inline(always)]
    const fn may_end(self, grammar: Grammar, group: Group) -> bool
        ensures { result ≡ goes (notation_of grammar) self.read group None }
    {
        is_complete(grammar, self.read) && group_allows(grammar, group, None)
    }

    // Returns why `text` is not a literal, as the result of the caller, which takes less
    // time than to copy an error.
    #[cold]
    pub fn refuse<T>(self, syntax: &Syntax, text: &[u8]) -> Result<T, ReadError>
        requires stopped { IsStopped (notation_of syntax.now) text.now self }
        requires refused { NoLiteral (notation_of syntax.now) text.now }
        ensures { IsErrAnd result (λ error. IsRefusal (notation_of syntax.now) text.now error.refusal) }
    {
        let spot = self.spot(syntax, text);
        Err(ReadError { spot })
    }

    // Returns where reading `text` stopped.
    #[inline(always)]
    fn spot(self, syntax: &Syntax, text: &[u8]) -> Spot
        requires stopped { IsStopped (notation_of syntax.now) text.now self }
        requires refused { NoLiteral (notation_of syntax.now) text.now }
        ensures refusal { IsRefusal (notation_of syntax.now) text.now (refusal_of (notation_of result.grammar) result) }
        ensures size { result.size ≡ self.size }
    {
        let byte = byte_at(text, self.size);
        let front = front_of(text, self.size);
        let tail = tail_at(text, self.size, byte);
        let separated = self.group(syntax, text).separated;
        spot(syntax.grammar(), front, self.read, byte, tail, separated)
    }
}

#[doc(hidden)]
impl Syntax {
    // Returns where reading `text` stops.
    #[cold]
    pub fn stop(&self, text: &[u8]) -> Stopped
        ensures { IsStopped (notation_of self.now) text.now result }
    {
        self.begin(false, text, false).stop(self, text)
    }

    // Returns where reading `_text` stops if no literal begins with its first byte.
    #[inline(always)]
    pub const fn beginning(&self, _text: &[u8]) -> Stopped
        ensures { IsWithin (notation_of self.now) _text.now 0 → IsStopped (notation_of self.now) _text.now result }
    {
        let _grammar = self.grammar();
        BEGIN
    }

    // Returns whether `text` begins with a sign with which no literal begins.
    #[inline(always)]
    pub const fn refuses_sign(&self, text: &[u8]) -> bool
        ensures { IsTrue result → IsWithin (notation_of self.now) text.now 0 }
    {
        let grammar = self.grammar();
        if text.len() == 0 {
            false
        } else if text[0] == b'+' {
            !allows_plus(grammar, Part::Integer)
        } else if text[0] == b'-' {
            !allows_minus(grammar, Part::Integer)
        } else {
            false
        }
    }

    // Returns where reading `text` stops, and the longest front that is a literal, if there is one.
    #[inline(always)]
    pub fn front(&self, text: &[u8]) -> (Stopped, Option<Found>)
        ensures { IsFronted (notation_of self.now) text.now result.0 result.1 }
    {
        let begun = self.begin(false, text, true);
        let Begun {
            at,
            counts,
            complete,
            ..
        } = begun;
        let stop = begun.stop(self, text);
        if complete && stop.size == at.size {
            let size = stop.size;
            return (stop, Some(Found { size, counts }));
        }
        match self.all_but_last(text, stop) {
            Some(found) => (stop, Some(found)),
            None => (stop, self.longest(text)),
        }
    }

    // Returns all that was read but the last byte, if that is a literal, and what was read is none.
    #[inline(always)]
    fn all_but_last(&self, text: &[u8], stop: Stopped) -> Option<Found>
        requires { IsStopped (notation_of self.now) text.now stop }
        ensures { ForSome result (IsCountedFront (notation_of self.now) text.now) }
    {
        let group = stop.group(self, text);
        if stop.size == 0 || stop.may_end(self.grammar(), group) {
            return None;
        }
        let size = stop.size - 1;
        let shorter = front_of(text, size);
        let begun = self.begin(false, shorter, true);
        if begun.covers(self, shorter) {
            let Begun { counts, .. } = begun;
            Some(Found { size, counts })
        } else {
            None
        }
    }

    // Returns the longest front of `text` that is a literal, and the lengths of its parts, if there is one.
    #[cold]
    const fn longest(&self, text: &[u8]) -> Option<Found>
        ensures { IsLongest (notation_of self.now) text.now (length text.now) result }
    {
        let grammar = self.grammar();
        let mut at = BEGIN;
        let mut last = FIRST;
        let mut counts = [0; 9];
        let mut found = None;
        while let Some((role, next, group)) = at.step(self, text, last) {
            let more = count_byte(counts, part_of(at.read.stage), role);
            counts = more;
            at = next;
            last = group;
            if at.may_end(grammar, last) {
                let size = at.size;
                found = Some(Found { size, counts });
            }
        }
        found
    }

    // Returns the lengths of the parts of the literal `text`.
    #[cold]
    const fn lengths(&self, text: &[u8]) -> [usize; 9]
        ensures { (l : Literal) → Reads (notation_of self.now) l text.now → HasLengths l (cuts_of result) }
    {
        match self.longest(text) {
            None => [0; 9],
            Some(found) => found.counts,
        }
    }
}

// Counts one more byte with the role `role` in `part`. Before that of a prefix, its zero has been counted for the integer.
#[inline(always)]
const fn count_byte(counts: [usize; 9], part: Part, role: Role) -> [usize; 9]
    requires { (k : ℕ) → get_or counts k 0 + 1 < 2 ^ 64 }
    ensures nine { length result ≡ 9 }
    ensures counted { cuts_of result ≡ count part (Some role) (cuts_of counts) }
    ensures small { (n : ℕ) → 0 < n → ((k : ℕ) → get_or counts k 0 ≤ n) → (k : ℕ) → get_or result k 0 ≤ n + 1 }
{
    let mut more = counts;
    if matches!(role, Role::Prefix) {
        more[piece_number(Piece::Prefix)] = 2;
        more[piece_number(Piece::Integer)] = 0;
    } else {
        more[piece_number(piece_of(part, role))] += 1;
    }
    more
}

// Returns the byte behind the first `size`, if there is one.
#[doc(hidden)]
pub const fn byte_at(text: &[u8], size: usize) -> Option<u8>
    ensures { result ≡ slice_get text.now size }
{
    if size < text.len() {
        Some(text[size])
    } else {
        None
    }
}

// Returns the number of bytes that follow `byte` in its character, if it begins one in UTF-8.
const fn tail_size(byte: Option<u8>) -> usize
    ensures { result ≡ tail_size byte }
{
    match byte {
        Some(0xC2..=0xDF) => 1,
        Some(0xE0..=0xEF) => 2,
        Some(0xF0..=0xF4) => 3,
        _ => 0,
    }
}

// Returns the bytes that follow `byte`, the one behind the first `size`, in its character, and 0 for each that does not.
#[doc(hidden)]
pub const fn tail_at(text: &[u8], size: usize, byte: Option<u8>) -> [u8; 3]
    requires size { size ≤ length text.now }
    requires byte { byte ≡ slice_get text.now size }
    ensures { result ≡ tail_of text.now size }
{
    let tail = tail_size(byte);
    [
        tail_byte(text, size, tail, 1),
        tail_byte(text, size, tail, 2),
        tail_byte(text, size, tail, 3),
    ]
}

// Returns the byte behind the first `size + place` if `place` is at most `tail`, and 0 where there is none.
const fn tail_byte(text: &[u8], size: usize, tail: usize, place: usize) -> u8
    requires { size ≤ length text.now }
    ensures { result ≡ tail_byte text.now size tail place }
{
    if place <= tail && place < text.len() - size {
        text[size + place]
    } else {
        0
    }
}

// Returns the first `size` bytes.
#[inline(always)]
pub(crate) fn front_of(text: &[u8], size: usize) -> &[u8]
    requires { size ≤ length text.now }
    ensures { result.now ≡ take size text.now }
{
    text.split_at(size).0
}
