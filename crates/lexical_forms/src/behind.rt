//! Forms with an opening: what a syntax reads behind it.

ghost use Rattle.std.specs.Prelude.{◌≡◌, ◌<◌, ◌≤◌, IfErr, IfOk, IfSome, IsNone, IsTrue, None, length};
ghost use Rattle.lexical_forms.specs.Additions.Forms.{GoesTo, GoesWithin, IsFrontIn, IsInside, IsLow, IsOpened, IsPassed, IsRefusedAt, NonePast};
ghost use Rattle.lexical_forms.specs.Forms.{IsErrorIn, IsErrorOfForm, Reaches, ReadsForm, ReadsIn, reached};
ghost use Rattle.lexical_literal.specs.Additions.Stop.{IsStopped};
ghost use Rattle.lexical_literal.specs.Cause.{IsRefusal};
ghost use Rattle.lexical_literal.specs.Front.{NoLiteral, NoneBy};
ghost use Rattle.lexical_literal.specs.Notation.{notation_of};

use crate::exclude::{excludes, lacks_longer, reach};
use crate::form::Form;
use crate::list::{FormError, Furthest, Unopened};
use lexical_literal::cause::ReadError;
use lexical_literal::laws::literal_facts;
use lexical_literal::literal::Literal;
use lexical_literal::stop::{BEGIN, Found, Stopped, byte_at, tail_at};

impl Form {
    // Returns what is behind the opening, or how far the form goes at most if this is known at once, and `text` is not a literal: by the
    // opening, the sign, the first two bytes behind it, or the byte at `reach`.
    #[inline(always)]
    pub(crate) fn begins<'t>(&self, text: &'t [u8], reach: usize) -> Result<&'t [u8], usize>
        ensures inside { IfOk result (λ it. IsInside self.now text.now it.now) }
        ensures passed { IfErr result (IsPassed self.now text.now) }
    {
        if self.opening.size == 0 {
            return self.begins_behind(0, text, reach);
        }
        let opened = self.opening.opened(text);
        if opened < self.opening.size() {
            return Err(opened);
        }
        self.begins_behind(opened, text, reach)
    }

    // Returns the same where the opening is there, and has `opened` bytes.
    #[inline(always)]
    fn begins_behind<'t>(
        &self,
        opened: usize,
        text: &'t [u8],
        reach: usize,
    ) -> Result<&'t [u8], usize>
        requires size { opened ≡ self.now.opening.size }
        requires opened { IsOpened self.now.opening text.now }
        ensures inside { IfOk result (λ it. IsInside self.now text.now it.now) }
        ensures passed { IfErr result (IsPassed self.now text.now) }
    {
        let (_, inside) = text.split_at(opened);
        if self.syntax.refuses_sign(inside) {
            return Err(opened);
        }
        match excludes(self.syntax.grammar(), inside, reach.saturating_sub(opened)) {
            Some(bound) => Err(opened + bound),
            None => Ok(inside),
        }
    }

    // Returns whether it is known at once that `text` is not a literal, and that the form goes no further than `reach`.
    #[inline(always)]
    pub(crate) fn is_behind(&self, text: &[u8], reach: usize) -> bool
        ensures low { IsTrue result → IsLow text.now reach self.now }
        ensures within { IsTrue result → GoesWithin text.now reach self.now }
    {
        match self.begins(text, reach) {
            Err(bound) => bound <= reach,
            Ok(_) => false,
        }
    }

    // Returns whether it is known at once that no literal begins with more than the first `past` bytes of `text`.
    #[inline(always)]
    pub(crate) fn is_passed(&self, text: &[u8], past: usize) -> bool
        ensures { IsTrue result → GoesWithin text.now past self.now }
    {
        past >= text.len() || self.is_behind(text, past)
    }

    // Returns the literal that `_text` is, where `inside` is behind the opening, or where the form stops.
    #[inline(always)]
    pub(crate) fn read<'t>(&self, _text: &[u8], inside: &'t [u8]) -> Result<Literal<'t>, Stopped>
        requires { IsInside self.now _text.now inside.now }
        ensures some { IfOk result (λ it. ReadsForm _text.now it self.now × (it.opened ≡ self.now.opening.size)) }
        ensures stop { IfErr result (λ stop. IsRefusedAt _text.now stop self.now) }
    {
        let syntax = &self.syntax;
        let begun = syntax.begin(false, inside, false);
        if begun.covers(syntax, inside) {
            let grammar = syntax.grammar();
            let literal = grammar.literal(inside, begun.counts, begun.sums, self.kind);
            return Ok(literal.behind(self.opening.size));
        }
        match begun.lengths(syntax, inside) {
            Ok(counts) => {
                let literal = syntax.summed(inside, counts);
                Ok(literal.with_kind(self.kind).behind(self.opening.size))
            }
            Err(stop) => Err(stop.at(self.opening.size() + stop.size)),
        }
    }

    // Returns the longest front of `text` that is a literal, if it has more than `size` bytes.
    #[inline(always)]
    pub(crate) fn front_past(&self, text: &[u8], size: usize) -> Option<Found>
        ensures none { IsNone result → NonePast text.now size self.now }
        ensures some { IfSome result (λ found. (size < found.size) × IsFrontIn text.now found self.now) }
    {
        let opened = self.opening.opened(text);
        let (_, rest) = text.split_at(opened);
        let least = size.saturating_sub(opened);
        if opened < self.opening.size() || lacks_longer(self.syntax.grammar(), rest, least) {
            return None;
        }
        let (_, found) = self.syntax.front(rest);
        let Some(found) = found else {
            return None;
        };
        if found.size <= least {
            return None;
        }
        let Found { size, counts } = found;
        let size = opened + size;
        Some(Found { size, counts })
    }
}

impl Form {
    // Returns where the form stops, and the longest front of `text` that is a literal, if there is one.
    #[inline(always)]
    pub(crate) fn front(&self, text: &[u8]) -> (usize, Option<Found>)
        ensures valid { GoesTo text.now self.now result.0 }
        ensures none { IsNone result.1 → NonePast text.now 0 self.now }
        ensures some { IfSome result.1 (λ found. (0 < found.size) × IsFrontIn text.now found self.now) }
    {
        let opened = self.opening.opened(text);
        if opened < self.opening.size() {
            let _syntax = self.syntax();
            literal_facts();
            return (opened, None);
        }
        let (_, inside) = text.split_at(opened);
        let (stop, found) = self.syntax.front(inside);
        let stop = opened + stop.size;
        let Some(found) = found else {
            return (stop, None);
        };
        let Found { size, counts } = found;
        let size = opened + size;
        (stop, Some(Found { size, counts }))
    }
}

// Calls for a form in which a text is not a literal.
impl Form {
    // Returns where reading `text` stops.
    #[cold]
    pub(crate) fn stop(&self, text: &[u8]) -> Stopped
        ensures stop { NoneBy (ReadsIn self.now) text.now → IsRefusedAt text.now result self.now }
        ensures valid { GoesTo text.now self.now result.size }
    {
        let opened = self.opening.opened(text);
        if opened < self.opening.size() {
            let _syntax = self.syntax();
            literal_facts();
            return BEGIN.at(opened);
        }
        let (_, rest) = text.split_at(opened);
        let stop = self.syntax.stop(rest);
        stop.at(opened + stop.size)
    }

    // Returns where reading `text` stops, which no literal of the form begins with more than no byte of, if there is no opening.
    #[inline(always)]
    pub(crate) fn beginning(&self, text: &[u8]) -> Option<Stopped>
        requires { IsPassed self.now text.now 0 }
        ensures { IfSome result (λ stop. IsRefusedAt text.now stop self.now) }
    {
        if self.opening.is_empty() {
            Some(self.syntax.beginning(text))
        } else {
            None
        }
    }

    // Returns how far the form goes, which has the index `form` and stops at `stop`.
    #[inline(always)]
    pub(crate) fn reached(&self, text: &[u8], form: usize, stop: Stopped) -> Furthest
        requires { IsRefusedAt text.now stop self.now }
        ensures form { result.form ≡ form }
        ensures stop { result.stop ≡ stop }
        ensures reach { Reaches text.now self.now result.reach }
    {
        let reach = self.reach(text, stop.size);
        Furthest { form, stop, reach }
    }

    // Returns how far the form goes where `size` bytes are right.
    #[inline(always)]
    fn reach(&self, text: &[u8], size: usize) -> usize
        requires { size ≤ length text.now }
        ensures { result ≡ reached self.now text.now size }
    {
        let opened = self.opening.size();
        if size < opened {
            return size;
        }
        let (_, rest) = text.split_at(opened);
        opened + reach(self.syntax.grammar(), rest, size - opened)
    }

    // Returns why `text` is not a literal of the form, which has the index `form`.
    #[inline(always)]
    pub(crate) fn form_error(&self, text: &[u8], form: usize, stop: Stopped) -> FormError
        requires { IsRefusedAt text.now stop self.now }
        ensures form { result.form ≡ form }
        ensures error { IsErrorOfForm text.now result self.now }
    {
        let opened = self.opening.size();
        if stop.size < opened {
            return self.lacks_opening(text, form, stop.size);
        }
        let (_, rest) = text.split_at(opened);
        let error = Ok(self.error_of(rest, stop.at(stop.size - opened)));
        FormError {
            form,
            name: self.name,
            opened,
            error,
        }
    }

    // Returns that the opening is not there behind the first `right` bytes of `text`.
    #[cold]
    fn lacks_opening(&self, text: &[u8], form: usize, right: usize) -> FormError
        requires { IsErrorIn self.now text.now right None }
        ensures form { result.form ≡ form }
        ensures error { IsErrorOfForm text.now result self.now }
    {
        let byte = byte_at(text, right);
        let tail = tail_at(text, right, byte);
        let unopened = Unopened {
            opening: self.opening,
            byte,
            tail,
        };
        FormError {
            form,
            name: self.name,
            opened: right,
            error: Err(unopened),
        }
    }

    // Returns why `text` is not a literal of the syntax, which stops at `stop`.
    #[inline(always)]
    fn error_of(&self, text: &[u8], stop: Stopped) -> ReadError
        requires stopped { IsStopped (notation_of self.now.syntax) text.now stop }
        requires refused { NoLiteral (notation_of self.now.syntax) text.now }
        ensures { IsRefusal (notation_of self.now.syntax) text.now result.refusal }
    {
        let Err(error) = stop.refuse::<()>(&self.syntax, text) else {
            unreachable!()
        };
        error
    }
}
