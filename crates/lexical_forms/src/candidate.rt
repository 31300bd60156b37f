//! The candidates of forms for a token, and the token that the longest of them makes.

ghost use Rattle.std.specs.Prelude.{◌≡◌, ◌<◌, ◌≤◌, ◌+◌, ◌-◌, ◌==◌, ◌&&◌, ◌||◌, ◌⊎◌, ℕ, All, Bool, IsNone, IsSomeAnd, IsTrue, None, Some, drop, false};
ghost use Rattle.std.specs.Prelude.{length, nat_le, slice_get, take, true};
ghost use Rattle.std.specs.Char.{is_ascii_alphabetic, is_ascii_digit};
ghost use Rattle.std.specs.Option.{ForSome};
ghost use Rattle.lexical_forms.specs.Additions.Forms.{GoesTo, GoesWithin, IsFrontIn, IsOpenedTo, further};
ghost use Rattle.lexical_forms.specs.Additions.Token.{HasNoWord, IsAsked, IsAskedFirst, IsBegunFirst, IsEnd, IsEnded, IsEndedAt, IsMade, IsOverFrom, IsOwn};
ghost use Rattle.lexical_forms.specs.Additions.Token.{IsPicked, IsReady, IsWinner, IsYet, MayEnd, NoCandidate, NoOwn, goes_on, is_longer, suffixed, whole};
ghost use Rattle.lexical_literal.specs.Cause.{is_in};
ghost use Rattle.lexical_literal.specs.Additions.Literal.{AreSums, IsCut, IsSummed, cut};
ghost use Rattle.lexical_literal.specs.Additions.Stop.{HasBegun, IsWithin};
ghost use Rattle.lexical_literal.specs.Read.{exact};
ghost use Rattle.lexical_literal.specs.Additions.Step.{cuts_of};
ghost use Rattle.lexical_literal.specs.Notation.{notation_of};
ghost use Rattle.lexical_forms.specs.Forms.{IsGreatest, ReadsIn};
ghost use Rattle.lexical_forms.specs.Suffix.{kind_with, stop_end};
ghost use Rattle.lexical_forms.specs.Token.{IsAhead, IsOver, IsReadByTokens, IsRefused, IsTokenError, is_alone, is_shorter, is_stopped, part_size};
ghost use Rattle.lexical_forms.specs.Token.{tried};
ghost use Rattle.lexical_forms.specs.declared.form.Form.{Form};
ghost use Rattle.lexical_util.specs.Record.{raw};

use crate::exclude::{ends_at, has_letter_behind_zero, is_over};
use crate::form::Form;
use crate::list::{Forms, PointsBack, Tokens};
use crate::suffix::{
    byte_after, byte_before, has_digit_at, has_word_byte, is_followed, is_stopped, kind_with,
    more_of, suffix_size, suffix_words, word_size,
};
use crate::token::{Token, TokenError, is_decimal_point, is_float, larger};
use lexical_literal::kind::Kind;
use lexical_literal::literal::{Literal, Sums};
use lexical_literal::stop::{Begun, Found, byte_at};
use lexical_literal::syntax::Syntax;

// The candidate of a form: the length of its literal, the lengths of its parts, and the index behind its suffix.
#[derive(Clone, Copy)]
pub(crate) struct Candidate {
    pub(crate) size: usize,
    pub(crate) counts: [usize; 9],
    pub(crate) sums: Option<Sums>,
    pub(crate) end: usize,
}

// The longest candidate of the forms that have been asked, with the index of its form, and how far they go, but for a point that is given
// back. Forms with no literal of more than `past` bytes may be passed over, and `clear` says that no word goes on behind the candidate.
#[derive(Clone, Copy)]
pub(crate) struct Longest {
    pub(crate) best: Option<(usize, Candidate)>,
    pub(crate) reach: usize,
    pub(crate) past: usize,
    pub(crate) clear: bool,
}

impl<'a> Forms<'a> {
    // Returns the token that `text` begins with, by all candidates.
    #[cold]
    #[inline(never)]
    pub(crate) fn token_of<'t>(
        &self,
        tokens: &Tokens,
        text: &'t [u8],
    ) -> Result<Token<'t>, TokenError>
        ensures { IsReadByTokens self.now (Some tokens.entry) text.now result }
    {
        self.end_of(tokens, text, self.longest(tokens, text, 0, None))
    }

    // Returns whether the first form is asked before the others: it is decimal, and it may be known at once that no form goes on.
    #[inline(always)]
    pub(crate) fn may_end(&self, text: &[u8]) -> bool
        ensures { IsTrue result → MayEnd self.now }
    {
        let it = &self.forms[0];
        if !self.ends || !it.opening.is_empty() || !it.syntax.is_decimal() {
            return false;
        }
        !has_letter_behind_zero(text)
    }

    // Returns what has been read of the first form.
    #[inline(always)]
    pub(crate) fn first(&self, text: &[u8]) -> Begun
        requires { MayEnd self.now }
        ensures { IsBegunFirst self.now text.now result }
    {
        self.forms[0].syntax.begin(true, text, true)
    }

    // Returns the literal of the first form that `text` begins with, without a suffix, if it is known at once that no form goes on.
    #[inline(always)]
    pub(crate) fn ended(&self, text: &[u8], begun: Begun) -> Option<Candidate>
        requires { IsBegunFirst self.now text.now begun }
        ensures { ForSome result (IsEndedAt self.now text.now) }
    {
        let Begun {
            at,
            counts,
            sums,
            complete,
            ..
        } = begun;
        let size = at.size;
        if complete && ends_at(text, size) {
            Some(Candidate {
                size,
                counts,
                sums: Some(sums),
                end: size,
            })
        } else {
            None
        }
    }

    // Returns how far the first form goes, and its candidate, if it is complete where `first` has been read of it.
    #[inline(always)]
    pub(crate) fn asked(
        &self,
        tokens: &Tokens,
        text: &[u8],
        first: Option<Begun>,
    ) -> Option<(usize, Option<Candidate>)>
        requires { ForSome first (IsBegunFirst self.now text.now) }
        ensures { ForSome result (IsAskedFirst self.now tokens.now text.now) }
    {
        let Some(begun) = first else {
            return None;
        };
        if !begun.complete {
            return None;
        }
        let it = &self.forms[0];
        Some(it.candidate_of(tokens.gives_points_back, false, text, 0, text, begun))
    }

    // Returns the longest candidate of the list and of the forms that need a suffix, of those with literals of more than `least` bytes.
    #[inline(always)]
    pub(crate) fn longest(
        &self,
        tokens: &Tokens,
        text: &[u8],
        least: usize,
        first: Option<(usize, Option<Candidate>)>,
    ) -> Longest
        requires { ForSome first (IsAskedFirst self.now tokens.now text.now) }
        ensures { (IsTrue result.clear ⊎ (least ≡ 0)) → IsWinner self.now tokens.now text.now result }
    {
        let mut found = Longest {
            best: None,
            reach: 0,
            past: least,
            clear: false,
        };
        let mut form = 0;
        if let Some(asked) = first {
            found = self.longer(tokens, text, least, found, 0, asked);
            form = 1;
        }
        while form < self.forms.len() + tokens.forms.len() {
            if !self.passes(tokens, text, found.past, form) {
                found = self.ask(tokens, text, least, found, form);
            }
            form += 1;
        }
        found
    }

    // Returns whether it is known at once that no literal of the form with this index begins with more than the first `past` bytes of `text`.
    #[inline(always)]
    fn passes(&self, tokens: &Tokens, text: &[u8], past: usize, form: usize) -> bool
        requires { form < length (tried self.now tokens.now) }
        ensures { IsTrue result → (it : Form × Bool) × (slice_get (tried self.now tokens.now) form ≡ Some it) × GoesWithin text.now past it.0 }
    {
        let it = self.tried(tokens, form);
        it.is_passed(text, past)
    }

    // Returns the longest candidate after one form more, which has the index `form`.
    #[inline(always)]
    fn ask(
        &self,
        tokens: &Tokens,
        text: &[u8],
        least: usize,
        found: Longest,
        form: usize,
    ) -> Longest
        requires { form < length (tried self.now tokens.now) }
        ensures { IsYet self.now tokens.now text.now least form found → IsYet self.now tokens.now text.now least (form + 1) result }
    {
        let it = self.tried(tokens, form);
        let needs = self.needs(form);
        let asked = it.candidate(tokens.gives_points_back, needs, text);
        self.longer(tokens, text, least, found, form, asked)
    }

    // Returns the form with this index. Those that need a suffix are behind the others.
    #[inline(always)]
    fn tried<'f>(&'f self, tokens: &'f Tokens, form: usize) -> &'f Form
        requires { form < length (tried self.now tokens.now) }
        ensures { slice_get (tried self.now tokens.now) form ≡ Some (result.now, nat_le (length self.now.forms) form) }
    {
        if self.needs(form) {
            &tokens.forms[form - self.forms.len()]
        } else {
            &self.forms[form]
        }
    }

    // Returns whether the form with this index needs a suffix.
    #[inline(always)]
    fn needs(&self, form: usize) -> bool
        ensures { result ≡ nat_le (length self.now.forms) form }
    {
        self.forms.len() <= form
    }

    // Returns the longest candidate after one form more, which has the index `form`, and of which this is known.
    #[inline(always)]
    fn longer(
        &self,
        tokens: &Tokens,
        text: &[u8],
        least: usize,
        found: Longest,
        form: usize,
        asked: (usize, Option<Candidate>),
    ) -> Longest
        ensures { (it : Form × Bool) → slice_get (tried self.now tokens.now) form ≡ Some it
            → IsAsked tokens.now.gives_points_back text.now it asked.0 asked.1 → IsYet self.now tokens.now text.now least form found
            → IsYet self.now tokens.now text.now least (form + 1) result }
    {
        let (reach, candidate) = asked;
        let reach = larger(found.reach, reach);
        match candidate {
            None => Longest { reach, ..found },
            Some(candidate) => {
                if candidate.size <= least || !is_longer(found.best, candidate) {
                    return Longest { reach, ..found };
                }
                let clear = self.is_clear(tokens, text, candidate.end);
                Longest {
                    best: Some((form, candidate)),
                    reach,
                    past: past_of(found.past, clear, candidate.size),
                    clear,
                }
            }
        }
    }

    // Returns whether no word of a form goes on behind `end`.
    #[inline(always)]
    fn is_clear(&self, tokens: &Tokens, text: &[u8], end: usize) -> bool
        ensures { IsTrue result → All (λ it. HasNoWord text.now end it.0) (tried self.now tokens.now) }
    {
        !has_word_byte(text, end) && !self.go_on_with(tokens, byte_at(text, end))
    }

    // Returns the token of the longest candidate, or why there is none.
    #[inline(always)]
    pub(crate) fn end_of<'t>(
        &self,
        tokens: &Tokens,
        text: &'t [u8],
        found: Longest,
    ) -> Result<Token<'t>, TokenError>
        requires { IsWinner self.now tokens.now text.now found }
        ensures { IsReadByTokens self.now (Some tokens.entry) text.now result }
    {
        let Some((form, candidate)) = found.best else {
            return Err(self.fail(tokens, text));
        };
        let it = self.tried(tokens, form);
        let goes_on = candidate.end < found.reach;
        match self.fault_of(tokens, text, it, form, candidate, goes_on) {
            Some(error) => Err(error),
            None => Ok(it.made(text, form, candidate)),
        }
    }

    // Returns why the candidate of a form is not a token, if it is none. Literals of the list may go on behind it if `goes_on` is true.
    #[inline(always)]
    fn fault_of(
        &self,
        tokens: &Tokens,
        text: &[u8],
        it: &Form,
        form: usize,
        candidate: Candidate,
        goes_on: bool,
    ) -> Option<TokenError>
        requires picked { IsPicked self.now tokens.now text.now form it.now candidate }
        requires over { goes_on ≡ false → IsOver self.now tokens.now text.now candidate.end }
        ensures none { IsNone result → IsEnded self.now tokens.now text.now it.now candidate.end }
        ensures some { ForSome result (IsTokenError self.now tokens.now text.now) }
    {
        if goes_on || it.is_stopped(tokens, text, candidate.end) {
            self.cut(tokens, text, it, form, candidate, goes_on)
        } else {
            None
        }
    }

    // Returns whether a literal of a form of the list goes on behind `end`, where one may if `goes_on` is true.
    fn is_ahead(&self, tokens: &Tokens, text: &[u8], end: usize, goes_on: bool) -> bool
        requires { goes_on ≡ false → IsOver self.now tokens.now text.now end }
        ensures ahead { IsTrue result → (i : ℕ) × IsSomeAnd (slice_get self.now.forms i) (IsAhead tokens.now.gives_points_back text.now end) }
        ensures over { result ≡ false → IsOver self.now tokens.now text.now end }
    {
        goes_on && is_one_ahead(self.forms, tokens.gives_points_back, text, end)
    }

    // Returns the same by asking the forms again.
    #[cold]
    #[inline(never)]
    fn cut(
        &self,
        tokens: &Tokens,
        text: &[u8],
        it: &Form,
        form: usize,
        candidate: Candidate,
        goes_on: bool,
    ) -> Option<TokenError>
        requires picked { IsPicked self.now tokens.now text.now form it.now candidate }
        requires over { goes_on ≡ false → IsOver self.now tokens.now text.now candidate.end }
        ensures none { IsNone result → IsEnded self.now tokens.now text.now it.now candidate.end }
        ensures some { ForSome result (IsTokenError self.now tokens.now text.now) }
    {
        let Candidate { size, end, .. } = candidate;
        let (_, rest) = text.split_at(end);
        if is_followed(tokens.following, rest) {
            return None;
        }
        if self.is_ahead(tokens, text, end, goes_on) {
            return Some(self.fail(tokens, text));
        }
        if !it.is_stopped(tokens, text, end) {
            return None;
        }
        if digit_follows(text, size, end) {
            Some(self.fail(tokens, text))
        } else {
            Some(stopped(it, text, form, candidate))
        }
    }

    // Returns why `text` does not begin with a token.
    #[cold]
    fn fail(&self, _tokens: &Tokens, text: &[u8]) -> TokenError
        requires { IsRefused self.now _tokens.now text.now }
        ensures { IsTokenError self.now _tokens.now text.now result }
    {
        let end = part_size(text, furthest_stop(self.forms, text));
        let (word, _) = text.split_at(end);
        match self.find_literal(word, None) {
            Err(furthest) => TokenError::Literal(self.error_at(word, furthest)),
            Ok(_) => TokenError::NotAToken { end },
        }
    }
}

impl Form {
    // Returns how far the form goes, but for a point that is given back, and its candidate, if there is one.
    #[inline(always)]
    fn candidate(&self, back: PointsBack, needs: bool, text: &[u8]) -> (usize, Option<Candidate>)
        ensures some { ForSome result.1 (IsMade back needs text.now self.now) }
        ensures none { IsNone result.1 → NoCandidate back needs text.now self.now }
        ensures over { IsOverFrom back text.now result.0 self.now }
    {
        let opened = self.opening.opened(text);
        if opened < self.opening.size() {
            return (opened, None);
        }
        let (_, inside) = text.split_at(opened);
        let begun = self.syntax.begin(false, inside, true);
        self.candidate_of(back, needs, text, opened, inside, begun)
    }

    // Returns the same where `begun` has been read of what is behind the opening.
    #[inline(always)]
    pub(crate) fn candidate_of(
        &self,
        back: PointsBack,
        needs: bool,
        text: &[u8],
        opened: usize,
        inside: &[u8],
        begun: Begun,
    ) -> (usize, Option<Candidate>)
        requires opened { IsOpenedTo self.now.opening text.now opened }
        requires least { self.now.opening.size ≤ opened }
        requires inside { inside.now ≡ drop opened text.now }
        requires begun { HasBegun (notation_of self.now.syntax) inside.now begun }
        requires summed { IsSummed (raw self.now.syntax.word) inside.now begun }
        ensures some { ForSome result.1 (IsMade back needs text.now self.now) }
        ensures none { IsNone result.1 → NoCandidate back needs text.now self.now }
        ensures over { IsOverFrom back text.now result.0 self.now }
    {
        let size = opened + begun.at.size;
        if begun.complete && self.is_last(inside, begun) && !self.gives_back(back, text, size) {
            let Begun { counts, sums, .. } = begun;
            return (
                size,
                self.suffixed(needs, text, Found { size, counts }, Some(sums)),
            );
        }
        self.any_candidate(back, needs, text)
    }

    // Returns whether it is known that no literal goes on behind what has been read.
    #[inline(always)]
    fn is_last(&self, inside: &[u8], begun: Begun) -> bool
        requires { HasBegun (notation_of self.now.syntax) inside.now begun }
        ensures { IsTrue result → IsWithin (notation_of self.now.syntax) inside.now begun.at.size }
    {
        begun.refused || is_over(self.syntax.grammar(), inside, begun.at.size)
    }

    // Returns the same by all of the form's fronts.
    #[cold]
    #[inline(never)]
    fn any_candidate(
        &self,
        back: PointsBack,
        needs: bool,
        text: &[u8],
    ) -> (usize, Option<Candidate>)
        ensures some { ForSome result.1 (IsMade back needs text.now self.now) }
        ensures none { IsNone result.1 → NoCandidate back needs text.now self.now }
        ensures over { IsOverFrom back text.now result.0 self.now }
    {
        let (stop, found) = self.front(text);
        let reach = self.reach_of(back, text, stop);
        match found {
            None => (reach, None),
            Some(found) => match self.own(back, text, found) {
                None => (reach, None),
                Some(own) => (reach, self.suffixed(needs, text, own, None)),
            },
        }
    }

    // Returns how far the form goes that stops at `stop`, but for a point before it that does not go on.
    fn reach_of(&self, back: PointsBack, text: &[u8], stop: usize) -> usize
        requires { GoesTo text.now self.now stop }
        ensures { IsOverFrom back text.now result self.now }
    {
        match back {
            PointsBack::ToWords if is_decimal_point(self.syntax, byte_before(text, stop)) => stop
                - 1,
            _ => stop,
        }
    }

    // Returns the front `found`, or without its point if that is given back, if it is a literal.
    #[inline(always)]
    fn own(&self, back: PointsBack, text: &[u8], found: Found) -> Option<Found>
        requires { IsFrontIn text.now found self.now }
        ensures some { ForSome result (IsOwn back self.now text.now found.size) }
        ensures none { IsNone result → NoOwn back self.now text.now found.size }
    {
        if self.gives_back(back, text, found.size) {
            let (shorter, _) = text.split_at(found.size - 1);
            whole(self.front_past(shorter, 0), shorter.len())
        } else {
            Some(found)
        }
    }

    // Returns the candidate with the literal `own`, if there is a suffix or none is needed.
    #[inline(always)]
    fn suffixed(
        &self,
        needs: bool,
        text: &[u8],
        own: Found,
        sums: Option<Sums>,
    ) -> Option<Candidate>
        requires { own.size ≤ length text.now }
        ensures candidate { result ≡ suffixed self.now.suffixes needs text.now own sums }
        ensures within { ForSome result (λ c. c.end ≤ length text.now) }
    {
        let Found { size, counts } = own;
        let (_, rest) = text.split_at(size);
        let more = suffix_size(self.suffixes, is_float(counts), rest);
        if needs && more == 0 {
            None
        } else {
            let end = size + more;
            Some(Candidate {
                size,
                counts,
                sums,
                end,
            })
        }
    }

    // Returns whether what is behind the number that ends at `end` may not follow it. No word may follow a decimal point.
    pub(crate) fn is_stopped(&self, tokens: &Tokens, text: &[u8], end: usize) -> bool
        ensures { result ≡ is_stopped tokens.now self.now text.now end }
    {
        let words = tokens.any_word_follows
            && !is_decimal_point(self.syntax, byte_before(text, end));
        is_stopped(words, self.suffixes, text, end)
    }

    // Returns the literal with these parts, and with their sums if they are known.
    #[inline(always)]
    fn literal_of<'t>(&self, text: &'t [u8], counts: [usize; 9], sums: Option<Sums>) -> Literal<'t>
        requires cut { IsCut (notation_of self.now.syntax) text.now (cuts_of counts) }
        requires sums { ForSome sums (AreSums (raw self.now.syntax.word) (cut text.now (cuts_of counts))) }
        ensures { result ≡ record { format = self.now.syntax.word; literal = cut text.now (cuts_of counts); kind = exact; opened = 0 } }
    {
        match sums {
            None => self.syntax.summed(text, counts),
            Some(sums) => {
                self.syntax
                    .grammar()
                    .literal(text, counts, sums, Kind::EXACT)
            }
        }
    }

    // Returns the token with this candidate.
    #[inline(always)]
    pub(crate) fn made<'t>(&self, text: &'t [u8], form: usize, candidate: Candidate) -> Token<'t>
        requires { IsReady self.now text.now candidate }
        ensures form { result.form ≡ form }
        ensures literal { (result.literal.format ≡ self.now.syntax.word) × ReadsIn self.now result.literal.literal (take candidate.size text.now) }
        ensures kind { result.literal.kind ≡ kind_with self.now.suffixes result.suffix.now self.now.kind }
        ensures opened { result.literal.opened ≡ self.now.opening.size }
        ensures suffix { result.suffix.now ≡ take (candidate.end - candidate.size) (drop candidate.size text.now) }
        ensures rest { result.rest.now ≡ drop candidate.end text.now }
    {
        let Candidate {
            size,
            counts,
            sums,
            end,
        } = candidate;
        let (front, behind) = text.split_at(size);
        let (suffix, _) = behind.split_at(end - size);
        let (_, rest) = text.split_at(end);
        let kind = kind_with(self.suffixes, suffix, self.kind);
        let (_, inside) = front.split_at(self.opening.size());
        let literal = self.literal_of(inside, counts, sums);
        Token {
            literal: literal.with_kind(kind).behind(self.opening.size),
            form,
            suffix,
            rest,
        }
    }
}

// Returns whether a candidate is longer than the best one, if there is one.
#[inline(always)]
fn is_longer(best: Option<(usize, Candidate)>, candidate: Candidate) -> bool
    ensures { result ≡ is_longer best candidate }
{
    match best {
        None => true,
        Some((_, other)) => is_shorter(other, candidate),
    }
}

// Returns the larger of two sizes, of which the second one counts only behind a candidate that is clear.
#[inline(always)]
const fn past_of(past: usize, clear: bool, size: usize) -> usize
    ensures { (result ≡ past) ⊎ (IsTrue clear × (past < size) × (result ≡ size)) }
{
    if clear && past < size { size } else { past }
}

// Returns whether a candidate is shorter than another.
#[inline(always)]
fn is_shorter(one: Candidate, other: Candidate) -> bool
    ensures { result ≡ is_shorter one.size one.end other.size other.end }
{
    one.end < other.end || (one.end == other.end && one.size < other.size)
}

// Returns how far the form goes that goes furthest in `text`.
fn furthest_stop(forms: &[Form], text: &[u8]) -> usize
    requires { 0 < length forms.now }
    ensures { (index : ℕ) × IsGreatest (GoesTo text.now) forms.now index result }
{
    let mut furthest = None;
    let mut form = 0;
    while form < forms.len() {
        furthest = further(furthest, form, forms[form].stop(text).size);
        form += 1;
    }
    match furthest {
        Some((_, size)) => size,
        None => 0,
    }
}

// Returns the number of bytes up to the end of the word at `stop`, and at least 1 unless `text` is empty.
fn part_size(text: &[u8], stop: usize) -> usize
    requires { stop ≤ length text.now }
    ensures size { result ≡ part_size text.now stop }
    ensures within { result ≤ length text.now }
{
    let (_, rest) = text.split_at(stop);
    let end = stop + word_size(&[], rest);
    if end == 0 && text.len() > 0 { 1 } else { end }
}

// Returns which of two forms goes further, the first of equals.
#[inline(always)]
const fn further(
    furthest: Option<(usize, usize)>,
    form: usize,
    size: usize,
) -> Option<(usize, usize)>
    ensures { result ≡ further furthest form size }
{
    match furthest {
        Some((_, best)) if best >= size => furthest,
        _ => Some((form, size)),
    }
}

// Returns the front `found` if it has `size` bytes.
#[inline(always)]
fn whole(found: Option<Found>, size: usize) -> Option<Found>
    ensures { result ≡ whole found size }
{
    match found {
        Some(found) if found.size == size => Some(found),
        _ => None,
    }
}

// Returns whether a literal of one of the forms goes on behind `end`.
#[cold]
#[tactic(auto, using(crate::proofs::FormLemmas::at_index, crate::proofs::TokenLemmas::ahead, crate::proofs::TokenLemmas::not_ahead))]
fn is_one_ahead(forms: &[Form], back: PointsBack, text: &[u8], end: usize) -> bool
    ensures ahead { IsTrue result → (i : ℕ) × IsSomeAnd (slice_get forms.now i) (IsAhead back text.now end) }
    ensures over { result ≡ false → All (λ form. IsAhead back text.now end form → ⊥) forms.now }
{
    let mut form = 0;
    while form < forms.len() {
        let it = &forms[form];
        let stop = it.stop(text);
        if goes_on(it.syntax, back, text, end, stop.size) {
            return true;
        }
        form += 1;
    }
    false
}

// Returns whether a literal that goes up to `stop` goes on behind `end`.
fn goes_on(syntax: Syntax, back: PointsBack, text: &[u8], end: usize, stop: usize) -> bool
    ensures { result ≡ goes_on back (notation_of syntax) text.now end stop }
{
    end < stop && !(is_alone(back, text, end, stop) && is_decimal_point(syntax, byte_at(text, end)))
}

// Returns whether no byte of a literal that goes up to `stop` is behind the point at `end`, or only one that begins a name.
const fn is_alone(back: PointsBack, text: &[u8], end: usize, stop: usize) -> bool
    requires { end < stop }
    ensures { result ≡ is_alone back text.now end stop }
{
    match back {
        PointsBack::Never => false,
        PointsBack::ToWords => stop == end + 1,
        PointsBack::ToLetters => {
            stop == end + 1 || (stop - 1 == end + 1 && begins_name(text, end + 1))
        }
    }
}

// Returns whether a letter is at `index`, and another one or a point behind it.
const fn begins_name(text: &[u8], index: usize) -> bool
    ensures { result ≡ (is_in is_ascii_alphabetic (slice_get text.now index)
        && is_in (λ byte. (byte == 46) || is_ascii_alphabetic byte) (slice_get text.now (index + 1))) }
{
    match byte_at(text, index) {
        None => false,
        Some(letter) => {
            letter.is_ascii_alphabetic()
                && matches!(byte_after(text, index), Some(byte) if byte == b'.' || byte.is_ascii_alphabetic())
        }
    }
}

// Returns whether a digit is behind a literal of `size` bytes that has no suffix, so that the number ends where the literal does.
fn digit_follows(text: &[u8], size: usize, end: usize) -> bool
    ensures { result ≡ ((size == end) && is_in is_ascii_digit (slice_get text.now size)) }
{
    size == end && has_digit_at(text, size)
}

// Returns why what is behind the number with this candidate may not follow it: a word, or otherwise a byte that a stop names.
fn stopped(it: &Form, text: &[u8], form: usize, candidate: Candidate) -> TokenError
    ensures { IsEnd it.now text.now form candidate result }
{
    let Candidate {
        size,
        counts,
        end,
        ..
    } = candidate;
    let behind = stop_end(more_of(it.suffixes), text, end);
    if has_word_byte(text, end) {
        TokenError::UnknownSuffix {
            form,
            start: size,
            end: behind,
            suffixes: suffix_words(it.suffixes, is_float(counts)),
        }
    } else {
        TokenError::Stopped {
            form,
            start: end,
            end: behind,
        }
    }
}

// Returns the index behind the byte at `index` and the word that follows it, or `index` at the end of `text`.
fn stop_end(more: &[u8], text: &[u8], index: usize) -> usize
    ensures { result ≡ stop_end more.now text.now index }
{
    if index < text.len() {
        let (_, rest) = text.split_at(index + 1);
        index + 1 + word_size(more, rest)
    } else {
        index
    }
}
