//! How the parts of a literal are read, one after another, and their digits summed up.
//!
//! Reading may stop anywhere here: where it stops, one step decides whether it goes on. If `decimal` is true, all digits are
//! decimal, which takes less time where the compiler knows it. Then reading also stops behind a leading zero, and where the digits
//! of a part are absent, so that fewer paths join.

ghost use Rattle.std.specs.Prelude.{◌≡◌, ◌<◌, ◌≤◌, ◌+◌, ◌-◌, ◌*◌, ◌%◌, ◌^◌, ◌∷◌, [], false, true, IfSome, IsNone, IsTrue, get_or, length, nat_lt, take, ◌&&◌};
ghost use Rattle.lexical_util.specs.Record.{raw};
ghost use Rattle.lexical_literal.specs.Literal.{Literal, text_of};
ghost use Rattle.lexical_literal.specs.Notation.{notation_of, radix_of};
ghost use Rattle.lexical_literal.specs.Additions.Stop.{HasBegun, HasFound, IsMeasured};
ghost use Rattle.lexical_literal.specs.Additions.Scan.{HasSizes, IsAt, IsBegun, IsDecimal, IsDigitAt, IsOpened, IsOver, IsPassed, IsReady, IsRefused};
ghost use Rattle.lexical_literal.specs.Additions.Scan.{IsRunOn, IsSign, IsUsual, at_stage, behind_sign, counts_of, has_first, is_first, is_free, may_read};
ghost use Rattle.lexical_literal.specs.Additions.GroupSize.{steps_of};
ghost use Rattle.lexical_literal.specs.Additions.Literal.{AreSums, IsMantissa, IsSummed, cut};
ghost use Rattle.lexical_literal.specs.Additions.Step.{HasLengths, after_point, awaits_integer, cuts_of, has_digit, is_bare, is_fresh, is_run};
ghost use Rattle.lexical_literal.specs.Additions.Step.{is_signed, part_of};
ghost use Rattle.lexical_literal.specs.declared.syntax.Condition.TheVariants as conditions;

use crate::group_size::{group_after, group_allows, is_grouped};
use crate::literal::{NOTHING, Sum, Sums};
use crate::step::{
    INTERNAL, Stage, Summary, after_point, allows_minus, allows_plus, awaits_integer, digits_of,
    has_digit, has_place, is_complete, is_digit, is_exponent_character, is_point, is_prefix,
    is_run, is_separator, is_signed, is_suffix, may_follow, radix_of, takes,
};
use crate::stop::{BEGIN, Begun, Stopped};
use crate::syntax::{Condition, Grammar, Syntax, has_sizes};
use lexical_base::digit::{char_to_digit, char_to_digit_const};
use lexical_util::format::{Part, Role};

// What the parts are read into: the index behind the digits that have been read, their stage, and their sum, where those of the
// fraction follow those of the integer; the lengths of the parts up to the fraction, and the number of the digits of the fraction.
#[derive(Clone, Copy)]
pub(crate) struct Reading {
    pub(crate) size: usize,
    pub(crate) stage: Stage,
    pub(crate) sum: Sum,
    pub(crate) sign: usize,
    pub(crate) prefix: usize,
    pub(crate) integer: usize,
    pub(crate) point: usize,
    pub(crate) fraction: usize,
    pub(crate) places: usize,
}

// Returns where `size` bytes have been read, of which the last is no separator and no suffix.
#[inline(always)]
const fn at_stage(size: usize, stage: Stage) -> Stopped
    ensures { result ≡ at_stage size stage }
{
    Stopped {
        size,
        read: Summary {
            stage,
            gap: false,
            ended: false,
        },
    }
}

// Returns that the parts are read up to `at`, which no literal is said to end at.
#[inline(always)]
const fn unfinished(_grammar: Grammar, _text: &[u8], at: Stopped, refused: bool) -> Begun
    requires begun { IsBegun (steps_of _grammar) _text.now at }
    requires refused { IsTrue refused → IsRefused (steps_of _grammar) _text.now at }
    ensures found { HasFound (steps_of _grammar) _text.now result }
    ensures summed { IsSummed (raw _grammar.word) _text.now result }
{
    Begun {
        at,
        counts: [0; 9],
        sums: Sums {
            mantissa: NOTHING,
            places: 0,
            exponent: NOTHING,
        },
        complete: false,
        refused,
    }
}

// Returns the length of the sign of the mantissa, or of the exponent, and the stage behind it, or `None` if one is required that
// does not follow.
#[inline(always)]
const fn sign(grammar: Grammar, text: &[u8], part: Part, size: usize) -> Option<(usize, Stage)>
    requires ready { IsReady (steps_of grammar) }
    requires within { size ≤ length text.now }
    ensures sign { IfSome result (λ it. IsSign (steps_of grammar) text.now part size it.0) }
    ensures stage { IfSome result (λ it. it.1 ≡ behind_sign part it.0) }
{
    let (before, behind) = match part {
        Part::Exponent => (Stage::Mark, Stage::Signed),
        _ => (Stage::Start, Stage::Empty),
    };
    // Digits and letters are above the signs.
    if size < text.len() && text[size] <= b'-' {
        let plus = text[size] == b'+';
        let minus = text[size] == b'-';
        if (plus & allows_plus(grammar, part)) | (minus & allows_minus(grammar, part)) {
            return Some((1, behind));
        }
    }
    if is_signed(grammar, part, before) {
        Some((0, before))
    } else {
        None
    }
}

// Returns the value of the digit of `part` at `index`, if there is one.
#[inline(always)]
const fn value_at(
    grammar: Grammar,
    decimal: bool,
    text: &[u8],
    part: Part,
    index: usize,
) -> Option<u32>
    requires decimal { IsTrue decimal → IsDecimal (raw grammar.word) }
    ensures some { IfSome result (λ value. IsDigitAt (radix_of (raw grammar.word) part) text.now index value) }
    ensures none { IsNone result → index < length text.now → (steps_of grammar).digit part (get_or text.now index 0) ≡ false }
{
    if index >= text.len() {
        None
    } else if decimal {
        char_to_digit_const(text[index], 10)
    } else {
        char_to_digit(text[index], radix_of(grammar, part))
    }
}

// Returns the run with one more digit.
#[inline(always)]
const fn with_digit(grammar: Grammar, part: Part, run: Reading, value: u32) -> Reading
    requires size { run.size + 1 < 2 ^ 64 }
    requires digits { run.sum.digits + 1 < 2 ^ 64 }
    ensures { result ≡ record run {
      size = run.size + 1;
      sum = record {
        digits = run.sum.digits + 1;
        value = (run.sum.value * radix_of (raw grammar.word) part % 2 ^ 64 + value) % 2 ^ 64;
      };
    } }
{
    let radix = radix_of(grammar, part) as u64;
    Reading {
        size: run.size + 1,
        sum: Sum {
            digits: run.sum.digits + 1,
            value: run.sum.value.wrapping_mul(radix).wrapping_add(value as u64),
        },
        ..run
    }
}

// Reads the digits that follow others, and separators between them. They do not change the stage.
#[inline(always)]
const fn more_digits(
    grammar: Grammar,
    decimal: bool,
    text: &[u8],
    part: Part,
    begun: Reading,
) -> Reading
    requires decimal { IsTrue decimal → IsDecimal (raw grammar.word) }
    requires ready { IsReady (steps_of grammar) }
    requires within { begun.size ≤ length text.now }
    requires digits { begun.sum.digits ≤ begun.size }
    requires run { is_run begun.stage ≡ true }
    requires part { part_of begun.stage ≡ part }
    ensures digits { result.sum.digits ≤ result.size }
    ensures stage { result.stage ≡ begun.stage }
    ensures run { IsRunOn (steps_of grammar) (radix_of (raw grammar.word) part) text.now part begun result }
    ensures over { IsOver (steps_of grammar) text.now part result }
{
    let radix = radix_of(grammar, part) as u64;
    let mut size = begun.size;
    let mut separators = 0;
    let mut value = begun.sum.value;
    loop {
        if let Some(digit) = value_at(grammar, decimal, text, part, size) {
            value = value.wrapping_mul(radix).wrapping_add(digit as u64);
            size += 1;
            continue;
        }
        if size == text.len()
            || !is_separator(grammar, text[size])
            || !has_place(grammar, part, INTERNAL)
        {
            break;
        }
        let Some(digit) = value_at(grammar, decimal, text, part, size + 1) else {
            break;
        };
        value = value.wrapping_mul(radix).wrapping_add(digit as u64);
        size += 2;
        separators += 1;
    }
    let digits = begun.sum.digits + (size - begun.size - separators);
    let sum = Sum { digits, value };
    Reading { size, sum, ..begun }
}

// Reads the digits of `part` that follow, and separators between them.
#[inline(always)]
const fn digits(grammar: Grammar, decimal: bool, text: &[u8], part: Part, begun: Reading) -> Reading
    requires decimal { IsTrue decimal → IsDecimal (raw grammar.word) }
    requires ready { IsReady (steps_of grammar) }
    requires within { begun.size ≤ length text.now }
    requires digits { begun.sum.digits ≤ begun.size }
    requires none { has_digit begun.stage ≡ false }
    requires signed { is_signed (steps_of grammar) part begun.stage ≡ true }
    requires part { part_of begun.stage ≡ part }
    requires first { may_read (steps_of grammar) text.now begun.size begun.stage ≡ true }
    ensures free { is_free (steps_of grammar) result.stage ≡ true }
    ensures run { IsRunOn (steps_of grammar) (radix_of (raw grammar.word) part) text.now part begun result }
    ensures digits { result.sum.digits ≤ result.size }
    ensures over { IsOver (steps_of grammar) text.now part result }
    ensures part { part_of result.stage ≡ part }
{
    let Some(value) = value_at(grammar, decimal, text, part, begun.size) else {
        return begun;
    };
    let one = with_digit(grammar, part, begun, value);
    if text[begun.size] != b'0' || !awaits_integer(begun.stage) {
        let stage = digits_of(part);
        return more_digits(grammar, decimal, text, part, Reading { stage, ..one });
    }
    // A leading zero.
    match value_at(grammar, decimal, text, part, one.size) {
        Some(value) if !decimal && may_follow(grammar, Stage::Bare) => {
            let two = with_digit(grammar, part, one, value);
            let stage = Stage::Led;
            more_digits(grammar, decimal, text, part, Reading { stage, ..two })
        }
        _ => Reading {
            stage: Stage::Bare,
            ..one
        },
    }
}

// Reads a front of `text` with which some literal begins. Unless `fronts` is true, a front that is a literal, but not all of
// `text`, can have `complete` false, which takes less time.
#[inline(always)]
const fn scan(grammar: Grammar, decimal: bool, text: &[u8], fronts: bool) -> Begun
    requires decimal { IsTrue decimal → IsDecimal (raw grammar.word) }
    requires ready { IsReady (steps_of grammar) }
    ensures found { HasFound (steps_of grammar) text.now result }
    ensures summed { IsSummed (raw grammar.word) text.now result }
{
    let Some((sign, before)) = sign(grammar, text, Part::Integer, 0) else {
        return unfinished(grammar, text, BEGIN, false);
    };
    let Some((prefix, stage)) = open(grammar, decimal, text, sign, before) else {
        return without_prefix(grammar, text, sign, before);
    };
    let from = sign + prefix;
    let begun = Reading {
        size: from,
        stage,
        sum: NOTHING,
        sign,
        prefix,
        integer: 0,
        point: 0,
        fraction: 0,
        places: 0,
    };
    let run = digits(grammar, decimal, text, Part::Integer, begun);
    if decimal && !has_digit(run.stage) {
        return unfinished(grammar, text, at_stage(run.size, run.stage), false);
    }
    let read = Reading {
        size: run.size,
        stage: run.stage,
        sum: run.sum,
        integer: run.size - from,
        ..begun
    };
    let at = at_stage(run.size, run.stage);
    if run.size < text.len()
        && is_point(grammar, text[run.size])
        && takes(grammar, at.read, false, Role::Point)
    {
        return fraction(grammar, decimal, text, fronts, read);
    }
    behind_mantissa(grammar, decimal, text, fronts, read)
}

#[doc(hidden)]
impl Begun {
    // Returns whether the parts are those of all of `text`.
    #[inline(always)]
    pub const fn covers(self, _syntax: &Syntax, text: &[u8]) -> bool
        requires { HasBegun (notation_of _syntax.now) text.now self }
        ensures measured { IsTrue result → IsMeasured (notation_of _syntax.now) text.now self.counts }
        ensures complete { IsTrue result → IsTrue self.complete }
    {
        self.complete && self.at.size == text.len()
    }
}

#[doc(hidden)]
impl Syntax {
    // Reads a front of `text` with which some literal begins. Unless `fronts` is true, a front that is a literal, but not all of
    // `text`, can have `complete` false, which takes less time.
    #[inline(always)]
    pub fn begin(&self, decimal: bool, text: &[u8], fronts: bool) -> Begun
        requires radix { IsTrue decimal → IsDecimal (raw self.now.word) }
        requires usual { IsTrue decimal → IsUsual self.now }
        ensures found { HasBegun (notation_of self.now) text.now result }
        ensures summed { IsSummed (raw self.now.word) text.now result }
    {
        if decimal {
            return scan(self.usual_grammar(), decimal, text, fronts);
        }
        let grammar = self.grammar();
        let begun = scan(grammar, decimal, text, fronts);
        if has_sizes(grammar) {
            sized(grammar, text, begun)
        } else {
            begun
        }
    }
}

// Returns the integer of the literal that has been read.
#[inline(always)]
fn integer_of(text: &[u8], begun: Begun) -> &[u8]
    requires within { begun.at.size ≤ length text.now }
    requires literal { (l : Literal) × (take begun.at.size text.now ≡ text_of l) × HasLengths l (cuts_of begun.counts) }
    ensures { (l : Literal) → take begun.at.size text.now ≡ text_of l → HasLengths l (cuts_of begun.counts) → result.now ≡ l.integer }
{
    let (front, _) = text.split_at(begun.at.size);
    let (_, behind) = front.split_at(begun.counts[0] + begun.counts[1]);
    behind.split_at(begun.counts[2]).0
}

// Returns what has been read without regard to sizes of groups, or that nothing has if a group has not the right size.
#[inline(always)]
fn sized(grammar: Grammar, text: &[u8], begun: Begun) -> Begun
    requires ready { IsReady (steps_of grammar) }
    requires sizes { HasSizes (notation_of grammar) }
    requires found { HasFound (steps_of grammar) text.now begun }
    requires summed { IsSummed (raw grammar.word) text.now begun }
    ensures begun { HasBegun (notation_of grammar) text.now result }
    ensures summed { IsSummed (raw grammar.word) text.now result }
{
    if begun.complete && is_grouped(grammar, integer_of(text, begun)) {
        return begun;
    }
    match group_after(grammar, text, begun.at.size) {
        Some(group) if !begun.complete || group_allows(grammar, group, None) => begun,
        _ => Begun {
            at: BEGIN,
            complete: false,
            refused: false,
            ..begun
        },
    }
}

// Returns whether no condition is on the first digit, or one follows that they allow.
#[inline(always)]
const fn has_first(grammar: Grammar, text: &[u8], size: usize) -> bool
    ensures { result ≡ has_first (steps_of grammar) text.now size }
{
    let needs_zero = grammar.conditions().has(Condition::LeadingZero);
    let needs_decimal = grammar.conditions().has(Condition::DecimalFirstDigit);
    (!needs_zero && !needs_decimal) || is_first(grammar, text, size)
}

// Returns whether a digit follows that the conditions on the first digit allow. It is not inlined, so that reading without them
// takes no longer.
#[cold]
const fn is_first(grammar: Grammar, text: &[u8], size: usize) -> bool
    ensures { result ≡ (nat_lt size (length text.now) && ((steps_of grammar).digit Part.Integer (get_or text.now size 0)
        && is_first (steps_of grammar) (get_or text.now size 0))) }
{
    size < text.len()
        && is_digit(grammar, Part::Integer, text[size])
        && (!grammar.conditions().has(Condition::LeadingZero) || text[size] == b'0')
        && (!grammar.conditions().has(Condition::DecimalFirstDigit) || text[size] <= b'9')
}

// Returns the length of the base prefix, with its zero, and the stage behind it, or `None` if a base prefix or a first digit is
// required that does not follow. None is read if `decimal` is true.
#[tactic(auto, using(crate::proofs::JoinLemmas::opened))]
#[inline(always)]
const fn open(
    grammar: Grammar,
    decimal: bool,
    text: &[u8],
    sign: usize,
    stage: Stage,
) -> Option<(usize, Stage)>
    requires ready { IsReady (steps_of grammar) }
    requires sign { IsSign (steps_of grammar) text.now Part.Integer 0 sign }
    requires stage { stage ≡ behind_sign Part.Integer sign }
    ensures { IfSome result (λ it. IsOpened (steps_of grammar) text.now sign it.0 it.1) }
{
    if !decimal
        && sign + 1 < text.len()
        && text[sign] == b'0'
        && is_prefix(grammar, text[sign + 1])
    {
        Some((2, Stage::Prefixed))
    } else if !grammar.conditions().has(Condition::BasePrefix) && has_first(grammar, text, sign) {
        Some((0, stage))
    } else {
        None
    }
}

// Returns whether a byte follows that is no base prefix, and one is required.
#[inline(always)]
const fn misses_prefix(grammar: Grammar, text: &[u8], size: usize) -> bool
    ensures { IsTrue result → (size < length text.now) × ((steps_of grammar).condition conditions.BasePrefix ≡ true)
        × ((steps_of grammar).prefix (get_or text.now size 0) ≡ false) }
{
    size < text.len()
        && grammar.conditions().has(Condition::BasePrefix)
        && !is_prefix(grammar, text[size])
}

// Reads the zero with which a required base prefix begins, if it follows.
#[tactic(auto, using(crate::proofs::JoinLemmas::zero_only))]
#[inline(always)]
const fn without_prefix(grammar: Grammar, text: &[u8], sign: usize, stage: Stage) -> Begun
    requires ready { IsReady (steps_of grammar) }
    requires sign { IsSign (steps_of grammar) text.now Part.Integer 0 sign }
    requires stage { stage ≡ behind_sign Part.Integer sign }
    ensures found { HasFound (steps_of grammar) text.now result }
    ensures summed { IsSummed (raw grammar.word) text.now result }
{
    if sign < text.len() && text[sign] == b'0' {
        unfinished(
            grammar,
            text,
            at_stage(sign + 1, Stage::Bare),
            misses_prefix(grammar, text, sign + 1),
        )
    } else {
        unfinished(grammar, text, at_stage(sign, stage), false)
    }
}

// Reads the fraction behind its decimal point, and what follows it.
#[inline(always)]
const fn fraction(
    grammar: Grammar,
    decimal: bool,
    text: &[u8],
    fronts: bool,
    integer: Reading,
) -> Begun
    requires decimal { IsTrue decimal → IsDecimal (raw grammar.word) }
    requires ready { IsReady (steps_of grammar) }
    requires inside { integer.size < length text.now }
    requires at { IsAt (steps_of grammar) text.now (at_stage (integer.size + 1) (after_point (has_digit integer.stage)))
        (cuts_of (counts_of (record integer { point = 1 }) 0 0 0 0)) }
    requires none { (integer.point ≡ 0) × (integer.fraction ≡ 0) }
    requires digits { integer.sum.digits ≤ integer.size }
    requires mantissa { IsMantissa (raw grammar.word) text.now integer }
    ensures found { HasFound (steps_of grammar) text.now result }
    ensures summed { IsSummed (raw grammar.word) text.now result }
{
    let from = integer.size + 1;
    let stage = after_point(integer.stage);
    let begun = Reading {
        size: from,
        stage,
        ..integer
    };
    let run = digits(grammar, decimal, text, Part::Fraction, begun);
    if decimal && !fronts && !has_digit(run.stage) {
        return unfinished(grammar, text, at_stage(run.size, run.stage), false);
    }
    let read = Reading {
        size: run.size,
        stage: run.stage,
        sum: run.sum,
        point: 1,
        fraction: run.size - from,
        places: run.sum.digits - integer.sum.digits,
        ..integer
    };
    behind_mantissa(grammar, decimal, text, fronts, read)
}

// Reads what follows the digits of the mantissa, an exponent or the suffix.
#[inline(always)]
const fn behind_mantissa(
    grammar: Grammar,
    decimal: bool,
    text: &[u8],
    fronts: bool,
    mantissa: Reading,
) -> Begun
    requires decimal { IsTrue decimal → IsDecimal (raw grammar.word) }
    requires ready { IsReady (steps_of grammar) }
    requires at { IsAt (steps_of grammar) text.now (at_stage mantissa.size mantissa.stage) (cuts_of (counts_of mantissa 0 0 0 0)) }
    requires free { is_free (steps_of grammar) mantissa.stage ≡ true }
    requires over { IsOver (steps_of grammar) text.now (part_of mantissa.stage) mantissa }
    requires point { IsPassed (steps_of grammar) text.now (at_stage mantissa.size mantissa.stage) Role.Point }
    requires mantissa { IsMantissa (raw grammar.word) text.now mantissa }
    ensures found { HasFound (steps_of grammar) text.now result }
    ensures summed { IsSummed (raw grammar.word) text.now result }
{
    let at = at_stage(mantissa.size, mantissa.stage);
    if mantissa.size < text.len()
        && is_exponent_character(grammar, text[mantissa.size])
        && takes(grammar, at.read, false, Role::Exponent)
    {
        exponent(grammar, decimal, text, fronts, mantissa)
    } else {
        suffix(grammar, text, fronts, at, mantissa, [0; 3], NOTHING)
    }
}

// Reads the exponent behind its character, and what follows it.
#[inline(always)]
const fn exponent(
    grammar: Grammar,
    decimal: bool,
    text: &[u8],
    fronts: bool,
    mantissa: Reading,
) -> Begun
    requires decimal { IsTrue decimal → IsDecimal (raw grammar.word) }
    requires ready { IsReady (steps_of grammar) }
    requires within { mantissa.size < length text.now }
    requires at { IsAt (steps_of grammar) text.now (at_stage (mantissa.size + 1) Stage.Mark) (cuts_of (counts_of mantissa 1 0 0 0)) }
    requires mantissa { IsMantissa (raw grammar.word) text.now mantissa }
    ensures found { HasFound (steps_of grammar) text.now result }
    ensures summed { IsSummed (raw grammar.word) text.now result }
{
    let size = mantissa.size + 1;
    let Some((sign, stage)) = sign(grammar, text, Part::Exponent, size) else {
        return unfinished(grammar, text, at_stage(size, Stage::Mark), false);
    };
    let from = size + sign;
    let begun = Reading {
        size: from,
        stage,
        sum: NOTHING,
        ..mantissa
    };
    let run = digits(grammar, decimal, text, Part::Exponent, begun);
    if decimal && !has_digit(run.stage) {
        return unfinished(grammar, text, at_stage(run.size, run.stage), false);
    }
    let at = at_stage(run.size, run.stage);
    let scale = [1, sign, run.size - from];
    suffix(grammar, text, fronts, at, mantissa, scale, run.sum)
}

// Returns whether `byte` is neither a digit nor a separator, and no base prefix, and follows digits.
#[inline(always)]
const fn refuses_next(grammar: Grammar, stage: Stage, byte: u8) -> bool
    requires { is_run stage ≡ true → (steps_of grammar).digit (part_of stage) byte ≡ false }
    ensures digit { IsTrue result → (steps_of grammar).digit (part_of stage) byte ≡ false }
    ensures separator { IsTrue result → (steps_of grammar).separator byte ≡ false }
    ensures fresh { IsTrue result → is_fresh stage ≡ false }
    ensures prefix { IsTrue result → is_bare stage ≡ true → (steps_of grammar).prefix byte ≡ false }
{
    if is_separator(grammar, byte) {
        return false;
    }
    match stage {
        Stage::Bare => { !is_digit(grammar, Part::Integer, byte) && !is_prefix(grammar, byte) }
        Stage::Point => !is_digit(grammar, Part::Fraction, byte),
        _ => is_run(stage),
    }
}

// Returns whether a byte follows that is refused, if it is known at once.
#[inline(always)]
const fn refuses(grammar: Grammar, text: &[u8], at: Stopped) -> bool
    requires over { is_run at.read.stage ≡ true → at.size < length text.now
        → (steps_of grammar).digit (part_of at.read.stage) (get_or text.now at.size 0) ≡ false }
    requires point { IsPassed (steps_of grammar) text.now at Role.Point }
    requires exponent { IsPassed (steps_of grammar) text.now at Role.Exponent }
    requires suffix { IsPassed (steps_of grammar) text.now at Role.Suffix }
    ensures { IsTrue result → IsRefused (steps_of grammar) text.now at }
{
    at.size < text.len() && refuses_next(grammar, at.read.stage, text[at.size])
}

// Reads the suffix, if it follows.
#[inline(always)]
const fn suffix(
    grammar: Grammar,
    text: &[u8],
    fronts: bool,
    at: Stopped,
    mantissa: Reading,
    scale: [usize; 3],
    exponent: Sum,
) -> Begun
    requires ready { IsReady (steps_of grammar) }
    requires at { IsAt (steps_of grammar) text.now at (cuts_of (counts_of mantissa (get_or scale 0 0) (get_or scale 1 0) (get_or scale 2 0) 0)) }
    requires going { at.read.ended ≡ false }
    requires free { is_free (steps_of grammar) at.read.stage ≡ true }
    requires over { is_run at.read.stage ≡ true → at.size < length text.now
        → (steps_of grammar).digit (part_of at.read.stage) (get_or text.now at.size 0) ≡ false }
    requires point { IsPassed (steps_of grammar) text.now at Role.Point }
    requires exponent { IsPassed (steps_of grammar) text.now at Role.Exponent }
    requires sums { AreSums (raw grammar.word)
        (cut text.now (cuts_of (counts_of mantissa (get_or scale 0 0) (get_or scale 1 0) (get_or scale 2 0) 0)))
        (record { mantissa = mantissa.sum; places = mantissa.places; exponent = exponent }) }
    ensures found { HasFound (steps_of grammar) text.now result }
    ensures summed { IsSummed (raw grammar.word) text.now result }
{
    let Stopped { size, read } = at;
    let (mut at, mut suffix, mut refused) = (at, 0, false);
    if size < text.len()
        && is_suffix(grammar, text[size])
        && takes(grammar, read, false, Role::Suffix)
    {
        at = Stopped {
            size: size + 1,
            read: Summary {
                ended: true,
                ..read
            },
        };
        suffix = 1;
    } else {
        refused = refuses(grammar, text, at);
        if !fronts && size < text.len() {
            return unfinished(grammar, text, at, refused);
        }
    }
    Begun {
        at,
        counts: [
            mantissa.sign,
            mantissa.prefix,
            mantissa.integer,
            mantissa.point,
            mantissa.fraction,
            scale[0],
            scale[1],
            scale[2],
            suffix,
        ],
        sums: Sums {
            mantissa: mantissa.sum,
            places: mantissa.places,
            exponent,
        },
        complete: is_complete(grammar, at.read),
        refused,
    }
}
