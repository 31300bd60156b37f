//! Format words as text: `0x` and hexadecimal digits.

ghost use Rattle.std.specs.Prelude.{◌≡◌, ℕ, List};
ghost use Rattle.std.specs.Option.{SomeIff};
ghost use Rattle.lexical_util.specs.Additions.WordText.{IsWordText, IsPrintedForm, hex, printed};

use lexical_util::word_text;

/// Parses `text` as a format word. Returns `None` unless `text` is `0x` and 1 to 32 hexadecimal digits of either case.
pub fn read_word(text: &str) -> Option<u128>
    ensures { SomeIff result (IsWordText text.now) (hex text.now) }
{
    word_text::parse_word(text).ok()
}

/// Returns the text of `word` as it is printed: `0x` and 32 uppercase hexadecimal digits. [`read_word`] returns `word`
/// for this text.
pub fn word_text(word: u128) -> [u8; 34]
    ensures text { result ≡ printed word }
    ensures form { IsPrintedForm result }
    ensures value { hex result ≡ word }
    ensures read_back { IsWordText result }

    // No other text of this form has the value `word`.
    ensures unique { (text : List ℕ) → IsPrintedForm text → hex text ≡ word → text ≡ result }
{
    word_text::word_text(word)
}
