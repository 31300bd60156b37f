//! A caller that replaces each stored word by its normal form, as a reader of configurations does.

ghost use Rattle.std.specs.Prelude.{◌≡◌, ◌≢◌, ◌↔◌, ℕ, Err, IfErr, IfOk, IsErr};
ghost use Rattle.std.specs.Result.{OkIff};
ghost use Rattle.lexical_util.specs.Record.{raw};
ghost use Rattle.lexical_util.specs.Rules.{Lawful, IsErrorOf};
ghost use Rattle.lexical_util.specs.NormalForm.{normal_form_of, SameFormat, IsNormal};

use lexical_util::edits::migrate;
use lexical_util::error::Error;
use lexical_util::laws;

/// Returns the word that replaces the stored word `word`: its normal form. Equivalent words have the same normal form.
///
/// # Errors
///
/// If the normal form is not lawful, returns the error of the first rule that it breaks.
pub fn keep(word: u128) -> Result<u128, Error>
    ensures value { OkIff result (Lawful (normal_form_of word)) (normal_form_of word) }
    ensures lawful { IfOk result Lawful }
    ensures normal { IfOk result IsNormal }
    ensures same { IfOk result (λ kept. SameFormat (raw word) (raw kept)) }

    // Every equivalent word has the same normal form, so the same word replaces it.
    ensures one { (other : ℕ) → SameFormat (raw word) (raw other) → normal_form_of other ≡ normal_form_of word }
    ensures error { IfErr result (IsErrorOf (normal_form_of word)) }
    ensures not_success { result ≢ Err Error.Success }

    // A word is refused if and only if no equivalent word is lawful.
    ensures refused { IsErr result ↔ ((other : ℕ) → SameFormat (raw word) (raw other) → Lawful other → ⊥) }
{
    laws::normal_form_facts();
    migrate(word)
}
