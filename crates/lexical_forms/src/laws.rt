//! Theorems on tokens. Each is a clause of a function with an empty body.

ghost use Rattle.std.specs.Prelude.{◌≡◌, ◌++◌, [], ℕ, List};
ghost use Rattle.lexical_forms.specs.Additions.Token.{AreBare};
ghost use Rattle.lexical_forms.specs.FormList.{FormList};
ghost use Rattle.lexical_forms.specs.Forms.{IsFirst};
ghost use Rattle.lexical_forms.specs.Token.{IsToken};
ghost use Rattle.lexical_forms.specs.declared.list.Tokens.{Tokens};
ghost use Rattle.lexical_forms.specs.declared.token.Token.{Token};
ghost use Rattle.lexical_literal.specs.Literal.{text_of};

/// States what the parts of a token are, and which tokens are a whole text.
pub fn token_facts()
    // If no form has an opening, the literal, the suffix and the rest are the text.
    ensures parts { (list : FormList) → (t : Tokens) → (text : List ℕ) → (token : Token) → IsToken list t text token → AreBare list t
        → text ≡ text_of token.literal.literal ++ (token.suffix.now ++ token.rest.now) }

    // A token without a suffix and a rest is the literal that `read` takes the text for.
    ensures whole { (list : FormList) → (t : Tokens) → (text : List ℕ) → (token : Token) → IsToken list t text token
        → token.suffix.now ≡ [] → token.rest.now ≡ [] → IsFirst list.forms text token.form token.literal }
{}
