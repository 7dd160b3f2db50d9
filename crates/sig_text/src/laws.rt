//! Laws about the definitions that the contracts cite. They have no code.

ghost use Rattle.std.specs.Prelude.{◌≡◌, ◌⊎◌, ℕ, Bool, List};
ghost use Rattle.sig_text.specs.declared.token.Token.{Token};
ghost use Rattle.sig_text.specs.declared.fault.LexFault.{LexFault};
ghost use Rattle.sig_text.specs.Tokens.{IsTokens, IsLexFault};

/// A text has a list of tokens or a first fault, only one of both, and only one.
pub fn reading_is_unique()
    ensures some { (text : List ℕ) (comments : Bool) → ((list : List Token) × IsTokens text comments list)
        ⊎ ((fault : LexFault) × IsLexFault text comments fault) }
    ensures list { (text : List ℕ) (comments : Bool) (a b : List Token) →
        IsTokens text comments a → IsTokens text comments b → a ≡ b }
    ensures fault { (text : List ℕ) (comments : Bool) (a b : LexFault) →
        IsLexFault text comments a → IsLexFault text comments b → a ≡ b }
    ensures never_both { (text : List ℕ) (comments : Bool) (list : List Token) (fault : LexFault) →
        IsTokens text comments list → ¬ IsLexFault text comments fault }
{}
