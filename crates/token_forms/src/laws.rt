//! Laws about the definitions that the contracts cite. They have no code of their own, but rest on laws of the crates
//! below.

ghost use Rattle.std.specs.Prelude.{◌≡◌, ◌↔◌, ◌⊎◌, ℕ, Bool, List, Some, All, false};
ghost use Rattle.exact_scale.specs.declared.scaling.Scale.{Scale};
ghost use Rattle.exact_scale.specs.Numeral.{IsDecimalText};
ghost use Rattle.byte_forms.specs.declared.numerals.Radix.{Radix};
ghost use Rattle.byte_forms.specs.Numerals.{number_up_to};
ghost use Rattle.sig_text.specs.declared.token.Token.{Token};
ghost use Rattle.sig_text.specs.Lexemes.{IsNumber};
ghost use Rattle.sig_text.specs.Tokens.{IsToken, IsTokens};
ghost use Rattle.token_forms.specs.declared.numbers.SignedNumber.{SignedNumber};
ghost use Rattle.token_forms.specs.Runs.{Form, TakesTokens, IsLongestRun, run_of};
ghost use Rattle.token_forms.specs.Pieces.{literal_at, word_at, string_at};
ghost use Rattle.token_forms.specs.Numbers.{is_hexadecimal, whole_at, digits_at, number_up_to_at, signed_at, signed_text};
ghost use Rattle.token_forms.specs.Grammar.{One, Quoted, IsWord, IsString, HasValue, IsDigits, Whole, NumberUpTo, Signed};
ghost use Rattle.token_forms.specs.Scaling.{IsScaling, HasNoScaling};

use exact_scale::{a_decimal_text_denotes_one, decimal_is_unique};

/// A number without `0x` is a decimal text, and so is one behind a sign: a signed number that is among the tokens of a
/// text is never of another form.
pub fn a_signed_number_is_a_decimal_text()
    ensures number { (text : List ℕ) → IsNumber text → is_hexadecimal text ≡ false → IsDecimalText text }
    ensures signed { (text : List ℕ) (tokens : List Token) (found : SignedNumber × List Token) →
        All (IsToken text) tokens → signed_at text tokens ≡ Some found → IsDecimalText (signed_text text found.0) }

    // The tokens of a text are such.
    ensures tokens { (text : List ℕ) (comments : Bool) (tokens : List Token) →
        IsTokens text comments tokens → All (IsToken text) tokens }
{}

/// The run that readers give of a form is the longest one, and there is no other.
pub fn one_longest_run<T>()
    ensures some { (form : Form T) (tokens : List Token) → TakesTokens form →
        IsLongestRun form tokens (run_of form tokens).0 (run_of form tokens).1 }
    ensures one { (form : Form T) (tokens : List Token) (xs ys : List T) (rest left : List Token) →
        IsLongestRun form tokens xs rest → IsLongestRun form tokens ys left → (xs ≡ ys) × (rest ≡ left) }
{}

/// A factor and an offset have one scale, or are too wide.
pub fn one_scale_or_none()
    ensures some { (factor offset : List ℕ) →
        ((scale : Scale) × IsScaling factor offset scale) ⊎ HasNoScaling factor offset }
    ensures one { (factor offset : List ℕ) (s t : Scale) →
        IsScaling factor offset s → IsScaling factor offset t → s ≡ t }
{
    decimal_is_unique();
    a_decimal_text_denotes_one();
}

/// Each form of a piece finds exactly what is at the front of the tokens, and leaves the tokens behind it.
pub fn forms_find_what_parses()
    ensures quoted { (text literal : List ℕ) (tokens rest : List Token) →
        (literal_at text literal tokens ≡ Some rest) ↔ Quoted text literal tokens rest }
    ensures word { (tokens : List Token) (word : Token) (rest : List Token) →
        (word_at tokens ≡ Some (word, rest)) ↔ One IsWord word tokens rest }
    ensures string { (tokens : List Token) (string : Token) (rest : List Token) →
        (string_at tokens ≡ Some (string, rest)) ↔ One IsString string tokens rest }
    ensures whole { (text : List ℕ) (limit : ℕ) (tokens : List Token) (n : ℕ) (rest : List Token) →
        (whole_at text limit tokens ≡ Some (n, rest)) ↔ Whole text limit n tokens rest }
    ensures digits { (text : List ℕ) (tokens : List Token) (digits : Token) (rest : List Token) →
        (digits_at text tokens ≡ Some (digits, rest)) ↔ One (IsDigits text) digits tokens rest }
    ensures number { (text : List ℕ) (limit : ℕ) (tokens : List Token) (n : ℕ) (rest : List Token) →
        (number_up_to_at text limit tokens ≡ Some (n, rest)) ↔ NumberUpTo text limit n tokens rest }
    ensures signed { (text : List ℕ) (tokens : List Token) (n : SignedNumber) (rest : List Token) →
        (signed_at text tokens ≡ Some (n, rest)) ↔ Signed text n tokens rest }

    // And so do the digits of a number.
    ensures value { (radix : Radix) (text : List ℕ) (limit n : ℕ) →
        (number_up_to radix limit text ≡ Some n) ↔ HasValue radix text limit n }
{}
