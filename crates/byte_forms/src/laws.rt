//! Laws about the definitions that the contracts cite. They have no code.

ghost use Rattle.std.specs.Prelude.{◌≡◌, ◌↔◌, ◌++◌, ◌<◌, ◌≤◌, ◌^◌, ℕ, List, Some, true, length};
ghost use Rattle.std.specs.List.{list_all};
ghost use Rattle.byte_forms.specs.declared.class.Class.{Class};
ghost use Rattle.byte_forms.specs.declared.numerals.Radix.{Radix};
ghost use Rattle.byte_forms.specs.declared.numerals.Radix.TheVariants as radixes;
ghost use Rattle.byte_forms.specs.Classes.{is_in};
ghost use Rattle.byte_forms.specs.Numerals.{is_numeral, number_of, number_up_to};
ghost use Rattle.byte_forms.specs.Pieces.{after_literal, field_before, is_end_of};

/// What is found at the front of a text is what the text begins with.
pub fn pieces_are_what_a_text_begins_with()
    ensures literal { (literal bytes rest : List ℕ) → (after_literal literal bytes ≡ Some rest)
        ↔ (bytes ≡ literal ++ rest) }
    ensures found { (class : Class) (literal bytes field rest : List ℕ)
        → field_before class literal bytes ≡ Some (field, rest)
        → (bytes ≡ field ++ (literal ++ rest)) × (list_all (is_in class) field ≡ true) }

    // A literal that begins with a byte of the class would be taken for the end of the field.
    ensures there { (class : Class) (literal field rest : List ℕ) → list_all (is_in class) field ≡ true
        → is_end_of class literal ≡ true
        → field_before class literal (field ++ (literal ++ rest)) ≡ Some (field, rest) }
{}

/// A number is read exactly of a text of digits that denotes it, and so many decimal digits denote a number below
/// that power of ten.
pub fn a_number_is_that_of_its_digits()
    ensures value { (radix : Radix) (limit n : ℕ) (text : List ℕ) → (number_up_to radix limit text ≡ Some n)
        ↔ ((is_numeral radix text ≡ true) × (n ≡ number_of radix text) × (n ≤ limit)) }
    ensures below { (text : List ℕ) (count : ℕ) → is_numeral radixes.Decimal text ≡ true → length text ≤ count
        → number_of radixes.Decimal text < 10 ^ count }
{}
