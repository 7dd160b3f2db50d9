//! Laws about the definitions that the contracts cite. They have no code.

ghost use Rattle.std.specs.Prelude.{◌≡◌, ◌≤◌, ◌⊎◌, List, ℤ, ℕ};
ghost use Rattle.exact_scale.specs.Limits.{most_places, IsNarrow, IsTooWide};
ghost use Rattle.exact_scale.specs.Numeral.{IsDecimalText, Denotes};

/// A text denotes one decimal at most.
pub fn decimal_is_unique()
    ensures { (text : List ℕ) (n m : ℤ) (k j : ℕ) →
        Denotes text n k → Denotes text m j → (n ≡ m) × (k ≡ j) }
{}

/// Each text is a decimal text or is none; one that is denotes a decimal; and each text denotes one within the
/// limits, or none.
pub fn a_decimal_text_denotes_one()
    ensures form { (text : List ℕ) → IsDecimalText text ⊎ (¬ IsDecimalText text) }
    ensures some { (text : List ℕ) → IsDecimalText text → (n : ℤ) × ((k : ℕ) × Denotes text n k) }
    ensures limits { (text : List ℕ) → ((n : ℤ) × ((k : ℕ) × (Denotes text n k × (k ≤ most_places) × IsNarrow n)))
        ⊎ ((n : ℤ) (k : ℕ) → Denotes text n k → IsTooWide n k) }
{}
