//! Laws of a store. They have no code.

ghost use Rattle.std.specs.Prelude.{◌≡◌, ℕ, List, slice_index};
ghost use Rattle.image_words.specs.Knowledge.{Fits};
ghost use Rattle.region_store.specs.declared.view.Use.{Use};
ghost use Rattle.region_store.specs.Images.{IsLike};
ghost use Rattle.region_store.specs.Uses.{image_at, UseFits, knowledge_of};

/// The image of a use's version is a list that fits what was known under that pin, with the bench that it encodes,
/// however many images were published since.
pub fn the_image_of_a_use_fits()
    ensures { (first : List ℕ) (images : List (List ℕ)) (u : Use) (buses : ℕ)
        (like : IsLike first (image_at images u.version))
        → buses ≡ slice_index first 1 → UseFits images u
        → Fits (knowledge_of buses u) (image_at images u.version) like.bench }
{}
