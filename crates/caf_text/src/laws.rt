ghost use Rattle.std.specs.Prelude.{◌≡◌, List, ℕ, Ok};
ghost use Rattle.std.specs.Str.{IsUtf8};
ghost use Rattle.caf_types.specs.ShapeTree.{ShapeTree};
ghost use Rattle.caf_words.specs.Datum.{Datum};
ghost use Rattle.caf_text.specs.TextForm.{HasText};
ghost use Rattle.caf_text.specs.TextReading.{untext};

/// A text is read as a value exactly where it is that value's form, so it is the form of at most one.
pub fn text_is_exact()
    ensures read { (f : ShapeTree) (d : Datum) (text : List ℕ) → HasText f d text → untext f text ≡ Ok d }
    ensures form { (f : ShapeTree) (d : Datum) (text : List ℕ) → IsUtf8 text → untext f text ≡ Ok d → HasText f d text }
    ensures one { (f : ShapeTree) (d e : Datum) (text : List ℕ) → HasText f d text → HasText f e text → d ≡ e }
{}
