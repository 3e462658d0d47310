ghost use Rattle.std.specs.Prelude.{◌≡◌, ℕ, List, ◌++◌, true, Some, Ok};
ghost use Rattle.caf_types.specs.ShapeTree.{ShapeTree};
ghost use Rattle.caf_types.specs.Table.{Table, Named, with_block};
ghost use Rattle.caf_words.specs.Datum.{Datum, Data, fits, is_in_range, are_in_range};
ghost use Rattle.caf_words.specs.Reading.{reading};
ghost use Rattle.caf_words.specs.Several.{several, several_fit, SeveralSpell, shapes_at};
ghost use Rattle.caf_words.specs.Spelling.{spelling, spellings, Spells};

/// A value of a shape that keeps to the ranges has exactly one spelling, and nothing else has any; and
/// so it is with several values.
pub fn values_are_spelled()
    ensures spelled { (f : ShapeTree) (d : Datum) → fits f d ≡ true → is_in_range d ≡ true → Spells f d (spelling d) }
    ensures fitting { (f : ShapeTree) (d : Datum) (ws : List ℕ) → Spells f d ws → (fits f d ≡ true) × (is_in_range d ≡ true) × (ws ≡ spelling d) }
    ensures several_spelled { (fs : List ShapeTree) (ds : Data) → several_fit fs ds ≡ true → are_in_range ds ≡ true → SeveralSpell fs ds (spellings ds) }
    ensures several_fitting { (fs : List ShapeTree) (ds : Data) (ws : List ℕ) → SeveralSpell fs ds ws → (several_fit fs ds ≡ true) × (are_in_range ds ≡ true) × (ws ≡ spellings ds) }
{}

/// No spelling of a shape is a proper prefix of another one of that shape, and no spelling stands for
/// two values.
pub fn spellings_are_prefix_free()
    ensures { (f : ShapeTree) (d e : Datum) (a b x y : List ℕ) → Spells f d a → Spells f e b → a ++ x ≡ b ++ y → (d ≡ e) × (x ≡ y) × (a ≡ b) }
{}

/// What was spelled is read again, whatever follows it.
pub fn spellings_are_read()
    ensures one { (f : ShapeTree) (d : Datum) (a rest : List ℕ) → Spells f d a → reading f (a ++ rest) ≡ Ok (d, rest) }
    ensures several { (fs : List ShapeTree) (ds : Data) (a rest : List ℕ) → SeveralSpell fs ds a → several fs (a ++ rest) ≡ Ok (ds, rest) }
{}

/// The types of a table keep their shapes when a block is added.
pub fn types_stay()
    ensures { (t : Table) (block : List ℕ) (first : ℕ) (ns : List Named) (ids : List ℕ) (fs : List ShapeTree) → shapes_at t ids ≡ Some fs → shapes_at (with_block t block first ns) ids ≡ Some fs }
{}
