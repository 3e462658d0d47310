ghost use Rattle.std.specs.Prelude.{◌≡◌, Ok};
ghost use Rattle.serde_json.specs.Data.{Data as Json};
ghost use Rattle.caf_types.specs.ShapeTree.{ShapeTree};
ghost use Rattle.caf_words.specs.Datum.{Datum};
ghost use Rattle.caf_json.specs.Form.{HasJson};
ghost use Rattle.caf_json.specs.Reading.{unjson};

/// JSON is read as a value exactly where it is that value's form, so it is the form of at most one.
pub fn json_is_exact()
    ensures read { (f : ShapeTree) (d : Datum) (j : Json) → HasJson f d j → unjson f j ≡ Ok d }
    ensures form { (f : ShapeTree) (d : Datum) (j : Json) → unjson f j ≡ Ok d → HasJson f d j }
    ensures one { (f : ShapeTree) (d e : Datum) (j : Json) → HasJson f d j → HasJson f e j → d ≡ e }
{}
