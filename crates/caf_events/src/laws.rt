ghost use Rattle.std.specs.Prelude.{◌≡◌, List, ◌++◌, true, Some};
ghost use Rattle.caf_types.specs.ShapeTree.{ShapeTree};
ghost use Rattle.caf_words.specs.Datum.{Datum, fits};
ghost use Rattle.caf_events.specs.Event.{Event, events};
ghost use Rattle.caf_events.specs.Taking.{taking};

/// The events of a value of a shape are taken as that value, whatever follows them.
pub fn events_are_taken()
    ensures { (f : ShapeTree) (d : Datum) (rest : List Event) → fits f d ≡ true → taking f (events f d ++ rest) ≡ Some (d, rest) }
{}
