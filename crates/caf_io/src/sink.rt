ghost use Rattle.std.specs.Prelude.{◌≡◌, ℕ, ◌≤◌, List, Option, OnOk, OnErr};
ghost use Rattle.caf_io.specs.Faults.{Rose};
ghost use Rattle.caf_io.specs.Sink.{added, AddsPrefix};

use crate::Failed;

/// What bytes are written to.
pub trait Sink {
    /// All bytes that were written, where they are told.
    ghost written: { Self → Option (List ℕ) };

    /// How many writes failed; it stops at 2^64 - 1 and never falls.
    ghost faults: { Self → ℕ };

    /// Writes the whole piece at the end.
    ///
    /// [`Failed`] comes only where the count of faults rose in this call. Then a prefix of the
    /// piece was added: none of its bytes, some, or all. A write that is answered raises no count.
    fn write(&mut self, piece: &[u8]) -> Result<(), Failed>
        ensures whole { OnOk result (written self.new ≡ added (written self.old) piece.now) }
        ensures part { OnErr result (AddsPrefix (written self.old) (written self.new) piece.now) }
        ensures cause { OnErr result (Rose (faults self.old) (faults self.new)) }
        ensures no_fault { OnOk result (faults self.new ≡ faults self.old) }
        ensures never_falls { faults self.old ≤ faults self.new };
}
