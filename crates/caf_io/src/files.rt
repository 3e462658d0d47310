ghost use Rattle.std.specs.Prelude.{◌≡◌, ℕ, ◌<◌, ◌≤◌, ◌↔◌, List, length, take, Option, IfSome, IfOk, OnOk, OnErr};
ghost use Rattle.caf_io.specs.Faults.{Rose};
ghost use Rattle.caf_io.specs.Files.{Content, told_file, IsThere, AreNext};

use crate::Failed;

/// Files that can be read by name.
pub trait Files {
    /// The content of all files, where it is told; no call changes it.
    ghost told: { Self → Option Content };

    /// How many reads of the file of this name failed; it stops at 2^64 - 1 and never falls.
    ghost faults: { Self → List ℕ → ℕ };

    /// Reads bytes of the file `name` from position `from` on into the front of `buffer`, and
    /// answers their number. Where content is told, the number is 0 exactly where the file ends at
    /// or before `from`.
    ///
    /// [`Failed`] comes only where the count of faults of this name rose in this call, as at a
    /// name that is absent. Nothing is said of the buffer then. A read that is answered raises no
    /// count.
    fn read(&mut self, name: &str, from: u64, buffer: &mut [u8]) -> Result<u64, Failed>
        requires { 0 < length buffer.old }
        ensures within { IfOk result (λ count. count ≤ length buffer.new) }
        ensures bytes { IfOk result (λ count. IfSome (told_file (told self.old) name.now)
            (λ file. AreNext file from (take count buffer.new))) }
        ensures end { IfOk result (λ count. IfSome (told_file (told self.old) name.now)
            (λ file. (count ≡ 0) ↔ (length file ≤ from))) }
        ensures there { OnOk result (IsThere (told self.old) name.now) }
        ensures cause { OnErr result (Rose (faults self.old name.now) (faults self.new name.now)) }
        ensures no_fault { OnOk result ((other : List ℕ) → faults self.new other ≡ faults self.old other) }
        ensures same_content { told self.new ≡ told self.old }
        ensures none_falls { (other : List ℕ) → faults self.old other ≤ faults self.new other };
}
