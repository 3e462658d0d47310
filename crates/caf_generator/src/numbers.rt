ghost use Rattle.std.specs.Prelude.{◌≡◌, ◌+◌, ◌<◌, ◌^◌};
ghost use Rattle.caf_generator.specs.Generator.{number_at};

use std::marker::Model;

/// The numbers of the generator one after the other, seen as how many were taken.
#[derive(Debug, Drop)]
pub(crate) struct Numbers {
    taken: u64,
    next: u32,
}

impl Model for Numbers {
    ghost use Rattle.std.specs.Prelude.{◌≡◌, ◌<◌, ℕ};
    ghost use Rattle.caf_generator.specs.Generator.{number_at};

    ghost Value = { ℕ };

    ghost view = { λ it. it.taken };

    ghost invariant = { λ it. (it.next ≡ number_at it.taken) × (it.next < 65536) };
}

impl Numbers {
    /// None was taken.
    pub(crate) fn new() -> Numbers
        ensures { result ≡ 0 }
    {
        Numbers { taken: 0, next: 1 }
    }

    /// Takes the next number.
    pub(crate) fn take(&mut self) -> u32
        requires { self.old + 1 < 2 ^ 64 }
        ensures number { result ≡ number_at self.old }
        ensures taken { self.new ≡ self.old + 1 }
    {
        let number = self.next;
        self.next = (5 * number + 3) % 65_536;
        self.taken += 1;
        number
    }
}
