//! Files of a run: none has a line that is too long, since none is longer than a line may be.
ghost use Rattle.std.specs.Prelude.{◌≡◌, ◌≤◌, length, nat_le};
ghost use Rattle.std.specs.List.{list_all};

use caf_types::{Octets, Seq};

/// Whether no file is longer.
pub(crate) fn are_short(files: &Seq<Octets>) -> bool
    ensures { result ≡ list_all (λ file. nat_le (length file) 1048576) files.now }
{
    files.as_slice().iter().all(|file| is_short(file))
}

fn is_short(file: &Octets) -> bool
    ensures { result ≡ nat_le (length file.now) 1048576 }
{
    file.len() <= 1048576
}
