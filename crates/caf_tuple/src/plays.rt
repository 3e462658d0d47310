//! What each atomic step at a block tells the one who makes it.
ghost use Rattle.caf_tuple.specs.Plays.{Retains, Tests, Reads, Writes, Releases, old_view, new_view};

use crate::block::View;
use atomic_table::{Play, Split};

/// The count goes up by 1, at a retain.
pub struct Retain;

impl Play<(), View> for Retain {
    ghost then = { Retains };
}

/// The two references of a view are parted.
pub struct Part;

impl Split<View> for Part {
    ghost left = { old_view };

    ghost right = { new_view };
}

/// The count is loaded.
pub struct Test;

impl Play<(), View> for Test {
    ghost then = { Tests };
}

/// A word of the payload is loaded.
pub struct Read;

impl Play<(), View> for Read {
    ghost then = { Reads };
}

/// A word of the payload is stored.
pub struct Write;

impl Play<(), View> for Write {
    ghost then = { Writes };
}

/// The count goes down by 1.
pub struct Release;

impl Play<(), View> for Release {
    ghost then = { Releases };
}
