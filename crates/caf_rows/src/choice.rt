//! Who takes what.
use caf_driver::Chooser;
use caf_types::Places;

/// The chooser of a run.
#[derive(Clone, Copy, Debug, PartialEq, Eq, Drop)]
pub enum Choice {
    /// Round the places, each takes all that waits for it.
    RoundRobin,
    /// The last place offered takes all that waits of one sender.
    LastPlace,
    /// The first place offered takes one envelope.
    OneEach,
}

/// The first place offered takes one envelope, of the first sender offered.
#[derive(Clone, Copy, Debug, Drop)]
pub struct OneEach {
    has_begun: bool,
}

impl OneEach {
    /// No batch is begun.
    pub fn new() -> OneEach {
        OneEach { has_begun: false }
    }
}

impl Chooser for OneEach {
    fn place(&mut self, offered: &Places) -> u32 {
        self.has_begun = false;
        first_of(offered.as_slice())
    }

    fn sender(&mut self, _place: u32, offered: &Places) -> Option<u32> {
        if self.has_begun {
            return None;
        }
        self.has_begun = true;
        Some(first_of(offered.as_slice()))
    }
}

/// The first of the list; 0 of an empty one.
fn first_of(list: &[u32]) -> u32 {
    list.first().copied().unwrap_or(0)
}
