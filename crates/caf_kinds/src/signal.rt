//! The same notice for each of several places.
ghost use Rattle.std.specs.Prelude.{◌≡◌, map, IfOk};
ghost use Rattle.caf_actor.specs.PlainForms.{plain_output};
ghost use Rattle.caf_kinds.specs.Signals.{signalled};

use caf_actor::Output;
use caf_types::{Memory, Reason, Seq};
use std::alloc::Global;

/// What each place is sent.
#[derive(Clone, Copy, Debug, PartialEq, Eq, Drop)]
pub enum Signal {
    /// A watch.
    Watch,
    /// A link.
    Link,
    /// A tick that is handed on.
    Tick,
    /// An exit notice with the reason `kill`.
    Kill,
}

impl Signal {
    /// What a place is sent.
    fn to(self, place: u32) -> Output
        ensures { plain_output result ≡ signalled self place }
    {
        match self {
            Signal::Watch => Output::Watch(place),
            Signal::Link => Output::Link(place),
            Signal::Tick => Output::Tick(place),
            Signal::Kill => Output::Exit(place, Reason::Kill),
        }
    }

    /// What the places are sent, in order.
    pub(crate) fn to_all(self, alloc: Global, places: &[u32]) -> Result<Seq<Output>, Memory>
        ensures { IfOk result (λ outputs. map plain_output outputs ≡ map (signalled self) places.now) }
    {
        let mut outputs = Seq::new(alloc);
        for place in places {
            let output = self.to(*place);
            outputs.push(output)?;
        }
        Ok(outputs)
    }
}
