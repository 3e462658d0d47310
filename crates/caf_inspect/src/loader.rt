ghost use Rattle.std.specs.Prelude.{◌≡◌, IfOk};
ghost use Rattle.caf_types.specs.Shape.{tree};
ghost use Rattle.caf_words.specs.Value.{datum};
ghost use Rattle.caf_events.specs.Event.{events};
ghost use Rattle.caf_events.specs.Queue.{queued};

use caf_events::{EventQueue, Load};
use caf_types::{Letters, Memory, Octets, Shape};
use caf_words::Value;
use std::alloc::Global;
use std::marker::PhantomData;

/// Gives the events of the value that an input of the form `F` is the form of.
#[derive(Drop)]
pub struct Loader<F> {
    pub(crate) events: EventQueue,
    form: PhantomData<F>,
}

impl<F> Loader<F> {
    /// Gives the events of a value of the shape.
    pub(crate) fn of_value(alloc: Global, shape: &Shape, value: &Value) -> Result<Loader<F>, Memory>
        ensures { IfOk result (λ loader. queued loader.events ≡ events (tree shape.now) (datum value.now)) }
    {
        let events = EventQueue::of_value(alloc, shape, value)?;
        Ok(Loader {
            events,
            form: PhantomData,
        })
    }
}

impl<F> Load for Loader<F> {
    ghost left = { λ loader. queued loader.events };

    fn unit(&mut self) {
        self.events.unit()
    }

    fn flag(&mut self) -> bool {
        self.events.flag()
    }

    fn unsigned(&mut self) -> u64 {
        self.events.unsigned()
    }

    fn signed(&mut self) -> i64 {
        self.events.signed()
    }

    fn text(&mut self, alloc: Global) -> Result<Letters, Memory> {
        self.events.text(alloc)
    }

    fn bytes(&mut self, alloc: Global) -> Result<Octets, Memory> {
        self.events.bytes(alloc)
    }

    fn place(&mut self) -> u32 {
        self.events.place()
    }

    fn list(&mut self) -> u64 {
        self.events.list()
    }

    fn object(&mut self) -> u64 {
        self.events.object()
    }

    fn field(&mut self, name: &str) {
        self.events.field(name)
    }
}
