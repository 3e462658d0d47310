ghost use Rattle.std.specs.Prelude.{◌≡◌, ◌∷◌, ◌++◌, [], OnOk, OnErr, IfOk};
ghost use Rattle.caf_types.specs.Shape.{tree};
ghost use Rattle.caf_words.specs.Value.{datum};
ghost use Rattle.caf_events.specs.Event.{events};
ghost use Rattle.caf_events.specs.Queue.{queued, QueueHas};

use crate::{Item, Load, SaveItem, save_value};
use caf_types::{Letters, Memory, Octets, Shape};
use caf_words::Value;
use std::alloc::Global;
use std::collections::VecDeque;

/// Events that were told and not yet taken: what is saved into it is loaded from it.
#[derive(Debug, Drop)]
pub struct EventQueue {
    alloc: Global,
    pub(crate) items: VecDeque<Item>,
}

impl EventQueue {
    /// A queue without events. It takes no memory.
    pub fn new(alloc: Global) -> EventQueue
        ensures { QueueHas result [] }
    {
        EventQueue {
            alloc,
            items: VecDeque::new(alloc),
        }
    }

    /// The events of a value of the shape.
    pub fn of_value(alloc: Global, shape: &Shape, value: &Value) -> Result<EventQueue, Memory>
        ensures { IfOk result (λ queue. queued queue ≡ events (tree shape.now) (datum value.now)) }
    {
        let mut queue = EventQueue::new(alloc);
        save_value(shape, value, &mut queue)?;
        Ok(queue)
    }

    fn add(&mut self, item: Item) -> Result<(), Memory>
        ensures added { OnOk result (self.new.items.items ≡ self.old.items.items ++ item ∷ []) }
        ensures kept { OnErr result (self.new.items.items ≡ self.old.items.items) }
    {
        match self.items.push_back(item) {
            Ok(()) => Ok(()),
            Err(_) => Err(Memory),
        }
    }
}

impl SaveItem for EventQueue {
    ghost told = { QueueHas };

    fn alloc(&self) -> Global {
        self.alloc
    }

    fn save_item(&mut self, item: Item) -> Result<(), Memory> {
        self.add(item)
    }
}

impl Load for EventQueue {
    ghost left = { queued };

    fn unit(&mut self) {
        let _ = self.items.pop_front();
    }

    fn flag(&mut self) -> bool {
        match self.items.pop_front() {
            Some(Item::Flag(flag)) => flag,
            _ => unreachable!(),
        }
    }

    fn unsigned(&mut self) -> u64 {
        match self.items.pop_front() {
            Some(Item::Unsigned(number)) => number,
            _ => unreachable!(),
        }
    }

    fn signed(&mut self) -> i64 {
        match self.items.pop_front() {
            Some(Item::Signed(number)) => number,
            _ => unreachable!(),
        }
    }

    fn text(&mut self, _alloc: Global) -> Result<Letters, Memory> {
        match self.items.pop_front() {
            Some(Item::Text(text)) => Ok(text),
            _ => unreachable!(),
        }
    }

    fn bytes(&mut self, _alloc: Global) -> Result<Octets, Memory> {
        match self.items.pop_front() {
            Some(Item::Bytes(bytes)) => Ok(bytes),
            _ => unreachable!(),
        }
    }

    fn place(&mut self) -> u32 {
        match self.items.pop_front() {
            Some(Item::Place(place)) => place,
            _ => unreachable!(),
        }
    }

    fn list(&mut self) -> u64 {
        match self.items.pop_front() {
            Some(Item::List(length)) => length,
            _ => unreachable!(),
        }
    }

    fn object(&mut self) -> u64 {
        match self.items.pop_front() {
            Some(Item::Object(fields)) => fields,
            _ => unreachable!(),
        }
    }

    fn field(&mut self, _name: &str) {
        let _ = self.items.pop_front();
    }
}
