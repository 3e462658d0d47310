ghost use Rattle.std.specs.Prelude.{List, [], ◌∷◌, OnOk, OnErr};
ghost use Rattle.caf_events.specs.Event.{Event, unit, flag, unsigned, signed, text, bytes, place, list, object, field};
ghost use Rattle.caf_events.specs.Tells.{Tells, Keeps};

use caf_types::Memory;

/// What is told the events of a value, and keeps a form of it.
///
/// Each call adds its one event. Want of memory adds none: what was told before stays.
pub trait Save {
    /// Whether these are the events that the saver was told.
    ghost told: { Self → List Event → Type 0 };

    /// The value of the shape without parts.
    fn unit(&mut self) -> Result<(), Memory>
        ensures added { OnOk result (Tells told self.old self.new (unit ∷ [])) }
        ensures kept { OnErr result (Keeps told self.old self.new) };

    /// A flag.
    fn flag(&mut self, v: bool) -> Result<(), Memory>
        ensures added { OnOk result (Tells told self.old self.new (flag v ∷ [])) }
        ensures kept { OnErr result (Keeps told self.old self.new) };

    /// A whole number of 64 bits.
    fn unsigned(&mut self, v: u64) -> Result<(), Memory>
        ensures added { OnOk result (Tells told self.old self.new (unsigned v ∷ [])) }
        ensures kept { OnErr result (Keeps told self.old self.new) };

    /// A whole number of 64 bits in two's complement.
    fn signed(&mut self, v: i64) -> Result<(), Memory>
        ensures added { OnOk result (Tells told self.old self.new (signed v ∷ [])) }
        ensures kept { OnErr result (Keeps told self.old self.new) };

    /// A text.
    fn text(&mut self, v: &str) -> Result<(), Memory>
        ensures added { OnOk result (Tells told self.old self.new (text v.now ∷ [])) }
        ensures kept { OnErr result (Keeps told self.old self.new) };

    /// Bytes.
    fn bytes(&mut self, v: &[u8]) -> Result<(), Memory>
        ensures added { OnOk result (Tells told self.old self.new (bytes v.now ∷ [])) }
        ensures kept { OnErr result (Keeps told self.old self.new) };

    /// The number of a place. Of a value of a shape it is below 256.
    fn place(&mut self, v: u32) -> Result<(), Memory>
        ensures added { OnOk result (Tells told self.old self.new (place v ∷ [])) }
        ensures kept { OnErr result (Keeps told self.old self.new) };

    /// A list of `length` values, which come next.
    fn list(&mut self, length: u64) -> Result<(), Memory>
        ensures added { OnOk result (Tells told self.old self.new (list length ∷ [])) }
        ensures kept { OnErr result (Keeps told self.old self.new) };

    /// An object of so many fields, which come next, each with its name and its value.
    fn object(&mut self, fields: u64) -> Result<(), Memory>
        ensures added { OnOk result (Tells told self.old self.new (object fields ∷ [])) }
        ensures kept { OnErr result (Keeps told self.old self.new) };

    /// A field of that name, whose value comes next.
    fn field(&mut self, name: &str) -> Result<(), Memory>
        ensures added { OnOk result (Tells told self.old self.new (field name.now ∷ [])) }
        ensures kept { OnErr result (Keeps told self.old self.new) };
}
