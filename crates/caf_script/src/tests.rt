ghost use Rattle.std.specs.Prelude.{[], ◌∷◌, refl, IfOk};
ghost use Rattle.caf_types.specs.ShapeTree.{unsigned};
ghost use Rattle.caf_types.specs.Table.{built_in};
ghost use Rattle.caf_words.specs.Datum.{an_unsigned, no_data, more};
ghost use Rattle.caf_message.specs.Fits.{FitsTable};

use crate::{Planned, Script, StepReply};
use caf_actor::Output;
use caf_message::{Message, MessageFault};
use caf_response::Mode;
use caf_types::{Memory, Priority, Reason, Sec, Seq, Shape, TypeId, TypeIds, TypeTable};
use caf_words::{Row, Stop, Value, read_word, write_word};
use std::alloc::Global;
use std::test::Fail;

/// One element of type `unsigned`.
#[derive(Drop)]
struct Number(u64);

impl Row for Number {
    ghost ids = { 2 ∷ [] };

    ghost shapes = { unsigned ∷ [] };

    ghost means = { λ row. more (an_unsigned row.0) no_data };

    fn types(alloc: Global) -> Result<TypeIds, Memory> {
        let mut types = Seq::new(alloc);
        types.push(TypeId(2))?;
        Ok(types)
    }

    fn shapes(alloc: Global) -> Result<Seq<Shape>, Memory> {
        let mut shapes = Seq::new(alloc);
        shapes.push(Shape::Unsigned)?;
        Ok(shapes)
    }

    fn write_words(&self, words: &mut Vec<u64>) -> Result<(), Memory> {
        write_word(words, self.0)
    }

    fn read_words(_alloc: Global, words: &[u64]) -> Result<(Number, &[u64]), Stop> {
        let (number, rest) = read_word(words)?;
        Ok((Number(number), rest))
    }

    ghost one_shape_each = { refl };

    ghost are_of_shapes = { λ row. refl };
}

/// The message of one number.
fn message_of(alloc: Global, number: u64) -> Result<Message, MessageFault>
    ensures { IfOk result (λ message. FitsTable built_in message.content) }
{
    let message = Message::of(alloc, &Number(number))?;
    Ok(message)
}

/// A request to place 1 with that tag, which is answered by a number.
fn ask(alloc: Global, tag: u32) -> Result<Planned, MessageFault> {
    let message = message_of(alloc, 5)?;
    let types = Number::types(alloc)?;
    let output = Output::Request(1, Priority::Normal, Mode::Multiplexed, tag, types, message);
    Ok(Planned::Ask(output, Number::types(alloc)?))
}

/// An exit of place 1.
fn exit() -> Planned {
    Planned::Send(Output::Exit(1, Reason::Kill))
}

/// What became of the step at that position: 0 nothing, 1 that it is open, 9 an error, and else the number that
/// answers it.
fn told(script: &Script, step: u64) -> u64 {
    match script.replies().get(step) {
        Some(StepReply::Open_) => 1,
        Some(StepReply::Value(values)) => first(values),
        Some(StepReply::Error(_)) => 9,
        Some(StepReply::Unsent) | None => 0,
    }
}

fn first(values: &Seq<Value>) -> u64 {
    match values.get(0) {
        Some(Value::Unsigned(number)) => *number,
        _ => 0,
    }
}

/// Two requests, a sync, an exit, a tick and a request.
fn script_of(alloc: Global) -> Result<Script, MessageFault> {
    let mut script = Script::new(alloc);
    script.add(ask(alloc, 1)?)?;
    script.add(ask(alloc, 2)?)?;
    script.add(Planned::Sync)?;
    script.add(exit())?;
    script.add(Planned::Tick)?;
    script.add(ask(alloc, 6)?)?;
    Ok(script)
}

#[test]
fn steps_wait_for_replies_and_for_ticks(rt: HostRuntime) -> Result<(), Fail> {
    let alloc = rt.alloc();
    let table = TypeTable::new(alloc)?;
    let mut script = script_of(alloc)?;
    assert_eq!(rt; script.go_on(alloc)?.len(), 2);
    assert_eq!(rt;
        (told(&script, 0), told(&script, 1), told(&script, 5)),
        (1, 1, 0)
    );
    let outputs = script.answer(alloc, &table, 2, message_of(alloc, 3)?)?;
    assert_eq!(rt; (outputs.len(), told(&script, 1)), (0, 3));
    let outputs = script.fail(alloc, 1, Sec::BrokenPromise)?;
    assert_eq!(rt; (outputs.len(), told(&script, 0)), (1, 9));
    assert_eq!(rt; script.tick(alloc)?.len(), 1);
    assert_eq!(rt; told(&script, 5), 1);
    script.stop();
    assert_eq!(rt; script.go_on(alloc)?.len(), 0);
    Ok(())
}
