ghost use Rattle.std.specs.Prelude.{◌≡◌, ◌++◌, IfOk, OnOk, map, bytes_eq};
ghost use Rattle.caf_words.specs.Several.{ids_of};
ghost use Rattle.caf_actor.specs.PlainForms.{plain_answer, plain_output, plain_reaction};
ghost use Rattle.caf_scripted.specs.Laws.{AnyValue};
ghost use Rattle.caf_scripted.specs.Laws as laws;
ghost use Rattle.caf_scripted.specs.Scripted.{scripted_rules, act_now, first_peer, takes_first, few, answer_by, output_by, outputs_by, echo, reaction_to, acted, cue_now, number_content, own_origin, signal_output, signals_by, reaction_by, noted, scripted_entries};

use crate::rows::Number;
use crate::{Act, Cue, Note, Reply, Sending, Signal};
use caf_actor::laws::another_message;
use caf_actor::{Answer, Behavior, Input, Origin, Output, Reaction, signature_of};
use caf_message::{Entries, Message, MessageFault};
use caf_signature::Interface;
use caf_types::{Memory, Mid, Places, Priority, Sec, Seq, TypeId, TypeIds, TypeTable};
use std::alloc::Global;

/// A behaviour that does what a script says: an act for each content, in order, and a cue for each
/// other input, in order. After the last act it echoes, and after the last cue it does nothing.
///
/// While it sleeps it keeps the first input of its interface for later.
#[derive(Debug, Drop)]
pub struct Scripted {
    /// Its own place.
    pub place: u32,
    /// Whom it sends to.
    pub peers: Places,
    /// The places of its children.
    pub reserve: Places,
    /// What it takes.
    pub interface: Interface,
    /// What it does, content by content.
    pub acts: Seq<Act>,
    /// What it does at the other inputs, input by input.
    pub cues: Seq<Cue>,
    /// How many contents it was given.
    pub done: u64,
    /// Whether it keeps the first input of its interface for later.
    pub is_asleep: bool,
    /// What it was given besides content.
    pub notes: Seq<Note>,
}

impl Entries for Scripted {
    ghost entries = { scripted_entries };
}

impl Behavior for Scripted {
    ghost rules = { scripted_rules };

    ghost is_valid = { AnyValue };

    fn interface(&self) -> &Interface {
        &self.interface
    }

    fn reserve(&self) -> &Places {
        &self.reserve
    }

    fn delegates(&self, _types: &TypeIds) -> bool {
        self.acts.as_slice().iter().any(|act| act.delegates())
    }

    fn skips(&self, types: &TypeIds) -> bool {
        self.is_asleep && takes_first_input(&self.interface, types.as_slice())
    }

    fn react(
        &mut self,
        alloc: Global,
        _table: &TypeTable,
        input: Input,
    ) -> Result<Reaction, Memory> {
        let cue = self.cue_now();
        match input {
            Input::Content(origin, message) => self.act(alloc, origin, message),
            Input::Stop => self.follow(alloc, Note::Stopped, cue.exits_alone()),
            Input::Tick => self.follow(alloc, Note::Ticked, cue),
            Input::Start => self.follow(alloc, Note::Started, cue.without_ticks()),
            Input::Response(tag, _) => {
                self.follow(alloc, Note::Responded(tag), cue.without_ticks())
            }
            Input::Failed(tag, sec) => {
                self.follow(alloc, Note::Failed(tag, sec), cue.without_ticks())
            }
            Input::Down(place, reason) => {
                self.follow(alloc, Note::Down(place, reason), cue.without_ticks())
            }
        }
    }

    ghost stays_valid = { laws.stays_valid };

    ghost stays_same_actor = { laws.stays_same_actor };

    ghost skips_inputs = { laws.skips_inputs };

    ghost fits_its_table = { laws.fits_its_table };

    ghost fits_its_entries = { laws.fits_its_entries };

    ghost answers_requests = { laws.answers_requests };

    ghost answers_as_declared = { laws.answers_as_declared };

    ghost delegates_as_told = { laws.delegates_as_told };

    ghost sends_to_peers = { laws.sends_to_peers };

    ghost sends_few = { laws.sends_few };

    ghost ticks_at_ticks = { laws.ticks_at_ticks };

    ghost stops_with_exits = { laws.stops_with_exits };
}

/// Whether these are the types of the interface's first input.
fn takes_first_input(interface: &Interface, types: &[TypeId]) -> bool
    ensures { result ≡ takes_first interface.now (ids_of types.now) }
{
    match interface.signatures().as_slice() {
        [first, ..] => have_same_ids(first.input.as_slice(), types),
        [] => false,
    }
}

fn have_same_ids(left: &[TypeId], right: &[TypeId]) -> bool
    ensures { result ≡ bytes_eq (ids_of left.now) (ids_of right.now) }
{
    left == right
}

impl Scripted {
    /// Does the next act.
    fn act(&mut self, alloc: Global, origin: Origin, message: Message) -> Result<Reaction, Memory>
        ensures next { OnOk result (self.new ≡ acted self.old (act_now self.old)) }
        ensures reaction { IfOk result (λ reaction. plain_reaction reaction ≡ reaction_to self.old (first_peer self.old.place self.old.peers) origin message.content (act_now self.old)) }
    {
        let act = self.act_now();
        let to = self.first_peer();
        let mut message = message;
        let mut outputs = Seq::new(alloc);
        self.send(alloc, &mut outputs, to, &origin, act.sending, &mut message)?;
        self.send(
            alloc,
            &mut outputs,
            to,
            &origin,
            act.afterwards,
            &mut message,
        )?;
        let answer = self.answer_by(to, &origin, act.reply, message);
        self.is_asleep = act.sleeps.unwrap_or(self.is_asleep);
        self.done = self.done.saturating_add(1);
        Ok(Reaction {
            outputs,
            answer,
            quit: act.quit,
        })
    }

    fn act_now(&self) -> Act
        ensures { result ≡ act_now self.now }
    {
        match self.acts.get(self.done) {
            Some(act) => *act,
            None => Act::only(Reply::Echo),
        }
    }

    /// Its first peer, or its own place.
    fn first_peer(&self) -> u32
        ensures { result ≡ first_peer self.now.place self.now.peers }
    {
        match self.peers.as_slice() {
            [first, ..] => *first,
            [] => self.place,
        }
    }

    /// The place of its first child, or its own place.
    fn first_child(&self) -> u32
        ensures { result ≡ first_peer self.now.place self.now.reserve }
    {
        match self.reserve.as_slice() {
            [first, ..] => *first,
            [] => self.place,
        }
    }

    fn send(
        &self,
        alloc: Global,
        outputs: &mut Seq<Output>,
        to: u32,
        origin: &Origin,
        sending: Option<Sending>,
        message: &mut Message,
    ) -> Result<(), Memory>
        ensures outputs { OnOk result (map plain_output outputs.new ≡ map plain_output outputs.old ++ outputs_by self.now to origin.now message.old.content sending) }
        ensures kept { message.new.content ≡ message.old.content }
    {
        match sending {
            None => Ok(()),
            Some(sending) => {
                let output = self.output_by(alloc, to, origin, sending, message)?;
                outputs.push(output)
            }
        }
    }

    fn output_by(
        &self,
        alloc: Global,
        to: u32,
        origin: &Origin,
        sending: Sending,
        message: &mut Message,
    ) -> Result<Output, Memory>
        ensures output { IfOk result (λ output. plain_output output ≡ output_by self.now to origin.now message.old.content sending) }
        ensures kept { message.new.content ≡ message.old.content }
    {
        let priority = origin.priority;
        match sending {
            Sending::Tell => {
                let copy = message.copy(alloc)?;
                Ok(Output::Tell(to, priority, copy))
            }
            Sending::Fan => {
                let another = another_message(alloc, message, true)?;
                let places = few_places(alloc, &self.peers)?;
                Ok(Output::TellMany(places, priority, another))
            }
            Sending::Ask(mode, tag, expected) => {
                let copy = message.copy(alloc)?;
                let mut types = TypeIds::new(alloc);
                types.push(expected)?;
                Ok(Output::Request(to, priority, mode, tag, types, copy))
            }
            Sending::Exit(reason) => Ok(Output::Exit(to, reason)),
            Sending::Link => Ok(Output::Link(to)),
            Sending::Unlink => Ok(Output::Unlink(to)),
            Sending::Watch => Ok(Output::Watch(to)),
            Sending::Unwatch => Ok(Output::Unwatch(to)),
            Sending::Deliver(requester, number) => {
                let copy = message.copy(alloc)?;
                Ok(Output::Deliver(requester, number, copy))
            }
            Sending::Break(requester, number, sec) => Ok(Output::Break(requester, number, sec)),
            Sending::Spawn => Ok(Output::Spawn(self.first_child())),
            Sending::Delay(ticks) => {
                let copy = message.copy(alloc)?;
                Ok(Output::Delay(ticks, to, priority, copy))
            }
            Sending::AskWithin(ticks, mode, tag, expected) => {
                let copy = message.copy(alloc)?;
                let mut types = TypeIds::new(alloc);
                types.push(expected)?;
                Ok(Output::Within(ticks, to, priority, mode, tag, types, copy))
            }
        }
    }

    fn answer_by(&self, to: u32, origin: &Origin, reply: Reply, message: Message) -> Answer
        ensures { plain_answer result ≡ answer_by self.now to origin.now message.content reply }
    {
        match reply {
            Reply::Echo => self.echo(message),
            Reply::Fail => Answer::Error(Sec::Failed),
            Reply::Ignore => {
                if origin.mid.number > 0 {
                    return Answer::Error(Sec::Failed);
                }
                Answer::Nothing
            }
            Reply::Delegate => Answer::Delegate(to),
            Reply::Hold => Answer::Hold,
        }
    }

    fn echo(&self, message: Message) -> Answer
        ensures { plain_answer result ≡ echo self.now.interface message.content }
    {
        let mut message = message;
        match signature_of(&self.interface, &mut message) {
            Some(signature) => {
                if have_same_ids(signature.result.as_slice(), signature.input.as_slice()) {
                    return Answer::Value(message);
                }
                Answer::Error(Sec::Failed)
            }
            None => Answer::Error(Sec::Failed),
        }
    }

    fn cue_now(&self) -> Cue
        ensures { result ≡ cue_now self.now }
    {
        match self.cues.get(self.notes.len()) {
            Some(cue) => *cue,
            None => Cue::none(),
        }
    }

    /// Follows the cue, and remembers the input.
    fn follow(&mut self, alloc: Global, note: Note, cue: Cue) -> Result<Reaction, Memory>
        ensures next { OnOk result (self.new ≡ noted self.old note) }
        ensures reaction { IfOk result (λ reaction. plain_reaction reaction ≡ reaction_by self.old cue) }
    {
        let mut outputs = Seq::new(alloc);
        self.send_number(alloc, &mut outputs, cue.sending, cue.number)?;
        self.signal(alloc, &mut outputs, cue.signal)?;
        self.notes.push(note)?;
        Ok(Reaction {
            outputs,
            answer: Answer::Nothing,
            quit: cue.quit,
        })
    }

    fn send_number(
        &self,
        alloc: Global,
        outputs: &mut Seq<Output>,
        sending: Option<Sending>,
        number: u64,
    ) -> Result<(), Memory>
        ensures { OnOk result (map plain_output outputs.new ≡ map plain_output outputs.old ++ outputs_by self.now (first_peer self.now.place self.now.peers) (own_origin self.now.place) (number_content number) sending) }
    {
        let to = self.first_peer();
        let origin = own_origin(self.place);
        let mut message = number_message(alloc, number)?;
        self.send(alloc, outputs, to, &origin, sending, &mut message)
    }

    /// Sends it to each peer, where these are at most 512.
    fn signal(
        &self,
        alloc: Global,
        outputs: &mut Seq<Output>,
        signal: Option<Signal>,
    ) -> Result<(), Memory>
        ensures { OnOk result (map plain_output outputs.new ≡ map plain_output outputs.old ++ signals_by self.now.peers signal) }
    {
        match signal {
            None => Ok(()),
            Some(signal) => {
                let places = few_places(alloc, &self.peers)?;
                signal_all(outputs, places.as_slice(), signal)
            }
        }
    }
}

fn signal_all(outputs: &mut Seq<Output>, places: &[u32], signal: Signal) -> Result<(), Memory>
    ensures { OnOk result (map plain_output outputs.new ≡ map plain_output outputs.old ++ map (signal_output signal) places.now) }
{
    for to in places {
        let output = signal_output(*to, signal);
        outputs.push(output)?;
    }
    Ok(())
}

fn signal_output(to: u32, signal: Signal) -> Output
    ensures { plain_output result ≡ signal_output signal to }
{
    match signal {
        Signal::Exit(reason) => Output::Exit(to, reason),
        Signal::Tick => Output::Tick(to),
    }
}

/// Where the content comes from that a behaviour sends of its own.
fn own_origin(place: u32) -> Origin
    ensures { result ≡ own_origin place }
{
    Origin {
        sender: place,
        mid: Mid {
            requester: place,
            number: 0,
            response: false,
        },
        priority: Priority::Normal,
    }
}

fn number_message(alloc: Global, number: u64) -> Result<Message, Memory>
    ensures { IfOk result (λ message. message.content ≡ number_content number) }
{
    match Message::of(alloc, &Number(number)) {
        Ok(message) => Ok(message),
        Err(MessageFault::Memory) => Err(Memory),
        Err(MessageFault::Large) => unreachable!(),
    }
}

/// The places, where these are at most 512, and else none.
fn few_places(alloc: Global, places: &Places) -> Result<Places, Memory>
    ensures { IfOk result (λ few'. few' ≡ few places.now) }
{
    if places.len() > 512 {
        return Ok(Places::new(alloc));
    }
    let few = Vec::from_slice(alloc, places.as_slice())?;
    Ok(Places::of_vec(few))
}
