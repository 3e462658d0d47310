ghost use Rattle.std.specs.Prelude.{◌≡◌, false, ◌↔◌, ◌+◌, ◌<◌, IfOk, OnOk, OnErr, Err, IfNone, is_some, nat_lt, MatchOption, None, Some, length, remove, slice_index_or, [], ◌∷◌, ◌++◌};
ghost use Rattle.std.specs.Option.{option_map};
ghost use Rattle.caf_message.specs.Lists.{pick};
ghost use Rattle.caf_response.specs.declared.pending.Waiting.{Waiting};
ghost use Rattle.caf_response.specs.declared.fault.IssueFault.TheVariants.{Spent};
ghost use Rattle.caf_response.specs.Pending.{no_requests, issued, issued_within, HasSpent, top_number, resolved, expired, due_by, is_waiting, forgotten, has_number, add_waiting, AreNumbered};
ghost use Rattle.caf_response.specs.Filed.{AreFiled, waiting_in, seen_as};

use crate::IssueFault;
use crate::due::Due;
use caf_types::{LAST_COUNT, Memory, TypeIds};
use std::alloc::Global;
use std::collections::{BTreeMap, VecDeque};
use std::marker::Model;

/// How a requester waits.
///
/// As in CAF's manual: while it awaits a response, it handles that response before any other
/// message; multiplexed responses come between other messages.
#[derive(Clone, Copy, Debug, PartialEq, Eq, Drop)]
pub enum Mode {
    /// No content and no other response is handled until the response to this request was.
    Awaited,
    /// The response is handled when it comes.
    Multiplexed,
}

/// A request that waits for its response.
#[derive(Debug, Drop)]
pub struct Waiting {
    /// The requester's number of it, from 1.
    pub number: u64,
    /// What the requester knows it by.
    pub tag: u32,
    /// The types that the response is to have.
    pub expected: TypeIds,
}

/// The own requests of an actor that wait for their response, with the due counts that some have,
/// and the next number.
#[derive(Debug, Drop)]
pub struct Pending {
    next: u64,
    /// The one issued last comes first.
    awaited: VecDeque<Waiting>,
    multiplexed: BTreeMap<u64, Waiting>,
    due: Due,
}

impl Model for Pending {
    ghost use Rattle.caf_response.specs.Pending.{WaitingRequests};
    ghost use Rattle.caf_response.specs.Filed.{seen_as, IsInForm};

    ghost Value = { WaitingRequests };

    ghost view = { λ pending. seen_as pending.next pending.awaited.items pending.multiplexed.entries pending.due };

    ghost invariant = { λ pending. IsInForm pending.next pending.awaited.items pending.multiplexed.entries pending.due };
}

impl Pending {
    /// No requests. The first number is 1.
    pub fn new(alloc: Global) -> Pending
        ensures { result ≡ no_requests }
    {
        Pending {
            next: 1,
            awaited: VecDeque::new(alloc),
            multiplexed: BTreeMap::new(alloc),
            due: Due::new(alloc),
        }
    }

    /// Gives a new request the next number, from 1, and lets it wait: an awaited one on top of those
    /// awaited before it. Refused as [`IssueFault::Spent`] exactly where all 2^63 numbers were given,
    /// and as [`IssueFault::Memory`]; after a refusal all is as before.
    pub fn issue(&mut self, mode: Mode, tag: u32, expected: TypeIds) -> Result<u64, IssueFault>
        ensures number { IfOk result (λ number. number ≡ self.old.next) }
        ensures issued { OnOk result (self.new ≡ issued self.old mode tag expected) }
        ensures spent { (result ≡ Err Spent) ↔ HasSpent self.old }
        ensures kept { OnErr result (self.new ≡ self.old) }
        ensures numbered { AreNumbered self.new }
    {
        if self.has_spent() {
            return Err(IssueFault::Spent);
        }
        let number = self.next;
        let waiting = Waiting {
            number,
            tag,
            expected,
        };
        put(&mut self.awaited, &mut self.multiplexed, mode, waiting)?;
        self.next = number + 1;
        Ok(number)
    }

    /// [`Pending::issue`], and the request's time is over at that count of ticks.
    pub fn issue_within(
        &mut self,
        mode: Mode,
        tag: u32,
        expected: TypeIds,
        due: u64,
    ) -> Result<u64, IssueFault>
        ensures number { IfOk result (λ number. number ≡ self.old.next) }
        ensures issued { OnOk result (self.new ≡ issued_within self.old mode tag expected due) }
        ensures spent { (result ≡ Err Spent) ↔ HasSpent self.old }
        ensures kept { OnErr result (self.new ≡ self.old) }
        ensures numbered { AreNumbered self.new }
    {
        if self.has_spent() {
            return Err(IssueFault::Spent);
        }
        let number = self.next;
        let waiting = Waiting {
            number,
            tag,
            expected,
        };
        self.due.set(due, number)?;
        match put(&mut self.awaited, &mut self.multiplexed, mode, waiting) {
            Ok(()) => {
                self.next = number + 1;
                Ok(number)
            }
            Err(_) => {
                self.due.end(number);
                Err(IssueFault::Memory)
            }
        }
    }

    /// Whether all numbers were given.
    fn has_spent(&self) -> bool
        ensures { result ≡ nat_lt LAST_COUNT self.now.next }
    {
        self.next > LAST_COUNT
    }

    /// The number of the awaited request issued last; None exactly where nothing is awaited. It
    /// takes no memory.
    pub fn top(&self) -> Option<u64>
        ensures top { result ≡ top_number self.now.awaited }
        ensures numbered { AreNumbered self.now }
    {
        match self.awaited.front() {
            Some(waiting) => Some(waiting.number),
            None => None,
        }
    }

    /// Takes out the request with that number, and ends its due count; None exactly where it isn't
    /// waiting. It takes no memory.
    pub fn resolve(&mut self, number: u64) -> Option<Waiting>
        ensures resolved { option_map (λ waiting. (waiting, self.new)) result ≡ resolved self.old number }
        ensures some { is_some result ≡ is_waiting self.old number }
        ensures kept { IfNone result (self.new ≡ self.old) }
        ensures gone { is_waiting self.new number ≡ false }
        ensures numbered { AreNumbered self.new }
    {
        match self.multiplexed.remove(&number) {
            Some(waiting) => {
                self.due.end(number);
                Some(waiting)
            }
            None => match take_awaited(&mut self.awaited, number) {
                Some(waiting) => {
                    self.due.end(number);
                    Some(waiting)
                }
                None => None,
            },
        }
    }

    /// Takes out the request with the least due count, then the least number, where it is due by
    /// `now`; None exactly where none is. It takes no memory.
    pub fn expire(&mut self, now: u64) -> Option<Waiting>
        ensures expired { option_map (λ waiting. (waiting, self.new)) result ≡ expired self.old now }
        ensures some { is_some result ≡ is_some (due_by now self.old.due) }
        ensures kept { IfNone result (self.new ≡ self.old) }
        ensures numbered { AreNumbered self.new }
    {
        match self.due.first(now) {
            Some(number) => self.resolve(number),
            None => None,
        }
    }

    /// Lets no request wait any more or be due, as when the actor quits. The next number stays. It
    /// takes no memory.
    pub fn forget(&mut self)
        ensures forgotten { self.new ≡ forgotten self.old }
        ensures numbered { AreNumbered self.new }
    {
        self.awaited.clear();
        self.multiplexed.clear();
        self.due.clear();
    }
}

/// Lets a request wait, whose number is above those of the multiplexed ones.
fn put(
    awaited: &mut VecDeque<Waiting>,
    multiplexed: &mut BTreeMap<u64, Waiting>,
    mode: Mode,
    waiting: Waiting,
) -> Result<(), Memory>
    requires { AreFiled waiting.number multiplexed.old.entries }
    ensures awaited { OnOk result (awaited.new.items ≡ (add_waiting (seen_as waiting.number awaited.old.items multiplexed.old.entries []) mode waiting).awaited) }
    ensures multiplexed { OnOk result (waiting_in multiplexed.new.entries ≡ (add_waiting (seen_as waiting.number awaited.old.items multiplexed.old.entries []) mode waiting).multiplexed) }
    ensures filed { OnOk result (AreFiled (waiting.number + 1) multiplexed.new.entries) }
    ensures same_awaited { OnErr result (awaited.new.items ≡ awaited.old.items) }
    ensures same_multiplexed { OnErr result (multiplexed.new.entries ≡ multiplexed.old.entries) }
{
    match mode {
        Mode::Awaited => push_awaited(awaited, waiting),
        Mode::Multiplexed => add_multiplexed(multiplexed, waiting),
    }
}

/// Puts a request on top of the stack.
fn push_awaited(awaited: &mut VecDeque<Waiting>, waiting: Waiting) -> Result<(), Memory>
    ensures pushed { OnOk result (awaited.new.items ≡ waiting ∷ awaited.old.items) }
    ensures same { OnErr result (awaited.new.items ≡ awaited.old.items) }
{
    match awaited.push_front(waiting) {
        Ok(()) => Ok(()),
        Err(_) => Err(Memory),
    }
}

/// Puts a request behind the others, whose numbers are below its own.
fn add_multiplexed(multiplexed: &mut BTreeMap<u64, Waiting>, waiting: Waiting) -> Result<(), Memory>
    requires { AreFiled waiting.number multiplexed.old.entries }
    ensures added { OnOk result (waiting_in multiplexed.new.entries ≡ waiting_in multiplexed.old.entries ++ waiting ∷ []) }
    ensures filed { OnOk result (AreFiled (waiting.number + 1) multiplexed.new.entries) }
    ensures same { OnErr result (multiplexed.new.entries ≡ multiplexed.old.entries) }
{
    let number = waiting.number;
    match multiplexed.insert(number, waiting) {
        Ok(_) => Ok(()),
        Err(_) => Err(Memory),
    }
}

/// Takes the request with that number out of the stack.
fn take_awaited(stack: &mut VecDeque<Waiting>, number: u64) -> Option<Waiting>
    ensures taken { option_map (λ waiting. (waiting, stack.new.items)) result ≡ pick (has_number number) stack.old.items }
    ensures kept { IfNone result (stack.new.items ≡ stack.old.items) }
{
    let position = position_of(stack, number)?;
    stack.remove(position)
}

/// How far from the top the request with that number stands.
fn position_of(stack: &VecDeque<Waiting>, number: u64) -> Option<usize>
    ensures { MatchOption result (pick (has_number number) stack.now.items ≡ None) (λ i. (i < length stack.now.items) × ((d : Waiting) → pick (has_number number) stack.now.items ≡ Some (slice_index_or stack.now.items i d, remove stack.now.items i))) }
{
    for i in 0..stack.len() {
        if stack[i].number == number {
            return Some(i);
        }
    }
    None
}
