//! Choosers that go other ways than round the places.
use caf_driver::Chooser;
use caf_types::Places;

/// The last place offered takes a batch, of one sender alone: all that waits of the last sender offered.
#[derive(Clone, Copy, Debug, Drop)]
pub struct LastPlace {
    sender: Option<u32>,
}

impl LastPlace {
    /// No batch is begun.
    pub fn new() -> LastPlace {
        LastPlace { sender: None }
    }
}

impl Chooser for LastPlace {
    fn place(&mut self, offered: &Places) -> u32 {
        self.sender = None;
        last_of(offered.as_slice())
    }

    fn sender(&mut self, _place: u32, offered: &Places) -> Option<u32> {
        let sender = match self.sender {
            Some(sender) => sender,
            None => last_of(offered.as_slice()),
        };
        self.sender = Some(sender);
        if is_offered(offered.as_slice(), sender) {
            Some(sender)
        } else {
            None
        }
    }
}

/// The first place offered takes a batch: one envelope of each sender in turn, until none waits.
#[derive(Clone, Copy, Debug, Drop)]
pub struct SendersInTurn {
    last: Option<u32>,
}

impl SendersInTurn {
    /// No batch is begun.
    pub fn new() -> SendersInTurn {
        SendersInTurn { last: None }
    }
}

impl Chooser for SendersInTurn {
    fn place(&mut self, offered: &Places) -> u32 {
        self.last = None;
        first_of(offered.as_slice())
    }

    fn sender(&mut self, _place: u32, offered: &Places) -> Option<u32> {
        let sender = match self.last {
            Some(last) => first_past(offered.as_slice(), last),
            None => first_of(offered.as_slice()),
        };
        self.last = Some(sender);
        Some(sender)
    }
}

/// Always answers the same, offered or not.
#[derive(Clone, Copy, Debug, Drop)]
pub struct Always {
    /// The place that it answers.
    pub place: u32,
    /// The sender that it answers.
    pub sender: Option<u32>,
}

impl Chooser for Always {
    fn place(&mut self, _offered: &Places) -> u32 {
        self.place
    }

    fn sender(&mut self, _place: u32, _offered: &Places) -> Option<u32> {
        self.sender
    }
}

/// The last of the list; 0 of an empty one.
fn last_of(list: &[u32]) -> u32 {
    list.last().copied().unwrap_or(0)
}

/// The first of the list; 0 of an empty one.
fn first_of(list: &[u32]) -> u32 {
    list.first().copied().unwrap_or(0)
}

/// The first of the list that is greater, and without one the first.
fn first_past(list: &[u32], number: u32) -> u32 {
    match list.iter().find(|other| **other > number) {
        Some(other) => *other,
        None => first_of(list),
    }
}

fn is_offered(list: &[u32], number: u32) -> bool {
    list.iter().any(|other| *other == number)
}
