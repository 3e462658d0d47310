//! The kinds of actors, and the types that they speak with.
//!
//! Model: a [`Kind`] is the value of one of these kinds, which is that of its fields; an [`Identity`] is
//! seen as place, peers and places of children. Each kind has a page of its own in `specs`, which says
//! what it takes (`interface`) and, at each input, its next value and its reaction (`reacted`). `Kinds`
//! puts them together, one line a kind, as the rules of a behaviour.
//!
//! The contract that the layers above rest on: a [`Kind`] is a behaviour, so all its laws hold for every
//! kind; [`Kind::start`] gives the value that its setup says; [`core_table`] has exactly the types of the
//! block `core` behind the built-in ones.
//!
//! A kind is added by its page (`specs/NAME.antt`), its module, its laws (`specs/NAMELaws.antt`, one lemma
//! `keeps`), and one line in each of these lists: `KindName`, `Kind` and its calls, `Kind::start`, and the
//! definitions of `Kinds`, `Starting` and `Laws`.
#![tactic(auto)]

mod alarm;
mod alarms;
mod asking;
mod atom;
mod calc;
mod cell;
mod collector;
mod conductor;
mod contents;
mod counter;
mod echo;
mod element;
mod file_chunks;
mod held;
mod holder;
mod identity;
mod kind;
mod laws;
mod lines;
mod peers;
mod place;
mod plain;
mod planning;
mod questions;
mod quitter;
mod relay;
mod row;
mod script;
mod setup;
mod sights;
mod signal;
mod source;
mod spawner;
mod starting;
mod table;
mod tally;
mod watcher;

pub use alarm::{AlarmClock, AlarmKind};
pub use alarms::{Alarms, Asker};
pub use atom::{
    Add, Alarm, Atom, Count, Get, Index, Leave, Link, More, Mul, Put, Rest, Ring, Seen, Settle,
    Spawn, Start, Sub, Totals, Unit, Wake, Watch,
};
pub use caf_script::StepReply;
pub use calc::{Calc, CalcKind};
pub use cell::{Cell, CellKind};
pub use collector::{Collector, CollectorKind};
pub use conductor::{Conductor, ConductorKind};
pub use contents::{Chunk, Extent, Finish, Item, Postings, Summary, Total};
pub use counter::{Counter, CounterKind};
pub use echo::{Echo, EchoKind};
pub use element::Element;
pub use file_chunks::FileChunks;
pub use held::HeldTexts;
pub use holder::{Holder, HolderKind};
pub use identity::{Identity, Typed};
pub use kind::Kind;
pub use laws::conductor_closes;
pub use lines::{Lines, LinesKind};
pub use place::{PlaceList, PlaceNumber};
pub use plain::{Signed, Text, Unsigned};
pub use questions::{HeldQuestion, HeldQuestions, Question};
pub use quitter::{Quitter, QuitterKind};
pub use relay::{Relay, RelayKind};
pub use row::{One, Three, Two};
pub use script::Step;
pub use setup::{KindName, Setup};
pub use sights::{Sights, Sought};
pub use signal::Signal;
pub use source::{Source, SourceKind, Stage};
pub use spawner::{Spawner, SpawnerKind};
pub use table::core_table;
pub use tally::Tally;
pub use watcher::{Watcher, WatcherKind};

#[cfg(test)]
mod tests;
