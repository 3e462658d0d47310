//! A run of actors on one thread.
//!
//! Model: a [`Driver`] is its actors, what waits to be taken by sender and receiver, how many notices
//! the outside has sent, and whether Stop was one (`DriverSeen`). A [`Chooser`] says who takes what.
//!
//! The contract that the layer above rests on: whatever the chooser says, at each return of
//! [`Driver::drive`] other than want of memory the record that the actors' journals hold is legal, what
//! waits is what it has untaken, and the [`DriveEnd`] is exact in it (`IsDriven`, `HasLegalRecord`,
//! `EndsSo`). [`Driver::finish`] hands back the actors with their journals.
#![tactic(auto)]

mod arrivals;
mod chooser;
mod collecting;
mod delivery;
mod drive;
mod driver;
mod mail;
mod places;
mod population;
mod sender_run;

pub use chooser::{Chooser, RoundRobin};
pub use drive::DriveEnd;
pub use driver::Driver;
pub use sender_run::SenderRun;
