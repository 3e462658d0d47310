//! The types that every other crate stands on: lists and texts, shapes of values and tables of named
//! types, errors, reasons and notices.
//!
//! Model: contracts see a [`Seq`] as the list of its items, a [`Letters`] or a [`Name`] as the list
//! of its bytes, a [`Shape`] as a plain tree, and a [`TypeTable`] as the finite map from IDs to named
//! shapes together with the list of its blocks' names.
//!
//! The contract above which all layers build: a table after [`TypeTable::add_block`] is the old map
//! with the block, a refused one is the old map, and look-ups tell what the map has. A refused call
//! leaves what it was lent as it was.
#![tactic(auto)]

mod declare;
mod filing;
mod laws;
mod letters;
mod limits;
mod listed;
mod memory;
mod name;
mod names_in_block;
mod notice;
mod reason;
mod sec;
mod seq;
mod shape;
mod table;
mod table_fault;

pub use declare::{declare_field, declare_type};
pub use laws::block_joins;
pub use letters::Letters;
pub use limits::{
    DEEPEST, FIRST_ID, LAST_COUNT, LAST_ID, LATEST_STAMP, LONGEST_NAME, OUTSIDE, PLACES,
};
pub use memory::Memory;
pub use name::{Name, NameFault};
pub use notice::{Mid, Notice, Priority};
pub use reason::Reason;
pub use sec::Sec;
pub use seq::{Octets, Places, Seq, TypeIds, Words};
pub use shape::{Entry, Field, Shape, TypeId};
pub use sqlite_items::{Boxed, Items};
pub use table::TypeTable;
pub use table_fault::TableFault;

#[cfg(test)]
mod tests;
